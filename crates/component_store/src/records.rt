//! The records of a package in a slot.

ghost use Rattle.std.specs.Prelude.{◌≡◌, ◌≤◌, ◌<◌, IfOk, OnErr, OnOk, Some};
ghost use Rattle.flash_pages.specs.State.{State};
ghost use Rattle.flash_pages.specs.Board.{View, Told, Reads, FlashFaults};
ghost use Rattle.component_package.specs.packages.Reading.{total_of, raw_export, raw_reloc, field_span_of};
ghost use Rattle.component_package.specs.Laws.{spanned_field};
ghost use Rattle.component_store.specs.Reader.{IsUnder, held_package};

use crate::reader::SlotReader;
use component_package::{Header, field_span};
use flash_pages::{Board, Failed};

/// The six bytes of export `i`.
pub(crate) fn export_raw<B: Board>(
    board: &mut B,
    table: &mut SlotReader,
    h: &Header,
    i: u16,
) -> Result<[u8; 6], Failed>
    requires slot { table.old.slot < 32 }
    requires whole { total_of h.now ≤ 9984 }
    requires inside { i < h.now.exports }
    ensures answer { IfOk result (λ raw. Told (B.view board.old) (λ s. IsUnder s table.old h.now →
        raw ≡ raw_export (held_package s table.old.slot h.now) i)) }
    ensures keeps { OnOk result (Told (B.view board.old) (λ s. IsUnder s table.old h.now →
        IsUnder s table.new h.now)) }
    ensures slot { table.new.slot ≡ table.old.slot }
    ensures reads { Reads (B.view board.old) (B.view board.new) }
    ensures faults { FlashFaults result (B.view board.old) (B.view board.new) }
{
    let mut raw = [0; 6];
    let at = 32 + h.code as u32 + h.init as u32 + 6 * i as u32;
    table.read(board, at, &mut raw)?;
    Ok(raw)
}

/// The eight bytes of relocation `i`.
pub(crate) fn reloc_raw<B: Board>(
    board: &mut B,
    table: &mut SlotReader,
    h: &Header,
    i: u16,
) -> Result<[u8; 8], Failed>
    requires slot { table.old.slot < 32 }
    requires whole { total_of h.now ≤ 9984 }
    requires inside { i < h.now.relocs }
    ensures answer { IfOk result (λ raw. Told (B.view board.old) (λ s. IsUnder s table.old h.now →
        raw ≡ raw_reloc (held_package s table.old.slot h.now) i)) }
    ensures keeps { OnOk result (Told (B.view board.old) (λ s. IsUnder s table.old h.now →
        IsUnder s table.new h.now)) }
    ensures slot { table.new.slot ≡ table.old.slot }
    ensures reads { Reads (B.view board.old) (B.view board.new) }
    ensures faults { FlashFaults result (B.view board.old) (B.view board.new) }
{
    let mut raw = [0; 8];
    let exports = 32 + h.code as u32 + h.init as u32;
    let at = exports + 6 * h.exports as u32 + 8 * i as u32;
    table.read(board, at, &mut raw)?;
    Ok(raw)
}

/// The bytes of a relocation's field, with zeros up to four; zeros where it lies in no part.
pub(crate) fn field_raw<B: Board>(
    board: &mut B,
    fields: &mut SlotReader,
    h: &Header,
    raw: &[u8; 8],
) -> Result<[u8; 4], Failed>
    requires slot { fields.old.slot < 32 }
    requires whole { total_of h.now ≤ 9984 }
    ensures answer { IfOk result (λ field. Told (B.view board.old) (λ s.
        IsUnder s fields.old h.now → field ≡
        spanned_field (held_package s fields.old.slot h.now) (field_span_of h.now raw.now))) }
    ensures keeps { OnOk result (Told (B.view board.old) (λ s. IsUnder s fields.old h.now →
        IsUnder s fields.new h.now)) }
    ensures slot { fields.new.slot ≡ fields.old.slot }
    ensures reads { Reads (B.view board.old) (B.view board.new) }
    ensures faults { FlashFaults result (B.view board.old) (B.view board.new) }
{
    let mut field = [0; 4];
    if let Some((at, width)) = field_span(h, raw) {
        fields.read(board, at, &mut field[..width as usize])?;
    }
    Ok(field)
}
