//! Clearing the fields of a component in a window of one of its parts.

ghost use Rattle.std.specs.Prelude.{◌≡◌, ◌≤◌, ◌<◌, ◌+◌, ◌^◌, IfOk, OnOk, Some, length, if◌then◌else◌};
ghost use Rattle.flash_pages.specs.State.{State, AreBytes};
ghost use Rattle.flash_pages.specs.Board.{View, Told, Reads, FlashFaults};
ghost use Rattle.external_flash.specs.Readers.{Keeps};
ghost use Rattle.component_package.specs.packages.Component.{Component};
ghost use Rattle.component_package.specs.packages.Reading.{reloc_end};
ghost use Rattle.component_store.specs.Sets.{length_of_part};
ghost use Rattle.kept_code.specs.Clear.{cleared_from};
ghost use Rattle.kept_store.specs.Sets.{IsSet, IsComponentOf, header_at};
ghost use Rattle.kept_store.specs.Fields.{is_before, is_past, AreBefore, narrowed};

use crate::records::read_reloc;
use crate::set::StoredSet;
use component_package::Reloc;
use external_flash::PageReader;
use flash_pages::{Board, Failed};
use kept_code::clear_field;

// Where a field ends in its part.
fn field_end(r: &Reloc) -> u32
    ensures end { result ≡ reloc_end r.now }
    ensures low { result < 2 ^ 20 }
{
    r.offset as u32 + r.kind.width() as u32
}

// Whether a field ends before this byte of a part: data comes behind code.
fn is_before(r: &Reloc, in_init: bool, from: u32) -> bool
    ensures { result ≡ is_before in_init from r.now }
{
    let ends = field_end(r) <= from;
    if r.in_init {
        in_init && ends
    } else {
        in_init || ends
    }
}

// Whether it begins at this byte of a part or behind it.
fn is_past(r: &Reloc, in_init: bool, end: u32) -> bool
    ensures { result ≡ is_past in_init end r.now }
{
    let begins = end <= r.offset as u32;
    if r.in_init {
        !in_init || begins
    } else {
        !in_init && begins
    }
}

// Relocations of which the first that doesn't end before a byte is one, or stands behind them.
#[derive(Clone, Copy)]
struct Span {
    low: u16,
    high: u16,
}

// The half of them in which it is still.
fn narrowed(span: Span, middle: u16, before: bool) -> Span
    requires { middle < span.high }
    ensures { result ≡ narrowed span middle before }
{
    if before {
        Span {
            low: middle + 1,
            high: span.high,
        }
    } else {
        Span {
            low: span.low,
            high: middle,
        }
    }
}

// The first relocation whose field doesn't end before byte `from` of a part.
fn first_field<B: Board>(
    board: &mut B,
    set: &StoredSet,
    table: &mut PageReader,
    k: u8,
    in_init: bool,
    from: u16,
) -> Result<u16, Failed>
    requires set { IsSet set.now }
    requires component { k < set.now.slots.manifest.count }
    ensures before { IfOk result (λ n. Told (B.view board.old) (λ s. Keeps s table.old →
        (c : Component) → IsComponentOf s set.now k c → AreBefore in_init from n c.relocs)) }
    ensures keeps { Told (B.view board.old) (λ s. Keeps s table.old → Keeps s table.new) }
    ensures reads { Reads (B.view board.old) (B.view board.new) }
    ensures faults { FlashFaults result (B.view board.old) (B.view board.new) }
{
    let high = set.headers[k as usize].relocs;
    let mut span = Span { low: 0, high };
    while span.low < span.high {
        let middle = span.low + (span.high - span.low) / 2;
        let reloc = read_reloc(board, set, table, k, middle)?;
        span = narrowed(span, middle, is_before(&reloc, in_init, from as u32));
    }
    Ok(span.low)
}

/// Clears the value bits of a component's fields in bytes of its code or data, from byte `from` of that part on.
pub(crate) fn clear_window<B: Board>(
    board: &mut B,
    set: &StoredSet,
    k: u8,
    in_init: bool,
    from: u16,
    into: &mut [u8],
) -> Result<(), Failed>
    requires set { IsSet set.now }
    requires component { k < set.now.slots.manifest.count }
    requires within { from + length into.old < 2 ^ 20 }
    ensures answer { OnOk result (Told (B.view board.old) (λ s. (c : Component) →
        IsComponentOf s set.now k c → AreBytes into.old → into.new ≡
        cleared_from from in_init c.relocs into.old)) }
    ensures reads { Reads (B.view board.old) (B.view board.new) }
    ensures faults { FlashFaults result (B.view board.old) (B.view board.new) }
{
    let end = from as u32 + into.len() as u32;
    let count = set.headers[k as usize].relocs;
    let mut table = PageReader::new();
    let first = first_field(board, set, &mut table, k, in_init, from)?;
    for i in first..count {
        let reloc = read_reloc(board, set, &mut table, k, i)?;
        if is_past(&reloc, in_init, end) {
            return Ok(());
        }
        clear_field(into, from as u32, in_init, &reloc);
    }
    Ok(())
}
