//! What a set that was opened holds: exports, relocations and bytes.

ghost use Rattle.std.specs.Prelude.{◌≡◌, ◌≤◌, ◌<◌, ◌+◌, IfOk, OnErr, OnOk, Some, None, Ok, [], ◌∷◌, length, slice_get, slice_index, slice_range, if◌then◌else◌};
ghost use Rattle.flash_pages.specs.State.{State};
ghost use Rattle.flash_pages.specs.Board.{View, Told, Reads, FlashFaults};
ghost use Rattle.component_package.specs.declared.part.Export.{Export};
ghost use Rattle.component_package.specs.declared.part.Reloc.{Reloc};
ghost use Rattle.component_package.specs.packages.Component.{Component};
ghost use Rattle.component_package.specs.packages.Reading.{total_of, check_export_of, check_reloc_of};
ghost use Rattle.component_store.specs.Reader.{Keeps};
ghost use Rattle.component_store.specs.Sets.{IsSet, HasRooms, HoldsSet, IsComponentOf, header_at, length_of_part, part_of};

use crate::reader::SlotReader;
use crate::records::{export_raw, reloc_raw};
use crate::set::StoredSet;
use crate::slots::room;
use avr_reloc::RelocType;
use component_package::{Export, Header, Place, Reloc, check_export, check_reloc};
use flash_pages::{Board, Failed};

// What is answered of bytes that are no export, on a board that doesn't hold the set.
const NO_EXPORT: Export = Export {
    symbol: 0,
    place: Place::Absolute,
    weak: false,
    value: 0,
};

const NO_RELOC: Reloc = Reloc {
    offset: 0,
    in_init: false,
    weak: false,
    kind: RelocType::Abs32,
    target: 0,
    addend: 0,
};

// The export that six bytes spell, whatever came before it.
pub(crate) fn export_in(h: &Header, i: u16, raw: &[u8; 6]) -> Export
    ensures { (e : Export) → check_export_of h.now None i raw.now ≡ Ok e → result ≡ e }
{
    match check_export(h, None, i, raw) {
        Ok(export) => export,
        Err(_) => NO_EXPORT,
    }
}

// The relocation that eight bytes spell, whatever came before it and with whatever field.
fn reloc_in(h: &Header, i: u16, raw: &[u8; 8]) -> Reloc
    ensures { (r : Reloc) → check_reloc_of h.now None i raw.now (0 ∷ 0 ∷ 0 ∷ 0 ∷ []) ≡ Ok r →
        result ≡ r }
{
    match check_reloc(h, None, i, raw, &[0; 4]) {
        Ok(reloc) => reloc,
        Err(_) => NO_RELOC,
    }
}

// Where a part begins in the package.
fn part_start(h: &Header, in_init: bool) -> u32
    ensures { result ≡ 32 + (if in_init then h.now.code else 0) }
{
    if in_init { 32 + h.code as u32 } else { 32 }
}

// A reader of the slot of component `k`.
pub(crate) fn reader_of(set: &StoredSet, k: u8) -> SlotReader
    requires set { IsSet set.now }
    requires component { k < set.now.slots.manifest.count }
    ensures slot { result.slot ≡ slice_index set.now.slots.slots k }
    ensures low { result.slot < 32 }
    ensures keeps { (s : State) → Keeps s result }
    ensures whole { total_of (header_at set.now k) ≤ 9984 }
    ensures rooms { HasRooms set.now }
{
    let _entries = room(&set.slots.manifest.entries);
    let _header = set.headers[k as usize];
    SlotReader::new(set.slots.slots[k as usize])
}

/// Export `i` of component `k` of the set. `Failed` comes only where flash faults rose.
pub fn export_at<B: Board>(board: &mut B, set: &StoredSet, k: u8, i: u16) -> Result<Export, Failed>
    requires set { IsSet set.now }
    requires component { k < set.now.slots.manifest.count }
    requires export { i < (header_at set.now k).exports }
    ensures answer { IfOk result (λ e. Told (B.view board.old) (λ s. HoldsSet s set.now →
        (c : Component) → IsComponentOf s set.now k c → slice_get c.exports i ≡ Some e)) }
    ensures reads { Reads (B.view board.old) (B.view board.new) }
    ensures faults { FlashFaults result (B.view board.old) (B.view board.new) }
{
    let h = set.headers[k as usize];
    let mut table = reader_of(set, k);
    let raw = export_raw(board, &mut table, &h, i)?;
    Ok(export_in(&h, i, &raw))
}

// The reader, turned to the slot of component `k`.
fn turn_to(set: &StoredSet, table: &mut SlotReader, k: u8)
    requires set { IsSet set.now }
    requires component { k < set.now.slots.manifest.count }
    ensures slot { table.new.slot ≡ slice_index set.now.slots.slots k }
    ensures low { table.new.slot < 32 }
    ensures keeps { (s : State) → Keeps s table.old → Keeps s table.new }
    ensures whole { total_of (header_at set.now k) ≤ 9984 }
    ensures rooms { HasRooms set.now }
{
    let own = reader_of(set, k);
    if table.slot != own.slot {
        *table = own;
    }
}

/// Relocation `i` of component `k` of the set, by a reader that keeps the page that it read last: so relocations that are read in order cost each
/// page one read. The reader may be any, also one that was used for another component. `Failed` comes only where flash faults rose.
pub fn read_reloc<B: Board>(
    board: &mut B,
    set: &StoredSet,
    table: &mut SlotReader,
    k: u8,
    i: u16,
) -> Result<Reloc, Failed>
    requires set { IsSet set.now }
    requires component { k < set.now.slots.manifest.count }
    requires reloc { i < (header_at set.now k).relocs }
    ensures answer { IfOk result (λ r. Told (B.view board.old) (λ s. Keeps s table.old →
        HoldsSet s set.now → (c : Component) → IsComponentOf s set.now k c →
        slice_get c.relocs i ≡ Some r)) }
    ensures keeps { OnOk result (Told (B.view board.old) (λ s. Keeps s table.old →
        HoldsSet s set.now → (c : Component) → IsComponentOf s set.now k c → Keeps s table.new)) }
    ensures reads { Reads (B.view board.old) (B.view board.new) }
    ensures faults { FlashFaults result (B.view board.old) (B.view board.new) }
{
    let h = set.headers[k as usize];
    turn_to(set, table, k);
    let raw = reloc_raw(board, table, &h, i)?;
    Ok(reloc_in(&h, i, &raw))
}

/// Relocation `i` of component `k` of the set. `Failed` comes only where flash faults rose.
pub fn reloc_at<B: Board>(board: &mut B, set: &StoredSet, k: u8, i: u16) -> Result<Reloc, Failed>
    requires set { IsSet set.now }
    requires component { k < set.now.slots.manifest.count }
    requires reloc { i < (header_at set.now k).relocs }
    ensures answer { IfOk result (λ r. Told (B.view board.old) (λ s. HoldsSet s set.now →
        (c : Component) → IsComponentOf s set.now k c → slice_get c.relocs i ≡ Some r)) }
    ensures reads { Reads (B.view board.old) (B.view board.new) }
    ensures faults { FlashFaults result (B.view board.old) (B.view board.new) }
{
    let mut table = SlotReader::new(0);
    let reloc = read_reloc(board, set, &mut table, k, i)?;
    Ok(reloc)
}

/// Bytes of component `k` of the set, from byte `from` on of its code, or of its data where `in_init`. With `Failed` the buffer holds any bytes;
/// it comes only where flash faults rose.
pub fn part_bytes<B: Board>(
    board: &mut B,
    set: &StoredSet,
    k: u8,
    in_init: bool,
    from: u16,
    into: &mut [u8],
) -> Result<(), Failed>
    requires set { IsSet set.now }
    requires component { k < set.now.slots.manifest.count }
    requires within { from + length into.old ≤ length_of_part (header_at set.now k) in_init }
    ensures answer { OnOk result (Told (B.view board.old) (λ s. HoldsSet s set.now →
        (c : Component) → IsComponentOf s set.now k c → into.new ≡
        slice_range (part_of c in_init) from (from + length into.old))) }
    ensures reads { Reads (B.view board.old) (B.view board.new) }
    ensures faults { FlashFaults result (B.view board.old) (B.view board.new) }
{
    let h = set.headers[k as usize];
    let mut reader = reader_of(set, k);
    let start = part_start(&h, in_init) + from as u32;
    let mut at = 0;
    while at < into.len() {
        let end = (at + 256).min(into.len());
        reader.read(board, start + at as u32, &mut into[at..end])?;
        at = end;
    }
    Ok(())
}
