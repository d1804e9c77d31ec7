//! Exports and relocations of a set's components, out of the package of a fresh one, or the run of an installed one.

ghost use Rattle.std.specs.Prelude.{◌≡◌, ◌≤◌, ◌<◌, ◌+◌, ◌*◌, ◌^◌, IfOk, OnOk, Some, None, Ok, [], ◌∷◌, length, slice_get, slice_range};
ghost use Rattle.flash_pages.specs.State.{State};
ghost use Rattle.flash_pages.specs.Board.{View, Told, Reads, FlashFaults};
ghost use Rattle.external_flash.specs.Readers.{Keeps};
ghost use Rattle.component_package.specs.declared.part.Export.{Export};
ghost use Rattle.component_package.specs.declared.part.Reloc.{Reloc};
ghost use Rattle.component_package.specs.packages.Component.{Component};
ghost use Rattle.component_package.specs.packages.Reading.{check_export_of, check_reloc_of};
ghost use Rattle.kept_definitions.specs.Runs.{run_of, run_length};
ghost use Rattle.kept_store.specs.Sets.{IsSet, IsComponentOf, header_at};
ghost use Rattle.kept_store.specs.Open.{HasRooms};
ghost use Rattle.kept_store.specs.Records.{slot_page, records_at};

use crate::open::has_rooms;
use crate::set::StoredSet;
use avr_reloc::RelocType;
use component_package::areas::SLOT_PAGES;
use component_package::{Export, Header, Place, Reloc, check_export, check_reloc};
use external_flash::PageReader;
use flash_pages::{Board, Failed};
use kept_definitions::areas::{INBOX, TABLES};

// What is answered of bytes that are no export, on a board that doesn't hold the component.
const NO_EXPORT: Export = Export {
    symbol: 0,
    place: Place::Absolute,
    weak: false,
    value: 0,
};

const NO_RELOC: Reloc = Reloc {
    offset: 0,
    in_init: false,
    weak: false,
    kind: RelocType::Abs32,
    target: 0,
    addend: 0,
};

// The export that six bytes spell, whatever came before it.
fn export_in(h: &Header, i: u16, raw: &[u8; 6]) -> Export
    ensures { (e : Export) → check_export_of h.now None i raw.now ≡ Ok e → result ≡ e }
{
    match check_export(h, None, i, raw) {
        Ok(export) => export,
        Err(_) => NO_EXPORT,
    }
}

// The relocation that eight bytes spell, whatever came before it and with whatever field.
fn reloc_in(h: &Header, i: u16, raw: &[u8; 8]) -> Reloc
    ensures { (r : Reloc) → check_reloc_of h.now None i raw.now (0 ∷ 0 ∷ 0 ∷ 0 ∷ []) ≡ Ok r →
        result ≡ r }
{
    match check_reloc(h, None, i, raw, &[0; 4]) {
        Ok(reloc) => reloc,
        Err(_) => NO_RELOC,
    }
}

/// The first page of the slot that has component `k`: an inbox slot where it is fresh, else a table slot.
pub(crate) fn slot_page(set: &StoredSet, k: u8) -> u16
    requires set { IsSet set.now }
    requires component { k < set.now.slots.manifest.count }
    ensures page { result ≡ slot_page set.now k }
    ensures low { result + 39 ≤ 2048 }
    ensures rooms { HasRooms set.now }
{
    has_rooms(set);
    let slot = set.slots.slots[k as usize] as u16;
    if set.slots.fresh[k as usize] {
        return INBOX + SLOT_PAGES * slot;
    }
    TABLES + SLOT_PAGES * slot
}

/// The byte of that slot at which its exports begin: behind code and data in a package, and behind the header in a run.
pub(crate) fn records_at(set: &StoredSet, k: u8) -> u32
    requires set { IsSet set.now }
    requires component { k < set.now.slots.manifest.count }
    ensures at { result ≡ records_at set.now k }
    ensures behind { 32 ≤ result }
    ensures room { result + run_length (header_at set.now k) ≤ 9984 + 32 }
{
    has_rooms(set);
    if set.slots.fresh[k as usize] {
        let h = set.headers[k as usize];
        return 32 + h.code as u32 + h.init as u32;
    }
    32
}

/// Bytes of a component's run behind its header, from byte `at` of the run on, by a reader that keeps the page that it read last.
pub(crate) fn run_bytes<B: Board>(
    board: &mut B,
    set: &StoredSet,
    table: &mut PageReader,
    k: u8,
    at: u32,
    into: &mut [u8],
) -> Result<(), Failed>
    requires set { IsSet set.now }
    requires component { k < set.now.slots.manifest.count }
    requires behind { 32 ≤ at }
    requires short { length into.old ≤ 256 }
    requires within { at + length into.old ≤ run_length (header_at set.now k) }
    ensures answer { OnOk result (Told (B.view board.old) (λ s. Keeps s table.old → (c : Component) →
        IsComponentOf s set.now k c → into.new ≡
        slice_range (run_of c) at (at + length into.old))) }
    ensures keeps { Told (B.view board.old) (λ s. Keeps s table.old → Keeps s table.new) }
    ensures reads { Reads (B.view board.old) (B.view board.new) }
    ensures faults { FlashFaults result (B.view board.old) (B.view board.new) }
{
    let first = slot_page(set, k);
    let from = records_at(set, k) + (at - 32);
    table.read(board, first, from, into)?;
    Ok(())
}

/// Export `i` of component `k` of the set. `Failed` comes only where flash faults rose.
pub fn export_at<B: Board>(board: &mut B, set: &StoredSet, k: u8, i: u16) -> Result<Export, Failed>
    requires set { IsSet set.now }
    requires component { k < set.now.slots.manifest.count }
    requires export { i < (header_at set.now k).exports }
    ensures answer { IfOk result (λ e. Told (B.view board.old) (λ s. (c : Component) →
        IsComponentOf s set.now k c → slice_get c.exports i ≡ Some e)) }
    ensures reads { Reads (B.view board.old) (B.view board.new) }
    ensures faults { FlashFaults result (B.view board.old) (B.view board.new) }
{
    let h = set.headers[k as usize];
    let mut table = PageReader::new();
    let mut raw = [0; 6];
    run_bytes(board, set, &mut table, k, 32 + 6 * i as u32, &mut raw)?;
    Ok(export_in(&h, i, &raw))
}

// The byte of a run at which its relocations begin.
fn relocs_start(h: &Header) -> u32
    ensures at { result ≡ 32 + 6 * h.now.exports }
    ensures low { result ≤ 2 ^ 20 }
{
    32 + 6 * h.exports as u32
}

/// Relocation `i` of component `k` of the set, by a reader that keeps the page that it read last: so relocations that are read in order cost each
/// page one read. The reader may be any, also one that was used for another component. `Failed` comes only where flash faults rose.
pub fn read_reloc<B: Board>(
    board: &mut B,
    set: &StoredSet,
    table: &mut PageReader,
    k: u8,
    i: u16,
) -> Result<Reloc, Failed>
    requires set { IsSet set.now }
    requires component { k < set.now.slots.manifest.count }
    requires reloc { i < (header_at set.now k).relocs }
    ensures answer { IfOk result (λ r. Told (B.view board.old) (λ s. Keeps s table.old →
        (c : Component) → IsComponentOf s set.now k c → slice_get c.relocs i ≡ Some r)) }
    ensures keeps { Told (B.view board.old) (λ s. Keeps s table.old → Keeps s table.new) }
    ensures reads { Reads (B.view board.old) (B.view board.new) }
    ensures faults { FlashFaults result (B.view board.old) (B.view board.new) }
{
    let h = set.headers[k as usize];
    let mut raw = [0; 8];
    let at = relocs_start(&h) + 8 * i as u32;
    run_bytes(board, set, table, k, at, &mut raw)?;
    Ok(reloc_in(&h, i, &raw))
}

/// Relocation `i` of component `k` of the set. `Failed` comes only where flash faults rose.
pub fn reloc_at<B: Board>(board: &mut B, set: &StoredSet, k: u8, i: u16) -> Result<Reloc, Failed>
    requires set { IsSet set.now }
    requires component { k < set.now.slots.manifest.count }
    requires reloc { i < (header_at set.now k).relocs }
    ensures answer { IfOk result (λ r. Told (B.view board.old) (λ s. (c : Component) →
        IsComponentOf s set.now k c → slice_get c.relocs i ≡ Some r)) }
    ensures reads { Reads (B.view board.old) (B.view board.new) }
    ensures faults { FlashFaults result (B.view board.old) (B.view board.new) }
{
    let mut table = PageReader::new();
    let reloc = read_reloc(board, set, &mut table, k, i)?;
    Ok(reloc)
}
