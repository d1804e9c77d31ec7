//! Code and data of a set's components, out of the package of a fresh one, or out of program flash for an installed one.

ghost use Rattle.std.specs.Prelude.{◌≡◌, ◌≤◌, ◌<◌, ◌+◌, ◌*◌, true, false, OnOk, Some, length, take, drop, slice_range, if◌then◌else◌};
ghost use Rattle.std.specs.List.{concat};
ghost use Rattle.flash_pages.specs.State.{State, Prog, page_at};
ghost use Rattle.flash_pages.specs.Board.{View, Told, Reads, FlashFaults};
ghost use Rattle.external_flash.specs.Areas.{bytes_from};
ghost use Rattle.component_package.specs.packages.Component.{Component};
ghost use Rattle.component_store.specs.Sets.{length_of_part, part_of};
ghost use Rattle.kept_store.specs.Sets.{IsSet, IsComponentOf, header_at, is_fresh, part_at};

use crate::fields::clear_window;
use crate::open::has_rooms;
use crate::records::slot_page;
use crate::set::StoredSet;
use external_flash::PageReader;
use flash_pages::{Board, Failed};

// Bytes of one page of program flash, from byte `at` of it on.
fn page_bytes<B: Board>(board: &mut B, page: u16, at: usize, into: &mut [u8]) -> Result<(), Failed>
    requires page { page < 480 }
    requires within { at + length into.old ≤ 256 }
    ensures ok { OnOk result (Told (B.view board.old) (λ s.
        into.new ≡ take (length into.old) (drop at (page_at s (Prog page))))) }
    ensures reads { Reads (B.view board.old) (B.view board.new) }
    ensures faults { FlashFaults result (B.view board.old) (B.view board.new) }
{
    let mut bytes = [0; 256];
    board.prog_read(page, &mut bytes)?;
    into.copy_from_slice(&bytes[at..at + into.len()]);
    Ok(())
}

// Bytes of program flash over the ends of pages, from byte `from` on.
fn flash_bytes<B: Board>(board: &mut B, from: u32, into: &mut [u8]) -> Result<(), Failed>
    requires within { from + length into.old ≤ 122880 }
    ensures ok { OnOk result (Told (B.view board.old) (λ s.
        into.new ≡ take (length into.old) (drop from (concat s.prog)))) }
    ensures reads { Reads (B.view board.old) (B.view board.new) }
    ensures faults { FlashFaults result (B.view board.old) (B.view board.new) }
{
    let mut at = 0;
    while at < into.len() {
        let place = from + at as u32;
        let start = (place % 256) as usize;
        let end = (at + (256 - start)).min(into.len());
        page_bytes(board, (place / 256) as u16, start, &mut into[at..end])?;
        at = end;
    }
    Ok(())
}

// Bytes of external flash from page `first` on, from byte `from` on, by one reader.
fn slot_bytes<B: Board>(board: &mut B, first: u16, from: u32, into: &mut [u8]) -> Result<(), Failed>
    requires within { 256 * first + from + length into.old ≤ 256 * 2048 }
    ensures ok { OnOk result (Told (B.view board.old) (λ s.
        into.new ≡ take (length into.old) (drop from (bytes_from first s)))) }
    ensures reads { Reads (B.view board.old) (B.view board.new) }
    ensures faults { FlashFaults result (B.view board.old) (B.view board.new) }
{
    let mut reader = PageReader::new();
    let mut at = 0;
    while at < into.len() {
        let end = (at + 256).min(into.len());
        reader.read(board, first, from + at as u32, &mut into[at..end])?;
        at = end;
    }
    Ok(())
}

// The byte of its inbox slot at which a part of a fresh component begins.
fn package_start(set: &StoredSet, k: u8, in_init: bool) -> u32
    requires set { IsSet set.now }
    requires component { k < set.now.slots.manifest.count }
    ensures at { result ≡ 32 + (if in_init then (header_at set.now k).code else 0) }
    ensures room { result + length_of_part (header_at set.now k) in_init ≤ 9984 }
{
    has_rooms(set);
    let h = set.headers[k as usize];
    if in_init { 32 + h.code as u32 } else { 32 }
}

// The byte of program flash at which a part of an installed component begins.
fn flash_start(set: &StoredSet, k: u8, in_init: bool) -> u32
    requires set { IsSet set.now }
    requires component { k < set.now.slots.manifest.count }
    requires installed { is_fresh set.now k ≡ false }
    ensures at { result ≡ part_at set.now k in_init }
    ensures room { result + length_of_part (header_at set.now k) in_init ≤ 122880 }
{
    has_rooms(set);
    if in_init {
        return set.init_at[k as usize];
    }
    set.code_at[k as usize]
}

// Bytes of a part of a fresh component, out of its package.
fn fresh_bytes<B: Board>(
    board: &mut B,
    set: &StoredSet,
    k: u8,
    in_init: bool,
    from: u16,
    into: &mut [u8],
) -> Result<(), Failed>
    requires set { IsSet set.now }
    requires component { k < set.now.slots.manifest.count }
    requires fresh { is_fresh set.now k ≡ true }
    requires within { from + length into.old ≤ length_of_part (header_at set.now k) in_init }
    ensures answer { OnOk result (Told (B.view board.old) (λ s. (c : Component) →
        IsComponentOf s set.now k c → into.new ≡
        slice_range (part_of c in_init) from (from + length into.old))) }
    ensures reads { Reads (B.view board.old) (B.view board.new) }
    ensures faults { FlashFaults result (B.view board.old) (B.view board.new) }
{
    let first = slot_page(set, k);
    let start = package_start(set, k, in_init);
    slot_bytes(board, first, start + from as u32, into)?;
    Ok(())
}

// Bytes of a part of an installed component, out of program flash, with the value bits of its fields cleared.
fn installed_bytes<B: Board>(
    board: &mut B,
    set: &StoredSet,
    k: u8,
    in_init: bool,
    from: u16,
    into: &mut [u8],
) -> Result<(), Failed>
    requires set { IsSet set.now }
    requires component { k < set.now.slots.manifest.count }
    requires installed { is_fresh set.now k ≡ false }
    requires within { from + length into.old ≤ length_of_part (header_at set.now k) in_init }
    ensures answer { OnOk result (Told (B.view board.old) (λ s. (c : Component) →
        IsComponentOf s set.now k c → into.new ≡
        slice_range (part_of c in_init) from (from + length into.old))) }
    ensures reads { Reads (B.view board.old) (B.view board.new) }
    ensures faults { FlashFaults result (B.view board.old) (B.view board.new) }
{
    let start = flash_start(set, k, in_init);
    flash_bytes(board, start + from as u32, into)?;
    clear_window(board, set, k, in_init, from, into)?;
    Ok(())
}

/// Bytes of component `k` of the set, from byte `from` on of its code, or of its data where `in_init`, as its package has them: with zeros in
/// the value bits of all fields. Those of an installed component are taken back from program flash. With `Failed` the buffer holds any bytes;
/// it comes only where flash faults rose.
pub fn part_bytes<B: Board>(
    board: &mut B,
    set: &StoredSet,
    k: u8,
    in_init: bool,
    from: u16,
    into: &mut [u8],
) -> Result<(), Failed>
    requires set { IsSet set.now }
    requires component { k < set.now.slots.manifest.count }
    requires within { from + length into.old ≤ length_of_part (header_at set.now k) in_init }
    ensures answer { OnOk result (Told (B.view board.old) (λ s. (c : Component) →
        IsComponentOf s set.now k c → into.new ≡
        slice_range (part_of c in_init) from (from + length into.old))) }
    ensures reads { Reads (B.view board.old) (B.view board.new) }
    ensures faults { FlashFaults result (B.view board.old) (B.view board.new) }
{
    if set.slots.fresh[k as usize] {
        fresh_bytes(board, set, k, in_init, from, into)?;
        return Ok(());
    }
    installed_bytes(board, set, k, in_init, from, into)?;
    Ok(())
}
