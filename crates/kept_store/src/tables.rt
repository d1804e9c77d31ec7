//! Keeping the runs of packages that came in: each is copied from its inbox slot into the table slot of the same number.

ghost use Rattle.std.specs.Prelude.{◌≡◌, ◌≤◌, ◌<◌, ◌+◌, ◌*◌, true, false, IfOk, IsTrue, OnOk, Some, length, replicate, slice_index, slice_index_or};
ghost use Rattle.flash_pages.specs.State.{State, Ext, with_page};
ghost use Rattle.flash_pages.specs.Board.{View, Told, Reads, Programs, UsesFlash, WearsOnce, FlashFaults};
ghost use Rattle.flash_pages.specs.Moments.{LeavesOnly};
ghost use Rattle.component_package.specs.packages.Reading.{header_of, total_of, exports_at};
ghost use Rattle.kept_definitions.specs.Runs.{run_length, run_in_package};
ghost use Rattle.kept_manifests.specs.Slots.{IsSlotManifest};
ghost use Rattle.kept_store.specs.Tables.{table_first, table_pages, inbox_slot, FitsSlot, run_page, with_run, KeepsRun, OnlyTable, IsDue, run_page_count, IsAnother};

use crate::runs::run_pieces;
use component_package::Header;
use component_package::areas::SLOT_PAGES;
use external_flash::{program_if_different, read_bytes};
use flash_pages::{Board, Failed};
use kept_definitions::areas::{INBOX, TABLES};
use kept_manifests::SlotManifest;

// The header that an inbox slot begins with.
fn inbox_header<B: Board>(board: &mut B, slot: u8) -> Result<Header, Failed>
    requires { slot < 16 }
    ensures answer { IfOk result (λ h. Told (B.view board.old) (λ s. h ≡ header_of (inbox_slot slot s))) }
    ensures reads { Reads (B.view board.old) (B.view board.new) }
    ensures faults { FlashFaults result (B.view board.old) (B.view board.new) }
{
    let mut raw = [0; 32];
    read_bytes(board, INBOX + SLOT_PAGES * slot as u16, 0, &mut raw)?;
    Ok(Header::of_bytes(&raw))
}

// Where the exports of the package with this header begin.
fn exports_at(h: &Header) -> u32
    ensures at { result ≡ exports_at h.now }
    ensures behind { 32 ≤ result }
    ensures run { total_of h.now + 32 ≡ result + run_length h.now }
{
    32 + h.code as u32 + h.init as u32
}

// How long the run is of the package with this header.
fn run_length(h: &Header) -> u32
    ensures { result ≡ run_length h.now }
{
    32 + 6 * h.exports as u32 + 8 * h.relocs as u32
}

// How many pages that run takes, and none where the package doesn't fit a slot.
fn run_page_count(h: &Header) -> u8
    ensures count { result ≡ run_page_count h.now }
    ensures low { result ≤ 39 }
{
    if h.total() > 9984 {
        return 0;
    }
    ((run_length(h) + 255) / 256) as u8
}

// A page of 0xFF.
fn blank_page() -> [u8; 256]
    ensures { result ≡ replicate 256 255 }
{
    [0xFF; 256]
}

// Puts page `page` of the run of the package in an inbox slot into the front of a page, as far as the run goes.
fn put_run<B: Board>(
    board: &mut B,
    slot: u8,
    h: &Header,
    page: u8,
    into: &mut [u8; 256],
) -> Result<(), Failed>
    requires slot { slot < 16 }
    requires fits { total_of h.now ≤ 9984 }
    requires page { 256 * page < run_length h.now }
    ensures bytes { OnOk result (Told (B.view board.old) (λ s.
        h.now ≡ header_of (inbox_slot slot s) → into.old ≡ replicate 256 255 →
        into.new ≡ run_page (run_in_package (inbox_slot slot s)) page)) }
    ensures reads { Reads (B.view board.old) (B.view board.new) }
    ensures faults { FlashFaults result (B.view board.old) (B.view board.new) }
{
    let at = 256 * page as u32;
    let count = (run_length(h) - at).min(256) as usize;
    let first = INBOX + SLOT_PAGES * slot as u16;
    run_pieces(board, first, exports_at(h), at, &mut into[..count])?;
    Ok(())
}

// Page `page` of the run of the package in an inbox slot, with 0xFF behind its end.
fn table_page<B: Board>(board: &mut B, slot: u8, h: &Header, page: u8) -> Result<[u8; 256], Failed>
    requires slot { slot < 16 }
    requires fits { total_of h.now ≤ 9984 }
    requires page { 256 * page < run_length h.now }
    ensures bytes { IfOk result (λ bytes. Told (B.view board.old) (λ s.
        h.now ≡ header_of (inbox_slot slot s) →
        bytes ≡ run_page (run_in_package (inbox_slot slot s)) page)) }
    ensures reads { Reads (B.view board.old) (B.view board.new) }
    ensures faults { FlashFaults result (B.view board.old) (B.view board.new) }
{
    let mut bytes = blank_page();
    put_run(board, slot, h, page, &mut bytes)?;
    Ok(bytes)
}

// Brings that page into the table slot where it differs.
fn keep_page<B: Board>(board: &mut B, slot: u8, h: &Header, page: u8) -> Result<(), Failed>
    requires slot { slot < 16 }
    requires fits { total_of h.now ≤ 9984 }
    requires page { 256 * page < run_length h.now }
    ensures ok { OnOk result (Told (B.view board.old) (λ s.
        h.now ≡ header_of (inbox_slot slot s) →
        (B.view board.new).state ≡ Some (with_page s (Ext (table_first slot + page))
        (run_page (run_in_package (inbox_slot slot s)) page)))) }
    ensures programs { Programs (IsAnother slot h.now page) (Ext (table_first slot + page))
        (B.view board.old) (B.view board.new) }
    ensures faults { FlashFaults result (B.view board.old) (B.view board.new) }
{
    let bytes = table_page(board, slot, h, page)?;
    let place = TABLES + SLOT_PAGES * slot as u16 + page as u16;
    program_if_different(board, place, &bytes)?;
    Ok(())
}

// Brings the run of the package in an inbox slot into the table slot of the same number.
fn keep_run<B: Board>(board: &mut B, slot: u8) -> Result<(), Failed>
    requires { slot < 16 }
    ensures ok { OnOk result (Told (B.view board.old) (λ s.
        (B.view board.new).state ≡ Some (with_run slot s))) }
    ensures kept { OnOk result (Told (B.view board.old) (λ s. FitsSlot slot s →
        KeepsRun slot s (B.view board.new))) }
    ensures each { Told (B.view board.old) (λ s.
        LeavesOnly (OnlyTable slot s) 39 (B.view board.old) (B.view board.new)) }
    ensures wear { WearsOnce (λ s place. IsTrue (table_pages slot place))
        (B.view board.old) (B.view board.new) }
    ensures due { WearsOnce (IsDue slot) (B.view board.old) (B.view board.new) }
    ensures uses { UsesFlash (B.view board.old) (B.view board.new) }
    ensures faults { FlashFaults result (B.view board.old) (B.view board.new) }
{
    let h = inbox_header(board, slot)?;
    let count = run_page_count(&h);
    for page in 0..count {
        keep_page(board, slot, &h, page)?;
    }
    Ok(())
}

// The slot of an entry.
fn slot_of(m: &SlotManifest, k: u8) -> u8
    requires manifest { IsSlotManifest m.now }
    requires entry { k < m.now.manifest.count }
    ensures slot { result ≡ slice_index m.now.slots k }
    ensures low { result < 16 }
{
    m.slots[k as usize]
}

/// Keeps the run of fresh entry `k`: copies it from the entry's inbox slot, where it is the header and what stands behind code and data, into the first pages
/// of its table slot, with 0xFF to the end of the last one. A page is programmed only where it differs.
///
/// The loader calls it for each fresh entry of the chosen side before it closes the Go gate: from then on the run is found in the table slot alone. A package
/// that doesn't fit its slot, as its header says, leaves the board as it was; no sound board has one. `Failed` comes only where flash faults rose.
pub fn keep_tables<B: Board>(board: &mut B, m: &SlotManifest, k: u8) -> Result<(), Failed>
    requires manifest { IsSlotManifest m.now }
    requires entry { k < m.now.manifest.count }
    requires fresh { slice_index_or m.now.fresh k false ≡ true }
    ensures ok { OnOk result (Told (B.view board.old) (λ s.
        (B.view board.new).state ≡ Some (with_run (slice_index m.now.slots k) s))) }
    ensures kept { OnOk result (Told (B.view board.old) (λ s.
        FitsSlot (slice_index m.now.slots k) s →
        KeepsRun (slice_index m.now.slots k) s (B.view board.new))) }
    ensures each { Told (B.view board.old) (λ s.
        LeavesOnly (OnlyTable (slice_index m.now.slots k) s) 39
        (B.view board.old) (B.view board.new)) }
    ensures wear { WearsOnce (λ s place. IsTrue (table_pages (slice_index m.now.slots k) place))
        (B.view board.old) (B.view board.new) }
    // A page is programmed only where it doesn't hold those bytes of the run yet.
    ensures due { WearsOnce (IsDue (slice_index m.now.slots k))
        (B.view board.old) (B.view board.new) }
    ensures uses { UsesFlash (B.view board.old) (B.view board.new) }
    ensures faults { FlashFaults result (B.view board.old) (B.view board.new) }
{
    keep_run(board, slot_of(m, k))?;
    Ok(())
}
