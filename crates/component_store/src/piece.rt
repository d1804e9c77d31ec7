//! Pieces of a package: a page of its slot each.

ghost use Rattle.std.specs.Prelude.{◌≡◌, ◌≢◌, ◌↔◌, ◌≤◌, ◌<◌, ◌+◌, ◌*◌, true, false, IsTrue, IfOk, OnOk, length, replicate, [], Some, slice_set, slice_index_or};
ghost use Rattle.std.specs.Result.{result_err};
ghost use Rattle.flash_pages.specs.State.{State, page_at, with_page};
ghost use Rattle.flash_pages.specs.Board.{View, Told, Reads, Programs, FlashFaultsWhere};
ghost use Rattle.component_package.specs.mote.Page.{filled_page};
ghost use Rattle.component_package.specs.mote.Machine.{with_page_of};
ghost use Rattle.component_package.specs.mote.Store.{page_of_slot, slots_of};
ghost use Rattle.component_store.specs.Pieces.{piece_fault, is_fault, piece_place, IsPiece};

use crate::set::StoreFault;
use component_package::areas::{SLOT_PAGES, SLOTS};
use flash_pages::Board;

// What is wrong with the number of a page, or with a piece of so many bytes.
fn piece_fault(size: u16, page: u8, count: usize) -> Option<StoreFault>
    ensures { result ≡ piece_fault size page count }
{
    let start = 256 * page as u16;
    if size <= start {
        return Some(StoreFault::Page);
    }
    if count != (size - start).min(256) as usize {
        return Some(StoreFault::PieceLength);
    }
    None
}

fn blank_page() -> [u8; 256]
    ensures { result ≡ replicate 256 255 }
{
    [0xFF; 256]
}

// A piece, and 0xFF up to 256 bytes.
fn filled(bytes: &[u8]) -> [u8; 256]
    requires { length bytes.now ≤ 256 }
    ensures { result ≡ filled_page bytes.now }
{
    let mut page = blank_page();
    page[..bytes.len()].copy_from_slice(bytes);
    page
}

// The page of external flash that is this page of a slot.
pub(crate) fn page_of(slot: u8, page: u8) -> u16
    requires slot { slot < 32 }
    requires page { page < 39 }
    ensures page { result ≡ page_of_slot slot page }
    ensures within { result < 2048 }
{
    SLOTS + SLOT_PAGES * slot as u16 + page as u16
}

fn is_same(a: &[u8; 256], b: &[u8; 256]) -> bool
    ensures { IsTrue result ↔ (a.now ≡ b.now) }
{
    a == b
}

/// Whether a page of a slot holds other bytes than this piece and 0xFF up to 256, where the slot is to hold a package of `size` bytes (32 to 9,984).
///
/// `Page` comes exactly where 256 * page isn't below the size. `PieceLength` comes exactly where that isn't so and the piece isn't the lesser
/// of 256 and size - 256 * page bytes long. `Fault` comes only where flash faults rose.
pub fn piece_differs<B: Board>(
    board: &mut B,
    slot: u8,
    size: u16,
    page: u8,
    bytes: &[u8],
) -> Result<bool, StoreFault>
    requires slot { slot < 32 }
    requires least { 32 ≤ size }
    requires most { size ≤ 9984 }
    ensures refused { is_fault result ≡ false → result_err result ≡
        piece_fault size page (length bytes.now) }
    ensures answer { IfOk result (λ d. Told (B.view board.old) (λ s. IsTrue d ↔
        (page_at s (piece_place slot page) ≢ filled_page bytes.now))) }
    ensures reads { Reads (B.view board.old) (B.view board.new) }
    ensures faults { FlashFaultsWhere (is_fault result) (B.view board.old) (B.view board.new) }
{
    if let Some(fault) = piece_fault(size, page, bytes.len()) {
        return Err(fault);
    }
    let mut there = [0; 256];
    board.ext_read(page_of(slot, page), &mut there)?;
    Ok(!is_same(&there, &filled(bytes)))
}

/// Programs a page of a slot with this piece and 0xFF up to 256. It refuses what `piece_differs` refuses.
pub fn put_piece<B: Board>(
    board: &mut B,
    slot: u8,
    size: u16,
    page: u8,
    bytes: &[u8],
) -> Result<(), StoreFault>
    requires slot { slot < 32 }
    requires least { 32 ≤ size }
    requires most { size ≤ 9984 }
    ensures refused { is_fault result ≡ false → result_err result ≡
        piece_fault size page (length bytes.now) }
    ensures ok { OnOk result (Told (B.view board.old) (λ s. (B.view board.new).state ≡
        Some (with_page s (piece_place slot page) (filled_page bytes.now)))) }
    ensures programs { Programs (IsPiece size page (length bytes.now)) (piece_place slot page)
        (B.view board.old) (B.view board.new) }
    // The slot's page is these bytes, and all other slots are as they were.
    ensures slots { OnOk result ((s x : State) → (B.view board.old).state ≡ Some s →
        (B.view board.new).state ≡ Some x → slots_of x.ext ≡ slice_set (slots_of s.ext) slot
        (with_page_of page bytes.now (slice_index_or (slots_of s.ext) slot []))) }
    ensures faults { FlashFaultsWhere (is_fault result) (B.view board.old) (B.view board.new) }
{
    if let Some(fault) = piece_fault(size, page, bytes.len()) {
        return Err(fault);
    }
    board.ext_program(page_of(slot, page), &filled(bytes))?;
    Ok(())
}
