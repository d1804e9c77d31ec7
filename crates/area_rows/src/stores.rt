//! Pieces, sets and slots of the store of packages, and how often the pages of a set are read.

ghost use Rattle.component_package.specs.packages.Manifest.{IsSlotManifest};

use crate::boards::{begins, empty_board, over, put_package, release};
use crate::counting::CountingBoard;
use crate::parts::{CALLEE_PACKAGE, CALLER_PACKAGE, push_entry, push_number};
use component_package::SlotManifest;
use component_package::areas::SLOTS;
use component_store::{SetFault, StoreFault, check, is_held, open_set, piece_differs, put_piece};
use flash_pages::{Board, Failed};
use sha2::{Digest, Sha256};
use std::alloc::{AllocError, Global};
use std::test::Fail;

// Whether the caller's bytes are refused as a piece of another page, and as one that is too short.
fn refuses_pieces<B: Board>(board: &mut B) -> bool {
    let other_page = put_piece(board, 3, 46, 1, &CALLER_PACKAGE);
    let short = put_piece(board, 3, 46, 0, &CALLER_PACKAGE[..45]);
    other_page == Err(StoreFault::Page) && short == Err(StoreFault::PieceLength)
}

// Whether the caller's package is put into slot 3, and differs from what is there before that alone.
fn puts_the_caller<B: Board>(board: &mut B) -> bool {
    let before = piece_differs(board, 3, 46, 0, &CALLER_PACKAGE);
    let put = put_piece(board, 3, 46, 0, &CALLER_PACKAGE);
    let behind = piece_differs(board, 3, 46, 0, &CALLER_PACKAGE);
    before == Ok(true) && put == Ok(()) && behind == Ok(false)
}

// Whether slot 3 has the digest of the caller's package.
fn has_the_caller<B: Board>(board: &mut B) -> Result<bool, Failed> {
    check(board, 3, 46, &Sha256::digest(&CALLER_PACKAGE))
}

#[test]
fn a_piece_has_its_page_and_its_length(rt: HostRuntime) -> Result<(), Fail> {
    let mut board = empty_board(rt.alloc())?;
    assert_eq!(rt; has_the_caller(&mut board), Ok(false));
    assert!(rt; refuses_pieces(&mut board));
    assert!(rt; puts_the_caller(&mut board));
    assert_eq!(rt; has_the_caller(&mut board), Ok(true));
    assert!(rt; begins(board.ext_page(786 + 39 * 3), &CALLER_PACKAGE));
    assert_eq!(rt; board.program_count(), 1);
    Ok(())
}

// The manifest of the caller, and of a component of this number with the callee's package.
fn pair(alloc: Global, second: u16) -> Result<Vec<u8>, AllocError> {
    let mut manifest = vec![in alloc; 1, 0, 0, 0, 2]?;
    push_entry(&mut manifest, 1, 46, &Sha256::digest(&CALLER_PACKAGE))?;
    push_entry(&mut manifest, second, 40, &Sha256::digest(&CALLEE_PACKAGE))?;
    Ok(manifest)
}

// The second entry's component, whether slot 1 holds the callee, and what is answered: bytes of the caller's code and exports of the second.
type Opening = (u16, bool, Result<(u16, u16), SetFault>);

const OPENINGS: [Opening; 3] = [
    (2, false, Err(SetFault::Missing(1))),
    (2, true, Ok((6, 1))),
    // The digest is right, and the package is another component's.
    (3, true, Err(SetFault::BadPackage(1, 13))),
];

// What opening a set answers: bytes of the first component's code and exports of the second.
fn opening<B: Board>(board: &mut B, release: &SlotManifest) -> Result<(u16, u16), SetFault>
    requires { IsSlotManifest release.now }
{
    match open_set(board, release) {
        Ok(set) => Ok((set.headers[0].code, set.headers[1].exports)),
        Err(fault) => Err(fault),
    }
}

// Puts the caller into slot 0, and the callee into slot 1 where it is stored.
fn put_pair<B: Board>(board: &mut B, is_stored: bool) {
    put_package(board, 0, &CALLER_PACKAGE);
    if is_stored {
        put_package(board, 1, &CALLEE_PACKAGE);
    }
}

// Whether a row is answered so.
fn is_opened(alloc: Global, row: &Opening) -> Result<bool, Fail> {
    let (component, is_stored, want) = *row;
    let release = release(pair(alloc, component)?.as_slice())?;
    let mut board = empty_board(alloc)?;
    put_pair(&mut board, is_stored);
    Ok(opening(&mut board, &release) == want)
}

// The first of these that is answered otherwise.
fn first_wrong(alloc: Global, rows: &[Opening]) -> Result<Option<usize>, Fail> {
    for (i, row) in rows.iter().enumerate() {
        if !is_opened(alloc, row)? {
            return Ok(Some(i));
        }
    }
    Ok(None)
}

#[test]
fn a_set_is_opened(rt: HostRuntime) -> Result<(), Fail> {
    assert_eq!(rt; first_wrong(rt.alloc(), &OPENINGS)?, None);
    Ok(())
}

// The greatest package: 9,984 bytes, with 829 relocations of four bytes each in its code of 3,320.
fn greatest(alloc: Global) -> Result<Vec<u8>, AllocError> {
    let mut bytes = vec![in alloc;
        0x46, 0x43, 0x50, 0x31, 1, 0, 1, 0, 0xF8, 12, 0, 0, 0, 0, 0, 0, 0x3D, 3,
    ]?;
    bytes.resize(32 + 3320, 0)?;
    let mut offset = 0u16;
    for _ in 0..829 {
        push_number(&mut bytes, offset)?;
        bytes.extend_from_slice(&[0, 1, 0, 0, 0, 0])?;
        offset = offset.wrapping_add(4);
    }
    Ok(bytes)
}

// The least and the most reads of a page of slot 0 that its package fills.
fn least_and_most(board: &CountingBoard) -> (u8, u8) {
    let first = SLOTS as usize;
    let mut least = 255;
    let mut most = 0;
    for page in first..first + 39 {
        let reads = board.reads_of(page);
        least = reads.min(least);
        most = reads.max(most);
    }
    (least, most)
}

// Whether the greatest package is checked in slot 0 with one read of each page.
fn is_checked(board: &mut CountingBoard, digest: &[u8; 32]) -> bool {
    let checked = check(board, 0, 9984, digest);
    checked == Ok(true) && least_and_most(board) == (1, 1)
}

// The manifest of the greatest package.
fn single(alloc: Global, digest: &[u8; 32]) -> Result<Vec<u8>, AllocError> {
    let mut manifest = vec![in alloc; 1, 0, 0, 0, 1]?;
    push_entry(&mut manifest, 1, 9984, digest)?;
    Ok(manifest)
}

// Whether its set is opened with a few reads of each page, the one before that among them.
fn is_opened_sparingly(
    alloc: Global,
    board: &mut CountingBoard,
    digest: &[u8; 32],
) -> Result<bool, Fail> {
    let release = release(single(alloc, digest)?.as_slice())?;
    let is_opened = open_set(board, &release).is_ok();
    let (least, most) = least_and_most(board);
    Ok(is_opened && 2 < least && most <= 5)
}

// Puts the greatest package into slot 0, and gives its digest.
fn put_greatest(alloc: Global, board: &mut CountingBoard) -> Result<[u8; 32], AllocError> {
    let package = greatest(alloc)?;
    put_package(board, 0, package.as_slice());
    Ok(Sha256::digest(package.as_slice()))
}

#[test]
fn pages_are_read_four_times_at_most(rt: HostRuntime) -> Result<(), Fail> {
    let mut board = CountingBoard::new(rt.alloc())?;
    let digest = put_greatest(rt.alloc(), &mut board)?;
    assert!(rt; is_checked(&mut board, &digest));
    assert!(rt; is_opened_sparingly(rt.alloc(), &mut board, &digest)?);
    Ok(())
}

// Whether the components at `k` stand in slots `k` and `k` + 16, and the newer one is held by the newer release alone.
fn is_replaced(old: &SlotManifest, new: &SlotManifest, k: usize) -> bool
    requires old { IsSlotManifest old.now }
    requires new { IsSlotManifest new.now }
{
    if 16 <= k {
        return false;
    }
    let entry = new.manifest.entries[k];
    old.slots[k] as usize == k
        && new.slots[k] as usize == k + 16
        && !is_held(old, &entry)
        && is_held(new, &entry)
}

// The first of sixteen for which that isn't so.
fn wrong_entry(old: &SlotManifest, new: &SlotManifest) -> Option<usize>
    requires old { IsSlotManifest old.now }
    requires new { IsSlotManifest new.now }
{
    for k in 0..16usize {
        if !is_replaced(old, new, k) {
            return Some(k);
        }
    }
    None
}

// The manifest of a release of sixteen components, whose digests are this byte and the ones behind it.
fn sixteen(alloc: Global, release: u8, first: u8) -> Result<Vec<u8>, AllocError> {
    let mut manifest = vec![in alloc; release, 0, 0, 0, 16]?;
    for k in 0..16u8 {
        push_entry(&mut manifest, k as u16, 40, &[first.wrapping_add(k); 32])?;
    }
    Ok(manifest)
}

#[test]
fn sixteen_are_replaced_by_sixteen(rt: HostRuntime) -> Result<(), Fail> {
    let old = release(sixteen(rt.alloc(), 1, 0)?.as_slice())?;
    let new = over(&old, sixteen(rt.alloc(), 2, 16)?.as_slice())?;
    assert_eq!(rt; wrong_entry(&old, &new), None);
    Ok(())
}

// The manifest of the callee, and of a component that no release had before.
fn next_pair(alloc: Global) -> Result<Vec<u8>, AllocError> {
    let mut manifest = vec![in alloc; 2, 0, 0, 0, 2]?;
    push_entry(&mut manifest, 2, 40, &Sha256::digest(&CALLEE_PACKAGE))?;
    push_entry(&mut manifest, 3, 40, &[7; 32])?;
    Ok(manifest)
}

#[test]
fn a_held_entry_keeps_its_slot(rt: HostRuntime) -> Result<(), Fail> {
    let old = release(pair(rt.alloc(), 2)?.as_slice())?;
    let new = over(&old, next_pair(rt.alloc())?.as_slice())?;
    assert_eq!(rt; (old.slots[0], old.slots[1]), (0, 1));
    assert_eq!(rt; (new.slots[0], new.slots[1]), (1, 2));
    Ok(())
}
