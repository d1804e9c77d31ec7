//! What only the second layout has: installed components that are taken back from program flash, room for the application, and boards of the first
//! layout, which are formatted anew.

use crate::worked::{
    CALLEE, CALLER, command, faultless, has_program, push_frame, push_manifest, ran, session,
    updated,
};
use component_package::areas::SLOT_PAGES;
use component_package::frames::{BOOT, COMMIT, LINK};
use external_flash::{Gate, open_gate};
use flash_pages::{Board, MemoryBoard};
use kept_definitions::areas::{INBOX, TABLES};
use std::alloc::{AllocError, Global};
use std::test::Fail;

// The run of the caller: its header and its one relocation, which is to symbol 16.
const RUN: &[u8] =
    b"FCP1\x01\0\x01\0\x06\0\0\0\0\0\0\0\x01\0\0\0\0\0\0\0\0\0\0\0\0\0\0\0\0\0\0\x12\x10\0\0\0";

// The image of the callee and the caller: the call is to byte 0.
const SWAPPED: [u8; 8] = [0x08, 0x95, 0x0E, 0x94, 0, 0, 0xFF, 0xCF];

// The release of both in the other order, without a piece.
fn swap(alloc: Global) -> Result<Vec<u8>, AllocError> {
    let mut packages = Vec::new(alloc);
    packages.push(CALLEE.to_vec(alloc)?)?;
    packages.push(CALLER.to_vec(alloc)?)?;
    let mut bytes = Vec::new(alloc);
    push_manifest(alloc, &mut bytes, 2, packages.as_slice())?;
    for kind in [LINK, COMMIT, BOOT] {
        push_frame(&mut bytes, kind, &[])?;
    }
    Ok(bytes)
}

// Whether table slot 0 begins with the run of the caller, and has 0xFF behind it to the page's end.
fn has_run(board: &MemoryBoard) -> bool {
    let page = board.ext_page(TABLES);
    page.starts_with(RUN) && page.get(RUN.len()..256).is_some_and(|rest| is_erased(rest))
}

fn is_erased(bytes: &[u8]) -> bool {
    for byte in bytes {
        if *byte != 0xFF {
            return false;
        }
    }
    true
}

// The application uses both inbox slots of the pair, and the second page of both table slots.
fn uses_the_rest(board: &mut MemoryBoard) -> bool {
    for slot in 0..2u16 {
        for page in [INBOX + SLOT_PAGES * slot, TABLES + SLOT_PAGES * slot + 1] {
            if board.ext_program(page, &[0xA5; 256]).is_err() {
                return false;
            }
        }
    }
    true
}

// A board on which the pair is installed, and whether its caller's run is there and the rest could be used.
fn installed(alloc: Global) -> Result<(MemoryBoard, bool), Fail> {
    let input = updated(alloc)?;
    let board = ran(alloc, input.as_slice(), 1000)?;
    let has_run = has_run(&board);
    let mut board = board.restart(alloc, &[], faultless(alloc, 1))?;
    let is_used = uses_the_rest(&mut board);
    Ok((board, has_run && is_used))
}

// Whether installed components are linked in the other order, with no piece.
fn is_swapped(alloc: Global, chunk: u16) -> Result<(bool, bool), Fail> {
    let (board, is_ready) = installed(alloc)?;
    let input = swap(alloc)?;
    let (board, status) = session(alloc, board, input.as_slice(), chunk)?;
    let lines = b"booted 1\nmanifest 2 2\nlinked 2\ncommitted 2\nbooted 2\n".as_slice();
    let is_done = status == 0 && board.sent_bytes() == lines && has_program(&board, &SWAPPED);
    Ok((is_ready, is_done))
}

#[test]
fn installed_components_are_linked_again(rt: HostRuntime) -> Result<(), Fail> {
    for chunk in [1, 1000] {
        let (is_ready, is_done) = is_swapped(rt.alloc(), chunk)?;
        assert!(rt; is_ready, "{chunk}");
        assert!(rt; is_done, "{chunk}");
    }
    Ok(())
}

// A board that the first layout's `format` left: its empty release is all zeros.
fn of_first_layout(alloc: Global) -> Result<MemoryBoard, Fail> {
    let mut board = MemoryBoard::new(alloc, &[], faultless(alloc, 1), 2600, 100)?;
    open_gate(&mut board, Gate::Fmt)?;
    Ok(board)
}

// Whether the command of this word ends so.
fn is_answered(
    alloc: Global,
    board: MemoryBoard,
    row: (&str, u8, &[u8]),
) -> Result<(MemoryBoard, bool), Fail> {
    let (word, wanted, lines) = row;
    let mut board = board.restart(alloc, &[], faultless(alloc, 1))?;
    let status = command(alloc, &mut board, word)?;
    let is_answered = status == wanted && board.sent_bytes() == lines;
    Ok((board, is_answered))
}

#[test]
fn a_board_of_the_first_layout_is_formatted_anew(rt: HostRuntime) -> Result<(), Fail> {
    let board = of_first_layout(rt.alloc())?;
    let (board, is_refused) = is_answered(rt.alloc(), board, ("run", 6, b""))?;
    assert!(rt; is_refused);
    let (board, is_formatted) = is_answered(rt.alloc(), board, ("format", 0, b"formatted\n"))?;
    assert!(rt; is_formatted);
    let (_, is_booted) = is_answered(rt.alloc(), board, ("run", 0, b"booted 0\n"))?;
    assert!(rt; is_booted);
    Ok(())
}
