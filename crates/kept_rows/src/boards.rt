//! Boards in memory, what is to go wrong on them, and the gates of a release that was linked.

use component_package::areas::MANIFEST_A;
use external_flash::{Gate, open_gate};
use flash_pages::{Board, BoardPlan, Failed, MemoryBoard};
use kept_definitions::areas::LAYOUT;
use kept_journal::{Stage, mark};
use std::alloc::{AllocError, Global};
use std::test::Fail;

// What the page of the program holds in which power is cut: a gate that opens, one that closes, and neither.
fn spoilt(fill: u8) -> [u8; 256] {
    match fill {
        0 => [0xA5; 256],
        1 => [0; 256],
        _ => {
            let mut page = [0; 256];
            for at in 0..256usize {
                page[at] = (255 - at) as u8;
            }
            page
        }
    }
}

// A call that fails, and a program in which power is cut. None has the number 0.
fn faults(alloc: Global, call: u32, stop: u32, fill: u8) -> Result<BoardPlan, AllocError> {
    let mut fail = Vec::new(alloc);
    fail.push(call)?;
    Ok(BoardPlan {
        fail,
        stop_at: stop,
        spoil: spoilt(fill),
        chunk: 1,
    })
}

/// A board of zeros on which nothing goes wrong, with room for as many programs as any row has.
pub(crate) fn empty_board(alloc: Global) -> Result<MemoryBoard, Fail> {
    let plan = faults(alloc, 0, 0, 0)?;
    let board = MemoryBoard::new(alloc, b"", plan, 600, 0)?;
    Ok(board)
}

// Page 0 of the empty release as a side stores it: byte 5 is the layout's number.
fn empty_page() -> [u8; 256] {
    let mut page = [0; 256];
    page[5] = LAYOUT;
    page
}

/// A board with the empty release.
pub(crate) fn formatted(alloc: Global) -> Result<MemoryBoard, Fail> {
    let mut board = empty_board(alloc)?;
    board.ext_program(MANIFEST_A, &empty_page())?;
    open_gate(&mut board, Gate::Fmt)?;
    Ok(board)
}

/// The power is back, and this call will fail, or none where it is 0.
pub(crate) fn failing(alloc: Global, board: MemoryBoard, call: u32) -> Result<MemoryBoard, Fail> {
    let plan = faults(alloc, call, 0, 0)?;
    let board = board.restart(alloc, b"", plan)?;
    Ok(board)
}

/// The power is back, and will be cut in this program.
pub(crate) fn stopping(
    alloc: Global,
    board: MemoryBoard,
    stop: u32,
    fill: u8,
) -> Result<MemoryBoard, Fail> {
    let plan = faults(alloc, 0, stop, fill)?;
    let board = board.restart(alloc, b"", plan)?;
    Ok(board)
}

/// Opens the gates of a release that comes in: its symbols, its list and its image.
pub(crate) fn mark_all<B: Board>(board: &mut B) -> Result<(), Failed> {
    mark(board, Stage::Symbols)?;
    mark(board, Stage::Relocs)?;
    mark(board, Stage::Image)?;
    Ok(())
}
