//! Inputs that are no frames, bad frames, and more frames than a session takes.

use crate::worked::{command, faultless, formatted, session};
use component_package::areas::MANIFEST_A;
use external_flash::{Gate, open_gate};
use flash_pages::{Board, MemoryBoard};
use kept_definitions::areas::LAYOUT;
use std::alloc::{AllocError, Global};
use std::test::Fail;

// An input, and the status and the lines of the session that takes it.
type Row = (&'static [u8], u8, &'static [u8]);

const ROWS: [Row; 8] = [
    (&[], 0, b"booted 0\n"),
    (&[3, 0], 2, b"booted 0\n"),
    (&[2, 1, 4], 3, b"booted 0\n"),
    (&[9, 0, 0], 0, b"booted 0\nbad frame 9\n"),
    (&[3, 1, 0, 0], 0, b"booted 0\nbad frame 3\n"),
    (&[1, 4, 0, 1, 0, 0, 0], 0, b"booted 0\nbad manifest 1\n"),
    (&[9, 0, 0, 8, 0, 0, 9, 0, 0], 0, b"booted 0\nbad frame 9\n"),
    (&[9, 0, 0, 2, 2, 0, 1], 2, b"booted 0\nbad frame 9\n"),
];

// Whether the row's session ends as it is to.
fn is_row(
    alloc: Global,
    board: MemoryBoard,
    row: Row,
    chunk: u16,
) -> Result<(MemoryBoard, bool), Fail> {
    let (input, wanted, lines) = row;
    let (board, status) = session(alloc, board, input, chunk)?;
    let is_row = status == wanted && board.sent_bytes() == lines;
    Ok((board, is_row))
}

// The first of these rows that is wrong, of sessions on one board.
fn wrong_row(alloc: Global, rows: &[Row]) -> Result<Option<usize>, Fail> {
    let mut board = formatted(alloc, 100)?;
    for chunk in [1, 1000] {
        for (i, row) in rows.iter().enumerate() {
            let (next, is_row) = is_row(alloc, board, *row, chunk)?;
            board = next;
            if !is_row {
                return Ok(Some(i));
            }
        }
    }
    Ok(None)
}

#[test]
fn inputs_that_are_no_frames(rt: HostRuntime) -> Result<(), Fail> {
    assert_eq!(rt; wrong_row(rt.alloc(), &ROWS)?, None);
    Ok(())
}

fn million_frames(alloc: Global) -> Result<Vec<u8>, AllocError> {
    let mut input = Vec::with_capacity(alloc, 3_000_001)?;
    for _ in 0..1_000_000u32 {
        input.extend_from_slice(&[9, 0, 0])?;
    }
    Ok(input)
}

// A board that counts as formatted and has room for the lines of a million frames.
fn roomy_board(alloc: Global, input: &[u8]) -> Result<MemoryBoard, Fail> {
    let mut board = MemoryBoard::new(alloc, input, faultless(alloc, 1000), 2, 12_000_009)?;
    let mut empty_release = [0; 256];
    empty_release[5] = LAYOUT;
    let _stored = board.ext_program(MANIFEST_A, &empty_release);
    let _formatted = open_gate(&mut board, Gate::Fmt);
    Ok(board)
}

// A board that took these frames, and whether the session ended as any other.
fn takes(alloc: Global, input: &[u8]) -> Result<(MemoryBoard, bool), Fail> {
    let mut board = roomy_board(alloc, input)?;
    let status = command(alloc, &mut board, "run")?;
    let is_taken = status == 0 && board.sent_bytes().len() == 12_000_009;
    Ok((board, is_taken))
}

// Whether a session refuses what follows a million frames.
fn refuses(alloc: Global, board: MemoryBoard, input: &[u8]) -> Result<bool, Fail> {
    let (board, status) = session(alloc, board, input, 1000)?;
    Ok(status == 7 && board.sent_bytes().len() == 12_000_009)
}

// Whether a million frames are taken, and refused with one byte more.
fn counts_frames(alloc: Global) -> Result<(bool, bool), Fail> {
    let mut input = million_frames(alloc)?;
    let (board, is_taken) = takes(alloc, input.as_slice())?;
    input.push(0)?;
    let is_refused = refuses(alloc, board, input.as_slice())?;
    Ok((is_taken, is_refused))
}

#[test]
fn a_session_takes_a_million_frames(rt: HostRuntime) -> Result<(), Fail> {
    let (is_taken, is_refused) = counts_frames(rt.alloc())?;
    assert!(rt; is_taken);
    assert!(rt; is_refused);
    Ok(())
}
