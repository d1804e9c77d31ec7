//! What no clause says: that the calls go well where there is memory, and how reads are shown.

use counting_board::{CountingBoard, Programs, Reads};
use flash_pages::{Board, Failed};
use std::test::Fail;

// The reads of one page of each kind, and two of another package's.
const READS: Reads = Reads {
    records: 1,
    packages: 3,
    symbols: 1,
    relocations: 1,
    staged: 1,
    most: 2,
};

const BEFORE: Programs = Programs {
    external: 1,
    program: 2,
};

const NONE: Programs = Programs {
    external: 0,
    program: 0,
};

// A page of this byte.
fn page(byte: u8) -> [u8; 256] {
    [byte; 256]
}

fn program_pages(board: &mut CountingBoard) -> Result<(), Failed> {
    board.ext_program(786, &page(7))?;
    board.prog_program(0, &page(9))?;
    board.prog_program(479, &page(9))?;
    Ok(())
}

// Reads one page of each kind and two of another package's, and then the first of that package again.
fn last_read(board: &mut CountingBoard) -> Result<[u8; 256], Failed> {
    let mut read = page(0);
    for number in [0u16, 18, 50, 306, 786, 2047, 786] {
        board.ext_read(number, &mut read)?;
    }
    Ok(read)
}

fn first_page(board: &mut CountingBoard) -> Result<[u8; 256], Failed> {
    let mut read = page(0);
    board.prog_read(0, &mut read)?;
    Ok(read)
}

// Whether programs, reads and a send succeed on a board that is new.
fn calls_succeed(board: &mut CountingBoard) -> Result<bool, Failed> {
    program_pages(board)?;
    let external = last_read(board)?;
    let program = first_page(board)?;
    let sent = board.send(b"sent")?;
    Ok(
        external[0] == 7
            && program[255] == 9
            && sent == 4
            && board.sent_bytes() == b"sent".as_slice(),
    )
}

fn line_begins_anew(board: &mut CountingBoard) -> bool {
    let mut buffer = page(0);
    board.receive(&mut buffer) == Ok(3) && board.sent_bytes().is_empty()
}

fn counts_are_kept(board: &CountingBoard) -> bool {
    board.reads() == READS && board.reads().total() == 7 && board.programs() == BEFORE
}

fn pages_are_kept(board: &CountingBoard) -> bool {
    board.prog_page(479)[3] == 9 && board.ext_page(786)[3] == 7
}

fn counts_are_forgotten(board: &mut CountingBoard) -> bool {
    board.forget();
    board.reads().total() == 0 && board.programs() == NONE
}

fn kept_and_forgotten(board: &mut CountingBoard) -> [bool; 4] {
    [
        line_begins_anew(board),
        counts_are_kept(board),
        pages_are_kept(board),
        counts_are_forgotten(board),
    ]
}

#[test]
fn calls_are_counted_over_a_restart(rt: HostRuntime) -> Result<(), Fail> {
    let mut board = CountingBoard::new(rt.alloc(), 3, 16)?;
    let succeed = calls_succeed(&mut board)?;
    let mut board = board.restart(rt.alloc(), b"abc")?;
    let kept = kept_and_forgotten(&mut board);
    assert_eq!(rt; (succeed, kept), (true, [true; 4]));
    Ok(())
}

#[test]
fn reads_are_shown_by_kind(rt: HostRuntime) -> Result<(), Fail> {
    let shown = format!(in rt.alloc(); "{READS}")?;
    let wanted =
        "3 of packages, 1 of symbols, 1 of relocations, 1 of the image; of one page 2 at most";
    assert_eq!(rt; shown.as_str(), wanted);
    Ok(())
}
