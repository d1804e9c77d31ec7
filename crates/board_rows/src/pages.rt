//! What no clause says: on which page each gate stands, in bytes, and that calls succeed on a board that fails none.
ghost use Rattle.std.specs.Prelude.{◌<◌, ◌≤◌, ◌+◌, ◌*◌};

use external_flash::{
    Gate, PageReader, close_gate, gate_is_open, open_gate, program_if_different, read_bytes,
};
use flash_pages::{BoardPlan, MemoryBoard};
use std::alloc::Global;
use std::test::Fail;

// A board with a call that fails, or none where that number is 0.
fn board(alloc: Global, fails: u32) -> Result<MemoryBoard, Fail> {
    let mut fail = Vec::new(alloc);
    fail.push(fails)?;
    let plan = BoardPlan {
        fail,
        stop_at: 0,
        spoil: [0; 256],
        chunk: 1,
    };
    Ok(MemoryBoard::new(alloc, b"", plan, 20, 0)?)
}

// A page of this byte.
fn page(byte: u8) -> [u8; 256] {
    [byte; 256]
}

// The page of a gate that is open.
fn open_page() -> [u8; 256] {
    let mut open = page(0);
    open[0] = 0xA5;
    open
}

// Whether a gate is shut, stays so when it is shut once more, and then is open however often it is opened.
fn opens(board: &mut MemoryBoard, gate: Gate) -> bool {
    gate_is_open(board, gate) == Ok(false)
        && close_gate(board, gate).is_ok()
        && open_gate(board, gate).is_ok()
        && open_gate(board, gate).is_ok()
        && gate_is_open(board, gate) == Ok(true)
}

// Whether a gate is opened by one program, which is of this page.
fn opens_on(board: &mut MemoryBoard, gate: Gate, number: u16) -> bool {
    if number >= 8 {
        return false;
    }
    let before = board.program_count();
    opens(board, gate)
        && board.program_count().checked_sub(before) == Some(1)
        && *board.ext_page(number) == open_page()
}

const GATES: [(Gate, u16); 8] = [
    (Gate::Fmt, 0),
    (Gate::Man, 1),
    (Gate::Sym, 2),
    (Gate::Rel, 3),
    (Gate::Img, 4),
    (Gate::GoA, 5),
    (Gate::GoB, 6),
    (Gate::Sel, 7),
];

// The page of the first of these gates that doesn't open so.
fn first_elsewhere(board: &mut MemoryBoard, rows: &[(Gate, u16)]) -> Option<u16> {
    for (gate, number) in rows {
        if !opens_on(board, *gate, *number) {
            return Some(*number);
        }
    }
    None
}

// Whether one open gate of all is shut alone.
fn shuts_alone(board: &mut MemoryBoard) -> bool {
    *board.ext_page(8) == page(0)
        && close_gate(board, Gate::Img).is_ok()
        && *board.ext_page(4) == page(0)
        && *board.ext_page(5) == open_page()
        && board.program_count() == 9
}

#[test]
fn gates_stand_on_the_first_pages(rt: HostRuntime) -> Result<(), Fail> {
    let mut board = board(rt.alloc(), 0)?;
    let elsewhere = first_elsewhere(&mut board, &GATES);
    assert_eq!(rt; (elsewhere, shuts_alone(&mut board)), (None, true));
    Ok(())
}

// Byte `at` of the external flash in the test of runs.
fn byte_at(at: u32) -> u8 {
    (at % 251) as u8
}

// Whether these are the bytes from there on.
fn stand_from(start: u32, bytes: &[u8]) -> bool {
    let mut at = start;
    for byte in bytes {
        if *byte != byte_at(at) {
            return false;
        }
        at = at.wrapping_add(1);
    }
    true
}

fn bytes_of_page(number: u16) -> [u8; 256] {
    let start = 256 * number as u32;
    let mut bytes = page(0);
    for (i, byte) in bytes.iter_mut().enumerate() {
        *byte = byte_at(start.wrapping_add(i as u32));
    }
    bytes
}

// Whether a page is filled with its bytes by one program.
fn fill(board: &mut MemoryBoard, number: u16) -> bool
    requires { number < 2048 }
{
    let bytes = bytes_of_page(number);
    program_if_different(board, number, &bytes) == Ok(true)
        && program_if_different(board, number, &bytes) == Ok(false)
}

fn fill_pages(board: &mut MemoryBoard) -> bool {
    fill(board, 786) && fill(board, 787) && fill(board, 788) && fill(board, 2047)
}

/// A page, how far behind its begin a run begins, and how many bytes it has.
type Run = (u16, u32, u16);

const RUNS: [Run; 8] = [
    (786, 0, 256),
    (786, 250, 12),
    (786, 255, 256),
    (786, 257, 256),
    (0, 256 * 787 - 1, 2),
    (787, 511, 1),
    (2047, 255, 1),
    (2047, 256, 0),
];

fn is_read(board: &mut MemoryBoard, first: u16, from: u32, length: usize) -> bool
    requires short { length ≤ 256 }
    requires within { 256 * first + from + length ≤ 524288 }
{
    let mut buffer = page(0);
    let into = &mut buffer[..length];
    read_bytes(board, first, from, into).is_ok() && stand_from(256 * first as u32 + from, into)
}

// Whether a run lies within external flash and is read as it was programmed.
fn run_is_read(board: &mut MemoryBoard, run: &Run) -> bool {
    let (first, from, length) = *run;
    if length > 256 {
        return false;
    }
    if from > 524_288 {
        return false;
    }
    if 256 * first as u32 + from + length as u32 > 524_288 {
        return false;
    }
    is_read(board, first, from, length as usize)
}

// The first of these runs that isn't read so.
fn first_misread(board: &mut MemoryBoard, rows: &[Run]) -> Option<usize> {
    for (i, run) in rows.iter().enumerate() {
        if !run_is_read(board, run) {
            return Some(i);
        }
    }
    None
}

#[test]
fn bytes_run_over_the_ends_of_pages(rt: HostRuntime) -> Result<(), Fail> {
    let mut board = board(rt.alloc(), 0)?;
    let filled = fill_pages(&mut board);
    assert_eq!(rt; (filled, first_misread(&mut board, &RUNS)), (true, None));
    Ok(())
}

fn nothing_is_read(board: &mut MemoryBoard) -> bool {
    read_bytes(board, 65_535, 4_294_967_295, &mut []).is_ok()
}

#[test]
fn nothing_is_read_anywhere(rt: HostRuntime) -> Result<(), Fail> {
    let mut board = board(rt.alloc(), 1)?;
    assert!(rt; nothing_is_read(&mut board));
    Ok(())
}

// Whether a record of 8 bytes is read, so far behind the begin of page 9.
fn reads_record(board: &mut MemoryBoard, reader: &mut PageReader, at: u32) -> bool
    requires { at ≤ 512 }
{
    let mut record = [0; 8];
    reader.read(board, 9, at, &mut record).is_ok()
}

fn reads_two_pages(board: &mut MemoryBoard, reader: &mut PageReader) -> bool {
    for i in 0..64 {
        if !reads_record(board, reader, 8 * i) {
            return false;
        }
    }
    true
}

// What becomes of the records of two pages, and of the first of a third page at once and once more.
fn records_read(board: &mut MemoryBoard) -> [bool; 3] {
    let mut reader = PageReader::new();
    [
        reads_two_pages(board, &mut reader),
        reads_record(board, &mut reader, 512),
        reads_record(board, &mut reader, 512),
    ]
}

#[test]
fn a_reader_reads_each_page_once(rt: HostRuntime) -> Result<(), Fail> {
    let mut board = board(rt.alloc(), 3)?;
    assert_eq!(rt; records_read(&mut board), [true, false, true]);
    Ok(())
}

fn read_fails_once(board: &mut MemoryBoard) -> bool {
    let mut buffer = [0; 2];
    read_bytes(board, 9, 255, &mut buffer).is_err()
        && read_bytes(board, 9, 255, &mut buffer).is_ok()
}

// Whether a run over two pages is read once the call that fails is over.
fn read_fails_with(alloc: Global, fails: u32) -> Result<bool, Fail> {
    let mut board = board(alloc, fails)?;
    Ok(read_fails_once(&mut board))
}

fn gate_fails_to_open(board: &mut MemoryBoard) -> bool {
    open_gate(board, Gate::Man).is_err() && gate_is_open(board, Gate::Man) == Ok(false)
}

fn program_fails_once(board: &mut MemoryBoard) -> bool {
    let bytes = page(1);
    program_if_different(board, 9, &bytes).is_err()
        && program_if_different(board, 9, &bytes) == Ok(true)
}

fn writes_fail(alloc: Global) -> Result<[bool; 2], Fail> {
    let mut first = board(alloc, 1)?;
    let mut second = board(alloc, 2)?;
    Ok([
        gate_fails_to_open(&mut first),
        program_fails_once(&mut second),
    ])
}

#[test]
fn a_failed_call_is_passed_on(rt: HostRuntime) -> Result<(), Fail> {
    assert!(rt; read_fails_with(rt.alloc(), 1)?, "the first page");
    assert!(rt; read_fails_with(rt.alloc(), 2)?, "the second page");
    assert_eq!(rt; writes_fail(rt.alloc())?, [true; 2]);
    Ok(())
}
