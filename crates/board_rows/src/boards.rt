//! What no clause says: which calls a plan lets fail, what a stop leaves, what fits the rooms, and what a board does with real files.
ghost use Rattle.std.specs.Prelude.{◌≡◌, ◌<◌};

use flash_pages::{Board, BoardPlan, Failed, FileBoard, MemoryBoard};
use std::alloc::{AllocError, Global};
use std::fs;
use std::fs::OpenOptions;
use std::os::unix::fs::PermissionsExt;
use std::test::Fail;

fn plan(alloc: Global, stop_at: u32, spoil: [u8; 256], chunk: u16) -> BoardPlan
    requires { 0 < chunk }
{
    BoardPlan {
        fail: Vec::new(alloc),
        stop_at,
        spoil,
        chunk,
    }
}

// A page of this byte.
fn page(byte: u8) -> [u8; 256] {
    [byte; 256]
}

// A page of set and cleared bits with a gate's open byte in front.
fn mixed_page() -> [u8; 256] {
    let mut mixed = [0x0F; 256];
    mixed[0] = 0xA5;
    mixed[255] = 0x80;
    mixed
}

// What a stop may leave in a page: all bits cleared, all set, or some of both.
fn spoilt(pattern: u8) -> [u8; 256] {
    match pattern {
        0 => page(0),
        1 => page(0xFF),
        _ => mixed_page(),
    }
}

// What the programs of the test of stops write, numbered from 1.
fn written(number: u32) -> [u8; 256] {
    match number {
        1 => page(0x11),
        2 => page(0x22),
        3 => page(0x33),
        4 => page(0x44),
        _ => page(0x55),
    }
}

fn program(board: &mut MemoryBoard, number: u32) -> Result<(), Failed> {
    let page = written(number);
    match number {
        1 => board.ext_program(5, &page),
        2 => board.prog_program(0, &page),
        3 => board.ext_program(2047, &page),
        4 => board.prog_program(479, &page),
        _ => board.ext_program(6, &page),
    }
}

// The page of such a program, as it stands and as a call reads it.
fn page_of(board: &MemoryBoard, number: u32) -> [u8; 256] {
    match number {
        1 => *board.ext_page(5),
        2 => *board.prog_page(0),
        3 => *board.ext_page(2047),
        4 => *board.prog_page(479),
        _ => *board.ext_page(6),
    }
}

fn read(board: &mut MemoryBoard, number: u32, into: &mut [u8; 256]) -> Result<(), Failed> {
    match number {
        1 => board.ext_read(5, into),
        2 => board.prog_read(0, into),
        3 => board.ext_read(2047, into),
        4 => board.prog_read(479, into),
        _ => board.ext_read(6, into),
    }
}

// What that page is to hold where the program with number `stop_at` was stopped.
fn expected(number: u32, stop_at: u32, pattern: u8) -> [u8; 256] {
    if number > stop_at {
        return page(0);
    }
    if number == stop_at {
        return spoilt(pattern);
    }
    written(number)
}

// Whether the programs before the stop succeed, and no others.
fn programs_end_at(board: &mut MemoryBoard, stop_at: u32) -> bool {
    for number in 1..6 {
        if program(board, number).is_ok() != (number < stop_at) {
            return false;
        }
    }
    true
}

fn no_call_succeeds(board: &mut MemoryBoard) -> bool {
    let mut page = page(0);
    read(board, 1, &mut page).is_err()
        && board.receive(&mut page).is_err()
        && board.send(b"x").is_err()
}

fn pages_stand(board: &MemoryBoard, stop_at: u32, pattern: u8) -> bool {
    for number in 1..6 {
        if page_of(board, number) != expected(number, stop_at, pattern) {
            return false;
        }
    }
    true
}

fn pages_are_read(board: &mut MemoryBoard, stop_at: u32, pattern: u8) -> bool {
    let mut page = page(0);
    for number in 1..6 {
        if read(board, number, &mut page).is_err() {
            return false;
        }
        if page != expected(number, stop_at, pattern) {
            return false;
        }
    }
    true
}

// Whether the pages beside those of the programs hold zeros.
fn neighbours_are_zeros(board: &MemoryBoard) -> bool {
    let zeros = page(0);
    *board.ext_page(4) == zeros
        && *board.ext_page(2046) == zeros
        && *board.prog_page(1) == zeros
        && *board.prog_page(478) == zeros
}

fn is_stopped(board: &mut MemoryBoard, stop_at: u32, pattern: u8) -> bool {
    programs_end_at(board, stop_at)
        && no_call_succeeds(board)
        && board.program_count() == stop_at
        && pages_stand(board, stop_at, pattern)
}

fn is_found_again(board: &mut MemoryBoard, stop_at: u32, pattern: u8) -> bool {
    board.program_count() == 0
        && pages_are_read(board, stop_at, pattern)
        && neighbours_are_zeros(board)
        && program(board, stop_at).is_ok()
        && page_of(board, stop_at) == written(stop_at)
}

// Whether a board stops as its plan says, and the next start finds what the stop left.
fn stop_is_kept(alloc: Global, stop_at: u32, pattern: u8) -> Result<bool, Fail> {
    let stop = plan(alloc, stop_at, spoilt(pattern), 16);
    let mut board = MemoryBoard::new(alloc, b"ab", stop, 10, 10)?;
    let stopped = is_stopped(&mut board, stop_at, pattern);
    let mut board = board.restart(alloc, b"c", plan(alloc, 0, page(0), 16))?;
    Ok(stopped && is_found_again(&mut board, stop_at, pattern))
}

// The first program whose stop isn't kept with what it leaves, and the pattern of that.
fn first_lost_stop(alloc: Global) -> Result<Option<(u32, u8)>, Fail> {
    for number in 0..15u32 {
        let stop_at = number / 3 + 1;
        let pattern = (number % 3) as u8;
        if !stop_is_kept(alloc, stop_at, pattern)? {
            return Ok(Some((stop_at, pattern)));
        }
    }
    Ok(None)
}

#[test]
fn a_stop_spoils_its_page_and_ends_all_calls(rt: HostRuntime) -> Result<(), Fail> {
    assert_eq!(rt; first_lost_stop(rt.alloc())?, None);
    Ok(())
}

// Calls 1 and 2 of the plan, then 3 to 5, then 6 and 7.
fn second_program_fails(board: &mut MemoryBoard) -> bool {
    board.ext_program(7, &page(1)).is_ok() && board.ext_program(7, &page(2)).is_err()
}

fn first_send_fails(board: &mut MemoryBoard) -> bool {
    let mut buffer = page(0);
    board.receive(&mut buffer) == Ok(2)
        && board.send(b"lost").is_err()
        && board.send(b"sent") == Ok(4)
}

fn first_read_fails(board: &mut MemoryBoard) -> bool {
    let mut read = page(0);
    board.prog_read(0, &mut read).is_err()
        && board.ext_read(7, &mut read).is_ok()
        && read == page(1)
}

// Whether the board has received all, and keeps what the other calls did.
fn others_are_kept(board: &mut MemoryBoard) -> bool {
    let mut buffer = page(0);
    board.receive(&mut buffer) == Ok(0)
        && board.sent_bytes() == b"sent".as_slice()
        && board.program_count() == 1
}

fn calls_of_the_plan_fail(board: &mut MemoryBoard) -> [bool; 4] {
    [
        second_program_fails(board),
        first_send_fails(board),
        first_read_fails(board),
        others_are_kept(board),
    ]
}

#[test]
fn only_the_calls_of_the_plan_fail(rt: HostRuntime) -> Result<(), Fail> {
    let mut plan = plan(rt.alloc(), 0, page(0), 16);
    plan.fail.extend_from_slice(&[2, 4, 6])?;
    let mut board = MemoryBoard::new(rt.alloc(), b"ab", plan, 10, 10)?;
    assert_eq!(rt; calls_of_the_plan_fail(&mut board), [true; 4]);
    Ok(())
}

// Two programs fit, and no third.
fn programs_fill(board: &mut MemoryBoard) -> bool {
    board.ext_program(1, &page(1)).is_ok()
        && board.prog_program(1, &page(2)).is_ok()
        && board.ext_program(1, &page(3)).is_err()
        && board.prog_program(2, &page(3)).is_err()
}

// Five sent bytes fit, and no sixth.
fn sends_fill(board: &mut MemoryBoard) -> bool {
    board.send(b"abc") == Ok(3)
        && board.send(b"def").is_err()
        && board.send(b"de") == Ok(2)
        && board.send(b"").is_ok()
        && board.send(b"f").is_err()
}

fn holds_what_fitted(board: &MemoryBoard) -> bool {
    *board.ext_page(1) == page(1)
        && *board.prog_page(1) == page(2)
        && *board.prog_page(2) == page(0)
        && board.sent_bytes() == b"abcde".as_slice()
        && board.program_count() == 2
}

// Whether a board that has sent nothing takes what fits, and keeps it.
fn fills(board: &mut MemoryBoard) -> bool {
    board.sent_bytes().is_empty()
        && programs_fill(board)
        && sends_fill(board)
        && holds_what_fitted(board)
}

#[test]
fn rooms_are_kept_over_a_restart(rt: HostRuntime) -> Result<(), Fail> {
    let alloc = rt.alloc();
    let mut board = MemoryBoard::new(alloc, b"", plan(alloc, 0, page(0), 1), 2, 5)?;
    let first = fills(&mut board);
    board = board.restart(alloc, b"", plan(alloc, 0, page(0), 1))?;
    let second = fills(&mut board);
    board = board.restart(alloc, b"", plan(alloc, 0, page(0), 1))?;
    assert_eq!(rt; [first, second, board.sent_bytes().is_empty()], [true; 3]);
    Ok(())
}

// So many bytes, which go round from 0 to 250.
fn numbers(alloc: Global, count: u32) -> Result<Vec<u8>, AllocError> {
    let mut bytes = Vec::new(alloc);
    for number in 0..count {
        bytes.push((number % 251) as u8)?;
    }
    Ok(bytes)
}

// Adds what one call gives, and answers how much this was.
fn take_piece(board: &mut MemoryBoard, got: &mut Vec<u8>) -> Result<usize, AllocError> {
    let mut buffer = [0; 1024];
    let count = board.receive(&mut buffer).unwrap_or(0);
    got.extend_from_slice(&buffer[..count])?;
    Ok(count)
}

// Adds all that the board gives, and answers whether no piece had more bytes than `size`.
fn take_pieces(
    board: &mut MemoryBoard,
    size: usize,
    got: &mut Vec<u8>,
) -> Result<bool, AllocError> {
    for _call in 0..1031 {
        let count = take_piece(board, got)?;
        if count > size {
            return Ok(false);
        }
        if count == 0 {
            break;
        }
    }
    Ok(true)
}

fn sends_pieces(board: &mut MemoryBoard, bytes: &[u8], size: u16) -> bool
    requires { 0 < size }
{
    for piece in bytes.chunks(size as usize) {
        if board.send(piece) != Ok(piece.len()) {
            return false;
        }
    }
    true
}

// Whether a board gives its input in such pieces, and takes it in them.
fn line_passes(
    alloc: Global,
    board: &mut MemoryBoard,
    input: &[u8],
    size: u16,
) -> Result<bool, AllocError>
    requires { 0 < size }
{
    let mut got = Vec::new(alloc);
    let short = take_pieces(board, size as usize, &mut got)?;
    Ok(
        short
            && got.as_slice() == input
            && sends_pieces(board, input, size)
            && board.sent_bytes() == input,
    )
}

fn pieces_pass(alloc: Global, input: &[u8], size: u16) -> Result<bool, Fail>
    requires { 0 < size }
{
    let pieces = plan(alloc, 0, page(0), size);
    let mut board = MemoryBoard::new(alloc, input, pieces, 0, 1030)?;
    let passes = line_passes(alloc, &mut board, input, size)?;
    Ok(passes)
}

fn sizes_pass(alloc: Global, input: &[u8]) -> Result<[bool; 3], Fail> {
    Ok([
        pieces_pass(alloc, input, 1)?,
        pieces_pass(alloc, input, 7)?,
        pieces_pass(alloc, input, 1024)?,
    ])
}

#[test]
fn a_line_gives_and_takes_pieces(rt: HostRuntime) -> Result<(), Fail> {
    let input = numbers(rt.alloc(), 1030)?;
    assert_eq!(rt; sizes_pass(rt.alloc(), input.as_slice())?, [true; 3]);
    Ok(())
}

const FOLDER: &str = "flash_pages_test";

const PROG: &str = "flash_pages_test/prog";

const EXT: &str = "flash_pages_test/ext";

fn first_page_is_unread<B: Board>(board: &mut B) -> bool {
    let mut read = page(0);
    board.prog_read(0, &mut read).is_err()
}

// Whether a page of external flash is read as one of this byte.
fn is_read_as<B: Board>(board: &mut B, number: u16, byte: u8) -> bool
    requires { number < 2048 }
{
    let mut read = page(1);
    board.ext_read(number, &mut read).is_ok() && read == page(byte)
}

fn third_page_is_unread<B: Board>(board: &mut B) -> bool {
    let mut read = page(0);
    board.ext_read(3, &mut read).is_err()
}

// Whether programs make the files as long as they must be, and no longer.
fn holds_pages<B: Board>(board: &mut B) -> bool {
    board.ext_program(2, &page(7)).is_ok()
        && board.ext_program(0, &page(9)).is_ok()
        && is_read_as(board, 2, 7)
        && is_read_as(board, 1, 0)
        && third_page_is_unread(board)
        && board.prog_program(479, &page(8)).is_ok()
}

// Whether a board on files of no folder fails, makes its files once the folder is there, and holds pages in them.
fn board_makes_files(rt: &HostRuntime) -> Result<[bool; 3], Fail> {
    let mut board = FileBoard::new(rt, PROG, EXT);
    let nowhere = first_page_is_unread(&mut board);
    fs::create_dir(rt, FOLDER)?;
    let empty = first_page_is_unread(&mut board) && fs::metadata(rt, EXT).is_ok();
    Ok([nowhere, empty, holds_pages(&mut board)])
}

fn lengths(rt: &HostRuntime) -> Result<(u64, u64), Fail> {
    let ext = fs::metadata(rt, EXT)?.len();
    let prog = fs::metadata(rt, PROG)?.len();
    Ok((ext, prog))
}

#[test]
fn files_hold_pages(rt: HostRuntime) -> Result<(), Fail> {
    let _ = fs::remove_dir_all(&rt, FOLDER);
    assert_eq!(rt; board_makes_files(&rt)?, [true; 3]);
    assert_eq!(rt; lengths(&rt)?, (768, 122_880));
    fs::remove_dir_all(&rt, FOLDER)?;
    Ok(())
}

// Whether a read and a program of page 0 of program flash answer Ok on a board over these files.
fn tried(rt: &HostRuntime, prog: &str, ext: &str) -> (bool, bool) {
    let mut board = FileBoard::new(rt, prog, ext);
    let mut page = [0; 256];
    let reads = board.prog_read(0, &mut page).is_ok();
    let programs = board.prog_program(0, &page).is_ok();
    (reads, programs)
}

const OTHER_FOLDER: &str = "flash_pages_other";

const OTHER: &str = "flash_pages_other/ext";

const SHORT: &str = "flash_pages_other/short";

const READ_ONLY: &str = "flash_pages_other/read_only";

/// The files of a board's program and external flash, and whether a read and a program of them answer Ok.
type Tried = (&'static str, &'static str, (bool, bool));

const TRIED: [Tried; 6] = [
    (SHORT, OTHER, (false, true)),
    (OTHER_FOLDER, OTHER, (false, false)),
    (SHORT, OTHER_FOLDER, (false, false)),
    ("flash_pages_other/missing/prog", OTHER, (false, false)),
    ("/dev/null", OTHER, (false, false)),
    ("/dev/full", OTHER, (true, false)),
];

// The first of these boards that answers otherwise.
fn first_unlike(rt: &HostRuntime, rows: &[Tried]) -> Option<usize> {
    for (i, (prog, ext, want)) in rows.iter().enumerate() {
        if tried(rt, prog, ext) != *want {
            return Some(i);
        }
    }
    None
}

fn make_files(rt: &HostRuntime) -> Result<(), Fail> {
    fs::create_dir(rt, OTHER_FOLDER)?;
    fs::write(rt, SHORT, [1; 255].as_slice())?;
    fs::write(rt, READ_ONLY, page(1).as_slice())?;
    fs::set_permissions(rt, READ_ONLY, fs::Permissions::from_mode(0o444))?;
    Ok(())
}

// Whether a file that is read-only may be written, as the superuser may.
fn may_write(rt: &HostRuntime) -> bool {
    OpenOptions::new()
        .read(true)
        .write(true)
        .open(rt, READ_ONLY)
        .is_ok()
}

#[test]
fn files_that_fail_are_faults(rt: HostRuntime) -> Result<(), Fail> {
    let _ = fs::remove_dir_all(&rt, OTHER_FOLDER);
    make_files(&rt)?;
    let may_write = may_write(&rt);
    assert_eq!(rt; first_unlike(&rt, &TRIED), None);
    assert_eq!(rt; tried(&rt, READ_ONLY, OTHER), (may_write, may_write));
    fs::remove_dir_all(&rt, OTHER_FOLDER)?;
    Ok(())
}
