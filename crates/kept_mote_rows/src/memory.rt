//! What no clause says: that the commands are done on a board that fails no call, in bytes.

use component_package::Text;
use flash_pages::{BoardPlan, MemoryBoard, NoMemory};
use kept_core::mote_main;
use std::alloc::{AllocError, Global};
use std::test::Fail;

// A board of zeros, on which this call fails, or none where that number is 0.
fn board(alloc: Global, fails: u32) -> Result<MemoryBoard, Fail> {
    let mut fail = Vec::new(alloc);
    fail.push(fails)?;
    let plan = BoardPlan {
        fail,
        stop_at: 0,
        spoil: [0; 256],
        chunk: 256,
    };
    Ok(MemoryBoard::new(alloc, b"", plan, 2529, 123_000)?)
}

// The exit status of the command of these words.
fn status(alloc: Global, words: &[&str], board: &mut MemoryBoard) -> Result<u8, AllocError> {
    let mut texts = Vec::new(alloc);
    for word in words {
        texts.push(Text::of(String::from_str(alloc, *word)?))?;
    }
    Ok(mote_main(texts.as_slice(), board))
}

// Whether all the bytes are 0xFF.
fn is_blank(bytes: &[u8]) -> bool {
    for byte in bytes {
        if *byte != 0xFF {
            return false;
        }
    }
    true
}

// Whether a board that isn't formatted refuses each command but `format`, and other words.
fn refuses_commands(alloc: Global, board: &mut MemoryBoard) -> Result<bool, AllocError> {
    Ok(
        status(alloc, &["status"], board)? == 6
            && status(alloc, &["image"], board)? == 6
            && status(alloc, &["walk"], board)? == 64,
    )
}

fn refuses_words(alloc: Global, board: &mut MemoryBoard) -> Result<bool, AllocError> {
    Ok(status(alloc, &["format", "format"], board)? == 64 && status(alloc, &[], board)? == 64)
}

fn has_done_nothing(board: &MemoryBoard) -> bool {
    board.sent_bytes().is_empty() && board.program_count() == 0
}

fn is_formatted(alloc: Global, board: &mut MemoryBoard) -> Result<bool, AllocError> {
    let status = status(alloc, &["format"], board)?;
    Ok(
        status == 0
            && board.sent_bytes() == b"formatted\n".as_slice()
            && board.program_count() == 2529,
    )
}

fn tells_so(alloc: Global, board: &mut MemoryBoard) -> Result<bool, AllocError> {
    let status = status(alloc, &["status"], board)?;
    Ok(status == 0 && board.sent_bytes() == b"formatted\nstatus 0 0 0\n".as_slice())
}

// Whether behind these two lines a blank image was sent.
fn has_blank_image(sent: &[u8]) -> bool {
    sent.len() == 23 + 122_880 && is_blank(&sent[23..])
}

fn sends_blank_image(alloc: Global, board: &mut MemoryBoard) -> Result<bool, AllocError> {
    let status = status(alloc, &["image"], board)?;
    Ok(status == 0 && has_blank_image(board.sent_bytes()) && board.program_count() == 2529)
}

fn is_new(alloc: Global, board: &mut MemoryBoard) -> Result<bool, AllocError> {
    Ok(refuses_commands(alloc, board)? && refuses_words(alloc, board)? && has_done_nothing(board))
}

fn formats(alloc: Global, board: &mut MemoryBoard) -> Result<bool, AllocError> {
    Ok(is_formatted(alloc, board)? && tells_so(alloc, board)? && sends_blank_image(alloc, board)?)
}

#[test]
fn a_new_board_is_formatted_and_tells_so(rt: HostRuntime) -> Result<(), Fail> {
    let mut board = board(rt.alloc(), 0)?;
    assert!(rt; is_new(rt.alloc(), &mut board)?);
    assert!(rt; formats(rt.alloc(), &mut board)?);
    Ok(())
}

// Whether `format` ends with status 4 and without a line where this call fails, and the board isn't formatted then.
fn ends_format(alloc: Global, call: u32) -> Result<bool, Fail> {
    let mut board = board(alloc, call)?;
    let formatting = status(alloc, &["format"], &mut board)?;
    let is_silent = board.sent_bytes().is_empty();
    let later = status(alloc, &["status"], &mut board)?;
    Ok(formatting == 4 && is_silent && later == 6)
}

// Whether it ends with status 5 where its line fails, and the board is formatted then.
fn ends_line(alloc: Global) -> Result<bool, Fail> {
    let mut board = board(alloc, 2531)?;
    let formatting = status(alloc, &["format"], &mut board)?;
    let later = status(alloc, &["status"], &mut board)?;
    Ok(formatting == 5 && later == 0)
}

#[test]
fn a_call_that_fails_ends_a_command(rt: HostRuntime) -> Result<(), Fail> {
    // The first program, the first of program flash, the read of Fmt and its program; then the line.
    for call in [1, 2049, 2529, 2530] {
        assert!(rt; ends_format(rt.alloc(), call)?, "{call}");
    }
    assert!(rt; ends_line(rt.alloc())?);
    Ok(())
}
