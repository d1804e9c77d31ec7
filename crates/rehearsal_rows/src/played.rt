//! The sessions of a rehearsal, and what is told of them.

use crate::drawing::{Cut, Drawing};
use crate::frames::{no_update, update};
use component_package::Text;
use flash_pages::{BoardPlan, MemoryBoard};
use rehearsal::mote_main;
use sha2::{Digest, Sha256};
use std::alloc::{AllocError, Global};
use std::test::Fail;

// Power is cut in this program, or in none where it is 0. The input comes in pieces of so many bytes, which change nothing.
fn plan(alloc: Global, cut: Cut) -> BoardPlan {
    BoardPlan {
        fail: Vec::new(alloc),
        stop_at: cut.program as u32,
        spoil: [cut.fill; 256],
        chunk: 300,
    }
}

// Nothing goes wrong.
const CALM: Cut = Cut {
    program: 0,
    fill: 0,
};

// Does the command of these words, and gives its status.
fn command(alloc: Global, board: &mut MemoryBoard, words: &[&str]) -> Result<u8, AllocError> {
    let mut texts = Vec::new(alloc);
    for word in words {
        texts.push(Text::of(String::from_str(alloc, word)?))?;
    }
    Ok(mote_main(alloc, texts.as_slice(), board))
}

// The power is back, and a session takes this input.
fn session(alloc: Global, board: MemoryBoard, input: &[u8], cut: Cut) -> Result<MemoryBoard, Fail> {
    let mut board = board.restart(alloc, input, plan(alloc, cut))?;
    command(alloc, &mut board, &["run"])?;
    Ok(board)
}

// A session takes this input, and one with no input follows, which starts a release.
fn started(alloc: Global, board: MemoryBoard, input: &[u8], cut: Cut) -> Result<MemoryBoard, Fail> {
    let board = session(alloc, board, input, cut)?;
    session(alloc, board, &[], CALM)
}

// The digest of program flash.
fn digest(board: &MemoryBoard) -> [u8; 32] {
    let mut hasher = Sha256::new();
    for page in 0..480u16 {
        hasher.update(board.prog_page(page).as_slice());
    }
    hasher.finalize()
}

// The digits of the release that the mote said it started, where it said nothing else.
fn release_digits(board: &MemoryBoard) -> Option<&[u8]> {
    let sent = board.sent_bytes();
    let end = sent.len().checked_sub(1)?;
    if sent.get(..7)? != b"booted ".as_slice() || sent.get(end..)? != b"\n".as_slice() {
        return None;
    }
    sent.get(7..end)
}

// A word, the release that the mote started, and the digest of its program flash.
fn push_line(
    alloc: Global,
    lines: &mut Vec<u8>,
    word: &[u8],
    board: &MemoryBoard,
) -> Result<(), AllocError> {
    lines.extend_from_slice(word)?;
    lines.extend_from_slice(release_digits(board).unwrap_or(b"nothing".as_slice()))?;
    lines.push(b' ')?;
    let hex = hex::encode(alloc, digest(board).as_slice())?;
    lines.extend_from_slice(hex.as_bytes())?;
    lines.push(b'\n')?;
    Ok(())
}

// Whether the mote said that it started this release, and nothing else.
fn has_started(alloc: Global, board: &MemoryBoard, release: u32) -> Result<bool, Fail> {
    let line = format!(in alloc; "booted {release}\n")?;
    Ok(board.sent_bytes() == line.as_bytes())
}

// A rehearsal that was played: its lines, and how often a cut left the new release.
#[derive(Drop)]
struct Play {
    lines: Vec<u8>,
    news: u32,
}

// Plays the rehearsal of a number.
fn played(alloc: Global, number: u32) -> Result<Play, Fail> {
    let mut drawing = Drawing::begin(alloc, number);
    let mut board = MemoryBoard::new(alloc, &[], plan(alloc, CALM), 8_192, 65_536)?;
    command(alloc, &mut board, &["format"])?;
    let mut lines = Vec::new(alloc);
    let mut news = 0u32;
    for release in 1..21u32 {
        let cut = drawing.advance(alloc, release)?;
        let frames = update(alloc, release, drawing.parts())?;
        board = started(alloc, board, frames.as_slice(), cut)?;
        push_line(alloc, &mut lines, b"cut ", &board)?;
        let rest = if has_started(alloc, &board, release)? {
            news = news.wrapping_add(1);
            no_update(alloc)?
        } else {
            frames
        };
        board = started(alloc, board, rest.as_slice(), CALM)?;
        push_line(alloc, &mut lines, b"boot ", &board)?;
    }
    lines.extend_from_slice(b"done 20\n")?;
    Ok(Play { lines, news })
}

// A board on which the rehearsal of a number was told, and its status.
fn rehearsed(alloc: Global, number: &str) -> Result<(MemoryBoard, u8), Fail> {
    let mut board = MemoryBoard::new(alloc, &[], plan(alloc, CALM), 0, 65_536)?;
    let status = command(alloc, &mut board, &["rehearse", number])?;
    Ok((board, status))
}

#[test]
fn number_1_is_played(rt: HostRuntime) -> Result<(), Fail> {
    let played = played(rt.alloc(), 1)?;
    let (board, status) = rehearsed(rt.alloc(), "1")?;
    assert_eq!(rt; status, 0);
    assert_eq!(rt; board.sent_bytes(), played.lines.as_slice());
    // Some cuts left the old release, and some the new one.
    assert!(rt; 0 < played.news && played.news < 20);
    Ok(())
}

#[test]
fn number_2_is_played(rt: HostRuntime) -> Result<(), Fail> {
    let played = played(rt.alloc(), 2)?;
    let (board, status) = rehearsed(rt.alloc(), "2")?;
    assert_eq!(rt; status, 0);
    assert_eq!(rt; board.sent_bytes(), played.lines.as_slice());
    assert!(rt; 0 < played.news && played.news < 20);
    Ok(())
}

#[test]
fn number_3_is_played(rt: HostRuntime) -> Result<(), Fail> {
    let played = played(rt.alloc(), 3)?;
    let (board, status) = rehearsed(rt.alloc(), "3")?;
    assert_eq!(rt; status, 0);
    assert_eq!(rt; board.sent_bytes(), played.lines.as_slice());
    assert!(rt; 0 < played.news && played.news < 20);
    Ok(())
}
