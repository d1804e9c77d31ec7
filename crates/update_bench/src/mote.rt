//! The sessions of a mote on a board that counts.

use anyhow::{Result, ensure};
use component_package::Answer;
use counting_board::CountingBoard;
use mote_core::{Status, format, run_session, write_line};
use std::alloc::{AllocError, Global};

/// Room for the programs of `format`, which are those of each page, and for those of any session.
const PROGRAMS: u32 = 8_192;

/// Room for what a session sends.
const SENT_BYTES: u32 = 65_536;

/// How many pages program flash has.
const PAGES: u16 = 480;

/// A mote that was just formatted.
pub(crate) fn formatted(alloc: Global) -> Result<CountingBoard> {
    let mut mote = CountingBoard::new(alloc, PROGRAMS, SENT_BYTES)?;
    ensure!(
        format(&mut mote) == Status::Ended,
        "the mote can't be formatted"
    );
    Ok(mote)
}

/// The power is back, and a session takes these bytes.
pub(crate) fn session(alloc: Global, mote: CountingBoard, input: &[u8]) -> Result<CountingBoard> {
    let mut mote = mote.restart(alloc, input)?;
    let status = run_session(&mut mote);
    ensure!(
        status == Status::Ended,
        "a session of the mote ends with status {}",
        status.code()
    );
    Ok(mote)
}

/// Whether the last session did nothing but to start this release.
pub(crate) fn has_started(mote: &CountingBoard, release: u32) -> bool {
    let mut line = [0; 64];
    let length = write_line(&Answer::Booted(release), &mut line);
    mote.sent_bytes() == &line[..length as usize]
}

/// The pages of program flash, one behind another.
pub(crate) fn program_flash(alloc: Global, mote: &CountingBoard) -> Result<Vec<u8>, AllocError> {
    let mut bytes = Vec::new(alloc);
    for page in 0..PAGES {
        bytes.extend_from_slice(mote.prog_page(page).as_slice())?;
    }
    Ok(bytes)
}

/// How many pages of program flash differ from those.
pub(crate) fn differing_pages(mote: &CountingBoard, from: &[u8]) -> u32 {
    let mut differing = 0u32;
    for page in 0..PAGES {
        let start = 256 * page as usize;
        if from.get(start..start + 256) != Some(mote.prog_page(page).as_slice()) {
            differing = differing.saturating_add(1);
        }
    }
    differing
}
