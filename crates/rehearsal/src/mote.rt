//! The mote of a rehearsal: sessions on a board in memory.

ghost use Rattle.std.specs.Prelude.{◌≡◌, ◌↔◌, IsTrue};
ghost use Rattle.std.specs.List.{concat};
ghost use Rattle.sha2.specs.Sha256.{sha256};
ghost use Rattle.flash_pages.specs.Memory.{memory_state};
ghost use Rattle.component_package.specs.link.Pages.{cut};

use component_package::Answer;
use flash_pages::{BoardPlan, MemoryBoard, NoMemory};
use mote_core::{format, run_session, write_line};
use sha2::{Digest, Sha256};
use std::alloc::Global;

// How many programs and how many sent bytes the board has room for: more than any session makes.
const PROGRAMS: u32 = 8_192;

const SENT_BYTES: u32 = 65_536;

// How many pages program flash has.
const PAGES: u16 = 480;

// Nothing goes wrong.
fn calm(alloc: Global) -> BoardPlan {
    BoardPlan {
        fail: Vec::new(alloc),
        stop_at: 0,
        spoil: [0; 256],
        chunk: 1_024,
    }
}

/// A plan by which power is cut in this program, whose page then holds this byte all over.
pub(crate) fn cut(alloc: Global, program: u16, fill: u8) -> BoardPlan {
    BoardPlan {
        fail: Vec::new(alloc),
        stop_at: program as u32,
        spoil: [fill; 256],
        chunk: 1_024,
    }
}

/// A formatted board.
pub(crate) fn formatted(alloc: Global) -> Result<MemoryBoard, NoMemory> {
    let mut mote = MemoryBoard::new(alloc, &[], calm(alloc), PROGRAMS, SENT_BYTES)?;
    format(&mut mote);
    Ok(mote)
}

/// The power is back, and a session takes these bytes. It goes by the plan.
pub(crate) fn session(
    alloc: Global,
    mote: MemoryBoard,
    input: &[u8],
    plan: BoardPlan,
) -> Result<MemoryBoard, NoMemory> {
    let mut mote = mote.restart(alloc, input, plan)?;
    run_session(&mut mote);
    Ok(mote)
}

/// A session in which nothing goes wrong.
pub(crate) fn calm_session(
    alloc: Global,
    mote: MemoryBoard,
    input: &[u8],
) -> Result<MemoryBoard, NoMemory> {
    let plan = calm(alloc);
    session(alloc, mote, input, plan)
}

/// Whether the session did nothing but to start this release.
pub(crate) fn has_started(mote: &MemoryBoard, release: u32) -> bool {
    let mut line = [0; 64];
    let length = write_line(&Answer::Booted(release), &mut line);
    mote.sent_bytes() == &line[..length as usize]
}

// Whether two pieces hold the same bytes.
fn is_same(a: &[u8], b: &[u8]) -> bool
    ensures { IsTrue result ↔ (a.now ≡ b.now) }
{
    a == b
}

/// Whether program flash holds these 122,880 bytes.
pub(crate) fn holds(mote: &MemoryBoard, whole: &[u8]) -> bool
    ensures { IsTrue result → (memory_state mote.now).prog ≡ cut whole.now }
{
    if whole.len() < 256 * PAGES as usize {
        return false;
    }
    for page in 0..PAGES {
        let at = 256 * page as usize;
        if !is_same(mote.prog_page(page).as_slice(), &whole[at..at + 256]) {
            return false;
        }
    }
    true
}

/// The digest of program flash.
pub(crate) fn program_digest(mote: &MemoryBoard) -> [u8; 32]
    ensures { result ≡ sha256 (concat (memory_state mote.now).prog) }
{
    let mut hasher = Sha256::new();
    for page in 0..PAGES {
        hasher.update(mote.prog_page(page).as_slice());
    }
    hasher.finalize()
}
