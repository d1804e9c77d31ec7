//! The rehearsal.

ghost use Rattle.std.specs.Prelude.{◌≡◌, ◌≢◌, ◌+◌, ◌≤◌, ℕ, IfOk, codes};
ghost use Rattle.flash_pages.specs.Board.{Rose, Told};
ghost use Rattle.update_laws.specs.Update.{components_in};
ghost use Rattle.drawn_releases.specs.Generator.{release_drawn};
ghost use Rattle.rehearsal.specs.Lines.{TellsSet, Tells, IsCutLine, OnlySends, EndsRehearsal, SendsLines};

use crate::flash::flash_of;
use crate::lines::{boot_line, send};
use crate::mote::{calm_session, cut, formatted, has_started, holds, program_digest, session};
use crate::release::Release;
use crate::stop::Stop;
use component_package::Bytes;
use drawn_releases::Delivered;
use flash_pages::{Board, MemoryBoard};
use std::alloc::{AllocError, Global};

// How many releases are installed.
const RELEASES: u32 = 20;

// A rehearsal so far: the mote, and the release that it has.
#[derive(Drop)]
struct Rehearsal {
    mote: MemoryBoard,
    release: Release,
}

// A release was brought to a mote in a session in which power was cut: the line of the boot behind it, the packages of the release
// before, and whether the mote has the new one.
#[derive(Drop)]
struct Cut {
    line: Vec<u8>,
    mote: MemoryBoard,
    olds: Vec<Delivered>,
    release: Release,
    is_new: bool,
}

// It was then brought whole: the line of the boot behind that.
#[derive(Drop)]
struct Whole {
    line: Vec<u8>,
    rehearsal: Rehearsal,
}

// A copy of a package.
fn copy(alloc: Global, delivered: &Delivered) -> Result<Delivered, AllocError>
    ensures { IfOk result (λ d. d ≡ delivered.now) }
{
    Ok(Delivered {
        component: delivered.component,
        version: delivered.version,
        bytes: Bytes::of(delivered.bytes.as_slice().to_vec(alloc)?),
    })
}

// Copies of packages.
fn copies(alloc: Global, packages: &[Delivered]) -> Result<Vec<Delivered>, AllocError>
    ensures { IfOk result (λ v. v.items ≡ packages.now) }
{
    let mut copies = Vec::new(alloc);
    for delivered in packages {
        copies.push(copy(alloc, delivered)?)?;
    }
    Ok(copies)
}

fn begin(alloc: Global, number: u32) -> Result<Rehearsal, Stop>
    ensures { IfOk result (λ r. r.release ≡ release_drawn number 0) }
{
    Ok(Rehearsal {
        mote: formatted(alloc)?,
        release: Release::begin(alloc, number),
    })
}

// The line of a boot, where the mote has started this release and its program flash holds what the set's image is, linked from scratch.
fn told(
    alloc: Global,
    word: &[u8],
    release: u32,
    packages: &[Delivered],
    mote: &MemoryBoard,
) -> Result<Vec<u8>, Stop>
    ensures { IfOk result (λ v. TellsSet word.now release (components_in packages.now) v.items) }
{
    let whole = flash_of(alloc, packages)?;
    if !has_started(mote, release) {
        return Err(Stop::NotStarted);
    }
    if !holds(mote, &whole) {
        return Err(Stop::NotStarted);
    }
    let digest = program_digest(mote);
    let line = boot_line(alloc, word, release, &digest)?;
    Ok(line)
}

// The line of the boot behind a cut: of the new release where the mote has started it, else of the one before.
fn cut_line(
    alloc: Global,
    mote: &MemoryBoard,
    is_new: bool,
    olds: &[Delivered],
    news: &[Delivered],
    next: u32,
) -> Result<Vec<u8>, Stop>
    requires { 1 ≤ next }
    ensures { (number : ℕ) → (before : ℕ) → before + 1 ≡ next → olds.now ≡ (release_drawn number before).packages →
        news.now ≡ (release_drawn number next).packages → IfOk result (λ v. IsCutLine number next v.items) }
{
    if is_new {
        return told(alloc, b"cut ", next, news, mote);
    }
    told(alloc, b"cut ", next - 1, olds, mote)
}

// Brings a release over the one before, in a session in which power is cut; and the session behind it.
fn cut_sessions(
    alloc: Global,
    mote: MemoryBoard,
    release: &Release,
    olds: &[Delivered],
    next: u32,
) -> Result<MemoryBoard, Stop>
    requires { 1 ≤ next }
{
    let frames = release.frames(alloc, next - 1, olds, next)?;
    let plan = cut(alloc, release.stop(), release.fill());
    let mote = session(alloc, mote, &frames, plan)?;
    let mote = calm_session(alloc, mote, &[])?;
    Ok(mote)
}

// Draws the next release and brings it, in a session in which power is cut.
fn cut_step(alloc: Global, rehearsal: Rehearsal, next: u32) -> Result<Cut, Stop>
    requires { 1 ≤ next }
    ensures { (number : ℕ) → (before : ℕ) → before + 1 ≡ next → rehearsal.release ≡ release_drawn number before →
        IfOk result (λ c. (c.release ≡ release_drawn number next) × IsCutLine number next c.line.items) }
{
    let Rehearsal { mote, release } = rehearsal;
    let olds = copies(alloc, release.packages())?;
    let release = release.advance(alloc)?;
    let mote = match cut_sessions(alloc, mote, &release, &olds, next) {
        Ok(mote) => mote,
        Err(stop) => return Err(stop),
    };
    let is_new = has_started(&mote, next);
    match cut_line(alloc, &mote, is_new, &olds, release.packages(), next) {
        Ok(line) => Ok(Cut {
            line,
            mote,
            olds,
            release,
            is_new,
        }),
        Err(stop) => Err(stop),
    }
}

// Brings the drawn release whole, as the one of this number, where the mote doesn't have it.
fn whole_step(alloc: Global, cut: Cut, next: u32) -> Result<Whole, Stop>
    requires { 1 ≤ next }
    ensures { (number : ℕ) → cut.release ≡ release_drawn number next →
        IfOk result (λ w. (w.rehearsal.release ≡ release_drawn number next) × Tells (codes "boot ") number next w.line.items) }
{
    let Cut {
        mote,
        olds,
        release,
        is_new,
        ..
    } = cut;
    let have = if is_new { next } else { next - 1 };
    let frames = release.frames(alloc, have, &olds, next)?;
    let mote = calm_session(alloc, mote, &frames)?;
    let mote = calm_session(alloc, mote, &[])?;
    let line = told(alloc, b"boot ", next, release.packages(), &mote)?;
    Ok(Whole {
        line,
        rehearsal: Rehearsal { mote, release },
    })
}

/// Rehearses twenty releases drawn from the number: each is brought to a mote in memory, in a session in which power is cut and then in
/// a whole one. Behind each of the two a line is sent, `cut F H` and `boot R H`: the release that the mote started, and the digest of
/// its program flash; at last `done 20`.
///
/// F is R or the release before it, and H is the digest of what that release's set is, linked from scratch, with 0xFF behind it. A line is
/// sent only where the mote said that it started that release, and its program flash holds just this.
///
/// The status is 0 where all was sent, and 5 only where line faults rose. It is 1 where there was no memory. It would be 1 as well, and
/// no line is sent then, if the mote had not started a release so; that this can't be is not proved. Nothing but sends is done on the
/// board.
pub fn rehearse<B: Board>(alloc: Global, board: &mut B, number: u32) -> u8
    ensures only { OnlySends (B.view board.old) (B.view board.new) }
    ensures lines { Told (B.view board.old) (λ s. SendsLines number result s (B.view board.new)) }
    ensures failed { result ≡ 5 → Rose (B.view board.old).line_faults (B.view board.new).line_faults }
    ensures no_fault { result ≢ 5 → (B.view board.new).line_faults ≡ (B.view board.old).line_faults }
    ensures ends { EndsRehearsal result }
{
    let Ok(mut rehearsal) = begin(alloc, number) else {
        return 1;
    };
    for release in 1..RELEASES + 1 {
        let Ok(cut) = cut_step(alloc, rehearsal, release) else {
            return 1;
        };
        let Ok(()) = send(board, &cut.line) else {
            return 5;
        };
        let Ok(whole) = whole_step(alloc, cut, release) else {
            return 1;
        };
        let Ok(()) = send(board, &whole.line) else {
            return 5;
        };
        rehearsal = whole.rehearsal;
    }
    let Ok(()) = send(board, b"done 20\n") else {
        return 5;
    };
    0
}
