//! MANIFEST.

ghost use Rattle.std.specs.Prelude.{◌≡◌, true, ◌≤◌, ◌<◌, ◌==◌, ◌&&◌, IfOk, Some, length, map};
ghost use Rattle.flash_pages.specs.Board.{UsesFlash, FlashFaults, Told};
ghost use Rattle.component_package.specs.packages.Manifest.{release_of};
ghost use Rattle.kept_manifests.specs.Slots.{IsSlotManifest, stored_of};
ghost use Rattle.kept_definitions.specs.Machine.{held_count, is_incoming};
ghost use Rattle.component_package.specs.mote.Machine.{is_same_entries};
ghost use Rattle.kept_sessions.specs.Lines.{prints};
ghost use Rattle.kept_core.specs.Serving.{StaysFormatted};
ghost use Rattle.kept_core.specs.Wear.{IsIdle};
ghost use Rattle.kept_journal.specs.Standing.{HasManifests, incoming_of};
ghost use Rattle.kept_core.specs.Reading.{frame_of};
ghost use Rattle.kept_core.specs.Frames.{LeavesKnown, DoesKnown};

use component_package::{Answer, Entry, Manifest, read_manifest};
use component_store::is_same_entry;
use flash_pages::{Board, Failed};
use kept_journal::{Standing, put_manifest};
use kept_manifests::SlotManifest;
use kept_store::{is_held, slot_for};

// How many components of a release the current one has too.
fn held_count(current: &SlotManifest, m: &Manifest) -> u8
    requires current { IsSlotManifest current.now }
    requires count { m.now.count ≤ 16 }
    ensures count { result ≡ held_count (stored_of current.now) (release_of m.now).entries }
    ensures few { result ≤ 16 }
{
    let mut count = 0;
    for i in 0..m.count {
        if is_held(current, &m.entries[i as usize]) {
            count += 1;
        }
    }
    count
}

// Whether two lists have the same entries.
fn is_same_entries(a: &[Entry], b: &[Entry]) -> bool
    ensures { result ≡ is_same_entries a.now b.now }
{
    if a.len() != b.len() {
        return false;
    }
    for i in 0..a.len() {
        if !is_same_entry(&a[i], &b[i]) {
            return false;
        }
    }
    true
}

// The entries of a manifest.
fn entries(m: &Manifest) -> &[Entry]
    requires { m.now.count ≤ 16 }
    ensures { result.now ≡ (release_of m.now).entries }
{
    &m.entries[..m.count as usize]
}

// How many entries a stored manifest has room for. Contracts learn by it how long its list is.
fn room(entries: &[Entry; 16]) -> usize
    ensures entries { length entries.now ≡ 16 }
    ensures room { result ≡ 16 }
{
    entries.len()
}

// The entries of a stored manifest.
fn stored_entries(m: &SlotManifest) -> &[Entry]
    requires { IsSlotManifest m.now }
    ensures { result.now ≡ map (λ p. p.entry) (stored_of m.now).placed }
{
    let count = room(&m.manifest.entries).min(m.manifest.count as usize);
    &m.manifest.entries[..count]
}

// Whether a stored release is this one, whatever slots it has.
fn is_release(stored: &SlotManifest, m: &Manifest) -> bool
    requires stored { IsSlotManifest stored.now }
    requires count { m.now.count ≤ 16 }
    ensures { result ≡ is_incoming (Some (stored_of stored.now)) (release_of m.now) }
{
    stored.manifest.release == m.release && is_same_entries(stored_entries(stored), entries(m))
}

// Whether what comes in is this release already.
fn is_incoming(standing: &Standing, m: &Manifest) -> bool
    requires standing { HasManifests standing.now }
    requires count { m.now.count ≤ 16 }
    ensures { result ≡ is_incoming (incoming_of standing.now) (release_of m.now) }
{
    match &standing.incoming {
        Some(incoming) => is_release(incoming, m),
        None => false,
    }
}

/// Takes a release in, if it is a later one than the current one, and another than what comes in already.
pub(crate) fn serve_manifest<B: Board>(
    board: &mut B,
    standing: &Standing,
    payload: &[u8],
) -> Result<Answer, Failed>
    requires standing { HasManifests standing.now }
    requires short { length payload.now ≤ 1024 }
    ensures works { LeavesKnown standing.now (frame_of 1 payload.now) (B.view board.old) (B.view board.new) }
    ensures does { IfOk result (λ a. DoesKnown standing.now (frame_of 1 payload.now) (B.view board.old) (B.view board.new) a) }
    ensures idle { Told (B.view board.old) (λ z. IsIdle (B.view board.old) (B.view board.new)) }
    ensures formatted { IfOk result (λ a. Told (B.view board.old) (λ z. StaysFormatted z (B.view board.new))) }
    ensures line { IfOk result (λ a. prints a ≡ true) }
    ensures uses { UsesFlash (B.view board.old) (B.view board.new) }
    ensures faults { FlashFaults result (B.view board.old) (B.view board.new) }
{
    let current = &standing.current;
    if standing.pending {
        return Ok(Answer::Reboot(current.manifest.release));
    }
    let manifest = match read_manifest(payload) {
        Ok(manifest) => manifest,
        Err(fault) => return Ok(Answer::BadManifest(fault.number())),
    };
    if manifest.release <= current.manifest.release {
        return Ok(Answer::Stale(current.manifest.release));
    }
    let answer = Answer::ManifestIs(manifest.release, held_count(current, &manifest));
    if is_incoming(standing, &manifest) {
        return Ok(answer);
    }
    put_manifest(board, &slot_for(current, &manifest))?;
    Ok(answer)
}
