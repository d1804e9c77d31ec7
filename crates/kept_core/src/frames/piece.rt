//! PIECE.

ghost use Rattle.std.specs.Prelude.{ℕ, Err, true, ◌≡◌, ◌≤◌, ◌<◌, IfOk, IfSome, Some, None, length, slice_get};
ghost use Rattle.flash_pages.specs.Board.{UsesFlash, FlashFaults, Told};
ghost use Rattle.kept_sessions.specs.Lines.{prints};
ghost use Rattle.kept_core.specs.Serving.{StaysFormatted};
ghost use Rattle.kept_core.specs.Wear.{IsIdle};
ghost use Rattle.kept_manifests.specs.Slots.{IsSlotManifest, stored_of};
ghost use Rattle.component_package.specs.packages.Manifest.{IsManifestEntry};
ghost use Rattle.kept_journal.specs.Standing.{HasManifests};
ghost use Rattle.component_store.specs.Pieces.{is_fault};
ghost use Rattle.kept_core.specs.Reading.{frame_of};
ghost use Rattle.kept_core.specs.Frames.{LeavesKnown, DoesKnown, placed_of};

use component_package::{Answer, Entry};
use component_store::{StoreFault, piece_differs, put_piece};
use flash_pages::{Board, Failed};
use kept_journal::{Standing, unlink};
use kept_manifests::SlotManifest;

// An entry of a release, the slot of its package, and whether it comes in with its release.
#[derive(Clone, Copy)]
struct StoredEntry {
    entry: Entry,
    slot: u8,
    fresh: bool,
}

// The entry of component `k`, if there is one.
fn entry_at(m: &SlotManifest, k: u8) -> Option<StoredEntry>
    requires { IsSlotManifest m.now }
    ensures there { IfSome result (λ e. slice_get (stored_of m.now).placed k ≡ Some (placed_of e)) }
    ensures none { result ≡ None → slice_get (stored_of m.now).placed k ≡ None }
    ensures slot { IfSome result (λ e. e.slot < 16) }
    ensures entry { IfSome result (λ e. IsManifestEntry e.entry) }
{
    if k >= m.manifest.count {
        return None;
    }
    Some(StoredEntry {
        entry: m.manifest.entries[k as usize],
        slot: m.slots[k as usize],
        fresh: m.fresh[k as usize],
    })
}

// Whether a call of the board failed.
fn is_failed(fault: StoreFault) -> bool
    ensures { result ≡ is_fault {A = ℕ} (Err fault) }
{
    match fault {
        StoreFault::Fault => true,
        StoreFault::Page
        | StoreFault::PieceLength
        | StoreFault::Package(_)
        | StoreFault::Identity => false,
    }
}

/// Stores a page of a package that comes in, in the inbox slot of its entry, if the entry is fresh and the page isn't there already.
pub(crate) fn serve_piece<B: Board>(
    board: &mut B,
    standing: &Standing,
    payload: &[u8],
) -> Result<Answer, Failed>
    requires standing { HasManifests standing.now }
    requires short { length payload.now ≤ 1024 }
    ensures works { LeavesKnown standing.now (frame_of 2 payload.now) (B.view board.old) (B.view board.new) }
    ensures does { IfOk result (λ a. DoesKnown standing.now (frame_of 2 payload.now) (B.view board.old) (B.view board.new) a) }
    ensures idle { Told (B.view board.old) (λ z. IsIdle (B.view board.old) (B.view board.new)) }
    ensures formatted { IfOk result (λ a. Told (B.view board.old) (λ z. StaysFormatted z (B.view board.new))) }
    ensures line { IfOk result (λ a. prints a ≡ true) }
    ensures uses { UsesFlash (B.view board.old) (B.view board.new) }
    ensures faults { FlashFaults result (B.view board.old) (B.view board.new) }
{
    if standing.pending {
        return Ok(Answer::Reboot(standing.current.manifest.release));
    }
    let Some(incoming) = &standing.incoming else {
        return Ok(Answer::NoManifest);
    };
    if payload.len() < 3 {
        return Ok(Answer::BadPiece);
    }
    let k = payload[0];
    let page = payload[1];
    let bytes = &payload[2..];
    let Some(stored) = entry_at(incoming, k) else {
        return Ok(Answer::BadPiece);
    };
    let StoredEntry { entry, slot, fresh } = stored;
    let differs = match piece_differs(board, slot, entry.length, page, bytes) {
        Ok(differs) => differs,
        Err(fault) => {
            if is_failed(fault) {
                return Err(Failed);
            }
            return Ok(Answer::BadPiece);
        }
    };
    if !fresh {
        return Ok(Answer::Held(k));
    }
    if !differs {
        return Ok(Answer::Piece(k, page));
    }
    unlink(board)?;
    match put_piece(board, slot, entry.length, page, bytes) {
        Ok(()) => Ok(Answer::Piece(k, page)),
        Err(_) => Err(Failed),
    }
}
