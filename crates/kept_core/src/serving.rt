//! What a frame is answered, and what it does to the flashes.

ghost use Rattle.std.specs.Prelude.{◌≡◌, ◌≤◌, false, length, IfOk};
ghost use Rattle.std.specs.Result.{is_ok};
ghost use Rattle.flash_pages.specs.Board.{UsesFlash, FlashFaults, Told};
ghost use Rattle.component_package.specs.mote.Machine.{is_bad_frame};
ghost use Rattle.component_package.specs.declared.answer.Answer.TheVariants.{Unformatted};
ghost use Rattle.kept_journal.specs.Steps.{parts};
ghost use Rattle.kept_journal.specs.Standing.{HasManifests, IsStanding};
ghost use Rattle.kept_core.specs.Reading.{frame_of};
ghost use Rattle.kept_core.specs.Serving.{LeavesWork, DoesWork, StaysFormatted, AnswersFormatted, AnswersEnd};
ghost use Rattle.kept_core.specs.Wear.{WearsRead, WearsWork};
ghost use Rattle.kept_core.specs.Frames.{LeavesRead, DoesRead};

use crate::frames::abort::serve_abort;
use crate::frames::boot::serve_boot;
use crate::frames::commit::serve_commit;
use crate::frames::link::serve_link;
use crate::frames::manifest::serve_manifest;
use crate::frames::piece::serve_piece;
use crate::frames::status::status_of;
use component_package::Answer;
use component_package::frames::{ABORT, BOOT, COMMIT, END, LINK, MANIFEST, PIECE, STATUS};
use flash_pages::{Board, Failed};
use kept_journal::{JournalFault, Standing, read_state};

// Whether there is no such type of frame, or something is in a frame that has nothing in it.
fn is_bad_frame(kind: u8, payload: &[u8]) -> bool
    ensures { result ≡ is_bad_frame (frame_of kind payload.now) }
{
    if kind < MANIFEST {
        return true;
    }
    if kind > END {
        return true;
    }
    kind >= LINK && !payload.is_empty()
}

// Answers a frame that is no BOOT, once it is known what the gates and the sides say.
fn serve_known<B: Board>(
    board: &mut B,
    standing: &Standing,
    kind: u8,
    payload: &[u8],
) -> Result<Answer, Failed>
    requires standing { HasManifests standing.now }
    requires good { is_bad_frame (frame_of kind payload.now) ≡ false }
    requires other { (kind ≡ 5) → ⊥ }
    requires short { length payload.now ≤ 1024 }
    ensures works { LeavesRead standing.now (frame_of kind payload.now) (B.view board.old) (B.view board.new) }
    ensures does { IfOk result (λ a. DoesRead standing.now (frame_of kind payload.now) (B.view board.old) (B.view board.new) a) }
    ensures wear { WearsRead (is_ok result) standing.now (frame_of kind payload.now) (B.view board.old) (B.view board.new) }
    ensures formatted { IfOk result (λ a. Told (B.view board.old) (λ z. IsStanding (parts z) standing.now → StaysFormatted z (B.view board.new))) }
    ensures ended { IfOk result (λ a. AnswersEnd (frame_of kind payload.now) a × (a ≡ Unformatted → ⊥)) }
    ensures uses { UsesFlash (B.view board.old) (B.view board.new) }
    ensures faults { FlashFaults result (B.view board.old) (B.view board.new) }
{
    if kind == MANIFEST {
        let Ok(answer) = serve_manifest(board, standing, payload) else {
            return Err(Failed);
        };
        return Ok(answer);
    }
    if kind == PIECE {
        let Ok(answer) = serve_piece(board, standing, payload) else {
            return Err(Failed);
        };
        return Ok(answer);
    }
    if kind == LINK {
        let Ok(answer) = serve_link(board, standing) else {
            return Err(Failed);
        };
        return Ok(answer);
    }
    if kind == COMMIT {
        let Ok(answer) = serve_commit(board, standing) else {
            return Err(Failed);
        };
        return Ok(answer);
    }
    if kind == STATUS {
        return Ok(status_of(standing));
    }
    if kind == ABORT {
        let Ok(answer) = serve_abort(board, standing) else {
            return Err(Failed);
        };
        return Ok(answer);
    }
    Ok(Answer::Ended)
}

/// Answers one frame of this type and payload (at most 1,024 bytes), and does to the flashes what the answer says. `Failed` comes only where flash
/// faults rose.
pub fn serve_one<B: Board>(board: &mut B, kind: u8, payload: &[u8]) -> Result<Answer, Failed>
    requires { length payload.now ≤ 1024 }
    ensures works { LeavesWork (frame_of kind payload.now) (B.view board.old) (B.view board.new) }
    ensures answer { IfOk result (λ a. DoesWork (frame_of kind payload.now) (B.view board.old) (B.view board.new) a) }
    // Each page of program flash and of LINK's areas is programmed once at most, and only where it is to hold other bytes.
    ensures wear { WearsWork (is_ok result) (frame_of kind payload.now) (B.view board.old) (B.view board.new) }
    // On any board that tells its state, sound or not.
    ensures unformatted { IfOk result (λ a. Told (B.view board.old) (λ z.
        AnswersFormatted (frame_of kind payload.now) a z (B.view board.new))) }
    ensures ended { IfOk result (AnswersEnd (frame_of kind payload.now)) }
    ensures uses { UsesFlash (B.view board.old) (B.view board.new) }
    ensures faults { FlashFaults result (B.view board.old) (B.view board.new) }
{
    if is_bad_frame(kind, payload) {
        return Ok(Answer::BadFrame(kind));
    }
    if kind == BOOT {
        let Ok(answer) = serve_boot(board) else {
            return Err(Failed);
        };
        return Ok(answer);
    }
    let standing = match read_state(board) {
        Ok(standing) => standing,
        Err(JournalFault::Unformatted) => return Ok(Answer::Unformatted),
        Err(JournalFault::Fault) => return Err(Failed),
    };
    let Ok(answer) = serve_known(board, &standing, kind, payload) else {
        return Err(Failed);
    };
    Ok(answer)
}
