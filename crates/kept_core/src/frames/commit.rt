//! COMMIT.

ghost use Rattle.std.specs.Prelude.{◌≡◌, true, IfOk};
ghost use Rattle.flash_pages.specs.Board.{UsesFlash, Told, FlashFaults};
ghost use Rattle.mote_laws.specs.Stands.{commit_frame};
ghost use Rattle.kept_sessions.specs.Lines.{prints};
ghost use Rattle.kept_journal.specs.Steps.{parts};
ghost use Rattle.kept_journal.specs.Standing.{IsStanding};
ghost use Rattle.kept_core.specs.Frames.{LeavesKnown, DoesKnown};
ghost use Rattle.kept_core.specs.Serving.{StaysFormatted};
ghost use Rattle.kept_core.specs.Wear.{IsIdle};

use component_package::Answer;
use flash_pages::{Board, Failed};
use kept_journal::{Standing, go};

/// Makes what is linked the release that boots next, with one program.
pub(crate) fn serve_commit<B: Board>(board: &mut B, standing: &Standing) -> Result<Answer, Failed>
    ensures works { LeavesKnown standing.now commit_frame (B.view board.old) (B.view board.new) }
    ensures does { IfOk result (λ a. DoesKnown standing.now commit_frame (B.view board.old) (B.view board.new) a) }
    ensures idle { Told (B.view board.old) (λ z. IsIdle (B.view board.old) (B.view board.new)) }
    ensures formatted { IfOk result (λ a. Told (B.view board.old) (λ z. IsStanding (parts z) standing.now → StaysFormatted z (B.view board.new))) }
    ensures line { IfOk result (λ a. prints a ≡ true) }
    ensures uses { UsesFlash (B.view board.old) (B.view board.new) }
    ensures faults { FlashFaults result (B.view board.old) (B.view board.new) }
{
    if standing.pending {
        return Ok(Answer::Committed(standing.current.manifest.release));
    }
    let Some(incoming) = &standing.incoming else {
        return Ok(Answer::NoManifest);
    };
    if !standing.image {
        return Ok(Answer::NotLinked);
    }
    go(board)?;
    Ok(Answer::Committed(incoming.manifest.release))
}
