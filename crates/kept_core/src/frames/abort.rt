//! ABORT.

ghost use Rattle.std.specs.Prelude.{◌≡◌, true, IfOk};
ghost use Rattle.flash_pages.specs.Board.{UsesFlash, FlashFaults, Told};
ghost use Rattle.kept_sessions.specs.Lines.{prints};
ghost use Rattle.kept_core.specs.Serving.{StaysFormatted};
ghost use Rattle.kept_core.specs.Wear.{IsIdle};
ghost use Rattle.kept_core.specs.Frames.{abort_frame, LeavesKnown, DoesKnown};

use component_package::Answer;
use flash_pages::{Board, Failed};
use kept_journal::{Standing, abandon};

/// Gives up what comes in.
pub(crate) fn serve_abort<B: Board>(board: &mut B, standing: &Standing) -> Result<Answer, Failed>
    ensures works { LeavesKnown standing.now abort_frame (B.view board.old) (B.view board.new) }
    ensures does { IfOk result (λ a. DoesKnown standing.now abort_frame (B.view board.old) (B.view board.new) a) }
    ensures idle { Told (B.view board.old) (λ z. IsIdle (B.view board.old) (B.view board.new)) }
    ensures formatted { IfOk result (λ a. Told (B.view board.old) (λ z. StaysFormatted z (B.view board.new))) }
    ensures line { IfOk result (λ a. prints a ≡ true) }
    ensures uses { UsesFlash (B.view board.old) (B.view board.new) }
    ensures faults { FlashFaults result (B.view board.old) (B.view board.new) }
{
    if standing.pending {
        return Ok(Answer::Reboot(standing.current.manifest.release));
    }
    abandon(board)?;
    Ok(Answer::Aborted)
}
