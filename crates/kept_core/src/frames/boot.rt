//! BOOT.

ghost use Rattle.std.specs.Prelude.{◌≡◌, IfOk};
ghost use Rattle.std.specs.Result.{is_ok};
ghost use Rattle.flash_pages.specs.Board.{UsesFlash, Told, FlashFaults};
ghost use Rattle.component_package.specs.declared.answer.Answer.TheVariants.{Ended, Unformatted};
ghost use Rattle.component_package.specs.mote.Machine.{boot_frame};
ghost use Rattle.kept_journal.specs.Steps.{parts};
ghost use Rattle.kept_core.specs.Serving.{LeavesWork, DoesWork, TellsFormatted, StaysFormatted};
ghost use Rattle.kept_core.specs.Wear.{WearsWork};

use component_package::Answer;
use flash_pages::{Board, Failed};
use kept_boot::{BootFault, boot};

/// Starts the chosen release.
pub(crate) fn serve_boot<B: Board>(board: &mut B) -> Result<Answer, Failed>
    ensures works { LeavesWork boot_frame (B.view board.old) (B.view board.new) }
    ensures does { IfOk result (λ a. DoesWork boot_frame (B.view board.old) (B.view board.new) a) }
    ensures formatted { IfOk result (λ a. Told (B.view board.old) (λ z. TellsFormatted a (parts z))) }
    ensures stays { IfOk result (λ a. Told (B.view board.old) (λ z. StaysFormatted z (B.view board.new))) }
    ensures other { IfOk result (λ a. a ≡ Ended → ⊥) }
    ensures nothing { IfOk result (λ a. a ≡ Unformatted → (B.view board.new).state ≡ (B.view board.old).state) }
    ensures wear { WearsWork (is_ok result) boot_frame (B.view board.old) (B.view board.new) }
    ensures uses { UsesFlash (B.view board.old) (B.view board.new) }
    ensures faults { FlashFaults result (B.view board.old) (B.view board.new) }
{
    match boot(board) {
        Ok(release) => Ok(Answer::Booted(release)),
        Err(BootFault::Unformatted) => Ok(Answer::Unformatted),
        Err(BootFault::Fault) => Err(Failed),
    }
}
