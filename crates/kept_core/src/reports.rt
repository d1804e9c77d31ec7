//! What a board tells of itself: the commands that change no flash.

ghost use Rattle.std.specs.Prelude.{◌≡◌, ◌<◌, [], true, OnOk, slice_index_or};
ghost use Rattle.std.specs.List.{concat};
ghost use Rattle.flash_pages.specs.Board.{Reads, Told, FlashFaults};
ghost use Rattle.flash_pages.specs.Moments.{LeavesOnly};
ghost use Rattle.component_package.specs.mote.Lines.{line_of};
ghost use Rattle.kept_definitions.specs.Machine.{Mote, step};
ghost use Rattle.kept_journal.specs.Steps.{Stands};
ghost use Rattle.kept_core.specs.Frames.{status_frame};
ghost use Rattle.kept_core.specs.Running.{TellsFaults};
ghost use Rattle.kept_core.specs.Commands.{code_of, ends_writing, ends_reading, image_pages, SameFlash, SendsAll, SendsImage, TellsUnformatted};
ghost use Rattle.kept_core.specs.declared.status.Status.TheVariants.{Ended};

use crate::frames::status::status_of;
use crate::sending::{send_all, send_line};
use crate::status::Status;
use component_package::areas::{IMAGE_PAGES, STAGED};
use flash_pages::{Board, Failed};
use kept_journal::{JournalFault, read_state};

/// The command `status`: sends the line that the frame STATUS is answered with, and changes no flash.
///
/// `FlashFault` and `LineFault` come only where faults of that kind rose. Where none rose it is `Unformatted` exactly where
/// [`read_state`] answers so, and nothing is sent; else it is `Ended`.
pub fn send_status<B: Board>(board: &mut B) -> Status
    ensures sends { Told (B.view board.old) (λ s. (t : Mote) → Stands s t →
        SendsAll (line_of (step t status_frame).answer) (result ≡ Ended) s
        (B.view board.old) (B.view board.new)) }
    ensures keeps { Told (B.view board.old) (λ s.
        LeavesOnly (SameFlash s) 0 (B.view board.old) (B.view board.new)) }
    ensures unformatted { Told (B.view board.old) (λ s.
        TellsUnformatted result s (B.view board.new)) }
    ensures ends { ends_reading result ≡ true }
    ensures left { (B.view board.new).left ≡ (B.view board.old).left }
    ensures faults { TellsFaults (code_of result) (B.view board.old) (B.view board.new) }
{
    let standing = match read_state(board) {
        Err(JournalFault::Fault) => return Status::FlashFault,
        Err(JournalFault::Unformatted) => return Status::Unformatted,
        Ok(standing) => standing,
    };
    let Ok(()) = send_line(board, &status_of(&standing)) else {
        return Status::LineFault;
    };
    Status::Ended
}

// Reads a page of the image, of the staged one or of that in program flash.
fn read_page<B: Board>(
    board: &mut B,
    staged: bool,
    page: u16,
    into: &mut [u8; 256],
) -> Result<(), Failed>
    requires { page < 480 }
    ensures page { OnOk result (Told (B.view board.old) (λ s.
        into.new ≡ slice_index_or (image_pages staged s) page [])) }
    ensures reads { Reads (B.view board.old) (B.view board.new) }
    ensures faults { FlashFaults result (B.view board.old) (B.view board.new) }
{
    if staged {
        board.ext_read(STAGED + page, into)?;
    } else {
        board.prog_read(page, into)?;
    }
    Ok(())
}

// Sends the pages of the image, of the staged one or of that in program flash.
fn send_pages<B: Board>(board: &mut B, staged: bool) -> Status
    ensures sends { Told (B.view board.old) (λ s.
        SendsAll (concat (image_pages staged s)) (result ≡ Ended) s
        (B.view board.old) (B.view board.new)) }
    ensures ends { ends_writing result ≡ true }
    ensures left { (B.view board.new).left ≡ (B.view board.old).left }
    ensures faults { TellsFaults (code_of result) (B.view board.old) (B.view board.new) }
{
    for page in 0..IMAGE_PAGES {
        let mut bytes = [0; 256];
        let Ok(()) = read_page(board, staged, page, &mut bytes) else {
            return Status::FlashFault;
        };
        let Ok(()) = send_all(board, &bytes) else {
            return Status::LineFault;
        };
    }
    Status::Ended
}

/// The command `image`: sends the image of the chosen set and 0xFF behind it, 122,880 bytes, and changes no flash. They are read from the
/// staged image where a commit stands and from program flash otherwise. It ends as [`send_status`] does.
pub fn send_image<B: Board>(board: &mut B) -> Status
    ensures sends { Told (B.view board.old) (λ s. (t : Mote) → Stands s t →
        SendsImage t (result ≡ Ended) s (B.view board.old) (B.view board.new)) }
    ensures keeps { Told (B.view board.old) (λ s.
        LeavesOnly (SameFlash s) 0 (B.view board.old) (B.view board.new)) }
    ensures unformatted { Told (B.view board.old) (λ s.
        TellsUnformatted result s (B.view board.new)) }
    ensures ends { ends_reading result ≡ true }
    ensures left { (B.view board.new).left ≡ (B.view board.old).left }
    ensures faults { TellsFaults (code_of result) (B.view board.old) (B.view board.new) }
{
    let standing = match read_state(board) {
        Err(JournalFault::Fault) => return Status::FlashFault,
        Err(JournalFault::Unformatted) => return Status::Unformatted,
        Ok(standing) => standing,
    };
    send_pages(board, standing.pending)
}
