//! Sessions.

ghost use Rattle.std.specs.Prelude.{◌≡◌, ◌+◌, ◌<◌, true, List, ℕ, IfSome, Some, None, unwrap_or};
ghost use Rattle.std.specs.Option.{option_map};
ghost use Rattle.flash_pages.specs.Board.{Told};
ghost use Rattle.kept_core.specs.Reading.{served_of};
ghost use Rattle.kept_core.specs.Commands.{code_of, ends_running, is_by_frames, TellsUnformatted};
ghost use Rattle.kept_core.specs.Running.{TellsFaults, TakesTurn, IsMain, goes_by_frames, ReadsTurn, ReadsFrames, StaysTold};

use crate::frames::boot::serve_boot;
use crate::sending::send_line;
use crate::serving::serve_one;
use crate::session::{Next, Session};
use crate::status::Status;
use component_package::Answer;
use flash_pages::Board;

// Reads, answers and sends once. It says how the session ended, where it did.
fn turn<B: Board>(session: &mut Session, board: &mut B) -> Option<Status>
    ensures faults { TellsFaults (unwrap_or (option_map code_of result) 0) (B.view board.old) (B.view board.new) }
    ensures ends { IfSome result (λ s. ends_running s ≡ true) }
    ensures served { result ≡ None → (served_of session.old < 1000000) × (served_of session.new ≡ served_of session.old + 1) }
    ensures turns { TakesTurn (served_of session.old) (option_map code_of result) (B.view board.old) (B.view board.new) }
    // On any board that tells what is left to read, or what its flashes hold.
    ensures reads { (l : List ℕ) → (B.view board.old).left ≡ Some l → goes_by_frames result ≡ true →
        ReadsTurn (served_of session.old) result l (B.view board.new) }
    ensures formatted { Told (B.view board.old) (λ z. StaysTold result z (B.view board.new)) }
{
    let kind = match session.next_frame(board) {
        Err(_) => return Some(Status::LineFault),
        Ok(Next::InputEnd) => return Some(Status::Ended),
        Ok(Next::CutFrame) => return Some(Status::CutFrame),
        Ok(Next::TooLong(_)) => return Some(Status::TooLong),
        Ok(Next::Budget) => return Some(Status::Budget),
        Ok(Next::Frame(kind)) => kind,
    };
    let Ok(answer) = serve_one(board, kind, session.payload()) else {
        return Some(Status::FlashFault);
    };
    match answer {
        Answer::Ended => Some(Status::Ended),
        Answer::Unformatted => Some(Status::Unformatted),
        _ => match send_line(board, &answer) {
            Err(_) => Some(Status::LineFault),
            Ok(()) => None,
        },
    }
}

/// The command `run`: boots, and serves frames until END, the end of the input or a fault. It ends with any status but `NoCommand`.
pub fn run_session<B: Board>(board: &mut B) -> Status
    ensures run { IsMain (code_of result) (B.view board.old) (B.view board.new) }
    // On any board that tells what its flashes hold, sound or not: `Unformatted` exactly where there is nothing to boot, and at once.
    ensures unformatted { Told (B.view board.old) (λ s. TellsUnformatted result s (B.view board.new)) }
    // On any board that tells what is left to read, whatever its flashes hold.
    ensures reads { (l : List ℕ) → (B.view board.old).left ≡ Some l → is_by_frames result ≡ true → ReadsFrames l result (B.view board.new) }
    ensures faults { TellsFaults (code_of result) (B.view board.old) (B.view board.new) }
    ensures ends { ends_running result ≡ true }
{
    let Ok(answer) = serve_boot(board) else {
        return Status::FlashFault;
    };
    if let Answer::Unformatted = answer {
        return Status::Unformatted;
    }
    let Ok(()) = send_line(board, &answer) else {
        return Status::LineFault;
    };
    let mut session = Session::new();
    loop {
        if let Some(status) = turn(&mut session, board) {
            return status;
        }
    }
}
