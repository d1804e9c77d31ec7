//! Sending a line whole, in whatever pieces the board takes.

ghost use Rattle.std.specs.Prelude.{◌≡◌, ◌<◌, [], length, List, ℕ, OnOk, OnErr, Some};
ghost use Rattle.flash_pages.specs.State.{State, SendsPart};
ghost use Rattle.flash_pages.specs.Board.{Rose, UsesLine};
ghost use Rattle.component_package.specs.mote.Lines.{line_of};
ghost use Rattle.kept_core.specs.Sending.{SendsBut};

use crate::line::write_line;
use component_package::Answer;
use flash_pages::{Board, Failed};

// Sends all the bytes.
pub(crate) fn send_all<B: Board>(board: &mut B, from: &[u8]) -> Result<(), Failed>
    ensures sent { (s : State) → (B.view board.old).state ≡ Some s → (owed : List ℕ) × (x : State)
        × ((B.view board.new).state ≡ Some x) × SendsBut owed from.now s x × OnOk result (owed ≡ []) }
    ensures left { (B.view board.new).left ≡ (B.view board.old).left }
    ensures line { UsesLine (SendsPart from.now) (B.view board.old) (B.view board.new) }
    ensures no_fault { OnOk result ((B.view board.new).line_faults ≡ (B.view board.old).line_faults) }
    ensures failed { OnErr result (Rose (B.view board.old).line_faults (B.view board.new).line_faults) }
{
    let mut at = 0;
    while at < from.len() {
        let Ok(count) = board.send(&from[at..]) else {
            return Err(Failed);
        };
        at += count;
    }
    Ok(())
}

// Sends the line of the answer.
pub(crate) fn send_line<B: Board>(board: &mut B, answer: &Answer) -> Result<(), Failed>
    ensures sent { (s : State) → (B.view board.old).state ≡ Some s → (owed : List ℕ) × (x : State)
        × ((B.view board.new).state ≡ Some x) × SendsBut owed (line_of answer.now) s x × OnOk result (owed ≡ []) }
    ensures left { (B.view board.new).left ≡ (B.view board.old).left }
    ensures line { UsesLine (SendsPart (line_of answer.now)) (B.view board.old) (B.view board.new) }
    ensures no_fault { OnOk result ((B.view board.new).line_faults ≡ (B.view board.old).line_faults) }
    ensures failed { OnErr result (Rose (B.view board.old).line_faults (B.view board.new).line_faults) }
{
    let mut line = [0u8; 64];
    let length = write_line(answer, &mut line);
    send_all(board, &line[..length as usize])?;
    Ok(())
}
