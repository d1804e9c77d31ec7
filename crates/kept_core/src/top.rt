//! The top call of the mote.

ghost use Rattle.std.specs.Prelude.{◌≡◌, ◌↔◌};
ghost use Rattle.kept_core.specs.Running.{TellsFaults};
ghost use Rattle.kept_core.specs.Top.{words_of, IsNoCommand, Does};
ghost use Rattle.kept_core.specs.declared.command.Command.{Command};

use crate::command::Command;
use crate::formatting::format;
use crate::reports::{send_image, send_status};
use crate::run::run_session;
use crate::status::Status;
use component_package::Text;
use flash_pages::Board;

/// The top call: does the command of these words on the board, and gives its exit status.
///
/// | words | what is done |
/// |---|---|
/// | `run` | boots, sends `booted N`, then serves frames: [`run_session`] |
/// | `format` | makes an empty board, sends `formatted`: [`format`] |
/// | `status` | sends the line `status C N S`; changes no flash: [`send_status`] |
/// | `image` | sends the 122,880 bytes of the image that boots; changes no flash: [`send_image`] |
///
/// | status | comes |
/// |---|---|
/// | 0 | the command was done; with `run`, END was read or the input ended between frames |
/// | 2 | with `run`, the input ended inside a frame |
/// | 3 | with `run`, a frame's length is above 1,024; nothing more is read |
/// | 4 | only where a call on a flash failed |
/// | 5 | only where a call on the line failed |
/// | 6 | with `run`, `status` or `image`, exactly where there was nothing to boot at entry and no flash fault came first |
/// | 7 | with `run`, 1,000,000 frames were served, and another byte came |
/// | 64 | exactly where the words are no command, `rehearse NUMBER` among them; nothing is done |
pub fn mote_main<B: Board>(words: &[Text], board: &mut B) -> u8
    // With the word `run` it is the headline.
    ensures does { (c : Command) → words.now ≡ words_of c →
        Does c result (B.view board.old) (B.view board.new) }
    ensures faults { TellsFaults result (B.view board.old) (B.view board.new) }
    ensures other { (result ≡ 64) ↔ IsNoCommand words.now }
    ensures nothing { IsNoCommand words.now → board.new ≡ board.old }
{
    match Command::of(words) {
        Some(Command::Run) => run_session(board).code(),
        Some(Command::Format) => format(board).code(),
        Some(Command::Status) => send_status(board).code(),
        Some(Command::Image) => send_image(board).code(),
        None => Status::NoCommand.code(),
    }
}
