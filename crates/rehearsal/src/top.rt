//! The top call of the mote, with rehearsals.

ghost use Rattle.std.specs.Prelude.{◌≡◌, ◌↔◌, ◌<◌, ◌^◌, ℕ};
ghost use Rattle.mote_core.specs.Running.{TellsFaults};
ghost use Rattle.mote_core.specs.Top.{words_of, Does};
ghost use Rattle.mote_core.specs.declared.command.Command.{Command};
ghost use Rattle.rehearsal.specs.Top.{IsNothing, DoesRehearsal};
ghost use Rattle.rehearsal.specs.Words.{rehearse_words};

use crate::run::rehearse;
use crate::words::rehearsal_number;
use component_package::Text;
use flash_pages::Board;
use std::alloc::Global;

/// The top call: does the command of these words on the board, and gives its exit status. Each of the four commands of
/// [`mote_core::mote_main`] does what it does there, word for word, and the words `rehearse NUMBER` are one more: [`rehearse`].
///
/// | status | comes |
/// |---|---|
/// | 0, 2, 3, 4, 6 and 7 | as from `mote_core::mote_main`; 0 also where a rehearsal was sent whole |
/// | 1 | with `rehearse` alone, where there was no memory |
/// | 5 | only where a call on the line failed |
/// | 64 | exactly where the words are none of the four commands and no rehearsal; nothing is done |
pub fn mote_main<B: Board>(alloc: Global, words: &[Text], board: &mut B) -> u8
    // With the word `run` it is the headline.
    ensures does { (c : Command) → words.now ≡ words_of c →
        Does c result (B.view board.old) (B.view board.new) }
    ensures rehearses { (number : ℕ) → number < 2 ^ 32 → words.now ≡ rehearse_words number →
        DoesRehearsal number result (B.view board.old) (B.view board.new) }
    ensures faults { TellsFaults result (B.view board.old) (B.view board.new) }
    ensures other { (result ≡ 64) ↔ IsNothing words.now }
    ensures nothing { IsNothing words.now → board.new ≡ board.old }
{
    if let Some(number) = rehearsal_number(words) {
        return rehearse(alloc, board, number);
    }
    mote_core::mote_main(words, board)
}
