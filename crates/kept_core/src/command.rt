//! The words of the top call.

ghost use Rattle.std.specs.Prelude.{◌≡◌, ◌↔◌, IsTrue};

use component_package::Text;

/// What the top call is to do. Each command is one word.
#[derive(Clone, Copy, Debug, PartialEq, Eq)]
pub enum Command {
    /// `run`: boots, and serves frames.
    Run,
    /// `format`: makes an empty board.
    Format,
    /// `status`: tells which release boots and what comes in.
    Status,
    /// `image`: sends the image that boots.
    Image,
}

// Whether two texts are the same.
fn is_same(a: &str, b: &str) -> bool
    ensures { IsTrue result ↔ (a.now ≡ b.now) }
{
    a == b
}

impl Command {
    ghost use Rattle.kept_core.specs.Top.{Names, IsCommand};

    // The command with this name.
    fn named(word: &str) -> Option<Command>
        ensures { Names word.now result }
    {
        if is_same(word, "run") {
            return Some(Command::Run);
        }
        if is_same(word, "format") {
            return Some(Command::Format);
        }
        if is_same(word, "status") {
            return Some(Command::Status);
        }
        if is_same(word, "image") {
            return Some(Command::Image);
        }
        None
    }

    /// The command that these words say, if any.
    pub fn of(words: &[Text]) -> Option<Command>
        ensures { IsCommand words.now result }
    {
        if words.len() != 1 {
            return None;
        }
        Command::named(words[0].as_str())
    }
}
