//! Why the symbols of a set can't be merged.

ghost use Rattle.std.specs.Prelude.{◌≡◌};

use flash_pages::Failed;
use std::error::Error;
use std::fmt;

/// Why a call gives no answer. Components are counted from 0.
#[derive(Clone, Copy, Debug, PartialEq, Eq)]
pub enum MergeFault {
    /// A call of the board failed.
    Fault,
    /// The set exports this many different symbols, which is above 1,024.
    Symbols(u32),
    /// The least symbol that two components export not weakly, and the first two of them.
    Duplicate(u16, u8, u8),
}

impl MergeFault {
    ghost use Rattle.kept_symbols.specs.Answers.{number_of_fault};

    /// The number of the fault, 1 to 3 in the order above.
    pub fn number(&self) -> u8
        ensures { result ≡ number_of_fault self.now }
    {
        match self {
            MergeFault::Fault => 1,
            MergeFault::Symbols(_) => 2,
            MergeFault::Duplicate(_, _, _) => 3,
        }
    }
}

/// Why, in words, with the values.
impl fmt::Display for MergeFault {
    fn fmt<W: fmt::Write>(&self, f: &mut fmt::Formatter<W>) -> fmt::Result {
        match self {
            MergeFault::Fault => write!(f, "{}", Failed),
            MergeFault::Symbols(count) => write!(f, "there are {count} symbols"),
            MergeFault::Duplicate(symbol, first, second) => {
                write!(f, "components {first} and {second} define symbol {symbol}")
            }
        }
    }
}

impl Error for MergeFault {}
