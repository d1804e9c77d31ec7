//! Why a set has no image.

ghost use Rattle.std.specs.Prelude.{◌≡◌};
ghost use Rattle.full_linker.specs.declared.fault.LinkFault.TheVariants.{Memory};

use avr_reloc::RangeFault;
use component_package::NoMemory;
use layout_plan::PlanFault;
use std::alloc::{AllocError, AllocFailed};
use std::error::Error;
use std::fmt;

/// The first cause that a set has no image, in this order. Components and relocations are counted from 0.
#[derive(Clone, Copy, Debug, PartialEq, Eq)]
pub enum LinkFault {
    /// Code and data together have this many bytes, which is above 122,880.
    Flash(u32),
    /// Data and bss together have this many bytes, which is above 3,584.
    Ram(u32),
    /// The set exports this many different symbols, which is above 1,024.
    Symbols(u32),
    /// The packages have this many relocations together, which is above 8,192.
    Relocations(u32),
    /// The least symbol that two components export not weakly, and the first two of them.
    Duplicate(u16, u8, u8),
    /// A component, its relocation, and the symbol that it refers to, not weakly, and that no component exports.
    Undefined(u8, u16, u16),
    /// A component, its relocation, and why the field can't hold the value.
    Range(u8, u16, RangeFault),
    /// There was no memory; this says nothing of the set.
    Memory,
}

impl LinkFault {
    ghost use Rattle.full_linker.specs.Faults.{number_of_fault};

    /// The number of the fault, 1 to 8 in the order above.
    pub fn number(&self) -> u8
        ensures { result ≡ number_of_fault self.now }
    {
        match self {
            LinkFault::Flash(_) => 1,
            LinkFault::Ram(_) => 2,
            LinkFault::Symbols(_) => 3,
            LinkFault::Relocations(_) => 4,
            LinkFault::Duplicate(_, _, _) => 5,
            LinkFault::Undefined(_, _, _) => 6,
            LinkFault::Range(_, _, _) => 7,
            LinkFault::Memory => 8,
        }
    }
}

/// The cause in words, with its values.
impl fmt::Display for LinkFault {
    fn fmt<W: fmt::Write>(&self, f: &mut fmt::Formatter<W>) -> fmt::Result {
        match self {
            LinkFault::Flash(total) => write!(f, "{}", PlanFault::Flash(*total)),
            LinkFault::Ram(total) => write!(f, "{}", PlanFault::Ram(*total)),
            LinkFault::Symbols(count) => write!(f, "there are {count} symbols"),
            LinkFault::Relocations(count) => write!(f, "there are {count} relocations"),
            LinkFault::Duplicate(symbol, first, second) => {
                write!(f, "components {first} and {second} define symbol {symbol}")
            }
            LinkFault::Undefined(component, index, symbol) => write!(
                f,
                "relocation {index} of component {component} refers to symbol {symbol}, which is undefined"
            ),
            LinkFault::Range(component, index, fault) => {
                write!(f, "relocation {index} of component {component}: {fault}")
            }
            LinkFault::Memory => write!(f, "{}", NoMemory),
        }
    }
}

impl Error for LinkFault {}

impl From<AllocError> for LinkFault {
    ghost from_gives = { λ _ f. f ≡ Memory };

    fn from(_error: AllocError) -> LinkFault {
        LinkFault::Memory
    }
}

impl<T: Drop> From<AllocFailed<T>> for LinkFault {
    ghost from_gives = { λ _ f. f ≡ Memory };

    fn from(_error: AllocFailed<T>) -> LinkFault {
        LinkFault::Memory
    }
}
