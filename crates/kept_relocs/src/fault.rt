//! Why a relocation list can't be built.

use avr_reloc::RangeFault;
use flash_pages::Failed;
use std::error::Error;
use std::fmt;

/// Why relocations can't be listed. Components and relocations are counted from 0.
#[derive(Clone, Copy, Debug, PartialEq, Eq)]
pub enum BuildFault {
    /// A call of the board failed.
    Fault,
    /// The packages have this many relocations together, which is above 8,192.
    Relocations(u32),
    /// A component, its relocation, and the symbol that it refers to, not weakly, and that has no address.
    Undefined(u8, u16, u16),
    /// A component, its relocation, and why the field can't hold the value.
    Range(u8, u16, RangeFault),
}

/// Why, in words, with the values.
impl fmt::Display for BuildFault {
    fn fmt<W: fmt::Write>(&self, f: &mut fmt::Formatter<W>) -> fmt::Result {
        match self {
            BuildFault::Fault => write!(f, "{}", Failed),
            BuildFault::Relocations(count) => write!(f, "there are {count} relocations"),
            BuildFault::Undefined(component, index, symbol) => write!(
                f,
                "relocation {index} of component {component} refers to symbol {symbol}, which is undefined"
            ),
            BuildFault::Range(component, index, fault) => {
                write!(f, "relocation {index} of component {component}: {fault}")
            }
        }
    }
}

impl Error for BuildFault {}
