//! A plan, and what keeps a set from having one.

ghost use Rattle.std.specs.Prelude.{◌≡◌};

use std::error::Error;
use std::fmt;

/// The lengths of a component's parts in bytes.
#[derive(Clone, Copy, Debug, PartialEq, Eq)]
pub struct Sizes {
    /// Code.
    pub code: u16,
    /// Data that is copied to RAM at start.
    pub init: u16,
    /// RAM that is zeroed at start.
    pub bss: u16,
}

/// Where the parts of each component stand. The arrays count up to `count`; data addresses are those of the AVR tools, which number
/// data memory from 0x800000.
#[derive(Clone, Copy, Debug, PartialEq, Eq)]
pub struct Plan {
    /// How many components there are, at most 16.
    pub count: u8,
    /// The byte offset of each component's code in the image.
    pub code: [u32; 16],
    /// The byte offset of each component's data in the image, behind all code.
    pub load: [u32; 16],
    /// The address of each component's data in RAM, from 0x800100 on.
    pub ram: [u32; 16],
    /// The address of each component's bss, behind all data.
    pub bss: [u32; 16],
    /// The length of all code.
    pub code_total: u32,
    /// The length of all data.
    pub init_total: u32,
    /// The length of all bss.
    pub bss_total: u32,
}

/// Why a set has no room.
#[derive(Clone, Copy, Debug, PartialEq, Eq)]
pub enum PlanFault {
    /// Code and data together have this many bytes, which is above the 122,880 of the application section.
    Flash(u32),
    /// Data and bss together have this many bytes, which is above 3,584.
    Ram(u32),
}

/// The cause in words, with the total.
impl fmt::Display for PlanFault {
    fn fmt<W: fmt::Write>(&self, f: &mut fmt::Formatter<W>) -> fmt::Result {
        match self {
            PlanFault::Flash(total) => write!(f, "code and data have {total} bytes"),
            PlanFault::Ram(total) => write!(f, "data and bss have {total} bytes"),
        }
    }
}

impl Error for PlanFault {}

/// A part of a component.
#[derive(Clone, Copy, Debug, PartialEq, Eq)]
pub(crate) enum Part {
    Code,
    Init,
    Bss,
}

impl Sizes {
    ghost use Rattle.layout_plan.specs.Plan.{size_of};

    pub(crate) fn part(&self, part: Part) -> u16
        ensures { result ≡ size_of part self.now }
    {
        match part {
            Part::Code => self.code,
            Part::Init => self.init,
            Part::Bss => self.bss,
        }
    }
}
