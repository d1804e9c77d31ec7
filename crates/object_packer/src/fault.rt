//! Why an object can't be packed.

ghost use Rattle.std.specs.Prelude.{◌≡◌};
ghost use Rattle.object_packer.specs.declared.fault.PackFault.TheVariants.{Memory};

use std::alloc::AllocError;
use std::error::Error;
use std::fmt;

/// The first fault of an object that was read but can't be packed. Sections, symbols and the entries of
/// a section's relocations go by their indexes in the object, from 0. Faults are looked for in this
/// order: sections; symbols; relocations by section and entry; fields that overlap; size.
#[derive(Clone, Copy, Debug, PartialEq, Eq)]
pub enum PackFault {
    /// A section in memory of a name that is left out or of an alignment above 2, or the section of a
    /// symbol that a relocation names, where it is not in memory.
    Section(u16),
    /// A symbol that the linker is to make room for.
    Common(u32),
    /// The patched section, the entry, and its type, which is above 32.
    Kind(u16, u32, u8),
    /// The patched section and the entry whose addend, with the symbol's place in the component, has no
    /// room in 16 bits.
    Addend(u16, u32),
    /// The patched section and the entry whose field is not within the section, is an instruction's at
    /// an odd offset, or begins before the former one's end.
    Field(u16, u32),
    /// The bytes of the first of code, data and zeroed RAM that has more than 65,534, or else of the
    /// package, which has more than 9,984.
    Size(u64),
    /// A symbol that is not local and whose value is no address, and above 65,535.
    Absolute(u32),
    /// A symbol that is exported under a name of the linker's or of an earlier exported symbol.
    NameTwice(u32),
    /// There was no memory; this says nothing of the object.
    Memory,
}

impl PackFault {
    ghost use Rattle.object_packer.specs.Faults.{number_of};

    /// The fault's number, 1 to 9, in the order above.
    pub fn number(&self) -> u8
        ensures { result ≡ number_of self.now }
    {
        match self {
            PackFault::Section(_) => 1,
            PackFault::Common(_) => 2,
            PackFault::Kind(_, _, _) => 3,
            PackFault::Addend(_, _) => 4,
            PackFault::Field(_, _) => 5,
            PackFault::Size(_) => 6,
            PackFault::Absolute(_) => 7,
            PackFault::NameTwice(_) => 8,
            PackFault::Memory => 9,
        }
    }
}

impl From<AllocError> for PackFault {
    ghost from_gives = { λ _ f. f ≡ Memory };

    fn from(_error: AllocError) -> PackFault {
        PackFault::Memory
    }
}

/// What is wrong, in words.
impl fmt::Display for PackFault {
    fn fmt<W: fmt::Write>(&self, f: &mut fmt::Formatter<W>) -> fmt::Result {
        match self {
            PackFault::Section(section) => write!(f, "section {section} can't be packed"),
            PackFault::Common(symbol) => write!(f, "symbol {symbol} is common"),
            PackFault::Kind(section, entry, kind) => {
                write!(f, "relocation {entry} of section {section} has type {kind}")
            }
            PackFault::Addend(section, entry) => {
                write!(
                    f,
                    "the addend of relocation {entry} of section {section} has no room"
                )
            }
            PackFault::Field(section, entry) => {
                write!(
                    f,
                    "the field of relocation {entry} of section {section} is bad"
                )
            }
            PackFault::Size(total) => write!(f, "{total} bytes are too many"),
            PackFault::Absolute(symbol) => write!(f, "the value of symbol {symbol} is too great"),
            PackFault::NameTwice(symbol) => write!(f, "the name of symbol {symbol} is taken"),
            PackFault::Memory => write!(f, "there is no memory"),
        }
    }
}

impl Error for PackFault {}
