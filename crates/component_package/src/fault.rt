//! What is wrong with a package.

ghost use Rattle.std.specs.Prelude.{◌≡◌};

use std::error::Error;
use std::fmt;

/// The first fault of a package, in the order in which they are looked for: header, exports, relocations. The numbers held are
/// indexes of exports or relocations, from 0.
#[derive(Clone, Copy, Debug, PartialEq, Eq)]
pub enum PackageFault {
    /// Fewer than 32 bytes.
    Short,
    /// The first four bytes aren't `FCP1`.
    Magic,
    /// A byte of 18 to 31 isn't zero.
    Reserved,
    /// The length of code, data or bss is odd.
    Parity,
    /// The length isn't the one that the header gives, or is above 9,984.
    Length,
    /// A symbol below 16, or not above the former export's.
    ExportOrder(u16),
    /// A kind of place that there isn't, a byte that is to be zero, or a value above the part's length.
    ExportPlace(u16),
    /// A field in code behind one in data, or one that begins before the former one's end.
    RelocOrder(u16),
    /// A part that there isn't, a field that doesn't end within its part, or an instruction's field at an odd offset.
    RelocPlace(u16),
    /// A type that isn't 1 to 29. It is looked for first of all faults of a relocation, then the place, then the order.
    RelocKind(u16),
    /// A target of 11 to 15, or a weak reference to a target below 16.
    Target(u16),
    /// A value bit of the field isn't 0.
    FieldNotZero(u16),
}

impl PackageFault {
    ghost use Rattle.component_package.specs.packages.Reading.{number_of_fault};

    /// The number of the fault, 1 to 12, as the line `bad package` says it.
    pub fn number(&self) -> u8
        ensures { result ≡ number_of_fault self.now }
    {
        match self {
            PackageFault::Short => 1,
            PackageFault::Magic => 2,
            PackageFault::Reserved => 3,
            PackageFault::Parity => 4,
            PackageFault::Length => 5,
            PackageFault::ExportOrder(_) => 6,
            PackageFault::ExportPlace(_) => 7,
            PackageFault::RelocOrder(_) => 8,
            PackageFault::RelocPlace(_) => 9,
            PackageFault::RelocKind(_) => 10,
            PackageFault::Target(_) => 11,
            PackageFault::FieldNotZero(_) => 12,
        }
    }
}

/// What is wrong, in words, with the export or relocation that has it.
impl fmt::Display for PackageFault {
    fn fmt<W: fmt::Write>(&self, f: &mut fmt::Formatter<W>) -> fmt::Result {
        match self {
            PackageFault::Short => write!(f, "there are fewer than 32 bytes"),
            PackageFault::Magic => write!(f, "the first four bytes are not FCP1"),
            PackageFault::Reserved => write!(f, "a reserved byte of the header is not zero"),
            PackageFault::Parity => write!(f, "the length of code, data or bss is odd"),
            PackageFault::Length => write!(f, "the length is not the header's, or is too great"),
            PackageFault::ExportOrder(i) => write!(f, "export {i} is out of order"),
            PackageFault::ExportPlace(i) => write!(f, "export {i} has a bad place"),
            PackageFault::RelocOrder(i) => write!(f, "relocation {i} is out of order"),
            PackageFault::RelocPlace(i) => write!(f, "relocation {i} has a bad place"),
            PackageFault::RelocKind(i) => write!(f, "relocation {i} has a bad type"),
            PackageFault::Target(i) => write!(f, "relocation {i} has a bad target"),
            PackageFault::FieldNotZero(i) => write!(f, "the field of relocation {i} is not zero"),
        }
    }
}

impl Error for PackageFault {}
