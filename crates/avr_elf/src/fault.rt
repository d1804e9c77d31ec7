//! What is wrong with an object.

ghost use Rattle.std.specs.Prelude.{◌≡◌};
ghost use Rattle.avr_elf.specs.FaultNumber.{number_of, offset_of};

use std::error::Error;
use std::fmt;

/// The first fault of an object. The first number is the offset in the file of what is at fault, in
/// bytes; of `Short` it is the file's length.
#[derive(Clone, Copy, Debug, PartialEq, Eq)]
pub enum ElfFault {
    /// The file is shorter than the file header.
    Short(u32),
    /// A byte of the identification differs: 32 bits, little-endian, version 1.
    NotElf(u32),
    /// The machine is not the AVR, or the architecture neither avr5 nor avr51.
    NotAvr(u32),
    /// The file is not relocatable.
    NotRelocatable(u32),
    /// The section table, or a section's bytes, are not within the file.
    SectionTable(u32),
    /// A string table is none, or a section's name is not within it.
    StringTable(u32),
    /// The symbol table is none or not the only one, or a symbol in it can't be.
    SymbolTable(u32),
    /// A table of relocations is none or not the only one of its section, or a place is not within
    /// the patched section.
    RelocationTable(u32),
    /// A relocation names a symbol that is not there.
    SymbolIndex(u32),
    /// A section of a kind that is not read; the second number is its type.
    Unsupported(u32, u32),
}

impl ElfFault {
    /// The fault's number, 1 to 10, in the order above.
    pub fn number(&self) -> u8
        ensures { result ≡ number_of self.now }
    {
        match self {
            ElfFault::Short(_) => 1,
            ElfFault::NotElf(_) => 2,
            ElfFault::NotAvr(_) => 3,
            ElfFault::NotRelocatable(_) => 4,
            ElfFault::SectionTable(_) => 5,
            ElfFault::StringTable(_) => 6,
            ElfFault::SymbolTable(_) => 7,
            ElfFault::RelocationTable(_) => 8,
            ElfFault::SymbolIndex(_) => 9,
            ElfFault::Unsupported(_, _) => 10,
        }
    }

    /// The fault's first number: where in the file it is, in bytes; of `Short` the file's length.
    pub fn offset(&self) -> u32
        ensures { result ≡ offset_of self.now }
    {
        match self {
            ElfFault::Short(at)
            | ElfFault::NotElf(at)
            | ElfFault::NotAvr(at)
            | ElfFault::NotRelocatable(at)
            | ElfFault::SectionTable(at)
            | ElfFault::StringTable(at)
            | ElfFault::SymbolTable(at)
            | ElfFault::RelocationTable(at)
            | ElfFault::SymbolIndex(at)
            | ElfFault::Unsupported(at, _) => *at,
        }
    }
}

/// What is wrong, in words, without the place.
impl fmt::Display for ElfFault {
    fn fmt<W: fmt::Write>(&self, f: &mut fmt::Formatter<W>) -> fmt::Result {
        match self {
            ElfFault::Short(_) => write!(f, "the file is shorter than its header"),
            ElfFault::NotElf(_) => write!(f, "the file is not a 32-bit little-endian ELF file"),
            ElfFault::NotAvr(_) => write!(f, "the machine is not an avr5 or avr51"),
            ElfFault::NotRelocatable(_) => write!(f, "the file is not relocatable"),
            ElfFault::SectionTable(_) => write!(f, "sections are not within the file"),
            ElfFault::StringTable(_) => write!(f, "a string table or a section's name is bad"),
            ElfFault::SymbolTable(_) => write!(f, "the symbol table or a symbol is bad"),
            ElfFault::RelocationTable(_) => write!(f, "a table of relocations or a place is bad"),
            ElfFault::SymbolIndex(_) => write!(f, "a relocation names no symbol"),
            ElfFault::Unsupported(_, kind) => write!(f, "a section of type {kind} is not read"),
        }
    }
}

impl Error for ElfFault {}
