//! The file header's fields, and section headers.

ghost use Rattle.std.specs.Prelude.{◌≡◌, ◌<◌, ◌≤◌, length};
ghost use Rattle.avr_elf.specs.Header.{section_count, header_at, header_of, HasTable};

use crate::constants::{SECTION_COUNT_AT, SECTION_HEADER_SIZE, SECTION_TABLE_AT};
use crate::number::{u16_in, u32_in};

/// What the reader takes of a section header.
#[derive(Clone, Copy, Debug, PartialEq, Eq)]
pub struct SectionHeader {
    /// Where the name begins in the string table of section names.
    pub name: u32,
    /// The section's type.
    pub kind: u32,
    /// The section's flags.
    pub flags: u32,
    /// Where the section's bytes begin in the file.
    pub offset: u32,
    /// The section's size in bytes.
    pub size: u32,
    /// The section that a symbol table or a table of relocations leans on.
    pub link: u32,
    /// Of a table of relocations, the section that it patches.
    pub info: u32,
    /// The section's alignment in bytes.
    pub align: u32,
    /// The bytes of an entry, of a section that is a table.
    pub entry_size: u32,
}

/// How many sections the file has.
pub fn section_count(file: &[u8]) -> u16
    requires { 52 ≤ length file.now }
    ensures { result ≡ section_count file.now }
{
    u16_in(file, SECTION_COUNT_AT as usize)
}

/// Where the header of section `i` is.
pub fn header_offset(file: &[u8], i: u16) -> u32
    requires table { HasTable file.now }
    requires inside { i < section_count file.now }
    ensures { result ≡ header_at file.now i }
{
    u32_in(file, SECTION_TABLE_AT as usize) + SECTION_HEADER_SIZE * i as u32
}

/// The header of section `i`.
#[tactic(auto, unfolding(crate::specs::Header::header_of))]
pub fn header(file: &[u8], i: u16) -> SectionHeader
    requires table { HasTable file.now }
    requires inside { i < section_count file.now }
    ensures { result ≡ header_of file.now i }
{
    let at = header_offset(file, i) as usize;
    SectionHeader {
        name: u32_in(file, at),
        kind: u32_in(file, at + 4),
        flags: u32_in(file, at + 8),
        offset: u32_in(file, at + 16),
        size: u32_in(file, at + 20),
        link: u32_in(file, at + 24),
        info: u32_in(file, at + 28),
        align: u32_in(file, at + 32),
        entry_size: u32_in(file, at + 36),
    }
}
