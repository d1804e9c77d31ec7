//! The checks of each section.

ghost use Rattle.std.specs.Prelude.{◌≡◌, ◌<◌, ◌≤◌, ◌+◌, length, IfNone};
ghost use Rattle.avr_elf.specs.First.{first_of};
ghost use Rattle.avr_elf.specs.Header.{section_count, names_index, header_of, HasTable, HasNames};
ghost use Rattle.avr_elf.specs.Section.{is_allocated, has_bytes, is_within, is_supported, is_string_table, IsPlaced, ArePlaced};
ghost use Rattle.avr_elf.specs.Faults.{place_fault, kind_fault, name_fault, names_fault, sections_fault};
ghost use Rattle.avr_elf.specs.Object.{bytes_of};
ghost use Rattle.avr_elf.specs.View.{AreNamed};

use crate::constants::{
    ALLOC, GROUP, NAMES_INDEX_AT, NOBITS, NULL, PROGBITS, REL, STRTAB, SYMTAB_SHNDX,
};
use crate::fault::ElfFault;
use crate::header::{SectionHeader, header, header_offset, section_count};
use crate::number::u16_in;

/// Whether the section is in memory when the program runs.
pub fn is_allocated(h: &SectionHeader) -> bool
    ensures { result ≡ is_allocated h.now }
{
    h.flags & ALLOC != 0
}

/// Whether the section has bytes in the file.
pub fn has_bytes(h: &SectionHeader) -> bool
    ensures { result ≡ has_bytes h.now }
{
    h.kind != NULL && h.kind != NOBITS
}

/// The sum is of 64 bits, and so it does not wrap.
fn is_within(file: &[u8], h: &SectionHeader) -> bool
    ensures { result ≡ is_within file.now h.now }
{
    h.offset as usize + h.size as usize <= file.len()
}

fn is_supported(h: &SectionHeader) -> bool
    ensures { result ≡ is_supported h.now }
{
    h.kind != REL
        && h.kind != GROUP
        && h.kind != SYMTAB_SHNDX
        && (!is_allocated(h) || h.kind == PROGBITS || h.kind == NOBITS)
}

/// Whether the section has at least one byte, and a zero byte ends it.
pub fn is_string_table(file: &[u8], h: &SectionHeader) -> bool
    requires { IsPlaced file.now h.now }
    ensures { result ≡ is_string_table file.now h.now }
{
    if h.kind != STRTAB {
        return false;
    }
    if h.size == 0 {
        return false;
    }
    file[h.offset as usize + h.size as usize - 1] == 0
}

/// The section's bytes in the file, none where it has no bytes there.
pub fn bytes_of<'a>(file: &'a [u8], h: &SectionHeader) -> &'a [u8]
    requires { IsPlaced file.now h.now }
    ensures { result.now ≡ bytes_of file.now h.now }
{
    if has_bytes(h) {
        &file[h.offset as usize..h.offset as usize + h.size as usize]
    } else {
        &[]
    }
}

fn place_fault(file: &[u8], i: u16) -> Option<ElfFault>
    requires table { HasTable file.now }
    requires inside { i < section_count file.now }
    ensures { result ≡ place_fault file.now i }
{
    let h = header(file, i);
    if !has_bytes(&h) || is_within(file, &h) {
        None
    } else {
        Some(ElfFault::SectionTable(header_offset(file, i)))
    }
}

/// The first section whose bytes are not within the file.
fn places_fault(file: &[u8]) -> Option<ElfFault>
    requires { HasTable file.now }
    ensures fault { result ≡ first_of (place_fault file.now) (section_count file.now) }
    ensures placed { IfNone result (ArePlaced file.now) }
{
    for i in 0..section_count(file) {
        if let Some(fault) = place_fault(file, i) {
            return Some(fault);
        }
    }
    None
}

fn kind_fault(file: &[u8], i: u16) -> Option<ElfFault>
    requires table { HasTable file.now }
    requires inside { i < section_count file.now }
    ensures { result ≡ kind_fault file.now i }
{
    let h = header(file, i);
    if is_supported(&h) {
        None
    } else {
        Some(ElfFault::Unsupported(header_offset(file, i), h.kind))
    }
}

/// The first section of a kind that is not read.
fn kinds_fault(file: &[u8]) -> Option<ElfFault>
    requires { HasTable file.now }
    ensures { result ≡ first_of (kind_fault file.now) (section_count file.now) }
{
    for i in 0..section_count(file) {
        if let Some(fault) = kind_fault(file, i) {
            return Some(fault);
        }
    }
    None
}

/// The section of section names.
pub fn names_section(file: &[u8]) -> u16
    requires { HasTable file.now }
    ensures { result ≡ names_index file.now }
{
    u16_in(file, NAMES_INDEX_AT as usize)
}

fn name_fault(file: &[u8], strings: &SectionHeader, i: u16) -> Option<ElfFault>
    requires table { HasTable file.now }
    requires inside { i < section_count file.now }
    requires strings { strings.now ≡ header_of file.now (names_index file.now) }
    ensures { result ≡ name_fault file.now i }
{
    if header(file, i).name < strings.size {
        None
    } else {
        Some(ElfFault::StringTable(header_offset(file, i)))
    }
}

fn each_name_fault(file: &[u8], strings: &SectionHeader) -> Option<ElfFault>
    requires table { HasTable file.now }
    requires strings { strings.now ≡ header_of file.now (names_index file.now) }
    ensures { result ≡ first_of (name_fault file.now) (section_count file.now) }
{
    for i in 0..section_count(file) {
        if let Some(fault) = name_fault(file, strings, i) {
            return Some(fault);
        }
    }
    None
}

/// What is wrong with the names of sections.
fn names_fault(file: &[u8]) -> Option<ElfFault>
    requires table { HasTable file.now }
    requires names { HasNames file.now }
    requires placed { ArePlaced file.now }
    ensures fault { result ≡ names_fault file.now }
    ensures named { IfNone result (AreNamed file.now) }
{
    let index = names_section(file);
    let strings = header(file, index);
    if !is_string_table(file, &strings) {
        return Some(ElfFault::StringTable(header_offset(file, index)));
    }
    each_name_fault(file, &strings)
}

/// What is wrong with the sections.
pub fn sections_fault(file: &[u8]) -> Option<ElfFault>
    requires table { HasTable file.now }
    requires names { HasNames file.now }
    ensures fault { result ≡ sections_fault file.now }
    ensures placed { IfNone result (ArePlaced file.now) }
    ensures named { IfNone result (AreNamed file.now) }
{
    if let Some(fault) = places_fault(file) {
        return Some(fault);
    }
    if let Some(fault) = kinds_fault(file) {
        return Some(fault);
    }
    names_fault(file)
}
