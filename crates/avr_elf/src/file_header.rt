//! The checks of the file header.

ghost use Rattle.std.specs.Prelude.{◌≡◌, ◌≤◌, ◌+◌, length, IfNone};
ghost use Rattle.avr_elf.specs.Header.{section_count, names_index, HasTable, HasNames};
ghost use Rattle.avr_elf.specs.First.{first_of};
ghost use Rattle.avr_elf.specs.Faults.{identification_fault, is_avr, has_architecture, is_relocatable, has_header_size, has_sections, has_section_table, has_names_index, fields_fault, file_header_fault};

use crate::constants::{
    AVR, AVR5, AVR51, FILE_HEADER_SIZE, FILE_TYPE_AT, FLAGS_AT, MACHINE_AT, NAMES_INDEX_AT,
    RELOCATABLE, SECTION_COUNT_AT, SECTION_HEADER_SIZE, SECTION_HEADER_SIZE_AT, SECTION_TABLE_AT,
};
use crate::fault::ElfFault;
use crate::header::section_count;
use crate::number::{u16_in, u32_in};

/// The bytes that begin each 32-bit little-endian file of version 1.
const IDENTIFICATION: [u8; 7] = [0x7F, 0x45, 0x4C, 0x46, 1, 1, 1];

fn identification_fault(file: &[u8]) -> Option<ElfFault>
    requires { 52 ≤ length file.now }
    ensures { result ≡ first_of (identification_fault file.now) 7 }
{
    for i in 0..7 {
        if file[i] != IDENTIFICATION[i] {
            return Some(ElfFault::NotElf(i as u32));
        }
    }
    None
}

fn is_avr(file: &[u8]) -> bool
    requires { 52 ≤ length file.now }
    ensures { result ≡ is_avr file.now }
{
    u16_in(file, MACHINE_AT as usize) == AVR
}

fn has_architecture(file: &[u8]) -> bool
    requires { 52 ≤ length file.now }
    ensures { result ≡ has_architecture file.now }
{
    let architecture = u32_in(file, FLAGS_AT as usize) % 128;
    architecture == AVR5 || architecture == AVR51
}

fn is_relocatable(file: &[u8]) -> bool
    requires { 52 ≤ length file.now }
    ensures { result ≡ is_relocatable file.now }
{
    u16_in(file, FILE_TYPE_AT as usize) == RELOCATABLE
}

fn has_header_size(file: &[u8]) -> bool
    requires { 52 ≤ length file.now }
    ensures { result ≡ has_header_size file.now }
{
    u16_in(file, SECTION_HEADER_SIZE_AT as usize) as u32 == SECTION_HEADER_SIZE
}

fn has_sections(file: &[u8]) -> bool
    requires { 52 ≤ length file.now }
    ensures { result ≡ has_sections file.now }
{
    section_count(file) > 0
}

/// The sum is of 64 bits, and so it does not wrap.
fn has_section_table(file: &[u8]) -> bool
    requires { 52 ≤ length file.now }
    ensures { result ≡ has_section_table file.now }
{
    let start = u32_in(file, SECTION_TABLE_AT as usize) as u64;
    start + SECTION_HEADER_SIZE as u64 * section_count(file) as u64 <= file.len() as u64
}

fn has_names_index(file: &[u8]) -> bool
    requires { 52 ≤ length file.now }
    ensures { result ≡ has_names_index file.now }
{
    u16_in(file, NAMES_INDEX_AT as usize) < section_count(file)
}

fn fields_fault(file: &[u8]) -> Option<ElfFault>
    requires { 52 ≤ length file.now }
    ensures { result ≡ fields_fault file.now }
{
    if !is_avr(file) {
        return Some(ElfFault::NotAvr(MACHINE_AT));
    }
    if !has_architecture(file) {
        return Some(ElfFault::NotAvr(FLAGS_AT));
    }
    if !is_relocatable(file) {
        return Some(ElfFault::NotRelocatable(FILE_TYPE_AT));
    }
    if !has_header_size(file) {
        return Some(ElfFault::SectionTable(SECTION_HEADER_SIZE_AT));
    }
    if !has_sections(file) {
        return Some(ElfFault::SectionTable(SECTION_COUNT_AT));
    }
    if !has_section_table(file) {
        return Some(ElfFault::SectionTable(SECTION_TABLE_AT));
    }
    if !has_names_index(file) {
        return Some(ElfFault::SectionTable(NAMES_INDEX_AT));
    }
    None
}

/// What is wrong with the file header. Where nothing is, the section table can be read.
pub fn file_header_fault(file: &[u8]) -> Option<ElfFault>
    requires { length file.now ≤ 1048576 }
    ensures fault { result ≡ file_header_fault file.now }
    ensures table { IfNone result (HasTable file.now) }
    ensures names { IfNone result (HasNames file.now) }
{
    if file.len() < FILE_HEADER_SIZE {
        return Some(ElfFault::Short(file.len() as u32));
    }
    if let Some(fault) = identification_fault(file) {
        return Some(fault);
    }
    fields_fault(file)
}
