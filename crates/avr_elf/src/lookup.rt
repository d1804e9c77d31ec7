//! What a view looks up in a file that was read.

ghost use Rattle.std.specs.Prelude.{◌≡◌, ◌<◌, ◌/◌, Some};
ghost use Rattle.avr_elf.specs.Header.{section_count, header_of, HasTable};
ghost use Rattle.avr_elf.specs.Section.{symtab_of, patches, table_of};
ghost use Rattle.avr_elf.specs.Object.{section_of, symbol_of, relas_of};
ghost use Rattle.avr_elf.specs.View.{section_parts, symbol_parts, IsSound};

use crate::constants::{RELA, RELA_SIZE, SYMBOL_SIZE};
use crate::header::{header, section_count};
use crate::name::name_in;
use crate::part::{Section, Symbol};
use crate::rela_table::RelaTable;
use crate::sections::{bytes_of, is_allocated, names_section};
use crate::symbol::symbol_in;

/// Section `i`.
pub fn section_of(file: &[u8], i: u16) -> Section<'_>
    requires sound { IsSound file.now }
    requires inside { i < section_count file.now }
    ensures { section_parts result ≡ section_of file.now i }
{
    let h = header(file, i);
    let strings = bytes_of(file, &header(file, names_section(file)));
    Section {
        name: name_in(strings, h.name),
        kind: h.kind,
        flags: h.flags,
        size: h.size,
        align: h.align,
        bytes: bytes_of(file, &h),
    }
}

/// Symbol `i` of the symbol table `t`.
pub fn symbol_of(file: &[u8], t: u16, i: u32) -> Symbol<'_>
    requires sound { IsSound file.now }
    requires symtab { symtab_of file.now ≡ Some t }
    requires inside { i < (header_of file.now t).size / 16 }
    ensures { symbol_parts result ≡ symbol_of file.now (header_of file.now t) i }
{
    let table = header(file, t);
    let s = symbol_in(file, (table.offset + SYMBOL_SIZE * i) as usize);
    let strings = bytes_of(file, &header(file, table.link as u16));
    Symbol {
        name: name_in(strings, s.name),
        value: s.value,
        size: s.size,
        binding: s.binding,
        kind: s.kind,
        section: s.section,
    }
}

fn patches(file: &[u8], k: u16, i: u16) -> bool
    requires table { HasTable file.now }
    requires inside { i < section_count file.now }
    ensures { result ≡ patches file.now k i }
{
    let h = header(file, i);
    h.kind == RELA && h.info == k as u32
}

/// The section that holds the relocations of section `k`.
fn table_of(file: &[u8], k: u16) -> Option<u16>
    requires { HasTable file.now }
    ensures { result ≡ table_of file.now k }
{
    for i in 0..section_count(file) {
        if patches(file, k, i) {
            return Some(i);
        }
    }
    None
}

/// The relocations of section `k`.
pub fn relas_of(file: &[u8], k: u16) -> RelaTable<'_>
    requires sound { IsSound file.now }
    requires inside { k < section_count file.now }
    ensures { result ≡ relas_of file.now k }
{
    if !is_allocated(&header(file, k)) {
        return RelaTable::new(file, 0, 0);
    }
    match table_of(file, k) {
        None => RelaTable::new(file, 0, 0),
        Some(r) => {
            let table = header(file, r);
            RelaTable::new(file, table.offset, table.size / RELA_SIZE)
        }
    }
}
