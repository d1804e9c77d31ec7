//! The checks of the symbol table and of the tables of relocations.

ghost use Rattle.std.specs.Prelude.{◌≡◌, ◌<◌, ◌≤◌, ◌+◌, ◌*◌, ◌/◌, ℕ, length, IfNone, IfOk, false, is_some, Some};
ghost use Rattle.std.specs.Result.{result_err};
ghost use Rattle.avr_elf.specs.First.{first_of, first_index};
ghost use Rattle.avr_elf.specs.Header.{section_count, header_at, header_of, HasTable};
ghost use Rattle.avr_elf.specs.Section.{is_symtab, symtab_of, patches, ArePlaced};
ghost use Rattle.avr_elf.specs.Faults.{second_symtab_fault, has_strings, has_symbols, has_section, is_in_memory, has_value, is_symbol, symbol_fault, symtab_fault, symbols_fault, entries_of, symbol_count, rela_fault, is_symtab_index, is_patched_before, is_rela_table, patching_fault, rela_table_fault, tables_fault};
ghost use Rattle.avr_elf.specs.View.{AreSymbols};

use crate::constants::{ABS, COMMON, PROGBITS, RELA, RELA_SIZE, SYMBOL_SIZE, SYMTAB, UNDEF, WEAK};
use crate::fault::ElfFault;
use crate::header::{SectionHeader, header, header_offset, section_count};
use crate::marks::{is_marked, mark_patched, no_marks};
use crate::relocation::rela_in;
use crate::sections::{is_allocated, is_string_table};
use crate::symbol::{SymbolEntry, symbol_in};

/// The symbol table, where there is one, or the fault of a second one.
fn only_symtab(file: &[u8]) -> Result<Option<u16>, ElfFault>
    requires { HasTable file.now }
    ensures fault { result_err result ≡ first_of (second_symtab_fault file.now) (section_count file.now) }
    ensures only { IfOk result (λ t. t ≡ symtab_of file.now) }
{
    let mut found = None;
    for i in 0..section_count(file) {
        if header(file, i).kind == SYMTAB {
            if found.is_some() {
                return Err(ElfFault::SymbolTable(header_offset(file, i)));
            }
            found = Some(i);
        }
    }
    Ok(found)
}

fn has_strings(file: &[u8], table: &SectionHeader) -> bool
    requires table { HasTable file.now }
    requires placed { ArePlaced file.now }
    ensures { result ≡ has_strings file.now table.now }
{
    if table.link >= section_count(file) as u32 {
        return false;
    }
    is_string_table(file, &header(file, table.link as u16))
}

fn has_symbols(table: &SectionHeader) -> bool
    ensures { result ≡ has_symbols table.now }
{
    table.entry_size == SYMBOL_SIZE && table.size % SYMBOL_SIZE == 0 && table.size != 0
}

fn has_section(file: &[u8], s: &SymbolEntry) -> bool
    requires { HasTable file.now }
    ensures { result ≡ has_section file.now s.now }
{
    s.section < section_count(file) || s.section == ABS || s.section == COMMON
}

fn is_in_memory(file: &[u8], index: u16) -> bool
    requires { HasTable file.now }
    ensures { result ≡ is_in_memory file.now index }
{
    if index == UNDEF {
        return false;
    }
    if index >= section_count(file) {
        return false;
    }
    is_allocated(&header(file, index))
}

fn has_value(file: &[u8], s: &SymbolEntry) -> bool
    requires { HasTable file.now }
    ensures { result ≡ has_value file.now s.now }
{
    if !is_in_memory(file, s.section) {
        return true;
    }
    s.value <= header(file, s.section).size
}

fn is_symbol(file: &[u8], strings: u32, s: &SymbolEntry) -> bool
    requires { HasTable file.now }
    ensures { result ≡ is_symbol file.now strings s.now }
{
    s.name < strings && s.binding <= WEAK && has_section(file, s) && has_value(file, s)
}

fn symbol_fault(file: &[u8], table: &SectionHeader, strings: u32, i: u32) -> Option<ElfFault>
    requires table { HasTable file.now }
    requires placed { table.now.offset + table.now.size ≤ length file.now }
    requires inside { i < table.now.size / 16 }
    requires strings { strings ≡ (header_of file.now table.now.link).size }
    ensures { result ≡ symbol_fault file.now table.now i }
{
    let at = table.offset + SYMBOL_SIZE * i;
    let s = symbol_in(file, at as usize);
    if is_symbol(file, strings, &s) {
        None
    } else {
        Some(ElfFault::SymbolTable(at))
    }
}

/// The first symbol of a table that can't be.
fn each_symbol_fault(file: &[u8], table: &SectionHeader) -> Option<ElfFault>
    requires table { HasTable file.now }
    requires placed { table.now.offset + table.now.size ≤ length file.now }
    requires link { table.now.link < section_count file.now }
    ensures { result ≡ first_of (symbol_fault file.now table.now) (table.now.size / 16) }
{
    let strings = header(file, table.link as u16).size;
    for i in 0..table.size / SYMBOL_SIZE {
        if let Some(fault) = symbol_fault(file, table, strings, i) {
            return Some(fault);
        }
    }
    None
}

/// What is wrong with the symbol table `t`.
fn symtab_fault(file: &[u8], t: u16) -> Option<ElfFault>
    requires table { HasTable file.now }
    requires placed { ArePlaced file.now }
    requires inside { t < section_count file.now }
    requires kind { (header_of file.now t).kind ≡ 2 }
    ensures fault { result ≡ symtab_fault file.now t }
    ensures symbols { IfNone result (AreSymbols file.now t) }
{
    let table = header(file, t);
    if !has_strings(file, &table) {
        return Some(ElfFault::StringTable(header_offset(file, t)));
    }
    if !has_symbols(&table) {
        return Some(ElfFault::SymbolTable(header_offset(file, t)));
    }
    each_symbol_fault(file, &table)
}

/// What is wrong with the symbol table, where there is one.
fn symbols_fault(file: &[u8], symtab: Option<u16>) -> Option<ElfFault>
    requires table { HasTable file.now }
    requires placed { ArePlaced file.now }
    requires symtab { symtab ≡ symtab_of file.now }
    ensures fault { result ≡ symbols_fault file.now symtab }
    ensures symbols { IfNone result ((t : ℕ) → symtab ≡ Some t → AreSymbols file.now t) }
{
    match symtab {
        None => None,
        Some(t) => symtab_fault(file, t),
    }
}

/// How many symbols a symbol table has.
pub fn symbol_count(file: &[u8], symtab: Option<u16>) -> u32
    requires table { HasTable file.now }
    requires symtab { symtab ≡ symtab_of file.now }
    ensures { result ≡ symbol_count file.now }
{
    match symtab {
        None => 0,
        Some(t) => header(file, t).size / SYMBOL_SIZE,
    }
}

fn is_symtab_index(symtab: Option<u16>, index: u32) -> bool
    ensures { result ≡ is_symtab_index symtab index }
{
    match symtab {
        None => false,
        Some(t) => index == t as u32,
    }
}

fn rela_fault(
    file: &[u8],
    table: &SectionHeader,
    size: u32,
    symbols: u32,
    i: u32,
) -> Option<ElfFault>
    requires table { HasTable file.now }
    requires placed { table.now.offset + table.now.size ≤ length file.now }
    requires inside { i < table.now.size / 12 }
    ensures { result ≡ rela_fault file.now table.now size symbols i }
{
    let at = table.offset + RELA_SIZE * i;
    let x = rela_in(file, at as usize);
    if x.offset >= size {
        return Some(ElfFault::RelocationTable(at));
    }
    if x.symbol >= symbols {
        return Some(ElfFault::SymbolIndex(at));
    }
    None
}

/// The first relocation of a table that can't be.
fn relas_fault(file: &[u8], table: &SectionHeader, size: u32, symbols: u32) -> Option<ElfFault>
    requires table { HasTable file.now }
    requires placed { table.now.offset + table.now.size ≤ length file.now }
    ensures { result ≡ first_of (rela_fault file.now table.now size symbols) (table.now.size / 12) }
{
    for i in 0..table.size / RELA_SIZE {
        if let Some(fault) = rela_fault(file, table, size, symbols, i) {
            return Some(fault);
        }
    }
    None
}

/// The symbols that relocations name.
#[derive(Clone, Copy)]
struct Symbols {
    /// The symbol table.
    table: Option<u16>,
    /// How many symbols it has.
    count: u32,
}

fn is_rela_table(file: &[u8], table: &SectionHeader, symtab: Option<u16>, is_patched: bool) -> bool
    requires table { HasTable file.now }
    requires symtab { symtab ≡ symtab_of file.now }
    requires info { table.now.info < section_count file.now }
    ensures { (r : ℕ) → is_patched ≡ is_patched_before file.now r table.now.info → result ≡ is_rela_table file.now r table.now }
{
    is_symtab_index(symtab, table.link)
        && table.entry_size == RELA_SIZE
        && table.size % RELA_SIZE == 0
        && header(file, table.info as u16).kind == PROGBITS
        && !is_patched
}

/// What is wrong with section `r` as a table of relocations.
fn rela_table_fault(file: &[u8], symbols: Symbols, r: u16, is_patched: bool) -> Option<ElfFault>
    requires table { HasTable file.now }
    requires placed { ArePlaced file.now }
    requires symtab { symbols.table ≡ symtab_of file.now }
    requires count { symbols.count ≡ symbol_count file.now }
    requires inside { r < section_count file.now }
    requires patched { (header_of file.now r).info < section_count file.now → is_patched ≡ is_patched_before file.now r (header_of file.now r).info }
    ensures { result ≡ rela_table_fault file.now r }
{
    let table = header(file, r);
    if table.kind != RELA {
        return None;
    }
    if table.info >= section_count(file) as u32 {
        return Some(ElfFault::RelocationTable(header_offset(file, r)));
    }
    let target = header(file, table.info as u16);
    if !is_allocated(&target) {
        return None;
    }
    if !is_rela_table(file, &table, symbols.table, is_patched) {
        return Some(ElfFault::RelocationTable(header_offset(file, r)));
    }
    relas_fault(file, &table, target.size, symbols.count)
}

/// What is wrong with the tables of relocations.
///
/// Each entry is judged by the size of its own table's section, and tables may share bytes of the
/// file. Each table that is read has a header of its own and one of the section that it patches, so a
/// file of n bytes has at most n * n / 3840 entries to judge, 17.9 million of one of 262,144 bytes.
fn rela_tables_fault(file: &[u8], symtab: Option<u16>) -> Option<ElfFault>
    requires table { HasTable file.now }
    requires placed { ArePlaced file.now }
    requires symtab { symtab ≡ symtab_of file.now }
    ensures { result ≡ first_of (rela_table_fault file.now) (section_count file.now) }
{
    let symbols = Symbols {
        table: symtab,
        count: symbol_count(file, symtab),
    };
    let mut patched = no_marks();
    for r in 0..section_count(file) {
        let table = header(file, r);
        let is_patched = is_marked(&patched, table.info);
        if let Some(fault) = rela_table_fault(file, symbols, r, is_patched) {
            return Some(fault);
        }
        mark_patched(&mut patched, &table);
    }
    None
}

/// The symbol table of a file whose symbols and relocations have no fault, or the first fault.
pub fn checked_symtab(file: &[u8]) -> Result<Option<u16>, ElfFault>
    requires table { HasTable file.now }
    requires placed { ArePlaced file.now }
    ensures fault { result_err result ≡ tables_fault file.now }
    ensures only { IfOk result (λ t. t ≡ symtab_of file.now) }
    ensures symbols { IfOk result (λ only. (t : ℕ) → only ≡ Some t → AreSymbols file.now t) }
{
    let symtab = only_symtab(file)?;
    if let Some(fault) = symbols_fault(file, symtab) {
        return Err(fault);
    }
    if let Some(fault) = rela_tables_fault(file, symtab) {
        return Err(fault);
    }
    Ok(symtab)
}
