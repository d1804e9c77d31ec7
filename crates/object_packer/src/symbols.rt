//! The symbols of an object: what is wrong with them, which are exported, and which names need numbers.

ghost use Rattle.std.specs.Prelude.{◌≡◌, ◌<◌, ◌+◌, ◌==◌, ℕ, false, length, slice_index_or, IfOk, IfErr, OnOk, Some, None};
ghost use Rattle.std.specs.List.{list_any};
ghost use Rattle.avr_elf.specs.View.{symbol_parts};
ghost use Rattle.object_packer.specs.Names.{is_export, is_exported, exported_before, exported, is_used, needs, names_of_symbols, names_before, names};
ghost use Rattle.object_packer.specs.Relocations.{kept};
ghost use Rattle.object_packer.specs.Faults.{value_fault, name_fault, symbol_fault, symbols_fault, Says};

use crate::fault::PackFault;
use crate::kept::Kept;
use crate::layout::Layout;
use crate::name_table::NameTable;
use crate::symbol::{is_local, linker_target};
use avr_elf::Symbol;
use avr_elf::constants::{ABS, COMMON, UNDEF};
use std::alloc::{AllocError, Global};

// A symbol that is for the linker to make room for, or whose value is too great.
fn value_fault(i: u32, s: &Symbol<'_>) -> Option<PackFault>
    ensures { result ≡ value_fault i (symbol_parts s.now) }
{
    if s.section == COMMON {
        return Some(PackFault::Common(i));
    }
    if !is_local(s) && s.section == ABS && s.value > 65_535 {
        return Some(PackFault::Absolute(i));
    }
    None
}

// For each symbol whether a relocation that is kept names it.
fn used_symbols(alloc: Global, count: u32, kept: &[Kept]) -> Result<Vec<bool>, AllocError>
    ensures count { IfOk result (λ v. length v.items ≡ count) }
    ensures used { IfOk result (λ v. (i : ℕ) → i < count → slice_index_or v.items i false ≡ list_any (λ x. x.symbol == i) kept.now) }
{
    let mut used = vec![in alloc; false; count as usize]?;
    for x in kept {
        let symbol = x.symbol as usize;
        if symbol < used.len() {
            used[symbol] = true;
        }
    }
    Ok(used)
}

impl<'a> Layout<'a> {
    // Whether other components may refer to a symbol.
    fn is_export(&self, s: &Symbol<'_>) -> bool
        ensures { result ≡ is_export self.now (symbol_parts s.now) }
    {
        !is_local(s) && (s.section == ABS || self.symbol_home(s).is_some())
    }

    // Looks at symbol `i` behind the names of the exported symbols before it.
    fn see_symbol(&self, seen: &mut NameTable<'a>, i: u32) -> Result<(), PackFault>
        requires inside { i < length self.now.symbols }
        requires seen { seen.old ≡ names_of_symbols self.now (exported_before self.now i) }
        ensures seen { OnOk result (seen.new ≡ names_of_symbols self.now (exported_before self.now (i + 1))) }
        ensures none { OnOk result (symbol_fault self.now i ≡ None) }
        ensures fault { IfErr result (λ f. Says f (symbol_fault self.now i)) }
    {
        let s = self.symbol(i);
        if let Some(fault) = value_fault(i, &s) {
            return Err(fault);
        }
        if !self.is_export(&s) {
            return Ok(());
        }
        if linker_target(s.name).is_some() {
            return Err(PackFault::NameTwice(i));
        }
        if !seen.add(s.name)? {
            return Err(PackFault::NameTwice(i));
        }
        Ok(())
    }

    /// The first fault of a symbol.
    pub(crate) fn check_symbols(&self, alloc: Global) -> Result<(), PackFault>
        ensures none { OnOk result (symbols_fault self.now ≡ None) }
        ensures fault { IfErr result (λ f. Says f (symbols_fault self.now)) }
    {
        let mut seen = NameTable::new(alloc);
        for i in 0..self.symbol_count() {
            match self.see_symbol(&mut seen, i) {
                Ok(()) => {}
                Err(fault) => return Err(fault),
            }
        }
        Ok(())
    }

    // Whether symbol `i` is exported.
    fn is_exported(&self, i: u32) -> bool
        requires { i < length self.now.symbols }
        ensures { result ≡ is_exported self.now i }
    {
        self.is_export(&self.symbol(i))
    }

    /// The exported symbols, by rising index.
    pub(crate) fn exported(&self, alloc: Global) -> Result<Vec<u32>, AllocError>
        ensures { IfOk result (λ v. v.items ≡ exported self.now) }
    {
        let mut out = Vec::new(alloc);
        for i in 0..self.symbol_count() {
            if self.is_exported(i) {
                out.push(i)?;
            }
        }
        Ok(out)
    }

    // Whether the name of a symbol needs a number.
    fn needs(&self, s: &Symbol<'_>, used: bool) -> bool
        ensures { result ≡ needs self.now (symbol_parts s.now) used }
    {
        !is_local(s)
            && !linker_target(s.name).is_some()
            && (self.is_export(s) || (s.section == UNDEF && used))
    }

    // Puts the name of symbol `i` behind those of the symbols before it, where it needs a number.
    fn add_name(&self, table: &mut NameTable<'a>, i: u32, used: bool) -> Result<(), AllocError>
        requires inside { i < length self.now.symbols }
        requires used { used ≡ is_used self.now i }
        requires before { table.old ≡ names_before self.now i }
        ensures { OnOk result (table.new ≡ names_before self.now (i + 1)) }
    {
        let s = self.symbol(i);
        if !self.needs(&s, used) {
            return Ok(());
        }
        table.add(s.name)?;
        Ok(())
    }

    /// The names that need numbers, where these relocations are kept.
    pub(crate) fn names(&self, alloc: Global, relocs: &[Kept]) -> Result<NameTable<'a>, AllocError>
        requires { relocs.now ≡ kept self.now }
        ensures { IfOk result (λ t. t ≡ names self.now) }
    {
        let count = self.symbol_count();
        let used = used_symbols(alloc, count, relocs)?;
        let mut table = NameTable::new(alloc);
        for i in 0..count {
            self.add_name(&mut table, i, used[i as usize])?;
        }
        Ok(table)
    }
}
