//! An object, seen in its file.

use crate::part::{Section, Symbol};
use crate::rela_table::RelaTable;
use crate::relocation::Rela;
use crate::{header, lookup, tables};
use std::marker::Model;

/// An object that was read, over its file. Sections, symbols and relocations go by their indexes in
/// the file, from 0.
#[derive(Drop)]
pub struct ObjectView<'a> {
    file: &'a [u8],
    symtab: Option<u16>,
}

impl<'a> Model for ObjectView<'a> {
    ghost use Rattle.avr_elf.specs.Object.{Object, object_of};
    ghost use Rattle.avr_elf.specs.View.{IsRead};

    ghost Value = { Object };

    ghost view = { λ v. object_of v.file.now };

    ghost invariant = { λ v. IsRead v.file.now v.symtab };
}

impl<'a> ObjectView<'a> {
    ghost use Rattle.std.specs.Prelude.{◌≡◌, ◌<◌, length, slice_get, Some};
    ghost use Rattle.avr_elf.specs.Object.{object_of, relas_at};
    ghost use Rattle.avr_elf.specs.WellFormed.{IsWellFormed};
    ghost use Rattle.avr_elf.specs.View.{IsRead, section_parts, symbol_parts};

    /// A view of a file that was read.
    pub(crate) fn new(file: &'a [u8], symtab: Option<u16>) -> ObjectView<'a>
        requires { IsRead file.now symtab }
        ensures { result ≡ object_of file.now }
    {
        ObjectView { file, symtab }
    }

    /// How many sections the object has, the empty one at index 0 among them.
    pub fn section_count(&self) -> u16
        ensures count { result ≡ length self.now.sections }
        ensures well_formed { IsWellFormed self.now }
    {
        header::section_count(self.file)
    }

    /// Section `i`. Each call measures the name anew, up to its zero byte.
    pub fn section(&self, i: u16) -> Section<'a>
        requires { i < length self.now.sections }
        ensures { slice_get self.now.sections i ≡ Some (section_parts result) }
    {
        lookup::section_of(self.file, i)
    }

    /// How many symbols the object has, the empty one at index 0 among them.
    pub fn symbol_count(&self) -> u32
        ensures count { result ≡ length self.now.symbols }
        ensures well_formed { IsWellFormed self.now }
    {
        tables::symbol_count(self.file, self.symtab)
    }

    /// Symbol `i`. Each call measures the name anew, up to its zero byte; names may share bytes, so the
    /// names of all symbols together can be longer than the file.
    pub fn symbol(&self, i: u32) -> Symbol<'a>
        requires { i < length self.now.symbols }
        ensures { slice_get self.now.symbols i ≡ Some (symbol_parts result) }
    {
        match self.symtab {
            Some(t) => lookup::symbol_of(self.file, t, i),
            None => unreachable!(),
        }
    }

    /// The relocations of a section, none where the section is not allocated. The call looks at each
    /// section header of the object; what it gives is then read in constant time.
    pub fn relas(&self, section: u16) -> RelaTable<'a>
        requires { section < length self.now.sections }
        ensures { result ≡ relas_at self.now section }
    {
        lookup::relas_of(self.file, section)
    }

    /// How many relocations a section has, 0 where the section is not allocated. The call looks at
    /// each section header of the object.
    pub fn rela_count(&self, section: u16) -> u32
        requires { section < length self.now.sections }
        ensures { result ≡ length (relas_at self.now section) }
    {
        self.relas(section).len()
    }

    /// Relocation `i` of a section. The call looks at each section header of the object; a caller that
    /// wants many takes [`ObjectView::relas`] once.
    pub fn rela(&self, section: u16, i: u32) -> Rela
        requires section { section < length self.now.sections }
        requires inside { i < length (relas_at self.now section) }
        ensures { slice_get (relas_at self.now section) i ≡ Some result }
    {
        self.relas(section).get(i)
    }
}
