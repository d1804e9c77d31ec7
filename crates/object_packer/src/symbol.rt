//! What the packer asks of a symbol.

ghost use Rattle.std.specs.Prelude.{◌≡◌, ◌<◌, ◌^◌, length, Some};
ghost use Rattle.avr_elf.specs.View.{symbol_parts};
ghost use Rattle.object_packer.specs.declared.layout.Home.{Home};
ghost use Rattle.object_packer.specs.References.{is_local, is_weak, section_of, symbol_home, outside_of, linker_target};

use crate::layout::{Home, Layout};
use avr_elf::Symbol;
use avr_elf::constants::{ABS, COMMON, LOCAL, UNDEF, WEAK};

/// Whether a symbol is seen in its own object alone.
pub(crate) fn is_local(s: &Symbol<'_>) -> bool
    ensures { result ≡ is_local (symbol_parts s.now) }
{
    s.binding == LOCAL
}

/// Whether a symbol gives way to a definition that is not weak.
pub(crate) fn is_weak(s: &Symbol<'_>) -> bool
    ensures { result ≡ is_weak (symbol_parts s.now) }
{
    s.binding == WEAK
}

impl<'a> Layout<'a> {
    // The index of the section that a symbol is in, where it is in one.
    fn section_of(&self, s: &Symbol<'_>) -> Option<u16>
        ensures section { result ≡ section_of self.now (symbol_parts s.now) }
    {
        let count = self.object.section_count();
        if s.section == UNDEF || s.section == ABS || s.section == COMMON || s.section >= count {
            None
        } else {
            Some(s.section)
        }
    }

    /// Where the section that a symbol is in begins; none where it is in none, or in one that is not in
    /// memory.
    pub(crate) fn symbol_home(&self, s: &Symbol<'_>) -> Option<Home>
        ensures home { result ≡ symbol_home self.now (symbol_parts s.now) }
        ensures small { (home : Home) → result ≡ Some home → home.start < 2 ^ 50 }
    {
        match self.section_of(s) {
            None => None,
            Some(k) => self.home(k),
        }
    }

    /// The index of the section that a symbol is in, where that is not in memory.
    pub(crate) fn outside_of(&self, s: &Symbol<'_>) -> Option<u16>
        ensures { result ≡ outside_of self.now (symbol_parts s.now) }
    {
        let Some(k) = self.section_of(s) else {
            return None;
        };
        match self.home(k) {
            None => Some(k),
            Some(_) => None,
        }
    }
}

/// The target that the linker's symbol of a name is.
pub(crate) fn linker_target(name: &[u8]) -> Option<u16>
    ensures { result ≡ linker_target name.now }
{
    if name == b"__data_start".as_slice() {
        return Some(3);
    }
    if name == b"__data_end".as_slice() {
        return Some(4);
    }
    if name == b"__data_load_start".as_slice() {
        return Some(5);
    }
    if name == b"__bss_start".as_slice() {
        return Some(6);
    }
    if name == b"__bss_end".as_slice() {
        return Some(7);
    }
    if name == b"__heap_start".as_slice() {
        return Some(8);
    }
    if name == b"__stack".as_slice() {
        return Some(9);
    }
    None
}
