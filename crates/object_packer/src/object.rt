//! Sections, symbols and relocations of an object by their numbers.

ghost use Rattle.std.specs.Prelude.{◌≡◌, ◌<◌, length};
ghost use Rattle.avr_elf.specs.View.{section_parts, symbol_parts};
ghost use Rattle.object_packer.specs.Sections.{section_at, symbol_at};

use avr_elf::{ObjectView, Section, Symbol};

/// Section `k`.
pub(crate) fn section_in<'a>(o: &ObjectView<'a>, k: u16) -> Section<'a>
    requires { k < length o.now.sections }
    ensures { section_parts result ≡ section_at o.now k }
{
    o.section(k)
}

/// Symbol `i`.
pub(crate) fn symbol_in<'a>(o: &ObjectView<'a>, i: u32) -> Symbol<'a>
    requires { i < length o.now.symbols }
    ensures { symbol_parts result ≡ symbol_at o.now i }
{
    o.symbol(i)
}
