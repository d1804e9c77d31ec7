//! Symbols as they stand in the file.

ghost use Rattle.std.specs.Prelude.{◌≡◌, ◌+◌, ◌*◌, ◌<◌, ◌≤◌, length};
ghost use Rattle.avr_elf.specs.Entry.{symbol_entry};

use crate::number::{u16_in, u32_in};

/// A symbol of the symbol table, its name as an offset.
#[derive(Clone, Copy, Debug, PartialEq, Eq)]
pub struct SymbolEntry {
    /// Where the name begins in the symbol table's string table.
    pub name: u32,
    /// The symbol's value.
    pub value: u32,
    /// The symbol's size.
    pub size: u32,
    /// The symbol's binding, 0 to 15.
    pub binding: u8,
    /// The symbol's type, 0 to 15.
    pub kind: u8,
    /// The section that the symbol is in, or one of the special indexes.
    pub section: u16,
}

/// The symbol at an offset.
#[tactic(auto, unfolding(crate::specs::Entry::symbol_entry))]
pub fn symbol_in(file: &[u8], at: usize) -> SymbolEntry
    requires { at + 16 ≤ length file.now }
    ensures { result ≡ symbol_entry file.now at }
{
    let info = file[at + 12];
    SymbolEntry {
        name: u32_in(file, at),
        value: u32_in(file, at + 4),
        size: u32_in(file, at + 8),
        binding: info / 16,
        kind: info % 16,
        section: u16_in(file, at + 14),
    }
}
