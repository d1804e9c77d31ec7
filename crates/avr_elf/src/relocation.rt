//! Relocations as they stand in the file.

ghost use Rattle.std.specs.Prelude.{◌≡◌, ◌+◌, ◌*◌, ◌<◌, ◌≤◌, length};
ghost use Rattle.avr_elf.specs.Entry.{rela_entry};

use crate::number::{i32_in, u32_in};

/// A relocation with its addend.
#[derive(Clone, Copy, Debug, PartialEq, Eq)]
pub struct Rela {
    /// Where in the patched section the field begins, in bytes.
    pub offset: u32,
    /// The index of the symbol.
    pub symbol: u32,
    /// The relocation's type, by the number of the AVR ELF ABI.
    pub kind: u8,
    /// What is added to the symbol's value.
    pub addend: i32,
}

/// The relocation at an offset.
#[tactic(auto, unfolding(crate::specs::Entry::rela_entry))]
pub fn rela_in(file: &[u8], at: usize) -> Rela
    requires { at + 12 ≤ length file.now }
    ensures { result ≡ rela_entry file.now at }
{
    let info = u32_in(file, at + 4);
    Rela {
        offset: u32_in(file, at),
        symbol: info / 256,
        kind: (info % 256) as u8,
        addend: i32_in(file, at + 8),
    }
}
