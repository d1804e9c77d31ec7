//! The relocations of a section.

ghost use Rattle.std.specs.Prelude.{◌≡◌, ◌<◌, ◌+◌, ◌*◌};
ghost use Rattle.avr_elf.specs.Entry.{rela_entry};
ghost use Rattle.avr_elf.specs.RelaTable.{HasEntries};

use crate::constants::RELA_SIZE;
use crate::relocation::{Rela, rela_in};
use std::marker::Model;

fn entry(file: &[u8], offset: u32, count: u32, i: u32) -> Rela
    requires entries { HasEntries file.now offset count }
    requires inside { i < count }
    ensures { result ≡ rela_entry file.now (offset + 12 * i) }
{
    rela_in(file, (offset + RELA_SIZE * i) as usize)
}

/// The relocations of a section, found once and then read in constant time.
#[derive(Drop)]
pub struct RelaTable<'a> {
    file: &'a [u8],
    offset: u32,
    count: u32,
}

impl<'a> Model for RelaTable<'a> {
    ghost use Rattle.std.specs.Prelude.{List};
    ghost use Rattle.avr_elf.specs.declared.relocation.Rela.{Rela};
    ghost use Rattle.avr_elf.specs.RelaTable.{entries, HasEntries};

    ghost Value = { List Rela };

    ghost view = { λ t. entries t.file.now t.offset t.count };

    ghost invariant = { λ t. HasEntries t.file.now t.offset t.count };
}

impl<'a> RelaTable<'a> {
    ghost use Rattle.std.specs.Prelude.{◌≡◌, ◌<◌, ◌↔◌, IsTrue, length, slice_get, Some};
    ghost use Rattle.avr_elf.specs.RelaTable.{entries, HasEntries};

    /// The relocations of `count` entries from an offset on.
    pub(crate) fn new(file: &'a [u8], offset: u32, count: u32) -> RelaTable<'a>
        requires { HasEntries file.now offset count }
        ensures { result ≡ entries file.now offset count }
    {
        RelaTable {
            file,
            offset,
            count,
        }
    }

    /// How many there are.
    pub fn len(&self) -> u32
        ensures { result ≡ length self.now }
    {
        self.count
    }

    /// Whether there is none.
    pub fn is_empty(&self) -> bool
        ensures { IsTrue result ↔ (length self.now ≡ 0) }
    {
        self.count == 0
    }

    /// Relocation `i`.
    pub fn get(&self, i: u32) -> Rela
        requires { i < length self.now }
        ensures { slice_get self.now i ≡ Some result }
    {
        entry(self.file, self.offset, self.count, i)
    }
}
