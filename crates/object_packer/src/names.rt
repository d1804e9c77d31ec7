//! The names that need numbers.

use crate::fault::PackFault;
use crate::plan::plan_of;
use avr_elf::ObjectView;
use std::alloc::Global;
use std::marker::Model;

/// The names of an object that need numbers, in the order of its symbols, each once. Names go by their
/// places in this list, from 0. Contracts see the list of them.
#[derive(Drop)]
pub struct Names<'a> {
    list: Vec<&'a [u8]>,
}

impl<'a> Model for Names<'a> {
    ghost use Rattle.std.specs.Prelude.{List, ℕ, map};

    ghost Value = { List (List ℕ) };

    ghost view = { λ n. map (λ b. b.now) n.list.items };
}

impl<'a> Names<'a> {
    ghost use Rattle.std.specs.Prelude.{◌≡◌, ◌<◌, map, length, slice_get, Some};

    fn of(list: Vec<&'a [u8]>) -> Names<'a>
        ensures { result ≡ map (λ b. b.now) list.entry.items }
    {
        Names { list }
    }

    /// How many names there are.
    pub fn len(&self) -> usize
        ensures { result ≡ length self.now }
    {
        self.list.len()
    }

    /// Name `i`, without the zero byte that ends it in the object.
    pub fn name(&self, i: usize) -> &'a [u8]
        requires { i < length self.now }
        ensures { slice_get self.now i ≡ Some result.now }
    {
        self.list[i]
    }
}

ghost use Rattle.std.specs.Prelude.{◌≡◌, None, IfOk, IfErr};
ghost use Rattle.object_packer.specs.Names.{names};
ghost use Rattle.object_packer.specs.Faults.{pack_fault, Says};

/// Judges an object, and answers the names that need numbers before it is packed: of each global or
/// weak symbol that is exported, or that is undefined and that a relocation names, but for the names
/// of the linker's own symbols.
///
/// The fault is the object's first, as [`PackFault`] lists them, or `Memory`.
pub fn names_of<'a>(alloc: Global, o: &'a ObjectView<'a>) -> Result<Names<'a>, PackFault>
    ensures names { IfOk result (λ n. n ≡ names o.now) }
    ensures sound { IfOk result (λ _. pack_fault o.now ≡ None) }
    ensures fault { IfErr result (λ f. Says f (pack_fault o.now)) }
{
    match plan_of(alloc, o) {
        Ok(plan) => Ok(Names::of(plan.names.into_names())),
        Err(fault) => Err(fault),
    }
}
