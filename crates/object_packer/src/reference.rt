//! What a relocation that names a symbol refers to.

ghost use Rattle.std.specs.Prelude.{◌≡◌, ◌<◌, ◌^◌, length, IfOk, Some};
ghost use Rattle.avr_elf.specs.View.{symbol_parts};
ghost use Rattle.object_packer.specs.declared.layout.Home.{Home};
ghost use Rattle.object_packer.specs.References.{own_target, fixed, local_reference, global_reference, reference_of};
ghost use Rattle.object_packer.specs.Layout.{AreReferences};

use crate::layout::{Home, Layout};
use crate::symbol::{is_local, is_weak, linker_target};
use avr_elf::Symbol;
use avr_elf::constants::{ABS, UNDEF};
use component_package::Place;
use std::alloc::{AllocError, Global};

/// The target of a reference.
#[derive(Clone, Copy)]
pub(crate) enum Target {
    /// A target below 16: an own part, a symbol of the linker's, or the number 0.
    Fixed(u16),
    /// The number of the symbol's name.
    Named,
}

/// What relocations that name a symbol refer to.
#[derive(Clone, Copy)]
pub(crate) struct Reference {
    /// The target.
    pub target: Target,
    /// What is added to the entry's own addend.
    pub value: u64,
    /// Whether an undefined symbol counts as 0.
    pub weak: bool,
    /// The index of the symbol's section, where that is not in memory.
    pub outside: Option<u16>,
}

// The target that is the number 0.
const ZERO: u16 = 10;

fn own_target(place: Place) -> u16
    ensures { result ≡ own_target place }
{
    match place {
        Place::Code => 0,
        Place::Init => 1,
        Place::Bss => 2,
        Place::Absolute => ZERO,
    }
}

fn fixed(target: u16, value: u64, outside: Option<u16>) -> Reference
    ensures { result ≡ fixed target value outside }
{
    Reference {
        target: Target::Fixed(target),
        value,
        weak: false,
        outside,
    }
}

// To a local symbol.
fn local_reference(i: u32, s: &Symbol<'_>, home: Option<Home>, outside: Option<u16>) -> Reference
    requires { (h : Home) → home ≡ Some h → h.start < 2 ^ 50 }
    ensures reference { result ≡ local_reference i (symbol_parts s.now) home outside }
    ensures small { result.value < 2 ^ 51 }
{
    match home {
        Some(home) => fixed(own_target(home.place), home.start + s.value as u64, outside),
        None if i == 0 || s.section == ABS => fixed(ZERO, s.value as u64, outside),
        None => fixed(ZERO, 0, outside),
    }
}

// To a symbol that is not local.
fn global_reference(s: &Symbol<'_>, linker: Option<u16>, outside: Option<u16>) -> Reference
    ensures reference { result ≡ global_reference (symbol_parts s.now) linker outside }
    ensures small { result.value < 2 ^ 51 }
{
    match linker {
        Some(target) => fixed(target, 0, outside),
        None => Reference {
            target: Target::Named,
            value: 0,
            weak: is_weak(s) && s.section == UNDEF,
            outside,
        },
    }
}

impl<'a> Layout<'a> {
    // What a relocation that names symbol `i` refers to.
    fn reference(&self, i: u32) -> Reference
        requires { i < length self.now.symbols }
        ensures reference { result ≡ reference_of self.now i }
        ensures small { result.value < 2 ^ 51 }
    {
        let s = self.symbol(i);
        let outside = self.outside_of(&s);
        if is_local(&s) {
            return local_reference(i, &s, self.symbol_home(&s), outside);
        }
        if i == 0 {
            return fixed(ZERO, s.value as u64, outside);
        }
        global_reference(&s, linker_target(s.name), outside)
    }

    /// What relocations that name a symbol refer to, by symbol.
    pub(crate) fn references(&self, alloc: Global) -> Result<Vec<Reference>, AllocError>
        ensures { IfOk result (λ v. AreReferences self.now v.items) }
    {
        let mut references = Vec::new(alloc);
        for i in 0..self.object.symbol_count() {
            references.push(self.reference(i))?;
        }
        Ok(references)
    }
}
