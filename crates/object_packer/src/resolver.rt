//! An object whose sections have places and whose symbols have targets.

use crate::layout::Layout;
use crate::reference::Reference;
use std::alloc::{AllocError, Global};
use std::marker::Model;

/// An object with the places of its sections and what its symbols refer to. Contracts see the object.
#[derive(Drop)]
pub(crate) struct Resolver<'a> {
    pub layout: Layout<'a>,
    references: Vec<Reference>,
}

impl<'a> Model for Resolver<'a> {
    ghost use Rattle.avr_elf.specs.Object.{Object};
    ghost use Rattle.object_packer.specs.Layout.{AreReferences};

    ghost Value = { Object };

    ghost view = { λ r. r.layout };

    ghost invariant = { λ r. AreReferences r.layout r.references.items };
}

impl<'a> Resolver<'a> {
    ghost use Rattle.std.specs.Prelude.{◌≡◌, ◌<◌, ◌^◌, length, IfOk};
    ghost use Rattle.object_packer.specs.References.{reference_of};

    /// An object's symbols, resolved.
    pub(crate) fn of(alloc: Global, layout: Layout<'a>) -> Result<Resolver<'a>, AllocError>
        ensures { IfOk result (λ r. r ≡ layout.entry) }
    {
        let references = layout.references(alloc)?;
        Ok(Resolver { layout, references })
    }

    /// The object with the places of its sections.
    pub(crate) fn into_layout(self) -> Layout<'a>
        ensures { result ≡ self.entry }
    {
        self.layout
    }

    /// What a relocation that names symbol `i` refers to.
    pub(crate) fn reference(&self, i: u32) -> Reference
        requires { i < length self.now.symbols }
        ensures reference { result ≡ reference_of self.now i }
        ensures small { result.value < 2 ^ 51 }
    {
        self.references[i as usize]
    }
}
