//! An object that was judged.

ghost use Rattle.std.specs.Prelude.{◌≡◌, ◌<◌, ◌^◌, length, IfOk, IfErr, OnOk, Some, None};
ghost use Rattle.object_packer.specs.Names.{exported};
ghost use Rattle.object_packer.specs.Relocations.{kept};
ghost use Rattle.object_packer.specs.Layout.{IsPlan};
ghost use Rattle.object_packer.specs.Faults.{section_fault, sections_fault, size_fault, pack_fault, Says};

use crate::fault::PackFault;
use crate::kept::Kept;
use crate::layout::Layout;
use crate::name_table::NameTable;
use crate::order::{in_order, overlap_fault};
use crate::place::is_refused;
use crate::resolver::Resolver;
use avr_elf::ObjectView;
use std::alloc::Global;

/// The greatest length of a part, in bytes.
const MAX_PART: u64 = 65_534;
/// The greatest length of a package, in bytes.
const MAX_PACKAGE: u64 = 9_984;

impl<'a> Layout<'a> {
    fn section_fault(&self, k: u16) -> Option<PackFault>
        requires { k < length self.now.sections }
        ensures { result ≡ section_fault self.now k }
    {
        if is_refused(&self.section(k)) {
            Some(PackFault::Section(k))
        } else {
            None
        }
    }

    // The first section in memory that can't be packed.
    fn sections_fault(&self) -> Option<PackFault>
        ensures { result ≡ sections_fault self.now }
    {
        for k in 0..self.section_count() {
            if let Some(fault) = self.section_fault(k) {
                return Some(fault);
            }
        }
        None
    }

    // Whether so many exports and relocations are too many, or a part is too long.
    fn size_fault(&self, exports: usize, relocs: usize) -> Option<PackFault>
        requires exports { exports ≡ length (exported self.now) }
        requires few { exports < 2 ^ 61 }
        requires relocs { relocs ≡ length (kept self.now) }
        requires fewer { relocs < 2 ^ 58 }
        ensures { result ≡ size_fault self.now }
    {
        let lengths = self.lengths();
        if lengths.code > MAX_PART {
            return Some(PackFault::Size(lengths.code));
        }
        if lengths.init > MAX_PART {
            return Some(PackFault::Size(lengths.init));
        }
        if lengths.bss > MAX_PART {
            return Some(PackFault::Size(lengths.bss));
        }
        let total = 32 + lengths.code + lengths.init + 6 * exports as u64 + 8 * relocs as u64;
        if total > MAX_PACKAGE {
            return Some(PackFault::Size(total));
        }
        None
    }
}

/// An object without a fault, and what its package is made of.
#[derive(Drop)]
pub(crate) struct Plan<'a> {
    /// The object, with the places of its sections.
    pub layout: Layout<'a>,
    /// The exported symbols, by rising index.
    pub exported: Vec<u32>,
    /// The relocations, by part and offset.
    pub relocs: Vec<Kept>,
    /// The names that need numbers.
    pub names: NameTable<'a>,
}

/// What the package of an object is made of, or the object's first fault.
pub(crate) fn plan_of<'a>(alloc: Global, o: &'a ObjectView<'a>) -> Result<Plan<'a>, PackFault>
    ensures object { IfOk result (λ p. p.layout ≡ o.now) }
    ensures plan { IfOk result (λ p. IsPlan p.layout p.exported.items p.relocs.items p.names) }
    ensures none { IfOk result (λ _. pack_fault o.now ≡ None) }
    ensures fault { IfErr result (λ f. Says f (pack_fault o.now)) }
{
    let layout = Layout::of(alloc, o)?;
    if let Some(fault) = layout.sections_fault() {
        return Err(fault);
    }
    if let Err(fault) = layout.check_symbols(alloc) {
        return Err(fault);
    }
    let exported = layout.exported(alloc)?;
    let resolver = Resolver::of(alloc, layout)?;
    let kept = match resolver.kept_relocs(alloc) {
        Ok(kept) => kept,
        Err(fault) => return Err(fault),
    };
    let names = resolver.layout.names(alloc, &kept)?;
    let relocs = in_order(kept)?;
    if let Some(fault) = overlap_fault(&relocs) {
        return Err(fault);
    }
    if let Some(fault) = resolver.layout.size_fault(exported.len(), relocs.len()) {
        return Err(fault);
    }
    Ok(Plan {
        layout: resolver.into_layout(),
        exported,
        relocs,
        names,
    })
}
