//! From an object whose names have numbers to its package.

ghost use Rattle.std.specs.Prelude.{ℕ, ◌≡◌, ◌<◌, ◌≤◌, ◌+◌, ◌^◌, None, IsTrue, length, map, slice_index, IfOk};
ghost use Rattle.std.specs.List.{All, filter};
ghost use Rattle.avr_reloc.specs.Field.{AreBytes};
ghost use Rattle.avr_elf.specs.WellFormed.{IsWellFormed};
ghost use Rattle.component_package.specs.packages.Grammar.{IsComponent};
ghost use Rattle.component_package.specs.packages.Manifest.{AreDistinct};
ghost use Rattle.object_packer.specs.Parts.{part_bytes};
ghost use Rattle.object_packer.specs.Order.{sorted_by};
ghost use Rattle.object_packer.specs.Relocations.{kept_width};
ghost use Rattle.object_packer.specs.Names.{names, number_in};
ghost use Rattle.object_packer.specs.Faults.{pack_fault};
ghost use Rattle.object_packer.specs.Packed.{stands_in, part_of, cleared, export_of, target_number, reloc_of, packed};
ghost use Rattle.object_packer.specs.Layout.{IsExportable, IsPackable, IsPlan};

use crate::bytes::clear_fields;
use crate::kept::Kept;
use crate::layout::Layout;
use crate::name_table::NameTable;
use crate::plan::{Plan, plan_of};
use crate::reference::Target;
use crate::symbol::is_weak;
use avr_elf::ObjectView;
use component_package::{Bytes, Export, Exports, NoMemory, Package, Place, Reloc, Relocs};
use std::alloc::{AllocError, Global};

// The number of a name, 0 where it has none.
fn number_of<'a>(names: &NameTable<'a>, numbers: &[u16], name: &'a [u8]) -> u16
    requires { length numbers.now ≡ length names.now }
    ensures { result ≡ number_in names.now numbers.now name.now }
{
    match names.find(name) {
        None => 0,
        Some(place) => numbers[place],
    }
}

fn target_number(target: Target, number: u16) -> u16
    ensures { result ≡ target_number target number }
{
    match target {
        Target::Fixed(target) => target,
        Target::Named => number,
    }
}

impl<'a> Layout<'a> {
    // Symbol `i` as an export, where names have numbers.
    fn export(&self, i: u32, names: &NameTable<'a>, numbers: &[u16]) -> Export
        requires export { IsExportable self.now i }
        requires count { length numbers.now ≡ length names.now }
        ensures { result ≡ export_of self.now (number_in names.now numbers.now) i }
    {
        let s = self.symbol(i);
        let symbol = number_of(names, numbers, s.name);
        let weak = is_weak(&s);
        match self.symbol_home(&s) {
            None => Export {
                symbol,
                place: Place::Absolute,
                weak,
                value: s.value as u16,
            },
            Some(home) => Export {
                symbol,
                place: home.place,
                weak,
                value: (home.start + s.value as u64) as u16,
            },
        }
    }

    // A relocation, where names have numbers.
    fn reloc(&self, x: &Kept, names: &NameTable<'a>, numbers: &[u16]) -> Reloc
        requires reloc { IsPackable self.now x.now }
        requires count { length numbers.now ≡ length names.now }
        ensures { result ≡ reloc_of self.now (number_in names.now numbers.now) x.now }
    {
        let number = number_of(names, numbers, self.symbol(x.symbol).name);
        Reloc {
            offset: x.offset as u16,
            in_init: x.in_init,
            weak: x.weak,
            kind: x.kind,
            target: target_number(x.target, number),
            addend: x.addend,
        }
    }

    // Symbols as exports.
    fn exports(
        &self,
        alloc: Global,
        symbols: &[u32],
        names: &NameTable<'a>,
        numbers: &[u16],
    ) -> Result<Vec<Export>, AllocError>
        requires exports { (k : ℕ) → k < length symbols.now → IsExportable self.now (slice_index symbols.now k) }
        requires count { length numbers.now ≡ length names.now }
        ensures { IfOk result (λ v. v.items ≡ map (export_of self.now (number_in names.now numbers.now)) symbols.now) }
    {
        let mut out = Vec::new(alloc);
        for i in symbols {
            out.push(self.export(*i, names, numbers))?;
        }
        Ok(out)
    }

    // Relocations with numbers.
    fn relocs(
        &self,
        alloc: Global,
        kept: &[Kept],
        names: &NameTable<'a>,
        numbers: &[u16],
    ) -> Result<Vec<Reloc>, AllocError>
        requires relocs { All (IsPackable self.now) kept.now }
        requires count { length numbers.now ≡ length names.now }
        ensures { IfOk result (λ v. v.items ≡ map (reloc_of self.now (number_in names.now numbers.now)) kept.now) }
    {
        let mut out = Vec::new(alloc);
        for x in kept {
            out.push(self.reloc(x, names, numbers))?;
        }
        Ok(out)
    }

    // The bytes of code, or of data, with value bits that are zeros.
    fn cleared(&self, alloc: Global, kept: &[Kept], in_init: bool) -> Result<Vec<u8>, AllocError>
        requires { All (λ x. IsTrue (stands_in in_init x) → x.offset + kept_width x ≤ length (part_bytes self.now (part_of in_init))) kept.now }
        ensures part { IfOk result (λ v. v.items ≡ cleared (filter (stands_in in_init) kept.now) (part_bytes self.now (part_of in_init))) }
        ensures bytes { IfOk result (λ v. AreBytes v.items) }
    {
        let mut bytes = self.part_bytes(alloc, part_of(in_init))?;
        clear_fields(&mut bytes, kept, in_init);
        are_bytes(&bytes);
        Ok(bytes)
    }
}

// Each element of a slice of bytes is below 256, which the proof of a part reads.
fn are_bytes(_bytes: &[u8])
    ensures { AreBytes _bytes.now }
{}

// Each number of a slice has two bytes, which the proof of a package reads.
fn are_numbers(_numbers: &[u16])
    ensures { All (λ n. n < 2 ^ 16) _numbers.now }
{}

fn part_of(in_init: bool) -> Place
    ensures { result ≡ part_of in_init }
{
    if in_init { Place::Init } else { Place::Code }
}

// Exports by rising symbol.
fn by_symbol(exports: Vec<Export>) -> Result<Vec<Export>, AllocError>
    ensures { IfOk result (λ v. v.items ≡ sorted_by (λ e. e.symbol) exports.items) }
{
    let mut sorted = exports;
    sorted.sort_by_key(|e| e.symbol)?;
    Ok(sorted)
}

// The package of an object without a fault, where names have numbers.
fn package<'a>(
    alloc: Global,
    plan: &Plan<'a>,
    component: u16,
    version: u16,
    numbers: &[u16],
) -> Result<Package, AllocError>
    requires plan { IsPlan plan.now.layout plan.now.exported.items plan.now.relocs.items plan.now.names }
    requires accepted { pack_fault plan.now.layout ≡ None }
    requires well_formed { IsWellFormed plan.now.layout }
    requires count { length numbers.now ≡ length plan.now.names }
    ensures package { IfOk result (λ p. p ≡ packed plan.now.layout component version (number_in plan.now.names numbers.now)) }
    ensures code { IfOk result (λ p. AreBytes p.code) }
    ensures init { IfOk result (λ p. AreBytes p.init) }
{
    let layout = &plan.layout;
    let code = layout.cleared(alloc, &plan.relocs, false)?;
    let init = layout.cleared(alloc, &plan.relocs, true)?;
    let exports = layout.exports(alloc, &plan.exported, &plan.names, numbers)?;
    let exports = by_symbol(exports)?;
    let relocs = layout.relocs(alloc, &plan.relocs, &plan.names, numbers)?;
    Ok(Package {
        component,
        version,
        code: Bytes::of(code),
        init: Bytes::of(init),
        bss: layout.lengths().bss as u16,
        exports: Exports::of(exports),
        relocs: Relocs::of(relocs),
    })
}

/// The package of an object whose names have numbers: `numbers[i]` is the number of name `i` of
/// [`names_of`](crate::names_of), which accepts the object. The numbers are different, and 16 or above.
/// [`write_package`](component_package::write_package) spells it.
pub fn pack<'a>(
    alloc: Global,
    o: &'a ObjectView<'a>,
    component: u16,
    version: u16,
    numbers: &[u16],
) -> Result<Package, NoMemory>
    requires accepted { pack_fault o.now ≡ None }
    requires count { length numbers.now ≡ length (names o.now) }
    requires different { AreDistinct numbers.now }
    requires symbols { All (λ n. 16 ≤ n) numbers.now }
    ensures packed { IfOk result (λ p. p ≡ packed o.now component version (number_in (names o.now) numbers.now)) }
    ensures component { IfOk result IsComponent }
{
    match plan_of(alloc, o) {
        Ok(plan) => {
            let _count = o.section_count();
            are_numbers(numbers);
            Ok(package(alloc, &plan, component, version, numbers)?)
        }
        Err(_) => Err(NoMemory),
    }
}
