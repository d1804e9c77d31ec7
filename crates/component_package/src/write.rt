//! Writing a package.

ghost use Rattle.std.specs.Prelude.{◌≡◌, [], ◌∷◌, ◌++◌, length, None, IfOk, OnOk};
ghost use Rattle.std.specs.List.{flat_map};
ghost use Rattle.component_package.specs.packages.Numbers.{u16_bytes};
ghost use Rattle.component_package.specs.packages.Component.{number_of_place, weak_mark, export_bytes, reloc_bytes, header_bytes, spelling};
ghost use Rattle.component_package.specs.packages.Reading.{package_fault, component_of};
ghost use Rattle.component_package.specs.packages.Grammar.{IsComponent, Spells};

use crate::list::NoMemory;
use crate::part::{Export, Package, Place, Reloc};
use std::alloc::{AllocError, Global};

fn place_number(place: Place) -> u8
    ensures { result ≡ number_of_place place }
{
    match place {
        Place::Code => 0,
        Place::Init => 1,
        Place::Bss => 2,
        Place::Absolute => 3,
    }
}

fn weak_mark(weak: bool) -> u8
    ensures { result ≡ weak_mark weak }
{
    if weak { 0x80 } else { 0 }
}

fn export_array(e: &Export) -> [u8; 6]
    ensures { result ≡ export_bytes e.now }
{
    let [symbol_low, symbol_high] = e.symbol.to_le_bytes();
    let [value_low, value_high] = e.value.to_le_bytes();
    let kind = place_number(e.place) + weak_mark(e.weak);
    [symbol_low, symbol_high, kind, 0, value_low, value_high]
}

fn reloc_array(r: &Reloc) -> [u8; 8]
    ensures { result ≡ reloc_bytes r.now }
{
    let [offset_low, offset_high] = r.offset.to_le_bytes();
    let [target_low, target_high] = r.target.to_le_bytes();
    let [addend_low, addend_high] = r.addend.to_le_bytes();
    let part = if r.in_init { 1 } else { 0 };
    [
        offset_low,
        offset_high,
        part + weak_mark(r.weak),
        r.kind.number(),
        target_low,
        target_high,
        addend_low,
        addend_high,
    ]
}

fn push_numbers(into: &mut Vec<u8>, numbers: &[u16]) -> Result<(), AllocError>
    ensures { OnOk result (into.new.items ≡ into.old.items ++ flat_map u16_bytes numbers.now) }
{
    for n in numbers {
        into.extend_from_slice(&n.to_le_bytes())?;
    }
    Ok(())
}

fn push_exports(into: &mut Vec<u8>, exports: &[Export]) -> Result<(), AllocError>
    ensures { OnOk result (into.new.items ≡ into.old.items ++ flat_map export_bytes exports.now) }
{
    for e in exports {
        into.extend_from_slice(&export_array(e))?;
    }
    Ok(())
}

fn push_relocs(into: &mut Vec<u8>, relocs: &[Reloc]) -> Result<(), AllocError>
    ensures { OnOk result (into.new.items ≡ into.old.items ++ flat_map reloc_bytes relocs.now) }
{
    for r in relocs {
        into.extend_from_slice(&reloc_array(r))?;
    }
    Ok(())
}

// The numbers of the header, in their order.
fn numbers_of(p: &Package) -> [u16; 7]
    requires { IsComponent p.now }
    ensures { result ≡ (let c = p.now in
        c.component ∷ c.version ∷ length c.code ∷ length c.init ∷ c.bss ∷ length c.exports ∷ length c.relocs ∷ []) }
{
    [
        p.component,
        p.version,
        p.code.as_slice().len() as u16,
        p.init.as_slice().len() as u16,
        p.bss,
        p.exports.as_slice().len() as u16,
        p.relocs.as_slice().len() as u16,
    ]
}

fn header_of(alloc: Global, p: &Package) -> Result<Vec<u8>, AllocError>
    requires { IsComponent p.now }
    ensures { IfOk result (λ v. v.items ≡ header_bytes p.now) }
{
    let mut bytes = Vec::new(alloc);
    bytes.extend_from_slice(b"FCP1")?;
    push_numbers(&mut bytes, &numbers_of(p))?;
    bytes.extend_from_slice(&[0; 14])?;
    Ok(bytes)
}

/// The package of a component: its one spelling. `read_package` of it gives the component back.
pub fn write_package(alloc: Global, p: &Package) -> Result<Vec<u8>, NoMemory>
    requires { IsComponent p.now }
    ensures spells { IfOk result (λ v. Spells v.items p.now) }
    ensures reads_back { IfOk result (λ v. (package_fault v.items ≡ None) × (component_of v.items ≡ p.now)) }
{
    let mut bytes = header_of(alloc, p)?;
    bytes.extend_from_slice(p.code.as_slice())?;
    bytes.extend_from_slice(p.init.as_slice())?;
    push_exports(&mut bytes, p.exports.as_slice())?;
    push_relocs(&mut bytes, p.relocs.as_slice())?;
    Ok(bytes)
}
