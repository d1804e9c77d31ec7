//! Drawn components and their packages.

ghost use Rattle.std.specs.Prelude.{◌≡◌, ◌-◌, ◌++◌, ◌<◌, ◌≤◌, [], ◌∷◌, OnOk, IfOk, ℕ};
ghost use Rattle.std.specs.List.{flat_map};
ghost use Rattle.component_package.specs.packages.Grammar.{IsComponent};
ghost use Rattle.drawn_releases.specs.Generator.{after, data_bytes, data_relocs, own_export, made, package_of, behind_component, drawn_bytes};

use crate::code::draw_code;
use crate::random::Random;
use avr_reloc::RelocType;
use component_package::{
    Bytes, Export, Exports, NoMemory, Package, Place, Reloc, Relocs, write_package,
};
use std::alloc::{AllocError, Global};
use std::marker::Model;

/// A version of a component and its package. Contracts see it as the definitions of updates do.
#[derive(Debug, Drop)]
pub struct Delivered {
    /// The component's number.
    pub component: u16,
    /// Its version.
    pub version: u16,
    /// Its package.
    pub bytes: Bytes,
}

impl Model for Delivered {
    ghost use Rattle.update_laws.specs.Update.{Delivered};

    ghost Value = { Delivered };

    ghost view = { λ d. record { component = d.component; version = d.version; bytes = d.bytes } };
}

// Draws so many bytes behind these.
fn draw_bytes(random: &mut Random, into: &mut Vec<u8>, count: u16) -> Result<(), AllocError>
    ensures bytes { OnOk result (into.new.items ≡ into.old.items ++ drawn_bytes count random.old) }
    ensures state { OnOk result (random.new ≡ after count random.old) }
{
    for _ in 0..count {
        into.push(random.draw(256) as u8)?;
    }
    Ok(())
}

// Draws data of so many bytes.
fn draw_data(alloc: Global, random: &mut Random, size: u16) -> Result<Vec<u8>, AllocError>
    ensures bytes { IfOk result (λ v. v.items ≡ data_bytes size random.old) }
    ensures state { OnOk result (random.new ≡ after (size - 2) random.old) }
{
    let mut bytes = Vec::new(alloc);
    if size == 0 {
        return Ok(bytes);
    }
    bytes.extend_from_slice(&[0, 0])?;
    draw_bytes(random, &mut bytes, size.saturating_sub(2))?;
    Ok(bytes)
}

// The relocation of data that begins with a pointer to itself.
fn push_pointer(into: &mut Vec<Reloc>, size: u16) -> Result<(), AllocError>
    ensures { OnOk result (into.new.items ≡ into.old.items ++ data_relocs size) }
{
    if size == 0 {
        return Ok(());
    }
    into.push(Reloc {
        offset: 0,
        in_init: true,
        weak: false,
        kind: RelocType::Abs16,
        target: 1,
        addend: 0,
    })?;
    Ok(())
}

// What a component exports: its code's begin, under its own symbol.
fn exports(alloc: Global, component: u16) -> Result<Vec<Export>, AllocError>
    requires { component ≤ 12 }
    ensures { IfOk result (λ v. v.items ≡ own_export component ∷ []) }
{
    let mut exports = Vec::new(alloc);
    exports.push(Export {
        symbol: 15 + component,
        place: Place::Code,
        weak: false,
        value: 0,
    })?;
    Ok(exports)
}

// Draws a component.
fn draw_component(
    alloc: Global,
    random: &mut Random,
    component: u16,
    version: u16,
) -> Result<Package, AllocError>
    requires { component ≤ 12 }
    ensures component { IfOk result (λ p. p ≡ made component version random.old) }
    ensures state { OnOk result (random.new ≡ behind_component random.old) }
{
    let words = 32 + random.draw(600) as u16;
    let code = draw_code(alloc, random, words)?;
    let size = 2 * random.draw(20) as u16;
    let init = draw_data(alloc, random, size)?;
    let bss = 2 * random.draw(20) as u16;
    let mut relocs = code.calls;
    push_pointer(&mut relocs, size)?;
    Ok(Package {
        component,
        version,
        code: Bytes::of(code.bytes),
        init: Bytes::of(init),
        bss,
        exports: Exports::of(exports(alloc, component)?),
        relocs: Relocs::of(relocs),
    })
}

// A drawn component is one that a package can hold.
fn is_whole(_package: &Package, _component: u16, _version: u16)
    requires some { 1 ≤ _component }
    requires known { _component ≤ 12 }
    ensures { (x : ℕ) → _package.now ≡ made _component _version x → IsComponent _package.now }
{}

/// Draws component `component`, 1 to 12, and writes its package in this version.
pub fn make(
    alloc: Global,
    random: &mut Random,
    component: u16,
    version: u16,
) -> Result<Delivered, NoMemory>
    requires some { 1 ≤ component }
    requires known { component ≤ 12 }
    ensures package { IfOk result (λ d. d ≡ package_of (made component version random.old)) }
    ensures state { OnOk result (random.new ≡ behind_component random.old) }
{
    let package = draw_component(alloc, random, component, version)?;
    is_whole(&package, component, version);
    let bytes = write_package(alloc, &package)?;
    Ok(Delivered {
        component,
        version,
        bytes: Bytes::of(bytes),
    })
}
