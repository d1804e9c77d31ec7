//! The bytes of a part.

ghost use Rattle.std.specs.Prelude.{◌≡◌, ◌<◌, ◌≤◌, ◌+◌, ◌++◌, IsTrue, true, length, take, map, IfOk, OnOk};
ghost use Rattle.std.specs.List.{All, filter, flat_map};
ghost use Rattle.avr_elf.specs.View.{section_parts};
ghost use Rattle.object_packer.specs.Sections.{section_at};
ghost use Rattle.object_packer.specs.Parts.{is_in, filled, bytes_in, part_bytes};
ghost use Rattle.object_packer.specs.Relocations.{kept_width};
ghost use Rattle.object_packer.specs.Packed.{clear_field, cleared, stands_in};

use crate::kept::Kept;
use crate::layout::Layout;
use crate::place::place_of;
use avr_elf::Section;
use component_package::Place;
use std::alloc::{AllocError, Global};

// Whether a section belongs to a part.
fn is_in(place: Place, s: &Section<'_>) -> bool
    ensures { result ≡ is_in place (section_parts s.now) }
{
    match (place, place_of(s)) {
        (Place::Code, Some(Place::Code)) => true,
        (Place::Init, Some(Place::Init)) => true,
        (Place::Bss, Some(Place::Bss)) => true,
        _ => false,
    }
}

// Puts bytes behind those that are there, and a zero byte behind them where they are odd.
fn push_filled(out: &mut Vec<u8>, bytes: &[u8]) -> Result<(), AllocError>
    ensures { OnOk result (out.new.items ≡ out.old.items ++ filled bytes.now) }
{
    out.extend_from_slice(bytes)?;
    if bytes.len() % 2 == 1 {
        out.push(0)?;
    }
    Ok(())
}

impl<'a> Layout<'a> {
    // Puts the bytes of a section behind those that are there, where it belongs to a part.
    fn push_section(&self, out: &mut Vec<u8>, place: Place, k: u16) -> Result<(), AllocError>
        requires { k < length self.now.sections }
        ensures { OnOk result (out.new.items ≡ out.old.items ++ bytes_in place (section_at self.now k)) }
    {
        let section = self.section(k);
        if is_in(place, &section) {
            push_filled(out, section.bytes)?;
        }
        Ok(())
    }

    /// The bytes of a part: its sections by rising index, each filled to an even length.
    pub(crate) fn part_bytes(&self, alloc: Global, place: Place) -> Result<Vec<u8>, AllocError>
        ensures { IfOk result (λ v. v.items ≡ part_bytes self.now place) }
    {
        let mut out = Vec::new(alloc);
        for k in 0..self.section_count() {
            self.push_section(&mut out, place, k)?;
        }
        Ok(out)
    }
}

/// Clears the value bits of a field.
fn clear_field(bytes: &mut [u8], x: &Kept)
    requires { x.now.offset + kept_width x.now ≤ length bytes.old }
    ensures { bytes.new ≡ clear_field x.now bytes.old }
{
    let at = x.offset as usize;
    let mask = x.kind.value_mask();
    for i in 0..x.kind.width() as usize {
        bytes[at + i] &= 0xFF - mask[i];
    }
}

// Whether a field stands in data, or in code.
fn stands_in(in_init: bool, x: &Kept) -> bool
    ensures { result ≡ stands_in in_init x.now }
{
    if in_init { x.in_init } else { !x.in_init }
}

/// Clears the value bits of all fields of a part, which is data or code.
pub(crate) fn clear_fields(bytes: &mut [u8], relocs: &[Kept], in_init: bool)
    requires { All (λ x. IsTrue (stands_in in_init x) → x.offset + kept_width x ≤ length bytes.old) relocs.now }
    ensures { bytes.new ≡ cleared (filter (stands_in in_init) relocs.now) bytes.old }
{
    for x in relocs {
        if stands_in(in_init, x) {
            clear_field(bytes, x);
        }
    }
}
