//! Which names need numbers, and what becomes of symbols and relocations, in the object's neighbours.

ghost use Rattle.std.specs.Prelude.{◌≤◌};
ghost use Rattle.std.specs.List.{All};
ghost use Rattle.component_package.specs.packages.Manifest.{AreDistinct};

use crate::objects::{Edits, edited, sender};
use crate::worked::CODE;
use avr_elf::read_object;
use avr_reloc::RelocType;
use component_package::{Export, Package, Place, Reloc};
use object_packer::{names_of, pack};
use std::alloc::{AllocError, Global};
use std::test::Fail;

/// The object with bytes written over its own, and the names that need numbers.
type Named = (Edits, &'static [&'static [u8]]);

const NAMES: [Named; 11] = [
    (&[], &[b"send", b"count", b"radio_put"]),
    // In the order of symbols, whatever the order of the relocations that name them.
    (
        &[(96, &[6]), (108, &[5])],
        &[b"send", b"count", b"radio_put", b"__do_copy_data"],
    ),
    // Each once.
    (
        &[(236, &[12]), (108, &[6])],
        &[b"send", b"count", b"radio_put"],
    ),
    // A local symbol has no name for others, not even an undefined one that is used.
    (
        &[(172, &[22]), (186, &[0])],
        &[b"send", b"count", b"radio_put"],
    ),
    // The linker's own names have numbers already.
    (&[(280, b"__stack\0")], &[b"send", b"count"]),
    // An undefined symbol that nothing in memory uses; a type that changes nothing uses nothing.
    (&[(96, &[3])], &[b"send", b"count"]),
    (&[(95, &[0])], &[b"send", b"count"]),
    (&[(133, &[6])], &[b"send", b"count", b"radio_put"]),
    // A number, a weak symbol, and one in a section that isn't in memory.
    (&[(218, &[0xF1, 0xFF])], &[b"send", b"count", b"radio_put"]),
    (&[(232, &[0x20])], &[b"send", b"count", b"radio_put"]),
    (&[(218, &[8])], &[b"send", b"radio_put"]),
];

/// Of a relocation: offset, type, target, weak, addend.
type Fields = (u16, RelocType, u16, bool, i16);

/// The object with bytes written over its own, an index among the package's relocations, and what stands there.
const RELOCATIONS: [(Edits, usize, Fields); 17] = [
    // Local symbols in data, code and bss, a number, no symbol, and an undefined one.
    (&[], 0, (0, RelocType::Lo8, 1, false, 5)),
    (&[(160, &[2])], 0, (0, RelocType::Lo8, 1, false, 7)),
    (&[(170, &[4])], 0, (0, RelocType::Lo8, 0, false, 1)),
    (&[(170, &[6])], 0, (0, RelocType::Lo8, 0, false, 13)),
    (&[(170, &[3])], 0, (0, RelocType::Lo8, 2, false, 1)),
    (
        &[(170, &[0xF1, 0xFF]), (160, &[5])],
        0,
        (0, RelocType::Lo8, 10, false, 6),
    ),
    (&[(72, &[0])], 0, (0, RelocType::Lo8, 10, false, 1)),
    (
        &[(170, &[0]), (160, &[5])],
        0,
        (0, RelocType::Lo8, 10, false, 1),
    ),
    // Global ones: undefined, weak and undefined, the linker's, defined here.
    (&[], 2, (4, RelocType::Call, 18, false, 0)),
    (&[(232, &[0x20])], 2, (4, RelocType::Call, 18, true, 0)),
    (
        &[(232, &[0x20]), (280, b"__stack\0"), (99, &[7])],
        2,
        (4, RelocType::Call, 9, false, 7),
    ),
    (&[(96, &[3])], 2, (4, RelocType::Call, 16, false, 0)),
    (
        &[(96, &[3]), (200, &[0x22])],
        2,
        (4, RelocType::Call, 16, false, 0),
    ),
    // Addends at the ends of their range.
    (
        &[(99, &[0xFF, 0x7F])],
        2,
        (4, RelocType::Call, 18, false, 32_767),
    ),
    (
        &[(99, &[0, 0x80, 0xFF, 0xFF])],
        2,
        (4, RelocType::Call, 18, false, -32_768),
    ),
    // By offset and not by entry; a type that changes nothing is left out.
    (
        &[(67, &[2]), (79, &[0])],
        0,
        (0, RelocType::Hi8, 1, false, 5),
    ),
    (&[(71, &[0])], 0, (2, RelocType::Hi8, 1, false, 5)),
];

/// The object with bytes written over its own, an index among the package's exports, and what stands there: symbol, place, weak, value.
const EXPORTS: [(Edits, usize, (u16, Place, bool, u16)); 7] = [
    (&[], 0, (16, Place::Code, false, 0)),
    (&[], 1, (17, Place::Bss, false, 0)),
    (&[(200, &[0x22])], 0, (16, Place::Code, true, 0)),
    (&[(192, &[4])], 0, (16, Place::Code, false, 4)),
    // In the fourth and second sections of their parts: behind what stands before.
    (&[(202, &[6])], 0, (16, Place::Code, false, 12)),
    (&[(202, &[7])], 0, (16, Place::Init, false, 4)),
    (
        &[(218, &[0xF1, 0xFF]), (208, &[0x34, 0x12])],
        1,
        (17, Place::Absolute, false, 0x1234),
    ),
];

/// The object's package, where it needs as many numbers as these and gets them.
pub fn packed_with(alloc: Global, file: &[u8], numbers: &[u16]) -> Option<Package>
    requires different { AreDistinct numbers.now }
    requires symbols { All (λ n. 16 ≤ n) numbers.now }
{
    if file.len() > 1_048_576 {
        return None;
    }
    let Ok(o) = read_object(file) else {
        return None;
    };
    let Ok(names) = names_of(alloc, &o) else {
        return None;
    };
    if names.len() != numbers.len() {
        return None;
    }
    pack(alloc, &o, 1, 1, numbers).ok()
}

// The package of an object with 2 to 4 names, numbered from 16.
fn packed(alloc: Global, file: &[u8]) -> Option<Package> {
    if let Some(p) = packed_with(alloc, file, &[16, 17, 18]) {
        return Some(p);
    }
    if let Some(p) = packed_with(alloc, file, &[16, 17]) {
        return Some(p);
    }
    packed_with(alloc, file, &[16, 17, 18, 19])
}

// Whether these are the names that the object needs numbers for.
pub fn has_names(alloc: Global, file: &[u8], wanted: &[&[u8]]) -> bool {
    if file.len() > 1_048_576 {
        return false;
    }
    let Ok(o) = read_object(file) else {
        return false;
    };
    let Ok(names) = names_of(alloc, &o) else {
        return false;
    };
    if names.len() != wanted.len() {
        return false;
    }
    for (i, name) in wanted.iter().enumerate() {
        if i >= names.len() || names.name(i) != *name {
            return false;
        }
    }
    true
}

// The first of these rows whose object needs numbers for other names.
fn first_misnamed(alloc: Global, file: &[u8], rows: &[Named]) -> Result<Option<usize>, AllocError> {
    for (i, (edits, names)) in rows.iter().enumerate() {
        let file = edited(alloc, file, edits)?;
        if !has_names(alloc, &file, names) {
            return Ok(Some(i));
        }
    }
    Ok(None)
}

#[test]
fn names_what_needs_a_number(rt: HostRuntime) -> Result<(), Fail> {
    let file = sender(rt.alloc())?;
    assert_eq!(rt; first_misnamed(rt.alloc(), &file, &NAMES)?, None);
    Ok(())
}

// Whether this relocation stands there in the object's package.
fn has_relocation(alloc: Global, file: &[u8], place: usize, fields: Fields) -> bool {
    let (offset, kind, target, weak, addend) = fields;
    let Some(p) = packed(alloc, file) else {
        return false;
    };
    let wanted = Reloc {
        offset,
        in_init: false,
        weak,
        kind,
        target,
        addend,
    };
    p.relocs.as_slice().get(place) == Some(&wanted)
}

// The first of these rows whose package has another relocation there.
fn first_unlike(
    alloc: Global,
    file: &[u8],
    rows: &[(Edits, usize, Fields)],
) -> Result<Option<usize>, AllocError> {
    for (i, (edits, place, fields)) in rows.iter().enumerate() {
        let file = edited(alloc, file, edits)?;
        if !has_relocation(alloc, &file, *place, *fields) {
            return Ok(Some(i));
        }
    }
    Ok(None)
}

#[test]
fn packs_relocations(rt: HostRuntime) -> Result<(), Fail> {
    let file = sender(rt.alloc())?;
    assert_eq!(rt; first_unlike(rt.alloc(), &file, &RELOCATIONS)?, None);
    Ok(())
}

// Whether this export stands there in the object's package.
fn has_export(alloc: Global, file: &[u8], at: usize, fields: (u16, Place, bool, u16)) -> bool {
    let (symbol, place, weak, value) = fields;
    let Some(p) = packed(alloc, file) else {
        return false;
    };
    let wanted = Export {
        symbol,
        place,
        weak,
        value,
    };
    p.exports.as_slice().get(at) == Some(&wanted)
}

// The first of these rows whose package has another export there.
fn first_other(
    alloc: Global,
    file: &[u8],
    rows: &[(Edits, usize, (u16, Place, bool, u16))],
) -> Result<Option<usize>, AllocError> {
    for (i, (edits, at, fields)) in rows.iter().enumerate() {
        let file = edited(alloc, file, edits)?;
        if !has_export(alloc, &file, *at, *fields) {
            return Ok(Some(i));
        }
    }
    Ok(None)
}

#[test]
fn packs_exports(rt: HostRuntime) -> Result<(), Fail> {
    let file = sender(rt.alloc())?;
    assert_eq!(rt; first_other(rt.alloc(), &file, &EXPORTS)?, None);
    Ok(())
}

// Whether code of eleven bytes is filled to twelve, and RAM of three bytes to four.
fn is_filled(alloc: Global, odd: &[u8]) -> bool {
    let Some(p) = packed(alloc, odd) else {
        return false;
    };
    let code = p.code.as_slice();
    code.len() == CODE.len() && code.get(11) == Some(&0) && code.get(12) == Some(&1) && p.bss == 4
}

#[test]
fn fills_parts_to_an_even_length(rt: HostRuntime) -> Result<(), Fail> {
    let file = sender(rt.alloc())?;
    let odd = edited(rt.alloc(), &file, &[(622, &[11]), (582, &[3])])?;
    assert!(rt; is_filled(rt.alloc(), &odd));
    Ok(())
}

// Whether exports stand in the order of their numbers, where the names have these.
fn is_in_order(alloc: Global, file: &[u8]) -> bool {
    let Some(p) = packed_with(alloc, file, &[18, 17, 16]) else {
        return false;
    };
    let [first, second] = p.exports.as_slice() else {
        return false;
    };
    let Some(third) = p.relocs.as_slice().get(2) else {
        return false;
    };
    first.symbol == 17 && second.symbol == 18 && third.target == 16
}

#[test]
fn orders_exports_by_number(rt: HostRuntime) -> Result<(), Fail> {
    let file = sender(rt.alloc())?;
    assert!(rt; is_in_order(rt.alloc(), &file));
    Ok(())
}
