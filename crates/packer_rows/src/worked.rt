//! The object itself, and what is said of faults.

use crate::objects::sender;
use crate::rows::{has_names, packed_with};
use avr_reloc::RelocType;
use component_package::{Export, Package, Place, Reloc};
use object_packer::PackFault;
use std::alloc::Global;
use std::test::Fail;

/// Bytes 32 and on of the package, but for exports and relocations.
pub const CODE: [u8; 18] = [
    0x80, 0xE0, 0x90, 0xE0, 0x0E, 0x94, 0, 0, 0, 0xC0, 0x08, 0x95, 1, 2, 3, 4, 5, 0,
];

const DATA: [u8; 8] = [0x0A, 0x0B, 0x0C, 0, 0x61, 0x62, 0x63, 0];

const EXPORTS: [Export; 2] = [
    Export {
        symbol: 16,
        place: Place::Code,
        weak: false,
        value: 0,
    },
    Export {
        symbol: 17,
        place: Place::Bss,
        weak: false,
        value: 0,
    },
];

const NO_RELOC: Reloc = Reloc {
    offset: 0,
    in_init: false,
    weak: false,
    kind: RelocType::Lo8,
    target: 0,
    addend: 0,
};

const RELOCS: [Reloc; 4] = [
    Reloc {
        target: 1,
        addend: 5,
        ..NO_RELOC
    },
    Reloc {
        offset: 2,
        kind: RelocType::Hi8,
        target: 1,
        addend: 5,
        ..NO_RELOC
    },
    Reloc {
        offset: 4,
        kind: RelocType::Call,
        target: 18,
        ..NO_RELOC
    },
    Reloc {
        offset: 8,
        kind: RelocType::Rel13,
        ..NO_RELOC
    },
];

// Whether these are a package's parts.
fn has_parts(p: &Package, code: &[u8], data: &[u8]) -> bool {
    p.code.as_slice() == code && p.init.as_slice() == data && p.bss == 2
}

// Whether these are the exports and relocations of a package.
fn has_symbols(p: &Package, exports: &[Export], relocs: &[Reloc]) -> bool {
    p.exports.as_slice() == exports && p.relocs.as_slice() == relocs
}

fn is_worked(alloc: Global, file: &[u8]) -> bool {
    let Some(p) = packed_with(alloc, file, &[16, 17, 18]) else {
        return false;
    };
    has_parts(&p, &CODE, &DATA) && has_symbols(&p, &EXPORTS, &RELOCS)
}

#[test]
fn packs_an_object(rt: HostRuntime) -> Result<(), Fail> {
    let file = sender(rt.alloc())?;
    assert!(rt; has_names(rt.alloc(), &file, &[b"send", b"count", b"radio_put"]));
    assert!(rt; is_worked(rt.alloc(), &file));
    Ok(())
}

const FAULTS: [PackFault; 9] = [
    PackFault::Section(0),
    PackFault::Common(0),
    PackFault::Kind(0, 0, 33),
    PackFault::Addend(0, 0),
    PackFault::Field(0, 0),
    PackFault::Size(0),
    PackFault::Absolute(0),
    PackFault::NameTwice(0),
    PackFault::Memory,
];

// The first of these faults whose number isn't the one behind the last.
fn first_misnumbered(faults: &[PackFault]) -> Option<usize> {
    for (i, fault) in faults.iter().enumerate() {
        if fault.number() as usize != i.saturating_add(1) {
            return Some(i);
        }
    }
    None
}

#[test]
fn numbers_each_fault(rt: HostRuntime) -> Result<(), Fail> {
    assert_eq!(rt; first_misnumbered(&FAULTS), None);
    let words = format!(in rt.alloc(); "{}", PackFault::Kind(4, 1, 33))?;
    assert_eq!(rt; words.as_str(), "relocation 1 of section 4 has type 33");
    Ok(())
}
