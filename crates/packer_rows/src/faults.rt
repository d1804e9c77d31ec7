//! What is refused of the neighbours of the object: the first fault of each.

use crate::objects::{Edits, edited, sender};
use avr_elf::read_object;
use object_packer::{PackFault, names_of};
use std::alloc::{AllocError, Global};
use std::test::Fail;

/// The object with bytes written over its own, and its first fault.
type Case = (Edits, Option<PackFault>);

///
/// Section headers begin at 442 and have 40 bytes: section 4 at 602, 5 at 642, 8 at 762. Symbols begin
/// at 140 and have 16 bytes, relocations of `.text.send` at 67 and have 12.
const CASES: [Case; 59] = [
    // Sections: an alignment, a name, and the first of two.
    (&[(634, &[2])], None),
    (&[(634, &[4])], Some(PackFault::Section(4))),
    (&[(634, &[4]), (514, &[4])], Some(PackFault::Section(1))),
    (&[(366, b"init.")], Some(PackFault::Section(6))),
    (&[(339, b"init4")], Some(PackFault::Section(4))),
    (&[(339, b"fini4")], Some(PackFault::Section(4))),
    (&[(339, b"ctors")], Some(PackFault::Section(4))),
    (&[(339, b"dtors")], Some(PackFault::Section(4))),
    (&[(339, b"fuse.")], Some(PackFault::Section(4))),
    (&[(339, b"lock.")], Some(PackFault::Section(4))),
    (&[(339, b"inix4")], None),
    // Symbols: common before absolute before a name; the first of two.
    (&[(202, &[0xF2, 0xFF])], Some(PackFault::Common(3))),
    (&[(266, &[0xF2, 0xFF])], Some(PackFault::Common(7))),
    (&[(170, &[0xF2, 0xFF])], Some(PackFault::Common(1))),
    (
        &[(218, &[0xF1, 0xFF]), (208, &[0, 0, 1])],
        Some(PackFault::Absolute(4)),
    ),
    (&[(218, &[0xF1, 0xFF]), (208, &[0xFF, 0xFF])], None),
    (&[(204, &[1])], Some(PackFault::NameTwice(4))),
    (
        &[(204, &[1]), (216, &[0x21])],
        Some(PackFault::NameTwice(4)),
    ),
    (&[(220, &[1])], None),
    (&[(269, b"__stack\0")], Some(PackFault::NameTwice(3))),
    (
        &[(269, b"__stack\0"), (266, &[0xF2, 0xFF])],
        Some(PackFault::NameTwice(3)),
    ),
    (
        &[(269, b"__stack\0"), (634, &[4])],
        Some(PackFault::Section(4)),
    ),
    // Relocations: type before field before the symbol's section before the addend.
    (&[(71, &[33])], Some(PackFault::Kind(4, 0, 33))),
    (&[(71, &[32])], None),
    (&[(71, &[0])], None),
    (&[(107, &[255])], Some(PackFault::Kind(4, 3, 255))),
    (&[(107, &[33]), (67, &[11])], Some(PackFault::Field(4, 0))),
    (&[(67, &[11])], Some(PackFault::Field(4, 0))),
    (&[(67, &[1])], Some(PackFault::Field(4, 0))),
    (&[(67, &[11]), (71, &[33])], Some(PackFault::Kind(4, 0, 33))),
    (&[(170, &[8])], Some(PackFault::Section(8))),
    (
        &[(170, &[8]), (75, &[0xFF; 4])],
        Some(PackFault::Section(8)),
    ),
    (&[(75, &[0xFB, 0x7F])], None),
    (&[(75, &[0xFC, 0x7F])], Some(PackFault::Addend(4, 0))),
    (&[(75, &[0xFC, 0x7F, 0xFF, 0xFF])], None),
    (
        &[(75, &[0xFB, 0x7F, 0xFF, 0xFF])],
        Some(PackFault::Addend(4, 0)),
    ),
    // Overlap, of the greater offset, else of the later entry.
    (&[(79, &[0])], Some(PackFault::Field(4, 1))),
    (&[(79, &[6])], Some(PackFault::Field(4, 1))),
    // Size of RAM.
    (&[(582, &[0xFF, 0xFF])], Some(PackFault::Size(65_536))),
    // Each fault at its first place and its last.
    (&[(754, &[4])], Some(PackFault::Section(7))),
    (&[(754, &[4]), (714, &[4])], Some(PackFault::Section(6))),
    (
        &[(202, &[0xF1, 0xFF]), (194, &[1])],
        Some(PackFault::Absolute(3)),
    ),
    (
        &[(266, &[0xF1, 0xFF]), (258, &[1])],
        Some(PackFault::Absolute(7)),
    ),
    (
        &[(170, &[0xF1, 0xFF]), (162, &[1])],
        Some(PackFault::Addend(4, 0)),
    ),
    (&[(266, &[4]), (252, &[1])], Some(PackFault::NameTwice(7))),
    (&[(132, &[33])], None),
    (&[(103, &[11])], Some(PackFault::Field(4, 3))),
    (&[(103, &[10])], None),
    (&[(111, &[0xFF, 0x7F])], None),
    (&[(111, &[0, 0x80])], Some(PackFault::Addend(4, 3))),
    (&[(99, &[0xFF, 0x7F])], None),
    (&[(99, &[0, 0x80])], Some(PackFault::Addend(4, 2))),
    (&[(99, &[0, 0x80, 0xFF, 0xFF])], None),
    (
        &[(99, &[0xFF, 0x7F, 0xFF, 0xFF])],
        Some(PackFault::Addend(4, 2)),
    ),
    (&[(186, &[8])], Some(PackFault::Section(8))),
    // Pairs of which the earlier is told: symbol before entry, entry before overlap, overlap before size.
    (
        &[(266, &[0xF2, 0xFF]), (71, &[33])],
        Some(PackFault::Common(7)),
    ),
    (&[(79, &[0]), (107, &[33])], Some(PackFault::Kind(4, 3, 33))),
    (
        &[(79, &[0]), (582, &[0xFF, 0xFF])],
        Some(PackFault::Field(4, 1)),
    ),
    (&[(582, &[0xFE, 0xFF])], None),
];

/// The same where bytes of zero follow the object's: how many, what is written over, and the fault. The object ends at 962; sections 6
/// and 7, of code and of data, may be made to begin there.
const SIZES: [(usize, Edits, Option<PackFault>); 10] = [
    // A package of 9,984 bytes, and a longer one; a part is filled to an even length.
    (10_000, &[(698, &[0xC2, 3]), (702, &[0xA0, 0x26])], None),
    (10_000, &[(698, &[0xC2, 3]), (702, &[0x9F, 0x26])], None),
    (
        10_000,
        &[(698, &[0xC2, 3]), (702, &[0xA1, 0x26])],
        Some(PackFault::Size(9_986)),
    ),
    // Parts of 65,534 bytes, and longer ones.
    (
        65_536,
        &[(698, &[0xC2, 3]), (702, &[0xF2, 0xFF])],
        Some(PackFault::Size(65_618)),
    ),
    (
        65_536,
        &[(698, &[0xC2, 3]), (702, &[0xF3, 0xFF])],
        Some(PackFault::Size(65_536)),
    ),
    (
        65_536,
        &[(738, &[0xC2, 3]), (742, &[0xFA, 0xFF])],
        Some(PackFault::Size(65_628)),
    ),
    (
        65_536,
        &[(738, &[0xC2, 3]), (742, &[0xFB, 0xFF])],
        Some(PackFault::Size(65_536)),
    ),
    // Code before data before RAM before the package.
    (
        65_536,
        &[
            (698, &[0xC2, 3]),
            (702, &[0xF4, 0xFF]),
            (738, &[0xC2, 3]),
            (742, &[0, 0, 1]),
        ],
        Some(PackFault::Size(65_536)),
    ),
    (
        65_536,
        &[(738, &[0xC2, 3]), (742, &[0, 0, 1]), (582, &[2, 0, 1])],
        Some(PackFault::Size(65_540)),
    ),
    (
        10_000,
        &[
            (698, &[0xC2, 3]),
            (702, &[0xA1, 0x26]),
            (582, &[0xFF, 0xFF]),
        ],
        Some(PackFault::Size(65_536)),
    ),
];

// The first fault of an object that is read; none where it is not.
fn fault_of(alloc: Global, file: &[u8]) -> Option<PackFault> {
    if file.len() > 1_048_576 {
        return None;
    }
    let Ok(o) = read_object(file) else {
        return None;
    };
    names_of(alloc, &o).err()
}

// Whether the edited file has this fault.
fn has_fault(alloc: Global, file: &[u8], case: Case) -> Result<bool, AllocError> {
    let (edits, fault) = case;
    let bad = edited(alloc, file, edits)?;
    Ok(fault_of(alloc, &bad) == fault)
}

// The first of these cases that has another fault.
fn first_wrong(alloc: Global, file: &[u8], cases: &[Case]) -> Result<Option<usize>, AllocError> {
    for (i, case) in cases.iter().enumerate() {
        if !has_fault(alloc, file, *case)? {
            return Ok(Some(i));
        }
    }
    Ok(None)
}

#[test]
fn answers_the_first_fault(rt: HostRuntime) -> Result<(), Fail> {
    let file = sender(rt.alloc())?;
    assert_eq!(rt; first_wrong(rt.alloc(), &file, &CASES)?, None);
    Ok(())
}

// The file with so many bytes of zero behind it.
fn longer(alloc: Global, file: &[u8], zeros: usize) -> Result<Vec<u8>, AllocError> {
    let mut out = file.to_vec(alloc)?;
    out.resize(file.len().saturating_add(zeros), 0)?;
    Ok(out)
}

// The first of these lengths and cases that has another fault.
fn first_wrong_size(
    alloc: Global,
    file: &[u8],
    cases: &[(usize, Edits, Option<PackFault>)],
) -> Result<Option<usize>, AllocError> {
    for (i, (zeros, edits, fault)) in cases.iter().enumerate() {
        let long = longer(alloc, file, *zeros)?;
        if !has_fault(alloc, &long, (edits, *fault))? {
            return Ok(Some(i));
        }
    }
    Ok(None)
}

#[test]
fn answers_what_is_too_long(rt: HostRuntime) -> Result<(), Fail> {
    let file = sender(rt.alloc())?;
    assert_eq!(rt; first_wrong_size(rt.alloc(), &file, &SIZES)?, None);
    Ok(())
}
