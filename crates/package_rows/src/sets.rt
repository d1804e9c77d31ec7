//! Linked sets, and causes in their order.

use crate::changes::change;
use crate::parts::{NOTHING, Part, RETURN, fault, linked};
use avr_reloc::RangeFault;
use full_linker::LinkFault;
use full_linker::LinkFault::{Duplicate, Range, Undefined};
use std::alloc::{AllocError, Global};
use std::test::Fail;

// A jump to itself behind a call of symbol 16, and a return that is symbol 16.
const JUMP: Part<'static> = Part {
    code: &[0x0E, 0x94, 0, 0, 0xFF, 0xCF],
    relocs: &[(0, 0, 18, 16, 0)],
    ..NOTHING
};

const ENTRY: Part<'static> = Part {
    exports: &[(16, 0, 0)],
    ..RETURN
};

// Symbol 20: exported, exported weakly, called, called weakly, called besides symbol 99.
const STRONG: Part<'static> = Part {
    exports: &[(20, 0, 0)],
    ..RETURN
};

const WEAK: Part<'static> = Part {
    exports: &[(20, 0x80, 0)],
    ..RETURN
};

const CALL: Part<'static> = Part {
    code: &[0x0E, 0x94, 0, 0],
    relocs: &[(0, 0, 18, 20, 0)],
    ..NOTHING
};

const WEAK_CALL: Part<'static> = Part {
    relocs: &[(0, 0x80, 18, 20, 0)],
    ..CALL
};

const TWO_CALLS: Part<'static> = Part {
    code: &[0x0E, 0x94, 0, 0, 0x0E, 0x94, 0, 0],
    relocs: &[(0, 0, 18, 20, 0), (4, 0, 18, 99, 0)],
    ..NOTHING
};

/// A set and its image.
type Image = (&'static [Part<'static>], &'static [u8]);

/// A set and why it has no image.
type Refused = (&'static [Part<'static>], LinkFault);

const IMAGES: [Image; 9] = [
    (&[], &[]),
    (&[JUMP, ENTRY], &[0x0E, 0x94, 3, 0, 0xFF, 0xCF, 0x08, 0x95]),
    (&[ENTRY, JUMP], &[0x08, 0x95, 0x0E, 0x94, 0, 0, 0xFF, 0xCF]),
    (
        &[WEAK, CALL, STRONG],
        &[0x08, 0x95, 0x0E, 0x94, 3, 0, 0x08, 0x95],
    ),
    (
        &[WEAK, CALL, WEAK],
        &[0x08, 0x95, 0x0E, 0x94, 0, 0, 0x08, 0x95],
    ),
    (
        &[STRONG, CALL, WEAK],
        &[0x08, 0x95, 0x0E, 0x94, 0, 0, 0x08, 0x95],
    ),
    (
        &[CALL, WEAK, WEAK],
        &[0x0E, 0x94, 2, 0, 0x08, 0x95, 0x08, 0x95],
    ),
    (
        &[RETURN, WEAK_CALL, RETURN],
        &[0x08, 0x95, 0x0E, 0x94, 0, 0, 0x08, 0x95],
    ),
    (
        &[WEAK, WEAK_CALL, STRONG],
        &[0x08, 0x95, 0x0E, 0x94, 3, 0, 0x08, 0x95],
    ),
];

const FAULTS: [Refused; 6] = [
    (&[JUMP], Undefined(0, 0, 16)),
    (&[RETURN, CALL, RETURN], Undefined(1, 0, 20)),
    (&[STRONG, CALL, STRONG], Duplicate(20, 0, 2)),
    (&[STRONG, TWO_CALLS, STRONG], Duplicate(20, 0, 2)),
    (&[WEAK, TWO_CALLS, STRONG], Undefined(1, 1, 99)),
    (&[STRONG, STRONG, STRONG, CALL], Duplicate(20, 0, 1)),
];

fn has_image(alloc: Global, row: &Image) -> Result<bool, Fail> {
    let (set, want) = *row;
    match linked(alloc, set)? {
        Ok(image) => Ok(image.as_slice() == want),
        Err(_) => Ok(false),
    }
}

// The first of these sets that has another image, or none.
fn first_unlike(alloc: Global, rows: &[Image]) -> Result<Option<usize>, Fail> {
    for (i, row) in rows.iter().enumerate() {
        if !has_image(alloc, row)? {
            return Ok(Some(i));
        }
    }
    Ok(None)
}

// The first of these sets that has an image, or has none for another cause.
fn first_other(alloc: Global, rows: &[Refused]) -> Result<Option<usize>, Fail> {
    for (i, (set, want)) in rows.iter().enumerate() {
        if fault(alloc, set)? != Some(*want) {
            return Ok(Some(i));
        }
    }
    Ok(None)
}

#[test]
fn worked_images(rt: HostRuntime) -> Result<(), Fail> {
    assert_eq!(rt; first_unlike(rt.alloc(), &IMAGES)?, None);
    Ok(())
}

#[test]
fn worked_faults(rt: HostRuntime) -> Result<(), Fail> {
    assert_eq!(rt; first_other(rt.alloc(), &FAULTS)?, None);
    Ok(())
}

// Words of data that say each of the component's own bases and each linker symbol.
const WORDS: Part<'static> = Part {
    init: &[0; 22],
    bss: 6,
    relocs: &[
        (0, 1, 4, 0, 0),
        (2, 1, 4, 1, 0),
        (4, 1, 4, 2, 0),
        (6, 1, 4, 3, 0),
        (8, 1, 4, 4, 0),
        (10, 1, 4, 5, 0),
        (12, 1, 4, 6, 0),
        (14, 1, 4, 7, 0),
        (16, 1, 4, 8, 0),
        (18, 1, 4, 9, 0),
        (20, 1, 4, 10, 7),
    ],
    ..RETURN
};

const BEFORE: Part<'static> = Part {
    code: &[0x0E, 0x94, 0, 0],
    init: &[1, 2],
    bss: 8,
    exports: &[(16, 3, 0x1234), (17, 1, 2), (18, 2, 4)],
    relocs: &[(0, 0, 18, 16, -4)],
};

const SYMBOLS: Part<'static> = Part {
    init: &[0; 4],
    relocs: &[(0, 1, 4, 17, -1), (2, 1, 4, 18, 1)],
    ..NOTHING
};

const TARGETS: [Image; 2] = [
    (
        &[WORDS],
        &[
            0x08, 0x95, 0, 0, 0, 1, 0x16, 1, 0, 1, 0x16, 1, 2, 0, 0x16, 1, 0x1C, 1, 0x1C, 1, 0xFF,
            0x10, 7, 0,
        ],
    ),
    // All code, all data in order; the data of WORDS is now at 0x800102, its bss at 0x800124.
    (
        &[BEFORE, WORDS, SYMBOLS],
        &[
            0x0E, 0x94, 0x18, 9, 0x08, 0x95, 1, 2, 4, 0, 2, 1, 0x24, 1, 0, 1, 0x1C, 1, 6, 0, 0x1C,
            1, 0x2A, 1, 0x2A, 1, 0xFF, 0x10, 7, 0, 1, 1, 0x21, 1,
        ],
    ),
];

#[test]
fn targets(rt: HostRuntime) -> Result<(), Fail> {
    assert_eq!(rt; first_unlike(rt.alloc(), &TARGETS)?, None);
    Ok(())
}

// Code whose call begins in the first page and ends in the second.
fn code_over_a_page(alloc: Global) -> Result<Vec<u8>, AllocError> {
    let mut code = vec![in alloc; 0; 260]?;
    change(&mut code, &[(0xFE, 0x0E), (0xFF, 0x94)]);
    Ok(code)
}

fn is_called_over_a_page(alloc: Global, code: &[u8]) -> Result<bool, Fail> {
    let part = Part {
        code,
        init: &[],
        bss: 0,
        exports: &[],
        relocs: &[(0xFE, 0, 18, 0, 0x1234)],
    };
    match linked(alloc, &[part])? {
        Ok(image) => Ok(image.get(0xFE..0x102) == Some([0x0E, 0x94, 0x1A, 9].as_slice())),
        Err(_) => Ok(false),
    }
}

#[test]
fn a_field_over_a_page(rt: HostRuntime) -> Result<(), Fail> {
    let code = code_over_a_page(rt.alloc())?;
    assert!(rt; is_called_over_a_page(rt.alloc(), &code)?);
    Ok(())
}

// At 0 what is named, at 4 what comes besides; a jump of 13 bits at most 4,094 bytes ahead.
const JUMPS: Part<'static> = Part {
    code: &[0, 0xC0, 0, 0, 0, 0xC0],
    ..NOTHING
};

const FAR: Part<'static> = Part {
    relocs: &[(0, 0, 3, 0, 5000), (4, 0, 3, 77, 0)],
    ..JUMPS
};

const ODD: Part<'static> = Part {
    relocs: &[(0, 0, 3, 0, 5001), (4, 0, 3, 77, 0)],
    ..JUMPS
};

const UNDEFINED: Part<'static> = Part {
    relocs: &[(0, 0, 3, 77, 0), (4, 0, 3, 0, 5000)],
    ..JUMPS
};

const FAR_AT_LAST: Part<'static> = Part {
    relocs: &[(0, 0, 3, 0, 2), (4, 0, 3, 0, -4094)],
    ..JUMPS
};

// The greater of two symbols is the first to be exported twice.
const BOTH: Part<'static> = Part {
    exports: &[(20, 3, 0), (30, 3, 0)],
    ..NOTHING
};

const GREATER: Part<'static> = Part {
    exports: &[(30, 3, 0)],
    ..NOTHING
};

const LEAST: Part<'static> = Part {
    exports: &[(20, 3, 0)],
    ..NOTHING
};

const CAUSES: [Refused; 8] = [
    (&[FAR], Range(0, 0, RangeFault::TooFar(4998))),
    (&[ODD], Range(0, 0, RangeFault::Odd)),
    (&[UNDEFINED], Undefined(0, 0, 77)),
    (
        &[FAR_AT_LAST, UNDEFINED],
        Range(0, 1, RangeFault::TooFar(-4100)),
    ),
    (&[NOTHING, UNDEFINED, FAR], Undefined(1, 0, 77)),
    (&[BOTH, GREATER, LEAST], Duplicate(20, 0, 2)),
    (&[UNDEFINED, BOTH, LEAST, GREATER], Duplicate(20, 1, 2)),
    (&[FAR, GREATER, GREATER, GREATER], Duplicate(30, 1, 2)),
];

#[test]
fn causes_in_order(rt: HostRuntime) -> Result<(), Fail> {
    assert_eq!(rt; first_other(rt.alloc(), &CAUSES)?, None);
    Ok(())
}
