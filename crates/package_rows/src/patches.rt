//! Worked rows of the AVR tools' fields, and the ends of each range.

use avr_reloc::RangeFault::{Odd, TooFar};
use avr_reloc::RelocType::{
    Abs16, Call, Eight, Hi8Gs, Ldi, Lo8, Lo8Gs, Pm16, Rel7, Rel13, Six, SixAdiw,
};
use avr_reloc::{Fixup, RangeFault, RelocType, patch_of, put_all, put_fixup};
use std::test::Fail;

/// What becomes of four bytes of an image whose field begins with the first. They are written as one
/// number in their order.
fn patched(t: RelocType, x: i32, place: u16, old: u32) -> Result<u32, RangeFault> {
    let patch = patch_of(t, x as i64, place as i64)?;
    let mut bytes = old.to_be_bytes();
    for i in 0..patch.width {
        bytes[i as usize] = patch.byte(i, bytes[i as usize]);
    }
    Ok(u32::from_be_bytes(bytes))
}

/// A type, S+A, the field's place, four bytes, and what becomes of them.
type Row = (RelocType, i32, u16, u32, Result<u32, RangeFault>);

const FIELDS: [Row; 14] = [
    (Call, 0x1234, 0, 0x0E94_0000, Ok(0x0E94_1A09)),
    (Call, 0x1234, 0, 0xFF95_FFFF, Ok(0x0E94_1A09)),
    (Lo8, 0x34, 0, 0x80E0_AABB, Ok(0x84E3_AABB)),
    (Rel13, 0xFE, 0x100, 0x00C0_0000, Ok(0xFECF_0000)),
    (Rel13, 4096, 0, 0x00C0_0000, Ok(0xFFC7_0000)),
    (Rel13, 4098, 0, 0x00C0_0000, Err(TooFar(4096))),
    (Rel13, 0, 4094, 0x00C0_0000, Ok(0x00C8_0000)),
    (Rel13, 0, 4096, 0x00C0_0000, Err(TooFar(-4098))),
    (Rel13, 3, 0, 0x00C0_0000, Err(Odd)),
    (Rel7, 128, 0, 0x01F4_0000, Ok(0xF9F5_0000)),
    (Rel7, 130, 0, 0x01F4_0000, Err(TooFar(128))),
    (Six, 63, 0, 0x8081_0000, Ok(0x87AD_0000)),
    (Six, 64, 0, 0x8081_0000, Err(TooFar(64))),
    (SixAdiw, 63, 0, 0x0096_0000, Ok(0xCF96_0000)),
];

fn fields() -> &'static [Row] {
    &FIELDS
}

fn is_patched(row: &Row) -> bool {
    let (t, x, place, old, want) = row;
    patched(*t, *x, *place, *old) == *want
}

// The first of these rows whose bytes become others, or whose fault is another.
fn first_other(rows: &[Row]) -> Option<usize> {
    for (i, row) in rows.iter().enumerate() {
        if !is_patched(row) {
            return Some(i);
        }
    }
    None
}

#[test]
fn fields_of_instructions(rt: HostRuntime) -> Result<(), Fail> {
    assert_eq!(rt; first_other(fields()), None);
    Ok(())
}

/// A type, its least and greatest S+A at place 200, and the step to the next number it may hold.
type Range = (RelocType, i32, i32, i32);

const RANGES: [Range; 12] = [
    (Rel7, 74, 328, 2),
    (Rel13, -3894, 4296, 2),
    (Abs16, 0, 0xFFFF, 1),
    (Abs16, 0x800000, 0x80FFFF, 1),
    (Pm16, 0, 131_070, 2),
    (Call, 0, 131_070, 2),
    (Ldi, -128, 255, 1),
    (Six, 0, 63, 1),
    (SixAdiw, 0, 63, 1),
    (Lo8Gs, 0, 131_070, 2),
    (Hi8Gs, 0, 131_070, 2),
    (Eight, 0, 255, 1),
];

fn ranges() -> &'static [Range] {
    &RANGES
}

fn is_in_range(t: RelocType, x: i32) -> bool {
    patched(t, x, 200, 0).is_ok()
}

fn is_too_far(t: RelocType, x: i32) -> bool {
    matches!(patched(t, x, 200, 0), Err(TooFar(_)))
}

fn ends_there(range: &Range) -> bool {
    let (t, least, greatest, step) = *range;
    is_in_range(t, least)
        && is_in_range(t, greatest)
        && is_too_far(t, i32::wrapping_sub(least, step))
        && is_too_far(t, i32::wrapping_add(greatest, step))
}

// The first of these ranges that has other ends.
fn first_other_range(rows: &[Range]) -> Option<usize> {
    for (i, range) in rows.iter().enumerate() {
        if !ends_there(range) {
            return Some(i);
        }
    }
    None
}

#[test]
fn ends_of_ranges(rt: HostRuntime) -> Result<(), Fail> {
    assert_eq!(rt; first_other_range(ranges()), None);
    Ok(())
}

#[test]
fn numbers_and_masks(rt: HostRuntime) -> Result<(), Fail> {
    assert_eq!(rt; RelocType::of_number(0), None);
    assert_eq!(rt; RelocType::of_number(18), Some(RelocType::Call));
    assert_eq!(rt; RelocType::of_number(30), None);
    assert_eq!(rt; RelocType::EightHlo.number(), 29);
    assert_eq!(rt; RelocType::Call.value_mask(), [0xF1, 0x01, 0xFF, 0xFF]);
    assert_eq!(rt; RelocType::Abs16.width(), 2);
    assert!(rt; RelocType::Six.is_instruction() && !RelocType::Abs16.is_instruction());
    assert_eq!(rt; RangeFault::TooFar(64).number(), 2);
    Ok(())
}

// Fields of the image: a call at 1, the low byte of a number at 5, and a call of an odd place.
const CALL: Fixup = Fixup {
    place: 1,
    kind: Call,
    s_plus_a: 0x1234,
};

const LOW: Fixup = Fixup {
    place: 5,
    kind: Lo8,
    s_plus_a: 0x34,
};

const ODD_CALL: Fixup = Fixup {
    s_plus_a: 3,
    ..CALL
};

const PATCHED: [u8; 8] = [0xFF, 0x0E, 0x94, 0x1A, 0x09, 0x84, 0xE3, 0xFF];

#[test]
fn images(rt: HostRuntime) -> Result<(), Fail> {
    let mut image = [0xFF, 0x0E, 0x94, 0, 0, 0x80, 0xE0, 0xFF];
    put_all(&mut image, &[CALL, LOW]);
    assert_eq!(rt; image, PATCHED);
    assert_eq!(rt; put_fixup(&mut image, &ODD_CALL), Err(Odd));
    assert_eq!(rt; put_fixup(&mut image, &LOW), Ok(()));
    assert_eq!(rt; image, PATCHED);
    Ok(())
}
