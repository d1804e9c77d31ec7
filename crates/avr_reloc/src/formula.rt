//! The value of each relocation type, and the patch that puts it into a field.

ghost use Rattle.std.specs.Prelude.{◌≡◌, ◌<◌, ◌≤◌, ◌^◌, IfOk, ℤ, pos, ◌≤ℤ◌, unsigned_abs};
ghost use Rattle.std.specs.Result.{result_err};
ghost use Rattle.avr_reloc.specs.Number.{half_of, remainder_of, byte_of};
ghost use Rattle.avr_reloc.specs.Kind.{shape_of, is_in_range, tested_of, fault_of, value_of, distance_of};
ghost use Rattle.avr_reloc.specs.Field.{keep_of, limit_of, SaysOnly, IsPatchOf, IsPadded, GivesField, GivesBytes, IsNear};

use crate::kind::{RelocType, Shape};
use crate::patch::{Patch, RangeFault};

fn half(v: i64) -> i64
    ensures { result ≡ half_of v }
{
    v.div_euclid(2)
}

fn remainder(v: i64, n: i64) -> u32
    requires some { pos 1 ≤ℤ n }
    requires fits { n ≤ℤ pos (2 ^ 32) }
    ensures value { result ≡ remainder_of v (unsigned_abs n) }
    ensures below { result < unsigned_abs n }
{
    v.rem_euclid(n) as u32
}

/// Byte `index` of a number in two's complement.
fn byte(v: i64, index: u32) -> u32
    requires { index < 4 }
    ensures value { result ≡ byte_of index v }
    ensures below { result < 256 }
{
    let unit = match index {
        0 => 1,
        1 => 1 << 8,
        2 => 1 << 16,
        _ => 1 << 24,
    };
    remainder(v.div_euclid(unit), 256)
}

/// From behind the field's first word to `x`.
fn distance(x: i64, place: i64) -> i64
    requires sum { IsNear x }
    requires place { IsNear place }
    ensures { result ≡ distance_of x place }
{
    x - place - 2
}

/// What has to be even and in range.
fn tested(t: RelocType, x: i64, place: i64) -> i64
    requires sum { IsNear x }
    requires place { IsNear place }
    ensures { result ≡ tested_of t x place }
{
    if t.measures_distance() {
        distance(x, place)
    } else {
        x
    }
}

fn is_in_range(t: RelocType, v: i64) -> bool
    ensures { result ≡ is_in_range t v }
{
    match t {
        RelocType::Rel7 => -128 <= v && v <= 127,
        RelocType::Rel13 => -4096 <= v && v <= 4094,
        RelocType::Abs16 => 0 <= v && v <= 0xFFFF || 0x800000 <= v && v <= 0x80FFFF,
        RelocType::Pm16 | RelocType::Call | RelocType::Lo8Gs | RelocType::Hi8Gs => {
            0 <= v && v <= 131_070
        }
        RelocType::Ldi => -128 <= v && v <= 255,
        RelocType::Six | RelocType::SixAdiw => 0 <= v && v <= 63,
        RelocType::Eight => 0 <= v && v <= 255,
        _ => true,
    }
}

fn fault(t: RelocType, x: i64, place: i64) -> Option<RangeFault>
    requires sum { IsNear x }
    requires place { IsNear place }
    ensures { result ≡ fault_of t x place }
{
    let v = tested(t, x, place);
    if t.needs_even() && remainder(v, 2) == 1 {
        Some(RangeFault::Odd)
    } else if is_in_range(t, v) {
        None
    } else {
        Some(RangeFault::TooFar(v))
    }
}

/// What the value bits say, for S+A `x` at the distance `d`.
fn value(t: RelocType, x: i64, d: i64) -> u32
    requires { IsNear x }
    ensures value { result ≡ value_of t x d }
    ensures below { result < limit_of (shape_of t) }
{
    match t {
        RelocType::Abs32 => remainder(x, 1 << 32),
        RelocType::Rel7 => remainder(half(d), 128),
        RelocType::Rel13 => remainder(half(d), 4096),
        RelocType::Abs16 => remainder(x, 1 << 16),
        RelocType::Pm16 | RelocType::Call => remainder(half(x), 1 << 16),
        RelocType::Lo8 | RelocType::Ldi | RelocType::Eight | RelocType::EightLo => byte(x, 0),
        RelocType::Hi8 | RelocType::EightHi => byte(x, 1),
        RelocType::Hh8 | RelocType::EightHlo => byte(x, 2),
        RelocType::Ms8 => byte(x, 3),
        RelocType::Lo8Neg => byte(-x, 0),
        RelocType::Hi8Neg => byte(-x, 1),
        RelocType::Hh8Neg => byte(-x, 2),
        RelocType::Ms8Neg => byte(-x, 3),
        RelocType::Lo8Pm | RelocType::Lo8Gs => byte(half(x), 0),
        RelocType::Hi8Pm | RelocType::Hi8Gs => byte(half(x), 1),
        RelocType::Hh8Pm => byte(half(x), 2),
        RelocType::Lo8PmNeg => byte(half(-x), 0),
        RelocType::Hi8PmNeg => byte(half(-x), 1),
        RelocType::Hh8PmNeg => byte(half(-x), 2),
        RelocType::Six | RelocType::SixAdiw => remainder(x, 64),
    }
}

/// The bytes that say `v`, with no other bit.
fn spread(shape: Shape, v: u32) -> [u8; 4]
    requires { v < limit_of shape }
    ensures { SaysOnly shape v result }
{
    match shape {
        Shape::Byte => [(v % 256) as u8, 0, 0, 0],
        Shape::Word => [(v % 256) as u8, (v / 256 % 256) as u8, 0, 0],
        Shape::Long => v.to_le_bytes(),
        Shape::Immediate => [(v % 16) as u8, (v / 16 % 16) as u8, 0, 0],
        Shape::Branch => [(v * 8 % 256) as u8, (v / 32 % 4) as u8, 0, 0],
        Shape::Jump => [(v % 256) as u8, (v / 256 % 16) as u8, 0, 0],
        Shape::Call => [0, 0, (v % 256) as u8, (v / 256 % 256) as u8],
        Shape::Displacement => [(v % 8) as u8, (v / 8 % 4 * 4 + v / 32 % 2 * 32) as u8, 0, 0],
        Shape::Adiw => [(v % 16 + v / 16 % 4 * 64) as u8, 0, 0, 0],
    }
}

/// All bits but the value bits.
fn keep(t: RelocType) -> [u8; 4]
    ensures { result ≡ keep_of (shape_of t) }
{
    let mask = t.value_mask();
    [!mask[0], !mask[1], !mask[2], !mask[3]]
}

/// The patch of a field of type `t` at the address `place`, for S+A; or why the field can't hold the
/// value. Both numbers are from -2^40 to 2^40. Over the package's bytes of the field, or over an
/// older patch of them, the patch gives the same bytes.
pub fn patch_of(t: RelocType, s_plus_a: i64, place: i64) -> Result<Patch, RangeFault>
    requires sum { IsNear s_plus_a }
    requires place { IsNear place }
    ensures fault { result_err result ≡ fault_of t s_plus_a place }
    ensures patch { IfOk result (IsPatchOf t s_plus_a place) }
    ensures padded { IfOk result IsPadded }
    ensures field { IfOk result (GivesField t s_plus_a place) }
    ensures bytes { IfOk result (GivesBytes t s_plus_a place) }
{
    if let Some(fault) = fault(t, s_plus_a, place) {
        return Err(fault);
    }
    let value = value(t, s_plus_a, distance(s_plus_a, place));
    Ok(Patch {
        width: t.width(),
        keep: keep(t),
        set: spread(t.shape(), value),
    })
}
