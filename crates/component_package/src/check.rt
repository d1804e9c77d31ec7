//! The checks of one export and of one relocation.

ghost use Rattle.std.specs.Prelude.{◌≡◌};
ghost use Rattle.std.specs.Option.{option_copied};
ghost use Rattle.component_package.specs.packages.Reading.{place_of, length_of, is_above, check_export_of, has_place_byte, is_inside, is_aligned, has_place, begins_after, is_behind, has_target, is_clear, reloc_with, check_reloc_of, field_at, field_span_of};

use crate::fault::PackageFault;
use crate::header::u16_in;
use crate::part::{Export, Header, Place, Reloc};
use avr_reloc::RelocType;

pub(crate) fn place(n: u8) -> Option<Place>
    ensures { result ≡ place_of n }
{
    match n {
        0 => Some(Place::Code),
        1 => Some(Place::Init),
        2 => Some(Place::Bss),
        3 => Some(Place::Absolute),
        _ => None,
    }
}

fn length_of(h: &Header, place: Place) -> u16
    ensures { result ≡ length_of h.now place }
{
    match place {
        Place::Code => h.code,
        Place::Init => h.init,
        Place::Bss => h.bss,
        Place::Absolute => u16::MAX,
    }
}

fn is_above(before: Option<u16>, symbol: u16) -> bool
    ensures { result ≡ is_above before symbol }
{
    match before {
        None => true,
        Some(s) => s < symbol,
    }
}

/// The export `i` that six bytes of a package spell, where `before` is the former export's symbol; or their first fault.
pub fn check_export(
    h: &Header,
    before: Option<u16>,
    i: u16,
    raw: &[u8; 6],
) -> Result<Export, PackageFault>
    ensures { result ≡ check_export_of h.now before i raw.now }
{
    let symbol = u16_in(raw, 0);
    if symbol < 16 || !is_above(before, symbol) {
        return Err(PackageFault::ExportOrder(i));
    }
    let value = u16_in(raw, 4);
    match place(raw[2] % 128) {
        Some(place) if raw[3] == 0 && value <= length_of(h, place) => Ok(Export {
            symbol,
            place,
            weak: 128 <= raw[2],
            value,
        }),
        _ => Err(PackageFault::ExportPlace(i)),
    }
}

fn has_place_byte(raw: &[u8; 8]) -> bool
    ensures { result ≡ has_place_byte raw.now }
{
    raw[2] % 128 < 2
}

// Where the field begins is below 2^16, so its end fits 32 bits.
fn is_inside(h: &Header, r: &Reloc) -> bool
    ensures { result ≡ is_inside h.now r.now }
{
    let part = if r.in_init { h.init } else { h.code };
    r.offset as u32 + r.kind.width() as u32 <= part as u32
}

fn is_aligned(r: &Reloc) -> bool
    ensures { result ≡ is_aligned r.now }
{
    !r.kind.is_instruction() || r.offset % 2 == 0
}

fn has_place(h: &Header, raw: &[u8; 8], r: &Reloc) -> bool
    ensures { result ≡ has_place h.now raw.now r.now }
{
    has_place_byte(raw) && is_inside(h, r) && is_aligned(r)
}

fn begins_after(former: &Reloc, r: &Reloc) -> bool
    ensures { result ≡ begins_after former.now r.now }
{
    former.offset as u32 + former.kind.width() as u32 <= r.offset as u32
}

fn is_behind(before: Option<&Reloc>, r: &Reloc) -> bool
    ensures { result ≡ is_behind (option_copied before.entry) r.now }
{
    match before {
        None => true,
        Some(former) if former.in_init => r.in_init && begins_after(former, r),
        Some(former) => r.in_init || begins_after(former, r),
    }
}

fn has_target(r: &Reloc) -> bool
    ensures { result ≡ has_target r.now }
{
    16 <= r.target || (r.target <= 10 && !r.weak)
}

fn is_clear(kind: RelocType, field: &[u8; 4]) -> bool
    ensures { result ≡ is_clear kind field.now }
{
    let mask = kind.value_mask();
    field[0] & mask[0] == 0
        && field[1] & mask[1] == 0
        && field[2] & mask[2] == 0
        && field[3] & mask[3] == 0
}

pub(crate) fn reloc_with(raw: &[u8; 8], kind: RelocType) -> Reloc
    ensures { result ≡ reloc_with raw.now kind }
{
    Reloc {
        offset: u16_in(raw, 0),
        in_init: raw[2] % 128 == 1,
        weak: 128 <= raw[2],
        kind,
        target: u16_in(raw, 4),
        addend: i16::from_le_bytes([raw[6], raw[7]]),
    }
}

/// The relocation `i` that eight bytes of a package spell, where `before` is the former relocation; or their first fault.
///
/// `field` is the bytes that [`field_span`] names, with zeros up to four. It counts only where nothing else is wrong.
pub fn check_reloc(
    h: &Header,
    before: Option<&Reloc>,
    i: u16,
    raw: &[u8; 8],
    field: &[u8; 4],
) -> Result<Reloc, PackageFault>
    ensures { result ≡ check_reloc_of h.now (option_copied before.entry) i raw.now field.now }
{
    let Some(kind) = RelocType::of_number(raw[3]) else {
        return Err(PackageFault::RelocKind(i));
    };
    let r = reloc_with(raw, kind);
    if !has_place(h, raw, &r) {
        return Err(PackageFault::RelocPlace(i));
    }
    if !is_behind(before, &r) {
        return Err(PackageFault::RelocOrder(i));
    }
    if !has_target(&r) {
        return Err(PackageFault::Target(i));
    }
    if !is_clear(kind, field) {
        return Err(PackageFault::FieldNotZero(i));
    }
    Ok(r)
}

fn field_at(h: &Header, r: &Reloc) -> u32
    ensures { result ≡ field_at h.now r.now }
{
    let part = if r.in_init { h.code } else { 0 };
    32 + part as u32 + r.offset as u32
}

/// Where in the package the field of a relocation begins, and how many bytes it has (1 to 4), where it lies in its part.
pub fn field_span(h: &Header, raw: &[u8; 8]) -> Option<(u32, u8)>
    ensures { result ≡ field_span_of h.now raw.now }
{
    let kind = RelocType::of_number(raw[3])?;
    let r = reloc_with(raw, kind);
    if has_place_byte(raw) && is_inside(h, &r) {
        Some((field_at(h, &r), kind.width()))
    } else {
        None
    }
}
