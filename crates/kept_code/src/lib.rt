//! Clearing the value bits of fields in bytes of a part, as a reader of an installed component's part does.
#![tactic(auto)]

ghost use Rattle.std.specs.Prelude.{◌≡◌, ◌∷◌, [], ◌+◌, ◌<◌, ◌≤◌, ◌^◌, ◌&&◌, length, take, slice_index, bit_and, nat_le, nat_lt};
ghost use Rattle.component_package.specs.packages.Reading.{list_of, reloc_end};
ghost use Rattle.kept_definitions.specs.Runs.{is_in_part, has_field_at, bits_kept};
ghost use Rattle.kept_code.specs.Clear.{AreOfComponent, cleared_from};

use component_package::Reloc;

// Whether a relocation stands in data, or in code.
fn is_in_part(r: &Reloc, in_init: bool) -> bool
    ensures { result ≡ is_in_part in_init r.now }
{
    if in_init { r.in_init } else { !r.in_init }
}

// Whether byte `at` of that part lies in its field.
fn has_field_at(r: &Reloc, in_init: bool, at: u32) -> bool
    ensures { result ≡ has_field_at in_init at r.now }
{
    is_in_part(r, in_init) && r.offset as u32 <= at && at < r.offset as u32 + r.kind.width() as u32
}

// The bits of byte `at` that its field's value doesn't take.
fn bits_kept(r: &Reloc, in_init: bool, at: u32) -> u8
    ensures { result ≡ bits_kept in_init (r.now ∷ []) at }
{
    if has_field_at(r, in_init, at) {
        let mask = r.kind.value_mask();
        return 255 - mask[(at - r.offset as u32) as usize];
    }
    255
}

/// Clears the value bits of one relocation's field in bytes of a part, from byte `from` of the part on.
pub fn clear_field(into: &mut [u8], from: u32, in_init: bool, r: &Reloc)
    requires { from + length into.old < 2 ^ 32 }
    ensures { into.new ≡ cleared_from from in_init (r.now ∷ []) into.old }
{
    for i in 0..into.len() {
        into[i] &= bits_kept(r, in_init, from + i as u32);
    }
}

/// Clears those of all relocations of a component.
pub fn clear_fields(into: &mut [u8], from: u32, in_init: bool, relocs: &[Reloc])
    requires within { from + length into.old < 2 ^ 32 }
    requires component { AreOfComponent relocs.now }
    ensures { into.new ≡ cleared_from from in_init relocs.now into.old }
{
    for r in relocs {
        clear_field(into, from, in_init, r);
    }
}
