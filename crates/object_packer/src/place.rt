//! Which part of the package a section belongs to.

ghost use Rattle.std.specs.Prelude.{◌≡◌};
ghost use Rattle.avr_elf.specs.View.{section_parts};
ghost use Rattle.avr_elf.specs.WellFormed.{is_loaded};
ghost use Rattle.object_packer.specs.Parts.{is_left_out, is_refused, is_in_flash, place_of};

use avr_elf::Section;
use avr_elf::constants::{ALLOC, EXECINSTR, NOBITS};
use component_package::Place;

fn is_left_out(name: &[u8]) -> bool
    ensures { result ≡ is_left_out name.now }
{
    name.starts_with(b".eeprom")
        || name.starts_with(b".noinit")
        || name.starts_with(b".init")
        || name.starts_with(b".fini")
        || name.starts_with(b".ctors")
        || name.starts_with(b".dtors")
        || name.starts_with(b".preinit")
        || name.starts_with(b".fuse")
        || name.starts_with(b".lock")
        || name.starts_with(b".signature")
        || name.starts_with(b".user_signatures")
}

fn is_loaded(s: &Section<'_>) -> bool
    ensures { result ≡ is_loaded (section_parts s.now) }
{
    s.flags & ALLOC != 0
}

/// Whether a section is in memory and can't be packed.
pub(crate) fn is_refused(s: &Section<'_>) -> bool
    ensures { result ≡ is_refused (section_parts s.now) }
{
    is_loaded(s) && (is_left_out(s.name) || s.align > 2)
}

fn is_in_flash(s: &Section<'_>) -> bool
    ensures { result ≡ is_in_flash (section_parts s.now) }
{
    s.flags & EXECINSTR != 0
        || s.name.starts_with(b".progmem")
        || s.name.starts_with(b".jumptables")
}

/// The part that a section belongs to; none where it is not in memory.
pub(crate) fn place_of(s: &Section<'_>) -> Option<Place>
    ensures { result ≡ place_of (section_parts s.now) }
{
    if !is_loaded(s) {
        return None;
    }
    if s.kind == NOBITS {
        return Some(Place::Bss);
    }
    if is_in_flash(s) {
        return Some(Place::Code);
    }
    Some(Place::Init)
}
