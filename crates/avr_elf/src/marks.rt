//! Which sections are patched already, in a table on the stack: so that a second table of relocations
//! for one section is found in one pass.

ghost use Rattle.std.specs.Prelude.{◌≡◌, ◌<◌, ℕ, ◌||◌, ◌&&◌, ◌==◌, false, length, slice_index_or};
ghost use Rattle.avr_elf.specs.declared.constants.TheConstants.{RELA};

use crate::constants::RELA;
use crate::header::SectionHeader;

/// One more than the greatest number of sections that a file of at most 1,048,576 bytes has.
const MAX_SECTIONS: usize = 26_214;

/// No section is marked.
pub fn no_marks() -> [bool; MAX_SECTIONS]
    ensures length { length result ≡ 26214 }
    ensures none { (k : ℕ) → slice_index_or result k false ≡ false }
{
    [false; MAX_SECTIONS]
}

/// Whether section `k` is marked.
pub fn is_marked(marks: &[bool], k: u32) -> bool
    ensures { result ≡ slice_index_or marks.now k false }
{
    match marks.get(k as usize) {
        Some(mark) => *mark,
        None => false,
    }
}

/// Marks the section that a table of relocations patches.
pub fn mark_patched(marks: &mut [bool], table: &SectionHeader)
    ensures { (k : ℕ) → k < length marks.old
        → slice_index_or marks.new k false ≡ (slice_index_or marks.old k false || (table.now.kind == RELA && table.now.info == k)) }
{
    let k = table.info as usize;
    if table.kind == RELA && k < marks.len() {
        marks[k] = true;
    }
}
