//! The fields of the relocation list that lie in one page.

ghost use Rattle.std.specs.Prelude.{◌≡◌, ◌<◌, ◌≤◌, ◌+◌, ◌*◌, ◌^◌, ◌==◌, ℕ, List, IfOk, IfSome, OnOk, Some, None, pos, length, slice_get, slice_index, bit_and, bit_or, if◌then◌else◌};
ghost use Rattle.std.specs.List.{AllByRecursion};
ghost use Rattle.flash_pages.specs.State.{State};
ghost use Rattle.flash_pages.specs.Board.{View, Reads, Told, FlashFaults};
ghost use Rattle.avr_reloc.specs.declared.fixup.Fixup.{Fixup};
ghost use Rattle.avr_reloc.specs.Kind.{fault_of};
ghost use Rattle.avr_reloc.specs.Field.{AreBytes};
ghost use Rattle.avr_reloc.specs.Fixups.{end_of, CanBePut};
ghost use Rattle.component_package.specs.link.Areas.{IsEntry, FieldsRise, Lists};
ghost use Rattle.component_package.specs.link.Pages.{ArePatched, padded};
ghost use Rattle.kept_relocs.specs.List.{list_area, before, KeepsList};
ghost use Rattle.kept_stage.specs.Windows.{byte_in, PatchesWindow, ArePassed};

use avr_reloc::{Fixup, Patch, patch_of};
use flash_pages::{Board, Failed};
use kept_relocs::{ListReader, read_entry};

// Puts one byte of a patch, where its place is in the 256 bytes from `base` on.
fn put_byte(page: &mut [u8; 256], base: u32, at: u32, patch: &Patch, i: u8)
    requires narrow { patch.now.width ≤ 4 }
    requires inside { i < patch.now.width }
    requires base { base < 2 ^ 17 }
    ensures { (k : ℕ) → k < 256 →
        slice_index page.new k ≡ if base + k == at then bit_or (bit_and (slice_index page.old k)
        (slice_index patch.now.keep i)) (slice_index patch.now.set i) else slice_index page.old k }
{
    if at < base {
        return;
    }
    if at - base >= 256 {
        return;
    }
    let k = (at - base) as usize;
    page[k] = patch.byte(i, page[k]);
}

// Puts the bytes of a patch of a field at `place`, as far as they lie in the 256 bytes from `base` on.
fn put_bytes(page: &mut [u8; 256], base: u32, place: u32, patch: Patch)
    requires narrow { patch.width ≤ 4 }
    requires base { base < 2 ^ 17 }
    requires place { place < 2 ^ 24 }
    ensures { (k : ℕ) → k < 256 →
        slice_index page.new k ≡ byte_in patch.keep patch.set place patch.width (base + k)
        (slice_index page.old k) }
{
    for i in 0..patch.width {
        put_byte(page, base, place + i as u32, &patch, i);
    }
}

// Patches what of one field lies in the 256 bytes from `base` on. A field that can't hold its value stays as it is.
fn put_part(page: &mut [u8; 256], base: u32, x: &Fixup)
    requires entry { IsEntry x.now }
    requires base { base < 2 ^ 17 }
    ensures { fault_of x.now.kind x.now.s_plus_a (pos x.now.place) ≡ None →
        PatchesWindow x.now base page.old page.new }
{
    match patch_of(x.kind, x.s_plus_a, x.place as i64) {
        Ok(patch) => put_bytes(page, base, x.place, patch),
        Err(_) => {}
    }
}

// Where a field ends.
fn end_of(x: &Fixup) -> u32
    requires { IsEntry x.now }
    ensures { result ≡ end_of x.now }
{
    x.place + x.kind.width() as u32
}

// Entry `i` of the list, where its field begins below `end`.
fn entry_before<B: Board>(
    board: &mut B,
    list: &mut ListReader,
    i: u16,
    end: u32,
) -> Result<Option<Fixup>, Failed>
    requires { i < 8192 }
    ensures entry { IfOk result (λ o. Told (B.view board.old) (λ s. KeepsList s list.old →
        (xs : List Fixup) → Lists (list_area s) xs → o ≡ before end (slice_get xs i))) }
    ensures room { IfOk result (λ o. IfSome o IsEntry) }
    ensures keeps { OnOk result (Told (B.view board.old) (λ s. KeepsList s list.old →
        KeepsList s list.new)) }
    ensures reads { Reads (B.view board.old) (B.view board.new) }
    ensures faults { FlashFaults result (B.view board.old) (B.view board.new) }
{
    let Ok(entry) = read_entry(board, list, i) else {
        return Err(Failed);
    };
    match entry {
        None => Ok(None),
        Some(x) => { if x.place < end { Ok(Some(x)) } else { Ok(None) } }
    }
}

// The entry behind entry `i` where that one's field ends at or below `end`, else the entry that was reached so far.
fn passed_to(next: u16, i: u16, x: &Fixup, end: u32) -> u16
    requires entry { IsEntry x.now }
    requires i { i < 8192 }
    ensures low { next ≤ 8192 → result ≤ 8192 }
    ensures passed { (xs : List Fixup) → FieldsRise 0 xs → slice_get xs i ≡ Some x.now →
        ArePassed xs end next → ArePassed xs end result }
{
    let ends = end_of(x);
    if ends <= end {
        return i + 1;
    }
    next
}

/// Patches those fields of the list in the page of 256 bytes from `base` on that lie in it whole or in part, from entry `first` on. It answers an entry before
/// which no field reaches the next page. An entry that can't be patched is passed over.
pub(crate) fn patch_page<B: Board>(
    board: &mut B,
    list: &mut ListReader,
    first: u16,
    base: u32,
    into: &mut [u8; 256],
) -> Result<u16, Failed>
    requires base { base < 122880 }
    requires first { first ≤ 8192 }
    ensures next { IfOk result (λ next. next ≤ 8192) }
    ensures passed { IfOk result (λ next. Told (B.view board.old) (λ s. KeepsList s list.old →
        (xs : List Fixup) → Lists (list_area s) xs → ArePassed xs base first →
        ArePassed xs (base + 256) next)) }
    ensures page { OnOk result (Told (B.view board.old) (λ s. KeepsList s list.old →
        (xs : List Fixup) (plain whole : List ℕ) → Lists (list_area s) xs →
        ArePassed xs base first → AllByRecursion (CanBePut (length plain)) xs → AreBytes plain →
        AreBytes whole → ArePatched xs plain whole → ((k : ℕ) → k < 256 →
        slice_index into.old k ≡ slice_index (padded plain) (base + k)) → ((k : ℕ) → k < 256 →
        slice_index into.new k ≡ slice_index whole (base + k)))) }
    ensures keeps { OnOk result (Told (B.view board.old) (λ s. KeepsList s list.old →
        KeepsList s list.new)) }
    ensures reads { Reads (B.view board.old) (B.view board.new) }
    ensures faults { FlashFaults result (B.view board.old) (B.view board.new) }
{
    let mut next = first;
    for i in first..8192 {
        let Ok(entry) = entry_before(board, list, i, base + 256) else {
            return Err(Failed);
        };
        match entry {
            None => return Ok(next),
            Some(x) => {
                put_part(into, base, &x);
                next = passed_to(next, i, &x, base + 256);
            }
        }
    }
    Ok(next)
}
