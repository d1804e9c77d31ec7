//! Where the components of an installed set stand in program flash: all code in the release's order, and behind it all data.

ghost use Rattle.std.specs.Prelude.{◌≡◌, ◌↔◌, ◌+◌, ◌*◌, ◌≤◌, ◌<◌, ℕ, IsTrue, false, replicate, take, slice_index};
ghost use Rattle.std.specs.List.{sum_by};
ghost use Rattle.kept_manifests.specs.Slots.{IsSlotManifest};
ghost use Rattle.component_store.specs.Sets.{AreHeaders, IsHeaderOf};
ghost use Rattle.kept_store.specs.Sets.{IsSet, HasNoFresh};
ghost use Rattle.kept_store.specs.Open.{FitsFlash, IsAtRest};

use crate::set::{NO_ENTRY, StoredSet};
use component_package::limits::IMAGE_BYTES;
use component_package::{Entry, Header, Manifest};
use kept_manifests::SlotManifest;

// Whether a header has even lengths and gives the entry's length.
fn fits(h: &Header, e: &Entry) -> bool
    ensures { IsTrue result ↔ IsHeaderOf h.now e.now }
{
    h.code % 2 == 0 && h.init % 2 == 0 && h.bss % 2 == 0 && h.total() == e.length as u32
}

// Whether the first headers are those of the entries.
fn fit_all(m: &Manifest, headers: &[Header; 16]) -> bool
    requires { m.now.count ≤ 16 }
    ensures { IsTrue result ↔ AreHeaders m.now m.now.count headers.now }
{
    for k in 0..m.count {
        if !fits(&headers[k as usize], &m.entries[k as usize]) {
            return false;
        }
    }
    true
}

// Places of parts, one behind the other, and where the last one ends.
#[derive(Drop)]
struct Places {
    at: [u32; 16],
    end: u32,
}

// Where the code of each component begins.
fn code_places(headers: &[Header; 16], count: u8) -> Places
    requires { count ≤ 16 }
    ensures at { (k : ℕ) → k < count → slice_index result.at k ≡ sum_by (λ h. h.code) (take k headers.now) }
    ensures end { result.end ≡ sum_by (λ h. h.code) (take count headers.now) }
    ensures low { result.end ≤ 65535 * count }
{
    let mut at = [0; 16];
    let mut end = 0;
    for k in 0..count {
        at[k as usize] = end;
        end += headers[k as usize].code as u32;
    }
    Places { at, end }
}

// Where the data of each begins, behind all code.
fn init_places(headers: &[Header; 16], count: u8, start: u32) -> Places
    requires count { count ≤ 16 }
    requires start { start ≤ 65535 * 16 }
    ensures at { (k : ℕ) → k < count → slice_index result.at k ≡ start + sum_by (λ h. h.init) (take k headers.now) }
    ensures end { result.end ≡ start + sum_by (λ h. h.init) (take count headers.now) }
{
    let mut at = [0; 16];
    let mut end = start;
    for k in 0..count {
        at[k as usize] = end;
        end += headers[k as usize].init as u32;
    }
    Places { at, end }
}

fn no_marks() -> [bool; 16]
    ensures { result ≡ replicate 16 false }
{
    [false; 16]
}

// The manifest with no entry marked fresh.
fn unmarked(m: &SlotManifest) -> SlotManifest
    ensures { result ≡ record m.now { fresh = replicate 16 false } }
{
    let slots = m.slots;
    SlotManifest {
        manifest: m.manifest,
        slots,
        fresh: no_marks(),
    }
}

// The release with no components.
fn empty_set(headers: &[Header; 16]) -> StoredSet
    ensures set { IsSet result }
    ensures rests { HasNoFresh result }
{
    let manifest = Manifest {
        release: 0,
        count: 0,
        entries: [NO_ENTRY; 16],
    };
    let slots = SlotManifest {
        manifest,
        slots: [0; 16],
        fresh: [false; 16],
    };
    StoredSet {
        slots,
        headers: *headers,
        code_at: [0; 16],
        init_at: [0; 16],
    }
}

// The set of an installed release with these headers, or the empty one where they don't fit it.
pub(crate) fn installed_set(m: &SlotManifest, headers: &[Header; 16]) -> StoredSet
    requires { IsSlotManifest m.now }
    ensures set { IsSet result }
    ensures rests { HasNoFresh result }
    ensures whole { AreHeaders m.now.manifest m.now.manifest.count headers.now →
        FitsFlash m.now.manifest.count headers.now → IsAtRest m.now headers.now result }
{
    if !fit_all(&m.manifest, headers) {
        return empty_set(headers);
    }
    let Places { at: code_at, end } = code_places(headers, m.manifest.count);
    let Places { at: init_at, end } = init_places(headers, m.manifest.count, end);
    if end > IMAGE_BYTES {
        return empty_set(headers);
    }
    StoredSet {
        slots: unmarked(m),
        headers: *headers,
        code_at,
        init_at,
    }
}
