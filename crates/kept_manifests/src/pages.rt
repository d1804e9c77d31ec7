//! The five pages of a stored release.

ghost use Rattle.std.specs.Prelude.{All, ◌≡◌, ◌==◌, ◌↔◌, ◌+◌, ◌*◌, ◌<◌, ◌≤◌, ◌++◌, ◌∷◌, [], is_none, is_some, IsTrue, IfSome, IfNone, length, replicate, slice_range, if◌then◌else◌};
ghost use Rattle.std.specs.List.{concat};
ghost use Rattle.avr_reloc.specs.Field.{AreBytes};
ghost use Rattle.component_package.specs.packages.Numbers.{u32_at, u32_bytes};
ghost use Rattle.component_package.specs.packages.Reading.{first_fault, list_of};
ghost use Rattle.kept_definitions.specs.Stored.{StoredRelease, Stores, stored_bytes, placed_bytes, placed_at};
ghost use Rattle.kept_manifests.specs.Slots.{IsSlotManifest, stored_of};
ghost use Rattle.kept_manifests.specs.Steps.{is_place, place_fault, block_of};

use crate::entries::{entry_array, entry_fault, entry_in, front_array, put, u32_in};
use component_package::{Entry, Manifest};
use kept_definitions::areas::LAYOUT;

/// A manifest with the slot of each entry, as a side of external flash keeps it.
#[derive(Clone, Copy, Debug, PartialEq, Eq)]
pub struct SlotManifest {
    /// The manifest.
    pub manifest: Manifest,
    /// The slot of each entry, below 16: the inbox slot of its package while it comes in, and the table slot of its run. Those from the
    /// count on mean nothing.
    pub slots: [u8; 16],
    /// Whether each entry comes in with this release, so that its package is in the inbox until the release is installed. Those from the
    /// count on mean nothing.
    pub fresh: [bool; 16],
}

const NO_ENTRY: Entry = Entry {
    component: 0,
    version: 0,
    length: 0,
    digest: [0; 32],
};

// The byte that says whether an entry is fresh.
fn mark(is_fresh: bool) -> u8
    ensures { result ≡ (if is_fresh then 1 else 0) }
{
    if is_fresh { 1 } else { 0 }
}

// The 64 bytes of an entry with its slot and its mark.
fn placed_array(e: &Entry, slot: u8, is_fresh: bool) -> [u8; 64]
    ensures { result ≡ placed_bytes (record { entry = e.now; slot = slot; fresh = is_fresh }) }
{
    let mut bytes = [0; 64];
    put(&mut bytes, 0, &entry_array(e));
    bytes[38] = slot;
    bytes[39] = mark(is_fresh);
    bytes
}

fn no_place() -> [u8; 64]
    ensures { result ≡ replicate 64 0 }
{
    [0; 64]
}

// What stands in place `i` of a side: an entry with its slot and its mark, or zeros.
fn block_array(m: &SlotManifest, i: u8) -> [u8; 64]
    requires { m.now.manifest.count ≤ 16 }
    ensures { result ≡ block_of (stored_of m.now) i }
{
    if i < m.manifest.count {
        return placed_array(
            &m.manifest.entries[i as usize],
            m.slots[i as usize],
            m.fresh[i as usize],
        );
    }
    no_place()
}

// The first page: the release's number, how many entries it has, the layout, and zeros.
fn front_page(m: &Manifest) -> [u8; 256]
    ensures { result ≡ u32_bytes m.now.release ++ m.now.count ∷ LAYOUT ∷ replicate 250 0 }
{
    let mut bytes = [0; 256];
    put(&mut bytes, 0, &front_array(m));
    bytes[5] = LAYOUT;
    bytes
}

/// A page of a stored manifest. Page 0 has release u32, count u8, the layout's number 2 and 250 zeros. Pages 1 to 4 have four entries each, one
/// at every 64 bytes: the 38 bytes of a manifest, the slot, 1 where the entry is fresh and else 0, and 24 zeros. Entries from the count on are
/// zeros.
pub fn slot_page(m: &SlotManifest, page: u8) -> [u8; 256]
    requires manifest { IsSlotManifest m.now }
    requires page { page < 5 }
    ensures { result ≡ slice_range (stored_bytes (stored_of m.now)) (256 * page) (256 * page + 256) }
{
    if page == 0 {
        return front_page(&m.manifest);
    }
    let mut bytes = [0; 256];
    for j in 0..4u8 {
        put(
            &mut bytes,
            64 * j as usize,
            &block_array(m, 4 * (page - 1) + j),
        );
    }
    bytes
}

// Whether an entry with its slot may stand behind these.
fn is_place(entries: &[Entry], slots: &[u8], entry: &Entry, slot: u8) -> bool
    ensures { result ≡ is_place entries.now slots.now entry.now slot }
{
    entry_fault(entries, entry).is_none() && slot < 16 && !slots.contains(&slot)
}

fn is_page(page: &[u8; 256])
    ensures size { length page.now ≡ 256 }
    ensures bytes { AreBytes page.now }
{
    let _first = page[0];
}

// Five pages have 256 bytes each.
fn are_pages(pages: &[[u8; 256]; 5])
    ensures count { length pages.now ≡ 5 }
    ensures sizes { All (λ p. length p ≡ 256) pages.now }
    ensures bytes { All AreBytes pages.now }
{
    for page in 0..5usize {
        is_page(&pages[page]);
    }
}

// The manifest whose entries the pages say, where each may stand behind those before it.
fn places_in(pages: &[[u8; 256]; 5], count: u8) -> Option<SlotManifest>
    requires count { count ≤ 16 }
    requires sizes { All (λ p. length p ≡ 256) pages.now }
    ensures fault { is_none result ≡ is_some (first_fault (place_fault (concat pages.now)) count) }
    ensures count { IfSome result (λ m. m.manifest.count ≡ count) }
    ensures number { IfSome result (λ m. m.manifest.release ≡ u32_at (concat pages.now) 0) }
    ensures placed { IfSome result (λ m. (stored_of m).placed ≡ list_of (placed_at (concat pages.now)) count) }
{
    let mut entries = [NO_ENTRY; 16];
    let mut slots = [0; 16];
    let mut fresh = [false; 16];
    for i in 0..count {
        let page = &pages[1 + i as usize / 4];
        let at = 64 * (i as usize % 4);
        let entry = entry_in(page, at);
        let slot = page[at + 38];
        let mark = page[at + 39];
        if !is_place(&entries[..i as usize], &slots[..i as usize], &entry, slot) {
            return None;
        }
        entries[i as usize] = entry;
        slots[i as usize] = slot;
        fresh[i as usize] = mark == 1;
    }
    let release = u32_in(&pages[0], 0);
    let manifest = Manifest {
        release,
        count,
        entries,
    };
    Some(SlotManifest {
        manifest,
        slots,
        fresh,
    })
}

fn is_same(a: &[u8; 256], b: &[u8; 256]) -> bool
    ensures { IsTrue result ↔ (a.now ≡ b.now) }
{
    a == b
}

// Whether the pages are those of this manifest.
fn has_pages(m: &SlotManifest, pages: &[[u8; 256]; 5]) -> bool
    requires manifest { IsSlotManifest m.now }
    requires sizes { All (λ p. length p ≡ 256) pages.now }
    ensures { IsTrue result ↔ (concat pages.now ≡ stored_bytes (stored_of m.now)) }
{
    for page in 0..5u8 {
        if !is_same(&slot_page(m, page), &pages[page as usize]) {
            return false;
        }
    }
    true
}

/// The stored manifest whose five pages these are, or `None` where they are no stored manifest's: those of the first layout aren't.
pub fn read_slot_pages(pages: &[[u8; 256]; 5]) -> Option<SlotManifest>
    ensures some { IfSome result (λ m. Stores (concat pages.now) (stored_of m)) }
    ensures manifest { IfSome result IsSlotManifest }
    ensures none { IfNone result ((m : StoredRelease) → Stores (concat pages.now) m → ⊥) }
{
    are_pages(pages);
    let count = pages[0][4];
    if count > 16 {
        return None;
    }
    let m = places_in(pages, count)?;
    if has_pages(&m, pages) { Some(m) } else { None }
}
