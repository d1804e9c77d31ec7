//! The slots that a new release gets.

ghost use Rattle.std.specs.Prelude.{◌≡◌, ◌↔◌, ◌++◌, ◌≤◌, ◌<◌, ◌==◌, ◌||◌, ℕ, IsTrue, List, map, take, length, is_some, unwrap_or};
ghost use Rattle.component_package.specs.packages.Manifest.{IsManifest, IsSlotManifest, IsManifestEntry, release_of, stored_of};
ghost use Rattle.component_package.specs.mote.Store.{is_same, is_same_entry, held_slot, is_taken, least_free, slots_for};
ghost use Rattle.component_store.specs.Slots.{used_slots};

use component_package::{Entry, Manifest, SlotManifest};

// Whether two digests are the same.
pub(crate) fn is_same(a: &[u8; 32], b: &[u8; 32]) -> bool
    ensures { IsTrue result ↔ (a.now ≡ b.now) }
{
    a == b
}

// The same, as the definition tells it.
fn is_same_digest(a: &[u8; 32], b: &[u8; 32]) -> bool
    ensures { result ≡ is_same a.now b.now }
{
    is_same(a, b)
}

/// Whether two entries are equal in all four fields.
pub fn is_same_entry(a: &Entry, b: &Entry) -> bool
    ensures { result ≡ is_same_entry a.now b.now }
{
    a.component == b.component
        && a.version == b.version
        && a.length == b.length
        && is_same_digest(&a.digest, &b.digest)
}

// The current release's slot for an entry that it has too.
fn held_slot(current: &SlotManifest, e: &Entry) -> Option<u8>
    requires { current.now.manifest.count ≤ 16 }
    ensures { result ≡ held_slot (stored_of current.now) e.now }
{
    for i in 0..current.manifest.count {
        if is_same_entry(&current.manifest.entries[i as usize], e) {
            return Some(current.slots[i as usize]);
        }
    }
    None
}

/// Whether the current release has this entry too, equal in all four fields: its package is in the slots already.
pub fn is_held(current: &SlotManifest, e: &Entry) -> bool
    requires { IsSlotManifest current.now }
    ensures { result ≡ is_some (held_slot (stored_of current.now) e.now) }
{
    held_slot(current, e).is_some()
}

fn has_slot(slots: &[u8], slot: u8) -> bool
    ensures { result ≡ is_taken slots.now slot }
{
    slots.contains(&slot)
}

/// How many entries there is room for. Contracts learn by it how long the list of entries is.
pub(crate) fn room(entries: &[Entry; 16]) -> usize
    ensures room { result ≡ 16 }
    ensures entries { length entries.now ≡ 16 }
{
    entries.len()
}

// The slots of the current release's entries.
fn used(current: &SlotManifest) -> &[u8]
    requires { current.now.manifest.count ≤ 16 }
    ensures { result.now ≡ used_slots current.now }
{
    let most = room(&current.manifest.entries);
    let count = most.min(current.manifest.count as usize);
    &current.slots[..count]
}

// Whether an entry of the current release or one of those given has the slot.
fn is_taken(current: &SlotManifest, given: &[u8], slot: u8) -> bool
    requires { current.now.manifest.count ≤ 16 }
    ensures { result ≡ (is_taken (used_slots current.now) slot || is_taken given.now slot) }
{
    if has_slot(used(current), slot) {
        return true;
    }
    has_slot(given, slot)
}

// The least slot that isn't taken.
fn least_free(current: &SlotManifest, given: &[u8]) -> u8
    requires { current.now.manifest.count ≤ 16 }
    ensures { result ≡ least_free (used_slots current.now ++ given.now) }
{
    for slot in 0..32u8 {
        if !is_taken(current, given, slot) {
            return slot;
        }
    }
    0
}

// The slot of an entry behind those that were given theirs.
fn place(current: &SlotManifest, given: &[u8], e: &Entry) -> u8
    requires { current.now.manifest.count ≤ 16 }
    ensures { result ≡ unwrap_or (held_slot (stored_of current.now) e.now)
        (least_free (used_slots current.now ++ given.now)) }
{
    match held_slot(current, e) {
        Some(slot) => slot,
        None => least_free(current, given),
    }
}

/// The slots of a new release over the current one. An entry that the current release has too, equal in all four fields, is held and gets
/// that entry's slot. Each other entry in order gets the least slot that the current release doesn't use and that no earlier entry got;
/// among 32 slots there always is one.
pub fn slot_for(current: &SlotManifest, incoming: &Manifest) -> SlotManifest
    requires current { IsSlotManifest current.now }
    requires incoming { IsManifest incoming.now }
    ensures slots { stored_of result ≡
        slots_for (stored_of current.now) (release_of incoming.now) }
    ensures stored { IsSlotManifest result }
{
    let mut slots = [0; 16];
    for i in 0..incoming.count {
        let slot = place(current, &slots[..i as usize], &incoming.entries[i as usize]);
        slots[i as usize] = slot;
    }
    SlotManifest {
        manifest: *incoming,
        slots,
    }
}
