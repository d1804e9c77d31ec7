//! The slots that a new release gets.

ghost use Rattle.std.specs.Prelude.{◌≡◌, ◌++◌, ◌∷◌, ◌≤◌, ◌<◌, ℕ, List, [], IfSome, is_some, if◌then◌else◌};
ghost use Rattle.component_package.specs.packages.Manifest.{IsManifest, release_of};
ghost use Rattle.kept_definitions.specs.Kept.{held_slot, slot_list, held_slots, least_free, place, slots_for};
ghost use Rattle.kept_manifests.specs.Slots.{IsSlotManifest, stored_of};
ghost use Rattle.kept_store.specs.Slots.{AreMarked, placed_at_spot};

use component_package::{Entry, Manifest};
use component_store::is_same_entry;
use kept_manifests::SlotManifest;

// The current release's slot for an entry that it has too.
fn held_slot(current: &SlotManifest, e: &Entry) -> Option<u8>
    requires { IsSlotManifest current.now }
    ensures slot { result ≡ held_slot (stored_of current.now) e.now }
    ensures low { IfSome result (λ s. s < 16) }
{
    for i in 0..current.manifest.count {
        if is_same_entry(&current.manifest.entries[i as usize], e) {
            return Some(current.slots[i as usize]);
        }
    }
    None
}

/// Whether the current release has this entry too, equal in all four fields: its component is installed already.
pub fn is_held(current: &SlotManifest, e: &Entry) -> bool
    requires { IsSlotManifest current.now }
    ensures { result ≡ is_some (held_slot (stored_of current.now) e.now) }
{
    held_slot(current, e).is_some()
}

// Marks the slot of an entry, where it is held.
fn mark_held(taken: &mut [bool; 16], current: &SlotManifest, e: &Entry)
    requires { IsSlotManifest current.now }
    ensures { (l : List ℕ) → AreMarked taken.old l → AreMarked taken.new
        (l ++ slot_list (held_slot (stored_of current.now) e.now)) }
{
    let Some(slot) = held_slot(current, e) else {
        return;
    };
    taken[slot as usize] = true;
}

fn no_marks() -> [bool; 16]
    ensures { AreMarked result [] }
{
    [false; 16]
}

// The slots of entries that the current release has too.
fn held_marks(current: &SlotManifest, incoming: &Manifest) -> [bool; 16]
    requires current { IsSlotManifest current.now }
    requires incoming { IsManifest incoming.now }
    ensures { AreMarked result
        (held_slots (stored_of current.now) (release_of incoming.now).entries) }
{
    let mut taken = no_marks();
    for i in 0..incoming.count {
        mark_held(&mut taken, current, &incoming.entries[i as usize]);
    }
    taken
}

// The least slot that isn't marked.
fn least_free(taken: &[bool; 16]) -> u8
    ensures slot { (l : List ℕ) → AreMarked taken.now l → result ≡ least_free l }
    ensures low { result < 16 }
{
    for slot in 0..16u8 {
        if !taken[slot as usize] {
            return slot;
        }
    }
    0
}

// A slot, and whether its entry is fresh.
#[derive(Clone, Copy)]
struct Spot {
    slot: u8,
    fresh: bool,
}

// Where an entry is placed over those that were before it.
fn place(taken: &[bool; 16], current: &SlotManifest, e: &Entry) -> Spot
    requires { IsSlotManifest current.now }
    ensures spot { (l : List ℕ) → AreMarked taken.now l → placed_at_spot e.now result ≡
        place (stored_of current.now) l e.now }
    ensures low { result.slot < 16 }
{
    if let Some(slot) = held_slot(current, e) {
        return Spot { slot, fresh: false };
    }
    let slot = least_free(taken);
    Spot { slot, fresh: true }
}

// Marks the slot that a fresh entry was given.
fn mark_fresh(taken: &mut [bool; 16], spot: Spot)
    requires { spot.slot < 16 }
    ensures { (l : List ℕ) → AreMarked taken.old l → AreMarked taken.new
        (if spot.fresh then spot.slot ∷ l else l) }
{
    if !spot.fresh {
        return;
    }
    taken[spot.slot as usize] = true;
}

/// The slots of a new release over the current one. An entry that the current release has too, equal in all four fields, is held: it keeps its slot and isn't
/// fresh. Each other entry in order is fresh, and gets the least slot that no held entry of the new release has and no earlier entry got; among 16 slots
/// there always is one.
pub fn slot_for(current: &SlotManifest, incoming: &Manifest) -> SlotManifest
    requires current { IsSlotManifest current.now }
    requires incoming { IsManifest incoming.now }
    ensures slots { stored_of result ≡
        slots_for (stored_of current.now) (release_of incoming.now) }
    ensures manifest { result.manifest ≡ incoming.now }
    ensures stored { IsSlotManifest result }
{
    let mut taken = held_marks(current, incoming);
    let mut slots = [0; 16];
    let mut fresh = [false; 16];
    for i in 0..incoming.count {
        let spot = place(&taken, current, &incoming.entries[i as usize]);
        mark_fresh(&mut taken, spot);
        slots[i as usize] = spot.slot;
        fresh[i as usize] = spot.fresh;
    }
    SlotManifest {
        manifest: *incoming,
        slots,
        fresh,
    }
}
