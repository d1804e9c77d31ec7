//! Opening an incoming set: the digests of all fresh packages first, then the packages themselves.

ghost use Rattle.std.specs.Prelude.{◌≡◌, ◌≤◌, ◌<◌, ◌+◌, ℕ, List, true, false, not, IfOk, IfSome, IfNone, Some, None, slice_index_or};
ghost use Rattle.flash_pages.specs.State.{State};
ghost use Rattle.flash_pages.specs.Board.{View, Told, Reads, FlashFaults, FlashFaultsWhere};
ghost use Rattle.component_package.specs.packages.Reading.{first_fault, header_of};
ghost use Rattle.component_package.specs.packages.Component.{Component};
ghost use Rattle.component_store.specs.Sets.{SetFaultIs, is_set_fault, number_of_stored_fault};
ghost use Rattle.kept_definitions.specs.Kept.{inbox_of, package_in, is_missing, missing_at, bad_package_at, set_fault, coming_set, held_slot};
ghost use Rattle.kept_manifests.specs.Slots.{IsSlotManifest, place_of, stored_of};
ghost use Rattle.kept_store.specs.Sets.{IsSet, HoldsSet, IsSlotFor, HasNoFresh, chosen_of};
ghost use Rattle.kept_store.specs.Open.{HasRooms, IsFoundAt, IsHeldPart, IsPart, FitsPlace, part_of_set};

use crate::set::{NO_HEADER, StoredSet};
use component_package::{Entry, Header};
use component_store::{SetFault, StoreFault, check, check_package, is_same_entry};
use flash_pages::{Board, Failed};
use kept_manifests::SlotManifest;

// Whether an entry isn't missing: it isn't fresh, or its inbox slot has its digest.
fn is_there<B: Board>(board: &mut B, m: &SlotManifest, k: u8) -> Result<bool, Failed>
    requires manifest { IsSlotManifest m.now }
    requires entry { k < m.now.manifest.count }
    ensures answer { IfOk result (λ there. Told (B.view board.old) (λ s. is_missing (inbox_of s.ext) (place_of m.now k) ≡ not there)) }
    ensures reads { Reads (B.view board.old) (B.view board.new) }
    ensures faults { FlashFaults result (B.view board.old) (B.view board.new) }
{
    if !m.fresh[k as usize] {
        return Ok(true);
    }
    let entry = &m.manifest.entries[k as usize];
    let there = check(board, m.slots[k as usize], entry.length, &entry.digest)?;
    Ok(there)
}

// The first fresh entry whose inbox slot hasn't its digest.
fn check_digests<B: Board>(board: &mut B, m: &SlotManifest) -> Result<(), SetFault>
    requires { IsSlotManifest m.now }
    ensures answer { is_set_fault result ≡ false → Told (B.view board.old) (λ s. SetFaultIs result
        (first_fault (missing_at (inbox_of s.ext) (stored_of m.now)) m.now.manifest.count)) }
    ensures reads { Reads (B.view board.old) (B.view board.new) }
    ensures faults { FlashFaultsWhere (is_set_fault result) (B.view board.old)
        (B.view board.new) }
{
    for k in 0..m.manifest.count {
        let there = is_there(board, m, k)?;
        if !there {
            return Err(SetFault::Missing(k));
        }
    }
    Ok(())
}

// What a set says of one component.
#[derive(Clone, Copy)]
struct Part {
    header: Header,
    code_at: u32,
    init_at: u32,
}

// The number that says what is wrong with a stored package.
fn number(fault: StoreFault) -> Option<u8>
    ensures { result ≡ number_of_stored_fault fault }
{
    match fault {
        StoreFault::Package(fault) => Some(fault.number()),
        StoreFault::Identity => Some(13),
        StoreFault::Fault | StoreFault::Page | StoreFault::PieceLength => None,
    }
}

// The first entry of the current release that is this one.
fn held_at(current: &SlotManifest, e: &Entry) -> Option<u8>
    requires { IsSlotManifest current.now }
    ensures found { IfSome result (λ j. IsFoundAt current.now e.now j) }
    ensures none { IfNone result (held_slot (stored_of current.now) e.now ≡ None) }
{
    for j in 0..current.manifest.count {
        if is_same_entry(&current.manifest.entries[j as usize], e) {
            return Some(j);
        }
    }
    None
}

// What a set says of component `j`.
fn part_of_set(set: &StoredSet, j: u8) -> Part
    requires { j < 16 }
    ensures { result ≡ part_of_set set.now j }
{
    Part {
        header: set.headers[j as usize],
        code_at: set.code_at[j as usize],
        init_at: set.init_at[j as usize],
    }
}

/// A set's lists have 16 places each. It does nothing: contracts learn by it how long the lists are.
pub(crate) fn has_rooms(set: &StoredSet)
    ensures { HasRooms set.now }
{
    let _header = set.headers[0];
    let _entry = &set.slots.manifest.entries[0];
    let _slot = set.slots.slots[0];
}

// What the current set says of an entry that it has too, if it is installed.
fn held_part(current: &StoredSet, e: &Entry) -> Option<Part>
    requires { IsSet current.now }
    ensures rooms { HasRooms current.now }
    ensures held { IfSome result (λ x. IsHeldPart current.now e.now x) }
    ensures none { IfNone result (HasNoFresh current.now → held_slot (stored_of current.now.slots) e.now ≡ None) }
{
    has_rooms(current);
    let Some(j) = held_at(&current.slots, e) else {
        return None;
    };
    if current.slots.fresh[j as usize] {
        return None;
    }
    Some(part_of_set(current, j))
}

// What is known of the package in a fresh entry's inbox slot.
fn fresh_part<B: Board>(board: &mut B, m: &SlotManifest, k: u8) -> Result<Part, SetFault>
    requires manifest { IsSlotManifest m.now }
    requires entry { k < m.now.manifest.count }
    requires fresh { slice_index_or m.now.fresh k false ≡ true }
    ensures answer { is_set_fault result ≡ false → Told (B.view board.old) (λ s. SetFaultIs result
        (bad_package_at (inbox_of s.ext) (stored_of m.now) k)) }
    ensures fits { IfOk result (λ x. FitsPlace (place_of m.now k) x) }
    ensures header { IfOk result (λ x. Told (B.view board.old) (λ s. x.header ≡ header_of (package_in (inbox_of s.ext) (place_of m.now k)))) }
    ensures reads { Reads (B.view board.old) (B.view board.new) }
    ensures faults { FlashFaultsWhere (is_set_fault result) (B.view board.old)
        (B.view board.new) }
{
    match check_package(board, m.slots[k as usize], &m.manifest.entries[k as usize]) {
        Ok(header) => Ok(Part {
            header,
            code_at: 0,
            init_at: 0,
        }),
        Err(fault) => match number(fault) {
            Some(number) => Err(SetFault::BadPackage(k, number)),
            None => Err(SetFault::Fault),
        },
    }
}

// What a set over the current one says of an entry: what the current one says, where it isn't fresh, or the package in its inbox slot.
fn entry_part<B: Board>(
    board: &mut B,
    m: &SlotManifest,
    current: &StoredSet,
    k: u8,
) -> Result<Part, SetFault>
    requires manifest { IsSlotManifest m.now }
    requires current { IsSet current.now }
    requires entry { k < m.now.manifest.count }
    ensures answer { is_set_fault result ≡ false → HasNoFresh current.now →
        IsSlotFor current.now.slots m.now → Told (B.view board.old) (λ s. SetFaultIs result
        (bad_package_at (inbox_of s.ext) (stored_of m.now) k)) }
    ensures fits { IfOk result (λ x. FitsPlace (place_of m.now k) x) }
    ensures part { IfOk result (λ x. Told (B.view board.old) (λ s.
        IsPart (inbox_of s.ext) m.now current.now k x)) }
    ensures reads { Reads (B.view board.old) (B.view board.new) }
    ensures faults { FlashFaultsWhere (is_set_fault result) (B.view board.old)
        (B.view board.new) }
{
    if m.fresh[k as usize] {
        return fresh_part(board, m, k);
    }
    match held_part(current, &m.manifest.entries[k as usize]) {
        Some(part) => Ok(part),
        None => Err(SetFault::Missing(k)),
    }
}

// The set over the current one, or the first fresh entry whose package is bad.
fn gather<B: Board>(
    board: &mut B,
    m: &SlotManifest,
    current: &StoredSet,
) -> Result<StoredSet, SetFault>
    requires manifest { IsSlotManifest m.now }
    requires current { IsSet current.now }
    ensures answer { is_set_fault result ≡ false → HasNoFresh current.now →
        IsSlotFor current.now.slots m.now → Told (B.view board.old) (λ s. SetFaultIs result
        (first_fault (bad_package_at (inbox_of s.ext) (stored_of m.now)) m.now.manifest.count)) }
    ensures slots { IfOk result (λ set. set.slots ≡ m.now) }
    ensures set { IfOk result IsSet }
    ensures parts { IfOk result (λ set. Told (B.view board.old) (λ s. (k : ℕ) →
        k < m.now.manifest.count → IsPart (inbox_of s.ext) m.now current.now k
        (part_of_set set k))) }
    ensures reads { Reads (B.view board.old) (B.view board.new) }
    ensures faults { FlashFaultsWhere (is_set_fault result) (B.view board.old)
        (B.view board.new) }
{
    let mut headers = [NO_HEADER; 16];
    let mut code_at = [0; 16];
    let mut init_at = [0; 16];
    for k in 0..m.manifest.count {
        match entry_part(board, m, current, k) {
            Ok(part) => {
                headers[k as usize] = part.header;
                code_at[k as usize] = part.code_at;
                init_at[k as usize] = part.init_at;
            }
            Err(fault) => return Err(fault),
        }
    }
    Ok(StoredSet {
        slots: *m,
        headers,
        code_at,
        init_at,
    })
}

/// The incoming set of a stored manifest over the current one, as `open_current` answered it. Components that the current set has too are read where it says, and
/// fresh ones in their inbox slots.
///
/// Where the manifest is `slot_for` of the current set: `Missing` is the first fresh entry whose inbox slot hasn't its digest. Where none is missing,
/// `BadPackage` is the first fresh entry that `check_package` refuses. `Fault` comes only where flash faults rose. Each page of a fresh package is
/// read four times at most.
pub fn open_set<B: Board>(
    board: &mut B,
    m: &SlotManifest,
    current: &StoredSet,
) -> Result<StoredSet, SetFault>
    requires manifest { IsSlotManifest m.now }
    requires current { IsSet current.now }
    ensures answer { is_set_fault result ≡ false → HasNoFresh current.now →
        IsSlotFor current.now.slots m.now → Told (B.view board.old) (λ s.
        SetFaultIs result (set_fault (inbox_of s.ext) (stored_of m.now))) }
    ensures slots { IfOk result (λ set. set.slots ≡ m.now) }
    // On every board it meets the conditions of the calls that take a set.
    ensures set { IfOk result IsSet }
    ensures holds { IfOk result (λ set. HasNoFresh current.now → IsSlotFor current.now.slots m.now →
        Told (B.view board.old) (λ s. (components : List Component) →
        HoldsSet s current.now components → HoldsSet s set
        (coming_set (chosen_of current.now components) (inbox_of s.ext) (stored_of m.now)))) }
    ensures reads { Reads (B.view board.old) (B.view board.new) }
    ensures faults { FlashFaultsWhere (is_set_fault result) (B.view board.old)
        (B.view board.new) }
{
    check_digests(board, m)?;
    let set = gather(board, m, current)?;
    Ok(set)
}
