//! Opening a set: all digests first, then all packages.

ghost use Rattle.std.specs.Prelude.{◌≡◌, ◌≤◌, ◌<◌, true, false, IfOk, IfErr, Some, None, length, slice_get};
ghost use Rattle.flash_pages.specs.State.{State};
ghost use Rattle.flash_pages.specs.Board.{View, Told, Reads, FlashFaultsWhere};
ghost use Rattle.component_package.specs.packages.Reading.{first_fault};
ghost use Rattle.component_package.specs.packages.Manifest.{IsSlotManifest, stored_of};
ghost use Rattle.component_package.specs.mote.Store.{slots_of, set_fault, missing_at, bad_package_at};
ghost use Rattle.component_store.specs.Packages.{is_of_package};
ghost use Rattle.component_store.specs.Sets.{IsSet, HoldsSet, HasHeaders, AreHeaders, SetFaultIs, is_set_fault, number_of_stored_fault};

use crate::package::{check, check_package};
use crate::set::{SetFault, StoreFault, StoredSet};
use component_package::{Header, SlotManifest};
use flash_pages::Board;

const NO_HEADER: Header = Header {
    component: 0,
    version: 0,
    code: 0,
    init: 0,
    bss: 0,
    exports: 0,
    relocs: 0,
};

// The first entry whose slot hasn't its digest.
fn check_digests<B: Board>(board: &mut B, m: &SlotManifest) -> Result<(), SetFault>
    requires { IsSlotManifest m.now }
    ensures answer { is_set_fault result ≡ false → Told (B.view board.old) (λ s. SetFaultIs result
        (first_fault (missing_at (slots_of s.ext) (stored_of m.now)) m.now.manifest.count)) }
    ensures reads { Reads (B.view board.old) (B.view board.new) }
    ensures faults { FlashFaultsWhere (is_set_fault result) (B.view board.old)
        (B.view board.new) }
{
    for k in 0..m.manifest.count {
        let entry = &m.manifest.entries[k as usize];
        let is_there = check(board, m.slots[k as usize], entry.length, &entry.digest)?;
        if !is_there {
            return Err(SetFault::Missing(k));
        }
    }
    Ok(())
}

// The number that says what is wrong with a stored package.
fn number(fault: StoreFault) -> Option<u8>
    ensures { result ≡ number_of_stored_fault fault }
{
    match fault {
        StoreFault::Package(fault) => Some(fault.number()),
        StoreFault::Identity => Some(13),
        StoreFault::Fault | StoreFault::Page | StoreFault::PieceLength => None,
    }
}

// The headers of the packages, or the first entry whose package is bad.
fn check_packages<B: Board>(board: &mut B, m: &SlotManifest) -> Result<[Header; 16], SetFault>
    requires { IsSlotManifest m.now }
    ensures answer { is_set_fault result ≡ false → Told (B.view board.old) (λ s. SetFaultIs result
        (first_fault (bad_package_at (slots_of s.ext) (stored_of m.now)) m.now.manifest.count)) }
    ensures headers { IfOk result (λ headers. Told (B.view board.old) (λ s.
        HasHeaders (slots_of s.ext) (stored_of m.now) m.now.manifest.count headers)) }
    ensures fits { IfOk result (λ headers.
        AreHeaders m.now.manifest m.now.manifest.count headers) }
    ensures reads { Reads (B.view board.old) (B.view board.new) }
    ensures faults { FlashFaultsWhere (is_set_fault result) (B.view board.old)
        (B.view board.new) }
{
    let mut headers = [NO_HEADER; 16];
    for k in 0..m.manifest.count {
        match check_package(board, m.slots[k as usize], &m.manifest.entries[k as usize]) {
            Ok(header) => headers[k as usize] = header,
            Err(fault) => match number(fault) {
                Some(number) => return Err(SetFault::BadPackage(k, number)),
                None => return Err(SetFault::Fault),
            },
        }
    }
    Ok(headers)
}

/// The set that the slots hold for a stored manifest.
///
/// `Missing` is the first entry whose slot hasn't its digest. Where none is missing, `BadPackage` is the first entry that `check_package` refuses.
/// `Fault` comes only where flash faults rose. Each page of the set is read four times at most.
pub fn open_set<B: Board>(board: &mut B, m: &SlotManifest) -> Result<StoredSet, SetFault>
    requires { IsSlotManifest m.now }
    ensures answer { is_set_fault result ≡ false → Told (B.view board.old) (λ s.
        SetFaultIs result (set_fault (slots_of s.ext) (stored_of m.now))) }
    ensures slots { IfOk result (λ set. set.slots ≡ m.now) }
    // On every board it meets the conditions of the calls that take a set.
    ensures set { IfOk result IsSet }
    ensures holds { IfOk result (λ set. Told (B.view board.old) (λ s. HoldsSet s set)) }
    ensures reads { Reads (B.view board.old) (B.view board.new) }
    ensures faults { FlashFaultsWhere (is_set_fault result) (B.view board.old)
        (B.view board.new) }
{
    check_digests(board, m)?;
    let headers = check_packages(board, m)?;
    Ok(StoredSet { slots: *m, headers })
}
