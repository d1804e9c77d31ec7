//! The steps by which a mote makes an image, and the set that it makes it from.

ghost use Rattle.std.specs.Prelude.{IfSome};
ghost use Rattle.component_package.specs.packages.Manifest.{IsSlotManifest};
ghost use Rattle.component_store.specs.Sets.{IsSet};
ghost use Rattle.symbol_merge.specs.Stored.{IsPlanOf};

use component_package::{Bytes, SlotManifest, read_manifest, read_slot_pages};
use component_store::{StoredSet, open_set, put_piece, slot_for};
use flash_pages::Board;
use image_stage::stage;
use layout_plan::Plan;
use reloc_table::{build, check_relocs, count_relocs};
use sha2::{Digest, Sha256};
use std::alloc::{AllocError, Global};
use symbol_merge::{count_symbols, merge, plan_of_set};

/// A step, in the order in which LINK takes them.
#[derive(Clone, Copy)]
pub(crate) enum Step {
    Count,
    Merge,
    Check,
    Build,
    Stage,
}

/// All steps.
pub(crate) const STEPS: [Step; 5] = [
    Step::Count,
    Step::Merge,
    Step::Check,
    Step::Build,
    Step::Stage,
];

impl Step {
    /// The call's name.
    pub(crate) fn name(self) -> &'static str {
        match self {
            Step::Count => "count_symbols",
            Step::Merge => "merge",
            Step::Check => "check_relocs",
            Step::Build => "build",
            Step::Stage => "stage",
        }
    }
}

// A length that two bytes hold.
fn short(length: usize) -> u16 {
    if length < 65536 { length as u16 } else { 0 }
}

/// Puts a package into a slot.
pub(crate) fn store<B: Board>(board: &mut B, slot: u8, package: &[u8]) -> bool {
    let length = short(package.len());
    if slot >= 32 || length < 32 || length > 9984 {
        return false;
    }
    for page in 0..39u8 {
        let start = 256 * page as usize;
        let end = (start + 256).min(package.len());
        if let Some(piece) = package.get(start..end) {
            if !piece.is_empty() && put_piece(board, slot, length, page, piece).is_err() {
                return false;
            }
        }
    }
    true
}

/// The manifest of release 1 of these packages.
pub(crate) fn manifest_of(alloc: Global, packages: &[Bytes]) -> Result<Vec<u8>, AllocError> {
    let mut bytes = vec![in alloc; 1, 0, 0, 0, (packages.len() % 256) as u8]?;
    for package in packages {
        if let Some(identity) = package.as_slice().get(4..8) {
            bytes.extend_from_slice(identity)?;
        }
        bytes.extend_from_slice(&short(package.as_slice().len()).to_le_bytes())?;
        bytes.extend_from_slice(&Sha256::digest(package.as_slice()))?;
    }
    Ok(bytes)
}

// The stored release of a manifest, with slots in order.
fn release(manifest: &[u8]) -> Option<SlotManifest>
    ensures { IfSome result IsSlotManifest }
{
    let Some(nothing) = read_slot_pages(&[[0; 256]; 5]) else {
        return None;
    };
    let Ok(manifest) = read_manifest(manifest) else {
        return None;
    };
    Some(slot_for(&nothing, &manifest))
}

/// The set that the slots hold.
pub(crate) fn opened<B: Board>(board: &mut B, manifest: &[u8]) -> Option<StoredSet>
    ensures { IfSome result IsSet }
{
    let Some(release) = release(manifest) else {
        return None;
    };
    match open_set(board, &release) {
        Ok(set) => Some(set),
        Err(_) => None,
    }
}

/// The plan of a set.
pub(crate) fn planned(set: &StoredSet) -> Option<Plan>
    requires { IsSet set.now }
    ensures { IfSome result (IsPlanOf set.now) }
{
    match plan_of_set(set) {
        Ok(plan) => Some(plan),
        Err(_) => None,
    }
}

// Whether the relocation list was built.
fn is_built<B: Board>(board: &mut B, set: &StoredSet, plan: &Plan) -> bool
    requires set { IsSet set.now }
    requires plan { IsPlanOf set.now plan.now }
{
    match count_relocs(set) {
        Ok(_) => build(board, set, plan).is_ok(),
        Err(_) => false,
    }
}

/// Takes a step, and says whether it went well.
pub(crate) fn takes<B: Board>(board: &mut B, set: &StoredSet, plan: &Plan, step: Step) -> bool
    requires set { IsSet set.now }
    requires plan { IsPlanOf set.now plan.now }
{
    match step {
        Step::Count => count_symbols(board, set).is_ok(),
        Step::Merge => merge(board, set, plan).is_ok(),
        Step::Check => check_relocs(board, set, plan).is_ok(),
        Step::Build => is_built(board, set, plan),
        Step::Stage => stage(board, set, plan).is_ok(),
    }
}
