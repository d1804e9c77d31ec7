//! Releases that come in on a board of the second layout, as they do on a mote.

ghost use Rattle.std.specs.Prelude.{IfSome};
ghost use Rattle.kept_manifests.specs.Slots.{IsSlotManifest};

use crate::board::BenchBoard;
use component_package::areas::{IMAGE_PAGES, MANIFEST_A, STAGED, SYMBOLS};
use component_package::{Bytes, read_manifest};
use component_store::put_piece;
use external_flash::{Gate, open_gate};
use flash_pages::Board;
use kept_boot::boot;
use kept_definitions::areas::LAYOUT;
use kept_journal::{Stage, go, mark, put_manifest, read_state};
use kept_manifests::{SlotManifest, read_slot_pages, slot_page};
use kept_store::slot_for;
use sha2::{Digest, Sha256};
use std::alloc::{AllocError, Global};

/// The installed release, and the one that comes in over it.
#[derive(Clone, Copy)]
pub(crate) struct Releases {
    pub(crate) current: SlotManifest,
    pub(crate) incoming: SlotManifest,
}

/// A length that two bytes hold.
fn short(length: usize) -> u16 {
    if length < 65536 { length as u16 } else { 0 }
}

/// The manifest of a release of these packages.
pub(crate) fn manifest_of(
    alloc: Global,
    release: u8,
    packages: &[Bytes],
) -> Result<Vec<u8>, AllocError> {
    let mut bytes = vec![in alloc; release, 0, 0, 0, (packages.len() % 256) as u8]?;
    for package in packages {
        if let Some(identity) = package.as_slice().get(4..8) {
            bytes.extend_from_slice(identity)?;
        }
        bytes.extend_from_slice(&short(package.as_slice().len()).to_le_bytes())?;
        bytes.extend_from_slice(&Sha256::digest(package.as_slice()))?;
    }
    Ok(bytes)
}

// Release 0, which has no entries.
fn nothing() -> Option<SlotManifest>
    ensures { IfSome result IsSlotManifest }
{
    let mut pages = [[0; 256]; 5];
    pages[0][5] = LAYOUT;
    read_slot_pages(&pages)
}

/// Makes of a board of zeros a mote on which release 0 is installed.
pub(crate) fn format(board: &mut BenchBoard) -> bool {
    let Some(nothing) = nothing() else {
        return false;
    };
    if board
        .ext_program(MANIFEST_A, &slot_page(&nothing, 0))
        .is_err()
    {
        return false;
    }
    open_gate(board, Gate::Fmt).is_ok()
}

// Puts a package into an inbox slot.
fn store(board: &mut BenchBoard, slot: u8, package: &[u8]) -> bool {
    let length = short(package.len());
    if slot >= 16 || length < 32 || length > 9984 {
        return false;
    }
    for page in 0..39u8 {
        let start = 256 * page as usize;
        let end = (start + 256).min(package.len());
        if let Some(piece) = package.get(start..end) {
            if !piece.is_empty() && put_piece(board, slot, length, page, piece).is_err() {
                return false;
            }
        }
    }
    true
}

// Puts the packages of the fresh entries into their slots.
fn store_fresh(board: &mut BenchBoard, release: &SlotManifest, packages: &[Bytes]) -> bool {
    for k in 0..16usize {
        if let Some(package) = packages.get(k) {
            if release.fresh[k] && !store(board, release.slots[k], package.as_slice()) {
                return false;
            }
        }
    }
    true
}

// The installed release, and the one of a manifest over it.
fn over_current(board: &mut BenchBoard, manifest: &[u8]) -> Option<Releases>
    ensures current { IfSome result (λ r. IsSlotManifest r.current) }
    ensures incoming { IfSome result (λ r. IsSlotManifest r.incoming) }
{
    let Ok(standing) = read_state(board) else {
        return None;
    };
    let Ok(manifest) = read_manifest(manifest) else {
        return None;
    };
    let incoming = slot_for(&standing.current, &manifest);
    Some(Releases {
        current: standing.current,
        incoming,
    })
}

/// Takes in a release with the packages of its fresh entries.
pub(crate) fn take_in(
    board: &mut BenchBoard,
    manifest: &[u8],
    packages: &[Bytes],
) -> Option<Releases>
    ensures current { IfSome result (λ r. IsSlotManifest r.current) }
    ensures incoming { IfSome result (λ r. IsSlotManifest r.incoming) }
{
    let Some(releases) = over_current(board, manifest) else {
        return None;
    };
    if put_manifest(board, &releases.incoming).is_err() {
        return None;
    }
    if !store_fresh(board, &releases.incoming, packages) {
        return None;
    }
    Some(releases)
}

// Opens the gates of what was made of the release, and commits it.
fn commit(board: &mut BenchBoard) -> bool {
    for stage in [Stage::Symbols, Stage::Relocs, Stage::Image] {
        if mark(board, stage).is_err() {
            return false;
        }
    }
    go(board).is_ok()
}

/// Installs the release that comes in, whose image is staged, and says whether its number is this one.
pub(crate) fn install(board: &mut BenchBoard, release: u32) -> bool {
    commit(board) && boot(board) == Ok(release)
}

/// Fills symbols, relocations and staged image with zeros, so that nothing is left of an earlier one.
pub(crate) fn clear_areas(board: &mut BenchBoard) -> bool {
    for page in SYMBOLS..STAGED + IMAGE_PAGES {
        if board.ext_program(page, &[0; 256]).is_err() {
            return false;
        }
    }
    true
}
