//! Worked manifests, and each of their faults at its first and last place, alone and before the next in order.

ghost use Rattle.std.specs.Prelude.{IfSome, IfOk};
ghost use Rattle.component_package.specs.packages.Manifest.{IsManifest, IsSlotManifest};

use crate::changes::{Changes, change};
use component_package::ManifestFault::{Count, Length, Repeated, Short};
use component_package::{
    Manifest, ManifestFault, SlotManifest, read_manifest, read_slot_pages, slot_page,
    write_manifest,
};
use std::alloc::{AllocError, Global};
use std::test::Fail;

// A manifest of release 1 with components 1 to `count`, packages of 46 bytes and digests of one byte repeated.
fn manifest(alloc: Global, count: u8) -> Result<Vec<u8>, AllocError> {
    let mut bytes = vec![in alloc; 1, 0, 0, 0, count]?;
    for k in 0..count {
        bytes.extend_from_slice(&[k.wrapping_add(1), 0, 1, 0, 46, 0])?;
        bytes.extend_from_slice(&[k; 32])?;
    }
    Ok(bytes)
}

// The manifest that these bytes spell, of at most 613 bytes, or its fault.
fn read(bytes: &[u8]) -> Option<Result<Manifest, ManifestFault>>
    ensures { IfSome result (λ r. IfOk r IsManifest) }
{
    if bytes.len() > 613 {
        return None;
    }
    Some(read_manifest(bytes))
}

/// How many entries, what is written over the manifest, how many bytes are left out, and the fault.
type Row = (u8, Changes, usize, Option<ManifestFault>);

const FAULTS: [Row; 14] = [
    (1, &[], 0, None),
    (16, &[], 0, None),
    (1, &[], 39, Some(Short(4))),
    (1, &[(4, 0)], 0, Some(Count(0))),
    (1, &[(4, 17)], 0, Some(Count(17))),
    // the count comes before the length
    (1, &[(4, 255)], 1, Some(Count(255))),
    (2, &[], 1, Some(Short(80))),
    (2, &[(4, 1)], 0, Some(Short(81))),
    (2, &[(43, 1)], 0, Some(Repeated(1))),
    (16, &[(575, 15)], 0, Some(Repeated(15))),
    (2, &[(9, 31)], 0, Some(Length(31))),
    (16, &[(579, 1), (580, 39)], 0, Some(Length(9985))),
    // an entry's component comes before its length, and an earlier entry before both
    (2, &[(43, 1), (47, 31)], 0, Some(Repeated(1))),
    (2, &[(9, 0), (43, 1)], 0, Some(Length(0))),
];

fn has_fault(alloc: Global, row: &Row) -> Result<bool, AllocError> {
    let (count, changes, left_out, want) = *row;
    let mut bytes = manifest(alloc, count)?;
    change(&mut bytes, changes);
    let size = bytes.len().saturating_sub(left_out);
    let Some(front) = bytes.as_slice().get(..size) else {
        return Ok(false);
    };
    match read(front) {
        Some(read) => Ok(read.err() == want),
        None => Ok(false),
    }
}

// The first of these rows whose bytes have another fault.
fn first_other(alloc: Global, rows: &[Row]) -> Result<Option<usize>, AllocError> {
    for (i, row) in rows.iter().enumerate() {
        if !has_fault(alloc, row)? {
            return Ok(Some(i));
        }
    }
    Ok(None)
}

#[test]
fn manifests_have_their_first_fault(rt: HostRuntime) -> Result<(), Fail> {
    assert_eq!(rt; first_other(rt.alloc(), &FAULTS)?, None);
    Ok(())
}

// Whether a manifest is written as these bytes, with nothing written behind them.
fn is_written_as(manifest: &Manifest, bytes: &[u8]) -> bool
    requires { IsManifest manifest.now }
{
    let mut into = [0xEE; 613];
    let count = write_manifest(manifest, &mut into) as usize;
    let Some((front, rest)) = into.as_slice().split_at_checked(count) else {
        return false;
    };
    front == bytes && rest.iter().all(|byte| *byte == 0xEE)
}

#[test]
fn a_manifest_is_written_again(rt: HostRuntime) -> Result<(), Fail> {
    let bytes = manifest(rt.alloc(), 2)?;
    assert_eq!(rt; bytes.len(), 81);
    assert!(rt;
        bytes
            .as_slice()
            .starts_with(&[1, 0, 0, 0, 2, 1, 0, 1, 0, 0x2E, 0])
    );
    let Some(Ok(manifest)) = read(bytes.as_slice()) else {
        return Err(Fail::new("refused"));
    };
    assert!(rt; is_written_as(&manifest, bytes.as_slice()));
    Ok(())
}

fn zeros() -> [u8; 256] {
    [0; 256]
}

fn head_page() -> [u8; 256] {
    let mut head = zeros();
    head[0] = 3;
    head[4] = 1;
    head
}

fn entries_page() -> [u8; 256] {
    let mut entries = zeros();
    entries[0] = 7;
    entries[2] = 2;
    entries[4] = 32;
    entries[38] = 31;
    entries
}

// The pages of release 3 with component 7 in slot 31.
fn worked_pages() -> [[u8; 256]; 5] {
    [head_page(), entries_page(), zeros(), zeros(), zeros()]
}

// Whether a stored manifest is written as these pages.
fn are_written(stored: &SlotManifest, pages: &[[u8; 256]; 5]) -> bool
    requires { IsSlotManifest stored.now }
{
    for page in 0..5u8 {
        if slot_page(stored, page) != pages[page as usize] {
            return false;
        }
    }
    true
}

#[test]
fn pages_are_read_as_written(rt: HostRuntime) -> Result<(), Fail> {
    let pages = worked_pages();
    let Some(stored) = read_slot_pages(&pages) else {
        return Err(Fail::new("refused"));
    };
    assert_eq!(rt; stored.manifest.release, 3);
    assert_eq!(rt; stored.manifest.count, 1);
    assert_eq!(rt; stored.slots[0], 31);
    assert!(rt; are_written(&stored, &pages));
    Ok(())
}

/// A page, a byte of it, and what is put there.
const SPOILT: [(usize, usize, u8); 7] = [
    (0, 4, 17),
    (0, 255, 1),
    (1, 38, 32),
    (1, 39, 1),
    (1, 4, 31),
    (4, 255, 1),
    (2, 0, 1),
];

// Whether pages are refused with this byte at this place.
fn is_refused(pages: &[[u8; 256]; 5], page: usize, at: usize, byte: u8) -> bool {
    let mut other = *pages;
    if page < 5 && at < 256 {
        let mut changed = other[page];
        changed[at] = byte;
        other[page] = changed;
    }
    read_slot_pages(&other).is_none()
}

// The first of these rows whose pages are read.
fn first_read(pages: &[[u8; 256]; 5], rows: &[(usize, usize, u8)]) -> Option<usize> {
    for (i, (page, at, byte)) in rows.iter().enumerate() {
        if !is_refused(pages, *page, *at, *byte) {
            return Some(i);
        }
    }
    None
}

#[test]
fn spoilt_pages_are_refused(rt: HostRuntime) -> Result<(), Fail> {
    assert_eq!(rt; first_read(&worked_pages(), &SPOILT), None);
    Ok(())
}
