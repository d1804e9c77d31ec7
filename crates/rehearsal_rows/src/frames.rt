//! The frames that bring a release.

use crate::drawing::Part;
use component_package::frames::{COMMIT, END, LINK, MANIFEST, PIECE};
use sha2::{Digest, Sha256};
use std::alloc::{AllocError, Global};

/// A number of two bytes.
pub(crate) fn push_number(into: &mut Vec<u8>, n: u16) -> Result<(), AllocError> {
    into.extend_from_slice(&n.to_le_bytes())?;
    Ok(())
}

/// A length that two bytes hold; drawn packages have no other.
pub(crate) fn short(length: usize) -> u16 {
    if length < 65536 { length as u16 } else { 0 }
}

fn push_frame(into: &mut Vec<u8>, kind: u8, payload: &[u8]) -> Result<(), AllocError> {
    into.push(kind)?;
    push_number(into, short(payload.len()))?;
    into.extend_from_slice(payload)?;
    Ok(())
}

// The entry of a part in the manifest.
fn push_entry(into: &mut Vec<u8>, part: &Part) -> Result<(), AllocError> {
    push_number(into, part.component)?;
    push_number(into, part.version)?;
    push_number(into, short(part.package.len()))?;
    into.extend_from_slice(&Sha256::digest(part.package.as_slice()))?;
    Ok(())
}

fn push_manifest(
    alloc: Global,
    into: &mut Vec<u8>,
    release: u32,
    parts: &[Part],
) -> Result<(), AllocError> {
    let mut manifest = Vec::new(alloc);
    manifest.extend_from_slice(&release.to_le_bytes())?;
    manifest.push((parts.len() % 256) as u8)?;
    for part in parts {
        push_entry(&mut manifest, part)?;
    }
    push_frame(into, MANIFEST, manifest.as_slice())
}

// A page of the package of component `k`, if the package has this page.
fn push_piece(
    alloc: Global,
    into: &mut Vec<u8>,
    k: u8,
    page: u8,
    package: &[u8],
) -> Result<(), AllocError> {
    let start = 256 * page as usize;
    let end = (start + 256).min(package.len());
    if start < end {
        if let Some(bytes) = package.get(start..end) {
            let mut piece = Vec::from_array(alloc, [k, page])?;
            piece.extend_from_slice(bytes)?;
            push_frame(into, PIECE, piece.as_slice())?;
        }
    }
    Ok(())
}

fn push_pieces(alloc: Global, into: &mut Vec<u8>, k: u8, package: &[u8]) -> Result<(), AllocError> {
    for page in 0..39u8 {
        push_piece(alloc, into, k, page, package)?;
    }
    Ok(())
}

/// The frames that bring a release to a mote that has the one before: its manifest, the pieces of what is new in it, LINK, COMMIT and END.
pub(crate) fn update(alloc: Global, release: u32, parts: &[Part]) -> Result<Vec<u8>, AllocError> {
    let mut bytes = Vec::new(alloc);
    push_manifest(alloc, &mut bytes, release, parts)?;
    let mut k = 0u8;
    for part in parts {
        if part.since == release {
            push_pieces(alloc, &mut bytes, k, part.package.as_slice())?;
        }
        k = k.wrapping_add(1);
    }
    for kind in [LINK, COMMIT, END] {
        push_frame(&mut bytes, kind, &[])?;
    }
    Ok(bytes)
}

/// What is sent to a mote that has the release: END alone.
pub(crate) fn no_update(alloc: Global) -> Result<Vec<u8>, AllocError> {
    let mut bytes = Vec::new(alloc);
    push_frame(&mut bytes, END, &[])?;
    Ok(bytes)
}
