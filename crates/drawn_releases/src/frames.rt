//! The frames of an update, as bytes on the line.

ghost use Rattle.std.specs.Prelude.{◌≡◌, ◌+◌, ◌<◌, ◌≤◌, ◌++◌, ◌∷◌, [], OnOk, IfOk, length, All, if◌then◌else◌};
ghost use Rattle.std.specs.List.{list_any};
ghost use Rattle.component_package.specs.packages.Manifest.{manifest_bytes, manifest_entry_bytes};
ghost use Rattle.component_package.specs.mote.Frames.{frame_bytes, stream_of};
ghost use Rattle.update_laws.specs.Update.{entry_of, release_of_packages, has_version, pages_of, pieces_of, piece_frame, pieces_from, manifest_frame, update_frames};
ghost use Rattle.drawn_releases.specs.Between.{frames_between};

use crate::components::Delivered;
use component_package::frames::{COMMIT, END, LINK, MANIFEST, PIECE};
use sha2::{Digest, Sha256};
use std::alloc::{AllocError, Global};

// A frame: its type, its payload's length, and its payload.
fn push_frame(into: &mut Vec<u8>, kind: u8, payload: &[u8]) -> Result<(), AllocError>
    requires { length payload.now ≤ 1024 }
    ensures { OnOk result (into.new.items ≡ into.old.items ++ frame_bytes (record { kind = kind; payload = payload.now })) }
{
    into.push(kind)?;
    into.extend_from_slice(&(payload.len() as u16).to_le_bytes())?;
    into.extend_from_slice(payload)?;
    Ok(())
}

// The manifest's entry of a package.
fn push_entry(into: &mut Vec<u8>, delivered: &Delivered) -> Result<(), AllocError>
    requires { length delivered.now.bytes ≤ 9984 }
    ensures { OnOk result (into.new.items ≡ into.old.items ++ manifest_entry_bytes (entry_of delivered.now)) }
{
    let bytes = delivered.bytes.as_slice();
    into.extend_from_slice(&delivered.component.to_le_bytes())?;
    into.extend_from_slice(&delivered.version.to_le_bytes())?;
    into.extend_from_slice(&(bytes.len() as u16).to_le_bytes())?;
    into.extend_from_slice(&Sha256::digest(bytes))?;
    Ok(())
}

// The manifest of a release.
fn manifest(alloc: Global, number: u32, packages: &[Delivered]) -> Result<Vec<u8>, AllocError>
    requires few { length packages.now ≤ 16 }
    requires short { All (λ d. length d.bytes ≤ 9984) packages.now }
    ensures { IfOk result (λ v. v.items ≡ manifest_bytes (release_of_packages number packages.now)) }
{
    let mut bytes = Vec::new(alloc);
    bytes.extend_from_slice(&number.to_le_bytes())?;
    bytes.push(packages.len() as u8)?;
    for delivered in packages {
        push_entry(&mut bytes, delivered)?;
    }
    Ok(bytes)
}

// A page of the package of component `k`.
fn push_piece(
    alloc: Global,
    into: &mut Vec<u8>,
    k: u8,
    page: u8,
    bytes: &[u8],
) -> Result<(), AllocError>
    requires { length bytes.now ≤ 256 }
    ensures { OnOk result (into.new.items ≡ into.old.items ++ frame_bytes (piece_frame k page bytes.now)) }
{
    let mut payload = Vec::from_array(alloc, [k, page])?;
    payload.extend_from_slice(bytes)?;
    push_frame(into, PIECE, &payload)
}

// The pieces of the package of component `k`, page by page.
fn push_pieces(alloc: Global, into: &mut Vec<u8>, k: u8, bytes: &[u8]) -> Result<(), AllocError>
    requires { length bytes.now ≤ 9984 }
    ensures { OnOk result (into.new.items ≡ into.old.items
        ++ stream_of (pieces_of k 0 (pages_of bytes.now) bytes.now)) }
{
    let mut at = 0;
    let mut page = 0u8;
    while at < bytes.len() {
        let end = (at + 256).min(bytes.len());
        push_piece(alloc, into, k, page, &bytes[at..end])?;
        at += 256;
        page += 1;
    }
    Ok(())
}

// Whether a release has this version of this component.
fn has_version(olds: &[Delivered], delivered: &Delivered) -> bool
    ensures { result ≡ has_version olds.now delivered.now }
{
    olds.iter().any(|o| o.component == delivered.component && o.version == delivered.version)
}

// The pieces of the package of component `k`, unless the older release has it.
fn push_new(
    alloc: Global,
    into: &mut Vec<u8>,
    olds: &[Delivered],
    k: u8,
    delivered: &Delivered,
) -> Result<(), AllocError>
    requires { length delivered.now.bytes ≤ 9984 }
    ensures { OnOk result (into.new.items ≡ into.old.items
        ++ stream_of (if has_version olds.now delivered.now then []
        else pieces_of k 0 (pages_of delivered.now.bytes) delivered.now.bytes)) }
{
    if has_version(olds, delivered) {
        return Ok(());
    }
    push_pieces(alloc, into, k, delivered.bytes.as_slice())
}

// The pieces of all components.
fn push_all(
    alloc: Global,
    into: &mut Vec<u8>,
    olds: &[Delivered],
    news: &[Delivered],
) -> Result<(), AllocError>
    requires few { length news.now ≤ 16 }
    requires short { All (λ d. length d.bytes ≤ 9984) news.now }
    ensures { OnOk result (into.new.items ≡ into.old.items
        ++ stream_of (pieces_from olds.now 0 news.now)) }
{
    let mut k = 0u8;
    for delivered in news {
        push_new(alloc, into, olds, k, delivered)?;
        k += 1;
    }
    Ok(())
}

// The frame MANIFEST of a release.
fn push_manifest(
    alloc: Global,
    into: &mut Vec<u8>,
    number: u32,
    news: &[Delivered],
) -> Result<(), AllocError>
    requires few { length news.now ≤ 16 }
    requires short { All (λ d. length d.bytes ≤ 9984) news.now }
    ensures { OnOk result (into.new.items ≡ into.old.items
        ++ frame_bytes (manifest_frame (release_of_packages number news.now))) }
{
    let manifest = manifest(alloc, number, news)?;
    push_frame(into, MANIFEST, &manifest)?;
    Ok(())
}

// All frames of an update to another release.
fn frames_between(
    alloc: Global,
    olds: &[Delivered],
    number: u32,
    news: &[Delivered],
) -> Result<Vec<u8>, AllocError>
    requires few { length news.now ≤ 16 }
    requires short { All (λ d. length d.bytes ≤ 9984) news.now }
    ensures { IfOk result (λ v. v.items ≡ stream_of (frames_between olds.now number news.now)) }
{
    let mut bytes = Vec::new(alloc);
    push_manifest(alloc, &mut bytes, number, news)?;
    push_all(alloc, &mut bytes, olds, news)?;
    push_frame(&mut bytes, LINK, &[])?;
    push_frame(&mut bytes, COMMIT, &[])?;
    push_frame(&mut bytes, END, &[])?;
    Ok(bytes)
}

/// The frames that bring a mote from release `have`, of the packages `olds`, to release `number`, of the packages `news`, as they go
/// down the line: END alone where that is the same release. There are at most 16 packages, each of at most 9,984 bytes.
pub fn update(
    alloc: Global,
    have: u32,
    olds: &[Delivered],
    number: u32,
    news: &[Delivered],
) -> Result<Vec<u8>, AllocError>
    requires few { length news.now ≤ 16 }
    requires short { All (λ d. length d.bytes ≤ 9984) news.now }
    ensures { IfOk result (λ v. v.items ≡ stream_of (update_frames have olds.now number news.now)) }
{
    if have == number {
        let mut bytes = Vec::new(alloc);
        push_frame(&mut bytes, END, &[])?;
        return Ok(bytes);
    }
    let bytes = frames_between(alloc, olds, number, news)?;
    Ok(bytes)
}
