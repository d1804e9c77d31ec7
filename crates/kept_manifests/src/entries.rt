//! Entries of a manifest as bytes.

ghost use Rattle.std.specs.Prelude.{◌≡◌, ◌==◌, ◌+◌, ◌≤◌, ◌<◌, ◌++◌, ◌∷◌, [], length, take, drop, slice_range};
ghost use Rattle.std.specs.List.{list_any};
ghost use Rattle.component_package.specs.packages.Numbers.{u16_at, u16_bytes, u32_at, u32_bytes};
ghost use Rattle.component_package.specs.packages.Manifest.{manifest_entry_at, manifest_entry_bytes};
ghost use Rattle.component_package.specs.packages.ManifestSteps.{fault_of_entry};

use component_package::limits::PACKAGE_BYTES;
use component_package::{Entry, Manifest, ManifestFault};

fn u16_in(b: &[u8], at: usize) -> u16
    requires { at + 1 < length b.now }
    ensures { result ≡ u16_at b.now at }
{
    u16::from_le_bytes([b[at], b[at + 1]])
}

pub(crate) fn u32_in(bytes: &[u8], at: usize) -> u32
    requires { at + 3 < length bytes.now }
    ensures { result ≡ u32_at bytes.now at }
{
    u16_in(bytes, at) as u32 + 65536 * u16_in(bytes, at + 2) as u32
}

fn digest_in(bytes: &[u8], at: usize) -> [u8; 32]
    requires { at + 32 ≤ length bytes.now }
    ensures { result ≡ slice_range bytes.now at (at + 32) }
{
    let mut digest = [0; 32];
    digest.copy_from_slice(&bytes[at..at + 32]);
    digest
}

/// The entry whose 38 bytes begin at a place.
pub(crate) fn entry_in(bytes: &[u8], at: usize) -> Entry
    requires { at + 38 ≤ length bytes.now }
    ensures { result ≡ manifest_entry_at bytes.now at }
{
    Entry {
        component: u16_in(bytes, at),
        version: u16_in(bytes, at + 2),
        length: u16_in(bytes, at + 4),
        digest: digest_in(bytes, at + 6),
    }
}

fn has_component(entries: &[Entry], component: u16) -> bool
    ensures { result ≡ list_any (λ e. e.component == component) entries.now }
{
    entries.iter().any(|e| e.component == component)
}

/// What is wrong with an entry behind these.
pub(crate) fn entry_fault(before: &[Entry], entry: &Entry) -> Option<ManifestFault>
    ensures { result ≡ fault_of_entry before.now entry.now }
{
    if has_component(before, entry.component) {
        return Some(ManifestFault::Repeated(entry.component));
    }
    if entry.length < 32 {
        return Some(ManifestFault::Length(entry.length));
    }
    if entry.length > PACKAGE_BYTES {
        return Some(ManifestFault::Length(entry.length));
    }
    None
}

// The numbers of an entry.
fn numbers_array(component: u16, version: u16, length: u16) -> [u8; 6]
    ensures { result ≡ u16_bytes component ++ (u16_bytes version ++ u16_bytes length) }
{
    let [component_low, component_high] = component.to_le_bytes();
    let [version_low, version_high] = version.to_le_bytes();
    let [length_low, length_high] = length.to_le_bytes();
    [
        component_low,
        component_high,
        version_low,
        version_high,
        length_low,
        length_high,
    ]
}

/// The 38 bytes of an entry.
pub(crate) fn entry_array(e: &Entry) -> [u8; 38]
    ensures { result ≡ manifest_entry_bytes e.now }
{
    let mut bytes = [0; 38];
    put(
        &mut bytes,
        0,
        &numbers_array(e.component, e.version, e.length),
    );
    put(&mut bytes, 6, &e.digest);
    bytes
}

/// The release's number and how many entries it has.
pub(crate) fn front_array(m: &Manifest) -> [u8; 5]
    ensures { result ≡ u32_bytes m.now.release ++ m.now.count ∷ [] }
{
    let [first, second, third, fourth] = m.release.to_le_bytes();
    [first, second, third, fourth, m.count]
}

/// Puts a piece over the bytes from a place on.
pub(crate) fn put(into: &mut [u8], at: usize, piece: &[u8])
    requires { at + length piece.now ≤ length into.old }
    ensures { into.new ≡ take at into.old ++ (piece.now ++ drop (at + length piece.now) into.old) }
{
    into[at..at + piece.len()].copy_from_slice(piece);
}
