//! The manifest of a release.

ghost use Rattle.std.specs.Prelude.{◌≡◌, ◌≤◌, length};
ghost use Rattle.component_package.specs.packages.Manifest.{IsManifest, release_of};
ghost use Rattle.release_rows.specs.Change.{IsPartList};
ghost use Rattle.release_judging.specs.Packages.{ArePackagesOf};
ghost use Rattle.update_laws.specs.Update.{entry_of as delivered_entry, release_of_packages};
ghost use Rattle.release_updates.specs.Updates.{with_packages};

use component_package::{Bytes, Entry, Manifest};
use release_rows::Numbered;
use sha2::{Digest, Sha256};

const NO_ENTRY: Entry = Entry {
    component: 0,
    version: 0,
    length: 0,
    digest: [0; 32],
};

// The entry of a part with this package.
fn entry_of(part: Numbered, bytes: &[u8]) -> Entry
    requires { length bytes.now ≤ 9984 }
    ensures { result ≡ delivered_entry (record { component = part.component; version = part.version; bytes = bytes.now }) }
{
    Entry {
        component: part.component,
        version: part.version,
        length: bytes.len() as u16,
        digest: Sha256::digest(bytes),
    }
}

/// The manifest of a release of these parts with their packages. Each package is digested once.
pub(crate) fn manifest_of(release: u32, parts: &[Numbered], packages: &[Bytes]) -> Manifest
    requires parts { IsPartList parts.now }
    requires packages { ArePackagesOf parts.now packages.now }
    ensures release { release_of result ≡ release_of_packages release (with_packages parts.now packages.now) }
    ensures manifest { IsManifest result }
{
    let mut entries = [NO_ENTRY; 16];
    for i in 0..parts.len() {
        entries[i] = entry_of(parts[i], packages[i].as_slice());
    }
    Manifest {
        release,
        count: parts.len() as u8,
        entries,
    }
}
