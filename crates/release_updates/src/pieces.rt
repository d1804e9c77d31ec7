//! The pieces of packages that the older release hasn't.

ghost use Rattle.std.specs.Prelude.{◌≡◌, ◌≤◌, ◌<◌, ◌*◌, ◌++◌, ◌∷◌, [], ℕ, length, take, drop, OnOk, ◌==◌, ◌&&◌};
ghost use Rattle.std.specs.List.{list_any};
ghost use Rattle.component_package.specs.mote.Frames.{stream_of};
ghost use Rattle.release_rows.specs.Change.{IsPartList};
ghost use Rattle.release_judging.specs.Packages.{ArePackagesOf};
ghost use Rattle.update_laws.specs.Update.{pages_of as pages_in, pieces_of, pieces_from};
ghost use Rattle.release_updates.specs.Updates.{with_packages, parts_alone};

use crate::frames::push_piece;
use component_package::Bytes;
use release_rows::Numbered;
use std::alloc::AllocError;

// How many pages these bytes fill, the last one in part.
fn pages_of(bytes: &[u8]) -> usize
    requires { length bytes.now ≤ 9984 }
    ensures { result ≡ pages_in bytes.now }
{
    (bytes.len() + 255) / 256
}

// The bytes of a page: 256, or what is left in the last.
fn page_of(bytes: &[u8], page: usize) -> &[u8]
    requires short { length bytes.now ≤ 9984 }
    requires inside { page < 39 }
    ensures { result.now ≡ take 256 (drop (256 * page) bytes.now) }
{
    let start = bytes.len().min(256 * page);
    let end = bytes.len().min(256 * page + 256);
    &bytes[start..end]
}

// The pieces of one package, by rising page.
fn push_pieces(out: &mut Vec<u8>, ordinal: u8, bytes: &[u8]) -> Result<(), AllocError>
    requires { length bytes.now ≤ 9984 }
    ensures { OnOk result (out.new.items ≡ out.old.items ++ stream_of (pieces_of ordinal 0 (pages_in bytes.now) bytes.now)) }
{
    for page in 0..pages_of(bytes) {
        push_piece(out, ordinal, page as u8, page_of(bytes, page))?;
    }
    Ok(())
}

// Whether these parts have the same component in the same version.
fn has_version(olds: &[Numbered], part: Numbered) -> bool
    ensures { result ≡ list_any (λ o. o.component == part.component && o.version == part.version) olds.now }
{
    olds.iter().any(|old| old.component == part.component && old.version == part.version)
}

// The pieces of a part's package, unless the older release has the part.
fn push_part(
    out: &mut Vec<u8>,
    olds: &[Numbered],
    ordinal: u8,
    part: Numbered,
    bytes: &[u8],
) -> Result<(), AllocError>
    requires { length bytes.now ≤ 9984 }
    ensures { OnOk result (out.new.items ≡ out.old.items ++ stream_of (pieces_from (parts_alone olds.now) ordinal
        (record { component = part.component; version = part.version; bytes = bytes.now } ∷ []))) }
{
    if has_version(olds, part) {
        return Ok(());
    }
    push_pieces(out, ordinal, bytes)?;
    Ok(())
}

/// The pieces of all parts that the older release hasn't, part by part and by rising page.
pub(crate) fn push_parts(
    out: &mut Vec<u8>,
    olds: &[Numbered],
    parts: &[Numbered],
    packages: &[Bytes],
) -> Result<(), AllocError>
    requires parts { IsPartList parts.now }
    requires packages { ArePackagesOf parts.now packages.now }
    ensures { OnOk result (out.new.items ≡ out.old.items ++ stream_of (pieces_from (parts_alone olds.now) 0 (with_packages parts.now packages.now))) }
{
    for i in 0..parts.len() {
        push_part(out, olds, i as u8, parts[i], packages[i].as_slice())?;
    }
    Ok(())
}

// How many bytes the pieces of a part's package have on the line, unless the older release has the part.
fn part_length(olds: &[Numbered], part: Numbered, bytes: &[u8]) -> usize
    requires { length bytes.now ≤ 9984 }
    ensures length { (k : ℕ) → result ≡ length (stream_of (pieces_from (parts_alone olds.now) k
        (record { component = part.component; version = part.version; bytes = bytes.now } ∷ []))) }
    ensures few { result ≤ 10179 }
{
    if has_version(olds, part) {
        return 0;
    }
    bytes.len() + 5 * pages_of(bytes)
}

/// How many bytes the pieces of all parts that the older release hasn't have on the line.
pub(crate) fn parts_length(olds: &[Numbered], parts: &[Numbered], packages: &[Bytes]) -> usize
    requires parts { IsPartList parts.now }
    requires packages { ArePackagesOf parts.now packages.now }
    ensures length { result ≡ length (stream_of (pieces_from (parts_alone olds.now) 0 (with_packages parts.now packages.now))) }
    ensures few { result ≤ 16 * 10179 }
{
    let mut total = 0;
    for i in 0..parts.len() {
        total += part_length(olds, parts[i], packages[i].as_slice());
    }
    total
}
