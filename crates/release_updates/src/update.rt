//! The update of a mote to its last release.

ghost use Rattle.std.specs.Prelude.{◌≡◌, ◌≢◌, ◌∷◌, [], IfOk};
ghost use Rattle.std.specs.Option.{option_map};
ghost use Rattle.component_package.specs.mote.Frames.{stream_of};
ghost use Rattle.release_rows.specs.Change.{IsPartList};
ghost use Rattle.release_rows.specs.View.{Told, Reads};
ghost use Rattle.release_judging.specs.Packages.{ArePackagesOf};
ghost use Rattle.update_laws.specs.Update.{update_frames as frames_of};
ghost use Rattle.release_updates.specs.Updates.{with_packages, parts_alone, release_parts as parts_of_release, release_delivered, update_between as frames_between, update_bytes};

use crate::frames::{push_end, push_last, push_manifest};
use crate::manifest::manifest_of;
use crate::pieces::{parts_length, push_parts};
use component_package::Bytes;
use release_judging::read_packages;
use release_rows::{Numbered, NumberedParts, Rows, RowsFault};
use std::alloc::{AllocError, Global};

// END alone, for a mote that has its last release.
fn end_alone(alloc: Global) -> Result<Bytes, AllocError>
    ensures { IfOk result (λ b. b ≡ 8 ∷ 0 ∷ 0 ∷ []) }
{
    let mut out = Vec::new(alloc);
    push_end(&mut out)?;
    Ok(Bytes::of(out))
}

// The bytes of the update from release `have` of the parts `olds` to release `last`. All of them are reserved at once.
fn write_update(
    alloc: Global,
    _have: u32,
    olds: &[Numbered],
    last: u32,
    parts: &[Numbered],
    packages: &[Bytes],
) -> Result<Bytes, AllocError>
    requires lower { _have ≢ last }
    requires parts { IsPartList parts.now }
    requires packages { ArePackagesOf parts.now packages.now }
    ensures { IfOk result (λ b. b ≡ stream_of (frames_of _have (parts_alone olds.now) last (with_packages parts.now packages.now))) }
{
    let mut out = Vec::new(alloc);
    out.reserve(17 + 38 * parts.len() + parts_length(olds, parts, packages))?;
    push_manifest(&mut out, &manifest_of(last, parts, packages))?;
    push_parts(&mut out, olds, parts, packages)?;
    push_last(&mut out)?;
    Ok(Bytes::of(out))
}

// The parts of a release; release 0 has none.
fn release_parts<R: Rows>(
    alloc: Global,
    rows: &mut R,
    mote: &str,
    number: u32,
) -> Result<Option<NumberedParts>, RowsFault>
    ensures parts { IfOk result (λ r. Told (R.view rows.old) (λ t. r ≡ parts_of_release t mote.now number)) }
    ensures reads { Reads result (R.view rows.old) (R.view rows.new) }
{
    if number == 0 {
        return Ok(Some(NumberedParts::of(Vec::new(alloc))));
    }
    let parts = rows.release(mote, number)?;
    Ok(parts)
}

// The update from release `have` to release `last`, which is another.
fn update_between<R: Rows>(
    alloc: Global,
    rows: &mut R,
    mote: &str,
    have: u32,
    last: u32,
) -> Result<Option<Bytes>, RowsFault>
    requires lower { have ≢ last }
    requires some { last ≢ 0 }
    ensures frames { IfOk result (λ r. Told (R.view rows.old) (λ t. r ≡ option_map stream_of
        (frames_between have last (parts_of_release t mote.now have) (release_delivered t mote.now last)))) }
    ensures reads { Reads result (R.view rows.old) (R.view rows.new) }
{
    let Some(olds) = release_parts(alloc, rows, mote, have)? else {
        return Ok(None);
    };
    let Some(parts) = rows.release(mote, last)? else {
        return Ok(None);
    };
    let Some(packages) = read_packages(alloc, rows, parts.as_slice())? else {
        return Ok(None);
    };
    let update = write_update(
        alloc,
        have,
        olds.as_slice(),
        last,
        parts.as_slice(),
        &packages,
    )?;
    Ok(Some(update))
}

/// The frames that bring a mote from release `have`, 0 where it has none, to its last release, on the line: MANIFEST, the pieces of each
/// component that release `have` hasn't in the same version, LINK, COMMIT and END; END alone where `have` is the last. Rows are only read,
/// and of release `have` its parts alone.
///
/// `None` comes where the mote has no release, where `have` is above its last, and where a row of either release isn't there, which no kept
/// tables lack. `Failed` comes only where a call on the rows failed, and `Memory` where there was none.
pub fn update_frames<R: Rows>(
    alloc: Global,
    rows: &mut R,
    mote: &str,
    have: u32,
) -> Result<Option<Bytes>, RowsFault>
    ensures frames { IfOk result (λ r. Told (R.view rows.old) (λ t. r ≡ update_bytes t mote.now have)) }
    ensures reads { Reads result (R.view rows.old) (R.view rows.new) }
{
    let last = rows.release_count(mote)?;
    if last == 0 {
        return Ok(None);
    }
    if last < have {
        return Ok(None);
    }
    if have == last {
        return Ok(Some(end_alone(alloc)?));
    }
    let update = update_between(alloc, rows, mote, have, last)?;
    Ok(update)
}
