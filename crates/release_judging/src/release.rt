//! The rule of releases.

ghost use Rattle.std.specs.Prelude.{◌≡◌, ◌≤◌, true, IfOk, IfErr, IfSome, Some, None, length, map};
ghost use Rattle.std.specs.Option.{option_map};
ghost use Rattle.component_package.specs.packages.Reading.{component_of};
ghost use Rattle.component_package.specs.link.Link.{link_cause, IsImage};
ghost use Rattle.full_linker.specs.Faults.{Says};
ghost use Rattle.release_rows.specs.Change.{IsPartList};
ghost use Rattle.release_rows.specs.Kept.{packages_of};
ghost use Rattle.release_rows.specs.View.{Told, Reads};
ghost use Rattle.release_judging.specs.Judging.{are_distinct as distinct_test, numbered_parts, judged_parts, judged_packages, judged_set, judged_release, IsSoundly};
ghost use Rattle.release_judging.specs.Packages.{ArePackagesOf};

use crate::judged::Judged;
use crate::numbers::are_distinct;
use crate::refusal::{link_refusal, refused};
use crate::text::text_of;
use component_package::Bytes;
use full_linker::{LinkFault, link};
use release_rows::{Effect, Numbered, NumberedParts, Part, Rows, RowsFault};
use std::alloc::{AllocError, Global};

// The parts with their components' numbers, where each component is there.
fn number_parts<R: Rows>(
    alloc: Global,
    rows: &mut R,
    parts: &[Part],
) -> Result<Option<Vec<Numbered>>, RowsFault>
    ensures parts { IfOk result (λ r. Told (R.view rows.old) (λ t. option_map (λ v. v.items) r ≡ numbered_parts t parts.now)) }
    ensures count { IfOk result (λ r. IfSome r (λ v. length v.items ≡ length parts.now)) }
    ensures reads { Reads result (R.view rows.old) (R.view rows.new) }
{
    let mut numbered = Vec::new(alloc);
    for part in parts {
        let Some(component) = rows.component_number(part.component.as_str())? else {
            return Ok(None);
        };
        numbered.push(Numbered {
            component,
            version: part.version,
        })?;
    }
    Ok(Some(numbered))
}

/// The packages of parts, where each is there.
pub fn read_packages<R: Rows>(
    alloc: Global,
    rows: &mut R,
    parts: &[Numbered],
) -> Result<Option<Vec<Bytes>>, RowsFault>
    ensures packages { IfOk result (λ r. Told (R.view rows.old) (λ t. option_map (λ v. v.items) r ≡ packages_of t parts.now)) }
    ensures each { IfOk result (λ r. IfSome r (λ v. ArePackagesOf parts.now v.items)) }
    ensures reads { Reads result (R.view rows.old) (R.view rows.new) }
{
    let mut packages = Vec::new(alloc);
    for part in parts {
        let Some(package) = rows.package(part.component, part.version)? else {
            return Ok(None);
        };
        packages.push(package)?;
    }
    Ok(Some(packages))
}

fn components_of(alloc: Global, parts: &[Numbered]) -> Result<Vec<u16>, AllocError>
    ensures { IfOk result (λ v. v.items ≡ map (λ p. p.component) parts.now) }
{
    let mut components = Vec::new(alloc);
    for part in parts {
        components.push(part.component)?;
    }
    Ok(components)
}

// What the rules say of parts whose set nothing refuses.
fn accept_set<R: Rows>(
    alloc: Global,
    rows: &mut R,
    mote: &str,
    parts: Vec<Numbered>,
) -> Result<Judged, RowsFault>
    requires { IsPartList parts.items }
    ensures judged { IfOk result (λ j. Told (R.view rows.old) (λ t. j ≡ judged_set t mote.now parts.items None)) }
    ensures sound { IfOk result IsSoundly }
    ensures reads { Reads result (R.view rows.old) (R.view rows.new) }
{
    let count = rows.release_count(mote)?;
    if u32::MAX <= count {
        return Ok(refused(alloc, 54, &[])?);
    }
    let mote = text_of(alloc, mote)?;
    let parts = NumberedParts::of(parts);
    Ok(Judged::Does(Effect::Release {
        mote,
        number: count + 1,
        parts,
    }))
}

/// The image of packages of parts, or why there is none.
pub(crate) fn link_packages(
    alloc: Global,
    _parts: &[Numbered],
    packages: &[Bytes],
) -> Result<Vec<u8>, LinkFault>
    requires parts { IsPartList _parts.now }
    requires packages { ArePackagesOf _parts.now packages.now }
    ensures image { IfOk result (λ v. IsImage (map component_of packages.now) v.items) }
    ensures fault { IfErr result (λ f. Says f (link_cause (map component_of packages.now))) }
{
    link(alloc, packages)
}

// What the rules say of parts with their packages.
fn judge_set<R: Rows>(
    alloc: Global,
    rows: &mut R,
    mote: &str,
    parts: Vec<Numbered>,
    packages: &[Bytes],
) -> Result<Judged, RowsFault>
    requires parts { IsPartList parts.items }
    requires packages { ArePackagesOf parts.items packages.now }
    ensures judged { IfOk result (λ j. Told (R.view rows.old) (λ t. j ≡ judged_packages t mote.now parts.items (Some packages.now))) }
    ensures sound { IfOk result IsSoundly }
    ensures reads { Reads result (R.view rows.old) (R.view rows.new) }
{
    match link_packages(alloc, &parts, packages) {
        Ok(_image) => accept_set(alloc, rows, mote, parts),
        Err(fault) => Ok(link_refusal(alloc, fault)?),
    }
}

// 1 to 16 parts of different components are the parts of a release. It does nothing: its contract is what the proof of `judge_parts` reads.
fn are_parts(_parts: &[Numbered])
    requires some { 1 ≤ length _parts.now }
    requires few { length _parts.now ≤ 16 }
    requires distinct { distinct_test (map (λ p. p.component) _parts.now) ≡ true }
    ensures { IsPartList _parts.now }
{}

// What the rules say of parts whose components are there.
fn judge_parts<R: Rows>(
    alloc: Global,
    rows: &mut R,
    mote: &str,
    parts: Vec<Numbered>,
) -> Result<Judged, RowsFault>
    requires { (1 ≤ length parts.items) × (length parts.items ≤ 16) }
    ensures judged { IfOk result (λ j. Told (R.view rows.old) (λ t. j ≡ judged_parts t mote.now (Some parts.items))) }
    ensures sound { IfOk result IsSoundly }
    ensures reads { Reads result (R.view rows.old) (R.view rows.new) }
{
    let components = components_of(alloc, &parts)?;
    if !are_distinct(&components) {
        return Ok(Judged::NoRow);
    }
    are_parts(&parts);
    let Some(packages) = read_packages(alloc, rows, &parts)? else {
        return Ok(Judged::NoRow);
    };
    judge_set(alloc, rows, mote, parts, &packages)
}

/// What the rules say of a release of 1 to 16 parts for a mote.
pub fn judge_release<R: Rows>(
    alloc: Global,
    rows: &mut R,
    mote: &str,
    parts: &[Part],
) -> Result<Judged, RowsFault>
    requires { (1 ≤ length parts.now) × (length parts.now ≤ 16) }
    ensures judged { IfOk result (λ j. Told (R.view rows.old) (λ t. j ≡ judged_release t mote.now parts.now)) }
    ensures sound { IfOk result IsSoundly }
    ensures reads { Reads result (R.view rows.old) (R.view rows.new) }
{
    let Some(numbered) = number_parts(alloc, rows, parts)? else {
        return Ok(Judged::NoRow);
    };
    judge_parts(alloc, rows, mote, numbered)
}
