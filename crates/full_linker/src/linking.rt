//! From packages to the image.

ghost use Rattle.std.specs.Prelude.{◌≡◌, ◌≤◌, None, map, length, IfOk, IfErr};
ghost use Rattle.std.specs.List.{All, AllPairs};
ghost use Rattle.avr_reloc.specs.Field.{AreBytes, IsNear};
ghost use Rattle.avr_reloc.specs.Fixups.{CanBePut, ArePut, AreApart};
ghost use Rattle.component_package.specs.packages.Reading.{component_of};
ghost use Rattle.component_package.specs.link.Link.{link_cause, plain_of, sites_of, fixups_of, sites_cause, IsImage};
ghost use Rattle.component_package.specs.link.Sets.{IsSet};
ghost use Rattle.full_linker.specs.Faults.{Says};
ghost use Rattle.full_linker.specs.Linkable.{AreLinkable};
ghost use Rattle.full_linker.specs.Placed.{IsPlaced};

use crate::fault::LinkFault;
use crate::parts::{layout, plain, views_of};
use crate::placed::Placed;
use crate::sites::sites_of;
use crate::symbols::{Slots, duplicate, symbols_of};
use avr_reloc::{Fixup, put_all};
use component_package::{Bytes, PackageView, Site};
use layout_plan::Plan;
use std::alloc::{AllocError, Global};

// Each element of a slice of bytes is below 256, which the proof of `patched` reads.
fn are_bytes(_image: &[u8])
    ensures { AreBytes _image.now }
{}

// All code and then all data, with the fields patched.
fn patched(alloc: Global, set: &[PackageView<'_>], fixups: &[Fixup]) -> Result<Vec<u8>, AllocError>
    requires near { All (λ x. IsNear x.s_plus_a) fixups.now }
    requires can { All (CanBePut (length (plain_of set.now))) fixups.now }
    requires apart { AllPairs AreApart fixups.now }
    ensures bytes { IfOk result (λ v. AreBytes v.items) }
    ensures put { IfOk result (λ v. ArePut fixups.now (plain_of set.now) v.items) }
{
    let mut image = plain(alloc, set)?;
    put_all(&mut image, fixups);
    are_bytes(&image);
    Ok(image)
}

// The fields of a set, once its parts and symbols have places.
fn fields_of(
    alloc: Global,
    set: &[PackageView<'_>],
    plan: Plan,
    slots: Slots,
    sites: &[Site],
) -> Result<Vec<Fixup>, LinkFault>
    requires placed { IsPlaced set.now plan slots }
    requires sites { sites.now ≡ sites_of set.now }
    ensures fixups { IfOk result (λ v. v.items ≡ fixups_of set.now) }
    ensures near { IfOk result (λ v. All (λ x. IsNear x.s_plus_a) v.items) }
    ensures possible { IfOk result (λ _. sites_cause set.now ≡ None) }
    ensures fault { IfErr result (λ f. Says f (sites_cause set.now)) }
{
    let placed = Placed { set, plan, slots };
    placed.fixups(alloc, sites)
}

// The image of packages that were read.
fn image_of(alloc: Global, set: &[PackageView<'_>]) -> Result<Vec<u8>, LinkFault>
    requires { IsSet set.now }
    ensures image { IfOk result (λ v. IsImage set.now v.items) }
    ensures fault { IfErr result (λ f. Says f (link_cause set.now)) }
{
    let plan = layout(alloc, set)?;
    let slots = symbols_of(alloc, set)?;
    let sites = sites_of(alloc, set)?;
    if let Some(fault) = duplicate(&slots) {
        return Err(fault);
    }
    let fixups = fields_of(alloc, set, plan, slots, &sites)?;
    Ok(patched(alloc, set, &fixups)?)
}

/// Links packages, in their order, into one image: all code, then all data, with each relocated
/// field patched. There are at most 16 packages, without a fault and of different components. No
/// package at all gives an image of no bytes.
///
/// The image is at most 122,880 bytes long and begins at program address 0. Where there is none,
/// the answer is the first cause, as [`LinkFault`] lists them, or `Memory`.
pub fn link(alloc: Global, set: &[Bytes]) -> Result<Vec<u8>, LinkFault>
    requires { AreLinkable set.now }
    ensures image { IfOk result (λ v. IsImage (map component_of set.now) v.items) }
    ensures fault { IfErr result (λ f. Says f (link_cause (map component_of set.now))) }
{
    let views = views_of(alloc, set)?;
    image_of(alloc, &views)
}
