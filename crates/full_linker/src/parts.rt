//! The parts of a set: its packages, their sizes, and the image before its relocations.

ghost use Rattle.std.specs.Prelude.{◌≡◌, ◌≤◌, None, map, IfOk, IfErr, length};
ghost use Rattle.std.specs.List.{All};
ghost use Rattle.component_package.specs.packages.Reading.{component_of, package_fault};
ghost use Rattle.component_package.specs.packages.Grammar.{IsComponent};
ghost use Rattle.component_package.specs.link.Link.{rooms_of, room_cause, plain_of};
ghost use Rattle.layout_plan.specs.Plan.{rooms, IsPlan, IsPlanned};
ghost use Rattle.full_linker.specs.Faults.{Says};

use crate::fault::LinkFault;
use component_package::{Bytes, PackageView, read_package};
use layout_plan::{Plan, PlanFault, Sizes, plan_of};
use std::alloc::{AllocError, Global};

/// The packages, as their bytes say them.
pub(crate) fn views_of(alloc: Global, set: &[Bytes]) -> Result<Vec<PackageView<'_>>, AllocError>
    requires { All (λ b. package_fault b ≡ None) set.now }
    ensures views { IfOk result (λ v. v.items ≡ map component_of set.now) }
    ensures components { IfOk result (λ v. All IsComponent v.items) }
{
    let mut views = Vec::new(alloc);
    for bytes in set {
        match read_package(bytes.as_slice()) {
            Ok(view) => views.push(view)?,
            Err(_) => unreachable!(),
        }
    }
    Ok(views)
}

fn sizes_of(alloc: Global, set: &[PackageView<'_>]) -> Result<Vec<Sizes>, AllocError>
    ensures { IfOk result (λ v. rooms v.items ≡ rooms_of set.now) }
{
    let mut sizes = Vec::new(alloc);
    for package in set {
        let header = package.header();
        sizes.push(Sizes {
            code: header.code,
            init: header.init,
            bss: header.bss,
        })?;
    }
    Ok(sizes)
}

/// Where the parts stand, if there is room for them.
pub(crate) fn layout(alloc: Global, set: &[PackageView<'_>]) -> Result<Plan, LinkFault>
    requires { length set.now ≤ 16 }
    ensures plan { IfOk result (IsPlan (rooms_of set.now)) }
    ensures planned { IfOk result IsPlanned }
    ensures room { IfOk result (λ _. room_cause (rooms_of set.now) ≡ None) }
    ensures fault { IfErr result (λ f. Says f (room_cause (rooms_of set.now))) }
{
    let sizes = sizes_of(alloc, set)?;
    match plan_of(&sizes) {
        Ok(plan) => Ok(plan),
        Err(PlanFault::Flash(total)) => Err(LinkFault::Flash(total)),
        Err(PlanFault::Ram(total)) => Err(LinkFault::Ram(total)),
    }
}

/// All code, and then all data, not patched.
pub(crate) fn plain(alloc: Global, set: &[PackageView<'_>]) -> Result<Vec<u8>, AllocError>
    ensures { IfOk result (λ v. v.items ≡ plain_of set.now) }
{
    let mut image = Vec::new(alloc);
    for package in set {
        image.extend_from_slice(package.code_bytes())?;
    }
    for package in set {
        image.extend_from_slice(package.init_bytes())?;
    }
    Ok(image)
}
