//! The relocations of a set.

ghost use Rattle.std.specs.Prelude.{◌≡◌, ◌++◌, ◌≤◌, ◌+◌, ◌*◌, None, length, OnOk, IfOk, IfErr};
ghost use Rattle.component_package.specs.link.Link.{sites_in, sites_of, relocations_cause};
ghost use Rattle.full_linker.specs.Faults.{Says};

use crate::fault::LinkFault;
use component_package::limits::SET_RELOCATIONS;
use component_package::{PackageView, Site};
use std::alloc::{AllocError, Global};

fn push_sites(out: &mut Vec<Site>, k: u8, part: &PackageView<'_>) -> Result<(), AllocError>
    ensures sites { OnOk result (out.new.items ≡ out.old.items ++ sites_in k part.now) }
    ensures small { OnOk result (length out.new.items ≤ length out.old.items + 65535) }
{
    for index in 0..part.header().relocs {
        let reloc = part.reloc(index);
        out.push(Site {
            component: k,
            index,
            reloc,
        })?;
    }
    Ok(())
}

fn all_sites(alloc: Global, set: &[PackageView<'_>]) -> Result<Vec<Site>, AllocError>
    requires { length set.now ≤ 16 }
    ensures sites { IfOk result (λ v. v.items ≡ sites_of set.now) }
    ensures small { IfOk result (λ v. length v.items ≤ 65535 * 16) }
{
    let mut sites = Vec::new(alloc);
    for (k, part) in set.iter().enumerate() {
        push_sites(&mut sites, k as u8, part)?;
    }
    Ok(sites)
}

/// The relocations of a set that hasn't too many, by component and then by their own order.
pub(crate) fn sites_of(alloc: Global, set: &[PackageView<'_>]) -> Result<Vec<Site>, LinkFault>
    requires { length set.now ≤ 16 }
    ensures sites { IfOk result (λ v. v.items ≡ sites_of set.now) }
    ensures few { IfOk result (λ _. relocations_cause set.now ≡ None) }
    ensures fault { IfErr result (λ f. Says f (relocations_cause set.now)) }
{
    let sites = all_sites(alloc, set)?;
    if sites.len() > SET_RELOCATIONS as usize {
        return Err(LinkFault::Relocations(sites.len() as u32));
    }
    Ok(sites)
}
