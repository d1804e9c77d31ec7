//! A set whose parts and symbols have addresses, and what its fields are to hold.

ghost use Rattle.std.specs.Prelude.{◌≡◌, ◌<◌, ◌^◌, ◌+ℤ◌, pos, None, Some, List, length, IfOk, IfErr, if◌then◌else◌};
ghost use Rattle.std.specs.List.{All};
ghost use Rattle.std.specs.Option.{option_or};
ghost use Rattle.std.specs.Result.{result_err};
ghost use Rattle.avr_reloc.specs.Kind.{fault_of};
ghost use Rattle.avr_reloc.specs.Field.{IsNear};
ghost use Rattle.component_package.specs.link.Link.{base_of_place, address_of, target_of, place_of_site, site_cause};
ghost use Rattle.component_package.specs.link.Link.{sites_of, fixup_of, fixups_of, sites_cause};
ghost use Rattle.full_linker.specs.Faults.{Says, Finds};

use crate::fault::LinkFault;
use crate::symbols::Slots;
use avr_reloc::{Fixup, RangeFault, patch_of};
use component_package::{PackageView, Place, Site};
use layout_plan::{Plan, linker_symbol};
use std::alloc::Global;
use std::marker::Model;

/// A set with its plan and the slots of its symbols. Contracts see the set.
#[derive(Drop)]
pub(crate) struct Placed<'a> {
    pub set: &'a [PackageView<'a>],
    pub plan: Plan,
    pub slots: Slots,
}

impl<'a> Model for Placed<'a> {
    ghost use Rattle.component_package.specs.packages.Component.{Component};
    ghost use Rattle.full_linker.specs.Placed.{IsPlaced};
    ghost use Rattle.std.specs.Prelude.{List};

    ghost Value = { List Component };

    ghost view = { λ p. p.set.now };

    ghost invariant = { λ p. IsPlaced p.set.now p.plan p.slots };
}

// S+A.
fn sum(target: u32, addend: i16) -> i64
    ensures sum { result ≡ pos target +ℤ addend }
    ensures near { IsNear result }
{
    target as i64 + addend as i64
}

// Why a field can't hold its value.
fn fault_in(x: &Fixup) -> Option<RangeFault>
    requires { IsNear x.now.s_plus_a }
    ensures { result ≡ fault_of x.now.kind x.now.s_plus_a (pos x.now.place) }
{
    patch_of(x.kind, x.s_plus_a, x.place as i64).err()
}

impl<'a> Placed<'a> {
    // Where a part of a component stands.
    fn base(&self, component: u8, place: Place) -> u32
        requires { component < length self.now }
        ensures base { result ≡ base_of_place self.now component place }
        ensures small { result < 2 ^ 31 }
    {
        let k = component as usize;
        match place {
            Place::Code => self.plan.code[k],
            Place::Init => self.plan.ram[k],
            Place::Bss => self.plan.bss[k],
            Place::Absolute => 0,
        }
    }

    // The address of a symbol that some component exports.
    fn address(&self, symbol: u16) -> Option<u32>
        ensures { result ≡ address_of self.now symbol }
    {
        let slot = self.slots.get(&symbol)?;
        let (component, export) = slot.strong.or(slot.first)?;
        Some(self.base(component, export.place) + export.value as u32)
    }

    // The value of a symbol; a weak reference to none is 0.
    fn symbol_value(&self, symbol: u16, weak: bool) -> Option<u32>
        ensures { result ≡ option_or (address_of self.now symbol) (if weak then Some 0 else None) }
    {
        if let Some(address) = self.address(symbol) {
            return Some(address);
        }
        if weak {
            return Some(0);
        }
        None
    }

    // S, the value of a relocation's target.
    fn target(&self, site: &Site) -> Option<u32>
        requires { site.now.component < length self.now }
        ensures { result ≡ target_of self.now site.now }
    {
        let target = site.reloc.target;
        match target {
            0 => Some(self.base(site.component, Place::Code)),
            1 => Some(self.base(site.component, Place::Init)),
            2 => Some(self.base(site.component, Place::Bss)),
            3..=10 => Some(linker_symbol(&self.plan, target)),
            _ => self.symbol_value(target, site.reloc.weak),
        }
    }

    // Where the field lies in the image.
    fn place(&self, site: &Site) -> u32
        requires { site.now.component < length self.now }
        ensures { result ≡ place_of_site self.now site.now }
    {
        let k = site.component as usize;
        let part = if site.reloc.in_init {
            self.plan.load[k]
        } else {
            self.plan.code[k]
        };
        part + site.reloc.offset as u32
    }

    // The field of a relocation, with the value that it is to hold.
    fn fixup(&self, site: &Site) -> Result<Fixup, LinkFault>
        requires { site.now.component < length self.now }
        ensures fault { Finds (result_err result) (site_cause self.now site.now) }
        ensures fixup { IfOk result (λ x. x ≡ fixup_of self.now site.now) }
        ensures near { IfOk result (λ x. IsNear x.s_plus_a) }
    {
        let Some(target) = self.target(site) else {
            return Err(LinkFault::Undefined(site.component, site.index, site.reloc.target));
        };
        let x = Fixup {
            place: self.place(site),
            kind: site.reloc.kind,
            s_plus_a: sum(target, site.reloc.addend),
        };
        if let Some(fault) = fault_in(&x) {
            return Err(LinkFault::Range(site.component, site.index, fault));
        }
        Ok(x)
    }

    /// The fields of all relocations, or the first fault at one of them.
    pub(crate) fn fixups(&self, alloc: Global, sites: &[Site]) -> Result<Vec<Fixup>, LinkFault>
        requires { sites.now ≡ sites_of self.now }
        ensures fixups { IfOk result (λ v. v.items ≡ fixups_of self.now) }
        ensures near { IfOk result (λ v. All (λ x. IsNear x.s_plus_a) v.items) }
        ensures possible { IfOk result (λ _. sites_cause self.now ≡ None) }
        ensures fault { IfErr result (λ f. Says f (sites_cause self.now)) }
    {
        // Where a field is read, the proof knows what holds of a placed set.
        let _ = &self.set;
        let mut fixups = Vec::new(alloc);
        for site in sites {
            fixups.push(self.fixup(site)?)?;
        }
        Ok(fixups)
    }
}
