//! What a relocation's field is to hold, by the plan of the set and the symbols in their area.

ghost use Rattle.std.specs.Prelude.{◌≡◌, ◌<◌, ◌≤◌, ◌^◌, ◌+ℤ◌, pos, true, false, IfOk, IfErr, OnOk, Some, None, List, ℕ, length, if◌then◌else◌};
ghost use Rattle.std.specs.Option.{option_or};
ghost use Rattle.flash_pages.specs.State.{State};
ghost use Rattle.flash_pages.specs.Board.{View, Reads, Told, FlashFaults, FlashFaultsWhere};
ghost use Rattle.avr_reloc.specs.Kind.{fault_of};
ghost use Rattle.avr_reloc.specs.Field.{IsNear};
ghost use Rattle.component_package.specs.packages.Component.{Component};
ghost use Rattle.component_package.specs.link.Layout.{Room};
ghost use Rattle.component_package.specs.link.Link.{rooms_of, base_of_place, target_with, place_of_site, fixup_with, range_cause};
ghost use Rattle.component_package.specs.link.Areas.{MergedSymbol, Tells};
ghost use Rattle.component_package.specs.link.Pages.{address_in};
ghost use Rattle.layout_plan.specs.Plan.{IsPlan, IsPlanned};
ghost use Rattle.kept_symbols.specs.Stored.{symbol_area};
ghost use Rattle.kept_symbols.specs.Lookup.{KeepsSymbols};
ghost use Rattle.kept_relocs.specs.List.{cause_with, CauseIs, is_build_fault, is_at_site};
ghost use Rattle.kept_relocs.specs.Value.{IsSomePlan};

use crate::fault::BuildFault;
use avr_reloc::{Fixup, RangeFault, RelocType, patch_of};
use component_package::{Place, Site};
use flash_pages::{Board, Failed};
use kept_symbols::{SymbolReader, read_address};
use layout_plan::{Plan, linker_symbol};

// Where a part of a component stands.
fn base(plan: &Plan, k: u8, place: Place) -> u32
    requires plan { IsSomePlan plan.now }
    requires component { k < plan.now.count }
    ensures { (set : List Component) → IsPlan (rooms_of set) plan.now →
        result ≡ base_of_place set k place }
{
    let k = k as usize;
    match place {
        Place::Code => plan.code[k],
        Place::Init => plan.ram[k],
        Place::Bss => plan.bss[k],
        Place::Absolute => 0,
    }
}

// Where the field lies in the image.
fn place_of(plan: &Plan, site: &Site) -> u32
    requires plan { IsSomePlan plan.now }
    requires component { site.now.component < plan.now.count }
    ensures place { (set : List Component) → IsPlan (rooms_of set) plan.now →
        result ≡ place_of_site set site.now }
    ensures small { result < 2 ^ 24 }
{
    let k = site.component as usize;
    let part = if site.reloc.in_init {
        plan.load[k]
    } else {
        plan.code[k]
    };
    part + site.reloc.offset as u32
}

// The value of a symbol; a weak reference to none is 0.
fn symbol_value<B: Board>(
    board: &mut B,
    symbols: &mut SymbolReader,
    symbol: u16,
    weak: bool,
) -> Result<Option<u32>, Failed>
    ensures answer { IfOk result (λ o. Told (B.view board.old) (λ s. KeepsSymbols s symbols.old →
        (table : List MergedSymbol) → Tells (symbol_area s) table →
        o ≡ option_or (address_in table symbol) (if weak then Some 0 else None))) }
    ensures keeps { OnOk result (Told (B.view board.old) (λ s. KeepsSymbols s symbols.old →
        KeepsSymbols s symbols.new)) }
    ensures reads { Reads (B.view board.old) (B.view board.new) }
    ensures faults { FlashFaults result (B.view board.old) (B.view board.new) }
{
    let Ok(address) = read_address(board, symbols, symbol) else {
        return Err(Failed);
    };
    if let Some(address) = address {
        return Ok(Some(address));
    }
    if weak {
        return Ok(Some(0));
    }
    Ok(None)
}

// S, the value of a relocation's target.
fn target_of<B: Board>(
    board: &mut B,
    symbols: &mut SymbolReader,
    plan: &Plan,
    site: &Site,
) -> Result<Option<u32>, Failed>
    requires plan { IsSomePlan plan.now }
    requires component { site.now.component < plan.now.count }
    ensures answer { IfOk result (λ o. Told (B.view board.old) (λ s. KeepsSymbols s symbols.old →
        (set : List Component) (table : List MergedSymbol) → IsPlan (rooms_of set) plan.now →
        Tells (symbol_area s) table → o ≡ target_with (address_in table) set site.now)) }
    ensures keeps { OnOk result (Told (B.view board.old) (λ s. KeepsSymbols s symbols.old →
        KeepsSymbols s symbols.new)) }
    ensures reads { Reads (B.view board.old) (B.view board.new) }
    ensures faults { FlashFaults result (B.view board.old) (B.view board.new) }
{
    let target = site.reloc.target;
    match target {
        0 => Ok(Some(base(plan, site.component, Place::Code))),
        1 => Ok(Some(base(plan, site.component, Place::Init))),
        2 => Ok(Some(base(plan, site.component, Place::Bss))),
        3..=10 => Ok(Some(linker_symbol(plan, target))),
        _ => {
            let value = symbol_value(board, symbols, target, site.reloc.weak)?;
            Ok(value)
        }
    }
}

// S+A.
fn sum(target: u32, addend: i16) -> i64
    ensures sum { result ≡ pos target +ℤ addend }
    ensures near { IsNear result }
{
    target as i64 + addend as i64
}

/// The field of a relocation, with the value that it is to hold. Where its target has no value, that counts as 0.
pub(crate) fn fixup_of<B: Board>(
    board: &mut B,
    symbols: &mut SymbolReader,
    plan: &Plan,
    site: &Site,
) -> Result<Fixup, Failed>
    requires plan { IsSomePlan plan.now }
    requires component { site.now.component < plan.now.count }
    ensures fixup { IfOk result (λ x. Told (B.view board.old) (λ s. KeepsSymbols s symbols.old →
        (set : List Component) (table : List MergedSymbol) → IsPlan (rooms_of set) plan.now →
        Tells (symbol_area s) table → x ≡ fixup_with (address_in table) set site.now)) }
    ensures keeps { OnOk result (Told (B.view board.old) (λ s. KeepsSymbols s symbols.old →
        KeepsSymbols s symbols.new)) }
    ensures reads { Reads (B.view board.old) (B.view board.new) }
    ensures faults { FlashFaults result (B.view board.old) (B.view board.new) }
{
    let Ok(target) = target_of(board, symbols, plan, site) else {
        return Err(Failed);
    };
    Ok(Fixup {
        place: place_of(plan, site),
        kind: site.reloc.kind,
        s_plus_a: sum(target.unwrap_or(0), site.reloc.addend),
    })
}

// Why a field can't hold a value.
fn fault_in(kind: RelocType, s_plus_a: i64, place: u32) -> Option<RangeFault>
    requires { IsNear s_plus_a }
    ensures { result ≡ fault_of kind s_plus_a (pos place) }
{
    patch_of(kind, s_plus_a, place as i64).err()
}

// Whether the field of a relocation can be patched, where its target has this value.
fn check_value(plan: &Plan, site: &Site, target: Option<u32>) -> Result<(), BuildFault>
    requires plan { IsSomePlan plan.now }
    requires component { site.now.component < plan.now.count }
    ensures answer { (set : List Component) → IsPlan (rooms_of set) plan.now →
        CauseIs result (range_cause set site.now target) }
    ensures kind { IfErr result (λ f. is_at_site f ≡ true) }
    ensures no_fault { is_build_fault result ≡ false }
{
    let Some(target) = target else {
        return Err(BuildFault::Undefined(site.component, site.index, site.reloc.target));
    };
    let place = place_of(plan, site);
    match fault_in(site.reloc.kind, sum(target, site.reloc.addend), place) {
        None => Ok(()),
        Some(fault) => Err(BuildFault::Range(site.component, site.index, fault)),
    }
}

/// Whether the field of a relocation can be patched: `Undefined` where its target has no value, `Range` where the field can't hold the value.
pub(crate) fn check_site<B: Board>(
    board: &mut B,
    symbols: &mut SymbolReader,
    plan: &Plan,
    site: &Site,
) -> Result<(), BuildFault>
    requires plan { IsSomePlan plan.now }
    requires component { site.now.component < plan.now.count }
    ensures answer { is_build_fault result ≡ false → Told (B.view board.old) (λ s.
        KeepsSymbols s symbols.old → (set : List Component) (table : List MergedSymbol) → IsPlan (rooms_of set) plan.now →
        Tells (symbol_area s) table →
        CauseIs result (cause_with (address_in table) set site.now)) }
    ensures keeps { OnOk result (Told (B.view board.old) (λ s. KeepsSymbols s symbols.old →
        KeepsSymbols s symbols.new)) }
    ensures kind { IfErr result (λ f. is_at_site f ≡ true) }
    ensures reads { Reads (B.view board.old) (B.view board.new) }
    ensures faults { FlashFaultsWhere (is_build_fault result) (B.view board.old) (B.view
        board.new) }
{
    let Ok(target) = target_of(board, symbols, plan, site) else {
        return Err(BuildFault::Fault);
    };
    check_value(plan, site, target)
}
