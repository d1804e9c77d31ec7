//! Whether the relocations of a set can be listed.

ghost use Rattle.std.specs.Prelude.{◌≡◌, ◌<◌, ◌≤◌, ◌*◌, true, false, IfErr, IfOk, OnOk, Some, List, slice_get, length, take};
ghost use Rattle.std.specs.List.{sum_by};
ghost use Rattle.flash_pages.specs.State.{State};
ghost use Rattle.flash_pages.specs.Board.{View, Reads, Told, FlashFaultsWhere};
ghost use Rattle.component_package.specs.packages.Component.{Component};
ghost use Rattle.component_package.specs.link.Link.{first_cause, relocations_cause, sites_cause, sites_in};
ghost use Rattle.component_package.specs.link.Areas.{MergedSymbol, Tells};
ghost use Rattle.component_package.specs.link.Pages.{IsTableOf, address_in};
ghost use Rattle.layout_plan.specs.Plan.{IsPlan};
ghost use Rattle.kept_store.specs.Sets.{IsSet, HoldsSet, header_at};
ghost use Rattle.kept_symbols.specs.Stored.{IsPlanOf, symbol_area};
ghost use Rattle.kept_symbols.specs.Lookup.{KeepsSymbols};
ghost use Rattle.kept_relocs.specs.List.{relocs_of, CountIs, CauseIs, cause_with, cause_from, is_build_fault, is_at_site};
ghost use Rattle.kept_relocs.specs.Value.{IsSomePlan};

use crate::arrays::rooms;
use crate::fault::BuildFault;
use crate::value::check_site;
use component_package::Site;
use external_flash::PageReader;
use flash_pages::Board;
use kept_store::{StoredSet, read_reloc};
use kept_symbols::SymbolReader;
use layout_plan::Plan;

// The most relocations that a list has room for.
const MOST: u32 = 8192;

// The number of relocations of all packages, by their headers.
fn sum_of(set: &StoredSet) -> u32
    requires { set.now.slots.manifest.count ≤ 16 }
    ensures { result ≡ relocs_of set.now }
{
    let mut sum = 0u32;
    for k in 0..set.slots.manifest.count {
        sum += set.headers[k as usize].relocs as u32;
    }
    sum
}

/// The number of relocations of the set, or `Relocations` where they are more than 8,192.
pub fn count_relocs(set: &StoredSet) -> Result<u16, BuildFault>
    requires set { IsSet set.now }
    ensures count { CountIs result (relocs_of set.now) }
    ensures few { OnOk result (relocs_of set.now ≤ 8192) }
    // Where a board holds the set, this is what its packages have.
    ensures cause { (s : State) → (components : List Component) →
        HoldsSet s set.now components →
        CauseIs result (relocations_cause components) }
{
    rooms(set);
    let sum = sum_of(set);
    if MOST < sum {
        return Err(BuildFault::Relocations(sum));
    }
    Ok(sum as u16)
}

// The first fault at a relocation of component `k`.
fn check_component<B: Board>(
    board: &mut B,
    symbols: &mut SymbolReader,
    set: &StoredSet,
    plan: &Plan,
    k: u8,
) -> Result<(), BuildFault>
    requires set { IsSet set.now }
    requires plan { IsPlanOf set.now plan.now }
    requires component { k < set.now.slots.manifest.count }
    ensures answer { is_build_fault result ≡ false → Told (B.view board.old) (λ s.
        KeepsSymbols s symbols.old → (components : List Component) →
        HoldsSet s set.now components → (table : List MergedSymbol) →
        Tells (symbol_area s) table → (c : Component) → slice_get components k ≡ Some c →
        CauseIs result (first_cause (cause_with (address_in table) components) (sites_in k
        c))) }
    ensures keeps { OnOk result (Told (B.view board.old) (λ s. KeepsSymbols s symbols.old →
        KeepsSymbols s symbols.new)) }
    ensures kind { IfErr result (λ f. is_at_site f ≡ true) }
    ensures reads { Reads (B.view board.old) (B.view board.new) }
    ensures faults { FlashFaultsWhere (is_build_fault result) (B.view board.old) (B.view
        board.new) }
{
    rooms(set);
    let mut reader = PageReader::new();
    for index in 0..set.headers[k as usize].relocs {
        let Ok(reloc) = read_reloc(board, set, &mut reader, k, index) else {
            return Err(BuildFault::Fault);
        };
        let site = Site {
            component: k,
            index,
            reloc,
        };
        match check_site(board, symbols, plan, &site) {
            Ok(()) => {}
            Err(fault) => return Err(fault),
        }
    }
    Ok(())
}

/// The first relocation of the set, by component and then by relocation, whose field can't be patched with the addresses that the symbol
/// area has: `Undefined` where its target has none, or `Range` where the field can't hold the value. `Fault` comes only where flash faults
/// rose.
pub fn check_relocs<B: Board>(board: &mut B, set: &StoredSet, plan: &Plan) -> Result<(), BuildFault>
    requires set { IsSet set.now }
    requires plan { IsPlanOf set.now plan.now }
    ensures answer { is_build_fault result ≡ false → Told (B.view board.old) (λ s.
        (components : List Component) →
        HoldsSet s set.now components → (table : List MergedSymbol) → Tells (symbol_area s) table →
        CauseIs result (cause_from table components)) }
    // Where the symbols are the set's own, that is the linker's answer.
    ensures own { is_build_fault result ≡ false → Told (B.view board.old) (λ s.
        (components : List Component) →
        HoldsSet s set.now components → (table : List MergedSymbol) → IsTableOf components table →
        Tells (symbol_area s) table → CauseIs result (sites_cause components)) }
    ensures kind { IfErr result (λ f. is_at_site f ≡ true) }
    ensures reads { Reads (B.view board.old) (B.view board.new) }
    ensures faults { FlashFaultsWhere (is_build_fault result) (B.view board.old) (B.view
        board.new) }
{
    rooms(set);
    let mut symbols = SymbolReader::new();
    for k in 0..set.slots.manifest.count {
        match check_component(board, &mut symbols, set, plan, k) {
            Ok(()) => {}
            Err(fault) => return Err(fault),
        }
    }
    Ok(())
}
