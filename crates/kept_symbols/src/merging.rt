//! Merging the symbols of a set into the area.

ghost use Rattle.std.specs.Prelude.{◌≡◌, ℕ, ◌≤◌, List, [], true, None, IfOk, Some};
ghost use Rattle.flash_pages.specs.State.{State};
ghost use Rattle.flash_pages.specs.Board.{View, Reads, UsesFlash, WearsOnce, Told, FlashFaultsWhere};
ghost use Rattle.flash_pages.specs.Moments.{LeavesOnly};
ghost use Rattle.component_package.specs.packages.Component.{Component};
ghost use Rattle.component_package.specs.link.Link.{symbols_cause};
ghost use Rattle.kept_store.specs.Sets.{IsSet, HoldsSet};
ghost use Rattle.kept_symbols.specs.Stored.{symbol_area, IsPlanOf, IsOwnSet};
ghost use Rattle.kept_symbols.specs.Answers.{is_fault, is_of_merge, Merges};
ghost use Rattle.kept_symbols.specs.Changes.{OnlySymbols, IsWorn};
ghost use Rattle.kept_symbols.specs.Walks.{IsWalkOf, IsAt};
ghost use Rattle.kept_symbols.specs.Records.{records_in, NextIs, FillIs};

use crate::count::rooms;
use crate::fault::MergeFault;
use crate::record::{address, blank_page, put, record};
use crate::walk::Walk;
use component_package::areas::SYMBOLS;
use external_flash::program_if_different;
use flash_pages::Board;
use kept_store::StoredSet;
use layout_plan::Plan;

// How many pages the area has, and how many records each of them.
const PAGES: u16 = 32;

const RECORDS: u16 = 32;

// The record of the least symbol ahead, which the walk passes.
fn next_record<B: Board>(
    board: &mut B,
    set: &StoredSet,
    plan: &Plan,
    walk: &mut Walk,
) -> Result<Option<[u8; 8]>, MergeFault>
    requires set { IsSet set.now }
    requires plan { IsPlanOf set.now plan.now }
    requires count { plan.now.count ≡ set.now.slots.manifest.count }
    requires of { IsWalkOf set.now walk.old }
    ensures of { IsWalkOf set.now walk.new }
    ensures next { Told (B.view board.old) (λ s. (components : List Component) →
        HoldsSet s set.now components → IsOwnSet set.now components → (low : ℕ) → IsAt components low walk.old →
        NextIs components low walk.new result) }
    ensures kinds { is_of_merge result ≡ true }
    ensures reads { Reads (B.view board.old) (B.view board.new) }
    ensures faults { FlashFaultsWhere (is_fault result) (B.view board.old) (B.view board.new) }
{
    let Some((k, export)) = walk.next() else {
        return Ok(None);
    };
    if let Some((first, second)) = walk.strong_pair(export.symbol) {
        return Err(MergeFault::Duplicate(export.symbol, first, second));
    }
    let Ok(()) = walk.pass(board, set, export.symbol) else {
        return Err(MergeFault::Fault);
    };
    Ok(Some(record(k, &export, address(plan, k, &export))))
}

// Puts records into a blank page, and says how many: as many as it has room for, or all that are ahead.
fn fill_page<B: Board>(
    board: &mut B,
    set: &StoredSet,
    plan: &Plan,
    walk: &mut Walk,
    page: &mut [u8; 256],
) -> Result<u16, MergeFault>
    requires set { IsSet set.now }
    requires plan { IsPlanOf set.now plan.now }
    requires count { plan.now.count ≡ set.now.slots.manifest.count }
    requires of { IsWalkOf set.now walk.old }
    requires blank { page.old ≡ records_in 256 [] }
    ensures of { IsWalkOf set.now walk.new }
    ensures fill { Told (B.view board.old) (λ s. (components : List Component) →
        HoldsSet s set.now components → IsOwnSet set.now components → (low : ℕ) → IsAt components low walk.old →
        FillIs components low page.new walk.new result) }
    ensures few { IfOk result (λ made. made ≤ 32) }
    ensures kinds { is_of_merge result ≡ true }
    ensures reads { Reads (B.view board.old) (B.view board.new) }
    ensures faults { FlashFaultsWhere (is_fault result) (B.view board.old) (B.view board.new) }
{
    for i in 0..RECORDS {
        match next_record(board, set, plan, walk) {
            Ok(None) => return Ok(i),
            Ok(Some(record)) => put(page, i, &record),
            Err(fault) => return Err(fault),
        }
    }
    Ok(RECORDS)
}

/// Makes the area of merged symbols the set's table, and says how many records it has.
///
/// The promise is for a set of at most 1,024 different symbols. `Duplicate` comes exactly where two components export a symbol not weakly, and
/// leaves the area any bytes. `Fault` comes only where flash faults rose. Each page of the area is programmed once at most, and only where it
/// differs from what it is to hold; no other page is touched. Each page of exports is read seven times at most.
pub fn merge<B: Board>(board: &mut B, set: &StoredSet, plan: &Plan) -> Result<u16, MergeFault>
    requires set { IsSet set.now }
    requires plan { IsPlanOf set.now plan.now }
    ensures answer { Told (B.view board.old) (λ s. (components : List Component) →
        HoldsSet s set.now components → symbols_cause components ≡ None →
        Told (B.view board.new) (λ x. Merges components (symbol_area x) result)) }
    ensures kinds { is_of_merge result ≡ true }
    ensures few { IfOk result (λ n. n ≤ 1024) }
    ensures each { Told (B.view board.old) (λ s.
        LeavesOnly (OnlySymbols s) 32 (B.view board.old) (B.view board.new)) }
    ensures wear { WearsOnce (IsWorn (is_fault result) (B.view board.new))
        (B.view board.old) (B.view board.new) }
    ensures uses { UsesFlash (B.view board.old) (B.view board.new) }
    ensures faults { FlashFaultsWhere (is_fault result) (B.view board.old) (B.view board.new) }
{
    rooms(set);
    let Ok(mut walk) = Walk::start(board, set) else {
        return Err(MergeFault::Fault);
    };
    let mut count = 0;
    for page in 0..PAGES {
        let mut bytes = blank_page();
        let made = match fill_page(board, set, plan, &mut walk, &mut bytes) {
            Ok(made) => made,
            Err(fault) => return Err(fault),
        };
        let Ok(_) = program_if_different(board, SYMBOLS + page, &bytes) else {
            return Err(MergeFault::Fault);
        };
        count += made;
    }
    Ok(count)
}
