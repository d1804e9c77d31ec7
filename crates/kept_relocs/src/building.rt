//! The relocation list, written page by page.

ghost use Rattle.std.specs.Prelude.{◌≡◌, ◌<◌, ◌≤◌, ◌*◌, ◌∷◌, ◌++◌, [], false, IfOk, OnOk, IfSome, Some, List, slice_get, length, take, drop, map, FitsSigned};
ghost use Rattle.std.specs.Int.{w32, cast_unsigned};
ghost use Rattle.std.specs.List.{AllByRecursion};
ghost use Rattle.flash_pages.specs.State.{State};
ghost use Rattle.flash_pages.specs.Board.{View, Reads, UsesFlash, WearsOnce, Told, FlashFaults};
ghost use Rattle.flash_pages.specs.Moments.{LeavesOnly};
ghost use Rattle.avr_reloc.specs.declared.fixup.Fixup.{Fixup};
ghost use Rattle.component_package.specs.packages.Component.{Component};
ghost use Rattle.component_package.specs.packages.Numbers.{u32_bytes};
ghost use Rattle.component_package.specs.link.Link.{fixup_with};
ghost use Rattle.component_package.specs.link.Areas.{MergedSymbol, Tells, IsEntry, entry_bytes, area_bytes, list_bytes};
ghost use Rattle.component_package.specs.link.Pages.{address_in, listed};
ghost use Rattle.layout_plan.specs.Plan.{IsPlan};
ghost use Rattle.kept_store.specs.Sets.{IsSet, HoldsSet};
ghost use Rattle.kept_symbols.specs.Stored.{IsPlanOf, symbol_area};
ghost use Rattle.kept_symbols.specs.Lookup.{KeepsSymbols};
ghost use Rattle.kept_relocs.specs.List.{relocs_of, HasList};
ghost use Rattle.kept_relocs.specs.Order.{rest_of, IsWithin};
ghost use Rattle.kept_relocs.specs.Written.{IsOther, IsIn, OnlyList, in_pages};

use crate::arrays::rooms;
use crate::order::Cursor;
use crate::value::fixup_of;
use avr_reloc::Fixup;
use component_package::areas::RELOCATIONS;
use external_flash::{PageReader, program_if_different};
use flash_pages::{Board, Failed};
use kept_store::StoredSet;
use kept_symbols::SymbolReader;
use layout_plan::Plan;

// The four bytes of S+A. On a board whose symbol area is no symbol table it may have no room; then they say 0.
fn sum_bytes(s_plus_a: i64) -> [u8; 4]
    ensures { FitsSigned w32 s_plus_a → result ≡ u32_bytes (cast_unsigned w32 s_plus_a) }
{
    let sum = if i32::MIN as i64 <= s_plus_a && s_plus_a <= i32::MAX as i64 {
        s_plus_a as i32
    } else {
        0
    };
    sum.to_le_bytes()
}

// The eight bytes of a record.
fn record(x: &Fixup) -> [u8; 8]
    ensures { IsEntry x.now → result ≡ entry_bytes x.now }
{
    let place = x.place;
    let sum = sum_bytes(x.s_plus_a);
    [
        (place % 256) as u8,
        (place / 256 % 256) as u8,
        (place / 65536 % 256) as u8,
        x.kind.number(),
        sum[0],
        sum[1],
        sum[2],
        sum[3],
    ]
}

// Puts record `j` into a page of the list.
fn put_record(page: &mut [u8; 256], j: u8, x: &Fixup)
    requires { j < 32 }
    ensures { IsEntry x.now → (xs : List Fixup) → length xs ≡ j →
        page.old ≡ area_bytes entry_bytes 256 xs →
        page.new ≡ area_bytes entry_bytes 256 (xs ++ x.now ∷ []) }
{
    let at = 8 * j as usize;
    page[at..at + 8].copy_from_slice(&record(x));
}

// The next 32 records of the list, and 0xFF behind the last. It reads relocations by a reader of its own, since the page before this one
// was programmed.
fn list_page<B: Board>(
    board: &mut B,
    symbols: &mut SymbolReader,
    set: &StoredSet,
    plan: &Plan,
    cursor: &mut Cursor,
    page: &mut [u8; 256],
) -> Result<(), Failed>
    requires set { IsSet set.now }
    requires plan { IsPlanOf set.now plan.now }
    requires within { IsWithin set.now cursor.old }
    ensures within { OnOk result (IsWithin set.now cursor.new) }
    ensures page { OnOk result (Told (B.view board.old) (λ s. (components : List Component) →
        HoldsSet s set.now components → KeepsSymbols s symbols.old → (table : List MergedSymbol) →
        Tells (symbol_area s) table → let xs = map (fixup_with (address_in table) components) (rest_of components cursor.old) in AllByRecursion IsEntry xs →
        page.new ≡ area_bytes entry_bytes 256 (take 32 xs))) }
    ensures rest { OnOk result (Told (B.view board.old) (λ s. (components : List Component) →
        HoldsSet s set.now components →
        rest_of components cursor.new ≡
        drop 32 (rest_of components cursor.old))) }
    ensures symbols { OnOk result (Told (B.view board.old) (λ s. KeepsSymbols s symbols.old →
        KeepsSymbols s symbols.new)) }
    ensures reads { Reads (B.view board.old) (B.view board.new) }
    ensures faults { FlashFaults result (B.view board.old) (B.view board.new) }
{
    rooms(set);
    let mut reader = PageReader::new();
    *page = [0xFF; 256];
    for j in 0..32u8 {
        let Ok(next) = cursor.next(board, set, &mut reader) else {
            return Err(Failed);
        };
        match next {
            None => return Ok(()),
            Some(site) => {
                let Ok(x) = fixup_of(board, symbols, plan, &site) else {
                    return Err(Failed);
                };
                put_record(page, j, &x);
            }
        }
    }
    Ok(())
}

/// Writes the relocation list of the set, with the addresses that the symbol area has: all code relocations by component, then all data
/// relocations, each with its offset in the image and S+A. A target without an address counts as 0; `check_relocs` names it. A page is
/// programmed only where it differs. `Failed` comes only where flash faults rose.
pub fn build<B: Board>(board: &mut B, set: &StoredSet, plan: &Plan) -> Result<(), Failed>
    requires set { IsSet set.now }
    requires plan { IsPlanOf set.now plan.now }
    requires few { relocs_of set.now ≤ 8192 }
    // For each symbol table that the area holds: the list of the set and that table, byte for byte.
    ensures ok { OnOk result (Told (B.view board.old) (λ s. (components : List Component) →
        HoldsSet s set.now components →
        (table : List MergedSymbol) → Tells (symbol_area s) table →
        HasList (B.view board.new) (listed components table))) }
    ensures each { Told (B.view board.old) (λ s.
        LeavesOnly (OnlyList s) 256 (B.view board.old) (B.view board.new)) }
    ensures uses { UsesFlash (B.view board.old) (B.view board.new) }
    ensures faults { FlashFaults result (B.view board.old) (B.view board.new) }
    ensures once { WearsOnce (λ s. IsIn 50 305) (B.view board.old) (B.view board.new) }
    // A page is programmed only where it isn't yet that page of the list.
    ensures wear { Told (B.view board.old) (λ s. (components : List Component) →
        HoldsSet s set.now components →
        (table : List MergedSymbol) → Tells (symbol_area s) table →
        WearsOnce (IsOther 50 (in_pages 256 (list_bytes (listed components table))))
        (B.view board.old) (B.view board.new)) }
{
    rooms(set);
    let mut cursor = Cursor::new();
    let mut symbols = SymbolReader::new();
    for page in 0..256u16 {
        let mut bytes = [0xFF; 256];
        let Ok(()) = list_page(board, &mut symbols, set, plan, &mut cursor, &mut bytes) else {
            return Err(Failed);
        };
        let Ok(_) = program_if_different(board, RELOCATIONS + page, &bytes) else {
            return Err(Failed);
        };
    }
    Ok(())
}
