//! The pages of the image.

ghost use Rattle.std.specs.Prelude.{◌≡◌, ◌<◌, ◌≤◌, ◌+◌, ◌*◌, ℕ, List, [], IfOk, OnOk, Some, length, slice_index_or};
ghost use Rattle.flash_pages.specs.State.{State};
ghost use Rattle.flash_pages.specs.Board.{View, Reads, UsesFlash, WearsOnce, Told, FlashFaults};
ghost use Rattle.flash_pages.specs.Moments.{LeavesOnly};
ghost use Rattle.avr_reloc.specs.declared.fixup.Fixup.{Fixup};
ghost use Rattle.component_package.specs.packages.Component.{Component};
ghost use Rattle.component_package.specs.link.Areas.{Lists};
ghost use Rattle.kept_store.specs.Sets.{IsSet, HoldsSet};
ghost use Rattle.kept_symbols.specs.Stored.{IsPlanOf};
ghost use Rattle.kept_relocs.specs.List.{list_area, KeepsList};
ghost use Rattle.kept_relocs.specs.Written.{IsOther, IsIn};
ghost use Rattle.kept_stage.specs.Windows.{ArePassed};
ghost use Rattle.kept_stage.specs.Staged.{ArePagesOf, HasStaged, OnlyStaged};

use crate::arrays::rooms;
use crate::field::patch_page;
use crate::plain::plain_page;
use component_package::areas::STAGED;
use external_flash::program_if_different;
use flash_pages::{Board, Failed};
use kept_relocs::{ListReader, first_at};
use kept_store::StoredSet;
use layout_plan::Plan;

// The pages of the application section.
const PAGES: u16 = 480;

// Makes a page from the set's components and from the list's entries from `first` on. It answers an entry before which no field reaches
// the next page.
fn make_page<B: Board>(
    board: &mut B,
    set: &StoredSet,
    plan: &Plan,
    list: &mut ListReader,
    first: u16,
    page: u16,
    into: &mut [u8; 256],
) -> Result<u16, Failed>
    requires set { IsSet set.now }
    requires plan { IsPlanOf set.now plan.now }
    requires first { first ≤ 8192 }
    requires page { page < 480 }
    ensures next { IfOk result (λ next. next ≤ 8192) }
    ensures passed { IfOk result (λ next. Told (B.view board.old) (λ s. KeepsList s list.old →
        (xs : List Fixup) → Lists (list_area s) xs → ArePassed xs (256 * page) first →
        ArePassed xs (256 * (page + 1)) next)) }
    ensures page { OnOk result (Told (B.view board.old) (λ s. KeepsList s list.old →
        ((xs : List Fixup) → Lists (list_area s) xs → ArePassed xs (256 * page) first) →
        (pages : List (List ℕ)) → ArePagesOf s set.now pages →
        into.new ≡ slice_index_or pages page [])) }
    ensures keeps { OnOk result (Told (B.view board.old) (λ s. KeepsList s list.old →
        KeepsList s list.new)) }
    ensures reads { Reads (B.view board.old) (B.view board.new) }
    ensures faults { FlashFaults result (B.view board.old) (B.view board.new) }
{
    rooms(set);
    let base = 256 * page as u32;
    let Ok(()) = plain_page(board, set, plan, base, into) else {
        return Err(Failed);
    };
    let Ok(next) = patch_page(board, list, first, base, into) else {
        return Err(Failed);
    };
    Ok(next)
}

/// Page `page` of the image, below 480: the set's code and data that lie in it, and 0xFF behind the image, with the fields of the relocation list
/// patched that lie in it whole or in part. With `Failed` the buffer holds any bytes; it comes only where flash faults rose.
pub fn page_of<B: Board>(
    board: &mut B,
    set: &StoredSet,
    plan: &Plan,
    page: u16,
    into: &mut [u8; 256],
) -> Result<(), Failed>
    requires set { IsSet set.now }
    requires plan { IsPlanOf set.now plan.now }
    requires page { page < 480 }
    // For each relocation list that the area holds and that fits the set: that page of the pages patched from it.
    ensures page { OnOk result (Told (B.view board.old) (λ s. (pages : List (List ℕ)) →
        ArePagesOf s set.now pages → into.new ≡ slice_index_or pages page [])) }
    ensures reads { Reads (B.view board.old) (B.view board.new) }
    ensures faults { FlashFaults result (B.view board.old) (B.view board.new) }
{
    let Ok(first) = first_at(board, page) else {
        return Err(Failed);
    };
    let mut list = ListReader::new();
    let Ok(_) = make_page(board, set, plan, &mut list, first, page, into) else {
        return Err(Failed);
    };
    Ok(())
}

/// Stages all 480 pages of the image, each as [`page_of`] gives it. It goes through the relocation list once. A page is programmed only where
/// it differs, and no page outside the staged image is: program flash, the inbox and the tables stay as they are. `Failed` comes only where flash
/// faults rose.
pub fn stage<B: Board>(board: &mut B, set: &StoredSet, plan: &Plan) -> Result<(), Failed>
    requires set { IsSet set.now }
    requires plan { IsPlanOf set.now plan.now }
    // For each relocation list that the area holds and that fits the set: the pages patched from it, all of them.
    ensures ok { OnOk result (Told (B.view board.old) (λ s. (pages : List (List ℕ)) →
        ArePagesOf s set.now pages → HasStaged (B.view board.new) pages)) }
    ensures each { Told (B.view board.old) (λ s.
        LeavesOnly (OnlyStaged s) 480 (B.view board.old) (B.view board.new)) }
    // Whatever happens meanwhile, the board still holds the set that it held.
    ensures held { Told (B.view board.old) (λ s. (components : List Component) →
        HoldsSet s set.now components →
        LeavesOnly (λ x. HoldsSet x set.now components) 480 (B.view board.old)
        (B.view board.new)) }
    ensures uses { UsesFlash (B.view board.old) (B.view board.new) }
    ensures faults { FlashFaults result (B.view board.old) (B.view board.new) }
    ensures once { WearsOnce (λ s. IsIn 306 785) (B.view board.old) (B.view board.new) }
    // A page is programmed only where it isn't yet that page of the image.
    ensures wear { Told (B.view board.old) (λ s. (pages : List (List ℕ)) →
        ArePagesOf s set.now pages →
        WearsOnce (IsOther 306 pages) (B.view board.old) (B.view board.new)) }
{
    let mut list = ListReader::new();
    let mut first = 0;
    for page in 0..PAGES {
        let mut bytes = [0xFF; 256];
        let Ok(next) = make_page(board, set, plan, &mut list, first, page, &mut bytes) else {
            return Err(Failed);
        };
        first = next;
        let Ok(_) = program_if_different(board, STAGED + page, &bytes) else {
            return Err(Failed);
        };
    }
    Ok(())
}
