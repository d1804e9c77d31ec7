//! How many symbols a set has.

ghost use Rattle.std.specs.Prelude.{◌≡◌, ◌≤◌, List, length, true, IfOk, Some};
ghost use Rattle.flash_pages.specs.State.{State};
ghost use Rattle.flash_pages.specs.Board.{View, Reads, Told, FlashFaultsWhere};
ghost use Rattle.component_package.specs.packages.Component.{Component};
ghost use Rattle.kept_store.specs.Open.{HasRooms};
ghost use Rattle.kept_store.specs.Sets.{IsSet, HoldsSet};
ghost use Rattle.kept_symbols.specs.Answers.{is_fault, is_of_count, limited, Counts};

use crate::fault::MergeFault;
use crate::walk::Walk;
use component_package::Entry;
use flash_pages::Board;
use kept_store::StoredSet;

// There are no more symbols than numbers of 16 bits.
const NUMBERS: u32 = 65_536;

fn entries(entries: &[Entry; 16]) -> usize
    ensures entries { length entries.now ≡ 16 }
{
    entries.len()
}

/// How long a set's lists are. It does nothing: contracts learn by it.
pub(crate) fn rooms(set: &StoredSet)
    ensures { HasRooms set.now }
{
    let _entries = entries(&set.slots.manifest.entries);
    let _slot = set.slots.slots[0];
    let _header = set.headers[0];
}

// The number of symbols, where it isn't above the limit.
fn limited(count: u32) -> Result<u16, MergeFault>
    ensures { result ≡ limited count }
{
    if 1024 < count {
        return Err(MergeFault::Symbols(count));
    }
    Ok(count as u16)
}

/// How many different symbols the set exports, at most 1,024.
///
/// `Symbols` comes exactly where they are more. `Fault` comes only where flash faults rose. Each page of exports is read seven times at most.
pub fn count_symbols<B: Board>(board: &mut B, set: &StoredSet) -> Result<u16, MergeFault>
    requires set { IsSet set.now }
    ensures answer { Told (B.view board.old) (λ s. (components : List Component) →
        HoldsSet s set.now components → Counts components result) }
    ensures kinds { is_of_count result ≡ true }
    ensures few { IfOk result (λ n. n ≤ 1024) }
    ensures reads { Reads (B.view board.old) (B.view board.new) }
    ensures faults { FlashFaultsWhere (is_fault result) (B.view board.old) (B.view board.new) }
{
    rooms(set);
    let Ok(mut walk) = Walk::start(board, set) else {
        return Err(MergeFault::Fault);
    };
    for count in 0..NUMBERS {
        let Some((_, export)) = walk.next() else {
            return limited(count);
        };
        let Ok(()) = walk.pass(board, set, export.symbol) else {
            return Err(MergeFault::Fault);
        };
    }
    limited(NUMBERS)
}
