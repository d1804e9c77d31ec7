//! A walk over the exports of all components, by rising symbol.

ghost use Rattle.std.specs.Prelude.{◌≡◌, ℕ, ◌+◌, ◌<◌, ◌≤◌, List, Some, None, IfSome, IfOk, OnOk, length};
ghost use Rattle.std.specs.Option.{option_map};
ghost use Rattle.flash_pages.specs.State.{State};
ghost use Rattle.flash_pages.specs.Board.{View, Reads, Told, FlashFaults};
ghost use Rattle.component_package.specs.packages.Component.{Component};
ghost use Rattle.component_package.specs.link.Link.{Cause, Duplicate, definition_of, strong_exporters, first_two};
ghost use Rattle.kept_store.specs.Sets.{IsSet, HoldsSet};
ghost use Rattle.component_package.specs.link.Sets as link;
ghost use Rattle.kept_symbols.specs.Walks.{IsWalkOf, Stand, IsAt, IsFirst, is_before, better_of};

use crate::cursor::Cursor;
use component_package::Export;
use flash_pages::{Board, Failed};
use kept_store::StoredSet;

/// A cursor in the exports of each component.
#[derive(Clone, Copy)]
pub(crate) struct Walk {
    pub(crate) count: u8,
    pub(crate) cursors: [Cursor; 16],
}

// Whether a later component's export comes before the one chosen so far.
fn is_before(e: &Export, chosen: &Export) -> bool
    ensures { result ≡ is_before e.now chosen.now }
{
    e.symbol < chosen.symbol || (e.symbol == chosen.symbol && (chosen.weak && !e.weak))
}

// The export chosen so far, or that of component `k`.
fn better(chosen: Option<(u8, Export)>, k: u8, head: Option<Export>) -> Option<(u8, Export)>
    ensures { result ≡ better_of chosen k head }
{
    let Some(e) = head else {
        return chosen;
    };
    let Some((i, c)) = chosen else {
        return Some((k, e));
    };
    if is_before(&e, &c) {
        return Some((k, e));
    }
    Some((i, c))
}

impl Walk {
    /// A walk before all exports.
    pub(crate) fn start<B: Board>(board: &mut B, set: &StoredSet) -> Result<Walk, Failed>
        requires set { IsSet set.now }
        ensures of { IfOk result (IsWalkOf set.now) }
        ensures stand { IfOk result (λ w. Told (B.view board.old) (λ s. (components : List Component) →
            HoldsSet s set.now components → Stand components 0 w.cursors w.count)) }
        ensures reads { Reads (B.view board.old) (B.view board.new) }
        ensures faults { FlashFaults result (B.view board.old) (B.view board.new) }
    {
        let count = set.slots.manifest.count;
        let mut cursors = [Cursor::NONE; 16];
        for k in 0..count {
            let cursor = Cursor::start(board, set, k)?;
            cursors[k as usize] = cursor;
        }
        Ok(Walk { count, cursors })
    }

    /// The export that gives the address of the least symbol ahead, with its component.
    pub(crate) fn next(&self) -> Option<(u8, Export)>
        requires few { self.now.count ≤ 16 }
        ensures first { (set : List Component) (low : ℕ) → link.IsSet set → IsAt set low self.now →
            IsFirst (definition_of set) low result }
        ensures component { IfSome result (λ x. x.0 < self.now.count) }
    {
        let mut chosen = None;
        for k in 0..self.count {
            chosen = better(chosen, k, self.cursors[k as usize].head());
        }
        chosen
    }

    /// The first two components that export this symbol, the next one, not weakly.
    pub(crate) fn strong_pair(&self, symbol: u16) -> Option<(u8, u8)>
        requires few { self.now.count ≤ 16 }
        ensures { (set : List Component) → link.IsSet set → IsAt set symbol self.now →
            first_two symbol (strong_exporters set symbol)
            ≡ option_map (λ p. Duplicate symbol p.0 p.1) result }
    {
        let mut first = None;
        for k in 0..self.count {
            if self.cursors[k as usize].is_strong(symbol) {
                match first {
                    None => first = Some(k),
                    Some(i) => return Some((i, k)),
                }
            }
        }
        None
    }

    /// Goes on behind this symbol, the next one.
    pub(crate) fn pass<B: Board>(
        &mut self,
        board: &mut B,
        set: &StoredSet,
        symbol: u16,
    ) -> Result<(), Failed>
        requires set { IsSet set.now }
        requires of { IsWalkOf set.now self.old }
        ensures of { IsWalkOf set.now self.new }
        ensures passes { OnOk result (Told (B.view board.old) (λ s. (components : List Component) →
            HoldsSet s set.now components → link.IsSet components → IsAt components symbol self.old →
            IsAt components (symbol + 1) self.new)) }
        ensures reads { Reads (B.view board.old) (B.view board.new) }
        ensures faults { FlashFaults result (B.view board.old) (B.view board.new) }
    {
        for k in 0..self.count {
            let mut cursor = self.cursors[k as usize];
            cursor.pass(board, set, k, symbol)?;
            self.cursors[k as usize] = cursor;
        }
        Ok(())
    }
}
