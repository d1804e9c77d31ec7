//! A place among the exports of one component.

ghost use Rattle.std.specs.Prelude.{◌≡◌, ◌%◌, ◌<◌, ◌≤◌, Some, None, IfOk, OnOk};
ghost use Rattle.flash_pages.specs.State.{State};
ghost use Rattle.flash_pages.specs.Board.{View, Reads, Told, FlashFaults};
ghost use Rattle.component_package.specs.packages.Component.{Component};
ghost use Rattle.kept_store.specs.Sets.{IsSet, IsComponentOf};
ghost use Rattle.kept_symbols.specs.Cursors.{IsOf, IsCursor, head_of, has_symbol, is_strong_of, behind};

use component_package::{Export, Place};
use flash_pages::{Board, Failed};
use kept_store::{StoredSet, exports_at};

const NO_EXPORT: Export = Export {
    symbol: 0,
    place: Place::Absolute,
    weak: false,
    value: 0,
};

/// The next export of a component. The exports are read eight at a time, so each of their pages is read seven times at most.
#[derive(Clone, Copy)]
pub(crate) struct Cursor {
    // The index of the next export, and how many there are.
    pub(crate) next: u16,
    pub(crate) count: u16,
    // Exports, each at its index modulo 8: those from the next one on, up to an index that 8 divides.
    pub(crate) window: [Export; 8],
}

impl Cursor {
    /// A cursor in no exports.
    pub(crate) const NONE: Cursor = Cursor {
        next: 0,
        count: 0,
        window: [NO_EXPORT; 8],
    };

    /// A cursor at the first export of component `k`.
    pub(crate) fn start<B: Board>(board: &mut B, set: &StoredSet, k: u8) -> Result<Cursor, Failed>
        requires set { IsSet set.now }
        requires component { k < set.now.slots.manifest.count }
        ensures of { IfOk result (IsOf set.now k) }
        ensures start { IfOk result (λ c. c.next ≡ 0) }
        ensures cursor { IfOk result (λ r. Told (B.view board.old) (λ s. (c : Component) →
            IsComponentOf s set.now k c → IsCursor c.exports r)) }
        ensures reads { Reads (B.view board.old) (B.view board.new) }
        ensures faults { FlashFaults result (B.view board.old) (B.view board.new) }
    {
        let mut cursor = Cursor {
            next: 0,
            count: set.headers[k as usize].exports,
            window: [NO_EXPORT; 8],
        };
        cursor.fill(board, set, k)?;
        Ok(cursor)
    }

    // Reads the exports from the next one on, whose index 8 divides.
    fn fill<B: Board>(&mut self, board: &mut B, set: &StoredSet, k: u8) -> Result<(), Failed>
        requires set { IsSet set.now }
        requires component { k < set.now.slots.manifest.count }
        requires of { IsOf set.now k self.old }
        ensures cursor { OnOk result (self.old.next % 8 ≡ 0 →
            Told (B.view board.old) (λ s. (c : Component) →
            IsComponentOf s set.now k c → IsCursor c.exports self.new)) }
        ensures next { self.new.next ≡ self.old.next }
        ensures count { self.new.count ≡ self.old.count }
        ensures reads { Reads (B.view board.old) (B.view board.new) }
        ensures faults { FlashFaults result (B.view board.old) (B.view board.new) }
    {
        let size = (self.count - self.next).min(8) as usize;
        exports_at(board, set, k, self.next, &mut self.window[..size])?;
        Ok(())
    }

    /// The next export, where there is one.
    pub(crate) fn head(&self) -> Option<Export>
        ensures { result ≡ head_of self.now }
    {
        if self.next < self.count {
            Some(self.window[(self.next % 8) as usize])
        } else {
            None
        }
    }

    // Whether the next export is of this symbol.
    fn is_at(&self, symbol: u16) -> bool
        ensures { result ≡ has_symbol symbol (head_of self.now) }
    {
        match self.head() {
            Some(export) => export.symbol == symbol,
            None => false,
        }
    }

    /// Whether the next export is of this symbol and not weak.
    pub(crate) fn is_strong(&self, symbol: u16) -> bool
        ensures { result ≡ is_strong_of symbol (head_of self.now) }
    {
        match self.head() {
            Some(export) => export.symbol == symbol && !export.weak,
            None => false,
        }
    }

    /// Goes on behind the next export, where it is of this symbol.
    pub(crate) fn pass<B: Board>(
        &mut self,
        board: &mut B,
        set: &StoredSet,
        k: u8,
        symbol: u16,
    ) -> Result<(), Failed>
        requires set { IsSet set.now }
        requires component { k < set.now.slots.manifest.count }
        requires of { IsOf set.now k self.old }
        ensures of { IsOf set.now k self.new }
        ensures next { OnOk result (self.new.next ≡ behind symbol self.old) }
        ensures cursor { OnOk result (Told (B.view board.old) (λ s. (c : Component) →
            IsComponentOf s set.now k c → IsCursor c.exports self.old → IsCursor c.exports self.new)) }
        ensures reads { Reads (B.view board.old) (B.view board.new) }
        ensures faults { FlashFaults result (B.view board.old) (B.view board.new) }
    {
        if !self.is_at(symbol) {
            return Ok(());
        }
        self.next += 1;
        if self.next % 8 == 0 {
            self.fill(board, set, k)?;
        }
        Ok(())
    }
}
