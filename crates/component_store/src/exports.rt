//! Exports of a component, many at a time.

ghost use Rattle.std.specs.Prelude.{◌≡◌, ◌≤◌, ◌<◌, ◌+◌, OnErr, OnOk, Some, length, slice_range};
ghost use Rattle.flash_pages.specs.State.{State};
ghost use Rattle.flash_pages.specs.Board.{View, Told, Reads, FlashFaults};
ghost use Rattle.component_package.specs.packages.Component.{Component};
ghost use Rattle.component_store.specs.Sets.{IsSet, HoldsSet, IsComponentOf, header_at};

use crate::parts::{export_in, reader_of};
use crate::records::export_raw;
use crate::set::StoredSet;
use component_package::Export;
use flash_pages::{Board, Failed};

/// Exports of component `k` of the set, from export `i` on, as many as the buffer takes. Each page that they lie on is read once. With `Failed` the
/// buffer holds any exports; it comes only where flash faults rose.
pub fn exports_at<B: Board>(
    board: &mut B,
    set: &StoredSet,
    k: u8,
    i: u16,
    into: &mut [Export],
) -> Result<(), Failed>
    requires set { IsSet set.now }
    requires component { k < set.now.slots.manifest.count }
    requires within { i + length into.old ≤ (header_at set.now k).exports }
    ensures answer { OnOk result (Told (B.view board.old) (λ s. HoldsSet s set.now →
        (c : Component) → IsComponentOf s set.now k c → into.new ≡
        slice_range c.exports i (i + length into.old))) }
    // The component has as many exports as its header says.
    ensures count { Told (B.view board.old) (λ s. HoldsSet s set.now → (c : Component) →
        IsComponentOf s set.now k c → length c.exports ≡ (header_at set.now k).exports) }
    ensures reads { Reads (B.view board.old) (B.view board.new) }
    ensures faults { FlashFaults result (B.view board.old) (B.view board.new) }
{
    let h = set.headers[k as usize];
    let mut table = reader_of(set, k);
    for j in 0..into.len() {
        let at = i + j as u16;
        let raw = export_raw(board, &mut table, &h, at)?;
        into[j] = export_in(&h, at, &raw);
    }
    Ok(())
}
