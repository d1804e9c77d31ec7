//! Exports of a component, many at a time.

ghost use Rattle.std.specs.Prelude.{◌≡◌, ◌≤◌, ◌<◌, ◌+◌, OnOk, None, Ok, length, slice_range};
ghost use Rattle.flash_pages.specs.State.{State};
ghost use Rattle.flash_pages.specs.Board.{View, Told, Reads, FlashFaults};
ghost use Rattle.component_package.specs.declared.part.Export.{Export};
ghost use Rattle.component_package.specs.packages.Component.{Component};
ghost use Rattle.component_package.specs.packages.Reading.{check_export_of};
ghost use Rattle.kept_store.specs.Sets.{IsSet, IsComponentOf, header_at};

use crate::open::has_rooms;
use crate::records::run_bytes;
use crate::set::StoredSet;
use component_package::{Export, Header, check_export};
use external_flash::PageReader;
use flash_pages::{Board, Failed};

// The export that six bytes spell, whatever came before it; where they spell none, on a board that doesn't hold the component, the other one.
fn export_or(h: &Header, i: u16, raw: &[u8; 6], other: Export) -> Export
    ensures { (e : Export) → check_export_of h.now None i raw.now ≡ Ok e → result ≡ e }
{
    match check_export(h, None, i, raw) {
        Ok(export) => export,
        Err(_) => other,
    }
}

/// Exports of component `k` of the set, from export `i` on, as many as the buffer takes. Each page that they lie on is read once. With `Failed` the
/// buffer holds any exports; it comes only where flash faults rose.
pub fn exports_at<B: Board>(
    board: &mut B,
    set: &StoredSet,
    k: u8,
    i: u16,
    into: &mut [Export],
) -> Result<(), Failed>
    requires set { IsSet set.now }
    requires component { k < set.now.slots.manifest.count }
    requires within { i + length into.old ≤ (header_at set.now k).exports }
    ensures answer { OnOk result (Told (B.view board.old) (λ s. (c : Component) →
        IsComponentOf s set.now k c → into.new ≡
        slice_range c.exports i (i + length into.old))) }
    // The component has as many exports as its header says.
    ensures count { Told (B.view board.old) (λ s. (c : Component) →
        IsComponentOf s set.now k c → length c.exports ≡ (header_at set.now k).exports) }
    ensures reads { Reads (B.view board.old) (B.view board.new) }
    ensures faults { FlashFaults result (B.view board.old) (B.view board.new) }
{
    has_rooms(set);
    let h = set.headers[k as usize];
    let mut table = PageReader::new();
    for j in 0..into.len() {
        let at = i + j as u16;
        let mut raw = [0; 6];
        run_bytes(board, set, &mut table, k, 32 + 6 * at as u32, &mut raw)?;
        into[j] = export_or(&h, at, &raw, into[j]);
    }
    Ok(())
}
