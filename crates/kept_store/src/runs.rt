//! The runs of a set's components, in two pieces of a package or as one in a table slot.

ghost use Rattle.std.specs.Prelude.{◌≡◌, ◌≤◌, ◌<◌, ◌+◌, ◌++◌, ◌*◌, OnOk, Some, length, take, drop, slice_range};
ghost use Rattle.flash_pages.specs.State.{State};
ghost use Rattle.flash_pages.specs.Board.{View, Told, Reads, FlashFaults};
ghost use Rattle.external_flash.specs.Areas.{bytes_from};
ghost use Rattle.component_package.specs.packages.Component.{Component};
ghost use Rattle.kept_definitions.specs.Runs.{run_of, run_length};
ghost use Rattle.kept_store.specs.Sets.{IsSet, IsComponentOf, header_at};

use crate::records::{records_at, slot_page};
use crate::set::StoredSet;
use external_flash::PageReader;
use flash_pages::{Board, Failed};

/// Bytes of a run that stands in two pieces of the external flash from page `first` on: 32 bytes of header there, and what follows them from byte `records`
/// on. It reads from byte `from` of the run on.
pub(crate) fn run_pieces<B: Board>(
    board: &mut B,
    first: u16,
    records: u32,
    from: u32,
    into: &mut [u8],
) -> Result<(), Failed>
    requires first { first < 2048 }
    requires behind { 32 ≤ records }
    requires short { length into.old ≤ 256 }
    requires within { 256 * first + records + from + length into.old ≤ 256 * 2048 + 32 }
    ensures bytes { OnOk result (Told (B.view board.old) (λ s. into.new ≡
        take (length into.old) (drop from
        (take 32 (bytes_from first s) ++ drop records (bytes_from first s))))) }
    ensures reads { Reads (B.view board.old) (B.view board.new) }
    ensures faults { FlashFaults result (B.view board.old) (B.view board.new) }
{
    let mut reader = PageReader::new();
    if from >= 32 {
        reader.read(board, first, records + (from - 32), into)?;
        return Ok(());
    }
    let front = (32 - from as usize).min(into.len());
    reader.read(board, first, from, &mut into[..front])?;
    reader.read(board, first, records, &mut into[front..])?;
    Ok(())
}

/// Bytes of the run of component `k` of the set, at most 256, from byte `from` of it on: its package without code and data. With `Failed` the buffer holds
/// any bytes; it comes only where flash faults rose.
pub fn table_bytes<B: Board>(
    board: &mut B,
    set: &StoredSet,
    k: u8,
    from: u32,
    into: &mut [u8],
) -> Result<(), Failed>
    requires set { IsSet set.now }
    requires component { k < set.now.slots.manifest.count }
    requires short { length into.old ≤ 256 }
    requires within { from + length into.old ≤ run_length (header_at set.now k) }
    ensures answer { OnOk result (Told (B.view board.old) (λ s. (c : Component) →
        IsComponentOf s set.now k c → into.new ≡
        slice_range (run_of c) from (from + length into.old))) }
    ensures reads { Reads (B.view board.old) (B.view board.new) }
    ensures faults { FlashFaults result (B.view board.old) (B.view board.new) }
{
    let first = slot_page(set, k);
    let records = records_at(set, k);
    run_pieces(board, first, records, from, into)?;
    Ok(())
}
