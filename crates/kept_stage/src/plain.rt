//! One page of a set's code and data, not patched.

ghost use Rattle.std.specs.Prelude.{◌≡◌, ◌<◌, ◌≤◌, ◌+◌, ◌^◌, ℕ, List, OnOk, Some, length, slice_index, slice_get};
ghost use Rattle.flash_pages.specs.State.{State};
ghost use Rattle.flash_pages.specs.Board.{View, Reads, Told, FlashFaults};
ghost use Rattle.component_package.specs.packages.Component.{Component};
ghost use Rattle.component_package.specs.link.Link.{plain_of};
ghost use Rattle.component_store.specs.Sets.{part_of, length_of_part};
ghost use Rattle.kept_store.specs.Sets.{IsSet, HoldsSet, IsComponentOf, header_at};
ghost use Rattle.kept_symbols.specs.Stored.{IsPlanOf};
ghost use Rattle.kept_stage.specs.Windows.{copied_in, Shows};

use crate::arrays::rooms;
use flash_pages::{Board, Failed};
use kept_store::{StoredSet, part_bytes};
use layout_plan::Plan;

// The length of a part of component `k`.
fn part_length(set: &StoredSet, k: u8, in_init: bool) -> u16
    requires { k < 16 }
    ensures { result ≡ length_of_part (header_at set.now k) in_init }
{
    let header = &set.headers[k as usize];
    if in_init { header.init } else { header.code }
}

// Copies what of a part of component `k`, which stands at `place` in the image, lies in the 256 bytes from `base` on.
fn copy_part<B: Board>(
    board: &mut B,
    set: &StoredSet,
    k: u8,
    in_init: bool,
    place: u32,
    base: u32,
    into: &mut [u8; 256],
) -> Result<(), Failed>
    requires set { IsSet set.now }
    requires component { k < set.now.slots.manifest.count }
    requires place { place < 2 ^ 24 }
    requires base { base < 2 ^ 17 }
    ensures bytes { OnOk result (Told (B.view board.old) (λ s. (c : Component) →
        IsComponentOf s set.now k c → (j : ℕ) → j < 256 →
        slice_index into.new j ≡ copied_in (part_of c in_init) place (base + j) (slice_index
        into.old j))) }
    ensures reads { Reads (B.view board.old) (B.view board.new) }
    ensures faults { FlashFaults result (B.view board.old) (B.view board.new) }
{
    rooms(set);
    let low = place.max(base);
    let high = (place + part_length(set, k, in_init) as u32).min(base + 256);
    if low < high {
        let from = (low - place) as u16;
        let piece = &mut into[(low - base) as usize..(high - base) as usize];
        part_bytes(board, set, k, in_init, from, piece)?;
    }
    Ok(())
}

/// The 256 bytes from `base` on of the set's code and then data, and 0xFF behind them.
pub(crate) fn plain_page<B: Board>(
    board: &mut B,
    set: &StoredSet,
    plan: &Plan,
    base: u32,
    into: &mut [u8; 256],
) -> Result<(), Failed>
    requires set { IsSet set.now }
    requires plan { IsPlanOf set.now plan.now }
    requires base { base < 2 ^ 17 }
    ensures shows { OnOk result (Told (B.view board.old) (λ s. (components : List Component) →
        HoldsSet s set.now components → Shows base (plain_of components) into.new)) }
    ensures reads { Reads (B.view board.old) (B.view board.new) }
    ensures faults { FlashFaults result (B.view board.old) (B.view board.new) }
{
    rooms(set);
    *into = [0xFF; 256];
    for k in 0..set.slots.manifest.count {
        let place = plan.code[k as usize];
        let Ok(()) = copy_part(board, set, k, false, place, base, into) else {
            return Err(Failed);
        };
    }
    for k in 0..set.slots.manifest.count {
        let place = plan.load[k as usize];
        let Ok(()) = copy_part(board, set, k, true, place, base, into) else {
            return Err(Failed);
        };
    }
    Ok(())
}
