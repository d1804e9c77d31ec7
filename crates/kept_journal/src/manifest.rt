//! The manifest of a release that comes in.

ghost use Rattle.std.specs.Prelude.{◌≡◌, ◌<◌, ◌≤◌, ◌+◌, true, false, OnOk, OnErr, IfOk, Some};
ghost use Rattle.flash_pages.specs.State.{State};
ghost use Rattle.flash_pages.specs.Board.{View, UsesFlash, Told, FlashFaults};
ghost use Rattle.kept_manifests.specs.Slots.{IsSlotManifest, stored_of};
ghost use Rattle.kept_definitions.specs.Stored.{stored_bytes};
ghost use Rattle.kept_journal.specs.Steps.{parts, Step, Takes, Becomes, Rests, CanTake, takes_in, taken_in, manifest_pages, CanWrite, stays, with_side, side_pages};

use crate::gates::abandon;
use crate::standing::{first_page, is_on_b};
use external_flash::{Gate, open_gate, program_if_different};
use flash_pages::{Board, Failed};
use kept_manifests::{SlotManifest, slot_page};

// Writes the pages of a side where they differ.
fn write_side<B: Board>(board: &mut B, on_b: bool, m: &SlotManifest) -> Result<(), Failed>
    requires { IsSlotManifest m.now }
    ensures ok { OnOk result (Told (B.view board.old) (λ s.
        Becomes (with_side on_b (stored_bytes (stored_of m.now)) (parts s))
        (CanWrite on_b (parts s)) stays s (B.view board.new))) }
    ensures each { Told (B.view board.old) (λ s.
        Takes (Step (CanWrite on_b (parts s)) (side_pages on_b) s) (side_pages on_b) 5
        (B.view board.old) (B.view board.new)) }
    ensures uses { UsesFlash (B.view board.old) (B.view board.new) }
    ensures faults { FlashFaults result (B.view board.old) (B.view board.new) }
{
    let first = first_page(on_b);
    for i in 0..5u8 {
        program_if_different(board, first + i as u16, &slot_page(m, i))?;
    }
    Ok(())
}

/// Takes in a release: gives up what came in before, writes the five pages of the side that isn't chosen where they differ, and opens Man.
/// Ten programs at most. The manifest is a stored one. It keeps a mote sound where no commit stands and the manifest is a later release
/// than the current one with the slots that it gets over it.
pub fn put_manifest<B: Board>(board: &mut B, m: &SlotManifest) -> Result<(), Failed>
    requires { IsSlotManifest m.now }
    ensures ok { OnOk result (Told (B.view board.old) (λ s.
        Becomes (taken_in (stored_bytes (stored_of m.now)) (parts s)) (CanTake (stored_of m.now))
        (takes_in (stored_of m.now)) s (B.view board.new))) }
    ensures each { Told (B.view board.old) (λ s.
        Takes (Step (CanTake (stored_of m.now)) (manifest_pages (parts s)) s)
        (manifest_pages (parts s)) 10 (B.view board.old) (B.view board.new)) }
    ensures uses { UsesFlash (B.view board.old) (B.view board.new) }
    ensures faults { FlashFaults result (B.view board.old) (B.view board.new) }
{
    abandon(board)?;
    let on_b = is_on_b(board)?;
    write_side(board, !on_b, m)?;
    open_gate(board, Gate::Man)?;
    Ok(())
}
