//! An empty board.
//!
//! The first program closes the gate Fmt and the last one opens it, so a cut between them leaves a board that no session takes for formatted.

ghost use Rattle.std.specs.Prelude.{◌≡◌, ◌<◌, [], true, OnOk, Some, slice_index_or};
ghost use Rattle.flash_pages.specs.Board.{UsesFlash, Told, FlashFaults};
ghost use Rattle.flash_pages.specs.Moments.{LeavesOnly};
ghost use Rattle.kept_core.specs.Running.{TellsFaults};
ghost use Rattle.kept_core.specs.Commands.{code_of, ends_writing};
ghost use Rattle.kept_core.specs.declared.status.Status.TheVariants.{Ended};
ghost use Rattle.external_flash.specs.Gates.{closed_page};
ghost use Rattle.kept_laws.specs.Formatted.{empty_page, formatted_ext};
ghost use Rattle.kept_core.specs.Format.{cleared, blanked, Clears, OnlyProg, FormatLeaves, HasFormatted};

use crate::sending::send_all;
use crate::status::Status;
use component_package::areas::{IMAGE_PAGES, MANIFEST_A};
use external_flash::{Gate, open_gate};
use flash_pages::page::blank;
use flash_pages::{Board, Failed};
use kept_definitions::areas::LAYOUT;

// How many pages external flash has.
const EXT_PAGES: u16 = 2048;

// The first page of an empty release, as a side keeps it: number 0, no entry, and the layout.
fn empty_release() -> [u8; 256]
    ensures { result ≡ empty_page }
{
    let mut page = [0; 256];
    page[5] = LAYOUT;
    page
}

// A page of an empty board with all gates closed: zeros, but on side A the empty release.
fn empty_board_page(page: u16) -> [u8; 256]
    requires { page < 2048 }
    ensures { result ≡ slice_index_or (formatted_ext closed_page) page [] }
{
    if page == MANIFEST_A {
        empty_release()
    } else {
        [0; 256]
    }
}

// Programs every page of external flash with an empty board's, page 0 first.
fn clear_ext<B: Board>(board: &mut B) -> Result<(), Failed>
    ensures ok { OnOk result (Told (B.view board.old) (λ s.
        (B.view board.new).state ≡ Some (cleared 2048 s))) }
    ensures each { Told (B.view board.old) (λ s.
        LeavesOnly (Clears s) 2048 (B.view board.old) (B.view board.new)) }
    ensures uses { UsesFlash (B.view board.old) (B.view board.new) }
    ensures faults { FlashFaults result (B.view board.old) (B.view board.new) }
{
    for page in 0..EXT_PAGES {
        board.ext_program(page, &empty_board_page(page))?;
    }
    Ok(())
}

// Programs every page of program flash with 0xFF.
fn blank_prog<B: Board>(board: &mut B) -> Result<(), Failed>
    ensures ok { OnOk result (Told (B.view board.old) (λ s.
        (B.view board.new).state ≡ Some (blanked 480 s))) }
    ensures each { Told (B.view board.old) (λ s.
        LeavesOnly (OnlyProg s) 480 (B.view board.old) (B.view board.new)) }
    ensures uses { UsesFlash (B.view board.old) (B.view board.new) }
    ensures faults { FlashFaults result (B.view board.old) (B.view board.new) }
{
    for page in 0..IMAGE_PAGES {
        board.prog_program(page, &blank())?;
    }
    Ok(())
}

/// The command `format`: makes an empty board, which stands for release 0 without a component, and sends `formatted`. It programs every page,
/// whatever it holds: external page 0 first, and again last.
///
/// `FlashFault` and `LineFault` come only where faults of that kind rose, else it is `Ended`.
pub fn format<B: Board>(board: &mut B) -> Status
    ensures done { result ≡ Ended → Told (B.view board.old) (λ s.
        HasFormatted s (B.view board.new)) }
    ensures each { Told (B.view board.old) (λ s.
        LeavesOnly (FormatLeaves s) 2529 (B.view board.old) (B.view board.new)) }
    ensures ends { ends_writing result ≡ true }
    ensures left { (B.view board.new).left ≡ (B.view board.old).left }
    ensures faults { TellsFaults (code_of result) (B.view board.old) (B.view board.new) }
{
    let Ok(()) = clear_ext(board) else {
        return Status::FlashFault;
    };
    let Ok(()) = blank_prog(board) else {
        return Status::FlashFault;
    };
    let Ok(()) = open_gate(board, Gate::Fmt) else {
        return Status::FlashFault;
    };
    let Ok(()) = send_all(board, b"formatted\n") else {
        return Status::LineFault;
    };
    Status::Ended
}
