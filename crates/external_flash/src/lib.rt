//! Gates and areas on the pages of the external flash.
//!
//! A gate is a flag on a page of its own. It is open exactly where the page's first byte is 0xA5, so that one program opens or closes it.
//! Pages are programmed only where that changes something, and a run of bytes is read over the ends of pages.
#![tactic(auto)]

ghost use Rattle.std.specs.Prelude.{◌≡◌, ◌<◌, ◌+◌, ◌↔◌, Some, OnOk, IfOk, IsTrue, if◌then◌else◌};
ghost use Rattle.flash_pages.specs.State.{Ext, with_page};
ghost use Rattle.flash_pages.specs.Board.{View, Told, Reads, Programs, FlashFaults};
ghost use Rattle.external_flash.specs.Gates.{gate_page, gate_place, is_open, IsShut, IsOpen, opened, closed};
ghost use Rattle.external_flash.specs.Areas.{Differs};

mod reader;

use flash_pages::page::is_same;
use flash_pages::{Board, Failed};
pub use reader::{PageReader, read_bytes};

/// The gates. The first stands on page 0 of the external flash, and each other on the page after the one before it.
#[derive(Clone, Copy, Debug, PartialEq, Eq)]
pub enum Gate {
    /// The board was formatted.
    Fmt,

    /// The incoming manifest is whole.
    Man,

    /// The symbols of the incoming set are merged.
    Sym,

    /// The relocation list of the incoming set is whole.
    Rel,

    /// The image of the incoming set is staged.
    Img,

    /// The set of side A is to be copied into program flash.
    GoA,

    /// The set of side B is to be copied into program flash.
    GoB,

    /// Where neither Go gate is open, the chosen side is side B if this gate is open, and side A if not.
    Sel,
}

// The first byte of an open gate's page.
const OPEN: u8 = 0xA5;

// The gate's page.
fn page_of(gate: Gate) -> u16
    ensures page { result ≡ gate_page gate }
    ensures within { result < 8 }
{
    gate as u16
}

/// Whether the gate is open: whether the first byte of its page is 0xA5. `Failed` comes only where flash faults rose.
pub fn gate_is_open<B: Board>(board: &mut B, gate: Gate) -> Result<bool, Failed>
    ensures reads { Reads (B.view board.old) (B.view board.new) }
    ensures answer { IfOk result (λ answer. Told (B.view board.old) (λ s.
        answer ≡ is_open gate s)) }
    ensures faults { FlashFaults result (B.view board.old) (B.view board.new) }
{
    let mut page = [0; 256];
    board.ext_read(page_of(gate), &mut page)?;
    Ok(page[0] == OPEN)
}

/// Opens the gate: programs its page with 0xA5 and 255 zeros where the gate isn't open. `Failed` comes only where flash faults rose.
pub fn open_gate<B: Board>(board: &mut B, gate: Gate) -> Result<(), Failed>
    ensures ok { OnOk result (Told (B.view board.old) (λ s.
        (B.view board.new).state ≡ Some (opened gate s))) }
    ensures programs { Programs (IsShut gate) (gate_place gate)
        (B.view board.old) (B.view board.new) }
    ensures count { OnOk result (Told (B.view board.old) (λ s.
        (B.view board.new).all_programs
        ≡ (B.view board.old).all_programs + (if is_open gate s then 0 else 1))) }
    ensures faults { FlashFaults result (B.view board.old) (B.view board.new) }
{
    if !gate_is_open(board, gate)? {
        let mut page = [0; 256];
        page[0] = OPEN;
        board.ext_program(page_of(gate), &page)?;
    }
    Ok(())
}

/// Closes the gate: programs its page with 256 zeros where the gate is open. `Failed` comes only where flash faults rose.
pub fn close_gate<B: Board>(board: &mut B, gate: Gate) -> Result<(), Failed>
    ensures ok { OnOk result (Told (B.view board.old) (λ s.
        (B.view board.new).state ≡ Some (closed gate s))) }
    ensures programs { Programs (IsOpen gate) (gate_place gate)
        (B.view board.old) (B.view board.new) }
    ensures count { OnOk result (Told (B.view board.old) (λ s.
        (B.view board.new).all_programs
        ≡ (B.view board.old).all_programs + (if is_open gate s then 1 else 0))) }
    ensures faults { FlashFaults result (B.view board.old) (B.view board.new) }
{
    if gate_is_open(board, gate)? {
        board.ext_program(page_of(gate), &[0; 256])?;
    }
    Ok(())
}

/// Programs the page where a byte differs, and says whether it did. `Failed` comes only where flash faults rose.
pub fn program_if_different<B: Board>(
    board: &mut B,
    page: u16,
    bytes: &[u8; 256],
) -> Result<bool, Failed>
    requires { page < 2048 }
    ensures ok { OnOk result (Told (B.view board.old) (λ s.
        (B.view board.new).state ≡ Some (with_page s (Ext page) bytes.now))) }
    ensures programs { Programs (Differs (Ext page) bytes.now) (Ext page)
        (B.view board.old) (B.view board.new) }
    ensures answer { IfOk result (λ did. Told (B.view board.old) (λ s.
        IsTrue did ↔ Differs (Ext page) bytes.now s)) }
    ensures count { IfOk result (λ did. Told (B.view board.old) (λ s.
        (B.view board.new).all_programs
        ≡ (B.view board.old).all_programs + (if did then 1 else 0))) }
    ensures faults { FlashFaults result (B.view board.old) (B.view board.new) }
{
    let mut there = [0; 256];
    board.ext_read(page, &mut there)?;
    if is_same(&there, bytes) {
        return Ok(false);
    }
    board.ext_program(page, bytes)?;
    Ok(true)
}
