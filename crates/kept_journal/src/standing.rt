//! What the gates and the sides say.

ghost use Rattle.std.specs.Prelude.{◌≡◌, ◌≤◌, ◌+◌, ◌<◌, ◌&&◌, Bool, true, false, ℕ, Option, Some, None, OnOk, OnErr, IfOk, IfSome, length, if◌then◌else◌};
ghost use Rattle.std.specs.Option.{option_map};
ghost use Rattle.flash_pages.specs.State.{State};
ghost use Rattle.flash_pages.specs.Board.{View, Reads, UsesFlash, Told, FlashFaults, FlashFaultsWhere};
ghost use Rattle.kept_manifests.specs.Slots.{IsSlotManifest, stored_of};
ghost use Rattle.kept_definitions.specs.Sides.{is_on_b};
ghost use Rattle.kept_laws.specs.Standing.{IsIncoming};
ghost use Rattle.kept_definitions.specs.Machine.{Mote};
ghost use Rattle.kept_journal.specs.Steps.{parts, Stands};
ghost use Rattle.kept_journal.specs.Standing.{AnswersFor, IsOfMote, HasManifests, SideSays, FlagsSay, StoresRelease, side_by, side_bytes, is_fault};

use component_package::areas::{MANIFEST_A, MANIFEST_B};
use external_flash::{Gate, gate_is_open};
use flash_pages::{Board, Failed};
use kept_manifests::{SlotManifest, read_slot_pages};
use std::error::Error;
use std::fmt;

/// What a mote's gates and sides say.
#[derive(Clone, Copy, Debug, PartialEq, Eq)]
pub struct Standing {
    /// Side B is the chosen one: side A where its Go gate is open, else B where its Go gate is, else B where Sel is open, else A.
    pub on_b: bool,
    /// A commit stands: a Go gate is open, and the next boot copies the staged image.
    pub pending: bool,
    /// Something comes in, and its symbols are merged.
    pub symbols: bool,
    /// Something comes in, and its relocations are listed.
    pub relocs: bool,
    /// Something comes in, and its image is staged.
    pub image: bool,
    /// The chosen side's release.
    pub current: SlotManifest,
    /// The other side's release, where Man is open, no commit stands and its pages are a stored manifest.
    pub incoming: Option<SlotManifest>,
}

/// Why there is no [`Standing`].
#[derive(Clone, Copy, Debug, PartialEq, Eq)]
pub enum JournalFault {
    /// A call of the board failed.
    Fault,
    /// The gate Fmt is closed, both Go gates are open, or the chosen side's pages are no stored manifest.
    Unformatted,
}

/// Why, in words.
impl fmt::Display for JournalFault {
    fn fmt<W: fmt::Write>(&self, f: &mut fmt::Formatter<W>) -> fmt::Result {
        match self {
            JournalFault::Fault => write!(f, "{}", Failed),
            JournalFault::Unformatted => write!(f, "the board is not formatted"),
        }
    }
}

impl Error for JournalFault {}

// Which side is chosen, and whether a commit stands.
#[derive(Clone, Copy)]
struct Side {
    on_b: bool,
    pending: bool,
}

// What Sym, Rel and Img say.
#[derive(Clone, Copy)]
struct Flags {
    symbols: bool,
    relocs: bool,
    image: bool,
}

/// Whether side B is the chosen one.
pub(crate) fn is_on_b<B: Board>(board: &mut B) -> Result<bool, Failed>
    ensures answer { IfOk result (λ on_b. Told (B.view board.old) (λ s. on_b ≡ is_on_b (parts s))) }
    ensures reads { Reads (B.view board.old) (B.view board.new) }
    ensures faults { FlashFaults result (B.view board.old) (B.view board.new) }
{
    if gate_is_open(board, Gate::GoA)? {
        return Ok(false);
    }
    if gate_is_open(board, Gate::GoB)? {
        return Ok(true);
    }
    let on_b = gate_is_open(board, Gate::Sel)?;
    Ok(on_b)
}

// What the Go gates and Sel say of a formatted mote, if one Go gate at most is open.
fn side_by(go_a: bool, go_b: bool, sel: bool) -> Option<Side>
    ensures { result ≡ side_by go_a go_b sel }
{
    if go_a {
        if go_b {
            return None;
        }
        return Some(Side {
            on_b: false,
            pending: true,
        });
    }
    if go_b {
        return Some(Side {
            on_b: true,
            pending: true,
        });
    }
    Some(Side {
        on_b: sel,
        pending: false,
    })
}

// Which side is chosen, of a mote that is formatted and has one Go gate open at most.
fn read_side<B: Board>(board: &mut B) -> Result<Option<Side>, Failed>
    ensures answer { IfOk result (λ side. Told (B.view board.old) (λ s. SideSays side (parts s))) }
    ensures reads { Reads (B.view board.old) (B.view board.new) }
    ensures faults { FlashFaults result (B.view board.old) (B.view board.new) }
{
    if !gate_is_open(board, Gate::Fmt)? {
        return Ok(None);
    }
    let go_a = gate_is_open(board, Gate::GoA)?;
    let go_b = gate_is_open(board, Gate::GoB)?;
    let sel = gate_is_open(board, Gate::Sel)?;
    Ok(side_by(go_a, go_b, sel))
}

// The first page of a side.
pub(crate) fn first_page(on_b: bool) -> u16
    ensures page { result ≡ (if on_b then 13 else 8) }
    ensures within { result ≤ 13 }
{
    if on_b { MANIFEST_B } else { MANIFEST_A }
}

// The release that a side stores.
fn read_release<B: Board>(board: &mut B, on_b: bool) -> Result<Option<SlotManifest>, Failed>
    ensures answer { IfOk result (λ m. Told (B.view board.old) (λ s.
        StoresRelease (side_bytes on_b (parts s)) m)) }
    ensures manifest { IfOk result (λ m. IfSome m IsSlotManifest) }
    ensures reads { Reads (B.view board.old) (B.view board.new) }
    ensures faults { FlashFaults result (B.view board.old) (B.view board.new) }
{
    let first = first_page(on_b);
    let mut pages = [[0; 256]; 5];
    for i in 0..5u16 {
        let mut page = [0; 256];
        board.ext_read(first + i, &mut page)?;
        pages[i as usize] = page;
    }
    Ok(read_slot_pages(&pages))
}

// The release that comes in.
fn read_incoming<B: Board>(board: &mut B, side: Side) -> Result<Option<SlotManifest>, Failed>
    ensures answer { IfOk result (λ m. Told (B.view board.old) (λ s.
        SideSays (Some side) (parts s) → IsIncoming (parts s) (option_map stored_of m))) }
    ensures manifest { IfOk result (λ m. IfSome m IsSlotManifest) }
    ensures reads { Reads (B.view board.old) (B.view board.new) }
    ensures faults { FlashFaults result (B.view board.old) (B.view board.new) }
{
    if side.pending {
        return Ok(None);
    }
    if !gate_is_open(board, Gate::Man)? {
        return Ok(None);
    }
    let incoming = read_release(board, !side.on_b)?;
    Ok(incoming)
}

// What Sym, Rel and Img say of what comes in.
fn read_flags<B: Board>(board: &mut B, comes: bool) -> Result<Flags, Failed>
    ensures answer { IfOk result (λ flags. Told (B.view board.old) (λ s.
        FlagsSay comes flags (parts s))) }
    ensures reads { Reads (B.view board.old) (B.view board.new) }
    ensures faults { FlashFaults result (B.view board.old) (B.view board.new) }
{
    if !comes {
        return Ok(Flags {
            symbols: false,
            relocs: false,
            image: false,
        });
    }
    let symbols = gate_is_open(board, Gate::Sym)?;
    let relocs = gate_is_open(board, Gate::Rel)?;
    let image = gate_is_open(board, Gate::Img)?;
    Ok(Flags {
        symbols,
        relocs,
        image,
    })
}

/// What the gates and the sides say. It changes nothing. `Unformatted` comes exactly where the gate Fmt is closed, both Go gates are open,
/// or the chosen side's pages are no stored manifest; `Fault` comes only where flash faults rose.
pub fn read_state<B: Board>(board: &mut B) -> Result<Standing, JournalFault>
    ensures answer { Told (B.view board.old) (λ s. AnswersFor result (parts s)) }
    // Of a sound state it is what the state's mote holds.
    ensures mote { IfOk result (λ a. Told (B.view board.old) (λ s.
        (t : Mote) → Stands s t → IsOfMote t a)) }
    // On every board.
    ensures manifests { IfOk result HasManifests }
    ensures reads { Reads (B.view board.old) (B.view board.new) }
    ensures faults { FlashFaultsWhere (is_fault result) (B.view board.old) (B.view board.new) }
{
    let Ok(side) = read_side(board) else {
        return Err(JournalFault::Fault);
    };
    let Some(side) = side else {
        return Err(JournalFault::Unformatted);
    };
    let Ok(current) = read_release(board, side.on_b) else {
        return Err(JournalFault::Fault);
    };
    let Some(current) = current else {
        return Err(JournalFault::Unformatted);
    };
    let Ok(incoming) = read_incoming(board, side) else {
        return Err(JournalFault::Fault);
    };
    let Ok(flags) = read_flags(board, incoming.is_some()) else {
        return Err(JournalFault::Fault);
    };
    Ok(Standing {
        on_b: side.on_b,
        pending: side.pending,
        symbols: flags.symbols,
        relocs: flags.relocs,
        image: flags.image,
        current,
        incoming,
    })
}
