//! Steps on gates alone.

ghost use Rattle.std.specs.Prelude.{◌≡◌, ◌<◌, true, false, if◌then◌else◌, OnOk, OnErr, IfOk, Some};
ghost use Rattle.flash_pages.specs.State.{State, ext_pages};
ghost use Rattle.flash_pages.specs.Board.{View, UsesFlash, Told, FlashFaults};
ghost use Rattle.external_flash.specs.Gates.{gate_page};
ghost use Rattle.component_package.specs.mote.Sides.{pages_from, sel, go_a, go_b};
ghost use Rattle.kept_definitions.specs.Sides.{is_on_b};
ghost use Rattle.kept_laws.specs.Steps.{with_gate, other_go, chosen_go};
ghost use Rattle.kept_journal.specs.Steps.{parts, Step, CommitStep, Takes, Becomes, any_mote, Rests, IsLinked, Pends, IsCopied, stays, unlinks, abandons, boots, marks, commits, unlinked, abandoned, finished, stage_gate, Vouches, one_page};

use crate::standing::is_on_b;
use external_flash::{Gate, close_gate, open_gate};
use flash_pages::{Board, Failed};

/// What is made of an incoming release, one after another, each with its gate.
#[derive(Clone, Copy, Debug, PartialEq, Eq)]
pub enum Stage {
    /// The symbols are merged: gate Sym.
    Symbols,
    /// The relocations are listed: gate Rel.
    Relocs,
    /// The image is staged: gate Img.
    Image,
}

/// Closes Img, Rel and Sym, in this order, where they are open. Three programs at most.
pub fn unlink<B: Board>(board: &mut B) -> Result<(), Failed>
    ensures ok { OnOk result (Told (B.view board.old) (λ s.
        Becomes (unlinked (parts s)) any_mote unlinks s (B.view board.new))) }
    ensures each { Told (B.view board.old) (λ s.
        Takes (Step any_mote (ext_pages 2 4) s) (ext_pages 2 4) 3
        (B.view board.old) (B.view board.new)) }
    ensures uses { UsesFlash (B.view board.old) (B.view board.new) }
    ensures faults { FlashFaults result (B.view board.old) (B.view board.new) }
{
    close_gate(board, Gate::Img)?;
    close_gate(board, Gate::Rel)?;
    close_gate(board, Gate::Sym)?;
    Ok(())
}

/// Gives up what comes in: closes Img, Rel, Sym and Man, in this order, where they are open. Four programs at most.
pub fn abandon<B: Board>(board: &mut B) -> Result<(), Failed>
    ensures ok { OnOk result (Told (B.view board.old) (λ s.
        Becomes (abandoned (parts s)) any_mote abandons s (B.view board.new))) }
    ensures each { Told (B.view board.old) (λ s.
        Takes (Step any_mote (ext_pages 1 4) s) (ext_pages 1 4) 4
        (B.view board.old) (B.view board.new)) }
    ensures uses { UsesFlash (B.view board.old) (B.view board.new) }
    ensures faults { FlashFaults result (B.view board.old) (B.view board.new) }
{
    unlink(board)?;
    close_gate(board, Gate::Man)?;
    Ok(())
}

// The gate of a stage.
fn gate_of(stage: Stage) -> Gate
    ensures { gate_page result ≡ stage_gate stage }
{
    match stage {
        Stage::Symbols => Gate::Sym,
        Stage::Relocs => Gate::Rel,
        Stage::Image => Gate::Img,
    }
}

/// Opens a stage's gate, with one program at most. It keeps a mote sound where no commit stands and what the gate vouches for holds.
pub fn mark<B: Board>(board: &mut B, stage: Stage) -> Result<(), Failed>
    ensures ok { OnOk result (Told (B.view board.old) (λ s.
        Becomes (with_gate (stage_gate stage) true (parts s))
        (λ t. Rests t × Vouches stage (parts s)) (marks stage) s (B.view board.new))) }
    ensures each { Told (B.view board.old) (λ s.
        Takes (Step (λ t. Rests t × Vouches stage (parts s)) (one_page (stage_gate stage)) s)
        (one_page (stage_gate stage)) 1 (B.view board.old) (B.view board.new)) }
    ensures uses { UsesFlash (B.view board.old) (B.view board.new) }
    ensures faults { FlashFaults result (B.view board.old) (B.view board.new) }
{
    open_gate(board, gate_of(stage))?;
    Ok(())
}

// The Go gate of a side.
fn go_gate(on_b: bool) -> Gate
    ensures { gate_page result ≡ (if on_b then go_b else go_a) }
{
    if on_b { Gate::GoB } else { Gate::GoA }
}

/// Commits: opens the Go gate of the side that isn't chosen, with one program. Where the mote is linked, each state that a cut may leave is
/// sound and stands for the mote before the commit or for the one behind it.
pub fn go<B: Board>(board: &mut B) -> Result<(), Failed>
    ensures ok { OnOk result (Told (B.view board.old) (λ s.
        Becomes (with_gate (other_go (parts s)) true (parts s)) IsLinked commits s
        (B.view board.new))) }
    ensures each { Told (B.view board.old) (λ s.
        Takes (CommitStep (one_page (other_go (parts s))) s) (one_page (other_go (parts s))) 1
        (B.view board.old) (B.view board.new)) }
    ensures uses { UsesFlash (B.view board.old) (B.view board.new) }
    ensures faults { FlashFaults result (B.view board.old) (B.view board.new) }
{
    let on_b = is_on_b(board)?;
    open_gate(board, go_gate(!on_b))?;
    Ok(())
}

// Brings Sel over to a side.
fn select<B: Board>(board: &mut B, on_b: bool) -> Result<(), Failed>
    ensures ok { OnOk result (Told (B.view board.old) (λ s.
        Becomes (with_gate sel on_b (parts s)) Pends stays s (B.view board.new))) }
    ensures each { Told (B.view board.old) (λ s.
        Takes (Step Pends (one_page sel) s) (one_page sel) 1
        (B.view board.old) (B.view board.new)) }
    ensures uses { UsesFlash (B.view board.old) (B.view board.new) }
    ensures faults { FlashFaults result (B.view board.old) (B.view board.new) }
{
    if on_b {
        open_gate(board, Gate::Sel)?;
        return Ok(());
    }
    close_gate(board, Gate::Sel)?;
    Ok(())
}

/// Ends an installation: brings Sel over to the chosen side, closes Img, Rel, Sym and Man, and then the Go gate. Six programs at most.
/// It keeps a mote sound where a commit stands and program flash is the staged image.
pub fn finish<B: Board>(board: &mut B) -> Result<(), Failed>
    ensures ok { OnOk result (Told (B.view board.old) (λ s.
        Becomes (finished (parts s)) (λ t. Pends t × IsCopied (parts s)) boots s
        (B.view board.new))) }
    ensures each { Told (B.view board.old) (λ s.
        Takes (Step (λ t. Pends t × IsCopied (parts s)) (ext_pages 1 7) s) (ext_pages 1 7) 6
        (B.view board.old) (B.view board.new)) }
    ensures uses { UsesFlash (B.view board.old) (B.view board.new) }
    ensures faults { FlashFaults result (B.view board.old) (B.view board.new) }
{
    let on_b = is_on_b(board)?;
    select(board, on_b)?;
    abandon(board)?;
    close_gate(board, go_gate(on_b))?;
    Ok(())
}
