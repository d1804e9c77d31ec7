//! The lines of a rehearsal.

ghost use Rattle.std.specs.Prelude.{◌≡◌, ◌<◌, ◌≤◌, ◌++◌, ◌∷◌, [], length, List, ℕ, OnOk, OnErr, IfErr, IfOk, Some, decimal, is_ok};
ghost use Rattle.flash_pages.specs.State.{State, SendsPart};
ghost use Rattle.flash_pages.specs.Board.{Rose, Told, UsesLine};
ghost use Rattle.hex.specs.Hex.{encode_lower};
ghost use Rattle.mote_core.specs.Sending.{SendsBut};
ghost use Rattle.rehearsal.specs.Lines.{OnlySends, SendsPiece};

use flash_pages::{Board, Failed};
use itoa::Buffer;
use std::alloc::{AllocError, Global};

// Sends all the bytes.
pub(crate) fn send_all<B: Board>(board: &mut B, from: &[u8]) -> Result<(), Failed>
    ensures sent { (s : State) → (B.view board.old).state ≡ Some s → (owed : List ℕ) × (x : State)
        × ((B.view board.new).state ≡ Some x) × SendsBut owed from.now s x × OnOk result (owed ≡ []) }
    ensures left { (B.view board.new).left ≡ (B.view board.old).left }
    ensures line { UsesLine (SendsPart from.now) (B.view board.old) (B.view board.new) }
    ensures no_fault { OnOk result ((B.view board.new).line_faults ≡ (B.view board.old).line_faults) }
    ensures failed { OnErr result (Rose (B.view board.old).line_faults (B.view board.new).line_faults) }
{
    let mut at = 0;
    while at < from.len() {
        let Ok(count) = board.send(&from[at..]) else {
            return Err(Failed);
        };
        at += count;
    }
    Ok(())
}

// The digits of a number.
fn push_number(into: &mut Vec<u8>, number: u32) -> Result<(), AllocError>
    ensures { OnOk result (into.new.items ≡ into.old.items ++ decimal number) }
{
    let mut buffer = Buffer::new();
    into.extend_from_slice(buffer.format(number).as_bytes())?;
    Ok(())
}

/// A word, a release and the digest of program flash.
pub(crate) fn boot_line(
    alloc: Global,
    word: &[u8],
    release: u32,
    digest: &[u8; 32],
) -> Result<Vec<u8>, AllocError>
    ensures { IfOk result (λ v. v.items ≡ word.now ++ (decimal release ++ 32 ∷ (encode_lower digest.now ++ 10 ∷ []))) }
{
    let mut bytes = Vec::from_slice(alloc, word)?;
    push_number(&mut bytes, release)?;
    bytes.push(b' ')?;
    let hex = hex::encode(alloc, digest.as_slice())?;
    bytes.extend_from_slice(hex.as_bytes())?;
    bytes.push(b'\n')?;
    Ok(bytes)
}

/// Sends a line. Nothing else is done on the board.
pub(crate) fn send<B: Board>(board: &mut B, from: &[u8]) -> Result<(), Failed>
    ensures only { OnlySends (B.view board.old) (B.view board.new) }
    ensures sent { Told (B.view board.old) (λ s. SendsPiece from.now (is_ok result) s (B.view board.new)) }
    ensures no_fault { OnOk result ((B.view board.new).line_faults ≡ (B.view board.old).line_faults) }
    ensures failed { OnErr result (Rose (B.view board.old).line_faults (B.view board.new).line_faults) }
{
    send_all(board, from)
}
