//! Frames, read from the line in whatever pieces it gives them.

ghost use Rattle.std.specs.Prelude.{◌≡◌, ◌+◌, ◌<◌, ◌≤◌, ◌++◌, [], List, ℕ, OnOk, OnErr, IfOk, MatchResult, Some, take, length};
ghost use Rattle.flash_pages.specs.Board.{UsesLine, Rose};
ghost use Rattle.avr_reloc.specs.Field.{AreBytes};

use flash_pages::{Board, Failed};

// The most frames of one session (our own limit). It bounds how long a stream of input can keep a mote at work.
const SESSION_FRAMES: u32 = 1_000_000;

// The most bytes of a payload (our own format).
const PAYLOAD_BYTES: usize = 1024;

/// How the reading of a frame ended.
#[derive(Clone, Copy, Debug, PartialEq, Eq)]
pub enum Next {
    /// A whole frame of this type came; the session holds its payload.
    Frame(u8),
    /// The input ended between frames.
    InputEnd,
    /// The input ended inside a frame.
    CutFrame,
    /// The frame's length, which is here, is above 1,024. Nothing after the length was read.
    TooLong(u16),
    /// The session has read 1,000,000 frames, and another byte came. That byte alone was read.
    Budget,
}

/// The reading side of a session: how many frames it has read, and the payload of the last.
#[derive(Debug, Drop)]
pub struct Session {
    buffer: [u8; 1024],
    payload_len: u16,
    served: u32,
    ghost short: { payload_len ≤ 1024 },
    ghost few: { served ≤ 1000000 },
}

// Fills the slice from the line, up to the end of the input, and says how many bytes came.
fn receive_all<B: Board>(board: &mut B, into: &mut [u8]) -> Result<usize, Failed>
    ensures bound { IfOk result (λ n. n ≤ length into.old) }
    ensures left { (l : List ℕ) → (B.view board.old).left ≡ Some l → (new : List ℕ) × ((B.view board.new).left ≡ Some new) × MatchResult result
        (λ n. (l ≡ take n into.new ++ new) × (n < length into.old → new ≡ []))
        (λ _. (got : List ℕ) × (length got < length into.old) × (l ≡ got ++ new)) }
    ensures state { (B.view board.new).state ≡ (B.view board.old).state }
    ensures line { UsesLine (λ s x. x ≡ s) (B.view board.old) (B.view board.new) }
    ensures no_fault { OnOk result ((B.view board.new).line_faults ≡ (B.view board.old).line_faults) }
    ensures failed { OnErr result (Rose (B.view board.old).line_faults (B.view board.new).line_faults) }
{
    let mut at = 0;
    while at < into.len() {
        let Ok(count) = board.receive(&mut into[at..]) else {
            return Err(Failed);
        };
        if count == 0 {
            return Ok(at);
        }
        at += count;
    }
    Ok(at)
}

// Each element of a slice of bytes is below 256, which the proof of `next_frame` reads.
fn are_bytes(_bytes: &[u8])
    ensures { AreBytes _bytes.now }
{}

impl Session {
    ghost use Rattle.kept_core.specs.Reading.{served_of, payload_of, NextGives, ServesNext};

    /// A session that has read nothing.
    pub fn new() -> Session
        ensures served { served_of result ≡ 0 }
        ensures payload { payload_of result ≡ [] }
    {
        Session {
            buffer: [0; 1024],
            payload_len: 0,
            served: 0,
        }
    }

    /// The payload of the last frame that was read, 0 to 1,024 bytes; empty before the first.
    pub fn payload(&self) -> &[u8]
        ensures { result.now ≡ payload_of self.now }
    {
        &self.buffer[..self.payload_len as usize]
    }

    /// Reads the next frame, and no byte past it. `Failed` comes only where line faults rose; whatever isn't a frame leaves the
    /// session as it was.
    pub fn next_frame<B: Board>(&mut self, board: &mut B) -> Result<Next, Failed>
        ensures left { (l : List ℕ) → (B.view board.old).left ≡ Some l
            → (rest : List ℕ) × (new : List ℕ) × ((B.view board.new).left ≡ Some new) × NextGives result (payload_of self.new) l rest new }
        ensures served { ServesNext result self.old self.new }
        ensures budget { 1000000 ≤ served_of self.old → (l : List ℕ) → (B.view board.old).left ≡ Some l
            → (new : List ℕ) × ((B.view board.new).left ≡ Some new) × (length l ≤ length new + 1) }
        ensures state { (B.view board.new).state ≡ (B.view board.old).state }
        ensures line { UsesLine (λ s x. x ≡ s) (B.view board.old) (B.view board.new) }
        ensures no_fault { OnOk result ((B.view board.new).line_faults ≡ (B.view board.old).line_faults) }
        ensures failed { OnErr result (Rose (B.view board.old).line_faults (B.view board.new).line_faults) }
    {
        let mut head = [0u8; 3];
        if self.served >= SESSION_FRAMES {
            let Ok(count) = receive_all(board, &mut head[..1]) else {
                return Err(Failed);
            };
            return Ok(if count == 0 {
                Next::InputEnd
            } else {
                Next::Budget
            });
        }
        let Ok(count) = receive_all(board, &mut head) else {
            return Err(Failed);
        };
        if count == 0 {
            return Ok(Next::InputEnd);
        }
        if count < 3 {
            return Ok(Next::CutFrame);
        }
        let kind = head[0];
        let low = head[1];
        let high = head[2];
        let length = u16::from_le_bytes([low, high]);
        if length as usize > PAYLOAD_BYTES {
            return Ok(Next::TooLong(length));
        }
        let wanted = length as usize;
        let mut buffer = self.buffer;
        let Ok(came) = receive_all(board, &mut buffer[..wanted]) else {
            return Err(Failed);
        };
        if came < wanted {
            return Ok(Next::CutFrame);
        }
        are_bytes(&buffer[..wanted]);
        self.buffer = buffer;
        self.payload_len = length;
        self.served += 1;
        Ok(Next::Frame(kind))
    }
}
