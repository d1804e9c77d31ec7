//! What the two ends of a connection do.
//!
//! An end may tell what is left or what was written, as one in memory does, or tell nothing, as a socket. What is promised of bytes left
//! and bytes written holds where they are told; all else holds of every end.
ghost use Rattle.std.specs.Prelude.{◌≡◌, ℕ, length, take, OnOk, OnErr, IfOk};
ghost use Rattle.http_edges.specs.Edge.{SourceView, SinkView, Counts, Gives, Receives, Appends, Accepts, AppendsPart};

use std::error::Error;
use std::fmt;

/// A call on an end failed, and that end's count of faults rose.
#[derive(Clone, Copy, Debug, PartialEq, Eq)]
pub struct Failed;

impl fmt::Display for Failed {
    fn fmt<W: fmt::Write>(&self, f: &mut fmt::Formatter<W>) -> fmt::Result {
        write!(f, "an end of the connection failed")
    }
}

impl Error for Failed {}

/// Where the bytes of a request come from.
///
/// `view` is all that a source shows of itself. No call changes whether it tells the bytes left.
pub trait Source {
    ghost view: { Self → SourceView };

    /// Reads the next bytes that are left and says how many. It is 0 for a buffer that isn't empty exactly where nothing is left.
    /// `Failed` takes nothing.
    fn read(&mut self, into: &mut [u8]) -> Result<usize, Failed>
        ensures ok { IfOk result (λ count.
            Receives count into.old into.new (view self.old) (view self.new)) }
        ensures left { OnErr result ((view self.new).left ≡ (view self.old).left) }
        ensures size { length into.new ≡ length into.old }
        ensures counts { Counts (view self.old).faults (view self.new).faults result };
}

/// Where the bytes of a reply go.
///
/// `view` is all that a sink shows of itself. No call changes whether it tells the bytes written.
pub trait Sink {
    ghost view: { Self → SinkView };

    /// Writes bytes from the front of the piece and says how many, at least one where the piece isn't empty. `Failed` leaves some first
    /// part of the piece written.
    fn write(&mut self, from: &[u8]) -> Result<usize, Failed>
        ensures ok { IfOk result (λ count. Accepts count from.now (view self.old) (view self.new)) }
        ensures part { OnErr result (AppendsPart from.now (view self.old) (view self.new)) }
        ensures counts { Counts (view self.old).faults (view self.new).faults result };
}

/// Writes all bytes of a piece, in as many calls as it takes. `Failed` leaves some first part of the piece written.
pub fn write_all<K: Sink>(sink: &mut K, from: &[u8]) -> Result<(), Failed>
    ensures ok { OnOk result (Appends from.now (K.view sink.old) (K.view sink.new)) }
    ensures part { OnErr result (AppendsPart from.now (K.view sink.old) (K.view sink.new)) }
    ensures counts { Counts (K.view sink.old).faults (K.view sink.new).faults result }
{
    let mut at = 0;
    while at < from.len() {
        let Ok(count) = sink.write(&from[at..]) else {
            return Err(Failed);
        };
        at += count;
    }
    Ok(())
}
