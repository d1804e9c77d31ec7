//! Both flashes and the line as the mote sees them, and what a power cut may leave of them.
//!
//! A board may tell what it holds, as one in memory does, or tell nothing, as one on real files or on a chip. What is promised of pages,
//! of bytes sent and of bytes left holds where the board tells them; all else holds on every board.
ghost use Rattle.std.specs.Prelude.{◌≡◌, ◌<◌, ℕ, List, length, Some, OnOk, OnErr, IfOk};
ghost use Rattle.flash_pages.specs.State.{State, Place, Prog, Ext, page_at, SendsPart, always};
ghost use Rattle.flash_pages.specs.Board.{View, Told, Reads, IsProgrammed, Programs, UsesLine, Receives, Sends, FlashFaults, LineFaults};

use std::error::Error;
use std::fmt;

/// A call on an outside object failed, and that object's count of faults rose.
#[derive(Clone, Copy, Debug, PartialEq, Eq)]
pub struct Failed;

impl fmt::Display for Failed {
    fn fmt<W: fmt::Write>(&self, f: &mut fmt::Formatter<W>) -> fmt::Result {
        write!(f, "a call of the board failed")
    }
}

impl Error for Failed {}

/// The outside of a mote: 480 pages of program flash, 2,048 pages of external flash, and a line. A page has 256 bytes.
///
/// `view` is all that a board shows of itself. A call on a flash that fails leaves the count of line faults as it was, and one on the line
/// that of flash faults. No call changes whether the board tells its state or its bytes left.
pub trait Board {
    ghost view: { Self → View };

    /// Reads a page of external flash, below 2,048. It changes nothing; with `Failed` the buffer holds any bytes.
    fn ext_read(&mut self, page: u16, into: &mut [u8; 256]) -> Result<(), Failed>
        requires { page < 2048 }
        ensures page { OnOk result (Told (view self.old) (λ s. into.new ≡ page_at s (Ext page))) }
        ensures size { length into.new ≡ 256 }
        ensures reads { Reads (view self.old) (view self.new) }
        ensures faults { FlashFaults result (view self.old) (view self.new) };

    /// Programs a page of external flash, below 2,048. A cut in the call leaves the page as it was, or with any 256 bytes, or programmed,
    /// and all else as it was. `Failed` too may leave the page with any bytes, and counts as one program at most.
    fn ext_program(&mut self, page: u16, from: &[u8; 256]) -> Result<(), Failed>
        requires { page < 2048 }
        ensures ok { OnOk result (
            IsProgrammed (Ext page) from.now (view self.old) (view self.new)) }
        ensures programs { Programs always (Ext page) (view self.old) (view self.new) }
        ensures faults { FlashFaults result (view self.old) (view self.new) };

    /// Reads a page of program flash, below 480, as `ext_read` does.
    fn prog_read(&mut self, page: u16, into: &mut [u8; 256]) -> Result<(), Failed>
        requires { page < 480 }
        ensures page { OnOk result (Told (view self.old) (λ s. into.new ≡ page_at s (Prog page))) }
        ensures size { length into.new ≡ 256 }
        ensures reads { Reads (view self.old) (view self.new) }
        ensures faults { FlashFaults result (view self.old) (view self.new) };

    /// Programs a page of program flash, below 480, as `ext_program` does.
    fn prog_program(&mut self, page: u16, from: &[u8; 256]) -> Result<(), Failed>
        requires { page < 480 }
        ensures ok { OnOk result (
            IsProgrammed (Prog page) from.now (view self.old) (view self.new)) }
        ensures programs { Programs always (Prog page) (view self.old) (view self.new) }
        ensures faults { FlashFaults result (view self.old) (view self.new) };

    /// Receives the next bytes and says how many. It is 0 for a buffer that isn't empty exactly where nothing is left. `Failed` takes nothing.
    fn receive(&mut self, into: &mut [u8]) -> Result<usize, Failed>
        ensures ok { IfOk result (λ count.
            Receives count into.old into.new (view self.old) (view self.new)) }
        ensures left { OnErr result ((view self.new).left ≡ (view self.old).left) }
        ensures line { UsesLine (λ s x. x ≡ s) (view self.old) (view self.new) }
        ensures state { (view self.new).state ≡ (view self.old).state }
        ensures faults { LineFaults result (view self.old) (view self.new) };

    /// Sends bytes from the front of the piece and says how many, at least one where the piece isn't empty. A cut in the call, and `Failed`,
    /// leave some first part of the piece sent.
    fn send(&mut self, from: &[u8]) -> Result<usize, Failed>
        ensures ok { IfOk result (λ count. Sends count from.now (view self.old) (view self.new)) }
        ensures part { OnErr result (Told (view self.old) (λ s.
            (x : State) × ((view self.new).state ≡ Some x) × SendsPart from.now s x)) }
        ensures line { UsesLine (SendsPart from.now) (view self.old) (view self.new) }
        ensures left { (view self.new).left ≡ (view self.old).left }
        ensures faults { LineFaults result (view self.old) (view self.new) };
}
