//! A board in memory that counts its reads and programs.

ghost use Rattle.std.specs.Prelude.{◌≡◌, ◌<◌, [], Some, OnOk, OnErr, IfOk, IsSomeAnd, length, replicate};
ghost use Rattle.flash_pages.specs.State.{State, Prog, Ext, page_at, always, SendsPart};
ghost use Rattle.flash_pages.specs.Board.{View, Told, Reads as IsRead, IsProgrammed, Programs as IsProgram, UsesLine, Receives, Sends, FlashFaults, LineFaults};
ghost use Rattle.counting_board.specs.Counting.{one_more, reads_one};

use crate::reads::Reads;
use flash_pages::{Board, BoardPlan, Failed, MemoryBoard, NoMemory};
use std::alloc::Global;

/// How often pages were programmed.
#[derive(Clone, Copy, Debug, PartialEq, Eq)]
pub struct Programs {
    /// Pages of external flash.
    pub external: u32,
    /// Pages of program flash.
    pub program: u32,
}

/// A board in memory on which nothing goes wrong, and how often its pages were read and programmed.
///
/// Each call counts, done or failed: one fails only where there is no room for what it changes.
#[derive(Drop)]
pub struct CountingBoard {
    board: MemoryBoard,
    ext_reads: Vec<u32>,
    programs: Programs,
    ghost pages: { length ext_reads.items ≡ 2048 },
}

// Nothing goes wrong.
fn calm(alloc: Global) -> BoardPlan {
    BoardPlan {
        fail: Vec::new(alloc),
        stop_at: 0,
        spoil: [0; 256],
        chunk: 1_024,
    }
}

// One more, or as many as a count can hold.
fn one_more(count: u32) -> u32
    ensures { result ≡ one_more count }
{
    count.saturating_add(1)
}

// One read more of this page.
fn count_read(reads: &mut Vec<u32>, page: u16)
    requires { page < length reads.old.items }
    ensures { reads.new.items ≡ reads_one page reads.old.items }
{
    reads[page as usize] = one_more(reads[page as usize]);
}

impl CountingBoard {
    ghost use Rattle.flash_pages.specs.Memory.{zeros, IsFresh, unsent};
    ghost use Rattle.counting_board.specs.Counts.{counting_view, counts_of};

    /// A board whose pages hold zeros and that has counted nothing. It has room for `programs` programs of pages and for `sent` sent bytes
    /// until it is restarted. `NoMemory` is want of memory alone.
    pub fn new(alloc: Global, programs: u32, sent: u32) -> Result<CountingBoard, NoMemory>
        ensures fresh { IfOk result (λ board. IsFresh zeros [] (counting_view board)) }
    {
        Ok(CountingBoard {
            board: MemoryBoard::new(alloc, &[], calm(alloc), programs, sent)?,
            ext_reads: vec![in alloc; 0; 2048]?,
            programs: Programs {
                external: 0,
                program: 0,
            },
        })
    }

    /// The power is back: both flashes, the rooms and the counts are kept, nothing is sent yet, and these bytes are to be received.
    /// `NoMemory` is want of memory alone; the board is gone then.
    pub fn restart(self, alloc: Global, input: &[u8]) -> Result<CountingBoard, NoMemory>
        ensures fresh { IfOk result (λ board. IsSomeAnd (counting_view self).state (λ s.
            IsFresh (unsent s) input.now (counting_view board))) }
        ensures counts { IfOk result (λ board. counts_of board ≡ counts_of self) }
    {
        let CountingBoard {
            board,
            ext_reads,
            programs,
        } = self;
        let board = board.restart(alloc, input, calm(alloc))?;
        Ok(CountingBoard {
            board,
            ext_reads,
            programs,
        })
    }

    /// Counts from 0 again.
    pub fn forget(&mut self)
        ensures state { (counting_view self.new).state ≡ (counting_view self.old).state }
        ensures left { (counting_view self.new).left ≡ (counting_view self.old).left }
    {
        self.ext_reads.fill(0);
        self.programs = Programs {
            external: 0,
            program: 0,
        };
    }

    /// How many pages of external flash were read, by what they hold, since the counts were forgotten.
    pub fn reads(&self) -> Reads {
        Reads::of(&self.ext_reads)
    }

    /// How often pages were programmed since the counts were forgotten.
    pub fn programs(&self) -> Programs
        ensures external { result.external ≡ (counts_of self.now).ext_programs }
        ensures program { result.program ≡ (counts_of self.now).prog_programs }
    {
        self.programs
    }

    /// This page of program flash.
    pub fn prog_page(&self, page: u16) -> &[u8; 256]
        requires { page < 480 }
        ensures { IsSomeAnd (counting_view self.now).state (λ s.
            result.now ≡ page_at s (Prog page)) }
    {
        self.board.prog_page(page)
    }

    /// This page of external flash.
    pub fn ext_page(&self, page: u16) -> &[u8; 256]
        requires { page < 2048 }
        ensures { IsSomeAnd (counting_view self.now).state (λ s.
            result.now ≡ page_at s (Ext page)) }
    {
        self.board.ext_page(page)
    }

    /// The bytes that were sent since the board was made or last restarted.
    pub fn sent_bytes(&self) -> &[u8]
        ensures { IsSomeAnd (counting_view self.now).state (λ s. result.now ≡ s.sent) }
    {
        self.board.sent_bytes()
    }
}

impl Board for CountingBoard {
    ghost use Rattle.counting_board.specs.Counts.{counting_view, counts_of};

    ghost view = { counting_view };

    fn ext_read(&mut self, page: u16, into: &mut [u8; 256]) -> Result<(), Failed>
        requires { page < 2048 }
        ensures page { OnOk result (Told (counting_view self.old) (λ s.
            into.new ≡ page_at s (Ext page))) }
        ensures size { length into.new ≡ 256 }
        ensures reads { IsRead (counting_view self.old) (counting_view self.new) }
        ensures faults { FlashFaults result (counting_view self.old) (counting_view self.new) }
        ensures counts { counts_of self.new ≡ record (counts_of self.old) {
          ext_reads = reads_one page (counts_of self.old).ext_reads;
        } }
    {
        count_read(&mut self.ext_reads, page);
        self.board.ext_read(page, into)?;
        Ok(())
    }

    fn ext_program(&mut self, page: u16, from: &[u8; 256]) -> Result<(), Failed>
        requires { page < 2048 }
        ensures ok { OnOk result (
            IsProgrammed (Ext page) from.now (counting_view self.old) (counting_view self.new)) }
        ensures programs { IsProgram always (Ext page)
            (counting_view self.old) (counting_view self.new) }
        ensures faults { FlashFaults result (counting_view self.old) (counting_view self.new) }
        ensures counts { counts_of self.new ≡ record (counts_of self.old) {
          ext_programs = one_more (counts_of self.old).ext_programs;
        } }
    {
        self.programs.external = one_more(self.programs.external);
        self.board.ext_program(page, from)?;
        Ok(())
    }

    fn prog_read(&mut self, page: u16, into: &mut [u8; 256]) -> Result<(), Failed>
        requires { page < 480 }
        ensures page { OnOk result (Told (counting_view self.old) (λ s.
            into.new ≡ page_at s (Prog page))) }
        ensures size { length into.new ≡ 256 }
        ensures reads { IsRead (counting_view self.old) (counting_view self.new) }
        ensures faults { FlashFaults result (counting_view self.old) (counting_view self.new) }
        ensures counts { counts_of self.new ≡ counts_of self.old }
    {
        self.board.prog_read(page, into)?;
        Ok(())
    }

    fn prog_program(&mut self, page: u16, from: &[u8; 256]) -> Result<(), Failed>
        requires { page < 480 }
        ensures ok { OnOk result (
            IsProgrammed (Prog page) from.now (counting_view self.old) (counting_view self.new)) }
        ensures programs { IsProgram always (Prog page)
            (counting_view self.old) (counting_view self.new) }
        ensures faults { FlashFaults result (counting_view self.old) (counting_view self.new) }
        ensures counts { counts_of self.new ≡ record (counts_of self.old) {
          prog_programs = one_more (counts_of self.old).prog_programs;
        } }
    {
        self.programs.program = one_more(self.programs.program);
        self.board.prog_program(page, from)?;
        Ok(())
    }

    fn receive(&mut self, into: &mut [u8]) -> Result<usize, Failed>
        ensures ok { IfOk result (λ count.
            Receives count into.old into.new (counting_view self.old) (counting_view self.new)) }
        ensures left { OnErr result ((counting_view self.new).left ≡ (counting_view self.old).left) }
        ensures line { UsesLine (λ s x. x ≡ s) (counting_view self.old) (counting_view self.new) }
        ensures state { (counting_view self.new).state ≡ (counting_view self.old).state }
        ensures faults { LineFaults result (counting_view self.old) (counting_view self.new) }
        ensures counts { counts_of self.new ≡ counts_of self.old }
    {
        let count = self.board.receive(into)?;
        Ok(count)
    }

    fn send(&mut self, from: &[u8]) -> Result<usize, Failed>
        ensures ok { IfOk result (λ count.
            Sends count from.now (counting_view self.old) (counting_view self.new)) }
        ensures part { OnErr result (Told (counting_view self.old) (λ s.
            (x : State) × ((counting_view self.new).state ≡ Some x) × SendsPart from.now s x)) }
        ensures line { UsesLine (SendsPart from.now)
            (counting_view self.old) (counting_view self.new) }
        ensures left { (counting_view self.new).left ≡ (counting_view self.old).left }
        ensures faults { LineFaults result (counting_view self.old) (counting_view self.new) }
        ensures counts { counts_of self.new ≡ counts_of self.old }
    {
        let count = self.board.send(from)?;
        Ok(count)
    }
}
