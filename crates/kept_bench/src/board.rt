//! A counting board that counts the reads of program flash too.

ghost use Rattle.std.specs.Prelude.{◌<◌};

use component_package::areas::STAGED;
use counting_board::{CountingBoard, Reads};
use flash_pages::{Board, Failed, NoMemory};
use std::alloc::Global;
use std::fmt;

/// A board in memory on which nothing goes wrong, and how often the pages of both flashes were read.
#[derive(Drop)]
pub(crate) struct BenchBoard {
    board: CountingBoard,
    prog_reads: u32,
}

/// How many pages were read: those of external flash by what they hold, where packages are those of inbox and table slots, and those of program flash.
#[derive(Clone, Copy)]
pub(crate) struct AllReads {
    external: Reads,
    program: u32,
}

impl fmt::Display for AllReads {
    fn fmt<W: fmt::Write>(&self, f: &mut fmt::Formatter<W>) -> fmt::Result {
        write!(f, "{} of program flash, {}", self.program, self.external)
    }
}

impl AllReads {
    /// The reads of all pages.
    pub(crate) fn total(&self) -> u32 {
        self.external.total().saturating_add(self.program)
    }
}

impl BenchBoard {
    /// A board whose pages hold zeros, with room for so many programs of pages.
    pub(crate) fn new(alloc: Global, programs: u32) -> Result<BenchBoard, NoMemory> {
        Ok(BenchBoard {
            board: CountingBoard::new(alloc, programs, 0)?,
            prog_reads: 0,
        })
    }

    /// Counts from 0 again.
    pub(crate) fn forget(&mut self) {
        self.board.forget();
        self.prog_reads = 0;
    }

    /// How many pages were read since the counts were forgotten.
    pub(crate) fn reads(&self) -> AllReads {
        AllReads {
            external: self.board.reads(),
            program: self.prog_reads,
        }
    }

    /// A page of the staged image.
    pub(crate) fn staged_page(&self, page: u16) -> &[u8; 256]
        requires { page < 480 }
    {
        self.board.ext_page(STAGED + page)
    }
}

impl Board for BenchBoard {
    ghost use Rattle.kept_bench.specs.Boards.{bench_view};

    ghost view = { bench_view };

    fn ext_read(&mut self, page: u16, into: &mut [u8; 256]) -> Result<(), Failed> {
        self.board.ext_read(page, into)?;
        Ok(())
    }

    fn ext_program(&mut self, page: u16, from: &[u8; 256]) -> Result<(), Failed> {
        self.board.ext_program(page, from)?;
        Ok(())
    }

    fn prog_read(&mut self, page: u16, into: &mut [u8; 256]) -> Result<(), Failed> {
        self.prog_reads = self.prog_reads.saturating_add(1);
        self.board.prog_read(page, into)?;
        Ok(())
    }

    fn prog_program(&mut self, page: u16, from: &[u8; 256]) -> Result<(), Failed> {
        self.board.prog_program(page, from)?;
        Ok(())
    }

    fn receive(&mut self, into: &mut [u8]) -> Result<usize, Failed> {
        let count = self.board.receive(into)?;
        Ok(count)
    }

    fn send(&mut self, from: &[u8]) -> Result<usize, Failed> {
        let count = self.board.send(from)?;
        Ok(count)
    }
}
