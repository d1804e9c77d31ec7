//! A board in memory that counts its reads.

ghost use Rattle.flash_pages.specs.Memory.{memory_view};

use crate::boards::empty_board;
use flash_pages::{Board, Failed, MemoryBoard};
use std::alloc::Global;
use std::test::Fail;

/// A board in memory that counts how often each page of the external flash is read.
#[derive(Drop)]
pub(crate) struct CountingBoard {
    board: MemoryBoard,
    reads: Vec<u8>,
}

impl CountingBoard {
    /// A board of zeros that has counted nothing.
    pub(crate) fn new(alloc: Global) -> Result<CountingBoard, Fail> {
        let reads = vec![in alloc; 0; 2048]?;
        Ok(CountingBoard {
            board: empty_board(alloc)?,
            reads,
        })
    }

    /// Counts from 0 again.
    pub(crate) fn forget(&mut self) {
        self.reads.fill(0);
    }

    /// How often this page was read.
    pub(crate) fn reads_of(&self, page: usize) -> u8 {
        self.reads.get(page).copied().unwrap_or(0)
    }
}

impl Board for CountingBoard {
    ghost view = { λ b. memory_view b.board };

    fn ext_read(&mut self, page: u16, into: &mut [u8; 256]) -> Result<(), Failed> {
        if let Some(count) = self.reads.get_mut(page as usize) {
            *count = count.saturating_add(1);
        }
        self.board.ext_read(page, into)?;
        Ok(())
    }

    fn ext_program(&mut self, page: u16, from: &[u8; 256]) -> Result<(), Failed> {
        self.board.ext_program(page, from)?;
        Ok(())
    }

    fn prog_read(&mut self, page: u16, into: &mut [u8; 256]) -> Result<(), Failed> {
        self.board.prog_read(page, into)?;
        Ok(())
    }

    fn prog_program(&mut self, page: u16, from: &[u8; 256]) -> Result<(), Failed> {
        self.board.prog_program(page, from)?;
        Ok(())
    }

    fn receive(&mut self, into: &mut [u8]) -> Result<usize, Failed> {
        let count = self.board.receive(into)?;
        Ok(count)
    }

    fn send(&mut self, from: &[u8]) -> Result<usize, Failed> {
        let count = self.board.send(from)?;
        Ok(count)
    }
}
