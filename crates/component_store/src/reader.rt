//! Reading a slot by a page that is kept.

ghost use Rattle.std.specs.Prelude.{◌≡◌, ◌≤◌, ◌<◌, ◌+◌, ◌*◌, length, take, drop, Some, OnOk, OnErr};
ghost use Rattle.flash_pages.specs.State.{State, Ext, page_at};
ghost use Rattle.flash_pages.specs.Board.{View, Told, Reads, FlashFaults};
ghost use Rattle.component_package.specs.mote.Store.{page_of_slot, slot_at};
ghost use Rattle.component_store.specs.Reader.{Keeps};

use crate::piece::page_of;
use flash_pages::{Board, Failed};

// No page of a slot has this number.
const NO_PAGE: u8 = 255;

/// A slot and the page of it that was read last. So bytes that are read in order cost each page one read.
#[derive(Drop)]
pub struct SlotReader {
    pub(crate) slot: u8,
    pub(crate) page: u8,
    pub(crate) bytes: [u8; 256],
}

impl SlotReader {
    /// A reader that has read no page.
    pub fn new(slot: u8) -> SlotReader
        ensures slot { result.slot ≡ slot }
        ensures keeps { (s : State) → Keeps s result }
    {
        SlotReader {
            slot,
            page: NO_PAGE,
            bytes: [0; 256],
        }
    }

    // Reads this page, where it isn't the one that is kept.
    fn turn<B: Board>(&mut self, board: &mut B, page: u8) -> Result<(), Failed>
        requires slot { self.old.slot < 32 }
        requires page { page < 39 }
        ensures answer { OnOk result (Told (B.view board.old) (λ s. Keeps s self.old →
            self.new.bytes ≡ page_at s (Ext (page_of_slot self.old.slot page)))) }
        ensures keeps { OnOk result (Told (B.view board.old) (λ s. Keeps s self.old →
            Keeps s self.new)) }
        ensures slot { self.new.slot ≡ self.old.slot }
        ensures reads { Reads (B.view board.old) (B.view board.new) }
        ensures faults { FlashFaults result (B.view board.old) (B.view board.new) }
    {
        if self.page == page {
            return Ok(());
        }
        board.ext_read(page_of(self.slot, page), &mut self.bytes)?;
        self.page = page;
        Ok(())
    }

    // Reads bytes of one page, from `at` on.
    fn read_part<B: Board>(
        &mut self,
        board: &mut B,
        page: u8,
        at: usize,
        into: &mut [u8],
    ) -> Result<(), Failed>
        requires slot { self.old.slot < 32 }
        requires page { page < 39 }
        requires within { at + length into.old ≤ 256 }
        ensures answer { OnOk result (Told (B.view board.old) (λ s. Keeps s self.old → into.new ≡
            take (length into.old)
            (drop at (page_at s (Ext (page_of_slot self.old.slot page)))))) }
        ensures keeps { OnOk result (Told (B.view board.old) (λ s. Keeps s self.old →
            Keeps s self.new)) }
        ensures slot { self.new.slot ≡ self.old.slot }
        ensures reads { Reads (B.view board.old) (B.view board.new) }
        ensures faults { FlashFaults result (B.view board.old) (B.view board.new) }
    {
        self.turn(board, page)?;
        into.copy_from_slice(&self.bytes[at..at + into.len()]);
        Ok(())
    }

    /// Reads bytes of the slot, at most 256, from byte `from` of the slot on.
    pub(crate) fn read<B: Board>(
        &mut self,
        board: &mut B,
        from: u32,
        into: &mut [u8],
    ) -> Result<(), Failed>
        requires slot { self.old.slot < 32 }
        requires short { length into.old ≤ 256 }
        requires within { from + length into.old ≤ 9984 }
        ensures answer { OnOk result (Told (B.view board.old) (λ s. Keeps s self.old → into.new ≡
            take (length into.old) (drop from (slot_at s.ext self.old.slot)))) }
        ensures keeps { OnOk result (Told (B.view board.old) (λ s. Keeps s self.old →
            Keeps s self.new)) }
        ensures slot { self.new.slot ≡ self.old.slot }
        ensures reads { Reads (B.view board.old) (B.view board.new) }
        ensures faults { FlashFaults result (B.view board.old) (B.view board.new) }
    {
        if into.is_empty() {
            return Ok(());
        }
        let page = (from / 256) as u8;
        let at = (from % 256) as usize;
        let here = into.len().min(256 - at);
        self.read_part(board, page, at, &mut into[..here])?;
        if here < into.len() {
            self.read_part(board, page + 1, 0, &mut into[here..])?;
        }
        Ok(())
    }
}
