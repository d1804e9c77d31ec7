//! Runs of bytes over the ends of pages.

ghost use Rattle.std.specs.Prelude.{◌≡◌, ◌≤◌, ◌<◌, ◌+◌, ◌*◌, ℕ, length, take, drop, Some, OnOk};
ghost use Rattle.flash_pages.specs.State.{State, Ext, page_at};
ghost use Rattle.flash_pages.specs.Board.{View, Told, Reads, FlashFaults};
ghost use Rattle.external_flash.specs.Areas.{bytes_from};
ghost use Rattle.external_flash.specs.Readers.{Keeps};

use flash_pages::{Board, Failed};

/// A page of the external flash, the one that was read last. So bytes that are read in order cost each page one read.
///
/// What it reads is told only while that page is what it was: after a program of it, take a new reader.
#[derive(Drop)]
pub struct PageReader {
    page: Option<u16>,
    bytes: [u8; 256],
}

impl PageReader {
    /// A reader that has read no page.
    pub fn new() -> PageReader
        ensures keeps { (s : State) → Keeps s result }
    {
        PageReader {
            page: None,
            bytes: [0; 256],
        }
    }

    // Reads this page, where it isn't the one that is kept.
    fn turn<B: Board>(&mut self, board: &mut B, page: u16) -> Result<(), Failed>
        requires { page < 2048 }
        ensures page { OnOk result (Told (B.view board.old) (λ s.
            Keeps s self.old → self.new.bytes ≡ page_at s (Ext page))) }
        ensures keeps { Told (B.view board.old) (λ s. Keeps s self.old → Keeps s self.new) }
        ensures reads { Reads (B.view board.old) (B.view board.new) }
        ensures faults { FlashFaults result (B.view board.old) (B.view board.new) }
    {
        if self.page == Some(page) {
            return Ok(());
        }
        self.page = None;
        board.ext_read(page, &mut self.bytes)?;
        self.page = Some(page);
        Ok(())
    }

    // Reads bytes of one page, from `at` on.
    fn read_part<B: Board>(
        &mut self,
        board: &mut B,
        page: u16,
        at: usize,
        into: &mut [u8],
    ) -> Result<(), Failed>
        requires page { page < 2048 }
        requires within { at + length into.old ≤ 256 }
        ensures ok { OnOk result (Told (B.view board.old) (λ s. Keeps s self.old →
            into.new ≡ take (length into.old) (drop at (page_at s (Ext page))))) }
        ensures keeps { Told (B.view board.old) (λ s. Keeps s self.old → Keeps s self.new) }
        ensures reads { Reads (B.view board.old) (B.view board.new) }
        ensures faults { FlashFaults result (B.view board.old) (B.view board.new) }
    {
        self.turn(board, page)?;
        into.copy_from_slice(&self.bytes[at..at + into.len()]);
        Ok(())
    }

    /// Reads bytes, at most 256, of the pages from `first` on as one run, from byte `from` of that run on. With `Failed`
    /// the buffer holds any bytes; it comes only where flash faults rose, and the reader may be used again.
    pub fn read<B: Board>(
        &mut self,
        board: &mut B,
        first: u16,
        from: u32,
        into: &mut [u8],
    ) -> Result<(), Failed>
        requires short { length into.old ≤ 256 }
        requires within { 0 < length into.old → 256 * first + from + length into.old ≤ 256 * 2048 }
        ensures ok { OnOk result (Told (B.view board.old) (λ s. Keeps s self.old →
            into.new ≡ take (length into.old) (drop from (bytes_from first s)))) }
        ensures keeps { Told (B.view board.old) (λ s. Keeps s self.old → Keeps s self.new) }
        ensures reads { Reads (B.view board.old) (B.view board.new) }
        ensures faults { FlashFaults result (B.view board.old) (B.view board.new) }
    {
        if into.is_empty() {
            return Ok(());
        }
        let page = first + (from / 256) as u16;
        let at = (from % 256) as usize;
        let here = into.len().min(256 - at);
        self.read_part(board, page, at, &mut into[..here])?;
        if here < into.len() {
            self.read_part(board, page + 1, 0, &mut into[here..])?;
        }
        Ok(())
    }
}

/// Reads bytes as a new [`PageReader`] does, at the cost of one page read or two.
pub fn read_bytes<B: Board>(
    board: &mut B,
    first: u16,
    from: u32,
    into: &mut [u8],
) -> Result<(), Failed>
    requires short { length into.old ≤ 256 }
    requires within { 0 < length into.old → 256 * first + from + length into.old ≤ 256 * 2048 }
    ensures ok { OnOk result (Told (B.view board.old) (λ s.
        into.new ≡ take (length into.old) (drop from (bytes_from first s)))) }
    ensures reads { Reads (B.view board.old) (B.view board.new) }
    ensures faults { FlashFaults result (B.view board.old) (B.view board.new) }
{
    let mut reader = PageReader::new();
    reader.read(board, first, from, into)?;
    Ok(())
}
