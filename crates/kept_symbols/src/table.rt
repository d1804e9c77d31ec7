//! Looking symbols up in the area.

ghost use Rattle.std.specs.Prelude.{◌≡◌, ◌+◌, ◌*◌, ◌<◌, ◌≤◌, ℕ, List, Some, IfOk, IfSome, OnOk, length, slice_get, slice_index, slice_range};
ghost use Rattle.flash_pages.specs.State.{State, Ext, page_at};
ghost use Rattle.flash_pages.specs.Board.{View, Told, Reads, FlashFaults};
ghost use Rattle.component_package.specs.packages.Numbers.{u16_at};
ghost use Rattle.component_package.specs.link.Areas.{MergedSymbol, Tells};
ghost use Rattle.component_package.specs.link.Pages.{address_in};
ghost use Rattle.kept_symbols.specs.Stored.{symbol_area};
ghost use Rattle.kept_symbols.specs.Lookup.{record_bytes, symbol_in, address_said, KeepsSymbols};

use component_package::areas::{SYMBOL_PAGES, SYMBOLS};
use flash_pages::{Board, Failed};

// How many records the area has room for.
const RECORDS: u16 = 1024;

// The number in two bytes of a record.
fn number_in(raw: &[u8; 8], at: usize) -> u16
    requires { at + 1 < 8 }
    ensures { result ≡ u16_at raw.now at }
{
    u16::from_le_bytes([raw[at], raw[at + 1]])
}

// The address that eight bytes say, where they are a record of this symbol. No exporter is 0xFF: such bytes are behind the records.
fn address_said(raw: &[u8; 8], symbol: u16) -> Option<u32>
    ensures { result ≡ address_said raw.now symbol }
{
    if number_in(raw, 0) == symbol && raw[2] != 0xFF {
        Some(number_in(raw, 4) as u32 + 65536 * number_in(raw, 6) as u32)
    } else {
        None
    }
}

// The eight bytes of a page from `at` on.
fn eight(bytes: &[u8; 256], at: usize) -> [u8; 8]
    requires { at + 8 ≤ 256 }
    ensures { result ≡ slice_range bytes.now at (at + 8) }
{
    let raw = &bytes[at..at + 8];
    [
        raw[0], raw[1], raw[2], raw[3], raw[4], raw[5], raw[6], raw[7],
    ]
}

/// The page of merged symbols that was read last, and the first symbol of each page that was looked at. So, once each page was looked at,
/// an address costs one page read, or none where the symbol's record is on the page of the one before.
#[derive(Drop)]
pub struct SymbolReader {
    pub(crate) page: u16,
    pub(crate) bytes: [u8; 256],
    pub(crate) firsts: [Option<u16>; 32],
}

impl SymbolReader {
    /// A reader that has read no page.
    pub fn new() -> SymbolReader
        ensures { (s : State) → KeepsSymbols s result }
    {
        SymbolReader {
            page: SYMBOL_PAGES,
            bytes: [0; 256],
            firsts: [None; 32],
        }
    }

    // Reads this page of the area, where it isn't the one that is kept.
    fn turn<B: Board>(&mut self, board: &mut B, page: u16) -> Result<(), Failed>
        requires { page < 32 }
        ensures page { OnOk result (Told (B.view board.old) (λ s. KeepsSymbols s self.old →
            self.new.bytes ≡ page_at s (Ext (18 + page)))) }
        ensures keeps { OnOk result (Told (B.view board.old) (λ s. KeepsSymbols s self.old →
            KeepsSymbols s self.new)) }
        ensures reads { Reads (B.view board.old) (B.view board.new) }
        ensures faults { FlashFaults result (B.view board.old) (B.view board.new) }
    {
        if self.page == page {
            return Ok(());
        }
        board.ext_read(SYMBOLS + page, &mut self.bytes)?;
        self.page = page;
        Ok(())
    }

    // The eight bytes of record `i`, or what is behind the records.
    fn record_at<B: Board>(&mut self, board: &mut B, i: u16) -> Result<[u8; 8], Failed>
        requires { i < 1024 }
        ensures bytes { IfOk result (λ raw. Told (B.view board.old) (λ s. KeepsSymbols s self.old →
            (rs : List MergedSymbol) → Tells (symbol_area s) rs →
            raw ≡ record_bytes (slice_get rs i))) }
        ensures keeps { OnOk result (Told (B.view board.old) (λ s. KeepsSymbols s self.old →
            KeepsSymbols s self.new)) }
        ensures reads { Reads (B.view board.old) (B.view board.new) }
        ensures faults { FlashFaults result (B.view board.old) (B.view board.new) }
    {
        self.turn(board, i / 32)?;
        Ok(eight(&self.bytes, 8 * (i % 32) as usize))
    }

    // The symbol of record `i`, where it is the first of a page that was looked at.
    fn remembered(&self, i: u16) -> Option<u16>
        requires { i < 1024 }
        ensures { IfSome result (λ n. (s : State) → KeepsSymbols s self.now →
            (rs : List MergedSymbol) → Tells (symbol_area s) rs → n ≡ symbol_in rs i) }
    {
        if i % 32 == 0 {
            self.firsts[(i / 32) as usize]
        } else {
            None
        }
    }

    // Remembers the symbol of record `i`, where it is the first of its page.
    fn remember(&mut self, i: u16, symbol: u16)
        requires { i < 1024 }
        ensures { (s : State) → KeepsSymbols s self.old → ((rs : List MergedSymbol) →
            Tells (symbol_area s) rs → symbol ≡ symbol_in rs i) → KeepsSymbols s self.new }
    {
        if i % 32 == 0 {
            self.firsts[(i / 32) as usize] = Some(symbol);
        }
    }

    // The symbol that record `i` says, or 0xFFFF behind the records.
    fn symbol_at<B: Board>(&mut self, board: &mut B, i: u16) -> Result<u16, Failed>
        requires { i < 1024 }
        ensures symbol { IfOk result (λ n. Told (B.view board.old) (λ s. KeepsSymbols s self.old →
            (rs : List MergedSymbol) → Tells (symbol_area s) rs → n ≡ symbol_in rs i)) }
        ensures keeps { OnOk result (Told (B.view board.old) (λ s. KeepsSymbols s self.old →
            KeepsSymbols s self.new)) }
        ensures reads { Reads (B.view board.old) (B.view board.new) }
        ensures faults { FlashFaults result (B.view board.old) (B.view board.new) }
    {
        if let Some(symbol) = self.remembered(i) {
            return Ok(symbol);
        }
        let record = self.record_at(board, i)?;
        let symbol = number_in(&record, 0);
        self.remember(i, symbol);
        Ok(symbol)
    }
}

/// The address of a symbol by the area of merged symbols, which may be any set's, by a reader that keeps what it read: none where the area has
/// no record of the symbol. `Failed` comes only where flash faults rose; the reader is then of no use.
pub fn read_address<B: Board>(
    board: &mut B,
    symbols: &mut SymbolReader,
    symbol: u16,
) -> Result<Option<u32>, Failed>
    ensures answer { IfOk result (λ a. Told (B.view board.old) (λ s. KeepsSymbols s symbols.old →
        (rs : List MergedSymbol) → Tells (symbol_area s) rs → a ≡ address_in rs symbol)) }
    ensures keeps { OnOk result (Told (B.view board.old) (λ s. KeepsSymbols s symbols.old →
        KeepsSymbols s symbols.new)) }
    ensures reads { Reads (B.view board.old) (B.view board.new) }
    ensures faults { FlashFaults result (B.view board.old) (B.view board.new) }
{
    let mut low = 0;
    let mut high = RECORDS;
    while low < high {
        let middle = (low + high) / 2;
        let number = symbols.symbol_at(board, middle)?;
        if number < symbol {
            low = middle + 1;
        } else {
            high = middle;
        }
    }
    if low == RECORDS {
        return Ok(None);
    }
    let record = symbols.record_at(board, low)?;
    Ok(address_said(&record, symbol))
}

/// The address of a symbol by the area of merged symbols, which may be any set's: none where it has no record of the symbol.
///
/// It is found by halving, in six page reads or seven; [`read_address`] is for many symbols. `Failed` comes only where flash faults rose.
pub fn address_of<B: Board>(board: &mut B, symbol: u16) -> Result<Option<u32>, Failed>
    ensures answer { IfOk result (λ a. Told (B.view board.old) (λ s.
        (rs : List MergedSymbol) → Tells (symbol_area s) rs → a ≡ address_in rs symbol)) }
    ensures reads { Reads (B.view board.old) (B.view board.new) }
    ensures faults { FlashFaults result (B.view board.old) (B.view board.new) }
{
    let mut symbols = SymbolReader::new();
    let address = read_address(board, &mut symbols, symbol)?;
    Ok(address)
}
