//! The relocation list, read from its area.

ghost use Rattle.std.specs.Prelude.{◌≡◌, ◌<◌, ◌≤◌, ◌+◌, ◌*◌, ℕ, List, length, slice_get, slice_range, take, drop, IfOk, IfSome, OnOk, Option, Some, None, unwrap_or};
ghost use Rattle.flash_pages.specs.State.{State, Ext, page_at};
ghost use Rattle.flash_pages.specs.Board.{View, Reads, Told, FlashFaults};
ghost use Rattle.avr_reloc.specs.declared.fixup.Fixup.{Fixup};
ghost use Rattle.avr_reloc.specs.Kind.{kind_of};
ghost use Rattle.component_package.specs.link.Areas.{IsEntry, entry_of, Lists};
ghost use Rattle.kept_relocs.specs.List.{list_area, has_ended, first_above, KeepsList};

use avr_reloc::{Fixup, RelocType};
use component_package::areas::RELOCATIONS;
use flash_pages::{Board, Failed};

// No page of the list has this number.
const NO_PAGE: u16 = 256;

/// The page of the relocation list that was read last: so entries that are read in order cost each page one read.
#[derive(Drop)]
pub struct ListReader {
    pub(crate) page: u16,
    pub(crate) bytes: [u8; 256],
}

impl ListReader {
    /// A reader that has read no page.
    pub fn new() -> ListReader
        ensures { (s : State) → KeepsList s result }
    {
        ListReader {
            page: NO_PAGE,
            bytes: [0; 256],
        }
    }

    // Reads this page of the list, where it isn't the one that is kept.
    fn turn<B: Board>(&mut self, board: &mut B, page: u16) -> Result<(), Failed>
        requires { page < 256 }
        ensures page { OnOk result (Told (B.view board.old) (λ s. KeepsList s self.old →
            self.new.bytes ≡ page_at s (Ext (50 + page)))) }
        ensures keeps { OnOk result (Told (B.view board.old) (λ s. KeepsList s self.old →
            KeepsList s self.new)) }
        ensures reads { Reads (B.view board.old) (B.view board.new) }
        ensures faults { FlashFaults result (B.view board.old) (B.view board.new) }
    {
        if self.page == page {
            return Ok(());
        }
        board.ext_read(RELOCATIONS + page, &mut self.bytes)?;
        self.page = page;
        Ok(())
    }

    // The eight bytes of entry `i`.
    fn raw<B: Board>(&mut self, board: &mut B, i: u16) -> Result<[u8; 8], Failed>
        requires { i < 8192 }
        ensures raw { IfOk result (λ raw. Told (B.view board.old) (λ s. KeepsList s self.old →
            raw ≡ slice_range (list_area s) (8 * i) (8 * i + 8))) }
        ensures bytes { IfOk result (λ raw. (k : ℕ) →
            Rattle.std.specs.Prelude.slice_index raw k < 256) }
        ensures keeps { OnOk result (Told (B.view board.old) (λ s. KeepsList s self.old →
            KeepsList s self.new)) }
        ensures reads { Reads (B.view board.old) (B.view board.new) }
        ensures faults { FlashFaults result (B.view board.old) (B.view board.new) }
    {
        self.turn(board, i / 32)?;
        Ok(eight(&self.bytes, 8 * (i % 32) as usize))
    }
}

// The eight bytes of a page from `at` on.
fn eight(bytes: &[u8; 256], at: usize) -> [u8; 8]
    requires { at + 8 ≤ 256 }
    ensures bytes { result ≡ slice_range bytes.now at (at + 8) }
    ensures small { (k : ℕ) → Rattle.std.specs.Prelude.slice_index result k < 256 }
{
    let raw = &bytes[at..at + 8];
    [
        raw[0], raw[1], raw[2], raw[3], raw[4], raw[5], raw[6], raw[7],
    ]
}

// The relocation type of a number; bytes that are no list may have any.
fn kind_of(n: u8) -> RelocType
    ensures { result ≡ unwrap_or (kind_of n) RelocType.Abs32 }
{
    RelocType::of_number(n).unwrap_or(RelocType::Abs32)
}

// What eight bytes say.
fn entry(raw: &[u8; 8]) -> Fixup
    ensures { result ≡ entry_of raw.now }
{
    Fixup {
        place: u32::from_le_bytes([raw[0], raw[1], raw[2], 0]),
        kind: kind_of(raw[3]),
        s_plus_a: i32::from_le_bytes([raw[4], raw[5], raw[6], raw[7]]) as i64,
    }
}

/// Entry `i` of the relocation list, by a reader that keeps the page that it read last; `None` from the number of entries on. Of bytes that are no
/// list it is some field or `None`. `Failed` comes only where flash faults rose.
pub fn read_entry<B: Board>(
    board: &mut B,
    list: &mut ListReader,
    i: u16,
) -> Result<Option<Fixup>, Failed>
    requires { i < 8192 }
    ensures entry { IfOk result (λ o. Told (B.view board.old) (λ s. KeepsList s list.old →
        (xs : List Fixup) → Lists (list_area s) xs → o ≡ slice_get xs i)) }
    ensures room { IfOk result (λ o. IfSome o IsEntry) }
    ensures keeps { OnOk result (Told (B.view board.old) (λ s. KeepsList s list.old →
        KeepsList s list.new)) }
    ensures reads { Reads (B.view board.old) (B.view board.new) }
    ensures faults { FlashFaults result (B.view board.old) (B.view board.new) }
{
    let raw = list.raw(board, i)?;
    if raw[3] == 0xFF {
        return Ok(None);
    }
    Ok(Some(entry(&raw)))
}

/// Entry `i` of the relocation list; `None` from the number of entries on. Of bytes that are no list it is some field or `None`. `Failed` comes
/// only where flash faults rose.
pub fn entry_at<B: Board>(board: &mut B, i: u16) -> Result<Option<Fixup>, Failed>
    requires { i < 8192 }
    ensures entry { IfOk result (λ o. Told (B.view board.old) (λ s. (xs : List Fixup) →
        Lists (list_area s) xs → o ≡ slice_get xs i)) }
    ensures reads { Reads (B.view board.old) (B.view board.new) }
    ensures faults { FlashFaults result (B.view board.old) (B.view board.new) }
{
    let mut list = ListReader::new();
    let entry = read_entry(board, &mut list, i)?;
    Ok(entry)
}

// Whether entry `i` is there and its field ends at or below `base`.
fn has_ended<B: Board>(
    board: &mut B,
    list: &mut ListReader,
    i: u16,
    base: u32,
) -> Result<bool, Failed>
    requires { i < 8192 }
    ensures ended { IfOk result (λ b. Told (B.view board.old) (λ s. KeepsList s list.old →
        (xs : List Fixup) → Lists (list_area s) xs → b ≡ has_ended base (slice_get xs i))) }
    ensures keeps { OnOk result (Told (B.view board.old) (λ s. KeepsList s list.old →
        KeepsList s list.new)) }
    ensures reads { Reads (B.view board.old) (B.view board.new) }
    ensures faults { FlashFaults result (B.view board.old) (B.view board.new) }
{
    let Ok(entry) = read_entry(board, list, i) else {
        return Err(Failed);
    };
    match entry {
        None => Ok(false),
        Some(x) => Ok(x.place + x.kind.width() as u32 <= base),
    }
}

/// The first entry of the relocation list whose field ends above the first byte of this page of the image, or the number of entries where none does. Of
/// bytes that are no list it is some number up to 8,192. `Failed` comes only where flash faults rose.
pub fn first_at<B: Board>(board: &mut B, page: u16) -> Result<u16, Failed>
    ensures first { IfOk result (λ i. Told (B.view board.old) (λ s. (xs : List Fixup) →
        Lists (list_area s) xs → i ≡ first_above (256 * page) xs)) }
    ensures small { IfOk result (λ i. i ≤ 8192) }
    ensures reads { Reads (B.view board.old) (B.view board.new) }
    ensures faults { FlashFaults result (B.view board.old) (B.view board.new) }
{
    let mut list = ListReader::new();
    let base = 256 * page as u32;
    let mut low = 0u16;
    let mut high = 8192u16;
    while low < high {
        let middle = (low + high) / 2;
        let Ok(ended) = has_ended(board, &mut list, middle, base) else {
            return Err(Failed);
        };
        if ended {
            low = middle + 1;
        } else {
            high = middle;
        }
    }
    Ok(low)
}
