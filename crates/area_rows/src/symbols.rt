//! Tables of worked sets, stops and failing calls of a merge, and how often pages of exports are read.

ghost use Rattle.std.specs.Prelude.{IfOk};
ghost use Rattle.component_store.specs.Sets.{IsSet};

use crate::boards::{failing, merged, opened, page_of, record_in, stopping, store, stored};
use crate::counting::CountingBoard;
use crate::parts::{EMPTY, Part};
use component_package::areas::{SLOTS, SYMBOLS};
use component_store::StoredSet;
use flash_pages::{Board, Failed, MemoryBoard};
use std::alloc::{AllocError, Global};
use std::test::Fail;
use symbol_merge::{MergeFault, address_of, count_symbols};

// The parts of a record: symbol, exporter, kind and address.
type Record = (u16, u8, u8, u32);

fn bytes_of(record: Record) -> [u8; 8] {
    let (symbol, exporter, kind, address) = record;
    let [low, high] = symbol.to_le_bytes();
    let [first, second, third, fourth] = address.to_le_bytes();
    [low, high, exporter, kind, first, second, third, fourth]
}

// Whether the area holds these records and 0xFF behind them.
fn has_table(board: &MemoryBoard, records: &[Record]) -> bool {
    for i in 0..1024u16 {
        let want = match records.get(i as usize) {
            Some(record) => bytes_of(*record),
            None => [0xFF; 8],
        };
        if record_in(board.ext_page(SYMBOLS + i / 32), i) != want {
            return false;
        }
    }
    true
}

// Whether each record's address is found.
fn finds_all<B: Board>(board: &mut B, records: &[Record]) -> bool {
    for record in records {
        let (symbol, _, _, address) = *record;
        if address_of(board, symbol) != Ok(Some(address)) {
            return false;
        }
    }
    true
}

// Whether no address is found of these symbols.
fn finds_none<B: Board>(board: &mut B, symbols: &[u16]) -> bool {
    for symbol in symbols {
        if address_of(board, *symbol) != Ok(None) {
            return false;
        }
    }
    true
}

// Ten bytes of code, four of data, six of bss.
const PLAIN: Part<'static> = Part {
    zeros: 10,
    init: &[0; 4],
    bss: 6,
    ..EMPTY
};

const STRONG: Part<'static> = Part {
    exports: &[[20, 0, 0, 0, 2, 0]],
    ..PLAIN
};

const WEAK: Part<'static> = Part {
    exports: &[[20, 0, 0x80, 0, 4, 0]],
    ..PLAIN
};

const KINDS: Part<'static> = Part {
    exports: &[
        [16, 0, 0, 0, 10, 0],
        [17, 0, 1, 0, 4, 0],
        [18, 0, 2, 0, 6, 0],
        [255, 255, 3, 0, 255, 255],
    ],
    ..PLAIN
};

const THREE: Part<'static> = Part {
    exports: &[
        [19, 0, 0, 0, 0, 0],
        [20, 0, 0, 0, 0, 0],
        [21, 0, 0, 0, 0, 0],
    ],
    ..PLAIN
};

// A set, what merging its symbols answers, and the table that it leaves.
#[derive(Clone, Copy)]
struct Row<'a> {
    parts: &'a [Part<'a>],
    answer: Result<u16, MergeFault>,
    records: &'a [Record],
}

const ROWS: [Row<'static>; 9] = [
    Row {
        parts: &[PLAIN],
        answer: Ok(0),
        records: &[],
    },
    Row {
        parts: &[PLAIN, STRONG],
        answer: Ok(1),
        records: &[(20, 1, 0, 12)],
    },
    Row {
        parts: &[WEAK, PLAIN, STRONG],
        answer: Ok(1),
        records: &[(20, 2, 0, 22)],
    },
    Row {
        parts: &[STRONG, WEAK],
        answer: Ok(1),
        records: &[(20, 0, 0, 2)],
    },
    Row {
        parts: &[PLAIN, WEAK, WEAK],
        answer: Ok(1),
        records: &[(20, 1, 0, 14)],
    },
    Row {
        parts: &[STRONG, PLAIN, STRONG],
        answer: Err(MergeFault::Duplicate(20, 0, 2)),
        records: &[],
    },
    Row {
        parts: &[WEAK, THREE, STRONG, THREE],
        answer: Err(MergeFault::Duplicate(19, 1, 3)),
        records: &[],
    },
    Row {
        parts: &[PLAIN, KINDS],
        answer: Ok(4),
        records: &[
            (16, 1, 0, 20),
            (17, 1, 1, 0x800108),
            (18, 1, 2, 0x800114),
            (65535, 1, 3, 65535),
        ],
    },
    Row {
        parts: &[THREE, WEAK],
        answer: Ok(3),
        records: &[(19, 0, 0, 0), (20, 0, 0, 0), (21, 0, 0, 0)],
    },
];

// Whether the symbols of these records and no others are found in the table, which holds nothing else.
fn has_symbols(board: &mut MemoryBoard, records: &[Record]) -> bool {
    has_table(board, records)
        && finds_all(board, records)
        && finds_none(board, &[0, 15, 22, 1000, 65534])
}

// Whether the set of a manifest is merged as its row says.
fn is_merged(board: &mut MemoryBoard, manifest: &[u8], row: &Row<'_>) -> Result<bool, Fail> {
    let set = opened(board, manifest)?;
    let found = merged(board, &set)?;
    Ok(found == row.answer && (found.is_err() || has_symbols(board, row.records)))
}

// The same of a board with the row's parts.
fn is_right(alloc: Global, row: &Row<'_>) -> Result<bool, Fail> {
    let (mut board, manifest) = stored(alloc, row.parts)?;
    is_merged(&mut board, manifest.as_slice(), row)
}

// The first row that isn't so.
fn first_wrong(alloc: Global, rows: &[Row<'_>]) -> Result<Option<usize>, Fail> {
    for (i, row) in rows.iter().enumerate() {
        if !is_right(alloc, row)? {
            return Ok(Some(i));
        }
    }
    Ok(None)
}

#[test]
fn worked_tables(rt: HostRuntime) -> Result<(), Fail> {
    assert_eq!(rt; first_wrong(rt.alloc(), &ROWS)?, None);
    Ok(())
}

// What component `k` exports where so many components export the symbols from 16 on in turn, as many as this together.
fn exports_of(
    alloc: Global,
    components: u8,
    symbols: u16,
    k: u8,
) -> Result<Vec<[u8; 6]>, AllocError> {
    let mut exports = Vec::new(alloc);
    for i in 0..symbols {
        if i.checked_rem(components as u16) == Some(k as u16) {
            let [low, high] = i.wrapping_add(16).to_le_bytes();
            let [first, second] = i.to_le_bytes();
            exports.push([low, high, 3, 0, first, second])?;
        }
    }
    Ok(exports)
}

// A component with these exports.
fn exporter<'a>(exports: &'a [[u8; 6]]) -> Part<'a> {
    Part {
        code: &[],
        zeros: 10,
        init: &[0; 4],
        bss: 6,
        exports,
        relocs: &[],
    }
}

// Puts component `k` + 1 into slot `k`, and its entry behind a manifest's bytes.
fn deal(
    alloc: Global,
    board: &mut CountingBoard,
    manifest: &mut Vec<u8>,
    components: u8,
    symbols: u16,
    k: u8,
) -> Result<(), AllocError> {
    let exports = exports_of(alloc, components, symbols, k)?;
    store(alloc, board, manifest, k, &exporter(exports.as_slice()))
}

// Puts all of these components into slots, and gives their manifest in bytes.
fn deal_all(
    alloc: Global,
    board: &mut CountingBoard,
    components: u8,
    symbols: u16,
) -> Result<Vec<u8>, AllocError> {
    let mut manifest = vec![in alloc; 1, 0, 0, 0, components]?;
    for k in 0..components {
        deal(alloc, board, &mut manifest, components, symbols, k)?;
    }
    Ok(manifest)
}

// A board with all of these components, and their set.
fn dealt(
    alloc: Global,
    board: &mut CountingBoard,
    components: u8,
    symbols: u16,
) -> Result<StoredSet, Fail>
    ensures { IfOk result IsSet }
{
    let manifest = deal_all(alloc, board, components, symbols)?;
    opened(board, manifest.as_slice())
}

// The most reads of a page of slots.
fn most_reads(board: &CountingBoard) -> u8 {
    let mut most = 0;
    for page in SLOTS as usize..2034 {
        most = board.reads_of(page).max(most);
    }
    most
}

// Whether the table has symbol 16 + i with the value i for each of the most symbols.
fn finds_most<B: Board>(board: &mut B) -> bool {
    for i in 0..1024u16 {
        if address_of(board, i + 16) != Ok(Some(i as u32)) {
            return false;
        }
    }
    true
}

// What a count answers, and the most reads of a page of slots in it.
fn counted(board: &mut CountingBoard, set: &StoredSet) -> (Result<u16, MergeFault>, u8)
    requires { IsSet set.now }
{
    board.forget();
    let count = count_symbols(board, set);
    (count, most_reads(board))
}

// The same of a merge.
fn merged_counting(
    board: &mut CountingBoard,
    set: &StoredSet,
) -> Result<(Result<u16, MergeFault>, u8), Fail>
    requires { IsSet set.now }
{
    board.forget();
    let count = merged(board, set)?;
    Ok((count, most_reads(board)))
}

// Whether so many components that export the most symbols are counted and merged with so many reads, and then each symbol is found.
fn is_read_so_often(
    alloc: Global,
    board: &mut CountingBoard,
    components: u8,
    reads: u8,
) -> Result<bool, Fail> {
    let set = dealt(alloc, board, components, 1024)?;
    let count = counted(board, &set);
    let merge = merged_counting(board, &set)?;
    Ok(count == (Ok(1024), reads) && merge == (Ok(1024), reads) && finds_most(board))
}

// Each page of exports is read so often by a count, and so often by a merge; and the greatest table is found record by record.
#[test]
fn pages_of_exports_are_read_seven_times_at_most(rt: HostRuntime) -> Result<(), Fail> {
    for (components, reads) in [(16, 5), (1, 7)] {
        let mut board = CountingBoard::new(rt.alloc())?;
        let is_right = is_read_so_often(rt.alloc(), &mut board, components, reads)?;
        assert!(rt; is_right, "{components}");
    }
    Ok(())
}

#[test]
fn too_many_symbols(rt: HostRuntime) -> Result<(), Fail> {
    let mut board = CountingBoard::new(rt.alloc())?;
    let set = dealt(rt.alloc(), &mut board, 16, 1025)?;
    let found = count_symbols(&mut board, &set);
    assert_eq!(rt; found, Err(MergeFault::Symbols(1025)));
    Ok(())
}

// Two components with seven symbols together.
const SEVEN: [Part<'static>; 2] = [THREE, KINDS];

// Whether their symbols are merged, and once more with no program.
fn is_merged_once(board: &mut MemoryBoard, set: &StoredSet) -> Result<bool, Fail>
    requires { IsSet set.now }
{
    let found = merged(board, set)?;
    let programs = board.program_count();
    let again = merged(board, set)?;
    Ok(found == Ok(7) && again == Ok(7) && board.program_count() == programs)
}

// Whether a merge ends where power is cut in this program, and is then done, and once more with no program.
fn is_mended(
    alloc: Global,
    board: &mut MemoryBoard,
    manifest: &[u8],
    stop_at: u32,
    spoil: u8,
) -> Result<bool, Fail> {
    let set = opened(board, manifest)?;
    stopping(alloc, board, stop_at, page_of(spoil))?;
    if merged(board, &set)? != Err(MergeFault::Fault) {
        return Ok(false);
    }
    failing(alloc, board, 0)?;
    is_merged_once(board, &set)
}

// The same of a board with no table.
fn is_merged_again(alloc: Global, stop_at: u32, spoil: u8) -> Result<bool, Fail> {
    let (mut board, manifest) = stored(alloc, &SEVEN)?;
    is_mended(alloc, &mut board, manifest.as_slice(), stop_at, spoil)
}

// The first of the 32 programs for which that isn't so.
fn wrong_stop(alloc: Global, spoil: u8) -> Result<Option<u32>, Fail> {
    for stop_at in 1..33u32 {
        if !is_merged_again(alloc, stop_at, spoil)? {
            return Ok(Some(stop_at));
        }
    }
    Ok(None)
}

// A stop in each of the 32 programs, with three fills, and then the whole merge again.
#[test]
fn a_merge_that_was_stopped_is_done_again(rt: HostRuntime) -> Result<(), Fail> {
    for spoil in [0, 0x5A, 0xFF] {
        assert_eq!(rt; wrong_stop(rt.alloc(), spoil)?, None, "{spoil}");
    }
    Ok(())
}

// What merging the symbols of the set of a manifest answers where this call of the board fails.
fn failed_merge(
    alloc: Global,
    board: &mut MemoryBoard,
    manifest: &[u8],
    fail: u32,
) -> Result<Result<u16, MergeFault>, Fail> {
    let set = opened(board, manifest)?;
    failing(alloc, board, fail)?;
    merged(board, &set)
}

// The same of a board with no table.
fn merge_with_fault(alloc: Global, fail: u32) -> Result<Result<u16, MergeFault>, Fail> {
    let (mut board, manifest) = stored(alloc, &SEVEN)?;
    failed_merge(alloc, &mut board, manifest.as_slice(), fail)
}

// What it is to answer. The windows of both components are read, then each page is made, compared and programmed.
fn wanted(fail: u32) -> Result<u16, MergeFault> {
    if fail <= 66 {
        Err(MergeFault::Fault)
    } else {
        Ok(7)
    }
}

// The first call of the board with which it answers otherwise.
fn wrong_fault(alloc: Global) -> Result<Option<u32>, Fail> {
    for fail in 1..70u32 {
        if merge_with_fault(alloc, fail)? != wanted(fail) {
            return Ok(Some(fail));
        }
    }
    Ok(None)
}

// What a count answers where the second call of the board fails, and then once more.
fn failed_counts(
    alloc: Global,
    board: &mut MemoryBoard,
    manifest: &[u8],
) -> Result<[Result<u16, MergeFault>; 2], Fail> {
    let set = opened(board, manifest)?;
    failing(alloc, board, 2)?;
    let first = count_symbols(board, &set);
    let second = count_symbols(board, &set);
    Ok([first, second])
}

// What a look-up answers where the third call of the board fails.
fn failed_look(
    alloc: Global,
    board: &mut MemoryBoard,
) -> Result<Result<Option<u32>, Failed>, Fail> {
    failing(alloc, board, 3)?;
    Ok(address_of(board, 20))
}

// Each call of the board fails once: both calls answer so.
#[test]
fn failing_calls(rt: HostRuntime) -> Result<(), Fail> {
    assert_eq!(rt; wrong_fault(rt.alloc())?, None);
    let (mut board, manifest) = stored(rt.alloc(), &SEVEN)?;
    let counts = failed_counts(rt.alloc(), &mut board, manifest.as_slice())?;
    assert_eq!(rt; counts, [Err(MergeFault::Fault), Ok(7)]);
    assert_eq!(rt; failed_look(rt.alloc(), &mut board)?, Err(Failed));
    Ok(())
}
