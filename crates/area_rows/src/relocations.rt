//! Lists of worked sets, with symbols of their own and with others; stops and failing calls.

ghost use Rattle.component_store.specs.Sets.{IsSet};

use crate::boards::{
    empty_board, failing, most, opened, planned, put_area, put_page, ready, record_in, spoilt,
    stopping, stored,
};
use crate::parts::{EMPTY, Part};
use avr_reloc::{Fixup, RangeFault, RelocType};
use component_package::areas::{RELOCATION_PAGES, RELOCATIONS, SYMBOL_PAGES, SYMBOLS};
use component_store::StoredSet;
use flash_pages::{Board, Failed, MemoryBoard};
use reloc_table::{BuildFault, build, check_relocs, count_relocs, entry_at, first_at};
use std::alloc::Global;
use std::test::Fail;

// What counting, checking and building answer one after another: the first fault.
fn built<B: Board>(board: &mut B, set: &StoredSet) -> Result<Result<(), BuildFault>, Fail>
    requires { IsSet set.now }
{
    let plan = planned(set)?;
    match count_relocs(set) {
        Ok(_) => {}
        Err(fault) => return Ok(Err(fault)),
    }
    match check_relocs(board, set, &plan) {
        Ok(()) => {}
        Err(fault) => return Ok(Err(fault)),
    }
    match build(board, set, &plan) {
        Ok(()) => Ok(Ok(())),
        Err(Failed) => Ok(Err(BuildFault::Fault)),
    }
}

// The same of the set of a manifest.
fn answer<B: Board>(board: &mut B, manifest: &[u8]) -> Result<Result<(), BuildFault>, Fail> {
    match opened(board, manifest) {
        Ok(set) => built(board, &set),
        Err(fail) => Err(fail),
    }
}

// Whether the list's area holds these records and 0xFF behind them.
fn has_list(board: &MemoryBoard, records: &[[u8; 8]]) -> bool {
    for i in 0..8192u16 {
        let want = match records.get(i as usize) {
            Some(record) => *record,
            None => [0xFF; 8],
        };
        if record_in(board.ext_page(RELOCATIONS + i / 32), i) != want {
            return false;
        }
    }
    true
}

const PLAIN: Part<'static> = Part { zeros: 10, ..EMPTY };

// A call of symbol 16.
const CALLER: Part<'static> = Part {
    relocs: &[[2, 0, 0, 18, 16, 0, 4, 0]],
    ..PLAIN
};

const CALLEE: Part<'static> = Part {
    exports: &[[16, 0, 0, 0, 6, 0]],
    ..PLAIN
};

const WEAK_CALLER: Part<'static> = Part {
    relocs: &[[2, 0, 0x80, 18, 16, 0, 4, 0]],
    ..PLAIN
};

// Two fields of code and two of data each: the two bytes of its data's address, and the data's end at a byte of data.
const BOTH: Part<'static> = Part {
    init: &[0; 6],
    relocs: &[
        [1, 0, 0, 27, 1, 0, 0, 0],
        [2, 0, 0, 28, 1, 0, 0, 0],
        [3, 0, 1, 27, 4, 0, 255, 255],
        [4, 0, 1, 29, 4, 0, 0, 0],
    ],
    ..PLAIN
};

// A call of an odd address, and behind it one of nothing; and the other way round.
const ODD_FIRST: Part<'static> = Part {
    relocs: &[[0, 0, 0, 18, 10, 0, 3, 0], [4, 0, 0, 18, 16, 0, 0, 0]],
    ..PLAIN
};

const MISSING_FIRST: Part<'static> = Part {
    relocs: &[[0, 0, 0, 18, 16, 0, 0, 0], [4, 0, 0, 18, 10, 0, 3, 0]],
    ..PLAIN
};

// A byte of data that is to hold 300.
const FAR_IN_DATA: Part<'static> = Part {
    init: &[0; 2],
    relocs: &[[1, 0, 1, 26, 10, 0, 44, 1]],
    ..PLAIN
};

// What is expected of a set: what counting, checking and building answer, and the list that they leave.
#[derive(Clone, Copy)]
struct Row<'a> {
    parts: &'a [Part<'a>],
    answer: Result<(), BuildFault>,
    list: &'a [[u8; 8]],
}

const ROWS: [Row<'static>; 9] = [
    Row {
        parts: &[PLAIN],
        answer: Ok(()),
        list: &[],
    },
    Row {
        parts: &[CALLER, CALLEE],
        answer: Ok(()),
        list: &[[2, 0, 0, 18, 20, 0, 0, 0]],
    },
    Row {
        parts: &[CALLEE, CALLER],
        answer: Ok(()),
        list: &[[12, 0, 0, 18, 10, 0, 0, 0]],
    },
    Row {
        parts: &[PLAIN, WEAK_CALLER],
        answer: Ok(()),
        list: &[[12, 0, 0, 18, 4, 0, 0, 0]],
    },
    Row {
        parts: &[BOTH, CALLEE, BOTH],
        answer: Ok(()),
        list: &[
            [1, 0, 0, 27, 0, 1, 0x80, 0],
            [2, 0, 0, 28, 0, 1, 0x80, 0],
            [21, 0, 0, 27, 6, 1, 0x80, 0],
            [22, 0, 0, 28, 6, 1, 0x80, 0],
            [33, 0, 0, 27, 11, 1, 0x80, 0],
            [34, 0, 0, 29, 12, 1, 0x80, 0],
            [39, 0, 0, 27, 11, 1, 0x80, 0],
            [40, 0, 0, 29, 12, 1, 0x80, 0],
        ],
    },
    Row {
        parts: &[PLAIN, ODD_FIRST],
        answer: Err(BuildFault::Range(1, 0, RangeFault::Odd)),
        list: &[],
    },
    Row {
        parts: &[PLAIN, MISSING_FIRST],
        answer: Err(BuildFault::Undefined(1, 0, 16)),
        list: &[],
    },
    Row {
        parts: &[FAR_IN_DATA, MISSING_FIRST],
        answer: Err(BuildFault::Range(0, 0, RangeFault::TooFar(300))),
        list: &[],
    },
    Row {
        parts: &[CALLER, FAR_IN_DATA],
        answer: Err(BuildFault::Undefined(0, 0, 16)),
        list: &[],
    },
];

// Whether the board answers so, and then holds this list. Where it does, the same once more programs nothing.
fn is_listed(board: &mut MemoryBoard, manifest: &[u8], row: &Row<'_>) -> Result<bool, Fail> {
    if answer(board, manifest)? != row.answer {
        return Ok(false);
    }
    if row.answer.is_err() {
        return Ok(true);
    }
    let programs = board.program_count();
    let again = answer(board, manifest)?;
    Ok(again.is_ok() && board.program_count() == programs && has_list(board, row.list))
}

// The same of a board with the row's parts.
fn is_right(alloc: Global, row: &Row<'_>) -> Result<bool, Fail> {
    let (mut board, manifest) = ready(alloc, row.parts)?;
    is_listed(&mut board, manifest.as_slice(), row)
}

// The first row that isn't so.
fn first_wrong(alloc: Global, rows: &[Row<'_>]) -> Result<Option<usize>, Fail> {
    for (i, row) in rows.iter().enumerate() {
        if !is_right(alloc, row)? {
            return Ok(Some(i));
        }
    }
    Ok(None)
}

#[test]
fn worked_lists(rt: HostRuntime) -> Result<(), Fail> {
    assert_eq!(rt; first_wrong(rt.alloc(), &ROWS)?, None);
    Ok(())
}

// Symbols that are not the set's, what the caller and the callee give with them, and the list.
type Foreign = (&'static [u8], Result<(), BuildFault>, &'static [[u8; 8]]);

const FOREIGN: [Foreign; 4] = [
    (&[], Err(BuildFault::Undefined(0, 0, 16)), &[]),
    (
        &[16, 0, 1, 0, 8, 0, 0, 0],
        Ok(()),
        &[[2, 0, 0, 18, 12, 0, 0, 0]],
    ),
    (
        &[16, 0, 1, 3, 7, 0, 0, 0],
        Err(BuildFault::Range(0, 0, RangeFault::Odd)),
        &[],
    ),
    (
        &[16, 0, 1, 3, 6, 0, 1, 0, 17, 0, 1, 3, 0, 0, 0, 0],
        Ok(()),
        &[[2, 0, 0, 18, 10, 0, 1, 0]],
    ),
];

// Whether the board has this list with these symbols in their area.
fn is_foreign(board: &mut MemoryBoard, manifest: &[u8], row: &Foreign) -> Result<bool, Fail> {
    let (symbols, want, list) = *row;
    put_area(board, SYMBOLS, SYMBOL_PAGES, symbols);
    let found = answer(board, manifest)?;
    Ok(found == want && (want.is_err() || has_list(board, list)))
}

// The first of these that isn't so.
fn first_foreign_wrong(
    board: &mut MemoryBoard,
    manifest: &[u8],
    rows: &[Foreign],
) -> Result<Option<usize>, Fail> {
    for (i, row) in rows.iter().enumerate() {
        if !is_foreign(board, manifest, row)? {
            return Ok(Some(i));
        }
    }
    Ok(None)
}

#[test]
fn symbols_that_are_not_the_sets(rt: HostRuntime) -> Result<(), Fail> {
    let (mut board, manifest) = stored(rt.alloc(), &[CALLER, CALLEE])?;
    let wrong = first_foreign_wrong(&mut board, manifest.as_slice(), &FOREIGN)?;
    assert_eq!(rt; wrong, None);
    Ok(())
}

// Fields of one byte and of four, up to both sides of a page's end and over it.
const FIELDS: [u8; 24] = [
    3, 0, 0, 18, 12, 0, 0, 0, 255, 0, 0, 26, 1, 0, 0, 0, 255, 1, 0, 18, 255, 255, 255, 255,
];

const LAST_FIELD: Fixup = Fixup {
    place: 511,
    kind: RelocType::Call,
    s_plus_a: -1,
};

// The first of these pages whose first entry isn't the one with this number.
fn wrong_page<B: Board>(board: &mut B, rows: &[(u16, u16)]) -> Option<u16> {
    for (page, first) in rows {
        if first_at(board, *page) != Ok(*first) {
            return Some(*page);
        }
    }
    None
}

// The first of these numbers with which there is an entry.
fn extra_entry<B: Board>(board: &mut B, numbers: &[u16]) -> Option<u16> {
    for i in numbers {
        if 8192 <= *i || entry_at(board, *i) != Ok(None) {
            return Some(*i);
        }
    }
    None
}

#[test]
fn a_list_is_read_as_it_stands(rt: HostRuntime) -> Result<(), Fail> {
    let mut board = empty_board(rt.alloc())?;
    put_area(&mut board, RELOCATIONS, RELOCATION_PAGES, &FIELDS);
    let firsts = [(0, 0), (1, 2), (2, 2), (3, 3), (479, 3)];
    assert_eq!(rt; wrong_page(&mut board, &firsts), None);
    assert_eq!(rt; entry_at(&mut board, 2), Ok(Some(LAST_FIELD)));
    assert_eq!(rt; extra_entry(&mut board, &[3, 32, 8191]), None);
    Ok(())
}

// The record at this place of a list of such fields as the relocations of single bytes make.
fn byte_record(place: u16) -> [u8; 8] {
    let [low, high] = place.to_le_bytes();
    let kind = 26 + (place % 4) as u8;
    if kind == 26 {
        [low, high, 0, kind, 7, 0, 0, 0]
    } else {
        [low, high, 0, kind, 0xFF, 0x10, 0x80, 0]
    }
}

// Whether the list's area holds these records all over.
fn has_bytes(board: &MemoryBoard) -> bool {
    for i in 0..8192u16 {
        if record_in(board.ext_page(RELOCATIONS + i / 32), i) != byte_record(i) {
            return false;
        }
    }
    true
}

// Whether the list is built of relocations of single bytes alone.
fn lists_bytes(board: &mut MemoryBoard, manifest: &[u8]) -> Result<bool, Fail> {
    let found = answer(board, manifest)?;
    Ok(found == Ok(()) && has_bytes(board))
}

#[test]
fn the_most_relocations(rt: HostRuntime) -> Result<(), Fail> {
    let (mut board, manifest) = most(rt.alloc(), 8)?;
    assert!(rt; lists_bytes(&mut board, manifest.as_slice())?);
    let firsts = [(0, 0), (1, 256), (31, 7936), (32, 8192), (479, 8192)];
    assert_eq!(rt; wrong_page(&mut board, &firsts), None);
    Ok(())
}

#[test]
fn one_relocation_too_many(rt: HostRuntime) -> Result<(), Fail> {
    let (mut board, manifest) = most(rt.alloc(), 9)?;
    let found = answer(&mut board, manifest.as_slice())?;
    assert_eq!(rt; found, Err(BuildFault::Relocations(8193)));
    Ok(())
}

const CALLERS_LIST: [[u8; 8]; 1] = [[2, 0, 0, 18, 20, 0, 0, 0]];

// Whether building ends where power is cut in this program, and then builds the list.
fn is_mended(
    alloc: Global,
    board: &mut MemoryBoard,
    manifest: &[u8],
    stop_at: u32,
    fill: u8,
) -> Result<bool, Fail> {
    stopping(alloc, board, stop_at, spoilt(fill))?;
    if answer(board, manifest)? != Err(BuildFault::Fault) {
        return Ok(false);
    }
    failing(alloc, board, 0)?;
    let again = answer(board, manifest)?;
    Ok(again == Ok(()) && has_list(board, &CALLERS_LIST))
}

// The same of a board with no list.
fn is_built_again(alloc: Global, stop_at: u32, fill: u8) -> Result<bool, Fail> {
    let (mut board, manifest) = ready(alloc, &[CALLER, CALLEE])?;
    is_mended(alloc, &mut board, manifest.as_slice(), stop_at, fill)
}

// The first of these programs for which that isn't so.
fn wrong_stop(alloc: Global, fill: u8, stops: &[u32]) -> Result<Option<u32>, Fail> {
    for stop_at in stops {
        if !is_built_again(alloc, *stop_at, fill)? {
            return Ok(Some(*stop_at));
        }
    }
    Ok(None)
}

// Power is cut in some programs of a list, each with three fills, and the list is built again.
#[test]
fn a_list_that_was_stopped_is_built_again(rt: HostRuntime) -> Result<(), Fail> {
    for fill in 0..3u8 {
        let wrong = wrong_stop(rt.alloc(), fill, &[1, 2, 3, 128, 255, 256])?;
        assert_eq!(rt; wrong, None, "{fill}");
    }
    Ok(())
}

// Programs zeros and 0xFF behind them into each page of the list's area, none of which a list leaves so.
fn spoil_list<B: Board>(board: &mut B) {
    for page in 0..RELOCATION_PAGES {
        put_page(board, RELOCATIONS + page, &[0; 8]);
    }
}

// Whether building fails where this call of the board does, as it should, and then succeeds, where the list is to be written anew. Opening
// the set is no part of that.
fn is_built_behind(
    alloc: Global,
    board: &mut MemoryBoard,
    set: &StoredSet,
    fail: u32,
    should_fail: bool,
) -> Result<bool, Fail>
    requires { IsSet set.now }
{
    failing(alloc, board, 0)?;
    spoil_list(board);
    failing(alloc, board, fail)?;
    let fails = built(board, set)? == Err(BuildFault::Fault);
    let again = built(board, set)?;
    Ok(fails == should_fail && again == Ok(()))
}

// The first of these calls for which that isn't so. Checking reads the relocation and six pages of symbols; building reads them again, and
// then reads and programs each page. There are 526 calls.
fn wrong_fault(
    alloc: Global,
    board: &mut MemoryBoard,
    set: &StoredSet,
    calls: &[u32],
) -> Result<Option<u32>, Fail>
    requires { IsSet set.now }
{
    for fail in calls {
        if !is_built_behind(alloc, board, set, *fail, *fail <= 526)? {
            return Ok(Some(*fail));
        }
    }
    Ok(None)
}

// Whether a look at a page's first entry and one at an entry fail where their last call of the board does.
fn looks_fail(alloc: Global, board: &mut MemoryBoard) -> Result<bool, Fail> {
    failing(alloc, board, 9)?;
    let first = first_at(board, 0);
    failing(alloc, board, 1)?;
    let entry = entry_at(board, 0);
    Ok(first == Err(Failed) && entry == Err(Failed))
}

const CALLS: [u32; 13] = [1, 2, 7, 8, 9, 14, 15, 16, 17, 300, 525, 526, 2000];

// Each kind of call of the board fails once, and what was asked answers so.
#[test]
fn failing_calls(rt: HostRuntime) -> Result<(), Fail> {
    let (mut board, manifest) = ready(rt.alloc(), &[CALLER, CALLEE])?;
    let set = opened(&mut board, manifest.as_slice())?;
    assert_eq!(rt; wrong_fault(rt.alloc(), &mut board, &set, &CALLS)?, None);
    assert!(rt; looks_fail(rt.alloc(), &mut board)?);
    assert_eq!(rt; count_relocs(&set), Ok(1));
    Ok(())
}
