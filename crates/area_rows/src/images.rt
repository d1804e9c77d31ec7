//! Staged images of worked sets, with areas of their own and with others; stops and failing calls.

ghost use Rattle.std.specs.Prelude.{IfOk};
ghost use Rattle.component_store.specs.Sets.{IsSet};

use crate::boards::{
    begins, failing, most, opened, planned, put_area, ready, spoilt, stopping, stored,
};
use crate::parts::{CALLEE, CALLER, EMPTY, Part};
use component_package::areas::{
    IMAGE_PAGES, RELOCATION_PAGES, RELOCATIONS, STAGED, SYMBOL_PAGES, SYMBOLS,
};
use component_store::StoredSet;
use flash_pages::{Board, MemoryBoard};
use image_stage::{page_of, stage};
use reloc_table::{BuildFault, build, check_relocs, count_relocs};
use std::alloc::Global;
use std::test::Fail;

// What checking answers.
fn checked<B: Board>(board: &mut B, set: &StoredSet) -> Result<Result<(), BuildFault>, Fail>
    requires { IsSet set.now }
{
    let plan = planned(set)?;
    Ok(check_relocs(board, set, &plan))
}

// Whether the list could be built.
fn is_built<B: Board>(board: &mut B, set: &StoredSet) -> Result<bool, Fail>
    requires { IsSet set.now }
{
    let plan = planned(set)?;
    match count_relocs(set) {
        Ok(_) => Ok(build(board, set, &plan).is_ok()),
        Err(_) => Ok(false),
    }
}

// Whether the image could be staged.
fn is_staged<B: Board>(board: &mut B, set: &StoredSet) -> Result<bool, Fail>
    requires { IsSet set.now }
{
    let plan = planned(set)?;
    Ok(stage(board, set, &plan).is_ok())
}

// A page of the image, if it could be made.
fn made_page<B: Board>(board: &mut B, set: &StoredSet, page: u16) -> Result<Option<[u8; 256]>, Fail>
    requires { IsSet set.now }
{
    if IMAGE_PAGES <= page {
        return Ok(None);
    }
    let plan = planned(set)?;
    let mut into = [0; 256];
    match page_of(board, set, &plan, page, &mut into) {
        Ok(()) => Ok(Some(into)),
        Err(_) => Ok(None),
    }
}

// Whether a page of the image is made with these first bytes and 0xFF behind them.
fn makes<B: Board>(board: &mut B, set: &StoredSet, page: u16, bytes: &[u8]) -> Result<bool, Fail>
    requires { IsSet set.now }
{
    match made_page(board, set, page)? {
        Some(made) => Ok(begins(&made, bytes)),
        None => Ok(false),
    }
}

// Programs the list's area with these bytes and 0xFF behind them.
fn put_list<B: Board>(board: &mut B, bytes: &[u8]) {
    put_area(board, RELOCATIONS, RELOCATION_PAGES, bytes);
}

// Programs zeros all over the staged pages, none of which an image of few bytes leaves so.
fn put_zeros<B: Board>(board: &mut B) {
    for page in 0..IMAGE_PAGES {
        let _programmed = board.ext_program(STAGED + page, &[0; 256]);
    }
}

// What checking answers with these symbols in their area.
fn checked_with<B: Board>(
    board: &mut B,
    set: &StoredSet,
    symbols: &[u8],
) -> Result<Result<(), BuildFault>, Fail>
    requires { IsSet set.now }
{
    put_area(board, SYMBOLS, SYMBOL_PAGES, symbols);
    checked(board, set)
}

// Whether the list is built with these bytes and 0xFF behind them.
fn builds(board: &mut MemoryBoard, set: &StoredSet, bytes: &[u8]) -> Result<bool, Fail>
    requires { IsSet set.now }
{
    let is_built = is_built(board, set)?;
    Ok(is_built && begins(board.ext_page(50), bytes) && begins(board.ext_page(305), &[]))
}

// Symbols that are not the set's, what checking answers with them, and the list.
type Foreign = (&'static [u8], Result<(), BuildFault>, &'static [u8]);

const FOREIGN: [Foreign; 2] = [
    (&[], Err(BuildFault::Undefined(0, 0, 16)), &[]),
    (
        &[16, 0, 1, 0, 8, 0, 0, 0],
        Ok(()),
        &[0, 0, 0, 18, 8, 0, 0, 0],
    ),
];

fn foreign() -> &'static [Foreign] {
    &FOREIGN
}

// Whether these symbols are checked and listed so.
fn is_foreign(board: &mut MemoryBoard, set: &StoredSet, row: &Foreign) -> Result<bool, Fail>
    requires { IsSet set.now }
{
    let (symbols, want, list) = *row;
    if checked_with(board, set, symbols)? != want {
        return Ok(false);
    }
    if want.is_err() {
        return Ok(true);
    }
    builds(board, set, list)
}

// The first of these that isn't so.
fn wrong_symbols(
    board: &mut MemoryBoard,
    set: &StoredSet,
    rows: &[Foreign],
) -> Result<Option<usize>, Fail>
    requires { IsSet set.now }
{
    for (i, row) in rows.iter().enumerate() {
        if !is_foreign(board, set, row)? {
            return Ok(Some(i));
        }
    }
    Ok(None)
}

// A list that is not the set's, and the image.
type Listed = (&'static [u8], [u8; 8]);

const LISTED: [Listed; 2] = [
    (
        &[0, 0, 0, 18, 10, 0, 0, 0],
        [0x0E, 0x94, 5, 0, 0xFF, 0xCF, 0x08, 0x95],
    ),
    // A list that fits nothing, and bytes that are no list: the calls end.
    (
        &[255, 255, 255, 18, 1, 0, 0, 0, 0, 0, 0, 200],
        [0x0E, 0x94, 0, 0, 0xFF, 0xCF, 0x08, 0x95],
    ),
];

fn lists() -> &'static [Listed] {
    &LISTED
}

// The first of these lists with which another image is made.
fn wrong_list<B: Board>(
    board: &mut B,
    set: &StoredSet,
    rows: &[Listed],
) -> Result<Option<usize>, Fail>
    requires { IsSet set.now }
{
    for (i, row) in rows.iter().enumerate() {
        put_list(board, row.0);
        if !makes(board, set, 0, &row.1)? {
            return Ok(Some(i));
        }
    }
    Ok(None)
}

#[test]
fn areas_that_are_not_the_sets(rt: HostRuntime) -> Result<(), Fail> {
    let (mut board, manifest) = stored(rt.alloc(), &[CALLER, CALLEE])?;
    let set = opened(&mut board, manifest.as_slice())?;
    assert_eq!(rt; wrong_symbols(&mut board, &set, foreign())?, None);
    assert_eq!(rt; wrong_list(&mut board, &set, lists())?, None);
    Ok(())
}

// Fields over the ends of pages, where the code begins at byte 6: a call, and numbers of 32 bits that are split at each of their places. Data behind all
// code, with such a number, a byte, and the three bytes of an address side by side.
const EDGES: Part<'static> = Part {
    zeros: 1024,
    init: &[0, 0, 0, 0, 0, 0, 0, 0],
    exports: &[[17, 0, 3, 0, 0x34, 0x12]],
    relocs: &[
        [0xF8, 0, 0, 18, 17, 0, 2, 0],
        [0xF7, 1, 0, 1, 9, 0, 0, 0],
        [0xF8, 2, 0, 1, 9, 0, 1, 0],
        [0xF9, 3, 0, 1, 9, 0, 2, 0],
        [0, 0, 1, 1, 5, 0, 0, 0],
        [4, 0, 1, 26, 10, 0, 7, 0],
        [5, 0, 1, 27, 9, 0, 0, 0],
        [6, 0, 1, 28, 9, 0, 0, 0],
        [7, 0, 1, 29, 9, 0, 0, 0],
    ],
    ..EMPTY
};

// Eight bytes of the staged image.
fn eight(board: &MemoryBoard, place: u16) -> [u8; 8] {
    let mut bytes = [0; 8];
    for j in 0..8u16 {
        let at = place.saturating_add(j);
        bytes[j as usize] = board.ext_page(STAGED + at / 256)[(at % 256) as usize];
    }
    bytes
}

// Whether the image can be staged, and once more with no program.
fn is_staged_once(board: &mut MemoryBoard, set: &StoredSet) -> Result<bool, Fail>
    requires { IsSet set.now }
{
    let works = is_staged(board, set)?;
    let written = board.program_count();
    let again = is_staged(board, set)?;
    Ok(works && again && board.program_count() == written)
}

// The power is back, nothing goes wrong, and the staged pages hold zeros.
fn cleared(alloc: Global, board: &mut MemoryBoard) -> Result<(), Fail> {
    failing(alloc, board, 0)?;
    put_zeros(board);
    Ok(())
}

// Whether staging ends where power is cut in this program, and then succeeds, and once more with no program.
fn is_mended(
    alloc: Global,
    board: &mut MemoryBoard,
    set: &StoredSet,
    stop_at: u32,
    fill: u8,
) -> Result<bool, Fail>
    requires { IsSet set.now }
{
    cleared(alloc, board)?;
    stopping(alloc, board, stop_at, spoilt(fill))?;
    if is_staged(board, set)? {
        return Ok(false);
    }
    failing(alloc, board, 0)?;
    is_staged_once(board, set)
}

// The first of these programs for which that isn't so.
fn wrong_stop(
    alloc: Global,
    board: &mut MemoryBoard,
    set: &StoredSet,
    fill: u8,
    stops: &[u32],
) -> Result<Option<u32>, Fail>
    requires { IsSet set.now }
{
    for stop_at in stops {
        if !is_mended(alloc, board, set, *stop_at, fill)? {
            return Ok(Some(*stop_at));
        }
    }
    Ok(None)
}

// The same with each fill, which stands before the program.
fn wrong_fill(
    alloc: Global,
    board: &mut MemoryBoard,
    set: &StoredSet,
    stops: &[u32],
) -> Result<Option<(u8, u32)>, Fail>
    requires { IsSet set.now }
{
    for fill in 0..3u8 {
        if let Some(stop_at) = wrong_stop(alloc, board, set, fill, stops)? {
            return Ok(Some((fill, stop_at)));
        }
    }
    Ok(None)
}

// A place of the staged image, the eight bytes before it, and the eight from it on.
type Around = (u16, [u8; 8], [u8; 8]);

const AROUND: [Around; 5] = [
    (254, [0; 8], [0, 0, 0x1B, 0x09, 0, 0, 0, 0]),
    (509, [0; 8], [0xFF, 0x10, 0x80, 0, 0, 0, 0, 0]),
    (766, [0; 8], [0, 0x11, 0x80, 0, 0, 0, 0, 0]),
    (
        1032,
        [0x11, 0x80, 0, 0, 0, 0, 0x08, 0x95],
        [8, 4, 0, 0, 7, 0xFF, 0x10, 0x80],
    ),
    (1048, [0xFF; 8], [0xFF; 8]),
];

// The first of these places where something else is staged.
fn wrong_place(board: &MemoryBoard, rows: &[Around]) -> Option<u16> {
    for row in rows {
        let (place, before, behind) = *row;
        if eight(board, place.saturating_sub(8)) != before || eight(board, place) != behind {
            return Some(place);
        }
    }
    None
}

// The first page that is made otherwise than it is staged.
fn wrong_page(board: &mut MemoryBoard, set: &StoredSet) -> Result<Option<u16>, Fail>
    requires { IsSet set.now }
{
    for page in 0..IMAGE_PAGES {
        let staged = *board.ext_page(STAGED + page);
        if made_page(board, set, page)? != Some(staged) {
            return Ok(Some(page));
        }
    }
    Ok(None)
}

// The set of a manifest, whose relocations are checked and whose list is built.
fn listed<B: Board>(board: &mut B, manifest: &[u8]) -> Result<StoredSet, Fail>
    ensures { IfOk result IsSet }
{
    let set = opened(board, manifest)?;
    if checked(board, &set)? != Ok(()) || !is_built(board, &set)? {
        return Err(Fail::new("no list"));
    }
    Ok(set)
}

#[test]
fn fields_over_the_end_of_a_page(rt: HostRuntime) -> Result<(), Fail> {
    let (mut board, manifest) = ready(rt.alloc(), &[CALLER, EDGES, CALLEE])?;
    let set = listed(&mut board, manifest.as_slice())?;
    // Stopped at some programs with three fills, and staged again from what each left.
    let wrong = wrong_fill(rt.alloc(), &mut board, &set, &[1, 2, 5, 240, 480])?;
    assert_eq!(rt; wrong, None);
    assert_eq!(rt; wrong_place(&board, &AROUND), None);
    assert_eq!(rt; wrong_page(&mut board, &set)?, None);
    Ok(())
}

// Code that is all 0xFF, over two pages' ends.
const BLANK: Part<'static> = Part {
    code: &[0xFF; 520],
    ..EMPTY
};

// What page `page` of such code holds with a call of 0x1234 at this place.
fn page_with_call(place: u16, page: u16) -> [u8; 256] {
    let mut bytes = [0xFF; 256];
    for i in 0..4u16 {
        let at = place.wrapping_add(i);
        if at / 256 == page {
            bytes[(at % 256) as usize] = match i {
                0 => 0x0E,
                1 => 0xFE,
                2 => 0x1A,
                _ => 0x09,
            };
        }
    }
    bytes
}

// Whether such a page is made, and is staged.
fn has_call(board: &mut MemoryBoard, set: &StoredSet, place: u16, page: u16) -> Result<bool, Fail>
    requires { IsSet set.now }
{
    if IMAGE_PAGES <= page {
        return Ok(false);
    }
    let want = page_with_call(place, page);
    let made = made_page(board, set, page)?;
    Ok(made == Some(want) && *board.ext_page(STAGED + page) == want)
}

// Whether all pages are made and staged so where a list that isn't the set's has a call at this place.
fn is_called(
    alloc: Global,
    board: &mut MemoryBoard,
    set: &StoredSet,
    place: u16,
) -> Result<bool, Fail>
    requires { IsSet set.now }
{
    let [low, high] = place.to_le_bytes();
    put_list(board, &[low, high, 0, 18, 0x34, 0x12, 0, 0]);
    failing(alloc, board, 0)?;
    if !is_staged(board, set)? {
        return Ok(false);
    }
    has_calls(board, set, place)
}

fn has_calls(board: &mut MemoryBoard, set: &StoredSet, place: u16) -> Result<bool, Fail>
    requires { IsSet set.now }
{
    for page in 0..3u16 {
        if !has_call(board, set, place, page)? {
            return Ok(false);
        }
    }
    Ok(true)
}

// The first of these places for which that isn't so.
fn wrong_call(
    alloc: Global,
    board: &mut MemoryBoard,
    set: &StoredSet,
    places: &[u16],
) -> Result<Option<u16>, Fail>
    requires { IsSet set.now }
{
    for place in places {
        if !is_called(alloc, board, set, *place)? {
            return Ok(Some(*place));
        }
    }
    Ok(None)
}

// At each place where a page's end splits the call, and on both sides. Both pages have their part, whether one is made alone or all are
// staged.
#[test]
fn a_call_over_the_end_of_a_page(rt: HostRuntime) -> Result<(), Fail> {
    let (mut board, manifest) = stored(rt.alloc(), &[BLANK])?;
    let set = opened(&mut board, manifest.as_slice())?;
    let wrong = wrong_call(rt.alloc(), &mut board, &set, &[252, 253, 254, 255, 256])?;
    assert_eq!(rt; wrong, None);
    Ok(())
}

// A page of fields of single bytes.
fn page_of_bytes() -> [u8; 256] {
    let mut bytes = [0; 256];
    for i in 0..256u16 {
        bytes[i as usize] = match i % 4 {
            0 => 7,
            1 => 0xFF,
            2 => 0x10,
            _ => 0x80,
        };
    }
    bytes
}

// The first staged page that isn't this one, or 0xFF behind so many of it.
fn wrong_staged(board: &MemoryBoard, full: &[u8; 256], count: u16) -> Option<u16> {
    for page in 0..IMAGE_PAGES {
        let want = if page < count { *full } else { [0xFF; 256] };
        if *board.ext_page(STAGED + page) != want {
            return Some(page);
        }
    }
    None
}

// Whether the image is staged as 32 such pages, and the last of them is made so.
fn is_full(board: &mut MemoryBoard, set: &StoredSet, full: &[u8; 256]) -> Result<bool, Fail>
    requires { IsSet set.now }
{
    if !is_staged(board, set)? || wrong_staged(board, full, 32).is_some() {
        return Ok(false);
    }
    makes(board, set, 31, full)
}

#[test]
fn the_most_relocations(rt: HostRuntime) -> Result<(), Fail> {
    let (mut board, manifest) = most(rt.alloc(), 8)?;
    let set = listed(&mut board, manifest.as_slice())?;
    assert!(rt; is_full(&mut board, &set, &page_of_bytes())?);
    Ok(())
}

// Whether staging fails where this call of the board does, as it should, and then succeeds.
fn is_staged_again(
    alloc: Global,
    board: &mut MemoryBoard,
    set: &StoredSet,
    fail: u32,
    should_fail: bool,
) -> Result<bool, Fail>
    requires { IsSet set.now }
{
    cleared(alloc, board)?;
    failing(alloc, board, fail)?;
    let works = is_staged(board, set)?;
    let works_again = is_staged(board, set)?;
    Ok(works != should_fail && works_again)
}

// The first of these calls for which that isn't so. For the first page two packages and a page of the list are read; then it and each other
// page are read and programmed. There are 963 calls.
fn wrong_stage(
    alloc: Global,
    board: &mut MemoryBoard,
    set: &StoredSet,
    calls: &[u32],
) -> Result<Option<u32>, Fail>
    requires { IsSet set.now }
{
    for fail in calls {
        if !is_staged_again(alloc, board, set, *fail, *fail <= 963)? {
            return Ok(Some(*fail));
        }
    }
    Ok(None)
}

// Whether the first page isn't made where this call of the board fails, as it should, and is made right after that.
fn is_made_again(
    alloc: Global,
    board: &mut MemoryBoard,
    set: &StoredSet,
    fail: u32,
    should_fail: bool,
) -> Result<bool, Fail>
    requires { IsSet set.now }
{
    failing(alloc, board, fail)?;
    let is_made = made_page(board, set, 0)?.is_some();
    let image = [0x0E, 0x94, 3, 0, 0xFF, 0xCF, 0x08, 0x95];
    let works = makes(board, set, 0, &image)?;
    Ok(is_made != should_fail && works)
}

// The first of these calls for which that isn't so. The first entry is found in nine pages of the list.
fn wrong_making(
    alloc: Global,
    board: &mut MemoryBoard,
    set: &StoredSet,
    calls: &[u32],
) -> Result<Option<u32>, Fail>
    requires { IsSet set.now }
{
    for fail in calls {
        if !is_made_again(alloc, board, set, *fail, *fail <= 12)? {
            return Ok(Some(*fail));
        }
    }
    Ok(None)
}

const STAGE_CALLS: [u32; 11] = [1, 2, 3, 4, 5, 6, 7, 500, 962, 963, 2000];

// Each kind of call of the board fails once, and what was asked answers so.
#[test]
fn failing_calls(rt: HostRuntime) -> Result<(), Fail> {
    let (mut board, manifest) = ready(rt.alloc(), &[CALLER, CALLEE])?;
    let set = listed(&mut board, manifest.as_slice())?;
    assert_eq!(rt;
        wrong_stage(rt.alloc(), &mut board, &set, &STAGE_CALLS)?,
        None
    );
    let wrong = wrong_making(rt.alloc(), &mut board, &set, &[1, 9, 10, 11, 12, 100])?;
    assert_eq!(rt; wrong, None);
    Ok(())
}
