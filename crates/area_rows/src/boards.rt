//! Boards in memory that hold components, what is to go wrong on them, and the sets that are found there.

ghost use Rattle.std.specs.Prelude.{IfOk};
ghost use Rattle.component_package.specs.packages.Manifest.{IsSlotManifest};
ghost use Rattle.component_store.specs.Sets.{IsSet};
ghost use Rattle.symbol_merge.specs.Stored.{IsPlanOf};

use crate::parts::{ONE_MORE, Part, byte_relocs, full, package, push_entry, short};
use component_package::{SlotManifest, read_manifest, read_slot_pages};
use component_store::{StoredSet, open_set, put_piece, slot_for};
use flash_pages::{Board, BoardPlan, MemoryBoard};
use layout_plan::Plan;
use sha2::{Digest, Sha256};
use std::alloc::{AllocError, Global};
use std::mem::replace;
use std::test::Fail;
use symbol_merge::{MergeFault, merge, plan_of_set};

/// A page of the same byte all over.
pub(crate) fn page_of(byte: u8) -> [u8; 256] {
    [byte; 256]
}

fn falling_page() -> [u8; 256] {
    let mut page = [0; 256];
    for at in 0..256usize {
        page[at] = (255 - at) as u8;
    }
    page
}

/// What the page of the program holds in which power is cut: all the same byte, or falling bytes.
pub(crate) fn spoilt(fill: u8) -> [u8; 256] {
    match fill {
        0 => page_of(0xA5),
        1 => page_of(0),
        _ => falling_page(),
    }
}

// A call that fails, and a program that stops the board and leaves this all over its page. None has the number 0.
fn faults(
    alloc: Global,
    fail: u32,
    stop_at: u32,
    spoil: [u8; 256],
) -> Result<BoardPlan, AllocError> {
    let mut calls = Vec::new(alloc);
    if 0 < fail {
        calls.push(fail)?;
    }
    Ok(BoardPlan {
        fail: calls,
        stop_at,
        spoil,
        chunk: 1,
    })
}

// A board of zeros on which nothing goes wrong, with room for so many programs.
fn board_with_room(alloc: Global, programs: u32) -> Result<MemoryBoard, Fail> {
    let plan = faults(alloc, 0, 0, page_of(0))?;
    let board = MemoryBoard::new(alloc, &[], plan, programs, 0)?;
    Ok(board)
}

/// A board of zeros on which nothing goes wrong, with room for as many programs as any row has.
pub(crate) fn empty_board(alloc: Global) -> Result<MemoryBoard, Fail> {
    board_with_room(alloc, 2000)
}

// The power is back, and this goes wrong from now on.
fn restart(alloc: Global, board: &mut MemoryBoard, plan: BoardPlan) -> Result<(), Fail> {
    let spare = board_with_room(alloc, 0)?;
    let before = replace(board, spare);
    *board = before.restart(alloc, &[], plan)?;
    Ok(())
}

/// The power is back, and this call will fail, or none where it is 0.
pub(crate) fn failing(alloc: Global, board: &mut MemoryBoard, fail: u32) -> Result<(), Fail> {
    let plan = faults(alloc, fail, 0, page_of(0))?;
    restart(alloc, board, plan)
}

/// The power is back, and will be cut in this program, which leaves this all over its page.
pub(crate) fn stopping(
    alloc: Global,
    board: &mut MemoryBoard,
    stop_at: u32,
    spoil: [u8; 256],
) -> Result<(), Fail> {
    let plan = faults(alloc, 0, stop_at, spoil)?;
    restart(alloc, board, plan)
}

/// Puts a package into slot `k`.
pub(crate) fn put_package<B: Board>(board: &mut B, k: u8, package: &[u8]) {
    let size = short(package.len());
    if k < 32 && 32 <= size && size <= 9984 {
        for page in 0..39u8 {
            let start = 256 * page as usize;
            let end = (start + 256).min(package.len());
            if let Some(piece) = package.get(start..end) {
                let _stored = put_piece(board, k, size, page, piece);
            }
        }
    }
}

/// Puts the package of component `k` + 1 into slot `k`, and its entry behind a manifest's bytes.
pub(crate) fn store<B: Board>(
    alloc: Global,
    board: &mut B,
    manifest: &mut Vec<u8>,
    k: u8,
    part: &Part<'_>,
) -> Result<(), AllocError> {
    let number = k as u16 + 1;
    let package = package(alloc, number, part)?;
    let digest = Sha256::digest(package.as_slice());
    push_entry(manifest, number, short(package.len()), &digest)?;
    put_package(board, k, package.as_slice());
    Ok(())
}

// Puts components into the first slots, and their entries behind a manifest's bytes.
fn store_each(
    alloc: Global,
    board: &mut MemoryBoard,
    manifest: &mut Vec<u8>,
    parts: &[Part<'_>],
) -> Result<(), AllocError> {
    let mut k = 0u8;
    for part in parts {
        store(alloc, board, manifest, k, part)?;
        k = k.wrapping_add(1);
    }
    Ok(())
}

// Puts components into the first slots, and gives their manifest in bytes.
fn store_all(
    alloc: Global,
    board: &mut MemoryBoard,
    parts: &[Part<'_>],
) -> Result<Vec<u8>, AllocError> {
    let mut manifest = vec![in alloc; 1, 0, 0, 0, (parts.len() % 256) as u8]?;
    store_each(alloc, board, &mut manifest, parts)?;
    Ok(manifest)
}

/// A board whose first slots hold these components, and its manifest in bytes.
pub(crate) fn stored(alloc: Global, parts: &[Part<'_>]) -> Result<(MemoryBoard, Vec<u8>), Fail> {
    let mut board = empty_board(alloc)?;
    let manifest = store_all(alloc, &mut board, parts)?;
    Ok((board, manifest))
}

// Merges the symbols of the set of a manifest.
fn merge_symbols(board: &mut MemoryBoard, manifest: &[u8]) -> Result<(), Fail> {
    let set = opened(board, manifest)?;
    let _count = merged(board, &set)??;
    Ok(())
}

/// The same board, with the set's symbols merged.
pub(crate) fn ready(alloc: Global, parts: &[Part<'_>]) -> Result<(MemoryBoard, Vec<u8>), Fail> {
    let (mut board, manifest) = stored(alloc, parts)?;
    merge_symbols(&mut board, manifest.as_slice())?;
    Ok((board, manifest))
}

// Components of 1,024 relocations each; those from the ninth on have a single one.
fn many<'a>(
    alloc: Global,
    relocs: &'a [[u8; 8]],
    components: u8,
) -> Result<Vec<Part<'a>>, AllocError> {
    let full = full(relocs);
    let mut parts = Vec::new(alloc);
    for k in 0..components {
        parts.push(if k < 8 { full } else { ONE_MORE })?;
    }
    Ok(parts)
}

/// A board with eight components of 1,024 relocations of single bytes, and ones with a single one behind them, whose symbols are merged.
pub(crate) fn most(alloc: Global, components: u8) -> Result<(MemoryBoard, Vec<u8>), Fail> {
    let relocs = byte_relocs(alloc)?;
    let parts = many(alloc, relocs.as_slice(), components)?;
    ready(alloc, parts.as_slice())
}

// The stored release of a formatted board, which has no entries.
fn nothing() -> Result<SlotManifest, Fail>
    ensures { IfOk result IsSlotManifest }
{
    match read_slot_pages(&[[0; 256]; 5]) {
        Some(release) => Ok(release),
        None => Err(Fail::new("no release")),
    }
}

/// The stored release that a manifest makes of the one before it.
pub(crate) fn over(before: &SlotManifest, manifest: &[u8]) -> Result<SlotManifest, Fail>
    requires { IsSlotManifest before.now }
    ensures { IfOk result IsSlotManifest }
{
    match read_manifest(manifest) {
        Ok(manifest) => Ok(slot_for(before, &manifest)),
        Err(_) => Err(Fail::new("no manifest")),
    }
}

/// The stored release of a manifest, with slots in order.
pub(crate) fn release(manifest: &[u8]) -> Result<SlotManifest, Fail>
    ensures { IfOk result IsSlotManifest }
{
    match nothing() {
        Ok(nothing) => over(&nothing, manifest),
        Err(fail) => Err(fail),
    }
}

/// The set of a stored release.
pub(crate) fn found<B: Board>(board: &mut B, release: &SlotManifest) -> Result<StoredSet, Fail>
    requires { IsSlotManifest release.now }
    ensures { IfOk result IsSet }
{
    match open_set(board, release) {
        Ok(set) => Ok(set),
        Err(fault) => Err(Fail::new(fault)),
    }
}

/// The set of a manifest, in the first slots.
pub(crate) fn opened<B: Board>(board: &mut B, manifest: &[u8]) -> Result<StoredSet, Fail>
    ensures { IfOk result IsSet }
{
    match release(manifest) {
        Ok(release) => found(board, &release),
        Err(fail) => Err(fail),
    }
}

/// The plan of a set.
pub(crate) fn planned(set: &StoredSet) -> Result<Plan, Fail>
    requires { IsSet set.now }
    ensures { IfOk result (IsPlanOf set.now) }
{
    match plan_of_set(set) {
        Ok(plan) => Ok(plan),
        Err(_) => Err(Fail::new("no plan")),
    }
}

/// What merging the set's symbols answers.
pub(crate) fn merged<B: Board>(
    board: &mut B,
    set: &StoredSet,
) -> Result<Result<u16, MergeFault>, Fail>
    requires { IsSet set.now }
{
    match planned(set) {
        Ok(plan) => Ok(merge(board, set, &plan)),
        Err(fail) => Err(fail),
    }
}

// A page of these bytes with 0xFF behind them.
fn filled(bytes: &[u8]) -> [u8; 256] {
    let mut page = [0xFF; 256];
    for at in 0..256usize {
        if let Some(byte) = bytes.get(at) {
            page[at] = *byte;
        }
    }
    page
}

/// Whether a page holds these bytes and 0xFF behind them.
pub(crate) fn begins(page: &[u8; 256], bytes: &[u8]) -> bool {
    *page == filled(bytes)
}

/// The record of eight bytes that is number `i` of an area, from its page.
pub(crate) fn record_in(page: &[u8; 256], i: u16) -> [u8; 8] {
    let mut record = [0; 8];
    for at in 0..8usize {
        record[at] = page[8 * (i % 32) as usize + at];
    }
    record
}

/// Programs a page of external flash with these bytes and 0xFF behind them.
pub(crate) fn put_page<B: Board>(board: &mut B, page: u16, bytes: &[u8]) {
    if page < 2048 {
        let _programmed = board.ext_program(page, &filled(bytes));
    }
}

/// Programs the first page of an area with these bytes and 0xFF behind them, and its other pages with 0xFF.
pub(crate) fn put_area<B: Board>(board: &mut B, first: u16, count: u16, bytes: &[u8]) {
    put_page(board, first, bytes);
    for i in 1..count {
        put_page(board, first.saturating_add(i), &[]);
    }
}
