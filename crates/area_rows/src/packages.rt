//! Each call of the board failing once, a stop at each program, and what is read of a package whose records lie over ends of pages.

ghost use Rattle.std.specs.Prelude.{◌≡◌, IfOk};
ghost use Rattle.component_package.specs.packages.Manifest.{IsSlotManifest};
ghost use Rattle.component_store.specs.Sets.{IsSet, length_of_part};

use crate::boards::{empty_board, failing, found, release, spoilt, stopping};
use crate::parts::{CALLER_PACKAGE, push_entry, push_number};
use avr_reloc::RelocType;
use component_package::{Export, Header, Place, Reloc, SlotManifest};
use component_store::{
    SetFault, SlotReader, StoreFault, StoredSet, check, check_package, export_at, exports_at,
    open_set, part_bytes, piece_differs, put_piece, read_reloc, reloc_at,
};
use flash_pages::{Board, Failed, MemoryBoard};
use sha2::{Digest, Sha256};
use std::alloc::{AllocError, Global};
use std::test::Fail;

// Component 3 has 476 bytes of code, 10 of data, 44 exports and 32 relocations. Its data, export 41, relocation 30 and the field of
// relocation 31 lie over ends of pages.
const SIZE: u16 = 1038;

// Code is zero in its fields, and so is data.
fn byte_of(in_init: bool, at: u32) -> u8 {
    let is_field = if in_init { 2 <= at && at < 6 } else { at < 124 };
    if is_field { 0 } else { (at % 199) as u8 + 1 }
}

fn export_of(i: u8) -> Export {
    let place = match i % 4 {
        0 => Place::Code,
        1 => Place::Init,
        2 => Place::Bss,
        _ => Place::Absolute,
    };
    Export {
        symbol: 16 + 3 * i as u16,
        place,
        weak: i % 3 == 0,
        value: (i % 5) as u16,
    }
}

fn reloc_of(i: u8) -> Reloc {
    let in_init = i == 31;
    Reloc {
        offset: if in_init { 2 } else { 4 * i as u16 },
        in_init,
        weak: i % 2 == 1,
        kind: RelocType::Abs32,
        target: 16 + i as u16,
        addend: -(i as i16),
    }
}

fn push_export(into: &mut Vec<u8>, export: &Export) -> Result<(), AllocError> {
    let place = match export.place {
        Place::Code => 0,
        Place::Init => 1,
        Place::Bss => 2,
        Place::Absolute => 3,
    };
    let weak = if export.weak { 128 } else { 0 };
    push_number(into, export.symbol)?;
    into.extend_from_slice(&[place + weak, 0])?;
    push_number(into, export.value)?;
    Ok(())
}

fn push_reloc(into: &mut Vec<u8>, reloc: &Reloc) -> Result<(), AllocError> {
    let part = if reloc.in_init { 1 } else { 0 };
    let weak = if reloc.weak { 128 } else { 0 };
    push_number(into, reloc.offset)?;
    into.extend_from_slice(&[part + weak, 1])?;
    push_number(into, reloc.target)?;
    into.extend_from_slice(&reloc.addend.to_le_bytes())?;
    Ok(())
}

fn push_content(into: &mut Vec<u8>) -> Result<(), AllocError> {
    into.extend_from_slice(&[0; 14])?;
    for at in 0..476u32 {
        into.push(byte_of(false, at))?;
    }
    for at in 0..10u32 {
        into.push(byte_of(true, at))?;
    }
    Ok(())
}

fn push_records(into: &mut Vec<u8>) -> Result<(), AllocError> {
    for i in 0..44u8 {
        push_export(into, &export_of(i))?;
    }
    for i in 0..32u8 {
        push_reloc(into, &reloc_of(i))?;
    }
    Ok(())
}

fn long_package(alloc: Global) -> Result<Vec<u8>, AllocError> {
    let mut bytes = vec![in alloc;
        0x46, 0x43, 0x50, 0x31, 3, 0, 1, 0, 0xDC, 1, 10, 0, 4, 0, 44, 0, 32, 0,
    ]?;
    push_content(&mut bytes)?;
    push_records(&mut bytes)?;
    Ok(bytes)
}

// The manifest of the caller and of component 3.
fn manifest(alloc: Global, long: &[u8]) -> Result<Vec<u8>, AllocError> {
    let mut bytes = vec![in alloc; 1, 0, 0, 0, 2]?;
    push_entry(&mut bytes, 1, 46, &Sha256::digest(&CALLER_PACKAGE))?;
    push_entry(&mut bytes, 3, SIZE, &Sha256::digest(long))?;
    Ok(bytes)
}

// A page of component 3's package into slot 1, where it holds other bytes.
fn put_page<B: Board>(board: &mut B, page: u8, long: &[u8]) -> Result<(), StoreFault> {
    let start = 256 * page as usize;
    let piece = match long.get(start..(start + 256).min(long.len())) {
        Some(piece) => piece,
        None => &[],
    };
    if piece_differs(board, 1, SIZE, page, piece)? {
        put_piece(board, 1, SIZE, page, piece)?;
    }
    Ok(())
}

fn put_pages<B: Board>(board: &mut B, long: &[u8]) -> Result<(), StoreFault> {
    for page in 0..5u8 {
        put_page(board, page, long)?;
    }
    Ok(())
}

// A board with the caller in slot 0.
fn with_caller(alloc: Global) -> Result<MemoryBoard, Fail> {
    let mut board = empty_board(alloc)?;
    let _put = put_piece(&mut board, 0, 46, 0, &CALLER_PACKAGE);
    Ok(board)
}

// What comes of putting pages on a board on which something goes wrong, and then once more.
#[derive(Clone, Copy, Debug, PartialEq, Eq)]
struct PutAgain {
    first: Result<(), StoreFault>,
    // Why there is no set then.
    found: Option<SetFault>,
    // How many pages the second time programs, and whether there is a set behind it.
    programs: u32,
    opens: bool,
}

fn put_again(
    alloc: Global,
    board: &mut MemoryBoard,
    release: &SlotManifest,
    long: &[u8],
) -> Result<PutAgain, Fail>
    requires { IsSlotManifest release.now }
{
    let first = put_pages(board, long);
    failing(alloc, board, 0)?;
    let found = open_set(board, release).err();
    let _second = put_pages(board, long);
    let programs = board.program_count();
    let opens = open_set(board, release).is_ok();
    Ok(PutAgain {
        first,
        found,
        programs,
        opens,
    })
}

// What is to come of it where the second time programs so many.
fn mended(programs: u32) -> PutAgain {
    let is_whole = programs == 0;
    PutAgain {
        first: if is_whole {
            Ok(())
        } else {
            Err(StoreFault::Fault)
        },
        found: if is_whole {
            None
        } else {
            Some(SetFault::Missing(1))
        },
        programs,
        opens: true,
    }
}

// The same where power is cut in this program.
fn put_after_a_cut(
    alloc: Global,
    release: &SlotManifest,
    long: &[u8],
    stop_at: u32,
    fill: u8,
) -> Result<PutAgain, Fail>
    requires { IsSlotManifest release.now }
{
    let mut board = with_caller(alloc)?;
    stopping(alloc, &mut board, stop_at, spoilt(fill))?;
    put_again(alloc, &mut board, release, long)
}

// The same where this call fails.
fn put_after_a_fault(
    alloc: Global,
    release: &SlotManifest,
    long: &[u8],
    fails: u32,
) -> Result<PutAgain, Fail>
    requires { IsSlotManifest release.now }
{
    let mut board = with_caller(alloc)?;
    failing(alloc, &mut board, fails)?;
    put_again(alloc, &mut board, release, long)
}

// The first program for which that isn't so with this fill. The pages before that of the stop are kept, whatever it left.
fn wrong_stop(
    alloc: Global,
    release: &SlotManifest,
    long: &[u8],
    fill: u8,
) -> Result<Option<u32>, Fail>
    requires { IsSlotManifest release.now }
{
    for stop_at in 1..7u32 {
        if put_after_a_cut(alloc, release, long, stop_at, fill)? != mended(6 - stop_at) {
            return Ok(Some(stop_at));
        }
    }
    Ok(None)
}

// The same with each fill, which stands before the program.
fn wrong_fill(alloc: Global, release: &SlotManifest, long: &[u8]) -> Result<Option<(u8, u32)>, Fail>
    requires { IsSlotManifest release.now }
{
    for fill in 0..3u8 {
        if let Some(stop_at) = wrong_stop(alloc, release, long, fill)? {
            return Ok(Some((fill, stop_at)));
        }
    }
    Ok(None)
}

// The first call of the board for which that isn't so. Each page takes a read and a program.
fn wrong_call(alloc: Global, release: &SlotManifest, long: &[u8]) -> Result<Option<u32>, Fail>
    requires { IsSlotManifest release.now }
{
    for fails in 1..12u32 {
        if put_after_a_fault(alloc, release, long, fails)? != mended(5 - (fails - 1) / 2) {
            return Ok(Some(fails));
        }
    }
    Ok(None)
}

// The release of the caller and of component 3.
fn long_release(alloc: Global, long: &[u8]) -> Result<SlotManifest, Fail>
    ensures { IfOk result IsSlotManifest }
{
    let manifest = manifest(alloc, long)?;
    release(manifest.as_slice())
}

#[test]
fn pages_are_put_again_after_a_fault(rt: HostRuntime) -> Result<(), Fail> {
    let long = long_package(rt.alloc())?;
    let release = long_release(rt.alloc(), long.as_slice())?;
    assert_eq!(rt; wrong_fill(rt.alloc(), &release, long.as_slice())?, None);
    assert_eq!(rt; wrong_call(rt.alloc(), &release, long.as_slice())?, None);
    Ok(())
}

// A call of the store. Where it is on a set, it is on component 3.
#[derive(Clone, Copy, Debug, PartialEq, Eq)]
enum Call {
    Check,
    CheckPackage,
    Open,
    Put(u8),
    Export(u8),
    // From this export on, so many.
    Exports(u8, u8),
    Reloc(u8),
    // The caller's first relocation and then all of component 3, by one reader.
    Relocs,
    // Of data or else of code, from this byte on, so many.
    Part(bool, u16, u16),
}

fn failed(fault: StoreFault) -> Result<bool, Failed> {
    match fault {
        StoreFault::Fault => Err(Failed),
        _ => Ok(false),
    }
}

fn checks<B: Board>(board: &mut B, release: &SlotManifest) -> Result<bool, Failed>
    requires { IsSlotManifest release.now }
{
    let digest = release.manifest.entries[1].digest;
    check(board, 1, SIZE, &digest)
}

fn checks_package<B: Board>(board: &mut B, release: &SlotManifest) -> Result<bool, Failed> {
    let mut entry = release.manifest.entries[1];
    entry.length = SIZE;
    match check_package(board, 1, &entry) {
        Ok(header) => Ok(header.exports == 44 && header.relocs == 32),
        Err(fault) => failed(fault),
    }
}

fn opens<B: Board>(board: &mut B, release: &SlotManifest) -> Result<bool, Failed>
    requires { IsSlotManifest release.now }
{
    match open_set(board, release) {
        Ok(_) => Ok(true),
        Err(SetFault::Fault) => Err(Failed),
        Err(_) => Ok(false),
    }
}

fn puts<B: Board>(board: &mut B, page: u8, long: &[u8]) -> Result<bool, Failed> {
    match put_page(board, page, long) {
        Ok(()) => Ok(true),
        Err(fault) => failed(fault),
    }
}

fn is_export<B: Board>(board: &mut B, set: &StoredSet, k: u8, i: u8) -> Result<bool, Failed>
    requires { IsSet set.now }
{
    if set.slots.manifest.count <= k || set.headers[k as usize].exports <= i as u16 {
        return Ok(false);
    }
    let export = export_at(board, set, k, i as u16)?;
    Ok(export == export_of(i))
}

fn is_exports<B: Board>(
    board: &mut B,
    set: &StoredSet,
    k: u8,
    i: u8,
    count: u8,
) -> Result<bool, Failed>
    requires { IsSet set.now }
{
    if set.slots.manifest.count <= k || 44 < count {
        return Ok(false);
    }
    if set.headers[k as usize].exports < i as u16 + count as u16 {
        return Ok(false);
    }
    let mut exports = [export_of(255); 44];
    exports_at(board, set, k, i as u16, &mut exports[..count as usize])?;
    for j in 0..count {
        if exports[j as usize] != export_of(i.saturating_add(j)) {
            return Ok(false);
        }
    }
    Ok(true)
}

fn is_reloc<B: Board>(board: &mut B, set: &StoredSet, k: u8, i: u8) -> Result<bool, Failed>
    requires { IsSet set.now }
{
    if set.slots.manifest.count <= k || set.headers[k as usize].relocs <= i as u16 {
        return Ok(false);
    }
    let reloc = reloc_at(board, set, k, i as u16)?;
    Ok(reloc == reloc_of(i))
}

// By this reader.
fn relocs<B: Board>(
    board: &mut B,
    set: &StoredSet,
    table: &mut SlotReader,
    k: u8,
) -> Result<bool, Failed>
    requires { IsSet set.now }
{
    if set.slots.manifest.count <= k {
        return Ok(false);
    }
    for i in 0..set.headers[k as usize].relocs {
        let reloc = read_reloc(board, set, table, k, i)?;
        if k == 1 && reloc != reloc_of((i % 256) as u8) {
            return Ok(false);
        }
    }
    Ok(true)
}

fn is_relocs<B: Board>(board: &mut B, set: &StoredSet) -> Result<bool, Failed>
    requires { IsSet set.now }
{
    let mut table = SlotReader::new(9);
    let _caller = relocs(board, set, &mut table, 0)?;
    relocs(board, set, &mut table, 1)
}

fn length(h: &Header, in_init: bool) -> u16
    ensures { result ≡ length_of_part h.now in_init }
{
    if in_init { h.init } else { h.code }
}

fn is_part<B: Board>(
    board: &mut B,
    set: &StoredSet,
    k: u8,
    in_init: bool,
    from: u16,
    count: u16,
) -> Result<bool, Failed>
    requires { IsSet set.now }
{
    if set.slots.manifest.count <= k || 476 < count {
        return Ok(false);
    }
    if (length(&set.headers[k as usize], in_init) as u32) < from as u32 + count as u32 {
        return Ok(false);
    }
    let mut bytes = [0xFF; 476];
    part_bytes(board, set, k, in_init, from, &mut bytes[..count as usize])?;
    for j in 0..count {
        if bytes[j as usize] != byte_of(in_init, from as u32 + j as u32) {
            return Ok(false);
        }
    }
    Ok(true)
}

// Whether the call answers as it should.
fn ask<B: Board>(
    board: &mut B,
    release: &SlotManifest,
    set: &StoredSet,
    long: &[u8],
    call: Call,
) -> Result<bool, Failed>
    requires release { IsSlotManifest release.now }
    requires set { IsSet set.now }
{
    match call {
        Call::Check => checks(board, release),
        Call::CheckPackage => checks_package(board, release),
        Call::Open => opens(board, release),
        Call::Put(page) => puts(board, page, long),
        Call::Export(i) => is_export(board, set, 1, i),
        Call::Exports(i, count) => is_exports(board, set, 1, i, count),
        Call::Reloc(i) => is_reloc(board, set, 1, i),
        Call::Relocs => is_relocs(board, set),
        Call::Part(in_init, from, count) => is_part(board, set, 1, in_init, from, count),
    }
}

// A call, how often it calls the board, and whether there is what it asks for.
type Row = (Call, u32, bool);

// Whether the row's call fails where this call of the board does, and is answered as it should be when it is asked again. There is no such
// call of the board behind the last.
fn is_asked_again(
    board: &mut MemoryBoard,
    release: &SlotManifest,
    set: &StoredSet,
    long: &[u8],
    row: Row,
    is_last: bool,
) -> bool
    requires release { IsSlotManifest release.now }
    requires set { IsSet set.now }
{
    let (call, _, there) = row;
    if !is_last && ask(board, release, set, long, call).is_ok() {
        return false;
    }
    ask(board, release, set, long, call) == Ok(there)
}

// Which call of the board was to fail when the row's call answered otherwise, if any. Each call of the board fails once.
fn wrong_fault(
    alloc: Global,
    board: &mut MemoryBoard,
    release: &SlotManifest,
    set: &StoredSet,
    long: &[u8],
    row: Row,
) -> Result<Option<u32>, Fail>
    requires release { IsSlotManifest release.now }
    requires set { IsSet set.now }
{
    let calls = row.1;
    for fails in 1..calls.saturating_add(2) {
        failing(alloc, board, fails)?;
        if !is_asked_again(board, release, set, long, row, calls < fails) {
            return Ok(Some(fails));
        }
    }
    Ok(None)
}

// The first row whose call answers otherwise, and which call of the board was to fail then.
fn wrong_row(
    alloc: Global,
    board: &mut MemoryBoard,
    release: &SlotManifest,
    long: &[u8],
    rows: &[Row],
) -> Result<Option<(Call, u32)>, Fail>
    requires release { IsSlotManifest release.now }
{
    let set = found(board, release)?;
    for row in rows {
        if let Some(fails) = wrong_fault(alloc, board, release, &set, long, *row)? {
            return Ok(Some((row.0, fails)));
        }
    }
    Ok(None)
}

// The same on a board that holds the caller and component 3.
fn first_wrong(alloc: Global, rows: &[Row]) -> Result<Option<(Call, u32)>, Fail> {
    let long = long_package(alloc)?;
    let release = long_release(alloc, long.as_slice())?;
    let mut board = with_caller(alloc)?;
    let _put = put_pages(&mut board, long.as_slice());
    wrong_row(alloc, &mut board, &release, long.as_slice(), rows)
}

const CHECKS: [Row; 5] = [
    (Call::Check, 5, true),
    (Call::CheckPackage, 7, true),
    (Call::Open, 15, true),
    (Call::Put(4), 1, true),
    (Call::Put(5), 0, false),
];

// First and last, over ends of pages, and behind the last.
const PARTS: [Row; 25] = [
    (Call::Export(0), 1, true),
    (Call::Export(40), 1, true),
    (Call::Export(41), 2, true),
    (Call::Export(43), 1, true),
    (Call::Export(44), 0, false),
    (Call::Exports(0, 44), 2, true),
    (Call::Exports(41, 1), 2, true),
    (Call::Exports(42, 2), 1, true),
    (Call::Exports(44, 0), 0, true),
    (Call::Exports(1, 44), 0, false),
    (Call::Reloc(0), 1, true),
    (Call::Reloc(29), 1, true),
    (Call::Reloc(30), 2, true),
    (Call::Reloc(31), 1, true),
    (Call::Reloc(32), 0, false),
    (Call::Relocs, 3, true),
    (Call::Part(false, 0, 476), 2, true),
    (Call::Part(false, 223, 2), 2, true),
    (Call::Part(false, 475, 1), 1, true),
    (Call::Part(false, 476, 0), 0, true),
    (Call::Part(false, 475, 2), 0, false),
    (Call::Part(true, 0, 10), 2, true),
    (Call::Part(true, 3, 2), 2, true),
    (Call::Part(true, 9, 1), 1, true),
    (Call::Part(true, 10, 1), 0, false),
];

#[test]
fn checks_meet_each_fault_of_the_board(rt: HostRuntime) -> Result<(), Fail> {
    assert_eq!(rt; first_wrong(rt.alloc(), &CHECKS)?, None);
    Ok(())
}

#[test]
fn parts_lie_over_ends_of_pages(rt: HostRuntime) -> Result<(), Fail> {
    assert_eq!(rt; first_wrong(rt.alloc(), &PARTS)?, None);
    Ok(())
}
