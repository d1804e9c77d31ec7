//! A stop at programs of each kind in a boot, and each call of the board failing once: what the next boot does. And a board of the first layout.

ghost use Rattle.std.specs.Prelude.{IfOk, ◌≤◌, ◌+◌};
ghost use Rattle.kept_manifests.specs.Slots.{IsSlotManifest};

use crate::boards::{empty_board, failing, formatted, mark_all, stopping};
use component_package::areas::{IMAGE_PAGES, MANIFEST_A, SLOT_PAGES, STAGED};
use external_flash::{Gate, open_gate};
use flash_pages::{Board, Failed, MemoryBoard};
use kept_boot::{BootFault, boot};
use kept_definitions::areas::{INBOX, LAYOUT, TABLES};
use kept_journal::{go, put_manifest};
use kept_manifests::{SlotManifest, read_slot_pages};
use std::alloc::Global;
use std::test::Fail;

// A component of the release: its slot, whether it comes in, and the numbers in its header.
struct Part {
    slot: u8,
    fresh: bool,
    code: u8,
    init: u8,
    exports: u8,
    relocs: u8,
}

// Two that come in, whose runs take one page and two, and between them one that is installed already.
const PARTS: [Part; 3] = [
    Part {
        slot: 7,
        fresh: true,
        code: 4,
        init: 2,
        exports: 1,
        relocs: 1,
    },
    Part {
        slot: 0,
        fresh: false,
        code: 6,
        init: 0,
        exports: 1,
        relocs: 0,
    },
    Part {
        slot: 2,
        fresh: true,
        code: 250,
        init: 0,
        exports: 2,
        relocs: 32,
    },
];

// How long its run is: the header, 6 bytes for each export and 8 for each relocation.
fn run_length(part: &Part) -> u16
    ensures { result ≤ 3602 }
{
    32 + 6 * part.exports as u16 + 8 * part.relocs as u16
}

// How long its package is.
fn package_length(part: &Part) -> u16 {
    run_length(part) + part.code as u16 + part.init as u16
}

// A byte of its package: the header's numbers, and behind the header bytes that tell where they stand.
fn package_byte(part: &Part, at: u32) -> u8 {
    if at >= 32 {
        return (at % 251) as u8 + 1;
    }
    match at {
        8 => part.code,
        10 => part.init,
        14 => part.exports,
        16 => part.relocs,
        _ => 0,
    }
}

// A byte of its run, which leaves out code and data; 0xFF behind its end.
fn run_byte(part: &Part, at: u16) -> u8 {
    if at >= run_length(part) {
        return 0xFF;
    }
    let place = at as u32;
    if place < 32 {
        return package_byte(part, place);
    }
    package_byte(part, place + part.code as u32 + part.init as u32)
}

// A page of its package.
fn package_page(part: &Part, page: u8) -> [u8; 256] {
    let mut bytes = [0; 256];
    for i in 0..256usize {
        bytes[i] = package_byte(part, 256 * page as u32 + i as u32);
    }
    bytes
}

// A page of its run.
fn run_page(part: &Part, page: u8) -> [u8; 256] {
    let mut bytes = [0; 256];
    for i in 0..256usize {
        bytes[i] = run_byte(part, 256 * (page % 16) as u16 + i as u16);
    }
    bytes
}

// The first page of a slot of these.
fn slot_first(first: u16, slot: u8) -> u16
    requires { first ≤ 1410 }
    ensures { result ≤ first + 585 }
{
    first + SLOT_PAGES * (slot % 16) as u16
}

// The pages of a side that store release 1, of the three components.
fn pages_of(layout: u8) -> [[u8; 256]; 5] {
    let mut pages = [[0; 256]; 5];
    pages[0][0] = 1;
    pages[0][4] = 3;
    pages[0][5] = layout;
    for i in 0..3usize {
        let part = &PARTS[i];
        let length = package_length(part);
        pages[1][64 * i] = 1 + i as u8;
        pages[1][64 * i + 4] = (length % 256) as u8;
        pages[1][64 * i + 5] = (length / 256) as u8;
        pages[1][64 * i + 38] = part.slot;
        pages[1][64 * i + 39] = part.fresh as u8;
    }
    pages
}

fn release() -> Result<SlotManifest, Failed>
    ensures { IfOk result IsSlotManifest }
{
    match read_slot_pages(&pages_of(LAYOUT)) {
        Some(release) => Ok(release),
        None => Err(Failed),
    }
}

// Puts the packages that come in into their inbox slots.
fn put_packages<B: Board>(board: &mut B) -> Result<(), Failed> {
    for part in &PARTS {
        if part.fresh {
            let first = slot_first(INBOX, part.slot);
            for page in 0..3u8 {
                board.ext_program(first + page as u16, &package_page(part, page))?;
            }
        }
    }
    Ok(())
}

// A page of the staged image, unlike each page that a program may spoil.
fn image_page(page: u16) -> [u8; 256] {
    let mut bytes = [0x5A; 256];
    bytes[0] = (page % 256) as u8;
    bytes
}

// Stages the image.
fn put_image<B: Board>(board: &mut B) -> Result<(), Failed> {
    for page in 0..IMAGE_PAGES {
        board.ext_program(STAGED + page, &image_page(page))?;
    }
    Ok(())
}

// Takes in release 1 with its packages and its image, and commits it.
fn commit<B: Board>(board: &mut B) -> Result<(), Failed> {
    let release = release()?;
    put_manifest(board, &release)?;
    put_packages(board)?;
    put_image(board)?;
    mark_all(board)?;
    go(board)?;
    Ok(())
}

// A board with a commit of release 1.
fn committed(alloc: Global) -> Result<MemoryBoard, Fail> {
    let mut board = formatted(alloc)?;
    commit(&mut board)?;
    Ok(board)
}

// Whether program flash is the staged image.
fn is_installed(board: &MemoryBoard) -> bool {
    for page in 0..IMAGE_PAGES {
        if *board.prog_page(page) != image_page(page) {
            return false;
        }
    }
    true
}

// Whether the first two pages of a table slot are this component's run where it came in, and else what they were at first.
fn is_kept(board: &MemoryBoard, part: &Part) -> bool {
    let first = slot_first(TABLES, part.slot);
    for page in 0..2u8 {
        let there = *board.ext_page(first + page as u16);
        let is_run = part.fresh && 256 * (page as u16) < run_length(part);
        if is_run && there != run_page(part, page) {
            return false;
        }
        if !is_run && there != [0; 256] {
            return false;
        }
    }
    true
}

fn are_kept(board: &MemoryBoard) -> bool {
    for part in &PARTS {
        if !is_kept(board, part) {
            return false;
        }
    }
    true
}

// What a boot answers, how many pages it programs, and whether program flash then is the image and the tables have the runs.
type Booted = (Result<u32, BootFault>, u32, bool);

fn booted(board: &mut MemoryBoard) -> Booted {
    let answer = boot(board);
    (
        answer,
        board.program_count(),
        is_installed(board) && are_kept(board),
    )
}

// What a boot answers that is stopped in this program, and what comes of the two that follow it.
fn stopped(
    alloc: Global,
    stop: u32,
    fill: u8,
) -> Result<(Result<u32, BootFault>, Booted, Booted), Fail> {
    let mut board = stopping(alloc, committed(alloc)?, stop, fill)?;
    let stopped = boot(&mut board);
    let mut board = failing(alloc, board, 0)?;
    let next = booted(&mut board);
    let mut board = failing(alloc, board, 0)?;
    let last = booted(&mut board);
    Ok((stopped, next, last))
}

#[test]
fn a_boot_goes_on_wherever_power_was_cut(rt: HostRuntime) -> Result<(), Fail> {
    // The programs at which a boot is stopped: program pages, three pages of runs, and then Sel, Img, Rel, Sym, Man and the Go gate.
    for stop in [1, 200, 480, 481, 482, 483, 484, 485, 486, 487, 488, 489] {
        for fill in 0..3u8 {
            let (first, next, last) = stopped(rt.alloc(), stop, fill)?;
            assert_eq!(rt; first, Err(BootFault::Fault), "{stop} {fill}");
            let (answer, programs, is_whole) = next;
            assert_eq!(rt; answer, Ok(1), "{stop} {fill}");
            assert!(rt; is_whole, "{stop} {fill}");
            // A page is made up for, and so is a gate that a cut left standing as it was.
            let most = 490 - stop;
            assert!(rt; programs <= most, "{stop} {fill}");
            if stop <= 483 {
                assert_eq!(rt; programs, most, "{stop} {fill}");
            }
            assert_eq!(rt; last, (Ok(1), 0, true), "{stop} {fill}");
        }
    }
    Ok(())
}

// Whether a boot fails in which this call does, and what comes of the next one.
fn failed(alloc: Global, call: u32) -> Result<(bool, Booted), Fail> {
    let mut board = failing(alloc, committed(alloc)?, call)?;
    let fails = boot(&mut board).is_err();
    let mut board = failing(alloc, board, 0)?;
    Ok((fails, booted(&mut board)))
}

#[test]
fn a_call_that_fails_once_is_made_up_for(rt: HostRuntime) -> Result<(), Fail> {
    // Reading the state takes 9 calls, the copy 3 for each page, the runs 13, and the end 14.
    for call in [1, 9, 10, 11, 12, 1449, 1450, 1451, 1462, 1463, 1476, 1477] {
        let (fails, (answer, _, is_whole)) = failed(rt.alloc(), call)?;
        assert_eq!(rt; fails, call <= 1476, "{call}");
        assert_eq!(rt; answer, Ok(1), "{call}");
        assert!(rt; is_whole, "{call}");
    }
    Ok(())
}

// A board whose side A stores release 1 as this layout does.
fn stores_in(alloc: Global, layout: u8) -> Result<MemoryBoard, Fail> {
    let mut board = empty_board(alloc)?;
    let pages = pages_of(layout);
    for i in 0..5usize {
        board.ext_program(MANIFEST_A + i as u16, &pages[i])?;
    }
    open_gate(&mut board, Gate::Fmt)?;
    Ok(board)
}

#[test]
fn only_a_board_of_this_layout_is_formatted(rt: HostRuntime) -> Result<(), Fail> {
    let mut zeros = empty_board(rt.alloc())?;
    assert_eq!(rt; boot(&mut zeros), Err(BootFault::Unformatted));
    for layout in 0..4u8 {
        let mut board = stores_in(rt.alloc(), layout)?;
        let wanted = if layout == 2 {
            Ok(1)
        } else {
            Err(BootFault::Unformatted)
        };
        assert_eq!(rt; boot(&mut board), wanted, "{layout}");
    }
    Ok(())
}
