//! A stop at every hundredth program of a boot and at each of its last six, and each call of the board failing once: what the next boot does.

ghost use Rattle.std.specs.Prelude.{IfOk};
ghost use Rattle.component_package.specs.packages.Manifest.{IsSlotManifest};

use crate::boards::{empty_board, failing, formatted, mark_all, stopping};
use boot_loader::{BootFault, boot};
use component_package::areas::{IMAGE_PAGES, STAGED};
use component_package::{SlotManifest, read_slot_pages};
use flash_pages::{Board, Failed, MemoryBoard};
use install_journal::{go, put_manifest};
use std::alloc::Global;
use std::test::Fail;

// Release 1, which has no component.
fn release() -> Result<SlotManifest, Failed>
    ensures { IfOk result IsSlotManifest }
{
    let mut pages = [[0; 256]; 5];
    pages[0][0] = 1;
    match read_slot_pages(&pages) {
        Some(release) => Ok(release),
        None => Err(Failed),
    }
}

// A page of the staged image, unlike each page that a program may spoil.
fn image_page(page: u16) -> [u8; 256] {
    let mut bytes = [0x5A; 256];
    bytes[0] = (page % 256) as u8;
    bytes
}

// Stages the image.
fn put_image<B: Board>(board: &mut B) -> Result<(), Failed> {
    for page in 0..IMAGE_PAGES {
        board.ext_program(STAGED + page, &image_page(page))?;
    }
    Ok(())
}

// Takes in release 1 with its image, and commits it.
fn commit<B: Board>(board: &mut B) -> Result<(), Failed> {
    let release = release()?;
    put_manifest(board, &release)?;
    put_image(board)?;
    mark_all(board)?;
    go(board)?;
    Ok(())
}

// A board with a commit of release 1.
fn committed(alloc: Global) -> Result<MemoryBoard, Fail> {
    let mut board = formatted(alloc)?;
    commit(&mut board)?;
    Ok(board)
}

// Whether program flash is the staged image.
fn is_installed(board: &MemoryBoard) -> bool {
    for page in 0..IMAGE_PAGES {
        if *board.prog_page(page) != image_page(page) {
            return false;
        }
    }
    true
}

// What a boot answers, how many pages it programs, and whether program flash then is the image.
type Booted = (Result<u32, BootFault>, u32, bool);

fn booted(board: &mut MemoryBoard) -> Booted {
    let answer = boot(board);
    (answer, board.program_count(), is_installed(board))
}

// What a boot answers that is stopped in this program, and what comes of the two that follow it.
fn stopped(
    alloc: Global,
    stop: u32,
    fill: u8,
) -> Result<(Result<u32, BootFault>, Booted, Booted), Fail> {
    let mut board = stopping(alloc, committed(alloc)?, stop, fill)?;
    let stopped = boot(&mut board);
    let mut board = failing(alloc, board, 0)?;
    let next = booted(&mut board);
    let mut board = failing(alloc, board, 0)?;
    let last = booted(&mut board);
    Ok((stopped, next, last))
}

#[test]
fn a_boot_goes_on_wherever_power_was_cut(rt: HostRuntime) -> Result<(), Fail> {
    // The programs at which a boot is stopped: program pages, then Sel, Img, Rel, Sym, Man and the Go gate.
    for stop in [1, 100, 200, 300, 400, 480, 481, 482, 483, 484, 485, 486] {
        for fill in 0..3u8 {
            let (first, next, last) = stopped(rt.alloc(), stop, fill)?;
            assert_eq!(rt; first, Err(BootFault::Fault), "{stop} {fill}");
            let (answer, programs, is_installed) = next;
            assert_eq!(rt; answer, Ok(1), "{stop} {fill}");
            assert!(rt; is_installed, "{stop} {fill}");
            // A page is made up for, and so is a gate that a cut left standing as it was.
            let most = 487 - stop;
            assert!(rt; programs <= most, "{stop} {fill}");
            if stop <= 480 {
                assert_eq!(rt; programs, most, "{stop} {fill}");
            }
            assert_eq!(rt; last, (Ok(1), 0, true), "{stop} {fill}");
        }
    }
    Ok(())
}

// Whether a boot fails in which this call does, and what comes of the next one.
fn failed(alloc: Global, call: u32) -> Result<(bool, Booted), Fail> {
    let mut board = failing(alloc, committed(alloc)?, call)?;
    let fails = boot(&mut board).is_err();
    let mut board = failing(alloc, board, 0)?;
    Ok((fails, booted(&mut board)))
}

#[test]
fn a_call_that_fails_once_is_made_up_for(rt: HostRuntime) -> Result<(), Fail> {
    // Reading the state takes 9 calls, the copy 3 for each page, and the end 14.
    for call in [1, 4, 5, 9, 10, 11, 12, 1448, 1449, 1450, 1463, 1464] {
        let (fails, (answer, _, is_installed)) = failed(rt.alloc(), call)?;
        assert_eq!(rt; fails, call <= 1463, "{call}");
        assert_eq!(rt; answer, Ok(1), "{call}");
        assert!(rt; is_installed, "{call}");
    }
    Ok(())
}

#[test]
fn a_board_of_zeros_is_unformatted(rt: HostRuntime) -> Result<(), Fail> {
    let mut board = empty_board(rt.alloc())?;
    assert_eq!(rt; boot(&mut board), Err(BootFault::Unformatted));
    Ok(())
}
