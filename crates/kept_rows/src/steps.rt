//! A stop at each program of a step, and each call of the board failing once: what the next call then finds.

ghost use Rattle.std.specs.Prelude.{IfOk};
ghost use Rattle.kept_manifests.specs.Slots.{IsSlotManifest};

use crate::boards::{failing, formatted, mark_all, stopping};
use flash_pages::{Board, Failed, MemoryBoard};
use kept_definitions::areas::LAYOUT;
use kept_journal::{Stage, abandon, finish, go, mark, put_manifest, read_state, unlink};
use kept_manifests::{SlotManifest, read_slot_pages};
use std::alloc::Global;
use std::test::Fail;

// The pages of a release of 16 components, with a slot of its own for each.
fn pages_of(number: u8) -> [[u8; 256]; 5] {
    let mut pages = [[0; 256]; 5];
    pages[0][0] = number;
    pages[0][4] = 16;
    pages[0][5] = LAYOUT;
    for i in 0..16usize {
        let at = 64 * (i % 4);
        pages[1 + i / 4][at] = 1 + i as u8;
        pages[1 + i / 4][at + 2] = number;
        pages[1 + i / 4][at + 4] = 32;
        pages[1 + i / 4][at + 38] = i as u8;
        pages[1 + i / 4][at + 39] = (i % 2) as u8;
    }
    pages
}

fn release(number: u8) -> Result<SlotManifest, Failed>
    ensures { IfOk result IsSlotManifest }
{
    match read_slot_pages(&pages_of(number)) {
        Some(release) => Ok(release),
        None => Err(Failed),
    }
}

// Takes in the release and opens its three gates.
fn link<B: Board>(board: &mut B, number: u8) -> Result<(), Failed> {
    let release = release(number)?;
    put_manifest(board, &release)?;
    mark_all(board)?;
    Ok(())
}

// A board with the empty release, to which release 1 was linked.
fn linked(alloc: Global) -> Result<MemoryBoard, Fail> {
    let mut board = formatted(alloc)?;
    link(&mut board, 1)?;
    Ok(board)
}

// The same board with the commit of release 1.
fn committed(alloc: Global) -> Result<MemoryBoard, Fail> {
    let mut board = linked(alloc)?;
    go(&mut board)?;
    Ok(board)
}

// What is read of a board: the numbers of the release that boots and of the one that comes in, if any.
#[derive(Clone, Copy, Debug, PartialEq, Eq)]
struct Found {
    current: u32,
    incoming: u32,
    pending: bool,
    image: bool,
}

fn what_is_read<B: Board>(board: &mut B) -> Option<Found> {
    let Ok(standing) = read_state(board) else {
        return None;
    };
    let incoming = match standing.incoming {
        Some(m) => m.manifest.release,
        None => 0,
    };
    Some(Found {
        current: standing.current.manifest.release,
        incoming,
        pending: standing.pending,
        image: standing.image,
    })
}

// Release 0 boots, and this one comes in.
fn comes(incoming: u32, image: bool) -> Option<Found> {
    Some(Found {
        current: 0,
        incoming,
        pending: false,
        image,
    })
}

// Release 1 boots, or is to be installed.
fn boots(pending: bool) -> Option<Found> {
    Some(Found {
        current: 1,
        incoming: 0,
        pending,
        image: false,
    })
}

// A step by its number.
fn step<B: Board>(board: &mut B, number: u8, m: &SlotManifest) -> Result<(), Failed>
    requires { IsSlotManifest m.now }
{
    match number {
        0 => match read_state(board) {
            Ok(_) => Ok(()),
            Err(_) => Err(Failed),
        },
        1 => unlink(board),
        2 => abandon(board),
        3 => put_manifest(board, m),
        4 => mark(board, Stage::Image),
        5 => go(board),
        _ => finish(board),
    }
}

// The board that a step is tried on: that of a commit for its end, and else one to which release 1 was linked.
fn board_for(alloc: Global, number: u8) -> Result<MemoryBoard, Fail> {
    if number == 6 {
        committed(alloc)
    } else {
        linked(alloc)
    }
}

// Of a step in which power is cut in this program: whether it fails, and what the next call reads.
fn cut_in(
    alloc: Global,
    number: u8,
    m: &SlotManifest,
    stop: u32,
    fill: u8,
) -> Result<(MemoryBoard, bool, Option<Found>), Fail>
    requires { IsSlotManifest m.now }
{
    let mut board = stopping(alloc, board_for(alloc, number)?, stop, fill)?;
    let fails = step(&mut board, number, m).is_err();
    let mut board = failing(alloc, board, 0)?;
    let found = what_is_read(&mut board);
    Ok((board, fails, found))
}

// What is read where power was cut in this program of a manifest that is taken in: Img, Rel, Sym, Man, five pages, and Man again.
fn half_taken_in(stop: u32, fill: u8) -> Option<Found> {
    let incoming = match (stop, fill) {
        (1..=3, _) => 1,
        (4, 0) => 1,
        (10, 0) => 2,
        _ => 0,
    };
    comes(incoming, stop == 1 && fill == 0)
}

#[test]
fn a_manifest_is_taken_in_wherever_power_was_cut(rt: HostRuntime) -> Result<(), Fail> {
    let second = release(2)?;
    for fill in 0..3u8 {
        for stop in 1..11u32 {
            let (mut board, fails, found) = cut_in(rt.alloc(), 3, &second, stop, fill)?;
            assert!(rt; fails, "{stop} {fill}");
            assert_eq!(rt; found, half_taken_in(stop, fill), "{stop} {fill}");
            assert!(rt; put_manifest(&mut board, &second).is_ok());
            assert_eq!(rt; what_is_read(&mut board), comes(2, false), "{stop} {fill}");
        }
    }
    Ok(())
}

#[test]
fn a_commit_stands_or_not_wherever_power_was_cut(rt: HostRuntime) -> Result<(), Fail> {
    let second = release(2)?;
    for fill in 0..3u8 {
        let (_, fails, found) = cut_in(rt.alloc(), 5, &second, 1, fill)?;
        assert!(rt; fails, "{fill}");
        let wanted = if fill == 0 {
            boots(true)
        } else {
            comes(1, true)
        };
        assert_eq!(rt; found, wanted, "{fill}");
    }
    Ok(())
}

#[test]
fn an_installation_ends_wherever_power_was_cut(rt: HostRuntime) -> Result<(), Fail> {
    let second = release(2)?;
    for fill in 0..3u8 {
        for stop in 1..7u32 {
            // Sel, Img, Rel, Sym, Man, and the Go gate.
            let (mut board, fails, found) = cut_in(rt.alloc(), 6, &second, stop, fill)?;
            assert!(rt; fails, "{stop} {fill}");
            let pending = stop < 6 || fill == 0;
            assert_eq!(rt; found, boots(pending), "{stop} {fill}");
            if pending {
                assert!(rt; finish(&mut board).is_ok());
            }
            assert_eq!(rt; what_is_read(&mut board), boots(false), "{stop} {fill}");
        }
    }
    Ok(())
}

// Of a step in which this call of the board fails: whether it fails, whether the state is read then, and whether the step goes well then.
fn failed_in(
    alloc: Global,
    number: u8,
    m: &SlotManifest,
    call: u32,
) -> Result<(bool, bool, bool), Fail>
    requires { IsSlotManifest m.now }
{
    let mut board = failing(alloc, board_for(alloc, number)?, call)?;
    let fails = step(&mut board, number, m).is_err();
    let mut board = failing(alloc, board, 0)?;
    let is_read = what_is_read(&mut board).is_some();
    let works = step(&mut board, number, m).is_ok();
    Ok((fails, is_read, works))
}

// The step, and how many calls of the board it takes.
type Calls = (u8, u32);

const CALLS: [Calls; 7] = [(0, 18), (1, 6), (2, 8), (3, 23), (4, 1), (5, 5), (6, 14)];

// The first of 29 calls whose fault a step does not meet as it should, and does not make up for, and that step.
fn first_wrong(alloc: Global, m: &SlotManifest, rows: &[Calls]) -> Result<Option<(u8, u32)>, Fail>
    requires { IsSlotManifest m.now }
{
    for (number, calls) in rows {
        for call in 1..30u32 {
            if failed_in(alloc, *number, m, call)? != (call <= *calls, true, true) {
                return Ok(Some((*number, call)));
            }
        }
    }
    Ok(None)
}

#[test]
fn a_call_that_fails_once_is_made_up_for(rt: HostRuntime) -> Result<(), Fail> {
    let second = release(2)?;
    assert_eq!(rt; first_wrong(rt.alloc(), &second, &CALLS)?, None);
    Ok(())
}
