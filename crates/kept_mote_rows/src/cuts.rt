//! Power cuts: what the page of a program holds in which power is cut, and what the next sessions do.

use crate::links::greatest;
use crate::worked::{
    Consequence, after, faultless, formatted, has_program, pair, push_frame, ran, run, session,
    update, updated,
};
use component_package::frames::{COMMIT, STATUS};
use flash_pages::{BoardPlan, MemoryBoard};
use std::alloc::{AllocError, Global};
use std::test::Fail;

// What is left in the page: that of a gate that opens, of one that closes, and of neither.
fn spoilt(fill: u8) -> [u8; 256] {
    match fill {
        0 => [0xA5; 256],
        1 => [0; 256],
        _ => {
            let mut page = [0; 256];
            for at in 0..256usize {
                page[at] = (255 - at) as u8;
            }
            page
        }
    }
}

// A cut in this program.
fn cut_at(alloc: Global, program: u32, fill: u8) -> BoardPlan {
    let mut plan = faultless(alloc, 1000);
    plan.stop_at = program;
    plan.spoil = spoilt(fill);
    plan
}

// Whether the power is cut in this program of so many: the first 60, each tenth, and the last 40.
fn is_tried(program: u32, programs: u32) -> bool {
    program <= 60 || program % 10 == 0 || programs.saturating_sub(program) < 40
}

// The pages of the three areas that LINK makes are 768 of the programs, so that more than 165 are tried.
const LEAST_TRIED: u32 = 165;

// What a cut leaves that comes before the release is committed, or behind that.
fn left_by_cut(is_committed: bool) -> Consequence {
    Consequence {
        status: 4,
        next: 0,
        release: Some(is_committed as u8),
        is_made_up: true,
    }
}

// The number of the program that commits a release, the gate, and how many there are with the installation.
fn gate_and_programs(alloc: Global) -> Result<(u32, u32), Fail> {
    let packages = pair(alloc)?;
    let commit = update(alloc, 1, packages.as_slice())?;
    let gate = ran(alloc, commit.as_slice(), 1000)?.program_count();
    let input = updated(alloc)?;
    let programs = ran(alloc, input.as_slice(), 1000)?.program_count();
    Ok((gate, programs))
}

// The first program of an update and BOOT behind whose cut with this fill something is wrong; the last one where too few were tried. A cut
// before the gate that commits the release leaves the old one, one behind it the new one, and one in it what the fill says.
fn wrong_program(alloc: Global, fill: u8) -> Result<Option<u32>, Fail> {
    let (gate, programs) = gate_and_programs(alloc)?;
    let input = updated(alloc)?;
    let mut tried = 0u32;
    for program in 1..programs.saturating_add(1) {
        if is_tried(program, programs) {
            let is_committed = gate < program || gate == program && fill == 0;
            let cut = cut_at(alloc, program, fill);
            if after(alloc, &[], input.as_slice(), cut)? != left_by_cut(is_committed) {
                return Ok(Some(program));
            }
            tried = tried.saturating_add(1);
        }
    }
    Ok(if LEAST_TRIED < tried {
        None
    } else {
        Some(programs)
    })
}

#[test]
fn an_update_is_whole_where_a_cut_left_an_open_gate(rt: HostRuntime) -> Result<(), Fail> {
    assert_eq!(rt; wrong_program(rt.alloc(), 0)?, None);
    Ok(())
}

#[test]
fn an_update_is_whole_where_a_cut_left_zeros(rt: HostRuntime) -> Result<(), Fail> {
    assert_eq!(rt; wrong_program(rt.alloc(), 1)?, None);
    Ok(())
}

#[test]
fn an_update_is_whole_where_a_cut_left_neither(rt: HostRuntime) -> Result<(), Fail> {
    assert_eq!(rt; wrong_program(rt.alloc(), 2)?, None);
    Ok(())
}

// A board on which power was cut in the gate that commits the pair, and whether the cut ended the session and left the gate with this fill.
fn cut_in_gate(alloc: Global, fill: u8) -> Result<(MemoryBoard, bool), Fail> {
    let packages = pair(alloc)?;
    let input = update(alloc, 1, packages.as_slice())?;
    let gate = ran(alloc, input.as_slice(), 1000)?.program_count();
    let board = formatted(alloc, 200)?;
    let (board, status) = run(alloc, board, input.as_slice(), cut_at(alloc, gate, fill))?;
    // The gate of side B, which release 1 is on.
    let is_cut = status == 4 && *board.ext_page(6) == spoilt(fill);
    Ok((board, is_cut))
}

// STATUS and COMMIT.
fn status_and_commit(alloc: Global) -> Result<Vec<u8>, AllocError> {
    let mut bytes = Vec::new(alloc);
    push_frame(&mut bytes, STATUS, &[])?;
    push_frame(&mut bytes, COMMIT, &[])?;
    Ok(bytes)
}

// Whether the session after such a cut ends well, with these lines.
fn goes_on(alloc: Global, fill: u8, chunk: u16, lines: &[u8]) -> Result<bool, Fail> {
    let (board, is_cut) = cut_in_gate(alloc, fill)?;
    let next = status_and_commit(alloc)?;
    let (board, status) = session(alloc, board, next.as_slice(), chunk)?;
    Ok(is_cut && status == 0 && board.sent_bytes() == lines)
}

#[test]
fn power_is_cut_in_the_gate_of_a_commit(rt: HostRuntime) -> Result<(), Fail> {
    let committed = b"booted 1\nstatus 1 0 0\nno manifest\n".as_slice();
    let linked = b"booted 0\nstatus 0 1 2\ncommitted 1\n".as_slice();
    for chunk in [1, 1000] {
        assert!(rt; goes_on(rt.alloc(), 0, chunk, committed)?);
        assert!(rt; goes_on(rt.alloc(), 1, chunk, linked)?);
    }
    Ok(())
}

// A board that has the greatest release committed, and its image.
fn greatest_committed(alloc: Global) -> Result<(MemoryBoard, Vec<u8>), Fail> {
    let (mut input, image) = greatest(alloc)?;
    push_frame(&mut input, COMMIT, &[])?;
    let board = ran(alloc, input.as_slice(), 1000)?;
    Ok((board, image))
}

// A session without input that is cut in the program of page 37, and whether it left that page spoilt.
fn cut_in_page(alloc: Global, board: MemoryBoard) -> Result<(MemoryBoard, bool), Fail> {
    let (board, status) = run(alloc, board, &[], cut_at(alloc, 38, 2))?;
    let is_cut = status == 4 && *board.prog_page(37) == spoilt(2);
    Ok((board, is_cut))
}

// The next one: behind the programs of pages 37 to 479, and of a page for the run of each of 16 components, comes that of the page that says
// which side is chosen.
fn cut_in_choice(alloc: Global, board: MemoryBoard) -> Result<(MemoryBoard, bool), Fail> {
    let (board, status) = run(alloc, board, &[], cut_at(alloc, 460, 2))?;
    let is_cut = status == 4 && *board.ext_page(7) == spoilt(2);
    Ok((board, is_cut))
}

fn boots(alloc: Global, board: MemoryBoard, image: &[u8]) -> Result<bool, Fail> {
    let (board, status) = session(alloc, board, &[], 1)?;
    Ok(status == 0 && board.sent_bytes() == b"booted 1\n".as_slice() && has_program(&board, image))
}

// Whether the first cut, the second one and the session after them did what they are to do.
fn boots_after_cuts(alloc: Global) -> Result<(bool, bool, bool), Fail> {
    let (board, image) = greatest_committed(alloc)?;
    let (board, is_first) = cut_in_page(alloc, board)?;
    let (board, is_second) = cut_in_choice(alloc, board)?;
    let is_booted = boots(alloc, board, image.as_slice())?;
    Ok((is_first, is_second, is_booted))
}

#[test]
fn power_is_cut_twice_in_an_installation(rt: HostRuntime) -> Result<(), Fail> {
    let (is_first, is_second, is_booted) = boots_after_cuts(rt.alloc())?;
    assert!(rt; is_first);
    assert!(rt; is_second);
    assert!(rt; is_booted);
    Ok(())
}
