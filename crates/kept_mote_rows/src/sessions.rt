//! What a mote answers, command by command and frame by frame, and what it then holds.

ghost use Rattle.std.specs.Prelude.{◌≤◌};

use crate::worked::{
    CALLEE, CALLER, IMAGE, Part, RETURN, command, ends, faultless, formatted, has_area,
    has_program, is_image, package, packages, pair, push_frame, push_manifest, push_piece,
    push_pieces, ran, session, update, updated,
};
use component_package::areas::{RELOCATION_PAGES, RELOCATIONS, SLOT_PAGES, SYMBOL_PAGES, SYMBOLS};
use component_package::frames::{BOOT, COMMIT, LINK, PIECE, STATUS};
use flash_pages::MemoryBoard;
use kept_definitions::areas::{INBOX, TABLES};
use std::alloc::{AllocError, Global};
use std::test::Fail;

// The power is back, and the command of this word is done. Also its status.
fn commanded(
    alloc: Global,
    board: MemoryBoard,
    word: &str,
    chunk: u16,
) -> Result<(MemoryBoard, u8), Fail> {
    let mut board = board.restart(alloc, &[], faultless(alloc, chunk))?;
    let status = command(alloc, &mut board, word)?;
    Ok((board, status))
}

// A command, its status and its lines.
type Row = (&'static str, u8, &'static [u8]);

const COMMANDS: [Row; 8] = [
    ("run", 6, b""),
    ("status", 6, b""),
    ("image", 6, b""),
    ("walk", 64, b""),
    ("format", 0, b"formatted\n"),
    ("run", 0, b"booted 0\n"),
    ("status", 0, b"status 0 0 0\n"),
    ("walk", 64, b""),
];

// Whether the row's command ends as it is to.
fn is_row(
    alloc: Global,
    board: MemoryBoard,
    row: Row,
    chunk: u16,
) -> Result<(MemoryBoard, bool), Fail> {
    let (word, wanted, lines) = row;
    let (board, status) = commanded(alloc, board, word, chunk)?;
    let is_row = status == wanted && board.sent_bytes() == lines;
    Ok((board, is_row))
}

// The first of these rows that is wrong, of commands on one new board; their number where they leave a program.
fn wrong_command(alloc: Global, rows: &[Row], chunk: u16) -> Result<Option<usize>, Fail> {
    let mut board = MemoryBoard::new(alloc, &[], faultless(alloc, chunk), 2600, 100)?;
    for (i, row) in rows.iter().enumerate() {
        let (next, is_row) = is_row(alloc, board, *row, chunk)?;
        board = next;
        if !is_row {
            return Ok(Some(i));
        }
    }
    Ok(if has_program(&board, &[]) {
        None
    } else {
        Some(rows.len())
    })
}

#[test]
fn commands_on_a_new_board(rt: HostRuntime) -> Result<(), Fail> {
    for chunk in [1, 1000] {
        assert_eq!(rt; wrong_command(rt.alloc(), &COMMANDS, chunk)?, None);
    }
    Ok(())
}

// Whether the command of this word ends with this status, and without a line, where the first call fails.
fn fails_at_once(alloc: Global, word: &str, wanted: u8) -> Result<bool, Fail> {
    let mut plan = faultless(alloc, 1);
    plan.fail.push(1)?;
    let mut board = MemoryBoard::new(alloc, &[], plan, 0, 100)?;
    let status = command(alloc, &mut board, word)?;
    Ok(status == wanted && board.sent_bytes().is_empty())
}

#[test]
fn a_board_whose_first_page_cannot_be_read(rt: HostRuntime) -> Result<(), Fail> {
    for (word, status) in [("run", 4), ("status", 4), ("image", 4), ("walk", 64)] {
        assert!(rt; fails_at_once(rt.alloc(), word, status)?, "{word}");
    }
    Ok(())
}

// The lines of a session that brings the pair, installs and boots it.
const UPDATED: &[u8] =
    b"booted 0\nmanifest 1 0\npiece 0 0\npiece 1 0\nlinked 1\ncommitted 1\nbooted 1\n";

fn has_pair(board: &MemoryBoard) -> bool {
    has_program(board, &IMAGE)
        && has_area(board, SYMBOLS, SYMBOL_PAGES, &[16, 0, 1, 0, 6, 0, 0, 0])
        && has_area(
            board,
            RELOCATIONS,
            RELOCATION_PAGES,
            &[0, 0, 0, 18, 6, 0, 0, 0],
        )
}

// A board that took the update of the pair, and whether it has all of it.
fn first_update(alloc: Global, chunk: u16) -> Result<(MemoryBoard, bool), Fail> {
    let input = updated(alloc)?;
    let board = formatted(alloc, 123_000)?;
    let (board, status) = session(alloc, board, input.as_slice(), chunk)?;
    let is_whole = status == 0 && board.sent_bytes() == UPDATED && has_pair(&board);
    Ok((board, is_whole))
}

// The board after the command that sends the image, and whether it sent that of the pair and programmed nothing.
fn sends_pair(alloc: Global, board: MemoryBoard, chunk: u16) -> Result<(MemoryBoard, bool), Fail> {
    let (board, status) = commanded(alloc, board, "image", chunk)?;
    let is_sent = status == 0 && is_image(board.sent_bytes(), &IMAGE) && board.program_count() == 0;
    Ok((board, is_sent))
}

// Whether the first update is whole, and its image is then sent.
fn is_first_update(alloc: Global, chunk: u16) -> Result<(bool, bool), Fail> {
    let (board, is_whole) = first_update(alloc, chunk)?;
    let (_board, is_sent) = sends_pair(alloc, board, chunk)?;
    Ok((is_whole, is_sent))
}

#[test]
fn the_first_update(rt: HostRuntime) -> Result<(), Fail> {
    for chunk in [1, 1000] {
        let (is_whole, is_sent) = is_first_update(rt.alloc(), chunk)?;
        assert!(rt; is_whole);
        assert!(rt; is_sent);
    }
    Ok(())
}

// A board on which a commit of the pair stands, and whether program flash is still empty.
fn committed(alloc: Global) -> Result<(MemoryBoard, bool), Fail> {
    let packages = pair(alloc)?;
    let input = update(alloc, 1, packages.as_slice())?;
    let board = formatted(alloc, 123_000)?;
    let (board, _) = session(alloc, board, input.as_slice(), 1000)?;
    let is_empty = has_program(&board, &[]);
    Ok((board, is_empty))
}

// The board after the command that sends its status, and whether that is of a commit.
fn tells_commit(alloc: Global, board: MemoryBoard) -> Result<(MemoryBoard, bool), Fail> {
    let (board, status) = commanded(alloc, board, "status", 1)?;
    let is_told = status == 0 && board.sent_bytes() == b"status 1 0 3\n".as_slice();
    Ok((board, is_told))
}

// Whether a commit stands, its status is told, and its image is sent while program flash stays empty.
fn stands(alloc: Global) -> Result<(bool, bool, bool), Fail> {
    let (board, was_empty) = committed(alloc)?;
    let (board, is_told) = tells_commit(alloc, board)?;
    let (board, is_sent) = sends_pair(alloc, board, 1)?;
    let is_sent_alone = is_sent && has_program(&board, &[]);
    Ok((was_empty, is_told, is_sent_alone))
}

#[test]
fn the_image_is_sent_while_a_commit_stands(rt: HostRuntime) -> Result<(), Fail> {
    let (was_empty, is_told, is_sent_alone) = stands(rt.alloc())?;
    assert!(rt; was_empty);
    assert!(rt; is_told);
    assert!(rt; is_sent_alone);
    Ok(())
}

// The code of component `k` of five, 1,000 bytes of its own: component 0 begins with a call of symbol 16, and component 4 is that symbol.
fn fifth(k: u16) -> Part<'static> {
    let part = Part {
        number: k.wrapping_add(1),
        code: &[],
        more: 1000,
        fill: (k % 8 + 1) as u8,
        ..RETURN
    };
    match k {
        0 => Part {
            code: &[0x0E, 0x94, 0, 0],
            more: 996,
            relocs: &[[0, 0, 0, 18, 16, 0, 0, 0]],
            ..part
        },
        4 => Part {
            exports: &[[16, 0, 0, 0, 0, 0]],
            ..part
        },
        _ => part,
    }
}

// The image of the five, where component 2 has so many bytes of code and the call is to this word.
fn image_of_five(alloc: Global, third: u16, word: [u8; 2]) -> Result<Vec<u8>, AllocError> {
    let mut image = Vec::from_array(alloc, [0x0E, 0x94])?;
    image.extend_from_slice(&word)?;
    for (fill, count) in [(1, 996), (2, 1000), (3, third), (4, 1000), (5, 1000)] {
        for _ in 0..count {
            image.push(fill)?;
        }
    }
    Ok(image)
}

// The second release of the five: another version of component 2, with 1,300 bytes of code.
fn grown() -> Part<'static> {
    Part {
        version: 2,
        more: 1300,
        ..fifth(2)
    }
}

// The update that installs the five, and BOOT.
fn install_five(alloc: Global) -> Result<Vec<u8>, AllocError> {
    let five = [fifth(0), fifth(1), fifth(2), fifth(3), fifth(4)];
    let first = packages(alloc, &five)?;
    let mut bytes = update(alloc, 1, first.as_slice())?;
    push_frame(&mut bytes, BOOT, &[])?;
    Ok(bytes)
}

// The manifest of the second release.
fn push_second(alloc: Global, into: &mut Vec<u8>) -> Result<(), AllocError> {
    let five = [fifth(0), fifth(1), grown(), fifth(3), fifth(4)];
    let second = packages(alloc, &five)?;
    push_manifest(alloc, into, 2, second.as_slice())?;
    Ok(())
}

// The pieces of the component that is new, and two of one that is held, the first with a byte where 256 are due.
fn push_new_and_held(alloc: Global, into: &mut Vec<u8>) -> Result<(), AllocError> {
    let new = package(alloc, &grown())?;
    let held = package(alloc, &fifth(0))?;
    push_pieces(alloc, into, 2, new.as_slice())?;
    push_frame(into, PIECE, &[0, 0, 1])?;
    push_piece(alloc, into, 0, 0, held.as_slice())?;
    Ok(())
}

fn push_link_and_commit(into: &mut Vec<u8>) -> Result<(), AllocError> {
    push_frame(into, LINK, &[])?;
    push_frame(into, COMMIT, &[])?;
    push_frame(into, BOOT, &[])?;
    Ok(())
}

fn replace_third(alloc: Global) -> Result<Vec<u8>, AllocError> {
    let mut bytes = Vec::new(alloc);
    push_second(alloc, &mut bytes)?;
    push_new_and_held(alloc, &mut bytes)?;
    push_link_and_commit(&mut bytes)?;
    Ok(bytes)
}

// A board on which the five were installed, and whether it says so and holds their image.
fn with_five(alloc: Global, chunk: u16) -> Result<(MemoryBoard, bool), Fail> {
    let image = image_of_five(alloc, 1000, [0xD0, 7])?;
    let install = install_five(alloc)?;
    let board = ran(alloc, install.as_slice(), chunk)?;
    let is_installed = ends(board.sent_bytes(), b"linked 1\ncommitted 1\nbooted 1\n")
        && has_program(&board, image.as_slice());
    Ok((board, is_installed))
}

// Whether one of them is then replaced.
fn is_replaced(alloc: Global, board: MemoryBoard, chunk: u16) -> Result<bool, Fail> {
    let image = image_of_five(alloc, 1300, [0x66, 8])?;
    let replace = replace_third(alloc)?;
    let (board, status) = session(alloc, board, replace.as_slice(), chunk)?;
    Ok(status == 0 && board.sent_bytes() == REPLACED && has_program(&board, image.as_slice()))
}

fn is_installed_and_replaced(alloc: Global, chunk: u16) -> Result<(bool, bool), Fail> {
    let (board, is_installed) = with_five(alloc, chunk)?;
    let is_replaced = is_replaced(alloc, board, chunk)?;
    Ok((is_installed, is_replaced))
}

#[test]
fn one_component_is_replaced(rt: HostRuntime) -> Result<(), Fail> {
    let third = package(rt.alloc(), &grown())?;
    assert_eq!(rt; third.len(), 1332);
    for chunk in [1, 1000] {
        let (is_installed, is_replaced) = is_installed_and_replaced(rt.alloc(), chunk)?;
        assert!(rt; is_installed);
        assert!(rt; is_replaced);
    }
    Ok(())
}

// The lines of a session that replaces one component of five.
const REPLACED: &[u8] =
    b"booted 1\nmanifest 2 4\npiece 2 0\npiece 2 1\npiece 2 2\npiece 2 3\npiece 2 4\n\
piece 2 5\nbad piece\nheld 0\nlinked 2\ncommitted 2\nbooted 2\n";

// MANIFEST, both pieces in this order, and LINK.
fn push_round(alloc: Global, into: &mut Vec<u8>, order: [u8; 2]) -> Result<(), AllocError> {
    push_manifest(alloc, into, 1, pair(alloc)?.as_slice())?;
    for k in order {
        let package: &[u8] = if k == 0 { CALLER } else { CALLEE };
        push_pieces(alloc, into, k, package)?;
    }
    push_frame(into, LINK, &[])?;
    Ok(())
}

// Such a round, and three of them.
fn once(alloc: Global) -> Result<Vec<u8>, AllocError> {
    let mut bytes = Vec::new(alloc);
    push_round(alloc, &mut bytes, [0, 1])?;
    Ok(bytes)
}

fn thrice(alloc: Global) -> Result<Vec<u8>, AllocError> {
    let mut bytes = once(alloc)?;
    push_round(alloc, &mut bytes, [1, 0])?;
    push_round(alloc, &mut bytes, [1, 0])?;
    Ok(bytes)
}

// Whether a session on all three has these lines, and how many programs there were.
fn programs_of_three(alloc: Global, chunk: u16) -> Result<(bool, u32), Fail> {
    let input = thrice(alloc)?;
    let board = ran(alloc, input.as_slice(), chunk)?;
    Ok((board.sent_bytes() == THRICE, board.program_count()))
}

fn programs_of_one(alloc: Global, chunk: u16) -> Result<u32, Fail> {
    let input = once(alloc)?;
    let board = ran(alloc, input.as_slice(), chunk)?;
    Ok(board.program_count())
}

#[test]
fn repeated_frames_program_nothing(rt: HostRuntime) -> Result<(), Fail> {
    for chunk in [1, 1000] {
        let (is_answered, programs) = programs_of_three(rt.alloc(), chunk)?;
        assert!(rt; is_answered);
        assert_eq!(rt; programs, programs_of_one(rt.alloc(), chunk)?);
    }
    Ok(())
}

// The lines of a session that brings and links the same release three times.
const THRICE: &[u8] = b"booted 0\nmanifest 1 0\npiece 0 0\npiece 1 0\nlinked 1\n\
manifest 1 0\npiece 1 0\npiece 0 0\nlinked 1\nmanifest 1 0\npiece 1 0\npiece 0 0\nlinked 1\n";

fn push_manifest_of_pair(alloc: Global, into: &mut Vec<u8>) -> Result<(), AllocError> {
    let packages = pair(alloc)?;
    push_manifest(alloc, into, 1, packages.as_slice())?;
    Ok(())
}

// Pieces before the manifest, and LINK before the last piece.
fn push_too_early(alloc: Global, into: &mut Vec<u8>) -> Result<(), AllocError> {
    push_pieces(alloc, into, 0, CALLER)?;
    push_manifest_of_pair(alloc, into)?;
    push_pieces(alloc, into, 0, CALLER)?;
    push_frame(into, LINK, &[])?;
    Ok(())
}

// The last piece; COMMIT before LINK, and behind it.
fn push_commits(alloc: Global, into: &mut Vec<u8>) -> Result<(), AllocError> {
    push_pieces(alloc, into, 1, CALLEE)?;
    push_frame(into, COMMIT, &[])?;
    push_frame(into, LINK, &[])?;
    push_frame(into, COMMIT, &[])?;
    Ok(())
}

// The manifest, COMMIT and STATUS where a commit stands, and the manifest of a release that has booted.
fn push_too_late(alloc: Global, into: &mut Vec<u8>) -> Result<(), AllocError> {
    push_manifest_of_pair(alloc, into)?;
    push_frame(into, COMMIT, &[])?;
    push_frame(into, STATUS, &[])?;
    push_frame(into, BOOT, &[])?;
    push_manifest_of_pair(alloc, into)?;
    Ok(())
}

fn out_of_order(alloc: Global) -> Result<Vec<u8>, AllocError> {
    let mut bytes = Vec::new(alloc);
    push_too_early(alloc, &mut bytes)?;
    push_commits(alloc, &mut bytes)?;
    push_too_late(alloc, &mut bytes)?;
    Ok(bytes)
}

// Whether a session on this input has these lines.
fn has_lines(alloc: Global, input: &[u8], chunk: u16, lines: &[u8]) -> Result<bool, Fail> {
    let board = ran(alloc, input, chunk)?;
    Ok(board.sent_bytes() == lines)
}

#[test]
fn frames_out_of_their_order(rt: HostRuntime) -> Result<(), Fail> {
    let input = out_of_order(rt.alloc())?;
    for chunk in [1, 1000] {
        assert!(rt; has_lines(rt.alloc(), input.as_slice(), chunk, OUT_OF_ORDER)?);
    }
    Ok(())
}

// The lines of a session whose frames come too early and too late.
const OUT_OF_ORDER: &[u8] =
    b"booted 0\nno manifest\nmanifest 1 0\npiece 0 0\nmissing 1\npiece 1 0\nnot linked\n\
linked 1\ncommitted 1\nreboot 1\ncommitted 1\nstatus 1 0 3\nbooted 1\nstale 1\n";

// Returns that are the sixteen components behind this number.
fn sixteen_behind(alloc: Global, before: u16) -> Result<Vec<Vec<u8>>, AllocError> {
    let mut packages = Vec::new(alloc);
    for i in 1..17u16 {
        let number = before.wrapping_add(i);
        packages.push(package(alloc, &Part { number, ..RETURN })?)?;
    }
    Ok(packages)
}

// The update of such sixteen.
fn update_of_sixteen(alloc: Global, release: u8, before: u16) -> Result<Vec<u8>, AllocError> {
    let packages = sixteen_behind(alloc, before)?;
    let bytes = update(alloc, release, packages.as_slice())?;
    Ok(bytes)
}

// The update of sixteen components, BOOT, and that of sixteen others.
fn sixteen_twice(alloc: Global) -> Result<Vec<u8>, AllocError> {
    let mut bytes = update_of_sixteen(alloc, 1, 0)?;
    push_frame(&mut bytes, BOOT, &[])?;
    let others = update_of_sixteen(alloc, 2, 16)?;
    bytes.extend_from_slice(others.as_slice())?;
    Ok(bytes)
}

// Whether a slot begins with what this component's package does.
fn is_in_slot(board: &MemoryBoard, first: u16, slot: u8, component: u8) -> bool
    requires { first ≤ 1410 }
{
    let page = board.ext_page(first + SLOT_PAGES * (slot % 16) as u16);
    page.starts_with(&[0x46, 0x43, 0x50, 0x31, component, 0])
}

// The first slot that is wrong: the inbox has the packages of the sixteen others, and the tables the runs of the sixteen that are installed.
fn wrong_slot(board: &MemoryBoard) -> Option<u8> {
    for slot in 0..16u8 {
        if !is_in_slot(board, INBOX, slot, slot + 17)
            || !is_in_slot(board, TABLES, slot, slot + 1)
        {
            return Some(slot);
        }
    }
    None
}

// Whether a session on the two updates has its lines, and the first slot that is wrong behind it.
fn replaced(alloc: Global, chunk: u16) -> Result<(bool, Option<u8>), Fail> {
    let input = sixteen_twice(alloc)?;
    let board = ran(alloc, input.as_slice(), chunk)?;
    Ok((board.sent_bytes() == ALL_REPLACED, wrong_slot(&board)))
}

#[test]
fn all_components_are_replaced(rt: HostRuntime) -> Result<(), Fail> {
    for chunk in [1, 1000] {
        let (is_answered, slot) = replaced(rt.alloc(), chunk)?;
        assert!(rt; is_answered);
        assert_eq!(rt; slot, None);
    }
    Ok(())
}

// The lines of a session that installs sixteen components and brings sixteen others.
const ALL_REPLACED: &[u8] =
    b"booted 0\nmanifest 1 0\npiece 0 0\npiece 1 0\npiece 2 0\npiece 3 0\npiece 4 0\n\
piece 5 0\npiece 6 0\npiece 7 0\npiece 8 0\npiece 9 0\npiece 10 0\npiece 11 0\npiece 12 0\npiece 13 0\n\
piece 14 0\npiece 15 0\nlinked 1\ncommitted 1\nbooted 1\nmanifest 2 0\npiece 0 0\npiece 1 0\npiece 2 0\n\
piece 3 0\npiece 4 0\npiece 5 0\npiece 6 0\npiece 7 0\npiece 8 0\npiece 9 0\npiece 10 0\npiece 11 0\n\
piece 12 0\npiece 13 0\npiece 14 0\npiece 15 0\nlinked 2\ncommitted 2\n";
