//! Sets that are linked or refused, with the areas and the image that LINK leaves.

use crate::worked::{
    IMAGE, Part, RETURN, ends, has_area, has_program, package, packages, pair, push_frame,
    push_release, ran, session,
};
use component_package::areas::{
    IMAGE_PAGES, RELOCATION_PAGES, RELOCATIONS, STAGED, SYMBOL_PAGES, SYMBOLS,
};
use component_package::frames::{BOOT, COMMIT, LINK};
use external_flash::{Gate, open_gate};
use flash_pages::{Board, MemoryBoard};
use kept_core::{Answer, serve_one};
use std::alloc::{AllocError, Global};
use std::test::Fail;

// A release of these packages, and LINK.
fn brought(alloc: Global, packages: &[Vec<u8>]) -> Result<Vec<u8>, AllocError> {
    let mut bytes = Vec::new(alloc);
    push_release(alloc, &mut bytes, 1, packages)?;
    push_frame(&mut bytes, LINK, &[])?;
    Ok(bytes)
}

// What is expected of a set: the line that LINK is answered with, behind the end of the line before it, and what it leaves.
#[derive(Clone, Copy)]
struct Row<'a> {
    parts: &'a [Part<'a>],
    line: &'a [u8],
    symbols: &'a [u8],
    relocations: &'a [u8],
    image: &'a [u8],
}

const LINKED: Row<'static> = Row {
    parts: &[],
    line: b"\nlinked 1\n",
    symbols: &[],
    relocations: &[],
    image: &[],
};

// A call of a symbol, and then the number of its component.
const CALL: Part<'static> = Part {
    number: 2,
    code: &[0x0E, 0x94, 0, 0],
    relocs: &[[0, 0, 0, 18, 20, 0, 0, 0]],
    ..RETURN
};

// The same call where the symbol may be missing.
const WEAK_CALL: Part<'static> = Part {
    relocs: &[[0, 0, 0x80, 18, 20, 0, 0, 0]],
    ..CALL
};

// Two calls, the first of a symbol that nothing exports.
const TWO_CALLS: Part<'static> = Part {
    code: &[0x0E, 0x94, 0, 0, 0x0E, 0x94, 0, 0],
    relocs: &[[0, 0, 0, 18, 21, 0, 0, 0], [4, 0, 0, 18, 20, 0, 0, 0]],
    ..CALL
};

// Returns that are symbol 20, weak or not, as the first and the third component.
const WEAK: Part<'static> = Part {
    exports: &[[20, 0, 0x80, 0, 0, 0]],
    ..RETURN
};

const STRONG: Part<'static> = Part {
    exports: &[[20, 0, 0, 0, 0, 0]],
    ..RETURN
};

const LAST_WEAK: Part<'static> = Part { number: 3, ..WEAK };

const LAST_STRONG: Part<'static> = Part {
    number: 3,
    ..STRONG
};

const SECOND: Part<'static> = Part {
    number: 2,
    ..RETURN
};

const LAST: Part<'static> = Part {
    number: 3,
    ..RETURN
};

// A jump to itself.
const JUMP: Part<'static> = Part {
    code: &[0xFF, 0xCF],
    ..SECOND
};

// A return that is symbol 16.
const SIXTEEN: Part<'static> = Part {
    exports: &[[16, 0, 0, 0, 0, 0]],
    ..SECOND
};

// Two bytes of data and a bss that fills the rest of RAM.
const FULL: Part<'static> = Part {
    init: &[7, 9],
    bss: 3582,
    ..RETURN
};

const TOO_FULL: Part<'static> = Part { bss: 3584, ..FULL };

const ROWS: [Row<'static>; 12] = [
    Row {
        parts: &[RETURN, JUMP],
        image: &[0x08, 0x95, 0xFF, 0xCF],
        ..LINKED
    },
    Row {
        parts: &[RETURN, SIXTEEN],
        symbols: &[16, 0, 1, 0, 2, 0, 0, 0],
        image: &[0x08, 0x95, 0x08, 0x95],
        ..LINKED
    },
    Row {
        parts: &[FULL],
        image: &[0x08, 0x95, 7, 9],
        ..LINKED
    },
    Row {
        parts: &[TOO_FULL],
        line: b"\nram 3586\n",
        ..LINKED
    },
    Row {
        parts: &[WEAK, CALL, LAST_STRONG],
        symbols: &[20, 0, 2, 0, 6, 0, 0, 0],
        relocations: &[2, 0, 0, 18, 6, 0, 0, 0],
        image: &[0x08, 0x95, 0x0E, 0x94, 3, 0, 0x08, 0x95],
        ..LINKED
    },
    Row {
        parts: &[WEAK, CALL, LAST_WEAK],
        symbols: &[20, 0, 0, 0, 0, 0, 0, 0],
        relocations: &[2, 0, 0, 18, 0, 0, 0, 0],
        image: &[0x08, 0x95, 0x0E, 0x94, 0, 0, 0x08, 0x95],
        ..LINKED
    },
    Row {
        parts: &[RETURN, WEAK_CALL, LAST],
        relocations: &[2, 0, 0, 18, 0, 0, 0, 0],
        image: &[0x08, 0x95, 0x0E, 0x94, 0, 0, 0x08, 0x95],
        ..LINKED
    },
    Row {
        parts: &[RETURN, CALL, LAST],
        line: b"\nundefined 1 0 20\n",
        ..LINKED
    },
    Row {
        parts: &[STRONG, CALL, LAST_STRONG],
        line: b"\nduplicate 20 0 2\n",
        ..LINKED
    },
    Row {
        parts: &[STRONG, TWO_CALLS, LAST_STRONG],
        line: b"\nduplicate 20 0 2\n",
        ..LINKED
    },
    Row {
        parts: &[STRONG, SECOND, LAST_STRONG],
        line: b"\nduplicate 20 0 2\n",
        ..LINKED
    },
    Row {
        parts: &[RETURN, TWO_CALLS, LAST],
        line: b"\nundefined 1 0 21\n",
        ..LINKED
    },
];

// Whether LINK left these areas and this staged image.
fn is_linked(board: &MemoryBoard, symbols: &[u8], relocations: &[u8], image: &[u8]) -> bool {
    has_area(board, SYMBOLS, SYMBOL_PAGES, symbols)
        && has_area(board, RELOCATIONS, RELOCATION_PAGES, relocations)
        && has_area(board, STAGED, IMAGE_PAGES, image)
}

// COMMIT and BOOT.
fn commit(alloc: Global) -> Result<Vec<u8>, AllocError> {
    let mut bytes = Vec::new(alloc);
    push_frame(&mut bytes, COMMIT, &[])?;
    push_frame(&mut bytes, BOOT, &[])?;
    Ok(bytes)
}

// Whether LINK was answered with this line, and the program is as it was.
fn is_brought(board: &MemoryBoard, line: &[u8]) -> bool {
    ends(board.sent_bytes(), line) && has_program(board, &[])
}

// Whether COMMIT and BOOT installed the row's image, where it has one.
fn is_installed(board: &MemoryBoard, row: &Row<'_>) -> bool {
    if row.image.is_empty() {
        return board.sent_bytes() == b"booted 0\nnot linked\nbooted 0\n".as_slice();
    }
    is_linked(board, row.symbols, row.relocations, row.image)
        && board.sent_bytes() == b"booted 0\ncommitted 1\nbooted 1\n".as_slice()
}

fn is_row_of(alloc: Global, row: &Row<'_>, input: &[u8], chunk: u16) -> Result<bool, Fail> {
    let commit = commit(alloc)?;
    let board = ran(alloc, input, chunk)?;
    let is_brought = is_brought(&board, row.line);
    let (board, status) = session(alloc, board, commit.as_slice(), chunk)?;
    Ok(is_brought && status == 0 && is_installed(&board, row) && has_program(&board, row.image))
}

fn is_row(alloc: Global, row: &Row<'_>) -> Result<bool, Fail> {
    let packages = packages(alloc, row.parts)?;
    let input = brought(alloc, packages.as_slice())?;
    Ok(
        is_row_of(alloc, row, input.as_slice(), 1)?
            && is_row_of(alloc, row, input.as_slice(), 1000)?,
    )
}

// The first of these rows that is wrong.
fn wrong_row(alloc: Global, rows: &[Row<'_>]) -> Result<Option<usize>, Fail> {
    for (i, row) in rows.iter().enumerate() {
        if !is_row(alloc, row)? {
            return Ok(Some(i));
        }
    }
    Ok(None)
}

#[test]
fn sets_are_linked_or_refused(rt: HostRuntime) -> Result<(), Fail> {
    assert_eq!(rt; wrong_row(rt.alloc(), &ROWS)?, None);
    Ok(())
}

// Whether LINK, in a session on this input, is answered with this line.
fn answers(alloc: Global, input: &[u8], chunk: u16, line: &[u8]) -> Result<bool, Fail> {
    let board = ran(alloc, input, chunk)?;
    Ok(ends(board.sent_bytes(), line))
}

// The same for inputs that come in single bytes and in long pieces.
fn answers_both(alloc: Global, input: &[u8], line: &[u8]) -> Result<bool, Fail> {
    Ok(answers(alloc, input, 1, line)? && answers(alloc, input, 1000, line)?)
}

// 256 bytes of code of which the last two begin a call.
fn code_with_call() -> [u8; 256] {
    let mut code = [0u8; 256];
    code[254] = 0x0E;
    code[255] = 0x94;
    code
}

// A component with this code and four zeros behind it, and a call at byte 0xFE of its own code and 0x1234.
fn with_call(alloc: Global, code: &[u8]) -> Result<Vec<u8>, AllocError> {
    let part = Part {
        code,
        more: 4,
        relocs: &[[0xFE, 0, 0, 18, 0, 0, 0x34, 0x12]],
        ..RETURN
    };
    let bytes = package(alloc, &part)?;
    Ok(bytes)
}

// The release of this component alone, and its image.
fn over_the_end(alloc: Global) -> Result<(Vec<u8>, Vec<u8>), AllocError> {
    let code = code_with_call();
    let package = with_call(alloc, &code)?;
    let input = brought(alloc, &[package])?;
    let mut image = code.to_vec(alloc)?;
    image.extend_from_slice(&[0x1A, 0x09, 0, 0])?;
    Ok((input, image))
}

fn is_over_the_end(alloc: Global, chunk: u16) -> Result<bool, Fail> {
    let (input, image) = over_the_end(alloc)?;
    let board = ran(alloc, input.as_slice(), chunk)?;
    let relocations = [0xFE, 0, 0, 18, 0x34, 0x12, 0, 0];
    Ok(
        ends(board.sent_bytes(), b"\npiece 0 1\nlinked 1\n")
            && is_linked(&board, &[], &relocations, image.as_slice()),
    )
}

#[test]
fn a_field_over_the_end_of_a_page(rt: HostRuntime) -> Result<(), Fail> {
    for chunk in [1, 1000] {
        assert!(rt; is_over_the_end(rt.alloc(), chunk)?);
    }
    Ok(())
}

// Sixteen components of 7,680 bytes of code, of which the last has so many more, and their image.
fn sixteen(alloc: Global, more: u16) -> Result<(Vec<Vec<u8>>, Vec<u8>), AllocError> {
    let mut packages = Vec::new(alloc);
    let mut image = Vec::new(alloc);
    for k in 0..16u16 {
        let fill = k as u8;
        let length = if k == 15 {
            more.saturating_add(7680)
        } else {
            7680
        };
        let part = Part {
            number: k,
            code: &[],
            more: length,
            fill,
            ..RETURN
        };
        packages.push(package(alloc, &part)?)?;
        for _ in 0..length {
            image.push(fill)?;
        }
    }
    Ok((packages, image))
}

/// The release of the greatest image, and that image.
pub(crate) fn greatest(alloc: Global) -> Result<(Vec<u8>, Vec<u8>), AllocError> {
    let (packages, image) = sixteen(alloc, 0)?;
    let input = brought(alloc, packages.as_slice())?;
    Ok((input, image))
}

fn has_greatest(alloc: Global, input: &[u8], image: &[u8], chunk: u16) -> Result<bool, Fail> {
    let board = ran(alloc, input, chunk)?;
    Ok(ends(board.sent_bytes(), b"\npiece 15 30\nlinked 1\n") && is_linked(&board, &[], &[], image))
}

fn is_greatest(alloc: Global) -> Result<bool, Fail> {
    let (input, image) = greatest(alloc)?;
    let is_full = image.len() == 122_880;
    Ok(
        is_full
            && has_greatest(alloc, input.as_slice(), image.as_slice(), 1)?
            && has_greatest(alloc, input.as_slice(), image.as_slice(), 1000)?,
    )
}

// Whether an image of one word more is refused.
fn is_too_great(alloc: Global) -> Result<bool, Fail> {
    let (packages, _image) = sixteen(alloc, 2)?;
    let input = brought(alloc, packages.as_slice())?;
    let is_refused = answers_both(alloc, input.as_slice(), b"\npiece 15 30\nflash 122882\n")?;
    Ok(is_refused)
}

#[test]
fn the_greatest_image(rt: HostRuntime) -> Result<(), Fail> {
    assert!(rt; is_greatest(rt.alloc())?);
    assert!(rt; is_too_great(rt.alloc())?);
    Ok(())
}

// A return with so many absolute exports from 16 on.
fn exporter(alloc: Global, count: u16) -> Result<Vec<u8>, AllocError> {
    let mut exports = Vec::new(alloc);
    for i in 0..count {
        let [low, high] = i.wrapping_add(16).to_le_bytes();
        exports.push([low, high, 3, 0, low, high])?;
    }
    let part = Part {
        exports: exports.as_slice(),
        ..RETURN
    };
    package(alloc, &part)
}

// So many records of the exporter's symbols.
fn records(alloc: Global, count: u16) -> Result<Vec<u8>, AllocError> {
    let mut bytes = Vec::new(alloc);
    for i in 0..count {
        let [low, high] = i.wrapping_add(16).to_le_bytes();
        bytes.extend_from_slice(&[low, high, 0, 3, low, high, 0, 0])?;
    }
    Ok(bytes)
}

// The release of a return with so many exports, and LINK.
fn exported(alloc: Global, count: u16) -> Result<Vec<u8>, AllocError> {
    let package = exporter(alloc, count)?;
    let input = brought(alloc, &[package])?;
    Ok(input)
}

fn has_most(alloc: Global, input: &[u8], records: &[u8], chunk: u16) -> Result<bool, Fail> {
    let board = ran(alloc, input, chunk)?;
    Ok(
        ends(board.sent_bytes(), b"\nlinked 1\n")
            && has_area(&board, SYMBOLS, SYMBOL_PAGES, records),
    )
}

fn are_most(alloc: Global) -> Result<bool, Fail> {
    let records = records(alloc, 1024)?;
    let input = exported(alloc, 1024)?;
    Ok(
        has_most(alloc, input.as_slice(), records.as_slice(), 1)?
            && has_most(alloc, input.as_slice(), records.as_slice(), 1000)?,
    )
}

// Whether one symbol more is refused.
fn are_too_many(alloc: Global) -> Result<bool, Fail> {
    let input = exported(alloc, 1025)?;
    let is_refused = answers_both(alloc, input.as_slice(), b"\nsymbols 1025\n")?;
    Ok(is_refused)
}

#[test]
fn the_most_symbols(rt: HostRuntime) -> Result<(), Fail> {
    assert!(rt; are_most(rt.alloc())?);
    assert!(rt; are_too_many(rt.alloc())?);
    Ok(())
}

// A relocation of each of 1,024 bytes, by the number 0.
fn relocations(alloc: Global) -> Result<Vec<[u8; 8]>, AllocError> {
    let mut relocs = Vec::new(alloc);
    for i in 0..1024u16 {
        let [low, high] = i.to_le_bytes();
        relocs.push([low, high, 0, 26, 10, 0, 0, 0])?;
    }
    Ok(relocs)
}

// A component with so many zeros of code and these relocations.
fn zeros(
    alloc: Global,
    number: u16,
    count: u16,
    relocs: &[[u8; 8]],
) -> Result<Vec<u8>, AllocError> {
    let part = Part {
        number,
        code: &[],
        more: count,
        relocs,
        ..RETURN
    };
    let bytes = package(alloc, &part)?;
    Ok(bytes)
}

// Eight components with 1,024 zeros of code and a relocation for each of them; and a ninth with one more, if so.
fn relocated(alloc: Global, ninth: bool) -> Result<Vec<Vec<u8>>, AllocError> {
    let relocs = relocations(alloc)?;
    let mut packages = Vec::new(alloc);
    for number in 1..9u16 {
        packages.push(zeros(alloc, number, 1024, relocs.as_slice())?)?;
    }
    if ninth {
        packages.push(zeros(alloc, 9, 2, &[[0, 0, 0, 26, 10, 0, 0, 0]])?)?;
    }
    Ok(packages)
}

// Whether the components are linked or refused, with this line.
fn answers_relocated(alloc: Global, ninth: bool, line: &[u8]) -> Result<bool, Fail> {
    let packages = relocated(alloc, ninth)?;
    let input = brought(alloc, packages.as_slice())?;
    let is_answered = answers_both(alloc, input.as_slice(), line)?;
    Ok(is_answered)
}

#[test]
fn the_most_relocations(rt: HostRuntime) -> Result<(), Fail> {
    assert!(rt; answers_relocated(rt.alloc(), false, b"\nlinked 1\n")?);
    assert!(rt; answers_relocated(rt.alloc(), true, b"\nrelocations 8193\n")?);
    Ok(())
}

// A page of these eight bytes and 0xFF.
fn page_with(bytes: &[u8; 8]) -> [u8; 256] {
    let mut page = [0xFF; 256];
    for i in 0..8usize {
        page[i] = bytes[i];
    }
    page
}

// Programs the first page of an area with these eight bytes and 0xFF, and its other pages with 0xFF.
fn put_area(board: &mut MemoryBoard, first: u16, count: u16, bytes: &[u8; 8]) {
    for i in 0..count {
        let page = if i == 0 {
            page_with(bytes)
        } else {
            page_with(&[0xFF; 8])
        };
        if first < 1024 && i < 1024 {
            let _programmed = board.ext_program(first + i, &page);
        }
    }
}

// The pair without LINK.
fn pair_alone(alloc: Global) -> Result<Vec<u8>, AllocError> {
    let packages = pair(alloc)?;
    let mut input = Vec::new(alloc);
    push_release(alloc, &mut input, 1, packages.as_slice())?;
    Ok(input)
}

fn put_symbols(board: &mut MemoryBoard, symbols: &[u8; 8]) {
    put_area(board, SYMBOLS, SYMBOL_PAGES, symbols);
    let _opened = open_gate(board, Gate::Sym);
}

fn put_relocations(board: &mut MemoryBoard, relocations: &[u8; 8]) {
    put_area(board, RELOCATIONS, RELOCATION_PAGES, relocations);
    let _opened = open_gate(board, Gate::Rel);
}

// A board on which the pair came in, with this in the symbol area and the gate open that vouches for it; and with this in the relocation area
// and its gate open, if given.
fn foreign(
    alloc: Global,
    symbols: &[u8; 8],
    relocations: Option<[u8; 8]>,
) -> Result<MemoryBoard, Fail> {
    let input = pair_alone(alloc)?;
    let mut board = ran(alloc, input.as_slice(), 1)?;
    put_symbols(&mut board, symbols);
    if let Some(bytes) = relocations {
        put_relocations(&mut board, &bytes);
    }
    Ok(board)
}

fn links_with(board: &mut MemoryBoard, wanted: Answer) -> bool {
    serve_one(board, LINK, &[]) == Ok(wanted)
}

// The image of the pair where the first word of the call is this.
fn image_with(word: u8) -> [u8; 8] {
    let mut image = IMAGE;
    image[2] = word;
    image
}

const EIGHT: [u8; 8] = [16, 0, 1, 0, 8, 0, 0, 0];

const TEN: [u8; 8] = [0, 0, 0, 18, 10, 0, 0, 0];

// Whether LINK leaves this relocation area and an image with this word, where the symbol is at byte 8 and the relocations are given, or not.
fn is_foreign(
    alloc: Global,
    given: Option<[u8; 8]>,
    list: &[u8; 8],
    word: u8,
) -> Result<bool, Fail> {
    let mut board = foreign(alloc, &EIGHT, given)?;
    let links = links_with(&mut board, Answer::Linked(1));
    Ok(links && is_linked(&board, &EIGHT, list, &image_with(word)))
}

// Whether LINK finds a symbol undefined that an empty area doesn't have.
fn is_undefined(alloc: Global) -> Result<bool, Fail> {
    let mut board = foreign(alloc, &[0xFF; 8], None)?;
    Ok(links_with(&mut board, Answer::Undefined(0, 0, 16)))
}

// LINK with the areas that stand in flash, which aren't the set's: it makes only those whose gates are closed, and from those that stand.
#[test]
fn areas_that_are_not_the_sets(rt: HostRuntime) -> Result<(), Fail> {
    assert!(rt; is_foreign(rt.alloc(), None, &[0, 0, 0, 18, 8, 0, 0, 0], 4)?);
    assert!(rt; is_foreign(rt.alloc(), Some(TEN), &TEN, 5)?);
    assert!(rt; is_undefined(rt.alloc())?);
    Ok(())
}
