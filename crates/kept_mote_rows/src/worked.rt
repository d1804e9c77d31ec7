//! Worked components, the frames that bring them, and boards that take the frames.

use component_package::Text;
use component_package::frames::{BOOT, COMMIT, LINK, MANIFEST, PIECE};
use flash_pages::{Board, BoardPlan, MemoryBoard};
use kept_core::mote_main;
use sha2::{Digest, Sha256};
use std::alloc::{AllocError, Global};
use std::test::Fail;

/// A component: the first bytes of its code and how often which byte follows them, its data, its bss, and its exports and
/// relocations as they are spelled.
#[derive(Clone, Copy)]
pub(crate) struct Part<'a> {
    pub(crate) number: u16,
    pub(crate) version: u16,
    pub(crate) code: &'a [u8],
    pub(crate) more: u16,
    pub(crate) fill: u8,
    pub(crate) init: &'a [u8],
    pub(crate) bss: u16,
    pub(crate) exports: &'a [[u8; 6]],
    pub(crate) relocs: &'a [[u8; 8]],
}

/// A return.
pub(crate) const RETURN: Part<'static> = Part {
    number: 1,
    version: 1,
    code: &[0x08, 0x95],
    more: 0,
    fill: 0,
    init: &[],
    bss: 0,
    exports: &[],
    relocs: &[],
};

/// A jump to itself behind a call of symbol 16: component 1, version 1.
pub(crate) const CALLER: &[u8] =
    b"FCP1\x01\0\x01\0\x06\0\0\0\0\0\0\0\x01\0\0\0\0\0\0\0\0\0\0\0\0\0\0\0\x0E\x94\0\0\xFF\xCF\0\0\0\x12\x10\0\0\0";

/// A return that is symbol 16: component 2, version 1.
pub(crate) const CALLEE: &[u8] =
    b"FCP1\x02\0\x01\0\x02\0\0\0\0\0\x01\0\0\0\0\0\0\0\0\0\0\0\0\0\0\0\0\0\x08\x95\x10\0\0\0\0\0";

/// The image of `CALLER` and `CALLEE`.
pub(crate) const IMAGE: [u8; 8] = [0x0E, 0x94, 3, 0, 0xFF, 0xCF, 0x08, 0x95];

fn push_number(into: &mut Vec<u8>, n: u16) -> Result<(), AllocError> {
    into.extend_from_slice(&n.to_le_bytes())?;
    Ok(())
}

// A length that two bytes hold; worked rows have no other.
fn short(length: usize) -> u16 {
    if length < 65536 { length as u16 } else { 0 }
}

/// The package of a component.
pub(crate) fn package(alloc: Global, part: &Part<'_>) -> Result<Vec<u8>, AllocError> {
    let mut bytes = Vec::from_array(alloc, [0x46, 0x43, 0x50, 0x31])?;
    let code = short(part.code.len()).wrapping_add(part.more);
    let init = short(part.init.len());
    let exports = short(part.exports.len());
    let relocs = short(part.relocs.len());
    for n in [
        part.number,
        part.version,
        code,
        init,
        part.bss,
        exports,
        relocs,
    ] {
        push_number(&mut bytes, n)?;
    }
    for _ in 0..14 {
        bytes.push(0)?;
    }
    bytes.extend_from_slice(part.code)?;
    for _ in 0..part.more {
        bytes.push(part.fill)?;
    }
    bytes.extend_from_slice(part.init)?;
    for export in part.exports {
        bytes.extend_from_slice(export)?;
    }
    for reloc in part.relocs {
        bytes.extend_from_slice(reloc)?;
    }
    Ok(bytes)
}

/// The packages of components.
pub(crate) fn packages(alloc: Global, parts: &[Part<'_>]) -> Result<Vec<Vec<u8>>, AllocError> {
    let mut packages = Vec::new(alloc);
    for part in parts {
        packages.push(package(alloc, part)?)?;
    }
    Ok(packages)
}

/// The packages of the caller and the callee.
pub(crate) fn pair(alloc: Global) -> Result<Vec<Vec<u8>>, AllocError> {
    let mut packages = Vec::new(alloc);
    packages.push(CALLER.to_vec(alloc)?)?;
    packages.push(CALLEE.to_vec(alloc)?)?;
    Ok(packages)
}

/// A frame.
pub(crate) fn push_frame(into: &mut Vec<u8>, kind: u8, payload: &[u8]) -> Result<(), AllocError> {
    into.push(kind)?;
    push_number(into, short(payload.len()))?;
    into.extend_from_slice(payload)?;
    Ok(())
}

/// The frame MANIFEST of a release.
pub(crate) fn push_manifest(
    alloc: Global,
    into: &mut Vec<u8>,
    release: u8,
    packages: &[Vec<u8>],
) -> Result<(), AllocError> {
    let mut bytes = vec![in alloc; release, 0, 0, 0, (packages.len() % 256) as u8]?;
    for package in packages {
        if let Some(identity) = package.as_slice().get(4..8) {
            bytes.extend_from_slice(identity)?;
        }
        push_number(&mut bytes, short(package.len()))?;
        bytes.extend_from_slice(&Sha256::digest(package.as_slice()))?;
    }
    push_frame(into, MANIFEST, bytes.as_slice())?;
    Ok(())
}

/// The frame PIECE of a page of the package of component `k`, if the package has this page.
pub(crate) fn push_piece(
    alloc: Global,
    into: &mut Vec<u8>,
    k: u8,
    page: u8,
    package: &[u8],
) -> Result<(), AllocError> {
    let start = 256 * page as usize;
    let end = (start + 256).min(package.len());
    if start < end {
        if let Some(piece) = package.get(start..end) {
            let mut bytes = vec![in alloc; k, page]?;
            bytes.extend_from_slice(piece)?;
            push_frame(into, PIECE, bytes.as_slice())?;
        }
    }
    Ok(())
}

/// The frames PIECE of the package of component `k`, by rising page.
pub(crate) fn push_pieces(
    alloc: Global,
    into: &mut Vec<u8>,
    k: u8,
    package: &[u8],
) -> Result<(), AllocError> {
    for page in 0..39u8 {
        push_piece(alloc, into, k, page, package)?;
    }
    Ok(())
}

/// The frames that bring a release: its manifest and all pieces.
pub(crate) fn push_release(
    alloc: Global,
    into: &mut Vec<u8>,
    release: u8,
    packages: &[Vec<u8>],
) -> Result<(), AllocError> {
    push_manifest(alloc, into, release, packages)?;
    let mut k = 0u8;
    for package in packages {
        push_pieces(alloc, into, k, package.as_slice())?;
        k = k.wrapping_add(1);
    }
    Ok(())
}

/// An update: a release, LINK and COMMIT.
pub(crate) fn update(
    alloc: Global,
    release: u8,
    packages: &[Vec<u8>],
) -> Result<Vec<u8>, AllocError> {
    let mut bytes = Vec::new(alloc);
    push_release(alloc, &mut bytes, release, packages)?;
    push_frame(&mut bytes, LINK, &[])?;
    push_frame(&mut bytes, COMMIT, &[])?;
    Ok(bytes)
}

/// What is to go wrong on a board: nothing. It gives its input in pieces of so many bytes, or of one.
pub(crate) fn faultless(alloc: Global, chunk: u16) -> BoardPlan {
    BoardPlan {
        fail: Vec::new(alloc),
        stop_at: 0,
        spoil: [0; 256],
        chunk: if chunk == 0 { 1 } else { chunk },
    }
}

/// Does the command of one word, and gives its status.
pub(crate) fn command<B: Board>(
    alloc: Global,
    board: &mut B,
    word: &str,
) -> Result<u8, AllocError> {
    let mut words = Vec::new(alloc);
    words.push(Text::of(String::from_str(alloc, word)?))?;
    Ok(mote_main(words.as_slice(), board))
}

/// A board with so much room that was formatted.
pub(crate) fn formatted(alloc: Global, sent: u32) -> Result<MemoryBoard, Fail> {
    let mut board = MemoryBoard::new(alloc, &[], faultless(alloc, 1), 2600, sent)?;
    command(alloc, &mut board, "format")?;
    Ok(board)
}

/// The power is back, and a session takes this input, with this plan. Also its status.
pub(crate) fn run(
    alloc: Global,
    board: MemoryBoard,
    input: &[u8],
    plan: BoardPlan,
) -> Result<(MemoryBoard, u8), Fail> {
    let mut board = board.restart(alloc, input, plan)?;
    let status = command(alloc, &mut board, "run")?;
    Ok((board, status))
}

/// The same where nothing goes wrong.
pub(crate) fn session(
    alloc: Global,
    board: MemoryBoard,
    input: &[u8],
    chunk: u16,
) -> Result<(MemoryBoard, u8), Fail> {
    let plan = faultless(alloc, chunk);
    let (board, status) = run(alloc, board, input, plan)?;
    Ok((board, status))
}

/// A formatted board that took this input in one session.
pub(crate) fn ran(alloc: Global, input: &[u8], chunk: u16) -> Result<MemoryBoard, Fail> {
    let (board, _) = session(alloc, formatted(alloc, 10_000)?, input, chunk)?;
    Ok(board)
}

/// What came after a session in which something went wrong: how it ended, how the next one ended that had no input, which release that
/// one started, and whether the update then ended with its release started.
#[derive(Clone, Copy, PartialEq, Eq)]
pub(crate) struct Consequence {
    pub(crate) status: u8,
    pub(crate) next: u8,
    pub(crate) release: Option<u8>,
    pub(crate) is_made_up: bool,
}

// The release that a session with no input started, if its image is what program flash holds.
fn started(board: &MemoryBoard) -> Option<u8> {
    if board.sent_bytes() == b"booted 0\n".as_slice() && has_program(board, &[]) {
        return Some(0);
    }
    if board.sent_bytes() == b"booted 1\n".as_slice() && has_program(board, &IMAGE) {
        return Some(1);
    }
    None
}

/// On a formatted board that took `before`, a session on `input` with this plan, and what comes after it.
pub(crate) fn after(
    alloc: Global,
    before: &[u8],
    input: &[u8],
    plan: BoardPlan,
) -> Result<Consequence, Fail> {
    let (board, _) = session(alloc, formatted(alloc, 200)?, before, 1000)?;
    let (board, status) = run(alloc, board, input, plan)?;
    let (board, next) = session(alloc, board, &[], 1)?;
    let release = started(&board);
    let again = updated(alloc)?;
    let (board, _) = session(alloc, board, again.as_slice(), 1000)?;
    let is_made_up = ends(board.sent_bytes(), b"\nbooted 1\n") && has_program(&board, &IMAGE);
    Ok(Consequence {
        status,
        next,
        release,
        is_made_up,
    })
}

/// The update of the pair, and BOOT.
pub(crate) fn updated(alloc: Global) -> Result<Vec<u8>, AllocError> {
    let packages = pair(alloc)?;
    let mut bytes = update(alloc, 1, packages.as_slice())?;
    push_frame(&mut bytes, BOOT, &[])?;
    Ok(bytes)
}

/// Whether the bytes end with these.
pub(crate) fn ends(bytes: &[u8], with: &[u8]) -> bool {
    match bytes.len().checked_sub(with.len()) {
        Some(start) => bytes.get(start..) == Some(with),
        None => false,
    }
}

// The byte at this place; 0xFF behind the end.
fn byte_or_blank(bytes: &[u8], at: usize) -> u8 {
    bytes.get(at).copied().unwrap_or(0xFF)
}

/// Whether the bytes are these with 0xFF behind them, up to a length of 122,880.
pub(crate) fn is_image(sent: &[u8], bytes: &[u8]) -> bool {
    if sent.len() != 122_880 {
        return false;
    }
    for at in 0..122_880usize {
        if byte_or_blank(sent, at) != byte_or_blank(bytes, at) {
            return false;
        }
    }
    true
}

fn blank_page() -> [u8; 256] {
    [0xFF; 256]
}

fn write_over(page: &mut [u8], bytes: &[u8]) {
    for (place, byte) in page.iter_mut().zip(bytes) {
        *place = *byte;
    }
}

// The page of these bytes from this place on, with 0xFF behind them.
fn page_of(bytes: &[u8], start: usize) -> [u8; 256] {
    let mut page = blank_page();
    if let Some(part) = bytes.get(start..) {
        write_over(&mut page, part);
    }
    page
}

/// Whether program flash holds these bytes with 0xFF behind them.
pub(crate) fn has_program(board: &MemoryBoard, bytes: &[u8]) -> bool {
    for page in 0..480u16 {
        if *board.prog_page(page) != page_of(bytes, 256 * page as usize) {
            return false;
        }
    }
    true
}

/// Whether the pages of external flash from `first` on, so many, hold these bytes with 0xFF behind them.
pub(crate) fn has_area(board: &MemoryBoard, first: u16, count: u16, bytes: &[u8]) -> bool {
    if 1024 < first || 1024 < count {
        return false;
    }
    for page in 0..count {
        if *board.ext_page(first + page) != page_of(bytes, 256 * page as usize) {
            return false;
        }
    }
    true
}
