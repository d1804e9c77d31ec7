//! Updates over a keeper in memory: bytes, pieces, many releases and components, and calls that fail.

ghost use Rattle.std.specs.Prelude.{◌≡◌, true};
ghost use Rattle.release_rows.specs.Change.{IsPackageOf};

use component_package::{Bytes, read_package};
use release_judging::{Judged, judge_release, text_of};
use release_keeper::{Keeper, MemoryKeeper};
use release_rows::{Change, Effect, KeyRow, Part, RowsFault, SymbolRows};
use release_updates::update_frames;
use std::alloc::{AllocError, Global};
use std::test::Fail;

// A package with calls of another one's symbol, and one that exports it.
const SENDER: [u8; 102] = [
    0x46, 0x43, 0x50, 0x31, 0x01, 0x00, 0x01, 0x00, 0x12, 0x00, 0x08, 0x00, 0x02, 0x00, 0x02, 0x00,
    0x04, 0x00, 0x00, 0x00, 0x00, 0x00, 0x00, 0x00, 0x00, 0x00, 0x00, 0x00, 0x00, 0x00, 0x00, 0x00,
    0x80, 0xE0, 0x90, 0xE0, 0x0E, 0x94, 0x00, 0x00, 0x00, 0xC0, 0x08, 0x95, 0x01, 0x02, 0x03, 0x04,
    0x05, 0x00, 0x0A, 0x0B, 0x0C, 0x00, 0x61, 0x62, 0x63, 0x00, 0x10, 0x00, 0x00, 0x00, 0x00, 0x00,
    0x11, 0x00, 0x02, 0x00, 0x00, 0x00, 0x00, 0x00, 0x00, 0x06, 0x01, 0x00, 0x05, 0x00, 0x02, 0x00,
    0x00, 0x07, 0x01, 0x00, 0x05, 0x00, 0x04, 0x00, 0x00, 0x12, 0x12, 0x00, 0x00, 0x00, 0x08, 0x00,
    0x00, 0x03, 0x00, 0x00, 0x00, 0x00,
];

const RADIO: [u8; 40] = [
    0x46, 0x43, 0x50, 0x31, 0x02, 0x00, 0x01, 0x00, 0x02, 0x00, 0x00, 0x00, 0x00, 0x00, 0x01, 0x00,
    0x00, 0x00, 0x00, 0x00, 0x00, 0x00, 0x00, 0x00, 0x00, 0x00, 0x00, 0x00, 0x00, 0x00, 0x00, 0x00,
    0x08, 0x95, 0x12, 0x00, 0x00, 0x00, 0x00, 0x00,
];

// The update to the release of both, with the digests that `sha256sum` prints.
const FIRST_UPDATE: [u8; 245] = [
    0x01, 0x51, 0x00, 0x01, 0x00, 0x00, 0x00, 0x02, 0x01, 0x00, 0x01, 0x00, 0x66, 0x00, 0x1D, 0x72,
    0xFC, 0xF0, 0xEA, 0x13, 0x64, 0xC4, 0xB9, 0xD4, 0xF7, 0xAF, 0x02, 0x0E, 0xD3, 0x77, 0x33, 0x94,
    0xBD, 0x3D, 0xD7, 0x91, 0xB0, 0x00, 0x54, 0xD2, 0xCB, 0xF3, 0x4E, 0x94, 0x52, 0xB7, 0x02, 0x00,
    0x01, 0x00, 0x28, 0x00, 0x44, 0x66, 0xE9, 0xE8, 0x6A, 0xD5, 0x82, 0x4A, 0x3D, 0x59, 0xCA, 0xDF,
    0xAA, 0x10, 0xE4, 0xD4, 0x7F, 0x27, 0xDF, 0xA1, 0x22, 0xE5, 0x30, 0xF5, 0x03, 0xD3, 0x44, 0xDA,
    0x72, 0x71, 0x7E, 0x18, 0x02, 0x68, 0x00, 0x00, 0x00, 0x46, 0x43, 0x50, 0x31, 0x01, 0x00, 0x01,
    0x00, 0x12, 0x00, 0x08, 0x00, 0x02, 0x00, 0x02, 0x00, 0x04, 0x00, 0x00, 0x00, 0x00, 0x00, 0x00,
    0x00, 0x00, 0x00, 0x00, 0x00, 0x00, 0x00, 0x00, 0x00, 0x80, 0xE0, 0x90, 0xE0, 0x0E, 0x94, 0x00,
    0x00, 0x00, 0xC0, 0x08, 0x95, 0x01, 0x02, 0x03, 0x04, 0x05, 0x00, 0x0A, 0x0B, 0x0C, 0x00, 0x61,
    0x62, 0x63, 0x00, 0x10, 0x00, 0x00, 0x00, 0x00, 0x00, 0x11, 0x00, 0x02, 0x00, 0x00, 0x00, 0x00,
    0x00, 0x00, 0x06, 0x01, 0x00, 0x05, 0x00, 0x02, 0x00, 0x00, 0x07, 0x01, 0x00, 0x05, 0x00, 0x04,
    0x00, 0x00, 0x12, 0x12, 0x00, 0x00, 0x00, 0x08, 0x00, 0x00, 0x03, 0x00, 0x00, 0x00, 0x00, 0x02,
    0x2A, 0x00, 0x01, 0x00, 0x46, 0x43, 0x50, 0x31, 0x02, 0x00, 0x01, 0x00, 0x02, 0x00, 0x00, 0x00,
    0x00, 0x00, 0x01, 0x00, 0x00, 0x00, 0x00, 0x00, 0x00, 0x00, 0x00, 0x00, 0x00, 0x00, 0x00, 0x00,
    0x00, 0x00, 0x00, 0x00, 0x08, 0x95, 0x12, 0x00, 0x00, 0x00, 0x00, 0x00, 0x03, 0x00, 0x00, 0x04,
    0x00, 0x00, 0x08, 0x00, 0x00,
];

const END: [u8; 3] = [8, 0, 0];

fn push_number(into: &mut Vec<u8>, number: u16) -> Result<(), AllocError> {
    into.extend_from_slice(&number.to_le_bytes())
}

// A package of a component, with so many bytes in all: a code of zeros alone.
fn package(alloc: Global, component: u16, version: u16, length: u16) -> Result<Bytes, AllocError> {
    let mut bytes = Vec::from_array(alloc, [0x46, 0x43, 0x50, 0x31])?;
    let code = length.saturating_sub(32);
    for number in [component, version, code, 0, 0, 0, 0] {
        push_number(&mut bytes, number)?;
    }
    for _ in 0..14 {
        bytes.push(0)?;
    }
    for _ in 0..code {
        bytes.push(0)?;
    }
    Ok(Bytes::of(bytes))
}

fn copy(alloc: Global, bytes: &[u8]) -> Result<Bytes, AllocError> {
    let mut copy = Vec::new(alloc);
    copy.extend_from_slice(bytes)?;
    Ok(Bytes::of(copy))
}

fn key(alloc: Global) -> Result<KeyRow, AllocError> {
    Ok(KeyRow {
        key: text_of(alloc, "key")?,
        digest: [0; 32],
        body: text_of(alloc, "body")?,
    })
}

// The names of components 1 to 16.
const NAMES: [&str; 16] = [
    "a", "b", "c", "d", "e", "f", "g", "h", "i", "j", "k", "l", "m", "n", "o", "p",
];

fn name_at(place: usize) -> &'static str {
    NAMES.get(place).copied().unwrap_or("a")
}

fn name(component: u16) -> &'static str {
    name_at((component as usize).saturating_sub(1))
}

fn is_package_of(component: u16, version: u16, bytes: &[u8]) -> bool
    ensures { result ≡ true → IsPackageOf component version bytes.now }
{
    let Ok(view) = read_package(bytes) else {
        return false;
    };
    let header = view.header();
    if header.component != component {
        return false;
    }
    header.version == version
}

// Keeps a version, or says that the bytes are no package of it.
fn add_version(
    alloc: Global,
    keeper: &mut MemoryKeeper,
    component: u16,
    version: u16,
    bytes: Bytes,
) -> Result<bool, RowsFault> {
    if !is_package_of(component, version, bytes.as_slice()) {
        return Ok(false);
    }
    let change = Change {
        effect: Effect::Version {
            name: text_of(alloc, name(component))?,
            component,
            version,
            symbols: SymbolRows::of(Vec::new(alloc)),
            package: bytes,
        },
        key: key(alloc)?,
    };
    keeper.apply(&change)?;
    Ok(true)
}

// A component by its letter, in the version of this digit.
fn part(alloc: Global, letter: u8, digit: u8) -> Result<Part, AllocError> {
    let place = letter.saturating_sub(b'a') as usize;
    Ok(Part {
        component: text_of(alloc, name_at(place))?,
        version: digit.saturating_sub(b'0') as u16,
    })
}

// Components with their versions, as `a1b2`: a in version 1 and b in version 2.
fn named(alloc: Global, parts: &[u8]) -> Result<Vec<Part>, AllocError> {
    let mut named = Vec::new(alloc);
    for pair in parts.chunks_exact(2) {
        if let [letter, digit] = pair {
            named.push(part(alloc, *letter, *digit)?)?;
        }
    }
    Ok(named)
}

// Keeps a release as the rules have it, or says that they refuse it.
fn add_release(
    alloc: Global,
    keeper: &mut MemoryKeeper,
    mote: &str,
    parts: &[u8],
) -> Result<bool, RowsFault> {
    let parts = named(alloc, parts)?;
    if parts.is_empty() || 16 < parts.len() {
        return Ok(false);
    }
    match judge_release(alloc, keeper, mote, &parts)? {
        Judged::Does(effect) => {
            let key = key(alloc)?;
            keeper.apply(&Change { effect, key })?;
            Ok(true)
        }
        _ => Ok(false),
    }
}

// A frame, its payload, and what comes behind it.
fn frame(bytes: &[u8]) -> Option<(u8, &[u8], &[u8])> {
    let [kind, low, high, behind @ ..] = bytes else {
        return None;
    };
    let length = u16::from_le_bytes([*low, *high]) as usize;
    let (payload, rest) = behind.split_at_checked(length)?;
    Some((*kind, payload, rest))
}

// A piece: the component's ordinal, the page, and how many bytes of the package.
type Piece = (u8, u8, usize);

// No piece, in a row that has fewer than others.
const NONE: Piece = (0, 0, 0);

fn is_piece(kind: u8, payload: &[u8], piece: Piece) -> bool {
    let (ordinal, page, length) = piece;
    kind == 2 && payload.starts_with(&[ordinal, page]) && payload.len() - 2 == length
}

// Whether these are the frames of an update to a release of so many components, with these pieces.
fn is_update(bytes: &[u8], release: u16, count: u8, pieces: &[Piece]) -> bool {
    let [low, high] = release.to_le_bytes();
    let Some((kind, payload, mut rest)) = frame(bytes) else {
        return false;
    };
    if kind != 1 || !payload.starts_with(&[low, high, 0, 0, count]) {
        return false;
    }
    if payload.len() != 5 + 38 * count as usize {
        return false;
    }
    for piece in pieces {
        if *piece == NONE {
            continue;
        }
        let Some((kind, payload, behind)) = frame(rest) else {
            return false;
        };
        if !is_piece(kind, payload, *piece) {
            return false;
        }
        rest = behind;
    }
    rest == [3, 0, 0, 4, 0, 0, 8, 0, 0].as_slice()
}

// What is answered: the worked update, END alone, or nothing.
#[derive(Clone, Copy)]
enum Wanted {
    Worked,
    End,
    Nothing,
}

// Whether the answer is this one.
fn is_answer(answer: Option<Bytes>, wanted: Wanted) -> bool {
    match (answer, wanted) {
        (Some(bytes), Wanted::Worked) => bytes.as_slice() == FIRST_UPDATE.as_slice(),
        (Some(bytes), Wanted::End) => bytes.as_slice() == END.as_slice(),
        (None, Wanted::Nothing) => true,
        _ => false,
    }
}

fn sender(alloc: Global) -> Result<Bytes, AllocError> {
    copy(alloc, &SENDER)
}

fn radio(alloc: Global) -> Result<Bytes, AllocError> {
    copy(alloc, &RADIO)
}

// The worked release of both packages, for the mote m1.
fn add_both(alloc: Global, keeper: &mut MemoryKeeper) -> Result<bool, RowsFault> {
    Ok(
        add_version(alloc, keeper, 1, 1, sender(alloc)?)?
            && add_version(alloc, keeper, 2, 1, radio(alloc)?)?
            && add_release(alloc, keeper, "m1", b"a1b1")?,
    )
}

// A mote, the release that it has, and what it is answered.
type Asked = (&'static str, u32, Wanted);

// Where the answer is END alone, and where there is none.
const WORKED: [Asked; 5] = [
    ("m1", 1, Wanted::End),
    ("m1", 2, Wanted::Nothing),
    ("m1", 4294967295, Wanted::Nothing),
    ("m2", 0, Wanted::Nothing),
    ("", 1, Wanted::Nothing),
];

fn answers(alloc: Global, keeper: &mut MemoryKeeper, row: Asked) -> Result<bool, RowsFault> {
    let answer = update_frames(alloc, keeper, row.0, row.1)?;
    Ok(is_answer(answer, row.2))
}

// Whether the answers of these rows are theirs.
fn are_answers(
    alloc: Global,
    keeper: &mut MemoryKeeper,
    rows: &[Asked],
) -> Result<bool, RowsFault> {
    for row in rows {
        if !answers(alloc, keeper, *row)? {
            return Ok(false);
        }
    }
    Ok(true)
}

fn answers_first(alloc: Global, keeper: &mut MemoryKeeper) -> Result<bool, RowsFault> {
    answers(alloc, keeper, ("m1", 0, Wanted::Worked))
}

fn answers_worked(alloc: Global, keeper: &mut MemoryKeeper) -> Result<bool, RowsFault> {
    are_answers(alloc, keeper, &WORKED)
}

// Whether the worked release's update is the worked one, and the other answers are theirs.
fn is_worked(alloc: Global, keeper: &mut MemoryKeeper) -> Result<bool, RowsFault> {
    Ok(add_both(alloc, keeper)? && answers_first(alloc, keeper)? && answers_worked(alloc, keeper)?)
}

fn begins_worked(alloc: Global) -> Result<bool, RowsFault> {
    let mut keeper = MemoryKeeper::new(alloc, Vec::new(alloc));
    is_worked(alloc, &mut keeper)
}

#[test]
fn worked_update(rt: HostRuntime) -> Result<(), Fail> {
    assert!(rt; begins_worked(rt.alloc())?);
    Ok(())
}

// Each call fails once: the count of releases, both releases, and both packages of the last.
fn count_failing(alloc: Global, calls: u32) -> Result<u32, AllocError> {
    let mut failed: u32 = 0;
    for call in 1..calls {
        if fails(alloc, call)? {
            failed = failed.saturating_add(1);
        }
    }
    Ok(failed)
}

#[test]
fn failing_calls(rt: HostRuntime) -> Result<(), Fail> {
    let failed = count_failing(rt.alloc(), 100)?;
    assert_eq!(rt; failed, 5);
    Ok(())
}

// Both releases, of the same two packages.
fn add_second(alloc: Global, keeper: &mut MemoryKeeper) -> Result<bool, RowsFault> {
    Ok(add_both(alloc, keeper)? && add_release(alloc, keeper, "m1", b"b1a1")?)
}

// Whether the update from release 1 to release 2 fails, where what comes before it doesn't.
fn update_fails(alloc: Global, keeper: &mut MemoryKeeper) -> bool {
    let Ok(true) = add_second(alloc, keeper) else {
        return false;
    };
    matches!(
        update_frames(alloc, keeper, "m1", 1),
        Err(RowsFault::Failed)
    )
}

// Whether that update fails where this call does.
fn fails(alloc: Global, call: u32) -> Result<bool, AllocError> {
    let calls = Vec::from_array(alloc, [call])?;
    let mut keeper = MemoryKeeper::new(alloc, calls);
    Ok(update_fails(alloc, &mut keeper))
}

// The length of a package, and the bytes of its pieces.
type Size = (u16, [Piece; 3]);

const SIZES: [Size; 8] = [
    (32, [(0, 0, 32), NONE, NONE]),
    (34, [(0, 0, 34), NONE, NONE]),
    (254, [(0, 0, 254), NONE, NONE]),
    (256, [(0, 0, 256), NONE, NONE]),
    (258, [(0, 0, 256), (0, 1, 2), NONE]),
    (510, [(0, 0, 256), (0, 1, 254), NONE]),
    (512, [(0, 0, 256), (0, 1, 256), NONE]),
    (514, [(0, 0, 256), (0, 1, 256), (0, 2, 2)]),
];

// Keeps a version of a component, with so many bytes in all.
fn add_package(
    alloc: Global,
    keeper: &mut MemoryKeeper,
    row: (u16, u16, u16),
) -> Result<bool, RowsFault> {
    let (component, version, length) = row;
    let bytes = package(alloc, component, version, length)?;
    add_version(alloc, keeper, component, version, bytes)
}

// Whether the update from this release is to release `release` of so many components, with these pieces.
fn is_step(
    alloc: Global,
    keeper: &mut MemoryKeeper,
    have: u32,
    of: (u16, u8),
    pieces: &[Piece],
) -> Result<bool, RowsFault> {
    let (release, count) = of;
    match update_frames(alloc, keeper, "m1", have)? {
        Some(bytes) => Ok(is_update(bytes.as_slice(), release, count, pieces)),
        None => Ok(false),
    }
}

// Keeps a package of this length, and a release of it.
fn add_only(alloc: Global, keeper: &mut MemoryKeeper, length: u16) -> Result<bool, RowsFault> {
    Ok(add_package(alloc, keeper, (1, 1, length))? && add_release(alloc, keeper, "m1", b"a1")?)
}

// Whether the update to a package of this length has these pieces.
fn sends_pieces(
    alloc: Global,
    keeper: &mut MemoryKeeper,
    length: u16,
    pieces: &[Piece],
) -> Result<bool, RowsFault> {
    Ok(add_only(alloc, keeper, length)? && is_step(alloc, keeper, 0, (1, 1), pieces)?)
}

fn has_pieces(alloc: Global, length: u16, pieces: &[Piece]) -> Result<bool, RowsFault> {
    let mut keeper = MemoryKeeper::new(alloc, Vec::new(alloc));
    sends_pieces(alloc, &mut keeper, length, pieces)
}

fn have_pieces(alloc: Global, rows: &[Size]) -> Result<bool, RowsFault> {
    for (length, pieces) in rows {
        if !has_pieces(alloc, *length, pieces)? {
            return Ok(false);
        }
    }
    Ok(true)
}

#[test]
fn sizes(rt: HostRuntime) -> Result<(), Fail> {
    assert!(rt; have_pieces(rt.alloc(), &SIZES)?);
    Ok(())
}

// The pieces of the greatest package, which fills all its 39 pages.
fn full_pages(alloc: Global) -> Result<Vec<Piece>, AllocError> {
    let mut pieces = Vec::new(alloc);
    for page in 0..39u8 {
        pieces.push((0, page, 256))?;
    }
    Ok(pieces)
}

fn has_full_pages(alloc: Global) -> Result<bool, RowsFault> {
    let pieces = full_pages(alloc)?;
    has_pieces(alloc, 9984, &pieces)
}

#[test]
fn greatest_package(rt: HostRuntime) -> Result<(), Fail> {
    assert!(rt; has_full_pages(rt.alloc())?);
    Ok(())
}

// Releases of a mote: the parts, and the versions that are new with each.
const RELEASES: [&[u8]; 5] = [b"a1b1", b"b2a1", b"c1b1a1", b"a2", b"c1a1b2"];

// The release that a mote has, and the pieces that it is sent.
type Step = (u32, [Piece; 4]);

// From each release, and the pieces of the last: of component 3, then of 1 in version 1, then of 2 in version 2.
const STEPS: [Step; 5] = [
    (0, [(0, 0, 40), (1, 0, 32), (2, 0, 256), (2, 1, 2)]),
    (1, [(0, 0, 40), (2, 0, 256), (2, 1, 2), NONE]),
    (2, [(0, 0, 40), NONE, NONE, NONE]),
    (3, [(2, 0, 256), (2, 1, 2), NONE, NONE]),
    (4, [(0, 0, 40), (1, 0, 32), (2, 0, 256), (2, 1, 2)]),
];

const VERSIONS: [(u16, u16, u16); 5] = [
    (1, 1, 32),
    (2, 1, 34),
    (3, 1, 40),
    (1, 2, 36),
    (2, 2, 258),
];

fn add_versions(
    alloc: Global,
    keeper: &mut MemoryKeeper,
    versions: &[(u16, u16, u16)],
) -> Result<bool, RowsFault> {
    for row in versions {
        if !add_package(alloc, keeper, *row)? {
            return Ok(false);
        }
    }
    Ok(true)
}

fn add_releases(
    alloc: Global,
    keeper: &mut MemoryKeeper,
    releases: &[&[u8]],
) -> Result<bool, RowsFault> {
    for parts in releases {
        if !add_release(alloc, keeper, "m1", parts)? {
            return Ok(false);
        }
    }
    Ok(true)
}

// Whether the updates to this release of so many components have these pieces.
fn are_steps(
    alloc: Global,
    keeper: &mut MemoryKeeper,
    of: (u16, u8),
    rows: &[Step],
) -> Result<bool, RowsFault> {
    for (have, pieces) in rows {
        if !is_step(alloc, keeper, *have, of, pieces)? {
            return Ok(false);
        }
    }
    Ok(true)
}

// What is answered where there is nothing to send.
const OF_FIVE: [Asked; 3] = [
    ("m1", 5, Wanted::End),
    ("m1", 6, Wanted::Nothing),
    ("m2", 0, Wanted::Nothing),
];

fn add_five_versions(alloc: Global, keeper: &mut MemoryKeeper) -> Result<bool, RowsFault> {
    add_versions(alloc, keeper, &VERSIONS)
}

fn add_five_releases(alloc: Global, keeper: &mut MemoryKeeper) -> Result<bool, RowsFault> {
    add_releases(alloc, keeper, &RELEASES)
}

fn are_steps_to_five(alloc: Global, keeper: &mut MemoryKeeper) -> Result<bool, RowsFault> {
    are_steps(alloc, keeper, (5, 3), &STEPS)
}

fn are_answers_of_five(alloc: Global, keeper: &mut MemoryKeeper) -> Result<bool, RowsFault> {
    are_answers(alloc, keeper, &OF_FIVE)
}

fn add_five(alloc: Global, keeper: &mut MemoryKeeper) -> Result<bool, RowsFault> {
    Ok(add_five_versions(alloc, keeper)? && add_five_releases(alloc, keeper)?)
}

fn is_of_five(alloc: Global, keeper: &mut MemoryKeeper) -> Result<bool, RowsFault> {
    Ok(are_steps_to_five(alloc, keeper)? && are_answers_of_five(alloc, keeper)?)
}

fn is_from_each(alloc: Global, keeper: &mut MemoryKeeper) -> Result<bool, RowsFault> {
    Ok(add_five(alloc, keeper)? && is_of_five(alloc, keeper)?)
}

fn begins_from_each(alloc: Global) -> Result<bool, RowsFault> {
    let mut keeper = MemoryKeeper::new(alloc, Vec::new(alloc));
    is_from_each(alloc, &mut keeper)
}

#[test]
fn from_each_release(rt: HostRuntime) -> Result<(), Fail> {
    assert!(rt; begins_from_each(rt.alloc())?);
    Ok(())
}

// Components 1 to 16 in version 1, and with the last one in version 2.
const SIXTEEN: &[u8] = b"a1b1c1d1e1f1g1h1i1j1k1l1m1n1o1p1";

const SIXTEEN_NEXT: &[u8] = b"a1b1c1d1e1f1g1h1i1j1k1l1m1n1o1p2";

// Sixteen components, and the last one in a second version.
fn add_seventeen_versions(alloc: Global, keeper: &mut MemoryKeeper) -> Result<bool, RowsFault> {
    for component in 1..17u16 {
        if !add_package(alloc, keeper, (component, 1, 32))? {
            return Ok(false);
        }
    }
    add_package(alloc, keeper, (16, 2, 34))
}

// All pieces of the release of sixteen.
const SIXTEEN_PIECES: [Piece; 16] = [
    (0, 0, 32),
    (1, 0, 32),
    (2, 0, 32),
    (3, 0, 32),
    (4, 0, 32),
    (5, 0, 32),
    (6, 0, 32),
    (7, 0, 32),
    (8, 0, 32),
    (9, 0, 32),
    (10, 0, 32),
    (11, 0, 32),
    (12, 0, 32),
    (13, 0, 32),
    (14, 0, 32),
    (15, 0, 34),
];

// Whether the update from nothing has these pieces, and the one from the release before the last one alone.
fn is_of_sixteen(
    alloc: Global,
    keeper: &mut MemoryKeeper,
    pieces: &[Piece],
) -> Result<bool, RowsFault> {
    Ok(
        add_seventeen_versions(alloc, keeper)?
            && add_release(alloc, keeper, "m1", SIXTEEN)?
            && add_release(alloc, keeper, "m1", SIXTEEN_NEXT)?
            && is_step(alloc, keeper, 0, (2, 16), pieces)?
            && is_step(alloc, keeper, 1, (2, 16), &[(15, 0, 34)])?,
    )
}

fn begins_sixteen(alloc: Global) -> Result<bool, RowsFault> {
    let mut keeper = MemoryKeeper::new(alloc, Vec::new(alloc));
    is_of_sixteen(alloc, &mut keeper, &SIXTEEN_PIECES)
}

#[test]
fn sixteen_components(rt: HostRuntime) -> Result<(), Fail> {
    assert!(rt; begins_sixteen(rt.alloc())?);
    Ok(())
}

// A release of version 2 of one component, and one of version 1.
fn add_two_releases(alloc: Global, keeper: &mut MemoryKeeper) -> Result<bool, RowsFault> {
    Ok(add_release(alloc, keeper, "m1", b"a2")? && add_release(alloc, keeper, "m1", b"a1")?)
}

fn add_thousand_releases(alloc: Global, keeper: &mut MemoryKeeper) -> Result<bool, RowsFault> {
    for _ in 0..500u32 {
        if !add_two_releases(alloc, keeper)? {
            return Ok(false);
        }
    }
    Ok(true)
}

// A thousand releases, in turn of version 2 and version 1 of one component.
fn add_thousand(alloc: Global, keeper: &mut MemoryKeeper) -> Result<bool, RowsFault> {
    Ok(
        add_package(alloc, keeper, (1, 1, 32))?
            && add_package(alloc, keeper, (1, 2, 34))?
            && add_thousand_releases(alloc, keeper)?,
    )
}

const OF_THOUSAND: [Step; 6] = [
    (0, [(0, 0, 32), NONE, NONE, NONE]),
    (1, [(0, 0, 32), NONE, NONE, NONE]),
    (2, [NONE; 4]),
    (997, [(0, 0, 32), NONE, NONE, NONE]),
    (998, [NONE; 4]),
    (999, [(0, 0, 32), NONE, NONE, NONE]),
];

const BEHIND_THOUSAND: [Asked; 2] = [("m1", 1000, Wanted::End), ("m1", 1001, Wanted::Nothing)];

fn are_steps_to_thousand(alloc: Global, keeper: &mut MemoryKeeper) -> Result<bool, RowsFault> {
    are_steps(alloc, keeper, (1000, 1), &OF_THOUSAND)
}

fn are_answers_behind(alloc: Global, keeper: &mut MemoryKeeper) -> Result<bool, RowsFault> {
    are_answers(alloc, keeper, &BEHIND_THOUSAND)
}

fn is_of_thousand(alloc: Global, keeper: &mut MemoryKeeper) -> Result<bool, RowsFault> {
    Ok(
        add_thousand(alloc, keeper)?
            && are_steps_to_thousand(alloc, keeper)?
            && are_answers_behind(alloc, keeper)?,
    )
}

fn begins_thousand(alloc: Global) -> Result<bool, RowsFault> {
    let mut keeper = MemoryKeeper::new(alloc, Vec::new(alloc));
    is_of_thousand(alloc, &mut keeper)
}

#[test]
fn thousand_releases(rt: HostRuntime) -> Result<(), Fail> {
    assert!(rt; begins_thousand(rt.alloc())?);
    Ok(())
}
