//! A release of as many components as there can be, decided on and done.

use crate::commands::{Ask, Named, comes_to, command_of, does, release_command, version_command};
use crate::objects::{Object, bytes_of_object, edited};
use component_package::Bytes;
use http_bodies::{BodyFault, read_parts};
use release_judging::{ImageAnswer, release_image};
use release_keeper::MemoryKeeper;
use release_rows::{Command, Rows, RowsFault};
use release_rules::mote_body;
use release_updates::update_frames;
use std::alloc::{AllocError, Global};
use std::test::Fail;

/// The names of components 1 to 16. The code of each begins with its letter, and so does the name of its symbol.
const NAMES: [&str; 16] = [
    "a", "b", "c", "d", "e", "f", "g", "h", "i", "j", "k", "l", "m", "n", "o", "p",
];

/// All of them in another order, and their numbers.
const PARTS: Named = &[
    ("p", 1),
    ("a", 1),
    ("o", 1),
    ("b", 1),
    ("n", 1),
    ("c", 1),
    ("m", 1),
    ("d", 1),
    ("l", 1),
    ("e", 1),
    ("k", 1),
    ("f", 1),
    ("j", 1),
    ("g", 1),
    ("i", 1),
    ("h", 1),
];

const NUMBERS: [u8; 16] = [16, 1, 15, 2, 14, 3, 13, 4, 12, 5, 11, 6, 10, 7, 9, 8];

/// The image of these parts, and what the mote has.
const IMAGE: &[u8] =
    b"p\x95a\x95o\x95b\x95n\x95c\x95m\x95d\x95l\x95e\x95k\x95f\x95j\x95g\x95i\x95h\x95";

const MOTE: &str =
    "{\"acknowledged\":0,\"components\":[[\"p\",1],[\"a\",1],[\"o\",1],[\"b\",1],[\"n\",1],[\"c\",1],[\"m\",1],[\"d\",1],[\"l\",1],[\"e\",1],[\"k\",1],[\"f\",1],[\"j\",1],[\"g\",1],[\"i\",1],[\"h\",1]],\"mote\":\"m1\",\"release\":1}";

/// What is no sixteenth part beside components 1 to 15: one of them in the same version and in another, a component that isn't there, and a
/// version that isn't there.
const NO_PARTS: [(&str, u16); 5] = [("a", 1), ("o", 2), ("q", 1), ("p", 2), ("p", 0)];

/// The bodies that ask for components 1 to 16, and for one more.
const SIXTEEN: &[u8] =
    b"[[\"a\",1],[\"b\",1],[\"c\",1],[\"d\",1],[\"e\",1],[\"f\",1],[\"g\",1],[\"h\",1],[\"i\",1],[\"j\",1],[\"k\",1],[\"l\",1],[\"m\",1],[\"n\",1],[\"o\",1],[\"p\",1]]";

const SEVENTEEN: &[u8] =
    b"[[\"a\",1],[\"b\",1],[\"c\",1],[\"d\",1],[\"e\",1],[\"f\",1],[\"g\",1],[\"h\",1],[\"i\",1],[\"j\",1],[\"k\",1],[\"l\",1],[\"m\",1],[\"n\",1],[\"o\",1],[\"p\",1],[\"q\",1]]";

// The command that adds the component of this name: a radio whose code and whose symbol begin with its letter.
fn component(alloc: Global, name: &str) -> Result<Command, AllocError> {
    let letter = name.as_bytes();
    let object = edited(
        alloc,
        bytes_of_object(Object::Radio),
        330,
        &[(52, letter), (87, letter)],
    )?;
    version_command(alloc, name, Bytes::of(object))
}

// Adds components of these names. Whether each was accepted.
fn adds(alloc: Global, keeper: &mut MemoryKeeper, names: &[&str]) -> Result<bool, RowsFault> {
    for name in names {
        let command = component(alloc, name)?;
        if !does(alloc, keeper, name, &command)? {
            return Ok(false);
        }
    }
    Ok(true)
}

// Whether the mote's only release has these components in their first versions.
fn is_kept(keeper: &mut MemoryKeeper, numbers: &[u8]) -> Result<bool, RowsFault> {
    let Some(parts) = keeper.release("m1", 1)? else {
        return Ok(false);
    };
    if parts.as_slice().len() != numbers.len() {
        return Ok(false);
    }
    for (part, number) in parts.as_slice().iter().zip(numbers) {
        if part.component != *number as u16 || part.version != 1 {
            return Ok(false);
        }
    }
    Ok(keeper.release_count("m1")? == 1)
}

fn has_image(alloc: Global, keeper: &mut MemoryKeeper, wanted: &[u8]) -> Result<bool, RowsFault> {
    match release_image(alloc, keeper, "m1", 1)? {
        ImageAnswer::Image(bytes) => Ok(bytes.as_slice() == wanted),
        _ => Ok(false),
    }
}

// What follows the entries of these components in their first versions, with packages of 40 bytes.
fn behind_entries<'a>(bytes: &'a [u8], numbers: &[u8]) -> Option<&'a [u8]> {
    let mut rest = bytes;
    for number in numbers {
        if !rest.starts_with(&[*number, 0, 1, 0, 40, 0]) {
            return None;
        }
        rest = rest.get(38..)?;
    }
    Some(rest)
}

// What follows the only piece of each of these components.
fn behind_pieces<'a>(bytes: &'a [u8], numbers: &[u8]) -> Option<&'a [u8]> {
    let mut rest = bytes;
    let mut ordinal = 0u8;
    for number in numbers {
        if !rest.starts_with(&[
            2, 42, 0, ordinal, 0, b'F', b'C', b'P', b'1', *number, 0, 1, 0,
        ]) {
            return None;
        }
        rest = rest.get(45..)?;
        ordinal = ordinal.saturating_add(1);
    }
    Some(rest)
}

// Whether these are the frames that bring these components to a mote that has none.
fn is_update(bytes: &[u8], numbers: &[u8]) -> Option<bool> {
    if !bytes.starts_with(&[1, 0x65, 2, 1, 0, 0, 0, 16]) {
        return None;
    }
    let pieces = behind_entries(bytes.get(8..)?, numbers)?;
    let rest = behind_pieces(pieces, numbers)?;
    Some(rest == [3, 0, 0, 4, 0, 0, 8, 0, 0].as_slice())
}

fn has_update(alloc: Global, keeper: &mut MemoryKeeper, numbers: &[u8]) -> Result<bool, RowsFault> {
    match update_frames(alloc, keeper, "m1", 0)? {
        Some(bytes) => Ok(is_update(bytes.as_slice(), numbers) == Some(true)),
        None => Ok(false),
    }
}

fn has_text(alloc: Global, keeper: &mut MemoryKeeper, wanted: &str) -> Result<bool, RowsFault> {
    match mote_body(alloc, keeper, "m1")? {
        Some(text) => Ok(text.as_str() == wanted),
        None => Ok(false),
    }
}

// A function for each table, and for each command: a test that holds a keeper would carry all of them through its proof.

fn adds_all(alloc: Global, keeper: &mut MemoryKeeper) -> Result<bool, RowsFault> {
    adds(alloc, keeper, &NAMES)
}

fn makes_a_release(alloc: Global, keeper: &mut MemoryKeeper) -> Result<bool, RowsFault> {
    let release = command_of(alloc, Ask::Release("m1", PARTS))?;
    does(alloc, keeper, "r", &release)
}

fn is_kept_whole(keeper: &mut MemoryKeeper) -> Result<bool, RowsFault> {
    is_kept(keeper, &NUMBERS)
}

fn has_its_image(alloc: Global, keeper: &mut MemoryKeeper) -> Result<bool, RowsFault> {
    has_image(alloc, keeper, IMAGE)
}

fn has_its_update(alloc: Global, keeper: &mut MemoryKeeper) -> Result<bool, RowsFault> {
    has_update(alloc, keeper, &NUMBERS)
}

fn has_its_text(alloc: Global, keeper: &mut MemoryKeeper) -> Result<bool, RowsFault> {
    has_text(alloc, keeper, MOTE)
}

fn is_a_release(alloc: Global, keeper: &mut MemoryKeeper) -> Result<bool, RowsFault> {
    Ok(adds_all(alloc, keeper)? && makes_a_release(alloc, keeper)? && is_kept_whole(keeper)?)
}

fn is_served(alloc: Global, keeper: &mut MemoryKeeper) -> Result<bool, RowsFault> {
    Ok(
        has_its_image(alloc, keeper)?
            && has_its_update(alloc, keeper)?
            && has_its_text(alloc, keeper)?,
    )
}

#[test]
fn sixteen_components_are_a_release(rt: HostRuntime) -> Result<(), Fail> {
    let mut keeper = MemoryKeeper::new(rt.alloc(), Vec::new(rt.alloc()));
    assert!(rt; is_a_release(rt.alloc(), &mut keeper)?);
    assert!(rt; is_served(rt.alloc(), &mut keeper)?);
    Ok(())
}

// The command for a release of all of these but the last, and this part.
fn release_with(
    alloc: Global,
    names: &[&'static str],
    last: (&'static str, u16),
) -> Result<Command, AllocError> {
    let mut parts = Vec::new(alloc);
    for name in names {
        parts.push((*name, 1))?;
    }
    parts.pop();
    parts.push(last)?;
    release_command(alloc, "m1", &parts)
}

// The first of these that is a sixteenth part all the same.
fn first_part(
    alloc: Global,
    keeper: &mut MemoryKeeper,
    names: &[&'static str],
    rows: &[(&'static str, u16)],
) -> Result<Option<usize>, RowsFault> {
    for (i, last) in rows.iter().enumerate() {
        let command = release_with(alloc, names, *last)?;
        if !comes_to(alloc, keeper, &command, &[404])? {
            return Ok(Some(i));
        }
    }
    Ok(None)
}

fn none_is_a_part(alloc: Global, keeper: &mut MemoryKeeper) -> Result<bool, RowsFault> {
    Ok(first_part(alloc, keeper, &NAMES, &NO_PARTS)?.is_none())
}

fn has_no_release(keeper: &mut MemoryKeeper) -> Result<bool, RowsFault> {
    Ok(keeper.release_count("m1")? == 0)
}

fn takes_another(alloc: Global, keeper: &mut MemoryKeeper) -> Result<bool, RowsFault> {
    let release = release_with(alloc, &NAMES, ("p", 1))?;
    comes_to(alloc, keeper, &release, &[201])
}

fn others_are_refused(alloc: Global, keeper: &mut MemoryKeeper) -> Result<bool, RowsFault> {
    Ok(
        adds_all(alloc, keeper)?
            && none_is_a_part(alloc, keeper)?
            && has_no_release(keeper)?
            && takes_another(alloc, keeper)?,
    )
}

#[test]
fn others_are_none(rt: HostRuntime) -> Result<(), Fail> {
    let mut keeper = MemoryKeeper::new(rt.alloc(), Vec::new(rt.alloc()));
    assert!(rt; others_are_refused(rt.alloc(), &mut keeper)?);
    Ok(())
}

// More are no release that may be decided: the body that asks for them gives no parts.
#[test]
fn seventeen_are_not_asked_for(rt: HostRuntime) {
    assert_eq!(rt; read_parts(rt.alloc(), SIXTEEN).err(), None);
    assert_eq!(rt;
        read_parts(rt.alloc(), SEVENTEEN).err(),
        Some(BodyFault::Bad)
    );
}
