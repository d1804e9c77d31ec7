//! The keeper in memory on its own: what look-ups find in it after each change, where each call fails once and is made again.
//!
//! The changes come from commands that are decided over a second keeper, which never fails.

ghost use Rattle.std.specs.Prelude.{IfOk, IfSome};
ghost use Rattle.release_rows.specs.Change.{IsSound};

use crate::commands::{Ask, command_of, decided};
use crate::objects::Object;
use component_package::{Bytes, Text};
use release_keeper::{Keeper, MemoryKeeper};
use release_rows::{Change, KeyRow, Numbered, NumberedParts, Rows, RowsFault};
use release_rules::Decision;
use std::alloc::Global;
use std::test::Fail;

/// A call that reads, and what it is to find.
#[derive(Clone, Copy)]
enum Look {
    /// A key's row: the byte of its digest, and its body.
    Key(&'static str, Option<(u8, &'static str)>),
    Symbol(&'static [u8], Option<u16>),
    Symbols(u32),
    Component(&'static str, Option<u16>),
    Name(u16, Option<&'static str>),
    Components(u32),
    Versions(u16, u32),
    Package(u16, u16, Option<&'static [u8]>),
    Releases(&'static str, u32),
    /// A release: its components by their numbers, with their versions.
    Release(&'static str, u32, Option<&'static [(u16, u16)]>),
    Acknowledged(&'static str, u32),
}

/// A command under a key with a digest of this byte, and what look-ups find once it is done.
struct Stage {
    key: &'static str,
    digest: u8,
    ask: Ask,
    looks: &'static [Look],
}

/// What they find in tables without a row.
const EMPTY: [Look; 19] = [
    Look::Key("a", None),
    Look::Key("", None),
    Look::Symbol(b"send", None),
    Look::Symbol(b"", None),
    Look::Symbols(0),
    Look::Component("radio", None),
    Look::Component("", None),
    Look::Name(0, None),
    Look::Name(1, None),
    Look::Name(65_535, None),
    Look::Components(0),
    Look::Versions(0, 0),
    Look::Versions(1, 0),
    Look::Package(0, 0, None),
    Look::Package(1, 1, None),
    Look::Releases("m1", 0),
    Look::Release("m1", 0, None),
    Look::Release("m1", 1, None),
    Look::Acknowledged("m1", 0),
];

/// Packages of the radio in two versions, with 16 as its symbol's number, and of the sender.
const RADIO_1: &[u8] =
    b"FCP1\x01\0\x01\0\x02\0\0\0\0\0\x01\0\0\0\0\0\0\0\0\0\0\0\0\0\0\0\0\0\x08\x95\x10\0\0\0\0\0";

const RADIO_2: &[u8] =
    b"FCP1\x01\0\x02\0\x02\0\0\0\0\0\x01\0\0\0\0\0\0\0\0\0\0\0\0\0\0\0\0\0\x08\x95\x10\0\0\0\0\0";

const SENDER_1: &[u8] =
    b"FCP1\x02\0\x01\0\x12\0\x08\0\x02\0\x02\0\x04\0\0\0\0\0\0\0\0\0\0\0\0\0\0\0\x80\xE0\x90\xE0\x0E\x94\0\0\0\xC0\x08\x95\x01\x02\x03\x04\x05\0\x0A\x0B\x0C\0abc\0\x11\0\0\0\0\0\x12\0\x02\0\0\0\0\0\0\x06\x01\0\x05\0\x02\0\0\x07\x01\0\x05\0\x04\0\0\x12\x10\0\0\0\x08\0\0\x03\0\0\0\0";

/// Bodies that answer them.
const ANSWER_A: &str =
    "{\"component\":1,\"length\":40,\"sha256\":\"b37cd2395988ed7e859e9751bdbc8618a9fa93753fa315c129d94f24b42a62eb\",\"version\":1}";

const ANSWER_B: &str =
    "{\"component\":2,\"length\":102,\"sha256\":\"32ab4a53903cc9283fae943cac30f9ab4ca1a8deff51f4617d017ea67b071c6b\",\"version\":1}";

const ANSWER_C: &str =
    "{\"component\":1,\"length\":40,\"sha256\":\"94d9df4cebda868389be4715e2127fc474137038c1dae0c1043c827b68d84060\",\"version\":2}";

const ANSWER_D: &str = "{\"mote\":\"m1\",\"release\":1}";

const ANSWER_E: &str = "{\"acknowledged\":1,\"mote\":\"m1\"}";

const ANSWER_F: &str = "{\"mote\":\"m2\",\"release\":1}";

const ANSWER_G: &str = "{\"mote\":\"m1\",\"release\":2}";

const ANSWER_H: &str = "{\"acknowledged\":1,\"mote\":\"m2\"}";

const ANSWER_I: &str = "{\"acknowledged\":2,\"mote\":\"m1\"}";

/// Versions, releases and acknowledgements: the first of each, and later ones.
const STAGES: [Stage; 9] = [
    Stage {
        key: "a",
        digest: 1,
        ask: Ask::Version("radio", Object::Radio),
        looks: &[
            Look::Key("a", Some((1, ANSWER_A))),
            Look::Key("b", None),
            Look::Key("", None),
            Look::Key("aa", None),
            Look::Symbol(b"radio_put", Some(16)),
            Look::Symbol(b"radio_pu", None),
            Look::Symbol(b"radio_put2", None),
            Look::Symbol(b"radio", None),
            Look::Symbols(1),
            Look::Component("radio", Some(1)),
            Look::Component("radi", None),
            Look::Component("radio_put", None),
            Look::Name(0, None),
            Look::Name(1, Some("radio")),
            Look::Name(2, None),
            Look::Components(1),
            Look::Versions(0, 0),
            Look::Versions(1, 1),
            Look::Versions(2, 0),
            Look::Package(1, 1, Some(RADIO_1)),
            Look::Package(1, 0, None),
            Look::Package(1, 2, None),
            Look::Package(0, 1, None),
            Look::Package(2, 1, None),
        ],
    },
    Stage {
        key: "b",
        digest: 2,
        ask: Ask::Version("sender", Object::Sender),
        looks: &[
            Look::Key("a", Some((1, ANSWER_A))),
            Look::Key("b", Some((2, ANSWER_B))),
            Look::Symbol(b"radio_put", Some(16)),
            Look::Symbol(b"send", Some(17)),
            Look::Symbol(b"count", Some(18)),
            Look::Symbol(b"__do_copy_data", None),
            Look::Symbols(3),
            Look::Component("radio", Some(1)),
            Look::Component("sender", Some(2)),
            Look::Name(1, Some("radio")),
            Look::Name(2, Some("sender")),
            Look::Name(16, None),
            Look::Components(2),
            Look::Versions(1, 1),
            Look::Versions(2, 1),
            Look::Package(1, 1, Some(RADIO_1)),
            Look::Package(2, 1, Some(SENDER_1)),
            Look::Package(1, 2, None),
        ],
    },
    // A later version brings no component and, here, no symbol.
    Stage {
        key: "c",
        digest: 3,
        ask: Ask::Version("radio", Object::Radio),
        looks: &[
            Look::Key("c", Some((3, ANSWER_C))),
            Look::Symbol(b"radio_put", Some(16)),
            Look::Symbols(3),
            Look::Component("radio", Some(1)),
            Look::Components(2),
            Look::Versions(1, 2),
            Look::Versions(2, 1),
            Look::Package(1, 1, Some(RADIO_1)),
            Look::Package(1, 2, Some(RADIO_2)),
            Look::Package(1, 3, None),
            Look::Package(2, 1, Some(SENDER_1)),
            Look::Package(2, 2, None),
            Look::Releases("m1", 0),
        ],
    },
    Stage {
        key: "d",
        digest: 4,
        ask: Ask::Release("m1", &[("sender", 1), ("radio", 2)]),
        looks: &[
            Look::Key("d", Some((4, ANSWER_D))),
            Look::Releases("m1", 1),
            Look::Releases("m", 0),
            Look::Releases("m11", 0),
            Look::Releases("", 0),
            Look::Release("m1", 1, Some(&[(2, 1), (1, 2)])),
            Look::Release("m1", 0, None),
            Look::Release("m1", 2, None),
            Look::Release("m1", 4_294_967_295, None),
            Look::Release("m", 1, None),
            Look::Release("m11", 1, None),
            Look::Release("", 1, None),
            Look::Acknowledged("m1", 0),
            Look::Symbols(3),
            Look::Components(2),
            Look::Versions(1, 2),
        ],
    },
    Stage {
        key: "e",
        digest: 5,
        ask: Ask::Acknowledge("m1", 1),
        looks: &[
            Look::Key("e", Some((5, ANSWER_E))),
            Look::Acknowledged("m1", 1),
            Look::Acknowledged("m", 0),
            Look::Acknowledged("m11", 0),
            Look::Acknowledged("", 0),
            Look::Releases("m1", 1),
        ],
    },
    // Releases are counted for each mote.
    Stage {
        key: "f",
        digest: 6,
        ask: Ask::Release("m2", &[("radio", 1)]),
        looks: &[
            Look::Key("f", Some((6, ANSWER_F))),
            Look::Releases("m1", 1),
            Look::Releases("m2", 1),
            Look::Release("m1", 1, Some(&[(2, 1), (1, 2)])),
            Look::Release("m2", 1, Some(&[(1, 1)])),
            Look::Release("m2", 2, None),
            Look::Acknowledged("m1", 1),
            Look::Acknowledged("m2", 0),
        ],
    },
    Stage {
        key: "g",
        digest: 7,
        ask: Ask::Release("m1", &[("radio", 1), ("sender", 1)]),
        looks: &[
            Look::Key("g", Some((7, ANSWER_G))),
            Look::Releases("m1", 2),
            Look::Releases("m2", 1),
            Look::Release("m1", 1, Some(&[(2, 1), (1, 2)])),
            Look::Release("m1", 2, Some(&[(1, 1), (2, 1)])),
            Look::Release("m2", 2, None),
            Look::Acknowledged("m1", 1),
        ],
    },
    Stage {
        key: "h",
        digest: 8,
        ask: Ask::Acknowledge("m2", 1),
        looks: &[
            Look::Key("h", Some((8, ANSWER_H))),
            Look::Acknowledged("m1", 1),
            Look::Acknowledged("m2", 1),
        ],
    },
    // A mote's later word stands in the place of its former one; all that was kept stays.
    Stage {
        key: "i",
        digest: 9,
        ask: Ask::Acknowledge("m1", 2),
        looks: &[
            Look::Key("a", Some((1, ANSWER_A))),
            Look::Key("b", Some((2, ANSWER_B))),
            Look::Key("c", Some((3, ANSWER_C))),
            Look::Key("d", Some((4, ANSWER_D))),
            Look::Key("e", Some((5, ANSWER_E))),
            Look::Key("f", Some((6, ANSWER_F))),
            Look::Key("g", Some((7, ANSWER_G))),
            Look::Key("h", Some((8, ANSWER_H))),
            Look::Key("i", Some((9, ANSWER_I))),
            Look::Key("j", None),
            Look::Symbol(b"count", Some(18)),
            Look::Symbols(3),
            Look::Component("sender", Some(2)),
            Look::Name(2, Some("sender")),
            Look::Components(2),
            Look::Versions(1, 2),
            Look::Package(1, 2, Some(RADIO_2)),
            Look::Releases("m1", 2),
            Look::Release("m1", 1, Some(&[(2, 1), (1, 2)])),
            Look::Release("m1", 2, Some(&[(1, 1), (2, 1)])),
            Look::Release("m2", 1, Some(&[(1, 1)])),
            Look::Acknowledged("m1", 2),
            Look::Acknowledged("m2", 1),
        ],
    },
];

fn is_key(found: Option<KeyRow>, key: &str, wanted: Option<(u8, &str)>) -> bool {
    match (found, wanted) {
        (Some(row), Some((digest, body))) => {
            row.key.as_str() == key && row.digest == [digest; 32] && row.body.as_str() == body
        }
        (None, None) => true,
        _ => false,
    }
}

fn is_name(found: Option<Text>, wanted: Option<&str>) -> bool {
    match (found, wanted) {
        (Some(name), Some(wanted)) => name.as_str() == wanted,
        (None, None) => true,
        _ => false,
    }
}

fn is_package(found: Option<Bytes>, wanted: Option<&[u8]>) -> bool {
    match (found, wanted) {
        (Some(bytes), Some(wanted)) => bytes.as_slice() == wanted,
        (None, None) => true,
        _ => false,
    }
}

fn are_parts(parts: &[Numbered], wanted: &[(u16, u16)]) -> bool {
    parts.len() == wanted.len()
        && parts.iter().zip(wanted).all(|(part, (component, version))| {
            part.component == *component && part.version == *version
        })
}

fn is_release(found: Option<NumberedParts>, wanted: Option<&[(u16, u16)]>) -> bool {
    match (found, wanted) {
        (Some(parts), Some(wanted)) => are_parts(parts.as_slice(), wanted),
        (None, None) => true,
        _ => false,
    }
}

// Whether a look finds what it is to find.
fn finds(keeper: &mut MemoryKeeper, look: Look) -> Result<bool, RowsFault> {
    Ok(match look {
        Look::Key(key, wanted) => is_key(keeper.key_row(key)?, key, wanted),
        Look::Symbol(name, wanted) => keeper.symbol_number(name)? == wanted,
        Look::Symbols(wanted) => keeper.symbol_count()? == wanted,
        Look::Component(name, wanted) => keeper.component_number(name)? == wanted,
        Look::Name(number, wanted) => is_name(keeper.component_name(number)?, wanted),
        Look::Components(wanted) => keeper.component_count()? == wanted,
        Look::Versions(component, wanted) => keeper.version_count(component)? == wanted,
        Look::Package(component, version, wanted) => {
            is_package(keeper.package(component, version)?, wanted)
        }
        Look::Releases(mote, wanted) => keeper.release_count(mote)? == wanted,
        Look::Release(mote, number, wanted) => is_release(keeper.release(mote, number)?, wanted),
        Look::Acknowledged(mote, wanted) => keeper.acknowledged(mote)? == wanted,
    })
}

// The same, where the call may fail once, which is counted.
fn finds_again(
    keeper: &mut MemoryKeeper,
    look: Look,
    failures: &mut u32,
) -> Result<bool, RowsFault> {
    match finds(keeper, look) {
        Err(RowsFault::Failed) => {
            *failures = failures.saturating_add(1);
            finds(keeper, look)
        }
        found => found,
    }
}

fn find_all(
    keeper: &mut MemoryKeeper,
    looks: &[Look],
    failures: &mut u32,
) -> Result<bool, RowsFault> {
    for look in looks {
        if !finds_again(keeper, *look, failures)? {
            return Ok(false);
        }
    }
    Ok(true)
}

// Makes a change. The call may fail once, which is counted: then look-ups find what they found before it.
fn makes(
    keeper: &mut MemoryKeeper,
    change: &Change,
    before: &[Look],
    failures: &mut u32,
) -> Result<bool, RowsFault>
    requires { IsSound change.now.effect }
{
    match keeper.apply(change) {
        Ok(()) => Ok(true),
        Err(RowsFault::Memory) => Err(RowsFault::Memory),
        Err(RowsFault::Failed) => {
            *failures = failures.saturating_add(1);
            let same = find_all(keeper, before, failures)?;
            keeper.apply(change)?;
            Ok(same)
        }
    }
}

// The change that a stage's command makes, where it is accepted.
fn change_of(
    alloc: Global,
    rows: &mut MemoryKeeper,
    stage: &Stage,
) -> Result<Option<Change>, RowsFault>
    ensures { IfOk result (λ r. IfSome r (λ c. IsSound c.effect)) }
{
    let command = command_of(alloc, stage.ask)?;
    match decided(alloc, rows, stage.key, stage.digest, &command)? {
        Some(Decision::Accepted(change)) => Ok(Some(change)),
        _ => Ok(None),
    }
}

// Whether a stage's command is accepted, its change is made in both, and look-ups then find what they are to find.
fn goes_on(
    alloc: Global,
    model: &mut MemoryKeeper,
    keeper: &mut MemoryKeeper,
    stage: &Stage,
    before: &[Look],
    failures: &mut u32,
) -> Result<bool, RowsFault> {
    let Some(change) = change_of(alloc, model, stage)? else {
        return Ok(false);
    };
    model.apply(&change)?;
    if !makes(keeper, &change, before, failures)? {
        return Ok(false);
    }
    find_all(keeper, stage.looks, failures)
}

// How many calls fail where these are to fail, and are made again; none where something else is found.
fn failures(
    alloc: Global,
    fail: Vec<u32>,
    empty: &[Look],
    stages: &[Stage],
) -> Result<Option<u32>, RowsFault> {
    let mut model = MemoryKeeper::new(alloc, Vec::new(alloc));
    let mut keeper = MemoryKeeper::new(alloc, fail);
    let mut failures = 0u32;
    if !find_all(&mut keeper, empty, &mut failures)? {
        return Ok(None);
    }
    let mut before = empty;
    for stage in stages {
        if !goes_on(alloc, &mut model, &mut keeper, stage, before, &mut failures)? {
            return Ok(None);
        }
        before = stage.looks;
    }
    Ok(Some(failures))
}

// How many calls there are: looks, and a change for each stage.
const CALLS: u32 = 146;

#[test]
fn finds_what_is_there(rt: HostRuntime) -> Result<(), Fail> {
    assert_eq!(rt;
        failures(rt.alloc(), Vec::new(rt.alloc()), &EMPTY, &STAGES)?,
        Some(0)
    );
    Ok(())
}

// The first of so many calls whose failing alone is not met once.
fn first_calm(
    alloc: Global,
    calls: u32,
    empty: &[Look],
    stages: &[Stage],
) -> Result<Option<u32>, RowsFault> {
    for call in 1..calls.saturating_add(1) {
        let fail = Vec::from_array(alloc, [call])?;
        if failures(alloc, fail, empty, stages)? != Some(1) {
            return Ok(Some(call));
        }
    }
    Ok(None)
}

#[test]
fn each_call_fails_once(rt: HostRuntime) -> Result<(), Fail> {
    assert_eq!(rt; first_calm(rt.alloc(), CALLS, &EMPTY, &STAGES)?, None);
    let behind = Vec::from_array(rt.alloc(), [0, CALLS + 1])?;
    assert_eq!(rt; failures(rt.alloc(), behind, &EMPTY, &STAGES)?, Some(0));
    Ok(())
}
