//! An object written out by hand, judged over tables in memory and over rows that say what a test wants.

ghost use Rattle.std.specs.Prelude.{None};
ghost use Rattle.release_judging.specs.Judging.{IsSoundly};

use crate::objects::{Object, object_file};
use component_package::{Bytes, Text};
use release_judging::{Judged, text_of};
use release_keeper::{Keeper, MemoryKeeper};
use release_rows::{Change, Effect, KeyRow, NumberedParts, Rows, RowsFault, SymbolRow};
use release_versions::judge_version;
use std::alloc::{AllocError, Global};
use std::process::Abort;
use std::test::Fail;

/// The package of the sender as component 1 in version 1, where its names have numbers 16, 17 and 18.
const PACKAGE: [u8; 102] = [
    0x46, 0x43, 0x50, 0x31, 1, 0, 1, 0, 18, 0, 8, 0, 2, 0, 2, 0, 4, 0, 0, 0, 0, 0, 0, 0, 0, 0, 0,
    0, 0, 0, 0, 0, 0x80, 0xE0, 0x90, 0xE0, 0x0E, 0x94, 0, 0, 0, 0xC0, 0x08, 0x95, 1, 2, 3, 4, 5, 0,
    0x0A, 0x0B, 0x0C, 0, 0x61, 0x62, 0x63, 0, 16, 0, 0, 0, 0, 0, 17, 0, 2, 0, 0, 0, 0, 0, 0, 6, 1,
    0, 5, 0, 2, 0, 0, 7, 1, 0, 5, 0, 4, 0, 0, 18, 18, 0, 0, 0, 8, 0, 0, 3, 0, 0, 0, 0,
];

/// What is said of an object: of a refusal its number and its values; of a version 0, the component, the version and the numbers of the
/// new symbols.
fn said(alloc: Global, judged: &Judged) -> Result<String, AllocError> {
    match judged {
        Judged::Refused { number, values } => with_values(alloc, *number, values.as_slice()),
        Judged::Does(
            Effect::Version {
                component,
                version,
                symbols,
                ..
            },
        ) => with_symbols(alloc, *component, *version, symbols.as_slice()),
        _ => String::from_str(alloc, "other"),
    }
}

fn with_values(alloc: Global, number: u16, values: &[i64]) -> Result<String, AllocError> {
    let mut text = format!(in alloc; "{number}")?;
    for value in values {
        text.push_str(&format!(in alloc; " {value}")?)?;
    }
    Ok(text)
}

fn with_symbols(
    alloc: Global,
    component: u16,
    version: u16,
    rows: &[SymbolRow],
) -> Result<String, AllocError> {
    let mut text = format!(in alloc; "0 {component} {version}")?;
    for row in rows {
        text.push_str(&format!(in alloc; " {}", row.number)?)?;
    }
    Ok(text)
}

/// Rows that tell nothing, and answer what a test wants: how many components, versions and symbols there are, and the numbers of the
/// component and of `send`, `count` and `radio_put`.
#[derive(Clone, Copy, Drop)]
struct Answers {
    component: Option<u16>,
    components: u32,
    versions: u32,
    symbols: u32,
    known: [Option<u16>; 3],
}

impl Rows for Answers {
    ghost use Rattle.std.specs.Prelude.{None};
    ghost use Rattle.release_judging.specs.Judging.{IsSoundly};

    ghost view = { λ _. record { tables = None; faults = 0 } };

    fn key_row(&mut self, _key: &str) -> Result<Option<KeyRow>, RowsFault> {
        Ok(None)
    }

    fn symbol_number(&mut self, name: &[u8]) -> Result<Option<u16>, RowsFault> {
        Ok(match name.first() {
            Some(b's') => self.known[0],
            Some(b'c') => self.known[1],
            _ => self.known[2],
        })
    }

    fn symbol_count(&mut self) -> Result<u32, RowsFault> {
        Ok(self.symbols)
    }

    fn component_number(&mut self, _name: &str) -> Result<Option<u16>, RowsFault> {
        Ok(self.component)
    }

    fn component_name(&mut self, _number: u16) -> Result<Option<Text>, RowsFault> {
        Ok(None)
    }

    fn component_count(&mut self) -> Result<u32, RowsFault> {
        Ok(self.components)
    }

    fn version_count(&mut self, _component: u16) -> Result<u32, RowsFault> {
        Ok(self.versions)
    }

    fn package(&mut self, _component: u16, _version: u16) -> Result<Option<Bytes>, RowsFault> {
        Ok(None)
    }

    fn release_count(&mut self, _mote: &str) -> Result<u32, RowsFault> {
        Ok(0)
    }

    fn release(&mut self, _mote: &str, _number: u32) -> Result<Option<NumberedParts>, RowsFault> {
        Ok(None)
    }

    fn acknowledged(&mut self, _mote: &str) -> Result<u32, RowsFault> {
        Ok(0)
    }
}

/// An empty server.
const EMPTY: Answers = Answers {
    component: None,
    components: 0,
    versions: 0,
    symbols: 0,
    known: [None; 3],
};

/// Answers of rows, and what is said of the sender where they answer so.
const CASES: [(Answers, &'static str); 20] = [
    (EMPTY, "0 1 1 16 17 18"),
    // Room for components, then for versions, then for symbols.
    (
        Answers {
            components: 65_534,
            ..EMPTY
        },
        "0 65535 1 16 17 18",
    ),
    (
        Answers {
            components: 65_535,
            ..EMPTY
        },
        "52",
    ),
    (
        Answers {
            components: 65_535,
            versions: 65_535,
            symbols: 65_520,
            ..EMPTY
        },
        "52",
    ),
    (
        Answers {
            components: u32::MAX,
            ..EMPTY
        },
        "52",
    ),
    (
        Answers {
            component: Some(7),
            components: 65_535,
            ..EMPTY
        },
        "0 7 1 16 17 18",
    ),
    (
        Answers {
            component: Some(7),
            versions: 65_534,
            ..EMPTY
        },
        "0 7 65535 16 17 18",
    ),
    (
        Answers {
            component: Some(7),
            versions: 65_535,
            ..EMPTY
        },
        "53",
    ),
    (
        Answers {
            component: Some(7),
            versions: u32::MAX,
            symbols: 65_520,
            ..EMPTY
        },
        "53",
    ),
    (
        Answers {
            symbols: 65_517,
            ..EMPTY
        },
        "0 1 1 65533 65534 65535",
    ),
    (
        Answers {
            symbols: 65_518,
            ..EMPTY
        },
        "51",
    ),
    (
        Answers {
            symbols: u32::MAX,
            ..EMPTY
        },
        "51",
    ),
    // Names that have numbers take no new ones.
    (
        Answers {
            symbols: 9,
            known: [None, Some(16), None],
            ..EMPTY
        },
        "0 1 1 25 26",
    ),
    (
        Answers {
            symbols: 65_519,
            known: [Some(20), Some(16), None],
            ..EMPTY
        },
        "0 1 1 65535",
    ),
    (
        Answers {
            symbols: 65_520,
            known: [Some(20), Some(16), None],
            ..EMPTY
        },
        "51",
    ),
    (
        Answers {
            symbols: 65_520,
            known: [Some(20), Some(16), Some(65_535)],
            ..EMPTY
        },
        "0 1 1",
    ),
    // Numbers that can't be those of three names.
    (
        Answers {
            symbols: 9,
            known: [Some(20), Some(16), Some(20)],
            ..EMPTY
        },
        "51",
    ),
    (
        Answers {
            symbols: 9,
            known: [Some(20), Some(25), None],
            ..EMPTY
        },
        "51",
    ),
    (
        Answers {
            symbols: 9,
            known: [Some(20), Some(15), None],
            ..EMPTY
        },
        "51",
    ),
    (
        Answers {
            symbols: 9,
            known: [Some(0), None, None],
            ..EMPTY
        },
        "51",
    ),
];

fn check_case(
    rt: &impl Abort,
    alloc: Global,
    object: &[u8],
    answers: Answers,
    wanted: &str,
) -> Result<(), Fail> {
    assert!(rt; object.len() <= 262_144);
    let mut rows = answers;
    let judged = judge_version(alloc, &mut rows, "sender", object).map_err(|_| "a fault")?;
    let text = said(alloc, &judged)?;
    assert_eq!(rt; text.as_str(), wanted);
    Ok(())
}

fn check_cases(
    rt: &impl Abort,
    alloc: Global,
    cases: &[(Answers, &'static str)],
) -> Result<(), Fail> {
    let object = object_file(alloc, Object::Sender)?;
    for (answers, wanted) in cases {
        check_case(rt, alloc, object.as_slice(), *answers, wanted)?;
    }
    Ok(())
}

#[test]
fn gives_numbers_where_there_is_room(rt: HostRuntime) -> Result<(), Fail> {
    check_cases(&rt, rt.alloc(), &CASES)
}

/// The package of the radio as component 2 in version 1, where its name has number 18.
const RADIO_PACKAGE: [u8; 40] = [
    0x46, 0x43, 0x50, 0x31, 2, 0, 1, 0, 2, 0, 0, 0, 0, 0, 1, 0, 0, 0, 0, 0, 0, 0, 0, 0, 0, 0, 0, 0,
    0, 0, 0, 0, 0x08, 0x95, 18, 0, 0, 0, 0, 0,
];

// Makes what was judged, under a key; whether there was anything to make, and it was made.
fn make(rows: &mut MemoryKeeper, judged: Judged, key: KeyRow) -> bool
    requires { IsSoundly judged }
{
    match judged {
        Judged::Does(effect) => rows.apply(&Change { effect, key }).is_ok(),
        _ => false,
    }
}

// The package of the version that was judged.
fn package_of(judged: &Judged) -> &[u8] {
    match judged {
        Judged::Does(Effect::Version { package, .. }) => package.as_slice(),
        _ => b"",
    }
}

fn key_row(alloc: Global, key: &str) -> Result<KeyRow, AllocError> {
    Ok(KeyRow {
        key: text_of(alloc, key)?,
        digest: [0; 32],
        body: text_of(alloc, "")?,
    })
}

// What is to be kept: an object under a name and a key; what is to be said of it, how long its package is to be, and how that begins.
#[derive(Clone, Copy, Drop)]
struct Posted<'a> {
    name: &'a str,
    key: &'a str,
    object: Object,
    wanted: &'a str,
    length: usize,
    start: &'a [u8],
}

fn is_wanted(alloc: Global, judged: &Judged, posted: &Posted<'_>) -> Result<bool, AllocError> {
    let text = said(alloc, judged)?;
    let package = package_of(judged);
    Ok(
        text.as_str() == posted.wanted
            && package.len() == posted.length
            && package.starts_with(posted.start),
    )
}

// Keeps what was judged, where it is what is wanted.
fn keep_judged(
    alloc: Global,
    rows: &mut MemoryKeeper,
    judged: Judged,
    posted: &Posted<'_>,
) -> Result<bool, AllocError>
    requires { IsSoundly judged }
{
    if !is_wanted(alloc, &judged, posted)? {
        return Ok(false);
    }
    let key = key_row(alloc, posted.key)?;
    Ok(make(rows, judged, key))
}

// Keeps an object, where it is judged as is wanted.
fn keep(alloc: Global, rows: &mut MemoryKeeper, posted: &Posted<'_>) -> Result<bool, AllocError> {
    let object = object_file(alloc, posted.object)?;
    if 262_144 < object.as_slice().len() {
        return Ok(false);
    }
    match judge_version(alloc, rows, posted.name, object.as_slice()) {
        Ok(judged) => keep_judged(alloc, rows, judged, posted),
        Err(_) => Ok(false),
    }
}

fn keeps_the_sender(alloc: Global, rows: &mut MemoryKeeper) -> Result<bool, AllocError> {
    let posted = Posted {
        name: "sender",
        key: "1",
        object: Object::Sender,
        wanted: "0 1 1 16 17 18",
        length: 102,
        start: &PACKAGE,
    };
    keep(alloc, rows, &posted)
}

fn keeps_its_next_version(alloc: Global, rows: &mut MemoryKeeper) -> Result<bool, AllocError> {
    let posted = Posted {
        name: "sender",
        key: "2",
        object: Object::Sender,
        wanted: "0 1 2",
        length: 102,
        start: b"",
    };
    keep(alloc, rows, &posted)
}

fn keeps_the_radio(alloc: Global, rows: &mut MemoryKeeper) -> Result<bool, AllocError> {
    let posted = Posted {
        name: "radio",
        key: "3",
        object: Object::Radio,
        wanted: "0 2 1",
        length: 40,
        start: &RADIO_PACKAGE,
    };
    keep(alloc, rows, &posted)
}

fn keeps_all(alloc: Global, rows: &mut MemoryKeeper) -> Result<[bool; 3], AllocError> {
    Ok([
        keeps_the_sender(alloc, rows)?,
        keeps_its_next_version(alloc, rows)?,
        keeps_the_radio(alloc, rows)?,
    ])
}

fn all_kept(alloc: Global) -> Result<[bool; 3], AllocError> {
    let mut rows = MemoryKeeper::new(alloc, Vec::new(alloc));
    keeps_all(alloc, &mut rows)
}

#[test]
fn keeps_versions(rt: HostRuntime) {
    assert_eq!(rt; all_kept(rt.alloc()), Ok([true; 3]));
}
