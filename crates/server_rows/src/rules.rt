//! Refusals of releases, of acknowledgements, and where there is no room for one more row.

ghost use Rattle.std.specs.Prelude.{◌≡◌, true};
ghost use Rattle.release_rows.specs.Change.{IsPackageOf};

use crate::commands::{Ask, comes_to, command_of, does};
use crate::objects::Object;
use component_package::{Bytes, Text, read_package};
use release_judging::bytes_of;
use release_keeper::MemoryKeeper;
use release_rows::{KeyRow, NumberedParts, Rows, RowsFault};
use std::alloc::Global;
use std::test::Fail;

/// A question, and what it comes to: a refusal's number and what goes with it, 201 where it is accepted, 404 where something isn't there.
type Row = (Ask, &'static [i64]);

/// What is done first.
const DONE: [(&str, Ask); 6] = [
    ("1", Ask::Version("sender", Object::Sender)),
    ("2", Ask::Version("radio", Object::Radio)),
    ("3", Ask::Version("other", Object::Radio)),
    ("4", Ask::Release("m1", &[("sender", 1), ("radio", 1)])),
    ("5", Ask::Release("m1", &[("radio", 1)])),
    ("6", Ask::Acknowledge("m1", 2)),
];

const RELEASES: [Row; 14] = [
    // A component, or a version of it, that isn't there, wherever it stands.
    (Ask::Release("m1", &[("nobody", 1)]), &[404]),
    (Ask::Release("m1", &[("", 1)]), &[404]),
    (Ask::Release("m1", &[("sende", 1)]), &[404]),
    (Ask::Release("m1", &[("radio", 1), ("nobody", 1)]), &[404]),
    (Ask::Release("m1", &[("radio", 0)]), &[404]),
    (Ask::Release("m1", &[("radio", 2)]), &[404]),
    (Ask::Release("m1", &[("radio", 65_535)]), &[404]),
    (Ask::Release("m1", &[("radio", 1), ("other", 2)]), &[404]),
    // A component twice, where neither set would have an image.
    (Ask::Release("m1", &[("radio", 1), ("radio", 1)]), &[404]),
    (Ask::Release("m1", &[("sender", 1), ("sender", 2)]), &[404]),
    // Parts that have no image: a symbol that two export, and one that none does.
    (
        Ask::Release("m1", &[("radio", 1), ("other", 1)]),
        &[305, 18, 0, 1],
    ),
    (Ask::Release("m2", &[("sender", 1)]), &[306, 0, 2, 18]),
    // What is accepted, for a mote that has releases and for one that has none.
    (Ask::Release("m1", &[("other", 1), ("sender", 1)]), &[201]),
    (Ask::Release("m2", &[("other", 1)]), &[201]),
];

const ACKNOWLEDGEMENTS: [Row; 8] = [
    (Ask::Acknowledge("m1", 0), &[404]),
    (Ask::Acknowledge("m1", 3), &[404]),
    (Ask::Acknowledge("m1", 4_294_967_295), &[404]),
    (Ask::Acknowledge("m2", 1), &[404]),
    (Ask::Acknowledge("", 1), &[404]),
    (Ask::Acknowledge("m", 1), &[404]),
    // An older release than the one that the mote said, and that one again.
    (Ask::Acknowledge("m1", 1), &[55, 2]),
    (Ask::Acknowledge("m1", 2), &[201]),
];

// Does all of this. Whether each was accepted.
fn does_all(
    alloc: Global,
    keeper: &mut MemoryKeeper,
    asks: &[(&str, Ask)],
) -> Result<bool, RowsFault> {
    for (key, ask) in asks {
        let command = command_of(alloc, *ask)?;
        if !does(alloc, keeper, key, &command)? {
            return Ok(false);
        }
    }
    Ok(true)
}

// The first of these questions that comes to something else.
fn first_wrong(
    alloc: Global,
    keeper: &mut MemoryKeeper,
    rows: &[Row],
) -> Result<Option<usize>, RowsFault> {
    for (i, (ask, wanted)) in rows.iter().enumerate() {
        let command = command_of(alloc, *ask)?;
        if !comes_to(alloc, keeper, &command, wanted)? {
            return Ok(Some(i));
        }
    }
    Ok(None)
}

// A function for each table: a test that holds a keeper would carry all of them through its proof.

fn is_done(alloc: Global, keeper: &mut MemoryKeeper) -> Result<bool, RowsFault> {
    does_all(alloc, keeper, &DONE)
}

fn wrong_release(alloc: Global, keeper: &mut MemoryKeeper) -> Result<Option<usize>, RowsFault> {
    first_wrong(alloc, keeper, &RELEASES)
}

fn wrong_acknowledgement(
    alloc: Global,
    keeper: &mut MemoryKeeper,
) -> Result<Option<usize>, RowsFault> {
    first_wrong(alloc, keeper, &ACKNOWLEDGEMENTS)
}

fn are_refused(alloc: Global, keeper: &mut MemoryKeeper) -> Result<bool, RowsFault> {
    Ok(
        is_done(alloc, keeper)?
            && wrong_release(alloc, keeper)?.is_none()
            && wrong_acknowledgement(alloc, keeper)?.is_none(),
    )
}

#[test]
fn refuses_what_is_not_there(rt: HostRuntime) -> Result<(), Fail> {
    let mut keeper = MemoryKeeper::new(rt.alloc(), Vec::new(rt.alloc()));
    assert!(rt; are_refused(rt.alloc(), &mut keeper)?);
    Ok(())
}

/// How many rows there are.
#[derive(Clone, Copy)]
struct Counts {
    components: u32,
    versions: u32,
    symbols: u32,
    releases: u32,
}

/// Rows that tell nothing and say what a test wants of their number. Of components they know "sender" alone, with one package.
#[derive(Clone, Copy, Drop)]
struct Counted {
    alloc: Global,
    counts: Counts,
}

/// The package of the sender: an empty one.
const PACKAGE: [u8; 32] = [
    0x46, 0x43, 0x50, 0x31, 1, 0, 1, 0, 0, 0, 0, 0, 0, 0, 0, 0, 0, 0, 0, 0, 0, 0, 0, 0, 0, 0, 0, 0,
    0, 0, 0, 0,
];

fn is_package_of(component: u16, version: u16, bytes: &[u8]) -> bool
    ensures { result ≡ true → IsPackageOf component version bytes.now }
{
    let Ok(view) = read_package(bytes) else {
        return false;
    };
    let header = view.header();
    if header.component != component {
        return false;
    }
    header.version == version
}

impl Rows for Counted {
    ghost use Rattle.std.specs.Prelude.{None};

    ghost view = { λ _. record { tables = None; faults = 0 } };

    fn key_row(&mut self, _key: &str) -> Result<Option<KeyRow>, RowsFault> {
        Ok(None)
    }

    fn symbol_number(&mut self, _name: &[u8]) -> Result<Option<u16>, RowsFault> {
        Ok(None)
    }

    fn symbol_count(&mut self) -> Result<u32, RowsFault> {
        Ok(self.counts.symbols)
    }

    fn component_number(&mut self, name: &str) -> Result<Option<u16>, RowsFault> {
        Ok(if name == "sender" { Some(1) } else { None })
    }

    fn component_name(&mut self, _number: u16) -> Result<Option<Text>, RowsFault> {
        Ok(None)
    }

    fn component_count(&mut self) -> Result<u32, RowsFault> {
        Ok(self.counts.components)
    }

    fn version_count(&mut self, _component: u16) -> Result<u32, RowsFault> {
        Ok(self.counts.versions)
    }

    fn package(&mut self, component: u16, version: u16) -> Result<Option<Bytes>, RowsFault> {
        let bytes = bytes_of(self.alloc, &PACKAGE)?;
        if is_package_of(component, version, bytes.as_slice()) {
            Ok(Some(bytes))
        } else {
            Ok(None)
        }
    }

    fn release_count(&mut self, _mote: &str) -> Result<u32, RowsFault> {
        Ok(self.counts.releases)
    }

    fn release(&mut self, _mote: &str, _number: u32) -> Result<Option<NumberedParts>, RowsFault> {
        Ok(None)
    }

    fn acknowledged(&mut self, _mote: &str) -> Result<u32, RowsFault> {
        Ok(0)
    }
}

/// Few rows of each kind.
const FEW: Counts = Counts {
    components: 1,
    versions: 1,
    symbols: 0,
    releases: 0,
};

/// As many rows as there can be.
const FULL: Counts = Counts {
    components: 65_535,
    versions: 65_535,
    symbols: 65_520,
    releases: 4_294_967_295,
};

/// Room for one more of each kind, and for three symbols.
const NEARLY: Counts = Counts {
    components: 65_534,
    versions: 65_534,
    symbols: 65_517,
    releases: 4_294_967_294,
};

const ROOMS: [(Counts, Ask, &[i64]); 14] = [
    (NEARLY, Ask::Version("new", Object::Sender), &[201]),
    (NEARLY, Ask::Version("sender", Object::Sender), &[201]),
    (NEARLY, Ask::Release("m1", &[("sender", 1)]), &[201]),
    // Components before versions before symbols, and faults of the object before all.
    (FULL, Ask::Version("new", Object::Empty), &[101, 0]),
    (FULL, Ask::Version("new", Object::Sender), &[52]),
    (FULL, Ask::Version("sender", Object::Sender), &[53]),
    (
        Counts {
            components: 65_535,
            ..FEW
        },
        Ask::Version("new", Object::Sender),
        &[52],
    ),
    (
        Counts {
            components: 65_535,
            ..FEW
        },
        Ask::Version("sender", Object::Sender),
        &[201],
    ),
    (
        Counts {
            versions: 65_535,
            ..FEW
        },
        Ask::Version("sender", Object::Sender),
        &[53],
    ),
    (
        Counts {
            symbols: 65_518,
            ..FEW
        },
        Ask::Version("sender", Object::Sender),
        &[51],
    ),
    (
        Counts {
            symbols: 65_520,
            ..FEW
        },
        Ask::Version("sender", Object::Radio),
        &[51],
    ),
    (
        Counts {
            symbols: 65_519,
            ..FEW
        },
        Ask::Version("sender", Object::Radio),
        &[201],
    ),
    // Parts that aren't there before the room for a release.
    (FULL, Ask::Release("m1", &[("sender", 1)]), &[54]),
    (FULL, Ask::Release("m1", &[("sender", 2)]), &[404]),
];

// The first of these that comes to something else.
fn first_wrong_room(
    alloc: Global,
    rows: &[(Counts, Ask, &[i64])],
) -> Result<Option<usize>, RowsFault> {
    for (i, (counts, ask, wanted)) in rows.iter().enumerate() {
        let mut counted = Counted {
            alloc,
            counts: *counts,
        };
        let command = command_of(alloc, *ask)?;
        if !comes_to(alloc, &mut counted, &command, wanted)? {
            return Ok(Some(i));
        }
    }
    Ok(None)
}

#[test]
fn refuses_where_there_is_no_room(rt: HostRuntime) -> Result<(), Fail> {
    assert_eq!(rt; first_wrong_room(rt.alloc(), &ROOMS)?, None);
    Ok(())
}
