//! Bodies and what they command.

use http_bodies::BodyFault;
use http_commands::command_of;
use http_requests::Posting;
use release_rows::Command;
use std::alloc::{AllocError, Global};
use std::test::Fail;

#[derive(Clone, Copy, Debug, PartialEq, Eq)]
enum Told {
    Version(usize),
    Release(usize, u16),
    Acknowledge(u32),
    Bad,
    Memory,
}

// What a command says.
fn said(command: &Command) -> Told {
    match command {
        Command::AddVersion { object, .. } => Told::Version(object.as_slice().len()),
        Command::AddRelease { parts, .. } => {
            let parts = parts.as_slice();
            let last = match parts.last() {
                Some(part) => part.version,
                None => 0,
            };
            Told::Release(parts.len(), last)
        }
        Command::Acknowledge { release, .. } => Told::Acknowledge(*release),
    }
}

// What the body of a POST says.
fn tell(alloc: Global, posting: Posting<'_>, body: Vec<u8>) -> Told {
    if body.len() > 262_144 {
        return Told::Memory;
    }
    match command_of(alloc, posting, body) {
        Ok(command) => said(&command),
        Err(BodyFault::Bad) => Told::Bad,
        Err(BodyFault::Memory) => Told::Memory,
    }
}

/// What a POST is for, its body, and what it says.
type Row = (Posting<'static>, &'static [u8], Told);

const ROWS: [Row; 13] = [
    (Posting::Version("a"), b"", Told::Version(0)),
    (Posting::Version("a"), b"\0\xFF", Told::Version(2)),
    (Posting::Release("m"), b"[[\"a\",1]]", Told::Release(1, 1)),
    (
        Posting::Release("m"),
        b" [ [\"b\",65535] , [\"a\",7] ] ",
        Told::Release(2, 7),
    ),
    (Posting::Release("m"), b"[]", Told::Bad),
    (Posting::Release("m"), b"[[\"a\",65536]]", Told::Bad),
    (Posting::Release("m"), b"[[\"a\",1],[\"a\",2]]", Told::Bad),
    (Posting::Release("m"), b"", Told::Bad),
    (
        Posting::Acknowledgement("m"),
        b"{\"release\":4294967295}",
        Told::Acknowledge(4_294_967_295),
    ),
    (
        Posting::Acknowledgement("m"),
        b"{\"release\":1,\"release\":2}",
        Told::Acknowledge(2),
    ),
    (
        Posting::Acknowledgement("m"),
        b"{\"release\":4294967296}",
        Told::Bad,
    ),
    (
        Posting::Acknowledgement("m"),
        b"{\"release\":1}x",
        Told::Bad,
    ),
    (Posting::Acknowledgement("m"), b"\xFF", Told::Bad),
];

// The first of these rows whose body says something else.
fn first_other(alloc: Global, rows: &[Row]) -> Result<Option<usize>, AllocError> {
    let mut i = 0usize;
    for (posting, body, wanted) in rows {
        if tell(alloc, *posting, body.to_vec(alloc)?) != *wanted {
            return Ok(Some(i));
        }
        i = i.wrapping_add(1);
    }
    Ok(None)
}

#[test]
fn bodies_are_commands(rt: HostRuntime) -> Result<(), Fail> {
    assert_eq!(rt; first_other(rt.alloc(), &ROWS)?, None);
    Ok(())
}
