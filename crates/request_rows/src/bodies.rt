//! Bodies of requests as they are read, and bodies of replies as they are written.

use http_bodies::{
    BodyFault, Name, Part, acknowledgement_body, key_taken_body, mote_body, read_acknowledgement,
    read_parts, refusal_body, release_body, version_body,
};
use std::alloc::{AllocError, Global};
use std::test::Fail;

fn push_part(alloc: Global, text: &mut String, part: &Part) -> Result<(), AllocError> {
    let line = format!(in alloc; "{} {};", part.component.as_str(), part.version)?;
    text.push_str(&line)
}

fn list_shown(alloc: Global, parts: &[Part]) -> Result<String, AllocError> {
    let mut text = String::new(alloc);
    for part in parts {
        push_part(alloc, &mut text, part)?;
    }
    Ok(text)
}

// `name version;` for each part, or the fault
fn parts_shown(alloc: Global, body: &[u8]) -> Result<String, AllocError> {
    match read_parts(alloc, body) {
        Ok(parts) => list_shown(alloc, parts.as_slice()),
        Err(fault) => String::from_str(alloc, fault_shown(fault)),
    }
}

fn fault_shown(fault: BodyFault) -> &'static str {
    match fault {
        BodyFault::Bad => "bad",
        BodyFault::Memory => "memory",
    }
}

// the number, or the fault
fn release_shown(alloc: Global, body: &[u8]) -> Result<String, AllocError> {
    match read_acknowledgement(alloc, body) {
        Ok(release) => format!(in alloc; "{release}"),
        Err(fault) => String::from_str(alloc, fault_shown(fault)),
    }
}

/// A body, and what is read of it.
type Row = (&'static str, &'static str);

const PARTS: [Row; 34] = [
    ("[[\"sender\",1]]", "sender 1;"),
    (" [ [ \"a\" , 0 ],\n[\"b_9\",65535]] ", "a 0;b_9 65535;"),
    ("[[\"\\u0061b\",7]]", "ab 7;"),
    (
        "[[\"abcdefghijklmnopqrstuvwxyz012345\",1]]",
        "abcdefghijklmnopqrstuvwxyz012345 1;",
    ),
    ("[[\"abcdefghijklmnopqrstuvwxyz0123456\",1]]", "bad"),
    (
        "[[\"a\",1],[\"b\",1],[\"c\",1],[\"d\",1],[\"e\",1],[\"f\",1],[\"g\",1],[\"h\",1],[\"i\",1],[\"j\",1],[\"k\",1],[\"l\",1],[\"m\",1],[\"n\",1],[\"o\",1],[\"p\",1]]",
        "a 1;b 1;c 1;d 1;e 1;f 1;g 1;h 1;i 1;j 1;k 1;l 1;m 1;n 1;o 1;p 1;",
    ),
    (
        "[[\"a\",1],[\"b\",1],[\"c\",1],[\"d\",1],[\"e\",1],[\"f\",1],[\"g\",1],[\"h\",1],[\"i\",1],[\"j\",1],[\"k\",1],[\"l\",1],[\"m\",1],[\"n\",1],[\"o\",1],[\"p\",1],[\"q\",1]]",
        "bad",
    ),
    ("[]", "bad"),
    ("[[\"a\",1],[\"b\",1],[\"a\",2]]", "bad"),
    ("[[\"\",1]]", "bad"),
    ("[[\"A\",1]]", "bad"),
    ("[[\"a-b\",1]]", "bad"),
    ("[[\"\u{e4}\",1]]", "bad"),
    ("[[\"a\",-1]]", "bad"),
    ("[[\"a\",-0]]", "bad"),
    ("[[\"a\",65536]]", "bad"),
    ("[[\"a\",18446744073709551617]]", "bad"),
    ("[[\"a\",1.0]]", "bad"),
    ("[[\"a\",1e0]]", "bad"),
    ("[[\"a\",01]]", "bad"),
    ("[[\"a\",\"1\"]]", "bad"),
    ("[[\"a\",null]]", "bad"),
    ("[[1,\"a\"]]", "bad"),
    ("[[\"a\"]]", "bad"),
    ("[[\"a\",1,1]]", "bad"),
    ("[[\"a\",1],2]", "bad"),
    ("[[\"a\",1],]", "bad"),
    ("[[\"a\",1]]]", "bad"),
    ("[[\"a\",1]", "bad"),
    ("[\"a\",1]", "bad"),
    ("[{\"a\":1}]", "bad"),
    ("{\"a\":1}", "bad"),
    ("null", "bad"),
    ("", "bad"),
];

fn gives_parts(alloc: Global, body: &[u8], want: &str) -> Result<bool, AllocError> {
    let got = parts_shown(alloc, body)?;
    Ok(got.as_str() == want)
}

// The first of these bodies that gives other parts.
fn first_other_parts(alloc: Global, rows: &[Row]) -> Result<Option<usize>, AllocError> {
    let mut i = 0usize;
    for (body, want) in rows {
        if !gives_parts(alloc, body.as_bytes(), want)? {
            return Ok(Some(i));
        }
        i = i.wrapping_add(1);
    }
    Ok(None)
}

#[test]
fn reads_parts(rt: HostRuntime) -> Result<(), Fail> {
    assert_eq!(rt; first_other_parts(rt.alloc(), &PARTS)?, None);
    assert!(rt;
        gives_parts(rt.alloc(), b"[[\"a\xff\",1]]", "bad")?,
        "no UTF-8"
    );
    Ok(())
}

fn push_nested(text: &mut String, depth: usize) -> Result<(), AllocError> {
    for _ in 0..depth {
        text.push_str("[")?;
    }
    for _ in 0..depth {
        text.push_str("]")?;
    }
    Ok(())
}

// an object whose first value of `release` is so many lists, one in the other, and the second one 5
fn nested(alloc: Global, depth: usize) -> Result<String, AllocError> {
    let mut text = String::from_str(alloc, "{\"release\":")?;
    push_nested(&mut text, depth)?;
    text.push_str(",\"release\":5}")?;
    Ok(text)
}

const ACKNOWLEDGEMENTS: [Row; 24] = [
    ("{\"release\":0}", "0"),
    (" { \"release\" : 4294967295 } ", "4294967295"),
    ("{\"\\u0072elease\":7}", "7"),
    ("{\"release\":1,\"release\":2}", "2"),
    ("{\"release\":\"x\",\"release\":2}", "2"),
    ("{\"release\":2,\"release\":\"x\"}", "bad"),
    ("{\"release\":4294967296}", "bad"),
    ("{\"release\":18446744073709551616}", "bad"),
    ("{\"release\":-1}", "bad"),
    ("{\"release\":-0}", "bad"),
    ("{\"release\":1.0}", "bad"),
    ("{\"release\":1e3}", "bad"),
    ("{\"release\":\"1\"}", "bad"),
    ("{\"release\":null}", "bad"),
    ("{\"release\":[1]}", "bad"),
    ("{\"release\":1,\"mote\":\"m\"}", "bad"),
    ("{\"a\":1,\"release\":1}", "bad"),
    ("{\"Release\":1}", "bad"),
    ("{\"releases\":1}", "bad"),
    ("{}", "bad"),
    ("[1]", "bad"),
    ("1", "bad"),
    ("{\"release\":1", "bad"),
    ("", "bad"),
];

fn gives_release(alloc: Global, body: &[u8], want: &str) -> Result<bool, AllocError> {
    let got = release_shown(alloc, body)?;
    Ok(got.as_str() == want)
}

// The first of these bodies that acknowledges something else.
fn first_other_release(alloc: Global, rows: &[Row]) -> Result<Option<usize>, AllocError> {
    let mut i = 0usize;
    for (body, want) in rows {
        if !gives_release(alloc, body.as_bytes(), want)? {
            return Ok(Some(i));
        }
        i = i.wrapping_add(1);
    }
    Ok(None)
}

fn gives_nested(alloc: Global, depth: usize, want: &str) -> Result<bool, AllocError> {
    let body = nested(alloc, depth)?;
    gives_release(alloc, body.as_bytes(), want)
}

#[test]
fn reads_acknowledgements(rt: HostRuntime) -> Result<(), Fail> {
    assert_eq!(rt; first_other_release(rt.alloc(), &ACKNOWLEDGEMENTS)?, None);
    assert!(rt; gives_nested(rt.alloc(), 100, "5")?);
    assert!(rt; gives_nested(rt.alloc(), 200, "bad")?);
    Ok(())
}

fn part(alloc: Global, component: &str, version: u16) -> Result<Part, AllocError> {
    Ok(Part {
        component: Name::of(String::from_str(alloc, component)?),
        version,
    })
}

fn parts(alloc: Global) -> Result<Vec<Part>, AllocError> {
    let mut parts = Vec::new(alloc);
    parts.push(part(alloc, "sender", 1)?)?;
    parts.push(part(alloc, "radio", 65535)?)?;
    Ok(parts)
}

fn writes_release(alloc: Global) -> Result<bool, AllocError> {
    let got = release_body(alloc, "m1", 1)?;
    Ok(got.as_str() == "{\"mote\":\"m1\",\"release\":1}")
}

fn writes_acknowledgement(alloc: Global) -> Result<bool, AllocError> {
    let got = acknowledgement_body(alloc, 4294967295, "m1")?;
    Ok(got.as_str() == "{\"acknowledged\":4294967295,\"mote\":\"m1\"}")
}

/// A mote's name, its release and what it acknowledged.
type Mote = (&'static str, u32, u32);

fn writes_mote(alloc: Global, mote: Mote, parts: &[Part], want: &str) -> Result<bool, AllocError> {
    let (name, release, acknowledged) = mote;
    let got = mote_body(alloc, acknowledged, parts, name, release)?;
    Ok(got.as_str() == want)
}

fn writes_mote_of_two(alloc: Global) -> Result<bool, AllocError> {
    let parts = parts(alloc)?;
    writes_mote(
        alloc,
        ("m1", 1, 0),
        &parts,
        "{\"acknowledged\":0,\"components\":[[\"sender\",1],[\"radio\",65535]],\"mote\":\"m1\",\"release\":1}",
    )
}

fn writes_mote_of_none(alloc: Global) -> Result<bool, AllocError> {
    writes_mote(
        alloc,
        ("m", 3, 2),
        &[],
        "{\"acknowledged\":2,\"components\":[],\"mote\":\"m\",\"release\":3}",
    )
}

#[test]
fn writes_replies(rt: HostRuntime) -> Result<(), Fail> {
    assert!(rt; writes_release(rt.alloc())?);
    assert!(rt; writes_acknowledgement(rt.alloc())?);
    assert!(rt; writes_mote_of_two(rt.alloc())?);
    assert!(rt; writes_mote_of_none(rt.alloc())?);
    Ok(())
}

/// A refusal's number, its values, and its body.
type Refusal = (u16, &'static [i64], &'static str);

const REFUSALS: [Refusal; 3] = [
    (306, &[0, 2, 18], "{\"refusal\":306,\"values\":[0,2,18]}"),
    (310, &[-4098], "{\"refusal\":310,\"values\":[-4098]}"),
    (2, &[], "{\"refusal\":2,\"values\":[]}"),
];

fn writes_refusal(
    alloc: Global,
    number: u16,
    values: &[i64],
    want: &str,
) -> Result<bool, AllocError> {
    let got = refusal_body(alloc, number, values)?;
    Ok(got.as_str() == want)
}

// The first of these refusals that has another body.
fn first_other_refusal(alloc: Global, rows: &[Refusal]) -> Result<Option<usize>, AllocError> {
    let mut i = 0usize;
    for (number, values, want) in rows {
        if !writes_refusal(alloc, *number, values, want)? {
            return Ok(Some(i));
        }
        i = i.wrapping_add(1);
    }
    Ok(None)
}

#[test]
fn writes_refusals(rt: HostRuntime) -> Result<(), Fail> {
    assert_eq!(rt; first_other_refusal(rt.alloc(), &REFUSALS)?, None);
    Ok(())
}

// A byte, a 5, and 30 times the byte.
fn digest() -> [u8; 32] {
    let mut digest = [0xAF; 32];
    digest[1] = 5;
    digest
}

fn writes_version(alloc: Global, want: &str) -> Result<bool, AllocError> {
    let got = version_body(alloc, 1, 102, &digest(), 1)?;
    Ok(got.as_str() == want)
}

fn writes_key_taken(alloc: Global, want: &str) -> Result<bool, AllocError> {
    let got = key_taken_body(alloc, &digest())?;
    Ok(got.as_str() == want)
}

#[test]
fn writes_digests(rt: HostRuntime) -> Result<(), Fail> {
    let want =
        "{\"component\":1,\"length\":102,\"sha256\":\"af05afafafafafafafafafafafafafafafafafafafafafafafafafafafafafaf\",\"version\":1}";
    assert!(rt; writes_version(rt.alloc(), want)?);
    let want =
        "{\"refusal\":4,\"sha256\":\"af05afafafafafafafafafafafafafafafafafafafafafafafafafafafafafaf\"}";
    assert!(rt; writes_key_taken(rt.alloc(), want)?);
    Ok(())
}
