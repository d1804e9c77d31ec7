//! Hostile heads, whole and in pieces.
ghost use Rattle.std.specs.Prelude.{◌≡◌, ◌<◌, length};

use crate::inputs::{long_head, source};
use http_edges::{Failed, MemorySource};
use http_heads::{BodyLength, HeadRead, body_length, read_head, request_key};
use httparse::spans::{EMPTY_HEADER_SPAN, HeaderSpan};
use std::alloc::{AllocError, Global};
use std::test::Fail;

#[derive(Clone, Copy, Debug, PartialEq, Eq)]
enum Told {
    // The length of the body, and whether there is a key.
    Head(BodyLength, bool),
    Refused,
    Cut,
}

const NO_BODY: Told = Told::Head(BodyLength::Bytes(0), false);

const KEYED: Told = Told::Head(BodyLength::Bytes(0), true);

const BAD: Told = Told::Head(BodyLength::Bad, false);

const LARGE: Told = Told::Head(BodyLength::TooLarge, false);

// What a source's bytes are found to be, and whether they have a key.
fn tell(
    source: &mut MemorySource,
    buffer: &mut [u8],
    headers: &mut [HeaderSpan],
) -> Result<Told, Failed>
    requires room { length buffer.old ≡ 8192 }
    requires headers { length headers.old ≡ 2800 }
{
    let Ok(read) = read_head(source, buffer, headers) else {
        return Err(Failed);
    };
    match read {
        HeadRead::Whole(at, spans) => {
            let taken = &buffer[..at];
            let fields = &headers[..spans.headers];
            let key = request_key(taken, fields).is_some();
            Ok(Told::Head(body_length(taken, fields), key))
        }
        HeadRead::Refused => Ok(Told::Refused),
        HeadRead::Cut => Ok(Told::Cut),
    }
}

// The same with room for a head.
fn tell_source(
    alloc: Global,
    source: &mut MemorySource,
    buffer: &mut [u8],
) -> Result<Option<Told>, AllocError>
    requires { length buffer.old ≡ 8192 }
{
    let mut headers = vec![in alloc; EMPTY_HEADER_SPAN; 2800]?;
    Ok(tell(source, buffer, &mut headers).ok())
}

// The same of an input that comes in pieces of so many bytes; none where its read fails.
fn tell_input(alloc: Global, input: &[u8], chunk: usize) -> Result<Option<Told>, AllocError>
    requires { 0 < chunk }
{
    let mut source = source(alloc, input, chunk, 0)?;
    let mut buffer = vec![in alloc; 0; 8192]?;
    tell_source(alloc, &mut source, &mut buffer)
}

// Whether an input is found to be this, in large and in small pieces.
fn is_told(alloc: Global, input: &[u8], small: usize, wanted: Told) -> Result<bool, AllocError>
    requires { 0 < small }
{
    let whole = tell_input(alloc, input, 8192)?;
    let in_pieces = tell_input(alloc, input, small)?;
    Ok(whole == Some(wanted) && in_pieces == Some(wanted))
}

/// The bytes of a source, and what they are found to be.
type Row = (&'static [u8], Told);

const HEADS: [Row; 36] = [
    (b"", Told::Cut),
    (b"\r\n", Told::Cut),
    (b"GET", Told::Cut),
    (b"GET /", Told::Cut),
    (b"GET /\xFF", Told::Cut),
    (b"GET / HTTP/1.1\r\na: b\r\n", Told::Cut),
    (b"\x00", Told::Refused),
    (b"GET /\x01", Told::Refused),
    (b"GET  / HTTP/1.1\r\n\r\n", Told::Refused),
    (b"GET / / HTTP/1.1\r\n\r\n", Told::Refused),
    (b"GET /\xFF HTTP/1.1\r\n\r\n", Told::Refused),
    (b"GET / HTTP/2.0\r\n\r\n", Told::Refused),
    (b"GET / HTTP/1.1\r\na b: c\r\n\r\n", Told::Refused),
    (b"GET / HTTP/1.1\r\na: b\r\n c\r\n\r\n", Told::Refused),
    (b"GET / HTTP/1.1\r\n\r\n", NO_BODY),
    (b"GET / HTTP/1.0\n\n", NO_BODY),
    (b"\r\n\r\nGET / HTTP/1.1\r\n\r\n", NO_BODY),
    (
        b"POST / HTTP/1.1\r\nContent-Length: 5\r\n\r\nhello",
        Told::Head(BodyLength::Bytes(5), false),
    ),
    (b"POST / HTTP/1.1\r\ncontent-LENGTH:\t0 \r\n\r\n", NO_BODY),
    (
        b"POST / HTTP/1.1\r\ncontent-length: 262144\r\n\r\n",
        Told::Head(BodyLength::Bytes(262_144), false),
    ),
    (b"POST / HTTP/1.1\r\ncontent-length: 262145\r\n\r\n", LARGE),
    (
        b"POST / HTTP/1.1\r\ncontent-length: 99999999999999999999\r\n\r\n",
        LARGE,
    ),
    (b"POST / HTTP/1.1\r\ncontent-length: 05\r\n\r\n", BAD),
    (b"POST / HTTP/1.1\r\ncontent-length: +5\r\n\r\n", BAD),
    (b"POST / HTTP/1.1\r\ncontent-length:\r\n\r\n", BAD),
    (b"POST / HTTP/1.1\r\ncontent-length: 5, 5\r\n\r\n", BAD),
    (
        b"POST / HTTP/1.1\r\ncontent-length: 5\r\nContent-Length: 5\r\n\r\n",
        BAD,
    ),
    (
        b"POST / HTTP/1.1\r\ntransfer-encoding: chunked\r\n\r\n",
        BAD,
    ),
    (
        b"POST / HTTP/1.1\r\nTRANSFER-ENCODING:\r\ncontent-length: 5\r\n\r\n",
        BAD,
    ),
    (b"POST / HTTP/1.1\r\nrequest-key: a-B_9\r\n\r\n", KEYED),
    (b"POST / HTTP/1.1\r\nRequest-Key: \r\n\r\n", NO_BODY),
    (b"POST / HTTP/1.1\r\nRequest-Key: a b\r\n\r\n", NO_BODY),
    (
        b"POST / HTTP/1.1\r\nRequest-Key: a\r\nrequest-key: a\r\n\r\n",
        NO_BODY,
    ),
    (b"POST / HTTP/1.1\r\nx-request-key: a\r\n\r\n", NO_BODY),
    (b"POST / HTTP/1.1\r\nxcontent-length: 7\r\n\r\n", NO_BODY),
    (b"POST / HTTP/1.1\r\ncontent-lengthx: 7\r\n\r\n", NO_BODY),
];

// The first of these rows whose bytes are found to be something else.
fn first_other(alloc: Global, rows: &[Row]) -> Result<Option<usize>, AllocError> {
    let mut i = 0usize;
    for (input, wanted) in rows {
        if !is_told(alloc, input, 1, *wanted)? {
            return Ok(Some(i));
        }
        i = i.wrapping_add(1);
    }
    Ok(None)
}

#[test]
fn heads_are_told(rt: HostRuntime) -> Result<(), Fail> {
    assert_eq!(rt; first_other(rt.alloc(), &HEADS)?, None);
    Ok(())
}

/// How many bytes of target and how many fields a head has, and what it is found to be.
type Long = (usize, usize, Told);

const LONG: [Long; 7] = [
    (1, 32, NO_BODY),
    (1, 33, BAD),
    (1, 1600, BAD),
    (1, 1700, Told::Refused),
    (8175, 0, NO_BODY),
    (8176, 0, Told::Refused),
    (9000, 0, Told::Refused),
];

fn is_long_told(alloc: Global, row: Long) -> Result<bool, AllocError> {
    let (target, fields, wanted) = row;
    let input = long_head(alloc, target, fields, b"\r\n")?;
    is_told(alloc, &input, 1000, wanted)
}

// The first of these rows whose head is found to be something else.
fn first_other_long(alloc: Global, rows: &[Long]) -> Result<Option<usize>, AllocError> {
    let mut i = 0usize;
    for row in rows {
        if !is_long_told(alloc, *row)? {
            return Ok(Some(i));
        }
        i = i.wrapping_add(1);
    }
    Ok(None)
}

#[test]
fn long_heads_are_told(rt: HostRuntime) -> Result<(), Fail> {
    assert_eq!(rt; first_other_long(rt.alloc(), &LONG)?, None);
    Ok(())
}
