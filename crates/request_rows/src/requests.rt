//! Hostile requests, whole and a byte at a time, and each read of one failing.
ghost use Rattle.std.specs.Prelude.{◌≡◌, ◌<◌, length};
ghost use Rattle.http_paths.specs.Routes.{routes};

use crate::inputs::{long_head, source};
use http_edges::{Failed, MemorySource};
use http_paths::{Route, make_router};
use http_requests::{Asking, Posting, Taken, ask, take_request};
use httparse::spans::{EMPTY_HEADER_SPAN, HeaderSpan};
use matchit::Router;
use std::alloc::{AllocError, Global};
use std::test::Fail;

#[derive(Clone, Copy, Debug, PartialEq, Eq)]
enum Told {
    Post(u8, bool),
    Update(u32),
    Mote,
    Image(u32),
    NotFound,
    WrongMethod,
    Malformed,
    NoHead,
    BadHead,
    TooLarge,
    Cut,
    NoRoom,
}

// SHA-256 of `/motes/m/acks`, a line's end and `{"release":1}`, by another program.
const ACK: [u8; 32] = [
    0xEE, 0x43, 0xEE, 0xDF, 0xFB, 0x32, 0x7E, 0x95, 0x63, 0xDC, 0x10, 0x77, 0x18, 0xD1, 0xEA, 0xAC,
    0x4B, 0x68, 0xBE, 0x8B, 0x84, 0x30, 0x56, 0xEF, 0x1E, 0xBA, 0xE5, 0xCD, 0xA4, 0x6D, 0x33, 0x95,
];

fn tell_asking(asking: Asking) -> Told {
    match asking {
        Asking::NotFound => Told::NotFound,
        Asking::WrongMethod => Told::WrongMethod,
        Asking::Malformed => Told::Malformed,
        Asking::Post {
            posting,
            digest,
            ..
        } => match posting {
            Posting::Version(_) => Told::Post(1, digest == ACK),
            Posting::Release(_) => Told::Post(2, digest == ACK),
            Posting::Acknowledgement(_) => Told::Post(3, digest == ACK),
        },
        Asking::Update(_, have) => Told::Update(have),
        Asking::Mote(_) => Told::Mote,
        Asking::Image(_, number) => Told::Image(number),
    }
}

// What the bytes of a source are found to be.
fn tell(
    alloc: Global,
    router: &Router<Route>,
    source: &mut MemorySource,
    buffer: &mut [u8],
    headers: &mut [HeaderSpan],
) -> Result<Told, Failed>
    requires routes { router.now ≡ routes }
    requires room { length buffer.old ≡ 8192 }
    requires headers { length headers.old ≡ 2800 }
{
    let Ok(taken) = take_request(alloc, source, buffer, headers) else {
        return Err(Failed);
    };
    match taken {
        Taken::Whole(whole) => Ok(tell_asking(ask(router, buffer, headers, &whole))),
        Taken::NoHead => Ok(Told::NoHead),
        Taken::BadHead => Ok(Told::BadHead),
        Taken::TooLarge => Ok(Told::TooLarge),
        Taken::Cut => Ok(Told::Cut),
        Taken::NoRoom => Ok(Told::NoRoom),
    }
}

// The same with room for a request; none where a read fails.
fn tell_source(
    alloc: Global,
    router: &Router<Route>,
    source: &mut MemorySource,
    buffer: &mut [u8],
) -> Result<Option<Told>, AllocError>
    requires routes { router.now ≡ routes }
    requires room { length buffer.old ≡ 8192 }
{
    let mut headers = vec![in alloc; EMPTY_HEADER_SPAN; 2800]?;
    Ok(tell(alloc, router, source, buffer, &mut headers).ok())
}

// The same of an input that comes in pieces of so many bytes, where the read of this number fails.
fn tell_input(
    alloc: Global,
    router: &Router<Route>,
    input: &[u8],
    chunk: usize,
    fail: u32,
) -> Result<Option<Told>, AllocError>
    requires routes { router.now ≡ routes }
    requires chunk { 0 < chunk }
{
    let mut source = source(alloc, input, chunk, fail)?;
    let mut buffer = vec![in alloc; 0; 8192]?;
    tell_source(alloc, router, &mut source, &mut buffer)
}

/// The bytes of a source, and what they are found to be.
type Row = (&'static [u8], Told);

const REQUESTS: [Row; 49] = [
    (b"GET /motes/m HTTP/1.1\r\n\r\n", Told::Mote),
    (b"GET /motes/m HTTP/1.0\n\n", Told::Mote),
    (
        b"GET /motes/m HTTP/1.1\r\ncontent-length: 2\r\n\r\n{}",
        Told::Mote,
    ),
    (
        b"GET /motes/m HTTP/1.1\r\ncontent-length: 3\r\n\r\n{}",
        Told::Cut,
    ),
    (b"GET /motes/m?have=1 HTTP/1.1\r\n\r\n", Told::Malformed),
    (b"GET /motes/m? HTTP/1.1\r\n\r\n", Told::Malformed),
    (b"HEAD /motes/m HTTP/1.1\r\n\r\n", Told::WrongMethod),
    (b"get /motes/m HTTP/1.1\r\n\r\n", Told::WrongMethod),
    (b"POST /motes/m HTTP/1.1\r\n\r\n", Told::WrongMethod),
    (b"POST /motes/m?x HTTP/1.1\r\n\r\n", Told::WrongMethod),
    (b"POST /motes/%6D HTTP/1.1\r\n\r\n", Told::NotFound),
    (b"GET /motes/%6D HTTP/1.1\r\n\r\n", Told::NotFound),
    (b"DELETE /nothing?x HTTP/1.1\r\n\r\n", Told::NotFound),
    (b"GET http://h/motes/m HTTP/1.1\r\n\r\n", Told::NotFound),
    (b"GET * HTTP/1.1\r\n\r\n", Told::NotFound),
    (
        b"GET /motes/m/update?have=7 HTTP/1.1\r\n\r\n",
        Told::Update(7),
    ),
    (b"GET /motes/m/update HTTP/1.1\r\n\r\n", Told::Malformed),
    (
        b"GET /motes/m/update?have=07 HTTP/1.1\r\n\r\n",
        Told::Malformed,
    ),
    (
        b"GET /motes/m/update?have=4294967296 HTTP/1.1\r\n\r\n",
        Told::Malformed,
    ),
    (
        b"PUT /motes/m/update?have=x HTTP/1.1\r\n\r\n",
        Told::WrongMethod,
    ),
    (
        b"GET /motes/m/releases/9/image HTTP/1.1\r\n\r\n",
        Told::Image(9),
    ),
    (
        b"GET /motes/m/releases/9/image?a HTTP/1.1\r\n\r\n",
        Told::Malformed,
    ),
    (
        b"GET /motes/m/releases/09/image HTTP/1.1\r\n\r\n",
        Told::NotFound,
    ),
    (
        b"GET /components/a/versions HTTP/1.1\r\n\r\n",
        Told::WrongMethod,
    ),
    (
        b"POST /components/a/versions HTTP/1.1\r\n\r\n",
        Told::Malformed,
    ),
    (
        b"POST /components/a/versions HTTP/1.1\r\nrequest-key: k\r\n\r\n",
        Told::Post(1, false),
    ),
    (
        b"POST /components/A/versions HTTP/1.1\r\nrequest-key: k\r\n\r\n",
        Told::NotFound,
    ),
    (
        b"POST /motes/m/releases HTTP/1.1\r\nREQUEST-KEY: k\r\n\r\n",
        Told::Post(2, false),
    ),
    (
        b"POST /motes/m/releases?a HTTP/1.1\r\nrequest-key: k\r\n\r\n",
        Told::Malformed,
    ),
    (
        b"POST /motes/m/acks HTTP/1.1\r\nContent-Length: 13\r\nRequest-Key: a-B_9\r\n\r\n{\"release\":1}",
        Told::Post(3, true),
    ),
    (
        b"POST /motes/m/acks HTTP/1.1\r\nContent-Length: 13\r\nRequest-Key: k\r\n\r\n{\"release\":1}GET /",
        Told::Post(3, true),
    ),
    (
        b"POST /motes/m/acks HTTP/1.1\r\nContent-Length: 12\r\nRequest-Key: k\r\n\r\n{\"release\":1}",
        Told::Post(3, false),
    ),
    (
        b"POST /motes/n/acks HTTP/1.1\r\nContent-Length: 13\r\nRequest-Key: k\r\n\r\n{\"release\":1}",
        Told::Post(3, false),
    ),
    (
        b"POST /motes/m/acks HTTP/1.1\r\nContent-Length: 14\r\nRequest-Key: k\r\n\r\n{\"release\":1}",
        Told::Cut,
    ),
    (
        b"POST /motes/m/acks HTTP/1.1\r\nRequest-Key: a\r\nRequest-Key: a\r\n\r\n",
        Told::Malformed,
    ),
    (
        b"POST /motes/m/acks HTTP/1.1\r\nRequest-Key: a b\r\n\r\n",
        Told::Malformed,
    ),
    (
        b"POST /motes/m/acks HTTP/1.1\r\nRequest-Key: \xC3\xA4\r\n\r\n",
        Told::Malformed,
    ),
    (
        b"POST /motes/m/acks HTTP/1.1\r\nRequest-Key:\r\n\r\n",
        Told::Malformed,
    ),
    (
        b"POST /motes/m/acks HTTP/1.1\r\nrequest-key: \0\r\n\r\n",
        Told::NoHead,
    ),
    (b"POST /motes/m/acks\0 HTTP/1.1\r\n\r\n", Told::NoHead),
    (b"\0", Told::NoHead),
    (
        b"POST /a HTTP/1.1\r\ncontent-length: 5\r\nContent-Length: 5\r\n\r\nhello",
        Told::BadHead,
    ),
    (
        b"POST /a HTTP/1.1\r\ncontent-length: 05\r\n\r\nhello",
        Told::BadHead,
    ),
    (
        b"POST /a HTTP/1.1\r\ntransfer-encoding: chunked\r\n\r\n",
        Told::BadHead,
    ),
    (
        b"POST /a HTTP/1.1\r\ncontent-length: 262145\r\n\r\n",
        Told::TooLarge,
    ),
    (
        b"POST /a HTTP/1.1\r\ncontent-length: 262144\r\n\r\n",
        Told::Cut,
    ),
    (
        b"POST /a HTTP/1.1\r\ncontent-length: 18446744073709551616\r\n\r\n",
        Told::TooLarge,
    ),
    (b"POST /motes/m/acks HTTP/1.1\r\nRequest-Key: k", Told::Cut),
    (b"", Told::Cut),
];

// Whether an input is found to be this, whole and a byte at a time.
fn is_told(alloc: Global, router: &Router<Route>, row: &Row) -> Result<bool, AllocError>
    requires { router.now ≡ routes }
{
    let (input, wanted) = *row;
    let whole = tell_input(alloc, router, input, 8192, 0)?;
    let in_pieces = tell_input(alloc, router, input, 1, 0)?;
    Ok(whole == Some(wanted) && in_pieces == Some(wanted))
}

// The first of these rows whose bytes are found to be something else.
fn first_other(alloc: Global, router: &Router<Route>, rows: &[Row]) -> Result<Option<usize>, Fail>
    requires { router.now ≡ routes }
{
    let mut i = 0usize;
    for row in rows {
        if !is_told(alloc, router, row)? {
            return Ok(Some(i));
        }
        i = i.wrapping_add(1);
    }
    Ok(None)
}

fn first_other_of(alloc: Global, rows: &[Row]) -> Result<Option<usize>, Fail> {
    let router = make_router(alloc)?;
    first_other(alloc, &router, rows)
}

#[test]
fn requests_are_told(rt: HostRuntime) -> Result<(), Fail> {
    assert_eq!(rt; first_other_of(rt.alloc(), &REQUESTS)?, None);
    Ok(())
}

/// How many bytes of target, fields and bytes of body a request has, and what it is found to be.
type Long = (usize, usize, usize, Told);

const LONG: [Long; 5] = [
    (1, 31, 262_144, Told::NotFound),
    (1, 31, 262_143, Told::Cut),
    (1, 32, 262_144, Told::BadHead),
    (8151, 0, 262_144, Told::NotFound),
    (8152, 0, 262_144, Told::NoHead),
];

// A request with so many bytes of target, so many fields and one for its length, and so many bytes of body.
fn long_request(
    alloc: Global,
    target: usize,
    fields: usize,
    body: usize,
) -> Result<Vec<u8>, AllocError> {
    let mut bytes = long_head(alloc, target, fields, b"content-length: 262144\r\n\r\n")?;
    for _ in 0..body {
        bytes.push(0)?;
    }
    Ok(bytes)
}

fn is_long_told(alloc: Global, router: &Router<Route>, row: Long) -> Result<bool, AllocError>
    requires { router.now ≡ routes }
{
    let (target, fields, body, wanted) = row;
    let bytes = long_request(alloc, target, fields, body)?;
    let told = tell_input(alloc, router, &bytes, 5000, 0)?;
    Ok(told == Some(wanted))
}

// The first of these rows whose request is found to be something else.
fn first_other_long(
    alloc: Global,
    router: &Router<Route>,
    rows: &[Long],
) -> Result<Option<usize>, Fail>
    requires { router.now ≡ routes }
{
    let mut i = 0usize;
    for row in rows {
        if !is_long_told(alloc, router, *row)? {
            return Ok(Some(i));
        }
        i = i.wrapping_add(1);
    }
    Ok(None)
}

fn first_other_long_of(alloc: Global, rows: &[Long]) -> Result<Option<usize>, Fail> {
    let router = make_router(alloc)?;
    first_other_long(alloc, &router, rows)
}

#[test]
fn long_requests_are_told(rt: HostRuntime) -> Result<(), Fail> {
    assert_eq!(rt; first_other_long_of(rt.alloc(), &LONG)?, None);
    Ok(())
}

const ACKNOWLEDGEMENT: &[u8] =
    b"POST /motes/m/acks HTTP/1.1\r\nContent-Length: 13\r\nRequest-Key: k\r\n\r\n{\"release\":1}";

// The first read of so many whose failing isn't told.
fn first_untold(
    alloc: Global,
    router: &Router<Route>,
    input: &[u8],
    reads: u32,
) -> Result<Option<u32>, AllocError>
    requires { router.now ≡ routes }
{
    for fail in 1..reads.saturating_add(1) {
        if tell_input(alloc, router, input, 10, fail)?.is_some() {
            return Ok(Some(fail));
        }
    }
    Ok(None)
}

// The first of eight reads whose failing isn't told, and what is told where the ninth fails.
fn tell_faults(alloc: Global, router: &Router<Route>) -> Result<(Option<u32>, Option<Told>), Fail>
    requires { router.now ≡ routes }
{
    let untold = first_untold(alloc, router, ACKNOWLEDGEMENT, 8)?;
    // There is no ninth read.
    let told = tell_input(alloc, router, ACKNOWLEDGEMENT, 10, 9)?;
    Ok((untold, told))
}

fn tell_faults_of(alloc: Global) -> Result<(Option<u32>, Option<Told>), Fail> {
    let router = make_router(alloc)?;
    tell_faults(alloc, &router)
}

#[test]
fn faults_are_told(rt: HostRuntime) -> Result<(), Fail> {
    assert_eq!(rt;
        tell_faults_of(rt.alloc())?,
        (None, Some(Told::Post(3, true)))
    );
    Ok(())
}
