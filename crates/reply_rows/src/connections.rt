//! Requests in a row over one keeper, and each call on the keeper and on both ends failing once.
ghost use Rattle.std.specs.Prelude.{◌<◌};

use http_edges::{MemorySink, MemorySource};
use http_releases::{Served, serve_connection};
use release_keeper::MemoryKeeper;
use std::alloc::Global;
use std::test::Fail;

// What stands behind a request's head, where that is long.
#[derive(Clone, Copy)]
enum Body {
    Nothing,
    // An object without code. What it answers is by another program.
    Bare,
    // Its first 100 bytes.
    Cut,
    // So many lists in lists.
    Deep,
    // A release of seventeen components.
    Seventeen,
}

fn body_bytes(body: Body) -> &'static [u8] {
    match body {
        Body::Nothing => b"",
        Body::Cut =>
            b"\x7FELF\x01\x01\x01\x00\x00\x00\x00\x00\x00\x00\x00\x00\x01\x00S\x00\x01\x00\x00\x00\x00\x00\x00\x00\x00\x00\x00\x00@\x00\x00\x00\x05\x00\x00\x004\x00\x00\x00\x00\x00(\x00\x02\x00\x01\x00\x00.shstrtab\x00\x00\x00\x00\x00\x00\x00\x00\x00\x00\x00\x00\x00\x00\x00\x00\x00\x00\x00\x00\x00\x00\x00\x00\x00\x00\x00\x00\x00\x00\x00\x00\x00\x00\x00\x00\x00\x00",
        Body::Bare =>
            b"\x7FELF\x01\x01\x01\x00\x00\x00\x00\x00\x00\x00\x00\x00\x01\x00S\x00\x01\x00\x00\x00\x00\x00\x00\x00\x00\x00\x00\x00@\x00\x00\x00\x05\x00\x00\x004\x00\x00\x00\x00\x00(\x00\x02\x00\x01\x00\x00.shstrtab\x00\x00\x00\x00\x00\x00\x00\x00\x00\x00\x00\x00\x00\x00\x00\x00\x00\x00\x00\x00\x00\x00\x00\x00\x00\x00\x00\x00\x00\x00\x00\x00\x00\x00\x00\x00\x00\x00\x00\x00\x00\x00\x01\x00\x00\x00\x03\x00\x00\x00\x00\x00\x00\x00\x00\x00\x00\x004\x00\x00\x00\x0B\x00\x00\x00\x00\x00\x00\x00\x00\x00\x00\x00\x01\x00\x00\x00\x00\x00\x00\x00",
        Body::Deep =>
            b"[[[[[[[[[[[[[[[[[[[[[[[[[[[[[[[[[[[[[[[[[[[[[[[[[[[[[[[[[[[[[[[[[[[[[[[[[[[[[[[[[[[[[[[[[[[[[[[[[[[[[[[[[[[[[[[[[[[[[[[[[[[[[[[[[[[[[[[[[[[[[[[[[[[[[[[[[[[[[[[[[[[[[[[[[[[[[[[[[[[[[[[[[[[[[[[[[[[[[[[[]]]]]]]]]]]]]]]]]]]]]]]]]]]]]]]]]]]]]]]]]]]]]]]]]]]]]]]]]]]]]]]]]]]]]]]]]]]]]]]]]]]]]]]]]]]]]]]]]]]]]]]]]]]]]]]]]]]]]]]]]]]]]]]]]]]]]]]]]]]]]]]]]]]]]]]]]]]]]]]]]]]]]]]]]]]]]]]]]]]]]]]]]]]]]]]]]]]]]]]]",
        Body::Seventeen =>
            b"[[\"c0\",1],[\"c1\",1],[\"c2\",1],[\"c3\",1],[\"c4\",1],[\"c5\",1],[\"c6\",1],[\"c7\",1],[\"c8\",1],[\"c9\",1],[\"c10\",1],[\"c11\",1],[\"c12\",1],[\"c13\",1],[\"c14\",1],[\"c15\",1],[\"c16\",1]]",
    }
}

#[derive(Clone, Copy)]
enum Reply {
    NotFound,
    WrongMethod,
    Malformed,
    TooLarge,
    BadObject,
    Version,
    KeyTaken,
    Release,
    Mote,
    Update,
    Image,
    Acknowledgement,
    Acknowledged,
}

fn reply_bytes(reply: Reply) -> &'static [u8] {
    match reply {
        Reply::NotFound =>
            b"HTTP/1.1 404 Not Found\r\nContent-Type: application/json\r\nContent-Length: 25\r\nConnection: close\r\n\r\n{\"refusal\":2,\"values\":[]}",
        Reply::WrongMethod =>
            b"HTTP/1.1 405 Method Not Allowed\r\nContent-Type: application/json\r\nContent-Length: 25\r\nConnection: close\r\n\r\n{\"refusal\":3,\"values\":[]}",
        Reply::Malformed =>
            b"HTTP/1.1 400 Bad Request\r\nContent-Type: application/json\r\nContent-Length: 25\r\nConnection: close\r\n\r\n{\"refusal\":1,\"values\":[]}",
        Reply::TooLarge =>
            b"HTTP/1.1 413 Payload Too Large\r\nContent-Type: application/json\r\nContent-Length: 25\r\nConnection: close\r\n\r\n{\"refusal\":5,\"values\":[]}",
        Reply::BadObject =>
            b"HTTP/1.1 422 Unprocessable Entity\r\nContent-Type: application/json\r\nContent-Length: 29\r\nConnection: close\r\n\r\n{\"refusal\":105,\"values\":[32]}",
        Reply::Version =>
            b"HTTP/1.1 201 Created\r\nContent-Type: application/json\r\nContent-Length: 115\r\nConnection: close\r\n\r\n{\"component\":1,\"length\":32,\"sha256\":\"90f5fc18b5b7c284456d591546decd5c72313625f8f55e53d6ce14effcf16221\",\"version\":1}",
        Reply::KeyTaken =>
            b"HTTP/1.1 409 Conflict\r\nContent-Type: application/json\r\nContent-Length: 89\r\nConnection: close\r\n\r\n{\"refusal\":4,\"sha256\":\"92504dff6555d3935a80218a464042da46aa00dc2b5b15f0bd90bc42e7cca6d0\"}",
        Reply::Release =>
            b"HTTP/1.1 201 Created\r\nContent-Type: application/json\r\nContent-Length: 24\r\nConnection: close\r\n\r\n{\"mote\":\"m\",\"release\":1}",
        Reply::Mote =>
            b"HTTP/1.1 200 OK\r\nContent-Type: application/json\r\nContent-Length: 67\r\nConnection: close\r\n\r\n{\"acknowledged\":0,\"components\":[[\"bare\",1]],\"mote\":\"m\",\"release\":1}",
        Reply::Update =>
            b"HTTP/1.1 200 OK\r\nContent-Type: application/octet-stream\r\nContent-Length: 3\r\nConnection: close\r\n\r\n\x08\x00\x00",
        Reply::Image =>
            b"HTTP/1.1 200 OK\r\nContent-Type: application/octet-stream\r\nContent-Length: 0\r\nConnection: close\r\n\r\n",
        Reply::Acknowledgement =>
            b"HTTP/1.1 201 Created\r\nContent-Type: application/json\r\nContent-Length: 29\r\nConnection: close\r\n\r\n{\"acknowledged\":1,\"mote\":\"m\"}",
        Reply::Acknowledged =>
            b"HTTP/1.1 200 OK\r\nContent-Type: application/json\r\nContent-Length: 67\r\nConnection: close\r\n\r\n{\"acknowledged\":1,\"components\":[[\"bare\",1]],\"mote\":\"m\",\"release\":1}",
    }
}

// A request's head or all of it, what stands behind that, the status of its reply, and the reply.
type Row = (&'static [u8], Body, u16, Reply);

const ROWS: [Row; 25] = [
    (
        b"GET /motes/none HTTP/1.1\r\n\r\n",
        Body::Nothing,
        404,
        Reply::NotFound,
    ),
    (
        b"GET /components/a/versions HTTP/1.1\r\n\r\n",
        Body::Nothing,
        405,
        Reply::WrongMethod,
    ),
    (
        b"POST /components/a/versions HTTP/1.1\r\n\r\n",
        Body::Nothing,
        400,
        Reply::Malformed,
    ),
    (
        b"POST /components/a/versions HTTP/1.1\r\nContent-Length: 262145\r\n\r\n",
        Body::Nothing,
        413,
        Reply::TooLarge,
    ),
    (
        b"POST /components/bare/versions HTTP/1.1\r\nRequest-Key: k\r\nContent-Length: 100\r\n\r\n",
        Body::Cut,
        422,
        Reply::BadObject,
    ),
    (
        b"POST /components/bare/versions HTTP/1.1\r\nRequest-Key: k\r\nContent-Length: 144\r\n\r\n",
        Body::Bare,
        201,
        Reply::Version,
    ),
    (
        b"POST /components/bare/versions HTTP/1.1\r\nRequest-Key: k\r\nContent-Length: 144\r\n\r\n",
        Body::Bare,
        201,
        Reply::Version,
    ),
    (
        b"POST /components/bare/versions HTTP/1.1\r\nRequest-Key: k\r\nContent-Length: 100\r\n\r\n",
        Body::Cut,
        409,
        Reply::KeyTaken,
    ),
    (
        b"POST /motes/m/acks HTTP/1.1\r\nRequest-Key: k\r\nContent-Length: 7\r\n\r\nno JSON",
        Body::Nothing,
        409,
        Reply::KeyTaken,
    ),
    (
        b"POST /motes/m/acks HTTP/1.1\r\nRequest-Key: l\r\nContent-Length: 7\r\n\r\nno JSON",
        Body::Nothing,
        400,
        Reply::Malformed,
    ),
    (
        b"POST /motes/m/acks HTTP/1.1\r\nRequest-Key: l\r\nContent-Length: 13\r\n\r\n{\"release\":1}",
        Body::Nothing,
        404,
        Reply::NotFound,
    ),
    (
        b"POST /motes/m/releases HTTP/1.1\r\nRequest-Key: l\r\nContent-Length: 400\r\n\r\n",
        Body::Deep,
        400,
        Reply::Malformed,
    ),
    (
        b"POST /motes/m/releases HTTP/1.1\r\nRequest-Key: l\r\nContent-Length: 161\r\n\r\n",
        Body::Seventeen,
        400,
        Reply::Malformed,
    ),
    (
        b"POST /motes/m/releases HTTP/1.1\r\nRequest-Key: l\r\nContent-Length: 12\r\n\r\n[[\"bare\",2]]",
        Body::Nothing,
        404,
        Reply::NotFound,
    ),
    (
        b"GET /motes/m HTTP/1.1\r\n\r\n",
        Body::Nothing,
        404,
        Reply::NotFound,
    ),
    (
        b"GET /motes/m/update?have=0 HTTP/1.1\r\n\r\n",
        Body::Nothing,
        404,
        Reply::NotFound,
    ),
    (
        b"POST /motes/m/releases HTTP/1.1\r\nRequest-Key: l\r\nContent-Length: 12\r\n\r\n[[\"bare\",1]]",
        Body::Nothing,
        201,
        Reply::Release,
    ),
    (
        b"GET /motes/m HTTP/1.1\r\n\r\n",
        Body::Nothing,
        200,
        Reply::Mote,
    ),
    (
        b"GET /motes/m/update?have=1 HTTP/1.1\r\n\r\n",
        Body::Nothing,
        200,
        Reply::Update,
    ),
    (
        b"GET /motes/m/update?have=2 HTTP/1.1\r\n\r\n",
        Body::Nothing,
        404,
        Reply::NotFound,
    ),
    (
        b"GET /motes/m/releases/1/image HTTP/1.1\r\n\r\n",
        Body::Nothing,
        200,
        Reply::Image,
    ),
    (
        b"GET /motes/m/releases/2/image HTTP/1.1\r\n\r\n",
        Body::Nothing,
        404,
        Reply::NotFound,
    ),
    (
        b"POST /motes/m/acks HTTP/1.1\r\nRequest-Key: m\r\nContent-Length: 13\r\n\r\n{\"release\":1}",
        Body::Nothing,
        201,
        Reply::Acknowledgement,
    ),
    (
        b"POST /motes/m/acks HTTP/1.1\r\nRequest-Key: n\r\nContent-Length: 13\r\n\r\n{\"release\":2}",
        Body::Nothing,
        404,
        Reply::NotFound,
    ),
    (
        b"GET /motes/m HTTP/1.1\r\n\r\n",
        Body::Nothing,
        200,
        Reply::Acknowledged,
    ),
];

const FAILED: &[u8] =
    b"HTTP/1.1 503 Service Unavailable\r\nContent-Type: application/json\r\nContent-Length: 25\r\nConnection: close\r\n\r\n{\"refusal\":6,\"values\":[]}";

// These bytes in pieces of so many, where the read of this number fails, from 1.
fn source(alloc: Global, input: &[u8], chunk: usize, fail: u32) -> Result<MemorySource, Fail>
    requires { 0 < chunk }
{
    let fail = [fail].to_vec(alloc)?;
    Ok(MemorySource::new(input.to_vec(alloc)?, chunk, fail))
}

// What comes of a request: its own reply, the one that says that the keeper failed, or something else.
#[derive(Clone, Copy, Debug, PartialEq, Eq)]
enum Came {
    Own,
    Failed,
    Other,
}

fn what_came(served: Served, written: &[u8], row: Row) -> Came {
    let (_, _, status, reply) = row;
    if served == Served::Done(503) && written == FAILED {
        return Came::Failed;
    }
    if served == Served::Done(status) && written == reply_bytes(reply) {
        return Came::Own;
    }
    Came::Other
}

fn serve_source(
    alloc: Global,
    keeper: &mut MemoryKeeper,
    source: &mut MemorySource,
    row: Row,
) -> Result<Came, Fail> {
    let mut sink = MemorySink::new(alloc, 400, Vec::new(alloc))?;
    let served = serve_connection(alloc, source, &mut sink, keeper);
    Ok(what_came(served, sink.bytes(), row))
}

fn request(alloc: Global, row: Row) -> Result<Vec<u8>, Fail> {
    let mut bytes = row.0.to_vec(alloc)?;
    bytes.extend_from_slice(body_bytes(row.1))?;
    Ok(bytes)
}

fn serve_input(
    alloc: Global,
    keeper: &mut MemoryKeeper,
    input: &[u8],
    row: Row,
    chunk: usize,
) -> Result<Came, Fail>
    requires { 0 < chunk }
{
    let mut source = source(alloc, input, chunk, 0)?;
    serve_source(alloc, keeper, &mut source, row)
}

// Serves a request that comes in pieces of so many bytes, and says what came of it.
fn serve(alloc: Global, keeper: &mut MemoryKeeper, row: Row, chunk: usize) -> Result<Came, Fail>
    requires { 0 < chunk }
{
    let input = request(alloc, row)?;
    serve_input(alloc, keeper, &input, row, chunk)
}

const CUT: &[u8] =
    b"POST /motes/m/acks HTTP/1.1\r\nRequest-Key: k\r\nContent-Length: 14\r\n\r\n{\"release\":1}";

// Whether this comes of a source, and no byte is written.
fn comes_silently(
    alloc: Global,
    keeper: &mut MemoryKeeper,
    source: &mut MemorySource,
    wanted: Served,
) -> Result<bool, Fail> {
    let mut sink = MemorySink::new(alloc, 400, Vec::new(alloc))?;
    let served = serve_connection(alloc, source, &mut sink, keeper);
    Ok(served == wanted && sink.bytes().is_empty())
}

// Whether this comes of the cut request, in pieces of so many bytes and where this read fails, and no byte is written.
fn comes_to(alloc: Global, chunk: usize, fail: u32, wanted: Served) -> Result<bool, Fail>
    requires { 0 < chunk }
{
    let mut source = source(alloc, CUT, chunk, fail)?;
    let mut keeper = MemoryKeeper::new(alloc, Vec::new(alloc));
    comes_silently(alloc, &mut keeper, &mut source, wanted)
}

#[test]
fn a_cut_request_has_no_reply(rt: HostRuntime) -> Result<(), Fail> {
    assert!(rt; comes_to(rt.alloc(), 10, 0, Served::Truncated)?);
    for fail in 1..4 {
        assert!(rt;
            comes_to(rt.alloc(), 30, fail, Served::ReadFault)?,
            "{fail}"
        );
    }
    Ok(())
}

// Whether a reply says that the keeper failed, where the request has its own reply when it comes again; none where it hasn't.
fn has_failed(
    alloc: Global,
    keeper: &mut MemoryKeeper,
    row: Row,
    chunk: usize,
) -> Result<Option<bool>, Fail>
    requires { 0 < chunk }
{
    match serve(alloc, keeper, row, chunk)? {
        Came::Own => Ok(Some(false)),
        Came::Failed => Ok(match serve(alloc, keeper, row, chunk)? {
            Came::Own => Some(true),
            _ => None,
        }),
        Came::Other => Ok(None),
    }
}

// How many replies say that the keeper failed, where each request has its own reply when it comes again; none where one hasn't.
fn failures_over(
    alloc: Global,
    keeper: &mut MemoryKeeper,
    chunk: usize,
    rows: &[Row],
) -> Result<Option<u32>, Fail>
    requires { 0 < chunk }
{
    let mut failures = 0u32;
    for row in rows {
        match has_failed(alloc, keeper, *row, chunk)? {
            Some(true) => failures = failures.saturating_add(1),
            Some(false) => {}
            None => return Ok(None),
        }
    }
    Ok(Some(failures))
}

// The same over a keeper that is empty at first and whose call of this number fails, from 1.
fn failures(alloc: Global, failing: u32, chunk: usize, rows: &[Row]) -> Result<Option<u32>, Fail>
    requires { 0 < chunk }
{
    let mut keeper = MemoryKeeper::new(alloc, [failing].to_vec(alloc)?);
    failures_over(alloc, &mut keeper, chunk, rows)
}

#[test]
fn requests_have_their_replies(rt: HostRuntime) -> Result<(), Fail> {
    assert_eq!(rt; failures(rt.alloc(), 0, 8192, &ROWS)?, Some(0));
    assert_eq!(rt; failures(rt.alloc(), 0, 1, &ROWS)?, Some(0));
    Ok(())
}

// How many calls on the keeper the replies to all requests take.
const CALLS: u32 = 47;

// The first of so many calls whose failing doesn't come out as one reply.
fn first_calm(alloc: Global, calls: u32, rows: &[Row]) -> Result<Option<u32>, Fail> {
    for failing in 1..calls.saturating_add(1) {
        if failures(alloc, failing, 8192, rows)? != Some(1) {
            return Ok(Some(failing));
        }
    }
    Ok(None)
}

#[test]
fn each_call_fails_once(rt: HostRuntime) -> Result<(), Fail> {
    assert_eq!(rt; first_calm(rt.alloc(), CALLS, &ROWS)?, None);
    assert_eq!(rt; failures(rt.alloc(), CALLS + 1, 8192, &ROWS)?, Some(0));
    Ok(())
}

fn loses_reply_of(
    alloc: Global,
    keeper: &mut MemoryKeeper,
    source: &mut MemorySource,
    reply: &[u8],
    fail: u32,
) -> Result<bool, Fail> {
    let fail = [fail].to_vec(alloc)?;
    let mut sink = MemorySink::new(alloc, 400, fail)?;
    let served = serve_connection(alloc, source, &mut sink, keeper);
    Ok(served == Served::WriteFault && reply.starts_with(sink.bytes()))
}

fn loses_reply_to(
    alloc: Global,
    keeper: &mut MemoryKeeper,
    input: &[u8],
    reply: &[u8],
    fail: u32,
) -> Result<bool, Fail> {
    let mut source = source(alloc, input, 8192, 0)?;
    loses_reply_of(alloc, keeper, &mut source, reply, fail)
}

// Whether a request's reply breaks off at this write.
fn loses_reply(
    alloc: Global,
    keeper: &mut MemoryKeeper,
    row: Row,
    fail: u32,
) -> Result<bool, Fail> {
    let input = request(alloc, row)?;
    loses_reply_to(alloc, keeper, &input, reply_bytes(row.3), fail)
}

fn stays_over(alloc: Global, keeper: &mut MemoryKeeper, row: Row, fail: u32) -> Result<bool, Fail> {
    if !loses_reply(alloc, keeper, row, fail)? {
        return Ok(false);
    }
    Ok(serve(alloc, keeper, row, 8192)? == Came::Own)
}

// Whether a request that was done, but whose reply failed at this write, has its reply when it comes again.
fn stays(alloc: Global, row: Row, fail: u32) -> Result<bool, Fail> {
    let mut keeper = MemoryKeeper::new(alloc, Vec::new(alloc));
    stays_over(alloc, &mut keeper, row, fail)
}

// Whether all of these requests have their replies when they come again.
fn all_stay(alloc: Global, rows: &[Row]) -> Result<bool, Fail> {
    for row in rows {
        if !stays(alloc, *row, 1)? || !stays(alloc, *row, 2)? {
            return Ok(false);
        }
    }
    Ok(true)
}

#[test]
fn what_was_accepted_stays_where_the_reply_is_lost(rt: HostRuntime) -> Result<(), Fail> {
    assert!(rt; all_stay(rt.alloc(), &ROWS[5..6])?);
    Ok(())
}
