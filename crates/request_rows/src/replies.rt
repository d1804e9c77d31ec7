//! Replies as they are written, and as a sink breaks off.

use http_edges::MemorySink;
use http_replies::{MediaType, Status, write_reply};
use std::alloc::Global;
use std::test::Fail;

const MISSING: &[u8] =
    b"HTTP/1.1 404 Not Found\r\nContent-Type: application/json\r\nContent-Length: 25\r\nConnection: close\r\n\r\n{\"refusal\":2,\"values\":[]}";

const BODY: &[u8] = b"{\"refusal\":2,\"values\":[]}";

fn write_missing(sink: &mut MemorySink) -> bool {
    write_reply(sink, Status::NotFound, MediaType::Json, BODY).is_ok()
}

fn write_nothing(sink: &mut MemorySink) -> bool {
    write_reply(sink, Status::Success, MediaType::OctetStream, b"").is_ok()
}

// Whether a reply is written, the next one isn't, and the one behind it is.
fn writes_but_one(sink: &mut MemorySink) -> [bool; 6] {
    [
        write_missing(sink),
        sink.bytes() == MISSING,
        !write_nothing(sink),
        sink.bytes() == MISSING,
        write_nothing(sink),
        sink.bytes().len() == MISSING.len() + 97,
    ]
}

fn third_write_fails(alloc: Global) -> Result<[bool; 6], Fail> {
    let fail = [3].to_vec(alloc)?;
    let mut sink = MemorySink::new(alloc, 300, fail)?;
    Ok(writes_but_one(&mut sink))
}

// Whether the reply without its body is written.
fn breaks_off(sink: &mut MemorySink) -> [bool; 2] {
    [
        !write_missing(sink),
        sink.bytes() == &MISSING[..MISSING.len() - 25],
    ]
}

fn second_write_fails(alloc: Global) -> Result<[bool; 2], Fail> {
    let fail = [2].to_vec(alloc)?;
    let mut sink = MemorySink::new(alloc, 300, fail)?;
    Ok(breaks_off(&mut sink))
}

#[test]
fn replies_are_written(rt: HostRuntime) -> Result<(), Fail> {
    assert_eq!(rt; third_write_fails(rt.alloc())?, [true; 6]);
    assert_eq!(rt; second_write_fails(rt.alloc())?, [true; 2]);
    Ok(())
}

/// A status, its code, and the first line of a reply with it.
type Row = (Status, u16, &'static [u8]);

const STATUSES: [Row; 10] = [
    (Status::Success, 200, b"HTTP/1.1 200 OK\r\n"),
    (Status::Created, 201, b"HTTP/1.1 201 Created\r\n"),
    (Status::BadRequest, 400, b"HTTP/1.1 400 Bad Request\r\n"),
    (Status::NotFound, 404, b"HTTP/1.1 404 Not Found\r\n"),
    (
        Status::MethodNotAllowed,
        405,
        b"HTTP/1.1 405 Method Not Allowed\r\n",
    ),
    (Status::Conflict, 409, b"HTTP/1.1 409 Conflict\r\n"),
    (
        Status::PayloadTooLarge,
        413,
        b"HTTP/1.1 413 Payload Too Large\r\n",
    ),
    (
        Status::UnprocessableEntity,
        422,
        b"HTTP/1.1 422 Unprocessable Entity\r\n",
    ),
    (
        Status::ServiceUnavailable,
        503,
        b"HTTP/1.1 503 Service Unavailable\r\n",
    ),
    (
        Status::InsufficientStorage,
        507,
        b"HTTP/1.1 507 Insufficient Storage\r\n",
    ),
];

fn writes_line(sink: &mut MemorySink, status: Status, line: &[u8]) -> bool {
    write_reply(sink, status, MediaType::Json, b"").is_ok() && sink.bytes().starts_with(line)
}

fn has_line(alloc: Global, row: &Row) -> Result<bool, Fail> {
    let (status, code, line) = *row;
    let mut sink = MemorySink::new(alloc, 300, Vec::new(alloc))?;
    Ok(writes_line(&mut sink, status, line) && status.code() == code)
}

// The first of these statuses with another code or another line.
fn first_other(alloc: Global, rows: &[Row]) -> Result<Option<usize>, Fail> {
    let mut i = 0usize;
    for row in rows {
        if !has_line(alloc, row)? {
            return Ok(Some(i));
        }
        i = i.wrapping_add(1);
    }
    Ok(None)
}

#[test]
fn lines_have_their_codes(rt: HostRuntime) -> Result<(), Fail> {
    assert_eq!(rt; first_other(rt.alloc(), &STATUSES)?, None);
    Ok(())
}
