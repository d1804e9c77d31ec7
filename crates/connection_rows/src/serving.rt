//! A server over connections and a keeper in memory: its status, and what each finished connection was answered.
ghost use Rattle.std.specs.Prelude.{All, IfOk};
ghost use Rattle.http_listeners.specs.Conns.{IsFresh};

use http_edges::{MemorySink, MemorySource};
use http_listeners::{Conn, MemoryListener};
use release_keeper::MemoryKeeper;
use server_loop::server_main;
use std::alloc::Global;
use std::test::Fail;

// What a connection gives, which of its reads fails and which of its writes, 0 for none, and what is written to it.
type Row<'a> = (&'a [u8], u32, u32, &'a [u8]);

const GET: &[u8] = b"GET /motes/none HTTP/1.1\r\n\r\n";

const MISSING: &[u8] =
    b"HTTP/1.1 404 Not Found\r\nContent-Type: application/json\r\nContent-Length: 25\r\nConnection: close\r\n\r\n{\"refusal\":2,\"values\":[]}";

const MISSING_HEAD: &[u8] =
    b"HTTP/1.1 404 Not Found\r\nContent-Type: application/json\r\nContent-Length: 25\r\nConnection: close\r\n\r\n";

const KEYLESS: &[u8] = b"POST /components/a/versions HTTP/1.1\r\n\r\n";

const BAD: &[u8] =
    b"HTTP/1.1 400 Bad Request\r\nContent-Type: application/json\r\nContent-Length: 25\r\nConnection: close\r\n\r\n{\"refusal\":1,\"values\":[]}";

const CUT: &[u8] =
    b"POST /motes/m/acks HTTP/1.1\r\nRequest-Key: k\r\nContent-Length: 14\r\n\r\n{\"release\":1}";

const FAILED: &[u8] =
    b"HTTP/1.1 503 Service Unavailable\r\nContent-Type: application/json\r\nContent-Length: 25\r\nConnection: close\r\n\r\n{\"refusal\":6,\"values\":[]}";

// Two requests; then a source that fails, a sink that fails in the midst and a cut request, each with a good request after it.
const ROWS: [Row<'static>; 8] = [
    (GET, 0, 0, MISSING),
    (KEYLESS, 0, 0, BAD),
    (GET, 1, 0, b""),
    (GET, 0, 0, MISSING),
    (GET, 0, 2, MISSING_HEAD),
    (GET, 0, 0, MISSING),
    (CUT, 0, 0, b""),
    (GET, 0, 0, MISSING),
];

// Requests to a keeper whose first call fails.
const AFTER_FAILURE: [Row<'static>; 2] = [(GET, 0, 0, FAILED), (GET, 0, 0, MISSING)];

// Words that the command refuses.
const REFUSED: [&[&str]; 6] = [
    &["--connections", "0"],
    &["--connections", "1000001"],
    &["--connections", "2", "3"],
    &["--connections"],
    &["--help"],
    &["--", "x"],
];

// A connection that gives and fails as this row says.
fn conn(alloc: Global, row: Row<'_>) -> Result<Conn<MemorySource, MemorySink>, Fail>
    ensures { IfOk result IsFresh }
{
    let (input, failing_read, failing_write, _) = row;
    Ok(Conn {
        input: MemorySource::new(input.to_vec(alloc)?, 64, [failing_read].to_vec(alloc)?),
        output: MemorySink::new(alloc, 400, [failing_write].to_vec(alloc)?)?,
    })
}

// Connections that give and fail as these rows say.
fn conns(alloc: Global, rows: &[Row<'_>]) -> Result<Vec<Conn<MemorySource, MemorySink>>, Fail>
    ensures { IfOk result (λ conns. All IsFresh conns.items) }
{
    let mut conns = Vec::new(alloc);
    for row in rows {
        conns.push(conn(alloc, *row)?)?;
    }
    Ok(conns)
}

// The first connection to which something else was written than its row says.
fn first_wrong(conns: &[Conn<MemorySource, MemorySink>], rows: &[Row<'_>]) -> Option<usize> {
    for (i, (conn, row)) in conns.iter().zip(rows).enumerate() {
        if conn.output.bytes() != row.3 {
            return Some(i);
        }
    }
    None
}

// The status of a server over these connections and a keeper whose call of this number fails, how many connections are finished, and the first
// to which something else was written.
fn serve(
    alloc: Global,
    words: &[&str],
    failing_call: u32,
    rows: &[Row<'_>],
) -> Result<(u8, usize, Option<usize>), Fail> {
    // What may fail stands before what is dear to drop.
    let failing_calls = [failing_call].to_vec(alloc)?;
    let mut listener = MemoryListener::new(alloc, conns(alloc, rows)?)?;
    let mut keeper = MemoryKeeper::new(alloc, failing_calls);
    let status = server_main(alloc, words, &mut listener, &mut keeper);
    let finished = listener.finished();
    Ok((status, finished.len(), first_wrong(finished, rows)))
}

// The first of these words that are taken.
fn first_taken(alloc: Global, rows: &[&[&str]]) -> Result<Option<usize>, Fail> {
    for (i, words) in rows.iter().enumerate() {
        if serve(alloc, words, 0, &ROWS)? != (64, 0, None) {
            return Ok(Some(i));
        }
    }
    Ok(None)
}

#[test]
fn two_requests_are_answered(rt: HostRuntime) -> Result<(), Fail> {
    let two = serve(rt.alloc(), &["--connections", "2"], 0, &ROWS[..2])?;
    assert_eq!(rt; two, (0, 2, None));
    Ok(())
}

#[test]
fn a_failed_connection_leaves_the_next_ones(rt: HostRuntime) -> Result<(), Fail> {
    let all = serve(rt.alloc(), &["--connections=8"], 0, &ROWS)?;
    assert_eq!(rt; all, (0, 8, None));
    Ok(())
}

#[test]
fn a_listener_that_fails_ends_the_server(rt: HostRuntime) -> Result<(), Fail> {
    let all = serve(rt.alloc(), &[], 0, &ROWS)?;
    assert_eq!(rt; all, (5, 8, None));
    let two = serve(rt.alloc(), &["--connections", "3"], 0, &ROWS[..2])?;
    assert_eq!(rt; two, (5, 2, None));
    Ok(())
}

#[test]
fn a_keeper_that_fails_is_told_once(rt: HostRuntime) -> Result<(), Fail> {
    let both = serve(rt.alloc(), &["--connections", "2"], 1, &AFTER_FAILURE)?;
    assert_eq!(rt; both, (0, 2, None));
    Ok(())
}

#[test]
fn other_words_are_refused(rt: HostRuntime) -> Result<(), Fail> {
    assert_eq!(rt; first_taken(rt.alloc(), &REFUSED)?, None);
    Ok(())
}
