//! That a listener in memory has the memory that it asks for, and each call on its happy path and once there is no connection.
ghost use Rattle.std.specs.Prelude.{All, IfOk};
ghost use Rattle.http_listeners.specs.Conns.{IsFresh};

use http_edges::{Failed, MemorySink, MemorySource, Sink, Source};
use http_listeners::{Conn, Listener, MemoryListener};
use std::alloc::Global;
use std::test::Fail;

const INPUTS: [&[u8]; 2] = [b"first", b"second"];

// Whether each echo goes, and how many connections are finished after it.
const ECHOES: [(bool, usize); 4] = [(true, 1), (true, 2), (false, 2), (false, 2)];

// A connection in memory with this input.
fn conn(alloc: Global, input: &[u8]) -> Result<Conn<MemorySource, MemorySink>, Fail>
    ensures { IfOk result IsFresh }
{
    Ok(Conn {
        input: MemorySource::new(input.to_vec(alloc)?, 8, Vec::new(alloc)),
        output: MemorySink::new(alloc, 8, Vec::new(alloc))?,
    })
}

// Connections in memory with these inputs.
fn conns(alloc: Global, inputs: &[&[u8]]) -> Result<Vec<Conn<MemorySource, MemorySink>>, Fail>
    ensures { IfOk result (λ conns. All IsFresh conns.items) }
{
    let mut conns = Vec::new(alloc);
    for input in inputs {
        conns.push(conn(alloc, input)?)?;
    }
    Ok(conns)
}

// Accepts a connection, writes to it what it gives, and finishes it.
fn echo<L: Listener>(listener: &mut L) -> Result<(), Failed> {
    let mut conn = listener.accept()?;
    let mut buffer = [0; 8];
    let read = conn.input.read(&mut buffer);
    if let Ok(count) = read {
        let _ = conn.output.write(&buffer[..count]);
    }
    listener.finish(conn);
    Ok(())
}

// The first echo that goes otherwise than these rows say, or after which another number of connections is finished.
fn first_wrong_echo(listener: &mut MemoryListener, rows: &[(bool, usize)]) -> Option<usize> {
    for (i, (goes, finished)) in rows.iter().enumerate() {
        if echo(listener).is_ok() != *goes || listener.finished().len() != *finished {
            return Some(i);
        }
    }
    None
}

// What was written to these connections, one after another.
fn written(alloc: Global, conns: &[Conn<MemorySource, MemorySink>]) -> Result<Vec<u8>, Fail> {
    let mut written = Vec::new(alloc);
    for conn in conns {
        written.extend_from_slice(conn.output.bytes())?;
    }
    Ok(written)
}

#[test]
fn connections_go_in_their_order(rt: HostRuntime) -> Result<(), Fail> {
    let mut listener = MemoryListener::new(rt.alloc(), conns(rt.alloc(), &INPUTS)?)?;
    assert_eq!(rt; listener.finished().len(), 0);
    assert_eq!(rt; first_wrong_echo(&mut listener, &ECHOES), None);
    let written = written(rt.alloc(), listener.finished())?;
    assert_eq!(rt; written.as_slice(), b"firstsecond".as_slice());
    Ok(())
}
