//! Calls on a socket that end in time.
ghost use Rattle.std.specs.Prelude.{◌≤◌, ◌≡◌, length, IfOk};

use crate::limits::{
    ACCEPT_TRIES, CALL_TRIES, LINGER_BYTES, LINGER_SECONDS, moment_in, wait_until,
};
use std::io;
use std::io::{ErrorKind, Read, Write};
use std::net::{OpenListener, Shutdown, TcpStream};
use std::time::{Clock, Duration};

/// Reads what has come, and waits for it until that moment at most.
pub(crate) fn receive<R: Clock>(
    rt: &R,
    stream: &mut TcpStream,
    end: Duration,
    into: &mut [u8],
) -> io::Result<usize>
    ensures within { IfOk result (λ count. count ≤ length into.old) }
    ensures size { length into.new ≡ length into.old }
{
    for _ in 0..CALL_TRIES {
        let wait = wait_until(rt, end)?;
        stream.set_read_timeout(Some(wait))?;
        match stream.read(into) {
            Ok(count) => return Ok(count),
            Err(error) if error.kind() == ErrorKind::Interrupted => {}
            Err(error) => return Err(error),
        }
    }
    Err(io::Error::from(ErrorKind::Interrupted))
}

/// Hands bytes to the system, and waits for room until that moment at most.
pub(crate) fn send<R: Clock>(
    rt: &R,
    stream: &mut TcpStream,
    end: Duration,
    from: &[u8],
) -> io::Result<usize>
    ensures within { IfOk result (λ count. count ≤ length from.now) }
{
    for _ in 0..CALL_TRIES {
        let wait = wait_until(rt, end)?;
        stream.set_write_timeout(Some(wait))?;
        match stream.write(from) {
            Ok(count) => return Ok(count),
            Err(error) if error.kind() == ErrorKind::Interrupted => {}
            Err(error) => return Err(error),
        }
    }
    Err(io::Error::from(ErrorKind::Interrupted))
}

/// Says to the client that its reply is whole, and waits for it to close.
///
/// A socket that is closed with bytes unread makes the system reset the connection, which may destroy a reply that the client hasn't read.
/// So the bytes that still come are read and dropped, within the limits.
pub(crate) fn linger<R: Clock>(rt: &R, stream: &mut TcpStream) -> io::Result<()> {
    stream.shutdown(Shutdown::Write)?;
    let end = moment_in(rt, LINGER_SECONDS)?;
    let mut dropped = [0; 4096];
    let mut room = LINGER_BYTES;
    while room > 0 {
        let count = receive(rt, stream, end, &mut dropped)?;
        if count == 0 {
            return Ok(());
        }
        room = room.saturating_sub(count);
    }
    Ok(())
}

// Whether an accept failed for the client's sake, so that another client may well be there.
fn is_passing(kind: ErrorKind) -> bool {
    matches!(
        kind,
        ErrorKind::ConnectionAborted
            | ErrorKind::ConnectionReset
            | ErrorKind::Interrupted
            | ErrorKind::TimedOut
            | ErrorKind::HostUnreachable
            | ErrorKind::NetworkUnreachable
            | ErrorKind::NetworkDown
    )
}

/// The socket of the next client that hasn't gone, of the next `ACCEPT_TRIES` clients.
pub(crate) fn next_stream<L: OpenListener>(listener: &L) -> io::Result<L::Stream> {
    for _ in 0..ACCEPT_TRIES {
        match listener.accept() {
            Ok((stream, _)) => return Ok(stream),
            Err(error) if is_passing(error.kind()) => {}
            Err(error) => return Err(error),
        }
    }
    Err(io::Error::from(ErrorKind::ConnectionAborted))
}
