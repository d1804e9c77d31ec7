//! How long a client may hold the server, and how what is left of that time is told.
ghost use Rattle.std.specs.Prelude.{◌≡◌, ◌<◌, ◌≤◌, ◌*◌, IfOk};
ghost use Rattle.std.specs.Duration.{as_nanos};

use std::io;
use std::io::ErrorKind;
use std::time::{Clock, Duration};

/// How long one read or one write may wait for the client, in seconds.
pub const CALL_SECONDS: u64 = 5;

/// How long a request may take from the accept to its last byte, in seconds.
pub const REQUEST_SECONDS: u64 = 30;

/// How long a reply may take from its first write to its last byte, in seconds.
pub const REPLY_SECONDS: u64 = 30;

/// How long a connection may take to end once its reply was written, in seconds.
pub const LINGER_SECONDS: u64 = 2;

/// How many bytes that no request asked for are read and dropped at the end of a connection.
pub const LINGER_BYTES: usize = 1_048_576;

/// How often in a row an accept is tried again where the client has gone.
pub const ACCEPT_TRIES: u32 = 1000;

/// How often in a row a call is tried again that a signal interrupted.
pub(crate) const CALL_TRIES: u32 = 100;

/// The moment that lies so many seconds ahead, as the clock has it.
pub(crate) fn moment_in<R: Clock>(rt: &R, seconds: u64) -> io::Result<Duration> {
    let now = rt.monotonic()?;
    Ok(now.saturating_add(Duration::from_secs(seconds)))
}

// The shorter of the time that is left and the time that one call may wait. There is none to wait where no time is left.
fn wait_of(left: Duration) -> io::Result<Duration>
    ensures some { IfOk result (λ wait. 0 < as_nanos wait) }
    ensures most { IfOk result (λ wait. as_nanos wait ≤ CALL_SECONDS * 1_000_000_000) }
    ensures left { IfOk result (λ wait. as_nanos wait ≤ as_nanos left) }
{
    if left.is_zero() {
        return Err(io::Error::from(ErrorKind::TimedOut));
    }
    Ok(left.min(Duration::from_secs(CALL_SECONDS)))
}

/// How long the next call may wait that has to end by that moment. It is an error where that moment is past.
pub(crate) fn wait_until<R: Clock>(rt: &R, end: Duration) -> io::Result<Duration>
    ensures some { IfOk result (λ wait. 0 < as_nanos wait) }
    ensures most { IfOk result (λ wait. as_nanos wait ≤ CALL_SECONDS * 1_000_000_000) }
{
    let now = rt.monotonic()?;
    wait_of(end.saturating_sub(now))
}
