//! The connections of an HTTP server over TCP, one at a time.
//!
//! `TcpConnections` is a listener on a TCP port, and `TcpInput` and `TcpOutput` are the ends of a connection that it accepted. They tell
//! nothing of bytes. No client holds the server for longer than the limits of this crate: a call, a request, a reply and the end of a
//! connection each have one. A client that breaks them loses its own connection and no other.
#![tactic(auto)]

ghost use Rattle.std.specs.Prelude.{◌≤◌};
ghost use Rattle.http_edges.specs.Edge.{Rose};

mod connections;
mod input;
mod limits;
mod output;
mod sockets;
#[cfg(test)]
mod tests;

pub use connections::TcpConnections;
pub use input::TcpInput;
pub use limits::{
    ACCEPT_TRIES, CALL_SECONDS, LINGER_BYTES, LINGER_SECONDS, REPLY_SECONDS, REQUEST_SECONDS,
};
pub use output::TcpOutput;

// One more fault, or as many as a count can hold.
fn raised(faults: u64) -> u64
    ensures rose { Rose faults result }
    ensures no_less { faults ≤ result }
{
    faults.saturating_add(1)
}
