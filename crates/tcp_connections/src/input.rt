//! The end of a connection over TCP that its request comes from.
ghost use Rattle.std.specs.Prelude.{◌≡◌, ◌≤◌, length, IfOk};

use crate::raised;
use crate::sockets::receive;
use http_edges::{Failed, Source};
use std::net::TcpStream;
use std::time::{Clock, Duration};

/// Where the request of a connection comes from.
///
/// A read waits `CALL_SECONDS` at most, and all reads of a connection end `REQUEST_SECONDS` after its accept. A read that would take longer
/// or finds the connection broken is `Failed`.
#[derive(Drop)]
pub struct TcpInput<'a, R: Clock> {
    rt: &'a R,
    stream: TcpStream,
    end: Duration,
    faults: u64,
}

impl<'a, R: Clock> TcpInput<'a, R> {
    ghost use Rattle.tcp_connections.specs.Tcp.{input_view, untold_source};

    /// The input of a connection whose request has to be there by that moment.
    pub(crate) fn new(rt: &'a R, stream: TcpStream, end: Duration) -> TcpInput<'a, R>
        ensures { input_view result ≡ untold_source 0 }
    {
        TcpInput {
            rt,
            stream,
            end,
            faults: 0,
        }
    }

    /// Whether no read failed.
    pub(crate) fn is_well(&self) -> bool {
        self.faults == 0
    }

    /// The socket.
    pub(crate) fn stream(&mut self) -> &mut TcpStream {
        &mut self.stream
    }
}

impl<'a, R: Clock> Source for TcpInput<'a, R> {
    ghost use Rattle.tcp_connections.specs.Tcp.{input_view};

    ghost view = { input_view };

    fn read(&mut self, into: &mut [u8]) -> Result<usize, Failed> {
        match receive(self.rt, &mut self.stream, self.end, into) {
            Ok(count) => Ok(count),
            Err(_) => {
                self.faults = raised(self.faults);
                Err(Failed)
            }
        }
    }
}
