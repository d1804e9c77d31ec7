//! The end of a connection over TCP that its reply goes to.
ghost use Rattle.std.specs.Prelude.{◌≡◌, ◌≤◌, ◌<◌, length, IfOk};

use crate::limits::{REPLY_SECONDS, moment_in};
use crate::raised;
use crate::sockets::send;
use http_edges::{Failed, Sink};
use std::io;
use std::io::ErrorKind;
use std::net::TcpStream;
use std::time::{Clock, Duration};

/// Where the reply of a connection goes.
///
/// A write waits `CALL_SECONDS` at most, and all writes of a connection end `REPLY_SECONDS` after the first one began. A write that would
/// take longer or finds the connection broken is `Failed`.
#[derive(Drop)]
pub struct TcpOutput<'a, R: Clock> {
    rt: &'a R,
    stream: TcpStream,
    end: Option<Duration>,
    faults: u64,
}

impl<'a, R: Clock> TcpOutput<'a, R> {
    ghost use Rattle.tcp_connections.specs.Tcp.{output_view, untold_sink};

    /// The output of a connection to which nothing was written.
    pub(crate) fn new(rt: &'a R, stream: TcpStream) -> TcpOutput<'a, R>
        ensures { output_view result ≡ untold_sink 0 }
    {
        TcpOutput {
            rt,
            stream,
            end: None,
            faults: 0,
        }
    }

    /// Whether no write failed.
    pub(crate) fn is_well(&self) -> bool {
        self.faults == 0
    }

    // The moment by which the reply has to be written, which the first write sets.
    fn reply_end(&mut self) -> io::Result<Duration>
        ensures { self.new.faults ≡ self.old.faults }
    {
        if let Some(end) = self.end {
            return Ok(end);
        }
        let end = moment_in(self.rt, REPLY_SECONDS)?;
        self.end = Some(end);
        Ok(end)
    }

    // Hands bytes to the system, which has to take some of a piece that isn't empty.
    fn put(&mut self, from: &[u8]) -> io::Result<usize>
        ensures faults { self.new.faults ≡ self.old.faults }
        ensures within { IfOk result (λ count. count ≤ length from.now) }
        ensures some { IfOk result (λ count. 0 < length from.now → 0 < count) }
    {
        if from.is_empty() {
            return Ok(0);
        }
        let end = self.reply_end()?;
        match send(self.rt, &mut self.stream, end, from) {
            Ok(0) => Err(io::Error::from(ErrorKind::WriteZero)),
            Ok(count) => Ok(count),
            Err(error) => Err(error),
        }
    }
}

impl<'a, R: Clock> Sink for TcpOutput<'a, R> {
    ghost use Rattle.tcp_connections.specs.Tcp.{output_view};

    ghost view = { output_view };

    fn write(&mut self, from: &[u8]) -> Result<usize, Failed> {
        match self.put(from) {
            Ok(count) => Ok(count),
            Err(_) => {
                self.faults = raised(self.faults);
                Err(Failed)
            }
        }
    }
}
