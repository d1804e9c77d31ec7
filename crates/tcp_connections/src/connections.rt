//! A listener on a TCP port.
ghost use Rattle.std.specs.Prelude.{◌≡◌, ◌≤◌, IfOk};

use crate::limits::{REQUEST_SECONDS, moment_in};
use crate::sockets::{linger, next_stream};
use crate::{TcpInput, TcpOutput, raised};
use http_edges::Failed;
use http_listeners::{Conn, Listener};
use std::io;
use std::io::ErrorKind;
use std::net::{Net, SocketAddr, TcpListener, TcpStream};
use std::time::Clock;

/// The connections that clients make to a TCP port, one at a time.
///
/// An accept is `Failed` where the address can't be bound, where the system has no room for a connection, where the clock can't be read, or
/// where as many connections aren't finished as a count can hold. The next accept tries all that again. A client that has gone before its
/// accept is passed over, `ACCEPT_TRIES` of them in a row at most.
#[derive(Drop)]
pub struct TcpConnections<'a, R>
where
    R: Net<Listener = TcpListener, Stream = TcpStream> + Clock,
{
    rt: &'a R,
    address: &'a str,
    listener: Option<TcpListener>,
    unfinished: u64,
    faults: u64,
}

impl<'a, R> TcpConnections<'a, R>
where
    R: Net<Listener = TcpListener, Stream = TcpStream> + Clock,
{
    ghost use Rattle.tcp_connections.specs.Tcp.{
      connections_view,
      untold_listener,
      input_view,
      output_view,
      untold_source,
      untold_sink,
    };

    /// The connections to this address, as `127.0.0.1:8080`, which the first accept binds.
    pub fn at(rt: &'a R, address: &'a str) -> TcpConnections<'a, R>
        ensures { connections_view result ≡ untold_listener 0 0 }
    {
        TcpConnections {
            rt,
            address,
            listener: None,
            unfinished: 0,
            faults: 0,
        }
    }

    /// The connections to a port that is bound.
    pub fn over(rt: &'a R, listener: TcpListener) -> TcpConnections<'a, R>
        ensures { connections_view result ≡ untold_listener 0 0 }
    {
        TcpConnections {
            rt,
            address: "",
            listener: Some(listener),
            unfinished: 0,
            faults: 0,
        }
    }

    /// The address that is bound, with the port that the system chose where port 0 was asked for. There is none before the first accept of
    /// `TcpConnections::at`.
    pub fn local_addr(&self) -> Option<SocketAddr> {
        match &self.listener {
            Some(listener) => listener.local_addr().ok(),
            None => None,
        }
    }

    /// Binds the address where that wasn't done yet.
    pub(crate) fn bind(&mut self) -> io::Result<()>
        ensures faults { self.new.faults ≡ self.old.faults }
        ensures unfinished { self.new.unfinished ≡ self.old.unfinished }
    {
        if self.listener.is_none() {
            self.listener = Some(TcpListener::bind(self.rt, self.address)?);
        }
        Ok(())
    }

    // The socket of the next client.
    fn next_client(&mut self) -> io::Result<TcpStream>
        ensures faults { self.new.faults ≡ self.old.faults }
        ensures unfinished { self.new.unfinished ≡ self.old.unfinished }
    {
        self.bind()?;
        match &self.listener {
            Some(listener) => next_stream(listener),
            None => Err(io::Error::from(ErrorKind::NotConnected)),
        }
    }

    // The connection of the next client.
    fn next_conn(&mut self) -> io::Result<Conn<TcpInput<'a, R>, TcpOutput<'a, R>>>
        ensures faults { self.new.faults ≡ self.old.faults }
        ensures unfinished { self.new.unfinished ≡ self.old.unfinished }
        ensures input { IfOk result (λ conn. input_view conn.input ≡ untold_source 0) }
        ensures output { IfOk result (λ conn. output_view conn.output ≡ untold_sink 0) }
    {
        let stream = self.next_client()?;
        let end = moment_in(self.rt, REQUEST_SECONDS)?;
        // A reply goes out as it is written, and doesn't wait until a packet is full.
        let _ = stream.set_nodelay(true);
        let output = TcpOutput::new(self.rt, stream.try_clone()?);
        let input = TcpInput::new(self.rt, stream, end);
        Ok(Conn { input, output })
    }
}

impl<'a, R> Listener for TcpConnections<'a, R>
where
    R: Net<Listener = TcpListener, Stream = TcpStream> + Clock,
{
    ghost use Rattle.http_listeners.specs.Listener.{Finishes, ends};
    ghost use Rattle.tcp_connections.specs.Tcp.{connections_view, input_view, output_view};

    type In = TcpInput<'a, R>;

    type Out = TcpOutput<'a, R>;

    ghost view = { connections_view };

    fn accept(&mut self) -> Result<Conn<TcpInput<'a, R>, TcpOutput<'a, R>>, Failed> {
        if self.unfinished < u64::MAX {
            if let Ok(conn) = self.next_conn() {
                self.unfinished += 1;
                return Ok(conn);
            }
        }
        self.faults = raised(self.faults);
        Err(Failed)
    }

    // Where a read or a write failed there is no whole reply that could reach the client, and nothing to wait for.
    fn finish(&mut self, conn: Conn<TcpInput<'a, R>, TcpOutput<'a, R>>)
        requires { 1 ≤ (connections_view self.old).unfinished }
        ensures { Finishes (ends (input_view conn.entry.input) (output_view conn.entry.output)) (connections_view self.old) (connections_view self.new) }
    {
        self.unfinished -= 1;
        let mut conn = conn;
        if conn.input.is_well() && conn.output.is_well() {
            let _ = linger(self.rt, conn.input.stream());
        }
    }
}
