//! What no clause says: that bytes go both ways over a socket, and what becomes of clients that are slow or gone.
use crate::sockets::next_stream;
use crate::{ACCEPT_TRIES, TcpConnections, TcpInput, TcpOutput};
use http_edges::{Failed, Sink, Source, write_all};
use http_listeners::Listener;
use std::cell::Cell;
use std::io;
use std::io::{ErrorKind, Read, Write};
use std::net::{Ipv4Addr, OpenListener, Shutdown, SocketAddr, TcpListener, TcpStream};
use std::test::Fail;
use std::time::{Clock, Duration};

// A client and the server's socket for it.
fn pair(rt: &HostRuntime) -> io::Result<(TcpStream, TcpStream)> {
    let listener = TcpListener::bind(rt, "127.0.0.1:0")?;
    let client = TcpStream::connect(rt, listener.local_addr()?)?;
    Ok((client, listener.accept()?.0))
}

#[test]
fn bytes_go_both_ways(rt: HostRuntime) -> Result<(), Fail> {
    let listener = TcpListener::bind(&rt, "127.0.0.1:0")?;
    let mut client = TcpStream::connect(&rt, listener.local_addr()?)?;
    client.write_all(b"ask")?;
    client.shutdown(Shutdown::Write)?;
    let mut connections = TcpConnections::over(&rt, listener);
    let mut conn = connections.accept()?;
    let mut buffer = [0; 8];
    assert_eq!(rt; conn.input.read(&mut buffer), Ok(3));
    assert_eq!(rt; &buffer[..3], b"ask".as_slice());
    assert_eq!(rt; conn.input.read(&mut buffer), Ok(0));
    assert_eq!(rt; conn.output.write(b""), Ok(0));
    assert_eq!(rt; write_all(&mut conn.output, b"answer"), Ok(()));
    connections.finish(conn);
    let mut answer = Vec::new(rt.alloc());
    client.read_to_end(&mut answer)?;
    assert_eq!(rt; answer.as_slice(), b"answer".as_slice());
    Ok(())
}

#[test]
fn a_reply_outlives_unread_bytes(rt: HostRuntime) -> Result<(), Fail> {
    let listener = TcpListener::bind(&rt, "127.0.0.1:0")?;
    let mut client = TcpStream::connect(&rt, listener.local_addr()?)?;
    client.write_all(&[7; 32_768])?;
    client.shutdown(Shutdown::Write)?;
    let mut connections = TcpConnections::over(&rt, listener);
    let mut conn = connections.accept()?;
    let mut buffer = [0; 8];
    assert_eq!(rt; conn.input.read(&mut buffer), Ok(8));
    assert_eq!(rt; write_all(&mut conn.output, b"too much"), Ok(()));
    connections.finish(conn);
    let mut answer = Vec::new(rt.alloc());
    client.read_to_end(&mut answer)?;
    assert_eq!(rt; answer.as_slice(), b"too much".as_slice());
    Ok(())
}

#[test]
fn the_first_accept_binds(rt: HostRuntime) -> Result<(), Fail> {
    let mut connections = TcpConnections::at(&rt, "127.0.0.1:0");
    assert_eq!(rt; connections.local_addr(), None);
    connections.bind()?;
    let address = connections.local_addr().ok_or(Failed)?;
    let client = TcpStream::connect(&rt, address)?;
    let conn = connections.accept()?;
    drop(client);
    connections.finish(conn);
    assert_eq!(rt; connections.local_addr(), Some(address));
    Ok(())
}

// Whether the first accept at an address fails, and the next one too.
fn fails_twice(rt: &HostRuntime, address: &str) -> bool {
    let mut connections = TcpConnections::at(rt, address);
    connections.accept().is_err() && connections.accept().is_err()
}

#[test]
fn what_cannot_be_bound_is_a_fault(rt: HostRuntime) -> Result<(), Fail> {
    let taken = TcpListener::bind(&rt, "127.0.0.1:0")?;
    let address = format!(in rt.alloc(); "{}", taken.local_addr()?)?;
    for address in [
        address.as_str(),
        "",
        "127.0.0.1",
        "127.0.0.1:70000",
        "192.0.2.1:80",
    ] {
        assert!(rt; fails_twice(&rt, address), "{address}");
    }
    Ok(())
}

// A clock that stands still, or can't be read.
#[derive(Drop)]
struct Still(Option<Duration>);

impl Clock for Still {
    fn monotonic(&self) -> io::Result<Duration> {
        self.0.ok_or(io::Error::from(ErrorKind::Other))
    }

    fn since_1970(&self) -> io::Result<Duration> {
        self.monotonic()
    }
}

// What a client sends, the milliseconds at which its request is read, and what a read answers that has to end at 1,000.
struct Late {
    sent: &'static [u8],
    now: Option<u64>,
    want: Result<usize, Failed>,
}

const LATE: [Late; 6] = [
    Late {
        sent: b"ask",
        now: Some(0),
        want: Ok(3),
    },
    Late {
        sent: b"ask",
        now: Some(999),
        want: Ok(3),
    },
    Late {
        sent: b"",
        now: Some(999),
        want: Err(Failed),
    },
    Late {
        sent: b"ask",
        now: Some(1000),
        want: Err(Failed),
    },
    Late {
        sent: b"ask",
        now: Some(1001),
        want: Err(Failed),
    },
    Late {
        sent: b"ask",
        now: None,
        want: Err(Failed),
    },
];

// The first of these rows for which a read answers something else.
fn wrong_read(rt: &HostRuntime, rows: &[Late]) -> io::Result<Option<usize>> {
    for (i, row) in rows.iter().enumerate() {
        let (mut client, socket) = pair(rt)?;
        client.write_all(row.sent)?;
        let clock = Still(row.now.map(Duration::from_millis));
        let mut input = TcpInput::new(&clock, socket, Duration::from_secs(1));
        if input.read(&mut [0; 8]) != row.want {
            return Ok(Some(i));
        }
    }
    Ok(None)
}

#[test]
fn a_request_that_comes_too_late_is_a_fault(rt: HostRuntime) -> Result<(), Fail> {
    assert_eq!(rt; wrong_read(&rt, &LATE)?, None);
    Ok(())
}

// A clock that goes on by some seconds each time it is read.
#[derive(Drop)]
struct Going {
    now: Cell<u64>,
    step: u64,
}

impl Clock for Going {
    fn monotonic(&self) -> io::Result<Duration> {
        let now = self.now.get();
        self.now.set(now.saturating_add(self.step));
        Ok(Duration::from_secs(now))
    }

    fn since_1970(&self) -> io::Result<Duration> {
        self.monotonic()
    }
}

#[test]
fn a_reply_that_takes_too_long_is_a_fault(rt: HostRuntime) -> Result<(), Fail> {
    let (client, socket) = pair(&rt)?;
    let clock = Going {
        now: Cell::new(7),
        step: 10,
    };
    let mut output = TcpOutput::new(&clock, socket);
    assert_eq!(rt; output.write(b""), Ok(0));
    assert_eq!(rt; output.write(b"a"), Ok(1));
    assert_eq!(rt; output.write(b"b"), Ok(1));
    assert_eq!(rt; output.write(b"c"), Err(Failed));
    assert_eq!(rt; output.write(b"d"), Err(Failed));
    drop(client);
    Ok(())
}

// A listener whose accepts fail so often before there is a client.
#[derive(Drop)]
struct Busy {
    accepts: Cell<u32>,
    fails: u32,
    kind: ErrorKind,
}

impl OpenListener for Busy {
    type Stream = ();

    fn accept(&self) -> io::Result<((), SocketAddr)> {
        self.accepts.set(self.accepts.get().saturating_add(1));
        if self.accepts.get() <= self.fails {
            return Err(io::Error::from(self.kind));
        }
        Ok(((), SocketAddr::from((Ipv4Addr::LOCALHOST, 80))))
    }
}

#[test]
fn clients_that_have_gone_are_passed_over(rt: HostRuntime) -> Result<(), Fail> {
    for (kind, fails, accepts, want) in [
        (ErrorKind::Other, 0, 1, true),
        (ErrorKind::ConnectionAborted, 3, 4, true),
        (ErrorKind::Interrupted, ACCEPT_TRIES - 1, ACCEPT_TRIES, true),
        (
            ErrorKind::ConnectionAborted,
            ACCEPT_TRIES,
            ACCEPT_TRIES,
            false,
        ),
        (ErrorKind::InvalidInput, 3, 1, false),
        (ErrorKind::Uncategorized, 3, 1, false),
    ] {
        let busy = Busy {
            accepts: Cell::new(0),
            fails,
            kind,
        };
        assert_eq!(rt; next_stream(&busy).is_ok(), want);
        assert_eq!(rt; busy.accepts.get(), accepts);
    }
    Ok(())
}
