//! Requests and replies byte for byte, over connections to a real port.

use release_keeper::{Keeper, MemoryKeeper};
use server_loop::server_main;
use sqlite_keeper::SqliteKeeper;
use std::io::{Read, Write};
use std::net::{Shutdown, SocketAddr, TcpListener, TcpStream};
use std::test::Fail;
use std::{fs, io};
use tcp_connections::TcpConnections;

// The words that ask for one connection.
const WORDS: [&str; 2] = ["--connections", "1"];

// The status of a server over this port and rows in memory.
fn status(rt: &HostRuntime, listener: TcpListener) -> u8 {
    let mut connections = TcpConnections::over(rt, listener);
    let mut keeper = MemoryKeeper::new(rt.alloc(), Vec::new(rt.alloc()));
    server_main(rt.alloc(), WORDS.as_slice(), &mut connections, &mut keeper)
}

// The status of a server that starts once this request was sent, and the reply.
fn answer(rt: &HostRuntime, request: &[u8]) -> io::Result<(u8, Vec<u8>)> {
    let listener = TcpListener::bind(rt, "127.0.0.1:0")?;
    let mut client = TcpStream::connect(rt, listener.local_addr()?)?;
    client.write_all(request)?;
    let status = status(rt, listener);
    let mut reply = Vec::new(rt.alloc());
    client.read_to_end(&mut reply)?;
    Ok((status, reply))
}

#[test]
fn a_request_waits_for_its_accept(rt: HostRuntime) -> Result<(), Fail> {
    let (status, reply) = answer(&rt, b"GET /motes/none HTTP/1.1\r\n\r\n")?;
    assert_eq!(rt; status, 0);
    assert_eq!(rt;
        reply.as_slice(),
        b"HTTP/1.1 404 Not Found\r\nContent-Type: application/json\r\nContent-Length: 25\r\nConnection: close\r\n\r\n{\"refusal\":2,\"values\":[]}".as_slice()
    );
    Ok(())
}

// A request and its reply.
struct Row {
    request: &'static [u8],
    reply: &'static [u8],
}

// A component that calls another, its refused release, the other component, and a release of both.
const FIRST: [Row; 6] = [
    Row {
        request: b"GET /motes/m1 HTTP/1.1\r\n\r\n",
        reply: b"HTTP/1.1 404 Not Found\r\nContent-Type: application/json\r\nContent-Length: 25\r\nConnection: close\r\n\r\n{\"refusal\":2,\"values\":[]}",
    },
    Row {
        request: b"POST /components/sender/versions HTTP/1.1\r\nRequest-Key: a\r\nContent-Length: 962\r\n\r\n\x7FELF\x01\x01\x01\0\0\0\0\0\0\0\0\0\x01\0S\0\x01\0\0\0\0\0\0\0\0\0\0\0\xBA\x01\0\0\x85\0\0\04\0\0\0\0\0(\0\r\0\x0C\0\n\x0B\x0C\x80\xE0\x90\xE0\x0E\x94\0\0\0\xC0\x08\x95\0\0\0\0\x06\x01\0\0\x01\0\0\0\x02\0\0\0\x07\x01\0\0\x01\0\0\0\x04\0\0\0\x12\x05\0\0\0\0\0\0\x08\0\0\0\x03\x02\0\0\0\0\0\0\x01\x02\x03\x04\x05abc\0\0\0\0\0\0\0\0\0\x04\x02\0\0\xFF\xFF\xFF\xFF\0\0\0\0\0\0\0\0\0\0\0\0\0\0\0\0\0\0\0\0\0\0\0\0\0\0\0\0\x03\0\x07\0\0\0\0\0\0\0\0\0\0\0\0\0\x03\0\x04\0\x01\0\0\0\0\0\0\0\x0C\0\0\0\x12\0\x04\0\x06\0\0\0\0\0\0\0\x02\0\0\0\x11\0\x03\0\x0C\0\0\0\0\0\0\0\0\0\0\0\x10\0\0\0\x16\0\0\0\0\0\0\0\0\0\0\0\x10\0\0\0%\0\0\0\0\0\0\0\0\0\0\0\x10\0\0\0\0send\0count\0radio_put\0__do_copy_data\0__do_clear_bss\0\0.text\0.data\0.bss\0.text.send\0.rela.text.send\0.progmem.data\0.rodata\0.debug_info\0.rela.debug_info\0.symtab\0.strtab\0.shstrtab\0\0\0\0\0\0\0\0\0\0\0\0\0\0\0\0\0\0\0\0\0\0\0\0\0\0\0\0\0\0\0\0\0\0\0\0\0\0\0\0\0\x01\0\0\0\x01\0\0\0\x06\0\0\0\0\0\0\04\0\0\0\0\0\0\0\0\0\0\0\0\0\0\0\x01\0\0\0\0\0\0\0\x07\0\0\0\x01\0\0\0\x03\0\0\0\0\0\0\04\0\0\0\x03\0\0\0\0\0\0\0\0\0\0\0\x01\0\0\0\0\0\0\0\r\0\0\0\x08\0\0\0\x03\0\0\0\0\0\0\07\0\0\0\x02\0\0\0\0\0\0\0\0\0\0\0\x01\0\0\0\0\0\0\0\x12\0\0\0\x01\0\0\0\x06\0\0\0\0\0\0\07\0\0\0\x0C\0\0\0\0\0\0\0\0\0\0\0\x01\0\0\0\0\0\0\0\x1D\0\0\0\x04\0\0\0@\0\0\0\0\0\0\0C\0\0\00\0\0\0\n\0\0\0\x04\0\0\0\x04\0\0\0\x0C\0\0\0-\0\0\0\x01\0\0\0\x02\0\0\0\0\0\0\0s\0\0\0\x05\0\0\0\0\0\0\0\0\0\0\0\x01\0\0\0\0\0\0\0;\0\0\0\x01\0\0\0\x02\0\0\0\0\0\0\0x\0\0\0\x04\0\0\0\0\0\0\0\0\0\0\0\x01\0\0\0\0\0\0\0C\0\0\0\x01\0\0\0\0\0\0\0\0\0\0\0|\0\0\0\x04\0\0\0\0\0\0\0\0\0\0\0\x01\0\0\0\0\0\0\0O\0\0\0\x04\0\0\0@\0\0\0\0\0\0\0\x80\0\0\0\x0C\0\0\0\n\0\0\0\x08\0\0\0\x04\0\0\0\x0C\0\0\0`\0\0\0\x02\0\0\0\0\0\0\0\0\0\0\0\x8C\0\0\0\x80\0\0\0\x0B\0\0\0\x03\0\0\0\x04\0\0\0\x10\0\0\0h\0\0\0\x03\0\0\0\0\0\0\0\0\0\0\0\x0C\x01\0\04\0\0\0\0\0\0\0\0\0\0\0\x01\0\0\0\0\0\0\0p\0\0\0\x03\0\0\0\0\0\0\0\0\0\0\0@\x01\0\0z\0\0\0\0\0\0\0\0\0\0\0\x01\0\0\0\0\0\0\0",
        reply: b"HTTP/1.1 201 Created\r\nContent-Type: application/json\r\nContent-Length: 116\r\nConnection: close\r\n\r\n{\"component\":1,\"length\":102,\"sha256\":\"1d72fcf0ea1364c4b9d4f7af020ed3773394bd3dd791b00054d2cbf34e9452b7\",\"version\":1}",
    },
    Row {
        request: b"POST /motes/m1/releases HTTP/1.1\r\nRequest-Key: b\r\nContent-Length: 14\r\n\r\n[[\"sender\",1]]",
        reply: b"HTTP/1.1 422 Unprocessable Entity\r\nContent-Type: application/json\r\nContent-Length: 33\r\nConnection: close\r\n\r\n{\"refusal\":306,\"values\":[0,2,18]}",
    },
    Row {
        request: b"POST /components/radio/versions HTTP/1.1\r\nRequest-Key: c\r\nContent-Length: 330\r\n\r\n\x7FELF\x01\x01\x01\0\0\0\0\0\0\0\0\0\x01\0S\0\x01\0\0\0\0\0\0\0\0\0\0\0\x82\0\0\0\x85\0\0\04\0\0\0\0\0(\0\x05\0\x04\0\x08\x95\0\0\0\0\0\0\0\0\0\0\0\0\0\0\0\0\x01\0\0\0\0\0\0\0\x02\0\0\0\x12\0\x01\0\0radio_put\0\0.text\0.symtab\0.strtab\0.shstrtab\0\0\0\0\0\0\0\0\0\0\0\0\0\0\0\0\0\0\0\0\0\0\0\0\0\0\0\0\0\0\0\0\0\0\0\0\0\0\0\0\0\x01\0\0\0\x01\0\0\0\x06\0\0\0\0\0\0\04\0\0\0\x02\0\0\0\0\0\0\0\0\0\0\0\x01\0\0\0\0\0\0\0\x07\0\0\0\x02\0\0\0\0\0\0\0\0\0\0\06\0\0\0 \0\0\0\x03\0\0\0\x01\0\0\0\x04\0\0\0\x10\0\0\0\x0F\0\0\0\x03\0\0\0\0\0\0\0\0\0\0\0V\0\0\0\x0B\0\0\0\0\0\0\0\0\0\0\0\x01\0\0\0\0\0\0\0\x17\0\0\0\x03\0\0\0\0\0\0\0\0\0\0\0a\0\0\0!\0\0\0\0\0\0\0\0\0\0\0\x01\0\0\0\0\0\0\0",
        reply: b"HTTP/1.1 201 Created\r\nContent-Type: application/json\r\nContent-Length: 115\r\nConnection: close\r\n\r\n{\"component\":2,\"length\":40,\"sha256\":\"4466e9e86ad5824a3d59cadfaa10e4d47f27dfa122e530f503d344da72717e18\",\"version\":1}",
    },
    Row {
        request: b"POST /motes/m1/releases HTTP/1.1\r\nRequest-Key: b\r\nContent-Length: 26\r\n\r\n[[\"sender\",1],[\"radio\",1]]",
        reply: b"HTTP/1.1 201 Created\r\nContent-Type: application/json\r\nContent-Length: 25\r\nConnection: close\r\n\r\n{\"mote\":\"m1\",\"release\":1}",
    },
    Row {
        request: b"GET /motes/m1/releases/1/image HTTP/1.1\r\n\r\n",
        reply: b"HTTP/1.1 200 OK\r\nContent-Type: application/octet-stream\r\nContent-Length: 28\r\nConnection: close\r\n\r\n\x85\xE0\x91\xE0\x0E\x94\x09\0\xFB\xCF\x08\x95\x01\x02\x03\x04\x05\0\x08\x95\n\x0B\x0C\0abc\0",
    },
];

// What the server answers of that release once it was started anew on the same file, and an acknowledgement under one key three times.
const LATER: [Row; 6] = [
    Row {
        request: b"GET /motes/m1/update?have=0 HTTP/1.1\r\n\r\n",
        reply: b"HTTP/1.1 200 OK\r\nContent-Type: application/octet-stream\r\nContent-Length: 245\r\nConnection: close\r\n\r\n\x01Q\0\x01\0\0\0\x02\x01\0\x01\0f\0\x1Dr\xFC\xF0\xEA\x13d\xC4\xB9\xD4\xF7\xAF\x02\x0E\xD3w3\x94\xBD=\xD7\x91\xB0\0T\xD2\xCB\xF3N\x94R\xB7\x02\0\x01\0(\0Df\xE9\xE8j\xD5\x82J=Y\xCA\xDF\xAA\x10\xE4\xD4\x7F'\xDF\xA1\"\xE50\xF5\x03\xD3D\xDArq~\x18\x02h\0\0\0FCP1\x01\0\x01\0\x12\0\x08\0\x02\0\x02\0\x04\0\0\0\0\0\0\0\0\0\0\0\0\0\0\0\x80\xE0\x90\xE0\x0E\x94\0\0\0\xC0\x08\x95\x01\x02\x03\x04\x05\0\n\x0B\x0C\0abc\0\x10\0\0\0\0\0\x11\0\x02\0\0\0\0\0\0\x06\x01\0\x05\0\x02\0\0\x07\x01\0\x05\0\x04\0\0\x12\x12\0\0\0\x08\0\0\x03\0\0\0\0\x02*\0\x01\0FCP1\x02\0\x01\0\x02\0\0\0\0\0\x01\0\0\0\0\0\0\0\0\0\0\0\0\0\0\0\0\0\x08\x95\x12\0\0\0\0\0\x03\0\0\x04\0\0\x08\0\0",
    },
    Row {
        request: b"GET /motes/m1/update?have=1 HTTP/1.1\r\n\r\n",
        reply: b"HTTP/1.1 200 OK\r\nContent-Type: application/octet-stream\r\nContent-Length: 3\r\nConnection: close\r\n\r\n\x08\0\0",
    },
    Row {
        request: b"GET /motes/m1 HTTP/1.1\r\n\r\n",
        reply: b"HTTP/1.1 200 OK\r\nContent-Type: application/json\r\nContent-Length: 82\r\nConnection: close\r\n\r\n{\"acknowledged\":0,\"components\":[[\"sender\",1],[\"radio\",1]],\"mote\":\"m1\",\"release\":1}",
    },
    Row {
        request: b"POST /motes/m1/acks HTTP/1.1\r\nRequest-Key: d\r\nContent-Length: 13\r\n\r\n{\"release\":1}",
        reply: b"HTTP/1.1 201 Created\r\nContent-Type: application/json\r\nContent-Length: 30\r\nConnection: close\r\n\r\n{\"acknowledged\":1,\"mote\":\"m1\"}",
    },
    Row {
        request: b"POST /motes/m1/acks HTTP/1.1\r\nRequest-Key: d\r\nContent-Length: 13\r\n\r\n{\"release\":1}",
        reply: b"HTTP/1.1 201 Created\r\nContent-Type: application/json\r\nContent-Length: 30\r\nConnection: close\r\n\r\n{\"acknowledged\":1,\"mote\":\"m1\"}",
    },
    Row {
        request: b"POST /motes/m1/acks HTTP/1.1\r\nRequest-Key: d\r\nContent-Length: 13\r\n\r\n{\"release\":2}",
        reply: b"HTTP/1.1 409 Conflict\r\nContent-Type: application/json\r\nContent-Length: 89\r\nConnection: close\r\n\r\n{\"refusal\":4,\"sha256\":\"3448444a977227032b1f9bb584505dfbcae1b534b0dcc3f1c3f3bb41449370fe\"}",
    },
];

fn first() -> &'static [Row] {
    &FIRST
}

fn later() -> &'static [Row] {
    &LATER
}

// The reply to a request that comes over a connection of its own.
fn ask<Q: Keeper>(
    rt: &HostRuntime,
    address: SocketAddr,
    connections: &mut TcpConnections<'_, HostRuntime>,
    keeper: &mut Q,
    request: &[u8],
) -> io::Result<Vec<u8>> {
    let mut client = TcpStream::connect(rt, address)?;
    client.write_all(request)?;
    client.shutdown(Shutdown::Write)?;
    let mut reply = Vec::new(rt.alloc());
    if server_main(rt.alloc(), WORDS.as_slice(), connections, keeper) == 0 {
        client.read_to_end(&mut reply)?;
    }
    Ok(reply)
}

// The first of these requests that has another reply, each over a connection of its own.
fn first_wrong<Q: Keeper>(
    rt: &HostRuntime,
    address: SocketAddr,
    connections: &mut TcpConnections<'_, HostRuntime>,
    keeper: &mut Q,
    rows: &[Row],
) -> io::Result<Option<usize>> {
    for (i, row) in rows.iter().enumerate() {
        let reply = ask(rt, address, connections, keeper, row.request)?;
        if reply.as_slice() != row.reply {
            return Ok(Some(i));
        }
    }
    Ok(None)
}

// The first of these requests that a server which was started anew on the file replies to otherwise.
fn first_wrong_anew(rt: &HostRuntime, rows: &[Row]) -> io::Result<Option<usize>> {
    let listener = TcpListener::bind(rt, "127.0.0.1:0")?;
    let address = listener.local_addr()?;
    let mut connections = TcpConnections::over(rt, listener);
    let mut keeper = SqliteKeeper::at(rt, rt.alloc(), FILE);
    first_wrong(rt, address, &mut connections, &mut keeper, rows)
}

const FILE: &str = "release_server_test.db";

const LOG: &str = "release_server_test.db-wal";

// Removes the database and the log beside it, where they are.
fn remove(rt: &HostRuntime) {
    let _ = fs::remove_file(rt, FILE);
    let _ = fs::remove_file(rt, LOG);
}

#[test]
fn a_release_outlives_its_server(rt: HostRuntime) -> Result<(), Fail> {
    remove(&rt);
    assert_eq!(rt; first_wrong_anew(&rt, first())?, None);
    assert_eq!(rt; first_wrong_anew(&rt, later())?, None);
    remove(&rt);
    Ok(())
}
