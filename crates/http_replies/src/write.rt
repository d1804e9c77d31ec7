//! Replies, written to a sink.
ghost use Rattle.std.specs.Prelude.{◌≡◌, ◌+◌, ◌≤◌, ◌++◌, length, take, decimal, OnOk, OnErr};
ghost use Rattle.http_edges.specs.Edge.{Counts, Appends, AppendsPart};
ghost use Rattle.http_replies.specs.Replies.{head_bytes, reply_bytes};

use crate::{MediaType, Status};
use http_edges::{Failed, Sink, write_all};
use itoa::Buffer;

// Puts the bytes at this place, and says where they end.
fn put(into: &mut [u8; 192], at: usize, bytes: &[u8]) -> usize
    requires { at + length bytes.now ≤ 192 }
    ensures end { result ≡ at + length bytes.now }
    ensures bytes { take result into.new ≡ take at into.old ++ bytes.now }
{
    let end = at + bytes.len();
    into[at..end].copy_from_slice(bytes);
    end
}

// Puts a number in digits.
fn put_number(into: &mut [u8; 192], at: usize, n: usize) -> usize
    requires { at + 40 ≤ 192 }
    ensures end { result ≤ at + 40 }
    ensures bytes { take result into.new ≡ take at into.old ++ decimal n }
{
    let mut buffer = Buffer::new();
    put(into, at, buffer.format(n).as_bytes())
}

// Puts the head of a reply with a body of so many bytes.
fn put_head(into: &mut [u8; 192], status: Status, media: MediaType, count: usize) -> usize
    ensures end { result ≤ 192 }
    ensures bytes { take result into.new ≡ head_bytes status media count }
{
    let status_end = put(into, 0, status.line());
    let type_end = put(into, status_end, media.line());
    let label_end = put(into, type_end, b"Content-Length: ");
    let number_end = put_number(into, label_end, count);
    put(into, number_end, b"\r\nConnection: close\r\n\r\n")
}

// Writes one piece and then another. `Failed` leaves some first part of both written.
fn write_both<K: Sink>(sink: &mut K, first: &[u8], second: &[u8]) -> Result<(), Failed>
    ensures ok { OnOk result (Appends (first.now ++ second.now) (K.view sink.old) (K.view sink.new)) }
    ensures part { OnErr result (AppendsPart (first.now ++ second.now) (K.view sink.old) (K.view sink.new)) }
    ensures counts { Counts (K.view sink.old).faults (K.view sink.new).faults result }
{
    let Ok(()) = write_all(sink, first) else {
        return Err(Failed);
    };
    let Ok(()) = write_all(sink, second) else {
        return Err(Failed);
    };
    Ok(())
}

/// Writes a reply with this status and this body. It takes no memory. `Failed` is the sink's, and some first part of the reply was written.
pub fn write_reply<K: Sink>(
    sink: &mut K,
    status: Status,
    media: MediaType,
    body: &[u8],
) -> Result<(), Failed>
    ensures ok { OnOk result (Appends (reply_bytes status media body.now) (K.view sink.old) (K.view sink.new)) }
    ensures part { OnErr result (AppendsPart (reply_bytes status media body.now) (K.view sink.old) (K.view sink.new)) }
    ensures counts { Counts (K.view sink.old).faults (K.view sink.new).faults result }
{
    let mut head = [0; 192];
    let end = put_head(&mut head, status, media, body.len());
    let Ok(()) = write_both(sink, &head[..end], body) else {
        return Err(Failed);
    };
    Ok(())
}
