//! A request, taken from a source.
ghost use Rattle.std.specs.Prelude.{◌≡◌, ◌≤◌, ℕ, List, length, take, Some, IfOk};
ghost use Rattle.http_edges.specs.Edge.{Counts, in_front};
ghost use Rattle.http_heads.specs.Read.{IsWholeHead};
ghost use Rattle.http_requests.specs.Taken.{IsTakenWithin, TellsKind, ReadsNoBody, ReadsNoMore};

use crate::body::{BodyRead, read_body};
use http_edges::{Failed, Source};
use http_heads::{BodyLength, HeadRead, body_length, read_head};
use httparse::spans::{HeaderSpan, RequestSpans};
use std::alloc::Global;

/// A request that was taken whole: its head, which lies in a buffer with its headers, and its body.
#[derive(Debug, Drop)]
pub struct WholeRequest {
    /// How many first bytes of the buffer were taken with the head.
    pub count: usize,

    /// Where the parts of the head lie in them.
    pub spans: RequestSpans,

    /// The body.
    pub body: Vec<u8>,
}

/// What was taken of a source.
#[derive(Debug, Drop)]
pub enum Taken {
    /// A request.
    Whole(WholeRequest),

    /// Bytes that hold no head, and there are 8,192 of them or no head can follow.
    NoHead,

    /// A head with more than 32 fields, or with a Transfer-Encoding, or with a Content-Length that stands twice or is no number.
    BadHead,

    /// A head that says a body of more than 262,144 bytes. No byte of it is read but those that came with the head.
    TooLarge,

    /// The source ended, and nothing else is true of what it gave.
    Cut,

    /// There was no memory for the body.
    NoRoom,
}

// Takes the body of a request whose head was taken.
fn take_rest<S: Source>(
    alloc: Global,
    source: &mut S,
    buffer: &[u8],
    headers: &[HeaderSpan],
    count: usize,
    spans: RequestSpans,
) -> Result<Taken, Failed>
    requires room { length buffer.now ≡ 8192 }
    requires head { IsWholeHead (take count buffer.now) buffer.now headers.now count spans }
    ensures counts { Counts (S.view source.old).faults (S.view source.new).faults result }
    ensures unread { IfOk result (ReadsNoMore (S.view source.old) (S.view source.new)) }
    ensures within { IfOk result (IsTakenWithin buffer.now headers.now) }
    ensures kind { IfOk result (λ taken. (input : List ℕ) → in_front (take count buffer.now) (S.view source.old).left ≡ Some input
        → TellsKind input buffer.now headers.now taken) }
{
    let head = &buffer[..count];
    let length = match body_length(head, &headers[..spans.headers]) {
        BodyLength::Bytes(length) => length,
        BodyLength::TooLarge => return Ok(Taken::TooLarge),
        BodyLength::Bad => return Ok(Taken::BadHead),
    };
    let Ok(read) = read_body(alloc, source, &head[spans.len..], length as usize) else {
        return Err(Failed);
    };
    match read {
        BodyRead::Whole(body) => Ok(Taken::Whole(WholeRequest { count, spans, body })),
        BodyRead::Cut => Ok(Taken::Cut),
        BodyRead::NoRoom => Ok(Taken::NoRoom),
    }
}

/// Takes a request from a source, its head into a buffer of 8,192 bytes and 2,800 headers. `Failed` is the source's.
pub fn take_request<S: Source>(
    alloc: Global,
    source: &mut S,
    buffer: &mut [u8],
    headers: &mut [HeaderSpan],
) -> Result<Taken, Failed>
    requires room { length buffer.old ≡ 8192 }
    requires headers { length headers.old ≡ 2800 }
    ensures counts { Counts (S.view source.old).faults (S.view source.new).faults result }
    ensures unread { IfOk result (ReadsNoBody (S.view source.old) (S.view source.new)) }
    ensures within { IfOk result (IsTakenWithin buffer.new headers.new) }
    ensures kind { IfOk result (λ taken. (input : List ℕ) → (S.view source.old).left ≡ Some input → TellsKind input buffer.new headers.new taken) }
{
    let Ok(read) = read_head(source, buffer, headers) else {
        return Err(Failed);
    };
    match read {
        HeadRead::Whole(count, spans) => take_rest(alloc, source, buffer, headers, count, spans),
        HeadRead::Refused => Ok(Taken::NoHead),
        HeadRead::Cut => Ok(Taken::Cut),
    }
}
