//! One connection, from its first byte to its last.
ghost use Rattle.std.specs.Prelude.{◌≡◌, ◌≢◌, ◌≤◌, ℕ, List, length, Some, None};
ghost use Rattle.http_edges.specs.Edge.{Rose};
ghost use Rattle.http_paths.specs.Routes.{routes};
ghost use Rattle.http_requests.specs.Taken.{IsTakenWithin, TellsKind};
ghost use Rattle.release_rows.specs.Tables.{Tables};
ghost use Rattle.release_rows.specs.View.{View};
ghost use Rattle.http_releases.specs.Outcomes.{Outcome, Idles};
ghost use Rattle.http_releases.specs.Replies.{IsPrepared, Writes};

use crate::answer::reply_to;
use crate::reply::{Reply, bad_request, large_body, no_memory};
use http_edges::{Sink, Source};
use http_paths::{Route, make_router};
use http_replies::write_reply;
use http_requests::{Taken, ask, take_request};
use httparse::spans::{EMPTY_HEADER_SPAN, HeaderSpan};
use matchit::Router;
use release_keeper::Keeper;
use std::alloc::Global;

/// What a connection came to.
#[derive(Clone, Copy, Debug, PartialEq, Eq)]
pub enum Served {
    /// A reply with this status was written.
    Done(u16),

    /// The source failed. Nothing was written, and no table was changed.
    ReadFault,

    /// The sink failed. A first part of a reply was written, and the tables that go with that reply are there.
    WriteFault,

    /// The source ended before there was a request, and nothing refuses what it gave. Nothing was written, and no table was changed.
    Truncated,
}

// The reply to what was taken of a source; there is none where it ended too early.
fn prepare<Q: Keeper>(
    alloc: Global,
    router: &Router<Route>,
    keeper: &mut Q,
    buffer: &[u8],
    headers: &[HeaderSpan],
    taken: Taken,
) -> Option<Reply>
    requires routes { router.now ≡ routes }
    requires within { IsTakenWithin buffer.now headers.now taken }
    ensures prepared { (input : List ℕ) → TellsKind input buffer.now headers.now taken → (t : Tables) → (Q.view keeper.old).tables ≡ Some t
        → IsPrepared result input t (Q.view keeper.old) (Q.view keeper.new) }
    ensures idle { result ≡ None → Q.view keeper.new ≡ Q.view keeper.old }
    ensures later { (Q.view keeper.old).faults ≤ (Q.view keeper.new).faults }
{
    match taken {
        Taken::Whole(whole) => {
            let asking = ask(router, buffer, headers, &whole);
            Some(reply_to(alloc, keeper, asking, whole.body))
        }
        Taken::NoHead => Some(bad_request()),
        Taken::BadHead => Some(bad_request()),
        Taken::TooLarge => Some(large_body()),
        Taken::Cut => None,
        Taken::NoRoom => Some(no_memory()),
    }
}

// Writes a reply.
fn finish<K: Sink>(sink: &mut K, reply: &Reply) -> Served
    ensures writes { Writes result reply.now (K.view sink.old) (K.view sink.new) }
    ensures idle { (keeper : View) → Idles result (K.view sink.old) (K.view sink.new) keeper keeper }
    ensures read_fault { result ≢ Served.ReadFault }
    ensures fault { result ≡ Served.WriteFault → Rose (K.view sink.old).faults (K.view sink.new).faults }
    ensures later { (K.view sink.old).faults ≤ (K.view sink.new).faults }
{
    let body = reply.content.as_slice();
    let Ok(()) = write_reply(sink, reply.status, reply.media, body) else {
        return Served::WriteFault;
    };
    Served::Done(reply.status.code())
}

// Says that there is no memory.
fn finish_without_memory<K: Sink>(sink: &mut K) -> Served
    ensures outcome { (input : List ℕ) (t : Tables) (keeper : View) → keeper.tables ≡ Some t → Outcome result input t (K.view sink.old) (K.view sink.new) keeper keeper }
    ensures idle { (keeper : View) → Idles result (K.view sink.old) (K.view sink.new) keeper keeper }
    ensures read_fault { result ≢ Served.ReadFault }
    ensures write_fault { result ≡ Served.WriteFault → Rose (K.view sink.old).faults (K.view sink.new).faults }
    ensures later { (K.view sink.old).faults ≤ (K.view sink.new).faults }
{
    let reply = no_memory();
    finish(sink, &reply)
}

// Serves a connection with room for a head.
fn serve<S: Source, K: Sink, Q: Keeper>(
    alloc: Global,
    router: &Router<Route>,
    source: &mut S,
    sink: &mut K,
    keeper: &mut Q,
    buffer: &mut [u8],
    headers: &mut [HeaderSpan],
) -> Served
    requires routes { router.now ≡ routes }
    requires room { length buffer.old ≡ 8192 }
    requires headers { length headers.old ≡ 2800 }
    ensures outcome { (input : List ℕ) → (S.view source.old).left ≡ Some input → (t : Tables) → (Q.view keeper.old).tables ≡ Some t
        → Outcome result input t (K.view sink.old) (K.view sink.new) (Q.view keeper.old) (Q.view keeper.new) }
    ensures idle { Idles result (K.view sink.old) (K.view sink.new) (Q.view keeper.old) (Q.view keeper.new) }
    ensures read_fault { result ≡ Served.ReadFault → Rose (S.view source.old).faults (S.view source.new).faults }
    ensures write_fault { result ≡ Served.WriteFault → Rose (K.view sink.old).faults (K.view sink.new).faults }
    ensures source_later { (S.view source.old).faults ≤ (S.view source.new).faults }
    ensures sink_later { (K.view sink.old).faults ≤ (K.view sink.new).faults }
    ensures keeper_later { (Q.view keeper.old).faults ≤ (Q.view keeper.new).faults }
{
    let Ok(taken) = take_request(alloc, source, buffer, headers) else {
        return Served::ReadFault;
    };
    let Some(reply) = prepare(alloc, router, keeper, buffer, headers, taken) else {
        return Served::Truncated;
    };
    finish(sink, &reply)
}

/// Serves one connection: reads one request, decides it over the keeper, and writes one reply.
///
/// `ReadFault` and `WriteFault` come only where the source's or the sink's count of faults rose. No count of faults falls. The reply 507 takes no
/// memory.
pub fn serve_connection<S: Source, K: Sink, Q: Keeper>(
    alloc: Global,
    source: &mut S,
    sink: &mut K,
    keeper: &mut Q,
) -> Served
    ensures outcome { (input : List ℕ) → (S.view source.old).left ≡ Some input → (t : Tables) → (Q.view keeper.old).tables ≡ Some t
        → Outcome result input t (K.view sink.old) (K.view sink.new) (Q.view keeper.old) (Q.view keeper.new) }
    ensures idle { Idles result (K.view sink.old) (K.view sink.new) (Q.view keeper.old) (Q.view keeper.new) }
    ensures read_fault { result ≡ Served.ReadFault → Rose (S.view source.old).faults (S.view source.new).faults }
    ensures write_fault { result ≡ Served.WriteFault → Rose (K.view sink.old).faults (K.view sink.new).faults }
    ensures source_later { (S.view source.old).faults ≤ (S.view source.new).faults }
    ensures sink_later { (K.view sink.old).faults ≤ (K.view sink.new).faults }
    ensures keeper_later { (Q.view keeper.old).faults ≤ (Q.view keeper.new).faults }
{
    let Ok(router) = make_router(alloc) else {
        return finish_without_memory(sink);
    };
    let Ok(mut buffer) = vec![in alloc; 0; 8192] else {
        return finish_without_memory(sink);
    };
    let Ok(mut headers) = vec![in alloc; EMPTY_HEADER_SPAN; 2800] else {
        return finish_without_memory(sink);
    };
    serve(
        alloc,
        &router,
        source,
        sink,
        keeper,
        &mut buffer,
        &mut headers,
    )
}
