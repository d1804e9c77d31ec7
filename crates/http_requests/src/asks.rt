//! What a request asks.
ghost use Rattle.std.specs.Prelude.{◌≡◌, ◌∷◌, ◌++◌, length, codes, bytes_eq, is_some, Some, option_map, All};
ghost use Rattle.sha2.specs.Sha256.{sha256};
ghost use Rattle.httparse.specs.Spans.{IsHeaderWithin};
ghost use Rattle.http_heads.specs.Fields.{fields_of, key_of};
ghost use Rattle.http_paths.specs.Routes.{routes};
ghost use Rattle.http_paths.specs.Paths.{shown as target_shown};
ghost use Rattle.http_paths.specs.Targets.{query_of as query_in};
ghost use Rattle.http_requests.specs.Parts.{request_of};
ghost use Rattle.http_requests.specs.Taken.{IsWholeWithin, request_in};
ghost use Rattle.http_requests.specs.Questions.{shown, purpose_shown, question_of, question_at, as_post, as_get, as_update};

use crate::take::WholeRequest;
use http_heads::request_key;
use http_paths::{Route, Target, find, path_of, query_of, read_have};
use httparse::spans::HeaderSpan;
use matchit::Router;
use sha2::{Digest, Sha256};
use std::str::from_utf8;

/// What a POST is for. Its body isn't judged yet.
#[derive(Clone, Copy, Debug, PartialEq, Eq)]
pub enum Posting<'b> {
    /// A version of this component.
    Version(&'b str),

    /// A release for this mote.
    Release(&'b str),

    /// The word of this mote that it runs a release.
    Acknowledgement(&'b str),
}

/// What a request asks.
#[derive(Clone, Copy, Debug, PartialEq, Eq)]
pub enum Asking<'b> {
    /// Its path is no route, or a part of it is no name or no number.
    NotFound,

    /// Its route has another method.
    WrongMethod,

    /// It has a query that isn't taken, or its query is wrong, or a POST has no right key.
    Malformed,

    /// It is a POST with this key.
    Post {
        /// What it is for.
        posting: Posting<'b>,

        /// Its key.
        key: &'b str,

        /// SHA-256 of its path, a line's end and its body.
        digest: [u8; 32],
    },

    /// The frames that bring a mote from this release to its last one.
    Update(&'b str, u32),

    /// What a mote has.
    Mote(&'b str),

    /// The image of a mote's release with this number.
    Image(&'b str, u32),
}

// What the head of a request says.
#[derive(Clone, Copy)]
struct Parts<'b> {
    method: &'b [u8],
    target: &'b [u8],
    key: Option<&'b str>,
}

fn is_get(method: &[u8]) -> bool
    ensures { result ≡ bytes_eq method.now (codes "GET") }
{
    method == b"GET".as_slice()
}

fn is_post(method: &[u8]) -> bool
    ensures { result ≡ bytes_eq method.now (codes "POST") }
{
    method == b"POST".as_slice()
}

fn has_query(target: &[u8]) -> bool
    ensures { result ≡ is_some (query_in target.now) }
{
    query_of(target).is_some()
}

// SHA-256 of a path, a line's end and a body.
fn digest(path: &[u8], body: &[u8]) -> [u8; 32]
    ensures { result ≡ sha256 (path.now ++ 10 ∷ body.now) }
{
    let mut hasher = Sha256::new();
    hasher.update(path);
    hasher.update(b"\n".as_slice());
    hasher.update(body);
    hasher.finalize()
}

// The key that headers give a request.
fn key_at<'b>(head: &'b [u8], headers: &[HeaderSpan]) -> Option<&'b str>
    requires within { All (IsHeaderWithin (length head.now)) headers.now }
    ensures { option_map (λ key. key.now) result ≡ key_of (fields_of head.now headers.now) }
{
    let Some(key) = request_key(head, headers) else {
        return None;
    };
    let Ok(text) = from_utf8(key) else {
        return None;
    };
    Some(text)
}

// What a request for a POST's path asks.
fn post<'b>(posting: Posting<'b>, parts: Parts<'b>, body: &[u8]) -> Asking<'b>
    ensures { shown result ≡ as_post (purpose_shown posting.entry) (request_of parts.entry body.now) }
{
    if !is_post(parts.method) {
        return Asking::WrongMethod;
    }
    if has_query(parts.target) {
        return Asking::Malformed;
    }
    let Some(key) = parts.key else {
        return Asking::Malformed;
    };
    let digest = digest(path_of(parts.target), body);
    Asking::Post {
        posting,
        key,
        digest,
    }
}

// What a request for the path of a GET without a query asks, where it is this.
fn get<'b>(asking: Asking<'b>, parts: Parts<'b>, _body: &[u8]) -> Asking<'b>
    ensures { shown result ≡ as_get (shown asking.entry) (request_of parts.entry _body.now) }
{
    if !is_get(parts.method) {
        return Asking::WrongMethod;
    }
    if has_query(parts.target) {
        return Asking::Malformed;
    }
    asking
}

// What a request for a mote's frames asks.
fn update<'b>(mote: &'b str, parts: Parts<'b>, _body: &[u8]) -> Asking<'b>
    ensures { shown result ≡ as_update mote.entry.now (request_of parts.entry _body.now) }
{
    if !is_get(parts.method) {
        return Asking::WrongMethod;
    }
    let Some(query) = query_of(parts.target) else {
        return Asking::Malformed;
    };
    let Some(have) = read_have(query) else {
        return Asking::Malformed;
    };
    Asking::Update(mote, have)
}

// What a request for this target asks.
fn ask_at<'b>(target: Target<'b>, parts: Parts<'b>, body: &[u8]) -> Asking<'b>
    ensures { shown result ≡ question_at (Some (target_shown target.entry)) (request_of parts.entry body.now) }
{
    match target {
        Target::Versions(component) => post(Posting::Version(component), parts, body),
        Target::Releases(mote) => post(Posting::Release(mote), parts, body),
        Target::Acknowledgements(mote) => post(Posting::Acknowledgement(mote), parts, body),
        Target::Update(mote) => update(mote, parts, body),
        Target::Mote(mote) => get(Asking::Mote(mote), parts, body),
        Target::Image(mote, number) => get(Asking::Image(mote, number), parts, body),
    }
}

// What a request of these parts asks.
fn ask_of<'b>(router: &Router<Route>, parts: Parts<'b>, body: &[u8]) -> Asking<'b>
    requires routes { router.now ≡ routes }
    ensures { shown result ≡ question_of (request_of parts.entry body.now) }
{
    let Some(target) = find(router, path_of(parts.target)) else {
        return Asking::NotFound;
    };
    ask_at(target, parts, body)
}

/// What a request asks that was taken into this buffer with these headers.
pub fn ask<'b>(
    router: &Router<Route>,
    buffer: &'b [u8],
    headers: &[HeaderSpan],
    whole: &WholeRequest,
) -> Asking<'b>
    requires routes { router.now ≡ routes }
    requires within { IsWholeWithin buffer.now headers.now whole.now }
    ensures question { shown result ≡ question_of (request_in buffer.now headers.now whole.now) }
{
    let head = &buffer[..whole.count];
    let parts = Parts {
        method: whole.spans.method.of(head),
        target: whole.spans.path.of(head),
        key: key_at(head, &headers[..whole.spans.headers]),
    };
    ask_of(router, parts, &whole.body)
}
