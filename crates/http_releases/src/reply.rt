//! Replies, before they are written.
ghost use Rattle.std.specs.Prelude.{◌≡◌, ℕ, ℤ, List, IfOk, [], length};
ghost use Rattle.release_rows.specs.Tables.{Tables};
ghost use Rattle.release_rules.specs.Machine.{missing as missing_answer, refused as refused_answer, refusal_text};
ghost use Rattle.http_releases.specs.Responses.{json, in_json, bad_request as bad_request_reply, no_route as no_route_reply, other_method as other_method_reply, large_body as large_body_reply, unavailable as unavailable_reply, no_memory as no_memory_reply};
ghost use Rattle.http_releases.specs.Replies.{content_bytes, with_tables};

use component_package::{Bytes, Text};
use http_bodies::refusal_body;
use http_replies::{MediaType, Status};
use std::alloc::{AllocError, Global};

/// The body of a reply.
#[derive(Debug, Drop)]
pub(crate) enum Content {
    /// One that takes no memory.
    Fixed(&'static [u8]),

    /// A text.
    OfText(Text),

    /// Bytes.
    OfBytes(Bytes),
}

impl Content {
    /// Its bytes.
    pub(crate) fn as_slice(&self) -> &[u8]
        ensures { result.now ≡ content_bytes self.now }
    {
        match self {
            Content::Fixed(bytes) => bytes,
            Content::OfText(text) => text.as_str().as_bytes(),
            Content::OfBytes(bytes) => bytes.as_slice(),
        }
    }
}

/// A reply.
#[derive(Debug, Drop)]
pub(crate) struct Reply {
    /// Its status.
    pub(crate) status: Status,

    /// What its body is.
    pub(crate) media: MediaType,

    /// Its body.
    pub(crate) content: Content,
}

// A reply in JSON whose text is known.
fn fixed(status: Status, text: &'static [u8]) -> Reply
    ensures { (t : Tables) → with_tables result t ≡ json status text.now t }
{
    Reply {
        status,
        media: MediaType::Json,
        content: Content::Fixed(text),
    }
}

/// The request is none that the server takes.
pub(crate) fn bad_request() -> Reply
    ensures { (t : Tables) → with_tables result t ≡ bad_request_reply t }
{
    fixed(Status::BadRequest, b"{\"refusal\":1,\"values\":[]}")
}

/// There is nothing at its path.
pub(crate) fn no_route() -> Reply
    ensures { (t : Tables) → with_tables result t ≡ no_route_reply t }
{
    fixed(Status::NotFound, b"{\"refusal\":2,\"values\":[]}")
}

/// Its path has another method.
pub(crate) fn other_method() -> Reply
    ensures { (t : Tables) → with_tables result t ≡ other_method_reply t }
{
    fixed(Status::MethodNotAllowed, b"{\"refusal\":3,\"values\":[]}")
}

/// Its body is too large.
pub(crate) fn large_body() -> Reply
    ensures { (t : Tables) → with_tables result t ≡ large_body_reply t }
{
    fixed(Status::PayloadTooLarge, b"{\"refusal\":5,\"values\":[]}")
}

/// A call on the keeper failed.
pub(crate) fn unavailable() -> Reply
    ensures { (t : Tables) → with_tables result t ≡ unavailable_reply t }
{
    fixed(Status::ServiceUnavailable, b"{\"refusal\":6,\"values\":[]}")
}

/// There is no memory.
pub(crate) fn no_memory() -> Reply
    ensures { (t : Tables) → with_tables result t ≡ no_memory_reply t }
{
    fixed(
        Status::InsufficientStorage,
        b"{\"refusal\":7,\"values\":[]}",
    )
}

/// A reply in JSON.
pub(crate) fn in_text(status: Status, text: Text) -> Reply
    ensures { (t : Tables) → with_tables result t ≡ json status text t }
{
    Reply {
        status,
        media: MediaType::Json,
        content: Content::OfText(text),
    }
}

/// Bytes that were found.
pub(crate) fn in_octets(bytes: Bytes) -> Reply
    ensures { (t : Tables) → with_tables result t ≡ record { status = Status.Success; media = MediaType.OctetStream; body = bytes; tables = t } }
{
    Reply {
        status: Status::Success,
        media: MediaType::OctetStream,
        content: Content::OfBytes(bytes),
    }
}

// A refusal's text.
fn refusal(alloc: Global, number: u16, values: &[i64]) -> Result<Text, AllocError>
    ensures { IfOk result (λ text. text ≡ refusal_text number values.now) }
{
    let body = refusal_body(alloc, number, values)?;
    Ok(Text::of(body))
}

/// What was asked for isn't there.
pub(crate) fn missing(alloc: Global) -> Result<Reply, AllocError>
    ensures { IfOk result (λ reply. (t : Tables) → with_tables reply t ≡ in_json (missing_answer t)) }
{
    let text = refusal(alloc, 2, &[])?;
    Ok(in_text(Status::NotFound, text))
}

/// A rule refuses what was asked for.
pub(crate) fn refused(alloc: Global, number: u16, values: &[i64]) -> Result<Reply, AllocError>
    ensures { IfOk result (λ reply. (t : Tables) → with_tables reply t ≡ in_json (refused_answer number values.now t)) }
{
    let text = refusal(alloc, number, values)?;
    Ok(in_text(Status::UnprocessableEntity, text))
}
