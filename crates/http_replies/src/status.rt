//! Statuses and kinds of bodies.
ghost use Rattle.std.specs.Prelude.{◌≡◌, ◌≤◌, length};

/// The status of a reply, with the phrase of RFC 9110, or of RFC 4918 for 507.
#[derive(Clone, Copy, Debug, PartialEq, Eq)]
pub enum Status {
    /// 200
    Success,

    /// 201
    Created,

    /// 400
    BadRequest,

    /// 404
    NotFound,

    /// 405
    MethodNotAllowed,

    /// 409
    Conflict,

    /// 413
    PayloadTooLarge,

    /// 422
    UnprocessableEntity,

    /// 503
    ServiceUnavailable,

    /// 507
    InsufficientStorage,
}

impl Status {
    ghost use Rattle.http_replies.specs.Statuses.{code_of, status_line_of};

    /// The number of three digits.
    pub fn code(self) -> u16
        ensures { result ≡ code_of self }
    {
        match self {
            Status::Success => 200,
            Status::Created => 201,
            Status::BadRequest => 400,
            Status::NotFound => 404,
            Status::MethodNotAllowed => 405,
            Status::Conflict => 409,
            Status::PayloadTooLarge => 413,
            Status::UnprocessableEntity => 422,
            Status::ServiceUnavailable => 503,
            Status::InsufficientStorage => 507,
        }
    }

    // The first line of a reply with this status.
    pub(crate) fn line(self) -> &'static [u8]
        ensures value { result.now ≡ status_line_of self }
        ensures short { length result.now ≤ 40 }
    {
        match self {
            Status::Success => b"HTTP/1.1 200 OK\r\n",
            Status::Created => b"HTTP/1.1 201 Created\r\n",
            Status::BadRequest => b"HTTP/1.1 400 Bad Request\r\n",
            Status::NotFound => b"HTTP/1.1 404 Not Found\r\n",
            Status::MethodNotAllowed => b"HTTP/1.1 405 Method Not Allowed\r\n",
            Status::Conflict => b"HTTP/1.1 409 Conflict\r\n",
            Status::PayloadTooLarge => b"HTTP/1.1 413 Payload Too Large\r\n",
            Status::UnprocessableEntity => b"HTTP/1.1 422 Unprocessable Entity\r\n",
            Status::ServiceUnavailable => b"HTTP/1.1 503 Service Unavailable\r\n",
            Status::InsufficientStorage => b"HTTP/1.1 507 Insufficient Storage\r\n",
        }
    }
}

/// What the body of a reply is.
#[derive(Clone, Copy, Debug, PartialEq, Eq)]
pub enum MediaType {
    /// A text of JSON.
    Json,

    /// Bytes, as of frames and images.
    OctetStream,
}

impl MediaType {
    ghost use Rattle.http_replies.specs.Statuses.{type_line_of};

    // The line that names it.
    pub(crate) fn line(self) -> &'static [u8]
        ensures value { result.now ≡ type_line_of self }
        ensures short { length result.now ≤ 42 }
    {
        match self {
            MediaType::Json => b"Content-Type: application/json\r\n",
            MediaType::OctetStream => b"Content-Type: application/octet-stream\r\n",
        }
    }
}
