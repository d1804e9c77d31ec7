//! What the fields of a head say of the body and of the request's key.
ghost use Rattle.std.specs.Prelude.{◌≡◌, ◌++◌, [], ◌∷◌, ℕ, List, length, nat_lt, Some, None, All, MatchOption};
ghost use Rattle.httparse.specs.Spans.{IsHeaderWithin, header_bytes};
ghost use Rattle.http_heads.specs.Fields.{fields_of, values_of, is_named as has_name, key_in, key_of};
ghost use Rattle.http_heads.specs.Found.{Finds};
ghost use Rattle.http_heads.specs.Lengths.{body_length_of, length_in, length_of as length_by_text};

use http_texts::{Numeral, is_key, read_number};
use httparse::spans::HeaderSpan;

/// How long the body of a request is by its head.
#[derive(Clone, Copy, Debug, PartialEq, Eq)]
pub enum BodyLength {
    /// So many bytes, at most 262,144.
    Bytes(u32),

    /// More than 262,144 bytes.
    TooLarge,

    /// The head has more than 32 fields, or a Transfer-Encoding, or a Content-Length that stands twice or is no number.
    Bad,
}

// The values of one name.
#[derive(Clone, Copy)]
enum Found<'a> {
    Nothing,
    One(&'a [u8]),
    Several,
}

impl<'a> Found<'a> {
    // The same with a value more.
    fn with(self, value: &'a [u8]) -> Found<'a>
        ensures { (values : List (List ℕ)) → Finds self.entry values → Finds result (values ++ value.now ∷ []) }
    {
        match self {
            Found::Nothing => Found::One(value),
            Found::One(_) => Found::Several,
            Found::Several => Found::Several,
        }
    }

    // Whether there is a value.
    fn is_some(self) -> bool
        ensures { (values : List (List ℕ)) → Finds self.entry values → result ≡ nat_lt 0 (length values) }
    {
        match self {
            Found::Nothing => false,
            Found::One(_) => true,
            Found::Several => true,
        }
    }

    // How long the body is by the values of Content-Length.
    fn length(self) -> BodyLength
        ensures { (values : List (List ℕ)) → Finds self.entry values → result ≡ length_in values }
    {
        match self {
            Found::Nothing => BodyLength::Bytes(0),
            Found::One(text) => length_of(text),
            Found::Several => BodyLength::Bad,
        }
    }

    // The key of a request by the values of Request-Key.
    fn key(self) -> Option<&'a [u8]>
        ensures { (values : List (List ℕ)) → Finds self.entry values → MatchOption result (key_in values ≡ None) (λ key.
            key_in values ≡ Some key.now) }
    {
        match self {
            Found::Nothing => None,
            Found::One(text) => {
                if is_key(text) {
                    return Some(text);
                }
                None
            }
            Found::Several => None,
        }
    }
}

// Whether a field has this name, in letters of either case.
fn is_named(name: &[u8], buffer: &[u8], header: &HeaderSpan) -> bool
    requires { IsHeaderWithin (length buffer.now) header.now }
    ensures { result ≡ has_name name.now (header_bytes buffer.now header.now) }
{
    header.name.of(buffer).eq_ignore_ascii_case(name)
}

// The values found so far, and that of a further field where it has this name.
fn seen<'a>(found: Found<'a>, name: &[u8], buffer: &'a [u8], header: &HeaderSpan) -> Found<'a>
    requires within { IsHeaderWithin (length buffer.now) header.now }
    ensures { (values : List (List ℕ)) → Finds found.entry values
        → Finds result (values ++ values_of name.now (header_bytes buffer.now header.now ∷ [])) }
{
    if !is_named(name, buffer, header) {
        return found;
    }
    found.with(header.value.of(buffer))
}

// The values of the fields of one name.
fn values<'a>(name: &[u8], buffer: &'a [u8], headers: &[HeaderSpan]) -> Found<'a>
    requires within { All (IsHeaderWithin (length buffer.now)) headers.now }
    ensures { Finds result (values_of name.now (fields_of buffer.now headers.now)) }
{
    let mut found = Found::Nothing;
    for header in headers {
        found = seen(found, name, buffer, header);
    }
    found
}

// How long the body is by the text of a Content-Length.
fn length_of(text: &[u8]) -> BodyLength
    ensures { result ≡ length_by_text text.now }
{
    match read_number(262_144, text) {
        Numeral::Value(count) => BodyLength::Bytes(count),
        Numeral::Above => BodyLength::TooLarge,
        Numeral::Other => BodyLength::Bad,
    }
}

/// How long the body of a request is by the fields of its head, which are these headers over the buffer.
pub fn body_length(buffer: &[u8], headers: &[HeaderSpan]) -> BodyLength
    requires within { All (IsHeaderWithin (length buffer.now)) headers.now }
    ensures answer { result ≡ body_length_of (fields_of buffer.now headers.now) }
{
    if headers.len() > 32 {
        return BodyLength::Bad;
    }
    if values(b"transfer-encoding", buffer, headers).is_some() {
        return BodyLength::Bad;
    }
    values(b"content-length", buffer, headers).length()
}

/// The key of a request, where its head has one Request-Key and that is 1 to 64 letters, digits, `_` and `-`.
pub fn request_key<'a>(buffer: &'a [u8], headers: &[HeaderSpan]) -> Option<&'a [u8]>
    requires within { All (IsHeaderWithin (length buffer.now)) headers.now }
    ensures key { MatchOption result (key_of (fields_of buffer.now headers.now) ≡ None) (λ key.
        key_of (fields_of buffer.now headers.now) ≡ Some key.now) }
{
    values(b"request-key", buffer, headers).key()
}
