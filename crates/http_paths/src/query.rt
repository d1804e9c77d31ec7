//! A target is a path, or a path, `?` and a query.
ghost use Rattle.std.specs.Prelude.{◌≡◌, ◌==◌, ◌<◌, length, Some, None, IfSome, MatchOption};
ghost use Rattle.std.specs.List.{position};
ghost use Rattle.http_paths.specs.Targets.{path_of as path_in, query_of as query_in};
ghost use Rattle.http_paths.specs.Queries.{number_in, have_in};

use http_texts::{Numeral, read_number};

// The place of the first `?`.
fn mark_of(target: &[u8]) -> Option<usize>
    ensures place { result ≡ position (λ b. b == 63) target.now }
    ensures within { IfSome result (λ at. at < length target.now) }
{
    target.iter().position(|byte| *byte == b'?')
}

/// The path of a target: all before its first `?`, or all of it.
pub fn path_of<'a>(target: &'a [u8]) -> &'a [u8]
    ensures path { result.now ≡ path_in target.now }
{
    match mark_of(target) {
        Some(at) => &target[..at],
        None => target,
    }
}

/// The query of a target: all after its first `?`, also where that is nothing.
pub fn query_of<'a>(target: &'a [u8]) -> Option<&'a [u8]>
    ensures query { MatchOption result (query_in target.now ≡ None) (λ query. query_in target.now ≡ Some query.now) }
{
    match mark_of(target) {
        Some(at) => Some(&target[at + 1..]),
        None => None,
    }
}

// The number that a text writes as `0` or as digits without a leading zero.
pub(crate) fn number(text: &[u8]) -> Option<u32>
    ensures { result ≡ number_in text.now }
{
    match read_number(u32::MAX, text) {
        Numeral::Value(n) => Some(n),
        _ => None,
    }
}

/// The number of a query that is `have=` and a number, at most 4,294,967,295.
pub fn read_have(query: &[u8]) -> Option<u32>
    ensures number { result ≡ have_in query.now }
{
    if !query.starts_with(b"have=") {
        return None;
    }
    number(&query[5..])
}
