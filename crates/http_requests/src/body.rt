//! A body, read in the pieces in which it comes.
ghost use Rattle.std.specs.Prelude.{◌≡◌, ◌≤◌, ℕ, List, length, Some, IfOk};
ghost use Rattle.http_edges.specs.Edge.{Counts, in_front};
ghost use Rattle.http_requests.specs.Pieces.{Filled};
ghost use Rattle.http_requests.specs.Taken.{TellsBody, HasSize};

use http_edges::{Failed, Source};
use std::alloc::Global;

/// What was found of a body.
#[derive(Debug, Drop)]
pub(crate) enum BodyRead {
    /// All of it.
    Whole(Vec<u8>),

    /// The source ended before it did.
    Cut,

    /// There was no memory.
    NoRoom,
}

// Fills a buffer with these bytes and then from a source, and says whether there was enough to fill it.
fn fill<S: Source>(source: &mut S, start: &[u8], into: &mut [u8]) -> Result<bool, Failed>
    requires fits { length start.now ≤ length into.old }
    ensures filled { IfOk result (Filled start.now into.new (S.view source.old) (S.view source.new)) }
    ensures size { length into.new ≡ length into.old }
    ensures counts { Counts (S.view source.old).faults (S.view source.new).faults result }
{
    into[..start.len()].copy_from_slice(start);
    let mut at = start.len();
    while at < into.len() {
        let Ok(count) = source.read(&mut into[at..]) else {
            return Err(Failed);
        };
        if count == 0 {
            return Ok(false);
        }
        at += count;
    }
    Ok(true)
}

/// Takes a body of so many bytes, which begins with the bytes that came with the head. Its memory is taken once.
pub(crate) fn read_body<S: Source>(
    alloc: Global,
    source: &mut S,
    start: &[u8],
    count: usize,
) -> Result<BodyRead, Failed>
    ensures size { IfOk result (HasSize count) }
    ensures tells { IfOk result (λ read. (rest : List ℕ) → in_front start.now (S.view source.old).left ≡ Some rest → TellsBody count rest read) }
    ensures counts { Counts (S.view source.old).faults (S.view source.new).faults result }
{
    if count <= start.len() {
        let Ok(body) = Vec::from_slice(alloc, &start[..count]) else {
            return Ok(BodyRead::NoRoom);
        };
        return Ok(BodyRead::Whole(body));
    }
    let Ok(mut body) = vec![in alloc; 0; count] else {
        return Ok(BodyRead::NoRoom);
    };
    let Ok(full) = fill(source, start, &mut body) else {
        return Err(Failed);
    };
    if !full {
        return Ok(BodyRead::Cut);
    }
    Ok(BodyRead::Whole(body))
}
