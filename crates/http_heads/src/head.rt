//! A head, read piece by piece until it is whole.
ghost use Rattle.std.specs.Prelude.{◌≡◌, ℕ, List, length};
ghost use Rattle.http_edges.specs.Edge.{Counts, Gives};
ghost use Rattle.http_heads.specs.Read.{HeadGives, EndsAll};

use http_edges::{Failed, Source};
use httparse::Status;
use httparse::spans::{HeaderSpan, RequestSpans, parse_request};

/// What the bytes of a source were found to be.
#[derive(Clone, Copy, Debug, PartialEq, Eq)]
pub enum HeadRead {
    /// So many bytes were taken and begin with a head, whose parts lie there.
    Whole(usize, RequestSpans),

    /// The bytes taken hold no head, and there are 8,192 of them or no head can follow.
    Refused,

    /// The source ended, and the bytes taken hold no head but may become one.
    Cut,
}

/// Reads a head from a source into a buffer of 8,192 bytes, and no more than it takes to know what the bytes are. The 2,800 headers are more
/// than such a head can have. `Failed` is the source's, and then what was taken is in the buffer's front.
pub fn read_head<S: Source>(
    source: &mut S,
    buffer: &mut [u8],
    headers: &mut [HeaderSpan],
) -> Result<HeadRead, Failed>
    requires room { length buffer.old ≡ 8192 }
    requires headers { length headers.old ≡ 2800 }
    ensures counts { Counts (S.view source.old).faults (S.view source.new).faults result }
    ensures gives { (taken : List ℕ) × Gives taken (S.view source.old) (S.view source.new)
        × EndsAll result (S.view source.new) × HeadGives result taken buffer.new headers.new }
{
    let mut at = 0;
    'pieces: loop {
        match parse_request(&buffer[..at], headers) {
            Ok(Status::Complete(spans)) => return Ok(HeadRead::Whole(at, spans)),
            Ok(Status::Partial) => {}
            Err(_) => return Ok(HeadRead::Refused),
        }
        if at == buffer.len() {
            return Ok(HeadRead::Refused);
        }
        let Ok(count) = source.read(&mut buffer[at..]) else {
            return Err(Failed);
        };
        if count == 0 {
            return Ok(HeadRead::Cut);
        }
        at += count;
    }
}
