//! What requests are read from.
ghost use Rattle.std.specs.Prelude.{◌<◌};

use http_edges::MemorySource;
use std::alloc::{AllocError, Global};

/// These bytes in pieces of so many, where the read of this number fails, from 1.
pub fn source(
    alloc: Global,
    input: &[u8],
    chunk: usize,
    fail: u32,
) -> Result<MemorySource, AllocError>
    requires { 0 < chunk }
{
    let fail = [fail].to_vec(alloc)?;
    Ok(MemorySource::new(input.to_vec(alloc)?, chunk, fail))
}

fn push_times(bytes: &mut Vec<u8>, piece: &[u8], count: usize) -> Result<(), AllocError> {
    for _ in 0..count {
        bytes.extend_from_slice(piece)?;
    }
    Ok(())
}

fn push_head(
    bytes: &mut Vec<u8>,
    target: usize,
    fields: usize,
    rest: &[u8],
) -> Result<(), AllocError> {
    bytes.extend_from_slice(b"GET /")?;
    push_times(bytes, b"a", target.saturating_sub(1))?;
    bytes.extend_from_slice(b" HTTP/1.1\r\n")?;
    push_times(bytes, b"a:b\r\n", fields)?;
    bytes.extend_from_slice(rest)
}

/// The head of a GET whose target has so many bytes, at least one, with so many fields, and what stands behind them.
pub fn long_head(
    alloc: Global,
    target: usize,
    fields: usize,
    rest: &[u8],
) -> Result<Vec<u8>, AllocError> {
    let mut bytes = Vec::new(alloc);
    push_head(&mut bytes, target, fields, rest)?;
    Ok(bytes)
}
