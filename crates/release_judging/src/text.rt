//! Copies of texts and bytes.

ghost use Rattle.std.specs.Prelude.{◌≡◌, IfOk};

use component_package::{Bytes, Text};
use std::alloc::{AllocError, Global};

/// This text, owned.
pub fn text_of(alloc: Global, text: &str) -> Result<Text, AllocError>
    ensures { IfOk result (λ t. t ≡ text.now) }
{
    Ok(Text::of(String::from_str(alloc, text)?))
}

/// These bytes, owned.
pub fn bytes_of(alloc: Global, bytes: &[u8]) -> Result<Bytes, AllocError>
    ensures { IfOk result (λ b. b ≡ bytes.now) }
{
    let mut copy = Vec::new(alloc);
    copy.extend_from_slice(bytes)?;
    Ok(Bytes::of(copy))
}
