//! The body of an acknowledgement.

ghost use Rattle.std.specs.Prelude.{◌≡◌};
ghost use Rattle.serde_json.specs.View.{view};
ghost use Rattle.http_bodies.specs.Acknowledgement.{acknowledgement_in, acknowledgement_of};
ghost use Rattle.http_bodies.specs.Gives.{Gives};

use crate::fault::BodyFault;
use crate::json::{number_of, only_value, read_json};
use serde_json::Value;
use std::alloc::Global;

// The release that a value acknowledges.
fn acknowledged(value: &Value) -> Option<u32>
    ensures { result ≡ acknowledgement_of (view value.now) }
{
    let release = only_value(value, "release")?;
    Some(number_of(release, u32::MAX as u64)? as u32)
}

/// The release that a body acknowledges: `{"release":N}`, with N from 0 to 4,294,967,295 and no other key.
pub fn read_acknowledgement(alloc: Global, body: &[u8]) -> Result<u32, BodyFault>
    ensures { Gives (acknowledgement_in body.now) result }
{
    let value = read_json(alloc, body)?;
    acknowledged(&value).ok_or(BodyFault::Bad)
}
