//! JSON out of bytes, and numbers out of JSON.

ghost use Rattle.std.specs.Prelude.{◌≡◌, Some, None, Err, IfOk, option_map};
ghost use Rattle.serde_json.specs.View.{view};
ghost use Rattle.http_bodies.specs.Json.{json_of, number_up_to, only_member};

use crate::fault::BodyFault;
use serde_json::Value;
use std::alloc::Global;

// The value of a body.
pub(crate) fn read_json(alloc: Global, body: &[u8]) -> Result<Value, BodyFault>
    ensures ok { IfOk result (λ v. json_of body.now ≡ Some (view v)) }
    ensures bad { result ≡ Err BodyFault.Bad → json_of body.now ≡ None }
{
    match Value::from_slice(alloc, body) {
        Ok(value) => Ok(value),
        Err(error) => {
            if error.is_memory() {
                Err(BodyFault::Memory)
            } else {
                Err(BodyFault::Bad)
            }
        }
    }
}

// A whole number from 0 to the limit.
pub(crate) fn number_of(value: &Value, limit: u64) -> Option<u64>
    ensures { result ≡ number_up_to limit (view value.now) }
{
    let n = value.as_u64()?;
    if n <= limit { Some(n) } else { None }
}

// The value of an object's one member, where its key is this one.
pub(crate) fn only_value<'a>(value: &'a Value, key: &str) -> Option<&'a Value>
    ensures { option_map (λ v. view v.now) result ≡ only_member key.now (view value.now) }
{
    let members = value.as_object()?;
    if members.len() != 1 {
        return None;
    }
    value.get(key)
}
