//! The bodies of replies.

ghost use Rattle.std.specs.Prelude.{◌≡◌, IfOk, string_bytes, map};
ghost use Rattle.serde_json.specs.View.{view, items_view, items_of};
ghost use Rattle.http_bodies.specs.Replies.{reply_text, version_reply, release_reply, acknowledgement_reply, part_data, mote_reply, key_taken_reply, integer, refusal_reply};

use crate::part::Part;
use serde_json::{Value, json};
use std::alloc::{AllocError, Global};

// `{"component":C,"length":L,"sha256":"hex","version":V}`
fn version_value(
    alloc: Global,
    component: u16,
    length: u64,
    digest: &[u8; 32],
    version: u16,
) -> Result<Value, AllocError>
    ensures { IfOk result (λ v. view v ≡ version_reply component length digest.now version) }
{
    let sha256 = hex::encode(alloc, digest)?;
    json!(in alloc; {"component": component, "length": length, "sha256": sha256, "version": version})
}

/// The body that answers an added version: `{"component":C,"length":L,"sha256":"hex","version":V}`, with the component's number, the
/// length of its package in bytes, and the package's SHA-256 digest.
pub fn version_body(
    alloc: Global,
    component: u16,
    length: u64,
    digest: &[u8; 32],
    version: u16,
) -> Result<String, AllocError>
    ensures { IfOk result (λ s. string_bytes s ≡ reply_text (version_reply component length digest.now version)) }
{
    let value = version_value(alloc, component, length, digest, version)?;
    value.to_string(alloc)
}

// `{"mote":"m","release":N}`
fn release_value(alloc: Global, mote: &str, release: u32) -> Result<Value, AllocError>
    ensures { IfOk result (λ v. view v ≡ release_reply mote.now release) }
{
    json!(in alloc; {"mote": mote, "release": release})
}

/// The body that answers an added release: `{"mote":"m","release":N}`.
pub fn release_body(alloc: Global, mote: &str, release: u32) -> Result<String, AllocError>
    ensures { IfOk result (λ s. string_bytes s ≡ reply_text (release_reply mote.now release)) }
{
    let value = release_value(alloc, mote, release)?;
    value.to_string(alloc)
}

// `{"acknowledged":N,"mote":"m"}`
fn acknowledgement_value(alloc: Global, release: u32, mote: &str) -> Result<Value, AllocError>
    ensures { IfOk result (λ v. view v ≡ acknowledgement_reply release mote.now) }
{
    json!(in alloc; {"acknowledged": release, "mote": mote})
}

/// The body that answers an acknowledgement: `{"acknowledged":N,"mote":"m"}`.
pub fn acknowledgement_body(alloc: Global, release: u32, mote: &str) -> Result<String, AllocError>
    ensures { IfOk result (λ s. string_bytes s ≡ reply_text (acknowledgement_reply release mote.now)) }
{
    let value = acknowledgement_value(alloc, release, mote)?;
    value.to_string(alloc)
}

// `["name",V]`
fn part_value(alloc: Global, part: &Part) -> Result<Value, AllocError>
    ensures { IfOk result (λ v. view v ≡ part_data part.now) }
{
    json!(in alloc; [part.component.as_str(), part.version])
}

// The list of all parts.
fn part_values(alloc: Global, parts: &[Part]) -> Result<Vec<Value>, AllocError>
    ensures { IfOk result (λ v. items_view v.items ≡ items_of (map part_data parts.now)) }
{
    let mut values = Vec::new(alloc);
    for part in parts {
        let value = part_value(alloc, part)?;
        values.push(value)?;
    }
    Ok(values)
}

// `{"acknowledged":A,"components":[["name",V],..],"mote":"m","release":N}`
fn mote_value(
    alloc: Global,
    acknowledged: u32,
    parts: &[Part],
    mote: &str,
    release: u32,
) -> Result<Value, AllocError>
    ensures { IfOk result (λ v. view v ≡ mote_reply acknowledged parts.now mote.now release) }
{
    let components = part_values(alloc, parts)?;
    json!(in alloc; {"acknowledged": acknowledged, "components": components, "mote": mote, "release": release})
}

/// The body that answers what a mote has: `{"acknowledged":A,"components":[["name",V],..],"mote":"m","release":N}`, with the parts of
/// its last release, N, and the release A that it acknowledged, 0 where there is none.
pub fn mote_body(
    alloc: Global,
    acknowledged: u32,
    parts: &[Part],
    mote: &str,
    release: u32,
) -> Result<String, AllocError>
    ensures { IfOk result (λ s. string_bytes s ≡ reply_text (mote_reply acknowledged parts.now mote.now release)) }
{
    let value = mote_value(alloc, acknowledged, parts, mote, release)?;
    value.to_string(alloc)
}

// `{"refusal":4,"sha256":"hex"}`
fn key_taken_value(alloc: Global, digest: &[u8; 32]) -> Result<Value, AllocError>
    ensures { IfOk result (λ v. view v ≡ key_taken_reply digest.now) }
{
    let sha256 = hex::encode(alloc, digest)?;
    json!(in alloc; {"refusal": 4u16, "sha256": sha256})
}

/// The body that answers a key that another request has: `{"refusal":4,"sha256":"hex"}`, with the digest of that request.
pub fn key_taken_body(alloc: Global, digest: &[u8; 32]) -> Result<String, AllocError>
    ensures { IfOk result (λ s. string_bytes s ≡ reply_text (key_taken_reply digest.now)) }
{
    let value = key_taken_value(alloc, digest)?;
    value.to_string(alloc)
}

// The list of all numbers.
fn number_values(alloc: Global, numbers: &[i64]) -> Result<Vec<Value>, AllocError>
    ensures { IfOk result (λ v. items_view v.items ≡ items_of (map integer numbers.now)) }
{
    let mut values = Vec::new(alloc);
    for number in numbers {
        let value = Value::from(*number);
        values.push(value)?;
    }
    Ok(values)
}

// `{"refusal":n,"values":[..]}`
fn refusal_value(alloc: Global, refusal: u16, values: &[i64]) -> Result<Value, AllocError>
    ensures { IfOk result (λ v. view v ≡ refusal_reply refusal values.now) }
{
    let numbers = number_values(alloc, values)?;
    json!(in alloc; {"refusal": refusal, "values": numbers})
}

/// The body of a refusal: `{"refusal":n,"values":[..]}`.
pub fn refusal_body(alloc: Global, refusal: u16, values: &[i64]) -> Result<String, AllocError>
    ensures { IfOk result (λ s. string_bytes s ≡ reply_text (refusal_reply refusal values.now)) }
{
    let value = refusal_value(alloc, refusal, values)?;
    value.to_string(alloc)
}
