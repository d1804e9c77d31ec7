//! The body that asks for a release.

ghost use Rattle.std.specs.Prelude.{◌≡◌, IfOk, Err, Some, None, option_map};
ghost use Rattle.std.specs.List.{list_any};
ghost use Rattle.std.specs.Str.{bytes_eq};
ghost use Rattle.serde_json.specs.View.{view, items_view};
ghost use Rattle.http_bodies.specs.Parts.{AreParts, all_parts, is_short as short_test, names_differ as differ_test, part_of, parts_in, parts_of as parts_wanted};
ghost use Rattle.http_bodies.specs.Gives.{Gives};
ghost use Rattle.http_bodies.specs.declared.part.Part.{Part};

use crate::fault::BodyFault;
use crate::json::{number_of, read_json};
use crate::name::is_name;
use crate::part::{Name, Part, Parts};
use serde_json::Value;
use std::alloc::Global;

// A name and a version, borrowed from a pair.
#[derive(Clone, Copy)]
struct Pair<'a> {
    name: &'a str,
    version: u16,
}

// What the pair `[name, version]` has.
fn pair_of(value: &Value) -> Option<Pair<'_>>
    ensures { option_map (λ p. record { component = p.name.now; version = p.version }) result ≡ part_of (view value.now) }
{
    let items = value.as_array()?;
    if items.len() != 2 {
        return None;
    }
    let name = items[0].as_str()?;
    if !is_name(name) {
        return None;
    }
    let version = number_of(&items[1], u16::MAX as u64)? as u16;
    Some(Pair { name, version })
}

// The parts of all items.
fn all_parts_of(alloc: Global, items: &[Value]) -> Result<Vec<Part>, BodyFault>
    ensures ok { IfOk result (λ v. all_parts (items_view items.now) ≡ Some v.items) }
    ensures bad { result ≡ Err BodyFault.Bad → all_parts (items_view items.now) ≡ None }
{
    let mut parts = Vec::new(alloc);
    for item in items {
        let Some(pair) = pair_of(item) else {
            return Err(BodyFault::Bad);
        };
        let component = Name::of(String::from_str(alloc, pair.name)?);
        let version = pair.version;
        if parts.push(Part { component, version }).is_err() {
            return Err(BodyFault::Memory);
        }
    }
    Ok(parts)
}

// Whether some part has this name.
fn has_name(parts: &[Part], name: &Name) -> bool
    ensures { result ≡ list_any (λ q. bytes_eq name.now q.component) parts.now }
{
    parts
        .iter()
        .any(|part| name.as_str() == part.component.as_str())
}

// Whether no name stands twice.
fn names_differ(parts: &[Part]) -> bool
    ensures { result ≡ differ_test parts.now }
{
    for (i, part) in parts.iter().enumerate() {
        if has_name(&parts[i + 1..], &part.component) {
            return false;
        }
    }
    true
}

// Whether a release may have so many parts: 1 to 16.
fn is_short(count: usize) -> bool
    ensures { result ≡ short_test count }
{
    if count == 0 {
        return false;
    }
    count <= 16
}

/// The parts that a JSON value gives: a list of 1 to 16 pairs `[name, version]`, the names different, each version from 0 to 65,535.
pub fn parts_of(alloc: Global, value: &Value) -> Result<Parts, BodyFault>
    ensures { Gives (parts_wanted (view value.now)) result }
{
    let Some(items) = value.as_array() else {
        return Err(BodyFault::Bad);
    };
    if !is_short(items.len()) {
        return Err(BodyFault::Bad);
    }
    let parts = all_parts_of(alloc, items)?;
    if !names_differ(&parts) {
        return Err(BodyFault::Bad);
    }
    Ok(Parts::of(parts))
}

/// The parts that a body asks a release of: JSON that [`parts_of`] takes.
pub fn read_parts(alloc: Global, body: &[u8]) -> Result<Parts, BodyFault>
    ensures gives { Gives (parts_in body.now) result }
    ensures allowed { IfOk result AreParts }
{
    let value = read_json(alloc, body)?;
    parts_of(alloc, &value)
}
