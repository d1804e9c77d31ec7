//! Commands of tests, and what is decided of them.

ghost use Rattle.std.specs.Prelude.{◌≡◌, ◌≤◌, true, IfOk, IfSome};
ghost use Rattle.release_rules.specs.Deciding.{IsAllowed, IsSafely};

use crate::objects::{Object, bytes_of_object};
use component_package::Bytes;
use release_judging::{bytes_of, text_of};
use release_keeper::{Keeper, MemoryKeeper};
use release_rows::{Command, Part, Parts, Rows, RowsFault};
use release_rules::{Decision, decide};
use std::alloc::{AllocError, Global};

/// Components of a release, by their names, with their versions.
pub type Named = &'static [(&'static str, u16)];

/// A key that no command has come under.
pub const NEW_KEY: &str = "new";

/// What a test asks for.
#[derive(Clone, Copy)]
pub enum Ask {
    /// An object as a component's next version.
    Version(&'static str, Object),
    /// A mote's next release.
    Release(&'static str, Named),
    /// A mote's word that it runs a release.
    Acknowledge(&'static str, u32),
}

fn parts_of(alloc: Global, named: &[(&str, u16)]) -> Result<Parts, AllocError> {
    let mut parts = Vec::new(alloc);
    for (name, version) in named {
        let component = text_of(alloc, name)?;
        parts.push(Part {
            component,
            version: *version,
        })?;
    }
    Ok(Parts::of(parts))
}

/// The command that adds an object as a component's next version.
pub fn version_command(alloc: Global, name: &str, object: Bytes) -> Result<Command, AllocError> {
    let component = text_of(alloc, name)?;
    Ok(Command::AddVersion { component, object })
}

/// The command that makes parts a mote's next release.
pub fn release_command(
    alloc: Global,
    mote: &str,
    named: &[(&str, u16)],
) -> Result<Command, AllocError> {
    let mote = text_of(alloc, mote)?;
    let parts = parts_of(alloc, named)?;
    Ok(Command::AddRelease { mote, parts })
}

/// The command for what a test asks.
pub fn command_of(alloc: Global, ask: Ask) -> Result<Command, AllocError> {
    match ask {
        Ask::Version(name, object) => {
            let object = bytes_of(alloc, bytes_of_object(object))?;
            version_command(alloc, name, object)
        }
        Ask::Release(mote, named) => release_command(alloc, mote, named),
        Ask::Acknowledge(mote, release) => {
            let mote = text_of(alloc, mote)?;
            Ok(Command::Acknowledge { mote, release })
        }
    }
}

// Whether a release may have so many parts.
fn is_short(count: usize) -> bool
    ensures { result ≡ true → (1 ≤ count) × (count ≤ 16) }
{
    1 <= count && count <= 16
}

// Whether a command may be decided.
fn is_allowed(command: &Command) -> bool
    ensures { result ≡ true → IsAllowed command.now }
{
    match command {
        Command::AddVersion { object, .. } => object.as_slice().len() <= 262_144,
        Command::AddRelease { parts, .. } => is_short(parts.as_slice().len()),
        Command::Acknowledge { .. } => true,
    }
}

/// What is decided of a command under a key, with a digest of this byte; none where it may not be decided.
pub fn decided<R: Rows>(
    alloc: Global,
    rows: &mut R,
    key: &str,
    digest: u8,
    command: &Command,
) -> Result<Option<Decision>, RowsFault>
    ensures { IfOk result (λ d. IfSome d IsSafely) }
{
    if !is_allowed(command) {
        return Ok(None);
    }
    let decision = decide(alloc, rows, key, &[digest; 32], command)?;
    Ok(Some(decision))
}

// A refusal's number and what goes with it; 201 of what is accepted, and 404 where something isn't there.
fn numbers_of(alloc: Global, decision: &Decision) -> Result<Vec<i64>, AllocError> {
    let mut numbers = Vec::new(alloc);
    match decision {
        Decision::Accepted(_) => numbers.push(201)?,
        Decision::NoRow => numbers.push(404)?,
        Decision::Refused { number, values } => {
            numbers.push(*number as i64)?;
            numbers.extend_from_slice(values.as_slice())?;
        }
        Decision::Repeated(_) | Decision::KeyTaken(_) => {}
    }
    Ok(numbers)
}

/// Whether this is decided of a command under a new key: a refusal's number and what goes with it, 201 where it is accepted, 404 where
/// something isn't there.
pub fn comes_to<R: Rows>(
    alloc: Global,
    rows: &mut R,
    command: &Command,
    wanted: &[i64],
) -> Result<bool, RowsFault> {
    match decided(alloc, rows, NEW_KEY, 0, command)? {
        Some(decision) => Ok(numbers_of(alloc, &decision)?.as_slice() == wanted),
        None => Ok(false),
    }
}

/// Does what is asked for under a key. Whether it was accepted.
pub fn does(
    alloc: Global,
    keeper: &mut MemoryKeeper,
    key: &str,
    command: &Command,
) -> Result<bool, RowsFault> {
    match decided(alloc, keeper, key, 0, command)? {
        Some(Decision::Accepted(change)) => {
            keeper.apply(&change)?;
            Ok(true)
        }
        _ => Ok(false),
    }
}
