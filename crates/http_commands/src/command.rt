//! Commands out of bodies.
ghost use Rattle.std.specs.Prelude.{◌≡◌, ◌≤◌, length, map, IfOk};
ghost use Rattle.http_bodies.specs.Gives.{Gives};
ghost use Rattle.http_requests.specs.Questions.{for_release, for_acknowledgement, purpose_shown};
ghost use Rattle.http_commands.specs.Commands.{row_part, command_in, IsBounded};

use component_package::{Bytes, Text};
use http_bodies::{BodyFault, Part as BodyPart, read_acknowledgement, read_parts};
use http_requests::Posting;
use release_rows::{Command, Part, Parts};
use std::alloc::{AllocError, Global};

fn text_of(alloc: Global, text: &str) -> Result<Text, AllocError>
    ensures { IfOk result (λ t. t ≡ text.now) }
{
    Ok(Text::of(String::from_str(alloc, text)?))
}

fn part_of(alloc: Global, part: &BodyPart) -> Result<Part, AllocError>
    ensures { IfOk result (λ p. p ≡ row_part part.now) }
{
    let component = text_of(alloc, part.component.as_str())?;
    Ok(Part {
        component,
        version: part.version,
    })
}

// The parts of a body as those of a command.
fn parts_of(alloc: Global, parts: &[BodyPart]) -> Result<Vec<Part>, AllocError>
    ensures { IfOk result (λ v. v.items ≡ map row_part parts.now) }
{
    let mut rows = Vec::new(alloc);
    for part in parts {
        let row = part_of(alloc, part)?;
        rows.push(row)?;
    }
    Ok(rows)
}

// The command for a release.
fn release_command(alloc: Global, mote: &str, body: &[u8]) -> Result<Command, BodyFault>
    ensures gives { Gives (command_in (for_release mote.now) body.now) result }
    ensures bounded { IfOk result IsBounded }
{
    let parts = read_parts(alloc, body)?;
    let rows = parts_of(alloc, parts.as_slice())?;
    let mote = text_of(alloc, mote)?;
    Ok(Command::AddRelease {
        mote,
        parts: Parts::of(rows),
    })
}

// The command for an acknowledgement.
fn acknowledgement_command(alloc: Global, mote: &str, body: &[u8]) -> Result<Command, BodyFault>
    ensures gives { Gives (command_in (for_acknowledgement mote.now) body.now) result }
    ensures bounded { IfOk result IsBounded }
{
    let release = read_acknowledgement(alloc, body)?;
    let mote = text_of(alloc, mote)?;
    Ok(Command::Acknowledge { mote, release })
}

/// The command that a POST for this gives with this body. `Bad` comes exactly where the body isn't what its path takes, and `Memory` is want
/// of memory.
pub fn command_of(alloc: Global, posting: Posting, body: Vec<u8>) -> Result<Command, BodyFault>
    requires short { length body.items ≤ 262144 }
    ensures gives { Gives (command_in (purpose_shown posting.entry) body.items) result }
    ensures bounded { IfOk result IsBounded }
{
    match posting {
        Posting::Version(component) => {
            let component = text_of(alloc, component)?;
            let object = Bytes::of(body);
            Ok(Command::AddVersion { component, object })
        }
        Posting::Release(mote) => release_command(alloc, mote, &body),
        Posting::Acknowledgement(mote) => acknowledgement_command(alloc, mote, &body),
    }
}
