//! The bodies that answer what commands did.

ghost use Rattle.std.specs.Prelude.{◌≡◌, IfOk, length};
ghost use Rattle.sha2.specs.Sha256.{sha256};
ghost use Rattle.http_bodies.specs.Replies.{reply_text, version_reply};
ghost use Rattle.release_rules.specs.Deciding.{body_of as answer_of};

use component_package::Text;
use http_bodies::{acknowledgement_body, release_body, version_body};
use release_rows::Effect;
use sha2::{Digest, Sha256};
use std::alloc::{AllocError, Global};

// The body that answers an added version.
fn body_of_version(
    alloc: Global,
    component: u16,
    version: u16,
    package_bytes: &[u8],
) -> Result<Text, AllocError>
    ensures { IfOk result (λ b. b ≡ reply_text (version_reply component (length package_bytes.now) (sha256 package_bytes.now) version)) }
{
    let digest: [u8; 32] = Sha256::digest(package_bytes);
    let length = package_bytes.len() as u64;
    let body = version_body(alloc, component, length, &digest, version)?;
    Ok(Text::of(body))
}

/// The body that answers what a command did.
pub(crate) fn body_of(alloc: Global, effect: &Effect) -> Result<Text, AllocError>
    ensures { IfOk result (λ b. b ≡ answer_of effect.now) }
{
    match effect {
        Effect::Version {
            component,
            version,
            package,
            ..
        } => body_of_version(alloc, *component, *version, package.as_slice()),
        Effect::Release { mote, number, .. } => {
            let body = release_body(alloc, mote.as_str(), *number)?;
            Ok(Text::of(body))
        }
        Effect::Ack { mote, release } => {
            let body = acknowledgement_body(alloc, *release, mote.as_str())?;
            Ok(Text::of(body))
        }
    }
}
