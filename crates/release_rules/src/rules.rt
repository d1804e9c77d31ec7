//! The rules of commands, and the keys that they come under.

ghost use Rattle.std.specs.Prelude.{◌≡◌, IfOk};
ghost use Rattle.release_rows.specs.View.{Told, Reads};
ghost use Rattle.release_judging.specs.Judging.{IsSoundly};
ghost use Rattle.release_rules.specs.Deciding.{IsAllowed, judged as judged_of, decided, IsSafely};

use crate::decision::Decision;
use crate::settle::{answer_again, settle};
use release_judging::{Judged, judge_ack, judge_release};
use release_rows::{Command, Rows, RowsFault};
use release_versions::judge_version;
use std::alloc::Global;

// What the rules say of a command, its key apart.
fn judge<R: Rows>(alloc: Global, rows: &mut R, command: &Command) -> Result<Judged, RowsFault>
    requires { IsAllowed command.now }
    ensures judged { IfOk result (λ j. Told (R.view rows.old) (λ t. j ≡ judged_of t command.now)) }
    ensures sound { IfOk result IsSoundly }
    ensures reads { Reads result (R.view rows.old) (R.view rows.new) }
{
    match command {
        Command::AddVersion { component, object } => {
            judge_version(alloc, rows, component.as_str(), object.as_slice())
        }
        Command::AddRelease { mote, parts } => {
            judge_release(alloc, rows, mote.as_str(), parts.as_slice())
        }
        Command::Acknowledge { mote, release } => judge_ack(alloc, rows, mote.as_str(), *release),
    }
}

/// What is decided of a command that came under a key, with the SHA-256 digest that tells whether it is the same command again. An object
/// has at most 262,144 bytes, and a release 1 to 16 parts. Rows are only read: what is accepted is a change, which is still to be made.
///
/// A key that has a row is answered by it, and the rules aren't asked. `Failed` comes only where a call on the rows failed, and `Memory`
/// where there was none.
pub fn decide<R: Rows>(
    alloc: Global,
    rows: &mut R,
    key: &str,
    digest: &[u8; 32],
    command: &Command,
) -> Result<Decision, RowsFault>
    requires { IsAllowed command.now }
    ensures decided { IfOk result (λ d. Told (R.view rows.old) (λ t. d ≡ decided t key.now digest.now command.now)) }
    ensures sound { IfOk result IsSafely }
    ensures reads { Reads result (R.view rows.old) (R.view rows.new) }
{
    if let Some(row) = rows.key_row(key)? {
        return Ok(answer_again(row, digest));
    }
    let judged = judge(alloc, rows, command)?;
    Ok(settle(alloc, key, digest, judged)?)
}
