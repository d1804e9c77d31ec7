//! Keys, and what a command comes to.

ghost use Rattle.std.specs.Prelude.{◌≡◌, IfOk};
ghost use Rattle.release_judging.specs.Judging.{IsSoundly};
ghost use Rattle.release_rows.specs.declared.row.KeyRow.{KeyRow};
ghost use Rattle.release_rules.specs.declared.decision.Decision.{Decision};
ghost use Rattle.release_rules.specs.Deciding.{settled, by_key, IsSafely};
ghost use Rattle.std.specs.Prelude.{Some};

use crate::body::body_of;
use crate::decision::Decision;
use release_judging::{Judged, text_of};
use release_rows::{Change, Effect, KeyRow};
use std::alloc::{AllocError, Global};

// The change that an effect makes under a key.
fn change_of(
    alloc: Global,
    key: &str,
    digest: &[u8; 32],
    effect: Effect,
) -> Result<Decision, AllocError>
    ensures { IfOk result (λ d. d ≡ settled key.now digest.now (Judged.Does effect)) }
{
    let body = body_of(alloc, &effect)?;
    let key = text_of(alloc, key)?;
    let key = KeyRow {
        key,
        digest: *digest,
        body,
    };
    Ok(Decision::Accepted(Change { effect, key }))
}

/// What a command under a new key comes to, by what the rules say of it.
pub(crate) fn settle(
    alloc: Global,
    key: &str,
    digest: &[u8; 32],
    judged: Judged,
) -> Result<Decision, AllocError>
    requires { IsSoundly judged }
    ensures settled { IfOk result (λ d. d ≡ settled key.now digest.now judged) }
    ensures sound { IfOk result IsSafely }
{
    match judged {
        Judged::Does(effect) => change_of(alloc, key, digest, effect),
        Judged::NoRow => Ok(Decision::NoRow),
        Judged::Refused { number, values } => Ok(Decision::Refused { number, values }),
    }
}

/// What a command comes to whose key has a row.
pub(crate) fn answer_again(row: KeyRow, digest: &[u8; 32]) -> Decision
    ensures answer { (new : Decision) → result ≡ by_key (Some row) digest.now new }
    ensures sound { IsSafely result }
{
    if *digest == row.digest {
        Decision::Repeated(row.body)
    } else {
        Decision::KeyTaken(row.digest)
    }
}
