//! Answers to commands.
ghost use Rattle.std.specs.Prelude.{◌≡◌, ◌≤◌, length, IfOk, Some, None};
ghost use Rattle.release_rows.specs.Tables.{Tables};
ghost use Rattle.release_rows.specs.Change.{IsSound};
ghost use Rattle.release_rules.specs.Deciding.{IsSafely, by_key};
ghost use Rattle.release_rules.specs.Machine.{answered};
ghost use Rattle.http_requests.specs.Questions.{purpose_shown};
ghost use Rattle.http_commands.specs.Commands.{command_in, IsBounded};
ghost use Rattle.http_releases.specs.Responses.{in_json, posted};
ghost use Rattle.http_releases.specs.Replies.{with_tables, Acts, Responds};

use crate::reply::{Reply, bad_request, in_text, missing, refused};
use component_package::Text;
use http_bodies::{BodyFault, key_taken_body};
use http_commands::command_of;
use http_replies::Status;
use http_requests::Posting;
use release_keeper::Keeper;
use release_rows::{Change, Command, KeyRow, RowsFault};
use release_rules::{Decision, decide};
use std::alloc::{AllocError, Global};

// The key is another command's.
fn key_taken(alloc: Global, digest: &[u8; 32]) -> Result<Reply, AllocError>
    ensures { IfOk result (λ reply. (t : Tables) → with_tables reply t ≡ in_json (answered (Decision.KeyTaken digest.now) t)) }
{
    let body = key_taken_body(alloc, digest)?;
    Ok(in_text(Status::Conflict, Text::of(body)))
}

// Makes a change, and answers with the body that is kept.
fn make<Q: Keeper>(keeper: &mut Q, change: Change) -> Result<Reply, RowsFault>
    requires safe { IsSound change.effect }
    ensures answer { IfOk result (λ reply. Responds (Q.view keeper.old) (Q.view keeper.new) reply (λ t. in_json (answered (Decision.Accepted change) t))) }
    ensures acts { Acts result (Q.view keeper.old) (Q.view keeper.new) }
{
    match keeper.apply(&change) {
        Ok(()) => {
            let key = change.key;
            Ok(in_text(Status::Created, key.body))
        }
        Err(fault) => Err(fault),
    }
}

// Answers with what was decided, and makes the change that was accepted.
fn settle<Q: Keeper>(alloc: Global, keeper: &mut Q, decision: Decision) -> Result<Reply, RowsFault>
    requires safe { IsSafely decision }
    ensures answer { IfOk result (λ reply. Responds (Q.view keeper.old) (Q.view keeper.new) reply (λ t. in_json (answered decision t))) }
    ensures acts { Acts result (Q.view keeper.old) (Q.view keeper.new) }
{
    match decision {
        Decision::Accepted(change) => make(keeper, change),
        Decision::Repeated(body) => Ok(in_text(Status::Created, body)),
        Decision::KeyTaken(digest) => Ok(key_taken(alloc, &digest)?),
        Decision::NoRow => Ok(missing(alloc)?),
        Decision::Refused { number, values } => Ok(refused(alloc, number, values.as_slice())?),
    }
}

// Answers a command that came under a key.
fn answer_command<Q: Keeper>(
    alloc: Global,
    keeper: &mut Q,
    key: &str,
    digest: &[u8; 32],
    command: &Command,
) -> Result<Reply, RowsFault>
    requires bounded { IsBounded command.now }
    ensures answer { IfOk result (λ reply. Responds (Q.view keeper.old) (Q.view keeper.new) reply (λ t. posted key.now digest.now (Some command.now) t)) }
    ensures acts { Acts result (Q.view keeper.old) (Q.view keeper.new) }
{
    match decide(alloc, keeper, key, digest, command) {
        Ok(decision) => settle(alloc, keeper, decision),
        Err(fault) => Err(fault),
    }
}

// What is decided by the row of a key alone.
fn decided_before(row: KeyRow, digest: &[u8; 32]) -> Decision
    ensures decision { result ≡ by_key (Some row) digest.now Decision.NoRow }
    ensures safe { IsSafely result }
{
    if *digest == row.digest {
        Decision::Repeated(row.body)
    } else {
        Decision::KeyTaken(row.digest)
    }
}

// Answers a body that is no command: a key that has a row is answered by it.
fn answer_unread<Q: Keeper>(
    alloc: Global,
    keeper: &mut Q,
    key: &str,
    digest: &[u8; 32],
) -> Result<Reply, RowsFault>
    ensures answer { IfOk result (λ reply. Responds (Q.view keeper.old) (Q.view keeper.new) reply (λ t. posted key.now digest.now None t)) }
    ensures acts { Acts result (Q.view keeper.old) (Q.view keeper.new) }
{
    match keeper.key_row(key) {
        Ok(Some(row)) => settle(alloc, keeper, decided_before(row, digest)),
        Ok(None) => Ok(bad_request()),
        Err(fault) => Err(fault),
    }
}

/// Answers a POST under a key.
pub(crate) fn answer_post<Q: Keeper>(
    alloc: Global,
    keeper: &mut Q,
    posting: Posting,
    key: &str,
    digest: &[u8; 32],
    body: Vec<u8>,
) -> Result<Reply, RowsFault>
    requires short { length body.items ≤ 262144 }
    ensures answer { IfOk result (λ reply. Responds (Q.view keeper.old) (Q.view keeper.new) reply (λ t. posted key.now digest.now (command_in (purpose_shown posting.entry) body.items) t)) }
    ensures acts { Acts result (Q.view keeper.old) (Q.view keeper.new) }
{
    match command_of(alloc, posting, body) {
        Ok(command) => answer_command(alloc, keeper, key, digest, &command),
        Err(BodyFault::Bad) => answer_unread(alloc, keeper, key, digest),
        Err(BodyFault::Memory) => Err(RowsFault::Memory),
    }
}
