//! Answers to questions.
ghost use Rattle.std.specs.Prelude.{◌≡◌, ◌≤◌, ℕ, List, length, IfOk, Err};
ghost use Rattle.release_rows.specs.Tables.{Tables};
ghost use Rattle.release_rows.specs.View.{Told, Reads};
ghost use Rattle.release_judging.specs.Images.{packages_of_release};
ghost use Rattle.release_updates.specs.Updates.{update_bytes};
ghost use Rattle.release_rules.specs.Motes.{mote_text};
ghost use Rattle.release_rules.specs.Machine.{Answer, found, IsReleaseImage};
ghost use Rattle.http_requests.specs.Questions.{shown};
ghost use Rattle.http_releases.specs.Responses.{in_json, in_bytes, AsksKeeper};
ghost use Rattle.http_releases.specs.Replies.{with_tables, Acts, AnswersOver, RepliesOver};

use crate::cause::cause_reply;
use crate::post::answer_post;
use crate::reply::{
    Reply, bad_request, in_octets, in_text, missing, no_memory, no_route, other_method, unavailable,
};
use http_replies::Status;
use http_requests::Asking;
use release_judging::{ImageAnswer, release_image};
use release_keeper::Keeper;
use release_rows::RowsFault;
use release_rules::mote_body;
use release_updates::update_frames;
use std::alloc::Global;

// Answers what a mote has.
fn answer_mote<Q: Keeper>(alloc: Global, keeper: &mut Q, mote: &str) -> Result<Reply, RowsFault>
    ensures answer { IfOk result (λ reply. Told (Q.view keeper.old) (λ t. with_tables reply t ≡ in_json (found (mote_text t mote.now) t))) }
    ensures reads { Reads result (Q.view keeper.old) (Q.view keeper.new) }
{
    let Some(text) = mote_body(alloc, keeper, mote)? else {
        return Ok(missing(alloc)?);
    };
    Ok(in_text(Status::Success, text))
}

// Answers with the frames that bring a mote to its last release.
fn answer_update<Q: Keeper>(
    alloc: Global,
    keeper: &mut Q,
    mote: &str,
    have: u32,
) -> Result<Reply, RowsFault>
    ensures answer { IfOk result (λ reply. Told (Q.view keeper.old) (λ t. with_tables reply t ≡ in_bytes (found (update_bytes t mote.now have) t))) }
    ensures reads { Reads result (Q.view keeper.old) (Q.view keeper.new) }
{
    let Some(frames) = update_frames(alloc, keeper, mote, have)? else {
        return Ok(missing(alloc)?);
    };
    Ok(in_octets(frames))
}

// Answers with the image of a release.
fn answer_image<Q: Keeper>(
    alloc: Global,
    keeper: &mut Q,
    mote: &str,
    number: u32,
) -> Result<Reply, RowsFault>
    ensures answer { IfOk result (λ reply. Told (Q.view keeper.old) (λ t. (a : Answer)
        × IsReleaseImage (packages_of_release t mote.now number) t a × (with_tables reply t ≡ in_bytes a))) }
    ensures reads { Reads result (Q.view keeper.old) (Q.view keeper.new) }
{
    let answer = release_image(alloc, keeper, mote, number)?;
    match answer {
        ImageAnswer::Image(image) => Ok(in_octets(image)),
        ImageAnswer::NoRow => Ok(missing(alloc)?),
        ImageAnswer::Cause(fault) => Ok(cause_reply(alloc, fault)?),
    }
}

// Answers a question.
fn answer<Q: Keeper>(
    alloc: Global,
    keeper: &mut Q,
    asking: Asking,
    body: Vec<u8>,
) -> Result<Reply, RowsFault>
    requires short { length body.items ≤ 262144 }
    ensures answer { IfOk result (AnswersOver (shown asking.entry) body.items (Q.view keeper.old) (Q.view keeper.new)) }
    ensures acts { Acts result (Q.view keeper.old) (Q.view keeper.new) }
    ensures asks { result ≡ Err RowsFault.Failed → AsksKeeper (shown asking.entry) }
{
    match asking {
        Asking::NotFound => Ok(no_route()),
        Asking::WrongMethod => Ok(other_method()),
        Asking::Malformed => Ok(bad_request()),
        Asking::Post {
            posting,
            key,
            digest,
        } => answer_post(alloc, keeper, posting, key, &digest, body),
        Asking::Update(mote, have) => answer_update(alloc, keeper, mote, have),
        Asking::Mote(mote) => answer_mote(alloc, keeper, mote),
        Asking::Image(mote, number) => answer_image(alloc, keeper, mote, number),
    }
}

/// The reply to a question with this body.
pub(crate) fn reply_to<Q: Keeper>(
    alloc: Global,
    keeper: &mut Q,
    asking: Asking,
    body: Vec<u8>,
) -> Reply
    requires short { length body.items ≤ 262144 }
    ensures replies { RepliesOver (shown asking.entry) body.items (Q.view keeper.old) (Q.view keeper.new) result }
    ensures later { (Q.view keeper.old).faults ≤ (Q.view keeper.new).faults }
{
    match answer(alloc, keeper, asking, body) {
        Ok(reply) => reply,
        Err(RowsFault::Failed) => unavailable(),
        Err(RowsFault::Memory) => no_memory(),
    }
}
