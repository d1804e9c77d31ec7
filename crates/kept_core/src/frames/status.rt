//! STATUS.

ghost use Rattle.std.specs.Prelude.{◌≡◌, true};
ghost use Rattle.kept_sessions.specs.Lines.{prints};
ghost use Rattle.kept_definitions.specs.Machine.{Mote, step};
ghost use Rattle.kept_journal.specs.Standing.{IsOfMote};
ghost use Rattle.kept_core.specs.Frames.{status_frame, number_of, stage_of};

use component_package::Answer;
use kept_journal::Standing;

// The number of what comes in, or 0.
fn incoming_number(standing: &Standing) -> u32
    ensures { result ≡ number_of standing.now }
{
    match &standing.incoming {
        Some(incoming) => incoming.manifest.release,
        None => 0,
    }
}

// 3 where a commit stands, else 2 where something is linked, 1 where something comes in, else 0.
fn stage_number(standing: &Standing) -> u8
    ensures { result ≡ stage_of standing.now }
{
    if standing.pending {
        return 3;
    }
    if standing.image {
        return 2;
    }
    if standing.incoming.is_some() {
        return 1;
    }
    0
}

/// The release that boots, what comes in and how far it is.
pub(crate) fn status_of(standing: &Standing) -> Answer
    ensures answer { (t : Mote) → IsOfMote t standing.now → result ≡ (step t status_frame).answer }
    ensures line { prints result ≡ true }
{
    let current = standing.current.manifest.release;
    if standing.pending {
        return Answer::Status(current, 0, 3);
    }
    Answer::Status(current, incoming_number(standing), stage_number(standing))
}
