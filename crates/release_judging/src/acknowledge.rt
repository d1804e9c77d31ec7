//! The rule of acknowledgements.

ghost use Rattle.std.specs.Prelude.{◌≡◌, IfOk};
ghost use Rattle.release_rows.specs.View.{Told, Reads};
ghost use Rattle.release_judging.specs.Judging.{judged_ack, IsSoundly};

use crate::judged::Judged;
use crate::refusal::refused;
use crate::text::text_of;
use release_rows::{Effect, Rows, RowsFault};
use std::alloc::Global;

/// What the rules say of a mote's word that it runs a release.
pub fn judge_ack<R: Rows>(
    alloc: Global,
    rows: &mut R,
    mote: &str,
    release: u32,
) -> Result<Judged, RowsFault>
    ensures judged { IfOk result (λ j. Told (R.view rows.old) (λ t. j ≡ judged_ack t mote.now release)) }
    ensures sound { IfOk result IsSoundly }
    ensures reads { Reads result (R.view rows.old) (R.view rows.new) }
{
    let kept = rows.release(mote, release)?;
    if kept.is_none() {
        return Ok(Judged::NoRow);
    }
    let acknowledged = rows.acknowledged(mote)?;
    if release < acknowledged {
        return Ok(refused(alloc, 55, &[acknowledged as i64])?);
    }
    let mote = text_of(alloc, mote)?;
    Ok(Judged::Does(Effect::Ack { mote, release }))
}
