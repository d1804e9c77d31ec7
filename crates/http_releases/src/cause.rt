//! Replies for releases that have no image.
ghost use Rattle.std.specs.Prelude.{◌≡◌, ◌+◌, IfOk, Some};
ghost use Rattle.component_package.specs.link.Link.{Cause};
ghost use Rattle.full_linker.specs.Faults.{cause_of};
ghost use Rattle.release_rows.specs.Tables.{Tables};
ghost use Rattle.release_judging.specs.Faults.{number_of_cause, cause_values};
ghost use Rattle.release_rules.specs.Machine.{refused as refused_answer};
ghost use Rattle.http_releases.specs.Responses.{in_json};
ghost use Rattle.http_releases.specs.Replies.{with_tables};

use crate::reply::{Reply, refused};
use component_package::NoMemory;
use full_linker::LinkFault;
use release_judging::{Judged, link_refusal};
use std::alloc::Global;

/// The reply that names the cause.
pub(crate) fn cause_reply(alloc: Global, fault: LinkFault) -> Result<Reply, NoMemory>
    ensures { IfOk result (λ reply. (c : Cause) → cause_of fault ≡ Some c
        → (t : Tables) → with_tables reply t ≡ in_json (refused_answer (300 + number_of_cause c) (cause_values c) t)) }
{
    let Judged::Refused { number, values } = link_refusal(alloc, fault)? else {
        return Err(NoMemory);
    };
    Ok(refused(alloc, number, values.as_slice())?)
}
