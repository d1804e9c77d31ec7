//! The steps by which a mote makes an image, and the set that it makes it from.

ghost use Rattle.std.specs.Prelude.{IfSome};
ghost use Rattle.kept_manifests.specs.Slots.{IsSlotManifest};
ghost use Rattle.kept_store.specs.Sets.{IsSet};
ghost use Rattle.kept_symbols.specs.Stored.{IsPlanOf};

use crate::mote::Releases;
use flash_pages::Board;
use kept_relocs::{build, check_relocs, count_relocs};
use kept_stage::stage;
use kept_store::{StoredSet, open_current, open_set};
use kept_symbols::{count_symbols, merge, plan_of_set};
use layout_plan::Plan;

/// A step, in the order in which LINK takes them, behind the opening of the set.
#[derive(Clone, Copy)]
pub(crate) enum Step {
    Count,
    Merge,
    Check,
    Build,
    Stage,
}

/// All steps.
pub(crate) const STEPS: [Step; 5] = [
    Step::Count,
    Step::Merge,
    Step::Check,
    Step::Build,
    Step::Stage,
];

impl Step {
    /// The call's name.
    pub(crate) fn name(self) -> &'static str {
        match self {
            Step::Count => "count_symbols",
            Step::Merge => "merge",
            Step::Check => "check_relocs",
            Step::Build => "build",
            Step::Stage => "stage",
        }
    }
}

/// The incoming set over the installed one.
pub(crate) fn opened<B: Board>(board: &mut B, releases: &Releases) -> Option<StoredSet>
    requires current { IsSlotManifest releases.now.current }
    requires incoming { IsSlotManifest releases.now.incoming }
    ensures { IfSome result IsSet }
{
    let Ok(current) = open_current(board, &releases.current) else {
        return None;
    };
    match open_set(board, &releases.incoming, &current) {
        Ok(set) => Some(set),
        Err(_) => None,
    }
}

/// The plan of a set.
pub(crate) fn planned(set: &StoredSet) -> Option<Plan>
    requires { IsSet set.now }
    ensures { IfSome result (IsPlanOf set.now) }
{
    match plan_of_set(set) {
        Ok(plan) => Some(plan),
        Err(_) => None,
    }
}

// Whether the relocation list was built.
fn is_built<B: Board>(board: &mut B, set: &StoredSet, plan: &Plan) -> bool
    requires set { IsSet set.now }
    requires plan { IsPlanOf set.now plan.now }
{
    match count_relocs(set) {
        Ok(_) => build(board, set, plan).is_ok(),
        Err(_) => false,
    }
}

/// Takes a step, and says whether it went well.
pub(crate) fn takes<B: Board>(board: &mut B, set: &StoredSet, plan: &Plan, step: Step) -> bool
    requires set { IsSet set.now }
    requires plan { IsPlanOf set.now plan.now }
{
    match step {
        Step::Count => count_symbols(board, set).is_ok(),
        Step::Merge => merge(board, set, plan).is_ok(),
        Step::Check => check_relocs(board, set, plan).is_ok(),
        Step::Build => is_built(board, set, plan),
        Step::Stage => stage(board, set, plan).is_ok(),
    }
}
