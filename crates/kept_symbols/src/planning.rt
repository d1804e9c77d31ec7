//! The plan of a stored set.

ghost use Rattle.std.specs.Prelude.{◌≡◌, ◌≤◌, IfOk};
ghost use Rattle.std.specs.Result.{result_err};
ghost use Rattle.layout_plan.specs.Plan.{room, plan_fault};
ghost use Rattle.kept_store.specs.Sets.{IsSet};
ghost use Rattle.kept_symbols.specs.Stored.{header_room, stored_rooms, IsPlanOf};

use component_package::Header;
use kept_store::StoredSet;
use layout_plan::{Plan, PlanFault, Sizes, plan_of};

const NOTHING: Sizes = Sizes {
    code: 0,
    init: 0,
    bss: 0,
};

fn sizes_of(header: &Header) -> Sizes
    ensures { room result ≡ header_room header.now }
{
    Sizes {
        code: header.code,
        init: header.init,
        bss: header.bss,
    }
}

/// The plan of a set by its headers, or the first fault, as `plan_of` answers them.
pub fn plan_of_set(set: &StoredSet) -> Result<Plan, PlanFault>
    requires set { IsSet set.now }
    ensures plan { IfOk result (IsPlanOf set.now) }
    ensures fault { result_err result ≡ plan_fault (stored_rooms set.now) }
{
    let mut sizes = [NOTHING; 16];
    let count = set.slots.manifest.count as usize;
    for k in 0..count {
        sizes[k] = sizes_of(&set.headers[k]);
    }
    plan_of(&sizes[..count])
}
