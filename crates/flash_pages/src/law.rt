//! What holds of the definitions of a board in memory.
ghost use Rattle.flash_pages.specs.Plan.{PlansTell};

/// Once the power was cut each call is refused, and a plan of nothing refuses and cuts nothing.
pub fn plans_tell()
    ensures { PlansTell }
{}
