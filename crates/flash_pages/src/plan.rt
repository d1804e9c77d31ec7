//! Which calls and programs a plan means.
ghost use Rattle.std.specs.Prelude.{◌≡◌, ◌+◌, ◌-◌, ◌^◌, ◌==◌, ◌||◌, min, if◌then◌else◌};
ghost use Rattle.flash_pages.specs.Plan.{is_planned};

use crate::BoardPlan;

// Whether the plan names a call with this number.
fn is_planned(plan: &BoardPlan, number: u64) -> bool
    ensures { result ≡ is_planned plan.now number }
{
    match u32::try_from(number) {
        Ok(number) => plan.fail.contains(&number),
        Err(_) => false,
    }
}

/// Counts a call, and says whether it is one that is to fail.
pub(crate) fn fails(plan: &BoardPlan, calls: &mut u64, stopped: bool) -> bool
    ensures calls { calls.new ≡ min (calls.old + 1) (2 ^ 64 - 1) }
    ensures answer { result ≡ (stopped || is_planned plan.now calls.new) }
{
    *calls = calls.saturating_add(1);
    if stopped {
        return true;
    }
    is_planned(plan, *calls)
}

/// Whether the program after so many is the one with this number.
pub(crate) fn is_next(number: u32, programs: u32) -> bool
    ensures { result ≡ (number == programs + 1) }
{
    number > 0 && number - 1 == programs
}

/// What a program writes: where the power is cut in it what the plan says, and else its page.
pub(crate) fn written(plan: &BoardPlan, stops: bool, from: &[u8; 256]) -> [u8; 256]
    ensures { result ≡ (if stops then plan.now.spoil else from.now) }
{
    if stops { plan.spoil } else { *from }
}
