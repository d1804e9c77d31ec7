//! Which calls a plan means.
ghost use Rattle.std.specs.Prelude.{◌≡◌, ◌+◌, ◌-◌, ◌^◌, min};
ghost use Rattle.http_edges.specs.Plan.{is_planned};

// Whether the plan names a call with this number.
fn is_planned(fail: &[u32], number: u64) -> bool
    ensures { result ≡ is_planned fail.now number }
{
    match u32::try_from(number) {
        Ok(number) => fail.contains(&number),
        Err(_) => false,
    }
}

/// Counts a call, and says whether it is one that is to fail.
pub(crate) fn fails(fail: &[u32], calls: &mut u64) -> bool
    ensures calls { calls.new ≡ min (calls.old + 1) (2 ^ 64 - 1) }
    ensures answer { result ≡ is_planned fail.now calls.new }
{
    *calls = calls.saturating_add(1);
    is_planned(fail, *calls)
}
