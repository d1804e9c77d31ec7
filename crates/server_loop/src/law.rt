//! What holds of connections that were served.
ghost use Rattle.server_loop.specs.Laws.{FailuresAreCounted};

use http_releases::law::unavailable_tells;

/// Unless the keeper's count of faults stands at its last value, at most as many connections are answered that the keeper failed as that count
/// rose by.
pub fn failures_are_counted()
    ensures { FailuresAreCounted }
{
    unavailable_tells();
}
