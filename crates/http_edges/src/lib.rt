//! Both ends of an HTTP connection: where the bytes of a request come from, and where those of a reply go.
//!
//! `Source` and `Sink` are the traits that the code of a connection runs on. `MemorySource` and `MemorySink` are ends in memory, which
//! tell all and fail as they are told to.
#![tactic(auto)]

ghost use Rattle.std.specs.Prelude.{◌≤◌};
ghost use Rattle.http_edges.specs.Edge.{Rose};

mod edge;
mod memory;
mod plan;

pub use edge::{Failed, Sink, Source, write_all};
pub use memory::{MemorySink, MemorySource, NoMemory};

// One more fault, or as many as a count can hold.
fn raised(faults: u64) -> u64
    ensures rose { Rose faults result }
    ensures no_less { faults ≤ result }
{
    faults.saturating_add(1)
}
