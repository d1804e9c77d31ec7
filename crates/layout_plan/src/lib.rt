//! Where the parts of a set of components stand in flash and in RAM.
#![tactic(auto)]

mod plan;
mod planning;

pub use plan::{Plan, PlanFault, Sizes};
pub use planning::{linker_symbol, plan_of};
