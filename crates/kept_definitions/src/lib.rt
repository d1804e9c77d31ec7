//! The second layout of external flash, in which the code of installed components is kept once: it is taken back from patched program flash.
//!
//! `specs/` says runs, stored releases, the sets of a mote, soundness, the mote machine and the headline; rows in `proofs/` pin them by computing.
#![tactic(auto)]

ghost use Rattle.kept_definitions.specs.Layouts.{LayoutsDiffer};

pub mod areas;

/// What a side stores in the first layout, it doesn't store in the second. It does nothing: its contract is the law.
pub fn layouts_differ()
    ensures { LayoutsDiffer }
{}
