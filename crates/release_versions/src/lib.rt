//! What the release server's rules say of an object that is to be kept as the next version of a component, over rows.
//!
//! Rows are only read. The definitions in `specs/` say each answer as a function of the tables and of the object's bytes.
#![tactic(auto)]

mod component;
mod law;
mod numbers;
mod refusal;
mod version;

pub use law::{kept_numbers_differ, refused_for_want};
pub use version::judge_version;
