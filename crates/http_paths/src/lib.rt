//! Targets of requests: their paths, by the six routes of the server, and their queries.
#![tactic(auto)]

mod paths;
mod query;

pub use paths::{Route, Target, find, make_router};
pub use query::{path_of, query_of, read_have};
