//! What keeps the rows of a release server in a database file that SQLite reads.
//!
//! A change is meant to be one transaction: in the file whole or not at all, and on the disk once `apply` has answered Ok.
#![tactic(auto)]

mod checks;
mod database;
mod keeper;
mod schema;
mod store;
mod values;

pub use checks::{is_package_of, is_part_list};
pub use keeper::SqliteKeeper;
