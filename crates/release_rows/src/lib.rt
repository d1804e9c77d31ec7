//! The rows that a release server keeps, and the trait of what keeps them.
//!
//! [`Rows`] reads rows; a [`Change`] is what an accepted command does to them. The definitions in `specs/` say what tables of rows
//! are, what a look-up in them answers, which tables are kept in order, and what a change makes of tables.
#![tactic(auto)]

ghost use Rattle.release_rows.specs.Tables.{empty_tables};
ghost use Rattle.release_rows.specs.Kept.{AreKept};

mod change;
mod command;
mod list;
mod part;
mod row;
mod rows;

pub use change::{Change, Effect};
pub use command::Command;
pub use list::{NumberedParts, Parts, SymbolRows, Values};
pub use part::{Numbered, Part};
pub use row::{AckRow, ComponentRow, KeyRow, ReleaseRow, SymbolRow, VersionRow};
pub use rows::{Rows, RowsFault};

/// Tables without a row are kept in order. It does nothing: its contract is the law.
pub fn empty_tables_are_kept()
    ensures { AreKept empty_tables }
{}
