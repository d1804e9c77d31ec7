//! The update of a mote to its last release, over the rows of a release server.
//!
//! Rows are only read. The definitions in `specs/` say the update's bytes as a function of the tables, and what they do to a mote.
#![tactic(auto)]

ghost use Rattle.release_updates.specs.Laws.{UpdatesOfRows};
ghost use Rattle.release_updates.specs.Rows.{WorkedUpdates};

mod frames;
mod manifest;
mod pieces;
mod update;

pub use update::update_frames;

/// The update of a mote over kept tables: which there are, and what they do to every mote that has the older release. It does nothing: its
/// contract is the law.
pub fn updates_of_rows()
    ensures { UpdatesOfRows }
{}

/// Updates over tables of two components: 245 bytes, END alone, and where there is none. It does nothing: its contract is the law.
pub fn worked_updates()
    ensures { WorkedUpdates }
{}
