//! Laws over the definitions of a release server: its tables stay in order and keep their rows, a key acts once, and the image of a release is the image by names
//! of the objects that were given for it.
//!
//! The laws speak of the definitions alone. Each function does nothing, and its contract is the law.
#![tactic(auto)]

ghost use Rattle.release_laws.specs.Steps.{AcksKeepTables, ReleasesKeepTables, VersionsKeepTables};
ghost use Rattle.release_laws.specs.Posted.{AnswersKeepTables};
ghost use Rattle.release_laws.specs.Keys.{KeysActOnce};
ghost use Rattle.release_laws.specs.Stays.{RowsStay};
ghost use Rattle.release_laws.specs.History.{HistoriesAreKept};
ghost use Rattle.release_laws.specs.Served.{ServedImagesAreNameImages};
ghost use Rattle.release_laws.specs.Worked.{WorkedHistory};

/// An acknowledgement that the rules take keeps the tables in order.
pub fn acks_keep_tables()
    ensures { AcksKeepTables }
{}

/// A release that the rules take keeps the tables in order.
pub fn releases_keep_tables()
    ensures { ReleasesKeepTables }
{}

/// A version that the rules take keeps the tables in order.
pub fn versions_keep_tables()
    ensures { VersionsKeepTables }
{}

/// Behind the answer to any command that may come, the tables are in order where they were before.
pub fn answers_keep_tables()
    ensures { AnswersKeepTables }
{}

/// A key acts once: whatever comes afterwards, no command under the key of an accepted one changes a row, and one with the same digest is
/// answered with the first answer's body.
pub fn keys_act_once()
    ensures { KeysActOnce }
{}

/// What is stored stays, whatever comes afterwards: each number, name, package, release and key, and no mote's word goes back.
pub fn rows_stay()
    ensures { RowsStay }
{}

/// After any commands from nothing the tables are in order, and each version's package is that of the object file that was given for it,
/// with the numbers that its names have in the tables.
pub fn histories_are_kept()
    ensures { HistoriesAreKept }
{}

/// After any commands from nothing, the image of a mote's release is the image by names of the objects that were given for its parts, in
/// their order.
pub fn served_images_are_name_images()
    ensures { ServedImagesAreNameImages }
{}

/// A worked history: an object of 251 bytes is kept, a release of it is made, and a key that comes again makes no other release.
pub fn worked_history()
    ensures { WorkedHistory }
{}
