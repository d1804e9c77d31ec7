//! The frames that bring a mote from one release to another, and laws on what they do where external flash is in the second layout.
//!
//! `specs/Update` computes the frames of an update from the packages of both releases. Each function does nothing, and its contract is a law:
//! over any mote that has the older release, these frames end with `linked` and `committed`, and the mote then has the newer one, byte for byte.
//! What both releases have in common isn't sent, and is in the mote's set: what its slots hold doesn't count.
#![tactic(auto)]

ghost use Rattle.kept_updates.specs.Laws.{UpdatesAreFrames, OneTableAgrees, FramesAreByteFrames, UpdatesInstall, SetIsTheRelease, ReleasesStay};
ghost use Rattle.kept_updates.specs.Rows.{FirstUpdate, NextUpdates, UpdatesExist};

/// On the line the frames of an update are bytes that say these frames and nothing more.
pub fn updates_are_frames()
    ensures { UpdatesAreFrames }
{}

/// The packages of two releases agree where one table has the package of each component and version.
pub fn one_table_agrees()
    ensures { OneTableAgrees }
{}

/// Whatever bytes come, the frames that are read of them have payloads of bytes.
pub fn frames_are_byte_frames()
    ensures { FramesAreByteFrames }
{}

/// An update's frames end with `linked` and `committed`, and the mote then has the new release, byte for byte, whatever came in before.
pub fn updates_install()
    ensures { UpdatesInstall }
{}

/// A mote whose set is what these packages spell has their release, byte for byte.
pub fn set_is_the_release()
    ensures { SetIsTheRelease }
{}

/// A formatted mote has release 0, and a mote has its release until a commit comes to stand.
pub fn releases_stay()
    ensures { ReleasesStay }
{}

/// An update of two packages: its 245 bytes on the line, what a formatted mote answers, and how it is taken up again where it was broken off.
pub fn first_update()
    ensures { FirstUpdate }
{}

/// Updates over it: one component replaced, none, and a package that disagrees with a held one.
pub fn next_updates()
    ensures { NextUpdates }
{}

/// The conditions on an update are met by two worked ones.
pub fn updates_exist()
    ensures { UpdatesExist }
{}
