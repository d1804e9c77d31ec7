//! How long the arrays of a set are, for proofs.

ghost use Rattle.std.specs.Prelude.{◌≡◌, length};
ghost use Rattle.kept_store.specs.Open.{HasRooms};

use component_package::Entry;
use kept_store::StoredSet;

// There are 16 entries.
fn room(entries: &[Entry; 16])
    ensures { length entries.now ≡ 16 }
{
    let _room = entries.len();
}

/// A set's arrays have 16 places each. It does nothing.
pub(crate) fn rooms(set: &StoredSet)
    ensures { HasRooms set.now }
{
    room(&set.slots.manifest.entries);
    let _slot = set.slots.slots[0];
    let _header = set.headers[0];
}
