//! Places of rows in an index.
ghost use Rattle.std.specs.Prelude.{OnOk, OnErr};
ghost use Rattle.std.specs.BTreeMap.{IsUnchanged};
ghost use Rattle.release_keeper.specs.Index.{Notes};

use component_package::NoMemory;
use std::collections::BTreeMap;

/// Notes the place of a row with this key, unless the key is known.
pub(crate) fn note<K: Ord + Drop>(
    places: &mut BTreeMap<K, usize>,
    key: K,
    place: usize,
    known: bool,
) -> Result<(), NoMemory>
    ensures ok { OnOk result (Notes K.cmp known places.old places.new key place) }
    ensures err { OnErr result (IsUnchanged places.old places.new) }
{
    if known {
        return Ok(());
    }
    if places.insert(key, place).is_err() {
        return Err(NoMemory);
    }
    Ok(())
}
