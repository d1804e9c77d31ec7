//! Releases for motes, found by their numbers and counted for each mote.
ghost use Rattle.std.specs.Prelude.{◌≡◌, ◌++◌, ◌∷◌, [], length, bytes_eq, IfOk, IfSome, OnOk, OnErr, option_copied};
ghost use Rattle.std.specs.List.{find, filter};
ghost use Rattle.release_rows.specs.Tables.{is_release};
ghost use Rattle.release_rows.specs.Change.{IsPartList};

use crate::copies::copy_name;
use crate::places::note;
use component_package::NoMemory;
use release_rows::ReleaseRow;
use std::alloc::Global;
use std::collections::BTreeMap;
use std::marker::Model;

/// A mote and the number of a release for it.
#[derive(PartialEq, Eq, PartialOrd, Ord, Drop)]
pub(crate) struct ReleaseKey {
    /// The mote's name.
    mote: Vec<u8>,
    /// The release's number.
    number: u32,
}

// Whether a row is of this release.
fn has_key(row: &ReleaseRow, key: &ReleaseKey) -> bool
    ensures { result ≡ is_release (key.now).mote.items (key.now).number row.now }
{
    key.mote.as_slice() == row.mote.as_str().as_bytes() && row.number == key.number
}

/// Releases in the order in which they came. Contracts see the list of them.
#[derive(Drop)]
pub(crate) struct ReleaseRows {
    rows: Vec<ReleaseRow>,
    places: BTreeMap<ReleaseKey, usize>,
    counts: BTreeMap<Vec<u8>, u32>,
}

impl Model for ReleaseRows {
    ghost use Rattle.std.specs.Prelude.{List};
    ghost use Rattle.release_rows.specs.declared.row.ReleaseRow.{ReleaseRow};
    ghost use Rattle.release_keeper.specs.Releases.{AreReleases};

    ghost Value = { List ReleaseRow };

    ghost view = { λ t. t.rows.items };

    ghost invariant = { λ t. AreReleases t.places t.counts t.rows.items };
}

impl ReleaseRows {
    /// No releases.
    pub(crate) fn new(alloc: Global) -> ReleaseRows
        ensures { result ≡ [] }
    {
        ReleaseRows {
            rows: Vec::new(alloc),
            places: BTreeMap::new(alloc),
            counts: BTreeMap::new(alloc),
        }
    }

    /// How many releases a mote has.
    pub(crate) fn count(&self, mote: &[u8]) -> u32
        ensures { result ≡ length (filter (λ r. bytes_eq mote.now r.mote) self.now) }
    {
        match self.counts.get(mote) {
            Some(count) => *count,
            None => 0,
        }
    }

    /// The first row of this release.
    pub(crate) fn get(&self, key: &ReleaseKey) -> Option<&ReleaseRow>
        ensures row { option_copied result ≡ find (is_release (key.now).mote.items (key.now).number) self.now }
        ensures parts { IfSome result (λ r. IsPartList (r.now).parts) }
    {
        let place = *self.places.get(key)?;
        let row = self.rows.get(place)?;
        if has_key(row, key) { Some(row) } else { None }
    }

    /// Adds a row behind the others.
    pub(crate) fn push(&mut self, alloc: Global, row: ReleaseRow) -> Result<(), NoMemory>
        requires { IsPartList row.parts }
        ensures ok { OnOk result (self.new ≡ self.old ++ row ∷ []) }
        ensures err { OnErr result (self.new ≡ self.old) }
    {
        let place = self.rows.len();
        if place >= u32::MAX as usize || self.rows.reserve(1).is_err() {
            return Err(NoMemory);
        }
        let mote = row.mote.as_str().as_bytes();
        let key = release_key(alloc, mote, row.number)?;
        let known = self.get(&key).is_some();
        let count = self.count(mote);
        let name = copy_name(alloc, mote)?;
        note(&mut self.places, key, place, known)?;
        if self.counts.insert(name, count + 1).is_err() {
            return Err(NoMemory);
        }
        self.rows.push_reserved(row);
        Ok(())
    }
}

/// The key of a release.
pub(crate) fn release_key(alloc: Global, mote: &[u8], number: u32) -> Result<ReleaseKey, NoMemory>
    ensures { IfOk result (λ key. (key.mote.items ≡ mote.now) × (key.number ≡ number)) }
{
    Ok(ReleaseKey {
        mote: copy_name(alloc, mote)?,
        number,
    })
}
