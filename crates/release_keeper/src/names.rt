//! Rows that have names and are found by them.
ghost use Rattle.std.specs.Prelude.{◌≡◌, ℕ, ◌++◌, ◌∷◌, [], List, length, take, bytes_eq, slice_set, slice_get, slice_index_or, ◌<◌, IfOk, OnOk, OnErr, option_copied};
ghost use Rattle.std.specs.List.{find, position};

use crate::copies::copy_name;
use crate::places::note;
use component_package::NoMemory;
use release_rows::{AckRow, ComponentRow, KeyRow, SymbolRow};
use std::alloc::Global;
use std::collections::BTreeMap;
use std::marker::Model;

/// A row that is found by a name.
pub(crate) trait Named {
    ghost name: { Self → List ℕ };

    /// The name.
    fn name(&self) -> &[u8]
        ensures { result.now ≡ name self.now };
}

impl Named for SymbolRow {
    ghost name = { λ r. r.name };

    fn name(&self) -> &[u8] {
        self.name.as_slice()
    }
}

impl Named for ComponentRow {
    ghost name = { λ r. r.name };

    fn name(&self) -> &[u8] {
        self.name.as_str().as_bytes()
    }
}

impl Named for AckRow {
    ghost name = { λ r. r.mote };

    fn name(&self) -> &[u8] {
        self.mote.as_str().as_bytes()
    }
}

impl Named for KeyRow {
    ghost name = { λ r. r.key };

    fn name(&self) -> &[u8] {
        self.key.as_str().as_bytes()
    }
}

/// Rows in the order in which they came, found by their names. Contracts see the list of them.
#[derive(Drop)]
pub(crate) struct NamedRows<R: Named> {
    rows: Vec<R>,
    by_name: BTreeMap<Vec<u8>, usize>,
}

impl<R: Named> Model for NamedRows<R> {
    ghost use Rattle.std.specs.Prelude.{List, bytes_eq};
    ghost use Rattle.release_keeper.specs.Index.{AreIndexed, at_name};

    ghost Value = { List R };

    ghost view = { λ t. t.rows.items };

    ghost invariant = { λ t. AreIndexed (λ name r. bytes_eq name (R.name r)) (at_name t.by_name) t.rows.items };
}

impl<R: Named + Drop> NamedRows<R> {
    /// No rows.
    pub(crate) fn new(alloc: Global) -> NamedRows<R>
        ensures { result ≡ [] }
    {
        NamedRows {
            rows: Vec::new(alloc),
            by_name: BTreeMap::new(alloc),
        }
    }

    /// How many rows there are.
    pub(crate) fn count(&self) -> u32
        ensures { result ≡ length self.now }
    {
        self.rows.len() as u32
    }

    /// The place of the first row with this name.
    pub(crate) fn place(&self, name: &[u8]) -> Option<usize>
        ensures { result ≡ position (λ r. bytes_eq name.now (R.name r)) self.now }
    {
        let place = *self.by_name.get(name)?;
        let row = self.rows.get(place)?;
        if row.name() == name {
            Some(place)
        } else {
            None
        }
    }

    /// The first row with this name.
    pub(crate) fn get(&self, name: &[u8]) -> Option<&R>
        ensures { option_copied result ≡ find (λ r. bytes_eq name.now (R.name r)) self.now }
    {
        let place = self.place(name)?;
        Some(&self.rows[place])
    }

    /// The row in this place.
    pub(crate) fn at(&self, place: usize) -> Option<&R>
        ensures { option_copied result ≡ slice_get self.now place }
    {
        self.rows.get(place)
    }

    /// Adds a row behind the others.
    pub(crate) fn push(&mut self, alloc: Global, row: R) -> Result<(), NoMemory>
        ensures ok { OnOk result (self.new ≡ self.old ++ row ∷ []) }
        ensures err { OnErr result (self.new ≡ self.old) }
    {
        let place = self.rows.len();
        if place >= u32::MAX as usize || self.rows.reserve(1).is_err() {
            return Err(NoMemory);
        }
        let known = self.place(row.name()).is_some();
        let name = copy_name(alloc, row.name())?;
        note(&mut self.by_name, name, place, known)?;
        self.rows.push_reserved(row);
        Ok(())
    }

    /// Puts a row with the same name in the place of this one.
    pub(crate) fn replace(&mut self, place: usize, row: R)
        requires within { place < length self.old }
        requires same { (d : R) → R.name row ≡ R.name (slice_index_or self.old place d) }
        ensures { self.new ≡ slice_set self.old place row }
    {
        self.rows[place] = row;
    }

    /// Keeps the first `count` rows.
    pub(crate) fn truncate(&mut self, count: u32)
        ensures { self.new ≡ take count self.old }
    {
        self.rows.truncate(count as usize);
    }
}
