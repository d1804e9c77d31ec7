//! Versions of components, found by their numbers and counted for each component.
ghost use Rattle.std.specs.Prelude.{◌≡◌, ◌++◌, ◌∷◌, [], ◌==◌, ◌&&◌, length, IfSome, OnOk, OnErr, option_copied};
ghost use Rattle.std.specs.List.{find, filter};
ghost use Rattle.release_rows.specs.Tables.{is_version};
ghost use Rattle.release_rows.specs.Change.{IsPackageOf};

use crate::places::note;
use component_package::NoMemory;
use release_rows::VersionRow;
use std::alloc::Global;
use std::collections::BTreeMap;
use std::marker::Model;

/// The numbers of a version.
#[derive(PartialEq, Eq, PartialOrd, Ord, Clone, Copy, Drop)]
pub(crate) struct VersionKey {
    /// The component's number.
    component: u16,
    /// The version.
    version: u16,
}

// Whether a row is of this version.
fn has_numbers(row: &VersionRow, component: u16, version: u16) -> bool
    ensures { result ≡ is_version component version row.now }
{
    row.component == component && row.version == version
}

/// Versions in the order in which they came. Contracts see the list of them.
#[derive(Drop)]
pub(crate) struct VersionRows {
    rows: Vec<VersionRow>,
    places: BTreeMap<VersionKey, usize>,
    counts: BTreeMap<u16, u32>,
}

impl Model for VersionRows {
    ghost use Rattle.std.specs.Prelude.{List};
    ghost use Rattle.release_rows.specs.declared.row.VersionRow.{VersionRow};
    ghost use Rattle.release_keeper.specs.Versions.{AreVersions};

    ghost Value = { List VersionRow };

    ghost view = { λ t. t.rows.items };

    ghost invariant = { λ t. AreVersions t.places t.counts t.rows.items };
}

impl VersionRows {
    /// No versions.
    pub(crate) fn new(alloc: Global) -> VersionRows
        ensures { result ≡ [] }
    {
        VersionRows {
            rows: Vec::new(alloc),
            places: BTreeMap::new(alloc),
            counts: BTreeMap::new(alloc),
        }
    }

    /// How many versions a component has.
    pub(crate) fn count(&self, component: u16) -> u32
        ensures { result ≡ length (filter (λ r. r.component == component) self.now) }
    {
        match self.counts.get(&component) {
            Some(count) => *count,
            None => 0,
        }
    }

    /// The first row of this version.
    pub(crate) fn get(&self, component: u16, version: u16) -> Option<&VersionRow>
        ensures row { option_copied result ≡ find (is_version component version) self.now }
        ensures grammar { IfSome result (λ r. IsPackageOf component version (r.now).bytes) }
    {
        let place = *self.places.get(&VersionKey { component, version })?;
        let row = self.rows.get(place)?;
        if has_numbers(row, component, version) {
            Some(row)
        } else {
            None
        }
    }

    /// Adds a row behind the others.
    pub(crate) fn push(&mut self, row: VersionRow) -> Result<(), NoMemory>
        requires { IsPackageOf row.component row.version row.bytes }
        ensures ok { OnOk result (self.new ≡ self.old ++ row ∷ []) }
        ensures err { OnErr result (self.new ≡ self.old) }
    {
        let place = self.rows.len();
        if place >= u32::MAX as usize || self.rows.reserve(1).is_err() {
            return Err(NoMemory);
        }
        let known = self.get(row.component, row.version).is_some();
        let count = self.count(row.component);
        let key = VersionKey {
            component: row.component,
            version: row.version,
        };
        note(&mut self.places, key, place, known)?;
        if self.counts.insert(row.component, count + 1).is_err() {
            return Err(NoMemory);
        }
        self.rows.push_reserved(row);
        Ok(())
    }
}
