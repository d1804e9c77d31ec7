//! Components, found by their names and by their numbers.
ghost use Rattle.std.specs.Prelude.{◌≡◌, ◌++◌, ◌∷◌, [], ◌==◌, length, take, bytes_eq, OnOk, OnErr, option_copied};
ghost use Rattle.std.specs.List.{find};

use crate::names::NamedRows;
use crate::places::note;
use component_package::NoMemory;
use release_rows::ComponentRow;
use std::alloc::Global;
use std::collections::BTreeMap;
use std::marker::Model;

/// Components in the order in which they came. Contracts see the list of them.
#[derive(Drop)]
pub(crate) struct ComponentRows {
    rows: NamedRows<ComponentRow>,
    by_number: BTreeMap<u16, usize>,
}

impl Model for ComponentRows {
    ghost use Rattle.std.specs.Prelude.{List, ◌==◌};
    ghost use Rattle.release_rows.specs.declared.row.ComponentRow.{ComponentRow};
    ghost use Rattle.release_keeper.specs.Index.{PointsAt, at_number};

    ghost Value = { List ComponentRow };

    ghost view = { λ t. t.rows };

    ghost invariant = { λ t. PointsAt (λ number r. r.number == number) (at_number t.by_number) t.rows };
}

impl ComponentRows {
    /// No components.
    pub(crate) fn new(alloc: Global) -> ComponentRows
        ensures { result ≡ [] }
    {
        ComponentRows {
            rows: NamedRows::new(alloc),
            by_number: BTreeMap::new(alloc),
        }
    }

    /// How many there are.
    pub(crate) fn count(&self) -> u32
        ensures { result ≡ length self.now }
    {
        self.rows.count()
    }

    /// The first one with this name.
    pub(crate) fn named(&self, name: &[u8]) -> Option<&ComponentRow>
        ensures { option_copied result ≡ find (λ r. bytes_eq name.now r.name) self.now }
    {
        self.rows.get(name)
    }

    /// The first one with this number.
    pub(crate) fn numbered(&self, number: u16) -> Option<&ComponentRow>
        ensures { option_copied result ≡ find (λ r. r.number == number) self.now }
    {
        let place = *self.by_number.get(&number)?;
        let row = self.rows.at(place)?;
        if row.number == number {
            Some(row)
        } else {
            None
        }
    }

    /// Adds one behind the others.
    pub(crate) fn push(&mut self, alloc: Global, row: ComponentRow) -> Result<(), NoMemory>
        ensures ok { OnOk result (self.new ≡ self.old ++ row ∷ []) }
        ensures err { OnErr result (self.new ≡ self.old) }
    {
        let known = self.numbered(row.number).is_some();
        let place = self.rows.count() as usize;
        note(&mut self.by_number, row.number, place, known)?;
        self.rows.push(alloc, row)?;
        Ok(())
    }

    /// Keeps the first `count`.
    pub(crate) fn truncate(&mut self, count: u32)
        ensures { self.new ≡ take count self.old }
    {
        self.rows.truncate(count);
    }
}
