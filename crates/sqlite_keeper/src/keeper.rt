//! A keeper in a database file. It tells nothing of what the file holds.
ghost use Rattle.std.specs.Prelude.{◌≡◌, ◌≤◌};
ghost use Rattle.release_rows.specs.Change.{IsSound};
ghost use Rattle.release_rows.specs.View.{CountsFaults, Reads};
ghost use Rattle.release_keeper.specs.Keeper.{Applies};

use crate::store::Store;
use component_package::{Bytes, Text};
use release_keeper::Keeper;
use release_rows::{Change, KeyRow, NumberedParts, Rows, RowsFault};
use std::alloc::Global;

/// A keeper in a database file that SQLite reads. It tells no tables, and counts its faults.
///
/// It opens the file at its first call, and makes it where it is missing. The file and the log beside it, whose name ends in `-wal`,
/// belong together. A count is the greatest number that is kept.
///
/// No clause says what the file holds or when it reaches the disk. Runs of the release server show that a later keeper on the file finds what
/// changes made, also where the process was killed. A change is
/// meant to be one transaction with full synchronisation, so that it outlives the process and a power cut once `apply` has answered Ok.
/// Each look-up is meant to go by a key, so that its time grows with the logarithm of how many rows there are.
///
/// Want of memory that `sqlite` names is `RowsFault::Memory`. These are faults: each other call that `sqlite` refuses, tables of the
/// same names in another form, a stored value outside its type's range, and a stored package or release that isn't one. After a
/// failure of the disk the file is meant to be opened again at the next call.
#[derive(Drop)]
pub struct SqliteKeeper<'a> {
    store: Store<'a>,
    faults: u64,
}

// Counts a call that failed. Want of memory is no fault.
fn counted<T: Drop>(faults: &mut u64, outcome: Result<T, RowsFault>) -> Result<T, RowsFault>
    ensures same { result ≡ outcome }
    ensures later { faults.old ≤ faults.new }
    ensures count { CountsFaults outcome faults.old faults.new }
{
    if let Err(RowsFault::Failed) = &outcome {
        *faults = faults.saturating_add(1);
    }
    outcome
}

impl<'a> SqliteKeeper<'a> {
    ghost use Rattle.sqlite_keeper.specs.Keeper.{sqlite_view};

    /// A keeper in the file at this path. It opens nothing yet.
    pub fn at(rt: &'a HostRuntime, alloc: Global, path: &'a str) -> SqliteKeeper<'a>
        ensures { (sqlite_view result).faults ≡ 0 }
    {
        SqliteKeeper {
            store: Store::new(rt, alloc, path),
            faults: 0,
        }
    }

    /// How many calls have failed.
    pub fn faults(&self) -> u64
        ensures { result ≡ (sqlite_view self.now).faults }
    {
        self.faults
    }

    /// Brings the log back into the file and closes both, where they are open. A later call opens them again.
    pub fn close(&mut self) -> Result<(), RowsFault>
        ensures { Reads result (sqlite_view self.old) (sqlite_view self.new) }
    {
        let closed = self.store.close();
        counted(&mut self.faults, closed)
    }
}

impl Rows for SqliteKeeper<'_> {
    ghost use Rattle.sqlite_keeper.specs.Keeper.{sqlite_view};

    ghost view = { sqlite_view };

    fn key_row(&mut self, key: &str) -> Result<Option<KeyRow>, RowsFault> {
        let found = self.store.key_row(key);
        counted(&mut self.faults, found)
    }

    fn symbol_number(&mut self, name: &[u8]) -> Result<Option<u16>, RowsFault> {
        let found = self.store.symbol_number(name);
        counted(&mut self.faults, found)
    }

    fn symbol_count(&mut self) -> Result<u32, RowsFault> {
        let found = self.store.symbol_count();
        counted(&mut self.faults, found)
    }

    fn component_number(&mut self, name: &str) -> Result<Option<u16>, RowsFault> {
        let found = self.store.component_number(name);
        counted(&mut self.faults, found)
    }

    fn component_name(&mut self, number: u16) -> Result<Option<Text>, RowsFault> {
        let found = self.store.component_name(number);
        counted(&mut self.faults, found)
    }

    fn component_count(&mut self) -> Result<u32, RowsFault> {
        let found = self.store.component_count();
        counted(&mut self.faults, found)
    }

    fn version_count(&mut self, component: u16) -> Result<u32, RowsFault> {
        let found = self.store.version_count(component);
        counted(&mut self.faults, found)
    }

    fn package(&mut self, component: u16, version: u16) -> Result<Option<Bytes>, RowsFault> {
        let found = self.store.package(component, version);
        counted(&mut self.faults, found)
    }

    fn release_count(&mut self, mote: &str) -> Result<u32, RowsFault> {
        let found = self.store.release_count(mote);
        counted(&mut self.faults, found)
    }

    fn release(&mut self, mote: &str, number: u32) -> Result<Option<NumberedParts>, RowsFault> {
        let found = self.store.release(mote, number);
        counted(&mut self.faults, found)
    }

    fn acknowledged(&mut self, mote: &str) -> Result<u32, RowsFault> {
        let found = self.store.acknowledged(mote);
        counted(&mut self.faults, found)
    }
}

impl Keeper for SqliteKeeper<'_> {
    fn apply(&mut self, change: &Change) -> Result<(), RowsFault> {
        let made = self.store.apply(change);
        counted(&mut self.faults, made)
    }
}
