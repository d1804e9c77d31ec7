//! A keeper in memory, some of whose calls are to fail.
ghost use Rattle.std.specs.Prelude.{◌≡◌, ◌+◌, ◌-◌, ◌^◌, [], min, IfOk, IfSome, Some};
ghost use Rattle.release_rows.specs.Tables.{empty_tables, key_row, symbol_number, symbol_count, component_number, component_name, component_count, version_count, stored_package, release_count, stored_release, acknowledged};
ghost use Rattle.release_rows.specs.Change.{IsPackageOf, IsPartList, IsSound};
ghost use Rattle.release_rows.specs.View.{Told, Reads};
ghost use Rattle.release_keeper.specs.Keeper.{Applies};

use crate::Keeper;
use crate::copies::{copy_bytes, copy_key, copy_parts, copy_text};
use crate::releases::release_key;
use crate::tables::MemoryTables;
use component_package::{Bytes, Text};
use release_rows::{Change, KeyRow, NumberedParts, Rows, RowsFault};
use std::alloc::Global;

/// A keeper in memory, which tells its tables.
///
/// Each of its calls of `Rows` and `Keeper` says in the clause `plan` when it fails. Rows are found by their keys, in time that grows with
/// the logarithm of how many there are.
#[derive(Drop)]
pub struct MemoryKeeper {
    tables: MemoryTables,
    fail: Vec<u32>,
    calls: u64,
    faults: u64,
    alloc: Global,
}

impl MemoryKeeper {
    ghost use Rattle.release_keeper.specs.Memory.{memory_view, plan_of, calls_of, GoesByPlan};

    /// A keeper without a row. `fail` names the calls that are to fail, which are numbered from 1; they change nothing.
    pub fn new(alloc: Global, fail: Vec<u32>) -> MemoryKeeper
        ensures tables { memory_view result ≡ record { tables = Some empty_tables; faults = 0 } }
        ensures plan { plan_of result ≡ fail.items }
        ensures calls { calls_of result ≡ 0 }
    {
        MemoryKeeper {
            tables: MemoryTables::new(alloc),
            fail,
            calls: 0,
            faults: 0,
            alloc,
        }
    }

    // Counts a call, and fails where the plan names it.
    fn call(&mut self) -> Result<(), RowsFault>
        ensures plan { GoesByPlan result self.old self.new }
        ensures reads { Reads result (memory_view self.old) (memory_view self.new) }
    {
        self.calls = self.calls.saturating_add(1);
        if let Ok(number) = u32::try_from(self.calls)
            && self.fail.contains(&number)
        {
            self.faults = self.faults.saturating_add(1);
            return Err(RowsFault::Failed);
        }
        Ok(())
    }
}

impl Rows for MemoryKeeper {
    ghost use Rattle.release_keeper.specs.Memory.{memory_view, GoesByPlan};

    ghost view = { memory_view };

    fn key_row(&mut self, key: &str) -> Result<Option<KeyRow>, RowsFault>
        ensures row { IfOk result (λ r. Told (memory_view self.old) (λ t. r ≡ key_row t key.now)) }
        ensures reads { Reads result (memory_view self.old) (memory_view self.new) }
        ensures plan { GoesByPlan result self.old self.new }
    {
        self.call()?;
        match self.tables.keys.get(key.as_bytes()) {
            Some(row) => Ok(Some(copy_key(self.alloc, row)?)),
            None => Ok(None),
        }
    }

    fn symbol_number(&mut self, name: &[u8]) -> Result<Option<u16>, RowsFault>
        ensures row { IfOk result (λ r. Told (memory_view self.old) (λ t. r ≡ symbol_number t name.now)) }
        ensures reads { Reads result (memory_view self.old) (memory_view self.new) }
        ensures plan { GoesByPlan result self.old self.new }
    {
        self.call()?;
        match self.tables.symbols.get(name) {
            Some(row) => Ok(Some(row.number)),
            None => Ok(None),
        }
    }

    fn symbol_count(&mut self) -> Result<u32, RowsFault>
        ensures row { IfOk result (λ n. Told (memory_view self.old) (λ t. n ≡ symbol_count t)) }
        ensures reads { Reads result (memory_view self.old) (memory_view self.new) }
        ensures plan { GoesByPlan result self.old self.new }
    {
        self.call()?;
        Ok(self.tables.symbols.count())
    }

    fn component_number(&mut self, name: &str) -> Result<Option<u16>, RowsFault>
        ensures row { IfOk result (λ r. Told (memory_view self.old) (λ t. r ≡ component_number t name.now)) }
        ensures reads { Reads result (memory_view self.old) (memory_view self.new) }
        ensures plan { GoesByPlan result self.old self.new }
    {
        self.call()?;
        match self.tables.components.named(name.as_bytes()) {
            Some(row) => Ok(Some(row.number)),
            None => Ok(None),
        }
    }

    fn component_name(&mut self, number: u16) -> Result<Option<Text>, RowsFault>
        ensures row { IfOk result (λ r. Told (memory_view self.old) (λ t. r ≡ component_name t number)) }
        ensures reads { Reads result (memory_view self.old) (memory_view self.new) }
        ensures plan { GoesByPlan result self.old self.new }
    {
        self.call()?;
        match self.tables.components.numbered(number) {
            Some(row) => Ok(Some(copy_text(self.alloc, &row.name)?)),
            None => Ok(None),
        }
    }

    fn component_count(&mut self) -> Result<u32, RowsFault>
        ensures row { IfOk result (λ n. Told (memory_view self.old) (λ t. n ≡ component_count t)) }
        ensures reads { Reads result (memory_view self.old) (memory_view self.new) }
        ensures plan { GoesByPlan result self.old self.new }
    {
        self.call()?;
        Ok(self.tables.components.count())
    }

    fn version_count(&mut self, component: u16) -> Result<u32, RowsFault>
        ensures row { IfOk result (λ n. Told (memory_view self.old) (λ t. n ≡ version_count t component)) }
        ensures reads { Reads result (memory_view self.old) (memory_view self.new) }
        ensures plan { GoesByPlan result self.old self.new }
    {
        self.call()?;
        Ok(self.tables.versions.count(component))
    }

    fn package(&mut self, component: u16, version: u16) -> Result<Option<Bytes>, RowsFault>
        ensures row { IfOk result (λ r. Told (memory_view self.old) (λ t. r ≡ stored_package t component version)) }
        ensures grammar { IfOk result (λ r. IfSome r (IsPackageOf component version)) }
        ensures reads { Reads result (memory_view self.old) (memory_view self.new) }
        ensures plan { GoesByPlan result self.old self.new }
    {
        self.call()?;
        match self.tables.versions.get(component, version) {
            Some(row) => Ok(Some(copy_bytes(self.alloc, &row.bytes)?)),
            None => Ok(None),
        }
    }

    fn release_count(&mut self, mote: &str) -> Result<u32, RowsFault>
        ensures row { IfOk result (λ n. Told (memory_view self.old) (λ t. n ≡ release_count t mote.now)) }
        ensures reads { Reads result (memory_view self.old) (memory_view self.new) }
        ensures plan { GoesByPlan result self.old self.new }
    {
        self.call()?;
        Ok(self.tables.releases.count(mote.as_bytes()))
    }

    fn release(&mut self, mote: &str, number: u32) -> Result<Option<NumberedParts>, RowsFault>
        ensures row { IfOk result (λ r. Told (memory_view self.old) (λ t. r ≡ stored_release t mote.now number)) }
        ensures parts { IfOk result (λ r. IfSome r IsPartList) }
        ensures reads { Reads result (memory_view self.old) (memory_view self.new) }
        ensures plan { GoesByPlan result self.old self.new }
    {
        self.call()?;
        let key = release_key(self.alloc, mote.as_bytes(), number)?;
        match self.tables.releases.get(&key) {
            Some(row) => Ok(Some(copy_parts(self.alloc, &row.parts)?)),
            None => Ok(None),
        }
    }

    fn acknowledged(&mut self, mote: &str) -> Result<u32, RowsFault>
        ensures row { IfOk result (λ n. Told (memory_view self.old) (λ t. n ≡ acknowledged t mote.now)) }
        ensures reads { Reads result (memory_view self.old) (memory_view self.new) }
        ensures plan { GoesByPlan result self.old self.new }
    {
        self.call()?;
        match self.tables.acks.get(mote.as_bytes()) {
            Some(row) => Ok(row.number),
            None => Ok(0),
        }
    }
}

impl Keeper for MemoryKeeper {
    ghost use Rattle.release_keeper.specs.Memory.{memory_view, GoesByPlan};

    fn apply(&mut self, change: &Change) -> Result<(), RowsFault>
        requires { IsSound change.now.effect }
        ensures made { Applies change.now result (memory_view self.old) (memory_view self.new) }
        ensures plan { GoesByPlan result self.old self.new }
    {
        self.call()?;
        self.tables.apply(self.alloc, change)?;
        Ok(())
    }
}
