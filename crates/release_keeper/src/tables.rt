//! The tables of a keeper in memory.
ghost use Rattle.std.specs.Prelude.{◌≡◌, ◌++◌, ◌∷◌, [], length, take, bytes_eq, OnOk, OnErr, IfOk};
ghost use Rattle.release_rows.specs.declared.change.Effect.TheVariants.{Version, Release, Ack};
ghost use Rattle.release_rows.specs.Tables.{empty_tables};
ghost use Rattle.release_rows.specs.Change.{IsSound, IsPackageOf, IsPartList, changed, with_effect, with_component};
ghost use Rattle.std.specs.List.{find};
ghost use Rattle.std.specs.Option.{option_map};
ghost use Rattle.release_keeper.specs.Tables.{memory_tables, HasBegun};

use crate::components::ComponentRows;
use crate::copies::{copy_bytes, copy_key, copy_parts, copy_symbol, copy_text};
use crate::names::NamedRows;
use crate::releases::ReleaseRows;
use crate::versions::VersionRows;
use component_package::{Bytes, NoMemory, Text};
use release_rows::{
    AckRow, Change, ComponentRow, Effect, KeyRow, NumberedParts, ReleaseRow, SymbolRow, SymbolRows,
    VersionRow,
};
use std::alloc::Global;

/// All rows of a keeper in memory.
#[derive(Drop)]
pub(crate) struct MemoryTables {
    pub(crate) symbols: NamedRows<SymbolRow>,
    pub(crate) components: ComponentRows,
    pub(crate) versions: VersionRows,
    pub(crate) releases: ReleaseRows,
    pub(crate) acks: NamedRows<AckRow>,
    pub(crate) keys: NamedRows<KeyRow>,
}

// Adds a copy of a symbol behind the others.
fn add_symbol(
    alloc: Global,
    rows: &mut NamedRows<SymbolRow>,
    symbol: &SymbolRow,
) -> Result<(), NoMemory>
    ensures ok { OnOk result (rows.new ≡ rows.old ++ symbol.now ∷ []) }
    ensures err { OnErr result (rows.new ≡ rows.old) }
{
    let row = copy_symbol(alloc, symbol)?;
    rows.push(alloc, row)?;
    Ok(())
}

// Adds copies of symbols behind the others.
fn add_symbols(
    alloc: Global,
    rows: &mut NamedRows<SymbolRow>,
    symbols: &[SymbolRow],
) -> Result<(), NoMemory>
    ensures ok { OnOk result (rows.new ≡ rows.old ++ symbols.now) }
    ensures err { OnErr result (take (length rows.old) rows.new ≡ rows.old) }
{
    for symbol in symbols {
        add_symbol(alloc, rows, symbol)?;
    }
    Ok(())
}

// Adds a component behind the others, unless its name has a number.
fn add_component(
    alloc: Global,
    rows: &mut ComponentRows,
    name: &Text,
    number: u16,
) -> Result<(), NoMemory>
    ensures ok { OnOk result (rows.new ≡ with_component rows.old
        (option_map (λ r. r.number) (find (λ r. bytes_eq name.now r.name) rows.old)) name.now number) }
    ensures err { OnErr result (rows.new ≡ rows.old) }
{
    if rows.named(name.as_str().as_bytes()).is_some() {
        return Ok(());
    }
    let component = ComponentRow {
        number,
        name: copy_text(alloc, name)?,
    };
    rows.push(alloc, component)?;
    Ok(())
}

impl MemoryTables {
    /// Tables without a row.
    pub(crate) fn new(alloc: Global) -> MemoryTables
        ensures { memory_tables result ≡ empty_tables }
    {
        MemoryTables {
            symbols: NamedRows::new(alloc),
            components: ComponentRows::new(alloc),
            versions: VersionRows::new(alloc),
            releases: ReleaseRows::new(alloc),
            acks: NamedRows::new(alloc),
            keys: NamedRows::new(alloc),
        }
    }

    /// Makes a change, whole or not at all.
    pub(crate) fn apply(&mut self, alloc: Global, change: &Change) -> Result<(), NoMemory>
        requires { IsSound change.now.effect }
        ensures ok { OnOk result (memory_tables self.new ≡ changed (memory_tables self.old) change.now) }
        ensures err { OnErr result (memory_tables self.new ≡ memory_tables self.old) }
    {
        let symbols = self.symbols.count();
        let components = self.components.count();
        let keys = self.keys.count();
        if self.begin(alloc, change).is_ok() {
            return Ok(());
        }
        self.symbols.truncate(symbols);
        self.components.truncate(components);
        self.keys.truncate(keys);
        Err(NoMemory)
    }

    // Makes a change; where memory is wanted, rows that were added stay behind the others.
    fn begin(&mut self, alloc: Global, change: &Change) -> Result<(), NoMemory>
        requires { IsSound change.now.effect }
        ensures ok { OnOk result (memory_tables self.new ≡ changed (memory_tables self.old) change.now) }
        ensures err { OnErr result (HasBegun (memory_tables self.old) (memory_tables self.new)) }
    {
        self.keys.push(alloc, copy_key(alloc, &change.key)?)?;
        match &change.effect {
            Effect::Version {
                name,
                component,
                version,
                symbols,
                package,
            } => {
                let row = VersionRow {
                    component: *component,
                    version: *version,
                    bytes: copy_bytes(alloc, package)?,
                };
                self.add_version(alloc, name, symbols, row)
            }
            Effect::Release {
                mote,
                number,
                parts,
            } => self.add_release(alloc, mote, *number, parts),
            Effect::Ack { mote, release } => self.acknowledge(alloc, mote, *release),
        }
    }

    // Adds a version's row, its symbols, and the component where its name is new.
    fn add_version(
        &mut self,
        alloc: Global,
        name: &Text,
        symbols: &SymbolRows,
        row: VersionRow,
    ) -> Result<(), NoMemory>
        requires { IsPackageOf row.component row.version row.bytes }
        ensures ok { OnOk result (memory_tables self.new
            ≡ with_effect (memory_tables self.old) (Version name.now row.component row.version symbols.now row.bytes)) }
        ensures err { OnErr result (HasBegun (memory_tables self.old) (memory_tables self.new)) }
    {
        add_symbols(alloc, &mut self.symbols, symbols.as_slice())?;
        add_component(alloc, &mut self.components, name, row.component)?;
        self.versions.push(row)?;
        Ok(())
    }

    // Adds a release's row.
    fn add_release(
        &mut self,
        alloc: Global,
        mote: &Text,
        number: u32,
        parts: &NumberedParts,
    ) -> Result<(), NoMemory>
        requires { IsPartList parts.now }
        ensures ok { OnOk result (memory_tables self.new
            ≡ with_effect (memory_tables self.old) (Release mote.now number parts.now)) }
        ensures err { OnErr result (HasBegun (memory_tables self.old) (memory_tables self.new)) }
    {
        let row = ReleaseRow {
            mote: copy_text(alloc, mote)?,
            number,
            parts: copy_parts(alloc, parts)?,
        };
        self.releases.push(alloc, row)
    }

    // Puts a mote's word in the place of its former one, or behind the others.
    fn acknowledge(&mut self, alloc: Global, mote: &Text, release: u32) -> Result<(), NoMemory>
        ensures ok { OnOk result (memory_tables self.new
            ≡ with_effect (memory_tables self.old) (Ack mote.now release)) }
        ensures err { OnErr result (HasBegun (memory_tables self.old) (memory_tables self.new)) }
    {
        let row = AckRow {
            mote: copy_text(alloc, mote)?,
            number: release,
        };
        match self.acks.place(mote.as_str().as_bytes()) {
            Some(place) => {
                self.acks.replace(place, row);
                Ok(())
            }
            None => {
                self.acks.push(alloc, row)?;
                Ok(())
            }
        }
    }
}
