//! The file, opened at the first call, and the rows in it.

ghost use Rattle.std.specs.Prelude.{IfOk, IfSome};
ghost use Rattle.release_rows.specs.Change.{IsPackageOf, IsPartList};

use crate::database::{
    Database, close, end, ends_connection, fault_of, is_idle, make_tables, open, rows_of, run,
};
use crate::schema::{
    ACK, ADD_COMPONENT, ADD_KEY, ADD_PART, ADD_SYMBOL, ADD_VERSION, BEGIN, COMPONENT,
    COMPONENT_NAME, KEY, LAST_COMPONENT, LAST_RELEASE, LAST_SYMBOL, LAST_VERSION, PACKAGE, PARTS,
    SET_ACK, SYMBOL,
};
use crate::values::{key_row_in, package_in, parts_in, small_in, symbols_up_to, text_in, value_in};
use component_package::{Bytes, Text};
use release_rows::{Change, Effect, KeyRow, Numbered, NumberedParts, RowsFault, SymbolRow};
use sqlite::types::ValueRef;
use sqlite::{Error, Row, params};
use std::alloc::Global;

/// The file at a path, opened where a call needs it.
#[derive(Drop)]
pub(crate) struct Store<'a> {
    rt: &'a HostRuntime,
    alloc: Global,
    path: &'a str,
    database: Option<Database>,
}

fn add_key(database: &mut Database, row: &KeyRow) -> Result<(), Error> {
    run(
        database,
        ADD_KEY,
        params![row.key.as_str(), row.digest.as_slice(), row.body.as_str()],
    )
}

fn add_symbol(database: &mut Database, row: &SymbolRow) -> Result<(), Error> {
    run(
        database,
        ADD_SYMBOL,
        params![u32::from(row.number), row.name.as_slice()],
    )
}

fn add_component(database: &mut Database, number: u16, name: &Text) -> Result<(), Error> {
    run(
        database,
        ADD_COMPONENT,
        params![u32::from(number), name.as_str()],
    )
}

fn add_version(
    database: &mut Database,
    component: u16,
    version: u16,
    package: &Bytes,
) -> Result<(), Error> {
    run(
        database,
        ADD_VERSION,
        params![u32::from(component), u32::from(version), package.as_slice()],
    )
}

fn add_part(
    database: &mut Database,
    mote: &Text,
    number: u32,
    ordinal: u32,
    part: &Numbered,
) -> Result<(), Error> {
    run(
        database,
        ADD_PART,
        params![
            mote.as_str(),
            number,
            ordinal,
            u32::from(part.component),
            u32::from(part.version)
        ],
    )
}

fn add_symbols(database: &mut Database, symbols: &[SymbolRow]) -> Result<(), Error> {
    for symbol in symbols {
        add_symbol(database, symbol)?;
    }
    Ok(())
}

fn add_release(
    database: &mut Database,
    mote: &Text,
    number: u32,
    parts: &[Numbered],
) -> Result<(), Error> {
    let mut ordinal = 0u32;
    for part in parts {
        add_part(database, mote, number, ordinal, part)?;
        ordinal = ordinal.saturating_add(1);
    }
    Ok(())
}

fn set_ack(database: &mut Database, mote: &Text, release: u32) -> Result<(), Error> {
    run(database, SET_ACK, params![mote.as_str(), release])
}

fn add_effect(database: &mut Database, effect: &Effect) -> Result<(), Error> {
    match effect {
        Effect::Version {
            name,
            component,
            version,
            symbols,
            package,
        } => {
            add_symbols(database, symbols.as_slice())?;
            add_component(database, *component, name)?;
            add_version(database, *component, *version, package)
        }
        Effect::Release {
            mote,
            number,
            parts,
        } => add_release(database, mote, *number, parts.as_slice()),
        Effect::Ack { mote, release } => set_ack(database, mote, *release),
    }
}

fn add_change(database: &mut Database, change: &Change) -> Result<(), Error> {
    add_key(database, &change.key)?;
    add_effect(database, &change.effect)
}

// Makes a change in a transaction of its own.
fn commit_change(database: &mut Database, change: &Change) -> Result<(), Error> {
    run(database, BEGIN, &[])?;
    let made = add_change(database, change);
    end(database, made)
}

impl<'a> Store<'a> {
    /// The file at this path, which isn't opened yet.
    pub(crate) fn new(rt: &'a HostRuntime, alloc: Global, path: &'a str) -> Store<'a> {
        Store {
            rt,
            alloc,
            path,
            database: None,
        }
    }

    // The connection, opened where there is none.
    fn take(&mut self) -> Result<Database, Error> {
        if let Some(database) = self.database.take() {
            return Ok(database);
        }
        let mut database = open(self.rt, self.path)?;
        make_tables(&mut database)?;
        Ok(database)
    }

    // Keeps the connection for the next call, unless its disk failed or it is left in a transaction.
    fn keep<T: Drop>(
        &mut self,
        database: Database,
        outcome: Result<T, Error>,
    ) -> Result<T, RowsFault> {
        match outcome {
            Ok(value) => {
                self.database = Some(database);
                Ok(value)
            }
            Err(error) => {
                if is_idle(&database) && !ends_connection(error) {
                    self.database = Some(database);
                } else {
                    drop(database);
                }
                Err(fault_of(error))
            }
        }
    }

    fn rows(&mut self, text: &str, values: &[ValueRef<'_>]) -> Result<Vec<Row>, RowsFault> {
        match self.take() {
            Ok(mut database) => {
                let outcome = rows_of(&mut database, text, values);
                self.keep(database, outcome)
            }
            Err(error) => Err(fault_of(error)),
        }
    }

    // The row that answers a query with one row at most.
    fn row(&mut self, text: &str, values: &[ValueRef<'_>]) -> Result<Option<Row>, RowsFault> {
        let mut rows = self.rows(text, values)?;
        Ok(rows.pop())
    }

    fn small(&mut self, text: &str, values: &[ValueRef<'_>]) -> Result<Option<u16>, RowsFault> {
        match self.row(text, values)? {
            Some(row) => Ok(Some(small_in(&row, 0)?)),
            None => Ok(None),
        }
    }

    fn number_or_zero(&mut self, text: &str, values: &[ValueRef<'_>]) -> Result<u32, RowsFault> {
        match self.row(text, values)? {
            Some(row) => value_in(&row, 0),
            None => Ok(0),
        }
    }

    fn small_or_zero(&mut self, text: &str, values: &[ValueRef<'_>]) -> Result<u32, RowsFault> {
        match self.small(text, values)? {
            Some(number) => Ok(u32::from(number)),
            None => Ok(0),
        }
    }

    /// The row of a key.
    pub(crate) fn key_row(&mut self, key: &str) -> Result<Option<KeyRow>, RowsFault> {
        match self.row(KEY, params![key])? {
            Some(row) => Ok(Some(key_row_in(self.alloc, key, &row)?)),
            None => Ok(None),
        }
    }

    /// The number of a symbol's name.
    pub(crate) fn symbol_number(&mut self, name: &[u8]) -> Result<Option<u16>, RowsFault> {
        self.small(SYMBOL, params![name])
    }

    /// How many symbols there are, by the greatest number.
    pub(crate) fn symbol_count(&mut self) -> Result<u32, RowsFault> {
        match self.small(LAST_SYMBOL, &[])? {
            Some(number) => symbols_up_to(number),
            None => Ok(0),
        }
    }

    /// The number of a component's name.
    pub(crate) fn component_number(&mut self, name: &str) -> Result<Option<u16>, RowsFault> {
        self.small(COMPONENT, params![name])
    }

    /// The name of a component's number.
    pub(crate) fn component_name(&mut self, number: u16) -> Result<Option<Text>, RowsFault> {
        match self.row(COMPONENT_NAME, params![u32::from(number)])? {
            Some(row) => Ok(Some(text_in(&row, 0)?)),
            None => Ok(None),
        }
    }

    /// How many components there are, by the greatest number.
    pub(crate) fn component_count(&mut self) -> Result<u32, RowsFault> {
        self.small_or_zero(LAST_COMPONENT, &[])
    }

    /// How many versions a component has, by the greatest.
    pub(crate) fn version_count(&mut self, component: u16) -> Result<u32, RowsFault> {
        self.small_or_zero(LAST_VERSION, params![u32::from(component)])
    }

    /// The package of a version.
    pub(crate) fn package(
        &mut self,
        component: u16,
        version: u16,
    ) -> Result<Option<Bytes>, RowsFault>
        ensures { IfOk result (λ r. IfSome r (IsPackageOf component version)) }
    {
        match self.row(PACKAGE, params![u32::from(component), u32::from(version)])? {
            Some(row) => Ok(Some(package_in(&row, component, version)?)),
            None => Ok(None),
        }
    }

    /// How many releases a mote has, by the greatest number.
    pub(crate) fn release_count(&mut self, mote: &str) -> Result<u32, RowsFault> {
        self.number_or_zero(LAST_RELEASE, params![mote])
    }

    /// The components of a release.
    pub(crate) fn release(
        &mut self,
        mote: &str,
        number: u32,
    ) -> Result<Option<NumberedParts>, RowsFault>
        ensures { IfOk result (λ r. IfSome r IsPartList) }
    {
        let rows = self.rows(PARTS, params![mote, number])?;
        if rows.is_empty() {
            return Ok(None);
        }
        Ok(Some(parts_in(self.alloc, &rows)?))
    }

    /// The release that a mote said it runs, 0 where it said none.
    pub(crate) fn acknowledged(&mut self, mote: &str) -> Result<u32, RowsFault> {
        self.number_or_zero(ACK, params![mote])
    }

    /// Makes a change, whole or not at all.
    pub(crate) fn apply(&mut self, change: &Change) -> Result<(), RowsFault> {
        match self.take() {
            Ok(mut database) => {
                let outcome = commit_change(&mut database, change);
                self.keep(database, outcome)
            }
            Err(error) => Err(fault_of(error)),
        }
    }

    /// Brings the log back into the file and closes it, where it is open.
    pub(crate) fn close(&mut self) -> Result<(), RowsFault> {
        match self.database.take() {
            Some(database) => match close(database) {
                Ok(()) => Ok(()),
                Err(error) => Err(fault_of(error)),
            },
            None => Ok(()),
        }
    }
}
