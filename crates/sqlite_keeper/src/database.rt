//! All that is asked of the crate `sqlite`.

ghost use Rattle.std.specs.Prelude.{◌≡◌};
ghost use Rattle.sqlite_keeper.specs.Faults.{fault_of};

use crate::schema::{BEGIN, COMMIT, ROLLBACK, TABLE_TEXT, TABLES};
use release_rows::RowsFault;
use sqlite::types::ValueRef;
use sqlite::{Connection, Error, ErrorCode, FileFrom, FileStore, Row, Wary, params};

/// A connection to the file. It syncs each commit twice, and trusts no torn write.
pub(crate) type Database = Connection<FileStore<FileFrom<Wary>>>;

/// A file whose tables of these names are not these tables.
const OTHER_TABLES: Error = Error::SqliteFailure(ErrorCode::NotADatabase);

/// What a refused call means: want of memory where `sqlite` names it, else a fault.
pub(crate) fn fault_of(error: Error) -> RowsFault
    ensures { result ≡ fault_of error }
{
    match error {
        Error::SqliteFailure(ErrorCode::OutOfMemory) => RowsFault::Memory,
        _ => RowsFault::Failed,
    }
}

/// Whether a failure of the disk ended a connection, so that the file has to be opened again.
pub(crate) fn ends_connection(error: Error) -> bool {
    matches!(
        error,
        Error::SqliteFailure(ErrorCode::SystemIoFailure | ErrorCode::DiskFull | ErrorCode::Closed)
    )
}

/// Opens the file at a path, or makes it.
pub(crate) fn open(rt: &HostRuntime, path: &str) -> Result<Database, Error> {
    match Connection::open_from(rt, path, false, Wary) {
        Ok(database) => Ok(database),
        Err((error, _left)) => Err(error),
    }
}

/// All rows that answer a query.
pub(crate) fn rows_of(
    database: &mut Database,
    text: &str,
    values: &[ValueRef<'_>],
) -> Result<Vec<Row>, Error> {
    database.query_all(text, values)
}

/// Runs a statement that is no query.
pub(crate) fn run(
    database: &mut Database,
    text: &str,
    values: &[ValueRef<'_>],
) -> Result<(), Error> {
    database.execute(text, values)?;
    Ok(())
}

/// Whether no transaction is open.
pub(crate) fn is_idle(database: &Database) -> bool {
    database.is_autocommit()
}

/// Brings the log back into the file and closes it.
pub(crate) fn close(database: Database) -> Result<(), Error> {
    database.close()
}

// Whether the file has this table; another one of its name is refused.
fn has_table(database: &mut Database, name: &str, text: &str) -> Result<bool, Error> {
    let rows = rows_of(database, TABLE_TEXT, params![name])?;
    let Some(row) = rows.first() else {
        return Ok(false);
    };
    let kept: String = row.get(0)?;
    if kept.as_str() == text {
        Ok(true)
    } else {
        Err(OTHER_TABLES)
    }
}

// How many of the tables the file has.
fn count_tables(database: &mut Database) -> Result<usize, Error> {
    let mut count = 0usize;
    for table in &TABLES {
        if has_table(database, table.name, table.text)? {
            count = count.saturating_add(1);
        }
    }
    Ok(count)
}

fn add_tables(database: &mut Database) -> Result<(), Error> {
    for table in &TABLES {
        run(database, table.text, &[])?;
    }
    Ok(())
}

/// Ends a transaction: commits where all of it went well, else takes it back.
pub(crate) fn end(database: &mut Database, made: Result<(), Error>) -> Result<(), Error> {
    match made {
        Ok(()) => run(database, COMMIT, &[]),
        Err(error) => {
            // A failure may have taken it back already.
            let _ = run(database, ROLLBACK, &[]);
            Err(error)
        }
    }
}

/// Makes the tables in a file that has none of them. A file with some of them alone, or with others of their names, is refused.
pub(crate) fn make_tables(database: &mut Database) -> Result<(), Error> {
    let count = count_tables(database)?;
    if count == TABLES.len() {
        return Ok(());
    }
    if count != 0 {
        return Err(OTHER_TABLES);
    }
    run(database, BEGIN, &[])?;
    let made = add_tables(database);
    end(database, made)
}
