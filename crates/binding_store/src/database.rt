//! Calls of the database, one a function.
use crate::fault::StoreFault;
use sqlite::types::ValueRef;
use sqlite::{Connection, File, FileStore, Row, Rows};

/// A database in a file.
pub(crate) type Database = Connection<FileStore<File>>;

/// Opens the database in a file.
pub(crate) fn open(rt: &HostRuntime, path: &str) -> Result<Database, StoreFault> {
    match Connection::open(rt, path) {
        Ok(database) => Ok(database),
        Err(error) => Err(StoreFault::from(error)),
    }
}

/// Runs a statement.
pub(crate) fn run(
    database: &mut Database,
    statement: &str,
    values: &[ValueRef<'_>],
) -> Result<(), StoreFault> {
    match database.execute(statement, values) {
        Ok(_) => Ok(()),
        Err(error) => Err(StoreFault::from(error)),
    }
}

/// Asks for rows.
pub(crate) fn ask<'a>(
    database: &'a mut Database,
    question: &str,
) -> Result<Rows<'a, FileStore<File>>, StoreFault> {
    match database.query(question, &[]) {
        Ok(rows) => Ok(rows),
        Err(error) => Err(StoreFault::from(error)),
    }
}

/// Asks for one row.
pub(crate) fn ask_one(database: &mut Database, question: &str) -> Result<Row, StoreFault> {
    match database.query_row(question, &[]) {
        Ok(row) => Ok(row),
        Err(error) => Err(StoreFault::from(error)),
    }
}

/// Whether no transaction is open.
pub(crate) fn is_outside(database: &Database) -> bool {
    database.is_autocommit()
}

/// Closes the database: the file has all then, and no log is beside it that has anything.
pub(crate) fn close(database: Database) -> Result<(), StoreFault> {
    match database.close() {
        Ok(()) => Ok(()),
        Err(error) => Err(StoreFault::from(error)),
    }
}
