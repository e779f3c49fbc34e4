//! Why a file cannot be used.

use binding_table::KeepFault;
use sqlite::{Error as DatabaseError, ErrorCode};
use std::alloc::AllocError;
use std::io;
use thiserror::Error;

/// Why a file cannot be used. Nothing of it is changed then.
#[derive(Clone, Copy, Debug, Error)]
pub enum StoreFault {
    /// It cannot be opened, read or made.
    #[error("{0}")]
    File(io::Error),
    #[error("it is no SQLite database")]
    NoDatabase,
    /// It is a database of another form.
    #[error("its version is {0}, and not 1")]
    Version(u32),
    #[error("another process has it open")]
    Busy,
    /// The database refuses.
    #[error("{0}")]
    Database(DatabaseError),
    /// A row is none that this form has.
    #[error("a row of it cannot be read")]
    Row,
    #[error("want of memory")]
    NoMemory,
}

impl From<AllocError> for StoreFault {
    fn from(_refused: AllocError) -> StoreFault {
        StoreFault::NoMemory
    }
}

impl From<io::Error> for StoreFault {
    fn from(error: io::Error) -> StoreFault {
        StoreFault::File(error)
    }
}

impl From<DatabaseError> for StoreFault {
    fn from(error: DatabaseError) -> StoreFault {
        match error {
            DatabaseError::SqliteFailure(ErrorCode::DatabaseBusy) => StoreFault::Busy,
            DatabaseError::SqliteFailure(ErrorCode::OutOfMemory) => StoreFault::NoMemory,
            error => StoreFault::Database(error),
        }
    }
}

/// The same, for whom it does not matter which part of the store it was.
pub(crate) fn keep_fault(fault: StoreFault) -> KeepFault {
    KeepFault(match fault {
        StoreFault::NoMemory => "want of memory",
        StoreFault::Row => "a row of it cannot be read",
        StoreFault::Database(DatabaseError::SqliteFailure(ErrorCode::DiskFull)) =>
            "the disk is full",
        StoreFault::Database(DatabaseError::SqliteFailure(ErrorCode::SystemIoFailure)) => {
            "the disk refuses"
        }
        StoreFault::Database(DatabaseError::SqliteFailure(ErrorCode::Closed)) => {
            "the disk refused before"
        }
        _ => "the database refuses",
    })
}
