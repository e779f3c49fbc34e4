//! The store of a service: bindings and a secret in a file.
use crate::database::{Database, ask, ask_one, close, is_outside, open, run};
use crate::fault::{StoreFault, keep_fault};
use crate::file::make_or_check;
use crate::rows::{ALL, bytes_at, insert, read_all, value_of};
use binding_table::{Change, KeepFault, Keeper, Kept, KeptUser};
use sqlite::types::ValueRef;
use std::alloc::Global;

/// One row for each binding: whose it is, the contact as it was received, its URI, the key of that, how gladly the user is reached there,
/// where a request to it is sent, the millisecond since 1970 at which it ends, and the request that made it; the instance of the telephone
/// and its `reg-id` where it has them. What is no text is kept as bytes.
const BINDINGS: &str = "CREATE TABLE IF NOT EXISTS bindings (
    id INTEGER PRIMARY KEY,
    user NOT NULL,
    contact NOT NULL,
    uri NOT NULL,
    key NOT NULL,
    q INTEGER NOT NULL,
    address TEXT NOT NULL,
    port INTEGER NOT NULL,
    transport TEXT NOT NULL,
    back_port INTEGER,
    ends INTEGER NOT NULL,
    call_id NOT NULL,
    cseq INTEGER NOT NULL,
    request_key NOT NULL,
    instance,
    reg_id)";

const BY_USER: &str = "CREATE INDEX IF NOT EXISTS bindings_by_user ON bindings (user)";

const SECRET: &str =
    "CREATE TABLE IF NOT EXISTS secret (id INTEGER PRIMARY KEY, bytes BLOB NOT NULL)";

const PUT_SECRET: &str = "INSERT OR IGNORE INTO secret (id, bytes) VALUES (1, ?1)";

const READ_SECRET: &str = "SELECT bytes FROM secret WHERE id = 1";

const REMOVE: &str = "DELETE FROM bindings WHERE user = ?1";

/// The bindings and the secret of a service in a file, which is this one's alone while it is open: `sqlite3` reads it once it is closed.
#[derive(Drop)]
pub struct BindingStore {
    database: Database,
}

/// Makes the tables that are not there yet, and keeps a secret where none is.
fn make_tables(database: &mut Database, secret: &[u8; 32]) -> Result<(), StoreFault> {
    run(database, BINDINGS, &[])?;
    run(database, BY_USER, &[])?;
    run(database, SECRET, &[])?;
    run(database, PUT_SECRET, &[ValueRef::Blob(secret)])
}

/// Ends a transaction: all that was done in it is kept, or nothing of it.
fn end(database: &mut Database, done: Result<(), StoreFault>) -> Result<(), StoreFault> {
    let ended = match done {
        Ok(()) => run(database, "COMMIT", &[]),
        Err(fault) => Err(fault),
    };
    if ended.is_err() && !is_outside(database) {
        let _ = run(database, "ROLLBACK", &[]);
    }
    ended
}

/// Writes what a user has from now on.
fn put_user(database: &mut Database, change: &Change<'_>) -> Result<(), StoreFault> {
    run(database, REMOVE, &[value_of(change.user)])?;
    for binding in change.bindings.at(0) {
        insert(database, change.user, binding)?;
    }
    Ok(())
}

/// Writes what each of these users has from now on.
fn put_users(database: &mut Database, changes: &[Change<'_>]) -> Result<(), StoreFault> {
    for change in changes {
        put_user(database, change)?;
    }
    Ok(())
}

/// The secret that is kept.
fn read_secret(database: &mut Database) -> Result<[u8; 32], StoreFault> {
    let row = ask_one(database, READ_SECRET)?;
    match <[u8; 32]>::try_from(bytes_at(&row, 0)?) {
        Ok(secret) => Ok(secret),
        Err(_) => Err(StoreFault::Row),
    }
}

/// What is kept of the users.
fn read_users(database: &mut Database, alloc: Global) -> Result<Vec<KeptUser>, StoreFault> {
    let mut rows = ask(database, ALL)?;
    read_all(alloc, &mut rows)
}

impl BindingStore {
    /// Opens the store in a file, or makes it, so that its owner alone may read and write it. `secret` is kept where the file has none yet.
    ///
    /// # Errors
    ///
    /// The file cannot be used, and why; nothing of it is changed then.
    pub fn open(
        rt: &HostRuntime,
        alloc: Global,
        path: &str,
        secret: [u8; 32],
    ) -> Result<BindingStore, StoreFault> {
        make_or_check(rt, alloc, path)?;
        let mut database = open(rt, path)?;
        run(&mut database, "BEGIN", &[])?;
        let made = make_tables(&mut database, &secret);
        end(&mut database, made)?;
        Ok(BindingStore { database })
    }

    /// Closes the store: the file has all then.
    ///
    /// # Errors
    ///
    /// The disk refuses; what was kept stays kept, in the file and the log beside it.
    pub fn close(self) -> Result<(), StoreFault> {
        let BindingStore { database } = self;
        close(database)
    }

    fn loaded(&mut self, alloc: Global) -> Result<Kept, StoreFault> {
        Ok(Kept {
            secret: read_secret(&mut self.database)?,
            users: read_users(&mut self.database, alloc)?,
        })
    }

    fn stored(&mut self, changes: &[Change<'_>]) -> Result<(), StoreFault> {
        run(&mut self.database, "BEGIN", &[])?;
        let done = put_users(&mut self.database, changes);
        end(&mut self.database, done)
    }
}

impl Keeper for BindingStore {
    fn load(&mut self, alloc: Global) -> Result<Kept, KeepFault> {
        match self.loaded(alloc) {
            Ok(kept) => Ok(kept),
            Err(fault) => Err(keep_fault(fault)),
        }
    }

    fn store(&mut self, changes: &[Change<'_>]) -> Result<(), KeepFault> {
        match self.stored(changes) {
            Ok(()) => Ok(()),
            Err(fault) => Err(keep_fault(fault)),
        }
    }
}
