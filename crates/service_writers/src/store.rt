//! The store of a proxy: the file in which its bindings are kept, so that they survive it.
ghost use Rattle.std.specs.Prelude.{IfErr};
ghost use Rattle.service_files.specs.Faults.{IsStoreFault};

use binding_store::{BindingStore, StoreFault};
use binding_table::{Keeper, KeptUser};
use service_files::DaemonFault;
use std::alloc::Global;
use std::io::Eprint;

/// The stores of proxies. All threads of a proxy may share this: it names no type of a database of its own, which one thread alone has.
pub trait ProxyStores {
    type Store: Keeper + Drop;

    /// Opens the store in a file, or makes it; `secret` is kept where the file has none yet.
    ///
    /// # Errors
    ///
    /// The file cannot be used, and why; nothing of it is changed then.
    fn open_store(
        &self,
        alloc: Global,
        path: &str,
        secret: [u8; 32],
    ) -> Result<Self::Store, StoreFault>;

    /// Closes a store: its file has all then.
    ///
    /// # Errors
    ///
    /// The disk refuses; what was kept stays kept, in the file and the log beside it.
    fn close_store(&self, store: Self::Store) -> Result<(), StoreFault>;
}

impl ProxyStores for HostRuntime {
    type Store = BindingStore;

    fn open_store(
        &self,
        alloc: Global,
        path: &str,
        secret: [u8; 32],
    ) -> Result<BindingStore, StoreFault> {
        BindingStore::open(self, alloc, path, secret)
    }

    fn close_store(&self, store: BindingStore) -> Result<(), StoreFault> {
        store.close()
    }
}

/// A store that was opened, if there is one, and what it had: the secret, where there is one, and what is bound to users.
#[derive(Drop)]
pub struct OpenedStore<K: Drop> {
    pub store: Option<K>,
    pub secret: Option<[u8; 32]>,
    pub users: Vec<KeptUser>,
}

/// Opens the store in a file, and tells on the standard error why it cannot be used.
fn open_at<R: ProxyStores + Eprint>(
    rt: &R,
    alloc: Global,
    path: &str,
    secret: [u8; 32],
) -> Result<R::Store, DaemonFault>
    ensures { IfErr result IsStoreFault }
{
    match rt.open_store(alloc, path, secret) {
        Ok(store) => Ok(store),
        Err(StoreFault::NoMemory) => Err(DaemonFault::NoMemory),
        Err(fault) => {
            let _ = rt.eprintln(format_args!("the store {path} cannot be used: {fault}"));
            Err(DaemonFault::Store)
        }
    }
}

/// A store with what it has.
fn loaded<R: Eprint, K: Keeper + Drop>(
    rt: &R,
    alloc: Global,
    path: &str,
    mut store: K,
) -> Result<OpenedStore<K>, DaemonFault>
    ensures { IfErr result IsStoreFault }
{
    match store.load(alloc) {
        Ok(kept) => Ok(OpenedStore {
            store: Some(store),
            secret: Some(kept.secret),
            users: kept.users,
        }),
        Err(fault) => {
            let why = fault.0;
            let _ = rt.eprintln(format_args!("the store {path} cannot be used: {why}"));
            Err(DaemonFault::Store)
        }
    }
}

/// Opens the store in the file of this name, if there is one, or makes it, and takes what it has; `secret` is kept where it has none yet.
///
/// # Errors
///
/// `Store` where the file cannot be used, which is told on the standard error with why; `NoMemory`. Then nothing of it is changed.
pub fn open_named<R: ProxyStores + Eprint>(
    rt: &R,
    alloc: Global,
    path: Option<&str>,
    secret: [u8; 32],
) -> Result<OpenedStore<R::Store>, DaemonFault>
    ensures { IfErr result IsStoreFault }
{
    let Some(path) = path else {
        return Ok(OpenedStore {
            store: None,
            secret: None,
            users: Vec::new(alloc),
        });
    };
    let store = open_at(rt, alloc, path, secret)?;
    loaded(rt, alloc, path, store)
}

/// Closes a store, if one was opened, and tells on the standard error why it cannot be closed.
pub fn close_opened<R: ProxyStores + Eprint>(rt: &R, store: Option<R::Store>) {
    let Some(store) = store else {
        return;
    };
    if let Err(fault) = rt.close_store(store) {
        let _ = rt.eprintln(format_args!("the store cannot be closed: {fault}"));
    }
}
