//! Tests of what a store has at its next opening.
use crate::files::{fresh_path, keeps, keeps_later, loads, opened, remove};
use crate::holds::holds;
use binding_store::BindingStore;
use std::alloc::Global;
use std::fs;
use std::os::unix::fs::{MetadataExt, PermissionsExt};

/// Keeps bindings of three users, changes two of them, and says whether all was taken.
fn is_filled(alloc: Global, store: &mut BindingStore) -> bool {
    keeps(alloc, store, b"bob", &[1_001, 1_002, 1_003])
        && keeps(alloc, store, b"al\xffice", &[2_001])
        && keeps(alloc, store, b"carol", &[3_000])
        && keeps_later(alloc, store, b"bob", &[1_004], &[1_002, 1_005])
        && keeps(alloc, store, b"carol", &[])
}

const FILLED: &[(&[u8], &[u64])] = &[(b"al\xffice", &[2_001]), (b"bob", &[1_002, 1_005])];

/// Whether a file has what was kept when it is opened anew, however the store before was let go.
fn is_kept_at(rt: &HostRuntime, path: &str, is_closed: bool) -> bool {
    let alloc = rt.alloc();
    let Ok(mut store) = opened(rt, path) else {
        return false;
    };
    let is_new = loads(alloc, &mut store, &[]);
    let is_filled = is_filled(alloc, &mut store);
    let is_let_go = if is_closed {
        store.close().is_ok()
    } else {
        drop(store);
        true
    };
    let Ok(mut again) = BindingStore::open(rt, alloc, path, [9; 32]) else {
        return false;
    };
    is_new && is_filled && is_let_go && loads(alloc, &mut again, FILLED)
}

/// Whether a store has nothing whose file is not there any more, though its log is.
fn is_nothing_without_file(rt: &HostRuntime, path: &str) -> bool {
    let alloc = rt.alloc();
    let Ok(mut store) = opened(rt, path) else {
        return false;
    };
    let is_filled = is_filled(alloc, &mut store);
    drop(store);
    let is_gone = fs::remove_file(rt, path).is_ok();
    let Ok(mut again) = opened(rt, path) else {
        return false;
    };
    is_filled && is_gone && loads(alloc, &mut again, &[])
}

#[test]
fn a_log_without_its_file_counts_for_nothing(rt: HostRuntime) {
    let Some(path) = fresh_path(&rt) else {
        return;
    };
    let is_nothing = is_nothing_without_file(&rt, path.as_str());
    remove(&rt, path.as_str());
    holds(&rt, is_nothing, "a log alone");
}

#[test]
fn what_was_kept_is_loaded(rt: HostRuntime) {
    let Some(path) = fresh_path(&rt) else {
        return;
    };
    let is_kept = is_kept_at(&rt, path.as_str(), true);
    let mode = match fs::metadata(&rt, path.as_str()) {
        Ok(found) => found.mode() & 0o777,
        Err(_) => 0,
    };
    remove(&rt, path.as_str());
    holds(&rt, is_kept, "behind a close");
    holds(&rt, mode == 0o600, "its owner alone may read it");
}

#[test]
fn what_was_kept_is_loaded_from_the_log(rt: HostRuntime) {
    let Some(path) = fresh_path(&rt) else {
        return;
    };
    let is_kept = is_kept_at(&rt, path.as_str(), false);
    remove(&rt, path.as_str());
    holds(&rt, is_kept, "behind no close");
}
