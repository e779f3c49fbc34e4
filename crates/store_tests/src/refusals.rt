//! Tests of files that cannot be used.
use crate::files::{fresh_path, opened, remove};
use crate::holds::holds;
use binding_store::{BindingStore, StoreFault};
use std::fs;

/// What is said of a file that has these bytes, where it is not used and is as it was then.
fn refusal_of(rt: &HostRuntime, path: &str, bytes: &[u8]) -> Option<String> {
    if fs::write(rt, path, bytes).is_err() {
        return None;
    }
    let said = match opened(rt, path) {
        Ok(_) => None,
        Err(fault) => Some(fault),
    };
    let Ok(after) = fs::read(rt, path) else {
        return None;
    };
    if after.as_slice() != bytes {
        return None;
    }
    match format!(in rt.alloc(); "{}", said?) {
        Ok(words) => Some(words),
        Err(_) => None,
    }
}

/// Whether this is said of a file that has these bytes.
fn says(rt: &HostRuntime, path: &str, bytes: &[u8], words: &str) -> bool {
    match refusal_of(rt, path, bytes) {
        Some(said) => said.as_str() == words,
        None => false,
    }
}

/// The header of a database of this version.
fn header(version: u8) -> [u8; 100] {
    let mut header = [0; 100];
    for (at, byte) in b"SQLite format 3\0".iter().enumerate() {
        header[at] = *byte;
    }
    header[63] = version;
    header
}

#[test]
fn what_cannot_be_used_is_refused(rt: HostRuntime) {
    let Some(path) = fresh_path(&rt) else {
        return;
    };
    let is_no_text = says(
        &rt,
        path.as_str(),
        b"bob 1000 sip:bob@192.0.2.4\n",
        "it is no SQLite database",
    );
    let is_no_file = says(&rt, path.as_str(), b"", "it is no SQLite database");
    let is_other = says(
        &rt,
        path.as_str(),
        &header(2),
        "its version is 2, and not 1",
    );
    remove(&rt, path.as_str());
    holds(&rt, is_no_text && is_no_file, "no database");
    holds(&rt, is_other, "another version");
}

/// Whether a second store in a file that one has open is refused.
fn is_refused_beside(rt: &HostRuntime, path: &str) -> bool {
    let Ok(first) = opened(rt, path) else {
        return false;
    };
    let is_busy = matches!(opened(rt, path), Err(StoreFault::Busy));
    let is_closed = BindingStore::close(first).is_ok();
    is_busy && is_closed && opened(rt, path).is_ok()
}

#[test]
fn a_second_one_is_refused(rt: HostRuntime) {
    let Some(path) = fresh_path(&rt) else {
        return;
    };
    let is_refused = is_refused_beside(&rt, path.as_str());
    remove(&rt, path.as_str());
    holds(&rt, is_refused, "one store has a file");
    let is_without_folder = matches!(opened(&rt, "/nowhere/at/all"), Err(StoreFault::File(_)));
    holds(&rt, is_without_folder, "no folder");
}
