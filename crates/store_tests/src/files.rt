//! Files of a test, and what a store in one has.
use binding_store::{BindingStore, StoreFault};
use binding_table::{Change, Keeper, Kept, KeptUser};
use bindings::{Binding, ContactParts, MadeBy, UserBindings};
use sip_uri::{Hop, Transport};
use std::alloc::{AllocError, Global};
use std::hash::{BuildHasher, RandomState};
use std::{env, fs};

/// A secret that the service drew.
pub const SECRET: [u8; 32] = [7; 32];

/// A path where no file is.
pub fn fresh_path(rt: &HostRuntime) -> Option<String> {
    let Ok(folder) = env::temp_dir(rt) else {
        return None;
    };
    let Ok(keys) = RandomState::new(rt) else {
        return None;
    };
    let number = keys.hash_one(&0u8);
    match format!(in rt.alloc(); "{}/forkproxy-store-{number}", folder.as_str()) {
        Ok(path) => Some(path),
        Err(_) => None,
    }
}

/// Takes a store's files away.
pub fn remove(rt: &HostRuntime, path: &str) {
    let _ = fs::remove_file(rt, path);
    if let Ok(log) = format!(in rt.alloc(); "{path}-wal") {
        let _ = fs::remove_file(rt, log.as_str());
    }
}

/// Opens the store at a path; the secret is kept where there is none yet.
pub fn opened(rt: &HostRuntime, path: &str) -> Result<BindingStore, StoreFault> {
    BindingStore::open(rt, rt.alloc(), path, SECRET)
}

/// A binding with this contact: requests go over TCP where the end is even, and else over the connection that it came by.
pub fn binding(alloc: Global, item: &[u8], ends: u64) -> Result<Binding, AllocError> {
    let transport = if ends % 2 == 0 {
        Transport::Tcp
    } else {
        Transport::Back(5070)
    };
    let contact = ContactParts {
        item,
        uri: b"sip:bob@192.0.2.7:5062",
        key: b"bob@192.0.2.7:5062",
        q: 500,
        instance: Some(b"\"<urn:uuid:1>\""),
        reg_id: None,
        hop: Hop {
            addr: [192, 0, 2, 255],
            port: 41_000,
            transport,
        },
    };
    let by = MadeBy {
        call_id: b"r1",
        cseq: 4_000_000_000,
        key: b"z9hG4bK\xff",
    };
    Binding::kept(alloc, &contact, ends, &by)
}

/// The bindings of a user with these ends.
pub fn bindings_of(alloc: Global, ends: &[u64]) -> Result<UserBindings, AllocError> {
    let mut bindings = UserBindings::new(alloc);
    for end in ends {
        bindings.push(binding(alloc, b"<sip:bob@192.0.2.7:5062>;x=\xfe", *end)?)?;
    }
    Ok(bindings)
}

/// Keeps these bindings of a user, and says whether it did.
fn stores<'x>(store: &mut BindingStore, user: &'x [u8], bindings: &'x UserBindings) -> bool {
    store.store(&[Change { user, bindings }]).is_ok()
}

/// Keeps of a user bindings with these ends, and says whether it did.
pub fn keeps(alloc: Global, store: &mut BindingStore, user: &[u8], ends: &[u64]) -> bool {
    match bindings_of(alloc, ends) {
        Ok(bindings) => stores(store, user, &bindings),
        Err(_) => false,
    }
}

/// Keeps the first of these bindings of a user and then the second, all at once, and says whether it did.
fn stores_later<'x>(
    store: &mut BindingStore,
    user: &'x [u8],
    first: &'x UserBindings,
    second: &'x UserBindings,
) -> bool {
    let changes = [
        Change {
            user,
            bindings: first,
        },
        Change {
            user,
            bindings: second,
        },
    ];
    store.store(&changes).is_ok()
}

/// Keeps of a user bindings with the first of these ends and then with the second, all at once, and says whether it did.
pub fn keeps_later(
    alloc: Global,
    store: &mut BindingStore,
    user: &[u8],
    first: &[u64],
    second: &[u64],
) -> bool {
    match (bindings_of(alloc, first), bindings_of(alloc, second)) {
        (Ok(first), Ok(second)) => stores_later(store, user, &first, &second),
        _ => false,
    }
}

/// Whether a binding that was kept ends then, and has all else as it was written.
fn is_whole(binding: &Binding, ends: u64) -> bool {
    let contact = binding.contact();
    let by = binding.made_by();
    let transport = if ends % 2 == 0 {
        Transport::Tcp
    } else {
        Transport::Back(5070)
    };
    binding.ends() == ends
        && contact.item == b"<sip:bob@192.0.2.7:5062>;x=\xfe".as_slice()
        && contact.uri == b"sip:bob@192.0.2.7:5062".as_slice()
        && contact.key == b"bob@192.0.2.7:5062".as_slice()
        && contact.q == 500
        && contact.instance.is_some()
        && contact.reg_id.is_none()
        && contact.hop.addr == [192, 0, 2, 255]
        && contact.hop.port == 41_000
        && contact.hop.transport == transport
        && by.call_id == b"r1".as_slice()
        && by.cseq == 4_000_000_000
        && by.key == b"z9hG4bK\xff".as_slice()
}

/// Whether a user has bindings with these ends.
fn has(kept: &KeptUser, user: &[u8], ends: &[u64]) -> bool {
    if kept.user.as_slice() != user || kept.bindings.len() != ends.len() {
        return false;
    }
    let mut there = kept.bindings.at(0);
    for end in ends {
        match there.next() {
            Some(binding) => {
                if !is_whole(binding, *end) {
                    return false;
                }
            }
            None => return false,
        }
    }
    true
}

/// Whether these are what was kept, in their order.
pub fn are_kept(kept: &Kept, wanted: &[(&[u8], &[u64])]) -> bool {
    if kept.secret != SECRET || kept.users.len() != wanted.len() {
        return false;
    }
    for (at, (user, ends)) in wanted.iter().enumerate() {
        match kept.users.get(at) {
            Some(kept) => {
                if !has(kept, *user, *ends) {
                    return false;
                }
            }
            None => return false,
        }
    }
    true
}

/// Whether a store loads these.
pub fn loads(alloc: Global, store: &mut BindingStore, wanted: &[(&[u8], &[u64])]) -> bool {
    match store.load(alloc) {
        Ok(kept) => are_kept(&kept, wanted),
        Err(_) => false,
    }
}
