//! What a telephone registers survives a proxy by its store, over sockets (RFC 3261 section 10.3).
use crate::asking::Agent;
use crate::holds::holds;
use crate::registered::{LIST, called, is_bound, lines_asked};
use crate::telling::{counts, told};
use service_files::{DaemonFault, Options};
use service_threads::serve;
use std::alloc::Global;
use std::fs;
use std::fs::Files;
use std::net::Net;
use std::test::Fail;
use std::thread::join;
use std::time::Clock;

/// Where the proxy listens, the caller at its address, and bob's telephone at another one.
const PROXY: u16 = 47_485;

const CALLER: u16 = 47_486;

const TELEPHONE: u16 = 47_487;

/// The files of the proxy, in the folder in which the test runs.
const CONFIG: &str = "forkproxyd_test_kept_config";

const USERS: &str = "forkproxyd_test_kept_users";

const CONTROL: &str = "forkproxyd_test_kept_control";

const STORE: &str = "forkproxyd_test_kept_store";

/// The own address is trusted, and no other one of this machine.
const CONFIGURATION: &[u8] =
    b"own 127.0.0.1 47485\ndomain example.com\nrealm example.com\ntrust 10.0.0.0/8\n";

const OPTIONS: Options<'static> = Options {
    config: CONFIG,
    own: None,
    users: Some(USERS),
    control: CONTROL,
    journal: None,
    store: Some(STORE),
    most_calls: Some(8),
    most_bindings: 1_000,
    workers: 2,
    records: false,
    route: None,
    secret: None,
    own_port: true,
    most_per_source: None,
    unlimited: &[],
    metrics: None,
    connections: None,
};

/// The lines with which the telephone registers, if it is bound by them.
fn registers(telephone: &Agent) -> Option<String> {
    let lines = lines_asked(telephone)?;
    if is_bound(telephone, 2, lines.as_str()) {
        Some(lines)
    } else {
        None
    }
}

/// Whether the telephone is called, and is bound by these lines once more: their nonce was given by the proxy before.
fn is_called(caller: &Agent, telephone: &Agent, lines: &str) -> bool {
    called(caller, telephone).is_some() && is_bound(telephone, 3, lines)
}

/// Whether a turn is played well: the telephone registers, where it has not yet; else it is called, and registers with these lines again. The
/// lines with which it registered.
fn played<R: Net>(rt: &R, alloc: Global, given: Option<String>) -> Option<String> {
    match (
        Agent::new(rt, alloc, 1, CALLER, PROXY),
        Agent::new(rt, alloc, 2, TELEPHONE, PROXY),
    ) {
        (Some(caller), Some(telephone)) => match given {
            None => registers(&telephone),
            Some(lines) => {
                if is_called(&caller, &telephone, lines.as_str()) {
                    Some(lines)
                } else {
                    None
                }
            }
        },
        _ => None,
    }
}

/// Plays a turn once the proxy serves, and tells it to end.
fn plays<R: Net + Clock>(rt: &R, alloc: Global, given: Option<String>) -> Option<String> {
    let lines = if counts(rt, alloc, CONTROL, "forkproxy_calls 0\n") {
        played(rt, alloc, given)
    } else {
        None
    };
    let _ = told(rt, alloc, CONTROL, "stop 0");
    lines
}

#[test]
fn a_telephone_is_called_by_the_proxy_behind(rt: HostRuntime) -> Result<(), Fail> {
    let alloc = rt.alloc();
    let written = fs::write(&rt, CONFIG, CONFIGURATION).is_ok()
        && fs::write(&rt, USERS, LIST).is_ok();
    holds(&rt, written, "the files are written");
    let (served, lines) = join(
        &rt,
        || serve(&rt, alloc, OPTIONS),
        || plays(&rt, alloc, None),
    );
    let ended: Result<(), DaemonFault> = served;
    holds(&rt, lines.is_some(), "a telephone registers");
    let (behind, called) = join(
        &rt,
        || serve(&rt, alloc, OPTIONS),
        || plays(&rt, alloc, lines),
    );
    let all_ended = ended.is_ok() && behind.is_ok();
    holds(&rt, called.is_some(), "it is called, and its nonce taken");
    holds(&rt, all_ended, "both proxies end in good order");
    for file in [CONFIG, USERS, STORE] {
        let _ = fs::remove_file(&rt, file);
    }
    Ok(())
}
