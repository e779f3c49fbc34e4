//! What one source address may send.
use crate::agents::{Agents, Asked};
use crate::holds::holds;
use crate::telling::{counts, has_line, tells, told, value_in};
use metrics::{Counts, Gauges};
use service_admission::{SourceLimits, admits};
use service_files::{DaemonFault, Options};
use service_threads::serve;
use sip_uri::Transport;
use sip_via::Own;
use std::alloc::Global;
use std::fs;
use std::net::Net;
use std::test::Fail;
use std::thread::join;
use std::time::Clock;

// ---- by values

/// Datagrams that come: from where, at which moment in milliseconds, and whether they are let in where an address may send two at once.
const COMING: &[([u8; 4], u64, bool)] = &[
    ([192, 0, 2, 1], 0, true),
    ([192, 0, 2, 1], 10, true),
    ([192, 0, 2, 1], 20, false),
    ([192, 0, 2, 2], 30, true),
    ([192, 0, 2, 1], 600, true),
    ([192, 0, 2, 1], 610, false),
    ([192, 0, 2, 1], 3_000, true),
    ([192, 0, 2, 1], 3_000, true),
    ([192, 0, 2, 1], 3_000, false),
];

/// The counters as text.
fn text_of(alloc: Global, counts: &Counts) -> Option<Vec<u8>> {
    let gauges = Gauges {
        seconds: 0,
        held: 0,
        bindings: 0,
        resident: None,
    };
    counts.text(alloc, gauges).ok()
}

/// Whether these datagrams are let in as they are told where an address may send so many at once, and are counted so.
fn lets_in(alloc: Global, most: Option<u32>, limited: &str) -> bool {
    let counts = Counts::new();
    let mut limits = match most {
        Some(most) => Some(SourceLimits::new(alloc, most)),
        None => None,
    };
    for (source, now, is_admitted) in COMING {
        let came = admits(&counts.datagrams, &mut limits, *source, *now);
        if came != (*is_admitted || most.is_none()) {
            return false;
        }
    }
    match text_of(alloc, &counts) {
        Some(text) => {
            has_line(text.as_slice(), "\nforkproxy_received_total 9\n")
                && has_line(text.as_slice(), limited)
        }
        None => false,
    }
}

#[test]
fn a_source_may_send_so_many_datagrams_at_once(rt: HostRuntime) {
    let alloc = rt.alloc();
    holds(
        &rt,
        lets_in(alloc, Some(2), "\nforkproxy_limited_total 3\n"),
        "what is too much is counted as received, and as limited",
    );
    holds(
        &rt,
        lets_in(alloc, None, "\nforkproxy_limited_total 0\n"),
        "without a limit all are let in",
    );
}

// ---- over sockets

/// Where the proxy listens.
const PROXY: u16 = 47_460;

/// The files of the proxy, in the folder in which the test runs.
const CONFIG: &str = "forkproxyd_test_limited_config";

const CONTROL: &str = "forkproxyd_test_limited_control";

const CONFIGURATION: &[u8] = b"own 127.0.0.1 47460\ndomain example.com\n";

/// Each address may send five datagrams at once, and five more each second.
const OPTIONS: Options<'static> = Options {
    config: CONFIG,
    own: None,
    users: None,
    control: CONTROL,
    journal: None,
    store: None,
    most_calls: Some(100),
    most_bindings: 1_000,
    workers: 2,
    records: false,
    route: None,
    secret: None,
    own_port: false,
    most_per_source: Some(5),
    unlimited: &[],
    metrics: None,
    connections: None,
};

/// How many datagrams come at once from each of two ports.
const BURST: u64 = 50;

/// An OPTIONS request to the proxy itself.
const ASKED: Asked<'static> = Asked {
    method: "OPTIONS",
    uri: "sip:example.com",
    call: "asked",
    tag: "",
    lines: "",
};

/// Whether so many datagrams came, of which most were more than one address may send, whichever port they came from, and all others were
/// answered.
fn are_limited(text: &[u8], came: u64) -> bool {
    let received = value_in(text, "\nforkproxy_received_total ");
    let limited = value_in(text, "\nforkproxy_limited_total ");
    let answered = value_in(text, "\nforkproxy_answered_total{status=\"200\"} ");
    match (limited, answered) {
        (Some(limited), Some(answered)) => {
            received == Some(came)
                && limited.saturating_add(answered) == came
                && limited > came / 2
                && answered >= 5
        }
        _ => false,
    }
}

/// Whether so many datagrams come to be received, and most of them are limited.
fn comes_to_limit<R: Net + Clock>(rt: &R, alloc: Global, agents: &Agents, came: u64) -> bool {
    for _ in 0..BURST {
        agents.sends_for_caller(ASKED);
        agents.sends_for_target(ASKED);
    }
    let Ok(line) = format!(in alloc; "\nforkproxy_received_total {came}\n") else {
        return false;
    };
    if !counts(rt, alloc, CONTROL, line.as_str()) || !agents.hears("SIP/2.0 200", "asked") {
        return false;
    }
    match told(rt, alloc, CONTROL, "stats") {
        Some(text) => are_limited(text.as_slice(), came),
        None => false,
    }
}

/// Plays all, and says what did not hold.
fn played<R: Net + Clock>(rt: &R, alloc: Global, agents: &Agents) -> &'static str {
    if !counts(rt, alloc, CONTROL, "forkproxy_calls 0\n") {
        return "the proxy answers at its control socket";
    }
    if !comes_to_limit(rt, alloc, agents, 2 * BURST) {
        return "a source that sends too much is limited";
    }
    if !tells(rt, alloc, CONTROL, "reload", "taken\n") {
        return "the configuration is read anew";
    }
    if !comes_to_limit(rt, alloc, agents, 4 * BURST) {
        return "it is limited once the configuration was read anew";
    }
    "nothing"
}

/// Plays all, and says what did not hold; then the proxy is told to end at once.
fn plays<R: Net + Clock>(rt: &R, alloc: Global) -> &'static str {
    let missed = match Agents::new(rt, alloc, PROXY) {
        Some(agents) => played(rt, alloc, &agents),
        None => "there are two agents",
    };
    let _ = told(rt, alloc, CONTROL, "stop 0");
    missed
}

#[test]
fn a_proxy_limits_each_source(rt: HostRuntime) -> Result<(), Fail> {
    let alloc = rt.alloc();
    let written = fs::write(&rt, CONFIG, CONFIGURATION).is_ok();
    holds(&rt, written, "the configuration is written");
    let (served, missed) = join(&rt, || serve(&rt, alloc, OPTIONS), || plays(&rt, alloc));
    let ended: Result<(), DaemonFault> = served;
    holds(&rt, missed == "nothing", missed);
    holds(&rt, ended.is_ok(), "the proxy ends in good order");
    let _ = fs::remove_file(&rt, CONFIG);
    Ok(())
}

// ---- of whom one is excepted

/// Where that proxy listens.
const PROXY_EXCEPTING: u16 = 47_463;

const CONFIG_EXCEPTING: &str = "forkproxyd_test_excepting_config";

const CONTROL_EXCEPTING: &str = "forkproxyd_test_excepting_control";

/// A configuration without an address.
const WITHOUT_OWN: &[u8] = b"domain example.com\n";

/// This machine.
const HERE: &[service_config::Net] = &[service_config::Net {
    addr: [127, 0, 0, 0],
    bits: 8,
}];

/// The same limit, but not for this machine; the address that the proxy receives at is said here.
const EXCEPTING: Options<'static> = Options {
    config: CONFIG_EXCEPTING,
    own: Some(Own {
        addr: [127, 0, 0, 1],
        port: PROXY_EXCEPTING,
        transport: Transport::Udp,
    }),
    control: CONTROL_EXCEPTING,
    unlimited: HERE,
    ..OPTIONS
};

/// Whether as many datagrams come as are sent, and each is answered.
fn comes_unlimited<R: Net + Clock>(rt: &R, alloc: Global, agents: &Agents) -> bool {
    for _ in 0..BURST {
        agents.sends_for_caller(ASKED);
    }
    let answered = "\nforkproxy_answered_total{status=\"200\"} 50\n";
    counts(rt, alloc, CONTROL_EXCEPTING, answered)
        && counts(
            rt,
            alloc,
            CONTROL_EXCEPTING,
            "\nforkproxy_limited_total 0\n",
        )
}

/// Plays that, and says what did not hold; then the proxy is told to end at once.
fn plays_unlimited<R: Net + Clock>(rt: &R, alloc: Global) -> &'static str {
    let missed = match Agents::new(rt, alloc, PROXY_EXCEPTING) {
        Some(agents) => {
            if !counts(rt, alloc, CONTROL_EXCEPTING, "forkproxy_calls 0\n") {
                "the proxy answers at its control socket"
            } else if !comes_unlimited(rt, alloc, &agents) {
                "a source in a net that is excepted is not limited"
            } else {
                "nothing"
            }
        }
        None => "there are two agents",
    };
    let _ = told(rt, alloc, CONTROL_EXCEPTING, "stop 0");
    missed
}

#[test]
fn a_proxy_does_not_limit_whom_it_excepts(rt: HostRuntime) -> Result<(), Fail> {
    let alloc = rt.alloc();
    let written = fs::write(&rt, CONFIG_EXCEPTING, WITHOUT_OWN).is_ok();
    holds(&rt, written, "the configuration is written");
    let (served, missed) = join(
        &rt,
        || serve(&rt, alloc, EXCEPTING),
        || plays_unlimited(&rt, alloc),
    );
    let ended: Result<(), DaemonFault> = served;
    holds(&rt, missed == "nothing", missed);
    holds(&rt, ended.is_ok(), "the proxy ends in good order");
    let _ = fs::remove_file(&rt, CONFIG_EXCEPTING);
    Ok(())
}
