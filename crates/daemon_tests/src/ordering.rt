//! What comes of one call is handled in the order in which it came, though each of four workers receives: a CANCEL right behind its INVITE,
//! and a target that rings and accepts at once.
use crate::agents::Agents;
use crate::holds::holds;
use crate::telling::{counts, told};
use service_files::{DaemonFault, Options};
use service_threads::serve_text;
use std::alloc::Global;
use std::net::Net;
use std::test::Fail;
use std::thread::join;
use std::time::Clock;

/// Where the proxy listens.
const PROXY: u16 = 47_440;

/// Its control socket, in the folder in which the test runs.
const CONTROL: &str = "forkproxyd_test_ordering";

/// The configuration: one user at one telephone.
const CONFIGURATION: &[u8] =
    b"own 127.0.0.1 47440\ninstance 7\ndomain example.com\nlocation bob 1000 sip:bob@127.0.0.1:47442\n";

const OPTIONS: Options<'static> = Options {
    config: "forkproxyd_test_unused",
    own: None,
    users: None,
    control: CONTROL,
    journal: None,
    store: None,
    most_calls: Some(1_000),
    most_bindings: 1_000,
    workers: 4,
    records: false,
    route: None,
    secret: None,
    own_port: true,
    most_per_source: None,
    unlimited: &[],
    metrics: None,
    connections: None,
};

/// How many calls are cancelled, and how many are accepted.
const CALLS: u32 = 50;

/// Whether a CANCEL right behind its INVITE finds the call; else it is answered 481.
fn is_cancelled(agents: &Agents, call: &str) -> bool {
    agents.asks("INVITE", call, "");
    agents.asks("CANCEL", call, "");
    agents.hears("SIP/2.0 200", call)
}

/// Whether the caller hears that the target rings before it hears that it has accepted.
fn rings_first(agents: &Agents, call: &str) -> bool {
    agents.asks("INVITE", call, "");
    match agents.gets("INVITE", call) {
        Some(request) => {
            agents.answers(request.as_slice(), "SIP/2.0 180 Ringing\r\n")
                && agents.answers(request.as_slice(), "SIP/2.0 200 OK\r\n")
                && agents.hears("SIP/2.0 180", call)
                && agents.hears("SIP/2.0 200", call)
        }
        None => false,
    }
}

/// Plays the calls once the proxy serves, and says what did not hold. Those that are accepted come first: the target is sent the INVITEs of the
/// others again and again.
fn played<R: Net + Clock>(rt: &R, alloc: Global, agents: &Agents) -> &'static str {
    if !counts(rt, alloc, CONTROL, "forkproxy_calls 0\n") {
        return "the proxy serves";
    }
    for number in 0..CALLS {
        let Ok(call) = format!(in alloc; "accepted{number}") else {
            return "there is memory";
        };
        if !rings_first(agents, call.as_str()) {
            return "a 180 goes up before the 200 behind it";
        }
    }
    for number in 0..CALLS {
        let Ok(call) = format!(in alloc; "cancelled{number}") else {
            return "there is memory";
        };
        if !is_cancelled(agents, call.as_str()) {
            return "a CANCEL right behind its INVITE is answered 200";
        }
    }
    "nothing"
}

/// Plays all, and says what did not hold; then the proxy is told to end at once.
fn plays<R: Net + Clock>(rt: &R, alloc: Global) -> &'static str {
    let missed = match Agents::new(rt, alloc, PROXY) {
        Some(agents) => played(rt, alloc, &agents),
        None => "there are two agents",
    };
    let _ = told(rt, alloc, CONTROL, "stop 0");
    missed
}

#[test]
fn what_comes_of_one_call_is_handled_in_order(rt: HostRuntime) -> Result<(), Fail> {
    let alloc = rt.alloc();
    let (served, missed) = join(
        &rt,
        || serve_text(&rt, alloc, CONFIGURATION, None, 1, OPTIONS),
        || plays(&rt, alloc),
    );
    let ended: Result<(), DaemonFault> = served;
    holds(&rt, missed == "nothing", missed);
    holds(&rt, ended.is_ok(), "the proxy ends in good order");
    Ok(())
}
