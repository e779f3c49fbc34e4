//! What telephones and an operator are told of calls that ring, by the sockets of a whole proxy.
use crate::agents::{Agents, Asked};
use crate::holds::holds;
use crate::telling::{counts, has_line, tells, told};
use service_files::{DaemonFault, Options};
use service_threads::serve;
use std::alloc::Global;
use std::fs;
use std::fs::Files;
use std::net::Net;
use std::test::Fail;
use std::thread::join;
use std::time::{Clock, Instant};

/// Where the proxy listens.
const PROXY: u16 = 47_470;

/// The files of the proxy, in the folder in which the test runs.
const CONFIG: &str = "forkproxyd_test_told_config";

const CONTROL: &str = "forkproxyd_test_told_control";

const JOURNAL: &str = "forkproxyd_test_told_journal";

/// One user at two telephones, and another at one that rings for a second and one that is called then. All have one socket.
const CONFIGURATION: &[u8] =
    b"own 127.0.0.1 47470\ndomain example.com\nring 30\nlocation eve 1000 sip:eve@127.0.0.1:47472 1\nlocation eve 500 sip:evelyn@127.0.0.1:47472\nlocation bob 1000 sip:bob@127.0.0.1:47472\nlocation bob 1000 sip:robert@127.0.0.1:47472\n";

const OPTIONS: Options<'static> = Options {
    config: CONFIG,
    own: None,
    users: None,
    control: CONTROL,
    journal: Some(JOURNAL),
    store: None,
    most_calls: Some(8),
    most_bindings: 1_000,
    workers: 2,
    records: false,
    route: None,
    secret: None,
    own_port: true,
    most_per_source: None,
    unlimited: &[],
    metrics: None,
    connections: None,
};

/// The INVITEs of a call that both telephones let ring.
#[derive(Drop)]
struct Ringing {
    bob: Vec<u8>,
    robert: Vec<u8>,
}

/// The INVITEs of a call, once the caller has heard that both telephones ring.
fn rings(agents: &Agents, call: &str) -> Option<Ringing> {
    agents.asks("INVITE", call, "");
    let bob = agents.gets("INVITE sip:bob@", call)?;
    let robert = agents.gets("INVITE sip:robert@", call)?;
    for request in [bob.as_slice(), robert.as_slice()] {
        if !agents.answers(request, "SIP/2.0 180 Ringing\r\n")
            || !agents.hears("SIP/2.0 180", call)
        {
            return None;
        }
    }
    Some(Ringing { bob, robert })
}

/// Whether a telephone gets a CANCEL with this line, and answers it and its INVITE.
fn is_cancelled(agents: &Agents, front: &str, call: &str, invite: &[u8], line: &str) -> bool {
    match agents.gets(front, call) {
        Some(cancel) => {
            has_line(cancel.as_slice(), line)
                && agents.answers(cancel.as_slice(), "SIP/2.0 200 OK\r\n")
                && agents.answers(invite, "SIP/2.0 487 Request Terminated\r\n")
        }
        None => false,
    }
}

/// Whether this stands in what is told of a line at the control socket.
fn is_told<R: Net + Clock>(rt: &R, alloc: Global, line: &str, part: &str) -> bool {
    match told(rt, alloc, CONTROL, line) {
        Some(text) => has_line(text.as_slice(), part),
        None => false,
    }
}

const ELSEWHERE: &str = "\r\nReason: SIP;cause=200;text=\"Call completed elsewhere\"\r\n";

const GIVEN: &str = "\r\nReason: SIP;cause=487;text=\"x\"\r\n";

/// One telephone answers, the other one is told so; says what did not hold.
fn answered<R: Net + Clock>(rt: &R, alloc: Global, agents: &Agents) -> &'static str {
    let Some(ringing) = rings(agents, "one") else {
        return "two telephones ring";
    };
    if !is_told(
        rt,
        alloc,
        "calls",
        " 127.0.0.1:47471 INVITE bob proceeding proceeding\nno more\n",
    ) {
        return "an operator is told of the call that rings";
    }
    if !agents.answers(ringing.bob.as_slice(), "SIP/2.0 200 OK\r\n")
        || !agents.hears("SIP/2.0 200", "one")
    {
        return "a telephone answers";
    }
    let invite = ringing.robert.as_slice();
    if !is_cancelled(agents, "CANCEL sip:robert@", "one", invite, ELSEWHERE) {
        return "the other telephone is told that the call was completed elsewhere";
    }
    if !counts(rt, alloc, CONTROL, "forkproxy_calls_open 0\n") {
        return "the call is open no more";
    }
    if !is_told(rt, alloc, "call 0", "\ntarget 1 487 since ") {
        return "an operator is told where each branch stands";
    }
    if !tells(rt, alloc, CONTROL, "bindings", "no more\n")
        || !tells(rt, alloc, CONTROL, "forget bob", "unknown user bob\n")
        || !tells(rt, alloc, CONTROL, "refused", "no more\n")
    {
        return "nobody has registered, and nothing was refused";
    }
    "nothing"
}

/// The caller gives up and says why, both telephones are told that; says what did not hold.
fn given_up<R: Net + Clock>(rt: &R, alloc: Global, agents: &Agents) -> &'static str {
    let Some(ringing) = rings(agents, "two") else {
        return "two telephones ring again";
    };
    agents.sends_for_caller(Asked {
        method: "CANCEL",
        uri: "sip:bob@example.com",
        call: "two",
        tag: "",
        lines: "Reason: SIP;cause=487;text=\"x\"\r\n",
    });
    if !is_cancelled(
        agents,
        "CANCEL sip:bob@",
        "two",
        ringing.bob.as_slice(),
        GIVEN,
    ) || !is_cancelled(
        agents,
        "CANCEL sip:robert@",
        "two",
        ringing.robert.as_slice(),
        GIVEN,
    ) {
        return "both telephones are told what the caller said";
    }
    if !agents.hears("SIP/2.0 487", "two") {
        return "the caller gets its 487";
    }
    if !tells(rt, alloc, CONTROL, "calls", "no more\n")
        || !tells(rt, alloc, CONTROL, "call 7", "unknown call 7\n")
    {
        return "no call is open, and none has the number 7";
    }
    "nothing"
}

/// How many milliseconds eve's first telephone rings before it is cancelled, without a Reason; it answers that it stops.
fn rung_for<R: Clock>(rt: &R, agents: &Agents, call: &str) -> Option<u64> {
    agents.sends_for_caller(Asked {
        method: "INVITE",
        uri: "sip:eve@example.com",
        call,
        tag: "",
        lines: "",
    });
    let invite = agents.gets("INVITE sip:eve@", call)?;
    let began = Instant::now(rt).ok()?;
    if !agents.answers(invite.as_slice(), "SIP/2.0 180 Ringing\r\n") {
        return None;
    }
    let cancel = agents.gets("CANCEL sip:eve@", call)?;
    let passed = began.elapsed(rt).ok()?;
    if has_line(cancel.as_slice(), "\r\nReason:") {
        return None;
    }
    agents.answers(cancel.as_slice(), "SIP/2.0 200 OK\r\n");
    agents.answers(invite.as_slice(), "SIP/2.0 487 Request Terminated\r\n");
    Some(u64::try_from(passed.as_millis()).unwrap_or(u64::MAX))
}

/// A telephone rings for a second, and not much longer; then the next one is called, and answers; says what did not hold.
fn rings_a_second<R: Clock>(rt: &R, agents: &Agents) -> &'static str {
    match rung_for(rt, agents, "three") {
        Some(millis) if millis >= 900 && millis < 2_500 => {}
        _ => return "a telephone rings for as long as its line says",
    }
    match agents.gets("INVITE sip:evelyn@", "three") {
        Some(invite)
            if agents.answers(invite.as_slice(), "SIP/2.0 200 OK\r\n")
                && agents.hears("SIP/2.0 200", "three") => { "nothing" }
        _ => "the next telephone is called then, and answers",
    }
}

/// Plays all, and says what did not hold.
fn played<R: Net + Clock>(rt: &R, alloc: Global, agents: &Agents) -> &'static str {
    if !counts(rt, alloc, CONTROL, "forkproxy_calls 0\n") {
        return "the proxy answers at its control socket";
    }
    for missed in [
        answered(rt, alloc, agents),
        given_up(rt, alloc, agents),
        rings_a_second(rt, agents),
    ] {
        if missed != "nothing" {
            return missed;
        }
    }
    "nothing"
}

/// Plays all, and says what did not hold; then the proxy is told to end at once.
fn plays<R: Net + Clock>(rt: &R, alloc: Global) -> &'static str {
    let missed = match Agents::new(rt, alloc, PROXY) {
        Some(agents) => played(rt, alloc, &agents),
        None => "there are two agents",
    };
    let _ = told(rt, alloc, CONTROL, "stop 0");
    missed
}

/// What the journal says of the telephones.
const LINES: [&str; 3] = [
    " call-id one answered\ntarget 0 rang 180 at ",
    ", answered 200 at ",
    ", cancelled at ",
];

/// Whether the journal says what each telephone did.
fn has_journal<R: Files>(rt: &R, alloc: Global) -> bool {
    let Ok(text) = fs::read(&(rt, alloc), JOURNAL) else {
        return false;
    };
    for line in LINES {
        if !has_line(text.as_slice(), line) {
            return false;
        }
    }
    true
}

#[test]
fn telephones_and_an_operator_are_told_of_calls(rt: HostRuntime) -> Result<(), Fail> {
    let alloc = rt.alloc();
    let written = fs::write(&rt, CONFIG, CONFIGURATION).is_ok();
    holds(&rt, written, "the configuration is written");
    let (served, missed) = join(&rt, || serve(&rt, alloc, OPTIONS), || plays(&rt, alloc));
    let ended: Result<(), DaemonFault> = served;
    holds(&rt, missed == "nothing", missed);
    holds(&rt, ended.is_ok(), "the proxy ends in good order");
    holds(
        &rt,
        has_journal(&rt, alloc),
        "the journal says what each telephone did, and when",
    );
    for path in [CONFIG, JOURNAL] {
        let _ = fs::remove_file(&rt, path);
    }
    Ok(())
}
