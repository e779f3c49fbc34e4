//! What each option and each line at the control socket of a proxy comes to, over its sockets; before and behind a reload.
use crate::agents::{Agents, Asked};
use crate::holds::holds;
use crate::telling::{counts, has_line, tells, told, value_in};
use service_files::{DaemonFault, Options};
use service_threads::serve;
use std::alloc::Global;
use std::fs::Files;
use std::io::{Read, Write};
use std::net::Net;
use std::os::unix::net::UnixStream;
use std::test::Fail;
use std::thread::join;
use std::time::{Clock, Duration, Instant};
use std::{fs, io, thread};

/// Where the proxy listens.
const PROXY: u16 = 47_450;

/// The files of the proxy, in the folder in which the test runs.
const CONFIG: &str = "forkproxyd_test_wired_config";

const CONTROL: &str = "forkproxyd_test_wired_control";

const JOURNAL: &str = "forkproxyd_test_wired_journal";

/// One user at one telephone.
const CONFIGURATION: &[u8] =
    b"own 127.0.0.1 47450\ndomain example.com\nlocation bob 1000 sip:bob@127.0.0.1:47452\n";

/// It is full with the calls that the test opens.
const OPTIONS: Options<'static> = Options {
    config: CONFIG,
    own: None,
    users: None,
    control: CONTROL,
    journal: Some(JOURNAL),
    store: None,
    most_calls: Some(8),
    most_bindings: 1_000,
    workers: 2,
    records: true,
    route: None,
    secret: None,
    own_port: true,
    most_per_source: None,
    unlimited: &[],
    metrics: None,
    connections: None,
};

/// A request of the caller.
fn asked<'a>(method: &'a str, uri: &'a str, call: &'a str) -> Asked<'a> {
    Asked {
        method,
        uri,
        call,
        tag: "",
        lines: "",
    }
}

/// Whether an INVITE comes to the target with the proxy's Record-Route line, and its 100 to the caller with its Timestamp.
fn is_recorded(agents: &Agents, call: &str) -> bool {
    agents.sends_for_caller(Asked {
        lines: "Timestamp: 54\r\n",
        ..asked("INVITE", "sip:bob@example.com", call)
    });
    let (Some(trying), Some(request)) = (
        agents.answer("SIP/2.0 100 ", call),
        agents.gets("INVITE", call),
    ) else {
        return false;
    };
    has_line(trying.as_slice(), "\r\nTimestamp: 54\r\n")
        && has_line(
            request.as_slice(),
            "\r\nRecord-Route: <sip:127.0.0.1:47450;lr>\r\n",
        )
        && agents.answers(request.as_slice(), "SIP/2.0 486 Busy Here\r\n")
        && agents.hears("SIP/2.0 486", call)
}

/// Whether a telephone at the own address is reached by its port.
fn is_reached(agents: &Agents, call: &str) -> bool {
    agents.sends_for_caller(asked("MESSAGE", "sip:eve@127.0.0.1:47452", call));
    match agents.gets("MESSAGE", call) {
        Some(request) => {
            agents.answers(request.as_slice(), "SIP/2.0 200 OK\r\n")
                && agents.hears("SIP/2.0 200", call)
        }
        None => false,
    }
}

/// Whether the proxy says what it takes.
fn is_capable(agents: &Agents, call: &str) -> bool {
    agents.sends_for_caller(asked("OPTIONS", "sip:example.com", call));
    match agents.answer("SIP/2.0 200", call) {
        Some(answer) => has_line(answer.as_slice(), "\r\nAllow: INVITE, ACK, "),
        None => false,
    }
}

/// Does what the options say, with two calls, and says what did not hold.
fn obeys(agents: &Agents, calls: [&str; 3]) -> &'static str {
    let [first, second, third] = calls;
    if !is_recorded(agents, first) {
        return "an INVITE has its Record-Route line and its 100 the Timestamp";
    }
    if !is_reached(agents, second) {
        return "a telephone at the own address is reached by its port";
    }
    if !is_capable(agents, third) {
        return "an OPTIONS to the proxy is answered 200";
    }
    "nothing"
}

/// A time in milliseconds, without what is left of the last one.
fn millis_of(passed: Duration) -> u64 {
    passed
        .as_secs()
        .saturating_mul(1_000)
        .saturating_add(u64::from(passed.subsec_millis()))
}

/// How many milliseconds pass until the target gets the INVITE of a call again.
fn pause_of<R: Clock>(rt: &R, agents: &Agents, call: &str) -> Option<u64> {
    agents.asks("INVITE", call, "");
    agents.gets("INVITE", call)?;
    let began = Instant::now(rt).ok()?;
    agents.gets("INVITE", call)?;
    Some(millis_of(began.elapsed(rt).ok()?))
}

/// INVITEs that are not answered, and how many milliseconds pass behind each. Where the first comes within a second of the proxy is not
/// known; a proxy that looked at each whole second alone would send each of the others again after 0.9 seconds and more.
const SILENT: [(&str, u64); 3] = [("silent", 20), ("mute", 650), ("quiet", 0)];

/// Whether an INVITE is sent again half a second behind the first, whichever part of a second has passed then: never before, and of those
/// that come later not each time much later.
fn keeps_milliseconds<R: Clock>(rt: &R, agents: &Agents) -> bool {
    let mut is_prompt = false;
    for (call, rest) in SILENT {
        match pause_of(rt, agents, call) {
            Some(pause) if pause >= 400 => {
                is_prompt = is_prompt || (pause < 800 && call != "silent");
            }
            _ => return false,
        }
        thread::sleep(rt, Duration::from_millis(rest));
    }
    is_prompt
}

/// Whether what was sent is counted: an ACK for each of two failures; no CANCEL; what is sent again apart from all else.
fn counts_what_is_sent<R: Net + Clock>(rt: &R, alloc: Global) -> bool {
    let Some(text) = told(rt, alloc, CONTROL, "stats") else {
        return false;
    };
    let text = text.as_slice();
    let again = value_in(text, "\nforkproxy_timer_sent_total{message=\"request\"} ");
    let handled = value_in(text, "\nforkproxy_handling_seconds_count ");
    has_line(text, "\nforkproxy_sent_total{message=\"ack\"} 2\n")
        && has_line(text, "\nforkproxy_sent_total{message=\"cancel\"} 0\n")
        && has_line(text, "\nforkproxy_timer_sent_total{message=\"ack\"} 0\n")
        && again >= Some(3)
        && handled >= Some(11)
        && value_in(text, "\nprocess_resident_memory_bytes ") > Some(0)
        && value_in(text, "\nforkproxy_received_total ") >= handled
}

/// A connection to the control socket, once this line of it was obeyed.
fn connected<R: Net>(rt: &R, line: &str) -> io::Result<UnixStream> {
    let mut stream = UnixStream::connect(rt, CONTROL)?;
    stream.write_all(line.as_bytes())?;
    let mut answer = [0u8; 9];
    stream.read_exact(&mut answer)?;
    Ok(stream)
}

/// Whether the other end closes a connection.
fn closes(stream: &mut UnixStream) -> bool {
    let mut rest = [0u8; 1];
    matches!(stream.read(&mut rest), Ok(0))
}

/// Asks for the end in a minute, and then in a second, while a call rings; says what did not hold.
fn stopped<R: Net + Clock>(rt: &R, agents: &Agents) -> io::Result<&'static str> {
    let began = Instant::now(rt)?;
    let mut first = connected(rt, "stop 60\n")?;
    agents.sends_for_caller(asked("OPTIONS", "sip:example.com", "ending"));
    match agents.answer("SIP/2.0 503", "ending") {
        Some(answer) if has_line(answer.as_slice(), "\r\nRetry-After: 10\r\n") => {}
        _ => return Ok("a proxy that ends answers 503 with Retry-After"),
    }
    let mut second = connected(rt, "stop 1\n")?;
    if !closes(&mut second) || !closes(&mut first) {
        return Ok("the connections close at the end");
    }
    // (the proxy counts in whole milliseconds, so its second may be one short)
    let passed = millis_of(began.elapsed(rt)?);
    if passed < 990 || passed > 20_000 {
        return Ok("a second stop ends a proxy in a second while a call rings");
    }
    Ok("nothing")
}

/// Plays all but the end, and says what did not hold.
fn served<R: Net + Files + Clock>(rt: &R, alloc: Global, agents: &Agents) -> &'static str {
    if !counts(rt, alloc, CONTROL, "forkproxy_calls 0\n") {
        return "the proxy answers at its control socket";
    }
    let missed = obeys(agents, ["one", "two", "three"]);
    if missed != "nothing" {
        return missed;
    }
    if !tells(rt, alloc, CONTROL, "reload", "taken\n") {
        return "the configuration is read anew";
    }
    let missed = obeys(agents, ["four", "five", "six"]);
    if missed != "nothing" {
        return missed;
    }
    if !keeps_milliseconds(rt, agents) {
        return "an INVITE is sent again half a second behind the first";
    }
    if !counts_what_is_sent(rt, alloc) {
        return "what is sent is counted by what it is, and by why it is sent";
    }
    "nothing"
}

/// Plays all, and says what did not hold.
fn played<R: Net + Files + Clock>(rt: &R, alloc: Global, agents: &Agents) -> &'static str {
    let missed = served(rt, alloc, agents);
    if missed != "nothing" {
        return missed;
    }
    if agents.rings("ringing").is_none() {
        return "an INVITE rings";
    }
    agents.asks("INVITE", "full", "");
    if !agents.hears("SIP/2.0 503", "full") {
        return "a proxy that was read anew is full with as many calls";
    }
    match stopped(rt, agents) {
        Ok(missed) => missed,
        Err(_) => "the control socket answers",
    }
}

/// Plays all, and says what did not hold; then the proxy is told to end at once, where it has not ended.
fn plays<R: Net + Files + Clock>(rt: &R, alloc: Global) -> &'static str {
    let missed = match Agents::new(rt, alloc, PROXY) {
        Some(agents) => played(rt, alloc, &agents),
        None => "there are two agents",
    };
    let _ = told(rt, alloc, CONTROL, "stop 0");
    missed
}

/// What the journal tells of each call.
const BLOCKS: [&str; 4] = [
    " call-id one failed 486 from sip:bob@127.0.0.1:47452, the only answer\ntarget 0 486 at ",
    " call-id two answered\n",
    " call-id silent open\n",
    " call-id ringing open\n",
];

/// Whether a text tells so of each.
fn has_lines(text: &[u8]) -> bool {
    for line in BLOCKS {
        if !has_line(text, line) {
            return false;
        }
    }
    true
}

/// Whether the journal tells of each call what became of it.
fn has_journal<R: Files>(rt: &R, alloc: Global) -> bool {
    match fs::read(&(rt, alloc), JOURNAL) {
        Ok(text) => has_lines(text.as_slice()),
        Err(_) => false,
    }
}

#[test]
fn a_proxy_does_what_its_options_say(rt: HostRuntime) -> Result<(), Fail> {
    let alloc = rt.alloc();
    let written = fs::write(&rt, CONFIG, CONFIGURATION).is_ok();
    holds(&rt, written, "the configuration is written");
    let (served, missed) = join(&rt, || serve(&rt, alloc, OPTIONS), || plays(&rt, alloc));
    let ended: Result<(), DaemonFault> = served;
    holds(&rt, missed == "nothing", missed);
    holds(&rt, ended.is_ok(), "the proxy ends in good order");
    holds(
        &rt,
        has_journal(&rt, alloc),
        "each call is in the journal with what became of it",
    );
    for path in [CONFIG, JOURNAL] {
        let _ = fs::remove_file(&rt, path);
    }
    Ok(())
}
