//! A proxy that serves as a service: two agents, a full proxy, a configuration that is read anew, a forgotten call whose request
//! comes again, a stop.
use crate::agents::Agents;
use crate::holds::holds;
use crate::telling::{counts, has_line, tells, told};
use service_files::{DaemonFault, Options};
use service_threads::serve;
use std::alloc::Global;
use std::fs::Files;
use std::io::{Read, Write};
use std::net::{Net, TcpStream};
use std::os::unix::net::UnixStream;
use std::test::Fail;
use std::thread::join;
use std::time::Clock;
use std::{fs, io};

/// Where the proxy listens.
const PROXY: u16 = 47_420;

/// The files of the proxy, in the folder in which the test runs.
const CONFIG: &str = "forkproxyd_test_config";

const CONTROL: &str = "forkproxyd_test_control";

const JOURNAL: &str = "forkproxyd_test_journal";

/// The configuration: one user at one telephone. Its instance is the time of the start.
const CONFIGURATION: &[u8] =
    b"own 127.0.0.1 47420\ndomain example.com\nlocation bob 1000 sip:bob@127.0.0.1:47422\n";

/// The same with a line that is malformed.
const MALFORMED: &[u8] = b"own 127.0.0.1 47420\ninstance seven\n";

/// The same of another instance.
const OTHER: &[u8] =
    b"own 127.0.0.1 47420\ninstance 8\ndomain example.com\nlocation bob 1000 sip:bob@127.0.0.1:47422\n";

/// It is full with two calls.
const OPTIONS: Options<'static> = Options {
    config: CONFIG,
    own: None,
    users: None,
    control: CONTROL,
    journal: Some(JOURNAL),
    store: None,
    most_calls: Some(2),
    most_bindings: 1_000,
    workers: 2,
    records: true,
    route: None,
    secret: None,
    own_port: true,
    most_per_source: Some(1_000),
    unlimited: &[],
    metrics: Some(METRICS),
    connections: None,
};

/// Where its counters are scraped.
const METRICS: &str = "127.0.0.1:47424";

/// How the line of the call that failed ends, and its listing begins.
const FAILED: &str =
    " call-id two failed 486 from sip:bob@127.0.0.1:47422, the only answer\ntarget 0 rang 180 at ";

/// What a scraper gets.
fn scraped<R: Net>(rt: &R, alloc: Global) -> io::Result<Vec<u8>> {
    let mut stream = TcpStream::connect(rt, METRICS)?;
    stream.write_all(b"GET /metrics HTTP/1.1\r\nHost: x\r\n\r\n")?;
    let mut answer = Vec::new(alloc);
    stream.read_to_end(&mut answer)?;
    Ok(answer)
}

/// Whether a scraper gets the counters, with a call that is open.
fn is_scraped<R: Net>(rt: &R, alloc: Global) -> bool {
    match scraped(rt, alloc) {
        Ok(answer) => {
            answer.starts_with(b"HTTP/1.1 200 OK\r\n")
                && has_line(answer.as_slice(), "\nforkproxy_calls 2\n")
                && has_line(answer.as_slice(), "\nforkproxy_calls_open 1\n")
        }
        Err(_) => false,
    }
}

/// Whether this is answered to a reload of this text.
fn reloads<R: Net + Files + Clock>(rt: &R, alloc: Global, text: &[u8], expected: &str) -> bool {
    fs::write(rt, CONFIG, text).is_ok() && tells(rt, alloc, CONTROL, "reload", expected)
}

/// Whether what is wanted of a configuration that is read anew comes about.
fn takes_configurations<R: Net + Files + Clock>(rt: &R, alloc: Global) -> bool {
    reloads(
        rt,
        alloc,
        MALFORMED,
        "refused: configuration, line 2: malformed\n",
    ) && reloads(
        rt,
        alloc,
        OTHER,
        "refused: address and instance may not change\n",
    ) && reloads(rt, alloc, CONFIGURATION, "taken\n")
}

/// Plays until the proxy is full, waits until it has forgotten a call, and says what did not hold.
fn filled<R: Net + Files + Clock>(rt: &R, alloc: Global, agents: &Agents) -> &'static str {
    agents.asks("INVITE", "three", "");
    if !agents.hears("SIP/2.0 503", "three") {
        return "a full proxy answers 503";
    }
    if !takes_configurations(rt, alloc) {
        return "a configuration is read anew";
    }
    if !counts(rt, alloc, CONTROL, "forkproxy_calls_forgotten_total 1\n") {
        return "a call that is over is forgotten";
    }
    if !agents.passes("OPTIONS", "one", "SIP/2.0 200 OK\r\n") {
        return "the request of a forgotten call opens another";
    }
    "nothing"
}

/// Asks for the end while a call rings, and says what did not hold.
fn stopped<R: Net>(rt: &R, agents: &Agents, ringing: &[u8]) -> io::Result<&'static str> {
    let mut stream = UnixStream::connect(rt, CONTROL)?;
    stream.write_all(b"stop 20\n")?;
    let mut answer = [0u8; 9];
    stream.read_exact(&mut answer)?;
    agents.asks("INVITE", "four", "");
    if !agents.hears("SIP/2.0 503", "four") {
        return Ok("a proxy that ends answers 503");
    }
    if !agents.answers(ringing, "SIP/2.0 486 Busy Here\r\n")
        || !agents.hears("SIP/2.0 486", "two")
    {
        return Ok("the call that rings gets its answer");
    }
    let mut more = [0u8; 1];
    match stream.read(&mut more)? {
        0 => Ok("nothing"),
        _ => Ok("the connection closes at the end"),
    }
}

/// Plays all, and says what did not hold.
fn played<R: Net + Files + Clock>(rt: &R, alloc: Global, agents: &Agents) -> &'static str {
    if !counts(rt, alloc, CONTROL, "forkproxy_calls 0\n") {
        return "the proxy answers at its control socket";
    }
    if !agents.passes("OPTIONS", "one", "SIP/2.0 200 OK\r\n") {
        return "an OPTIONS gets its 200";
    }
    let Some(ringing) = agents.rings("two") else {
        return "an INVITE rings";
    };
    if !is_scraped(rt, alloc) {
        return "a scraper gets the counters";
    }
    let missed = filled(rt, alloc, agents);
    if missed != "nothing" {
        return missed;
    }
    match stopped(rt, agents, ringing.as_slice()) {
        Ok(missed) => missed,
        Err(_) => "the control socket answers",
    }
}

/// Plays all, and says what did not hold; then the proxy is told to end at once, where it has not ended.
fn plays<R: Net + Files + Clock>(rt: &R, alloc: Global) -> &'static str {
    let missed = match Agents::new(rt, alloc, PROXY) {
        Some(agents) => played(rt, alloc, &agents),
        None => "there are two agents",
    };
    let _ = told(rt, alloc, CONTROL, "stop 0");
    missed
}

/// Whether the journal tells of the call that was answered, and of the one that failed.
fn has_journal<R: Files>(rt: &R, alloc: Global) -> bool {
    match fs::read(&(rt, alloc), JOURNAL) {
        Ok(text) => {
            has_line(text.as_slice(), " call-id one answered\n")
                && has_line(text.as_slice(), FAILED)
                && has_line(text.as_slice(), "\nfork 3 1\n")
        }
        Err(_) => false,
    }
}

#[test]
fn a_proxy_serves_until_it_is_stopped(rt: HostRuntime) -> Result<(), Fail> {
    let alloc = rt.alloc();
    let written = fs::write(&rt, CONFIG, CONFIGURATION).is_ok();
    holds(&rt, written, "the configuration is written");
    let (served, missed) = join(&rt, || serve(&rt, alloc, OPTIONS), || plays(&rt, alloc));
    let ended: Result<(), DaemonFault> = served;
    holds(&rt, missed == "nothing", missed);
    holds(&rt, ended.is_ok(), "the proxy ends in good order");
    holds(
        &rt,
        has_journal(&rt, alloc),
        "the calls are in the journal, with the listing of the one that failed",
    );
    for path in [CONFIG, JOURNAL] {
        let _ = fs::remove_file(&rt, path);
    }
    Ok(())
}
