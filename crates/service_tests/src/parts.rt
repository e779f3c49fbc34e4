//! What a service is made of below its threads.
use crate::holds::holds;
use metrics::{Counts, Gauges};
use service_admission::{CallQuota, is_keep_alive};
use service_config::UsersFault;
use service_files::{
    DaemonFault, Identity, ProxyFiles, calls_within, check_files, configuration_fault,
    control_fault, group_limit, journal_fault, memory_total, metrics_fault, most_calls_here,
    read_config, read_text, read_users, resident_bytes, resident_pages, socket_fault, users_fault,
};
use sip_uri::Transport;
use sip_via::Own;
use std::alloc::{AllocError, Global};
use std::io::ErrorKind;
use std::test::Fail;
use std::{fs, io};

const CONFIGURATION: &[u8] = b"own 127.0.0.1 47430\ninstance 7\ndomain example.com\n";

/// The same without the line of its instance.
const WITHOUT_INSTANCE: &[u8] = b"own 127.0.0.1 47430\ndomain example.com\n";

/// The number of the run.
const RUN: u32 = 1_700_000_000;

/// Where a proxy of these configurations receives.
const OWN: Own = Own {
    addr: [127, 0, 0, 1],
    port: 47_430,
    transport: Transport::Udp,
};

/// The identity of a proxy that this text sets up, or why it sets up none.
fn identity_of(alloc: Global, text: &[u8]) -> Result<Identity, DaemonFault> {
    let configuration = read_text(alloc, text, None, RUN, false)?;
    Ok(Identity::of(configuration.settings.setup()))
}

/// So many bytes that are no configuration.
fn filled(alloc: Global, count: usize) -> Result<Vec<u8>, AllocError> {
    vec![in alloc; b'x'; count]
}

#[test]
fn a_text_sets_a_proxy_up(rt: HostRuntime) -> Result<(), Fail> {
    let alloc = rt.alloc();
    let identity = Identity {
        own: OWN,
        instance: 7,
    };
    let read = identity_of(alloc, CONFIGURATION);
    holds(&rt, read == Ok(identity), "its address and its instance");
    let read = identity_of(alloc, b"own 127.0.0.1 47430\ninstance seven\n");
    holds(
        &rt,
        read == Err(DaemonFault::Line(2)),
        "line 2 is malformed",
    );
    let text = filled(alloc, 1_048_577)?;
    let read = identity_of(alloc, &text);
    holds(&rt, read == Err(DaemonFault::TooLong), "it is too long");
    Ok(())
}

#[test]
fn a_run_is_the_instance_that_a_text_leaves_out(rt: HostRuntime) {
    let alloc = rt.alloc();
    let identity = Identity {
        own: OWN,
        instance: RUN,
    };
    let read = identity_of(alloc, WITHOUT_INSTANCE);
    holds(&rt, read == Ok(identity), "the number of the run");
    for (text, line) in [
        ("own nowhere\ndomain example.com\n", 1),
        ("own 127.0.0.1 47430\n", 2),
        ("own 127.0.0.1 47430\ninstances 7\ndomain example.com\n", 2),
        ("own 127.0.0.1 47430\ndomain example.com\nprefer it\n", 3),
        (
            "own 127.0.0.1 47430\ninstance 7\ndomain example.com\nprefer it\n",
            4,
        ),
    ] {
        let read = identity_of(alloc, text.as_bytes());
        holds(&rt, read == Err(DaemonFault::Line(line)), text);
    }
}

/// A configuration with a realm, and a list of its users.
const OF_REALM: &[u8] = b"own 127.0.0.1 47430\ninstance 7\ndomain example.com\nrealm example.com\n";

const USERS: &[u8] = b"# the office\nbob 2664cba6663a734ef3a6fefc0c0d0821 -\n";

/// A list whose second line is malformed.
const MALFORMED: &[u8] = b"\nbob -\n";

/// A configuration, the list of its users, and why they are refused.
type UsersRow = (&'static [u8], Option<&'static [u8]>, Option<DaemonFault>);

const USERS_ROWS: &[UsersRow] = &[
    (OF_REALM, Some(USERS), None),
    (
        OF_REALM,
        None,
        Some(DaemonFault::Users(UsersFault::NoUsers)),
    ),
    (
        OF_REALM,
        Some(MALFORMED),
        Some(DaemonFault::Users(UsersFault::Line(2))),
    ),
    (
        CONFIGURATION,
        Some(USERS),
        Some(DaemonFault::Users(UsersFault::NoRealm)),
    ),
    (CONFIGURATION, None, None),
];

/// They stand in a function of their own: a proof reads a constant wherever it is named, once for each call beside it.
fn users_rows() -> &'static [UsersRow] {
    USERS_ROWS
}

/// Why a configuration with these users is refused, if it is.
fn refused_for(alloc: Global, text: &[u8], users: Option<&[u8]>) -> Option<DaemonFault> {
    match read_text(alloc, text, users, RUN, false) {
        Ok(_configuration) => None,
        Err(fault) => Some(fault),
    }
}

#[test]
fn a_realm_has_a_list_of_users(rt: HostRuntime) {
    for &(text, users, fault) in users_rows() {
        let refused = refused_for(rt.alloc(), text, users);
        holds(&rt, refused == fault, "the users of a realm");
    }
}

#[test]
fn a_fault_has_a_status(rt: HostRuntime) {
    for (fault, status) in [
        (DaemonFault::Unreadable, 1),
        (DaemonFault::Identity, 1),
        (DaemonFault::Users(UsersFault::NoUsers), 1),
        (DaemonFault::NoMemory, 3),
        (DaemonFault::Socket, 5),
        (DaemonFault::Metrics, 5),
        (DaemonFault::Journal, 5),
    ] {
        holds(&rt, fault.status() == status, "the status of a fault");
    }
}

#[test]
fn a_fault_of_the_system_is_told(rt: HostRuntime) {
    let refused = configuration_fault(io::Error::from(ErrorKind::NotFound));
    holds(&rt, refused == DaemonFault::Unreadable, "no file");
    let refused = users_fault(io::Error::from(ErrorKind::NotFound));
    holds(
        &rt,
        refused == DaemonFault::Users(UsersFault::Unreadable),
        "no users",
    );
    let refused = socket_fault(io::Error::from(ErrorKind::OutOfMemory));
    holds(&rt, refused == DaemonFault::NoMemory, "no memory");
    let refused = control_fault(io::Error::from(ErrorKind::AddrInUse));
    holds(&rt, refused == DaemonFault::Control, "no control socket");
    let refused = metrics_fault(io::Error::from(ErrorKind::AddrInUse));
    holds(&rt, refused == DaemonFault::Metrics, "no metrics address");
    let refused = journal_fault(io::Error::from(ErrorKind::NotFound));
    holds(&rt, refused == DaemonFault::Journal, "no journal");
}

/// A file in the folder in which the test runs.
const FILE: &str = "daemon_parts_test_config";

/// Why a proxy is not started by the files, of which that of the users may be missing, if it is not.
fn refused_by<R: ProxyFiles>(rt: &R, alloc: Global, users: Option<&str>) -> Option<DaemonFault> {
    match check_files(rt, alloc, FILE, users, None, false) {
        Ok(()) => None,
        Err(fault) => Some(fault),
    }
}

/// Whether the files are read as they stand.
fn are_read<R: ProxyFiles>(rt: &R, alloc: Global) -> bool {
    let text = read_config(rt, alloc, FILE, None);
    let users = read_users(rt, alloc, Some(FILE));
    let is_text = match &text {
        Ok(text) => text.as_slice() == OF_REALM,
        Err(_) => false,
    };
    let are_users = match &users {
        Ok(Some(text)) => text.as_slice() == OF_REALM,
        Ok(None) | Err(_) => false,
    };
    is_text && are_users
}

#[test]
fn files_are_read(rt: HostRuntime) {
    let alloc = rt.alloc();
    let _ = fs::remove_file(&rt, FILE);
    let missed = refused_by(&rt, alloc, None);
    holds(&rt, missed == Some(DaemonFault::Unreadable), "no file");
    for text in [CONFIGURATION, WITHOUT_INSTANCE, OF_REALM] {
        holds(&rt, fs::write(&rt, FILE, text).is_ok(), "it is written");
        holds(&rt, refused_by(&rt, alloc, None).is_none(), "it is taken");
    }
    holds(&rt, are_read(&rt, alloc), "the bytes of the files");
    let missed = refused_by(&rt, alloc, Some("daemon_parts_test_no_users"));
    holds(
        &rt,
        missed == Some(DaemonFault::Users(UsersFault::Unreadable)),
        "no file of users",
    );
    let missed = refused_by(&rt, alloc, Some(FILE));
    holds(
        &rt,
        missed == Some(DaemonFault::Users(UsersFault::Line(1))),
        "no users in the file",
    );
    let _ = fs::remove_file(&rt, FILE);
}

/// Whether a line stands in a text.
fn has_line(text: &[u8], line: &str) -> bool {
    let line = line.as_bytes();
    let len = line.len();
    len > 0 && text.windows(len).any(|part| part == line)
}

/// How many of these lines stand in the text of the counters.
fn lines_in(alloc: Global, counts: &Counts, lines: &[&str]) -> usize {
    let gauges = Gauges {
        seconds: 3,
        held: 2,
        bindings: 0,
        resident: Some(4_096),
    };
    match counts.text(alloc, gauges) {
        Ok(text) => lines
            .iter()
            .filter(|line| has_line(text.as_slice(), line))
            .count(),
        Err(_) => 0,
    }
}

#[test]
fn what_is_counted_is_written(rt: HostRuntime) {
    let counts = Counts::new();
    counts.calls.opened.add(5);
    counts.calls.finished.add(3);
    counts.calls.failed.add(486);
    counts.calls.failed.add(603);
    counts.calls.missed.add(4);
    counts.datagrams.keep_alives.add(6);
    counts.datagrams.answered.add(416);
    counts.datagrams.answered.add(501);
    counts.datagrams.timed.requests.add(8);
    counts.latencies.add(200);
    counts.commits.add(700);
    counts.senders.unkept.add(2);
    let lines = [
        "# HELP forkproxy_uptime_seconds For how many seconds the proxy serves.\n# TYPE forkproxy_uptime_seconds gauge\nforkproxy_uptime_seconds 3\n",
        "\nforkproxy_calls 2\n",
        "\nforkproxy_calls_open 2\n",
        "\nprocess_resident_memory_bytes 4096\n",
        "\nforkproxy_calls_opened_total 5\n",
        "# HELP forkproxy_calls_failed_total Calls that were forgotten without a 2xx, by the class of the status that went up.\n# TYPE forkproxy_calls_failed_total counter\nforkproxy_calls_failed_total{class=\"3xx\"} 0\nforkproxy_calls_failed_total{class=\"4xx\"} 1\n",
        "\nforkproxy_calls_failed_total{class=\"6xx\"} 1\n",
        "\nforkproxy_deadlines_missed_total 4\n",
        "\nforkproxy_keepalives_total 6\n",
        "\nforkproxy_answered_total{status=\"416\"} 1\n",
        "\nforkproxy_answered_total{status=\"other\"} 1\n",
        "\nforkproxy_timer_sent_total{message=\"request\"} 8\n",
        "forkproxy_handling_seconds_sum 0.000200\nforkproxy_handling_seconds_count 1\n",
        "\nforkproxy_unkept_total 2\n",
        "# HELP forkproxy_store_seconds How long it took to keep the changes of bindings that waited, all at once.\n# TYPE forkproxy_store_seconds histogram\n",
        "\nforkproxy_store_seconds_sum 0.000700\nforkproxy_store_seconds_count 1\n",
    ];
    let found = lines_in(rt.alloc(), &counts, &lines);
    holds(&rt, found == lines.len(), "the counters");
}

#[test]
fn memory_is_told_by_the_system(rt: HostRuntime) {
    let pages = resident_pages(b"765 422 393 5 0 123 0\n");
    holds(&rt, pages == Some(422), "the second number");
    holds(&rt, resident_pages(b"765").is_none(), "no second number");
    let bytes = resident_bytes(&rt, rt.alloc()).unwrap_or(0);
    holds(&rt, bytes > 4_096, "this process has memory");
}

#[test]
fn what_is_kept_follows_the_memory(rt: HostRuntime) {
    let total = memory_total(b"MemTotal:       16384256 kB\nMemFree:          123 kB\n");
    holds(&rt, total == Some(16_777_478_144), "units of 1,024 bytes");
    let free = memory_total(b"MemFree:          123 kB\n");
    holds(&rt, free.is_none(), "another line");
    holds(&rt, group_limit(b"max\n").is_none(), "no limit");
    let limit = group_limit(b"536870912\n");
    holds(&rt, limit == Some(536_870_912), "a limit");
    for (bytes, calls) in [
        (0, 1_000),
        (24_000_000, 1_000),
        (16_777_478_144, 699_061),
        (24_000_000_000, 1_000_000),
        (u64::MAX, 1_000_000),
    ] {
        holds(&rt, calls_within(bytes) == calls, "half of the memory");
    }
    let here = most_calls_here(&rt, rt.alloc());
    let is_bounded = 1_000 <= here && here <= 1_000_000;
    holds(&rt, is_bounded, "what this machine has");
}

#[test]
fn line_ends_alone_keep_a_path_open(rt: HostRuntime) {
    for text in ["", "\r\n", "\r\n\r\n", "\0\0\0\0"] {
        holds(&rt, is_keep_alive(text.as_bytes()), "it is one");
    }
    for text in ["\0\0\0", "\0\0\0\0\0", "\r\n\r\nACK", " "] {
        holds(&rt, !is_keep_alive(text.as_bytes()), "it is none");
    }
}

/// Whether two places are kept, a third for a request within a dialog alone, one more for a request that opens no call, and another one only
/// once two are given back.
fn are_kept() -> bool {
    let mut places = CallQuota::new(2);
    let kept = places.keep() && places.keep() && !places.keep();
    let beyond = places.keep_within_dialog() && !places.keep_within_dialog();
    let registering = places.keep_registering();
    places.give_back();
    places.give_back();
    let full = !places.keep();
    places.give_back();
    kept && beyond && registering && full && places.keep() && !places.keep()
}

#[test]
fn places_are_kept_while_there_are_some(rt: HostRuntime) {
    holds(&rt, are_kept(), "two places");
}
