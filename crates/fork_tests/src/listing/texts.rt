//! Listings of each version, right and wrong, and what a check of each finds.
use crate::listing::read::{ended_lines, finds, holds_at, holds_of};
use fork_listing::{CheckFault, Verdict};
use std::process::Abort;

/// A text, and what a check of it finds.
type Row<'a> = (&'a str, Result<Verdict, CheckFault>);

/// Right listings.
const RIGHT: [Row<'static>; 3] = [
    (
        "fork 1 4\ntarget 0 - 1000 stored 503 0 received\ntarget 1 - 1000 stored 407 1 received\ntarget 2 - 1000 stored 501 2 received\ntarget 3 - 1000 stored 404 3 received\nrank 407 1 1\nrank 404 3 3\nrank 501 2 2\nrank 503 0 0\nfinal 407 1\n",
        Ok(Verdict {
            targets: 4,
            status: 407,
            no: Some(1),
        }),
    ),
    (
        "fork 1 1\ntarget 0 - 1000 stored 404 0 received\nrank 404 0 0\nfinal 404 0\n",
        Ok(Verdict {
            targets: 1,
            status: 404,
            no: Some(0),
        }),
    ),
    (
        "fork 3 1\nprefer -\ndepth 0\ntarget 0 - 1000 silent 2\nfinal 408 -\n",
        Ok(Verdict {
            targets: 1,
            status: 408,
            no: None,
        }),
    ),
];

/// A wrong listing for each fault.
const WRONG: [Row<'static>; 5] = [
    (
        "fork 1 4\ntarget 0 - 1000 stored 503 0 received\ntarget 1 - 1000 stored 407 1 received\ntarget 2 - 1000 stored 501 2 received\ntarget 3 - 1000 stored 404 3 received\nrank 404 3 3\nrank 407 1 1\nrank 501 2 2\nrank 503 0 0\nfinal 407 1\n",
        Err(CheckFault::Order(7)),
    ),
    (
        "fork 1 4\ntarget 0 - 1000 stored 503 0 received\ntarget 1 - 1000 stored 407 1 received\ntarget 2 - 1000 stored 501 2 received\ntarget 3 - 1000 stored 404 3 received\nrank 407 1 1\nrank 404 3 3\nrank 501 2 2\nfinal 407 1\n",
        Err(CheckFault::Absent(0)),
    ),
    (
        "fork 1 4\ntarget 0 3 1000 stored 503 0 received\ntarget 1 - 1000 stored 407 1 received\ntarget 2 - 1000 stored 501 2 received\ntarget 3 - 1000 stored 404 3 received\nrank 407 1 1\nrank 404 3 3\nrank 501 2 2\nrank 503 0 0\nfinal 407 1\n",
        Err(CheckFault::Tree(2)),
    ),
    (
        "fork 1 4\ntarget 0 - 1000 stored 503 0 received\ntarget 1 - 1000 stored 407 1 received\ntarget 2 - 1000 stored 501 2 received\ntarget 3 - 1000 stored 404 3 received\nrank 407 1 1\nrank 404 3 3\nrank 501 2 2\nrank 503 0 0\nfinal 407 1",
        Err(CheckFault::Line(10)),
    ),
    (
        "fork 1 4\ntarget 0 - 1000 stored 503 0 received\ntarget 1 - 1000 stored 407 1 received\ntarget 2 - 1000 stored 501 2 received\ntarget 3 - 1000 stored 404 3 received\nrank 407 1 1\nrank 404 3 3\nrank 501 2 2\nrank 503 0 0\nfinal 404 3\n",
        Err(CheckFault::FinalLine),
    ),
];

/// The head and its lines, in each version.
const VERSIONS: [Row<'static>; 8] = [
    (
        "fork 2 2\nprefer 404,486\ntarget 0 - 1000 stored 407 0 received\ntarget 1 - 1000 stored 404 1 received\nrank 404 1 1\nrank 407 0 0\nfinal 404 1\n",
        Ok(Verdict {
            targets: 2,
            status: 404,
            no: Some(1),
        }),
    ),
    (
        "fork 2 2\nprefer -\ntarget 0 - 1000 stored 407 0 received\ntarget 1 - 1000 stored 404 1 received\nrank 404 1 1\nrank 407 0 0\nfinal 404 1\n",
        Err(CheckFault::Order(6)),
    ),
    (
        "fork 1 2\ntarget 0 - 1000 stored 407 0 received\ntarget 1 - 1000 stored 404 1 received\nrank 404 1 1\nrank 407 0 0\nfinal 404 1\n",
        Err(CheckFault::Order(5)),
    ),
    (
        "fork 3 2\nprefer 401,407,415,420,484\ndepth 1\ntarget 0 - 1000 taken 0\ntarget 1 0 1000 stored 302 1 received\nrank 302 1 1\nfinal 302 1\n",
        Ok(Verdict {
            targets: 2,
            status: 302,
            no: Some(1),
        }),
    ),
    (
        "fork 3 2\nprefer 401,407,415,420,484\ndepth 0\ntarget 0 - 1000 taken 0\ntarget 1 0 1000 stored 302 1 received\nrank 302 1 1\nfinal 302 1\n",
        Err(CheckFault::Tree(5)),
    ),
    ("fork 1 100\n", Err(CheckFault::Line(1))),
    ("fork 3 1\ndepth 1\n", Err(CheckFault::Line(2))),
    ("", Err(CheckFault::Line(1))),
];

/// Checks each text of a table.
fn play(rt: &(impl Abort + AllocGlobal), table: &[Row<'_>]) {
    for &(text, wanted) in table {
        holds_of(
            rt,
            finds(rt.alloc(), text.as_bytes(), wanted),
            "the check finds what is due",
            text,
        );
    }
}

#[test]
fn right_listing_is_accepted(rt: HostRuntime) {
    play(&rt, &RIGHT);
}

#[test]
fn each_fault_is_named(rt: HostRuntime) {
    play(&rt, &WRONG);
}

#[test]
fn versions_differ(rt: HostRuntime) {
    play(&rt, &VERSIONS);
}

#[test]
fn each_prefix_is_malformed(rt: HostRuntime) {
    let text = b"fork 1 1\ntarget 0 - 1000 stored 404 0 received\nrank 404 0 0\nfinal 404 0\n";
    for length in 0..text.len() {
        let prefix = &text[..length];
        let fault = CheckFault::Line(ended_lines(prefix).wrapping_add(1));
        holds_at(
            &rt,
            finds(rt.alloc(), prefix, Err(fault)),
            "a prefix is malformed in its last line",
            length,
            text,
        );
    }
}
