//! What is written of a call, and which configurations are taken.
ghost use Rattle.std.specs.Prelude.{◌≡◌};

use crate::holds::holds;
use crate::outbox::Outbox;
use call_journal::{Note, NotedEvent};
use call_table::Shelf;
use fork_call::{Call, Setup};
use proxy_dispatch::{Handled, Received, SharedCalls, Unlimited, handle};
use proxy_service::append_block;
use service_files::{DaemonFault, Options};
use service_threads::{check_config, serve_text};
use sip_uri::{Hop, Transport};
use std::alloc::Global;
use std::fs;
use std::sync::Wait;

const CONFIGURATION: &[u8] =
    b"own 192.0.2.9 5060\ninstance 7\ndomain example.com\nlocation bob 1000 sip:bob@192.0.2.4\n";

const REQUEST: &[u8] =
    b"OPTIONS sip:bob@example.com SIP/2.0\r\nVia: SIP/2.0/UDP 192.0.2.1;branch=z9hG4bKa\r\nMax-Forwards: 70\r\nFrom: <sip:alice@example.com>;tag=1\r\nTo: <sip:bob@example.com>\r\nCall-ID: one\r\nCSeq: 1 OPTIONS\r\nContent-Length: 0\r\n\r\n";

const SOURCE: Hop = Hop {
    addr: [192, 0, 2, 1],
    port: 5060,
    transport: Transport::Udp,
};

/// The second of which a block tells.
const TIME: u64 = 1_700_000_000;

/// What is noted of its one target.
const NOTES: [Note; 2] = [
    Note {
        target: 0,
        what: NotedEvent::Rang(180),
        at: 120,
    },
    Note {
        target: 0,
        what: NotedEvent::Cancelled,
        at: 15_000,
    },
];

const BLOCK: &[u8] =
    b"call 1700000000 0 OPTIONS sip:bob@example.com from <sip:alice@example.com>;tag=1 call-id one open\ntarget 0 rang 180 at 120, cancelled at 15000\n";

/// A configuration whose second line is malformed.
const MALFORMED: &[u8] = b"own 127.0.0.1 47430\ninstance seven\n";

/// A file of a configuration, in the folder in which the test runs.
const FILE: &str = "forkproxyd_test_checked";

/// A proxy without threads: calls, a configuration, and where its datagrams go.
#[derive(Drop)]
struct Scene {
    alloc: Global,
    setup: Setup<Global>,
    calls: Shelf<Call<Global>>,
    outbox: Outbox,
}

/// Writes what there is of a call, and says whether there was memory for it.
fn written(call: &mut Call<Global>, block: &mut Vec<u8>) -> bool
    ensures { call.new.opened.number ≡ call.old.opened.number }
{
    append_block(call, TIME, &NOTES, block).is_ok()
}

impl Scene {
    fn new(alloc: Global) -> Option<Scene> {
        Some(Scene {
            alloc,
            setup: Setup::read(alloc, CONFIGURATION).ok()?,
            calls: Shelf::new(alloc).ok()?,
            outbox: Outbox::new(alloc),
        })
    }

    /// Whether the request opens the call 0.
    fn opens<R: Wait>(&mut self, rt: &R) -> bool {
        let alloc = self.alloc;
        let received = Received {
            bytes: REQUEST,
            source: SOURCE,
            now: 0,
        };
        let mut calls = SharedCalls::new(&self.calls);
        let (setup, outbox) = (&self.setup, &mut self.outbox);
        handle(rt, alloc, &mut calls, setup, &Unlimited, received, outbox) == Ok(Handled::Opened(0))
    }

    /// The block of the call 0.
    fn block<R: Wait>(&self, rt: &R) -> Option<Vec<u8>> {
        let mut block = Vec::new(self.alloc);
        match self.calls.with(rt, 0, |call| written(call, &mut block)) {
            Some(true) => Some(block),
            _ => None,
        }
    }
}

/// The block of a call that is still open.
fn block_of<R: Wait>(rt: &R, alloc: Global) -> Option<Vec<u8>> {
    let mut scene = Scene::new(alloc)?;
    if scene.opens(rt) {
        scene.block(rt)
    } else {
        None
    }
}

#[test]
fn a_call_is_written_down(rt: HostRuntime) {
    let well = match block_of(&rt, rt.alloc()) {
        Some(block) => block.as_slice() == BLOCK,
        None => false,
    };
    holds(&rt, well, "the block of an open call");
}

#[test]
fn a_configuration_is_checked(rt: HostRuntime) {
    let options = Options {
        config: FILE,
        own: None,
        users: None,
        control: "forkproxyd_test_unused",
        journal: None,
        store: None,
        most_calls: Some(1),
        most_bindings: 1_000,
        workers: 1,
        records: false,
        route: None,
        secret: None,
        own_port: false,
        most_per_source: None,
        unlimited: &[],
        metrics: None,
        connections: None,
    };
    let served = serve_text(&rt, rt.alloc(), MALFORMED, None, 1, options);
    holds(
        &rt,
        served == Err(DaemonFault::Line(2)),
        "a malformed configuration is not served",
    );
    let missing = check_config(&rt, rt.alloc(), FILE, None, None, false);
    holds(
        &rt,
        missing == Err(DaemonFault::Unreadable),
        "there is no such file",
    );
    let written = fs::write(&rt, FILE, CONFIGURATION).is_ok();
    holds(&rt, written, "the configuration is written");
    let checked = check_config(&rt, rt.alloc(), FILE, None, None, false);
    holds(&rt, checked.is_ok(), "the configuration is well-formed");
    let _ = fs::remove_file(&rt, FILE);
}
