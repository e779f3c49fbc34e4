//! Tests of the table of connections: who is found, limits, and what stays when one goes.
use crate::holds::holds;
use sip_uri::{Hop, Transport};
use std::alloc::Global;
use stream_connections::{ConnectionTable, Opener, SourceCounts, TableFault, peer_number};

/// A peer.
fn peer(last: u8, port: u16) -> Hop {
    Hop {
        addr: [10, 0, 0, last],
        port,
        transport: Transport::Tcp,
    }
}

/// What is done with a table, and what comes of it. A connection is a number here, other than that by which it is kept.
#[derive(Clone, Copy)]
enum Step {
    /// One with a peer is added, and has this number then.
    Adds(u8, u16, Opener, u64, u64),
    /// One is refused.
    Refuses(u8, u16, Opener, TableFault),
    /// One is removed.
    Removes(u64, Option<u64>),
    /// Messages to a peer go by this one.
    Finds(u8, u16, Option<u64>),
}

/// Plays one step, and says whether it came out so.
fn plays(table: &mut ConnectionTable<u64>, step: Step) -> bool {
    match step {
        Step::Adds(last, port, opener, connection, number) => {
            match table.add(peer(last, port), opener, connection) {
                Ok(kept) => kept == number && table.get(kept).copied() == Some(connection),
                Err(_) => false,
            }
        }
        Step::Refuses(last, port, opener, fault) => {
            match table.add(peer(last, port), opener, 0) {
                Ok(_) => false,
                Err(refusal) => refusal.fault == fault && refusal.connection == 0,
            }
        }
        Step::Removes(number, connection) => {
            table.remove(number) == connection && table.get(number).is_none()
        }
        Step::Finds(last, port, number) => table.number_of(peer_number(peer(last, port))) == number,
    }
}

/// Three connections may be there, and two of one address.
const STEPS: &[Step] = &[
    Step::Finds(1, 5060, None),
    Step::Adds(1, 5060, Opener::Peer, 71, 1),
    Step::Finds(1, 5060, Some(1)),
    Step::Adds(1, 5061, Opener::Peer, 72, 2),
    Step::Refuses(1, 5062, Opener::Peer, TableFault::SourceFull),
    Step::Adds(1, 5063, Opener::Proxy, 73, 3),
    Step::Refuses(2, 5060, Opener::Peer, TableFault::Full),
    Step::Refuses(2, 5060, Opener::Proxy, TableFault::Full),
    Step::Removes(2, Some(72)),
    Step::Finds(1, 5061, None),
    Step::Finds(1, 5063, Some(3)),
    Step::Removes(2, None),
    Step::Adds(1, 5060, Opener::Peer, 74, 4),
    Step::Finds(1, 5060, Some(4)),
    Step::Removes(1, Some(71)),
    Step::Finds(1, 5060, Some(4)),
    Step::Removes(4, Some(74)),
    Step::Finds(1, 5060, None),
    Step::Removes(3, Some(73)),
    Step::Adds(1, 5060, Opener::Peer, 75, 5),
    Step::Adds(1, 5061, Opener::Peer, 76, 6),
    Step::Refuses(1, 5062, Opener::Peer, TableFault::SourceFull),
];

/// The place of the first step that comes out otherwise.
fn played(alloc: Global) -> Option<usize> {
    let Ok(mut table) = ConnectionTable::new(alloc, 3, 2) else {
        return Some(STEPS.len());
    };
    for (place, step) in STEPS.iter().enumerate() {
        if !plays(&mut table, *step) {
            return Some(place);
        }
    }
    if table.len() == 2 {
        None
    } else {
        Some(STEPS.len())
    }
}

#[test]
fn connections_are_kept_and_found(rt: HostRuntime) {
    holds(&rt, played(rt.alloc()).is_none(), "a step");
}

/// Whether as many count for an address as are open, and it is given leave again.
fn counts(alloc: Global) -> bool {
    let mut sources = SourceCounts::new(alloc, 1);
    let first = sources.open(7) == Ok(true);
    let second = sources.open(7) == Ok(false);
    let other = sources.open(8) == Ok(true);
    sources.close(7);
    sources.close(7);
    first && second && other && sources.of(7) == 0 && sources.of(8) == 1
}

#[test]
fn an_address_has_so_many(rt: HostRuntime) {
    holds(&rt, counts(rt.alloc()), "one at a time");
}
