//! Calls to one target whose port fails one send: which sends are told to the call, and what it does then (RFC 3261 sections
//! 16.9 and 17.1.4).

use crate::histories::one_target::{CANCELLATION, FAILED};
use crate::histories::playing::{Entry, Posted, has_entries, opened, taken};
use crate::holds::holds;
use crate::requests::SETUP;
use call_messages::one_target::{
    ACK_SENT, CALLER, CANCEL, CANCEL_OK, CANCEL_SENT, FAULT_UP, INVITE, INVITE_SENT, OPTIONS,
    OPTIONS_FAULT_UP, OPTIONS_NOT_FOUND, OPTIONS_NOT_FOUND_UP, OPTIONS_RINGING, OPTIONS_RINGING_UP,
    OPTIONS_SENT, RINGING, RINGING_UP, TARGET, TERMINATED, TERMINATED_UP, TRYING,
};
use call_messages::{Sent, is_sent};
use fork_call::{Call, Datagram, Port, Taken, carry};
use fork_context::{Choice, Up};
use sip_uri::Hop;
use std::alloc::{Allocator, Global};

// ---- a port in memory

/// A port that fails one send, and looks at all that it is given.
#[derive(Drop)]
struct Watch {
    /// What it is to be given, in order.
    wanted: &'static [&'static Sent],
    /// How many datagrams it was given.
    given: usize,
    /// The number of the send that fails, from 1 on; 0 where none does.
    fails: usize,
    /// Whether that counts as a failure.
    counts: bool,
    failures: u64,
    /// Whether it was given what it was to be given.
    well: bool,
}

/// Whether a datagram is that which stands at this place.
fn is_wanted<A: Allocator>(wanted: &[&'static Sent], place: usize, datagram: &Datagram<A>) -> bool {
    match wanted.get(place) {
        Some(sent) => is_sent(datagram, sent),
        None => false,
    }
}

impl Port for Watch {
    ghost count = { λ port. port.failures };

    fn send<A: Allocator>(&mut self, datagram: &Datagram<A>) -> bool {
        self.well = self.well && is_wanted(self.wanted, self.given, datagram);
        self.given = self.given.saturating_add(1);
        if self.given != self.fails {
            return true;
        }
        if self.counts {
            self.failures = self.failures.saturating_add(1);
        }
        false
    }

    fn failures(&self) -> u64 {
        self.failures
    }
}

// ---- a call that is carried

/// A moment at which a call is carried, and what comes to it before, how that is taken.
#[derive(Clone, Copy)]
struct Carrying {
    now: u64,
    comes: Option<(Hop, &'static [u8], Taken)>,
}

/// A call under number 3 that is over at the end: what comes to it, what it sends, and the events of its book.
#[derive(Clone, Copy)]
struct Run {
    request: &'static [u8],
    carryings: &'static [Carrying],
    wanted: &'static [&'static Sent],
    entries: &'static [Entry],
}

/// Which send fails, from 1 on, and whether that counts.
type Failing = (usize, bool);

/// Whether what comes to a call is taken so.
fn takes(alloc: Global, call: &mut Call<Global>, carrying: &Carrying) -> bool {
    match carrying.comes {
        Some((from, text, well)) => {
            taken(alloc, call, carrying.now, from, text) == Some(Ok(well))
        }
        None => true,
    }
}

/// How many sends count as failed as the call is carried; None where more is due then.
fn carries(call: &mut Call<Global>, port: &mut Watch, now: u64) -> Option<u32> {
    let carried = carry(call, port, now).ok()?;
    if carried.more {
        return None;
    }
    Some(carried.failed)
}

/// How many sends count as failed at all moments, where all that comes is taken so.
fn carries_all(
    alloc: Global,
    call: &mut Call<Global>,
    port: &mut Watch,
    carryings: &[Carrying],
) -> Option<u32> {
    let mut failed: u32 = 0;
    for carrying in carryings {
        if !takes(alloc, call, carrying) {
            return None;
        }
        failed = failed.saturating_add(carries(call, port, carrying.now)?);
    }
    Some(failed)
}

/// Whether a call goes so where the port fails this send.
fn goes_so(alloc: Global, run: &Run, (fails, counts): Failing) -> bool {
    let mut port = Watch {
        wanted: run.wanted,
        given: 0,
        fails,
        counts,
        failures: 0,
        well: true,
    };
    let failures = if counts && fails > 0 { 1 } else { 0 };
    match opened(alloc, SETUP, 3, run.request) {
        Some(mut call) => {
            carries_all(alloc, &mut call, &mut port, run.carryings) == Some(failures)
                && port.well
                && port.given == run.wanted.len()
                && call.over()
                && has_entries(&call, run.entries)
        }
        None => false,
    }
}

/// Whether a call goes so whichever of these sends fails.
fn always_goes_so(alloc: Global, run: &Run, failing: &[Failing]) -> bool {
    let mut well = true;
    for send in failing {
        well = well && goes_so(alloc, run, *send);
    }
    well
}

// ---- a failure

/// An OPTIONS request whose target answers 404.
const FAILURE: Run = Run {
    request: OPTIONS,
    carryings: &[
        Carrying {
            now: 0,
            comes: None,
        },
        Carrying {
            now: 20,
            comes: Some((TARGET, OPTIONS_NOT_FOUND, Taken::Posted(0))),
        },
        Carrying {
            now: 5020,
            comes: None,
        },
        Carrying {
            now: 32_020,
            comes: None,
        },
    ],
    wanted: &[&OPTIONS_SENT, &OPTIONS_NOT_FOUND_UP],
    entries: FAILED,
};

/// The same, where the request could not be sent.
const FAULT: Run = Run {
    request: OPTIONS,
    carryings: &[
        Carrying {
            now: 0,
            comes: None,
        },
        Carrying {
            now: 20,
            comes: Some((TARGET, OPTIONS_NOT_FOUND, Taken::Absorbed)),
        },
        Carrying {
            now: 32_000,
            comes: None,
        },
    ],
    wanted: &[&OPTIONS_SENT, &OPTIONS_FAULT_UP],
    entries: &[Entry {
        event: Posted::Fault(0),
        started: &[],
        cancelled: &[],
        up: Up::Final(Choice::Only503(0)),
    }],
};

/// An OPTIONS request whose target answers 180 and 404, and which the caller cancels in between.
const CANCEL_OF_OPTIONS: Run = Run {
    request: OPTIONS,
    carryings: &[
        Carrying {
            now: 0,
            comes: None,
        },
        Carrying {
            now: 10,
            comes: Some((TARGET, OPTIONS_RINGING, Taken::Posted(0))),
        },
        Carrying {
            now: 20,
            comes: Some((CALLER, CANCEL, Taken::Absorbed)),
        },
        Carrying {
            now: 30,
            comes: Some((TARGET, OPTIONS_NOT_FOUND, Taken::Posted(1))),
        },
        Carrying {
            now: 5030,
            comes: None,
        },
        Carrying {
            now: 32_030,
            comes: None,
        },
    ],
    wanted: &[
        &OPTIONS_SENT,
        &OPTIONS_RINGING_UP,
        &CANCEL_OK,
        &OPTIONS_NOT_FOUND_UP,
    ],
    entries: &[
        Entry {
            event: Posted::Ring(0, 180),
            started: &[],
            cancelled: &[],
            up: Up::Provisional(0),
        },
        Entry {
            event: Posted::Answer(0, 404),
            started: &[],
            cancelled: &[],
            up: Up::Final(Choice::Stored(0)),
        },
    ],
};

#[test]
fn a_request_that_is_lost_is_a_fault(rt: HostRuntime) {
    let alloc = rt.alloc();
    holds(
        &rt,
        goes_so(alloc, &FAULT, (1, true)),
        "the request is lost",
    );
    holds(
        &rt,
        always_goes_so(
            alloc,
            &FAILURE,
            &[(0, true), (1, false), (2, true), (2, false)],
        ),
        "another send is, or it does not count",
    );
    holds(
        &rt,
        always_goes_so(alloc, &CANCEL_OF_OPTIONS, &[(3, true), (3, false)]),
        "the 200 to a CANCEL is",
    );
}

// ---- a CANCEL

/// An INVITE that the caller cancels before the target rings.
const CANCELLED: Run = Run {
    request: INVITE,
    carryings: &[
        Carrying {
            now: 0,
            comes: None,
        },
        Carrying {
            now: 10,
            comes: Some((CALLER, CANCEL, Taken::Posted(0))),
        },
        Carrying {
            now: 20,
            comes: Some((TARGET, RINGING, Taken::Posted(1))),
        },
        Carrying {
            now: 30,
            comes: Some((TARGET, TERMINATED, Taken::Posted(2))),
        },
        Carrying {
            now: 32_020,
            comes: None,
        },
        Carrying {
            now: 32_030,
            comes: None,
        },
    ],
    wanted: &[
        &TRYING,
        &INVITE_SENT,
        &CANCEL_OK,
        &RINGING_UP,
        &CANCEL_SENT,
        &TERMINATED_UP,
        &ACK_SENT,
        &TERMINATED_UP,
    ],
    entries: CANCELLATION,
};

/// The same, where the INVITE could not be sent: the target is cancelled after it has ended, and what it answers changes
/// nothing.
const LOST: Run = Run {
    request: INVITE,
    carryings: &[
        Carrying {
            now: 0,
            comes: None,
        },
        Carrying {
            now: 10,
            comes: Some((CALLER, CANCEL, Taken::Posted(1))),
        },
        Carrying {
            now: 20,
            comes: Some((TARGET, RINGING, Taken::Absorbed)),
        },
        Carrying {
            now: 30,
            comes: Some((TARGET, TERMINATED, Taken::Absorbed)),
        },
        Carrying {
            now: 32_000,
            comes: None,
        },
    ],
    wanted: &[&TRYING, &INVITE_SENT, &FAULT_UP, &CANCEL_OK],
    entries: &[
        Entry {
            event: Posted::Fault(0),
            started: &[],
            cancelled: &[],
            up: Up::Final(Choice::Only503(0)),
        },
        Entry {
            event: Posted::Cancel,
            started: &[],
            cancelled: &[],
            up: Up::Nothing,
        },
    ],
};

#[test]
fn no_other_send_that_is_lost_is_a_fault(rt: HostRuntime) {
    let alloc = rt.alloc();
    holds(&rt, goes_so(alloc, &LOST, (2, true)), "the INVITE is lost");
    holds(
        &rt,
        always_goes_so(
            alloc,
            &CANCELLED,
            &[
                (0, true),
                (1, true),
                (3, true),
                (4, true),
                (5, true),
                (6, true),
                (7, true),
                (8, true),
            ],
        ),
        "another send is",
    );
    holds(
        &rt,
        always_goes_so(alloc, &CANCELLED, &[(2, false), (6, false)]),
        "a send is lost that does not count",
    );
}
