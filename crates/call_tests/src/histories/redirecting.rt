//! A 302 with two contacts, to an INVITE for the domain and to one for a URI that the proxy is not responsible for (RFC 3261
//! section 16.5).
use crate::histories::playing::{Entry, Posted, goes_so};
use crate::holds::holds;
use crate::requests::SETUP;
use call_messages::histories::{Moment, Turn};
use call_messages::one_target::{ACK_SENT, CALLER, INVITE, INVITE_SENT, TARGET, TRYING};
use call_messages::redirecting::{
    CONTACT_SENT, MOVED, OTHER, OTHER_ACK_SENT, OTHER_INVITE, OTHER_MOVED, OTHER_MOVED_UP,
    OTHER_SENT, OTHER_TRYING,
};
use fork_call::Taken;
use fork_context::{Choice, Up};

// ---- an INVITE for the domain

/// The contacts are tried.
const FOLLOWED: &[Moment] = &[
    (0, Turn::Sends(&TRYING)),
    (0, Turn::Sends(&INVITE_SENT)),
    (0, Turn::Waits(Some(500))),
    (20, Turn::Takes(TARGET, MOVED, Ok(Taken::Posted(0)))),
    (20, Turn::Sends(&ACK_SENT)),
    (20, Turn::Sends(&CONTACT_SENT)),
    (20, Turn::Waits(Some(520))),
];

/// Its event.
const REDIRECTION: &[Entry] = &[Entry {
    event: Posted::Answer(0, 302),
    started: &[1],
    cancelled: &[],
    up: Up::Nothing,
}];

#[test]
fn a_redirection_in_the_domain_is_followed(rt: HostRuntime) {
    holds(
        &rt,
        goes_so(rt.alloc(), SETUP, INVITE, FOLLOWED, REDIRECTION),
        "a call for the domain",
    );
}

// ---- an INVITE for another URI

/// The caller's ACK to it.
const OTHER_ACK: &[u8] = b"ACK sip:carol@198.51.100.7 SIP/2.0\r\n\
v: SIP/2.0/UDP 192.0.2.1:5060;branch=z9hG4bKa;rport\r\n\
Max-Forwards: 70\r\n\
f: <sip:alice@example.com>;tag=1\r\n\
t: <sip:carol@198.51.100.7>;tag=9\r\n\
i: c1\r\n\
CSeq: 1 ACK\r\n\
l: 0\r\n\
\r\n";

/// The 302 goes up with its contacts, and no request is sent to them until the call is over.
const NOT_FOLLOWED: &[Moment] = &[
    (0, Turn::Sends(&OTHER_TRYING)),
    (0, Turn::Sends(&OTHER_SENT)),
    (0, Turn::Waits(Some(500))),
    (20, Turn::Takes(OTHER, OTHER_MOVED, Ok(Taken::Posted(0)))),
    (20, Turn::Sends(&OTHER_MOVED_UP)),
    (20, Turn::Sends(&OTHER_ACK_SENT)),
    (20, Turn::Waits(Some(520))),
    (30, Turn::Takes(CALLER, OTHER_ACK, Ok(Taken::Absorbed))),
    (30, Turn::Waits(Some(5030))),
    (5030, Turn::Does),
    (5030, Turn::Waits(Some(32_020))),
    (32_020, Turn::Does),
    (32_020, Turn::Waits(None)),
];

/// Its event.
const LEFT: &[Entry] = &[Entry {
    event: Posted::Answer(0, 302),
    started: &[],
    cancelled: &[],
    up: Up::Final(Choice::Stored(0)),
}];

#[test]
fn a_redirection_elsewhere_goes_up(rt: HostRuntime) {
    holds(
        &rt,
        goes_so(rt.alloc(), SETUP, OTHER_INVITE, NOT_FOLLOWED, LEFT),
        "a call for another URI",
    );
}
