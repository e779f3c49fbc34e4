//! Requests within dialogs by their tokens, and calls by gateways (RFC 3261 sections 16.5 and 16.6).
use crate::histories::{AWAY, GATEWAY, INSIDE, INVITE, REGISTER};
use crate::holds::holds;
use crate::outgoing::{Outgoing, Sent};
use crate::rows::USERS;
use crate::turns::{Asked, Goes, missed, sends, sent_for, service_by, service_of};
use proxy_dispatch::Received;
use proxy_service::Service;
use sip_lex::cut_at;
use sip_uri::{Hop, Transport};
use sip_via::Own;
use std::alloc::Global;
use std::sync::Wait;
use std::time::Clock;

const REALM: &[u8] =
    b"own 192.0.2.9 5060\ninstance 7\ndomain example.com\nrealm example.com SHA-256,MD5\ntrust 192.0.2.128/25\ngateway 1000 sip:192.0.2.20\ngateway 500 sip:192.0.2.21\n";

const SECOND: Hop = Hop {
    addr: [192, 0, 2, 21],
    port: 5060,
    transport: Transport::Udp,
};

// ---- within a dialog

/// The end of a dialog that a stranger sends to one who is trusted, by the token of its Call-ID.
const BYE: Asked = Asked {
    at: 0,
    source: AWAY,
    method: "BYE",
    uri: "sip:carol@192.0.2.130:5060",
    from: "sip:eve@elsewhere.example",
    to: "<sip:carol@elsewhere.example>;tag=2",
    call: "b1",
    cseq: 7,
    lines: "Route: <sip:192.0.2.9:5060;lr;d=692a9b804d520b24ed3eb2e5>\r\n",
    password: None,
};

const GOES: Goes = Goes {
    to: INSIDE,
    front: "BYE sip:carol@192.0.2.130:5060 SIP/2.0\r\n",
    part: "",
};

const FORBIDDEN: Goes = Goes {
    to: AWAY,
    front: "SIP/2.0 403 ",
    part: "",
};

/// The token has to be that of the Call-ID, and less than a day old; it opens no call, and reaches no gateway.
const TOKENS: &[(Asked, Goes)] = &[
    (BYE, GOES),
    // of a second that is 86,399 and 86,400 seconds ago
    (
        Asked {
            call: "b2",
            lines: "Route: <sip:192.0.2.9:5060;lr;d=69294a01f8482eef6475c384>\r\n",
            ..BYE
        },
        GOES,
    ),
    (
        Asked {
            call: "b3",
            lines: "Route: <sip:192.0.2.9:5060;lr;d=69294a00abbac4b00c5576ad>\r\n",
            ..BYE
        },
        FORBIDDEN,
    ),
    (Asked { call: "b4", ..BYE }, FORBIDDEN),
    (
        Asked {
            cseq: 8,
            lines: "Route: <sip:192.0.2.9:5060;lr>\r\n",
            ..BYE
        },
        FORBIDDEN,
    ),
    (
        Asked {
            cseq: 9,
            lines: "",
            ..BYE
        },
        FORBIDDEN,
    ),
    (
        Asked {
            cseq: 10,
            to: "<sip:carol@elsewhere.example>",
            ..BYE
        },
        FORBIDDEN,
    ),
    (
        Asked {
            cseq: 11,
            uri: "sip:+1555@example.com",
            ..BYE
        },
        Goes {
            to: AWAY,
            front: "SIP/2.0 480 ",
            part: "",
        },
    ),
];

/// Each table stands in a function of its own: a proof reads a constant wherever it is named, once for each call beside it.
fn tokens() -> &'static [(Asked, Goes)] {
    TOKENS
}

#[test]
fn a_token_is_good_within_its_dialog(rt: HostRuntime) {
    let well = match service_of(rt.alloc(), REALM, Some(USERS), 100) {
        Some(service) => missed(&rt, rt.alloc(), &service, tokens()).is_none(),
        None => false,
    };
    holds(&rt, well, "tokens of dialogs");
}

// ---- by the address of a front

/// The end of the dialog, by the address of a front.
const BYE_BY_FRONT: Asked = Asked {
    lines: "Route: <sip:192.0.2.1:5070;lr;d=692a9b804d520b24ed3eb2e5>\r\n",
    ..BYE
};

/// A call by one who is trusted, and the Record-Route line that it goes on with.
const CALL_BY_FRONT: (Asked, Goes) = (
    Asked {
        uri: "sip:carol@203.0.113.1",
        to: "<sip:carol@elsewhere.example>",
        call: "f1",
        ..INVITE
    },
    Goes {
        to: Hop {
            addr: [203, 0, 113, 1],
            port: 5060,
            transport: Transport::Udp,
        },
        front: "INVITE sip:carol@203.0.113.1 SIP/2.0\r\n",
        part: "\r\nRecord-Route: <sip:192.0.2.1:5070;lr;d=692a9b81",
    },
);

/// What goes by a service whose Record-Route line names a front: the end of a dialog, also by its own address, and a call.
const BY_FRONT: &[(Asked, Goes)] = &[
    (BYE_BY_FRONT, GOES),
    (Asked { cseq: 8, ..BYE }, GOES),
    CALL_BY_FRONT,
];

fn by_front() -> &'static [(Asked, Goes)] {
    BY_FRONT
}

/// The same by any other.
const BY_NO_FRONT: &[(Asked, Goes)] = &[(BYE_BY_FRONT, FORBIDDEN)];

fn by_no_front() -> &'static [(Asked, Goes)] {
    BY_NO_FRONT
}

#[test]
fn a_dialog_goes_by_the_address_of_a_front(rt: HostRuntime) {
    let alloc = rt.alloc();
    let front = Own::over_udp([192, 0, 2, 1], 5070);
    let well = match service_by(alloc, REALM, Some(USERS), front) {
        Some(service) => missed(&rt, alloc, &service, by_front()).is_none(),
        None => false,
    };
    holds(&rt, well, "a front that it stays on the path by");
    let well = match service_of(alloc, REALM, Some(USERS), 100) {
        Some(service) => missed(&rt, alloc, &service, by_no_front()).is_none(),
        None => false,
    };
    holds(&rt, well, "one that it knows nothing of");
}

// ---- to the world

/// A call of one who is trusted to a number of the world.
const ABROAD: Asked = Asked {
    uri: "sip:+15550100@example.com",
    to: "<sip:+15550100@example.com>",
    call: "g1",
    ..INVITE
};

/// What a gateway may not do.
const TURNED_AWAY: &[(Asked, Goes)] = &[
    (
        Asked {
            source: GATEWAY,
            call: "g2",
            ..ABROAD
        },
        Goes {
            to: GATEWAY,
            front: "SIP/2.0 480 ",
            part: "",
        },
    ),
    (
        Asked {
            source: GATEWAY,
            ..REGISTER
        },
        Goes {
            to: GATEWAY,
            front: "SIP/2.0 401 ",
            part: "",
        },
    ),
];

fn turned_away() -> &'static [(Asked, Goes)] {
    TURNED_AWAY
}

/// The first that went out to there.
fn first_to(port: &Outgoing, to: Hop) -> Option<&Sent> {
    port.sent().iter().find(|sent| sent.to == to)
}

/// The answer to a request with this status line.
fn answer_to(alloc: Global, line: &[u8], request: &[u8]) -> Option<Vec<u8>> {
    let (_, fields) = cut_at(request, b'\n');
    let mut answer = Vec::from_slice(alloc, line).ok()?;
    answer.extend_from_slice(fields?).ok()?;
    Some(answer)
}

/// Whether this goes out as the first gateway refuses its INVITE.
fn goes_behind<R: Wait + Clock>(
    rt: &R,
    alloc: Global,
    service: &Service,
    invite: &[u8],
    goes: &Goes,
) -> bool {
    let Some(answer) = answer_to(alloc, b"SIP/2.0 503 Service Unavailable\r\n", invite) else {
        return false;
    };
    let mut port = Outgoing::new(alloc);
    let received = Received {
        bytes: &answer,
        source: GATEWAY,
        now: 1_500,
    };
    service.take(rt, &mut port, received);
    sends(&port, goes)
}

/// What goes out by the first gateway, and then by the second one.
const FIRST: Goes = Goes {
    to: GATEWAY,
    front: "INVITE sip:+15550100@192.0.2.20 SIP/2.0\r\n",
    part: "",
};

const THEN: Goes = Goes {
    to: SECOND,
    front: "INVITE sip:+15550100@192.0.2.21 SIP/2.0\r\n",
    part: "",
};

/// Whether a call goes by the first gateway alone, and by the second one once the first one has refused.
fn goes_by_the_next<R: Wait + Clock>(
    rt: &R,
    alloc: Global,
    service: &Service,
    called: &Outgoing,
) -> bool {
    match first_to(called, GATEWAY) {
        Some(invite) => {
            sends(called, &FIRST)
                && first_to(called, SECOND).is_none()
                && goes_behind(rt, alloc, service, &invite.bytes, &THEN)
        }
        None => false,
    }
}

/// Whether a call goes so by a service, and none of a gateway does.
fn goes_abroad<R: Wait + Clock>(rt: &R, alloc: Global, service: &Service) -> bool {
    match sent_for(rt, alloc, service, &ABROAD) {
        Some(called) => {
            goes_by_the_next(rt, alloc, service, &called)
                && missed(rt, alloc, service, turned_away()).is_none()
        }
        None => false,
    }
}

#[test]
fn the_next_gateway_is_called(rt: HostRuntime) {
    let well = match service_of(rt.alloc(), REALM, Some(USERS), 100) {
        Some(service) => goes_abroad(&rt, rt.alloc(), &service),
        None => false,
    };
    holds(&rt, well, "two gateways");
}
