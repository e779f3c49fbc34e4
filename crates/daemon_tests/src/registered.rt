//! A telephone registers and is called by the sockets of a whole proxy, and strangers are refused (RFC 3261 sections 10, 16 and 22).
use crate::asking::{Agent, Asked, value_in};
use crate::holds::holds;
use crate::telling::{counts, has_line, tells, told};
use service_files::{DaemonFault, Options};
use service_threads::serve;
use sip_digest::md5_response;
use std::alloc::Global;
use std::fs;
use std::fs::Files;
use std::net::Net;
use std::test::Fail;
use std::thread::join;
use std::time::Clock;

/// Where the proxy listens, the caller at its address, and bob's telephone at another one.
const PROXY: u16 = 47_480;

const CALLER: u16 = 47_481;

const TELEPHONE: u16 = 47_482;

/// The files of the proxy, in the folder in which the test runs.
const CONFIG: &str = "forkproxyd_test_registered_config";

const USERS: &str = "forkproxyd_test_registered_users";

const CONTROL: &str = "forkproxyd_test_registered_control";

/// The own address is trusted, and no other one of this machine.
const CONFIGURATION: &[u8] =
    b"own 127.0.0.1 47480\ndomain example.com\nrealm example.com\ntrust 10.0.0.0/8\ngateway 1000 sip:127.0.0.9:47483\n";

/// The MD5 of `bob:example.com:secret`.
const HASH: &[u8] = b"2664cba6663a734ef3a6fefc0c0d0821";

pub const LIST: &[u8] = b"bob 2664cba6663a734ef3a6fefc0c0d0821 -\n";

const OPTIONS: Options<'static> = Options {
    config: CONFIG,
    own: None,
    users: Some(USERS),
    control: CONTROL,
    journal: None,
    store: None,
    most_calls: Some(8),
    most_bindings: 1_000,
    workers: 2,
    records: false,
    route: None,
    secret: None,
    own_port: true,
    most_per_source: None,
    unlimited: &[],
    metrics: None,
    connections: None,
};

/// A REGISTER of bob, whose telephone knows itself by a private address.
const REGISTER: Asked<'static> = Asked {
    method: "REGISTER",
    uri: "sip:example.com",
    from: "sip:bob@example.com",
    to: "<sip:bob@example.com>",
    call: "r1",
    cseq: 1,
    branch: "",
    lines: "Contact: <sip:bob@10.0.0.2:5070>;expires=600\r\n",
};

/// The lines of the same with the credentials that a challenge asks for.
fn lines_for(alloc: Global, challenge: &[u8]) -> Option<String> {
    let nonce = value_in(alloc, challenge, b"nonce=\"", b'"')?;
    let response = md5_response(
        HASH,
        nonce.as_bytes(),
        None,
        b"REGISTER",
        b"sip:example.com",
    );
    let response = str::from_utf8(&response).ok()?;
    let nonce = nonce.as_str();
    let contact = REGISTER.lines;
    format!(in alloc;
        "{contact}Authorization: Digest username=\"bob\", realm=\"example.com\", nonce=\"{nonce}\", uri=\"sip:example.com\", response=\"{response}\"\r\n"
    ).ok()
}

/// Whether bob's telephone is bound by its REGISTER of this number, with these lines, for as long as it asks.
pub fn is_bound(telephone: &Agent, cseq: u32, lines: &str) -> bool {
    telephone.asks(Asked {
        cseq,
        lines,
        ..REGISTER
    });
    match telephone.hears("SIP/2.0 200 ", "r1") {
        Some(okay) => has_line(
            okay.as_slice(),
            "\r\nContact: <sip:bob@10.0.0.2:5070>;expires=600\r\n",
        ),
        None => false,
    }
}

/// The lines of a REGISTER of bob's telephone, with his password, once it is asked for it.
pub fn lines_asked(telephone: &Agent) -> Option<String> {
    telephone.asks(REGISTER);
    let challenge = telephone.hears("SIP/2.0 401 ", "r1")?;
    lines_for(telephone.alloc, challenge.as_slice())
}

/// Whether bob's telephone is asked for a password, and is bound with it.
fn registers(telephone: &Agent) -> bool {
    match lines_asked(telephone) {
        Some(lines) => is_bound(telephone, 2, lines.as_str()),
        None => false,
    }
}

/// An INVITE of the caller to bob.
const INVITE: Asked<'static> = Asked {
    method: "INVITE",
    uri: "sip:bob@example.com",
    from: "sip:alice@elsewhere.example",
    to: "<sip:bob@example.com>",
    call: "c1",
    cseq: 1,
    branch: "",
    lines: "Contact: <sip:alice@127.0.0.1:47481>\r\n",
};

/// The INVITE of a call as it comes to the telephone, once the caller has heard that the telephone answers.
pub fn called(caller: &Agent, telephone: &Agent) -> Option<Vec<u8>> {
    caller.asks(INVITE);
    let invite = telephone.hears("INVITE sip:bob@10.0.0.2:5070 SIP/2.0\r\n", "c1")?;
    telephone.answers(invite.as_slice(), "SIP/2.0 200 OK\r\n");
    if caller.hears("SIP/2.0 200", "c1").is_some() {
        Some(invite)
    } else {
        None
    }
}

/// Whether an ACK of the caller for the private address of the telephone comes to the telephone.
fn is_acknowledged(caller: &Agent, telephone: &Agent) -> bool {
    caller.asks(Asked {
        method: "ACK",
        uri: "sip:bob@10.0.0.2:5070",
        to: "<sip:bob@example.com>;tag=9",
        call: "c2",
        lines: "",
        ..INVITE
    });
    telephone
        .hears("ACK sip:bob@10.0.0.2:5070 ", "c2")
        .is_some()
}

/// The Route line of a request of the telephone within the dialog that an INVITE opens.
fn route_line(alloc: Global, invite: &[u8]) -> Option<String> {
    let route = value_in(alloc, invite, b"\r\nRecord-Route: ", b'\r')?;
    let route = route.as_str();
    format!(in alloc; "Route: {route}\r\n").ok()
}

/// Whether a BYE of the telephone comes to the caller by the token of its dialog, one of another dialog and one without a token are refused,
/// and none goes by a gateway.
fn ends(caller: &Agent, telephone: &Agent, line: &str) -> bool {
    let bye = Asked {
        method: "BYE",
        uri: "sip:alice@127.0.0.1:47481",
        from: "sip:bob@elsewhere.example",
        to: "<sip:alice@elsewhere.example>;tag=1",
        call: "c1",
        cseq: 7,
        branch: "",
        lines: line,
    };
    telephone.asks(bye);
    let is_ended = caller
        .hears("BYE sip:alice@127.0.0.1:47481 ", "c1")
        .is_some();
    let of_another = Asked { call: "c3", ..bye };
    let without = Asked {
        cseq: 8,
        lines: "Route: <sip:127.0.0.1:47480;lr>\r\n",
        ..bye
    };
    let abroad = Asked {
        cseq: 9,
        uri: "sip:+1555@example.com",
        ..bye
    };
    is_ended
        && telephone.is_answered(of_another, "SIP/2.0 403 ")
        && telephone.is_answered(without, "SIP/2.0 403 ")
        && telephone.is_answered(abroad, "SIP/2.0 480 ")
}

/// A call to the telephone, which ends it; says what did not hold.
fn calls(caller: &Agent, telephone: &Agent) -> &'static str {
    let Some(invite) = called(caller, telephone) else {
        return "the telephone is called, and answers";
    };
    let Some(line) = route_line(telephone.alloc, invite.as_slice()) else {
        return "the INVITE has a Record-Route line";
    };
    if !is_acknowledged(caller, telephone) {
        return "the ACK comes to the telephone";
    }
    if ends(caller, telephone, line.as_str()) {
        "nothing"
    } else {
        "a BYE goes by the token of its dialog alone"
    }
}

/// Whether this stands in what is told of a line at the control socket.
fn is_told<R: Net + Clock>(rt: &R, alloc: Global, line: &str, part: &str) -> bool {
    match told(rt, alloc, CONTROL, line) {
        Some(text) => has_line(text.as_slice(), part),
        None => false,
    }
}

/// A call of a stranger.
const STRANGER: Asked<'static> = Asked {
    uri: "sip:x@203.0.113.1",
    to: "<sip:x@203.0.113.1>",
    call: "s1",
    ..INVITE
};

const BOUND: &str = "user bob sip:bob@10.0.0.2:5070 q 1000 at 127.0.0.2:47482 left ";

const REFUSED: &str = " 127.0.0.2:47482 INVITE sip:x@203.0.113.1 403 Forbidden\nno more\n";

/// What an operator is told of the telephone and of a stranger, and that the telephone is called no more once it is forgotten; says what did
/// not hold.
fn shows<R: Net + Clock>(rt: &R, caller: &Agent, telephone: &Agent) -> &'static str {
    let alloc = caller.alloc;
    if !is_told(rt, alloc, "bindings", BOUND) {
        return "an operator is told of the binding";
    }
    if !telephone.is_answered(STRANGER, "SIP/2.0 403 ") {
        return "a stranger is refused";
    }
    if !is_told(rt, alloc, "refused", REFUSED) {
        return "an operator is told of the stranger";
    }
    if !tells(rt, alloc, CONTROL, "forget bob", "forgotten 1\n") {
        return "a user is forgotten";
    }
    let again = Asked {
        call: "c4",
        ..INVITE
    };
    if caller.is_answered(again, "SIP/2.0 480 ") {
        "nothing"
    } else {
        "a user who was forgotten is called no more"
    }
}

/// Plays all, and says what did not hold.
fn played<R: Net + Clock>(rt: &R, alloc: Global) -> &'static str {
    let (Some(caller), Some(telephone)) = (
        Agent::new(rt, alloc, 1, CALLER, PROXY),
        Agent::new(rt, alloc, 2, TELEPHONE, PROXY),
    ) else {
        return "there are two agents";
    };
    if !counts(rt, alloc, CONTROL, "forkproxy_calls 0\n") {
        return "the proxy answers at its control socket";
    }
    if !registers(&telephone) {
        return "a telephone registers with its password";
    }
    let missed = calls(&caller, &telephone);
    if missed == "nothing" {
        shows(rt, &caller, &telephone)
    } else {
        missed
    }
}

/// Plays all, and says what did not hold; then the proxy is told to end at once.
fn plays<R: Net + Clock>(rt: &R, alloc: Global) -> &'static str {
    let missed = played(rt, alloc);
    let _ = told(rt, alloc, CONTROL, "stop 0");
    missed
}

#[test]
fn a_telephone_registers_and_is_called_by_its_way(rt: HostRuntime) -> Result<(), Fail> {
    let alloc = rt.alloc();
    let written = fs::write(&rt, CONFIG, CONFIGURATION).is_ok()
        && fs::write(&rt, USERS, LIST).is_ok();
    holds(&rt, written, "the files are written");
    let (served, missed) = join(&rt, || serve(&rt, alloc, OPTIONS), || plays(&rt, alloc));
    let ended: Result<(), DaemonFault> = served;
    holds(&rt, missed == "nothing", missed);
    holds(&rt, ended.is_ok(), "the proxy ends in good order");
    for file in [CONFIG, USERS] {
        let _ = fs::remove_file(&rt, file);
    }
    Ok(())
}
