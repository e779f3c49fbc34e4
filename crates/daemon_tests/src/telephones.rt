//! Two telephones of bob, a caller and two gateways by the sockets of a whole proxy: what each request gets, row by row (RFC 3261 sections 10.3,
//! 16 and 22).
use crate::asking::{Agent, Asked, value_in};
use crate::holds::holds;
use crate::telling::{counts, has_line, tells, told};
use service_files::{DaemonFault, Options};
use service_threads::serve;
use sip_digest::{md5_response, sha256_response};
use std::alloc::{AllocError, Global};
use std::fs;
use std::fs::Files;
use std::net::Net;
use std::test::Fail;
use std::thread::join;
use std::time::Clock;

const PROXY: u16 = 47_490;

/// The files of the proxy, in the folder in which the test runs.
const CONFIG: &str = "forkproxyd_test_telephones_config";

const USERS: &str = "forkproxyd_test_telephones_users";

const CONTROL: &str = "forkproxyd_test_telephones_control";

/// The own address is trusted, and no other one of this machine but those of the gateways.
const CONFIGURATION: &[u8] =
    b"own 127.0.0.1 47490\ndomain example.com\nrealm example.com SHA-256,MD5\ntrust 10.0.0.0/8\ngateway 1000 sip:127.0.0.4:47494\ngateway 500 sip:127.0.0.5:47495\n";

/// The same, where strangers may call the users of the domain.
const OPEN: &[u8] =
    b"own 127.0.0.1 47490\ndomain example.com\nrealm example.com SHA-256,MD5\nstrangers\ntrust 10.0.0.0/8\ngateway 1000 sip:127.0.0.4:47494\ngateway 500 sip:127.0.0.5:47495\n";

const LIST: &[u8] =
    b"bob 2664cba6663a734ef3a6fefc0c0d0821 baf9ceb3dcf070665c835868f20bd230ca09393a0c44efca3690ee35eaebee0b\nalice 2ea68a710b96a2d11cb42c2b3758287a aef00b0c72d1333f4e221e71543980dc183f9772cf5f3606b5c304116cccb89a\n";

const OPTIONS: Options<'static> = Options {
    config: CONFIG,
    own: None,
    users: Some(USERS),
    control: CONTROL,
    journal: None,
    store: None,
    most_calls: Some(64),
    most_bindings: 1_000,
    workers: 2,
    records: false,
    route: None,
    secret: None,
    own_port: true,
    most_per_source: None,
    unlimited: &[],
    metrics: None,
    connections: None,
};

// ---- parties

/// A caller at the proxy's own address, bob's two telephones, and two gateways.
#[derive(Clone, Copy, PartialEq, Eq)]
enum Party {
    Caller,
    Telephone,
    Other,
    Gateway,
    NextGateway,
}

#[derive(Drop)]
struct Parties {
    caller: Agent,
    telephone: Agent,
    other: Agent,
    gateway: Agent,
    next_gateway: Agent,
}

impl Parties {
    fn new<R: Net>(rt: &R, alloc: Global) -> Option<Parties> {
        match (
            Agent::new(rt, alloc, 1, 47_491, PROXY),
            Agent::new(rt, alloc, 2, 47_492, PROXY),
            Agent::new(rt, alloc, 3, 47_493, PROXY),
            Agent::new(rt, alloc, 4, 47_494, PROXY),
            Agent::new(rt, alloc, 5, 47_495, PROXY),
        ) {
            (Some(caller), Some(telephone), Some(other), Some(gateway), Some(next_gateway)) => {
                Some(Parties {
                    caller,
                    telephone,
                    other,
                    gateway,
                    next_gateway,
                })
            }
            _ => None,
        }
    }

    fn agent(&self, party: Party) -> &Agent {
        match party {
            Party::Caller => &self.caller,
            Party::Telephone => &self.telephone,
            Party::Other => &self.other,
            Party::Gateway => &self.gateway,
            Party::NextGateway => &self.next_gateway,
        }
    }
}

// ---- credentials

/// How many digits a hash by SHA-256 has.
const SHA256_DIGITS: usize = 64;

/// Who has a password, the MD5 of `NAME:example.com:PASSWORD` or its SHA-256, and how his credentials differ from those that he is asked for.
#[derive(Clone, Copy)]
struct Password {
    name: &'static str,
    hash: &'static str,
    /// Whose nonce it is.
    nonce: Party,
    /// For which URI they are, where it is another one.
    uri: Option<&'static str>,
    /// What stands behind all else.
    more: &'static str,
}

const BOB: Password = Password {
    name: "bob",
    hash: "2664cba6663a734ef3a6fefc0c0d0821",
    nonce: Party::Telephone,
    uri: None,
    more: "",
};

const BOB_SHA256: Password = Password {
    hash: "baf9ceb3dcf070665c835868f20bd230ca09393a0c44efca3690ee35eaebee0b",
    ..BOB
};

const ALICE: Password = Password {
    name: "alice",
    hash: "2ea68a710b96a2d11cb42c2b3758287a",
    ..BOB
};

/// The nonces that the two telephones were given.
#[derive(Drop)]
struct Nonces {
    telephone: String,
    other: String,
}

/// The nonce that a telephone is given as it asks without credentials.
fn nonce_for(agent: &Agent, call: &str) -> Option<String> {
    let asked = Asked { call, ..REGISTER };
    agent.asks(asked);
    let challenge = agent.hears("SIP/2.0 401 ", call)?;
    value_in(agent.alloc, challenge.as_slice(), b"nonce=\"", b'"')
}

impl Nonces {
    fn asked(parties: &Parties) -> Option<Nonces> {
        match (
            nonce_for(&parties.telephone, "n1"),
            nonce_for(&parties.other, "n2"),
        ) {
            (Some(telephone), Some(other)) => Some(Nonces { telephone, other }),
            _ => None,
        }
    }

    fn of(&self, party: Party) -> &str {
        match party {
            Party::Other => self.other.as_str(),
            _ => self.telephone.as_str(),
        }
    }
}

/// The response to a nonce, by SHA-256 where the hash is one of that, with the name of the algorithm then.
fn response_to(
    alloc: Global,
    hash: &[u8],
    nonce: &[u8],
    method: &[u8],
    uri: &[u8],
) -> Result<String, AllocError> {
    if hash.len() == SHA256_DIGITS {
        let response = sha256_response(hash, nonce, None, method, uri);
        let response = str::from_utf8(&response).unwrap_or("");
        return format!(in alloc; "response=\"{response}\", algorithm=SHA-256");
    }
    let response = md5_response(hash, nonce, None, method, uri);
    let response = str::from_utf8(&response).unwrap_or("");
    format!(in alloc; "response=\"{response}\"")
}

/// The lines of a request with its credentials.
fn lines_with(
    alloc: Global,
    nonces: &Nonces,
    asked: &Asked<'_>,
    password: Password,
) -> Result<String, AllocError> {
    let uri = match password.uri {
        Some(other) => other,
        None => asked.uri,
    };
    let nonce = nonces.of(password.nonce);
    let response = response_to(
        alloc,
        password.hash.as_bytes(),
        nonce.as_bytes(),
        asked.method.as_bytes(),
        uri.as_bytes(),
    )?;
    let response = response.as_str();
    let field = if asked.method == "REGISTER" {
        "Authorization"
    } else {
        "Proxy-Authorization"
    };
    let Password { name, more, .. } = password;
    let lines = asked.lines;
    format!(in alloc;
        "{lines}{field}: Digest username=\"{name}\", realm=\"example.com\", nonce=\"{nonce}\", uri=\"{uri}\", {response}{more}\r\n"
    )
}

// ---- steps

/// What is sent by whom, with whose password, if it is sent and was not before; and what is heard then, by whom, and what stands in it.
#[derive(Clone, Copy)]
struct Step {
    from: Party,
    asked: Asked<'static>,
    password: Option<Password>,
    is_sent: bool,
    to: Party,
    front: &'static str,
    part: &'static str,
}

/// Sends what a step sends.
fn sends(parties: &Parties, nonces: &Nonces, step: &Step) {
    let agent = parties.agent(step.from);
    match step.password {
        None => agent.asks(step.asked),
        Some(password) => {
            if let Ok(lines) = lines_with(agent.alloc, nonces, &step.asked, password) {
                agent.asks(Asked {
                    lines: lines.as_str(),
                    ..step.asked
                });
            }
        }
    }
}

/// Whether a step is followed by what is heard, without credentials.
fn follows(parties: &Parties, nonces: &Nonces, step: &Step) -> bool {
    if step.is_sent {
        sends(parties, nonces, step);
    }
    match parties.agent(step.to).hears(step.front, step.asked.call) {
        Some(text) => {
            (step.part.is_empty() || has_line(text.as_slice(), step.part))
                && !has_line(text.as_slice(), "Proxy-Authorization")
        }
        None => false,
    }
}

/// Whether each step is followed by what is heard.
fn follow(parties: &Parties, nonces: &Nonces, steps: &[Step]) -> bool {
    for step in steps {
        if !follows(parties, nonces, step) {
            return false;
        }
    }
    true
}

// ---- registrations

const REGISTER: Asked<'static> = Asked {
    method: "REGISTER",
    uri: "sip:example.com",
    from: "sip:bob@example.com",
    to: "<sip:bob@example.com>",
    call: "r1",
    cseq: 1,
    branch: "",
    lines: "Contact: <sip:bob@10.0.0.2:5070>;expires=600\r\n",
};

const SECOND: Asked<'static> = Asked {
    cseq: 2,
    ..REGISTER
};

/// bob's telephone is bound.
const BOUND: Step = Step {
    from: Party::Telephone,
    asked: SECOND,
    password: Some(BOB_SHA256),
    is_sent: true,
    to: Party::Telephone,
    front: "SIP/2.0 200 ",
    part: "\r\nContact: <sip:bob@10.0.0.2:5070>;expires=600\r\nDate: ",
};

const LATE: Step = Step {
    front: "SIP/2.0 500 ",
    part: "",
    ..BOUND
};

const REFUSED: Step = Step {
    front: "SIP/2.0 400 ",
    part: "",
    ..BOUND
};

/// One telephone: it is challenged by both algorithms, bound by one, knows its repeat, and takes no smaller or equal number; `*` takes all away,
/// with `Expires: 0` alone.
const ONE: &[Step] = &[
    Step {
        asked: REGISTER,
        password: None,
        front: "SIP/2.0 401 ",
        part: ", algorithm=SHA-256\r\nWWW-Authenticate: Digest realm=\"example.com\", qop=\"auth\", nonce=\"",
        ..BOUND
    },
    BOUND,
    BOUND,
    Step {
        asked: Asked {
            branch: "b",
            ..SECOND
        },
        ..LATE
    },
    Step {
        asked: Asked {
            branch: "b",
            ..REGISTER
        },
        ..LATE
    },
    Step {
        asked: Asked {
            cseq: 3,
            lines: "Contact: *\r\nExpires: 60\r\n",
            ..REGISTER
        },
        ..REFUSED
    },
    Step {
        asked: Asked {
            cseq: 3,
            branch: "b",
            lines: "Contact: *\r\nExpires: 0\r\n",
            ..REGISTER
        },
        part: "\r\nCSeq: 3 REGISTER\r\nDate: ",
        ..BOUND
    },
    // times: one that is too short refuses all; one that is none, and one that is too long
    Step {
        asked: Asked {
            cseq: 4,
            lines: "Contact: <sip:bob@10.0.0.3>, <sip:bob@10.0.0.2:5070>;expires=30\r\n",
            ..REGISTER
        },
        front: "SIP/2.0 423 ",
        part: "\r\nMin-Expires: 60\r\n",
        ..BOUND
    },
    Step {
        asked: Asked {
            cseq: 5,
            lines: "Contact: <sip:bob@10.0.0.2:5070>;expires=x\r\n",
            ..REGISTER
        },
        part: "\r\nCSeq: 5 REGISTER\r\nContact: <sip:bob@10.0.0.2:5070>;expires=3600\r\nDate: ",
        ..BOUND
    },
    Step {
        asked: Asked {
            cseq: 6,
            lines: "Contact: <sip:bob@10.0.0.2:5070>;expires=999999\r\n",
            ..REGISTER
        },
        part: "\r\nContact: <sip:bob@10.0.0.2:5070>;expires=86400\r\n",
        ..BOUND
    },
];

/// Credentials that do not do.
const PASSWORDS: &[Step] = &[
    Step {
        asked: Asked {
            call: "p1",
            ..SECOND
        },
        password: Some(ALICE),
        front: "SIP/2.0 403 ",
        part: "",
        ..BOUND
    },
    Step {
        asked: Asked {
            call: "p2",
            ..SECOND
        },
        password: Some(Password {
            nonce: Party::Other,
            ..BOB
        }),
        front: "SIP/2.0 401 ",
        part: ", algorithm=MD5, stale=true\r\n",
        ..BOUND
    },
    Step {
        asked: Asked {
            call: "p3",
            ..SECOND
        },
        password: Some(Password {
            more: ", qop=auth, cnonce=\"c\"",
            ..BOB
        }),
        ..REFUSED
    },
    Step {
        asked: Asked {
            call: "p4",
            ..SECOND
        },
        password: Some(Password {
            uri: Some("sip:elsewhere.example"),
            ..BOB
        }),
        ..REFUSED
    },
    Step {
        asked: Asked {
            call: "p5",
            ..SECOND
        },
        password: Some(Password {
            name: "nobody",
            ..BOB
        }),
        front: "SIP/2.0 401 ",
        part: ", algorithm=MD5\r\nContent-Length: 0\r\n",
        ..BOUND
    },
    Step {
        from: Party::Gateway,
        asked: Asked {
            call: "p6",
            ..REGISTER
        },
        password: None,
        to: Party::Gateway,
        front: "SIP/2.0 401 ",
        part: "",
        ..BOUND
    },
];

// ---- calls

/// A call of one at the proxy's own address to bob.
const INVITE: Asked<'static> = Asked {
    method: "INVITE",
    uri: "sip:bob@example.com",
    from: "sip:carol@elsewhere.example",
    to: "<sip:bob@example.com>",
    call: "c1",
    cseq: 1,
    branch: "",
    lines: "Contact: <sip:carol@127.0.0.1:47491>\r\n",
};

const RINGS: Step = Step {
    from: Party::Caller,
    asked: INVITE,
    password: None,
    is_sent: true,
    to: Party::Telephone,
    front: "INVITE sip:bob@10.0.0.2:5070 SIP/2.0\r\n",
    part: "\r\nRecord-Route: <sip:127.0.0.1:47490;lr;d=",
};

/// Two telephones with the same private address: both ring, and the ACK of a call goes to the last one.
const TWO: &[Step] = &[
    Step {
        from: Party::Other,
        asked: Asked {
            call: "r2",
            ..SECOND
        },
        password: Some(Password {
            nonce: Party::Other,
            ..BOB
        }),
        to: Party::Other,
        ..BOUND
    },
    RINGS,
    Step {
        is_sent: false,
        to: Party::Other,
        ..RINGS
    },
    Step {
        asked: Asked {
            method: "ACK",
            uri: "sip:bob@10.0.0.2:5070",
            to: "<sip:bob@example.com>;tag=9",
            call: "c2",
            lines: "",
            ..INVITE
        },
        to: Party::Other,
        front: "ACK sip:bob@10.0.0.2:5070 SIP/2.0\r\n",
        part: "",
        ..RINGS
    },
];

/// A call of bob's telephone to elsewhere, which is not trusted.
const OUTSIDE: Asked<'static> = Asked {
    uri: "sip:x@127.0.0.1:47491",
    from: "sip:bob@example.com",
    to: "<sip:x@127.0.0.1:47491>",
    call: "s1",
    lines: "",
    ..INVITE
};

const ASKED: Step = Step {
    from: Party::Telephone,
    asked: OUTSIDE,
    password: None,
    is_sent: true,
    to: Party::Telephone,
    front: "SIP/2.0 407 ",
    part: "\r\nProxy-Authenticate: Digest realm=\"example.com\", qop=\"auth\", nonce=\"",
};

const FORWARDED: Step = Step {
    password: Some(BOB_SHA256),
    to: Party::Caller,
    front: "INVITE sip:x@127.0.0.1:47491 SIP/2.0\r\n",
    part: "",
    ..ASKED
};

const FORBIDDEN: Step = Step {
    front: "SIP/2.0 403 ",
    part: "",
    ..ASKED
};

/// A stranger's call to bob.
const EVES: Asked<'static> = Asked {
    from: "sip:eve@elsewhere.example",
    call: "e1",
    ..INVITE
};

/// Who calls elsewhere is asked for a password; a stranger is refused.
const CALLS: &[Step] = &[
    ASKED,
    Step {
        asked: Asked {
            call: "s2",
            ..OUTSIDE
        },
        ..FORWARDED
    },
    Step {
        asked: Asked {
            call: "s3",
            ..OUTSIDE
        },
        password: Some(ALICE),
        ..FORBIDDEN
    },
    Step {
        asked: Asked {
            call: "s4",
            from: "sip:anonymous@anonymous.invalid",
            ..OUTSIDE
        },
        ..ASKED
    },
    Step {
        asked: Asked {
            call: "s5",
            from: "sip:anonymous@anonymous.invalid",
            ..OUTSIDE
        },
        ..FORWARDED
    },
    Step {
        asked: Asked {
            call: "s6",
            from: "sip:eve@elsewhere.example",
            ..OUTSIDE
        },
        ..FORBIDDEN
    },
    Step {
        asked: EVES,
        ..FORBIDDEN
    },
];

/// A call of one at the proxy's own address to a number of the world.
const ABROAD: Asked<'static> = Asked {
    uri: "sip:+15550100@example.com",
    to: "<sip:+15550100@example.com>",
    call: "g1",
    ..INVITE
};

const BY_GATEWAY: Step = Step {
    asked: ABROAD,
    to: Party::Gateway,
    front: "INVITE sip:+15550100@127.0.0.4:47494 SIP/2.0\r\n",
    ..RINGS
};

const BY_THE_NEXT: Step = Step {
    is_sent: false,
    to: Party::NextGateway,
    front: "INVITE sip:+15550100@127.0.0.5:47495 SIP/2.0\r\n",
    ..BY_GATEWAY
};

/// A gateway calls nobody by a gateway.
const BACK: Step = Step {
    from: Party::Gateway,
    asked: Asked {
        call: "g2",
        ..ABROAD
    },
    to: Party::Gateway,
    front: "SIP/2.0 480 ",
    part: "",
    ..RINGS
};

/// Whether a call goes by the first gateway, and by the second one once the first one has refused.
fn goes_by_the_next(parties: &Parties, nonces: &Nonces) -> bool {
    let gateway = parties.agent(Party::Gateway);
    parties.agent(Party::Caller).asks(ABROAD);
    let Some(invite) = gateway.hears(BY_GATEWAY.front, ABROAD.call) else {
        return false;
    };
    gateway.answers(invite.as_slice(), "SIP/2.0 503 Service Unavailable\r\n");
    follow(parties, nonces, &[BY_THE_NEXT, BACK])
}

/// Where strangers are served, they reach who has registered, and nobody else.
const STRANGERS: &[Step] = &[
    Step {
        from: Party::Other,
        asked: Asked { call: "e2", ..EVES },
        ..RINGS
    },
    Step {
        from: Party::Other,
        asked: Asked {
            call: "e3",
            uri: "sip:nobody@example.com",
            to: "<sip:nobody@example.com>",
            ..EVES
        },
        to: Party::Other,
        front: "SIP/2.0 403 ",
        part: "",
        ..RINGS
    },
];

// ---- the proxy

/// Plays all, and says what did not hold.
fn played<R: Net + Clock + Files>(rt: &R, alloc: Global) -> &'static str {
    let Some(parties) = Parties::new(rt, alloc) else {
        return "there are five parties";
    };
    if !counts(rt, alloc, CONTROL, "forkproxy_calls 0\n") {
        return "the proxy answers at its control socket";
    }
    let Some(nonces) = Nonces::asked(&parties) else {
        return "telephones are given nonces";
    };
    for (steps, what) in [
        (ONE, "one telephone registers"),
        (PASSWORDS, "credentials have to be right"),
        (TWO, "two telephones have the same private address"),
        (CALLS, "who calls elsewhere is asked for a password"),
    ] {
        if !follow(&parties, &nonces, steps) {
            return what;
        }
    }
    if !goes_by_the_next(&parties, &nonces) {
        return "the world is reached by gateways";
    }
    if fs::write(rt, CONFIG, OPEN).is_err() || !tells(rt, alloc, CONTROL, "reload", "taken\n") {
        return "strangers are served from now on";
    }
    if follow(&parties, &nonces, STRANGERS) {
        "nothing"
    } else {
        "strangers reach who has registered"
    }
}

/// Plays all, and says what did not hold; then the proxy is told to end at once.
fn plays<R: Net + Clock + Files>(rt: &R, alloc: Global) -> &'static str {
    let missed = played(rt, alloc);
    let _ = told(rt, alloc, CONTROL, "stop 0");
    missed
}

#[test]
fn each_request_gets_what_it_may(rt: HostRuntime) -> Result<(), Fail> {
    let alloc = rt.alloc();
    let written = fs::write(&rt, CONFIG, CONFIGURATION).is_ok()
        && fs::write(&rt, USERS, LIST).is_ok();
    holds(&rt, written, "the files are written");
    let (served, missed) = join(&rt, || serve(&rt, alloc, OPTIONS), || plays(&rt, alloc));
    let ended: Result<(), DaemonFault> = served;
    holds(&rt, missed == "nothing", missed);
    holds(&rt, ended.is_ok(), "the proxy ends in good order");
    for file in [CONFIG, USERS] {
        let _ = fs::remove_file(&rt, file);
    }
    Ok(())
}
