//! Requests of which it is decided what becomes of them: by another setup, by an answer, or by somebody else (RFC 3261 sections 10.3, 16.3
//! and 22.3).
use crate::holds::holds;
use crate::outbox::Outbox;
use crate::texts::{SOURCE, setup_of, shelf_of};
use authentication::OwnAnswer;
use call_messages::lines::{CALL_ID, FROM, MARKED, TAGGED, TO, VIA, text_of};
use fork_call::Setup;
use proxy_config::{BoundContact, DialogToken};
use proxy_dispatch::{Admission, Decision, Handled, Opener, Received, SharedCalls, handle};
use sip_build::OwnStatus;
use sip_text::Message;
use sip_uri::{Hop, Transport};
use std::alloc::{AllocError, Allocator, Global};
use std::sync::Wait;

/// What is decided of each request, and of each REGISTER for the domain.
#[derive(Clone, Copy)]
enum Verdict {
    Opens,
    /// By the setup as it stands, with a token.
    OpensWith,
    /// By a setup in which carol has a contact.
    OpensBy,
    Answers,
    Leaves,
}

/// What decides so of requests, and whether its registrar answers, if it has one.
#[derive(Clone, Copy)]
struct Decider {
    decides: Verdict,
    registrar: Option<bool>,
}

/// Where carol is reached.
const CONTACT: Hop = Hop {
    addr: [198, 51, 100, 7],
    port: 41_000,
    transport: Transport::Udp,
};

/// What the token of a dialog is made with.
const TOKEN: DialogToken = DialogToken {
    secret: [7; 32],
    second: 1_764_400_000,
};

/// The setup of a moment at which carol has a contact.
fn moment_of<A: Allocator + Clone>(alloc: &A, setup: &Setup<A>) -> Result<Setup<A>, AllocError> {
    let contact = BoundContact::new(b"sip:carol@10.0.0.2", b"carol@10.0.0.2", 1_000, CONTACT);
    setup.at_moment(alloc.clone()?, b"carol", &[contact])
}

/// A 403 with a further line.
fn forbidden<A: Allocator + Clone>(alloc: &A) -> Result<OwnAnswer<A>, AllocError> {
    let mut answer = OwnAnswer::new(alloc.clone()?, OwnStatus::Forbidden);
    let value = Vec::from_slice(alloc.clone()?, b"10")?;
    answer.push(b"Retry-After", value)?;
    Ok(answer)
}

/// The decision of this verdict.
fn decision_of<A: Allocator + Clone>(
    alloc: &A,
    setup: &Setup<A>,
    verdict: Verdict,
) -> Result<Decision<A>, AllocError> {
    match verdict {
        Verdict::Opens => Ok(Decision::Opens),
        Verdict::OpensWith => Ok(Decision::OpensWith(TOKEN)),
        Verdict::OpensBy => Ok(Decision::OpensBy(moment_of(alloc, setup)?)),
        Verdict::Answers => Ok(Decision::Answers(forbidden(alloc)?)),
        Verdict::Leaves => Ok(Decision::Leaves),
    }
}

impl<A: Allocator + Clone> Admission<A> for Decider {
    ghost use Rattle.std.specs.Prelude.{is_some};
    ghost use Rattle.proxy_dispatch.specs.Admitting.{open_all};

    ghost serving = { λ decider. record open_all {
      decides = λ _ _ _ _ _. Unit {0};
      registrar = is_some decider.registrar;
      registers = λ _ _ _ _ _. Unit {0};
    } };

    fn admits<R: Wait>(&self, _rt: &R, _opener: Opener) -> bool {
        true
    }

    fn release<R: Wait>(&self, _rt: &R) {}

    fn decides<R: Wait>(
        &self,
        _rt: &R,
        alloc: &A,
        setup: &Setup<A>,
        _request: &Message<A>,
        _source: Hop,
        _now: u64,
    ) -> Result<Decision<A>, AllocError> {
        decision_of(alloc, setup, self.decides)
    }

    fn has_registrar(&self) -> bool {
        self.registrar.is_some()
    }

    fn registers<R: Wait>(
        &self,
        _rt: &R,
        alloc: &A,
        _setup: &Setup<A>,
        _request: &Message<A>,
        _source: Hop,
        _now: u64,
    ) -> Result<Option<OwnAnswer<A>>, AllocError> {
        match self.registrar {
            Some(true) => Ok(Some(forbidden(alloc)?)),
            Some(false) | None => Ok(None),
        }
    }
}

const SEVENTY: &[u8] = b"Max-Forwards: 70";

const CSEQ: &[u8] = b"CSeq: 1 OPTIONS";

/// A request for a user without a location.
const ASKED: [&[u8]; 8] = [
    b"OPTIONS sip:carol@example.com SIP/2.0",
    VIA,
    SEVENTY,
    FROM,
    TO,
    CALL_ID,
    CSEQ,
    b"",
];

/// The same that no more proxy may pass on.
const SPENT: [&[u8]; 8] = [
    b"OPTIONS sip:carol@example.com SIP/2.0",
    VIA,
    b"Max-Forwards: 0",
    FROM,
    TO,
    CALL_ID,
    CSEQ,
    b"",
];

/// A REGISTER for the domain, one that asks for an extension, and one of another domain.
const REGISTER: [&[u8]; 8] = [
    b"REGISTER sip:example.com SIP/2.0",
    VIA,
    b"Max-Forwards: 0",
    FROM,
    TO,
    CALL_ID,
    b"CSeq: 1 REGISTER",
    b"",
];

const EXTENDED: [&[u8]; 9] = [
    b"REGISTER sip:example.com SIP/2.0",
    VIA,
    SEVENTY,
    FROM,
    TO,
    CALL_ID,
    b"CSeq: 1 REGISTER",
    b"Proxy-Require: x",
    b"",
];

const ELSEWHERE: [&[u8]; 8] = [
    b"REGISTER sip:elsewhere.example SIP/2.0",
    VIA,
    SEVENTY,
    FROM,
    TO,
    CALL_ID,
    b"CSeq: 1 REGISTER",
    b"",
];

/// An ACK of an answer that another gave.
const ACK: [&[u8]; 8] = [
    b"ACK sip:bob@192.0.2.4 SIP/2.0",
    VIA,
    SEVENTY,
    FROM,
    b"t: <sip:bob@example.com>;tag=9",
    CALL_ID,
    b"CSeq: 1 ACK",
    b"",
];

/// What is decided of a request, whether the registrar answers, if there is one, the lines of a datagram, and what becomes of it.
type Row<'a> = (Verdict, Option<bool>, &'a [&'a [u8]], Handled);

const ROWS: [Row<'static>; 16] = [
    (Verdict::Opens, None, &ASKED, Handled::Answered(480)),
    (Verdict::OpensWith, None, &ASKED, Handled::Answered(480)),
    (Verdict::OpensBy, Some(false), &ASKED, Handled::Opened(0)),
    (
        Verdict::Answers,
        Some(false),
        &ASKED,
        Handled::Answered(403),
    ),
    (Verdict::Leaves, Some(true), &ASKED, Handled::Left),
    (Verdict::Answers, None, &SPENT, Handled::Answered(483)),
    (Verdict::Leaves, None, &SPENT, Handled::Answered(483)),
    (
        Verdict::Leaves,
        Some(true),
        &REGISTER,
        Handled::Answered(403),
    ),
    (Verdict::Answers, Some(false), &REGISTER, Handled::Left),
    (Verdict::Opens, None, &REGISTER, Handled::Answered(483)),
    (
        Verdict::Answers,
        Some(false),
        &EXTENDED,
        Handled::Answered(420),
    ),
    (
        Verdict::Answers,
        Some(false),
        &ELSEWHERE,
        Handled::Answered(403),
    ),
    (Verdict::Opens, Some(false), &ACK, Handled::Forwarded),
    (Verdict::OpensWith, Some(false), &ACK, Handled::Forwarded),
    (Verdict::Answers, Some(false), &ACK, Handled::Dropped),
    (Verdict::Leaves, Some(true), &ACK, Handled::Dropped),
];

/// What becomes of the text of these lines by a service, where that is decided.
fn becomes<R: Wait>(rt: &R, alloc: Global, row: &Row<'_>, outbox: &mut Outbox) -> Option<Handled> {
    let shelf = shelf_of(alloc)?;
    let setup = setup_of(alloc)?.for_a_service();
    let text = text_of(alloc, row.2)?;
    let decider = Decider {
        decides: row.0,
        registrar: row.1,
    };
    let received = Received {
        bytes: &text,
        source: SOURCE,
        now: 0,
    };
    let mut calls = SharedCalls::new(&shelf);
    handle(rt, alloc, &mut calls, &setup, &decider, received, outbox).ok()
}

#[test]
fn what_is_decided_becomes_of_requests(rt: HostRuntime) {
    for row in ROWS {
        let mut outbox = Outbox::new(rt.alloc());
        let handled = becomes(&rt, rt.alloc(), &row, &mut outbox);
        holds(&rt, handled == Some(row.3), "what becomes of a datagram");
    }
}

const FORBIDDEN: [&[u8]; 9] = [
    b"SIP/2.0 403 Forbidden",
    MARKED,
    FROM,
    TAGGED,
    CALL_ID,
    CSEQ,
    b"Retry-After: 10",
    b"Content-Length: 0",
    b"",
];

/// Whether the request is answered by the lines that are decided.
fn is_forbidden<R: Wait>(rt: &R, alloc: Global) -> bool {
    let mut outbox = Outbox::new(alloc);
    let row: Row<'_> = (Verdict::Answers, None, &ASKED, Handled::Answered(403));
    let _handled = becomes(rt, alloc, &row, &mut outbox);
    match text_of(alloc, &FORBIDDEN) {
        Some(answer) => outbox.has_sent(SOURCE, &answer),
        None => false,
    }
}

#[test]
fn an_answer_has_the_lines_that_are_decided(rt: HostRuntime) {
    let well = is_forbidden(&rt, rt.alloc());
    holds(&rt, well, "the text of an answer");
}
