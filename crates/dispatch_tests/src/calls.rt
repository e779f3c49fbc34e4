//! Which datagrams the call of a request takes.
ghost use Rattle.std.specs.Prelude.{◌≡◌, IfSome};

use crate::holds::holds;
use crate::outbox::Outbox;
use crate::texts::{Edit, SOURCE, becomes, lines_become, request_of, setup_of, shelf_of};
use call_messages::lines::{CALL_ID, FROM, MARKED};
use call_table::{Shelf, ShelfFault};
use fork_call::{Call, Setup, carry, is_openable};
use proxy_dispatch::{Handled, ReceivedMessage, SharedCalls, Unlimited, handle_message};
use sip_text::Message;
use std::alloc::Global;
use std::sync::Wait;

/// A step of a history: the request with these edits, and what becomes of it.
type Step<'a> = (&'a [Edit<'a>], Handled);

/// Whether each step becomes what it is to become, and nothing is sent at once.
fn go_on<R: Wait>(
    rt: &R,
    alloc: Global,
    shelf: &Shelf<Call<Global>>,
    steps: &[Step<'_>],
    outbox: &mut Outbox,
) -> bool {
    let mut well = true;
    for step in steps {
        well = well && becomes(rt, alloc, shelf, step.0, outbox) == Some(step.1);
    }
    well && outbox.is_empty()
}

/// The same on one shelf, over one port.
fn plays<R: Wait>(rt: &R, alloc: Global, steps: &[Step<'_>]) -> bool {
    let mut outbox = Outbox::new(alloc);
    match shelf_of(alloc) {
        Some(shelf) => go_on(rt, alloc, &shelf, steps, &mut outbox),
        None => false,
    }
}

/// A request, what else has its key, and what has another.
const KEYED: [Step<'static>; 8] = [
    (&[], Handled::Opened(0)),
    (&[], Handled::Delivered(0)),
    (
        &[
            (0, b"CANCEL sip:bob@example.com SIP/2.0"),
            (6, b"CSeq: 1 CANCEL"),
        ],
        Handled::Delivered(0),
    ),
    (
        &[(0, b"ACK sip:bob@example.com SIP/2.0"), (6, b"CSeq: 1 ACK")],
        Handled::Delivered(0),
    ),
    // another method with its key
    (
        &[
            (0, b"INVITE sip:bob@example.com SIP/2.0"),
            (6, b"CSeq: 1 INVITE"),
        ],
        Handled::Dropped,
    ),
    // another branch, and another host
    (
        &[(1, b"v: SIP/2.0/UDP 192.0.2.1:5060;branch=z9hG4bKb;rport")],
        Handled::Opened(1),
    ),
    (
        &[(1, b"v: SIP/2.0/UDP 192.0.2.2:5060;branch=z9hG4bKa;rport")],
        Handled::Opened(2),
    ),
    // 5060 is the port where none is named
    (
        &[(1, b"v: SIP/2.0/UDP 192.0.2.2;branch=z9hG4bKa;rport")],
        Handled::Delivered(2),
    ),
];

#[test]
fn a_request_opens_one_call(rt: HostRuntime) {
    holds(
        &rt,
        plays(&rt, rt.alloc(), &KEYED),
        "requests, known by their keys",
    );
}

/// The request.
fn request(alloc: Global) -> Option<Message<Global>> {
    let text = request_of(alloc, &[])?;
    match Message::read(alloc, &text) {
        Ok(request) => Some(request),
        Err(_) => None,
    }
}

/// The call of the request under that number, by a setup.
fn opened_by(alloc: Global, setup: &Setup<Global>, number: u64) -> Option<Call<Global>> {
    let request = request(alloc)?;
    if !is_openable(&request) {
        return None;
    }
    match Call::open(alloc, setup, number, request, SOURCE, 0) {
        Ok(call) => Some(call),
        Err(_) => None,
    }
}

/// The same by the setup.
fn opened(alloc: Global, number: u64) -> Option<Call<Global>> {
    let setup = setup_of(alloc)?;
    opened_by(alloc, &setup, number)
}

/// Whether the call is carried.
fn is_carried(call: &mut Call<Global>, outbox: &mut Outbox) -> bool {
    carry(call, outbox, 0).is_ok()
}

/// The same call, whose request was sent.
fn sent_call(alloc: Global, number: u64, outbox: &mut Outbox) -> Option<Call<Global>>
    ensures { IfSome result (λ call. call.opened.number ≡ number) }
{
    let mut call = opened(alloc, number)?;
    if !is_carried(&mut call, outbox) {
        return None;
    }
    if call.number() == number {
        Some(call)
    } else {
        None
    }
}

/// Puts that call on a shelf, and says whether it has number 0.
fn is_put<R: Wait>(
    rt: &R,
    alloc: Global,
    shelf: &Shelf<Call<Global>>,
    outbox: &mut Outbox,
) -> bool {
    let put: Result<u64, ShelfFault<u8>> = shelf.put(
        rt,
        b"one",
        |number| match sent_call(alloc, number, outbox) {
            Some(call) => Ok(call),
            None => Err(1),
        },
    );
    matches!(put, Ok(0))
}

/// A response by its Via lines, and what becomes of it.
type Responded<'a> = (&'a [u8], &'a [u8], Handled);

/// Whether the call is put there, and its request sent.
fn puts<R: Wait>(rt: &R, alloc: Global, shelf: &Shelf<Call<Global>>) -> bool {
    let mut outbox = Outbox::new(alloc);
    is_put(rt, alloc, shelf, &mut outbox)
}

/// What becomes of a response.
fn response_becomes<R: Wait>(
    rt: &R,
    alloc: Global,
    shelf: &Shelf<Call<Global>>,
    response: &Responded<'_>,
    outbox: &mut Outbox,
) -> Option<Handled> {
    let lines = [
        b"SIP/2.0 200 OK".as_slice(),
        response.0,
        response.1,
        FROM,
        b"t: <sip:bob@example.com>;tag=9",
        CALL_ID,
        b"CSeq: 1 OPTIONS",
        b"l: 0",
        b"",
    ];
    lines_become(rt, alloc, shelf, &lines, outbox)
}

/// Whether each response becomes what it is to become, and nothing is sent at once.
fn come<R: Wait>(
    rt: &R,
    alloc: Global,
    shelf: &Shelf<Call<Global>>,
    responses: &[Responded<'_>],
) -> bool {
    let mut outbox = Outbox::new(alloc);
    let mut well = true;
    for response in responses {
        let handled = response_becomes(rt, alloc, shelf, response, &mut outbox);
        well = well && handled == Some(response.2);
    }
    well && outbox.is_empty()
}

/// The same after the request was sent.
fn respond<R: Wait>(rt: &R, alloc: Global, responses: &[Responded<'_>]) -> bool {
    match shelf_of(alloc) {
        Some(shelf) => puts(rt, alloc, &shelf) && come(rt, alloc, &shelf, responses),
        None => false,
    }
}

/// The Via line that the request of the call went out with.
const OWN_VIA: &[u8] =
    b"v: SIP/2.0/UDP 192.0.2.9:5060;branch=z9hG4bK8c31e71e0ddbf1a0e56f5f0279990857.7.0.0";

#[test]
fn a_response_comes_to_the_call_that_it_names(rt: HostRuntime) {
    let responses: [Responded<'_>; 9] = [
        // another host, another port
        (
            b"v: SIP/2.0/UDP 192.0.2.8:5060;branch=z9hG4bK8c31e71e0ddbf1a0e56f5f0279990857.7.0.0",
            MARKED,
            Handled::Dropped,
        ),
        (
            b"v: SIP/2.0/UDP 192.0.2.9:5062;branch=z9hG4bK8c31e71e0ddbf1a0e56f5f0279990857.7.0.0",
            MARKED,
            Handled::Dropped,
        ),
        // another key
        (
            b"v: SIP/2.0/UDP 192.0.2.9:5060;branch=z9hG4bK8c31e71e0ddbf1a0e56f5f0279990858.7.0.0",
            MARKED,
            Handled::Dropped,
        ),
        // another run of the proxy
        (
            b"v: SIP/2.0/UDP 192.0.2.9:5060;branch=z9hG4bK8c31e71e0ddbf1a0e56f5f0279990857.8.0.0",
            MARKED,
            Handled::Dropped,
        ),
        // another call, another target
        (
            b"v: SIP/2.0/UDP 192.0.2.9:5060;branch=z9hG4bK8c31e71e0ddbf1a0e56f5f0279990857.7.1.0",
            MARKED,
            Handled::Dropped,
        ),
        (
            b"v: SIP/2.0/UDP 192.0.2.9:5060;branch=z9hG4bK8c31e71e0ddbf1a0e56f5f0279990857.7.0.1",
            MARKED,
            Handled::Dropped,
        ),
        // meant for the proxy itself
        (OWN_VIA, b"Subject: none", Handled::Dropped),
        (OWN_VIA, MARKED, Handled::Delivered(0)),
        (OWN_VIA, MARKED, Handled::Delivered(0)),
    ];
    holds(
        &rt,
        respond(&rt, rt.alloc(), &responses),
        "responses, by their top Via values",
    );
}

// ---- what was read before

/// What becomes of the request as it was read, where no call stands.
fn read_becomes<R: Wait>(rt: &R, alloc: Global) -> Option<Handled> {
    let text = request_of(alloc, &[])?;
    let setup = setup_of(alloc)?;
    let shelf = shelf_of(alloc)?;
    let received = ReceivedMessage {
        alloc,
        message: Message::read(alloc, &text).ok()?,
        source: SOURCE,
        now: 0,
    };
    let mut calls = SharedCalls::new(&shelf);
    let mut outbox = Outbox::new(alloc);
    handle_message(rt, &mut calls, &setup, &Unlimited, received, &mut outbox).ok()
}

#[test]
fn a_request_that_was_read_opens_a_call(rt: HostRuntime) {
    holds(
        &rt,
        read_becomes(&rt, rt.alloc()) == Some(Handled::Opened(0)),
        "a request that was read",
    );
}
