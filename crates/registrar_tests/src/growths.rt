//! REGISTER requests that are answered while memory is refused, and the bytes of their answers.
use crate::holds::holds;
use crate::passwords::{BOBS, line};
use crate::registers::{FIRST, SECOND_ONE};
use crate::requests::{joined, request};
use crate::world::{EXPIRATIONS, SECOND, domain, realm, users};
use authentication::OwnAnswer;
use bindings::UserBindings;
use failing_allocator::{Attempt as Told, Heap, Single, Stateless, refused_once};
use registrar::{Asking, RegisterOutcome, Registrar, Registration, Source, asking_of, okay};
use sip_build::own_tag;
use sip_text::Message;
use sip_uri::Hop;
use std::alloc::{AllocError, Allocator, Global};

/// The millisecond at which each request comes.
const MOMENT: u64 = 1000;

/// Where and when each request comes.
fn source() -> Source {
    Source {
        hop: Hop::over_udp([198, 51, 100, 7], 41000),
        inside: false,
        second: SECOND,
        millisecond: MOMENT,
    }
}

/// The text of an answer.
fn text_of<A: Allocator + Copy>(
    alloc: A,
    message: &Message<Global>,
    answer: &OwnAnswer<A>,
) -> Result<Vec<u8, A>, AllocError> {
    let mut text = Vec::new(alloc);
    answer.write(alloc, message, &mut text)?;
    Ok(text)
}

/// The text of the 200 by these bindings.
fn taken_text<A: Allocator + Copy>(
    alloc: A,
    message: &Message<Global>,
    bindings: &UserBindings<A>,
) -> Result<Vec<u8, A>, AllocError> {
    let answer = okay(alloc, MOMENT, SECOND, bindings)?;
    text_of(alloc, message, &answer)
}

/// The text of the answer to a request that asks for something of a user who has no binding.
fn outcome_text<A: Allocator + Copy>(
    alloc: A,
    message: &Message<Global>,
    asked: &Registration<'_, A>,
) -> Result<Vec<u8, A>, AllocError> {
    let bindings = UserBindings::new(alloc);
    match asked.outcome_of(alloc, 0, 10, &bindings) {
        Ok(RegisterOutcome::Repeated) => taken_text(alloc, message, &bindings),
        Ok(RegisterOutcome::Refused(answer)) => text_of(alloc, message, &answer),
        Ok(RegisterOutcome::Changes(changed)) => taken_text(alloc, message, &changed),
        Err(AllocError) => Err(AllocError),
    }
}

/// The text of the answer to a request.
fn answer_text<A: Allocator + Copy>(
    alloc: A,
    registrar: &Registrar<'_>,
    message: &Message<Global>,
) -> Result<Vec<u8, A>, AllocError> {
    match asking_of(alloc, registrar, source(), message) {
        Ok(Asking::Turned(answer, _)) => text_of(alloc, message, &answer),
        Ok(Asking::Registers(asked)) => outcome_text(alloc, message, &asked),
        Err(AllocError) => Err(AllocError),
    }
}

/// A request that is answered with this text.
#[derive(Drop)]
struct Answered<'r> {
    registrar: &'r Registrar<'r>,
    message: &'r Message<Global>,
    text: &'r [u8],
}

impl Stateless for Answered<'_> {
    fn answer(&self, heap: Heap<'_>) -> Told {
        match answer_text(heap.scarce, self.registrar, self.message) {
            Ok(text) => Told::of(text.as_slice() == self.text),
            Err(AllocError) => Told::failed(true),
        }
    }
}

/// Whether a request is answered with this text, or tells of each growth that was refused.
fn tells_of_growths(
    alloc: Global,
    registrar: &Registrar<'_>,
    message: &Message<Global>,
    text: &[u8],
) -> bool {
    let call = Answered {
        registrar,
        message,
        text,
    };
    refused_once(alloc, &Single { call: &call }) == Some(0)
}

/// The text of the 200 to bob's second request, with this tag.
fn taken(alloc: Global, tag: &[u8]) -> Result<Vec<u8>, AllocError> {
    joined(
        alloc,
        &[
            b"SIP/2.0 200 OK\r\nVia: SIP/2.0/UDP 10.0.0.2:5070;branch=z9hG4bK2\r\nFrom: <sip:bob@example.com>;tag=1\r\nTo: <sip:bob@example.com>;tag=",
            tag,
            b"\r\nCall-ID: r1\r\nCSeq: 2 REGISTER\r\nContact: <sip:bob@10.0.0.2:5070>;expires=600\r\nDate: Sat, 29 Nov 2025 07:06:40 GMT\r\nContent-Length: 0\r\n\r\n",
        ],
    )
}

/// Whether bob's first request is challenged, and his second one taken, whatever growth is refused.
fn is_answered(alloc: Global, registrar: &Registrar<'_>) -> bool {
    let start = b"REGISTER sip:example.com SIP/2.0\r\n";
    let Ok(password) = line(alloc, b"Authorization", &BOBS, b"REGISTER") else {
        return false;
    };
    let Some(first) = request(alloc, start, FIRST, b"") else {
        return false;
    };
    let Some(second) = request(alloc, start, SECOND_ONE, &password) else {
        return false;
    };
    let Ok(challenged) = answer_text(alloc, registrar, &first) else {
        return false;
    };
    let tag = own_tag(&second);
    let Ok(taken) = taken(alloc, &tag) else {
        return false;
    };
    tells_of_growths(alloc, registrar, &first, &challenged)
        && tells_of_growths(alloc, registrar, &second, &taken)
}

fn grows(alloc: Global) -> bool {
    let Some(users) = users(alloc) else {
        return false;
    };
    let Some(realm) = realm(&users) else {
        return false;
    };
    let registrar = Registrar {
        domain: domain(),
        realm: Some(&realm),
        expirations: EXPIRATIONS,
    };
    is_answered(alloc, &registrar)
}

#[test]
fn each_growth_is_told_of(rt: HostRuntime) {
    holds(&rt, grows(rt.alloc()), "a challenge and a 200");
}
