//! Texts that are appended while memory is refused.
use crate::answers::discard;
use crate::hops::has_hops;
use crate::made_texts::{
    BAD_REQUEST, BRANCH_TEXT, FORWARDED, FORWARDED_ACK, FORWARDED_CANCEL, OWN_ROUTE, REQUEST_KEY,
    REQUEST_URI, TARGET_KEY, UPWARD,
};
use crate::plays::plays;
use crate::sources::{Alloc, BRANCH, MOVED, OWN, REQUEST, read, target};
use failing_allocator::{Attempt, Heap, Play, Repeated};
use sip_branch::write_branch;
use sip_build::{
    OwnStatus, write_forwarded, write_forwarded_ack, write_forwarded_cancel,
    write_forwarded_response, write_own_response, write_own_route,
};
use sip_route::append_request_key;
use sip_text::{Message, StartLine};
use sip_uri::SipUri;

/// What is appended.
#[derive(Clone, Copy)]
enum Written {
    RequestUri,
    TargetKey,
    Branch,
    RequestKey,
    Message,
    Generated,
    Upward,
    Forwarded,
    ForwardedAck,
    ForwardedCancel,
    OwnRoute,
}

/// What is appended, and its text.
#[derive(Clone, Copy)]
struct Case {
    what: Written,
    text: &'static [u8],
}

/// Appends what goes to a target; whether it was appended.
fn forwards<'a>(
    request: &Message<Alloc<'a>>,
    response: &Message<Alloc<'a>>,
    target: &SipUri<Alloc<'a>>,
    what: Written,
    out: &mut Vec<u8, Alloc<'a>>,
) -> bool {
    if !has_hops(request) {
        return false;
    }
    match request.start() {
        StartLine::Request { .. } => match what {
            Written::Forwarded => write_forwarded(request, target, OWN, &BRANCH, None, out).is_ok(),
            Written::ForwardedAck => {
                write_forwarded_ack(request, target, OWN, &BRANCH, response, out).is_ok()
            }
            _ => write_forwarded_cancel(request, target, OWN, &BRANCH, &[], out).is_ok(),
        },
        StartLine::Response { .. } => false,
    }
}

/// Appends a URI, a key or a branch; whether it was appended.
fn spells<'a>(target: &SipUri<Alloc<'a>>, what: Written, out: &mut Vec<u8, Alloc<'a>>) -> bool {
    match what {
        Written::RequestUri => target.request_uri(out).is_ok(),
        Written::TargetKey => target.target_key(out).is_ok(),
        _ => write_branch(&BRANCH, out).is_ok(),
    }
}

/// Appends it; whether it was appended.
fn appends<'a>(
    request: &Message<Alloc<'a>>,
    response: &Message<Alloc<'a>>,
    target: &SipUri<Alloc<'a>>,
    what: Written,
    out: &mut Vec<u8, Alloc<'a>>,
) -> bool {
    match what {
        Written::RequestUri | Written::TargetKey | Written::Branch => spells(target, what, out),
        Written::RequestKey => append_request_key(out, request).is_ok(),
        Written::Message => response.write(out).is_ok(),
        Written::Generated => write_own_response(request, OwnStatus::BadRequest, &[], out).is_ok(),
        Written::Upward => write_forwarded_response(response, None, &[], out).is_ok(),
        Written::OwnRoute => write_own_route(OWN, out).is_ok(),
        _ => forwards(request, response, target, what, out),
    }
}

/// Whether this text was appended to one of this length that holds the same, or nothing.
fn is_appended(out: &[u8], before: usize, text: &[u8]) -> bool {
    out.len() == before.saturating_add(text.len()) && out.starts_with(text) && out.ends_with(text)
}

/// What the call comes to; where it was refused, the text has to be as long as before.
fn done(appended: bool, out: &[u8], before: usize, text: &[u8]) -> Attempt {
    if appended {
        Attempt::of(is_appended(out, before, text))
    } else {
        Attempt::failed(out.len() == before)
    }
}

/// What something is appended of, and to.
#[derive(Drop)]
struct Appending<'a> {
    request: Result<Message<Alloc<'a>>, Attempt>,
    response: Result<Message<Alloc<'a>>, Attempt>,
    target: Result<SipUri<Alloc<'a>>, Attempt>,
    case: Case,
    out: Vec<u8, Alloc<'a>>,
}

impl Repeated for Appending<'_> {
    fn attempt(&mut self) -> Attempt {
        let Case { what, text } = self.case;
        let before = self.out.len();
        match (&self.request, &self.response, &self.target) {
            (Ok(request), Ok(response), Ok(target)) => {
                let appended = appends(request, response, target, what, &mut self.out);
                done(appended, &self.out, before, text)
            }
            _ => Attempt::Wrong,
        }
    }
}

/// Whether it is appended twice, and rightly.
fn goes_twice(heap: Heap<'_>, appending: &mut Appending<'_>) -> bool {
    heap.insist(appending) && heap.insist(appending)
}

impl Play for Case {
    fn play(&self, heap: Heap<'_>) -> bool {
        let mut appending = Appending {
            request: read(heap.ample, REQUEST),
            response: read(heap.ample, MOVED),
            target: target(heap.ample),
            case: *self,
            out: Vec::new(heap.scarce),
        };
        let well = goes_twice(heap, &mut appending);
        discard(appending);
        well
    }
}

/// What is appended, its text, and the call's name.
type Row = (Written, &'static [u8], &'static str);

const ROWS: &[Row] = &[
    (Written::RequestUri, REQUEST_URI, "request_uri"),
    (Written::TargetKey, TARGET_KEY, "target_key"),
    (Written::Branch, BRANCH_TEXT, "write_branch"),
    (Written::RequestKey, REQUEST_KEY, "append_request_key"),
    (Written::Message, MOVED, "write"),
    (Written::Generated, BAD_REQUEST, "write_generated"),
    (Written::Upward, UPWARD, "write_upward"),
    (Written::Forwarded, FORWARDED, "write_forwarded"),
    (Written::ForwardedAck, FORWARDED_ACK, "write_forwarded_ack"),
    (
        Written::ForwardedCancel,
        FORWARDED_CANCEL,
        "write_forwarded_cancel",
    ),
    (Written::OwnRoute, OWN_ROUTE, "write_own_route"),
];

#[test]
fn texts_are_appended(rt: HostRuntime) {
    for &(what, text, name) in ROWS {
        plays(&rt, &Case { what, text }, 0, name);
    }
}
