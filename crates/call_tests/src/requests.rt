//! A setup, a request of one of its users, and the call that it opens.
ghost use Rattle.std.specs.Prelude.{◌≡◌};

use call_messages::lines::{REQUEST, text_of};
use call_model::Datagram;
use call_state::CallState;
use fork_call::{OpeningRequest, is_openable, open_to, prepare};
use proxy_config::{DialogToken, Setup};
use proxy_routing::RequestRejection;
use sip_text::Message;
use sip_uri::{Hop, Transport};
use sip_via::Own;
use std::alloc::Global;

/// Where the request came from.
pub const SOURCE: Hop = Hop {
    addr: [192, 0, 2, 1],
    port: 40_000,
    transport: Transport::Udp,
};

/// The proxy's own address.
pub const OWN: Own = Own {
    addr: [192, 0, 2, 9],
    port: 5060,
    transport: Transport::Udp,
};

/// What the proxy is set up with.
pub const SETUP: &[u8] =
    b"own 192.0.2.9 5060\ninstance 7\ndomain example.com\nlocation bob 1000 sip:bob@192.0.2.4\n";

/// Another line of the request, by its index.
pub type Change = (usize, &'static [u8]);

/// The setup that a text spells.
pub fn setup_of(alloc: Global, text: &[u8]) -> Option<Setup<Global>> {
    match Setup::read(alloc, text) {
        Ok(setup) => Some(setup),
        Err(_) => None,
    }
}

/// The message that a text spells.
pub fn read_message(alloc: Global, text: &[u8]) -> Option<Message<Global>> {
    match Message::read(alloc, text) {
        Ok(message) => Some(message),
        Err(_) => None,
    }
}

/// The message that these lines spell.
pub fn message_of(alloc: Global, lines: &[&[u8]]) -> Option<Message<Global>> {
    match text_of(alloc, lines) {
        Some(text) => read_message(alloc, &text),
        None => None,
    }
}

/// The lines of the request with these changes.
fn lines_with(changes: &[Change]) -> [&'static [u8]; 9] {
    let mut lines = REQUEST;
    for (place, other) in changes {
        if let Some(line) = lines.get_mut(*place) {
            *line = *other;
        }
    }
    lines
}

/// The request with these changes.
pub fn request_with(alloc: Global, changes: &[Change]) -> Option<Message<Global>> {
    message_of(alloc, &lines_with(changes))
}

/// A request that came from `SOURCE` at 0, all of whose memory is in this allocator.
pub fn opening_of(alloc: Global, request: Message<Global>) -> OpeningRequest<Global>
    ensures { result.request ≡ request }
{
    OpeningRequest {
        alloc,
        request,
        source: SOURCE,
        now: 0,
    }
}

/// The parts of the call that a request opens as number 3, with this token, if there is one, or the fault. None where it is no request
/// that may open a call.
pub fn opened_with(
    alloc: Global,
    setup: &Setup<Global>,
    token: Option<DialogToken>,
    request: Message<Global>,
) -> Option<Result<CallState, RequestRejection>> {
    if !is_openable(&request) {
        return None;
    }
    let prepared = match prepare(setup, opening_of(alloc, request)) {
        Ok(prepared) => prepared,
        Err(why) => return Some(Err(why.fault())),
    };
    match open_to(setup, token, prepared) {
        Ok(mut state) => {
            state.set_number(3);
            Some(Ok(state))
        }
        Err(why) => Some(Err(why.fault())),
    }
}

/// The same without a token.
pub fn opened(
    alloc: Global,
    setup: &Setup<Global>,
    request: Message<Global>,
) -> Option<Result<CallState, RequestRejection>> {
    opened_with(alloc, setup, None, request)
}

/// The same for the request with these changes.
pub fn opened_by(
    alloc: Global,
    setup: &Setup<Global>,
    changes: &[Change],
) -> Option<Result<CallState, RequestRejection>> {
    let request = request_with(alloc, changes)?;
    opened(alloc, setup, request)
}

/// The datagram that the request becomes for target n, if there is one.
pub fn sent_to(state: &mut CallState, n: u16) -> Option<Datagram> {
    if n >= state.book().context().count() {
        return None;
    }
    match state.send_request(n, 0) {
        Ok(sent) => Some(sent),
        Err(_) => None,
    }
}
