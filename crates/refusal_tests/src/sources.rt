//! Messages and a URI that are read, for calls that are made of them.
use crate::answers::{Judge, answered, discard};
use failing_allocator::{Attempt, Heap, Refusing};
use sip_branch::BranchName;
use sip_text::{Message, ReadFault};
use sip_uri::{Hop, SipUri, Transport, UriFault};
use sip_via::Own;
use std::alloc::Global;

pub type Alloc<'a> = &'a Refusing<Global>;

/// The address of the proxy.
pub const OWN: Own = Own {
    addr: [192, 0, 2, 9],
    port: 5060,
    transport: Transport::Udp,
};

/// Where a request comes from.
pub const SOURCE: Hop = Hop {
    addr: [192, 0, 2, 1],
    port: 40_000,
    transport: Transport::Udp,
};

pub const BRANCH: BranchName = BranchName {
    key: [0; 16],
    instance: 7,
    context: 3,
    target: 0,
};

/// A request.
pub const REQUEST: &[u8] = b"OPTIONS sip:bob@example.com SIP/2.0\r\n\
v: SIP/2.0/UDP 192.0.2.1:5060;branch=z9hG4bKa;rport\r\nMax-Forwards: 70\r\n\
f: <sip:alice@example.com>;tag=1\r\nt: <sip:bob@example.com>\r\ni: c1\r\nCSeq: 1 OPTIONS\r\nl: 0\r\n\r\n";

/// The request with a Via line of more than 256 bytes.
pub const LONG: &[u8] = b"OPTIONS sip:bob@example.com SIP/2.0\r\n\
v: SIP/2.0/UDP 192.0.2.1:5060;branch=z9hG4bKa;x=\
aaaaaaaaaaaaaaaaaaaaaaaaaaaaaaaaaaaaaaaaaaaaaaaaaaaaaaaaaaaaaaaa\
aaaaaaaaaaaaaaaaaaaaaaaaaaaaaaaaaaaaaaaaaaaaaaaaaaaaaaaaaaaaaaaa\
aaaaaaaaaaaaaaaaaaaaaaaaaaaaaaaaaaaaaaaaaaaaaaaaaaaaaaaaaaaaaaaa\
aaaaaaaaaaaaaaaaaaaaaaaaaaaaaaaaaaaaaaaaaaaaaaaaaaaaaaaaaaaaaaaa\
;rport\r\nMax-Forwards: 70\r\n\
f: <sip:alice@example.com>;tag=1\r\nt: <sip:bob@example.com>\r\ni: c1\r\nCSeq: 1 OPTIONS\r\nl: 0\r\n\r\n";

/// The request with a Route of the proxy's own.
pub const ROUTED: &[u8] = b"OPTIONS sip:bob@example.com SIP/2.0\r\n\
v: SIP/2.0/UDP 192.0.2.1:5060;branch=z9hG4bKa;rport\r\nRoute: <sip:192.0.2.9;lr>\r\n\
f: <sip:alice@example.com>;tag=1\r\nt: <sip:bob@example.com>\r\ni: c1\r\nCSeq: 1 OPTIONS\r\nl: 0\r\n\r\n";

/// A response with two Via lines and a contact.
pub const MOVED: &[u8] =
    b"SIP/2.0 302 Moved Temporarily\r\nVia: SIP/2.0/UDP 192.0.2.9:5060;branch=z9hG4bK1\r\n\
v: SIP/2.0/UDP 192.0.2.1:5060;branch=z9hG4bKa\r\nm: <sip:b@192.0.2.5>\r\nf: <sip:alice@example.com>;tag=1\r\n\
t: <sip:bob@example.com>;tag=2\r\ni: c1\r\nCSeq: 1 OPTIONS\r\nl: 0\r\n\r\n";

/// A URI with each of its parts.
const URI: &[u8] = b"sip:bob@192.0.2.4:5062;transport=udp;Method=INVITE?Subject=x";

/// The message of this text, or what the call comes to that reads it.
pub fn read<'a>(alloc: Alloc<'a>, text: &[u8]) -> Result<Message<Alloc<'a>>, Attempt> {
    match Message::read(alloc, text) {
        Ok(message) => Ok(message),
        Err(fault) => {
            let is_refused = matches!(fault, ReadFault::NoMemory);
            discard(fault);
            Err(Attempt::failed(is_refused))
        }
    }
}

/// The URI of a target, or what the call comes to that reads it.
pub fn target<'a>(alloc: Alloc<'a>) -> Result<SipUri<Alloc<'a>>, Attempt> {
    answered(SipUri::read(alloc, URI), UriFault::NoMemory)
}

/// Whether this is the text of the message.
pub fn is_written_as<'a>(ample: Alloc<'a>, message: &Message<Alloc<'a>>, wanted: &[u8]) -> bool {
    let mut out = Vec::new(ample);
    message.write(&mut out).is_ok() && out.as_slice() == wanted
}

/// The text that a message is to have.
#[derive(Clone, Copy)]
pub struct Wanted {
    pub text: &'static [u8],
}

impl<'a> Judge<'a, Message<Alloc<'a>>> for Wanted {
    fn is_right(&self, heap: Heap<'a>, made: &Message<Alloc<'a>>) -> bool {
        is_written_as(heap.ample, made, self.text)
    }
}
