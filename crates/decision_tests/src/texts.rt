//! Settings, bindings and requests.
use bindings::{Binding, ContactParts, MadeBy, UserBindings};
use service_config::ServiceSettings;
use sip_text::Message;
use sip_uri::Hop;
use std::alloc::{Allocator, Global};

/// What a service is set up with: bob has a location, and there are two gateways.
const SETTINGS: &[u8] =
    b"own 192.0.2.9 5060\ndomain example.com\nring 15\ntrust 192.0.2.128/25\ngateway 1000 sip:192.0.2.20\ngateway 500 sip:192.0.2.21:5070;x=y\nlocation bob 1000 sip:bob@192.0.2.4\n";

/// The settings.
pub fn settings_of(alloc: Global) -> Option<ServiceSettings<Global>> {
    settings_from(alloc, SETTINGS)
}

/// Those that a text spells, of a service that stays on the path of dialogs.
pub fn settings_from<A: Allocator + Copy>(alloc: A, text: &[u8]) -> Option<ServiceSettings<A>> {
    match ServiceSettings::read(alloc, text, 7, false) {
        Ok(settings) => Some(settings.for_a_service().recording()),
        Err(_) => None,
    }
}

/// A contact behind an address that translates its own, which ends at that moment.
fn binding(alloc: Global, hop: Hop, ends: u64) -> Option<Binding<Global>> {
    let contact = ContactParts {
        item: b"<sip:carol@10.0.0.2:5070>",
        uri: b"sip:carol@10.0.0.2:5070",
        key: b"carol@10.0.0.2:5070",
        q: 1_000,
        instance: None,
        reg_id: None,
        hop,
    };
    let by = MadeBy {
        call_id: b"r1",
        cseq: 1,
        key: b"k",
    };
    match Binding::kept(alloc, &contact, ends, &by) {
        Ok(binding) => Some(binding),
        Err(_) => None,
    }
}

/// The bindings of one contact at these hops, each with its end.
pub fn bindings_of(alloc: Global, ends: &[(Hop, u64)]) -> Option<UserBindings<Global>> {
    let mut bindings = UserBindings::new(alloc);
    for (hop, end) in ends {
        let binding = binding(alloc, *hop, *end)?;
        match bindings.push(binding) {
            Ok(()) => {}
            Err(_) => return None,
        }
    }
    Some(bindings)
}

/// Puts a line behind a text, and says whether there was memory for it.
fn add_line<A: Allocator>(text: &mut Vec<u8, A>, line: &[u8]) -> bool {
    text.extend_from_slice(line).is_ok() && text.extend_from_slice(b"\r\n").is_ok()
}

/// The CSeq of a request with this start line.
fn cseq_of(start: &[u8]) -> &[u8] {
    match start.first() {
        Some(b'B') => b"CSeq: 1 BYE",
        Some(b'O') => b"CSeq: 1 OPTIONS",
        Some(b'R') => b"CSeq: 1 REGISTER",
        _ => b"CSeq: 1 INVITE",
    }
}

/// The request with this start line and this To.
pub fn request_of(alloc: Global, start: &[u8], to: &[u8]) -> Option<Message<Global>> {
    request_from(alloc, start, b"f: <sip:alice@example.com>;tag=1", to)
}

/// The request with this start line, this From and this To.
pub fn request_from<'t, A: Allocator + Copy>(
    alloc: A,
    start: &'t [u8],
    from: &'t [u8],
    to: &'t [u8],
) -> Option<Message<A>> {
    let cseq = cseq_of(start);
    let lines: [&[u8]; 8] = [
        start,
        b"v: SIP/2.0/UDP 192.0.2.1:5060;branch=z9hG4bKa;rport",
        b"Max-Forwards: 70",
        from,
        to,
        b"i: c1",
        cseq,
        b"",
    ];
    message_of(alloc, &lines)
}

/// The REGISTER of bob with this CSeq and this further line.
pub fn register_of<'t, A: Allocator + Copy>(
    alloc: A,
    cseq: &'t [u8],
    line: &'t [u8],
) -> Option<Message<A>> {
    let lines: [&[u8]; 9] = [
        b"REGISTER sip:example.com SIP/2.0",
        b"v: SIP/2.0/UDP 192.0.2.1:5060;branch=z9hG4bKa;rport",
        b"Max-Forwards: 70",
        b"f: <sip:bob@example.com>;tag=1",
        b"t: <sip:bob@example.com>",
        b"i: r1",
        cseq,
        line,
        b"",
    ];
    message_of(alloc, &lines)
}

/// The message of these lines.
fn message_of<A: Allocator + Copy>(alloc: A, lines: &[&[u8]]) -> Option<Message<A>> {
    let mut text = Vec::new(alloc);
    let mut well = true;
    for line in lines {
        well = well && add_line(&mut text, line);
    }
    match Message::read(alloc, &text) {
        Ok(message) => { if well { Some(message) } else { None } }
        Err(_) => None,
    }
}
