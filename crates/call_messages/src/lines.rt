//! A request line by line, and what its answers have from it.
use std::alloc::Global;

/// The lines that its answers have from a request.
pub const FROM: &[u8] = b"f: <sip:alice@example.com>;tag=1";

pub const TO: &[u8] = b"t: <sip:bob@example.com>";

pub const CALL_ID: &[u8] = b"i: c1";

/// Its To line with the proxy's own tag.
pub const TAGGED: &[u8] = b"t: <sip:bob@example.com>;tag=fpa54465d48fc852fc";

/// Its Via line, and the same with its source.
pub const VIA: &[u8] = b"v: SIP/2.0/UDP 192.0.2.1:5060;branch=z9hG4bKa;rport";

pub const MARKED: &[u8] =
    b"v: SIP/2.0/UDP 192.0.2.1:5060;branch=z9hG4bKa;rport=40000;received=192.0.2.1";

/// A request, line by line.
pub const REQUEST: [&[u8]; 9] = [
    b"OPTIONS sip:bob@example.com SIP/2.0",
    VIA,
    b"Max-Forwards: 70",
    FROM,
    TO,
    CALL_ID,
    b"CSeq: 1 OPTIONS",
    b"l: 0",
    b"",
];

/// Puts a line behind a text, and says whether there was memory for it.
pub fn add_line(text: &mut Vec<u8>, line: &[u8]) -> bool {
    text.extend_from_slice(line).is_ok() && text.extend_from_slice(b"\r\n").is_ok()
}

/// The same of these lines.
fn add_lines(text: &mut Vec<u8>, lines: &[&[u8]]) -> bool {
    let mut well = true;
    for line in lines {
        well = well && add_line(text, line);
    }
    well
}

/// The text of these lines.
pub fn text_of(alloc: Global, lines: &[&[u8]]) -> Option<Vec<u8>> {
    let mut text = Vec::new(alloc);
    if add_lines(&mut text, lines) {
        Some(text)
    } else {
        None
    }
}
