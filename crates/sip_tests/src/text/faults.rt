//! Texts that are no messages by one change, each with its fault.
use crate::bytes::holds_of;
use crate::holds::holds;
use crate::messages::text_of;
use crate::text::samples::{LINES, changed};
use sip_text::{MandatoryHeader, Message, ReadFault};
use std::alloc::Global;
use std::process::Abort;

/// The name of what a text is read as.
fn outcome(alloc: Global, text: &[u8]) -> &'static str {
    match Message::read(alloc, text) {
        Ok(_) => "a message",
        Err(ReadFault::StartLine) => "StartLine",
        Err(ReadFault::HeaderLine) => "HeaderLine",
        Err(ReadFault::Missing(needed)) => missing(needed),
        Err(ReadFault::Version) => "Version",
        Err(ReadFault::Status) => "Status",
        Err(ReadFault::ShortBody(_)) => "ShortBody",
        Err(ReadFault::CSeq) => "CSeq",
        Err(ReadFault::Length) => "Length",
        Err(ReadFault::NoMemory) => "NoMemory",
    }
}

/// The name of the fault of a field that is not there.
fn missing(needed: MandatoryHeader) -> &'static str {
    match needed {
        MandatoryHeader::Via => "no Via",
        MandatoryHeader::From => "no From",
        MandatoryHeader::To => "no To",
        MandatoryHeader::CallId => "no Call-ID",
        MandatoryHeader::CSeq => "no CSeq",
    }
}

/// Whether a text is refused as one whose start line or header lines are not all there.
fn is_cut_short(alloc: Global, text: &[u8]) -> bool {
    let what = outcome(alloc, text);
    what == "StartLine" || what == "HeaderLine"
}

/// The parts of a text from its front, but for the whole, are cut short.
fn parts_are_cut_short(rt: &impl Abort, alloc: Global, text: &[u8]) {
    for n in 0..text.len() {
        holds_of(rt, is_cut_short(alloc, &text[..n]), "cut short", &text[..n]);
    }
}

#[test]
fn no_part_of_a_request_is_one(rt: HostRuntime) {
    match text_of(rt.alloc(), &LINES) {
        Some(text) => parts_are_cut_short(&rt, rt.alloc(), &text),
        None => holds(&rt, false, "there is memory for the text"),
    }
}

/// What the request with another text in the place of one line is read as.
fn outcome_with(alloc: Global, at: usize, line: &[u8]) -> &'static str {
    match changed(alloc, at, line, b"") {
        Some(text) => outcome(alloc, &text),
        None => "NoMemory",
    }
}

/// Each of these texts in the place of that line gives that fault.
fn each(rt: &impl Abort, alloc: Global, fault: &str, at: usize, lines: &[&[u8]]) {
    for line in lines {
        holds_of(rt, outcome_with(alloc, at, line) == fault, fault, line);
    }
}

#[test]
fn names_the_fault_of_near_misses(rt: HostRuntime) {
    let alloc = rt.alloc();
    each(&rt, alloc, "StartLine", 0, &START_LINES);
    each(&rt, alloc, "Version", 0, &VERSIONS);
    each(&rt, alloc, "Status", 0, &STATUSES);
    each(&rt, alloc, "HeaderLine", 1, &HEADER_LINES);
    each(&rt, alloc, "HeaderLine", 8, &LAST_LINES);
    each(&rt, alloc, "no Via", 1, &NO_VIA);
    each(&rt, alloc, "no From", 3, &NO_FROM);
    each(&rt, alloc, "no To", 4, &NO_TO);
    each(&rt, alloc, "no Call-ID", 5, &NO_CALL_ID);
    each(&rt, alloc, "no CSeq", 6, &NO_CSEQ);
    each(&rt, alloc, "CSeq", 6, &CSEQS);
    each(&rt, alloc, "Length", 7, &LENGTHS);
    each(&rt, alloc, "ShortBody", 7, &SHORT);
}

const NO_VIA: [&[u8]; 4] = [b"Vi: a", b"Via2: a", b"vv: a", b"-: a"];

const NO_FROM: [&[u8]; 3] = [b"Fro: a", b"From2: a", b"ff: a"];

const NO_TO: [&[u8]; 3] = [b"Too: a", b"To-: a", b"tt: a"];

const NO_CALL_ID: [&[u8]; 3] = [b"CallID: a", b"Call-ID2: a", b"ii: a"];

const NO_CSEQ: [&[u8]; 3] = [
    b"CSeq2: 1 OPTIONS",
    b"C: 1 OPTIONS",
    b"Subject: CSeq: 1 OPTIONS",
];

const START_LINES: [&[u8]; 20] = [
    b"",
    b"OPTIONS",
    b"OPTIONS sip:bob@example.com",
    b"OPTIONS  sip:bob@example.com SIP/2.0",
    b" OPTIONS sip:bob@example.com SIP/2.0",
    b"OPTIONS sip:bob@example.com  SIP/2.0",
    b"OPT(IONS sip:bob@example.com SIP/2.0",
    b"OPT/IONS sip:bob@example.com SIP/2.0",
    b"OPTIONS sip:bob\x7f SIP/2.0",
    b"OPTIONS sip:bob\x80 SIP/2.0",
    b"OPTIONS sip:bob\rc SIP/2.0",
    b"OPTIONS sip:bob\nc SIP/2.0",
    b"OPTIONS sip:bob@example.com HTTP/1.1",
    b"OPTIONS sip:bob@example.com 2.0",
    b"SIP/2.0",
    b"SIP/2.0 20 OK",
    b"SIP/2.0 2000 OK",
    b"SIP/2.0 200",
    b"SIP/2.0  200 OK",
    b"SIP/2.0 2x0 OK",
];

const VERSIONS: [&[u8]; 12] = [
    b"OPTIONS sip:bob@example.com SIP/1.0",
    b"OPTIONS sip:bob@example.com SIP/2.00",
    b"OPTIONS sip:bob@example.com sip/3.0",
    b"OPTIONS sip:bob@example.com SIP/2.0 ",
    b"OPTIONS sip:bob@example.com SIP/",
    b"OPT(IONS sip:bob@example.com SIP/2.1",
    b"SIP/1.0 200 OK",
    b"SIP/3.0 200 OK",
    b"SIP/2 200 OK",
    b"sip/2.1 200 OK",
    b"SIP/ 200 OK",
    b"SIP/2.0x",
];

const STATUSES: [&[u8]; 9] = [
    b"SIP/2.0 000 OK",
    b"SIP/2.0 001 OK",
    b"SIP/2.0 010 OK",
    b"SIP/2.0 099 OK",
    b"SIP/2.0 700 OK",
    b"SIP/2.0 701 OK",
    b"SIP/2.0 800 ",
    b"sip/2.0 999 OK",
    b"SIP/2.0\t700\tOK",
];

const HEADER_LINES: [&[u8]; 13] = [
    b" v: a",
    b"\tv: a",
    b"v SIP/2.0",
    b": a",
    b" : a",
    b"v; a",
    b"v x: a",
    b"v: a\rb",
    b"v: a\nb",
    b"v\r: a",
    b"(v): a",
    b"v/: a",
    b"\x80: a",
];

const LAST_LINES: [&[u8]; 5] = [b"x", b" ", b"Subject: x", b"\r", b"a:\n"];

const CSEQS: [&[u8]; 15] = [
    b"CSeq: 1",
    b"CSeq: OPTIONS",
    b"CSeq: 1OPTIONS",
    b"CSeq: x OPTIONS",
    b"CSeq: -1 OPTIONS",
    b"CSeq: +1 OPTIONS",
    b"CSeq: 2147483648 OPTIONS",
    b"CSeq: 99999999999999999999999 OPTIONS",
    b"CSeq: 1 INVITE",
    b"CSeq: 1 options",
    b"CSeq: 1 OPTIONS x",
    b"CSeq: 1 OPT/IONS",
    b"CSeq:",
    b"CSeq: 1, OPTIONS",
    b"CSeq: 1 INVITE\r\nCSeq: 1 OPTIONS",
];

const LENGTHS: [&[u8]; 13] = [
    b"l: x",
    b"l:",
    b"l: -1",
    b"l: +1",
    b"l: 1234567890",
    b"l: 0000000000",
    b"l: 0 0",
    b"l: 0x0",
    b"l: 0\r\nl: 1",
    b"l: 0\r\nContent-Length: a",
    b"l: 0,0",
    b"l: 0;a",
    b"l: 0\r\n 1",
];

const SHORT: [&[u8]; 11] = [
    b"l: 1",
    b"Content-Length: 1",
    b"l: 2",
    b"l: 999999999",
    b"l: 000000001",
    b"CONTENT-LENGTH: 3",
    b"L: 1",
    b"l : 1",
    b"l:\t1",
    b"l: 1\r\nl: 01",
    b"l:\r\n 10",
];
