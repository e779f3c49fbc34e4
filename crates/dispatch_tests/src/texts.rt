//! A setup, a request and its parts, as texts.
use crate::outbox::Outbox;
use call_messages::lines::{REQUEST, add_line, text_of};
use call_table::Shelf;
use fork_call::{Call, Setup};
use proxy_dispatch::{Handled, Received, SharedCalls, Unlimited, handle};
use sip_uri::{Hop, Transport};
use std::alloc::Global;
use std::sync::Wait;

/// Where the datagrams come from.
pub const SOURCE: Hop = Hop {
    addr: [192, 0, 2, 1],
    port: 40_000,
    transport: Transport::Udp,
};

/// What the proxy is set up with.
const SETUP: &[u8] =
    b"own 192.0.2.9 5060\ninstance 7\ndomain example.com\nlocation bob 1000 sip:bob@192.0.2.4\n";

/// A line in the place of one of the request's.
pub type Edit<'a> = (usize, &'a [u8]);

/// The setup.
pub fn setup_of(alloc: Global) -> Option<Setup<Global>> {
    match Setup::read(alloc, SETUP) {
        Ok(setup) => Some(setup),
        Err(_) => None,
    }
}

/// The line of the last edit of that place, or the request's own.
fn line_at<'a>(place: usize, own: &'a [u8], edits: &[Edit<'a>]) -> &'a [u8] {
    let mut line = own;
    for edit in edits {
        if edit.0 == place {
            line = edit.1;
        }
    }
    line
}

/// Puts the lines of the request with these edits behind a text, and says whether there was memory for them.
fn add_request(text: &mut Vec<u8>, edits: &[Edit<'_>]) -> bool {
    let mut well = true;
    for (place, own) in REQUEST.iter().enumerate() {
        well = well && add_line(text, line_at(place, own, edits));
    }
    well
}

/// The request with these edits.
pub fn request_of(alloc: Global, edits: &[Edit<'_>]) -> Option<Vec<u8>> {
    let mut text = Vec::new(alloc);
    if add_request(&mut text, edits) {
        Some(text)
    } else {
        None
    }
}

/// A shelf without a call.
pub fn shelf_of(alloc: Global) -> Option<Shelf<Call<Global>>> {
    match Shelf::new(alloc) {
        Ok(shelf) => Some(shelf),
        Err(_) => None,
    }
}

/// What becomes of a text by a setup.
pub fn text_becomes<R: Wait>(
    rt: &R,
    alloc: Global,
    shelf: &Shelf<Call<Global>>,
    setup: &Setup<Global>,
    text: &[u8],
    outbox: &mut Outbox,
) -> Option<Handled> {
    let received = Received {
        bytes: text,
        source: SOURCE,
        now: 0,
    };
    match handle(
        rt,
        alloc,
        &mut SharedCalls::new(shelf),
        setup,
        &Unlimited,
        received,
        outbox,
    ) {
        Ok(handled) => Some(handled),
        Err(_) => None,
    }
}

/// The same by the setup.
fn becomes_here<R: Wait>(
    rt: &R,
    alloc: Global,
    shelf: &Shelf<Call<Global>>,
    text: &[u8],
    outbox: &mut Outbox,
) -> Option<Handled> {
    let setup = setup_of(alloc)?;
    text_becomes(rt, alloc, shelf, &setup, text, outbox)
}

/// What becomes of the request with these edits.
pub fn becomes<R: Wait>(
    rt: &R,
    alloc: Global,
    shelf: &Shelf<Call<Global>>,
    edits: &[Edit<'_>],
    outbox: &mut Outbox,
) -> Option<Handled> {
    let text = request_of(alloc, edits)?;
    becomes_here(rt, alloc, shelf, &text, outbox)
}

/// What becomes of the text of these lines.
pub fn lines_become<R: Wait>(
    rt: &R,
    alloc: Global,
    shelf: &Shelf<Call<Global>>,
    lines: &[&[u8]],
    outbox: &mut Outbox,
) -> Option<Handled> {
    let text = text_of(alloc, lines)?;
    becomes_here(rt, alloc, shelf, &text, outbox)
}

/// What becomes of the request with these edits where no call stands.
pub fn becomes_alone<R: Wait>(
    rt: &R,
    alloc: Global,
    edits: &[Edit<'_>],
    outbox: &mut Outbox,
) -> Option<Handled> {
    let shelf = shelf_of(alloc)?;
    becomes(rt, alloc, &shelf, edits, outbox)
}

/// What becomes of the text of these lines there.
pub fn lines_become_alone<R: Wait>(
    rt: &R,
    alloc: Global,
    lines: &[&[u8]],
    outbox: &mut Outbox,
) -> Option<Handled> {
    let shelf = shelf_of(alloc)?;
    lines_become(rt, alloc, &shelf, lines, outbox)
}
