//! Where the parts of a message stand in its text.

ghost use Rattle.std.specs.Prelude.{◌≡◌, ◌-◌, ◌^◌, length};
ghost use Rattle.sip_text.specs.inner.Kept.{IsLineWithin, IsStartWithin, line_moved, start_moved};
ghost use Rattle.sip_text.specs.Seen.{header_in, start_in, view_line, view_start};

use crate::parts::{HeaderLine, StartLine};
use sip_lex::{PartPlace, part_within};

/// Where the name and the value of a header line stand in the text of its message.
#[derive(Clone, Copy)]
pub struct LinePlaces {
    pub name: PartPlace,
    pub value: PartPlace,
}

impl LinePlaces {
    /// The places in a text of what stands at such places in a part of it that begins so many bytes behind its front.
    pub fn moved(self, by: usize) -> LinePlaces
        requires { IsLineWithin (2 ^ 64 - 1 - by) self }
        ensures { result ≡ line_moved by self }
    {
        LinePlaces {
            name: self.name.moved(by),
            value: self.value.moved(by),
        }
    }
}

/// The header line at such places within a text.
#[inline(always)]
pub fn line_within(text: &[u8], places: LinePlaces) -> HeaderLine<'_>
    requires { IsLineWithin (length text.now) places }
    ensures { header_in text.now places ≡ view_line result }
{
    HeaderLine {
        name: part_within(text, places.name),
        value: part_within(text, places.value),
    }
}

/// Where the parts of a start line stand in the text of its message.
#[derive(Clone, Copy)]
pub enum StartPlaces {
    Request { method: PartPlace, uri: PartPlace },
    Response { status: u16, reason: PartPlace },
}

impl StartPlaces {
    /// The places in a text of what stands at such places in a part of it that begins so many bytes behind its front.
    pub fn moved(self, by: usize) -> StartPlaces
        requires { IsStartWithin (2 ^ 64 - 1 - by) self }
        ensures { result ≡ start_moved by self }
    {
        match self {
            StartPlaces::Request { method, uri } => StartPlaces::Request {
                method: method.moved(by),
                uri: uri.moved(by),
            },
            StartPlaces::Response { status, reason } => StartPlaces::Response {
                status,
                reason: reason.moved(by),
            },
        }
    }
}

/// The start line at such places within a text.
#[inline(always)]
pub fn start_within(text: &[u8], places: StartPlaces) -> StartLine<'_>
    requires { IsStartWithin (length text.now) places }
    ensures { view_start result ≡ start_in text.now places }
{
    match places {
        StartPlaces::Request { method, uri } => StartLine::Request {
            method: part_within(text, method),
            uri: part_within(text, uri),
        },
        StartPlaces::Response { status, reason } => StartLine::Response {
            status,
            reason: part_within(text, reason),
        },
    }
}
