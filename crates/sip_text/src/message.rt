//! Messages.

use crate::fault::ReadFault;
use crate::fields::{cseq_of, value_of};
use crate::header_lines::HeaderLines;
use crate::method::Method;
use crate::name::HeaderValues;
use crate::needed::MandatoryHeader;
use crate::parts::{CSeqLine, StartLine};
use crate::place::{LinePlaces, StartPlaces, start_within};
use crate::read::read_all;
use crate::write::append_message;
use sip_lex::{PartPlace, cut_at_space, part_within, tag_of, trim_start};
use std::alloc::{AllocError, Allocator};
use std::marker::Model;

/// A message that stands by RFC 3261 section 7: all that is read as one, and all whose header lines were
/// changed to such as could be. It is one text, the text that it was read from, and the places of its
/// parts in it; what was changed stands behind.
#[derive(Drop)]
pub struct Message<A: Allocator> {
    text: Vec<u8, A>,
    start: StartPlaces,
    lines: Vec<LinePlaces, A>,
    body: PartPlace,
}

impl<A: Allocator> Model for Message<A> {
    ghost use Rattle.sip_text.specs.Text.{MessageText};
    ghost use Rattle.sip_text.specs.inner.Kept.{IsKept, placed_message};

    ghost Value = { MessageText };

    ghost view = { λ m. placed_message m.text.items m.start m.lines.items m.body };

    ghost invariant = { λ m. IsKept m.text.items m.start m.lines.items m.body };
}

impl<A: Allocator> Message<A> {
    ghost use Rattle.std.specs.Prelude.{◌≡◌, ◌+◌, ◌++◌, ◌≤◌, ◌<◌, IfOk, IsOk, OnOk, OnErr, Some, length, option_map, vec_capacity, vec_len};
    ghost use Rattle.std.specs.Option.{option_copied};
    ghost use Rattle.sip_text.specs.declared.needed.MandatoryHeader.TheVariants.{CallId, From, To};
    ghost use Rattle.sip_text.specs.Change.{with_part_at, with_value_at, without_line_at};
    ghost use Rattle.sip_text.specs.Fields.{CSeqText, message_cseq, value_of};
    ghost use Rattle.sip_text.specs.Message.{IsMessage};
    ghost use Rattle.sip_text.specs.inner.Kept.{IsKept, placed_message};
    ghost use Rattle.sip_text.specs.Method.{is_invite, known_method, stands_alone};
    ghost use Rattle.sip_text.specs.Name.{values_of};
    ghost use Rattle.sip_text.specs.Seen.{view_cseq, view_start, views};
    ghost use Rattle.sip_lex.specs.Tag.{tag_in};
    ghost use Rattle.sip_text.specs.Text.{method_in, spelling, status_in};

    /// The message whose parts stand at such places of a text.
    pub(crate) fn of_places(
        text: Vec<u8, A>,
        start: StartPlaces,
        lines: Vec<LinePlaces, A>,
        body: PartPlace,
    ) -> Message<A>
        requires { IsKept text.items start lines.items body }
        ensures { result ≡ placed_message text.items start lines.items body }
    {
        Message {
            text,
            start,
            lines,
            body,
        }
    }

    /// Shows that a message is one, as those who change a header line of it are asked for the changed one.
    pub fn is_message(&self)
        ensures { IsMessage self.now }
    {
        let _body = &self.body;
    }

    /// The start line.
    pub fn start(&self) -> StartLine<'_>
        ensures { view_start result ≡ self.now.start }
    {
        start_within(&self.text, self.start)
    }

    /// The method of a request (RFC 3261 section 7.1); None for a response.
    pub fn method(&self) -> Option<&[u8]>
        ensures { option_copied result ≡ method_in self.now.start }
    {
        match self.start() {
            StartLine::Request { method, .. } => Some(method),
            StartLine::Response { .. } => None,
        }
    }

    /// The method of a request, as far as a proxy tells methods apart (RFC 3261 section 7.1); None for a response.
    pub fn known_method(&self) -> Option<Method>
        ensures { result ≡ known_method self.now.start }
    {
        match self.start() {
            StartLine::Request { method, .. } => Some(Method::named(method)),
            StartLine::Response { .. } => None,
        }
    }

    /// Whether the message is an INVITE (RFC 3261 section 13).
    pub fn is_invite(&self) -> bool
        ensures { result ≡ is_invite (known_method self.now.start) }
    {
        match self.known_method() {
            Some(Method::Invite) => true,
            Some(Method::Ack | Method::Cancel | Method::Options | Method::Other) | None => false,
        }
    }

    /// Whether the message is a request that is for itself, and not for another one, as an ACK and a CANCEL are (RFC 3261
    /// sections 9.1 and 17.1.1.3).
    pub fn stands_alone(&self) -> bool
        ensures { result ≡ stands_alone (known_method self.now.start) }
    {
        match self.known_method() {
            Some(Method::Invite | Method::Options | Method::Other) => true,
            Some(Method::Ack | Method::Cancel) | None => false,
        }
    }

    /// The status of a response (RFC 3261 section 7.2); None for a request.
    pub fn status(&self) -> Option<u16>
        ensures { result ≡ status_in self.now.start }
    {
        match self.start() {
            StartLine::Request { .. } => None,
            StartLine::Response { status, .. } => Some(status),
        }
    }

    /// The header lines, in order.
    pub fn headers(&self) -> HeaderLines<'_>
        ensures { views result ≡ self.now.headers }
    {
        HeaderLines::new(&self.text, &self.lines)
    }

    /// The values of the header lines of that name, in order, in any case and in long or compact
    /// form. A value that holds several, as between commas, is one.
    pub fn values<'a, 'n>(&'a self, name: &'n [u8]) -> HeaderValues<'a, 'n>
        ensures { result ≡ values_of name.now self.now.headers }
    {
        HeaderValues::new(name, self.headers())
    }

    /// What the first CSeq says (RFC 3261 section 20.16). In a request its method is the request's.
    pub fn cseq(&self) -> CSeqLine<'_>
        ensures { message_cseq self.now.headers ≡ Some (view_cseq result) }
    {
        let Some(value) = value_of(
            MandatoryHeader::CSeq,
            HeaderLines::new(&self.text, &self.lines),
        ) else {
            unreachable!()
        };
        let Some(cseq) = cseq_of(value) else {
            unreachable!()
        };
        cseq
    }

    /// The method that the first CSeq names (RFC 3261 section 20.16), without a look at the number before it.
    pub fn cseq_method(&self) -> &[u8]
        ensures { option_map (λ (c : CSeqText). c.method) (message_cseq self.now.headers) ≡ Some result.now }
    {
        let Some(value) = value_of(
            MandatoryHeader::CSeq,
            HeaderLines::new(&self.text, &self.lines),
        ) else {
            unreachable!()
        };
        let Some(behind) = cut_at_space(value).1 else {
            unreachable!()
        };
        trim_start(behind)
    }

    /// The first Call-ID (RFC 3261 section 20.8).
    pub fn call_id(&self) -> &[u8]
        ensures { value_of CallId self.now.headers ≡ Some result.now }
    {
        match value_of(
            MandatoryHeader::CallId,
            HeaderLines::new(&self.text, &self.lines),
        ) {
            Some(value) => value,
            None => unreachable!(),
        }
    }

    /// The tag of the first From (RFC 3261 section 20.20), if it has one.
    pub fn from_tag(&self) -> Option<&[u8]>
        ensures { option_copied result ≡ tag_in (value_of From self.now.headers) }
    {
        tag_of(value_of(MandatoryHeader::From, self.headers())?)
    }

    /// The tag of the first To (RFC 3261 section 20.39), if it has one.
    pub fn to_tag(&self) -> Option<&[u8]>
        ensures { option_copied result ≡ tag_in (value_of To self.now.headers) }
    {
        tag_of(value_of(MandatoryHeader::To, self.headers())?)
    }

    /// The body.
    pub fn body(&self) -> &[u8]
        ensures { result.now ≡ self.now.body }
    {
        part_within(&self.text, self.body)
    }

    /// Puts another value in the place of the one of a header line, whose name stays. In a request it takes no memory as
    /// long as the values that were put in since it was read are 192 bytes at most, and it was not shrunk.
    ///
    /// # Errors
    ///
    /// Only where the growth of the text is refused; the message is then unchanged.
    pub fn set_value(&mut self, place: usize, value: &[u8]) -> Result<(), AllocError>
        requires place { place < length self.old.headers }
        requires message { IsMessage (with_value_at place value.now self.old) }
        ensures ok { OnOk result (self.new ≡ with_value_at place value.now self.old) }
        ensures err { OnErr result (self.new ≡ self.old) }
    {
        let start = self.text.len();
        self.text.extend_from_slice(value)?;
        let line = &mut self.lines[place];
        line.value = PartPlace {
            start,
            len: value.len(),
        };
        Ok(())
    }

    /// Keeps so many bytes of the value of a header line from a place in it on. It takes no memory.
    pub fn keep_value_part(&mut self, place: usize, start: usize, len: usize)
        requires place { place < length self.old.headers }
        requires message { IsMessage (with_part_at place start len self.old) }
        ensures { self.new ≡ with_part_at place start len self.old }
    {
        let line = &mut self.lines[place];
        line.value = line.value.part(start, len);
    }

    /// Takes a header line away. It takes no memory.
    pub fn remove_header(&mut self, place: usize)
        requires place { place < length self.old.headers }
        requires message { IsMessage (without_line_at place self.old) }
        ensures { self.new ≡ without_line_at place self.old }
    {
        self.lines.remove(place);
    }

    /// Gives back the memory of the message in which nothing stands. That is for a message that is kept.
    pub fn shrink(&mut self)
        ensures { self.new ≡ self.old }
    {
        self.text.shrink_to_fit();
        self.lines.shrink_to_fit();
    }

    /// Appends the text that spells the message: reading it gives the message back. `out` grows once
    /// at most.
    ///
    /// # Errors
    ///
    /// Only where that growth is refused; `out` is then unchanged.
    pub fn write<B: Allocator>(&self, out: &mut Vec<u8, B>) -> Result<(), AllocError>
        ensures ok { OnOk result (out.new.items ≡ out.old.items ++ spelling self.now) }
        ensures err { OnErr result (out.new.items ≡ out.old.items) }
        ensures room { vec_len out.old + length (spelling self.now) ≤ vec_capacity out.old → IsOk result }
        ensures full { OnErr result (vec_capacity out.old < vec_len out.old + length (spelling self.now)) }
    {
        append_message(
            out,
            start_within(&self.text, self.start),
            HeaderLines::new(&self.text, &self.lines),
            part_within(&self.text, self.body),
        )
    }
}

impl<A: Allocator + Clone> Message<A> {
    ghost use Rattle.std.specs.Prelude.{IfOk, Ok};
    ghost use Rattle.sip_text.specs.Fault.{Gives};
    ghost use Rattle.sip_text.specs.Grammar.{IsText};
    ghost use Rattle.sip_text.specs.Message.{read_at};
    ghost use Rattle.sip_text.specs.Text.{MessageText};

    /// The message that a text spells (RFC 3261 sections 7 and 25.1). Empty lines before it are
    /// skipped; what follows the body that Content-Length gives is no part of it. It takes two allocations where it has
    /// at most 16 header lines and none is continued: one of the text, a request's with 192 bytes more, and one of the places of the
    /// header lines in it.
    ///
    /// # Errors
    ///
    /// The first that holds of: `StartLine`, `Version` or `Status` for the first line; `HeaderLine`;
    /// `Missing`; `CSeq`; `Length`; `ShortBody`, which carries the message without its body; and
    /// `NoMemory` wherever the allocator refuses.
    pub fn read(alloc: A, text: &[u8]) -> Result<Message<A>, ReadFault<A>>
        ensures found { IfOk result (λ m. IsText text.now m) }
        ensures only { (m : MessageText) → IsText text.now m → Gives (λ m. m) result (Ok m) }
        ensures exact { Gives (λ m. m) result (read_at text.now) }
    {
        read_all(&alloc, text)
    }
}
