//! Reading a message.

ghost use Rattle.std.specs.Prelude.{◌≡◌, ◌≤◌, ◌∷◌, [], IfOk, length, map};
ghost use Rattle.sip_text.specs.Fault.{Gives};
ghost use Rattle.sip_text.specs.Fields.{said_length};
ghost use Rattle.sip_text.specs.Message.{IsHead, body_at, head_of, read_at, zeroed};
ghost use Rattle.sip_text.specs.inner.Kept.{AreLinesWithin, IsLineWithin, IsStartWithin};
ghost use Rattle.sip_lex.specs.Places.{IsWithin, part_at};
ghost use Rattle.sip_text.specs.Seen.{header_in, headers_in, start_in};

use crate::fault::ReadFault;
use crate::fields::{BodyLength, LENGTH_NAME, cseq_fits};
use crate::found::found_in;
use crate::head::headers_of;
use crate::message::Message;
use crate::name::same_name;
use crate::place::{LinePlaces, StartPlaces, start_within};
use crate::start::start_of;
use sip_lex::{PartPlace, copy_with_room, first_line, part_within, place_at_end, skip_line_ends};
use std::alloc::{AllocError, Allocator};

/// A header line whose value is the one at a place, which is `0`, where it is a Content-Length.
fn zeroed(text: &[u8], line: LinePlaces, zero: PartPlace) -> LinePlaces
    requires zero { part_at text.now zero ≡ 48 ∷ [] }
    requires zero_within { IsWithin (length text.now) zero }
    requires within { IsLineWithin (length text.now) line }
    ensures value { header_in text.now result ≡ zeroed (header_in text.now line) }
    ensures still { IsLineWithin (length text.now) result }
{
    if same_name(LENGTH_NAME, part_within(text, line.name)) {
        LinePlaces {
            name: line.name,
            value: zero,
        }
    } else {
        line
    }
}

/// Sets the value of each Content-Length to the one at a place, which is `0`.
fn zero_all(text: &[u8], lines: &mut [LinePlaces], zero: PartPlace)
    requires zero { part_at text.now zero ≡ 48 ∷ [] }
    requires zero_within { IsWithin (length text.now) zero }
    requires within { AreLinesWithin (length text.now) lines.old }
    ensures value { headers_in text.now lines.new ≡ map zeroed (headers_in text.now lines.old) }
    ensures still { AreLinesWithin (length text.now) lines.new }
{
    for line in lines.iter_mut() {
        *line = zeroed(text, *line, zero);
    }
}

/// The message with an empty body, as a fault carries it.
fn without_body<A: Allocator>(
    mut text: Vec<u8, A>,
    start: StartPlaces,
    mut lines: Vec<LinePlaces, A>,
) -> Result<Message<A>, AllocError>
    requires start { IsStartWithin (length text.items) start }
    requires lines { AreLinesWithin (length text.items) lines.items }
    requires head { IsHead (start_in text.items start) (headers_in text.items lines.items) }
    ensures { IfOk result (λ m. m ≡ head_of (start_in text.items start) (headers_in text.items lines.items)) }
{
    let zero = PartPlace {
        start: text.len(),
        len: 1,
    };
    text.extend_from_slice(b"0")?;
    zero_all(&text, &mut lines, zero);
    let body = PartPlace { start: 0, len: 0 };
    Ok(Message::of_places(text, start, lines, body))
}

/// The message with the first `n` bytes of what stands behind its header lines as its body.
#[tactic(auto, unfolding(crate::specs::Message::body_at))]
fn said_body<A: Allocator>(
    text: Vec<u8, A>,
    start: StartPlaces,
    lines: Vec<LinePlaces, A>,
    rest: PartPlace,
    n: usize,
) -> Result<Message<A>, ReadFault<A>>
    requires start { IsStartWithin (length text.items) start }
    requires lines { AreLinesWithin (length text.items) lines.items }
    requires rest { IsWithin (length text.items) rest }
    requires head { IsHead (start_in text.items start) (headers_in text.items lines.items) }
    requires said { said_length (headers_in text.items lines.items) ≡ BodyLength.Bytes n }
    ensures { Gives (λ m. m) result
        (body_at (start_in text.items start) (headers_in text.items lines.items) (part_at text.items rest) (BodyLength.Bytes n)) }
{
    if rest.len < n {
        return Err(ReadFault::ShortBody(without_body(text, start, lines)?));
    }
    let body = PartPlace {
        start: rest.start,
        len: n,
    };
    Ok(Message::of_places(text, start, lines, body))
}

/// The message with its body, of what stands behind its header lines.
#[tactic(auto, unfolding(crate::specs::Message::body_at))]
fn body_of<A: Allocator>(
    text: Vec<u8, A>,
    start: StartPlaces,
    lines: Vec<LinePlaces, A>,
    rest: PartPlace,
    said: BodyLength,
) -> Result<Message<A>, ReadFault<A>>
    requires start { IsStartWithin (length text.items) start }
    requires lines { AreLinesWithin (length text.items) lines.items }
    requires rest { IsWithin (length text.items) rest }
    requires head { IsHead (start_in text.items start) (headers_in text.items lines.items) }
    requires said { said_length (headers_in text.items lines.items) ≡ said }
    ensures { Gives (λ m. m) result
        (body_at (start_in text.items start) (headers_in text.items lines.items) (part_at text.items rest) said) }
{
    match said {
        BodyLength::Wrong => Err(ReadFault::Length),
        BodyLength::Unsaid => Ok(Message::of_places(text, start, lines, rest)),
        BodyLength::Bytes(n) => said_body(text, start, lines, rest, n),
    }
}

/// How many bytes the text of a request has room for behind it, so that a Via line that is marked with its source is put
/// into it without memory.
const REQUEST_ROOM: usize = 192;

/// How many bytes the text of a message has room for behind it: nothing is put into a response.
fn room_of(start: StartPlaces) -> usize
    ensures { result ≤ 192 }
{
    match start {
        StartPlaces::Request { .. } => REQUEST_ROOM,
        StartPlaces::Response { .. } => 0,
    }
}

/// The message that a text is.
#[tactic(auto, unfolding(crate::specs::Message::read_at, crate::specs::Message::checked), using(crate::proofs::Joins::join_pieces))]
pub fn read_all<A: Allocator + Clone>(alloc: &A, text: &[u8]) -> Result<Message<A>, ReadFault<A>>
    ensures { Gives (λ m. m) result (read_at text.now) }
{
    let begin = skip_line_ends(text);
    let Some((line, rest)) = first_line(begin) else {
        return Err(ReadFault::StartLine);
    };
    let places = start_of::<A>(line)?;
    let start = places.moved(text.len() - begin.len());
    let mut kept = copy_with_room(alloc, text, room_of(start))?;
    let (lines, rest) = headers_of(alloc, &mut kept, text, rest)?;
    let found = found_in(&kept, &lines);
    if let Some(name) = found.missing() {
        return Err(ReadFault::Missing(name));
    }
    if !cseq_fits(start_within(&kept, start), found.cseq(&kept)) {
        return Err(ReadFault::CSeq);
    }
    let said = found.length;
    let rest = place_at_end(text, rest, rest.len());
    body_of(kept, start, lines, rest, said)
}
