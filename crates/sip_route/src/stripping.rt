//! The first Route value taken away in place.

ghost use Rattle.std.specs.Prelude.{◌≡◌, ◌++◌, ◌∷◌, List, ℕ};
ghost use Rattle.sip_lex.specs.declared.sheltered.ShelterState.TheVariants.{Plain};
ghost use Rattle.sip_lex.specs.declared.sheltered.Shelter.TheVariants.{QuotesAndAngles};
ghost use Rattle.sip_lex.specs.Bytes.{trim};
ghost use Rattle.sip_lex.specs.Sheltered.{cut_outside};
ghost use Rattle.sip_text.specs.Seen.{views};
ghost use Rattle.sip_via.specs.Edits.{place_of};
ghost use Rattle.sip_route.specs.Routes.{route_name, stripped};
ghost use Rattle.sip_route.specs.inner.Stripping.{IsPart, Leaves, LineLeaves};

use crate::routes::{ROUTE, leads_to_proxy};
use sip_lex::{Shelter, cut_outside, trim_end, trim_start};
use sip_text::{HeaderLines, Message};
use sip_via::{Own, header_index};
use std::alloc::Allocator;

/// What is left of a Route line.
#[derive(Clone, Copy)]
enum Left {
    All,
    Nothing,
    /// So many bytes from a place on.
    Part(usize, usize),
}

/// Where the other values of a line stand in it, without the space round them.
fn part_of(line: &[u8], others: &[u8]) -> Left
    requires { (front : List ℕ) × (line.now ≡ front ++ 44 ∷ others.now) }
    ensures { IsPart (trim others.now) line.now result }
{
    let rest = trim_start(others);
    Left::Part(line.len() - rest.len(), trim_end(rest).len())
}

/// What is left of a Route line when its first value is taken away, where that names the proxy.
fn left_of(line: &[u8], own: Own) -> Left
    ensures { LineLeaves own line.now (cut_outside QuotesAndAngles 44 Plain line.now) result }
{
    let (value, others) = cut_outside(line, b',', Shelter::QuotesAndAngles);
    if !leads_to_proxy(own, value) {
        return Left::All;
    }
    match others {
        None => Left::Nothing,
        Some(others) => part_of(line, others),
    }
}

/// What is left of the first Route line, which stands at that place, if there is one.
fn first_left(headers: HeaderLines<'_>, place: usize, own: Own) -> Left
    requires { place ≡ place_of route_name (views headers) }
    ensures { Leaves own (views headers.entry) place result }
{
    match headers.get(place) {
        None => Left::All,
        Some(header) => left_of(header.value, own),
    }
}

/// The request without its first Route value, where the URI of that leads to the proxy itself (RFC 3261 section 16.4),
/// by changing the message itself. The line goes with its last value. A Route value counts only with its URI in angle
/// brackets. It takes no memory.
pub fn strip<A: Allocator>(mut message: Message<A>, own: Own) -> Message<A>
    ensures { result ≡ stripped message own }
{
    message.is_message();
    let place = header_index(message.headers(), ROUTE);
    match first_left(message.headers(), place, own) {
        Left::All => {}
        Left::Nothing => message.remove_header(place),
        Left::Part(start, len) => message.keep_value_part(place, start, len),
    }
    message
}
