//! Header lines by the place of the first of a name.

ghost use Rattle.std.specs.Prelude.{◌≡◌, ◌≤◌, length};
ghost use Rattle.sip_text.specs.Seen.{views};
ghost use Rattle.sip_via.specs.Edits.{begins_named, place_of};

use sip_text::HeaderLines;

/// Whether the first of some header lines has that name, in any case and in long or compact form.
pub fn first_is(headers: HeaderLines<'_>, name: &[u8]) -> bool
    ensures { result ≡ begins_named name.now (views headers.entry) }
{
    match headers.split_first() {
        None => false,
        Some((first, _)) => first.is_named(name),
    }
}

/// The place of the first header line of that name, or how many there are.
pub fn header_index(headers: HeaderLines<'_>, name: &[u8]) -> usize
    ensures value { result ≡ place_of name.now (views headers.entry) }
    ensures within { result ≤ length (views headers.entry) }
{
    for i in 0..headers.len() {
        let (_, rest) = headers.split_at(i);
        if first_is(rest, name) {
            return i;
        }
    }
    headers.len()
}
