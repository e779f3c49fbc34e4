//! Header lines that stand one behind another.

ghost use Rattle.std.specs.Prelude.{length};
ghost use Rattle.std.proofs.Props.{props};
ghost use Rattle.sip_text.specs.inner.Within.{AreLinesWithin};

use crate::parts::HeaderLine;
use crate::place::{LinePlaces, line_within};
use crate::written::lines_end;

/// Header lines that stand one behind another in a message, in order: all of them, or some. Their places lie within the text.
#[derive(Clone, Copy)]
pub struct HeaderLines<'a> {
    text: &'a [u8],
    places: &'a [LinePlaces],
    ghost within: { AreLinesWithin (length text.now) places.now } by { Prim.hlevel props },
}

impl<'a> HeaderLines<'a> {
    ghost use Rattle.std.specs.Prelude.{◌≡◌, ◌≤◌, ◌∷◌, [], length, take, drop, IfNone, IfSome, option_map, slice_get, IsSome, IsTrue, ◌↔◌};
    ghost use Rattle.std.specs.List.{flat_map};
    ghost use Rattle.sip_text.specs.Seen.{headers_in, view_line, views};
    ghost use Rattle.sip_text.specs.Text.{header_text};
    ghost use Rattle.sip_text.specs.Written.{StandAsWritten};
    ghost use Rattle.sip_text.specs.inner.Within.{AreLinesWithin};

    /// The header lines at such places within a text.
    #[tactic(auto, unfolding(crate::specs::Seen::views))]
    pub(crate) fn new(text: &'a [u8], places: &'a [LinePlaces]) -> HeaderLines<'a>
        requires { AreLinesWithin (length text.now) places.now }
        ensures { views result ≡ headers_in text.now places.now }
    {
        HeaderLines { text, places }
    }

    /// No header lines.
    #[tactic(auto, unfolding(crate::specs::Seen::views))]
    pub fn none() -> HeaderLines<'a>
        ensures { views result ≡ [] }
    {
        HeaderLines {
            text: b"",
            places: &[],
        }
    }

    /// How many there are.
    #[tactic(auto, unfolding(crate::specs::Seen::views))]
    pub fn len(self) -> usize
        ensures { result ≡ length (views self.entry) }
    {
        self.places.len()
    }

    /// Whether there are none.
    #[tactic(auto, unfolding(crate::specs::Seen::views))]
    pub fn is_empty(self) -> bool
        ensures { IsTrue result ↔ views self.entry ≡ [] }
    {
        self.places.is_empty()
    }

    /// The one at a place, if there are so many.
    #[tactic(auto, unfolding(crate::specs::Seen::views), using(crate::proofs::LinesWithin::get_within))]
    pub fn get(self, place: usize) -> Option<HeaderLine<'a>>
        ensures { option_map view_line result ≡ slice_get (views self.entry) place }
    {
        let places = self.places.get(place)?;
        Some(line_within(self.text, *places))
    }

    /// The first, and those behind it.
    #[tactic(auto, unfolding(crate::specs::Seen::views))]
    pub fn split_first(self) -> Option<(HeaderLine<'a>, HeaderLines<'a>)>
        ensures some { IfSome result (λ p. views self.entry ≡ view_line p.0 ∷ views p.1) }
        ensures none { IfNone result (views self.entry ≡ []) }
    {
        match self.places {
            [] => None,
            [first, rest @ ..] => Some((
                line_within(self.text, *first),
                HeaderLines {
                    text: self.text,
                    places: rest,
                },
            )),
        }
    }

    /// Those before a place, and those from it on.
    #[tactic(auto, unfolding(crate::specs::Seen::views), using(crate::proofs::LinesWithin::front_within, crate::proofs::LinesWithin::back_within))]
    pub fn split_at(self, place: usize) -> (HeaderLines<'a>, HeaderLines<'a>)
        requires { place ≤ length (views self) }
        ensures front { views result.0 ≡ take place (views self.entry) }
        ensures back { views result.1 ≡ drop place (views self.entry) }
    {
        let (front, back) = self.places.split_at(place);
        (
            HeaderLines {
                text: self.text,
                places: front,
            },
            HeaderLines {
                text: self.text,
                places: back,
            },
        )
    }

    /// The text that spells them, where it stands in that of the message: so stand those that came in the form in which they are
    /// written, and were not changed.
    #[tactic(auto, unfolding(crate::specs::Seen::views))]
    pub fn as_written(self) -> Option<&'a [u8]>
        ensures text { IfSome result (λ text. text.now ≡ flat_map header_text (views self.entry)) }
        ensures exact { IsSome result ↔ StandAsWritten self.entry }
    {
        let [first, ..] = self.places else {
            return Some(b"");
        };
        let start = first.name.start;
        let end = lines_end(self.text, start, self.places)?;
        Some(&self.text[start..end])
    }
}

impl<'a> Iterator for HeaderLines<'a> {
    ghost use Rattle.std.specs.Iterator.{YieldsFirstBy, item_count};
    ghost use Rattle.sip_text.specs.Seen.{view_line, views};

    type Item = HeaderLine<'a>;

    ghost next_gives = { YieldsFirstBy view_line views };

    ghost remaining = { item_count views };

    fn next(&mut self) -> Option<HeaderLine<'a>> {
        let (line, rest) = self.split_first()?;
        *self = rest;
        Some(line)
    }

    fn size_hint(&self) -> (usize, Option<usize>) {
        (0, None)
    }
}
