//! The header fields that reading looks at, found in one walk over the header lines.

ghost use Rattle.std.specs.Prelude.{◌≡◌, ◌∷◌, ◌++◌, List, ℕ, [], if◌then◌else◌, length, option_map, true, IfSome};
ghost use Rattle.std.specs.Option.{option_copied};
ghost use Rattle.std.specs.Str.{bytes_eq, str_to_ascii_lowercase};
ghost use Rattle.sip_text.specs.declared.needed.MandatoryHeader.{MandatoryHeader};
ghost use Rattle.sip_text.specs.Fields.{length_name, needed_name};
ghost use Rattle.sip_text.specs.Name.{full_name, same_name};
ghost use Rattle.sip_text.specs.Text.{HeaderText};
ghost use Rattle.sip_text.specs.inner.Found.{Finds, got, is_length, is_needed, is_same, missing_of, put_first, said_then};
ghost use Rattle.sip_text.specs.inner.Within.{AreLinesWithin, IsLineWithin};
ghost use Rattle.sip_text.specs.Seen.{header_in, headers_in};
ghost use Rattle.sip_lex.specs.Places.{part_at};

use crate::fields::{BodyLength, LENGTH_NAME};
use crate::name::full_name;
use crate::needed::MandatoryHeader;
use crate::place::LinePlaces;
use sip_lex::{PartPlace, length_number, part_at, part_within};

/// Which of the fields that reading looks at a header line is.
#[derive(Clone, Copy)]
pub enum Field {
    Needed(MandatoryHeader),
    Length,
    Other,
}

/// Whether two names are the same but for case, where no compact form is left in them.
#[inline(always)]
fn is_full_name(name: &[u8], full: &[u8]) -> bool
    ensures { result ≡ bytes_eq (str_to_ascii_lowercase full.now) (str_to_ascii_lowercase name.now) }
{
    full.len() == name.len() && full.eq_ignore_ascii_case(name)
}

/// The needed field that has that name, where it is spelled as most messages spell it.
#[tactic(auto, unfolding(crate::specs::Name::full_name))]
fn usual_field(name: &[u8]) -> Option<MandatoryHeader>
    ensures { IfSome result (λ which. bytes_eq (needed_name which) (str_to_ascii_lowercase (full_name name.now)) ≡ true) }
{
    match name {
        [b'V', b'i', b'a'] => Some(MandatoryHeader::Via),
        [b'F', b'r', b'o', b'm'] => Some(MandatoryHeader::From),
        [b'T', b'o'] => Some(MandatoryHeader::To),
        [b'C', b'S', b'e', b'q'] => Some(MandatoryHeader::CSeq),
        _ => None,
    }
}

/// Which field has that name, in any case and in long or compact form.
fn spelled_field(name: &[u8]) -> Field
    ensures needed { (which : MandatoryHeader) → is_needed which result ≡ same_name (needed_name which) name.now }
    ensures length { is_length result ≡ same_name length_name name.now }
{
    let name = full_name(name);
    if is_full_name(name, b"via") {
        Field::Needed(MandatoryHeader::Via)
    } else if is_full_name(name, b"from") {
        Field::Needed(MandatoryHeader::From)
    } else if is_full_name(name, b"to") {
        Field::Needed(MandatoryHeader::To)
    } else if is_full_name(name, b"call-id") {
        Field::Needed(MandatoryHeader::CallId)
    } else if is_full_name(name, b"cseq") {
        Field::Needed(MandatoryHeader::CSeq)
    } else if is_full_name(name, LENGTH_NAME) {
        Field::Length
    } else {
        Field::Other
    }
}

/// Which field has that name, in any case and in long or compact form. Most messages spell it in one way.
fn field_named(name: &[u8]) -> Field
    ensures needed { (which : MandatoryHeader) → is_needed which result ≡ same_name (needed_name which) name.now }
    ensures length { is_length result ≡ same_name length_name name.now }
{
    match usual_field(name) {
        Some(which) => Field::Needed(which),
        None => spelled_field(name),
    }
}

/// Where the value of the first header line of each needed field stands in a text, and what the Content-Length lines say.
#[derive(Clone, Copy)]
pub struct Found {
    via: Option<PartPlace>,
    from: Option<PartPlace>,
    to: Option<PartPlace>,
    call_id: Option<PartPlace>,
    cseq: Option<PartPlace>,
    pub length: BodyLength,
}

/// The place that was found first.
fn first(found: Option<PartPlace>, value: PartPlace) -> Option<PartPlace>
    ensures { (text : List ℕ) → option_map (part_at text) result
        ≡ put_first (option_map (part_at text) found) (part_at text value) }
{
    match found {
        None => Some(value),
        Some(_) => found,
    }
}

/// What the Content-Length lines say with one more.
fn said_then(said: BodyLength, value: &[u8]) -> BodyLength
    ensures { result ≡ said_then said value.now }
{
    match (said, length_number(value)) {
        (BodyLength::Unsaid, Some(n)) => BodyLength::Bytes(n),
        (BodyLength::Bytes(n), Some(m)) => { if n == m { said } else { BodyLength::Wrong } }
        _ => BodyLength::Wrong,
    }
}

impl Found {
    /// Nothing yet.
    fn none() -> Found
        ensures { (text : List ℕ) → Finds text [] result }
    {
        Found {
            via: None,
            from: None,
            to: None,
            call_id: None,
            cseq: None,
            length: BodyLength::Unsaid,
        }
    }

    /// Adds the place of the value of a needed field, which counts where it is the first.
    fn add_needed(self, which: MandatoryHeader, value: PartPlace) -> Found
        ensures needed { (text : List ℕ) (other : MandatoryHeader) → got text other result
            ≡ (if is_same other which then put_first (got text other self) (part_at text value) else got text other self) }
        ensures length { result.length ≡ self.length }
    {
        let mut found = self;
        match which {
            MandatoryHeader::Via => found.via = first(found.via, value),
            MandatoryHeader::From => found.from = first(found.from, value),
            MandatoryHeader::To => found.to = first(found.to, value),
            MandatoryHeader::CallId => found.call_id = first(found.call_id, value),
            MandatoryHeader::CSeq => found.cseq = first(found.cseq, value),
        }
        found
    }

    /// Adds a header line by its places in a text.
    fn add(self, text: &[u8], line: LinePlaces) -> Found
        requires { IsLineWithin (length text.now) line }
        ensures { (hs : List HeaderText) → Finds text.now hs self → Finds text.now (hs ++ header_in text.now line ∷ []) result }
    {
        match field_named(part_within(text, line.name)) {
            Field::Needed(which) => self.add_needed(which, line.value),
            Field::Length => {
                let mut found = self;
                found.length = said_then(found.length, part_within(text, line.value));
                found
            }
            Field::Other => self,
        }
    }

    /// The value of the first CSeq line in that text.
    pub fn cseq(self, text: &[u8]) -> Option<&[u8]>
        ensures { option_copied result ≡ got text.now MandatoryHeader.CSeq self }
    {
        Some(part_at(text, self.cseq?))
    }

    /// The first needed field that is missing.
    pub fn missing(&self) -> Option<MandatoryHeader>
        ensures { (text : List ℕ) → result ≡ missing_of text self.now }
    {
        if self.via.is_none() {
            return Some(MandatoryHeader::Via);
        }
        if self.from.is_none() {
            return Some(MandatoryHeader::From);
        }
        if self.to.is_none() {
            return Some(MandatoryHeader::To);
        }
        if self.call_id.is_none() {
            return Some(MandatoryHeader::CallId);
        }
        if self.cseq.is_none() {
            return Some(MandatoryHeader::CSeq);
        }
        None
    }
}

/// What reading has to know of the header lines at such places within a text.
pub fn found_in(text: &[u8], lines: &[LinePlaces]) -> Found
    requires { AreLinesWithin (length text.now) lines.now }
    ensures { Finds text.now (headers_in text.now lines.now) result }
{
    let mut found = Found::none();
    for line in lines {
        found = found.add(text, *line);
    }
    found
}
