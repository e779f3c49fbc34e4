//! Marks outside quotes and angle brackets.

ghost use Rattle.memchr.specs.Find.{is_byte3};
ghost use Rattle.std.specs.Prelude.{◌≡◌, ◌≤◌, ◌<◌, ◌++◌, length, IfSome, OnSome};
ghost use Rattle.std.specs.List.{position_or_len};
ghost use Rattle.std.specs.Option.{option_copied};
ghost use Rattle.sip_lex.specs.declared.sheltered.ShelterState.TheVariants.{Plain};
ghost use Rattle.sip_lex.specs.Cut.{behind, seen_cut};
ghost use Rattle.sip_lex.specs.Sheltered.{LacksOutside, cut_outside, end_place, is_closed, is_plain, place_after};
ghost use Rattle.sip_lex.specs.inner.Sheltered.{outside_len};

use memchr::memchr3;

/// What shelters a mark: a quoted text, in which a backslash takes the next byte with it, or also a
/// text in angle brackets, in which a quote is a byte as any other.
#[derive(Clone, Copy, Debug, PartialEq, Eq)]
pub enum Shelter {
    Quotes,
    QuotesAndAngles,
}

/// Where in a text a byte stands.
#[derive(Clone, Copy, Debug, PartialEq, Eq)]
pub enum ShelterState {
    Plain,
    Quoted,
    Escaped,
    Angled,
}

impl ShelterState {
    fn is_plain(self) -> bool
        ensures { result ≡ is_plain self }
    {
        match self {
            ShelterState::Plain => true,
            ShelterState::Quoted | ShelterState::Escaped | ShelterState::Angled => false,
        }
    }

    /// Where the byte behind this one stands.
    fn after(self, shelter: Shelter, byte: u8) -> ShelterState
        ensures { result ≡ place_after shelter self byte }
    {
        match self {
            ShelterState::Plain if byte == b'"' => ShelterState::Quoted,
            ShelterState::Plain if byte == b'<' && shelter == Shelter::QuotesAndAngles =>
                ShelterState::Angled,
            ShelterState::Quoted if byte == b'\\' => ShelterState::Escaped,
            ShelterState::Quoted if byte == b'"' => ShelterState::Plain,
            ShelterState::Escaped => ShelterState::Quoted,
            ShelterState::Angled if byte == b'>' => ShelterState::Plain,
            _ => self,
        }
    }
}

/// How many bytes stand before the first that is the mark, a quote or an opening bracket, found by a search.
fn searched_len(text: &[u8], mark: u8) -> usize
    ensures value { result ≡ position_or_len (is_byte3 mark 34 60) text.now }
    ensures within { result ≤ length text.now }
{
    memchr3(mark, b'"', b'<', text).unwrap_or(text.len())
}

/// How many bytes stand before the first that is the mark, a quote or an opening bracket: often none.
fn bare_len(text: &[u8], mark: u8) -> usize
    ensures value { result ≡ position_or_len (is_byte3 mark 34 60) text.now }
    ensures within { result ≤ length text.now }
{
    match text {
        [first, ..] if *first == mark || *first == b'"' || *first == b'<' => 0,
        _ => searched_len(text, mark),
    }
}

/// How many bytes stand before the first mark outside, found byte by byte.
fn walked_len(text: &[u8], mark: u8, shelter: Shelter) -> usize
    ensures value { result ≡ outside_len shelter mark Plain text.now }
    ensures within { result ≤ length text.now }
{
    let mut place = ShelterState::Plain;
    for (i, byte) in text.iter().enumerate() {
        if place.is_plain() && *byte == mark {
            return i;
        }
        place = place.after(shelter, *byte);
    }
    text.len()
}

/// How many bytes stand before the first mark outside. Only what a quote or bracket begins is walked.
fn outside_len(text: &[u8], mark: u8, shelter: Shelter) -> usize
    ensures value { result ≡ outside_len shelter mark Plain text.now }
    ensures within { result ≤ length text.now }
{
    let bare = bare_len(text, mark);
    bare + walked_len(&text[bare..], mark, shelter)
}

fn split_outside(text: &[u8], mark: u8, shelter: Shelter) -> (&[u8], Option<&[u8]>)
    ensures value { seen_cut result ≡ cut_outside shelter mark Plain text.now }
    ensures shorter { IfSome result.1 (λ after. length after.now < length text.now) }
{
    let (front, rest) = text.split_at(outside_len(text, mark, shelter));
    match rest {
        [] => (front, None),
        [_, after @ ..] => (front, Some(after)),
    }
}

/// What stands before the first `mark` outside the shelter, and what stands after it, if there is
/// one. The mark is tested before it opens a quote or bracket, so `<` and `"` are marks too.
pub fn cut_outside(text: &[u8], mark: u8, shelter: Shelter) -> (&[u8], Option<&[u8]>)
    ensures value { seen_cut result ≡ cut_outside shelter mark Plain text.now }
    ensures whole { text.now ≡ result.0.now ++ behind mark (option_copied result.1) }
    ensures front { LacksOutside shelter mark Plain result.0.now }
    ensures outside { OnSome result.1
        (end_place shelter Plain result.0.now ≡ Plain) }
    ensures shorter { IfSome result.1 (λ after. length after.now < length text.now) }
{
    split_outside(text, mark, shelter)
}

/// Whether each quote and bracket that opens in a text is closed in it.
pub fn is_closed(text: &[u8], shelter: Shelter) -> bool
    ensures { result ≡ is_closed shelter text.now }
{
    let mut place = ShelterState::Plain;
    for byte in text {
        place = place.after(shelter, *byte);
    }
    place.is_plain()
}
