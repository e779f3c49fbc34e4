//! Cutting a text in two at its first mark.

ghost use Rattle.std.specs.Prelude.{◌≡◌, ◌<◌, ◌++◌, length, position, IfSome};
ghost use Rattle.std.specs.Option.{option_copied};
ghost use Rattle.sip_lex.specs.Bytes.{is_space};
ghost use Rattle.sip_lex.specs.Cut.{behind, cut, is, Lacks, seen_cut};

use memchr::{memchr, memchr2};

/// The place of the first `mark`.
fn byte_place(text: &[u8], mark: u8) -> Option<usize>
    ensures value { result ≡ position (is mark) text.now }
    ensures within { IfSome result (λ i. i < length text.now) }
{
    memchr(mark, text)
}

/// The place of the first space or tab.
fn place_of_space(text: &[u8]) -> Option<usize>
    ensures value { result ≡ position is_space text.now }
    ensures within { IfSome result (λ i. i < length text.now) }
{
    memchr2(b' ', b'\t', text)
}

/// The place of the first `mark`, found byte by byte.
fn near_place_of(text: &[u8], mark: u8) -> Option<usize>
    ensures value { result ≡ position (is mark) text.now }
    ensures within { IfSome result (λ i. i < length text.now) }
{
    text.iter().position(|byte| *byte == mark)
}

fn cut_by_mark(text: &[u8], mark: u8) -> (&[u8], Option<&[u8]>)
    ensures value { seen_cut result ≡ cut (is mark) text.now }
    ensures shorter { IfSome result.1 (λ after. length after.now < length text.now) }
{
    match byte_place(text, mark) {
        None => (text, None),
        Some(i) => (&text[..i], Some(&text[i + 1..])),
    }
}

fn cut_by_near_mark(text: &[u8], mark: u8) -> (&[u8], Option<&[u8]>)
    ensures value { seen_cut result ≡ cut (is mark) text.now }
    ensures shorter { IfSome result.1 (λ after. length after.now < length text.now) }
{
    match near_place_of(text, mark) {
        None => (text, None),
        Some(i) => (&text[..i], Some(&text[i + 1..])),
    }
}

/// What stands before the first `mark`, and what stands after it, if there is one.
///
/// The two parts and the mark between them are the text, and the front lacks the mark.
pub fn cut_at(text: &[u8], mark: u8) -> (&[u8], Option<&[u8]>)
    ensures value { seen_cut result ≡ cut (is mark) text.now }
    ensures whole { text.now ≡ result.0.now ++ behind mark (option_copied result.1) }
    ensures front { Lacks mark result.0.now }
    ensures shorter { IfSome result.1 (λ after. length after.now < length text.now) }
{
    cut_by_mark(text, mark)
}

/// As `cut_at`, for a mark that mostly stands near the front of a longer text: there it takes less time.
pub fn cut_near(text: &[u8], mark: u8) -> (&[u8], Option<&[u8]>)
    ensures value { seen_cut result ≡ cut (is mark) text.now }
    ensures whole { text.now ≡ result.0.now ++ behind mark (option_copied result.1) }
    ensures front { Lacks mark result.0.now }
    ensures shorter { IfSome result.1 (λ after. length after.now < length text.now) }
{
    cut_by_near_mark(text, mark)
}

/// What stands before the first space or tab, and what stands after it, if there is one.
pub fn cut_at_space(text: &[u8]) -> (&[u8], Option<&[u8]>)
    ensures value { seen_cut result ≡ cut is_space text.now }
    ensures shorter { IfSome result.1 (λ after. length after.now < length text.now) }
{
    match place_of_space(text) {
        None => (text, None),
        Some(i) => (&text[..i], Some(&text[i + 1..])),
    }
}
