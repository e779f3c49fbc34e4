//! Lines that end in CRLF.

ghost use Rattle.std.specs.Prelude.{◌≡◌, ◌<◌, ◌++◌, ℕ, List, length, position, IfSome, IfNone};
ghost use Rattle.sip_lex.specs.Line.{IsLine, ended, line_at, seen_line, skip_line_ends};
ghost use Rattle.sip_lex.specs.Places.{IsEnd};
ghost use Rattle.sip_lex.specs.inner.LineEnds.{before_end, is_end};

use memchr::memchr2;

/// The place of the first CR or LF.
fn place_of_end(text: &[u8]) -> Option<usize>
    ensures value { result ≡ position is_end text.now }
    ensures within { IfSome result (λ i. i < length text.now) }
{
    memchr2(b'\r', b'\n', text)
}

/// The line before this end of a text, where that begins with a CRLF, and what stands behind the CRLF.
fn before_end<'a>(line: &'a [u8], end: &'a [u8]) -> Option<(&'a [u8], &'a [u8])>
    ensures value { seen_line result ≡ before_end line.now end.now }
    ensures shorter { IfSome result (λ p. length p.1.now < length end.now) }
{
    match end {
        [b'\r', b'\n', after @ ..] => Some((line, after)),
        _ => None,
    }
}

#[tactic(auto, using(crate::proofs::laws::LineEnds::by_end))]
fn line_at(text: &[u8]) -> Option<(&[u8], &[u8])>
    ensures value { seen_line result ≡ line_at text.now }
    ensures shorter { IfSome result (λ p. length p.1.now < length text.now) }
{
    let (line, end) = text.split_at(place_of_end(text)?);
    before_end(line, end)
}

/// The line at the front without its CRLF, and what stands behind it.
///
/// The first LF ends the line, and the only CR before it stands right there. `None` where the text
/// begins with no such line (RFC 3261 section 7).
pub fn first_line(text: &[u8]) -> Option<(&[u8], &[u8])>
    ensures value { seen_line result ≡ line_at text.now }
    ensures found { IfSome result
        (λ p. IsLine p.0.now × (text.now ≡ ended p.0.now ++ p.1.now)) }
    ensures none { IfNone result
        ((line rest : List ℕ) → IsLine line → text.now ≡ ended line ++ rest → ⊥) }
    ensures shorter { IfSome result (λ p. length p.1.now < length text.now) }
{
    line_at(text)
}

/// A text without the pairs of CR and LF at its front.
pub fn skip_line_ends(text: &[u8]) -> &[u8]
    ensures value { result.now ≡ skip_line_ends text.now }
    ensures end { IsEnd text.now result.now }
{
    let mut rest = text;
    while let [b'\r', b'\n', more @ ..] = rest {
        rest = more;
    }
    rest
}
