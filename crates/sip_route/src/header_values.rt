//! Header lines of a message, by their names.

ghost use Rattle.std.specs.Prelude.{◌≡◌, ◌<◌, [], ◌∷◌, IfSome, IfNone, length};
ghost use Rattle.sip_text.specs.Name.{first_value};
ghost use Rattle.sip_text.specs.Seen.{view_line, views};
ghost use Rattle.sip_route.specs.Lines.{first_line, lines_among};
ghost use Rattle.sip_via.specs.ViaParts.{or_empty};

use sip_text::{HeaderLine, HeaderLines, Message};
use std::alloc::Allocator;

/// The value of the first header line of that name; empty where there is none.
pub fn first_value<'a, A: Allocator>(message: &'a Message<A>, name: &[u8]) -> &'a [u8]
    ensures { result.now ≡ or_empty (first_value name.now message.now.headers) }
{
    message.values(name).next().unwrap_or(b"")
}

/// The first of some header lines that has that name, in any case and in long or compact form, and the lines behind it;
/// `None` where none has it.
pub fn headers_around<'a>(
    headers: HeaderLines<'a>,
    name: &[u8],
) -> Option<(HeaderLine<'a>, HeaderLines<'a>)>
    ensures found { IfSome result
        (λ p. lines_among name.now (views headers.entry) ≡ view_line p.0 ∷ lines_among name.now (views p.1)) }
    ensures shorter { IfSome result (λ p. length (views p.1) < length (views headers.entry)) }
    ensures none { IfNone result (lines_among name.now (views headers.entry) ≡ []) }
{
    let mut rest = headers;
    while let Some((header, after)) = rest.split_first() {
        if header.is_named(name) {
            return Some((header, after));
        }
        rest = after;
    }
    None
}

/// The first header line of that name.
pub fn first_header<'a, A: Allocator>(
    message: &'a Message<A>,
    name: &[u8],
) -> Option<HeaderLine<'a>>
    ensures found { IfSome result (λ header. first_line name.now message.now ≡ view_line header ∷ []) }
    ensures none { IfNone result (first_line name.now message.now ≡ []) }
{
    let (header, _) = headers_around(message.headers(), name)?;
    Some(header)
}
