//! Header lines whose text stands in their message.

ghost use Rattle.std.specs.Prelude.{◌≡◌};
ghost use Rattle.sip_text.specs.Seen.{views};
ghost use Rattle.sip_build.specs.inner.Texts.{lines_text};

use sip_text::HeaderLines;

/// Header lines that stand in their message as they are written, and the text there that spells them.
#[derive(Clone, Copy)]
pub(crate) struct SpelledLines<'a> {
    pub lines: HeaderLines<'a>,
    pub text: &'a [u8],
    ghost spelled: { text.now ≡ lines_text (views lines) },
}
