//! Each function of `sip_lex` on its happy path, and numbers at their limits.
use crate::bytes::{has, holds_of, is};
use crate::holds::holds;
use sip_lex::{
    Growing, Shelter, Short, are_digits, cut_at, cut_at_space, cut_near, cut_outside, cut_quoted,
    cut_token, first_line, hex_digit, hex_value, is_closed, is_space, is_token, lowered,
    read_number, read_plain_number, tag_of, trim, trim_end, trim_start,
};
use std::alloc::Global;
use std::process::Abort;

/// Texts, and whether each is a token.
const TOKENS: [(&[u8], bool); 3] = [(b"z9hG4bK-.!%*_+`'~", true), (b"", false), (b"a/b", false)];

/// Texts, and whether each is digits alone.
const DIGITS: [(&[u8], bool); 2] = [(b"0123456789", true), (b"1:", false)];

#[test]
fn knows_bytes(rt: HostRuntime) {
    holds(&rt, is_space(b'\t'), "a tab is space");
    holds(&rt, !is_space(b'\n'), "a line feed is no space");
    for (text, wanted) in TOKENS {
        holds_of(&rt, is_token(text) == wanted, "whether it is a token", text);
    }
    for (text, wanted) in DIGITS {
        holds_of(
            &rt,
            are_digits(text) == wanted,
            "whether it is digits",
            text,
        );
    }
}

/// Whether the first text in lower case is the second.
fn lowers_to(alloc: Global, text: &[u8], wanted: &[u8]) -> bool {
    match lowered(alloc, text) {
        Ok(lowered) => is(&lowered, wanted),
        Err(_) => false,
    }
}

#[test]
fn lowers_letters(rt: HostRuntime) {
    let well = lowers_to(rt.alloc(), b"Example.COM", b"example.com");
    holds(&rt, well, "letters in lower case, and nothing else");
}

/// Ends the test where these are not the two parts of the text.
fn parts_are(
    rt: &impl Abort,
    text: &[u8],
    parts: (&[u8], Option<&[u8]>),
    front: &[u8],
    after: &[u8],
) {
    holds_of(rt, is(parts.0, front), "the part before the mark", text);
    holds_of(rt, has(parts.1, after), "the part behind the mark", text);
}

#[test]
fn cuts_in_two(rt: HostRuntime) {
    let text = b"a@b@c";
    parts_are(&rt, text, cut_at(text, b'@'), b"a", b"b@c");
    parts_are(&rt, text, cut_near(text, b'@'), b"a", b"b@c");
    holds(
        &rt,
        cut_at(b"abc", b'@').1.is_none(),
        "nothing is behind a mark that is not there",
    );
    let text = b"INVITE\tsip:h SIP/2.0";
    parts_are(&rt, text, cut_at_space(text), b"INVITE", b"sip:h SIP/2.0");
    match cut_token(b"Via: x", b':') {
        Some((token, behind)) => {
            holds(
                &rt,
                is(token, b"Via") && is(behind, b" x"),
                "the token before the mark",
            );
        }
        None => holds(&rt, false, "a token stands before the mark"),
    }
}

/// The first line of a text; nothing where it has none.
fn line_of(text: &[u8]) -> Option<&[u8]> {
    Some(first_line(text)?.0)
}

/// What is behind the first line of a text; nothing where it has none.
fn behind_line(text: &[u8]) -> Option<&[u8]> {
    Some(first_line(text)?.1)
}

/// Texts without a first line: no line ends, or a bare CR or LF stands in it.
const NO_LINES: [&[u8]; 3] = [b"a\nb\r\n", b"a\rb\r\n", b"a"];

#[test]
fn takes_the_first_line(rt: HostRuntime) {
    let text = b"To: a\r\n\r\nbody";
    holds(&rt, has(line_of(text), b"To: a"), "the first line");
    holds(
        &rt,
        has(behind_line(text), b"\r\nbody"),
        "what is behind the first line",
    );
    for text in NO_LINES {
        holds_of(&rt, line_of(text).is_none(), "no first line", text);
    }
}

#[test]
fn trims(rt: HostRuntime) {
    holds(
        &rt,
        is(trim_start(b" \ta "), b"a "),
        "space at the start goes",
    );
    holds(&rt, is(trim_end(b" a\t "), b" a"), "space at the end goes");
    holds(
        &rt,
        is(trim(b"\t a b\t"), b"a b"),
        "space at both ends goes, and none inside",
    );
    holds(&rt, is(trim(b" \t"), b""), "space alone goes");
}

/// Texts, the greatest number that is taken, and what is read.
const NUMBERS: [(&[u8], u64, Option<u64>); 7] = [
    (b"05060", 65_535, Some(5_060)),
    (b"65536", 65_535, None),
    (b"", 9, None),
    (b"+1", 9, None),
    (b"18446744073709551615", u64::MAX, Some(u64::MAX)),
    (b"18446744073709551616", u64::MAX, None),
    (b"00000000000000000000000001", 1, Some(1)),
];

/// The same of numbers without a zero in front.
const PLAIN_NUMBERS: [(&[u8], u64, Option<u64>); 3] = [
    (b"0", 9, Some(0)),
    (b"10", 10, Some(10)),
    (b"01", 9, None),
];

#[test]
fn reads_numbers(rt: HostRuntime) {
    for (text, most, wanted) in NUMBERS {
        holds_of(&rt, read_number(text, most) == wanted, "the number", text);
    }
    for (text, most, wanted) in PLAIN_NUMBERS {
        holds_of(
            &rt,
            read_plain_number(text, most) == wanted,
            "the plain number",
            text,
        );
    }
}

#[test]
fn reads_hexadecimal_digits(rt: HostRuntime) {
    holds(&rt, hex_digit(9) == b'9', "the digit of 9");
    holds(&rt, hex_digit(10) == b'a', "the digit of 10");
    holds(&rt, hex_value(b'f') == Some(15), "the value of f");
    holds(
        &rt,
        hex_value(b'A').is_none(),
        "a capital letter is no digit",
    );
}

/// The text inside the quotes at the front; nothing where none are closed there.
fn quoted(text: &[u8]) -> Option<&[u8]> {
    Some(cut_quoted(text)?.0)
}

/// What is behind the quotes at the front; nothing where none are closed there.
fn behind_quotes(text: &[u8]) -> Option<&[u8]> {
    Some(cut_quoted(text)?.1)
}

#[test]
fn cuts_quoted_text(rt: HostRuntime) {
    let text = b"\"a\\\"b\";c";
    holds(
        &rt,
        has(quoted(text), b"a\\\"b"),
        "the text inside the quotes",
    );
    holds(
        &rt,
        has(behind_quotes(text), b";c"),
        "the text behind the quotes",
    );
    holds(
        &rt,
        quoted(b"\"a\\\"").is_none(),
        "an escaped quote closes nothing",
    );
}

/// A text in two at the first comma outside what shelters it.
fn cut_at_comma(text: &[u8], shelter: Shelter) -> (&[u8], Option<&[u8]>) {
    cut_outside(text, b',', shelter)
}

#[test]
fn keeps_to_quotes_and_brackets(rt: HostRuntime) {
    let text = b"\"a,b\" <c,d>,e";
    let parts = cut_at_comma(text, Shelter::QuotesAndAngles);
    parts_are(&rt, text, parts, b"\"a,b\" <c,d>", b"e");
    parts_are(
        &rt,
        text,
        cut_at_comma(text, Shelter::Quotes),
        b"\"a,b\" <c",
        b"d>,e",
    );
    let closed = is_closed(b"\"<\" <\">", Shelter::QuotesAndAngles);
    holds(
        &rt,
        closed,
        "a bracket in quotes and a quote in brackets open nothing",
    );
    let open = !is_closed(b"<a", Shelter::QuotesAndAngles);
    holds(&rt, open, "a bracket that is not closed");
    holds(
        &rt,
        is_closed(b"<a", Shelter::Quotes),
        "brackets do not count beside quotes",
    );
}

/// Values of From or To, and the tag of each, if it has one.
const TAGS: [(&[u8], Option<&[u8]>); 5] = [
    (b"<sip:bob@example.com>;tag=9", Some(b"9")),
    (b"sip:bob@example.com;tag=9", Some(b"9")),
    (
        b"\"<;tag=1>\" <sip:bob@example.com;tag=2>;x=1;tag=3",
        Some(b"3"),
    ),
    (b"<sip:bob@example.com>", None),
    (b"<sip:bob@example.com>;tag=", None),
];

#[test]
fn a_tag_stands_behind_the_address(rt: HostRuntime) {
    for (value, tag) in TAGS {
        holds_of(&rt, tag_of(value) == tag, "the tag of a value", value);
    }
}

/// Whether pieces stand one behind another in a short text, which has no room for one that is too long.
fn grows_while_there_is_room() -> bool {
    let mut short = Short::new();
    let is_empty = short.as_slice().is_empty();
    let grows = short.add(b"ab").is_ok() && short.add(b"c").is_ok();
    let is_full = short.add(&[b'x'; 254]).is_err();
    is_empty && grows && is_full && is(short.as_slice(), b"abc")
}

#[test]
fn a_short_text_grows_while_there_is_room(rt: HostRuntime) {
    holds(&rt, grows_while_there_is_room(), "three of 256 bytes");
}
