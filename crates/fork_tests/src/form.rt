//! What a malformed line of a configuration should be.
use crate::holds::holds;
use proxy_config::{Form, Malformed, form_at};
use std::alloc::{AllocError, Global};

/// Lines that are malformed, but for the first, and the last of which no line feed ends.
const TEXT: &[u8] =
    b"own 192.0.2.9 5060\ninstance 07\ndomain\nprefer 500,401\ndepth  7\nlocation bob\r\nOwn 192.0.2.9 5060\n\n instance 7\nowner\nown";

/// The numbers of its lines and of some that it has not, each with the form.
const FORMS: [(usize, Form); 14] = [
    (0, Form::Missing),
    (1, Form::Own),
    (2, Form::Instance),
    (3, Form::Domain),
    (4, Form::Prefer),
    (5, Form::Depth),
    (6, Form::Location),
    (7, Form::Unknown),
    (8, Form::Unknown),
    (9, Form::Unknown),
    (10, Form::Unknown),
    (11, Form::Missing),
    (12, Form::Missing),
    (usize::MAX, Form::Missing),
];

#[test]
fn each_word_has_its_form(rt: HostRuntime) {
    for (number, form) in FORMS {
        holds(&rt, form_at(TEXT, number) == form, "the form of a line");
    }
    holds(&rt, form_at(b"", 1) == Form::Missing, "no line");
    holds(&rt, form_at(b"\n", 1) == Form::Unknown, "an empty line");
    holds(&rt, form_at(b"\n", 2) == Form::Missing, "no line behind it");
}

/// The words of each form.
const WORDS: [(Form, &str); 8] = [
    (
        Form::Own,
        "the first line, and no other, is exactly `own ADDRESS PORT`: an IPv4 address, not 0.0.0.0, and a port from 1 to 65535, without leading zeros; no carriage return stands behind them",
    ),
    (
        Form::Instance,
        "the second line, and no other, is exactly `instance NUMBER`: from 0 to 4294967295, without leading zeros",
    ),
    (
        Form::Domain,
        "the third line, and no other, is exactly `domain HOST`: a name or an IPv4 address of letters, digits, `-` and `.`, or an IPv6 address in square brackets",
    ),
    (
        Form::Prefer,
        "`prefer LIST` stands once at most, right behind domain: `-`, or at most 16 rising statuses from 400 to 499 with nothing but commas between",
    ),
    (
        Form::Depth,
        "`depth STEPS` stands once at most, right behind domain or prefer: from 0 to 256, without leading zeros",
    ),
    (
        Form::Location,
        "`location USER Q URI` stands behind all others: USER of printed ASCII; Q from 0 to 1000, without leading zeros; URI a sip URI of an IPv4 address, without headers or maddr and with no transport but udp; a user has 256 targets at most, and none twice",
    ),
    (
        Form::Unknown,
        "each line begins with own, instance, domain, prefer, depth or location, in lower case, and one space; no line is empty or a comment",
    ),
    (
        Form::Missing,
        "the text ends before this line or within it: each line is ended by a line feed, and own, instance and domain have to be there",
    ),
];

fn words_of(alloc: Global, form: Form) -> Result<String, AllocError> {
    format!(in alloc; "{form}")
}

/// Whether these are the words of a form.
fn has_words(alloc: Global, form: Form, words: &str) -> bool {
    match words_of(alloc, form) {
        Ok(text) => text.as_str() == words,
        Err(_) => false,
    }
}

#[test]
fn each_form_has_words(rt: HostRuntime) {
    for (form, words) in WORDS {
        holds(&rt, has_words(rt.alloc(), form, words), words);
    }
}

/// Configurations with a malformed line, its number, and what is said of it.
const MALFORMED: [(&[u8], usize, &str); 2] = [
    (
        b"own 0.0.0.0 5060\n",
        1,
        "line 1: malformed\nthe first line, and no other, is exactly `own ADDRESS PORT`: an IPv4 address, not 0.0.0.0, and a port from 1 to 65535, without leading zeros; no carriage return stands behind them",
    ),
    (
        b"own 127.0.0.1 47315\ninstance 7\n",
        3,
        "line 3: malformed\nthe text ends before this line or within it: each line is ended by a line feed, and own, instance and domain have to be there",
    ),
];

fn words_of_line(alloc: Global, line: Malformed) -> Result<String, AllocError> {
    format!(in alloc; "{line}")
}

/// Whether a malformed line is told in these words.
fn is_told(alloc: Global, text: &[u8], number: usize, words: &str) -> bool {
    match words_of_line(alloc, Malformed::of(text, number)) {
        Ok(said) => said.as_str() == words,
        Err(_) => false,
    }
}

#[test]
fn a_malformed_line_is_told_with_its_form(rt: HostRuntime) {
    for (text, number, words) in MALFORMED {
        holds(&rt, is_told(rt.alloc(), text, number, words), words);
    }
}
