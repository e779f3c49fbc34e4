//! What a malformed line of a service's configuration should be.
use crate::holds::holds;
use service_config::{ServiceForm, ServiceMalformed, service_form_at};
use std::alloc::{AllocError, Global};

/// Lines that are malformed, the last of which no line feed ends.
const TEXT: &[u8] =
    b"own 0.0.0.0 5060\ninstance 07\ndomain\nprefer 500,401\ndepth  7\nring 0\nlarge\nrealm a\"b\nexpires 1 2\nstrangers yes\n\
trust 10.0.0.1/8\ngateway 1000\nlocation bob\r\nRing 15\n strangers\nown";

/// The numbers of its lines and of some that it has not, each with the form.
const FORMS: [(usize, ServiceForm); 18] = [
    (0, ServiceForm::Missing),
    (1, ServiceForm::Own),
    (2, ServiceForm::Instance),
    (3, ServiceForm::Domain),
    (4, ServiceForm::Prefer),
    (5, ServiceForm::Depth),
    (6, ServiceForm::Ring),
    (7, ServiceForm::Large),
    (8, ServiceForm::Realm),
    (9, ServiceForm::Expires),
    (10, ServiceForm::Strangers),
    (11, ServiceForm::Trust),
    (12, ServiceForm::Gateway),
    (13, ServiceForm::Location),
    (14, ServiceForm::Unknown),
    (15, ServiceForm::Unknown),
    (16, ServiceForm::Missing),
    (17, ServiceForm::Missing),
];

#[test]
fn each_word_has_its_form(rt: HostRuntime) {
    for (number, form) in FORMS {
        holds(
            &rt,
            service_form_at(TEXT, number) == form,
            "the form of a line",
        );
    }
}

fn words_of(alloc: Global, line: ServiceMalformed) -> Result<String, AllocError> {
    format!(in alloc; "{line}")
}

/// Whether a malformed line is told in these words.
fn is_told(alloc: Global, number: usize, words: &str) -> bool {
    match words_of(alloc, ServiceMalformed::of(TEXT, number)) {
        Ok(said) => said.as_str() == words,
        Err(_) => false,
    }
}

/// The numbers of malformed lines, and what is said of each.
const TOLD: [(usize, &str); 3] = [
    (
        6,
        "line 6: malformed\n`ring SECONDS` stands once at most, behind depth, before large: from 1 to 181, without leading zeros",
    ),
    (
        10,
        "line 10: malformed\n`strangers` stands once at most, alone on its line, behind expires, before trust",
    ),
    (
        16,
        "line 16: malformed\nthe text ends before this line or within it: each line is ended by a line feed, and own and domain have to be there",
    ),
];

#[test]
fn a_malformed_line_is_told_with_its_form(rt: HostRuntime) {
    for (number, words) in TOLD {
        holds(&rt, is_told(rt.alloc(), number, words), words);
    }
}
