//! The list of users that goes with a realm, and the line of a user.
use crate::holds::{holds, holds_of};
use service_config::{UserLineFault, UsersFault, user_line};
use std::alloc::{AllocError, Global};

fn words_of(alloc: Global, fault: UsersFault) -> Result<String, AllocError> {
    format!(in alloc; "{fault}")
}

fn has_words(alloc: Global, fault: UsersFault, words: &str) -> bool {
    match words_of(alloc, fault) {
        Ok(text) => text.as_str() == words,
        Err(_) => false,
    }
}

/// Why users cannot be had, and the words of each.
const WORDS: [(UsersFault, &str); 6] = [
    (UsersFault::Unreadable, "the users cannot be read"),
    (UsersFault::TooLong, "the users are too long"),
    (UsersFault::Line(7), "users, line 7: malformed"),
    (
        UsersFault::NoUsers,
        "the configuration has a realm, and there is no list of users",
    ),
    (
        UsersFault::NoRealm,
        "there is a list of users, and the configuration has no realm",
    ),
    (UsersFault::NoMemory, "want of memory"),
];

#[test]
fn each_fault_has_words(rt: HostRuntime) {
    for (fault, words) in WORDS {
        holds(&rt, has_words(rt.alloc(), fault, words), words);
    }
}

/// The line of bob of example.com with the password `secret`, by `printf %s bob:example.com:secret | md5sum` and `sha256sum`.
const BOB: &[u8] =
    b"bob 2664cba6663a734ef3a6fefc0c0d0821 baf9ceb3dcf070665c835868f20bd230ca09393a0c44efca3690ee35eaebee0b\n";

/// Whether this is printed of what was typed.
fn prints(alloc: Global, name: &[u8], realm: &[u8], input: &[u8], line: &[u8]) -> bool {
    match user_line(alloc, name, realm, input) {
        Ok(printed) => printed.as_slice() == line,
        Err(_) => false,
    }
}

/// What of one line is typed, each time with the same password.
const TYPED: [&[u8]; 4] = [b"secret\n", b"secret\r\n", b"secret", b"secret\nmore\n"];

#[test]
fn a_password_is_printed_as_its_hashes(rt: HostRuntime) {
    for typed in TYPED {
        holds_of(
            &rt,
            prints(rt.alloc(), b"bob", b"example.com", typed, BOB),
            "the line of",
            typed,
        );
    }
    holds(
        &rt,
        !prints(rt.alloc(), b"bob", b"example.com", b"secret\r", BOB),
        "a CR without an LF stays",
    );
}

fn fault_of(alloc: Global, name: &[u8], realm: &[u8], input: &[u8]) -> Option<UserLineFault> {
    match user_line(alloc, name, realm, input) {
        Ok(_) => None,
        Err(fault) => Some(fault),
    }
}

#[test]
fn what_makes_no_line_is_refused(rt: HostRuntime) {
    let alloc = rt.alloc();
    holds(
        &rt,
        fault_of(alloc, b"bob:", b"x", b"secret\n") == Some(UserLineFault::Name),
        "a colon in the name",
    );
    holds(
        &rt,
        fault_of(alloc, b"", b"x", b"secret\n") == Some(UserLineFault::Name),
        "no name",
    );
    holds(
        &rt,
        fault_of(alloc, b"bob", b"a b", b"secret\n") == Some(UserLineFault::Realm),
        "a space in the realm",
    );
    holds(
        &rt,
        fault_of(alloc, b"bob", b"x", b"\r\n") == Some(UserLineFault::Password),
        "no password",
    );
    holds(
        &rt,
        fault_of(alloc, b"bob", b"x", b"") == Some(UserLineFault::Password),
        "nothing typed",
    );
}
