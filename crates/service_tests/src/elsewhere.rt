//! What of a service is said elsewhere than in its configuration: its own address, and the secret that several proxies share.
use crate::holds::holds;
use service_files::{
    DaemonFault, Identity, check_files, read_secret, read_text, secret_in, text_at,
};
use sip_uri::Transport;
use sip_via::Own;
use std::alloc::Global;
use std::fs;

/// Where the proxy receives, as it is said.
const OWN: Own = Own {
    addr: [192, 0, 2, 12],
    port: 5080,
    transport: Transport::Udp,
};

/// A text, and the one that a proxy goes by.
const TEXTS: [(&str, &str); 7] = [
    ("domain example.com\n", "domain example.com\n"),
    (
        "own 192.0.2.9 5060\ndomain example.com\n",
        "#wn 192.0.2.9 5060\ndomain example.com\n",
    ),
    (
        "# own\n\n#\nown nowhere\ndomain example.com\n",
        "# own\n\n#\n#wn nowhere\ndomain example.com\n",
    ),
    (
        "domain example.com\nown 192.0.2.9 5060\n",
        "domain example.com\nown 192.0.2.9 5060\n",
    ),
    ("owner 192.0.2.9 5060\n", "owner 192.0.2.9 5060\n"),
    ("# no end", "# no end"),
    ("", ""),
];

/// Whether a proxy goes by a text so, where its address is said elsewhere.
fn goes_by(alloc: Global, text: &str, wanted: &str) -> bool {
    let Ok(text) = Vec::from_slice(alloc, text.as_bytes()) else {
        return false;
    };
    match text_at(alloc, Some(OWN), text) {
        Ok(made) => {
            let rest = made.strip_prefix(b"own 192.0.2.12 5080\n".as_slice());
            rest == Some(wanted.as_bytes())
        }
        Err(_) => false,
    }
}

#[test]
fn an_address_stands_in_place_of_that_of_a_text(rt: HostRuntime) {
    for (text, wanted) in TEXTS {
        holds(&rt, goes_by(rt.alloc(), text, wanted), text);
    }
}

/// Whether a text sets a proxy up at the address that is said.
fn is_at(alloc: Global, text: &str) -> bool {
    let Ok(text) = Vec::from_slice(alloc, text.as_bytes()) else {
        return false;
    };
    let Ok(text) = text_at(alloc, Some(OWN), text) else {
        return false;
    };
    match read_text(alloc, &text, None, 1, false) {
        Ok(configuration) => Identity::of(configuration.settings.setup()).own == OWN,
        Err(_) => false,
    }
}

#[test]
fn a_proxy_is_at_the_address_that_is_said(rt: HostRuntime) {
    for text in [
        "domain example.com\n",
        "# the office\n\nown 192.0.2.9 5060\ninstance 7\ndomain example.com\n",
    ] {
        holds(&rt, is_at(rt.alloc(), text), text);
    }
}

#[test]
fn a_line_has_the_number_of_its_file(rt: HostRuntime) {
    let fault = DaemonFault::Line(4);
    let said = fault.in_file(Some(OWN));
    holds(&rt, said == DaemonFault::Line(3), "one line stands before");
    let read = fault.in_file(None);
    holds(&rt, read == fault, "none does");
    let other = DaemonFault::TooLong.in_file(Some(OWN));
    holds(&rt, other == DaemonFault::TooLong, "no line");
}

/// A file in the folder in which the test runs.
const FILE: &str = "service_elsewhere_test_file";

/// 64 digits, and the bytes that they spell.
const DIGITS: &str = "000102030405060708090a0b0c0d0e0f101112131415161718191A1B1C1D1E1F";

const SECRET: [u8; 32] = [
    0, 1, 2, 3, 4, 5, 6, 7, 8, 9, 10, 11, 12, 13, 14, 15, 16, 17, 18, 19, 20, 21, 22, 23, 24, 25,
    26, 27, 28, 29, 30, 31,
];

#[test]
fn a_secret_is_64_digits(rt: HostRuntime) {
    let read = secret_in(DIGITS.as_bytes());
    holds(&rt, read == Some(SECRET), "64 digits");
    let few = secret_in(&DIGITS.as_bytes()[2..]);
    holds(&rt, few.is_none(), "62 digits");
    let none = secret_in(b"");
    holds(&rt, none.is_none(), "nothing");
}

/// What is read of a file with this text and these behind it.
fn read_of(rt: &HostRuntime, behind: &str) -> Result<Option<[u8; 32]>, DaemonFault> {
    let alloc = rt.alloc();
    let text = format!(in alloc; "{DIGITS}{behind}")?;
    if fs::write(rt, FILE, text.as_bytes()).is_err() {
        return Err(DaemonFault::Unreadable);
    }
    read_secret(rt, alloc, Some(FILE))
}

#[test]
fn a_secret_is_read_of_its_file(rt: HostRuntime) {
    let alloc = rt.alloc();
    let _ = fs::remove_file(&rt, FILE);
    let unnamed = read_secret(&rt, alloc, None);
    holds(&rt, unnamed == Ok(None), "no file is named");
    let missing = read_secret(&rt, alloc, Some(FILE));
    holds(&rt, missing == Err(DaemonFault::Secret), "no such file");
    let read = read_of(&rt, "");
    holds(&rt, read == Ok(Some(SECRET)), "without the end of a line");
    let read = read_of(&rt, "\n");
    holds(&rt, read == Ok(Some(SECRET)), "with the end of a line");
    let read = read_of(&rt, "\n\n");
    holds(&rt, read == Err(DaemonFault::Secret), "with two");
    let _ = fs::remove_file(&rt, FILE);
}

#[test]
fn files_are_looked_at_with_the_address_that_is_said(rt: HostRuntime) {
    let alloc = rt.alloc();
    let written = fs::write(&rt, FILE, b"domain example.com\nring 0\n").is_ok();
    holds(&rt, written, "it is written");
    let said = check_files(&rt, alloc, FILE, None, Some(OWN), false);
    holds(&rt, said == Err(DaemonFault::Line(2)), "its second line");
    let unsaid = check_files(&rt, alloc, FILE, None, None, false);
    holds(&rt, unsaid == Err(DaemonFault::Line(1)), "no own address");
    let _ = fs::remove_file(&rt, FILE);
}
