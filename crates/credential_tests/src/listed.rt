//! Lists of users.
use crate::holds::{holds, holds_of, is};
use sip_digest::{
    Algorithms, Secrets, UserFault, UserList, append_user as append_line, is_user_name,
};
use std::alloc::{AllocError, Global};

/// A text, with comments and empty lines.
const USERS: &[u8] =
    b"# ours\n\nbob 2664cba6663a734ef3a6fefc0c0d0821 baf9ceb3dcf070665c835868f20bd230ca09393a0c44efca3690ee35eaebee0b\n#\nalice 2ea68a710b96a2d11cb42c2b3758287a -\n";

/// What a user of a text has; nothing where there is no such user, or the text is not read.
fn found(alloc: Global, text: &[u8], algorithms: Algorithms, name: &[u8]) -> Option<Secrets> {
    match UserList::read(alloc, text, algorithms) {
        Ok(users) => users.secrets(name),
        Err(_) => None,
    }
}

/// Whether these are the digits of bob.
fn are_bobs(secrets: Option<Secrets>) -> bool {
    match secrets {
        Some(
            Secrets {
                md5: Some(md5),
                sha256: Some(sha256),
            },
        ) => {
            md5.as_slice() == b"2664cba6663a734ef3a6fefc0c0d0821".as_slice()
                && sha256.as_slice()
                    == b"baf9ceb3dcf070665c835868f20bd230ca09393a0c44efca3690ee35eaebee0b".as_slice()
        }
        _ => false,
    }
}

#[test]
fn users_are_found_by_name(rt: HostRuntime) {
    let alloc = rt.alloc();
    holds(
        &rt,
        are_bobs(found(alloc, USERS, Algorithms::Md5, b"bob")),
        "bob",
    );
    holds(
        &rt,
        found(alloc, USERS, Algorithms::Md5, b"alice").is_some(),
        "alice",
    );
    for name in [b"eve".as_slice(), b"Bob", b"bo", b"", b"#", b"ours"] {
        let nobody = found(alloc, USERS, Algorithms::Md5, name);
        holds_of(&rt, nobody.is_none(), "nobody", name);
    }
}

/// Why a text is not read: the number of its line.
fn fault(alloc: Global, text: &[u8], algorithms: Algorithms) -> usize {
    match UserList::read(alloc, text, algorithms) {
        Ok(_) => 0,
        Err(UserFault::Line(number)) => number,
        Err(UserFault::NoMemory) => usize::MAX,
    }
}

/// Texts for a realm of MD5 alone, and the number of the first malformed line, or 0.
const FAULTS: [(&[u8], usize); 20] = [
    (b"", 0),
    (b"\n\n# x\n", 0),
    (b"b 2664cba6663a734ef3a6fefc0c0d0821 -\n", 0),
    (
        b"b@c 2664cba6663a734ef3a6fefc0c0d0821 -\nB@c 2664cba6663a734ef3a6fefc0c0d0821 -\n",
        0,
    ),
    (b"b 2664cba6663a734ef3a6fefc0c0d0821 -", 1),
    (b"#", 1),
    (b"\n# x", 2),
    (b"b - -\n", 1),
    (b"b 2664cba6663a734ef3a6fefc0c0d0821\n", 1),
    (b"b 2664CBA6663a734ef3a6fefc0c0d0821 -\n", 1),
    (b"b 2664cba6663a734ef3a6fefc0c0d082 -\n", 1),
    (b"b 2664cba6663a734ef3a6fefc0c0d08210 -\n", 1),
    (
        b"b 2664cba6663a734ef3a6fefc0c0d0821 2664cba6663a734ef3a6fefc0c0d0821\n",
        1,
    ),
    (b"b 2664cba6663a734ef3a6fefc0c0d0821 - \n", 1),
    (b"b  2664cba6663a734ef3a6fefc0c0d0821 -\n", 1),
    (b" b 2664cba6663a734ef3a6fefc0c0d0821 -\n", 1),
    (b"b:c 2664cba6663a734ef3a6fefc0c0d0821 -\n", 1),
    (b"b\"c 2664cba6663a734ef3a6fefc0c0d0821 -\n", 1),
    (
        b"\nb 2664cba6663a734ef3a6fefc0c0d0821 -\n#\nb 2664cba6663a734ef3a6fefc0c0d0821 -\nx\n",
        4,
    ),
    (b"b 2664cba6663a734ef3a6fefc0c0d0821 -\r\n", 1),
];

#[test]
fn the_first_malformed_line_is_named(rt: HostRuntime) {
    let alloc = rt.alloc();
    for (text, number) in FAULTS {
        let given = fault(alloc, text, Algorithms::Md5);
        holds_of(&rt, given == number, "the line", text);
    }
    let needed = fault(alloc, USERS, Algorithms::Sha256AndMd5);
    holds(&rt, needed == 5, "each algorithm has its digits");
}

/// A name of as many bytes, with digits behind it.
fn long_name(alloc: Global, length: usize) -> Result<Vec<u8, Global>, AllocError> {
    let mut text = Vec::new(alloc);
    for _ in 0..length {
        text.push(b'b')?;
    }
    text.extend_from_slice(b" 2664cba6663a734ef3a6fefc0c0d0821 -\n")?;
    Ok(text)
}

/// The line at which a name of as many bytes is refused, or 0.
fn refused_at(alloc: Global, length: usize) -> usize {
    match long_name(alloc, length) {
        Ok(text) => fault(alloc, text.as_slice(), Algorithms::Md5),
        Err(_) => usize::MAX,
    }
}

#[test]
fn a_name_has_64_bytes_at_most(rt: HostRuntime) {
    holds(&rt, refused_at(rt.alloc(), 64) == 0, "64 bytes");
    holds(&rt, refused_at(rt.alloc(), 65) == 1, "65 bytes");
}

/// Appends the line of a user whose name is a number of three digits.
fn append_user(text: &mut Vec<u8, Global>, number: u32) -> Result<(), AllocError> {
    for place in [100, 10, 1] {
        text.push(b'0' + (number / place % 10) as u8)?;
    }
    text.extend_from_slice(
        b" 2664cba6663a734ef3a6fefc0c0d0821 baf9ceb3dcf070665c835868f20bd230ca09393a0c44efca3690ee35eaebee0b\n",
    )
}

/// A text of 1,000 users, not in the order of their names.
fn many(alloc: Global) -> Result<Vec<u8, Global>, AllocError> {
    let mut text = Vec::new(alloc);
    for number in 0..1_000u32 {
        append_user(&mut text, number * 7 % 1_000)?;
    }
    Ok(text)
}

/// How many of some names are users of that text.
fn found_of_many(alloc: Global) -> usize {
    let Ok(text) = many(alloc) else {
        return 0;
    };
    let Ok(users) = UserList::read(alloc, text.as_slice(), Algorithms::Sha256) else {
        return 0;
    };
    [b"000".as_slice(), b"314", b"999", b"1000", b"bob"]
        .iter()
        .filter(|name| users.secrets(name).is_some())
        .count()
}

#[test]
fn a_thousand_users_are_read(rt: HostRuntime) {
    holds(&rt, found_of_many(rt.alloc()) == 3, "three of five");
}

/// The line of bob, whose password is `secret`.
const BOB: &[u8] =
    b"bob 2664cba6663a734ef3a6fefc0c0d0821 baf9ceb3dcf070665c835868f20bd230ca09393a0c44efca3690ee35eaebee0b\n";

/// Whether the line of a user is this, and it is read.
fn is_line(alloc: Global, wanted: &[u8]) -> bool {
    let mut out = Vec::new(alloc);
    let made = append_line(&mut out, b"bob", b"example.com", b"secret");
    made.is_ok()
        && is(out.as_slice(), wanted)
        && are_bobs(found(alloc, out.as_slice(), Algorithms::Sha256AndMd5, b"bob"))
}

#[test]
fn the_line_of_a_user_is_read(rt: HostRuntime) {
    holds(&rt, is_line(rt.alloc(), BOB), "the line");
    holds(&rt, is_user_name(b"b@c#"), "a name");
    for name in [b"".as_slice(), b"#b", b"b c", b"b:c", b"b\\c", b"b\x7f"] {
        holds_of(&rt, !is_user_name(name), "no name", name);
    }
}
