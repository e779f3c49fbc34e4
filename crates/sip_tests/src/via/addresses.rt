//! Addresses told from other texts, and the digits of a byte.
use crate::holds::holds;
use crate::rows::holds_in_row;
use sip_lex::{hex_pair, read_pair};
use sip_via::is_address;

/// Texts, and whether each is the address 192.0.2.9.
const ADDRESSES: [(&[u8], bool); 6] = [
    (b"192.0.2.9", true),
    (b"192.0.2.09", false),
    (b"192.0.2.90", false),
    (b"192.0.2", false),
    (b"192.0.2.9:5060", false),
    (b"", false),
];

#[test]
fn an_address_is_told_from_other_texts(rt: HostRuntime) {
    for (row, (text, well)) in ADDRESSES.iter().enumerate() {
        holds_in_row(
            &rt,
            is_address(text, [192, 0, 2, 9]) == *well,
            "addresses",
            row,
        );
    }
    holds(&rt, hex_pair(0xa7) == [b'a', b'7'], "two digits of a byte");
    holds(
        &rt,
        read_pair(b'a', b'7') == Some(0xa7),
        "the byte of two digits",
    );
}

/// Two characters, and the byte whose digits they are.
const PAIRS: [(u8, u8, Option<u8>); 5] = [
    (b'a', b'7', Some(0xa7)),
    (b'0', b'0', Some(0)),
    (b'f', b'f', Some(0xff)),
    (b'A', b'7', None),
    (b'a', b'g', None),
];

#[test]
fn a_byte_is_read_of_its_digits(rt: HostRuntime) {
    for (row, (upper, lower, byte)) in PAIRS.iter().enumerate() {
        let read = read_pair(*upper, *lower) == *byte;
        holds_in_row(&rt, read, "the byte of two digits", row);
    }
}
