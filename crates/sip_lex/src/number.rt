//! Decimal numbers of bounded value.

ghost use Rattle.std.specs.Prelude.{◌≡◌, ◌^◌, ◌++◌, OnOk, OnErr};
ghost use Rattle.std.specs.Fmt.{decimal};
ghost use Rattle.sip_lex.specs.Number.{length_number, number_within, plain_number_within};
ghost use Rattle.sip_lex.specs.inner.Number.{number_if_digits, with_digit_if_one};

use itoa::Buffer;
use std::alloc::{AllocError, Allocator};

/// A number with one more digit, where the byte is one and the number fits 64 bits.
fn with_digit(n: u64, digit: u8) -> Option<u64>
    ensures { result ≡ with_digit_if_one n digit }
{
    if !digit.is_ascii_digit() {
        return None;
    }
    n.checked_mul(10)?.checked_add(u64::from(digit - b'0'))
}

/// The number that a text spells, where each of its bytes is a digit and the number fits 64 bits.
fn number_of(digits: &[u8]) -> Option<u64>
    ensures { result ≡ number_if_digits digits.now }
{
    let mut n = 0;
    for digit in digits {
        let Some(longer) = with_digit(n, *digit) else {
            return None;
        };
        n = longer;
    }
    Some(n)
}

/// The number that one or more decimal digits spell, where it is at most `limit`.
///
/// Leading zeros are allowed, and so is any number of digits.
pub fn read_number(digits: &[u8], limit: u64) -> Option<u64>
    ensures { result ≡ number_within limit digits.now }
{
    if digits.is_empty() {
        return None;
    }
    let n = number_of(digits)?;
    (n <= limit).then_some(n)
}

/// The number of one to nine digits.
pub fn length_number(value: &[u8]) -> Option<usize>
    ensures { result ≡ length_number value.now }
{
    if value.len() > 9 {
        return None;
    }
    match read_number(value, 999_999_999) {
        None => None,
        Some(n) => Some(n as usize),
    }
}

/// The number that decimal digits without a leading zero spell, where it is at most `limit`. The
/// one digit `0` spells 0.
pub fn read_plain_number(digits: &[u8], limit: u64) -> Option<u64>
    ensures { result ≡ plain_number_within limit digits.now }
{
    match digits {
        [b'0', _, ..] => None,
        _ => read_number(digits, limit),
    }
}

/// Appends a number in decimal, without a leading zero: what `read_plain_number` reads.
///
/// # Errors
///
/// Only where the growth of `out` is refused; `out` is then unchanged.
pub fn append_decimal<A: Allocator>(out: &mut Vec<u8, A>, n: u64) -> Result<(), AllocError>
    ensures ok { OnOk result (out.new.items ≡ out.old.items ++ decimal n) }
    ensures err { OnErr result (out.new.items ≡ out.old.items) }
{
    out.extend_from_slice(Buffer::new().format(n).as_bytes())
}
