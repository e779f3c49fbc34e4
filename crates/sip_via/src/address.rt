//! Numbers and IPv4 addresses as text.

ghost use Rattle.std.specs.Prelude.{◌≡◌, ◌+◌, ◌<◌, ◌++◌, [], ◌∷◌, IfSome, OnOk};
ghost use Rattle.std.specs.Fmt.{decimal};
ghost use Rattle.std.specs.Option.{option_copied};
ghost use Rattle.std.specs.Str.{bytes_eq};
ghost use Rattle.sip_via.specs.Address.{address_text, dotted};
ghost use Rattle.sip_via.specs.inner.Fronts.{behind_address, behind_marked, behind_number, behind_text, is_end};

use itoa::Buffer;
use sip_lex::Growing;
use std::alloc::AllocError;

/// Adds a number in decimal.
pub(crate) fn add_number<T: Growing>(out: &mut T, n: u16) -> Result<(), AllocError>
    ensures { OnOk result (T.text out.new ≡ T.text out.old ++ decimal n) }
{
    out.add(Buffer::new().format(n).as_bytes())
}

/// Adds a number behind a dot.
fn add_dotted<T: Growing>(out: &mut T, n: u8) -> Result<(), AllocError>
    ensures { OnOk result (T.text out.new ≡ T.text out.old ++ dotted n) }
{
    out.add(b".")?;
    add_number(out, u16::from(n))
}

/// Adds an address as four decimal numbers with dots between them.
pub(crate) fn add_address<T: Growing>(out: &mut T, addr: [u8; 4]) -> Result<(), AllocError>
    ensures { OnOk result (T.text out.new ≡ T.text out.old ++ address_text addr) }
{
    add_number(out, u16::from(addr[0]))?;
    add_dotted(out, addr[1])?;
    add_dotted(out, addr[2])?;
    add_dotted(out, addr[3])
}

/// What stands behind a digit.
#[inline(always)]
fn behind_one(text: &[u8], a: u8) -> Option<&[u8]>
    ensures { option_copied result ≡ behind_text (a ∷ []) text.now }
{
    match text {
        [first, rest @ ..] if *first == a => Some(rest),
        _ => None,
    }
}

/// What stands behind two digits.
#[inline(always)]
fn behind_two(text: &[u8], a: u8, b: u8) -> Option<&[u8]>
    ensures { option_copied result ≡ behind_text (a ∷ b ∷ []) text.now }
{
    match text {
        [first, second, rest @ ..] if *first == a && *second == b => Some(rest),
        _ => None,
    }
}

/// What stands behind three digits.
#[inline(always)]
fn behind_three(text: &[u8], a: u8, b: u8, c: u8) -> Option<&[u8]>
    ensures { option_copied result ≡ behind_text (a ∷ b ∷ c ∷ []) text.now }
{
    match text {
        [first, second, third, rest @ ..] if *first == a && *second == b && *third == c => {
            Some(rest)
        }
        _ => None,
    }
}

/// The digit of a number below ten.
fn digit_of(n: u16) -> u8
    requires { n < 10 }
    ensures { result ≡ 48 + n }
{
    b'0' + n as u8
}

/// What stands behind a number of three digits at most, in decimal.
#[inline(always)]
fn behind_short_number(text: &[u8], n: u16) -> Option<&[u8]>
    requires { n < 1000 }
    ensures { option_copied result ≡ behind_number n text.now }
{
    if n < 10 {
        return behind_one(text, digit_of(n));
    }
    let tens = n / 10;
    let last = digit_of(n % 10);
    if n < 100 {
        return behind_two(text, digit_of(tens), last);
    }
    behind_three(text, digit_of(tens / 10), digit_of(tens % 10), last)
}

/// What stands behind a number in decimal. The numbers of an address are short.
fn behind_number(text: &[u8], n: u16) -> Option<&[u8]>
    ensures { option_copied result ≡ behind_number n text.now }
{
    if n < 1000 {
        return behind_short_number(text, n);
    }
    text.strip_prefix(Buffer::new().format(n).as_bytes())
}

/// What stands behind a mark and a number.
fn behind_marked(text: Option<&[u8]>, mark: u8, n: u16) -> Option<&[u8]>
    ensures { option_copied result ≡ behind_marked mark n (option_copied text.entry) }
{
    match text? {
        [first, rest @ ..] if *first == mark => behind_number(rest, n),
        _ => None,
    }
}

/// Whether nothing is left of a text.
fn is_end(rest: Option<&[u8]>) -> bool
    ensures { result ≡ is_end (option_copied rest.entry) }
{
    match rest {
        Some([]) => true,
        _ => false,
    }
}

/// What stands behind an address in dotted decimal.
pub(crate) fn behind_address(text: &[u8], addr: [u8; 4]) -> Option<&[u8]>
    ensures { option_copied result ≡ behind_address addr text.now }
{
    let rest = behind_number(text, u16::from(addr[0]));
    let rest = behind_marked(rest, b'.', u16::from(addr[1]));
    let rest = behind_marked(rest, b'.', u16::from(addr[2]));
    behind_marked(rest, b'.', u16::from(addr[3]))
}

/// Whether a text is that address in dotted decimal, each number without a zero before it.
pub fn is_address(text: &[u8], addr: [u8; 4]) -> bool
    ensures { result ≡ bytes_eq text.now (address_text addr) }
{
    is_end(behind_address(text, addr))
}

/// What stands behind a colon and a port.
pub(crate) fn behind_port(text: &[u8], port: u16) -> Option<&[u8]>
    ensures { IfSome result (λ rest. text.now ≡ 58 ∷ (decimal port ++ rest.now)) }
{
    behind_marked(Some(text), b':', port)
}
