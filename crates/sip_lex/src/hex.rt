//! Hexadecimal digits in lower case, `LHEX` of RFC 3261 section 25.1.

ghost use Rattle.std.specs.Prelude.{◌≡◌, ◌≢◌, ◌<◌, ℕ, IfSome, IfNone};
ghost use Rattle.sip_lex.specs.Hex.{hex_digit};

/// The digit of a value below 16.
pub fn hex_digit(value: u8) -> u8
    requires { value < 16 }
    ensures { result ≡ hex_digit value }
{
    if value < 10 {
        b'0' + value
    } else {
        b'a' + (value - 10)
    }
}

/// The value of a digit; `None` where the byte is no such digit, as an upper case letter.
pub fn hex_value(digit: u8) -> Option<u8>
    ensures value { IfSome result (λ value. (value < 16) × (digit ≡ hex_digit value)) }
    ensures none { IfNone result ((value : ℕ) → value < 16 → digit ≢ hex_digit value) }
{
    match digit {
        b'0'..=b'9' => Some(digit - b'0'),
        b'a'..=b'f' => Some(digit - b'a' + 10),
        _ => None,
    }
}
