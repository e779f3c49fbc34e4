//! Bytes as two hexadecimal digits each.

ghost use Rattle.std.specs.Prelude.{◌≡◌, ◌<◌, ◌^◌, ℕ, [], ◌∷◌, IfSome, IfNone};
ghost use Rattle.sip_lex.specs.HexPair.{hex_pair};

use crate::hex::{hex_digit, hex_value};

/// The two digits of a byte.
pub fn hex_pair(byte: u8) -> [u8; 2]
    ensures { result ≡ hex_pair byte }
{
    [hex_digit(byte / 16), hex_digit(byte % 16)]
}

/// The byte of two digits; `None` where one is none, as an upper case letter.
pub fn read_pair(upper: u8, lower: u8) -> Option<u8>
    ensures found { IfSome result (λ byte. upper ∷ lower ∷ [] ≡ hex_pair byte) }
    ensures none { IfNone result
        ((byte : ℕ) → byte < 2 ^ 8 → (upper ∷ lower ∷ [] ≡ hex_pair byte) → ⊥) }
{
    let upper = hex_value(upper)?;
    let lower = hex_value(lower)?;
    Some(16 * upper + lower)
}
