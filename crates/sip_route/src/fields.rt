//! The fields of which a digest is made: those of the key by which a loop is found (RFC 3261 section 16.6 step 8), and of
//! the proxy's own tag (section 8.2.6.2).

ghost use Rattle.std.specs.Prelude.{◌++◌, List, ℕ};
ghost use Rattle.std.specs.Fmt.{decimal};
ghost use Rattle.std.specs.Option.{option_copied};
ghost use Rattle.md5.specs.Md5.{Holds};
ghost use Rattle.sip_route.specs.Loop.{field_line};
ghost use Rattle.sip_via.specs.ViaParts.{or_empty};

use itoa::Buffer;
use md5::{Digest, Md5};

/// Adds a field and the LF behind it to what is digested.
pub fn add_field(hasher: &mut Md5, field: &[u8])
    ensures { (m : List ℕ) → Holds hasher.old m → Holds hasher.new (m ++ field_line field.now) }
{
    hasher.update(field);
    hasher.update(b"\n");
}

/// Adds a field that may be missing, and is empty then.
pub fn add_optional(hasher: &mut Md5, field: Option<&[u8]>)
    ensures { (m : List ℕ) → Holds hasher.old m
        → Holds hasher.new (m ++ field_line (or_empty (option_copied field.entry))) }
{
    add_field(hasher, field.unwrap_or(b""));
}

/// Adds a number in decimal.
pub fn add_number(hasher: &mut Md5, n: u32)
    ensures { (m : List ℕ) → Holds hasher.old m → Holds hasher.new (m ++ field_line (decimal n)) }
{
    add_field(hasher, Buffer::new().format(n).as_bytes());
}
