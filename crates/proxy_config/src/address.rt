//! IPv4 addresses as text.
ghost use Rattle.std.specs.Prelude.{◌≡◌, ◌++◌, OnOk};
ghost use Rattle.sip_via.specs.Address.{address_text, dotted};

use sip_lex::append_decimal;
use std::alloc::{AllocError, Allocator};

/// Appends a number behind a dot.
fn append_dotted<B: Allocator>(out: &mut Vec<u8, B>, n: u8) -> Result<(), AllocError>
    ensures { OnOk result (out.new.items ≡ out.old.items ++ dotted n) }
{
    out.push(b'.')?;
    append_decimal(out, u64::from(n))
}

/// Appends an address as four decimal numbers with dots between them (RFC 3261 section 25.1: `IPv4address`).
///
/// # Errors
///
/// Only where the growth of `out` is refused; some of the text may be there then.
pub fn append_address<B: Allocator>(out: &mut Vec<u8, B>, addr: [u8; 4]) -> Result<(), AllocError>
    ensures { OnOk result (out.new.items ≡ out.old.items ++ address_text addr) }
{
    append_decimal(out, u64::from(addr[0]))?;
    append_dotted(out, addr[1])?;
    append_dotted(out, addr[2])?;
    append_dotted(out, addr[3])
}
