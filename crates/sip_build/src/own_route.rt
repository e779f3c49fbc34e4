//! The URI by which a proxy stays on the path of a dialog.

ghost use Rattle.std.specs.Prelude.{◌≡◌, ◌+◌, ◌++◌, ◌≤◌, length, true, IsOk, OnErr, OnOk, take, vec_capacity, vec_len};
ghost use Rattle.sip_text.specs.Message.{is_value};
ghost use Rattle.sip_via.specs.OwnVia.{IsOwn};
ghost use Rattle.sip_build.specs.OwnRoute.{own_route};

use crate::own_line::{place_address, place_port};
use crate::place::{place, place_one};
use sip_via::Own;
use std::alloc::{AllocError, Allocator};

/// Shows that the numbers of the proxy's address are bounded.
fn fact_own(own: Own)
    ensures { IsOwn own }
{}

/// Writes the URI to the front of `out`.
fn place_own_route(out: &mut [u8], own: Own) -> usize
    requires { 35 ≤ length out.old }
    ensures text { take result out.new ≡ own_route own }
    ensures within { result ≤ length out.new }
{
    let at = place(out, 0, b"<sip:");
    let at = place_address(out, at, own.addr);
    let at = place_one(out, at, b':');
    let at = place_port(out, at, own.port);
    place(out, at, b";lr>")
}

/// Appends the value of the Record-Route line by which the proxy stays on the path of a dialog (RFC 3261 sections 16.6 step 4 and
/// 20.30): the address and the port that it receives at, as a URI with `lr`, in angle brackets.
///
/// # Errors
///
/// Only where `out` lacks room for the text and its growth is refused; `out` is then unchanged.
pub fn write_own_route<B: Allocator>(own: Own, out: &mut Vec<u8, B>) -> Result<(), AllocError>
    ensures ok { OnOk result (out.new.items ≡ out.old.items ++ own_route own) }
    ensures err { OnErr result (out.new.items ≡ out.old.items) }
    ensures room { vec_len out.old + length (own_route own) ≤ vec_capacity out.old → IsOk result }
    ensures good { is_value (own_route own) ≡ true }
{
    fact_own(own);
    let mut text = [0; 35];
    let end = place_own_route(&mut text, own);
    out.extend_from_slice(&text[..end])
}
