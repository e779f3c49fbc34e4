//! The proxy's own Via line.

ghost use Rattle.std.specs.Prelude.{◌≡◌, [], ◌∷◌, ◌+◌, ◌++◌, ◌≤◌, codes, length, IsOk, OnOk, take, vec_capacity, vec_len};
ghost use Rattle.std.specs.Fmt.{decimal};
ghost use Rattle.sip_text.specs.Text.{header_text};
ghost use Rattle.sip_via.specs.Address.{address_text, dotted};
ghost use Rattle.sip_via.specs.Edits.{line};
ghost use Rattle.sip_via.specs.OwnVia.{own_via, word_of};
ghost use Rattle.sip_build.specs.inner.Placed.{Placed};

use crate::place::{place, place_one, place_two};
use itoa::Buffer;
use sip_branch::{BranchName, write_branch};
use sip_uri::Transport;
use sip_via::Own;
use std::alloc::{AllocError, Allocator};

/// Writes a number in decimal from that place on, which is ten digits at most.
fn place_number(out: &mut [u8], at: usize, n: u32) -> usize
    requires { at + 10 ≤ length out.old }
    ensures placed { Placed out.old out.new at (decimal n) result }
    ensures short { result ≤ at + 10 }
{
    place(out, at, Buffer::new().format(n).as_bytes())
}

/// Writes a port in decimal from that place on, which is ten digits at most.
#[inline(always)]
pub(crate) fn place_port(out: &mut [u8], at: usize, n: u16) -> usize
    requires { at + 10 ≤ length out.old }
    ensures placed { Placed out.old out.new at (decimal n) result }
    ensures short { result ≤ at + 10 }
{
    if n < 1000 || 9999 < n {
        return place_number(out, at, u32::from(n));
    }
    let tens = n / 10;
    let hundreds = tens / 10;
    let at = place_two(
        out,
        at,
        b'0' + (hundreds / 10) as u8,
        b'0' + (hundreds % 10) as u8,
    );
    place_two(out, at, b'0' + (tens % 10) as u8, b'0' + (n % 10) as u8)
}

/// Writes a number below 256 in decimal from that place on.
#[inline(always)]
fn place_small(out: &mut [u8], at: usize, n: u8) -> usize
    requires { at + 3 ≤ length out.old }
    ensures placed { Placed out.old out.new at (decimal n) result }
    ensures short { result ≤ at + 3 }
{
    if n < 10 {
        return place_one(out, at, b'0' + n);
    }
    if n < 100 {
        return place_two(out, at, b'0' + n / 10, b'0' + n % 10);
    }
    let tens = n / 10;
    let at = place_two(out, at, b'0' + tens / 10, b'0' + tens % 10);
    place_one(out, at, b'0' + n % 10)
}

/// Writes a number behind a dot from that place on.
#[inline(always)]
fn place_dotted(out: &mut [u8], at: usize, n: u8) -> usize
    requires { at + 4 ≤ length out.old }
    ensures placed { Placed out.old out.new at (dotted n) result }
    ensures short { result ≤ at + 4 }
{
    let at = place_one(out, at, b'.');
    place_small(out, at, n)
}

/// Writes an address in dotted decimal from that place on.
pub(crate) fn place_address(out: &mut [u8], at: usize, addr: [u8; 4]) -> usize
    requires { at + 15 ≤ length out.old }
    ensures placed { Placed out.old out.new at (address_text addr) result }
    ensures short { result ≤ at + 15 }
{
    let at = place_small(out, at, addr[0]);
    let at = place_dotted(out, at, addr[1]);
    let at = place_dotted(out, at, addr[2]);
    place_dotted(out, at, addr[3])
}

/// The line up to the address.
fn before_address(transport: Transport) -> &'static [u8]
    ensures text { result.now ≡ codes "Via: SIP/2.0/" ++ (word_of transport ++ 32 ∷ []) }
    ensures len { length result.now ≡ 17 }
{
    match transport {
        Transport::Udp => b"Via: SIP/2.0/UDP ",
        Transport::Tcp | Transport::Back(_) => b"Via: SIP/2.0/TCP ",
    }
}

/// Writes the line up to the branch to the front of `out`.
fn place_front(out: &mut [u8], own: Own) -> usize
    requires { 51 ≤ length out.old }
    ensures text { take result out.new
        ≡ codes "Via: SIP/2.0/" ++ (word_of own.transport ++ (32 ∷ (address_text own.addr ++ (58 ∷ (decimal own.port ++ codes ";branch="))))) }
    ensures within { result ≤ length out.new }
{
    let at = place(out, 0, before_address(own.transport));
    let at = place_address(out, at, own.addr);
    let at = place_one(out, at, b':');
    let at = place_port(out, at, own.port);
    place(out, at, b";branch=")
}

/// Appends the proxy's own Via line, or a part of it.
pub(crate) fn append_own_via<B: Allocator>(
    out: &mut Vec<u8, B>,
    own: Own,
    branch: &BranchName,
) -> Result<(), AllocError>
    ensures ok { OnOk result
        (out.new.items ≡ out.old.items ++ header_text (line (codes "Via") (own_via own branch.now))) }
    ensures begins { take (vec_len out.old) out.new.items ≡ out.old.items }
    ensures room { vec_len out.old + length (header_text (line (codes "Via") (own_via own branch.now))) ≤ vec_capacity out.old
        → IsOk result }
    ensures capacity { vec_capacity out.old ≤ vec_capacity out.new }
{
    let mut front = [0; 51];
    let end = place_front(&mut front, own);
    out.extend_from_slice(&front[..end])?;
    write_branch(branch, out)?;
    out.extend_from_slice(b"\r\n")?;
    Ok(())
}
