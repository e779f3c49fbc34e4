//! The proxy's own Via value.

ghost use Rattle.std.specs.Prelude.{◌≡◌, ◌++◌, ◌∷◌, [], IfOk, codes, true};
ghost use Rattle.sip_text.specs.Message.{is_value};
ghost use Rattle.sip_via.specs.OwnVia.{IsOwn, own_via, word_of};

use crate::address::add_address;
use crate::own::Own;
use sip_branch::{BranchName, write_branch};
use sip_lex::append_decimal;
use sip_uri::Transport;
use std::alloc::{AllocError, Allocator};

/// What stands before the address (RFC 3261 section 20.42).
fn front_of(transport: Transport) -> &'static [u8]
    ensures { result.now ≡ codes "SIP/2.0/" ++ (word_of transport ++ 32 ∷ []) }
{
    match transport {
        Transport::Udp => b"SIP/2.0/UDP ",
        Transport::Tcp | Transport::Back(_) => b"SIP/2.0/TCP ",
    }
}

/// Shows that the numbers of the own address are bounded.
pub(crate) fn is_own_address(own: Own)
    ensures { IsOwn own }
{}

/// The proxy's own Via value: the transport, the address and port that it receives at, and that branch
/// (RFC 3261 sections 16.6 step 8 and 18.1.1).
///
/// # Errors
///
/// Only where the allocator refuses.
pub fn own_via<A: Allocator>(
    alloc: A,
    own: Own,
    branch: &BranchName,
) -> Result<Vec<u8, A>, AllocError>
    ensures text { IfOk result (λ text. text.items ≡ own_via own branch.now) }
    ensures good { IfOk result (λ _. is_value (own_via own branch.now) ≡ true) }
{
    is_own_address(own);
    let mut text = Vec::new(alloc);
    text.extend_from_slice(front_of(own.transport))?;
    add_address(&mut text, own.addr)?;
    text.push(b':')?;
    append_decimal(&mut text, u64::from(own.port))?;
    text.extend_from_slice(b";branch=")?;
    write_branch(branch, &mut text)?;
    Ok(text)
}
