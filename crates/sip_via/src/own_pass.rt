//! Which Via values this proxy put, and with which branch.

ghost use Rattle.std.specs.Prelude.{◌≡◌, ◌<◌, ◌&&◌, ◌==◌, ◌++◌, ◌∷◌, IfNone, IfSome, Some, codes};
ghost use Rattle.std.specs.Fmt.{decimal};
ghost use Rattle.std.specs.Option.{option_copied};
ghost use Rattle.std.specs.Str.{bytes_eq};
ghost use Rattle.sip_via.specs.Address.{address_text};
ghost use Rattle.sip_branch.specs.declared.branch.BranchName.{BranchName};
ghost use Rattle.sip_branch.specs.BranchText.{IsBranch, branch_text};
ghost use Rattle.sip_via.specs.OwnPass.{IsOwnBranch, IsOwnVia};
ghost use Rattle.sip_via.specs.Received.{port_or_default};
ghost use Rattle.sip_via.specs.inner.SeenParts.{seen_parts};
ghost use Rattle.sip_via.specs.TopVia.{top_value};
ghost use Rattle.sip_via.specs.ViaParts.{branch_of, port_if_any, via_of_parts};

use crate::address::{behind_address, behind_port, is_address};
use crate::cut::{ViaParts, are_parts, cut_value, is_trimmed, port_if_any};
use crate::own::Own;
use crate::own_value::is_own_address;
use crate::params::first_param;
use crate::reply::DEFAULT_PORT;
use crate::values::top_via;
use sip_branch::{BranchName, read_branch};
use sip_lex::begins_with_space;
use sip_text::Message;
use std::alloc::Allocator;

/// Shows that what a branch holds is bounded.
fn is_branch(name: BranchName)
    ensures { IsBranch name }
{}

/// Whether the parts name this proxy's address and port.
fn is_sent_by(cut: &ViaParts<'_>, own: Own) -> bool
    ensures { result ≡ bytes_eq cut.now.host.now (address_text own.addr)
        && port_or_default (port_if_any (option_copied cut.now.port)) == own.port }
{
    is_address(cut.host, own.addr) && port_if_any(cut.port).unwrap_or(DEFAULT_PORT) == own.port
}

/// The branch that the parameters name, where it is spelled as the proxy spells its own.
fn branch_in(cut: &ViaParts<'_>) -> Option<BranchName>
    ensures found { IfSome result
        (λ b. branch_of (via_of_parts (seen_parts cut.now)) ≡ Some (branch_text b)) }
    ensures only { (b : BranchName) → IsBranch b
        → branch_of (via_of_parts (seen_parts cut.now)) ≡ Some (branch_text b) → result ≡ Some b }
{
    read_branch(first_param(cut.params, b"branch")?)
}

fn own_branch_in(cut: &ViaParts<'_>, own: Own) -> Option<BranchName>
    ensures found { IfSome result (λ b. IsOwnVia own (via_of_parts (seen_parts cut.now)) b) }
    ensures only { (b : BranchName) → IsBranch b
        → IsOwnVia own (via_of_parts (seen_parts cut.now)) b → result ≡ Some b }
{
    if !is_sent_by(cut, own) {
        return None;
    }
    branch_in(cut)
}

/// The branch in what stands behind the address, in the spelling that the proxy gives its own, with no parameter
/// behind it. A proxy at port 0 has none, since no Via value names that port.
fn plain_branch(text: &[u8], port: u16) -> Option<BranchName>
    ensures found { IfSome result
        (λ b. (0 < port) × (text.now ≡ 58 ∷ (decimal port ++ (codes ";branch=" ++ branch_text b)))) }
    ensures bounded { IfSome result (λ b. IsBranch b) }
{
    if port == 0 {
        return None;
    }
    let rest = behind_port(text, port)?;
    let name = read_branch(rest.strip_prefix(b";branch=")?)?;
    is_branch(name);
    Some(name)
}

/// The branch of a Via value in any spelling. The host is asked first, and the grammar last, since most values
/// name another host.
fn spelled_own_branch(value: &[u8], own: Own) -> Option<BranchName>
    ensures found { IfSome result (λ b. IsOwnBranch own value.now b) }
    ensures bounded { IfSome result (λ b. IsBranch b) }
    ensures only { (b : BranchName) → IsBranch b → IsOwnBranch own value.now b → result ≡ Some b }
{
    let cut = cut_value(value);
    let name = own_branch_in(&cut, own)?;
    if !is_trimmed(value) || !are_parts(&cut) {
        return None;
    }
    is_branch(name);
    Some(name)
}

/// The branch of a value that begins as the proxy's own, by what stands behind the transport. Most such values
/// name another host.
fn sent_own_branch(value: &[u8], sent: &[u8], own: Own) -> Option<BranchName>
    requires { value.now ≡ codes "SIP/2.0/UDP " ++ sent.now }
    ensures found { IfSome result (λ b. IsOwnBranch own value.now b) }
    ensures bounded { IfSome result (λ b. IsBranch b) }
    ensures only { (b : BranchName) → IsBranch b → IsOwnBranch own value.now b → result ≡ Some b }
{
    if begins_with_space(sent) {
        return spelled_own_branch(value, own);
    }
    is_own_address(own);
    let rest = behind_address(sent, own.addr)?;
    match plain_branch(rest, own.port) {
        Some(name) => Some(name),
        None => spelled_own_branch(value, own),
    }
}

/// The branch of a Via value that this proxy put: its host is the proxy's address, its port the proxy's
/// (5060 where it names none), its branch one of the proxy's own (RFC 3261 sections 16.3 step 4 and 16.6
/// step 8). `None` for any other text.
pub fn own_branch_of(value: &[u8], own: Own) -> Option<BranchName>
    ensures found { IfSome result (λ b. IsOwnBranch own value.now b) }
    ensures bounded { IfSome result (λ b. IsBranch b) }
    ensures only { (b : BranchName) → IsBranch b → IsOwnBranch own value.now b → result ≡ Some b }
    ensures none { IfNone result ((b : BranchName) → IsBranch b → IsOwnBranch own value.now b → ⊥) }
{
    match value.strip_prefix(b"SIP/2.0/UDP ") {
        Some(sent) => sent_own_branch(value, sent, own),
        None => spelled_own_branch(value, own),
    }
}

/// The branch of the top Via value, where this proxy put it: a response comes home by it (RFC 3261
/// section 16.7 step 1).
pub fn own_branch<A: Allocator>(message: &Message<A>, own: Own) -> Option<BranchName>
    ensures found { IfSome result (λ b. IsOwnBranch own (top_value message.now) b) }
    ensures bounded { IfSome result (λ b. IsBranch b) }
    ensures only { (b : BranchName) → IsBranch b → IsOwnBranch own (top_value message.now) b → result ≡ Some b }
    ensures none { IfNone result
        ((b : BranchName) → IsBranch b → IsOwnBranch own (top_value message.now) b → ⊥) }
{
    own_branch_of(top_via(message), own)
}
