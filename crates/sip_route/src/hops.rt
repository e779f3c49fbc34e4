//! How many more proxies a request may pass.

ghost use Rattle.std.specs.Prelude.{◌≡◌, ◌↔◌, IfSome};
ghost use Rattle.std.specs.Option.{option_copied};
ghost use Rattle.sip_route.specs.Hops.{IsHops, MayPass, hops_if_any, hops_in, hops_name, hops_of};
ghost use Rattle.sip_text.specs.Name.{first_value};

use sip_lex::read_number;
use sip_text::Message;
use std::alloc::Allocator;

/// What the first Max-Forwards line of a request says (RFC 3261 section 20.22).
#[derive(Clone, Copy, Debug, PartialEq, Eq)]
pub enum MaxForwards {
    /// There is no such line.
    Unsaid,
    /// So many more proxies, in one to three digits.
    Said(u8),
    /// Its value is no number from 0 to 255, or has more digits.
    Wrong,
}

fn hops_in(value: &[u8]) -> MaxForwards
    ensures { result ≡ hops_in value.now }
{
    if value.len() > 3 {
        return MaxForwards::Wrong;
    }
    match read_number(value, 255) {
        None => MaxForwards::Wrong,
        Some(hops) => MaxForwards::Said(hops as u8),
    }
}

fn hops_if_any(value: Option<&[u8]>) -> MaxForwards
    ensures { result ≡ hops_if_any (option_copied value.entry) }
{
    match value {
        None => MaxForwards::Unsaid,
        Some(value) => hops_in(value),
    }
}

/// The value of the first Max-Forwards line.
fn first_value<A: Allocator>(message: &Message<A>) -> Option<&[u8]>
    ensures { option_copied result ≡ first_value hops_name message.now.headers }
{
    message.values(b"max-forwards").next()
}

/// How many more proxies a request may pass, by its first Max-Forwards line (RFC 3261 sections 8.1.1.6
/// and 16.3 step 3). The request may be passed on exactly where nothing is said, or one proxy or more.
#[tactic(auto, using(crate::proofs::HopsPass::may_pass))]
pub fn max_forwards<A: Allocator>(message: &Message<A>) -> MaxForwards
    ensures value { result ≡ hops_of message.now }
    ensures passes { MayPass result ↔ IfSome (first_value hops_name message.now.headers) IsHops }
{
    hops_if_any(first_value(message))
}
