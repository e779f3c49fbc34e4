//! Who sent a message, by one of its Via values.

ghost use Rattle.std.specs.Prelude.{◌≡◌, IfNone, IfSome, option_map};
ghost use Rattle.sip_via.specs.Sender.{seen_sender, sender, sender_if_read};
ghost use Rattle.sip_via.specs.inner.SeenParts.{seen_parts};
ghost use Rattle.sip_via.specs.ViaGrammar.{IsVia};
ghost use Rattle.sip_via.specs.TopVia.{top_value};
ghost use Rattle.sip_via.specs.ViaParts.{ViaText, branch_of, read_via, via_of, via_of_parts};
ghost use Rattle.std.specs.Option.{option_copied};

use crate::cut::{ViaParts, cut_value, cut_via, port_if_any};
use crate::params::first_param;
use crate::reply::DEFAULT_PORT;
use crate::values::top_via;
use sip_text::Message;
use std::alloc::Allocator;

/// What a Via value says of its sender, as it stands in the text.
#[derive(Clone, Copy, Debug, PartialEq, Eq)]
pub struct Sender<'a> {
    /// The host as written.
    pub host: &'a [u8],
    /// The port; 5060 where the value names none (RFC 3261 section 18.2.2).
    pub port: u16,
    /// The value of the first parameter `branch`, if it has one.
    pub branch: Option<&'a [u8]>,
}

/// The sender that the parts of a Via value name.
pub(crate) fn sender_in<'a>(cut: &ViaParts<'a>) -> Sender<'a>
    ensures { seen_sender result ≡ sender (via_of_parts (seen_parts cut.now)) }
{
    Sender {
        host: cut.host,
        port: port_if_any(cut.port).unwrap_or(DEFAULT_PORT),
        branch: first_param(cut.params, b"branch"),
    }
}

/// The sender that a text names as a Via value (RFC 3261 section 20.42); `None` where it is none. It takes no
/// memory.
pub fn sender_of(value: &[u8]) -> Option<Sender<'_>>
    ensures exact { option_map seen_sender result ≡ sender_if_read (read_via value.now) }
    ensures found { IfSome result (λ _. IsVia value.now (via_of value.now)) }
    ensures none { IfNone result ((via : ViaText) → IsVia value.now via → ⊥) }
{
    let cut = cut_via(value)?;
    Some(sender_in(&cut))
}

/// The branch that the top Via value of a message names: the value of its first parameter `branch` (RFC 3261 section
/// 8.1.1.7). A top value that is none is read as far as its parts can be told apart; `mark` refuses it. It takes no
/// memory.
pub fn top_branch<A: Allocator>(message: &Message<A>) -> Option<&[u8]>
    ensures { option_copied result ≡ branch_of (via_of (top_value message.now)) }
{
    first_param(cut_value(top_via(message)).params, b"branch")
}
