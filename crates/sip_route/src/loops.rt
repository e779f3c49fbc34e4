//! The key by which a loop is found.

ghost use Rattle.std.specs.Prelude.{◌≡◌, ◌++◌, List, ℕ};
ghost use Rattle.std.specs.List.{join_with_byte, list_any};
ghost use Rattle.md5.specs.Md5.{Holds};
ghost use Rattle.sip_route.specs.Loop.{all_values, dialog_fields, field_line, field_lines, loop_key, request_uri, routing_fields};
ghost use Rattle.sip_route.specs.inner.Loop.{behind_commas, may_route};
ghost use Rattle.sip_text.specs.Seen.{view_line, views};

use crate::fields::{add_field, add_number, add_optional};
use md5::{Digest, Md5};
use sip_text::{HeaderLine, HeaderLines, HeaderValues, Message, StartLine};
use std::alloc::Allocator;

/// The Request-URI of a request; empty for a response.
pub fn request_uri<A: Allocator>(message: &Message<A>) -> &[u8]
    ensures { result.now ≡ request_uri message.now.start }
{
    match message.start() {
        StartLine::Request { uri, .. } => uri,
        StartLine::Response { .. } => b"",
    }
}

/// Adds the values left, a comma before each.
fn add_more(hasher: &mut Md5, mut values: HeaderValues<'_, '_>)
    ensures { (m : List ℕ) → Holds hasher.old m → Holds hasher.new (m ++ behind_commas values.entry) }
{
    while let Some(value) = values.next() {
        hasher.update(b",");
        hasher.update(value);
    }
}

/// Adds the values left, a comma between two.
fn add_joined(hasher: &mut Md5, mut values: HeaderValues<'_, '_>)
    ensures { (m : List ℕ) → Holds hasher.old m → Holds hasher.new (m ++ join_with_byte 44 values.entry) }
{
    let Some(first) = values.next() else {
        return;
    };
    hasher.update(first);
    add_more(hasher, values);
}

/// Adds the values of that name, a comma between two, and the LF behind them.
fn add_values<A: Allocator>(hasher: &mut Md5, message: &Message<A>, name: &[u8])
    ensures { (m : List ℕ) → Holds hasher.old m
        → Holds hasher.new (m ++ field_line (all_values name.now message.now)) }
{
    add_joined(hasher, message.values(name));
    hasher.update(b"\n");
}

/// Adds the fields that name the request among those of its sender.
fn add_dialog<A: Allocator>(hasher: &mut Md5, message: &Message<A>)
    ensures { (m : List ℕ) → Holds hasher.old m
        → Holds hasher.new (m ++ field_lines (dialog_fields message.now)) }
{
    add_optional(hasher, message.from_tag());
    add_optional(hasher, message.to_tag());
    add_field(hasher, message.call_id());
    add_number(hasher, message.cseq().number);
}

/// Adds the fields that say how the request is routed, each from its header lines.
fn add_routing_lines<A: Allocator>(hasher: &mut Md5, message: &Message<A>)
    ensures { (m : List ℕ) → Holds hasher.old m
        → Holds hasher.new (m ++ field_lines (routing_fields message.now)) }
{
    add_values(hasher, message, b"route");
    add_values(hasher, message, b"proxy-require");
    add_values(hasher, message, b"proxy-authorization");
}

/// Whether a header line may say how the request is routed, by how long its name is. A name of one letter is a compact
/// form.
fn may_route(header: HeaderLine<'_>) -> bool
    ensures { result ≡ may_route (view_line header.entry) }
{
    match header.name.len() {
        5 => header.is_named(b"route"),
        1 | 13 | 19 => true,
        _ => false,
    }
}

/// Whether one of the header lines may say how the request is routed.
fn may_be_routed(headers: HeaderLines<'_>) -> bool
    ensures { result ≡ list_any may_route (views headers.entry) }
{
    for header in headers {
        if may_route(header) {
            return true;
        }
    }
    false
}

/// Adds the fields that say how the request is routed. Most requests have none of these header lines.
fn add_routing<A: Allocator>(hasher: &mut Md5, message: &Message<A>)
    ensures { (m : List ℕ) → Holds hasher.old m
        → Holds hasher.new (m ++ field_lines (routing_fields message.now)) }
{
    if may_be_routed(message.headers()) {
        add_routing_lines(hasher, message);
    } else {
        hasher.update(b"\n\n\n");
    }
}

/// The key that tells two passes of a request through this proxy apart, by what its routing rests on
/// (RFC 3261 section 16.6 step 8): MD5 of the Request-URI, the tags of From and To, the Call-ID, the
/// number of the CSeq, and the values of Route, Proxy-Require and Proxy-Authorization, each followed
/// by LF. What is missing is empty.
///
/// The caller has taken the proxy's own Route value away.
#[tactic(auto, unfolding(crate::specs::Loop::loop_key))]
pub fn loop_key<A: Allocator>(message: &Message<A>) -> [u8; 16]
    ensures { result ≡ loop_key message.now }
{
    let mut hasher = Md5::new();
    add_field(&mut hasher, request_uri(message));
    add_dialog(&mut hasher, message);
    add_routing(&mut hasher, message);
    hasher.finalize()
}
