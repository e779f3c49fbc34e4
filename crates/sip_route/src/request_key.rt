//! The key of a request: what tells its server transaction from others.

ghost use Rattle.std.specs.Prelude.{List, ℕ, ◌≡◌, ◌≢◌, ◌↔◌, ◌+◌, ◌++◌, ◌≤◌, ◌<◌, ◌&&◌, ◌==◌, IfNone, IfOk, IfSome, IsOk, IsTrue, OnErr, None, OnOk, Some, is_some, length, vec_capacity, vec_len};
ghost use Rattle.std.specs.Str.{bytes_eq, str_to_ascii_lowercase};
ghost use Rattle.sip_via.specs.ViaParts.{or_empty};
ghost use Rattle.sip_route.specs.RequestKey.{HaveSameKey, key_text, request_key, sender_key};
ghost use Rattle.sip_via.specs.Sender.{seen_sender};
ghost use Rattle.sip_route.specs.inner.RequestKey.{IsSentBy};

use itoa::Buffer;
use sip_lex::append_pieces;
use sip_text::Message;
use sip_via::{Sender, sender_of, top_via};
use std::alloc::{AllocError, Allocator};

/// Puts so many bytes from a place on in lower case.
fn lower_part<B: Allocator>(out: &mut Vec<u8, B>, start: usize, len: usize)
    requires { start + len ≤ length out.old.items }
    ensures lowered { (front part back : List ℕ) → length front ≡ start → length part ≡ len
        → out.old.items ≡ front ++ (part ++ back)
        → out.new.items ≡ front ++ (str_to_ascii_lowercase part ++ back) }
    ensures capacity { vec_capacity out.new ≡ vec_capacity out.old }
{
    out.as_mut_slice()[start..start + len].make_ascii_lowercase();
}

/// Appends the key of these parts, or nothing; `out` grows once at most.
fn append_key<B: Allocator>(
    out: &mut Vec<u8, B>,
    host: &[u8],
    port: u16,
    branch: &[u8],
) -> Result<(), AllocError>
    ensures ok { OnOk result (out.new.items ≡ out.old.items ++ key_text host.now port branch.now) }
    ensures err { OnErr result (out.new.items ≡ out.old.items) }
    ensures full { OnErr result
        (vec_capacity out.old < vec_len out.old + length (key_text host.now port branch.now)) }
{
    let mut buffer = Buffer::new();
    let port = buffer.format(port).as_bytes();
    let before = out.len();
    append_pieces(out, &[host, b":", port, b" ", branch])?;
    lower_part(out, before, host.len());
    Ok(())
}

/// What makes the key of a request.
#[derive(Clone, Copy)]
struct Key<'a> {
    host: &'a [u8],
    port: u16,
    branch: &'a [u8],
}

/// What makes the key of a request, by its top Via value.
fn key_of<A: Allocator>(message: &Message<A>) -> Option<Key<'_>>
    ensures found { IfSome result (λ key. IsSentBy message.now key.host.now key.port key.branch.now) }
    ensures none { IfNone result (request_key message.now ≡ None) }
{
    let sender = sender_of(top_via(message))?;
    let branch = sender.branch?;
    Some(Key {
        host: sender.host,
        port: sender.port,
        branch,
    })
}

/// Appends the key of a request, by the sender that its top Via value names, where it has one, and says whether it has: as
/// [`append_request_key`] does of the request, and the value is not read again. `out` grows once at most.
///
/// # Errors
///
/// Only where the growth of `out` is refused; `out` is then unchanged.
pub fn append_sender_key<B: Allocator>(
    out: &mut Vec<u8, B>,
    sender: Sender<'_>,
) -> Result<bool, AllocError>
    ensures ok { IfOk result (λ _. out.new.items ≡ out.old.items ++ or_empty (sender_key (seen_sender sender.entry))) }
    ensures said { IfOk result (λ said. said ≡ is_some (sender_key (seen_sender sender.entry))) }
    ensures err { OnErr result (out.new.items ≡ out.old.items) }
    ensures full { OnErr result
        (vec_capacity out.old < vec_len out.old + length (or_empty (sender_key (seen_sender sender.entry)))) }
{
    let Some(branch) = sender.branch else {
        return Ok(false);
    };
    append_key(out, sender.host, sender.port, branch)?;
    Ok(true)
}

/// Appends the key of a request, where it has one, and says whether it has: what tells its server
/// transaction from others (RFC 3261 section 17.2.3). That is the host of its top Via value in lower case,
/// `:`, the port (5060 where none is named), a space and the branch. An ACK and a CANCEL have the key of the
/// request that they are for. A request has none where its top Via value cannot be read or has no branch;
/// `out` then stays as it is. `out` grows once at most.
///
/// # Errors
///
/// Only where the growth of `out` is refused; `out` is then unchanged.
pub fn append_request_key<A: Allocator, B: Allocator>(
    out: &mut Vec<u8, B>,
    message: &Message<A>,
) -> Result<bool, AllocError>
    ensures ok { IfOk result (λ _. out.new.items ≡ out.old.items ++ or_empty (request_key message.now)) }
    ensures said { IfOk result (λ said. said ≡ is_some (request_key message.now)) }
    ensures err { OnErr result (out.new.items ≡ out.old.items) }
    ensures room { vec_len out.old + length (or_empty (request_key message.now)) ≤ vec_capacity out.old
        → IsOk result }
    ensures full { OnErr result
        (vec_capacity out.old < vec_len out.old + length (or_empty (request_key message.now))) }
{
    let Some(key) = key_of(message) else {
        return Ok(false);
    };
    append_key(out, key.host, key.port, key.branch)?;
    Ok(true)
}

/// Whether two requests have the same host, in any case, port and branch.
fn is_same_key(a: &Key<'_>, b: &Key<'_>) -> bool
    ensures { result
        ≡ bytes_eq (str_to_ascii_lowercase a.now.host.now) (str_to_ascii_lowercase b.now.host.now)
        && a.now.port == b.now.port
        && bytes_eq a.now.branch.now b.now.branch.now }
{
    a.host.eq_ignore_ascii_case(b.host) && a.port == b.port && a.branch == b.branch
}

/// Whether two requests have one key, as `append_request_key` says it: then they belong to one server
/// transaction (RFC 3261 section 17.2.3). Two requests without a key have none in common. It takes no memory.
pub fn has_same_key<A: Allocator, B: Allocator>(a: &Message<A>, b: &Message<B>) -> bool
    ensures { IsTrue result ↔ HaveSameKey a.now b.now }
{
    let Some(key) = key_of(a) else {
        return false;
    };
    let Some(other) = key_of(b) else {
        return false;
    };
    is_same_key(&key, &other)
}

/// What stands behind a text that another one begins with.
fn behind<'a>(text: &'a [u8], front: &[u8]) -> Option<&'a [u8]>
    ensures found { IfSome result (λ rest. text.now ≡ front.now ++ rest.now) }
    ensures none { IfNone result ((rest : List ℕ) → text.now ≢ front.now ++ rest) }
{
    text.strip_prefix(front)
}

/// What stands behind a text in lower case that another one begins with.
fn behind_lowered<'a>(text: &'a [u8], front: &[u8]) -> Option<&'a [u8]>
    ensures found { IfSome result (λ rest. text.now ≡ str_to_ascii_lowercase front.now ++ rest.now) }
    ensures none { IfNone result ((rest : List ℕ) → text.now ≢ str_to_ascii_lowercase front.now ++ rest) }
{
    if text.len() < front.len() {
        return None;
    }
    for i in 0..front.len() {
        if text[i] != front[i].to_ascii_lowercase() {
            return None;
        }
    }
    Some(&text[front.len()..])
}

/// Whether a text is the key of these parts.
fn is_key(text: &[u8], key: &Key<'_>) -> bool
    ensures { IsTrue result ↔ (text.now ≡ key_text key.now.host.now key.now.port key.now.branch.now) }
{
    let mut buffer = Buffer::new();
    let port = buffer.format(key.port).as_bytes();
    let Some(rest) = behind_lowered(text, key.host) else {
        return false;
    };
    let Some(rest) = behind(rest, b":") else {
        return false;
    };
    let Some(rest) = behind(rest, port) else {
        return false;
    };
    let Some(rest) = behind(rest, b" ") else {
        return false;
    };
    rest == key.branch
}

/// Whether a request has this key, as `append_request_key` says it (RFC 3261 section 17.2.3). It takes no memory.
pub fn has_key<A: Allocator>(message: &Message<A>, key: &[u8]) -> bool
    ensures { IsTrue result ↔ (request_key message.now ≡ Some key.now) }
{
    match key_of(message) {
        None => false,
        Some(own) => is_key(key, &own),
    }
}
