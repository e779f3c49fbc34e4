//! Credentials for the realm of the proxy, which do not go on with a request.
ghost use Rattle.std.specs.Prelude.{◌↔◌, ◌<◌, length, slice_get, IfOk, IfSome, IsTrue, Some};
ghost use Rattle.std.specs.Option.{option_copied};
ghost use Rattle.sip_digest.specs.OwnCredentials.{IsTakenOff};
ghost use Rattle.sip_text.specs.Text.{MessageText};
ghost use Rattle.proxy_routing.specs.OwnCredentials.{IsWithoutOwnCredentials};
ghost use Rattle.proxy_routing.specs.inner.TakenOff.{IsTakenFurther, IsTakenSoFar};

use sip_digest::is_taken_off;
use sip_text::Message;
use std::alloc::{AllocError, Allocator};

/// Whether the header line at a place has credentials for a realm.
fn is_taken_off_at<A: Allocator + Clone>(
    alloc: A,
    message: &Message<A>,
    realm: &[u8],
    place: usize,
) -> Result<bool, AllocError>
    ensures { IfOk result (λ taken. IfSome (slice_get message.now.headers place) (λ h. IsTrue taken ↔ IsTakenOff realm.now h.name h.value)) }
{
    match message.headers().get(place) {
        None => Ok(false),
        Some(line) => is_taken_off(alloc, realm, line.name, line.value),
    }
}

/// The request without the line at a place, where that has credentials for a realm, and the place of the next line.
fn without_line<A: Allocator + Clone>(
    alloc: A,
    message: Message<A>,
    realm: &[u8],
    place: usize,
) -> Result<(Message<A>, usize), AllocError>
    requires { place < length message.headers }
    ensures { (initial : MessageText) → IsTakenSoFar realm.now initial message place → IfOk result (IsTakenFurther realm.now initial message place) }
{
    let mut message = message;
    if !is_taken_off_at(alloc, &message, realm, place)? {
        return Ok((message, place + 1));
    }
    message.is_message();
    message.remove_header(place);
    Ok((message, place))
}

/// The request without its credentials for a realm.
fn without_credentials<A: Allocator + Clone>(
    alloc: A,
    message: Message<A>,
    realm: &[u8],
) -> Result<Message<A>, AllocError>
    ensures { IfOk result (IsWithoutOwnCredentials (Some realm.now) message) }
{
    let mut message = message;
    let mut place = 0;
    while place < message.headers().len() {
        let (left, next) = without_line(alloc.clone()?, message, realm, place)?;
        message = left;
        place = next;
    }
    Ok(message)
}

/// The request without its credentials for the realm of the proxy, if that has one (RFC 3261 section 22.3).
pub(crate) fn without_own_credentials<A: Allocator + Clone>(
    alloc: A,
    realm: Option<&[u8]>,
    message: Message<A>,
) -> Result<Message<A>, AllocError>
    ensures { IfOk result (IsWithoutOwnCredentials (option_copied realm.entry) message) }
{
    match realm {
        None => Ok(message),
        Some(realm) => without_credentials(alloc, message, realm),
    }
}
