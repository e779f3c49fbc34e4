//! OPTIONS requests to the proxy itself.
ghost use Rattle.std.specs.Prelude.{◌≡◌, IfOk, false};
ghost use Rattle.std.specs.Bool.{OnTrue};
ghost use Rattle.proxy_config.specs.Setup as spec;
ghost use Rattle.sip_text.specs.Method.{known_method};
ghost use Rattle.sip_uri.specs.Reading.{read_uri};
ghost use Rattle.proxy_dispatch.specs.Asking.{asks_proxy, asks_service, is_options, is_proxy, is_proxy_if_read};

use fork_call::Setup;
use proxy_routing::is_responsible_for;
use sip_lex::cut_at;
use sip_route::request_uri;
use sip_text::{Message, Method};
use sip_uri::{SipUri, UriFault};
use std::alloc::{AllocError, Allocator};

/// Whether a message is an OPTIONS request.
fn is_options<A: Allocator>(message: &Message<A>) -> bool
    ensures { result ≡ is_options (known_method message.now.start) }
{
    match message.known_method() {
        Some(Method::Options) => true,
        Some(Method::Invite | Method::Ack | Method::Cancel | Method::Other) | None => false,
    }
}

/// Whether a URI is the proxy's own: it names no user, and the proxy is responsible for it (RFC 3261 section 16.5).
fn is_proxy<A: Allocator + Clone>(setup: &Setup<A>, uri: &SipUri<A>) -> bool
    ensures { result ≡ is_proxy setup.now uri.now }
{
    uri.user().is_none() && is_responsible_for(setup, uri)
}

/// Whether a text names a user where it spells a URI: an `@` stands behind its scheme. It takes no memory.
fn names_user(text: &[u8]) -> bool
    ensures { OnTrue result ((setup : spec.Setup) → is_proxy_if_read setup (read_uri text.now) ≡ false) }
{
    match text.get(4..) {
        Some(body) => cut_at(body, b'@').1.is_some(),
        None => false,
    }
}

/// Whether a Request-URI is a URI of the proxy's own.
fn names_proxy<A: Allocator + Clone>(
    alloc: A,
    setup: &Setup<A>,
    text: &[u8],
) -> Result<bool, AllocError>
    ensures { IfOk result (λ named. named ≡ is_proxy_if_read setup.now (read_uri text.now)) }
{
    match SipUri::read(alloc, text) {
        Ok(uri) => Ok(is_proxy(setup, &uri)),
        Err(UriFault::NoMemory) => Err(AllocError),
        Err(_) => Ok(false),
    }
}

/// Whether a message is an OPTIONS request outside of a dialog to the proxy itself (RFC 3261 section 11).
fn asks_proxy<A: Allocator + Clone>(
    alloc: A,
    setup: &Setup<A>,
    message: &Message<A>,
) -> Result<bool, AllocError>
    ensures { IfOk result (λ asks. asks ≡ asks_proxy setup.now message.now) }
{
    let uri = request_uri(message);
    if !is_options(message) || names_user(uri) || message.to_tag().is_some() {
        return Ok(false);
    }
    names_proxy(alloc, setup, uri)
}

/// Whether the proxy answers a request itself: it is a service, and the request is an OPTIONS request to it.
///
/// # Errors
///
/// Only where the allocator refuses.
pub(crate) fn asks_service<A: Allocator + Clone>(
    alloc: A,
    setup: &Setup<A>,
    request: &Message<A>,
) -> Result<bool, AllocError>
    ensures { IfOk result (λ asks. asks ≡ asks_service setup.now request.now) }
{
    if !setup.is_for_a_service() {
        return Ok(false);
    }
    asks_proxy(alloc, setup, request)
}
