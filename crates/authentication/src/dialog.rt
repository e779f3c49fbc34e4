//! Requests of a dialog that went by the proxy.
ghost use Rattle.std.specs.Prelude.{◌≡◌, ◌↔◌, IsTrue, codes, find};
ghost use Rattle.std.specs.Option.{option_copied};
ghost use Rattle.sip_uri.specs.Reading.{uri_of};
ghost use Rattle.sip_uri.specs.Uri.{is_named};
ghost use Rattle.sip_route.specs.Routes.{bracketed};
ghost use Rattle.authentication.specs.Dialog.{IsOfDialog, IsOwnWithToken, first_route, names_home, token_at, token_of};

use crate::tail::{UriParams, is_uri_param};
use sip_digest::is_good_dialog_token;
use sip_lex::{Shelter, cut_at, cut_outside};
use sip_route::leads_to_proxy;
use sip_text::Message;
use sip_via::Own;
use std::alloc::Allocator;

/// The first Route value.
fn first_route<M: Allocator>(message: &Message<M>) -> Option<&[u8]>
    ensures { option_copied result ≡ first_route message.now }
{
    let line = message.values(b"route").next()?;
    Some(cut_outside(line, b',', Shelter::QuotesAndAngles).0)
}

/// What stands in the first angle brackets outside quotes.
fn bracketed(value: &[u8]) -> Option<&[u8]>
    ensures { option_copied result ≡ bracketed value.now }
{
    let inner = cut_outside(value, b'<', Shelter::Quotes).1?;
    match cut_at(inner, b'>') {
        (_, None) => None,
        (text, Some(_)) => Some(text),
    }
}

/// The first parameter `d` of a URI.
fn d_of(address: &[u8]) -> Option<&[u8]>
    ensures { option_copied result ≡ find (is_named (codes "d")) (uri_of address.now).params }
{
    let mut params = UriParams::of(address);
    while let Some(param) = params.next() {
        if is_uri_param(param, b"d") {
            return Some(param);
        }
    }
    None
}

/// The value of the first parameter `d` of a URI.
fn token_at(address: &[u8]) -> Option<&[u8]>
    ensures { option_copied result ≡ token_at address.now }
{
    match d_of(address) {
        None => None,
        Some(param) => cut_at(param, b'=').1,
    }
}

fn token_of(value: &[u8]) -> Option<&[u8]>
    ensures { option_copied result ≡ token_of value.now }
{
    match bracketed(value) {
        None => None,
        Some(address) => token_at(address),
    }
}

/// Whether a value names the proxy, by the address that it receives at, or by the one that its Record-Route line names.
fn names_home(own: Own, route: Own, value: &[u8]) -> bool
    ensures { result ≡ names_home own route value.now }
{
    leads_to_proxy(own, value) || leads_to_proxy(route, value)
}

/// Whether a value names the proxy, with a token that is good for this Call-ID.
fn is_own_with_token(
    secret: &[u8; 32],
    own: Own,
    route: Own,
    second: u32,
    call_id: &[u8],
    value: &[u8],
) -> bool
    ensures { IsTrue result ↔ IsOwnWithToken secret.now own route second call_id.now value.now }
{
    if !names_home(own, route, value) {
        return false;
    }
    match token_of(value) {
        None => false,
        Some(token) => is_good_dialog_token(token, secret, call_id, second),
    }
}

/// Whether a request belongs to a dialog that went by the proxy: its To has a tag, and its first Route value is the proxy's own, by the
/// address that it receives at or by `route`, which its Record-Route line names, with a parameter `d` whose value is a token that is good for
/// its Call-ID at that second since 1970.
pub fn is_of_dialog<M: Allocator>(
    secret: &[u8; 32],
    own: Own,
    route: Own,
    second: u32,
    message: &Message<M>,
) -> bool
    ensures { IsTrue result ↔ IsOfDialog secret.now own route second message.now }
{
    if message.to_tag().is_none() {
        return false;
    }
    match first_route(message) {
        None => false,
        Some(value) => is_own_with_token(secret, own, route, second, message.call_id(), value),
    }
}
