//! The Record-Route line by which the proxy stays on the path of a dialog.
ghost use Rattle.std.specs.Prelude.{◌≡◌, ◌&&◌, ◌++◌, false, true, IfOk, IfSome, IsTrue, None, OnOk, Some, if◌then◌else◌};
ghost use Rattle.std.specs.Option.{option_copied, option_map};
ghost use Rattle.sip_text.specs.Message.{is_line, is_value};
ghost use Rattle.sip_via.specs.OwnVia.{IsOwn};
ghost use Rattle.sip_build.specs.Dialogs.{opens_dialog};
ghost use Rattle.proxy_config.specs.Setup.{route_of};
ghost use Rattle.fork_call.specs.Opening.{dialog_routes, is_stream, own_route_with, record_route_of, route_end, stream_record_route_of, text_of_token, transport_text, two_routes, with_token};

use proxy_config::{DialogToken, Setup, append_address};
use sip_build::opens_dialog;
use sip_digest::append_dialog_token;
use sip_lex::append_decimal;
use sip_text::Message;
use sip_uri::Transport;
use sip_via::Own;
use std::alloc::{AllocError, Allocator};

/// Shows that the numbers of the proxy's address are bounded.
fn fact_own(own: Own)
    ensures { IsOwn own }
{}

/// Whether a transport is one of connections.
pub(crate) fn is_stream(transport: Transport) -> bool
    ensures { result ≡ is_stream transport }
{
    match transport {
        Transport::Udp => false,
        Transport::Tcp | Transport::Back(_) => true,
    }
}

/// What says in a URI that it is reached over TCP.
fn transport_text(stream: bool) -> &'static [u8]
    ensures { result.now ≡ transport_text stream }
{
    if stream { b";transport=tcp" } else { b"" }
}

/// Appends `lr`, and a token behind that, if there is one, and the bracket.
fn append_end<A: Allocator>(out: &mut Vec<u8, A>, token: Option<&[u8]>) -> Result<(), AllocError>
    ensures { OnOk result (out.new.items ≡ out.old.items ++ route_end (option_copied token.entry)) }
{
    match token {
        None => out.extend_from_slice(b";lr>"),
        Some(token) => {
            out.extend_from_slice(b";lr;d=")?;
            out.extend_from_slice(token)?;
            out.extend_from_slice(b">")
        }
    }
}

/// Appends the URI of the proxy over a transport, in angle brackets, with `lr` and a token behind that, if there is one.
fn append_own_route<A: Allocator>(
    out: &mut Vec<u8, A>,
    own: Own,
    stream: bool,
    token: Option<&[u8]>,
) -> Result<(), AllocError>
    ensures { OnOk result (out.new.items ≡ out.old.items ++ own_route_with own stream (option_copied token.entry)) }
{
    out.extend_from_slice(b"<sip:")?;
    append_address(out, own.addr)?;
    out.push(b':')?;
    append_decimal(out, u64::from(own.port))?;
    out.extend_from_slice(transport_text(stream))?;
    append_end(out, token)
}

/// Shows that such a URI is a header value.
fn own_route_is_value(own: Own, stream: bool, token: Option<&[u8]>)
    requires { IfSome (option_copied token) (λ text. is_line text ≡ true) }
    ensures { IsTrue (is_value (own_route_with own stream (option_copied token.entry))) }
{
    fact_own(own);
}

/// Shows that two such URIs are a header value, with a comma between them.
fn two_are_value(own: Own, first: bool, token: Option<&[u8]>)
    requires { IfSome (option_copied token) (λ text. is_line text ≡ true) }
    ensures { IsTrue (is_value (two_routes own first (option_copied token.entry))) }
{
    fact_own(own);
}

/// The bytes of a text, if there is one.
pub(crate) fn text_in<A: Allocator>(text: &Option<Vec<u8, A>>) -> Option<&[u8]>
    ensures { option_copied result ≡ option_map (λ v. v.items) text.now }
{
    match text {
        Some(text) => Some(text),
        None => None,
    }
}

/// The token of a dialog with this Call-ID, where there is to be one.
fn token_text<A: Allocator + Clone>(
    alloc: A,
    token: Option<DialogToken>,
    id: &[u8],
) -> Result<Option<Vec<u8, A>>, AllocError>
    ensures value { IfOk result (λ text. option_map (λ v. v.items) text ≡ option_map (text_of_token id.now) token) }
    ensures good { IfOk result (λ text. IfSome (option_map (λ v. v.items) text) (λ line. is_line line ≡ true)) }
{
    let Some(token) = token else {
        return Ok(None);
    };
    let mut text = Vec::new(alloc);
    append_dialog_token(&mut text, &token.secret, id, token.second)?;
    Ok(Some(text))
}

/// The URI of the proxy over a transport, in angle brackets, with a token, if there is one.
fn own_route<A: Allocator>(
    alloc: A,
    own: Own,
    stream: bool,
    token: Option<&[u8]>,
) -> Result<Vec<u8, A>, AllocError>
    requires { IfSome (option_copied token) (λ text. is_line text ≡ true) }
    ensures value { IfOk result (λ route. route.items ≡ own_route_with own stream (option_copied token.entry)) }
    ensures good { IfOk result (λ route. IsTrue (is_value route.items)) }
{
    own_route_is_value(own, stream, token);
    let mut route = Vec::new(alloc);
    append_own_route(&mut route, own, stream, token)?;
    Ok(route)
}

/// The URIs of the proxy over this transport and over the other one, with a comma between them.
fn two_routes<A: Allocator>(
    alloc: A,
    own: Own,
    first: bool,
    token: Option<&[u8]>,
) -> Result<Vec<u8, A>, AllocError>
    requires { IfSome (option_copied token) (λ text. is_line text ≡ true) }
    ensures value { IfOk result (λ route. route.items ≡ two_routes own first (option_copied token.entry)) }
    ensures good { IfOk result (λ route. IsTrue (is_value route.items)) }
{
    two_are_value(own, first, token);
    let mut route = own_route(alloc, own, first, token)?;
    route.extend_from_slice(b", ")?;
    append_own_route(&mut route, own, !first, token)?;
    Ok(route)
}

/// The value by which the proxy stays on the path of a dialog whose request came over one transport and goes on over another: where the two
/// differ it has the URI of each, that of the second first (RFC 5658 section 4).
fn dialog_routes<A: Allocator>(
    alloc: A,
    own: Own,
    from: bool,
    to: bool,
    token: Option<&[u8]>,
) -> Result<Vec<u8, A>, AllocError>
    requires { IfSome (option_copied token) (λ text. is_line text ≡ true) }
    ensures value { IfOk result (λ route. route.items ≡ dialog_routes own from to (option_copied token.entry)) }
    ensures good { IfOk result (λ route. IsTrue (is_value route.items)) }
{
    match (from, to) {
        (false, false) | (true, true) => own_route(alloc, own, to, token),
        (true, false) | (false, true) => two_routes(alloc, own, to, token),
    }
}

/// Whether the proxy is to stay on the path of the dialog that the request opens.
fn is_recorded<A: Allocator>(setup: &Setup<A>, request: &Message<A>) -> bool
    ensures { result ≡ (setup.now.records && opens_dialog request.now) }
{
    setup.records() && opens_dialog(request)
}

/// This token, or else the one of the setup, if there is one.
fn token_or_own<A: Allocator>(setup: &Setup<A>, token: Option<DialogToken>) -> Option<DialogToken>
    ensures { result ≡ (with_token token setup.now).token }
{
    match token {
        None => setup.token(),
        Some(_) => token,
    }
}

/// The values of the Record-Route line by which the proxy stays on the path of a dialog, where it is to (RFC 3261 section 16.6 step 4).
#[derive(Drop)]
pub(crate) struct RecordRoutes<A: Allocator> {
    /// That of a request that goes on over UDP.
    pub datagram: Option<Vec<u8, A>>,
    /// That of one that goes on over a connection, where there are any.
    pub stream: Option<Vec<u8, A>>,
}

/// The value of a request that goes on over a connection, where there are any.
fn stream_route<A: Allocator>(
    alloc: A,
    setup: &Setup<A>,
    from: bool,
    token: Option<&[u8]>,
) -> Result<Option<Vec<u8, A>>, AllocError>
    requires { IfSome (option_copied token) (λ text. is_line text ≡ true) }
    ensures value { IfOk result (λ made. option_map (λ v. v.items) made ≡ (if setup.now.streams then Some (dialog_routes (route_of setup.now) from true (option_copied token.entry)) else None)) }
    ensures good { IfOk result (λ made. IfSome (option_map (λ v. v.items) made) (λ value. IsTrue (is_value value))) }
{
    if !setup.has_streams() {
        return Ok(None);
    }
    let route = dialog_routes(alloc, setup.route(), from, true, token)?;
    Ok(Some(route))
}

/// Those of a dialog with this token, if there is one, of which the request came over a connection or not.
fn routes_with<A: Allocator + Clone>(
    alloc: A,
    setup: &Setup<A>,
    from: bool,
    token: Option<&[u8]>,
) -> Result<RecordRoutes<A>, AllocError>
    requires { IfSome (option_copied token) (λ text. is_line text ≡ true) }
    ensures datagram { IfOk result (λ made. option_map (λ v. v.items) made.datagram ≡ Some (dialog_routes (route_of setup.now) from false (option_copied token.entry))) }
    ensures stream { IfOk result (λ made. option_map (λ v. v.items) made.stream ≡ (if setup.now.streams then Some (dialog_routes (route_of setup.now) from true (option_copied token.entry)) else None)) }
    ensures good { IfOk result (λ made. IfSome (option_map (λ v. v.items) made.datagram) (λ value. IsTrue (is_value value))) }
    ensures good_stream { IfOk result (λ made. IfSome (option_map (λ v. v.items) made.stream) (λ value. IsTrue (is_value value))) }
{
    let datagram = dialog_routes(alloc.clone()?, setup.route(), from, false, token)?;
    let stream = stream_route(alloc, setup, from, token)?;
    Ok(RecordRoutes {
        datagram: Some(datagram),
        stream,
    })
}

/// Those by which the proxy stays on the path of the dialog that the request opens, which came over a connection or not, with this token in
/// place of the setup's own, if there is one. It takes memory only where there are any.
pub(crate) fn record_routes_of<A: Allocator + Clone>(
    alloc: A,
    setup: &Setup<A>,
    token: Option<DialogToken>,
    request: &Message<A>,
    from: bool,
) -> Result<RecordRoutes<A>, AllocError>
    ensures datagram { IfOk result (λ made. option_map (λ v. v.items) made.datagram ≡ record_route_of (with_token token setup.now) request.now from false) }
    ensures stream { IfOk result (λ made. option_map (λ v. v.items) made.stream ≡ stream_record_route_of setup.now.streams (with_token token setup.now) request.now from) }
    ensures good { IfOk result (λ made. IfSome (option_map (λ v. v.items) made.datagram) (λ value. IsTrue (is_value value))) }
    ensures good_stream { IfOk result (λ made. IfSome (option_map (λ v. v.items) made.stream) (λ value. IsTrue (is_value value))) }
{
    if !is_recorded(setup, request) {
        return Ok(RecordRoutes {
            datagram: None,
            stream: None,
        });
    }
    let token = token_or_own(setup, token);
    let text = token_text(alloc.clone()?, token, request.call_id())?;
    routes_with(alloc, setup, from, text_in(&text))
}
