//! One contact of a REGISTER request.
ghost use Rattle.std.specs.Prelude.{◌≡◌, ◌∷◌, ◌++◌, ◌-◌, ◌+◌, [], IfOk, OnOk, filter, length, take};
ghost use Rattle.std.specs.List.{list_all};
ghost use Rattle.std.specs.Option.{option_copied, option_map};
ghost use Rattle.sip_uri.specs.Contact.{contact_params, q_of, seen_form};
ghost use Rattle.sip_uri.specs.Reading.{read_uri, uri_of};
ghost use Rattle.sip_uri.specs.Uri.{params_text};
ghost use Rattle.registrar.specs.Contact.{asked_at, asked_if_read, asked_of, asked_of_form, asked_over, front_of, hop_from, is_expires, is_kept, kept_text, shown_item, time_of, transport_of, value_named};
ghost use Rattle.registrar.specs.SeenTerms.{seen_terms};

use crate::asked::AskedContact;
use crate::expirations::AskedExpirations;
use crate::transport::transport_of;
use authentication::{ContactParams, param_named, port_of_uri};
use sip_lex::{is_param_named, param_value, trim};
use sip_uri::{Hop, SipUri, Transport, UriFault, are_contact_params, form_of, q_of};
use sip_via::is_address;
use std::alloc::{AllocError, Allocator};

/// How long an item may be as it was received.
const MOST_BYTES: usize = 1024;

/// What counts beside a contact itself.
#[derive(Clone, Copy)]
pub(crate) struct ContactTerms<'a> {
    /// Where the request came from.
    pub source: Hop,
    /// Whether the proxy has streams.
    pub streams: bool,
    pub expirations: AskedExpirations,
    /// The value of Expires.
    pub expires: Option<&'a [u8]>,
}

fn is_expires(param: &[u8]) -> bool
    ensures { result ≡ is_expires param.now }
{
    is_param_named(param, b"expires")
}

/// What stands before the parameters of an item.
fn front_of<'a>(item: &'a [u8], params: Option<&[u8]>) -> &'a [u8]
    ensures { result.now ≡ front_of item.now (option_copied params.entry) }
{
    match params {
        None => item,
        Some(params) => &item[..item.len().saturating_sub(params.len()).saturating_sub(1)],
    }
}

/// Appends a parameter behind its `;`, unless it is an `expires`.
#[tactic(auto, using(crate::proofs::ContactLists::left_out, crate::proofs::ContactLists::written))]
fn append_unless_expires<B: Allocator>(out: &mut Vec<u8, B>, param: &[u8]) -> Result<(), AllocError>
    ensures { OnOk result (out.new.items ≡ out.old.items ++ params_text (filter is_kept (param.now ∷ []))) }
{
    if is_expires(param) {
        return Ok(());
    }
    out.push(b';')?;
    out.extend_from_slice(param)
}

/// Appends the parameters but `expires`, each behind its `;`.
#[tactic(auto, using(crate::proofs::ContactLists::kept_step))]
fn append_kept<B: Allocator>(out: &mut Vec<u8, B>, params: Option<&[u8]>) -> Result<(), AllocError>
    ensures { OnOk result (out.new.items ≡ out.old.items ++ kept_text (option_copied params.entry)) }
{
    let mut params = ContactParams::of(params);
    while let Some(param) = params.next() {
        append_unless_expires(out, param)?;
    }
    Ok(())
}

/// The item without its `expires` parameters.
fn shown_item<A: Allocator + Clone>(
    alloc: A,
    item: &[u8],
    params: Option<&[u8]>,
) -> Result<Vec<u8, A>, AllocError>
    ensures { IfOk result (λ text. text.items ≡ shown_item item.now (option_copied params.entry)) }
{
    let mut text = Vec::with_capacity(alloc.clone()?, item.len())?;
    text.extend_from_slice(front_of(item, params))?;
    append_kept(&mut text, params)?;
    Vec::from_slice(alloc, trim(&text))
}

/// The value of the first parameter of this name, if it has one.
fn value_named<'a>(params: Option<&'a [u8]>, name: &[u8]) -> Option<&'a [u8]>
    ensures { option_copied result ≡ value_named name.now (option_copied params.entry) }
{
    match param_named(params, name) {
        None => None,
        Some(param) => param_value(param),
    }
}

/// For how many seconds a contact with these parameters is to be bound.
fn time_of(terms: &ContactTerms<'_>, params: Option<&[u8]>) -> u32
    ensures { result ≡ time_of (seen_terms terms.now) (option_copied params.entry) }
{
    match param_named(params, b"expires") {
        None => terms.expirations.time_by(None, terms.expires),
        Some(param) => terms
            .expirations
            .time_by(Some(param_value(param)), terms.expires),
    }
}

/// Where a request to a contact is sent.
fn hop_from<A: Allocator + Clone>(
    source: Hop,
    address: &[u8],
    uri: &SipUri<A>,
    transport: Transport,
) -> Hop
    ensures { result ≡ hop_from source address.now uri.now transport }
{
    let addr = source.addr;
    if !is_address(uri.host(), addr) {
        return source;
    }
    Hop {
        addr,
        port: port_of_uri(address),
        transport,
    }
}

/// What a contact asks for whose URI was read and asks for this transport.
fn asked_at<'a, A: Allocator + Clone>(
    alloc: A,
    terms: &ContactTerms<'_>,
    item: &[u8],
    address: &'a [u8],
    params: Option<&'a [u8]>,
    uri: SipUri<A>,
    transport: Transport,
) -> Result<AskedContact<'a, A>, AllocError>
    ensures { IfOk result (λ asked. asked ≡ asked_at (seen_terms terms.now) item.now address.entry.now (option_copied params.entry) uri transport) }
{
    let shown = shown_item(alloc, item, params)?;
    let hop = hop_from(terms.source, address, &uri, transport);
    Ok(AskedContact {
        item: shown,
        address,
        uri,
        q: q_of(params),
        instance: value_named(params, b"+sip.instance"),
        reg_id: value_named(params, b"reg-id"),
        hop,
        time: time_of(terms, params),
    })
}

/// What a contact asks for whose URI was read; nothing where it asks for a transport that the proxy has not.
fn asked_over<'a, A: Allocator + Clone>(
    alloc: &A,
    terms: &ContactTerms<'_>,
    item: &[u8],
    address: &'a [u8],
    params: Option<&'a [u8]>,
    uri: SipUri<A>,
) -> Result<Option<AskedContact<'a, A>>, AllocError>
    ensures { IfOk result (λ asked. asked ≡ asked_over (seen_terms terms.now) item.now address.entry.now (option_copied params.entry) uri (transport_of terms.now.streams (uri_of address.entry.now).params)) }
{
    match transport_of(terms.streams, address) {
        None => Ok(None),
        Some(transport) => {
            let asked = asked_at(alloc.clone()?, terms, item, address, params, uri, transport)?;
            Ok(Some(asked))
        }
    }
}

/// What a contact asks for with this address.
fn asked_with<'a, A: Allocator + Clone>(
    alloc: &A,
    terms: &ContactTerms<'_>,
    item: &[u8],
    address: &'a [u8],
    params: Option<&'a [u8]>,
) -> Result<Option<AskedContact<'a, A>>, AllocError>
    ensures { IfOk result (λ asked. asked ≡ asked_if_read (seen_terms terms.now) item.now address.entry.now (option_copied params.entry) (read_uri address.entry.now)) }
{
    match SipUri::read(alloc.clone()?, address) {
        Ok(uri) => asked_over(alloc, terms, item, address, params, uri),
        Err(UriFault::NoMemory) => Err(AllocError),
        Err(_) => Ok(None),
    }
}

/// What a contact asks for; nothing where it is too long, has not the form of a contact, has no SIP URI, or asks for a transport that the
/// proxy has not.
pub(crate) fn asked_of<'a, A: Allocator + Clone>(
    alloc: &A,
    terms: &ContactTerms<'_>,
    item: &'a [u8],
) -> Result<Option<AskedContact<'a, A>>, AllocError>
    ensures { IfOk result (λ asked. asked ≡ asked_of (seen_terms terms.now) item.entry.now) }
{
    if item.len() > MOST_BYTES {
        return Ok(None);
    }
    match form_of(item) {
        None => Ok(None),
        Some((address, params)) => {
            if !are_contact_params(params) {
                return Ok(None);
            }
            asked_with(alloc, terms, item, address, params)
        }
    }
}
