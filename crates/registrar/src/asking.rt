//! What a REGISTER request asks for.
ghost use Rattle.std.specs.Prelude.{◌≡◌, IfOk, None, not};
ghost use Rattle.std.specs.Option.{option_copied, option_map};
ghost use Rattle.sip_via.specs.Address.{address_text};
ghost use Rattle.sip_via.specs.ViaParts.{or_empty};
ghost use Rattle.sip_route.specs.RequestKey.{request_key};
ghost use Rattle.authentication.specs.declared.challenge.Challenger.TheVariants.{Server};
ghost use Rattle.authentication.specs.Noted.{noted};
ghost use Rattle.authentication.specs.SeenRealm.{realm_if_any};
ghost use Rattle.authentication.specs.SeenStanding.{seen_standing};
ghost use Rattle.authentication.specs.Standing as known;
ghost use Rattle.registrar.specs.Asking.{IsAsking, IsAskingFor, IsAskingIf, asked_by, asks_extension, extension_answer, is_users, registration_of, terms_of, user_of, user_of_domain, Turned};
ghost use Rattle.registrar.specs.SeenAsking.{seen_asking, seen_registration};
ghost use Rattle.registrar.specs.SeenTerms.{seen_terms};

use crate::contact::ContactTerms;
use crate::contacts::{Contacts, contacts_of};
use crate::expirations::AskedExpirations;
use crate::source::Source;
use authentication::{
    Challenger, Domain, OwnAnswer, RealmSecrets, Standing, is_of_domain, party_uri, standing_of,
    turned_away,
};
use sip_build::OwnStatus;
use sip_route::{append_request_key, first_value};
use sip_text::{Message, header_values_are_values};
use sip_uri::SipUri;
use std::alloc::{AllocError, Allocator, Global};

/// What a registrar goes by.
#[derive(Drop)]
pub struct Registrar<'a, U: Allocator = Global> {
    pub domain: Domain<'a>,
    /// Where credentials are asked for.
    pub realm: Option<&'a RealmSecrets<'a, U>>,
    pub expirations: AskedExpirations,
}

/// What a REGISTER request asks for whose sender may make it.
#[derive(Drop)]
pub struct Registration<'a, A: Allocator = Global> {
    pub(crate) user: Vec<u8, A>,
    pub(crate) call_id: &'a [u8],
    pub(crate) cseq: u32,
    pub(crate) key: Vec<u8, A>,
    pub(crate) at: u64,
    pub(crate) least: u32,
    pub(crate) contacts: Contacts<'a, A>,
}

/// What a REGISTER request asks for, or how it is answered before that is looked at.
#[derive(Drop)]
pub enum Asking<'a, A: Allocator = Global> {
    /// It is answered so, and, where there is a name, it is noted that wrong credentials came for it.
    Turned(OwnAnswer<A>, Option<Vec<u8, A>>),
    Registers(Registration<'a, A>),
}

impl<A: Allocator> Registration<'_, A> {
    /// The user whose bindings it is for: the userinfo of To.
    pub fn user(&self) -> &[u8]
        ensures { result.now ≡ (seen_registration self.now).user }
    {
        &self.user
    }
}

/// Whether a request asks for an extension.
fn asks_extension<M: Allocator>(message: &Message<M>) -> bool
    ensures { result ≡ asks_extension message.now }
{
    message.values(b"require").next().is_some()
}

/// The 420 that names what a request asks for.
fn extension_answer<M: Allocator, A: Allocator + Clone>(
    alloc: &A,
    message: &Message<M>,
) -> Result<OwnAnswer<A>, AllocError>
    ensures { IfOk result (λ answer. answer ≡ extension_answer message.now) }
{
    header_values_are_values();
    message.is_message();
    let mut answer = OwnAnswer::new(alloc.clone()?, OwnStatus::BadExtension);
    let mut values = message.values(b"require");
    while let Some(value) = values.next() {
        let copy = Vec::from_slice(alloc.clone()?, value)?;
        answer.push(b"Unsupported", copy)?;
    }
    Ok(answer)
}

/// The user that a URI names, where it is of the domain.
fn user_of_domain<'a, A: Allocator + Clone>(
    domain: &Domain<'_>,
    uri: &'a Option<SipUri<A>>,
) -> Option<&'a [u8]>
    ensures { option_copied result ≡ user_of_domain domain.now uri.now }
{
    match uri {
        None => None,
        Some(uri) => {
            if is_of_domain(domain, uri) {
                uri.user()
            } else {
                None
            }
        }
    }
}

/// The user of the domain whom To names.
fn user_of<M: Allocator, A: Allocator + Clone>(
    alloc: &A,
    domain: &Domain<'_>,
    message: &Message<M>,
) -> Result<Option<Vec<u8, A>>, AllocError>
    ensures { IfOk result (λ user. option_map (λ u. u.items) user ≡ user_of domain.now message.now) }
{
    let uri = party_uri(alloc.clone()?, first_value(message, b"to"))?;
    match user_of_domain(domain, &uri) {
        None => Ok(None),
        Some(user) => Ok(Some(Vec::from_slice(alloc.clone()?, user)?)),
    }
}

/// Whether credentials are right, and this user's.
fn is_users<A: Allocator>(user: &[u8], standing: &Standing<'_, A>) -> bool
    ensures { result ≡ is_users user.now (seen_standing standing.now) }
{
    match standing {
        Standing::Right(name) => name.as_slice() == user,
        Standing::Unasked
        | Standing::Anonymous
        | Standing::Unusable
        | Standing::Stale
        | Standing::Wrong(_) => false,
    }
}

/// The key of the transaction; empty where the request has none.
fn key_of<M: Allocator, A: Allocator>(
    alloc: A,
    message: &Message<M>,
) -> Result<Vec<u8, A>, AllocError>
    ensures { IfOk result (λ key. key.items ≡ or_empty (request_key message.now)) }
{
    let mut key = Vec::new(alloc);
    let _has_key = append_request_key(&mut key, message)?;
    Ok(key)
}

/// What counts beside each contact.
fn terms_of<'a, M: Allocator, U: Allocator>(
    registrar: &Registrar<'_, U>,
    source: Source,
    message: &'a Message<M>,
) -> ContactTerms<'a>
    ensures { seen_terms result ≡ terms_of registrar.now.domain registrar.now.expirations source message.now }
{
    ContactTerms {
        source: source.hop,
        streams: registrar.domain.streams,
        expirations: registrar.expirations,
        expires: message.values(b"expires").next(),
    }
}

/// What a request asks for, for this user.
fn registration_of<'a, M: Allocator, A: Allocator + Clone, U: Allocator>(
    alloc: &A,
    registrar: &Registrar<'_, U>,
    source: Source,
    message: &'a Message<M>,
    user: Vec<u8, A>,
) -> Result<Registration<'a, A>, AllocError>
    ensures { IfOk result (λ r. seen_registration r ≡ registration_of registrar.now.domain registrar.now.expirations source message.now user.items) }
{
    let terms = terms_of(registrar, source, message);
    let contacts = contacts_of(alloc, &terms, message)?;
    let key = key_of(alloc.clone()?, message)?;
    Ok(Registration {
        user,
        call_id: message.call_id(),
        cseq: message.cseq().number,
        key,
        at: source.millisecond,
        least: registrar.expirations.least,
        contacts,
    })
}

/// The name that is noted.
fn noted_of<A: Allocator, C: Allocator>(
    alloc: A,
    standing: &Standing<'_, C>,
) -> Result<Option<Vec<u8, A>>, AllocError>
    ensures { IfOk result (λ name. option_map (λ n. n.items) name ≡ noted (seen_standing standing.now)) }
{
    match standing.noted() {
        None => Ok(None),
        Some(name) => Ok(Some(Vec::from_slice(alloc, name)?)),
    }
}

/// What becomes of a request for this user, whose sender stands so.
fn asked_by<'a, M: Allocator, A: Allocator + Clone, U: Allocator>(
    alloc: &A,
    registrar: &Registrar<'_, U>,
    source: Source,
    message: &'a Message<M>,
    standing: &Standing<'_, A>,
    user: Vec<u8, A>,
) -> Result<Asking<'a, A>, AllocError>
    ensures { IfOk result (λ asked. seen_asking asked ≡ asked_by registrar.now.domain (realm_if_any registrar.now.realm) registrar.now.expirations source message.now (seen_standing standing.now) user.items) }
{
    if source.inside || is_users(&user, standing) {
        let registration = registration_of(alloc, registrar, source, message, user)?;
        return Ok(Asking::Registers(registration));
    }
    let answer = turned_away(
        alloc.clone()?,
        Challenger::Server,
        registrar.realm,
        source.hop.addr,
        source.second,
        standing,
    )?;
    let noted = noted_of(alloc.clone()?, standing)?;
    Ok(Asking::Turned(answer, noted))
}

/// What becomes of a request that asks for no extension, with what is known of its sender.
fn asked_for_user<'a, M: Allocator, A: Allocator + Clone, U: Allocator + Clone>(
    alloc: &A,
    registrar: &Registrar<'_, U>,
    source: Source,
    message: &'a Message<M>,
    user: Vec<u8, A>,
) -> Result<Asking<'a, A>, AllocError>
    ensures { IfOk result (λ asked. (standing : known.Standing)
        × known.Stands (not source.inside) Server (realm_if_any registrar.now.realm) message.now (known.arrival_of message.now (address_text source.hop.addr) source.second) standing
        × (seen_asking asked ≡ asked_by registrar.now.domain (realm_if_any registrar.now.realm) registrar.now.expirations source message.now standing user.items)) }
{
    let standing = standing_of(
        alloc,
        !source.inside,
        Challenger::Server,
        registrar.realm,
        message,
        source.hop.addr,
        source.second,
    )?;
    let asked = asked_by(alloc, registrar, source, message, &standing, user)?;
    Ok(asked)
}

/// What becomes of a request that asks for no extension, whose To names this user of the domain, or none.
fn asking_for<'a, M: Allocator, A: Allocator + Clone, U: Allocator + Clone>(
    alloc: &A,
    registrar: &Registrar<'_, U>,
    source: Source,
    message: &'a Message<M>,
    user: Option<Vec<u8, A>>,
) -> Result<Asking<'a, A>, AllocError>
    ensures { IfOk result (λ asked. IsAskingFor registrar.now.domain (realm_if_any registrar.now.realm) registrar.now.expirations source message.now (option_map (λ u. u.items) user) (seen_asking asked)) }
{
    match user {
        None => Ok(Asking::Turned(OwnAnswer::new(alloc.clone()?, OwnStatus::NotFound), None)),
        Some(user) => asked_for_user(alloc, registrar, source, message, user),
    }
}

/// What becomes of a request that asks for an extension.
fn asking_extension<'a, M: Allocator, A: Allocator + Clone>(
    alloc: &A,
    message: &'a Message<M>,
) -> Result<Asking<'a, A>, AllocError>
    ensures { IfOk result (λ asked. seen_asking asked ≡ Turned (extension_answer message.now) None) }
{
    let answer = extension_answer(alloc, message)?;
    Ok(Asking::Turned(answer, None))
}

/// What becomes of a request that asks for no extension.
fn asking_plainly<'a, M: Allocator, A: Allocator + Clone, U: Allocator + Clone>(
    alloc: &A,
    registrar: &Registrar<'_, U>,
    source: Source,
    message: &'a Message<M>,
) -> Result<Asking<'a, A>, AllocError>
    ensures { IfOk result (λ asked. IsAskingFor registrar.now.domain (realm_if_any registrar.now.realm) registrar.now.expirations source message.now (user_of registrar.now.domain message.now) (seen_asking asked)) }
{
    let user = user_of(alloc, &registrar.domain, message)?;
    let asked = asking_for(alloc, registrar, source, message, user)?;
    Ok(asked)
}

/// What becomes of a request, which asks for an extension or not.
fn asking_if<'a, M: Allocator, A: Allocator + Clone, U: Allocator + Clone>(
    alloc: &A,
    registrar: &Registrar<'_, U>,
    source: Source,
    message: &'a Message<M>,
    extension: bool,
) -> Result<Asking<'a, A>, AllocError>
    ensures { IfOk result (λ asked. IsAskingIf extension registrar.now.domain (realm_if_any registrar.now.realm) registrar.now.expirations source message.now (seen_asking asked)) }
{
    if extension {
        asking_extension(alloc, message)
    } else {
        asking_plainly(alloc, registrar, source, message)
    }
}

/// What a REGISTER request of the domain asks for, or how it is answered before that is looked at (RFC 3261 section 10.3 steps 1 to 5), in
/// this order: 420 where it has a Require; 404 where To names no user of the domain; and, where the source is not inside, 400, 403 or 401
/// where its credentials do not do, and 403 where there is no realm. No binding is looked at. Its top Via value has to be readable, with a
/// branch.
///
/// # Errors
///
/// Only where the allocator refuses.
pub fn asking_of<'a, M: Allocator, A: Allocator + Clone, U: Allocator + Clone>(
    alloc: A,
    registrar: &Registrar<'_, U>,
    source: Source,
    message: &'a Message<M>,
) -> Result<Asking<'a, A>, AllocError>
    ensures { IfOk result (λ asked. IsAsking registrar.now.domain (realm_if_any registrar.now.realm) registrar.now.expirations source message.now (seen_asking asked)) }
{
    let extension = asks_extension(message);
    let asked = asking_if(&alloc, registrar, source, message, extension)?;
    Ok(asked)
}
