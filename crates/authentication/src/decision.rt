//! Whether a request is opened that would open a call.
ghost use Rattle.std.specs.Prelude.{◌≡◌, IfOk, codes, true};
ghost use Rattle.std.specs.Option.{option_map};
ghost use Rattle.authentication.specs.Noted.{noted};
ghost use Rattle.authentication.specs.Party.{uri_in};
ghost use Rattle.authentication.specs.SeenStanding.{seen_standing};
ghost use Rattle.authentication.specs.Decision.{IsDecision, IsOfChecked, IsOfRequest, IsOfSender, IsOfSource, IsOfUntrusted, claimed, is_for_domain, is_for_registrar, is_register, other, plain_turned, proved, unproved};
ghost use Rattle.authentication.specs.Sender.{claims_domain};
ghost use Rattle.authentication.specs.SeenDecision.{seen_admission, seen_decision};

use crate::answer::OwnAnswer;
use crate::challenge::Challenger;
use crate::dialog::is_of_dialog;
use crate::domain::{Domain, is_of_domain};
use crate::party::party_uri;
use crate::realm::RealmSecrets;
use crate::refusal::turned_away;
use crate::sender::{claims_domain, is_from};
use crate::standing::{Standing, standing_of};
use sip_build::OwnStatus;
use sip_route::{first_value, request_uri};
use sip_text::Message;
use sip_uri::{Hop, SipUri, UriFault};
use std::alloc::{AllocError, Allocator, Global};

/// Whom a proxy serves.
#[derive(Drop)]
pub struct CallAdmission<'a, U: Allocator = Global> {
    pub domain: Domain<'a>,
    /// Where credentials are asked for.
    pub realm: Option<&'a RealmSecrets<'a, U>>,
    /// What the tokens of dialogs are made with.
    pub secret: &'a [u8; 32],
    /// Whether strangers may call the users of the domain.
    pub serves_strangers: bool,
}

/// Where and when a request came that would open a call, and what is known of it.
#[derive(Clone, Copy, Debug)]
pub struct Arrival {
    /// The address and the port that it came from.
    pub source: Hop,
    /// The second since 1970 at which it came.
    pub second: u32,
    /// Whether who sends from there needs no password.
    pub trusted: bool,
    /// The status that it is refused with as it stands, whoever sends it (RFC 3261 section 16.3).
    pub refusal: Option<OwnStatus>,
    /// Whether the user of its Request-URI has a location or a binding that is there.
    pub has_place: bool,
}

/// By which rule a request is opened.
#[derive(Clone, Copy, Debug, PartialEq, Eq)]
pub enum Rule {
    /// Its source is trusted.
    Trusted,
    /// It belongs to a dialog that went by the proxy.
    InDialog,
    /// Its sender has the password of the user in From.
    Password,
    /// It is for a user of the domain, whom strangers may call.
    Stranger,
}

/// What is decided of a request.
#[derive(Drop)]
pub enum Decision<A: Allocator = Global> {
    /// It is for the registrar.
    Registers,
    /// It is opened by this rule.
    Opens(Rule),
    /// It is answered so, and, where there is a name, it is noted that wrong credentials came for it.
    Turned(OwnAnswer<A>, Option<Vec<u8, A>>),
}

/// Whether the Request-URI is of the domain.
fn is_for_domain<M: Allocator, A: Allocator + Clone>(
    alloc: A,
    domain: &Domain<'_>,
    message: &Message<M>,
) -> Result<bool, AllocError>
    ensures { IfOk result (λ is. is ≡ is_for_domain domain.now message.now) }
{
    match SipUri::read(alloc, request_uri(message)) {
        Ok(uri) => Ok(is_of_domain(domain, &uri)),
        Err(UriFault::NoMemory) => Err(AllocError),
        Err(_) => Ok(false),
    }
}

/// Whether a request is a REGISTER.
fn is_register<M: Allocator>(message: &Message<M>) -> bool
    ensures { result ≡ is_register message.now }
{
    message.method().unwrap_or(b"") == b"REGISTER".as_slice()
}

/// Whether a request is a REGISTER for the domain (RFC 3261 section 10.2): Max-Forwards and Route are not looked at then.
///
/// # Errors
///
/// Only where the allocator refuses.
pub fn is_for_registrar<M: Allocator, A: Allocator + Clone>(
    alloc: A,
    domain: &Domain<'_>,
    message: &Message<M>,
) -> Result<bool, AllocError>
    ensures { IfOk result (λ is. is ≡ is_for_registrar domain.now message.now) }
{
    if !is_register(message) {
        return Ok(false);
    }
    is_for_domain(alloc, domain, message)
}

/// The name that is noted.
fn noted_of<A: Allocator, C: Allocator>(
    alloc: A,
    standing: &Standing<'_, C>,
) -> Result<Option<Vec<u8, A>>, AllocError>
    ensures { IfOk result (λ name. option_map (λ n. n.items) name ≡ noted (seen_standing standing.now)) }
{
    match standing.noted() {
        None => Ok(None),
        Some(name) => Ok(Some(Vec::from_slice(alloc, name)?)),
    }
}

/// An answer without further lines, of which nothing is noted.
fn turned<A: Allocator>(alloc: A, status: OwnStatus) -> Decision<A>
    ensures { seen_decision result ≡ plain_turned status }
{
    Decision::Turned(OwnAnswer::new(alloc, status), None)
}

/// What is decided where the sender has the password of the user of this name.
fn proved<A: Allocator + Clone>(
    alloc: &A,
    name: &[u8],
    from: &Option<SipUri<A>>,
) -> Result<Decision<A>, AllocError>
    ensures { IfOk result (λ decision. seen_decision decision ≡ proved name.now from.now) }
{
    if is_from(name, from) {
        return Ok(Decision::Opens(Rule::Password));
    }
    let answer = OwnAnswer::new(alloc.clone()?, OwnStatus::Forbidden);
    let noted = Vec::from_slice(alloc.clone()?, name)?;
    Ok(Decision::Turned(answer, Some(noted)))
}

/// What is decided of a request that claims to come from the domain, whose sender has not shown that he may send it.
fn unproved<A: Allocator + Clone, U: Allocator>(
    alloc: &A,
    admission: &CallAdmission<'_, U>,
    arrival: Arrival,
    standing: &Standing<'_, A>,
) -> Result<Decision<A>, AllocError>
    ensures { IfOk result (λ decision. seen_decision decision ≡ unproved (seen_admission admission.now) arrival (seen_standing standing.now)) }
{
    let answer = turned_away(
        alloc.clone()?,
        Challenger::Proxy,
        admission.realm,
        arrival.source.addr,
        arrival.second,
        standing,
    )?;
    let noted = noted_of(alloc.clone()?, standing)?;
    Ok(Decision::Turned(answer, noted))
}

/// What is decided of a request that claims to come from the domain, and whose sender stands so.
fn claimed<A: Allocator + Clone, U: Allocator>(
    alloc: &A,
    admission: &CallAdmission<'_, U>,
    arrival: Arrival,
    from: &Option<SipUri<A>>,
    standing: &Standing<'_, A>,
) -> Result<Decision<A>, AllocError>
    ensures { IfOk result (λ decision. seen_decision decision ≡ claimed (seen_admission admission.now) arrival from.now (seen_standing standing.now)) }
{
    match standing {
        Standing::Right(name) => proved(alloc, name.as_slice(), from),
        Standing::Unasked
        | Standing::Anonymous
        | Standing::Unusable
        | Standing::Stale
        | Standing::Wrong(_) => unproved(alloc, admission, arrival, standing),
    }
}

/// What is decided of a request that claims to come from the domain.
fn of_domain<M: Allocator, A: Allocator + Clone, U: Allocator + Clone>(
    alloc: &A,
    admission: &CallAdmission<'_, U>,
    arrival: Arrival,
    message: &Message<M>,
    from: &Option<SipUri<A>>,
) -> Result<Decision<A>, AllocError>
    requires { from.now ≡ uri_in (codes "from") message.now }
    ensures { IfOk result (λ decision. IsOfSender true (seen_admission admission.now) arrival message.now (seen_decision decision)) }
{
    let standing = standing_of(
        alloc,
        true,
        Challenger::Proxy,
        admission.realm,
        message,
        arrival.source.addr,
        arrival.second,
    )?;
    let decision = claimed(alloc, admission, arrival, from, &standing)?;
    Ok(decision)
}

/// What is decided of a request of one who does not claim to be of the domain.
fn other<M: Allocator, A: Allocator + Clone, U: Allocator>(
    alloc: &A,
    admission: &CallAdmission<'_, U>,
    arrival: Arrival,
    message: &Message<M>,
) -> Result<Decision<A>, AllocError>
    ensures { IfOk result (λ decision. seen_decision decision ≡ other (seen_admission admission.now) arrival message.now) }
{
    let reaches = admission.serves_strangers && arrival.has_place;
    if is_for_domain(alloc.clone()?, &admission.domain, message)? && reaches {
        Ok(Decision::Opens(Rule::Stranger))
    } else {
        Ok(turned(alloc.clone()?, OwnStatus::Forbidden))
    }
}

/// What is decided of a request with this From, which claims to come from the domain or not.
fn of_sender<M: Allocator, A: Allocator + Clone, U: Allocator + Clone>(
    alloc: &A,
    admission: &CallAdmission<'_, U>,
    arrival: Arrival,
    message: &Message<M>,
    claims: bool,
    from: &Option<SipUri<A>>,
) -> Result<Decision<A>, AllocError>
    requires { from.now ≡ uri_in (codes "from") message.now }
    ensures { IfOk result (λ decision. IsOfSender claims (seen_admission admission.now) arrival message.now (seen_decision decision)) }
{
    if claims {
        of_domain(alloc, admission, arrival, message, from)
    } else {
        other(alloc, admission, arrival, message)
    }
}

/// What is decided of a request of no dialog, whose source is not trusted.
fn of_stranger<M: Allocator, A: Allocator + Clone, U: Allocator + Clone>(
    alloc: &A,
    admission: &CallAdmission<'_, U>,
    arrival: Arrival,
    message: &Message<M>,
) -> Result<Decision<A>, AllocError>
    ensures { IfOk result (λ decision. IsOfSender (claims_domain admission.now.domain (uri_in (codes "from") message.now)) (seen_admission admission.now) arrival message.now (seen_decision decision)) }
{
    let from = party_uri(alloc.clone()?, first_value(message, b"from"))?;
    let claims = claims_domain(&admission.domain, &from);
    let decision = of_sender(alloc, admission, arrival, message, claims, &from)?;
    Ok(decision)
}

/// What is decided of a request whose source is not trusted.
fn of_untrusted<M: Allocator, A: Allocator + Clone, U: Allocator + Clone>(
    alloc: &A,
    admission: &CallAdmission<'_, U>,
    arrival: Arrival,
    message: &Message<M>,
) -> Result<Decision<A>, AllocError>
    ensures { IfOk result (λ decision. IsOfUntrusted (seen_admission admission.now) arrival message.now (seen_decision decision)) }
{
    if is_of_dialog(
        admission.secret,
        admission.domain.own,
        admission.domain.route,
        arrival.second,
        message,
    ) {
        return Ok(Decision::Opens(Rule::InDialog));
    }
    let decision = of_stranger(alloc, admission, arrival, message)?;
    Ok(decision)
}

/// What is decided of a request that the checks do not refuse, whose source is trusted or not.
fn of_source<M: Allocator, A: Allocator + Clone, U: Allocator + Clone>(
    alloc: &A,
    admission: &CallAdmission<'_, U>,
    arrival: Arrival,
    message: &Message<M>,
    trusted: bool,
) -> Result<Decision<A>, AllocError>
    ensures { IfOk result (λ decision. IsOfSource trusted (seen_admission admission.now) arrival message.now (seen_decision decision)) }
{
    if trusted {
        Ok(Decision::Opens(Rule::Trusted))
    } else {
        of_untrusted(alloc, admission, arrival, message)
    }
}

/// What is decided of a request that is none for the registrar.
fn of_call<M: Allocator, A: Allocator + Clone, U: Allocator + Clone>(
    alloc: &A,
    admission: &CallAdmission<'_, U>,
    arrival: Arrival,
    message: &Message<M>,
) -> Result<Decision<A>, AllocError>
    ensures { IfOk result (λ decision. IsOfChecked arrival.refusal (seen_admission admission.now) arrival message.now (seen_decision decision)) }
{
    match arrival.refusal {
        Some(status) => Ok(turned(alloc.clone()?, status)),
        None => of_source(alloc, admission, arrival, message, arrival.trusted),
    }
}

/// What is decided of a request, which is for the registrar or not.
fn of_request<M: Allocator, A: Allocator + Clone, U: Allocator + Clone>(
    alloc: &A,
    admission: &CallAdmission<'_, U>,
    arrival: Arrival,
    message: &Message<M>,
    registers: bool,
) -> Result<Decision<A>, AllocError>
    ensures { IfOk result (λ decision. IsOfRequest registers (seen_admission admission.now) arrival message.now (seen_decision decision)) }
{
    if registers {
        Ok(Decision::Registers)
    } else {
        of_call(alloc, admission, arrival, message)
    }
}

/// What is decided of a request that would open a call (RFC 3261 sections 16.3 and 22.3). The first of these decides that holds: a REGISTER
/// for the domain is for the registrar; a request that the checks refuse is answered so; one from a trusted source, or of a dialog that went
/// by the proxy, is opened; of those whose From is of the domain or anonymous one is answered 400 whose credentials cannot be used, one is
/// opened that has the password of the user in From, one is answered 403 that has another user's, and any other is challenged by 407, or
/// answered 403 where there is no realm; a request for a user of the domain who has a place is opened where strangers are served; and any
/// other is answered 403.
///
/// # Errors
///
/// Only where the allocator refuses.
pub fn decision_of<M: Allocator, A: Allocator + Clone, U: Allocator + Clone>(
    alloc: A,
    admission: &CallAdmission<'_, U>,
    arrival: Arrival,
    message: &Message<M>,
) -> Result<Decision<A>, AllocError>
    ensures { IfOk result (λ decision. IsDecision (seen_admission admission.now) arrival message.now (seen_decision decision)) }
{
    let registers = is_for_registrar(alloc.clone()?, &admission.domain, message)?;
    let decision = of_request(&alloc, admission, arrival, message, registers)?;
    Ok(decision)
}
