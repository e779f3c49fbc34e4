//! What a REGISTER request makes of the bindings of its user.
ghost use Rattle.std.specs.Fmt.{decimal};
ghost use Rattle.std.specs.Prelude.{◌≡◌, ◌+◌, IfOk, false, nat_lt};
ghost use Rattle.bindings.specs.declared.refusal.RegisterRefusal.TheVariants as refusals;
ghost use Rattle.bindings.specs.Bindings.{there};
ghost use Rattle.bindings.specs.Registering.{is_repeat, refusal};
ghost use Rattle.bindings.specs.Seen.{all_asked_of, register_of as seen_request};
ghost use Rattle.registrar.specs.Outcome.{full_answer, is_malformed, listed_of, outcome_by, outcome_of, outcome_with, refused_by, refused_with, register_of, star_of, too_brief_answer, unless_full};
ghost use Rattle.registrar.specs.SeenAsking.{seen_registration};
ghost use Rattle.registrar.specs.SeenContacts.{seen_contacts};
ghost use Rattle.registrar.specs.SeenOutcome.{seen_outcome};

use crate::asked::AskedContact;
use crate::asking::Registration;
use crate::contacts::Contacts;
use authentication::OwnAnswer;
use bindings::{RegisterContact, RegisterRefusal, RegisterRequest, UserBindings};
use sip_build::OwnStatus;
use sip_lex::append_decimal;
use std::alloc::{AllocError, Allocator, Global};

/// What a REGISTER request makes of the bindings of its user.
#[derive(Drop)]
pub enum RegisterOutcome<A: Allocator = Global> {
    /// It was taken before, and changes nothing: it is answered as one that was taken.
    Repeated,
    /// It changes nothing, and is answered so.
    Refused(OwnAnswer<A>),
    /// The bindings afterwards.
    Changes(UserBindings<A>),
}

impl<'a, A: Allocator> Contacts<'a, A> {
    fn star(&self) -> Option<u32>
        ensures { result ≡ star_of (seen_contacts self.now) }
    {
        match self {
            Contacts::Star(seconds) => Some(*seconds),
            Contacts::Malformed | Contacts::Listed(_) => None,
        }
    }

    fn listed(&self) -> &[AskedContact<'a, A>]
        ensures { result.now ≡ listed_of (seen_contacts self.now) }
    {
        match self {
            Contacts::Listed(contacts) => contacts,
            Contacts::Malformed | Contacts::Star(_) => &[],
        }
    }

    fn is_malformed(&self) -> bool
        ensures { result ≡ is_malformed (seen_contacts self.now) }
    {
        match self {
            Contacts::Malformed => true,
            Contacts::Star(_) | Contacts::Listed(_) => false,
        }
    }
}

/// The contacts, as the bindings take them.
fn as_contacts<'c, A: Allocator + Clone, B: Allocator>(
    alloc: B,
    asked: &'c [AskedContact<'_, A>],
) -> Result<Vec<RegisterContact<'c>, B>, AllocError>
    ensures { IfOk result (λ contacts. all_asked_of contacts.items ≡ asked.now) }
{
    let mut contacts = Vec::new(alloc);
    for contact in asked {
        contacts.push(contact.as_contact())?;
    }
    Ok(contacts)
}

/// The request with these contacts, as the bindings take it.
fn request_with<'c, A: Allocator>(
    registration: &'c Registration<'_, A>,
    contacts: &'c [RegisterContact<'c>],
) -> RegisterRequest<'c>
    requires { all_asked_of contacts.now ≡ listed_of (seen_contacts registration.now.contacts) }
    ensures { seen_request result ≡ register_of (seen_registration registration.now) }
{
    RegisterRequest {
        call_id: registration.call_id,
        cseq: registration.cseq,
        key: &registration.key,
        at: registration.at,
        least: registration.least,
        star: registration.contacts.star(),
        contacts,
    }
}

/// A number as the value of a header line.
fn decimal_value<A: Allocator>(alloc: A, n: u32) -> Result<Vec<u8, A>, AllocError>
    ensures { IfOk result (λ value. value.items ≡ decimal n) }
{
    let mut value = Vec::new(alloc);
    append_decimal(&mut value, u64::from(n))?;
    Ok(value)
}

/// The 423 that says how many seconds are the fewest.
fn too_brief_answer<A: Allocator + Clone>(alloc: A, least: u32) -> Result<OwnAnswer<A>, AllocError>
    ensures { IfOk result (λ answer. answer ≡ too_brief_answer least) }
{
    let value = decimal_value(alloc.clone()?, least)?;
    let mut answer = OwnAnswer::new(alloc, OwnStatus::IntervalTooBrief);
    answer.push(b"Min-Expires", value)?;
    Ok(answer)
}

/// The 503 where there would be too many bindings in all: the request may come again in a minute (RFC 3261 section 20.33).
///
/// # Errors
///
/// Only where the allocator refuses.
pub fn full_answer<A: Allocator + Clone>(alloc: A) -> Result<OwnAnswer<A>, AllocError>
    ensures { IfOk result (λ answer. answer ≡ full_answer) }
{
    let value = Vec::from_slice(alloc.clone()?, b"60")?;
    let mut answer = OwnAnswer::new(alloc, OwnStatus::ServiceUnavailable);
    answer.push(b"Retry-After", value)?;
    Ok(answer)
}

/// An answer of this status without further lines.
fn refused<A: Allocator>(alloc: A, status: OwnStatus) -> RegisterOutcome<A>
    ensures { seen_outcome result ≡ refused_with status }
{
    RegisterOutcome::Refused(OwnAnswer::new(alloc, status))
}

/// Whether so many bindings and those of the others are more than there may be.
fn is_full(others: u32, most: u32, count: usize) -> bool
    ensures { result ≡ nat_lt most (others + count) }
{
    u64::from(most) < u64::from(others).saturating_add(count as u64)
}

/// These bindings, where there are not too many in all then.
fn unless_full<A: Allocator + Clone>(
    alloc: A,
    others: u32,
    most: u32,
    changed: UserBindings<A>,
) -> Result<RegisterOutcome<A>, AllocError>
    ensures { IfOk result (λ outcome. seen_outcome outcome ≡ unless_full others most changed) }
{
    if is_full(others, most, changed.len()) {
        Ok(RegisterOutcome::Refused(full_answer(alloc)?))
    } else {
        Ok(RegisterOutcome::Changes(changed))
    }
}

/// What becomes of a request that the bindings refuse for this reason.
///
/// # Errors
///
/// Where memory is the reason, or the allocator refuses.
fn refused_by<A: Allocator + Clone>(
    alloc: A,
    least: u32,
    why: RegisterRefusal,
) -> Result<RegisterOutcome<A>, AllocError>
    ensures { IfOk result (λ outcome. (why ≡ refusals.NoMemory → ⊥) × (seen_outcome outcome ≡ refused_by least why)) }
{
    match why {
        RegisterRefusal::Star | RegisterRefusal::TooMany | RegisterRefusal::Twice => {
            Ok(refused(alloc, OwnStatus::BadRequest))
        }
        RegisterRefusal::TooBrief => Ok(RegisterOutcome::Refused(too_brief_answer(alloc, least)?)),
        RegisterRefusal::OutOfOrder => Ok(refused(alloc, OwnStatus::ServerInternalError)),
        RegisterRefusal::NoMemory => Err(AllocError),
    }
}

/// What a request makes of the bindings that comes for the first time.
#[tactic(auto, using(crate::proofs::Outcomes::changed_is, crate::proofs::Outcomes::refused_is, crate::proofs::Outcomes::told))]
fn outcome_by<A: Allocator + Clone>(
    alloc: A,
    request: &RegisterRequest<'_>,
    others: u32,
    most: u32,
    bindings: &UserBindings<A>,
) -> Result<RegisterOutcome<A>, AllocError>
    requires { is_repeat (seen_request request.now) bindings.now ≡ false }
    ensures { IfOk result (λ outcome. seen_outcome outcome
        ≡ outcome_by (seen_request request.now) others most bindings.now (refusal (seen_request request.now) (there request.now.at bindings.now))) }
{
    match bindings.prepared(alloc.clone()?, request) {
        Ok(Some(changed)) => {
            let outcome = unless_full(alloc, others, most, changed)?;
            Ok(outcome)
        }
        Ok(None) => unreachable!(),
        Err(why) => {
            let outcome = refused_by(alloc, request.least, why)?;
            Ok(outcome)
        }
    }
}

/// What a request makes of the bindings, whose contacts may be malformed.
fn outcome_with<A: Allocator + Clone>(
    alloc: A,
    request: &RegisterRequest<'_>,
    is_malformed: bool,
    others: u32,
    most: u32,
    bindings: &UserBindings<A>,
) -> Result<RegisterOutcome<A>, AllocError>
    ensures { IfOk result (λ outcome. seen_outcome outcome ≡ outcome_with (seen_request request.now) is_malformed others most bindings.now) }
{
    if bindings.is_repeat(request) {
        return Ok(RegisterOutcome::Repeated);
    }
    if is_malformed {
        return Ok(refused(alloc, OwnStatus::BadRequest));
    }
    outcome_by(alloc, request, others, most, bindings)
}

impl<A: Allocator + Clone> Registration<'_, A> {
    /// What the request makes of the bindings of its user (RFC 3261 section 10.3 steps 6 to 8), where the other users have so many bindings
    /// and so many may be in all. Nothing is changed: the caller puts the new bindings in the place of the old ones, once they are kept.
    ///
    /// In this order: a request that made a binding that is there comes again, and changes nothing. It is refused by 400 where its contacts
    /// are malformed, `*` stands wrongly, there are more than 16 of them, or two name the same binding; by 423 where one is to be bound for
    /// too few seconds; by 500 where a binding that it names was made by a request of the same Call-ID with a CSeq number that is not
    /// smaller; and by 503 where there would be too many bindings in all.
    ///
    /// # Errors
    ///
    /// Only where the allocator refuses.
    pub fn outcome_of<B: Allocator + Clone>(
        &self,
        alloc: B,
        others: u32,
        most: u32,
        bindings: &UserBindings<B>,
    ) -> Result<RegisterOutcome<B>, AllocError>
        ensures { IfOk result (λ outcome. seen_outcome outcome ≡ outcome_of (seen_registration self.now) others most bindings.now) }
    {
        let contacts = as_contacts(alloc.clone()?, self.contacts.listed())?;
        let request = request_with(self, &contacts);
        outcome_with(
            alloc,
            &request,
            self.contacts.is_malformed(),
            others,
            most,
            bindings,
        )
    }
}
