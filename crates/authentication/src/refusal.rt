//! The answer where the credentials of a request do not do.
ghost use Rattle.std.specs.Prelude.{◌≡◌, true, IfOk, OnOk};
ghost use Rattle.std.specs.List.{list_all};
ghost use Rattle.std.specs.Option.{option_copied};
ghost use Rattle.sip_lex.specs.Values.{is_line};
ghost use Rattle.sip_via.specs.Address.{address_text};
ghost use Rattle.sip_digest.specs.Challenge.{challenge_text};
ghost use Rattle.sip_digest.specs.Stamp.{nonce_text};
ghost use Rattle.authentication.specs.Answer.{challenged, turned_away, turned_by, with_line};
ghost use Rattle.authentication.specs.Challenge.{challenge_line};
ghost use Rattle.authentication.specs.Noted.{noted};
ghost use Rattle.authentication.specs.SeenRealm.{realm_if_any, seen_realm};
ghost use Rattle.authentication.specs.SeenStanding.{seen_standing};

use crate::address::address_of;
use crate::answer::OwnAnswer;
use crate::challenge::Challenger;
use crate::realm::RealmSecrets;
use crate::standing::Standing;
use sip_build::OwnStatus;
use sip_digest::{Algorithm, append_challenge, append_nonce};
use std::alloc::{AllocError, Allocator};

/// The value of a challenge by an algorithm.
fn challenge_value<A: Allocator, U: Allocator>(
    alloc: A,
    realm: &RealmSecrets<'_, U>,
    nonce: &[u8],
    stale: bool,
    algorithm: Algorithm,
) -> Result<Vec<u8, A>, AllocError>
    ensures { IfOk result (λ value. value.items ≡ challenge_text realm.now.name.now nonce.now algorithm stale) }
{
    let mut value = Vec::new(alloc);
    append_challenge(&mut value, realm.name, nonce, algorithm, stale)?;
    Ok(value)
}

/// Adds a challenge by an algorithm.
fn add_challenge<A: Allocator + Clone, U: Allocator>(
    alloc: A,
    answer: &mut OwnAnswer<A>,
    challenger: Challenger,
    realm: &RealmSecrets<'_, U>,
    nonce: &[u8],
    stale: bool,
    algorithm: Algorithm,
) -> Result<(), AllocError>
    requires { is_line nonce.now ≡ true }
    ensures { OnOk result (answer.new ≡ with_line answer.old (challenge_line challenger realm.now.name.now nonce.now stale algorithm)) }
{
    let value = challenge_value(alloc, realm, nonce, stale, algorithm)?;
    answer.push(challenger.challenge_name(), value)
}

/// A new nonce for an address.
#[tactic(auto, using(crate::proofs::Values::nonce_line))]
fn nonce_for<A: Allocator + Clone, U: Allocator>(
    alloc: A,
    realm: &RealmSecrets<'_, U>,
    addr: [u8; 4],
    second: u32,
) -> Result<Vec<u8, A>, AllocError>
    ensures text { IfOk result (λ nonce. nonce.items ≡ nonce_text realm.now.secret.now (address_text addr) second) }
    ensures line { IfOk result (λ nonce. is_line nonce.items ≡ true) }
{
    let address = address_of(alloc.clone()?, addr)?;
    let mut nonce = Vec::new(alloc);
    append_nonce(&mut nonce, realm.secret, &address, second)?;
    Ok(nonce)
}

/// The answer that challenges by each algorithm of a realm.
fn challenged<A: Allocator + Clone, U: Allocator>(
    alloc: A,
    challenger: Challenger,
    realm: &RealmSecrets<'_, U>,
    addr: [u8; 4],
    second: u32,
    stale: bool,
) -> Result<OwnAnswer<A>, AllocError>
    ensures { IfOk result (λ answer. answer ≡ challenged challenger (seen_realm realm.now) (address_text addr) second stale) }
{
    let nonce = nonce_for(alloc.clone()?, realm, addr, second)?;
    let mut answer = OwnAnswer::new(alloc.clone()?, challenger.status());
    let first = realm.algorithms.first();
    add_challenge(
        alloc.clone()?,
        &mut answer,
        challenger,
        realm,
        &nonce,
        stale,
        first,
    )?;
    match realm.algorithms.second() {
        None => Ok(answer),
        Some(other) => {
            add_challenge(alloc, &mut answer, challenger, realm, &nonce, stale, other)?;
            Ok(answer)
        }
    }
}

/// The answer of a realm to one who stands so.
fn turned_by<A: Allocator + Clone, C: Allocator, U: Allocator>(
    alloc: A,
    challenger: Challenger,
    realm: &RealmSecrets<'_, U>,
    addr: [u8; 4],
    second: u32,
    standing: &Standing<'_, C>,
) -> Result<OwnAnswer<A>, AllocError>
    ensures { IfOk result (λ answer. answer ≡ turned_by challenger (seen_realm realm.now) (address_text addr) second (seen_standing standing.now)) }
{
    match standing {
        Standing::Unusable => Ok(OwnAnswer::new(alloc, OwnStatus::BadRequest)),
        Standing::Right(_) => Ok(OwnAnswer::new(alloc, OwnStatus::Forbidden)),
        Standing::Stale => challenged(alloc, challenger, realm, addr, second, true),
        Standing::Unasked | Standing::Anonymous | Standing::Wrong(_) => {
            challenged(alloc, challenger, realm, addr, second, false)
        }
    }
}

/// The answer to a request whose sender has no right to it, by what is known of him: 400 where his credentials cannot be used, 403 where
/// they are right, and so another user's, else a challenge by each algorithm of the realm (RFC 3261 sections 22.2 and 22.3), with `stale`
/// where the nonce of his credentials is not good. Without a realm it is 403.
///
/// # Errors
///
/// Only where the allocator refuses.
pub fn turned_away<A: Allocator + Clone, C: Allocator, U: Allocator>(
    alloc: A,
    challenger: Challenger,
    realm: Option<&RealmSecrets<'_, U>>,
    addr: [u8; 4],
    second: u32,
    standing: &Standing<'_, C>,
) -> Result<OwnAnswer<A>, AllocError>
    ensures { IfOk result (λ answer. answer ≡ turned_away challenger (realm_if_any realm.entry) (address_text addr) second (seen_standing standing.now)) }
{
    match realm {
        None => Ok(OwnAnswer::new(alloc, OwnStatus::Forbidden)),
        Some(realm) => turned_by(alloc, challenger, realm, addr, second, standing),
    }
}

impl<A: Allocator> Standing<'_, A> {
    /// The name for which credentials came whose nonce is good: where the request is refused for them, they are noted as wrong.
    pub fn noted(&self) -> Option<&[u8]>
        ensures { option_copied result ≡ noted (seen_standing self.now) }
    {
        match self {
            Standing::Wrong(name) | Standing::Right(name) => Some(name.as_slice()),
            Standing::Unasked | Standing::Anonymous | Standing::Unusable | Standing::Stale => None,
        }
    }
}
