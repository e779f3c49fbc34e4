//! What the credentials of a request are worth.
ghost use Rattle.std.specs.Prelude.{◌≡◌, IfOk};
ghost use Rattle.sip_digest.specs.SeenCredentials.{seen_credentials, seen_reading};
ghost use Rattle.sip_via.specs.Address.{address_text};
ghost use Rattle.authentication.specs.SeenRealm.{realm_if_any, seen_realm};
ghost use Rattle.authentication.specs.Standing.{IsJudged, IsJudgedOf, IsVerdictOn, Stands, StandsFor, arrival_of, asked_as};
ghost use Rattle.authentication.specs.SeenStanding.{seen_standing};

use crate::address::address_of;
use crate::challenge::Challenger;
use crate::given::given_in;
use crate::realm::RealmSecrets;
use sip_digest::{
    AuthText, Credentials, CredentialsVerdict, JudgedRequest, ReadCredentials, is_uri_of,
    verdict_of,
};
use sip_route::request_uri;
use sip_text::Message;
use std::alloc::{AllocError, Allocator};

/// What is known of the sender of a request by its credentials.
#[derive(Drop)]
pub enum Standing<'a, A: Allocator> {
    /// Nobody looked at them.
    Unasked,
    /// None came for the realm, or there is no realm.
    Anonymous,
    /// They cannot be read, or are for another URI than the request's.
    Unusable,
    /// Their nonce is not good.
    Stale,
    /// Their nonce is good, and they are not those of the user whom they name.
    Wrong(AuthText<'a, A>),
    /// They are those of the user whom they name.
    Right(AuthText<'a, A>),
}

/// The verdict on credentials that came with a request.
fn verdict<A: Allocator + Clone, U: Allocator + Clone>(
    alloc: A,
    realm: &RealmSecrets<'_, U>,
    asked: &JudgedRequest<'_>,
    credentials: &Credentials<'_, A>,
) -> Result<CredentialsVerdict, AllocError>
    ensures { IfOk result (λ verdict. IsVerdictOn (seen_realm realm.now) (asked_as asked.now) (seen_credentials credentials.now) verdict) }
{
    let secrets = realm.users.secrets(credentials.username.as_slice());
    let verdict = verdict_of(
        alloc,
        realm.secret,
        realm.algorithms,
        secrets,
        asked,
        credentials,
    )?;
    match verdict {
        CredentialsVerdict::Right => Ok(CredentialsVerdict::Right),
        CredentialsVerdict::Stale => Ok(CredentialsVerdict::Stale),
        CredentialsVerdict::Wrong => Ok(CredentialsVerdict::Wrong),
    }
}

/// What credentials of the realm are worth.
fn judged_of<'a, A: Allocator + Clone, U: Allocator + Clone>(
    alloc: &A,
    realm: &RealmSecrets<'_, U>,
    asked: &JudgedRequest<'_>,
    credentials: Credentials<'a, A>,
) -> Result<Standing<'a, A>, AllocError>
    ensures { IfOk result (λ standing. IsJudgedOf (seen_realm realm.now) (asked_as asked.now) (seen_credentials credentials.entry) (seen_standing standing)) }
{
    let is_uri = is_uri_of(alloc.clone()?, credentials.uri.as_slice(), asked.uri)?;
    if !is_uri {
        return Ok(Standing::Unusable);
    }
    let verdict = verdict(alloc.clone()?, realm, asked, &credentials)?;
    let name = credentials.username;
    match verdict {
        CredentialsVerdict::Right => Ok(Standing::Right(name)),
        CredentialsVerdict::Stale => Ok(Standing::Stale),
        CredentialsVerdict::Wrong => Ok(Standing::Wrong(name)),
    }
}

/// What the credentials that were read from a request are worth.
fn judged<'a, A: Allocator + Clone, U: Allocator + Clone>(
    alloc: &A,
    realm: &RealmSecrets<'_, U>,
    asked: &JudgedRequest<'_>,
    reading: ReadCredentials<'a, A>,
) -> Result<Standing<'a, A>, AllocError>
    ensures { IfOk result (λ standing. IsJudged (seen_realm realm.now) (asked_as asked.now) (seen_reading reading.entry) (seen_standing standing)) }
{
    match reading {
        ReadCredentials::OtherRealm => Ok(Standing::Anonymous),
        ReadCredentials::Unreadable => Ok(Standing::Unusable),
        ReadCredentials::Read(credentials) => judged_of(alloc, realm, asked, credentials),
    }
}

/// The request that credentials came with.
fn asked_of<'a, M: Allocator>(
    message: &'a Message<M>,
    address: &'a [u8],
    second: u32,
) -> JudgedRequest<'a>
    ensures { asked_as result ≡ arrival_of message.now address.now second }
{
    JudgedRequest {
        method: message.method().unwrap_or(b""),
        uri: request_uri(message),
        address,
        second,
    }
}

/// What the credentials for a realm are worth that came with a request.
fn stands_for<'a, M: Allocator, A: Allocator + Clone, U: Allocator + Clone>(
    alloc: &A,
    challenger: Challenger,
    realm: &RealmSecrets<'_, U>,
    message: &'a Message<M>,
    addr: [u8; 4],
    second: u32,
) -> Result<Standing<'a, A>, AllocError>
    ensures { IfOk result (λ standing. StandsFor challenger (seen_realm realm.now) message.now (arrival_of message.now (address_text addr) second) (seen_standing standing)) }
{
    let reading = given_in(alloc, message, challenger.credentials_name(), realm.name)?;
    let address = address_of(alloc.clone()?, addr)?;
    let asked = asked_of(message, &address, second);
    let standing = judged(alloc, realm, &asked, reading)?;
    Ok(standing)
}

/// What is known of the sender of a request by its credentials for a realm (RFC 3261 section 22.4): the first Authorization or
/// Proxy-Authorization value counts that has any, they have to be for the Request-URI, and their nonce for the address that the request
/// came from. Nothing is known where they are not `wanted`, or where there is no realm.
///
/// # Errors
///
/// Only where the allocator refuses.
pub fn standing_of<'a, M: Allocator, A: Allocator + Clone, U: Allocator + Clone>(
    alloc: &A,
    wanted: bool,
    challenger: Challenger,
    realm: Option<&RealmSecrets<'_, U>>,
    message: &'a Message<M>,
    addr: [u8; 4],
    second: u32,
) -> Result<Standing<'a, A>, AllocError>
    ensures { IfOk result (λ standing. Stands wanted challenger (realm_if_any realm.entry) message.now (arrival_of message.now (address_text addr) second) (seen_standing standing)) }
{
    if !wanted {
        return Ok(Standing::Unasked);
    }
    match realm {
        None => Ok(Standing::Anonymous),
        Some(realm) => stands_for(alloc, challenger, realm, message, addr, second),
    }
}
