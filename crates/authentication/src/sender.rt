//! Whom a request claims to come from.
ghost use Rattle.std.specs.Prelude.{◌≡◌};
ghost use Rattle.std.specs.Option.{option_copied};
ghost use Rattle.authentication.specs.Sender.{claims_domain, is_from, is_user};

use crate::domain::{Domain, is_of_domain};
use crate::party::is_anonymous;
use sip_uri::SipUri;
use std::alloc::Allocator;

/// Whether a request with this From claims to come from the domain: its host is of the domain, or `anonymous.invalid`.
pub(crate) fn claims_domain<A: Allocator + Clone>(
    domain: &Domain<'_>,
    from: &Option<SipUri<A>>,
) -> bool
    ensures { result ≡ claims_domain domain.now from.now }
{
    match from {
        None => false,
        Some(from) => is_of_domain(domain, from) || is_anonymous(from),
    }
}

fn is_user(name: &[u8], user: Option<&[u8]>) -> bool
    ensures { result ≡ is_user name.now (option_copied user.entry) }
{
    match user {
        None => false,
        Some(user) => name == user,
    }
}

/// Whether the user of this name may send a request with this From.
pub(crate) fn is_from<A: Allocator + Clone>(name: &[u8], from: &Option<SipUri<A>>) -> bool
    ensures { result ≡ is_from name.now from.now }
{
    match from {
        None => false,
        Some(from) => is_user(name, from.user()) || is_anonymous(from),
    }
}
