//! Cutting the text of a URI into its parts.

ghost use Rattle.std.specs.Prelude.{◌≡◌};
ghost use Rattle.std.specs.Option.{option_copied};
ghost use Rattle.sip_lex.specs.Cut.{cut, is};
ghost use Rattle.sip_uri.specs.Reading.{parts_of, port_and_params, user_of};
ghost use Rattle.sip_uri.specs.inner.Seen.{parts};

use crate::host::cut_host;
use sip_lex::cut_at;

/// The parts of a URI behind its scheme, as they stand in the text.
#[derive(Clone, Copy)]
pub(crate) struct UriParts<'a> {
    pub user: Option<&'a [u8]>,
    pub host: &'a [u8],
    pub port: Option<&'a [u8]>,
    pub params: Option<&'a [u8]>,
    pub headers: Option<&'a [u8]>,
}

fn port_and_params(tail: &[u8]) -> (Option<&[u8]>, Option<&[u8]>)
    ensures port { option_copied result.0 ≡ (port_and_params tail.now).0 }
    ensures params { option_copied result.1 ≡ (port_and_params tail.now).1 }
{
    match tail {
        [] => (None, None),
        [b':', rest @ ..] => {
            let (port, params) = cut_at(rest, b';');
            (Some(port), params)
        }
        [_, rest @ ..] => (None, Some(rest)),
    }
}

/// The user, and what stands behind it.
pub(crate) fn user_and_rest(body: &[u8]) -> (Option<&[u8]>, &[u8])
    ensures user { option_copied result.0 ≡ (user_of (cut (is 64) body.now)).0 }
    ensures rest { result.1.now ≡ (user_of (cut (is 64) body.now)).1 }
{
    match cut_at(body, b'@') {
        (rest, None) => (None, rest),
        (user, Some(rest)) => (Some(user), rest),
    }
}

/// Cuts any text behind a scheme into the parts that a URI would have.
#[tactic(auto, unfolding(crate::specs::Reading::parts_of))]
pub(crate) fn cut_body(body: &[u8]) -> UriParts<'_>
    ensures { parts result ≡ parts_of body.now }
{
    let (user, rest) = user_and_rest(body);
    let (host, tail) = cut_host(rest);
    let (tail, headers) = cut_at(tail, b'?');
    let (port, params) = port_and_params(tail);
    UriParts {
        user,
        host,
        port,
        params,
        headers,
    }
}
