//! Who challenges: a registrar as a server of its own, or a proxy.
ghost use Rattle.std.specs.Prelude.{◌≡◌};
ghost use Rattle.authentication.specs.Challenge.{challenge_name, credentials_name, status_of};

use sip_build::OwnStatus;

/// Who challenges the sender of a request (RFC 3261 sections 22.2 and 22.3).
#[derive(Clone, Copy, Debug, PartialEq, Eq)]
pub enum Challenger {
    /// A server that the request is for, as a registrar: by 401.
    Server,
    /// A proxy on the way: by 407.
    Proxy,
}

impl Challenger {
    /// The status of its challenges.
    pub(crate) fn status(self) -> OwnStatus
        ensures { result ≡ status_of self }
    {
        match self {
            Challenger::Server => OwnStatus::Unauthorized,
            Challenger::Proxy => OwnStatus::ProxyAuthenticationRequired,
        }
    }

    /// The name of the header field of its challenges.
    pub(crate) fn challenge_name(self) -> &'static [u8]
        ensures { result.now ≡ challenge_name self }
    {
        match self {
            Challenger::Server => b"WWW-Authenticate",
            Challenger::Proxy => b"Proxy-Authenticate",
        }
    }

    /// The name of the header field in which credentials come to it.
    pub(crate) fn credentials_name(self) -> &'static [u8]
        ensures { result.now ≡ credentials_name self }
    {
        match self {
            Challenger::Server => b"authorization",
            Challenger::Proxy => b"proxy-authorization",
        }
    }
}
