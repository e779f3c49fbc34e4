//! The header lines of challenges.

ghost use Rattle.std.specs.Prelude.{◌≡◌};
ghost use Rattle.sip_build.specs.Upward.{challenge_name};

/// The name of the header field that a challenge stands in: that of a proxy, or of a server (RFC 3261 sections 20.27 and
/// 20.44).
pub fn challenge_name(proxy: bool) -> &'static [u8]
    ensures { result.now ≡ challenge_name proxy }
{
    if proxy {
        b"Proxy-Authenticate"
    } else {
        b"WWW-Authenticate"
    }
}
