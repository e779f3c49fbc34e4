//! The examples of RFC 7616 section 3.9.1 and RFC 2617 section 3.5, and the names of algorithms.
use crate::holds::{holds, is};
use sip_digest::{Algorithm, Algorithms, Protection, md5_response, sha256_response};

/// The digits of H(A1) of RFC 7616: `Mufasa`, `http-auth@example.org`, `Circle of Life`.
const MD5: &[u8] = b"3d78807defe7de2157e2b0b6573a855f";

const SHA256: &[u8] = b"7987c64c30e25f1b74be53f966b49b90f2808aa92faf9a00262392d7b4794232";

const NONCE: &[u8] = b"7ypf/xlj9XXwfDPEoM4URrv/xwf94BcCAzFZH4GiTo0v";

/// The digits of H(A1) of RFC 2617: `Mufasa`, `testrealm@host.com`, `Circle Of Life`.
const OLDER: &[u8] = b"939e7578ed9e3c518a452acee763bce9";

const OLDER_NONCE: &[u8] = b"dcd98b7102dd2f0e8b11d0f600bfb0c093";

/// The first use of a nonce, with the nonce of the client.
fn first_use(cnonce: &[u8]) -> Option<Protection<'_>> {
    Some(Protection {
        nc: b"00000001",
        cnonce,
        qop: b"auth",
    })
}

/// The response by MD5 to a GET of the page that the standards ask for.
fn by_md5(secret: &[u8], nonce: &[u8], protection: Option<Protection<'_>>) -> [u8; 32] {
    md5_response(secret, nonce, protection, b"GET", b"/dir/index.html")
}

/// The same by SHA-256.
fn by_sha256(secret: &[u8], nonce: &[u8], protection: Option<Protection<'_>>) -> [u8; 64] {
    sha256_response(secret, nonce, protection, b"GET", b"/dir/index.html")
}

#[test]
fn responses_are_those_of_the_standards(rt: HostRuntime) {
    let client = b"f2/wE4q74E6zIJEtWaHKaf5wv/H5QzzpXusqGemxURZJ";
    let md5 = by_md5(MD5, NONCE, first_use(client));
    holds(
        &rt,
        is(&md5, b"8ca523f5e9506fed4657c9700eebdbec"),
        "RFC 7616, MD5",
    );
    let sha256 = by_sha256(SHA256, NONCE, first_use(client));
    let wanted = b"753927fa0e85d155564e2e272a28d1802ca10daf4496794697cf8db5856cb6c1";
    holds(&rt, is(&sha256, wanted), "RFC 7616, SHA-256");
    let older = by_md5(OLDER, OLDER_NONCE, first_use(b"0a4f113b"));
    holds(
        &rt,
        is(&older, b"6629fae49393a05397450978507c4ef1"),
        "RFC 2617, auth",
    );
    let bare = by_md5(OLDER, OLDER_NONCE, None);
    holds(
        &rt,
        is(&bare, b"670fd8c2df070c60b045671b8b24ff02"),
        "RFC 2617, without qop",
    );
}

#[test]
fn algorithms_have_names(rt: HostRuntime) {
    let sha256 = Algorithm::named(b"sha-256");
    holds(&rt, sha256 == Some(Algorithm::Sha256), "in any case");
    holds(&rt, is(Algorithm::Md5.name(), b"MD5"), "the name");
    holds(
        &rt,
        Algorithm::named(b"SHA-512-256").is_none(),
        "another one",
    );
    let both = Algorithms::named(b"SHA-256,MD5");
    holds(&rt, both == Some(Algorithms::Sha256AndMd5), "two");
    holds(&rt, Algorithms::named(b"md5").is_none(), "as it is written");
    let first = Algorithms::Sha256AndMd5.first();
    holds(&rt, first == Algorithm::Sha256, "the first");
    let second = Algorithms::Sha256AndMd5.second();
    holds(&rt, second == Some(Algorithm::Md5), "the second");
    holds(
        &rt,
        !Algorithms::Md5.has(Algorithm::Sha256),
        "not among them",
    );
}
