//! Whether credentials are right: those of bob, whose password is `secret`, by SHA-256 for a REGISTER.
use crate::holds::holds;
use sip_digest::{
    Algorithms, CredentialsVerdict, JudgedRequest, Protection, ReadCredentials, Secrets,
    append_nonce, is_uri_of, read_credentials, sha256_response, verdict_of,
};
use std::alloc::{AllocError, Global};

const SECRET: [u8; 32] = [7; 32];

const SECOND: u32 = 1_764_400_000;

const ADDRESS: &[u8] = b"198.51.100.7";

/// The digits of H(A1) by SHA-256 of `bob:example.com:secret`.
const BOB: [u8; 64] = *b"baf9ceb3dcf070665c835868f20bd230ca09393a0c44efca3690ee35eaebee0b";

/// The same of `alice:example.com:wonder`.
const ALICE: [u8; 64] = *b"aef00b0c72d1333f4e221e71543980dc183f9772cf5f3606b5c304116cccb89a";

fn known_by(digits: [u8; 64]) -> Option<Secrets> {
    Some(Secrets {
        md5: None,
        sha256: Some(digits),
    })
}

/// What a telephone that knows the digits of H(A1) sends to a REGISTER, for the nonce that it was given.
#[derive(Clone, Copy)]
struct Telephone {
    digits: [u8; 64],
    uri: &'static [u8],
    rest: &'static [u8],
}

const TELEPHONE: Telephone = Telephone {
    digits: BOB,
    uri: b"sip:example.com",
    rest: b", algorithm=SHA-256, qop=auth, nc=00000001, cnonce=\"c\"",
};

fn nonce_for(alloc: Global, address: &[u8]) -> Result<Vec<u8, Global>, AllocError> {
    let mut nonce = Vec::new(alloc);
    append_nonce(&mut nonce, &SECRET, address, SECOND)?;
    Ok(nonce)
}

/// The value of its Authorization line.
fn value_of(
    alloc: Global,
    telephone: &Telephone,
    nonce: &[u8],
) -> Result<Vec<u8, Global>, AllocError> {
    let protection = Some(Protection {
        nc: b"00000001",
        cnonce: b"c",
        qop: b"auth",
    });
    let response = sha256_response(
        &telephone.digits,
        nonce,
        protection,
        b"REGISTER",
        telephone.uri,
    );
    let mut value = Vec::new(alloc);
    value.extend_from_slice(b"Digest username=\"bob\", realm=\"example.com\", nonce=\"")?;
    value.extend_from_slice(nonce)?;
    value.extend_from_slice(b"\", uri=\"")?;
    value.extend_from_slice(telephone.uri)?;
    value.extend_from_slice(b"\", response=\"")?;
    value.extend_from_slice(&response)?;
    value.extend_from_slice(b"\"")?;
    value.extend_from_slice(telephone.rest)?;
    Ok(value)
}

/// What the proxy makes of it.
fn judged(
    alloc: Global,
    value: &[u8],
    secrets: Option<Secrets>,
    asked: &JudgedRequest<'_>,
) -> Option<CredentialsVerdict> {
    match read_credentials(alloc, value, b"example.com") {
        Ok(ReadCredentials::Read(credentials)) => {
            match verdict_of(
                alloc,
                &SECRET,
                Algorithms::Sha256AndMd5,
                secrets,
                asked,
                &credentials,
            ) {
                Ok(verdict) => Some(verdict),
                Err(_) => None,
            }
        }
        _ => None,
    }
}

/// What the proxy makes of what a telephone sends that was given a nonce for an address.
fn verdict(
    alloc: Global,
    telephone: &Telephone,
    address: &[u8],
    secrets: Option<Secrets>,
    asked: &JudgedRequest<'_>,
) -> Option<CredentialsVerdict> {
    let Ok(nonce) = nonce_for(alloc, address) else {
        return None;
    };
    let Ok(value) = value_of(alloc, telephone, nonce.as_slice()) else {
        return None;
    };
    judged(alloc, value.as_slice(), secrets, asked)
}

const ASKED: JudgedRequest<'static> = JudgedRequest {
    method: b"REGISTER",
    uri: b"sip:example.com",
    address: ADDRESS,
    second: SECOND,
};

#[test]
fn the_password_of_the_user_is_right(rt: HostRuntime) {
    let alloc = rt.alloc();
    let known = known_by(BOB);
    let right = Some(CredentialsVerdict::Right);
    let given = verdict(alloc, &TELEPHONE, ADDRESS, known, &ASKED);
    holds(&rt, given == right, "at once");
    let last = JudgedRequest {
        method: b"REGISTER",
        uri: b"sip:example.com",
        address: ADDRESS,
        second: SECOND + 299,
    };
    holds(
        &rt,
        verdict(alloc, &TELEPHONE, ADDRESS, known, &last) == right,
        "after 299 seconds",
    );
    let spelled = JudgedRequest {
        method: b"REGISTER",
        uri: b"SIP:EXAMPLE.COM",
        address: ADDRESS,
        second: SECOND,
    };
    holds(
        &rt,
        verdict(alloc, &TELEPHONE, ADDRESS, known, &spelled) == right,
        "the same target",
    );
}

#[test]
fn a_nonce_that_is_not_good_is_stale(rt: HostRuntime) {
    let alloc = rt.alloc();
    let known = known_by(BOB);
    let stale = Some(CredentialsVerdict::Stale);
    let late = JudgedRequest {
        method: b"REGISTER",
        uri: b"sip:example.com",
        address: ADDRESS,
        second: SECOND + 300,
    };
    holds(
        &rt,
        verdict(alloc, &TELEPHONE, ADDRESS, known, &late) == stale,
        "after 300 seconds",
    );
    let given = verdict(alloc, &TELEPHONE, b"203.0.113.5", known, &ASKED);
    holds(&rt, given == stale, "of another address");
    holds(
        &rt,
        verdict(alloc, &TELEPHONE, ADDRESS, None, &late) == stale,
        "of nobody",
    );
}

/// A telephone that is like bob's but for something.
fn with_rest(rest: &'static [u8]) -> Telephone {
    Telephone {
        digits: BOB,
        uri: b"sip:example.com",
        rest,
    }
}

#[test]
fn all_else_is_wrong(rt: HostRuntime) {
    let alloc = rt.alloc();
    let known = known_by(BOB);
    let wrong = Some(CredentialsVerdict::Wrong);
    let unknown = verdict(alloc, &TELEPHONE, ADDRESS, None, &ASKED);
    holds(&rt, unknown == wrong, "a user who is not known");
    let others = verdict(alloc, &TELEPHONE, ADDRESS, known_by(ALICE), &ASKED);
    holds(&rt, others == wrong, "the password of another user");
    let only_md5 = Some(Secrets {
        md5: Some([b'0'; 32]),
        sha256: None,
    });
    holds(
        &rt,
        verdict(alloc, &TELEPHONE, ADDRESS, only_md5, &ASKED) == wrong,
        "no digits by that algorithm",
    );
    let invite = JudgedRequest {
        method: b"INVITE",
        uri: b"sip:example.com",
        address: ADDRESS,
        second: SECOND,
    };
    holds(
        &rt,
        verdict(alloc, &TELEPHONE, ADDRESS, known, &invite) == wrong,
        "another method",
    );
    let elsewhere = JudgedRequest {
        method: b"REGISTER",
        uri: b"sip:elsewhere.example",
        address: ADDRESS,
        second: SECOND,
    };
    holds(
        &rt,
        verdict(alloc, &TELEPHONE, ADDRESS, known, &elsewhere) == wrong,
        "another target",
    );
    for rest in [
        b", algorithm=SHA-256".as_slice(),
        b", algorithm=SHA-512-256, qop=auth, nc=00000001, cnonce=\"c\"",
        b", qop=auth, nc=00000001, cnonce=\"c\"",
        b", algorithm=SHA-256, qop=auth, nc=00000002, cnonce=\"c\"",
        b", algorithm=SHA-256, qop=auth, nc=00000001, cnonce=\"d\"",
        b", algorithm=SHA-256, qop=AUTH, nc=00000001, cnonce=\"c\"",
        b", algorithm=SHA-256, qop=auth-int, nc=00000001, cnonce=\"c\"",
    ] {
        let given = verdict(alloc, &with_rest(rest), ADDRESS, known, &ASKED);
        holds(&rt, given == wrong, "other parameters");
    }
}

/// Two texts, and whether the first may be the `uri` of credentials for the second.
const URIS: [(&[u8], &[u8], bool); 6] = [
    (b"sip:example.com", b"sip:example.com", true),
    (
        b"sip:bob@example.com:05060",
        b"SIP:bob@Example.com:5060",
        true,
    ),
    (b"tel:1", b"tel:1", true),
    (b"tel:1", b"TEL:1", false),
    (b"sip:bob@example.com", b"sip:eve@example.com", false),
    (b"sip:example.com", b"sip:example.com:5060", false),
];

/// Whether the first is the `uri` of a request to the second.
fn is_for(alloc: Global, uri: &[u8], request_uri: &[u8]) -> Option<bool> {
    match is_uri_of(alloc, uri, request_uri) {
        Ok(is) => Some(is),
        Err(_) => None,
    }
}

#[test]
fn the_uri_is_that_of_the_request(rt: HostRuntime) {
    for (uri, request_uri, same) in URIS {
        holds(
            &rt,
            is_for(rt.alloc(), uri, request_uri) == Some(same),
            "the URI",
        );
    }
}
