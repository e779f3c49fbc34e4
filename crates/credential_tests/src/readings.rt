//! Credentials as they are read, and as they are not.
use crate::holds::{holds_of, is};
use sip_digest::{Algorithm, Quality, ReadCredentials, read_credentials};
use std::alloc::Global;

/// What a value is for the realm `example.com`.
#[derive(Clone, Copy, PartialEq, Eq)]
enum Kind {
    Other,
    Unreadable,
    Read,
}

fn kind_of(alloc: Global, value: &[u8]) -> Option<Kind> {
    match read_credentials(alloc, value, b"example.com") {
        Ok(ReadCredentials::OtherRealm) => Some(Kind::Other),
        Ok(ReadCredentials::Unreadable) => Some(Kind::Unreadable),
        Ok(ReadCredentials::Read(_)) => Some(Kind::Read),
        Err(_) => None,
    }
}

/// Values, and what each is.
const KINDS: [(&[u8], Kind); 38] = [
    (
        b"Digest username=\"b\", realm=\"example.com\", nonce=\"n\", uri=\"u\", response=\"r\"",
        Kind::Read,
    ),
    (
        b"DIGEST\tUSERNAME=b ,Realm = \"example.com\" ,nonce=n,uri=u,\tresponse=r ",
        Kind::Read,
    ),
    (
        b"Digest response=r,uri=\"a,b\",nonce=n,realm=\"ex\\ample.com\",username=\"\"",
        Kind::Read,
    ),
    (
        b"Digest username=b,realm=\"example.com\",nonce=n,uri=u,response=r,opaque=\"x=y, \\\"z\"",
        Kind::Read,
    ),
    (
        b"Digest username=b,realm=\"example.com\",realm=\"x\",nonce=n,uri=u,response=r",
        Kind::Read,
    ),
    (
        b"Digest username=b,realm=example.com,nonce=n,uri=u,response=r,qop=auth-int",
        Kind::Read,
    ),
    (
        b"Digest username=b,realm=example.com,nonce=n,uri=u,response=r,qop=\"auth\",nc=\"0000000A\",cnonce=\"\"",
        Kind::Read,
    ),
    (
        b"Digest username=b,realm=example.com,nonce=n,uri=u,response=r,nc=1",
        Kind::Read,
    ),
    // a fault behind the realm
    (
        b"Digest username=b,realm=example.com,nonce=n,uri=u,,response=r",
        Kind::Unreadable,
    ),
    (
        b"Digest username=b,realm=example.com,nonce=n,uri=u,response=r,",
        Kind::Unreadable,
    ),
    (
        b"Digest username=b,realm=example.com,nonce=n,uri=u,response=r, ,x=y",
        Kind::Unreadable,
    ),
    (
        b"Digest username=b,realm=example.com,nonce=\"n,uri=u,response=r",
        Kind::Unreadable,
    ),
    (
        b"Digest username=b,realm=example.com,nonce=\"n\"m,uri=u,response=r",
        Kind::Unreadable,
    ),
    (
        b"Digest username=b,realm=example.com,nonce=\"n\\\",uri=u,response=r",
        Kind::Unreadable,
    ),
    (
        b"Digest username=b,realm=example.com,nonce=a b,uri=u,response=r",
        Kind::Unreadable,
    ),
    (
        b"Digest username=b,realm=example.com,nonce=n,uri=sip:u,response=r",
        Kind::Unreadable,
    ),
    (
        b"Digest username=b,realm=example.com,nonce=n,uri=u,response=r,stale",
        Kind::Unreadable,
    ),
    (
        b"Digest username=b,realm=example.com,nonce=n,uri=u,response=r,=x",
        Kind::Unreadable,
    ),
    (
        b"Digest username=b,realm=example.com,nonce=n,uri=u,response=r,opaque=",
        Kind::Unreadable,
    ),
    (
        b"Digest username=b,realm=example.com,nonce=n,uri=u,response=r,a b=x",
        Kind::Unreadable,
    ),
    // something that is needed is missing
    (
        b"Digest realm=example.com,nonce=n,uri=u,response=r",
        Kind::Unreadable,
    ),
    (
        b"Digest username=b,realm=example.com,uri=u,response=r",
        Kind::Unreadable,
    ),
    (
        b"Digest username=b,realm=example.com,nonce=n,response=r",
        Kind::Unreadable,
    ),
    (
        b"Digest username=b,realm=example.com,nonce=n,uri=u",
        Kind::Unreadable,
    ),
    (
        b"Digest username=b,realm=example.com,nonce=n,uri=u,response=r,qop=auth,cnonce=c",
        Kind::Unreadable,
    ),
    (
        b"Digest username=b,realm=example.com,nonce=n,uri=u,response=r,qop=AUTH,nc=00000001",
        Kind::Unreadable,
    ),
    (
        b"Digest username=b,realm=example.com,nonce=n,uri=u,response=r,qop=auth,nc=1,cnonce=c",
        Kind::Unreadable,
    ),
    (
        b"Digest username=b,realm=example.com,nonce=n,uri=u,response=r,qop=auth,nc=0000000g,cnonce=c",
        Kind::Unreadable,
    ),
    // another realm, or none
    (b"", Kind::Other),
    (b"Digest", Kind::Other),
    (b"Digest ", Kind::Other),
    (b"Digestrealm=example.com", Kind::Other),
    (b"Basic realm=example.com", Kind::Other),
    (b"Digest username=b,nonce=n,uri=u,response=r", Kind::Other),
    (
        b"Digest username=b,realm=\"Example.com\",nonce=n,uri=u,response=r",
        Kind::Other,
    ),
    (
        b"Digest username=b,realm=x,realm=example.com,nonce=n,uri=u,response=r",
        Kind::Other,
    ),
    (
        b"Digest username=b,,realm=example.com,nonce=n,uri=u,response=r",
        Kind::Other,
    ),
    (
        b"Digest username=\"b,realm=example.com,nonce=n,uri=u,response=r",
        Kind::Other,
    ),
];

#[test]
fn a_value_is_read_where_the_grammar_has_it(rt: HostRuntime) {
    for (value, kind) in KINDS {
        let read = kind_of(rt.alloc(), value);
        holds_of(&rt, read == Some(kind), "what it is", value);
    }
}

/// Whether a value is read, with this name, nonce, URI and response.
fn has_texts(
    alloc: Global,
    value: &[u8],
    username: &[u8],
    nonce: &[u8],
    uri: &[u8],
    response: &[u8],
) -> bool {
    match read_credentials(alloc, value, b"r") {
        Ok(ReadCredentials::Read(c)) => {
            is(c.username.as_slice(), username)
                && is(c.nonce.as_slice(), nonce)
                && is(c.uri.as_slice(), uri)
                && is(c.response.as_slice(), response)
        }
        _ => false,
    }
}

/// Values, and their name, nonce, URI and response.
const TEXTS: [(&[u8], &[u8], &[u8], &[u8], &[u8]); 4] = [
    (
        b"Digest username=b,realm=r,nonce=n,uri=u,response=s",
        b"b",
        b"n",
        b"u",
        b"s",
    ),
    (
        b"Digest username=\"b\\\"\\\\c\",realm=\"r\",nonce=\"\\n\",uri=\"a,b=c\",response=\"\"",
        b"b\"\\c",
        b"n",
        b"a,b=c",
        b"",
    ),
    (
        b"Digest USERNAME=b,username=c,realm=r,nonce=n,Nonce=m,uri=u,response=s",
        b"b",
        b"n",
        b"u",
        b"s",
    ),
    (
        b"Digest response=\"s\" , uri = \" u \" ,nonce= \"n\",realm=r,username\t=b",
        b"b",
        b"n",
        b" u ",
        b"s",
    ),
];

#[test]
fn texts_are_without_quotes_and_escapes(rt: HostRuntime) {
    for (value, username, nonce, uri, response) in TEXTS {
        let well = has_texts(rt.alloc(), value, username, nonce, uri, response);
        holds_of(&rt, well, "the texts", value);
    }
}

/// The algorithm that a value names, where it is read.
fn algorithm_of(alloc: Global, value: &[u8]) -> Option<Option<Algorithm>> {
    match read_credentials(alloc, value, b"r") {
        Ok(ReadCredentials::Read(c)) => Some(c.algorithm),
        _ => None,
    }
}

/// What a value says of the quality of protection: a digit, or `-` where it is not read.
fn quality_of(alloc: Global, value: &[u8]) -> u8 {
    match read_credentials(alloc, value, b"r") {
        Ok(ReadCredentials::Read(c)) => match &c.quality {
            Quality::Unsaid => b'0',
            Quality::Auth(nc, cnonce, qop) => {
                if is(nc.as_slice(), b"0000000a")
                    && is(cnonce.as_slice(), b"c")
                    && is(qop.as_slice(), b"Auth")
                {
                    b'1'
                } else {
                    b'2'
                }
            }
            Quality::Other => b'3',
        },
        _ => b'-',
    }
}

#[test]
fn algorithm_and_quality_may_be_missing(rt: HostRuntime) {
    let bare = b"Digest username=b,realm=r,nonce=n,uri=u,response=s".as_slice();
    let named =
        b"Digest username=b,realm=r,nonce=n,uri=u,response=s,algorithm=\"sha-256\",qop=Auth,nc=0000000a,cnonce=c".as_slice();
    let other =
        b"Digest username=b,realm=r,nonce=n,uri=u,response=s,algorithm=MD5-sess,qop=auth-int".as_slice();
    holds_of(
        &rt,
        algorithm_of(rt.alloc(), bare) == Some(Some(Algorithm::Md5)),
        "MD5",
        bare,
    );
    holds_of(
        &rt,
        algorithm_of(rt.alloc(), named) == Some(Some(Algorithm::Sha256)),
        "SHA-256",
        named,
    );
    holds_of(
        &rt,
        algorithm_of(rt.alloc(), other) == Some(None),
        "another one",
        other,
    );
    holds_of(
        &rt,
        quality_of(rt.alloc(), bare) == b'0',
        "no quality",
        bare,
    );
    holds_of(&rt, quality_of(rt.alloc(), named) == b'1', "auth", named);
    holds_of(
        &rt,
        quality_of(rt.alloc(), other) == b'3',
        "another quality",
        other,
    );
}
