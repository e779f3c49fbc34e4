//! The proxy's own tag.

ghost use Rattle.std.specs.Prelude.{◌≡◌, ◌≤◌, ◌++◌, length, take, codes};
ghost use Rattle.md5.specs.Md5.{md5};
ghost use Rattle.sip_lex.specs.HexPair.{hex_text};
ghost use Rattle.sip_route.specs.Loop.{field_lines};
ghost use Rattle.sip_build.specs.OwnTag.{own_tag, tag_fields};

use md5::{Digest, Md5};
use sip_lex::hex_pair;
use sip_route::{add_field, add_number, add_optional};
use sip_text::Message;
use std::alloc::Allocator;

fn tag_digest<A: Allocator>(message: &Message<A>) -> [u8; 16]
    ensures { result ≡ md5 (field_lines (tag_fields message.now)) }
{
    let mut hasher = Md5::new();
    add_field(&mut hasher, message.call_id());
    add_optional(&mut hasher, message.from_tag());
    add_number(&mut hasher, message.cseq().number);
    hasher.finalize()
}

/// `fp` and the first sixteen digits of a digest.
fn tag_of(digest: &[u8]) -> [u8; 18]
    requires { 8 ≤ length digest.now }
    ensures { result ≡ codes "fp" ++ hex_text (take 8 digest.now) }
{
    let mut tag = [0; 18];
    tag[0] = b'f';
    tag[1] = b'p';
    for i in 0..8 {
        let [upper, lower] = hex_pair(digest[i]);
        tag[2 * i + 2] = upper;
        tag[2 * i + 3] = lower;
    }
    tag
}

/// The tag that the proxy gives its own answers to a request (RFC 3261 section 8.2.6.2): the same
/// for each repetition of the request.
///
/// `fp` and the first sixteen hexadecimal digits of MD5 of the Call-ID, the From tag and the number
/// of the CSeq, each followed by LF.
#[tactic(auto, unfolding(crate::specs::OwnTag::own_tag))]
pub fn own_tag<A: Allocator>(message: &Message<A>) -> [u8; 18]
    ensures { result ≡ own_tag message.now }
{
    let digest = tag_digest(message);
    tag_of(&digest)
}
