//! Digests of texts, in hexadecimal digits.
ghost use Rattle.std.specs.Prelude.{◌≡◌};
ghost use Rattle.hex.specs.Hex.{encode_lower};
ghost use Rattle.md5.specs.Md5.{md5};
ghost use Rattle.sha2.specs.Sha256.{sha256};
ghost use Rattle.sip_lex.specs.Texts.{pieces_text};
ghost use Rattle.sip_digest.specs.declared.algorithm.Algorithm.TheVariants as algorithm;
ghost use Rattle.sip_digest.specs.Algorithm.{digest_text};

use hex::encode_to_slice;
use md5::Md5;
use sha2::Sha256;

/// MD5 of pieces one behind the other.
fn md5_of_pieces(pieces: &[&[u8]]) -> [u8; 16]
    ensures { result ≡ md5 (pieces_text pieces.now) }
{
    use md5::Digest;
    let mut hasher = Md5::new();
    for piece in pieces {
        hasher.update(*piece);
    }
    hasher.finalize()
}

/// SHA-256 of pieces one behind the other.
fn sha256_of_pieces(pieces: &[&[u8]]) -> [u8; 32]
    ensures { result ≡ sha256 (pieces_text pieces.now) }
{
    use sha2::Digest;
    let mut hasher = Sha256::new();
    for piece in pieces {
        hasher.update(*piece);
    }
    hasher.finalize()
}

/// The digits of a digest of MD5.
fn md5_digits(digest: [u8; 16]) -> [u8; 32]
    ensures { result ≡ encode_lower digest }
{
    let mut text = [0; 32];
    match encode_to_slice(digest.as_slice(), &mut text) {
        Ok(()) => text,
        Err(_) => unreachable!(),
    }
}

/// The digits of a digest of SHA-256.
fn sha256_digits(digest: [u8; 32]) -> [u8; 64]
    ensures { result ≡ encode_lower digest }
{
    let mut text = [0; 64];
    match encode_to_slice(digest.as_slice(), &mut text) {
        Ok(()) => text,
        Err(_) => unreachable!(),
    }
}

/// The digits of MD5 of pieces one behind the other.
#[tactic(auto, unfolding(crate::specs::Algorithm::digest_text))]
pub(crate) fn md5_of(pieces: &[&[u8]]) -> [u8; 32]
    ensures { result ≡ digest_text algorithm.Md5 (pieces_text pieces.now) }
{
    md5_digits(md5_of_pieces(pieces))
}

/// The digits of SHA-256 of pieces one behind the other.
#[tactic(auto, unfolding(crate::specs::Algorithm::digest_text))]
pub(crate) fn sha256_of(pieces: &[&[u8]]) -> [u8; 64]
    ensures { result ≡ digest_text algorithm.Sha256 (pieces_text pieces.now) }
{
    sha256_digits(sha256_of_pieces(pieces))
}
