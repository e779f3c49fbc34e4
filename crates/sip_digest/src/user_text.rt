//! The lines of a list of users.
ghost use Rattle.std.specs.Prelude.{◌≡◌, ◌||◌, Some};
ghost use Rattle.std.specs.List.{list_all};
ghost use Rattle.std.specs.Option.{option_map};
ghost use Rattle.sip_lex.specs.Cut.{Lacks, cut, is};
ghost use Rattle.sip_digest.specs.User.{begins_with_hash, has_if_any, has_needed, is_lower_hexadecimal, is_name, is_name_byte};
ghost use Rattle.sip_digest.specs.Users.{is_empty};
ghost use Rattle.sip_digest.specs.inner.UsersReading.{digests_cut, read_digest, read_line, read_secrets, read_user, seen_user, user_in};

use crate::algorithm::{Algorithm, Algorithms};
use crate::secrets::Secrets;
use sip_lex::cut_at;

/// A user as a line names one.
#[derive(Clone, Copy, Debug)]
pub struct NamedSecrets<'a> {
    pub name: &'a [u8],
    pub secrets: Secrets,
}

// ---- names

fn is_name_byte(byte: u8) -> bool
    ensures { result ≡ is_name_byte byte }
{
    33 <= byte && byte <= 126 && !(byte == b':' || byte == b'"' || byte == b'\\')
}

fn are_name_bytes(bytes: &[u8]) -> bool
    ensures { result ≡ list_all is_name_byte bytes.now }
{
    bytes.iter().all(|byte| is_name_byte(*byte))
}

fn begins_with_hash(text: &[u8]) -> bool
    ensures { result ≡ begins_with_hash text.now }
{
    matches!(text, [b'#', ..])
}

/// Whether a text may be the name of a user: 1 to 64 visible bytes without `:`, `"` and `\`, of which the first is no `#`.
pub fn is_user_name(name: &[u8]) -> bool
    ensures { result ≡ is_name name.now }
{
    1 <= name.len() && name.len() <= 64 && are_name_bytes(name) && !begins_with_hash(name)
}

// ---- digits

fn is_lower_hexadecimal(byte: u8) -> bool
    ensures { result ≡ is_lower_hexadecimal byte }
{
    byte.is_ascii_digit() || 97 <= byte && byte <= 102
}

fn are_lower_hexadecimal(bytes: &[u8]) -> bool
    ensures { result ≡ list_all is_lower_hexadecimal bytes.now }
{
    bytes.iter().all(|byte| is_lower_hexadecimal(*byte))
}

/// `-`, or the digits of a digest of N / 2 bytes; `None` for any other text.
fn read_digest<const N: usize>(text: &[u8]) -> Option<Option<[u8; N]>>
    ensures { result ≡ read_digest N text.now }
{
    if text == b"-".as_slice() {
        return Some(None);
    }
    if !are_lower_hexadecimal(text) {
        return None;
    }
    match <[u8; N]>::try_from(text) {
        Ok(digits) => Some(Some(digits)),
        Err(_) => None,
    }
}

fn read_secrets(md5: &[u8], sha256: &[u8]) -> Option<Secrets>
    ensures { result ≡ read_secrets md5.now sha256.now }
{
    let md5 = read_digest::<32>(md5)?;
    let sha256 = read_digest::<64>(sha256)?;
    Some(Secrets { md5, sha256 })
}

fn has_if_any(secrets: &Secrets, algorithm: Option<Algorithm>) -> bool
    ensures { result ≡ has_if_any secrets.now algorithm }
{
    match algorithm {
        None => true,
        Some(Algorithm::Md5) => secrets.md5.is_some(),
        Some(Algorithm::Sha256) => secrets.sha256.is_some(),
    }
}

/// Whether there are digits for each algorithm of a realm.
fn has_needed(algorithms: Algorithms, secrets: &Secrets) -> bool
    ensures { result ≡ has_needed algorithms secrets.now }
{
    has_if_any(secrets, Some(algorithms.first())) && has_if_any(secrets, algorithms.second())
}

// ---- lines

/// The user that the digests behind a name make.
fn digests_cut<'a>(
    algorithms: Algorithms,
    name: &'a [u8],
    digests: &[u8],
) -> Option<NamedSecrets<'a>>
    ensures { option_map seen_user result ≡ digests_cut algorithms name.now (cut (is 32) digests.now) }
{
    match cut_at(digests, b' ') {
        (_, None) => None,
        (md5, Some(sha256)) => {
            let secrets = read_secrets(md5, sha256)?;
            if has_needed(algorithms, &secrets) {
                Some(NamedSecrets { name, secrets })
            } else {
                None
            }
        }
    }
}

fn read_user(algorithms: Algorithms, text: &[u8]) -> Option<NamedSecrets<'_>>
    ensures { option_map seen_user result ≡ read_user algorithms text.now }
{
    match cut_at(text, b' ') {
        (_, None) => None,
        (name, Some(digests)) => {
            if is_user_name(name) {
                digests_cut(algorithms, name, digests)
            } else {
                None
            }
        }
    }
}

/// Whether a line says nothing: it is empty, or begins with `#`.
fn is_comment(text: &[u8]) -> bool
    ensures { result ≡ (is_empty text.now || begins_with_hash text.now) }
{
    text.is_empty() || begins_with_hash(text)
}

/// The user that a line names, or that it names none; `None` where it is malformed.
#[tactic(auto, using(crate::proofs::Comments::comment_is))]
pub(crate) fn read_line(algorithms: Algorithms, text: &[u8]) -> Option<Option<NamedSecrets<'_>>>
    requires { Lacks 10 text.now }
    ensures { option_map (option_map seen_user) result ≡ option_map user_in (read_line algorithms text.now) }
{
    if is_comment(text) {
        return Some(None);
    }
    let user = read_user(algorithms, text)?;
    Some(Some(user))
}
