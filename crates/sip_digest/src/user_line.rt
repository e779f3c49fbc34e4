//! The line of a user.
ghost use Rattle.std.specs.Prelude.{◌≡◌, ◌++◌, OnErr, OnOk};
ghost use Rattle.fork_rank.specs.RuleLines.{ended};
ghost use Rattle.sip_digest.specs.Secrets.{secrets_of};
ghost use Rattle.sip_digest.specs.User.{digest_text, user_of, user_text};

use crate::secrets::Secrets;
use sip_lex::append_pieces;
use std::alloc::{AllocError, Allocator};

fn md5_text(secrets: &Secrets) -> &[u8]
    ensures { result.now ≡ digest_text secrets.now.md5 }
{
    match &secrets.md5 {
        None => b"-",
        Some(digits) => digits.as_slice(),
    }
}

fn sha256_text(secrets: &Secrets) -> &[u8]
    ensures { result.now ≡ digest_text secrets.now.sha256 }
{
    match &secrets.sha256 {
        None => b"-",
        Some(digits) => digits.as_slice(),
    }
}

/// Appends the line of a user, with what the password is known by in a realm by each algorithm, and its LF: the line that
/// `UserList::read` reads where `is_user_name` says that the name may be one. The password itself does not stand in it.
///
/// # Errors
///
/// Only where the growth of `out` is refused; `out` is then unchanged.
pub fn append_user<B: Allocator>(
    out: &mut Vec<u8, B>,
    name: &[u8],
    realm: &[u8],
    password: &[u8],
) -> Result<(), AllocError>
    ensures ok { OnOk result (out.new.items ≡ out.old.items ++ ended (user_text (user_of name.now (secrets_of name.now realm.now password.now)))) }
    ensures err { OnErr result (out.new.items ≡ out.old.items) }
{
    let secrets = Secrets::of(name, realm, password);
    append_pieces(
        out,
        &[
            name,
            b" ",
            md5_text(&secrets),
            b" ",
            sha256_text(&secrets),
            b"\n",
        ],
    )
}
