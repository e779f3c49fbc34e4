//! The line of a user, made of a password that was typed.
ghost use Rattle.std.specs.Prelude.{◌≡◌};
ghost use Rattle.sip_lex.specs.Cut.{cut, is};
ghost use Rattle.service_config.specs.UserLine.{GivesLine, checked, line_of_user, of_line, password_in, without_cr};

use crate::line::is_realm;
use sip_digest::{append_user, is_user_name};
use sip_lex::cut_at;
use std::alloc::{AllocError, Allocator};
use thiserror::Error;

/// Why there is no line of a user, with the words that a program prints.
#[derive(Clone, Copy, Debug, PartialEq, Eq, Error)]
pub enum UserLineFault {
    /// The name may not stand in the list.
    #[error("a name is 1 to 64 printed ASCII characters without `:`, quote and backslash, and does not begin with `#`")]
    Name,
    /// The realm may not stand in a configuration.
    #[error("a realm is 1 to 64 printed ASCII characters without quote and backslash")]
    Realm,
    /// The password is empty.
    #[error("the password is empty")]
    Password,
    /// A growth was refused.
    #[error("want of memory")]
    NoMemory,
}

impl From<AllocError> for UserLineFault {
    ghost use Rattle.service_config.specs.declared.password_line.UserLineFault.TheVariants as fault;

    ghost from_gives = { λ _ given. given ≡ fault.NoMemory };

    fn from(_refused: AllocError) -> UserLineFault {
        UserLineFault::NoMemory
    }
}

/// A line without the CR at its end, if there is one.
fn without_cr(line: &[u8]) -> &[u8]
    ensures { result.now ≡ without_cr line.now }
{
    if line.ends_with(b"\r") {
        &line[..line.len() - 1]
    } else {
        line
    }
}

/// The first line of what was typed.
fn password_in(input: &[u8]) -> &[u8]
    ensures { result.now ≡ password_in input.now }
{
    match cut_at(input, b'\n') {
        (line, None) => line,
        (line, Some(_)) => without_cr(line),
    }
}

fn checked<A: Allocator>(
    alloc: A,
    name: &[u8],
    realm: &[u8],
    password: &[u8],
) -> Result<Vec<u8, A>, UserLineFault>
    ensures { GivesLine (checked name.now realm.now password.now) result }
{
    if !is_user_name(name) {
        return Err(UserLineFault::Name);
    }
    if !is_realm(realm) {
        return Err(UserLineFault::Realm);
    }
    if password.is_empty() {
        return Err(UserLineFault::Password);
    }
    let mut line = Vec::new(alloc);
    append_user(&mut line, name, realm, password)?;
    Ok(line)
}

/// The line by which a list of users knows a password, which is the first line of what was typed, without a CR before its LF; what
/// stands behind that line is not looked at. The password itself does not stand in it (RFC 7616 section 3.4.2).
///
/// # Errors
///
/// The first that holds of: `Name` for what may not be a user's name in a list; `Realm` for what may not be a realm in a
/// configuration; `Password` where the password is empty; and at last `NoMemory`.
pub fn user_line<A: Allocator>(
    alloc: A,
    name: &[u8],
    realm: &[u8],
    input: &[u8],
) -> Result<Vec<u8, A>, UserLineFault>
    ensures { GivesLine (line_of_user name.now realm.now input.now) result }
{
    checked(alloc, name, realm, password_in(input))
}
