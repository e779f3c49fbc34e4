//! Users by their names.
ghost use Rattle.std.specs.Prelude.{◌≡◌, ℕ, List, IfErr, IfOk, Option, None, OnErr, OnOk, Result, is_some};
ghost use Rattle.std.specs.BTreeMap.{get_by};
ghost use Rattle.std.specs.Cmp.Lexicographic.{slice_cmp};
ghost use Rattle.std.specs.Ordering.{nat_cmp};
ghost use Rattle.std.specs.Option.{option_copied};
ghost use Rattle.sip_digest.specs.declared.secrets.Secrets as made;
ghost use Rattle.sip_lex.specs.Cut.{Lacks};
ghost use Rattle.sip_digest.specs.User.{User, secrets_named};
ghost use Rattle.sip_digest.specs.Users.{ListsUsers};
ghost use Rattle.sip_digest.specs.UserView.{GivesUsers, Has, HasListed, IsFaultOf};
ghost use Rattle.sip_digest.specs.inner.UsersReading.{read_users, seen_user, with_text, with_user};
ghost use Rattle.sip_digest.specs.UserIndex.{secrets_at};
ghost use Rattle.sip_digest.specs.inner.Added.{GivesRead, IsAdded, IsWithText, IsWithUser};

use crate::algorithm::Algorithms;
use crate::secrets::Secrets;
use crate::user_fault::UserFault;
use crate::user_text::{NamedSecrets, read_line};
use sip_lex::cut_at;
use std::alloc::{AllocError, Allocator, Global};
use std::collections::BTreeMap;

/// The users of a realm, and what their passwords are known by. They are found by their names in an index, so that a look-up
/// does not go through them.
#[derive(Drop)]
pub struct UserList<A: Allocator = Global> {
    users: BTreeMap<Vec<u8, A>, Secrets, A>,
}

impl<A: Allocator + Clone> UserList<A> {
    /// There are no users.
    fn new(alloc: A) -> UserList<A>
        ensures { (name : List ℕ) → secrets_at result name ≡ None }
    {
        UserList {
            users: BTreeMap::new(alloc),
        }
    }

    /// What the password of a user is known by; `None` where there is no user of this name.
    pub fn secrets(&self, name: &[u8]) -> Option<Secrets>
        ensures { result ≡ secrets_at self.now name.now }
    {
        match self.users.get(name) {
            None => None,
            Some(secrets) => Some(*secrets),
        }
    }

    fn has(&self, name: &[u8]) -> bool
        ensures { result ≡ is_some (secrets_at self.now name.now) }
    {
        self.users.contains_key(name)
    }

    /// Adds a user whose name is not there yet.
    fn insert(&mut self, alloc: &A, user: &NamedSecrets<'_>) -> Result<(), AllocError>
        requires { secrets_at self.old user.now.name.now ≡ None }
        ensures { OnOk result (IsAdded (seen_user user.now) self.old self.new) }
    {
        let name = user.name.to_vec(alloc.clone()?)?;
        let Ok(_) = self.users.insert(name, user.secrets) else {
            return Err(AllocError);
        };
        Ok(())
    }

    /// Adds a user, and answers whether its name was not there yet.
    fn add_user(&mut self, alloc: &A, user: &NamedSecrets<'_>) -> Result<bool, AllocError>
        ensures { IfOk result (λ done. (users : List User) → Has self.old users → IsWithUser users (seen_user user.now) done self.new) }
    {
        if self.has(user.name) {
            return Ok(false);
        }
        self.insert(alloc, user)?;
        Ok(true)
    }

    /// Adds what a line says, and answers whether it is a line and may stand here.
    fn add(&mut self, alloc: &A, algorithms: Algorithms, text: &[u8]) -> Result<bool, AllocError>
        requires { Lacks 10 text.now }
        ensures { IfOk result (λ done. (users : List User) → Has self.old users → IsWithText algorithms users text.now done self.new) }
    {
        match read_line(algorithms, text) {
            None => Ok(false),
            Some(None) => Ok(true),
            Some(Some(user)) => self.add_user(alloc, &user),
        }
    }

    /// The users that a text lists, or the number of its first malformed line.
    fn read_all(alloc: &A, algorithms: Algorithms, text: &[u8]) -> Result<UserList<A>, UserFault>
        ensures { GivesRead (read_users algorithms text.now) result }
    {
        let mut list = UserList::new(alloc.clone()?);
        let mut number = 1;
        let mut rest = text;
        loop {
            let (line, more) = cut_at(rest, b'\n');
            let Some(after) = more else {
                if line.is_empty() {
                    return Ok(list);
                }
                return Err(UserFault::Line(number));
            };
            if !list.add(alloc, algorithms, line)? {
                return Err(UserFault::Line(number));
            }
            number += 1;
            rest = after;
        }
    }

    /// The users that a text lists. Its lines, each ended by LF: `NAME MD5 SHA256`, separated by one space. NAME is 1 to 64
    /// visible bytes without `:`, `"` and `\`, each once; MD5 is `-` or 32, SHA256 `-` or 64 lower case hexadecimal digits of
    /// the digest of `NAME:REALM:PASSWORD` (H(A1), RFC 7616 section 3.4.2), and each algorithm of the realm has its digest
    /// there. An empty line says nothing, and neither does one that begins with `#`. A last line without LF is malformed.
    ///
    /// # Errors
    ///
    /// `Line`: the first malformed line, counted from 1. `NoMemory`: a growth was refused; whether a line behind is malformed
    /// was not looked at then.
    pub fn read(alloc: A, text: &[u8], algorithms: Algorithms) -> Result<UserList<A>, UserFault>
        ensures found { IfOk result (HasListed algorithms text.now) }
        ensures only { (users : List User) → ListsUsers algorithms text.now users → GivesUsers users result }
        ensures fault { IfErr result (IsFaultOf algorithms text.now) }
    {
        UserList::read_all(&alloc, algorithms, text)
    }
}
