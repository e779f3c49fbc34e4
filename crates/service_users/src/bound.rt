//! What an operator is told of the contacts that are bound to users, and that they are forgotten as he asks.
ghost use Rattle.std.specs.Prelude.{◌≡◌, ◌++◌, OnOk};
ghost use Rattle.bindings.specs.Bindings.{there};
ghost use Rattle.std.specs.List.{flat_map};
ghost use Rattle.service_users.specs.Told.{binding_line, contact_text};

use crate::keeping::ChangeQueue;
use crate::last_refused::append_place;
use crate::registry::Registry;
use binding_table::{ChangeFault, Walk};
use bindings::{Binding, UserBindings};
use sip_lex::append_decimal;
use std::alloc::{AllocError, Allocator};
use std::sync::Wait;

/// Of how many users one answer tells at most.
const MOST_USERS: u32 = 65_536;

/// Appends the URI of a binding's contact, its q, and where a request to it goes.
fn append_contact<A: Allocator>(out: &mut Vec<u8>, binding: &Binding<A>) -> Result<(), AllocError>
    ensures { OnOk result (out.new.items ≡ out.old.items ++ contact_text binding.now.contact) }
{
    let contact = binding.contact();
    out.extend_from_slice(contact.uri)?;
    out.extend_from_slice(b" q ")?;
    append_decimal(out, u64::from(contact.q))?;
    out.extend_from_slice(b" at ")?;
    append_place(out, contact.hop)
}

/// Appends the line of a binding of a user at this moment.
fn append_binding<A: Allocator>(
    out: &mut Vec<u8>,
    user: &[u8],
    moment: u64,
    binding: &Binding<A>,
) -> Result<(), AllocError>
    ensures { OnOk result (out.new.items ≡ out.old.items ++ binding_line user.now moment binding.now) }
{
    out.extend_from_slice(b"user ")?;
    out.extend_from_slice(user)?;
    out.push(b' ')?;
    append_contact(out, binding)?;
    out.extend_from_slice(b" left ")?;
    append_decimal(out, binding.ends().saturating_sub(moment))?;
    Ok(out.push(b'\n')?)
}

/// Appends the line of each binding of a user that is there at this moment, in their order.
fn append_there<A: Allocator>(
    out: &mut Vec<u8>,
    user: &[u8],
    moment: u64,
    bindings: &UserBindings<A>,
) -> Result<(), AllocError>
    ensures { OnOk result (out.new.items ≡ out.old.items ++ flat_map (binding_line user.now moment) (there moment bindings.now)) }
{
    let mut there = bindings.at(moment);
    while let Some(binding) = there.next() {
        append_binding(out, user, moment, binding)?;
    }
    Ok(())
}

impl<A: Allocator + Copy> Registry<A> {
    /// Appends the line of each binding of a user that is there at this moment.
    fn append_user<R: Wait>(
        &self,
        rt: &R,
        user: &[u8],
        moment: u64,
        out: &mut Vec<u8>,
    ) -> Result<(), AllocError> {
        let appended = self.bindings.look(
            rt,
            user,
            |held: &UserBindings<A>| append_there(out, user, moment, held),
        );
        match appended {
            Some(appended) => appended,
            None => Ok(()),
        }
    }

    /// Appends the line of each binding that is there at this moment, of 65,536 users at most, and answers whether there were no more.
    fn append_users<R: Wait>(
        &self,
        rt: &R,
        moment: u64,
        out: &mut Vec<u8>,
    ) -> Result<bool, AllocError> {
        let mut walk = Walk::new();
        for _ in 0..MOST_USERS {
            let found = self.bindings.next_user(
                rt,
                &mut walk,
                |held: &UserBindings<A>| held.next_end(moment).is_some(),
            )?;
            let (true, Some(user)) = (found, walk.user()) else {
                return Ok(true);
            };
            self.append_user(rt, user, moment, out)?;
        }
        Ok(false)
    }
}

/// Appends that a user is not known.
fn append_unknown(out: &mut Vec<u8>, user: &[u8]) -> Result<(), AllocError> {
    out.extend_from_slice(b"unknown user ")?;
    out.extend_from_slice(user)?;
    Ok(out.push(b'\n')?)
}

/// Appends how many contacts of a user were forgotten.
fn append_forgotten(out: &mut Vec<u8>, user: &[u8], count: usize) -> Result<(), AllocError> {
    if count == 0 {
        return append_unknown(out, user);
    }
    out.extend_from_slice(b"forgotten ")?;
    append_decimal(out, count as u64)?;
    Ok(out.push(b'\n')?)
}

impl<A: Allocator + Copy> Registry<A> {
    /// Appends a line for each contact that is bound to a user at this moment, in milliseconds, in no order of the users; of at most 65,536 of
    /// them; and at last `no more`, or `more` where there may be more. The users of one in 64 parts are locked while a line is written, and no
    /// others.
    ///
    /// # Errors
    ///
    /// Only where the allocator refuses; `out` is then to be thrown away.
    pub fn append_bindings<R: Wait>(
        &self,
        rt: &R,
        now: u64,
        out: &mut Vec<u8>,
    ) -> Result<(), AllocError> {
        if self.append_users(rt, self.moment_at(now), out)? {
            out.extend_from_slice(b"no more\n")
        } else {
            out.extend_from_slice(b"more\n")
        }
    }

    /// Appends a line for each contact that is bound to this user at this moment, in milliseconds, in their order, and at last `no more`;
    /// `unknown user USER` where there is none.
    ///
    /// # Errors
    ///
    /// Only where the allocator refuses; `out` is then to be thrown away.
    pub fn append_bindings_of<R: Wait>(
        &self,
        rt: &R,
        user: &[u8],
        now: u64,
        out: &mut Vec<u8>,
    ) -> Result<(), AllocError> {
        let before = out.len();
        self.append_user(rt, user, self.moment_at(now), out)?;
        if out.len() == before {
            return append_unknown(out, user);
        }
        out.extend_from_slice(b"no more\n")
    }

    /// Forgets the contacts that are bound to this user, and appends `forgotten N`; `unknown user USER` where nothing is kept of the user,
    /// and `busy` and why where a REGISTER of this user is under way, or too much waits to be kept, so that nothing is forgotten. Where
    /// bindings are kept elsewhere, too, they are forgotten once that is kept.
    ///
    /// # Errors
    ///
    /// Only where the allocator refuses; all may be forgotten then.
    pub fn forget_user<R: Wait>(
        &self,
        rt: &R,
        alloc: A,
        keeping: Option<&ChangeQueue<A>>,
        user: &[u8],
        out: &mut Vec<u8>,
    ) -> Result<(), AllocError> {
        match self.forget(rt, alloc, keeping, user) {
            Ok(count) => append_forgotten(out, user, count),
            Err(ChangeFault::NoMemory) => Err(AllocError),
            Err(ChangeFault::Busy | ChangeFault::Full) => {
                out.extend_from_slice(
                    b"busy: a REGISTER of this user is under way, or too many wait to be kept\n",
                )
            }
        }
    }
}
