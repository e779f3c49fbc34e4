//! The bindings of all users.
ghost use Rattle.std.specs.Prelude.{◌≡◌, ◌-◌, ◌<◌, Option, IfOk, IfSome, OnErr, OnOk, false, is_some, option_map, true, vec_len};
ghost use Rattle.std.specs.Option.{option_map_or};
ghost use Rattle.std.specs.Fn.{FnOnceReturnsAt};
ghost use Rattle.binding_table.specs.Changes.{bindings_of};
ghost use Rattle.binding_table.specs.Shards.{shards as all_shards};
ghost use Rattle.binding_table.specs.inner.Users.{held, is_changing, kept_of};

use crate::change::PreparedChange;
use crate::fault::ChangeFault;
use crate::holding::Holding;
use crate::room::Room;
use crate::shards::{SHARDS, shard_of};
use crate::users::Users;
use crate::walk::Walk;
use std::alloc::{AllocError, Allocator, Global};
use std::sync::{Mutex, RwLock, Wait};

/// The bindings of all users, by their names. Each shard of users has a lock that many may look behind at once, and one may change what
/// stands behind; how many bindings there are has another, which is taken last and held for a moment.
///
/// A change of a user's bindings is prepared beside them, and from then on under way until it is made or given up. What is looked at
/// meanwhile are the old ones, and no other change of this user is prepared: so a caller may keep it elsewhere first, and give it up where
/// that fails, and two requests of one user that come at the same time never undo one another.
#[derive(Drop)]
pub struct BindingTable<T, A: Allocator = Global> {
    pub(crate) alloc: A,
    shards: Vec<RwLock<Users<T, A>>, A>,
    room: Mutex<Room>,
    ghost whole: { vec_len shards ≡ all_shards },
}

/// Shards without a user.
fn empty_shards<T: Holding<A> + Drop, A: Allocator + Clone>(
    alloc: &A,
) -> Result<Vec<RwLock<Users<T, A>>, A>, AllocError>
    ensures { IfOk result (λ made. vec_len made ≡ all_shards) }
{
    let mut made = Vec::new(alloc.clone()?);
    for _ in 0..SHARDS {
        let users = Users::new(alloc.clone()?, alloc.clone()?);
        if made.push(RwLock::new(users)).is_err() {
            return Err(AllocError);
        }
    }
    Ok(made)
}

/// What a call of `f` at a value returns.
fn called<T, U, F: FnOnce(&T) -> U>(f: F, held: &T) -> U
    requires { F.IsAlwaysCallable f }
    ensures { FnOnceReturnsAt F.FnOnce f held.now result }
{
    f(held)
}

impl<T: Holding<A> + Drop, A: Allocator + Clone> BindingTable<T, A> {
    /// No user has bindings; there may be `most` in all.
    ///
    /// # Errors
    ///
    /// Only where the allocator refuses.
    pub fn new(alloc: A, most: u32) -> Result<BindingTable<T, A>, AllocError> {
        let shards = empty_shards(&alloc)?;
        Ok(BindingTable {
            alloc,
            shards,
            room: Mutex::new(Room::new(most)),
        })
    }

    /// By how many more there were before.
    fn fewer(before: &Option<T>, now: usize) -> u64
        ensures { result ≡ option_map_or T.count before.now 0 - now }
    {
        match before {
            Some(before) => before.count().saturating_sub(now) as u64,
            None => 0,
        }
    }

    pub(crate) fn shard(&self, user: &[u8]) -> &RwLock<Users<T, A>> {
        &self.shards[shard_of(user)]
    }

    /// How many bindings there are in all: those among them that have ended and whose users are not forgotten, and those that a change adds
    /// which is under way.
    pub fn count<R: Wait>(&self, rt: &R) -> u64 {
        self.room.lock(rt).taken
    }

    /// Calls `f` at the bindings of a user and answers what it returns; None where nothing is kept of the user. Nobody changes the bindings
    /// while `f` runs, which must not change any itself.
    pub fn look<R: Wait, U, F: FnOnce(&T) -> U>(&self, rt: &R, user: &[u8], f: F) -> Option<U>
        requires { F.IsAlwaysCallable f }
        ensures { IfSome result (λ answer. (held : T) × FnOnceReturnsAt F.FnOnce f held answer) }
    {
        let users = self.shard(user).read(rt);
        let held = users.of(user)?;
        Some(called(f, held))
    }

    /// Begins a change of a user's bindings, of whom there were so many, with the users of the shard locked.
    fn begin<R: Wait>(
        &self,
        rt: &R,
        users: &mut Users<T, A>,
        user: &[u8],
        had: usize,
        bindings: T,
    ) -> Result<PreparedChange<T, A>, ChangeFault>
        requires { is_changing users.old user.now ≡ false }
        ensures prepared { IfOk result (λ change. change ≡ record { user = user.now; bindings = bindings; reserved = T.count bindings - had }) }
        ensures begun { OnOk result (is_changing users.new user.now ≡ true) }
        ensures place { OnOk result (is_some (kept_of users.new user.now) ≡ true) }
        ensures held { held T.none users.new user.now ≡ held T.none users.old user.now }
        ensures err { OnErr result (is_changing users.new user.now ≡ false) }
    {
        let more = bindings.count().saturating_sub(had) as u64;
        let name = user.to_vec(self.alloc.clone()?)?;
        users.begin(&self.alloc, user)?;
        let has_room = self.room.lock(rt).take(more);
        if !has_room {
            users.give_up(user);
            return Err(ChangeFault::Full);
        }
        Ok(PreparedChange::new(name, bindings, more))
    }

    /// Prepares as `prepare` does, with the users of the shard locked.
    fn prepare_among<R: Wait, U: Drop, F: FnOnce(&T) -> (Option<T>, U)>(
        &self,
        rt: &R,
        users: &mut Users<T, A>,
        user: &[u8],
        f: F,
    ) -> Result<(Option<PreparedChange<T, A>>, U), ChangeFault>
        requires { F.IsAlwaysCallable f }
        ensures called { IfOk result (λ made. FnOnceReturnsAt F.FnOnce f (held T.none users.old user.now) (option_map bindings_of made.0, made.1)) }
        ensures user { IfOk result (λ made. IfSome made.0 (λ change. change.user ≡ user.now)) }
        ensures begun { IfOk result (λ made. is_changing users.new user.now ≡ is_some made.0) }
        ensures free { OnOk result (is_changing users.old user.now ≡ false) }
        ensures held { held T.none users.new user.now ≡ held T.none users.old user.now }
        ensures err { OnErr result (is_changing users.new user.now ≡ is_changing users.old user.now) }
    {
        if users.is_changing(user) {
            return Err(ChangeFault::Busy);
        }
        let none = T::none(self.alloc.clone()?);
        let had = users.of_or(user, &none).count();
        let (changed, answer) = called(f, users.of_or(user, &none));
        match changed {
            None => Ok((None, answer)),
            Some(changed) => Ok((Some(self.begin(rt, users, user, had, changed)?), answer)),
        }
    }

    /// Prepares a change of a user's bindings: what `f` makes of them, if it makes anything of them, and what it answers beside. Nobody
    /// else changes the user's bindings from before `f` looks at them until the change is made or given up; meanwhile the old ones are
    /// looked at. Where `f` makes nothing of them nothing is changed. `f` must not look at the table, but for `count`.
    ///
    /// Of two changes of one user at the same time the second one is refused, until the first one is made or given up: who asked for it may
    /// ask again.
    ///
    /// # Errors
    ///
    /// `Busy` where a change of this user is under way, without a call of `f`; else `NoMemory` where a growth is refused; else `Full` where
    /// there would be too many bindings in all. Nothing is changed then.
    pub fn prepare<R: Wait, U: Drop, F: FnOnce(&T) -> (Option<T>, U)>(
        &self,
        rt: &R,
        user: &[u8],
        f: F,
    ) -> Result<(Option<PreparedChange<T, A>>, U), ChangeFault>
        requires { F.IsAlwaysCallable f }
        ensures called { IfOk result (λ made. (held : T) × FnOnceReturnsAt F.FnOnce f held (option_map bindings_of made.0, made.1)) }
        ensures user { IfOk result (λ made. IfSome made.0 (λ change. change.user ≡ user.now)) }
    {
        self.prepare_among(rt, &mut self.shard(user).write(rt), user, f)
    }

    /// Makes a change that this table prepared: from now on the new bindings are looked at. The call takes no memory.
    pub fn commit<R: Wait>(&self, rt: &R, change: PreparedChange<T, A>) {
        let (user, bindings) = change.into_parts();
        let now = bindings.count();
        let shard = self.shard(&user);
        let before = shard.write(rt).make(user, bindings);
        self.room.lock(rt).give_back(Self::fewer(&before, now));
    }

    /// Gives a change up that this table prepared: the user keeps the old bindings.
    pub fn give_up<R: Wait>(&self, rt: &R, change: PreparedChange<T, A>) {
        self.shard(change.user()).write(rt).give_up(change.user());
        self.room.lock(rt).give_back(change.reserved());
    }

    /// Prepares a change and makes it: for who keeps bindings nowhere else.
    ///
    /// # Errors
    ///
    /// As those of `prepare`.
    pub fn change<R: Wait, U: Drop, F: FnOnce(&T) -> (Option<T>, U)>(
        &self,
        rt: &R,
        user: &[u8],
        f: F,
    ) -> Result<U, ChangeFault>
        requires { F.IsAlwaysCallable f }
        ensures { IfOk result (λ answer. (held : T) × (changed : Option T) × FnOnceReturnsAt F.FnOnce f held (changed, answer)) }
    {
        let (prepared, answer) = self.prepare(rt, user, f)?;
        if let Some(change) = prepared {
            self.commit(rt, change);
        }
        Ok(answer)
    }

    /// Takes all bindings of a user away, and answers how many they were: for who keeps bindings nowhere else.
    ///
    /// # Errors
    ///
    /// As those of `prepare`.
    pub fn forget<R: Wait>(&self, rt: &R, user: &[u8]) -> Result<usize, ChangeFault>
        ensures { IfOk result (λ count. (held : T) × (count ≡ T.count held)) }
    {
        let none = T::none(self.alloc.clone()?);
        self.change(rt, user, move |held: &T| { (Some(none), held.count()) })
    }

    /// Puts what a user has, in the place of what there was, whether or not there are too many in all then: for the start, with what was
    /// kept elsewhere.
    ///
    /// # Errors
    ///
    /// Only where the allocator refuses; then nothing is changed.
    pub fn insert<R: Wait>(&self, rt: &R, user: &[u8], bindings: T) -> Result<(), AllocError> {
        let count = bindings.count() as u64;
        let before = self.shard(user).write(rt).put(&self.alloc, user, bindings)?;
        self.room.lock(rt).replace(Self::fewer(&before, 0), count);
        Ok(())
    }

    /// Brings a walk to the next user whose bindings `wanted` says yes to, and answers whether there was one. The users of a shard come in
    /// the order of their names, so each comes once; one who is added meanwhile comes or does not. No lock is held between two calls.
    ///
    /// # Errors
    ///
    /// Only where the allocator refuses; the walk is where it was then.
    pub fn next_user<R: Wait, F: Fn(&T) -> bool>(
        &self,
        rt: &R,
        walk: &mut Walk<A>,
        wanted: F,
    ) -> Result<bool, AllocError>
        requires { F.IsAlwaysCallable wanted }
    {
        for _ in 0..SHARDS {
            if walk.shard >= SHARDS {
                return Ok(false);
            }
            if self.next_of_shard(rt, walk, &wanted)? {
                return Ok(true);
            }
            walk.shard += 1;
            walk.user = None;
        }
        Ok(false)
    }

    /// Brings a walk to the next user of its shard, if there is one.
    fn next_of_shard<R: Wait, F: Fn(&T) -> bool>(
        &self,
        rt: &R,
        walk: &mut Walk<A>,
        wanted: &F,
    ) -> Result<bool, AllocError>
        requires within { walk.old.shard < all_shards }
        requires callable { F.IsAlwaysCallable wanted.now }
        ensures shard { walk.new.shard ≡ walk.old.shard }
    {
        let users = self.shards[walk.shard].read(rt);
        let Some(next) = users.next(&walk.user, wanted) else {
            return Ok(false);
        };
        let user = Vec::from_slice(self.alloc.clone()?, next)?;
        walk.user = Some(user);
        Ok(true)
    }
}
