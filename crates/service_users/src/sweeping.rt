//! Users are forgotten of whom no binding is there any more.
ghost use Rattle.std.specs.Prelude.{◌≡◌, [], None, Some, if◌then◌else◌, is_none};
ghost use Rattle.bindings.specs.Bindings.{first_end, is_there};

use crate::keeping::{ChangeQueue, PendingChange};
use crate::registry::Registry;
use binding_table::{ChangeFault, PreparedChange, Walk};
use bindings::UserBindings;
use std::alloc::Allocator;
use std::sync::Wait;
use std::sync::atomic::Ordering;

/// How many milliseconds after a look for users without bindings the next one comes.
const SWEEP_MILLIS: u64 = 10_000;

/// How many milliseconds after a look at as many users as are forgotten at once the next one comes where changes are kept elsewhere: those
/// users would be found again until that is done.
const KEEPING_MILLIS: u64 = 100;

/// How many users are forgotten at one look.
const MOST_FORGOTTEN: u32 = 4_096;

/// No bindings in the place of those of a user of whom none is there at this moment; otherwise no change.
fn none_if_ended<A: Allocator>(
    alloc: A,
    held: &UserBindings<A>,
    moment: u64,
) -> Option<UserBindings<A>>
    ensures { result ≡ (if is_none (first_end (is_there moment) held.now) then Some [] else None) }
{
    if held.next_end(moment).is_none() {
        Some(UserBindings::new(alloc))
    } else {
        None
    }
}

impl<A: Allocator + Copy> Registry<A> {
    /// Lets a change that answers no request wait until it is kept, and says whether there is room for it: else it is given up.
    fn make_once_kept<R: Wait>(
        &self,
        rt: &R,
        queue: &ChangeQueue<A>,
        change: PreparedChange<UserBindings<A>, A>,
    ) -> bool {
        let pending = PendingChange {
            change,
            answers: None,
        };
        let Some(back) = queue.push(rt, pending) else {
            return true;
        };
        self.give_up(rt, back.into_change());
        false
    }

    /// Makes a change that answers no request, or, where changes are kept elsewhere, lets it wait until it is kept. It says whether that was
    /// done.
    fn make<R: Wait>(
        &self,
        rt: &R,
        keeping: Option<&ChangeQueue<A>>,
        change: PreparedChange<UserBindings<A>, A>,
    ) -> bool {
        match keeping {
            None => {
                self.bindings.commit(rt, change);
                true
            }
            Some(queue) => self.make_once_kept(rt, queue, change),
        }
    }

    /// Forgets what is bound to a user, where changes are kept elsewhere once this one is, and answers how many contacts that are.
    ///
    /// # Errors
    ///
    /// As those of `BindingTable::prepare`; `Busy` also where too many changes wait until they are kept.
    pub(crate) fn forget<R: Wait>(
        &self,
        rt: &R,
        alloc: A,
        keeping: Option<&ChangeQueue<A>>,
        user: &[u8],
    ) -> Result<usize, ChangeFault> {
        let (prepared, count) = self.bindings.prepare(
            rt,
            user,
            |held: &UserBindings<A>| (Some(UserBindings::new(alloc)), held.len()),
        )?;
        let Some(change) = prepared else {
            return Ok(count);
        };
        if self.make(rt, keeping, change) {
            Ok(count)
        } else {
            Err(ChangeFault::Busy)
        }
    }

    /// Forgets a user, unless a binding of his is there at this moment, or a change of his bindings is under way; where changes are kept
    /// elsewhere, once this one is.
    fn forget_ended<R: Wait>(
        &self,
        rt: &R,
        alloc: A,
        keeping: Option<&ChangeQueue<A>>,
        user: &[u8],
        moment: u64,
    ) {
        let prepared = self.bindings.prepare(
            rt,
            user,
            |held: &UserBindings<A>| (none_if_ended(alloc, held, moment), ()),
        );
        let Ok((Some(change), ())) = prepared else {
            return;
        };
        let _ = self.make(rt, keeping, change);
    }

    /// Forgets users of whom no binding is there at this moment, 4,096 at most, and answers whether there were no more.
    fn forget_all_ended<R: Wait>(
        &self,
        rt: &R,
        alloc: A,
        keeping: Option<&ChangeQueue<A>>,
        moment: u64,
    ) -> bool {
        let mut walk = Walk::new();
        for _ in 0..MOST_FORGOTTEN {
            let found = self.bindings.next_user(
                rt,
                &mut walk,
                |held: &UserBindings<A>| held.next_end(moment).is_none(),
            );
            let (Ok(true), Some(user)) = (found, walk.user()) else {
                return true;
            };
            self.forget_ended(rt, alloc, keeping, user, moment);
        }
        false
    }

    /// When users are looked for the next time of whom no binding is there any more, in milliseconds: at the end of time where nothing was ever
    /// bound to anybody.
    pub fn next_sweep(&self) -> u64 {
        if self.is_used.load(Ordering::SeqCst) {
            self.sweep_at.load(Ordering::SeqCst)
        } else {
            u64::MAX
        }
    }

    /// Forgets users of whom no binding is there any more, where they are to be looked for by now, so that there is room for others. It is
    /// for one thread.
    pub fn sweep<R: Wait>(&self, rt: &R, alloc: A, keeping: Option<&ChangeQueue<A>>, now: u64) {
        if now < self.next_sweep() {
            return;
        }
        let is_all = self.forget_all_ended(rt, alloc, keeping, self.moment_at(now));
        let wait = match (is_all, keeping) {
            (true, _) => SWEEP_MILLIS,
            (false, Some(_)) => KEEPING_MILLIS,
            (false, None) => 0,
        };
        self.sweep_at
            .store(now.saturating_add(wait), Ordering::SeqCst);
    }
}
