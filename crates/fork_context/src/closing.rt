//! How a fork closes: by a 2xx, by a 6xx or by the caller's CANCEL (RFC 3261 sections 9.1, 16.7 step 5 and 16.10).
ghost use Rattle.std.specs.Prelude.{◌≡◌, ◌≤◌, ◌+◌, ◌++◌, ◌&&◌, ◌||◌, not, true, [], drop, length, map, slice_get, take, vec_capacity, filter, nat_le};
ghost use Rattle.fork_model.specs.Table.{is_row, is_invite};
ghost use Rattle.fork_context.specs.Closing.{closed_row};
ghost use Rattle.fork_context.specs.inner.Closing.{gets_cancel, is_ringing, cancel_row};
ghost use Rattle.fork_context.specs.inner.Stepped.{HasRoom, IsSettled, number_if, cancelled_at};
ghost use Rattle.fork_model.specs.Groups.{numbers_below};

use crate::fork::Fork;
use context_values::Numbers;
use fork_rank::{Kind, Status, StatusClass};
use fork_tree::State;
use std::alloc::Allocator;

impl<A: Allocator + Clone> Fork<A> {
    /// Whether the caller's CANCEL closes the table.
    pub(crate) fn can_close(&self) -> bool
        ensures { result ≡ (is_invite self.now.kind && not self.now.closed) }
    {
        matches!(self.kind(), Kind::Invite) && !self.closed()
    }

    /// What follows the change of row n: in a table that was closed it gets its CANCEL where it has rung too late; a
    /// table that the change closed closes its other rows; in an open one some group may start. The numbers are those
    /// of the rows tried and cancelled since, that of row n among them where the change itself cancelled it.
    #[tactic(auto, using(crate::proofs::SettledNumbers::closed_before, crate::proofs::SettledNumbers::closes_now, crate::proofs::SettledNumbers::goes_on))]
    pub(crate) fn settle(
        &mut self,
        n: u16,
        was_closed: bool,
        cancels: bool,
        numbers: &mut Numbers<A>,
    )
        requires there { n + 1 ≤ length self.old.rows }
        requires room { HasRoom numbers.old self.old.rows }
        ensures { IsSettled n was_closed cancels self.old self.new (drop numbers.new.cancelled numbers.new.rows.items) (take numbers.new.cancelled numbers.new.rows.items) }
    {
        if was_closed {
            let rings = self.gets_cancel(n);
            self.cancel_if(rings, n);
            push_if(rings || cancels, &mut numbers.rows, n);
            numbers.cancelled = numbers.rows.len();
        } else if self.closed() {
            self.shut(&mut numbers.rows);
            numbers.cancelled = numbers.rows.len();
        } else {
            push_if(cancels, &mut numbers.rows, n);
            numbers.cancelled = numbers.rows.len();
            self.start(&mut numbers.rows);
        }
    }

    /// Row n gets its CANCEL, where it is to.
    fn cancel_if(&mut self, rings: bool, n: u16)
        requires { rings ≡ gets_cancel self.old.kind self.old.rows n }
        ensures { self.new ≡ cancelled_at n self.old }
    {
        if rings {
            self.mark_cancel(n);
        }
    }

    /// The table closes: no row that waits is ever tried, and in an INVITE each that has rung gets its CANCEL; the
    /// numbers of those.
    pub(crate) fn shut(&mut self, cancelled: &mut Vec<u16, A>)
        requires none { cancelled.old.items ≡ [] }
        requires room { length self.old.rows ≤ vec_capacity cancelled.old }
        ensures rows { self.new ≡ record self.old { closed = true; rows = map (closed_row self.old.kind) self.old.rows } }
        ensures numbers { cancelled.new.items ≡ filter (gets_cancel self.old.kind self.old.rows) (numbers_below (length self.old.rows)) }
    {
        self.cancel_rung(cancelled);
        self.close();
    }

    /// Each row that has rung gets its CANCEL, where the request is an INVITE; their numbers.
    fn cancel_rung(&mut self, cancelled: &mut Vec<u16, A>)
        requires none { cancelled.old.items ≡ [] }
        requires room { length self.old.rows ≤ vec_capacity cancelled.old }
        ensures rows { self.new ≡ record self.old { rows = map (cancel_row self.old.kind) self.old.rows } }
        ensures numbers { cancelled.new.items ≡ filter (gets_cancel self.old.kind self.old.rows) (numbers_below (length self.old.rows)) }
    {
        for n in 0..self.count() {
            let rings = self.gets_cancel(n);
            self.cancel_if(rings, n);
            push_if(rings, cancelled, n);
        }
    }

    /// Whether row n gets its CANCEL once the table is closed: it has rung, no CANCEL was sent, and the request is an
    /// INVITE.
    fn gets_cancel(&self, n: u16) -> bool
        ensures { result ≡ (is_row is_ringing (slice_get self.now.rows n) && is_invite self.now.kind) }
    {
        self.is_ringing(n) && self.is_invite()
    }

    /// Whether row n has rung, and no CANCEL was sent.
    fn is_ringing(&self, n: u16) -> bool
        ensures { result ≡ is_row is_ringing (slice_get self.now.rows n) }
    {
        match self.row(n) {
            Some(row) => matches!(row.state, State::Rung { cancelled: false }),
            None => false,
        }
    }
}

/// Whether it is a 6xx, which closes the table: no further branch is tried (section 16.7 step 5).
pub(crate) fn is_global_failure(status: Status) -> bool
    ensures { result ≡ nat_le 600 status }
{
    matches!(status.class(), StatusClass::GlobalFailure)
}

/// Whether a table is closed, where it was before, or this closes it.
pub(crate) fn closes_with(before: bool, closes: bool) -> bool
    ensures { result ≡ (before || closes) }
{
    before || closes
}

/// Adds the number where it is to be.
fn push_if<A: Allocator>(adds: bool, numbers: &mut Vec<u16, A>, n: u16)
    requires room { length numbers.old.items + 1 ≤ vec_capacity numbers.old }
    ensures items { numbers.new.items ≡ numbers.old.items ++ number_if adds n }
    ensures capacity { vec_capacity numbers.new ≡ vec_capacity numbers.old }
{
    if adds {
        numbers.push_reserved(n);
    }
}
