//! How a fork takes an event (RFC 3261 sections 9.1 and 16.7 to 16.10).
ghost use Rattle.std.specs.Prelude.{◌≡◌, drop, nat_lt, slice_get, take, IfOk, OnOk, OnErr};
ghost use Rattle.fork_model.specs.Step.{next};
ghost use Rattle.fork_model.specs.Reply.{provisional, success, success_goes_up, IsReply};
ghost use Rattle.fork_model.specs.Series.{IsInSeries};
ghost use Rattle.fork_context.specs.Closing.{IsClosedWhole};
ghost use Rattle.context_values.specs.EventView.{event_of};
ghost use Rattle.context_values.specs.ReplyView.{up_of};
ghost use Rattle.fork_context.specs.inner.Stepped.{IsStepped, IsUpOf};

use crate::effect::Change;
use crate::fork::Fork;
use context_values::{Event, Numbers, Reply, Up};
use fork_rank::{Kind, Status, StatusClass};
use std::alloc::{AllocError, Allocator};

/// Whether it is a 2xx.
fn is_success(status: Status) -> bool
    ensures { result ≡ nat_lt status 300 }
{
    matches!(status.class(), StatusClass::Success)
}

impl<A: Allocator + Clone> Fork<A> {
    /// Takes the event that stands at this position: changes the table by it, and answers what is to be sent.
    ///
    /// # Errors
    ///
    /// Only where the allocator refuses; then the fork is as it was.
    pub(crate) fn take(
        &mut self,
        alloc: &A,
        event: &Event<A>,
        at: u32,
    ) -> Result<Reply<A>, AllocError>
        requires series { IsInSeries self.old }
        requires whole { IsClosedWhole self.old }
        ensures next { OnOk result (self.new ≡ next self.old (event_of event.now) at) }
        ensures reply { IfOk result (IsReply self.old (event_of event.now) at) }
        ensures err { OnErr result (self.new ≡ self.old) }
    {
        let provisional = self.provisional(event);
        let success = self.success(event);
        let was_finished = self.finished();
        let numbers = self.change(alloc, event, at)?;
        let up = self.up(provisional, success, was_finished);
        Ok(Reply::new(at, numbers, up))
    }

    /// Changes the table by the event; the rows that are tried and cancelled since.
    fn change(&mut self, alloc: &A, event: &Event<A>, at: u32) -> Result<Numbers<A>, AllocError>
        requires series { IsInSeries self.old }
        requires whole { IsClosedWhole self.old }
        ensures ok { IfOk result (λ numbers. IsStepped self.old (event_of event.now) at self.new (drop numbers.cancelled numbers.rows.items) (take numbers.cancelled numbers.rows.items)) }
        ensures err { OnErr result (self.new ≡ self.old) }
    {
        let Some(change) = self.change_of(event) else {
            return Numbers::with_room(alloc, 0);
        };
        match change {
            Change::Closes => {
                let mut numbers = Numbers::with_room(alloc, self.count() as usize)?;
                self.shut(&mut numbers.rows);
                numbers.cancelled = numbers.rows.len();
                Ok(numbers)
            }
            Change::Row(row, effect) => {
                let was_closed = self.closed();
                let cancels = effect.cancels();
                let mut numbers = self.apply(alloc, &row, effect, at)?;
                self.settle(row.no, was_closed, cancels, &mut numbers);
                Ok(numbers)
            }
        }
    }

    /// The row whose provisional answer goes up: any but a 100 does, from a row that was tried, while no 2xx has come.
    fn provisional(&self, event: &Event<A>) -> Option<u16>
        ensures { result ≡ provisional self.now (event_of event.now) }
    {
        match event {
            Event::Ring(n, status) => {
                if status.code() > 100 && self.is_open(*n) && !self.succeeded() {
                    Some(*n)
                } else {
                    None
                }
            }
            _ => None,
        }
    }

    /// The row whose 2xx goes up.
    fn success(&self, event: &Event<A>) -> Option<u16>
        ensures { result ≡ success self.now (event_of event.now) }
    {
        match event {
            Event::Answer(n, answer) => {
                if is_success(answer.status()) && self.success_goes_up(*n) {
                    Some(*n)
                } else {
                    None
                }
            }
            _ => None,
        }
    }

    /// Whether a 2xx of this row goes up: of an INVITE each does, a repeated one again; else the first that ends a row.
    fn success_goes_up(&self, n: u16) -> bool
        ensures { result ≡ success_goes_up self.now self.now.kind (slice_get self.now.rows n) }
    {
        match self.kind() {
            Kind::Invite => self.is_open(n) || self.is_accepted(n),
            Kind::Other => self.is_open(n) && !self.succeeded(),
        }
    }

    /// What goes up: the provisional answer or the 2xx that goes up at once, the final answer where the last branch
    /// ended just now and no 2xx came, or nothing.
    fn up(&self, provisional: Option<u16>, success: Option<u16>, was_finished: bool) -> Up
        ensures { IsUpOf provisional success was_finished self.now (up_of result) }
    {
        if let Some(n) = provisional {
            return Up::Provisional(n);
        }
        if let Some(n) = success {
            return Up::Success(n);
        }
        if self.finished() && !was_finished && !self.succeeded() {
            return Up::Final(self.choice().0);
        }
        Up::Nothing
    }
}
