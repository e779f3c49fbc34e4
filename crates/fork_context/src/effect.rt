//! What an event changes in a table (RFC 3261 sections 9.1 and 16.7 to 16.10).
ghost use Rattle.std.specs.Prelude.{◌≡◌, ℕ, [], true, slice_get, IfOk, IfSome, OnOk, OnErr};
ghost use Rattle.std.specs.Option.{option_map};
ghost use Rattle.fork_model.specs.Table.{Ended, is_row, is_open};
ghost use Rattle.fork_model.specs.Event.{row_named};
ghost use Rattle.fork_model.specs.Contacts as contacts;
ghost use Rattle.fork_model.specs.Step as step;
ghost use Rattle.fork_model.specs.Step.{with_effect};
ghost use Rattle.fork_tree.specs.States.{end_of, plain_state};
ghost use Rattle.context_values.specs.EventView.{event_of};
ghost use Rattle.fork_context.specs.inner.Change.{effect_of, cancels, may_take, changed, MayChange};
ghost use Rattle.fork_context.specs.inner.StandIn.{tree_row};
ghost use Rattle.fork_context.specs.inner.Stepped.{HasRoom};

use crate::closing::is_global_failure;
use crate::contacts::{ContactLists, taking_at};
use crate::fork::Fork;
use crate::new_rows::{no_rows, rows_below};
use context_values::{Answer, Event, Numbers, Offer, copied_challenges};
use fork_rank::{Challenge, Status, StatusClass};
use fork_tree::{End, RowRef, State};
use std::alloc::{AllocError, Allocator};

/// What becomes of the row that an event names.
#[derive(Drop)]
pub(crate) enum Effect<'a, A: Allocator> {
    /// It has rung.
    Rings,
    /// Its CANCEL is sent.
    GetsCancel,
    /// It ends, cancelled and given up without an answer.
    GivenUp,
    /// It ends with an answer of this status that the proxy assumes (sections 16.8 and 16.9).
    Assumed(Status),
    /// It ends with this answer.
    Answered(&'a Answer<A>),
}

impl<'a, A: Allocator> Effect<'a, A> {
    /// Whether the CANCEL of its row is sent.
    pub(crate) fn cancels(&self) -> bool
        ensures { result ≡ cancels self.now }
    {
        matches!(self, Effect::GetsCancel)
    }
}

/// What an event changes.
#[derive(Drop)]
pub(crate) enum Change<'a, A: Allocator> {
    /// The table closes.
    Closes,
    /// A row.
    Row(RowRef, Effect<'a, A>),
}

/// What becomes of this row by an event that names it; `None` where the event fits no case.
fn effect_on<'a, A: Allocator + Clone>(
    fork: &Fork<A>,
    row: &RowRef,
    event: &'a Event<A>,
) -> Option<Effect<'a, A>>
    requires { row_named (event_of event.now) ≡ Some row.now.no }
    ensures effect { (at : ℕ) → option_map (effect_of fork.now row.now at) result ≡ step.effect fork.now (tree_row row.now) at (event_of event.now) (plain_state row.now.state) }
    ensures may { IfSome result (λ effect. may_take effect (plain_state row.now.state) ≡ true) }
{
    match row.state {
        State::Idle | State::Ended(_) => None,
        State::Trying => match event {
            Event::Ring(..) => Some(Effect::Rings),
            Event::Answer(_, answer) => Some(Effect::Answered(answer)),
            Event::Timeout(_) => Some(Effect::Assumed(Status::request_timeout())),
            Event::Fault(_) => Some(Effect::Assumed(Status::service_unavailable())),
            Event::TimerC(_) if fork.is_invite() => {
                Some(Effect::Assumed(Status::request_timeout()))
            }
            Event::TimerC(_) | Event::GiveUp(_) | Event::Cancel => None,
        },
        State::Rung { cancelled } => match event {
            Event::Answer(_, answer) => Some(Effect::Answered(answer)),
            Event::Timeout(_) => Some(Effect::Assumed(Status::request_timeout())),
            Event::Fault(_) => Some(Effect::Assumed(Status::service_unavailable())),
            Event::TimerC(_) if fork.is_invite() && !cancelled => Some(Effect::GetsCancel),
            Event::GiveUp(_) if cancelled => Some(Effect::GivenUp),
            Event::Ring(..) | Event::TimerC(_) | Event::GiveUp(_) | Event::Cancel => None,
        },
    }
}

/// How a row ends by a 3xx: spent where it had a contact and none is left, else stored with those left.
fn redirected<A: Allocator>(answer: &Answer<A>, taken: &ContactLists<A>, at: u32) -> End
    ensures { end_of result taken.now.left answer.now.challenges ≡ step.redirected at answer.now taken.now }
{
    if is_nonempty(answer.offers()) && !is_nonempty(&taken.left) {
        End::Taken { arrival: at }
    } else {
        End::Stored {
            status: answer.status(),
            arrival: at,
            received: true,
        }
    }
}

/// Whether there is a contact.
fn is_nonempty<A: Allocator>(offers: &[Offer<A>]) -> bool
    ensures { result ≡ step.is_nonempty offers.now }
{
    !offers.is_empty()
}

impl<A: Allocator + Clone> Fork<A> {
    /// What the event changes; `None` where it changes nothing.
    pub(crate) fn change_of<'a>(&self, event: &'a Event<A>) -> Option<Change<'a, A>>
        ensures change { (at : ℕ) → step.change self.now (event_of event.now) at ≡ option_map (changed self.now at) result }
        ensures may { IfSome result (λ change. MayChange self.now change) }
    {
        match event {
            Event::Ring(n, _)
            | Event::Answer(n, _)
            | Event::Timeout(n)
            | Event::Fault(n)
            | Event::TimerC(n)
            | Event::GiveUp(n) => self.row_change_of(*n, event),
            Event::Cancel if self.can_close() => Some(Change::Closes),
            Event::Cancel => None,
        }
    }

    /// What an event changes that names the row n.
    fn row_change_of<'a>(&self, n: u16, event: &'a Event<A>) -> Option<Change<'a, A>>
        requires { row_named (event_of event.now) ≡ Some n }
        ensures change { (at : ℕ) → step.change_at self.now at (event_of event.now) n (slice_get self.now.rows n) ≡ option_map (changed self.now at) result }
        ensures may { IfSome result (λ change. MayChange self.now change) }
    {
        let row = self.row(n)?;
        match effect_on(self, &row, event) {
            Some(effect) => Some(Change::Row(row, effect)),
            None => None,
        }
    }

    /// Whether the event changes nothing.
    pub(crate) fn is_stray(&self, event: &Event<A>) -> bool
        ensures { (at : ℕ) → result ≡ step.is_stray self.now (event_of event.now) at }
    {
        self.change_of(event).is_none()
    }

    /// Takes this row on by the effect of the event that stands at this position; room for the numbers of the reply.
    ///
    /// # Errors
    ///
    /// Only where the allocator refuses; then the fork is as it was.
    pub(crate) fn apply(
        &mut self,
        alloc: &A,
        row: &RowRef,
        effect: Effect<'_, A>,
        at: u32,
    ) -> Result<Numbers<A>, AllocError>
        requires may { is_row (may_take effect) (slice_get self.old.rows row.now.no) ≡ true }
        ensures ok { OnOk result (self.new ≡ with_effect self.old row.now.no (effect_of self.old row.now at effect.entry)) }
        ensures room { IfOk result (λ numbers. HasRoom numbers self.new.rows) }
        ensures err { OnErr result (self.new ≡ self.old) }
    {
        let n = row.no;
        match effect {
            Effect::Rings => {
                let numbers = Numbers::with_room(alloc, self.count() as usize + 1)?;
                self.ring(n);
                Ok(numbers)
            }
            Effect::GetsCancel => {
                let numbers = Numbers::with_room(alloc, self.count() as usize + 1)?;
                self.mark_cancel(n);
                Ok(numbers)
            }
            Effect::GivenUp => self.end_alone(alloc, n, End::Silent { arrival: at }, false),
            Effect::Assumed(status) => {
                let end = End::Stored {
                    status,
                    arrival: at,
                    received: false,
                };
                self.end_alone(alloc, n, end, false)
            }
            Effect::Answered(answer) => self.end_by(alloc, row, answer, at),
        }
    }

    /// A final answer ends this row: a 2xx closes the table, the contacts of a 3xx become rows below it, any other is
    /// stored, and a 6xx closes the table, too (section 16.7 steps 4 and 5).
    fn end_by(
        &mut self,
        alloc: &A,
        row: &RowRef,
        answer: &Answer<A>,
        at: u32,
    ) -> Result<Numbers<A>, AllocError>
        requires open_yet { is_row is_open (slice_get self.old.rows row.now.no) ≡ true }
        ensures ok { OnOk result (self.new ≡ with_effect self.old row.now.no (step.answers self.old row.now.no (tree_row row.now) at answer.now)) }
        ensures room { IfOk result (λ numbers. HasRoom numbers self.new.rows) }
        ensures err { OnErr result (self.new ≡ self.old) }
    {
        let n = row.no;
        match answer.status().class() {
            StatusClass::Provisional | StatusClass::Success => {
                self.end_alone(alloc, n, End::Accepted { arrival: at }, true)
            }
            StatusClass::Redirection => self.redirect(alloc, row, answer, at),
            StatusClass::ClientError | StatusClass::ServerError | StatusClass::GlobalFailure => {
                self.store(alloc, n, answer, at)
            }
        }
    }

    /// A 3xx ends this row, and those of its contacts that are taken become rows below it.
    fn redirect(
        &mut self,
        alloc: &A,
        row: &RowRef,
        answer: &Answer<A>,
        at: u32,
    ) -> Result<Numbers<A>, AllocError>
        requires open_yet { is_row is_open (slice_get self.old.rows row.now.no) ≡ true }
        ensures ok { OnOk result (self.new ≡ with_effect self.old row.now.no (step.redirects row.now.no at answer.now (contacts.taking_at self.old (tree_row row.now) answer.now.offers))) }
        ensures room { IfOk result (λ numbers. HasRoom numbers self.new.rows) }
        ensures err { OnErr result (self.new ≡ self.old) }
    {
        let taken = taking_at(alloc, self, row, answer.offers())?;
        let below = rows_below(alloc, self.count(), &taken.fresh)?;
        let end = redirected(answer, &taken, at);
        let challenges = copied_challenges(alloc, answer.challenges())?;
        self.end(alloc, row.no, end, (taken.left, challenges), below, false)
    }

    /// This answer ends row n, which is open, and is stored; a 6xx closes the table.
    fn store(
        &mut self,
        alloc: &A,
        n: u16,
        answer: &Answer<A>,
        at: u32,
    ) -> Result<Numbers<A>, AllocError>
        requires open_yet { is_row is_open (slice_get self.old.rows n) ≡ true }
        ensures ok { OnOk result (self.new ≡ with_effect self.old n (step.stores at answer.now)) }
        ensures room { IfOk result (λ numbers. HasRoom numbers self.new.rows) }
        ensures err { OnErr result (self.new ≡ self.old) }
    {
        let end = End::Stored {
            status: answer.status(),
            arrival: at,
            received: true,
        };
        let closes = is_global_failure(answer.status());
        let challenges = copied_challenges(alloc, answer.challenges())?;
        self.end_with(alloc, n, end, challenges, closes)
    }

    /// Row n, which is open, has ended, without a challenge.
    fn end_alone(
        &mut self,
        alloc: &A,
        n: u16,
        end: End,
        closes: bool,
    ) -> Result<Numbers<A>, AllocError>
        requires open_yet { is_row is_open (slice_get self.old.rows n) ≡ true }
        ensures ok { OnOk result (self.new ≡ with_effect self.old n (record { state = Ended (end_of end [] []); fresh = []; closes = closes })) }
        ensures room { IfOk result (λ numbers. HasRoom numbers self.new.rows) }
        ensures err { OnErr result (self.new ≡ self.old) }
    {
        let challenges = Vec::new(alloc.clone()?);
        self.end_with(alloc, n, end, challenges, closes)
    }

    /// Row n, which is open, has ended, with these challenges, and nothing comes below it.
    fn end_with(
        &mut self,
        alloc: &A,
        n: u16,
        end: End,
        challenges: Vec<Challenge<A>, A>,
        closes: bool,
    ) -> Result<Numbers<A>, AllocError>
        requires open_yet { is_row is_open (slice_get self.old.rows n) ≡ true }
        ensures ok { OnOk result (self.new ≡ with_effect self.old n (record { state = Ended (end_of end [] challenges.items); fresh = []; closes = closes })) }
        ensures room { IfOk result (λ numbers. HasRoom numbers self.new.rows) }
        ensures err { OnErr result (self.new ≡ self.old) }
    {
        let first = self.count();
        let left = Vec::new(alloc.clone()?);
        let added = no_rows(alloc, first)?;
        let fresh = Vec::new(alloc.clone()?);
        self.end(alloc, n, end, (left, challenges), (added, fresh), closes)
    }
}
