//! The table of a fork, its rows kept in a tree.
ghost use Rattle.std.specs.Prelude.{◌≡◌, ◌≤◌, ◌+◌, ◌++◌, ◌||◌, ℕ, List, true, false, [], Some, length, map, nat_eq, slice_get, vec_capacity, IfOk, OnOk, OnErr, IfSome, IfNone};
ghost use Rattle.std.specs.List.{list_any};
ghost use Rattle.std.specs.Cmp.Lexicographic.{pointwise};
ghost use Rattle.std.specs.Option.{option_map, option_copied, option_and_then};
ghost use Rattle.fork_model.specs.Table.{Row, Rung, Ended, is_row, is_trying, is_open, is_accepted, is_finished, is_succeeded, is_invite, most_targets};
ghost use Rattle.fork_model.specs.Step.{with_state, with_effect};
ghost use Rattle.fork_model.specs.Choice.{IsChoice, status_sent, stored_at};
ghost use Rattle.fork_model.specs.Waiting.{may_start, line_from, parent_row};
ghost use Rattle.fork_tree.specs.Below.{parent_of};
ghost use Rattle.fork_tree.specs.Tree.{is_uncancelled};
ghost use Rattle.fork_tree.specs.States.{end_of};
ghost use Rattle.fork_tree.specs.NewRows.{waiting_row};
ghost use Rattle.fork_context.specs.inner.Closing.{never_row};
ghost use Rattle.context_values.specs.RowExtras.{with_extras};
ghost use Rattle.fork_context.specs.inner.ForkInside.{IsFork, accepts_end};
ghost use Rattle.fork_rank.specs.KindView.{kind_of};
ghost use Rattle.fork_context.specs.LeftView.{left_of};
ghost use Rattle.fork_tree.specs.Ready.{IsReady, tried};
ghost use Rattle.fork_context.specs.inner.Ready.{AddsStarted, numbers_from};
ghost use Rattle.fork_context.specs.inner.Stepped.{HasRoom};
ghost use Rattle.context_values.specs.ReplyView.{choice_of};
ghost use Rattle.fork_context.specs.RowShown.{row_shown};
ghost use Rattle.fork_context.specs.inner.RowShown.{ref_shown};

use crate::challenges::{StoredAnswer, stored_answer};
use crate::closing::closes_with;
use crate::row::RowView;
use context_values::{Choice, ExtrasTable, Numbers, Offer, RowExtras};
use fork_rank::{Challenge, Kind, Rules};
use fork_tree::{End, ForkTree, NewRows, RowRef, State};
use std::alloc::{AllocError, Allocator, Global};
use std::marker::Model;

/// A row for each target, the row's number being its place; once closed, no further group starts.
#[derive(Drop)]
pub(crate) struct Fork<A: Allocator + Clone = Global> {
    kind: Kind,
    closed: bool,
    succeeded: bool,
    tree: ForkTree<A>,
    extras: ExtrasTable<A>,
}

impl<A: Allocator + Clone> Model for Fork<A> {
    ghost use Rattle.fork_model.specs.Table as spec;
    ghost use Rattle.context_values.specs.RowExtras.{with_extras};
    ghost use Rattle.fork_context.specs.inner.ForkInside.{IsFork};
    ghost use Rattle.fork_rank.specs.KindView.{kind_of};

    ghost Value = { spec.Table };

    ghost view = { λ f. record { kind = kind_of f.kind; rules = f.tree.rules; closed = f.closed; rows = with_extras f.tree.rows f.extras } };

    ghost invariant = { λ f. IsFork f.tree.rows f.extras f.succeeded };
}

impl<A: Allocator + Clone> Fork<A> {
    /// The open fork of these rows, with the extras of each.
    pub(crate) fn of(kind: Kind, tree: ForkTree<A>, extras: ExtrasTable<A>) -> Fork<A>
        requires { IsFork tree.rows extras false }
        ensures { result ≡ record { kind = kind_of kind; rules = tree.rules; closed = false; rows = with_extras tree.rows extras } }
    {
        Fork {
            kind,
            closed: false,
            succeeded: false,
            tree,
            extras,
        }
    }

    /// What is forked.
    pub(crate) fn kind(&self) -> Kind
        ensures { kind_of result ≡ self.now.kind }
    {
        self.kind
    }

    /// Whether an INVITE is forked, whose branches alone can be cancelled (RFC 3261 section 9.1).
    pub(crate) fn is_invite(&self) -> bool
        ensures { result ≡ is_invite self.now.kind }
    {
        matches!(self.kind, Kind::Invite)
    }

    /// The rules that it was made with.
    pub(crate) fn rules(&self) -> Rules
        ensures { result ≡ self.now.rules }
    {
        self.tree.rules()
    }

    /// Whether no further group starts.
    pub(crate) fn closed(&self) -> bool
        ensures { result ≡ self.now.closed }
    {
        self.closed
    }

    /// Whether some row was answered with a 2xx.
    pub(crate) fn succeeded(&self) -> bool
        ensures { result ≡ is_succeeded self.now.rows }
    {
        self.succeeded
    }

    /// Whether every row has ended.
    pub(crate) fn finished(&self) -> bool
        ensures { result ≡ is_finished self.now.rows }
    {
        self.tree.open_count() == 0
    }

    /// How many rows there are.
    pub(crate) fn count(&self) -> u16
        ensures value { result ≡ length self.now.rows }
        ensures range { result ≤ most_targets }
    {
        self.tree.count()
    }

    /// Row n.
    pub(crate) fn row(&self, n: u16) -> Option<RowRef>
        ensures { result ≡ option_map (ref_shown n) (slice_get self.now.rows n) }
    {
        self.tree.row(n)
    }

    /// Whether there is such a row, and it was tried and has not ended.
    pub(crate) fn is_open(&self, n: u16) -> bool
        ensures { result ≡ is_row is_open (slice_get self.now.rows n) }
    {
        match self.row(n) {
            Some(row) => matches!(row.state, State::Trying | State::Rung { .. }),
            None => false,
        }
    }

    /// Whether there is such a row, and it was answered with a 2xx.
    pub(crate) fn is_accepted(&self, n: u16) -> bool
        ensures { result ≡ is_row is_accepted (slice_get self.now.rows n) }
    {
        match self.row(n) {
            Some(row) => matches!(row.state, State::Ended(End::Accepted { .. })),
            None => false,
        }
    }

    /// What goes up once every branch has ended, with its status: the first of the stored answers, a 500 in place of a
    /// 503, a 408 where nothing is stored.
    pub(crate) fn choice(&self) -> (Choice, u16)
        ensures choice { IsChoice self.now.rules self.now.rows (choice_of result.0) }
        ensures status { result.1 ≡ status_sent self.now.rows (choice_of result.0) }
    {
        match self.tree.best() {
            None => (Choice::NoAnswer408, 408),
            Some(first) => {
                let code = first.status.code();
                if code == 503 {
                    (Choice::Only503(first.no), 500)
                } else {
                    (Choice::Stored(first.no), code)
                }
            }
        }
    }

    /// Row n as a caller sees it.
    pub(crate) fn look(&self, n: u16) -> Option<RowView>
        ensures { result ≡ option_map (row_shown n) (slice_get self.now.rows n) }
    {
        let row = self.tree.row(n)?;
        let row_extras = self.extras.get(n)?;
        Some(RowView {
            row,
            place: row_extras.place(),
        })
    }

    /// The answer stored in row n, if there is one.
    pub(crate) fn answer(&self, n: u16) -> Option<StoredAnswer<'_, A>>
        ensures { result ≡ stored_at (slice_get self.now.rows n) }
    {
        let row = self.tree.row(n)?;
        stored_answer(&row, self.extras.get(n)?)
    }

    /// The contacts left of the 3xx that row n was answered with and that is stored.
    pub(crate) fn left(&self, n: u16) -> Option<&[Offer<A>]>
        ensures { option_copied result ≡ option_and_then left_of (slice_get self.now.rows n) }
    {
        self.answer(n)?.redirects()
    }

    /// The extras of row n.
    fn row_extras(&self, n: u16) -> Option<&RowExtras<A>>
        ensures { option_map (λ b. b.key) (option_copied result) ≡ option_map (λ row. row.key) (slice_get self.now.rows n) }
    {
        self.extras.get(n)
    }

    /// What identifies the target of row n.
    pub(crate) fn key(&self, n: u16) -> Option<&[u8]>
        ensures { option_copied result ≡ option_map (λ row. row.key) (slice_get self.now.rows n) }
    {
        Some(self.row_extras(n)?.key())
    }

    /// Row n, which was tried and has not rung, has rung.
    pub(crate) fn ring(&mut self, n: u16)
        requires tried { is_row is_trying (slice_get self.old.rows n) ≡ true }
        ensures { self.new ≡ record self.old { rows = with_state self.old.rows n (Rung false) } }
    {
        self.tree.ring(n);
    }

    /// The CANCEL of row n, which has rung, is sent.
    pub(crate) fn mark_cancel(&mut self, n: u16)
        requires rang { is_row is_uncancelled (slice_get self.old.rows n) ≡ true }
        ensures { self.new ≡ record self.old { rows = with_state self.old.rows n (Rung true) } }
    {
        self.tree.mark_cancel(n);
    }

    /// No row that waits is ever tried.
    pub(crate) fn close(&mut self)
        ensures { self.new ≡ record self.old { closed = true; rows = map never_row self.old.rows } }
    {
        self.tree.close();
        self.closed = true;
    }

    /// Some group that may start is tried: its first number, and how many rows it has. None exactly where none may.
    pub(crate) fn start_ready(&mut self) -> Option<(u16, u16)>
        ensures none { IfNone result ((self.new ≡ self.old) × ((k : ℕ) (row : Row) → slice_get self.old.rows k ≡ Some row → may_start self.old.rows row ≡ false)) }
        ensures some { IfSome result (λ g. IsReady self.old.rows g.0 g.1 × (self.new ≡ record self.old { rows = tried self.old.rows g.0 g.1 })) }
        ensures range { IfSome result (λ g. g.0 + g.1 ≤ most_targets) }
    {
        self.tree.start_ready()
    }

    /// Whether some row has this key.
    pub(crate) fn has_key(&self, key: &[u8]) -> bool
        ensures { result ≡ list_any (λ row. pointwise nat_eq key.now row.key) self.now.rows }
    {
        self.extras.has_key(key)
    }

    /// How many rows stand in the line that begins at this one, within so many steps.
    fn line_len(&self, steps: u16, n: Option<u16>) -> u16
        ensures value { result ≡ length (line_from steps self.now.rows (parent_row self.now.rows n)) }
        ensures few { result ≤ steps }
    {
        if steps == 0 {
            return 0;
        }
        let Some(n) = n else {
            return 0;
        };
        if n >= self.count() {
            return 0;
        }
        1 + self.line_len(steps - 1, self.parent(n))
    }

    /// The number of the row that row n stands under, if it is one that stands under another.
    fn parent(&self, n: u16) -> Option<u16>
        ensures { result ≡ parent_of (slice_get self.now.rows n) }
    {
        self.tree.parent(n)
    }

    /// How many rows stand above one under this parent.
    pub(crate) fn depth(&self, parent: Option<u16>) -> u16
        ensures { result ≡ length (line_from (length self.now.rows) self.now.rows (parent_row self.now.rows parent)) }
    {
        self.line_len(self.count(), parent)
    }

    /// Row n, which is open, has ended, with these contacts left and these challenges; the new rows come below it, each
    /// with its extras; the table closes where it is to. Room for the numbers of the reply.
    ///
    /// # Errors
    ///
    /// Only where the allocator refuses; then the fork is as it was.
    pub(crate) fn end(
        &mut self,
        alloc: &A,
        n: u16,
        end: End,
        stored: (Vec<Offer<A>, A>, Vec<Challenge<A>, A>),
        below: (NewRows<A>, Vec<RowExtras<A>, A>),
        closes: bool,
    ) -> Result<Numbers<A>, AllocError>
        requires open_yet { is_row is_open (slice_get self.old.rows n) ≡ true }
        requires first { below.0.first ≡ length self.old.rows }
        requires each { length below.1.items ≡ length below.0.new_rows }
        requires few { length self.old.rows + length below.0.new_rows ≤ most_targets }
        ensures ok { OnOk result (self.new ≡ with_effect self.old n (record { state = Ended (end_of end stored.0.items stored.1.items); fresh = with_extras (map (waiting_row (Some n)) below.0.new_rows) below.1.items; closes = closes })) }
        ensures room { IfOk result (λ numbers. HasRoom numbers self.new.rows) }
        ensures err { OnErr result (self.new ≡ self.old) }
    {
        let (added, fresh) = below;
        let numbers = Numbers::with_room(alloc, self.count() as usize + fresh.len() + 1)?;
        let succeeded = succeeds(self.succeeded, &end);
        self.extras.append(fresh)?;
        let (left, challenges) = stored;
        self.extras.store(n, left, challenges);
        self.tree.end(n, end, added);
        self.succeeded = succeeded;
        self.closed = closes_with(self.closed, closes);
        Ok(numbers)
    }

    /// Some group that may start is tried; the numbers of its rows are added.
    #[tactic(auto, using(crate::proofs::SettledNumbers::some_started, crate::proofs::SettledNumbers::none_started))]
    pub(crate) fn start(&mut self, numbers: &mut Vec<u16, A>)
        requires room { length numbers.old.items + length self.old.rows ≤ vec_capacity numbers.old }
        ensures { AddsStarted self.old self.new numbers.old.items numbers.new.items }
    {
        if let Some((first, count)) = self.start_ready() {
            push_numbers(numbers, first, count);
        }
    }
}

/// Adds so many numbers, from the first on.
fn push_numbers<A: Allocator>(numbers: &mut Vec<u16, A>, first: u16, count: u16)
    requires fits { first + count ≤ most_targets }
    requires room { length numbers.old.items + count ≤ vec_capacity numbers.old }
    ensures { numbers.new.items ≡ numbers.old.items ++ numbers_from first count }
{
    for n in 0..count {
        numbers.push_reserved(first + n);
    }
}

/// Whether a 2xx has come, where one had before, or this is the end by one.
fn succeeds(before: bool, end: &End) -> bool
    ensures { result ≡ (before || accepts_end end.now) }
{
    before || matches!(end, End::Accepted { .. })
}
