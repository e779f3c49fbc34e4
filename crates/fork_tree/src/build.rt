//! A tree from its rows by number.
ghost use Rattle.std.specs.Prelude.{◌≡◌, ◌≤◌, ◌<◌, ◌++◌, true, Some, IfOk, OnOk, IsTrue, Decides, map, length, slice_get};
ghost use Rattle.fork_model.specs.Table.{most_targets, is_idle, is_row};
ghost use Rattle.fork_model.specs.Step.{with_state};
ghost use Rattle.fork_tree.specs.States.{plain_state, has_ended};
ghost use Rattle.fork_tree.specs.declared.row.State.TheVariants.{Ended};
ghost use Rattle.fork_tree.specs.NewRows.{waiting_row};
ghost use Rattle.fork_tree.specs.Given.{AreRows, given_row};
ghost use Rattle.fork_tree.specs.inner.Given.{IsHalf, AllHalf, IsRun, IsStanding};

use crate::new_rows::NewRows;
use crate::row::{End, RowRef, State};
use crate::tree::ForkTree;
use fork_rank::Rules;
use std::alloc::{AllocError, Allocator};

impl<A: Allocator + Clone> ForkTree<A> {
    /// The tree of these rows, given in the order of their numbers: each stands under an older one that has ended, or
    /// under none, and those under one parent stand together in the list, in groups that count from 0, another q
    /// beginning another group. The time that it takes is as the rows times their depth. The only error is want of
    /// memory.
    pub fn build(alloc: A, rules: Rules, rows: &[RowRef]) -> Result<ForkTree<A>, AllocError>
        requires { AreRows rows.now }
        ensures { IfOk result (λ tree. tree ≡ record { rules = rules; rows = map given_row rows.now }) }
    {
        let mut tree = standing(&alloc, rules, rows)?;
        for i in 0..rows.len() {
            let row = row_at(rows, i);
            tree.settle(&alloc, &row)?;
        }
        Ok(tree)
    }

    /// Ends row n, which waits, as `end` says, and puts these rows below it.
    fn finish(&mut self, n: u16, end: End, below: NewRows<A>)
        requires waits { IsTrue (is_row is_idle (slice_get self.old.rows n)) }
        requires next { below.first ≡ length self.old.rows }
        ensures { self.new ≡ record self.old {
          rows = with_state self.old.rows n (plain_state (Ended end)) ++ map (waiting_row (Some n)) below.new_rows;
        } }
    {
        self.start(n);
        self.end(n, end, below);
    }

    /// Whether row n waits.
    pub(crate) fn is_waiting(&self, n: u16) -> bool
        ensures { result ≡ is_row is_idle (slice_get self.now.rows n) }
    {
        match self.row(n) {
            Some(row) => row.state == State::Idle,
            None => false,
        }
    }

    /// Brings the row into its state where it still waits in the tree.
    fn settle(&mut self, alloc: &A, row: &RowRef) -> Result<(), AllocError>
        requires few { length self.old.rows ≤ most_targets }
        requires half { IsHalf (slice_get self.old.rows row.now.no) row.now.state }
        ensures { OnOk result (self.new ≡ record self.old {
          rows = with_state self.old.rows row.now.no (plain_state row.now.state);
        }) }
    {
        if !self.is_waiting(row.no) {
            return Ok(());
        }
        match row.state {
            State::Ended(end) => {
                let none = NewRows::idle(alloc.clone()?, self.count(), &[])?;
                self.finish(row.no, end, none);
            }
            State::Idle => {}
            state => self.set(row.no, state),
        }
        Ok(())
    }
}

/// The tree of all rows where they stand: those with rows below have ended, the others wait.
fn standing<A: Allocator + Clone>(
    alloc: &A,
    rules: Rules,
    rows: &[RowRef],
) -> Result<ForkTree<A>, AllocError>
    requires { AreRows rows.now }
    ensures rules { IfOk result (λ tree. tree.rules ≡ rules) }
    ensures half { IfOk result (λ tree. AllHalf tree.rows rows.now) }
    ensures count { IfOk result (λ tree. length tree.rows ≡ length rows.now) }
{
    let qs = siblings(alloc, rows, None, 0)?;
    let mut tree = ForkTree::new(alloc.clone()?, rules, &qs)?;
    while (tree.count() as usize) < rows.len() {
        let first = tree.count();
        add_below(&mut tree, alloc, rows, first)?;
    }
    Ok(tree)
}

/// Ends the parent of row `first`, and puts the rows from `first` on that have this parent below it.
fn add_below<A: Allocator + Clone>(
    tree: &mut ForkTree<A>,
    alloc: &A,
    rows: &[RowRef],
    first: u16,
) -> Result<(), AllocError>
    requires given { AreRows rows.now }
    requires standing { IsStanding tree.old.rows rows.now }
    requires next { first ≡ length tree.old.rows }
    requires more { first < length rows.now }
    ensures standing { OnOk result (IsStanding tree.new.rows rows.now) }
    ensures longer { OnOk result (length tree.old.rows < length tree.new.rows) }
    ensures rules { OnOk result (tree.new.rules ≡ tree.old.rules) }
{
    let next = row_at(rows, first as usize);
    let parent = next.parent.unwrap();
    let redirected = row_at(rows, parent as usize);
    let end = end_of(&redirected);
    let qs = siblings(alloc, rows, Some(parent), first as usize)?;
    let below = NewRows::idle(alloc.clone()?, first, &qs)?;
    tree.finish(parent, end, below);
    Ok(())
}

/// The q of each row from `first` on, as long as they have this parent.
fn siblings<A: Allocator + Clone>(
    alloc: &A,
    rows: &[RowRef],
    parent: Option<u16>,
    first: usize,
) -> Result<Vec<u16, A>, AllocError>
    requires { first ≤ length rows.now }
    ensures { IfOk result (λ qs. IsRun rows.now parent first qs.items) }
{
    let mut qs = Vec::new(alloc.clone()?);
    for i in first..rows.len() {
        let row = row_at(rows, i);
        if !stands_under(&row, parent) {
            return Ok(qs);
        }
        qs.push(row.q)?;
    }
    Ok(qs)
}

/// Row n of these rows.
fn row_at(rows: &[RowRef], n: usize) -> RowRef
    requires { n < length rows.now }
    ensures { slice_get rows.now n ≡ Some result }
{
    rows[n]
}

/// How the row, which has ended, ended.
fn end_of(row: &RowRef) -> End
    requires { has_ended row.now.state ≡ true }
    ensures { row.now.state ≡ Ended result }
{
    match row.state {
        State::Ended(end) => end,
        _ => unreachable!(),
    }
}

/// Whether the row has this parent.
fn stands_under(row: &RowRef, parent: Option<u16>) -> bool
    ensures { Decides result (row.now.parent ≡ parent) }
{
    row.parent == parent
}
