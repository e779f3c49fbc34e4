//! Trees of nested groups: what is started is what may start by the definition, over all rows.
use crate::holds::{holds, holds_at};
use crate::tree::deeds::{end, goes_on, is_tried, ring};
use fork_rank::Rules;
use fork_tree::{End, ForkTree, RowRef, State};
use std::alloc::Global;
use std::process::Abort;

/// Whether row m or one that it lies below stands in an earlier group than this row, beside it.
fn goes_before(tree: &ForkTree, m: u16, row: &RowRef) -> bool {
    let mut above = Some(m);
    for _ in 0..tree.count() {
        let Some(k) = above else {
            return false;
        };
        let Some(other) = tree.row(k) else {
            return false;
        };
        if other.parent == row.parent && other.group < row.group {
            return true;
        }
        above = other.parent;
    }
    false
}

/// Whether row n has ended; true of no row.
fn is_over(tree: &ForkTree, n: Option<u16>) -> bool {
    match n {
        Some(n) => match tree.row(n) {
            Some(row) => matches!(row.state, State::Ended(_)),
            None => false,
        },
        None => true,
    }
}

/// Whether row m does not keep this row from its start.
fn lets_start(tree: &ForkTree, m: u16, row: &RowRef) -> bool {
    let Some(other) = tree.row(m) else {
        return false;
    };
    let beside = other.parent == row.parent && other.group == row.group;
    if beside && other.state != State::Idle {
        return false;
    }
    !goes_before(tree, m, row) || is_over(tree, Some(m))
}

/// Whether row n may start: its group waits, its parent has ended, and so has all that goes before it.
fn may_start(tree: &ForkTree, n: u16) -> bool {
    let Some(row) = tree.row(n) else {
        return false;
    };
    for m in 0..tree.count() {
        if !lets_start(tree, m, &row) {
            return false;
        }
    }
    is_over(tree, row.parent)
}

/// Rows that may start.
#[derive(Clone, Copy)]
enum Run {
    Empty,
    /// The first, and how many stand side by side.
    Rows(u16, u32),
    /// They do not stand side by side.
    Scattered,
}

/// The run with row n behind it.
fn with_row(run: Run, n: u16) -> Run {
    match run {
        Run::Empty => Run::Rows(n, 1),
        Run::Rows(first, count) if n >= first && (n - first) as u32 == count => {
            Run::Rows(first, (n - first) as u32 + 1)
        }
        _ => Run::Scattered,
    }
}

/// The rows that may start.
fn all_that_may_start(tree: &ForkTree) -> Run {
    let mut run = Run::Empty;
    for n in 0..tree.count() {
        if may_start(tree, n) {
            run = with_row(run, n);
        }
    }
    run
}

/// Tries what may start; whether that is all that may by the definition.
fn start_all(tree: &mut ForkTree) -> bool {
    let run = all_that_may_start(tree);
    match (tree.start_ready(), run) {
        (Some((first, count)), Run::Rows(n, rows)) => first == n && count as u32 == rows,
        (None, Run::Empty) => true,
        _ => false,
    }
}

/// Whether row n is taken where another could be.
fn is_taken(order: u16, step: u16, n: u16) -> bool {
    match order {
        0 => false,
        1 => true,
        _ => (n as u32 + 2 * step as u32 + order as u32) % 3 == 0,
    }
}

/// A row that goes on: the first or the last, or some row between.
fn pick(tree: &ForkTree, order: u16, step: u16) -> Option<u16> {
    let mut picked = None;
    for n in 0..tree.count() {
        if goes_on(tree, n) && (picked.is_none() || is_taken(order, step, n)) {
            picked = Some(n);
        }
    }
    picked
}

/// Row n ends, with contacts below it, or none where there are many rows; whether it could.
fn answer(alloc: Global, tree: &mut ForkTree, n: u16, step: u16) -> bool {
    let arrival = step as u32;
    if tree.count() > 40 {
        return end(alloc, tree, n, End::Silent { arrival }, &[]);
    }
    match step % 5 {
        0 => end(alloc, tree, n, End::Taken { arrival }, &[1000, 1000, 500]),
        1 => end(alloc, tree, n, End::Taken { arrival }, &[700, 300]),
        2 => end(alloc, tree, n, End::Silent { arrival }, &[]),
        3 => end(alloc, tree, n, End::Taken { arrival }, &[900]),
        _ => end(
            alloc,
            tree,
            n,
            End::Taken { arrival },
            &[800, 400, 400, 100],
        ),
    }
}

/// Row n rings where it was tried and the step is one of every four; whether what starts then is all that may.
fn rings_well(tree: &mut ForkTree, n: u16, step: u16) -> bool {
    if step % 4 == 1 && is_tried(tree, n) {
        return ring(tree, n) && start_all(tree);
    }
    true
}

/// Checks one step: a row rings, one ends, and all starts that may then.
fn drive_step(rt: &(impl Abort + AllocGlobal), tree: &mut ForkTree, n: u16, step: u16) {
    holds_at(rt, rings_well(tree, n, step), "a row rings", step as usize);
    let ended = answer(rt.alloc(), tree, n, step);
    holds_at(rt, ended, "a row ends", step as usize);
    holds_at(
        rt,
        start_all(tree),
        "all starts that may once a row has ended",
        step as usize,
    );
}

/// One row after another ends, in this order, until none goes on; how many rows there were. Nothing where some row goes on
/// after 64.
fn drive(rt: &(impl Abort + AllocGlobal), tree: &mut ForkTree, order: u16) -> Option<u16> {
    holds(rt, start_all(tree), "the first group starts whole");
    for step in 0..64u16 {
        match pick(tree, order, step) {
            Some(n) => drive_step(rt, tree, n, step),
            None => return Some(tree.count()),
        }
    }
    None
}

/// Checks that a tree is driven in this order to more than 40 rows.
fn grows(rt: &(impl Abort + AllocGlobal), order: u16) {
    match ForkTree::new(
        rt.alloc(),
        Rules::usual(),
        &[1000, 1000, 1000, 500, 200, 200],
    ) {
        Ok(mut tree) => {
            let rows = drive(rt, &mut tree, order);
            holds(rt, rows.is_some(), "no row goes on");
            holds(rt, rows.unwrap_or(0) > 40, "there are many rows");
        }
        Err(_) => holds(rt, false, "the tree is made"),
    }
}

#[test]
fn groups_start_in_series(rt: HostRuntime) {
    for order in 0..5 {
        grows(&rt, order);
    }
}
