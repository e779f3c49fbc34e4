//! What may be done with a tree, each deed where it is allowed alone.
ghost use Rattle.std.specs.Prelude.{◌≡◌, slice_get};
ghost use Rattle.fork_model.specs.Table.{is_idle, is_open, is_row, is_trying};
ghost use Rattle.fork_tree.specs.Tree.{is_uncancelled};

use fork_rank::MOST_TARGETS;
use fork_tree::{End, ForkTree, NewRows, State};
use std::alloc::Global;

/// Whether row n waits.
fn is_waiting(tree: &ForkTree, n: u16) -> bool
    ensures { result ≡ is_row is_idle (slice_get tree.now.rows n) }
{
    match tree.row(n) {
        Some(row) => row.state == State::Idle,
        None => false,
    }
}

/// Whether row n was tried, and has not rung.
pub fn is_tried(tree: &ForkTree, n: u16) -> bool
    ensures { result ≡ is_row is_trying (slice_get tree.now.rows n) }
{
    match tree.row(n) {
        Some(row) => row.state == State::Trying,
        None => false,
    }
}

/// Whether row n has rung, and its CANCEL was not sent.
fn is_ringing(tree: &ForkTree, n: u16) -> bool
    ensures { result ≡ is_row is_uncancelled (slice_get tree.now.rows n) }
{
    match tree.row(n) {
        Some(row) => row.state == State::Rung { cancelled: false },
        None => false,
    }
}

/// Whether row n was tried, and has not ended.
pub fn goes_on(tree: &ForkTree, n: u16) -> bool
    ensures { result ≡ is_row is_open (slice_get tree.now.rows n) }
{
    match tree.row(n) {
        Some(row) => matches!(row.state, State::Trying | State::Rung { .. }),
        None => false,
    }
}

/// Row n is tried; whether it waited.
pub fn start(tree: &mut ForkTree, n: u16) -> bool {
    let waits = is_waiting(tree, n);
    if waits {
        tree.start(n);
    }
    waits
}

/// Row n rings; whether it was tried.
pub fn ring(tree: &mut ForkTree, n: u16) -> bool {
    let tried = is_tried(tree, n);
    if tried {
        tree.ring(n);
    }
    tried
}

/// A CANCEL is sent to row n; whether it rings.
pub fn cancel(tree: &mut ForkTree, n: u16) -> bool {
    let rings = is_ringing(tree, n);
    if rings {
        tree.mark_cancel(n);
    }
    rings
}

/// Row n ends so, and rows of these q come below it; whether it went on, and there is room for them.
pub fn end(alloc: Global, tree: &mut ForkTree, n: u16, end: End, qs: &[u16]) -> bool {
    let first = tree.count();
    if first > MOST_TARGETS || qs.len() > (MOST_TARGETS - first) as usize {
        return false;
    }
    if !goes_on(tree, n) {
        return false;
    }
    match NewRows::idle(alloc, first, qs) {
        Ok(below) => {
            tree.end(n, end, below);
            true
        }
        Err(_) => false,
    }
}
