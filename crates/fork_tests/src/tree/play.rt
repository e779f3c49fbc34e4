//! Histories of a tree as tables, and how one is played.
use crate::holds::{holds, holds_at};
use crate::tree::deeds::{cancel, end, ring, start};
use fork_rank::{MOST_TARGETS, Rules, Status};
use fork_tree::{BestRef, End, ForkTree, RowRef};
use std::alloc::Global;
use std::process::Abort;

/// A stored answer: the row's number, the status and the arrival.
pub type Stored = (u16, u16, u32);

/// The q, in thousandths, of rows that come below another: a 0 ends the list.
pub type Below = [u16; 3];

pub const NONE: Below = [0; 3];

/// What is done with a tree, or what is to hold of it then. The first number is the row's.
#[derive(Clone, Copy)]
pub enum Step {
    /// Some group is tried that may start: its first row, and how many rows it has. None: no group may start.
    Starts(Option<(u16, u16)>),
    Tries(u16),
    Rings(u16),
    Cancels(u16),
    /// It ends with an answer of this status, at this arrival, and rows of these q come below it.
    Answers(u16, u16, u32, Below),
    /// It ends with a 3xx all of whose contacts are taken, at this arrival, and rows of these q come below it.
    Redirects(u16, u32, Below),
    /// It ends without an answer, at this arrival.
    FallsSilent(u16, u32),
    Closes,
    /// So many rows there are.
    HasRows(u16),
    /// So many rows have not ended.
    HasOpen(u16),
    /// This is the stored answer that none ranks before.
    HasBest(Option<Stored>),
    /// The row of this number is so.
    HasRow(RowRef),
    HasNoRow(u16),
    HasParent(u16, Option<u16>),
    /// The best stored answer of the row and those below it.
    NodeHasBest(u16, Option<Stored>),
    /// How many of the row and those below it have not ended.
    NodeHasOpen(u16, u16),
    HasNoNode(u16),
}

/// The list of these q.
fn listed(below: &Below) -> &[u16] {
    match *below {
        [0, ..] => &below[..0],
        [_, 0, _] => &below[..1],
        [_, _, 0] => &below[..2],
        _ => &below[..],
    }
}

/// Whether the stored answer is this one.
fn is_best(best: Option<BestRef>, wanted: Option<Stored>) -> bool {
    match (best, wanted) {
        (Some(best), Some(wanted)) => (best.no, best.status.code(), best.arrival) == wanted,
        (None, None) => true,
        _ => false,
    }
}

pub fn node_has_best(tree: &ForkTree, n: u16, wanted: Option<Stored>) -> bool {
    match tree.node(n) {
        Some(node) => is_best(node.best(), wanted),
        None => false,
    }
}

fn node_has_open(tree: &ForkTree, n: u16, wanted: u16) -> bool {
    match tree.node(n) {
        Some(node) => node.open_count() == wanted,
        None => false,
    }
}

/// Row n ends with this answer; whether it could.
fn answer(
    alloc: Global,
    tree: &mut ForkTree,
    n: u16,
    code: u16,
    arrival: u32,
    below: Below,
) -> bool {
    let Some(status) = Status::of(code) else {
        return false;
    };
    let stored = End::Stored {
        status,
        arrival,
        received: true,
    };
    end(alloc, tree, n, stored, listed(&below))
}

/// Does the step; whether it could be done, or what it asks for holds.
fn does(alloc: Global, tree: &mut ForkTree, step: Step) -> bool {
    match step {
        Step::Answers(n, code, arrival, below) => answer(alloc, tree, n, code, arrival, below),
        Step::Redirects(n, arrival, below) => {
            end(alloc, tree, n, End::Taken { arrival }, listed(&below))
        },
        Step::FallsSilent(n, arrival) => end(alloc, tree, n, End::Silent { arrival }, &[]),
        step => changes(tree, step),
    }
}

/// The same for a step that takes no memory.
fn changes(tree: &mut ForkTree, step: Step) -> bool {
    match step {
        Step::Starts(wanted) => tree.start_ready() == wanted,
        Step::Tries(n) => start(tree, n),
        Step::Rings(n) => ring(tree, n),
        Step::Cancels(n) => cancel(tree, n),
        Step::Closes => {
            tree.close();
            true
        }
        step => is_so(tree, step),
    }
}

/// Whether what the step asks for holds.
fn is_so(tree: &ForkTree, step: Step) -> bool {
    match step {
        Step::HasRows(wanted) => tree.count() == wanted,
        Step::HasOpen(wanted) => tree.open_count() == wanted,
        Step::HasBest(wanted) => is_best(tree.best(), wanted),
        Step::HasRow(wanted) => tree.row(wanted.no) == Some(wanted),
        Step::HasNoRow(n) => tree.row(n).is_none(),
        Step::HasParent(n, wanted) => tree.parent(n) == wanted,
        Step::NodeHasBest(n, wanted) => node_has_best(tree, n, wanted),
        Step::NodeHasOpen(n, wanted) => node_has_open(tree, n, wanted),
        Step::HasNoNode(n) => tree.node(n).is_none(),
        _ => false,
    }
}

/// The tree of targets of these q, under the usual rules; nothing where there are too many.
fn tree_of(alloc: Global, qs: &[u16]) -> Option<ForkTree> {
    if qs.len() > MOST_TARGETS as usize {
        return None;
    }
    match ForkTree::new(alloc, Rules::usual(), qs) {
        Ok(tree) => Some(tree),
        Err(_) => None,
    }
}

/// Plays the history on this tree.
fn play_steps(rt: &(impl Abort + AllocGlobal), tree: &mut ForkTree, history: &str, steps: &[Step]) {
    holds(rt, tree.rules() == Rules::usual(), "a tree keeps its rules");
    for number in 0..steps.len() {
        let well = does(rt.alloc(), tree, steps[number]);
        holds_at(rt, well, history, number);
    }
}

/// Plays the history on a tree of targets of these q, under the usual rules.
pub fn play(rt: &(impl Abort + AllocGlobal), history: &str, qs: &[u16], steps: &[Step]) {
    match tree_of(rt.alloc(), qs) {
        Some(mut tree) => play_steps(rt, &mut tree, history, steps),
        None => holds(rt, false, "the tree is made"),
    }
}
