//! A tree from its rows.
use crate::holds::{holds, holds_at};
use crate::rows::ended_rows;
use crate::tree::play::node_has_best;
use fork_rank::Rules;
use fork_tree::{ForkTree, RowRef};
use std::alloc::Global;
use std::process::Abort;

/// The tree of these rows.
fn built(alloc: Global) -> Option<ForkTree> {
    let rows = ended_rows()?;
    match ForkTree::build(alloc, Rules::usual(), &rows) {
        Ok(tree) => Some(tree),
        Err(_) => None,
    }
}

fn has_row(tree: &ForkTree, row: RowRef) -> bool {
    tree.row(row.no) == Some(row)
}

/// Checks that these are the rows of the tree, and which answer is the best below the first.
fn has_rows(rt: &impl Abort, tree: &ForkTree, rows: &[RowRef]) {
    holds(rt, tree.count() == 6, "there are six rows");
    holds(rt, tree.open_count() == 0, "each row has ended");
    for n in 0..rows.len() {
        holds_at(rt, has_row(tree, rows[n]), "the tree has each row", n);
    }
    holds(
        rt,
        node_has_best(tree, 0, Some((4, 486, 5))),
        "the best answer below the first target",
    );
}

#[test]
fn rows_of_a_listing(rt: HostRuntime) {
    match (built(rt.alloc()), ended_rows()) {
        (Some(tree), Some(rows)) => has_rows(&rt, &tree, &rows),
        _ => holds(&rt, false, "the tree is built"),
    }
}
