//! Groups of targets, and trees of rows, while memory is refused.
use crate::answers::{Judge, judged};
use crate::plays::calls;
use crate::sources::Alloc;
use failing_allocator::{Attempt, Heap, Stateless};
use fork_rank::{Rules, groups};
use fork_tests::rows::ended_rows;
use fork_tree::{ForkTree, NewRows};
use std::alloc::AllocError;

/// What is made.
#[derive(Clone, Copy)]
enum Making {
    Groups,
    /// The tree of initial targets.
    Tree,
    /// Rows that come below another.
    Rows,
    /// A tree of rows that have ended.
    Ended,
}

/// Places of targets, where they take their memory.
type Places<'a> = Vec<usize, Alloc<'a>>;

impl<'a> Judge<'a, Vec<Places<'a>, Alloc<'a>>> for Making {
    fn is_right(&self, _heap: Heap<'a>, groups: &Vec<Places<'a>, Alloc<'a>>) -> bool {
        match groups.as_slice() {
            [first, second] => {
                first.as_slice() == [1usize].as_slice()
                    && second.as_slice() == [0usize, 2].as_slice()
            },
            _ => false,
        }
    }
}

impl<'a> Judge<'a, NewRows<Alloc<'a>>> for Making {
    fn is_right(&self, _heap: Heap<'a>, _rows: &NewRows<Alloc<'a>>) -> bool {
        true
    }
}

/// Whether the best row of the tree is number 1.
fn is_second_best(tree: &ForkTree<Alloc<'_>>) -> bool {
    match tree.best() {
        Some(best) => best.no == 1,
        None => false,
    }
}

impl<'a> Judge<'a, ForkTree<Alloc<'a>>> for Making {
    fn is_right(&self, _heap: Heap<'a>, tree: &ForkTree<Alloc<'a>>) -> bool {
        match self {
            Making::Tree => tree.count() == 3 && tree.open_count() == 3,
            _ => tree.open_count() == 0 && is_second_best(tree),
        }
    }
}

fn ended_made(heap: Heap<'_>) -> Attempt {
    let Some(rows) = ended_rows() else {
        return Attempt::Wrong;
    };
    let made = ForkTree::build(heap.scarce, Rules::usual(), &rows);
    judged(heap, &Making::Ended, made, AllocError)
}

impl Stateless for Making {
    fn answer(&self, heap: Heap<'_>) -> Attempt {
        let alloc = heap.scarce;
        match self {
            Making::Groups => judged(heap, self, groups(alloc, &[500, 1000, 500]), AllocError),
            Making::Tree => {
                let made = ForkTree::new(alloc, Rules::usual(), &[1000, 1000, 500]);
                judged(heap, self, made, AllocError)
            }
            Making::Rows => judged(
                heap,
                self,
                NewRows::idle(alloc, 3, &[1000, 500]),
                AllocError,
            ),
            Making::Ended => ended_made(heap),
        }
    }
}

#[test]
fn trees_are_made(rt: HostRuntime) {
    calls(&rt, &Making::Groups, 0, "groups");
    calls(&rt, &Making::Tree, 0, "a tree");
    calls(&rt, &Making::Rows, 0, "new rows");
    calls(&rt, &Making::Ended, 0, "a tree of rows that have ended");
}
