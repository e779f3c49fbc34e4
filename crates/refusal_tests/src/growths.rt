//! What an allocator refuses that is told to refuse growths.
use crate::plays::holds;
use failing_allocator::Refusing;
use std::alloc::{Allocator, Global};

/// How many of nine numbers fit into a vector that begins with no room.
fn pushed<A: Allocator>(alloc: A) -> usize {
    let mut numbers = Vec::new(alloc);
    let mut well = true;
    for i in 0..9u8 {
        well = well && numbers.push(i).is_ok();
    }
    numbers.len()
}

/// Whether so many of nine numbers fit, and so many growths are refused.
fn fit(heap: &Refusing<Global>, count: usize, refused: u64) -> bool {
    pushed(heap) == count && heap.refused() == refused
}

#[test]
fn growths_are_refused_in_turn(rt: HostRuntime) {
    let heap = Refusing::new(rt.alloc());
    heap.refuse_one(1);
    holds(&rt, fit(&heap, 0, 1), "the first growth is refused");
    heap.refuse_from(2);
    holds(&rt, fit(&heap, 8, 1), "the second growth is refused");
    heap.refuse_one(3);
    holds(&rt, fit(&heap, 9, 0), "there is no third growth");
    heap.refuse_one(1);
    heap.pause();
    holds(&rt, fit(&heap, 9, 0), "a pause refuses nothing");
    heap.go_on();
    holds(&rt, fit(&heap, 0, 1), "nothing was counted in the pause");
}
