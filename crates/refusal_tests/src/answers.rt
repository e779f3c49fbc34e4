//! What a call comes to that makes a value.
use failing_allocator::{Attempt, Heap};

/// Tells whether what a call makes is right.
pub trait Judge<'a, T> {
    fn is_right(&self, heap: Heap<'a>, made: &T) -> bool;
}

/// What a call comes to that makes a value, or fails with a fault, which is this one where memory was refused.
pub fn judged<'a, T: Drop, F: PartialEq + Copy, J: Judge<'a, T>>(
    heap: Heap<'a>,
    judge: &J,
    made: Result<T, F>,
    no_memory: F,
) -> Attempt {
    match made {
        Ok(made) => Attempt::of(judge.is_right(heap, &made)),
        Err(fault) => Attempt::failed(fault == no_memory),
    }
}

/// What is made, or what the call comes to that does not make it: its fault is this one where memory was refused.
pub fn answered<T: Drop, F: PartialEq + Copy>(
    made: Result<T, F>,
    no_memory: F,
) -> Result<T, Attempt> {
    match made {
        Ok(made) => Ok(made),
        Err(fault) => Err(Attempt::failed(fault == no_memory)),
    }
}

/// Drops a value. A function that drops one of many fields itself is proved field by field.
pub fn discard<T: Drop>(_value: T) {}
