//! Memory that is refused, for tests: an allocator that refuses the growths that it is told to refuse, and calls that are made
//! again and again while growth 1, 2, 3 and so on is refused.
#![tactic(auto)]

pub mod heap;
pub mod refusing;

pub use heap::{
    Attempt, Heap, Play, Repeated, Single, Stateless, refused_always, refused_never, refused_once,
};
pub use refusing::Refusing;
