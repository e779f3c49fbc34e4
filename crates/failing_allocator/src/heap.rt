//! Uses of calls that are played again and again while growth 1, 2, 3 and so on is refused.
use crate::refusing::Refusing;
use std::alloc::Global;
use std::sync::atomic::{AtomicU64, Ordering};

/// Nothing that is played here grows so often.
const MOST: u64 = 100_000;

/// How memory is refused in a play.
#[derive(Clone, Copy)]
enum Order {
    /// One growth of the play is refused, which was said before.
    Once,
    /// Of each call each growth is refused from the first on; then from the second on, and so on.
    Always,
}

/// Where calls take their memory, and where what they are given took its.
#[derive(Clone, Copy)]
pub struct Heap<'a> {
    /// It refuses growths.
    pub scarce: &'a Refusing<Global>,
    /// It refuses none.
    pub ample: &'a Refusing<Global>,
    /// How many calls answered that they were refused.
    told: &'a AtomicU64,
    order: Order,
}

/// What a call answered while memory was refused.
#[derive(Clone, Copy, PartialEq, Eq)]
pub enum Attempt {
    /// What it answers with memory, and rightly.
    Right,
    /// That it was refused.
    NoMemory,
    /// Anything else.
    Wrong,
}

impl Attempt {
    /// The answer of a call whose result was looked at.
    pub fn of(is_right: bool) -> Attempt {
        if is_right {
            Attempt::Right
        } else {
            Attempt::Wrong
        }
    }

    /// The answer of a call that failed, and said that it was refused or something else.
    pub fn failed(is_refused: bool) -> Attempt {
        if is_refused {
            Attempt::NoMemory
        } else {
            Attempt::Wrong
        }
    }
}

/// A call that can be made again where it was refused, on what it keeps.
pub trait Repeated {
    fn attempt(&mut self) -> Attempt;
}

/// A call that keeps nothing: where it is made again, it is given the same anew.
pub trait Stateless {
    fn answer(&self, heap: Heap<'_>) -> Attempt;
}

/// A use of calls.
pub trait Play {
    /// Whether each call answered what it should.
    fn play(&self, heap: Heap<'_>) -> bool;
}

/// A call that keeps nothing, and where it takes its memory.
#[derive(Drop)]
struct Attempted<'c, 'a, C> {
    call: &'c C,
    heap: Heap<'a>,
}

impl<C: Stateless> Repeated for Attempted<'_, '_, C> {
    fn attempt(&mut self) -> Attempt {
        self.call.answer(self.heap)
    }
}

/// The play of one call that keeps nothing.
#[derive(Drop)]
pub struct Single<'c, C> {
    pub call: &'c C,
}

impl<C: Stateless> Play for Single<'_, C> {
    fn play(&self, heap: Heap<'_>) -> bool {
        heap.insist(&mut Attempted {
            call: self.call,
            heap,
        })
    }
}

impl<'a> Heap<'a> {
    /// Whether the call is right with memory, after it was refused. Where a refused call answers anything but that, or what is right, it is not.
    pub fn insist<C: Repeated>(self, call: &mut C) -> bool {
        match self.order {
            Order::Once => self.once(call),
            Order::Always => self.always(call),
        }
    }

    /// Calls, and once more where that was refused.
    fn once<C: Repeated>(self, call: &mut C) -> bool {
        let before = self.scarce.refused();
        match call.attempt() {
            Attempt::Right => true,
            Attempt::Wrong => false,
            Attempt::NoMemory => {
                self.told.fetch_add(1, Ordering::SeqCst);
                before < self.scarce.refused() && matches!(call.attempt(), Attempt::Right)
            }
        }
    }

    /// Calls until no growth is refused, or those that are refused are done without.
    fn always<C: Repeated>(self, call: &mut C) -> bool {
        for number in 1..MOST {
            self.scarce.refuse_from(number);
            let answer = call.attempt();
            let is_refused = self.scarce.refused() > 0;
            self.scarce.refuse_none();
            match (answer, is_refused) {
                (Attempt::Right, _) => return true,
                (Attempt::NoMemory, true) => {
                    self.told.fetch_add(1, Ordering::SeqCst);
                }
                _ => return false,
            }
        }
        false
    }
}

/// Of how many growths no call told that they were refused. None where there was no growth.
fn untold(growths: u64, told: u64) -> Option<u64> {
    if growths > 0 {
        Some(growths.saturating_sub(told))
    } else {
        None
    }
}

/// Plays again and again, until no growth is refused.
fn each_refused<P: Play>(heap: Heap<'_>, play: &P) -> Option<u64> {
    for number in 1..MOST {
        heap.scarce.refuse_one(number);
        if !play.play(heap) {
            return None;
        }
        if heap.scarce.refused() == 0 {
            return untold(number - 1, heap.told.load(Ordering::SeqCst));
        }
    }
    None
}

/// Plays again and again: growth 1 is refused, then growth 2, and so on, until none is. How many growths were done without,
/// as no call told that they were refused; None where a play goes wrong, or nothing grows.
pub fn refused_once<P: Play>(alloc: Global, play: &P) -> Option<u64> {
    let scarce = Refusing::new(alloc);
    let ample = Refusing::new(alloc);
    let told = AtomicU64::new(0);
    each_refused(
        Heap {
            scarce: &scarce,
            ample: &ample,
            told: &told,
            order: Order::Once,
        },
        play,
    )
}

/// Plays once with memory enough: whether each call answered what it should.
pub fn refused_never<P: Play>(alloc: Global, play: &P) -> bool {
    let scarce = Refusing::new(alloc);
    let ample = Refusing::new(alloc);
    let told = AtomicU64::new(0);
    play.play(Heap {
        scarce: &scarce,
        ample: &ample,
        told: &told,
        order: Order::Once,
    })
}

/// Plays once, where memory ends at each growth of each call: whether some call told that it was refused, and each answered
/// what it should.
pub fn refused_always<P: Play>(alloc: Global, play: &P) -> bool {
    let scarce = Refusing::new(alloc);
    let ample = Refusing::new(alloc);
    let told = AtomicU64::new(0);
    let goes = play.play(Heap {
        scarce: &scarce,
        ample: &ample,
        told: &told,
        order: Order::Always,
    });
    goes && told.load(Ordering::SeqCst) > 0
}
