//! An allocator that refuses the growths that it is told to refuse.
use std::alloc::{AllocError, Allocator};
use std::sync::atomic::{AtomicU64, Ordering};

/// Which growths are refused, counted from 1, and how many were asked for and refused.
#[derive(Drop)]
struct Counter {
    first: AtomicU64,
    last: AtomicU64,
    asked: AtomicU64,
    refused: AtomicU64,
    /// 1 while growths are neither counted nor refused, else 0.
    spared: AtomicU64,
}

impl Counter {
    /// No growth is refused.
    fn new() -> Counter {
        Counter {
            first: AtomicU64::new(1),
            last: AtomicU64::new(0),
            asked: AtomicU64::new(0),
            refused: AtomicU64::new(0),
            spared: AtomicU64::new(0),
        }
    }

    /// Begins to count anew: the growths from the first to the last of these are refused.
    fn arm(&self, first: u64, last: u64) {
        self.first.store(first, Ordering::SeqCst);
        self.last.store(last, Ordering::SeqCst);
        self.asked.store(0, Ordering::SeqCst);
        self.refused.store(0, Ordering::SeqCst);
    }

    /// Counts one more growth, and says whether it is refused.
    fn refuses(&self) -> bool {
        if self.spared.load(Ordering::SeqCst) == 1 {
            return false;
        }
        let at = self.asked.fetch_add(1, Ordering::SeqCst).wrapping_add(1);
        if at < self.first.load(Ordering::SeqCst) || self.last.load(Ordering::SeqCst) < at {
            return false;
        }
        self.refused.fetch_add(1, Ordering::SeqCst);
        true
    }
}

/// Hands on to another allocator, and refuses the growths that it is told to refuse. Lent, it is a handle that can be
/// copied, so that all that grows over it is counted together.
#[derive(Drop)]
pub struct Refusing<B> {
    inner: B,
    counter: Counter,
}

impl<B> Refusing<B> {
    /// Refuses nothing yet.
    pub fn new(inner: B) -> Refusing<B> {
        Refusing {
            inner,
            counter: Counter::new(),
        }
    }

    /// From now on the growth of this number alone is refused, from 1.
    pub fn refuse_one(&self, number: u64) {
        self.counter.arm(number, number);
    }

    /// From now on the growth of this number and all behind it are refused, from 1.
    pub fn refuse_from(&self, number: u64) {
        self.counter.arm(number, u64::MAX);
    }

    /// From now on no growth is refused.
    pub fn refuse_none(&self) {
        self.counter.arm(1, 0);
    }

    /// From now on growths are neither counted nor refused.
    pub fn pause(&self) {
        self.counter.spared.store(1, Ordering::SeqCst);
    }

    /// From now on growths are counted and refused again as before the pause.
    pub fn go_on(&self) {
        self.counter.spared.store(0, Ordering::SeqCst);
    }

    /// How many growths were refused since it was told last which to refuse.
    pub fn refused(&self) -> u64 {
        self.counter.refused.load(Ordering::SeqCst)
    }
}

unsafe impl<B: Allocator> Allocator for Refusing<B> {
    ghost dealloc_token = { λ heap ty ptr. B.dealloc_token heap.inner ty ptr };

    fn allocate(&self, size: usize, align: usize) -> Result<*mut u8, AllocError> {
        if self.counter.refuses() {
            return Err(AllocError);
        }
        self.inner.allocate(size, align)
    }

    unsafe fn deallocate(&self, ptr: *mut u8, size: usize, align: usize) {
        self.inner.deallocate(ptr, size, align);
    }
}
