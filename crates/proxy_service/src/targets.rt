//! Some of the targets of a call.

/// How many words of marks there are: a call has 256 targets at most.
const WORDS: usize = 4;

/// How many marks a word has.
const BITS: u16 = 64;

/// No target of a call has this number, or a higher one.
pub(crate) const MOST_TARGETS: u16 = 256;

/// Some of the targets of a call, by their numbers: a mark for each, so that no memory is asked for.
#[derive(Clone, Copy)]
pub(crate) struct TargetSet {
    marks: [u64; WORDS],
}

/// The mark of a target within its word.
fn mark(target: u16) -> u64 {
    1 << (target % BITS)
}

impl TargetSet {
    /// No target.
    pub(crate) fn none() -> TargetSet {
        TargetSet { marks: [0; WORDS] }
    }

    /// The word in which the mark of a target stands.
    fn word(&self, target: u16) -> u64 {
        match self.marks.get(usize::from(target / BITS)) {
            Some(word) => *word,
            None => 0,
        }
    }

    pub(crate) fn has(&self, target: u16) -> bool {
        self.word(target) & mark(target) != 0
    }

    pub(crate) fn add(&mut self, target: u16) {
        if let Some(word) = self.marks.get_mut(usize::from(target / BITS)) {
            *word |= mark(target);
        }
    }

    /// Whether there is none.
    pub(crate) fn is_empty(&self) -> bool {
        self.marks.iter().all(|word| *word == 0)
    }
}
