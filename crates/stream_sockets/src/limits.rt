//! How many connections there may be, and how long one may be silent.

/// How many connections there may be, and how long one may be silent.
#[derive(Clone, Copy, Debug, PartialEq, Eq)]
pub struct StreamLimits {
    /// How many there are at most.
    pub most: usize,
    /// How many one address may have opened.
    pub most_per_source: u32,
    /// For how many milliseconds nothing may come by one, and nothing be written to it.
    pub longest_silence: u64,
}
