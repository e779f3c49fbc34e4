//! For how long telephones register.

/// For how many seconds a binding is there at least, where a telephone does not say, and at most (RFC 3261 section 10.3 step 7).
#[derive(Clone, Copy, Debug, PartialEq, Eq)]
pub struct Expirations {
    pub least: u32,
    pub usual: u32,
    pub most: u32,
}
