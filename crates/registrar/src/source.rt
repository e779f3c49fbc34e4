//! Where and when a request came.

use sip_uri::Hop;

/// Where a REGISTER request came from, and when.
#[derive(Clone, Copy, Debug)]
pub struct Source {
    /// The address and the port.
    pub hop: Hop,
    /// Whether who sends from there needs no password.
    pub inside: bool,
    /// The second since 1970.
    pub second: u32,
    /// The millisecond of the clock by which bindings end.
    pub millisecond: u64,
}
