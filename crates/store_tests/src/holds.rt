//! The one way in which a test checks.
use std::process::Abort;

/// Ends the test where this does not hold. `what` says which check it is.
pub fn holds(rt: &impl Abort, well: bool, what: &str) {
    assert!(rt; well, "{what}");
}
