//! The one way in which a test checks.
use std::process::Abort;

/// Ends the test where this does not hold. `what` says which check it is.
pub fn holds(rt: &impl Abort, well: bool, what: &str) {
    assert!(rt; well, "{what}");
}

/// Ends the test where this does not hold at a step of a history, the first of which is step 0.
pub fn holds_at(rt: &impl Abort, well: bool, history: &str, step: usize) {
    assert!(rt; well, "{history}, step {step}");
}
