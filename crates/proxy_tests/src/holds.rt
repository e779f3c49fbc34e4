//! The one way in which a test checks.
use std::process::Abort;

/// Ends the test where this does not hold. `what` says which check it is.
pub fn holds(rt: &impl Abort, well: bool, what: &str) {
    assert!(rt; well, "{what}");
}

/// Ends the test where this does not hold of a row of a table. `what` says which check it is, `row` which row.
pub fn holds_of(rt: &impl Abort, well: bool, what: &str, row: &str) {
    assert!(rt; well, "{what}, of {row:?}");
}

/// Ends the test where this does not hold at a place. `what` says which check it is.
pub fn holds_at(rt: &impl Abort, well: bool, what: &str, at: usize) {
    assert!(rt; well, "{what}, at {at}");
}
