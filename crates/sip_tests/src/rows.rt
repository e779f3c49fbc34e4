//! Checks of the rows of a table.
use std::process::Abort;

/// Ends the test where this does not hold of a row, the first of which is row 0. `what` says what holds of each.
pub fn holds_in_row(rt: &impl Abort, well: bool, what: &str, row: usize) {
    assert!(rt; well, "{what}, row {row}");
}
