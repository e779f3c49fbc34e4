//! What a caller sees of a row.
use fork_tree::RowRef;

/// What a caller sees of a row: the row, and the place of its target in the list that it came in.
#[derive(Clone, Copy, PartialEq, Eq, Debug)]
pub struct RowView {
    pub row: RowRef,
    pub place: usize,
}
