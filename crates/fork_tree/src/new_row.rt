//! Where new rows go.

/// Where a row goes among those that come with it: its group, its place in the group, and its q in thousandths.
#[derive(Clone, Copy, PartialEq, Eq, Debug)]
pub struct NewRow {
    pub group: u16,
    pub place: u16,
    pub q: u16,
}
