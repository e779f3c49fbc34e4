//! What the threads of a proxy share of its calls: the table of them, under numbers and under the keys of their requests, with a lock for each call; the
//! moment at which each is next due, by a clock that does not fall for its thread; and queues of jobs for workers. Of a call no more is known here than
//! its number.
#![tactic(auto)]

mod clock;
mod deadlines;
mod entries;
pub mod inbox;
mod key_table;
mod schedule;
mod shelf;

pub use clock::{Epoch, ThreadClock};
pub use inbox::{Inbox, InboxIn, InboxOut, MOST_JOBS};
pub use schedule::Schedule;
pub use shelf::{Numbered, Pending, PendingFault, Removal, Shelf, ShelfFault};
