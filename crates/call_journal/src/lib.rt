//! What a proxy writes down of a call at its end: a line that says which call it was, how it ended and why; a line for each target, which
//! says what it did and when; and the listing of a call that failed, which a check accepts. And what an operator is told of one that is kept.
#![tactic(auto)]

mod block;
mod head;
mod law;
mod notes;
mod shown;
mod standing;
mod why;

pub use block::append_call;
pub use head::{CallRecord, append_shown};
pub use law::{failed_calls_are_listed_right, heads_are_lines, reasons_are_right};
pub use notes::{Note, NotedEvent};
pub use shown::{BranchTimes, CallShown, append_branch_line, append_call_line};
pub use standing::since;
