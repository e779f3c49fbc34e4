//! The values that a response context takes and gives (RFC 3261 sections 16.5 to 16.7): the targets of a target set,
//! responses with their contacts and challenges, events, and replies, which say which branches to try or to cancel and what
//! goes up to the caller; and the part of a row of the table that is kept beside the tree of branches.
#![tactic(auto)]

mod copy;
mod event;
mod extras_table;
mod new_target;
mod numbering;
mod offer;
mod reply;
mod row_extras;
mod target_rows;

pub use copy::{copied_challenges, copied_offers, copied_targets};
pub use event::{Answer, Event, Target};
pub use extras_table::ExtrasTable;
pub use new_target::{NewTarget, contact_qs, extras_at};
pub use numbering::{numbered, qs_at, qs_in_order};
pub use offer::Offer;
pub use reply::{Choice, Numbers, Reply, Up};
pub use row_extras::RowExtras;
pub use target_rows::{target_extras, target_qs};
