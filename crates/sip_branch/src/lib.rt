//! The branch parameter of the Via values that the proxy puts on top of requests (RFC 3261 sections 8.1.1.7 and 16.6 step 8): what it
//! tells of the branch that a request goes out on, written and read.
#![tactic(auto)]

mod branch;

pub use branch::{BranchName, read_branch, write_branch};
