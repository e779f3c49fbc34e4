//! What holds of every call over whole runs: what it sends is right, one final answer goes up, and so does each 2xx of an INVITE (RFC 3261 sections 16
//! and 17); and that a call that is over is quiet, so that a proxy may forget it.
//!
//! Laws over the definitions of calls, with nothing to run.
#![tactic(auto)]

mod law;
mod over;

pub use law::{
    calls_pay_in_order, calls_send_right, each_datagram_is_right, each_success_goes_up,
    one_final_answer_goes_up, what_is_sent_is_right,
};
pub use over::calls_that_are_over_are_quiet;
