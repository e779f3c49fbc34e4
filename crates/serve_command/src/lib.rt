//! The proxy on a UDP socket, which `forkproxy serve` runs (RFC 3261 sections 16 and 18). One thread receives datagrams and gives each as a job to one of
//! two workers, which hand it to the call that it belongs to and send what that call then has to send; a third worker does what is due by the clock, as
//! retransmissions and timeouts. Begin with `serve`.
#![tactic(auto)]

mod dropped;
mod ending;
mod fault;
mod job;
mod jobs;
mod receiver;
mod serving;
mod turns;
mod worker;

pub use fault::ServeFault;
pub use job::Job;
pub use jobs::{JobReceiver, JobSender, Waker};
pub use serving::{serve, serve_to};
pub use turns::parse_serve_args;
