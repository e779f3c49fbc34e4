//! What the threads of a proxy do beside `proxy_dispatch::handle`, in `serve` and in the service alike. What comes of one call is handled in
//! order: a datagram is of the group of calls that its Call-ID names (RFC 3261 section 20.8), one worker at a time is on a group, and what
//! comes of the group meanwhile waits for that worker, within a bound. Datagrams go out by a port over the socket. Calls are carried that
//! are due, and it is told what is to be done next with one that was. Memory is asked for ahead.
//!
//! And until when a call waits: one that is due later, one that lacked memory, and all of them where the deadline of one could not be added.
#![tactic(auto)]

mod by_call;
mod carrying;
mod group;
mod groups;
mod law;
mod looking;
mod memory;
mod packet;
mod port;
mod refusals;
mod room;
mod walk;

pub use by_call::{call_id, group_of};
pub use carrying::{NextStep, carry_due, carry_from, next_step};
pub use group::{CallGroup, MOST_WAITING};
pub use groups::{CallGroups, GroupClaim};
pub use law::jobs_come_in_order;
pub use looking::look_at;
pub use memory::ReadyMemory;
pub use port::{SendCounter, SocketPort, own_of};
pub use refusals::Refusals;
pub use room::WaitingRoom;
pub use walk::CallWalk;
