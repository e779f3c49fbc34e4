//! A call: a forked request with its response context, the server transaction of its caller and a client transaction
//! for each branch. It takes the messages that belong to it and the moments at which a timer fires, and gives the
//! datagrams that the proxy sends for it, the one final response among them (RFC 3261 sections 16 and 17). Begin with
//! `Call::take` and `Call::pump`; `carry` sends what a call gives.
#![tactic(auto)]

mod action;
mod call;
mod fault;
mod large;
mod law;
mod opening;
mod opening_request;
mod pending_call;
mod port;
mod prepared_request;
mod record_route;
mod schedule;
mod taking;
mod timing;

pub use call::Call;
pub use call_model::{Cause, Datagram, Step, Taken};
pub use fault::TakeFault;
pub use fork_book::Book;
pub use law::{
    calls_have_stages, datagrams_go_back_to_the_request, each_datagram_is_right,
    each_success_goes_up, one_fault_holds, one_final_answer_goes_up, opened_calls_pay_in_order,
};
pub use opening::{admitted_target, is_openable, open_to, prepare, prepare_read, read_target};
pub use opening_request::OpeningRequest;
pub use pending_call::PendingCall;
pub use port::{Carried, Port, carry};
pub use prepared_request::PreparedRequest;
pub use proxy_config::{Setup, SetupFault};
pub use proxy_routing::{RequestRejection, Unrouted};
