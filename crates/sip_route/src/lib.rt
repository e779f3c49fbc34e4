//! How a request is routed (RFC 3261 sections 16.3, 16.4, 16.6 and 17.2.3): how many more proxies may forward it by
//! Max-Forwards, where its first Route value leads, the value that names this proxy taken off, whether the request passed
//! before (loop detection), and the key by which its retransmission, its ACK and its CANCEL find its server transaction.
#![tactic(auto)]

mod fields;
mod header_values;
mod hops;
mod law;
mod loop_test;
mod loops;
mod request_key;
mod route_values;
mod routes;
mod stripping;

pub use fields::{add_field, add_number, add_optional};
pub use header_values::{first_header, first_value, headers_around};
pub use hops::{MaxForwards, max_forwards};
pub use law::{keys_tell_senders, stripping_keeps_the_rest};
pub use loop_test::is_loop;
pub use loops::{loop_key, request_uri};
pub use request_key::{append_request_key, append_sender_key, has_key, has_same_key};
pub use route_values::{FirstRoute, first_route, routes_are_readable};
pub use routes::{is_own, leads_to_proxy};
pub use stripping::strip;
