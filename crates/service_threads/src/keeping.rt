//! The thread that keeps changes of bindings.
use crate::proxy::ServiceProxy;
use binding_table::Keeper;
use call_table::ThreadClock;
use service_transport::ProxySockets;
use service_writers::{keep_until_end, keep_waiting};
use std::sync::Wait;
use std::time::Clock;
use stream_sockets::ConnectionSockets;

impl ServiceProxy {
    /// Keeps changes as they come, and answers the requests that make them, until the end.
    pub(crate) fn keep_changes<R: Wait + ConnectionSockets + Clock, K: Keeper>(
        &self,
        rt: &R,
        sockets: &ProxySockets,
        keeper: &mut K,
    ) {
        let transport = &self.transport;
        let mut port = transport.answering_port(rt, sockets);
        let mut watch = ThreadClock::new(transport.epoch);
        keep_until_end(rt, &transport.service, &mut watch, &mut port, keeper);
    }

    /// Keeps the changes that wait, and answers the requests that make them.
    pub(crate) fn keep_left<R: Wait + ConnectionSockets + Clock, K: Keeper>(
        &self,
        rt: &R,
        sockets: &ProxySockets,
        keeper: &mut K,
    ) {
        let transport = &self.transport;
        let mut port = transport.answering_port(rt, sockets);
        let mut watch = ThreadClock::new(transport.epoch);
        keep_waiting(rt, &transport.service, &mut watch, &mut port, keeper);
    }
}
