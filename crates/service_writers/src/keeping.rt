//! The thread that keeps changes of bindings. It alone waits for the store.
use binding_table::Keeper;
use call_table::ThreadClock;
use fork_call::Port;
use proxy_service::Service;
use service_admission::ServiceState;
use service_users::Hearing;
use std::sync::Wait;
use std::time::Clock;

/// Keeps the changes of bindings of a service that wait, all at once, and answers the requests that make them, by this port; how long that
/// took is counted.
pub fn keep_waiting<R: Wait + Clock, P: Port, K: Keeper>(
    rt: &R,
    service: &Service,
    watch: &mut ThreadClock,
    port: &mut P,
    keeper: &mut K,
) {
    let hearing = Hearing {
        schedule: service.calls().schedule(),
        counts: service.counts(),
    };
    let began = watch.micros(rt);
    if service.users().keep(rt, keeper, port, hearing) {
        let took = watch.micros(rt).saturating_sub(began);
        service.counts().commits.add(took);
    }
}

/// Keeps changes of bindings of a service as they come, until its end.
pub fn keep_until_end<R: Wait + Clock, P: Port, K: Keeper>(
    rt: &R,
    service: &Service,
    watch: &mut ThreadClock,
    port: &mut P,
    keeper: &mut K,
) {
    for _ in rt.forever() {
        if service.is_in(ServiceState::Ended) {
            return;
        }
        keep_waiting(rt, service, watch, port, keeper);
        service.users().changes.wait(rt);
    }
    unreachable!()
}
