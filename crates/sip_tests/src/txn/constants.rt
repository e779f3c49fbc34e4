//! What the machines take of memory, and the values of their timers.
use crate::holds::holds;
use sip_txn::{
    InviteClient, InviteServer, OtherClient, OtherServer, T1, T1_TIMES_64, T2, T4, TIMER_D,
};

#[test]
fn sizes(rt: HostRuntime) {
    holds(
        &rt,
        size_of::<InviteClient>() <= 56,
        "the client of an INVITE is small",
    );
    holds(
        &rt,
        size_of::<OtherClient>() <= 56,
        "the client of another request is small",
    );
    holds(
        &rt,
        size_of::<InviteServer>() <= 56,
        "the server of an INVITE is small",
    );
    holds(
        &rt,
        size_of::<OtherServer>() <= 56,
        "the server of another request is small",
    );
}

#[test]
fn values(rt: HostRuntime) {
    holds(&rt, T1 == 500, "T1 is 500 ms");
    holds(&rt, T2 == 4000, "T2 is 4 s");
    holds(&rt, T4 == 5000, "T4 is 5 s");
    holds(&rt, T1_TIMES_64 == 32_000, "64 times T1 is 32 s");
    holds(&rt, TIMER_D == 32_000, "timer D is 32 s");
}
