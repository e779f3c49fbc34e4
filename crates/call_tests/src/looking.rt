//! What can be read of the state of a call: how its branches are named, when its transactions want a tick, and whether they
//! are over (RFC 3261 sections 9.1, 16.6 and 17).
use crate::branches::{
    PROXY_UNAUTHORIZED, UNAUTHORIZED, UNAUTHORIZED_UP, answers, starts, taken_by,
};
use crate::holds::holds;
use crate::state::{
    CANCEL_FIRST, FIRST, INVITE, SECOND, TO_FIRST, TO_SECOND, TRYING, begun, sends_cancel,
    sends_request, ticks_server,
};
use call_model::{Cause, Taken};
use call_state::CallState;
use sip_branch::BranchName;

/// What names the second branch of the call.
pub(crate) const SECOND_NAME: BranchName = BranchName {
    key: [
        0x8c, 0x31, 0xe7, 0x1e, 0x0d, 0xdb, 0xf1, 0xa0, 0xe5, 0x6f, 0x5f, 0x02, 0x79, 0x99, 0x08,
        0x57,
    ],
    instance: 7,
    context: 3,
    target: 1,
};

#[test]
fn a_branch_has_its_name(rt: HostRuntime) {
    let Some(state) = begun(rt.alloc(), &INVITE) else {
        return holds(&rt, false, "an INVITE begins");
    };
    state.is_sized();
    holds(
        &rt,
        state.opened().branch(1) == SECOND_NAME,
        "the name of the second branch",
    );
}

/// The moments of the first branch: of its client transaction, of its CANCEL's, and that at which it is given up.
fn moments(state: &CallState) -> (Option<u64>, Option<u64>, Option<u64>) {
    let branch = state.branch_view(0);
    (branch.client_due, branch.cancel_due, branch.give_up_due)
}

#[test]
fn a_branch_tells_its_moments(rt: HostRuntime) {
    let alloc = rt.alloc();
    let Some(mut state) = begun(alloc, &INVITE) else {
        return holds(&rt, false, "an INVITE begins");
    };
    holds(
        &rt,
        moments(&state) == (None, None, None) && state.is_branch_over(0),
        "nothing was sent",
    );
    holds(
        &rt,
        sends_request(alloc, &mut state, 0, FIRST, &TO_FIRST),
        "the request",
    );
    holds(
        &rt,
        moments(&state) == (Some(500), None, None) && !state.is_branch_over(0),
        "timer A runs",
    );
    holds(
        &rt,
        sends_cancel(alloc, &mut state, &CANCEL_FIRST),
        "the CANCEL",
    );
    holds(
        &rt,
        moments(&state) == (Some(500), Some(520), Some(32_020)),
        "timer E runs, and the wait of 64 times T1",
    );
}

#[test]
fn a_branch_that_was_not_sent_is_over(rt: HostRuntime) {
    let alloc = rt.alloc();
    let Some(mut state) = begun(alloc, &INVITE) else {
        return holds(&rt, false, "an INVITE begins");
    };
    holds(
        &rt,
        starts(alloc, &mut state, 0, FIRST, &TO_FIRST),
        "the request",
    );
    holds(
        &rt,
        state.failed(Cause::Request(0), 10).is_ok(),
        "it could not be sent",
    );
    holds(
        &rt,
        moments(&state) == (None, None, None) && state.is_branch_over(0),
        "its transaction is over",
    );
}

#[test]
fn the_side_of_the_caller_tells_its_moments(rt: HostRuntime) {
    let alloc = rt.alloc();
    let Some(mut state) = begun(alloc, &INVITE) else {
        return holds(&rt, false, "an INVITE begins");
    };
    holds(&rt, answers(alloc, &mut state, &TRYING), "the 100");
    holds(
        &rt,
        state.server_due().is_none() && !state.is_server_over(),
        "nothing is wanted",
    );
    holds(
        &rt,
        starts(alloc, &mut state, 0, FIRST, &TO_FIRST),
        "the request to the first target",
    );
    holds(
        &rt,
        starts(alloc, &mut state, 1, SECOND, &TO_SECOND),
        "the request to the second",
    );
    holds(
        &rt,
        taken_by(alloc, &mut state, 0, 10, &UNAUTHORIZED) == Some(Taken::Posted(0)),
        "the first fails",
    );
    holds(
        &rt,
        taken_by(alloc, &mut state, 1, 20, &PROXY_UNAUTHORIZED) == Some(Taken::Posted(1)),
        "so does the second",
    );
    holds(
        &rt,
        answers(alloc, &mut state, &UNAUTHORIZED_UP),
        "the 401 goes up",
    );
    holds(
        &rt,
        state.server_due() == Some(500) && !state.is_server_over(),
        "timer G runs",
    );
    holds(&rt, ticks_server(&mut state, 32_000), "timer H fires");
    holds(
        &rt,
        state.server_due().is_none() && state.is_server_over(),
        "the transaction is over",
    );
}

#[test]
fn a_call_that_is_not_to_be_gives_its_request_back(rt: HostRuntime) {
    match begun(rt.alloc(), &INVITE) {
        Some(state) => holds(&rt, state.into_request().is_invite(), "its INVITE"),
        None => holds(&rt, false, "an INVITE begins"),
    }
}
