//! Listings of forks: what each finished one has, and why others have none.
use crate::bytes::is;
use crate::holds::holds;
use crate::listing::play::{Aim, Step, fork_after, listed, refusal};
use crate::listing::read::{holds_of, is_right};
use fork_context::{Choice, Context};
use fork_listing::{ListFault, status_at};
use fork_rank::{Preferred, Rules};
use std::process::Abort;

const ONE: [Aim<'static>; 1] = [("a", 1000)];

const TWO: [Aim<'static>; 2] = [("a", 1000), ("b", 1000)];

const FOUR: [Aim<'static>; 4] = [("a", 1000), ("b", 1000), ("c", 1000), ("d", 1000)];

/// Checks that a listing is this one, and that a check accepts it.
fn holds_text(rt: &(impl Abort + AllocGlobal), out: &[u8], text: &str) {
    holds_of(rt, is(out, text.as_bytes()), "the fork is listed so", text);
    holds_of(rt, is_right(rt.alloc(), out), "the listing is right", text);
}

/// Checks that the fork of these targets has this listing after these steps, and that a check accepts it.
fn holds_listed(
    rt: &(impl Abort + AllocGlobal),
    rules: Rules,
    aims: &[Aim<'_>],
    steps: &[Step<'_>],
    text: &str,
) {
    match listed(rt.alloc(), rules, aims, steps) {
        Some(out) => holds_text(rt, &out, text),
        None => holds_of(rt, false, "the fork is listed", text),
    }
}

#[test]
fn finished_forks_are_listed(rt: HostRuntime) {
    let usual = Rules::usual();
    let answers = [
        Step::Answers(0, 503),
        Step::Answers(1, 407),
        Step::Answers(2, 501),
        Step::Answers(3, 404),
    ];
    holds_listed(
        &rt,
        usual,
        &FOUR,
        &answers,
        "fork 3 4\nprefer 401,407,415,420,484\ndepth 256\ntarget 0 - 1000 stored 503 0 received\ntarget 1 - 1000 stored 407 1 received\ntarget 2 - 1000 stored 501 2 received\ntarget 3 - 1000 stored 404 3 received\nrank 407 1 1\nrank 404 3 3\nrank 501 2 2\nrank 503 0 0\nfinal 407 1\n",
    );
    let redirected = [
        Step::Redirects(0, &["b", "c"]),
        Step::Answers(1, 404),
        Step::TimesOut(2),
    ];
    holds_listed(
        &rt,
        usual,
        &ONE,
        &redirected,
        "fork 3 3\nprefer 401,407,415,420,484\ndepth 256\ntarget 0 - 1000 taken 0\ntarget 1 0 1000 stored 404 1 received\ntarget 2 0 1000 stored 408 2 assumed\nrank 404 1 1\nrank 408 2 2\nfinal 404 1\n",
    );
    holds_listed(
        &rt,
        usual,
        &ONE,
        &[Step::Rings(0), Step::Cancel, Step::GivesUp(0)],
        "fork 3 1\nprefer 401,407,415,420,484\ndepth 256\ntarget 0 - 1000 silent 2\nfinal 408 -\n",
    );
    holds_listed(
        &rt,
        usual,
        &ONE,
        &[Step::Redirects(0, &["a"])],
        "fork 3 1\nprefer 401,407,415,420,484\ndepth 256\ntarget 0 - 1000 taken 0\nfinal 408 -\n",
    );
}

/// The rules without a preferred status and with depth 0.
fn without_preferred() -> Rules {
    match Preferred::of(&[]) {
        Some(preferred) => Rules::of(preferred, 0).unwrap_or(Rules::usual()),
        None => Rules::usual(),
    }
}

#[test]
fn unavailable_and_untried_branches_are_listed(rt: HostRuntime) {
    holds_listed(
        &rt,
        Rules::usual(),
        &TWO,
        &[Step::Answers(0, 503), Step::Answers(1, 503)],
        "fork 3 2\nprefer 401,407,415,420,484\ndepth 256\ntarget 0 - 1000 stored 503 0 received\ntarget 1 - 1000 stored 503 1 received\nrank 503 0 0\nrank 503 1 1\nfinal 500 0\n",
    );
    holds_listed(
        &rt,
        without_preferred(),
        &[("a", 1000), ("b", 500)],
        &[Step::Answers(0, 603)],
        "fork 3 2\nprefer -\ndepth 0\ntarget 0 - 1000 stored 603 0 received\ntarget 1 - 500 never\nrank 603 0 0\nfinal 603 0\n",
    );
}

#[test]
fn other_forks_are_not_listed(rt: HostRuntime) {
    let (fault, is_empty) = refusal(rt.alloc(), &TWO, &[]);
    holds(
        &rt,
        fault == Some(ListFault::NotFinished),
        "a fork that runs has no listing",
    );
    holds(&rt, is_empty, "nothing is appended while a fork runs");
    let (fault, is_empty) = refusal(
        rt.alloc(),
        &TWO,
        &[Step::Answers(0, 603), Step::Answers(1, 200)],
    );
    holds(
        &rt,
        fault == Some(ListFault::Succeeded),
        "a fork with a 2xx has no listing",
    );
    holds(&rt, is_empty, "nothing is appended for a fork with a 2xx");
}

/// Checks what is told of a fork's stored statuses.
fn tells_stored(rt: &impl Abort, fork: &Context) {
    holds(rt, status_at(fork, 0) == 503, "what is stored is told");
    holds(rt, status_at(fork, 1) == 408, "nothing is stored yet");
    holds(rt, status_at(fork, 2) == 408, "there is no such branch");
}

#[test]
fn stored_statuses_are_told(rt: HostRuntime) {
    let steps = [Step::Answers(0, 503), Step::Rings(1)];
    match fork_after(rt.alloc(), Rules::usual(), &TWO, &steps) {
        Some(fork) => tells_stored(&rt, &fork),
        None => holds(&rt, false, "the steps happen"),
    }
}

/// Whether this choice goes up, under this status.
fn sends(fork: &Context, choice: Choice, status: u16) -> bool {
    match fork.choice_with_status() {
        Some(sent) => sent.0 == choice && sent.1 == status,
        None => false,
    }
}

/// Whether a fork is there, and this choice goes up, under this status.
fn sends_if_any(fork: Option<Context>, choice: Choice, status: u16) -> bool {
    match fork {
        Some(fork) => sends(&fork, choice, status),
        None => false,
    }
}

#[test]
fn a_500_goes_up_in_place_of_a_503(rt: HostRuntime) {
    let steps = [Step::Answers(0, 503), Step::Answers(1, 503)];
    let fork = fork_after(rt.alloc(), Rules::usual(), &TWO, &steps);
    holds(
        &rt,
        sends_if_any(fork, Choice::Only503(0), 500),
        "the first 503 is chosen and a 500 goes up",
    );
}
