//! Small histories: what a tree keeps after each event.
use crate::tree::play::{NONE, Step, play};
use fork_tree::{End, RowRef, State};

fn row(no: u16, parent: Option<u16>, group: u16, q: u16, state: State) -> Step {
    Step::HasRow(RowRef {
        no,
        parent,
        group,
        q,
        state,
    })
}

#[test]
fn initial_targets(rt: HostRuntime) {
    let steps = [
        Step::HasRows(3),
        Step::HasOpen(3),
        Step::HasBest(None),
        row(0, None, 0, 1000, State::Idle),
        row(1, None, 0, 1000, State::Idle),
        row(2, None, 1, 500, State::Idle),
        Step::HasNoRow(3),
    ];
    play(&rt, "initial targets", &[1000, 1000, 500], &steps);
}

#[test]
fn nodes_of_initial_targets(rt: HostRuntime) {
    let steps = [
        Step::NodeHasOpen(1, 1),
        Step::NodeHasBest(1, None),
        Step::HasNoNode(2),
    ];
    play(&rt, "nodes of initial targets", &[1000, 500], &steps);
}

#[test]
fn closed_tree(rt: HostRuntime) {
    let steps = [
        Step::Closes,
        Step::HasOpen(0),
        row(1, None, 1, 500, State::Ended(End::Never)),
        Step::HasBest(None),
    ];
    play(&rt, "a closed tree", &[1000, 500], &steps);
}

#[test]
fn waiting_rows(rt: HostRuntime) {
    let steps = [
        Step::Starts(Some((0, 1))),
        Step::Redirects(0, 0, [1000, 1000, 500]),
        row(1, Some(0), 0, 1000, State::Idle),
        row(2, Some(0), 0, 1000, State::Idle),
        row(3, Some(0), 1, 500, State::Idle),
    ];
    play(&rt, "rows that wait", &[1000], &steps);
}

#[test]
fn two_contacts_of_a_302(rt: HostRuntime) {
    let steps = [
        Step::Starts(Some((0, 1))),
        Step::Redirects(0, 0, [1000, 1000, 0]),
        Step::HasRows(3),
        row(2, Some(0), 0, 1000, State::Idle),
        Step::HasParent(2, Some(0)),
        Step::HasParent(0, None),
        Step::Starts(Some((1, 2))),
        Step::Starts(None),
        Step::Answers(1, 404, 1, NONE),
        Step::NodeHasBest(0, Some((1, 404, 1))),
        Step::NodeHasOpen(0, 1),
        Step::Answers(2, 486, 2, NONE),
        Step::HasBest(Some((1, 404, 1))),
        Step::HasOpen(0),
    ];
    play(&rt, "two contacts of a 302", &[1000], &steps);
}

#[test]
fn a_contact_before_the_next_group(rt: HostRuntime) {
    let steps = [
        Step::Starts(Some((0, 1))),
        Step::Redirects(0, 0, [1000, 0, 0]),
        Step::Starts(Some((2, 1))),
        Step::Answers(2, 404, 1, NONE),
        Step::NodeHasBest(0, Some((2, 404, 1))),
        Step::NodeHasOpen(0, 0),
        Step::Starts(Some((1, 1))),
    ];
    play(&rt, "a contact before the next group", &[1000, 500], &steps);
}

#[test]
fn what_waits_ends_with_a_decline(rt: HostRuntime) {
    let steps = [
        Step::Starts(Some((0, 1))),
        Step::Answers(0, 603, 0, NONE),
        Step::Closes,
        Step::HasOpen(0),
        Step::HasBest(Some((0, 603, 0))),
    ];
    play(&rt, "what waits ends with a decline", &[1000, 500], &steps);
}

#[test]
fn decline_goes_first(rt: HostRuntime) {
    let steps = [
        Step::Starts(Some((0, 3))),
        Step::Rings(2),
        row(2, None, 0, 1000, State::Rung { cancelled: false }),
        Step::Answers(0, 401, 1, NONE),
        Step::Answers(1, 603, 2, NONE),
        Step::Closes,
        Step::Starts(None),
        Step::Cancels(2),
        row(2, None, 0, 1000, State::Rung { cancelled: true }),
        Step::HasOpen(1),
        Step::Answers(2, 487, 3, NONE),
        Step::HasOpen(0),
        Step::HasBest(Some((1, 603, 2))),
    ];
    play(
        &rt,
        "a decline goes first",
        &[1000, 1000, 1000, 500],
        &steps,
    );
}

#[test]
fn contacts_of_a_contact(rt: HostRuntime) {
    let steps = [
        Step::Tries(0),
        Step::Answers(0, 302, 0, [1000, 500, 0]),
        Step::Starts(Some((2, 1))),
        Step::Redirects(2, 1, [700, 0, 0]),
        row(3, Some(0), 1, 500, State::Idle),
        row(4, Some(2), 0, 700, State::Idle),
        Step::Starts(Some((4, 1))),
        Step::Starts(None),
        Step::Answers(4, 603, 2, NONE),
        Step::HasBest(Some((4, 603, 2))),
        Step::HasOpen(2),
        Step::Starts(Some((3, 1))),
        Step::Starts(None),
        Step::FallsSilent(3, 3),
        Step::Starts(Some((1, 1))),
    ];
    play(&rt, "contacts of a contact", &[1000, 500], &steps);
}
