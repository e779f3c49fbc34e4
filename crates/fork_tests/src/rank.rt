//! The public functions of `fork_rank`, each on its happy path.
use crate::bytes::{copy_of, is};
use crate::holds::holds;
use fork_rank::{
    Challenge, MOST_PREFERRED, MOST_TARGETS, Preferred, Rank, RingStatus, Rules, Status,
    StatusClass, before, compare, groups, rank_class, rank_part, ranks_before,
};
use std::alloc::Global;
use std::cmp::Ordering;
use std::process::Abort;

/// The code of the status that is made of this code; 0 where it is none.
fn status_code(code: u16) -> u16 {
    match Status::of(code) {
        Some(status) => status.code(),
        None => 0,
    }
}

#[test]
fn statuses(rt: HostRuntime) {
    holds(&rt, status_code(699) == 699, "699 is a status");
    holds(&rt, status_code(700) == 0, "700 is no status");
    holds(&rt, status_code(199) == 0, "199 is no final status");
    holds(
        &rt,
        Status::request_timeout().code() == 408,
        "a request that times out is answered with a 408",
    );
    holds(
        &rt,
        Status::service_unavailable().code() == 503,
        "a service that is not there is a 503",
    );
}

/// Whether this status is of a class, as a number and as the status of a final response.
fn is_of(code: u16, class: StatusClass) -> bool {
    match Status::of(code) {
        Some(status) => StatusClass::of(code) == class && status.class() == class,
        None => StatusClass::of(code) == class,
    }
}

#[test]
fn classes(rt: HostRuntime) {
    let table = [
        (180, StatusClass::Provisional),
        (200, StatusClass::Success),
        (302, StatusClass::Redirection),
        (404, StatusClass::ClientError),
        (503, StatusClass::ServerError),
        (603, StatusClass::GlobalFailure),
    ];
    for (code, class) in table {
        holds(
            &rt,
            is_of(code, class),
            "each status is of the class of its first digit",
        );
    }
}

/// The first two parts of the rank of an answer with this status.
fn parts(code: u16) -> (u8, u8) {
    (rank_class(code), rank_part(&Rules::usual(), code))
}

#[test]
fn parts_of_ranks(rt: HostRuntime) {
    let table = [
        (603, (0, 0)),
        (302, (1, 0)),
        (407, (2, 0)),
        (404, (2, 1)),
        (501, (3, 0)),
        (503, (3, 1)),
    ];
    for (code, wanted) in table {
        holds(
            &rt,
            parts(code) == wanted,
            "the class, then what goes first in it",
        );
    }
}

/// The code of the provisional status that is made of this code; 0 where it is none.
fn ring_code(code: u16) -> u16 {
    match RingStatus::of(code) {
        Some(status) => status.code(),
        None => 0,
    }
}

#[test]
fn ring_statuses(rt: HostRuntime) {
    holds(&rt, ring_code(180) == 180, "180 is provisional");
    holds(&rt, ring_code(99) == 0, "99 is no provisional status");
    holds(&rt, ring_code(200) == 0, "200 is not provisional");
}

/// Whether the usual rules prefer this status.
fn is_usual(code: u16) -> bool {
    Rules::usual().prefers(code)
}

/// Whether the list may be preferred, and is then kept as it is.
fn is_kept(statuses: &[u16]) -> bool {
    match Preferred::of(statuses) {
        Some(preferred) => preferred.statuses() == statuses,
        None => false,
    }
}

fn is_refused(statuses: &[u16]) -> bool {
    Preferred::of(statuses).is_none()
}

#[test]
fn preferred_statuses(rt: HostRuntime) {
    holds(
        &rt,
        Preferred::usual().statuses() == [401, 407, 415, 420, 484].as_slice(),
        "the usual preferred statuses",
    );
    holds(&rt, is_usual(407), "407 is usually preferred");
    holds(&rt, !is_usual(404), "404 is usually not preferred");
    holds(&rt, is_kept(&[486]), "486 alone may be preferred");
    holds(&rt, is_refused(&[401, 401]), "no status stands twice");
    holds(&rt, is_refused(&[500]), "no 5xx is preferred");
    holds(
        &rt,
        is_refused(&[404; MOST_PREFERRED + 1]),
        "17 statuses are too many",
    );
}

/// The depth of the usual rules with this depth; nothing where it is too deep.
fn depth_of(depth: u16) -> Option<u16> {
    Some(Rules::of(Preferred::usual(), depth)?.depth())
}

#[test]
fn operator_rules(rt: HostRuntime) {
    holds(
        &rt,
        Rules::usual().depth() == MOST_TARGETS,
        "contacts are usually tried to any depth",
    );
    holds(
        &rt,
        Rules::usual().preferred() == Preferred::usual(),
        "the usual rules have the usual preferred statuses",
    );
    holds(&rt, depth_of(0) == Some(0), "0 is a depth");
    holds(&rt, depth_of(257).is_none(), "257 is no depth");
}

/// The rank of an answer of this status that came with the event at this position.
fn rank(answer: (u16, u32)) -> Option<Rank> {
    let status = Status::of(answer.0)?;
    if status.code() < 300 {
        return None;
    }
    Some(Rank::of(status, answer.1, &Rules::usual()))
}

/// Whether the first answer ranks before the second.
fn is_before(first: (u16, u32), second: (u16, u32)) -> Option<bool> {
    Some(before(&rank(first)?, &rank(second)?))
}

/// The order of the ranks of these answers.
fn order(first: (u16, u32), second: (u16, u32)) -> Option<Ordering> {
    Some(compare(&rank(first)?, &rank(second)?))
}

/// Whether the first rank is less, and whether it equals itself.
fn by_operators(first: (u16, u32), second: (u16, u32)) -> Option<(bool, bool)> {
    let (first, second) = (rank(first)?, rank(second)?);
    Some((first < second, first == first))
}

/// Whether the first answer goes up rather than the second.
fn goes_up(first: (u16, u32), second: (u16, u32)) -> Option<bool> {
    let first = (Status::of(first.0)?, first.1);
    let second = (Status::of(second.0)?, second.1);
    Some(ranks_before(&Rules::usual(), first, second))
}

#[test]
fn ranks(rt: HostRuntime) {
    let (needs_login, busy) = ((407, 1), (486, 0));
    holds(
        &rt,
        is_before(needs_login, busy) == Some(true),
        "a later 407 goes before a 486",
    );
    holds(
        &rt,
        order(busy, needs_login) == Some(Ordering::Greater),
        "a 486 compares greater than a later 407",
    );
    let compared = by_operators(needs_login, busy).unwrap_or((false, false));
    holds(
        &rt,
        compared.0,
        "the rank of the 407 is less than that of the 486",
    );
    holds(&rt, compared.1, "a rank equals itself");
    holds(
        &rt,
        goes_up((486, 3), (486, 4)) == Some(true),
        "the earlier of two 486 goes up",
    );
    holds(
        &rt,
        goes_up((486, 3), (503, 0)) == Some(true),
        "a 486 goes up rather than an earlier 503",
    );
}

/// Whether this group has these places.
fn is_group(groups: &[Vec<usize>], n: usize, places: &[usize]) -> bool {
    match groups.get(n) {
        Some(group) => group.as_slice() == places,
        None => false,
    }
}

/// Checks that these are the groups of three targets of which the second has the greatest q.
fn are_grouped(rt: &impl Abort, groups: &[Vec<usize>]) {
    holds(rt, groups.len() == 2, "two q make two groups");
    holds(rt, is_group(groups, 0, &[1]), "the group of q 1 goes first");
    holds(
        rt,
        is_group(groups, 1, &[0, 2]),
        "the group of q 0.5 has two places, rising",
    );
}

#[test]
fn groups_by_q(rt: HostRuntime) {
    match groups(rt.alloc(), &[500, 1000, 500]) {
        Ok(groups) => are_grouped(&rt, &groups),
        Err(_) => holds(&rt, false, "there is memory for the groups"),
    }
}

/// The copy of a proxy's challenge.
fn copied(alloc: Global, challenge: &Challenge) -> Option<Challenge> {
    match challenge.copy(&alloc) {
        Ok(copy) => Some(copy),
        Err(_) => None,
    }
}

/// The copy of a proxy's challenge of this value.
fn copied_of(alloc: Global, value: &[u8]) -> Option<Challenge> {
    match copy_of(alloc, value) {
        Some(value) => copied(alloc, &Challenge::new(true, value)),
        None => None,
    }
}

/// Checks that this is the copy of a proxy's challenge.
fn is_the_copy(rt: &impl Abort, copy: &Challenge) {
    holds(rt, copy.proxy(), "the copy is a proxy's challenge, too");
    holds(
        rt,
        is(copy.value(), b"Digest realm=\"a\""),
        "the copy has the same value",
    );
}

#[test]
fn challenges(rt: HostRuntime) {
    match copied_of(rt.alloc(), b"Digest realm=\"a\"") {
        Some(copy) => is_the_copy(&rt, &copy),
        None => holds(&rt, false, "the challenge is copied"),
    }
}
