//! Tests of `bindings`: each table of `rows` from its first request to its last.
use crate::contacts::{Row, played, plays, shows};
use crate::holds::holds;
use crate::rows::{FIRST_ALONE, INSTANCES, MANY, ONE, TIMES, TWO};
use bindings::{
    ContactParts, RegisterRequest, UserBindings, they_are_sixteen_at_most,
    those_of_one_request_differ, those_that_stand_are_there, what_is_kept_is_the_fold,
};
use sip_uri::Hop;
use std::alloc::Global;
use std::process::Abort;

/// Tables, and what each shows.
const TABLES: &[(&[Row], &str)] = &[
    (ONE, "one telephone, its repeats and its `*`"),
    (TWO, "two telephones behind two routers"),
    (TIMES, "times, and a contact twice"),
    (INSTANCES, "instances behind one router"),
    (FIRST_ALONE, "the first binding alone is named"),
    (MANY, "more than a user may have"),
];

#[test]
fn each_table_is_played(rt: HostRuntime) {
    what_is_kept_is_the_fold();
    those_that_stand_are_there();
    those_of_one_request_differ();
    they_are_sixteen_at_most();
    for (rows, what) in TABLES {
        holds(&rt, plays(rt.alloc(), rows), what);
    }
}

/// Whether a binding is there until its end, and not at it.
fn ends_at_its_moment(alloc: Global) -> bool {
    let Some(bindings) = played(alloc, &ONE[..1]) else {
        return false;
    };
    let name: &[u8] = b"<sip:bob@10.0.0.2:5070>";
    let is_there = shows(&bindings, 600_999, &[(name, 41000, 601_000)]);
    let is_gone = shows(&bindings, 601_000, &[]);
    is_there
        && is_gone
        && bindings.next_end(600_999) == Some(601_000)
        && bindings.next_end(601_000).is_none()
}

#[test]
fn a_binding_is_there_until_its_end(rt: HostRuntime) {
    holds(&rt, ends_at_its_moment(rt.alloc()), "its last millisecond");
}

/// A request as in the first row of the first table, of this transaction, at a moment.
fn again(branch: &[u8], at: u64) -> RegisterRequest<'_> {
    RegisterRequest {
        call_id: b"r1",
        cseq: 2,
        key: branch,
        at,
        least: 60,
        star: None,
        contacts: &[],
    }
}

/// A later request that takes all bindings away.
fn taken_away(at: u64) -> RegisterRequest<'static> {
    RegisterRequest {
        call_id: b"r1",
        cseq: 3,
        key: b"b9",
        at,
        least: 60,
        star: Some(0),
        contacts: &[],
    }
}

/// Whether a request that comes again is known before its contacts are read, while its binding is there.
fn knows_a_repeat(alloc: Global) -> bool {
    let Some(bindings) = played(alloc, &ONE[..1]) else {
        return false;
    };
    bindings.is_repeat(&again(b"b2", 600_999))
        && !bindings.is_repeat(&again(b"b2", 601_000))
        && !bindings.is_repeat(&again(b"b3", 2_000))
}

#[test]
fn a_request_that_comes_again_is_known(rt: HostRuntime) {
    holds(&rt, knows_a_repeat(rt.alloc()), "by its transaction alone");
}

/// Whether a change that is prepared leaves the bindings as they are, and a request that comes again prepares none.
fn prepares_beside(alloc: Global) -> bool {
    let Some(bindings) = played(alloc, &ONE[..1]) else {
        return false;
    };
    let Ok(changed) = bindings.prepared(alloc, &taken_away(2_000)) else {
        return false;
    };
    let Ok(repeated) = bindings.prepared(alloc, &again(b"b2", 2_000)) else {
        return false;
    };
    let all_gone = match changed {
        None => false,
        Some(changed) => changed.is_empty(),
    };
    all_gone && repeated.is_none() && bindings.len() == 1
}

#[test]
fn a_change_may_be_given_up(rt: HostRuntime) {
    holds(&rt, prepares_beside(rt.alloc()), "the old and the new");
}

// ---- one binding, and one contact beside another

/// Whether the first binding is there until its end.
fn first_is_there(bindings: &UserBindings) -> bool {
    match bindings.at(2_000).next() {
        Some(binding) => binding.is_there(600_999) && !binding.is_there(601_000),
        None => false,
    }
}

/// Whether the one binding of a user says when it is there, and is copied while it is.
fn is_copied_while_there(alloc: Global) -> bool {
    let Some(bindings) = played(alloc, &ONE[..1]) else {
        return false;
    };
    if bindings.is_empty() || !first_is_there(&bindings) {
        return false;
    }
    match (
        bindings.copied(alloc, 600_999),
        bindings.copied(alloc, 601_000),
    ) {
        (Ok(copies), Ok(none)) => copies.len() == 1 && none.is_empty(),
        _ => false,
    }
}

#[test]
fn a_binding_is_copied_while_it_is_there(rt: HostRuntime) {
    holds(&rt, is_copied_while_there(rt.alloc()), "the one binding");
}

/// A contact with this key, instance and `reg-id`, whose requests go to this last octet.
fn contact(
    key: &'static [u8],
    instance: Option<&'static [u8]>,
    reg_id: Option<&'static [u8]>,
    octet: u8,
) -> ContactParts<'static> {
    ContactParts {
        item: key,
        uri: key,
        key,
        q: 1000,
        instance,
        reg_id,
        hop: Hop::over_udp([192, 0, 2, octet], 5060),
    }
}

/// Checks which contacts name the binding of one with an instance, and that of one without.
fn check_same(rt: &impl Abort) {
    let with = contact(b"sip:bob@10.0.0.2", Some(b"urn:1"), Some(b"1"), 1);
    let moved = contact(b"sip:bob@10.0.0.3", Some(b"urn:1"), Some(b"1"), 2);
    holds(rt, with.is_same_binding(&moved), "one instance, one reg-id");
    let second = contact(b"sip:bob@10.0.0.2", Some(b"urn:1"), Some(b"2"), 1);
    holds(rt, !with.is_same_binding(&second), "another reg-id");
    let other = contact(b"sip:bob@10.0.0.2", Some(b"urn:2"), Some(b"1"), 1);
    holds(rt, !with.is_same_binding(&other), "another instance");
    let without = contact(b"sip:bob@10.0.0.2", None, None, 1);
    holds(rt, with.is_same_binding(&without), "one key, one address");
    let elsewhere = contact(b"sip:bob@10.0.0.2", None, None, 2);
    holds(rt, !without.is_same_binding(&elsewhere), "another address");
}

#[test]
fn contacts_name_a_binding_by_instance_or_place(rt: HostRuntime) {
    check_same(&rt);
}
