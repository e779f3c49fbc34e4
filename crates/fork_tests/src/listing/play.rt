//! What happens to a fork, as data, and the listing that it then has.
use crate::bytes::copy_of;
use crate::listing::read::next;
use fork_context::{Answer, Context, Event, Kind, Offer, Target};
use fork_listing::{ListFault, listing};
use fork_rank::{Preferred, RingStatus, Rules, Status};
use std::alloc::Global;

/// A target: its key, and its q in thousandths.
pub type Aim<'a> = (&'a str, u16);

/// What happens; the first number is the branch's.
#[derive(Clone, Copy)]
pub enum Step<'a> {
    /// A 180 comes.
    Rings(u16),
    /// A final answer of this status comes, without contacts.
    Answers(u16, u16),
    /// A 302 comes with these contacts, each at q 1.
    Redirects(u16, &'a [&'a str]),
    TimesOut(u16),
    Fails(u16),
    GivesUp(u16),
    Cancel,
}

/// The event of a provisional answer.
fn ringing(n: u16) -> Option<Event> {
    match RingStatus::of(180) {
        Some(status) => Some(Event::Ring(n, status)),
        None => None,
    }
}

/// The event of a final answer of this status with these contacts.
fn answer(alloc: Global, n: u16, code: u16, offers: Vec<Offer>) -> Option<Event> {
    match Status::of(code) {
        Some(status) => Some(Event::Answer(n, Answer::new(status, offers, Vec::new(alloc)))),
        None => None,
    }
}

/// A contact of that text at q 1, with its name for its key.
fn offer_of(alloc: Global, text: Vec<u8>, name: &str) -> Option<Offer> {
    match copy_of(alloc, name.as_bytes()) {
        Some(key) => Some(Offer::new(text, 1000, Some(key))),
        None => None,
    }
}

/// A contact at q 1, with its text for its key.
fn offer(alloc: Global, name: &str) -> Option<Offer> {
    match copy_of(alloc, name.as_bytes()) {
        Some(text) => offer_of(alloc, text, name),
        None => None,
    }
}

/// Adds a contact; whether there was memory for it.
fn pushes_offer(alloc: Global, offers: &mut Vec<Offer>, name: &str) -> bool {
    match offer(alloc, name) {
        Some(offer) => offers.push(offer).is_ok(),
        None => false,
    }
}

/// Adds these contacts; whether there was memory for them.
fn pushes_offers(alloc: Global, offers: &mut Vec<Offer>, names: &[&str]) -> bool {
    for name in names {
        if !pushes_offer(alloc, offers, name) {
            return false;
        }
    }
    true
}

/// The event of a 302 with these contacts.
fn redirection(alloc: Global, n: u16, names: &[&str]) -> Option<Event> {
    let mut offers = Vec::new(alloc);
    if pushes_offers(alloc, &mut offers, names) {
        answer(alloc, n, 302, offers)
    } else {
        None
    }
}

fn event(alloc: Global, step: Step<'_>) -> Option<Event> {
    match step {
        Step::Rings(n) => ringing(n),
        Step::Answers(n, code) => answer(alloc, n, code, Vec::new(alloc)),
        Step::Redirects(n, names) => redirection(alloc, n, names),
        Step::TimesOut(n) => Some(Event::Timeout(n)),
        Step::Fails(n) => Some(Event::Fault(n)),
        Step::GivesUp(n) => Some(Event::GiveUp(n)),
        Step::Cancel => Some(Event::Cancel),
    }
}

/// Lets the event happen; whether it was taken. A refused one is a fault of the test, since no history of a test is full.
fn takes(fork: &mut Context, event: Option<Event>) -> bool {
    match event {
        Some(event) => fork.post(event).is_ok(),
        None => false,
    }
}

/// Lets each step happen; whether each was taken.
fn takes_steps(alloc: Global, fork: &mut Context, steps: &[Step<'_>]) -> bool {
    for &step in steps {
        if !takes(fork, event(alloc, step)) {
            return false;
        }
    }
    true
}

/// Adds a target; whether there was memory for it.
fn pushes_target(alloc: Global, targets: &mut Vec<Target>, key: &str, q: u16) -> bool {
    match copy_of(alloc, key.as_bytes()) {
        Some(key) => targets.push(Target::new(key, q.min(1000))).is_ok(),
        None => false,
    }
}

/// Adds these targets; whether there was memory for them.
fn pushes_targets(alloc: Global, targets: &mut Vec<Target>, aims: &[Aim<'_>]) -> bool {
    for &(key, q) in aims {
        if !pushes_target(alloc, targets, key, q) {
            return false;
        }
    }
    true
}

fn targets(alloc: Global, aims: &[Aim<'_>]) -> Option<Vec<Target>> {
    let mut targets = Vec::new(alloc);
    if pushes_targets(alloc, &mut targets, aims) {
        Some(targets)
    } else {
        None
    }
}

/// The fork of these targets, if it is made.
fn fork_of(alloc: Global, rules: Rules, targets: Vec<Target>) -> Option<Context> {
    match Context::new(alloc, Kind::Invite, rules, targets) {
        Ok(fork) => Some(fork),
        Err(_) => None,
    }
}

/// The fork of these targets.
fn fork(alloc: Global, rules: Rules, aims: &[Aim<'_>]) -> Option<Context> {
    match targets(alloc, aims) {
        Some(targets) => fork_of(alloc, rules, targets),
        None => None,
    }
}

/// The listing of a fork; nothing where it has none.
fn listing_of(alloc: Global, fork: &Context) -> Option<Vec<u8>> {
    let mut out = Vec::new(alloc);
    match listing(fork, &mut out) {
        Ok(()) => Some(out),
        Err(_) => None,
    }
}

/// The fork once these steps happened.
fn after(alloc: Global, mut fork: Context, steps: &[Step<'_>]) -> Option<Context> {
    if takes_steps(alloc, &mut fork, steps) {
        Some(fork)
    } else {
        None
    }
}

/// The fork of these targets after these steps.
pub fn fork_after(
    alloc: Global,
    rules: Rules,
    aims: &[Aim<'_>],
    steps: &[Step<'_>],
) -> Option<Context> {
    match fork(alloc, rules, aims) {
        Some(fork) => after(alloc, fork, steps),
        None => None,
    }
}

/// The listing of the fork of these targets after these steps.
pub fn listed(
    alloc: Global,
    rules: Rules,
    aims: &[Aim<'_>],
    steps: &[Step<'_>],
) -> Option<Vec<u8>> {
    match fork_after(alloc, rules, aims, steps) {
        Some(fork) => listing_of(alloc, &fork),
        None => None,
    }
}

/// Why a fork has no listing, if it has none, and whether the text is then empty as it was.
fn refusal_of(alloc: Global, fork: &Context) -> (Option<ListFault>, bool) {
    let mut out = Vec::new(alloc);
    match listing(fork, &mut out) {
        Ok(()) => (None, out.is_empty()),
        Err(fault) => (Some(fault), out.is_empty()),
    }
}

/// The same of the fork of these targets after these steps.
pub fn refusal(alloc: Global, aims: &[Aim<'_>], steps: &[Step<'_>]) -> (Option<ListFault>, bool) {
    match fork_after(alloc, Rules::usual(), aims, steps) {
        Some(fork) => refusal_of(alloc, &fork),
        None => (None, false),
    }
}

/// Some step, of a branch that may be there.
fn some_step(seed: &mut u64) -> Step<'static> {
    let n = next(seed, 8);
    match next(seed, 9) {
        0 => Step::Rings(n),
        1 => Step::Redirects(n, &["d", "e", "a"]),
        2 => Step::Redirects(n, &["f"]),
        3 => Step::TimesOut(n),
        4 => Step::Fails(n),
        5 => Step::GivesUp(n),
        6 => Step::Answers(n, 300u16.wrapping_add(next(seed, 400))),
        7 if next(seed, 4) == 0 => Step::Cancel,
        _ => Step::Answers(n, 404),
    }
}

/// Lets twelve steps happen that are drawn; whether each was taken.
fn takes_some(alloc: Global, fork: &mut Context, seed: &mut u64) -> bool {
    for _ in 0..12u32 {
        if !takes(fork, event(alloc, some_step(seed))) {
            return false;
        }
    }
    true
}

/// Ends each branch that is left; whether each end was taken.
fn takes_the_end(fork: &mut Context) -> bool {
    for k in 0..144u16 {
        if !takes(fork, Some(Event::Timeout(k % 16))) {
            return false;
        }
    }
    true
}

/// The fork of three targets at drawn q.
fn some_fork(alloc: Global, seed: &mut u64) -> Option<Context> {
    let depth = next(seed, 3);
    let aims = [
        ("a", next(seed, 3)),
        ("b", next(seed, 3)),
        ("c", next(seed, 3)),
    ];
    match Rules::of(Preferred::usual(), depth) {
        Some(rules) => fork(alloc, rules, &aims),
        None => None,
    }
}

/// The listing of a fork that is finished by drawn steps.
fn listing_at_last(alloc: Global, fork: &mut Context, seed: &mut u64) -> Option<Vec<u8>> {
    if takes_some(alloc, fork, seed) && takes_the_end(fork) {
        listing_of(alloc, fork)
    } else {
        None
    }
}

/// The listing of some finished fork.
pub fn some_listing(alloc: Global, seed: &mut u64) -> Option<Vec<u8>> {
    match some_fork(alloc, seed) {
        Some(mut fork) => listing_at_last(alloc, &mut fork, seed),
        None => None,
    }
}
