//! Workers post to one book in any order that the gate allows.
ghost use Rattle.std.specs.Prelude.{◌≡◌, IfOk, vec_len};

use crate::holds::holds;
use fork_book::Book;
use fork_context::{Answer, Choice, Event, Kind, NewFault, Target};
use fork_engine::{DriveFault, Gate, drive};
use fork_rank::{RingStatus, Rules, Status};
use std::process::Abort;
use std::sync::Wait;
use std::sync::atomic::{AtomicU64, Ordering};
use std::test::Fail;
use std::thread;
use std::thread::Threads;
use std::time::{Clock, Duration};

/// How many times a gate looks for what another worker does before it gives up.
const TURNS: u32 = 10_000;

/// A gate that holds nobody.
#[derive(Drop)]
struct Open;

impl Gate for Open {
    fn before(&self, _worker: u8, _place: u32) {}

    fn after(&self, _worker: u8, _place: u32) {}
}

/// A gate that holds all others until this worker has posted.
#[derive(Drop)]
struct First<R: Clock> {
    rt: R,
    first: u8,
    posted: AtomicU64,
}

/// Waits a bounded time until this is at least so much.
fn waits<R: Clock>(rt: &R, count: &AtomicU64, least: u64) -> bool {
    for _ in 0..TURNS {
        if count.load(Ordering::SeqCst) >= least {
            return true;
        }
        thread::sleep(rt, Duration::from_millis(1));
    }
    false
}

impl<R: Clock> Gate for First<R> {
    fn before(&self, worker: u8, _place: u32) {
        if worker != self.first {
            let _came = waits(&self.rt, &self.posted, 1);
        }
    }

    fn after(&self, worker: u8, _place: u32) {
        if worker == self.first {
            self.posted.store(1, Ordering::SeqCst);
        }
    }
}

/// A gate at which two workers wait until both have come.
#[derive(Drop)]
struct Both<R: Clock> {
    rt: R,
    came: AtomicU64,
    met: AtomicU64,
}

impl<R: Clock> Gate for Both<R> {
    fn before(&self, _worker: u8, _place: u32) {
        self.came.fetch_add(1, Ordering::SeqCst);
        if waits(&self.rt, &self.came, 2) {
            self.met.fetch_add(1, Ordering::SeqCst);
        }
    }

    fn after(&self, _worker: u8, _place: u32) {}
}

/// The gate that lets this worker post first.
fn gate_of(rt: &HostRuntime, first: u8) -> Result<First<HostRuntime>, Fail> {
    Ok(First {
        rt: rt.clone()?,
        first,
        posted: AtomicU64::new(0),
    })
}

/// A script of one answer without contacts.
fn script(rt: &HostRuntime, n: u16, code: u16) -> Result<Vec<Event>, Fail> {
    let status = Status::of(code).ok_or("no final status")?;
    let answer = Answer::new(status, Vec::new(rt.alloc()), Vec::new(rt.alloc()));
    let mut events = Vec::new(rt.alloc());
    events.push(Event::Answer(n, answer))?;
    Ok(events)
}

/// The first worker answers for the first target, the second for the other.
fn scripts(rt: &HostRuntime, codes: (u16, u16)) -> Result<Vec<Vec<Event>>, Fail>
    ensures { IfOk result (λ scripts. vec_len scripts ≡ 2) }
{
    let mut scripts = Vec::new(rt.alloc());
    scripts.push(script(rt, 0, codes.0)?)?;
    scripts.push(script(rt, 1, codes.1)?)?;
    Ok(scripts)
}

/// Two targets that are tried at once.
fn targets(rt: &HostRuntime) -> Result<Vec<Target>, Fail> {
    let mut targets = Vec::new(rt.alloc());
    for key in [b"a", b"b"] {
        targets.push(Target::new(key.to_vec(rt.alloc())?, 1000))?;
    }
    Ok(targets)
}

/// The book of two workers that answer so.
fn driven<R: Threads + Wait + Sync, G: Gate + Sync>(
    threads: &R,
    rt: &HostRuntime,
    codes: (u16, u16),
    gate: &G,
) -> Result<Book, Fail> {
    let targets = targets(rt)?;
    let scripts = scripts(rt, codes)?;
    match drive(
        threads,
        rt.alloc(),
        Kind::Invite,
        Rules::usual(),
        targets,
        scripts,
        gate,
    ) {
        Ok(book) => Ok(book),
        Err(_) => Err(Fail::from("no book")),
    }
}

/// Whether the two events came in this order.
fn came(book: &Book, first: u8, second: u8) -> bool {
    match book.history() {
        [one, two] => one.tag() == first && two.tag() == second,
        _ => false,
    }
}

/// Drives two workers that answer so, the first of `order` before the second, and looks at what is chosen.
fn chosen_so<R: Threads + Wait + Sync + Abort>(
    threads: &R,
    rt: &HostRuntime,
    codes: (u16, u16),
    order: (u8, u8),
    choice: Option<Choice>,
) -> Result<(), Fail> {
    let gate = gate_of(rt, order.0)?;
    let book = driven(threads, rt, codes, &gate)?;
    holds(threads, came(&book, order.0, order.1), "the gate's order");
    holds(threads, book.context().choice() == choice, "what is chosen");
    holds(
        threads,
        book.context().succeeded() == choice.is_none(),
        "whether a 2xx came",
    );
    Ok(())
}

#[test]
fn of_equal_answers_the_earlier_is_chosen(rt: HostRuntime) -> Result<(), Fail> {
    chosen_so(&rt, &rt, (404, 404), (0, 1), Some(Choice::Stored(0)))
}

#[test]
fn of_equal_answers_the_earlier_is_chosen_from_the_other(rt: HostRuntime) -> Result<(), Fail> {
    chosen_so(&rt, &rt, (404, 404), (1, 0), Some(Choice::Stored(1)))
}

#[test]
fn the_better_answer_is_chosen_where_it_comes_last(rt: HostRuntime) -> Result<(), Fail> {
    chosen_so(&rt, &rt, (404, 407), (0, 1), Some(Choice::Stored(1)))
}

#[test]
fn the_better_answer_is_chosen_where_it_comes_first(rt: HostRuntime) -> Result<(), Fail> {
    chosen_so(&rt, &rt, (404, 407), (1, 0), Some(Choice::Stored(1)))
}

#[test]
fn a_success_before_a_failure_leaves_no_choice(rt: HostRuntime) -> Result<(), Fail> {
    chosen_so(&rt, &rt, (200, 404), (0, 1), None)
}

#[test]
fn a_success_behind_a_failure_leaves_no_choice(rt: HostRuntime) -> Result<(), Fail> {
    chosen_so(&rt, &rt, (200, 404), (1, 0), None)
}

#[test]
fn either_order_may_come(rt: HostRuntime) -> Result<(), Fail> {
    let book = driven(&rt, &rt, (404, 404), &Open)?;
    let choice = book.context().choice();
    let zero = came(&book, 0, 1) && choice == Some(Choice::Stored(0));
    let one = came(&book, 1, 0) && choice == Some(Choice::Stored(1));
    holds(&rt, zero || one, "the earlier answer of either order");
    Ok(())
}

#[test]
fn two_workers_are_at_the_gate_at_once(rt: HostRuntime) -> Result<(), Fail> {
    let gate = Both {
        rt: rt.clone()?,
        came: AtomicU64::new(0),
        met: AtomicU64::new(0),
    };
    let book = driven(&rt, &rt, (404, 404), &gate)?;
    holds(&rt, book.history().len() == 2, "both posted");
    holds(
        &rt,
        gate.met.load(Ordering::SeqCst) == 2,
        "each saw the other come",
    );
    Ok(())
}

#[test]
fn targets_are_asked_for(rt: HostRuntime) -> Result<(), Fail> {
    let scripts = scripts(&rt, (404, 404))?;
    let none = Vec::new(rt.alloc());
    let fault = drive(
        &rt,
        rt.alloc(),
        Kind::Invite,
        Rules::usual(),
        none,
        scripts,
        &Open,
    );
    let is_none = matches!(fault, Err(DriveFault::New(NewFault::NoTargets)));
    holds(&rt, is_none, "there is no target");
    Ok(())
}

/// A script that rings the first target so many times.
fn rings(rt: &HostRuntime, count: u32) -> Result<Vec<Event>, Fail> {
    let mut events = Vec::new(rt.alloc());
    for _ in 0..count {
        let status = RingStatus::of(180).ok_or("no provisional status")?;
        events.push(Event::Ring(0, status))?;
    }
    Ok(events)
}

/// Two workers that ring so often.
fn ringing(rt: &HostRuntime, counts: (u32, u32)) -> Result<Vec<Vec<Event>>, Fail>
    ensures { IfOk result (λ scripts. vec_len scripts ≡ 2) }
{
    let mut scripts = Vec::new(rt.alloc());
    scripts.push(rings(rt, counts.0)?)?;
    scripts.push(rings(rt, counts.1)?)?;
    Ok(scripts)
}

#[test]
fn one_event_too_many_is_refused(rt: HostRuntime) -> Result<(), Fail> {
    for (count, is_full) in [(96u32, false), (97, true)] {
        let scripts = ringing(&rt, (4000, count))?;
        let targets = targets(&rt)?;
        let driven = drive(
            &rt,
            rt.alloc(),
            Kind::Invite,
            Rules::usual(),
            targets,
            scripts,
            &Open,
        );
        holds(
            &rt,
            matches!(driven, Err(DriveFault::Full)) == is_full,
            "full from 4,097 on",
        );
        holds(&rt, driven.is_ok() != is_full, "else there is a book");
    }
    Ok(())
}
