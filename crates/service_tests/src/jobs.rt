//! Jobs reach a worker that sleeps, in order, and a full inbox hands them back.
use crate::holds::holds;
use call_table::{Inbox, MOST_JOBS};
use serve_command::{JobReceiver, JobSender, Waker};
use std::sync::Wait;
use std::test::Fail;
use std::thread::join;

/// What is given to a worker.
#[derive(Drop)]
enum Job {
    Tick(u64),
    Finish,
}

/// How many jobs go each way.
const ROUNDS: u64 = 10_000;

/// Gives the other one a job for each that comes, and says how many came in order.
fn play<R: Wait>(
    rt: &R,
    mut sender: JobSender<'_, Job>,
    mut receiver: JobReceiver<'_, Job>,
    begins: bool,
) -> u64 {
    let mut came = 0u64;
    if begins {
        let _ = sender.give(rt, Job::Tick(0));
    }
    for round in 0..ROUNDS {
        if let Job::Tick(at) = receiver.receive(rt) {
            if at == round {
                came = came.wrapping_add(1);
            }
        }
        let answer = if begins { round.wrapping_add(1) } else { round };
        let _ = sender.give(rt, Job::Tick(answer));
    }
    came
}

// A wake-up that is lost would hang this.
#[test]
fn no_wake_up_is_lost(rt: HostRuntime) -> Result<(), Fail> {
    let (left, right) = (Waker::new(), Waker::new());
    let (to_left, at_left) = Inbox::new(rt.alloc())?;
    let (to_right, at_right) = Inbox::new(rt.alloc())?;
    let (one, two) = (
        JobSender::new(to_right, &right),
        JobReceiver::new(at_left, &left),
    );
    let (three, four) = (
        JobSender::new(to_left, &left),
        JobReceiver::new(at_right, &right),
    );
    let (came, went) = join(
        &rt,
        || play(&rt, one, two, true),
        || play(&rt, three, four, false),
    );
    holds(&rt, came == ROUNDS, "each job comes to the one");
    holds(&rt, went == ROUNDS, "each job comes to the other");
    Ok(())
}

/// Gives ticks until one is refused, and says how many were taken.
fn fill<R: Wait>(rt: &R, sender: &mut JobSender<'_, Job>) -> u64 {
    for number in 0..1_000u64 {
        if sender.give(rt, Job::Tick(number)).is_err() {
            return number;
        }
    }
    1_000
}

/// Whether the next job is this tick.
fn ticks<R: Wait>(rt: &R, receiver: &mut JobReceiver<'_, Job>, now: u64) -> bool {
    matches!(receiver.receive(rt), Job::Tick(at) if at == now)
}

#[test]
fn the_end_waits_for_room(rt: HostRuntime) -> Result<(), Fail> {
    let waker = Waker::new();
    let (giving, receiving) = Inbox::new(rt.alloc())?;
    let mut sender = JobSender::new(giving, &waker);
    let mut receiver = JobReceiver::new(receiving, &waker);
    let taken = fill(&rt, &mut sender);
    holds(&rt, taken == MOST_JOBS as u64, "64 jobs are taken");
    sender.make_room(&rt);
    holds(
        &rt,
        sender.give(&rt, Job::Tick(9)).is_err(),
        "nobody made room",
    );
    holds(&rt, ticks(&rt, &mut receiver, 0), "the first comes first");
    sender.finish(&rt, Job::Finish);
    holds(&rt, ticks(&rt, &mut receiver, 1), "then the second");
    Ok(())
}

// A job is done once the worker asks for the next one.
#[test]
fn a_job_is_done_once_the_next_is_asked_for(rt: HostRuntime) -> Result<(), Fail> {
    let waker = Waker::new();
    let (giving, receiving) = Inbox::new(rt.alloc())?;
    let mut sender = JobSender::new(giving, &waker);
    let mut receiver = JobReceiver::new(receiving, &waker);
    let given = sender.give(&rt, Job::Tick(0)).is_ok() && sender.give(&rt, Job::Finish).is_ok();
    holds(&rt, given && sender.last() == 2, "two jobs were given");
    holds(&rt, ticks(&rt, &mut receiver, 0), "the first comes");
    holds(&rt, sender.held() == 1, "one is left");
    holds(&rt, !sender.has_done(1), "the first is in work");
    let ended = matches!(receiver.receive(&rt), Job::Finish);
    holds(&rt, ended && sender.has_done(1), "the first is done");
    holds(&rt, !sender.has_done(2), "the second is in work");
    Ok(())
}

/// Gives this tick and those after it up to `ROUNDS`, each once there is room, then the end job. Says how many were refused.
fn give_all<R: Wait>(rt: &R, mut sender: JobSender<'_, Job>, first: u64) -> u64 {
    let mut refused = 0u64;
    for number in first..ROUNDS {
        sender.make_room(rt);
        if sender.give(rt, Job::Tick(number)).is_err() {
            refused = refused.wrapping_add(1);
        }
    }
    sender.finish(rt, Job::Finish);
    refused
}

/// Receives until the end job, and says how many ticks came in order.
fn take_all<R: Wait>(rt: &R, mut receiver: JobReceiver<'_, Job>) -> u64 {
    let mut came = 0u64;
    for _ in rt.forever() {
        match receiver.receive(rt) {
            Job::Tick(at) if at == came => came = came.wrapping_add(1),
            Job::Finish => return came,
            _ => {}
        }
    }
    unreachable!()
}

// The inbox is full as the two begin.
#[test]
fn who_waits_for_room_goes_on(rt: HostRuntime) -> Result<(), Fail> {
    let waker = Waker::new();
    let (giving, receiving) = Inbox::new(rt.alloc())?;
    let mut sender = JobSender::new(giving, &waker);
    let receiver = JobReceiver::new(receiving, &waker);
    let taken = fill(&rt, &mut sender);
    let (refused, came) = join(
        &rt,
        || give_all(&rt, sender, taken),
        || take_all(&rt, receiver),
    );
    holds(&rt, refused == 0, "no job is refused");
    holds(&rt, came == ROUNDS, "each job comes in order");
    Ok(())
}
