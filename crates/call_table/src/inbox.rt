//! A queue of jobs between two threads: what is received was given, each job once, in order.
ghost use Rattle.std.specs.Prelude.{◌≡◌, true, List, [], ◌∷◌, ◌++◌, IfOk, IfErr, OnOk, OnErr, IfSome, IfNone};
ghost use Rattle.call_table.specs.Inbox.{known, AreNewEnds, IsInOrder};

use crossbeam_channel::protocol::{Join, Lesson, Outcome, Protocol, Split};
use crossbeam_channel::{Pass, RuledReceiver, RuledSender, bounded_with};
use std::alloc::{AllocError, Allocator, Global};
use std::collections::LinkedList;
use std::marker::Model;
use std::sync::Wait;

/// How many jobs an inbox holds at most.
pub const MOST_JOBS: usize = 64;

/// What a pass may do, and what it knows of what was given and received. No value of it is made.
pub struct Known<J> {
    pub gives: bool,
    pub receives: bool,
    pub given: LinkedList<J>,
    pub received: LinkedList<J>,
}

/// The queue of a worker: at most 64 jobs, with one end that gives and one that receives. It is the rule that both ends keep
/// to, and has no value of its own.
pub struct Inbox;

impl<J> Protocol<J, Known<J>> for Inbox {
    ghost use Rattle.std.specs.Prelude.{true, []};
    ghost use Rattle.call_table.specs.Inbox.{known, IsInOrder};

    ghost holds = { IsInOrder };

    ghost first = { known true true [] [] };
}

/// The first pass is cut in two: one that gives and one that receives.
struct InboxEnds;

impl<J> Split<Known<J>> for InboxEnds {
    ghost use Rattle.std.specs.Prelude.{true, false, []};
    ghost use Rattle.call_table.specs.Inbox.{known};

    ghost left = { λ v. known true false v.given [] };

    ghost right = { λ v. known false true [] v.received };
}

impl<J> Join<Known<J>> for InboxEnds {
    ghost use Rattle.std.specs.Prelude.{true, false, []};
    ghost use Rattle.call_table.specs.Inbox.{known};

    ghost both = { λ v w. known true true v.given w.received };

    ghost spent = { known false false [] [] };
}

/// A job is given.
struct Gives;

impl<J> Outcome<J, Known<J>> for Gives {
    ghost use Rattle.std.specs.Prelude.{◌≡◌, [], ◌∷◌, ◌++◌};
    ghost use Rattle.call_table.specs.Inbox.{known};

    ghost then = { λ v x w. w ≡ known v.gives v.receives (v.given ++ x ∷ []) v.received };
}

impl<J> Lesson<J, Known<J>> for Gives {
    ghost fact = { λ v items. Unit {0} };
}

/// A job is received. Where the pass may give, too, it is the next of what was given; where none is received, all was.
struct Receives;

impl<J> Outcome<J, Known<J>> for Receives {
    ghost use Rattle.std.specs.Prelude.{◌≡◌, true, List, [], ◌∷◌, ◌++◌};
    ghost use Rattle.call_table.specs.Inbox.{known};

    ghost then = { λ v x w. (w ≡ known v.gives v.receives v.given (v.received ++ x ∷ [])) × (v.gives ≡ true → (rest : List J) × (v.given ≡ v.received ++ x ∷ rest)) };
}

impl<J> Lesson<J, Known<J>> for Receives {
    ghost use Rattle.std.specs.Prelude.{◌≡◌, true, ◌++◌};

    ghost fact = { λ v items. v.gives ≡ true → v.receives ≡ true → v.given ≡ v.received ++ items };
}

/// The end of an inbox that gives.
#[derive(Drop)]
pub struct InboxIn<J: Drop, A: Allocator = Global> {
    sender: RuledSender<J, Known<J>, Inbox, A>,
    pass: Pass<J, Known<J>>,
}

impl<J: Drop, A: Allocator> Model for InboxIn<J, A> {
    ghost use Rattle.std.specs.Prelude.{◌≡◌, true};
    ghost use Rattle.crossbeam_channel.specs.Claims.{view as known, IsSeatAt};
    ghost use Rattle.crossbeam_channel.specs.Ends.{sends_on};
    ghost use Rattle.call_table.specs.Inbox.{Giving};

    ghost Value = { Giving J };

    ghost view = { λ i. record { queue = record { table = i.pass.table_id; key = i.pass.me.0.of }; given = (known i.pass).given } };

    ghost invariant = { λ i. IsSeatAt (sends_on i.sender) i.pass × ((known i.pass).gives ≡ true) };
}

/// The end of an inbox that receives.
#[derive(Drop)]
pub struct InboxOut<J: Drop, A: Allocator = Global> {
    receiver: RuledReceiver<J, Known<J>, Inbox, A>,
    pass: Pass<J, Known<J>>,
}

impl<J: Drop, A: Allocator> Model for InboxOut<J, A> {
    ghost use Rattle.std.specs.Prelude.{◌≡◌, true};
    ghost use Rattle.crossbeam_channel.specs.Claims.{view as known, IsSeatAt};
    ghost use Rattle.crossbeam_channel.specs.Ends.{receives_on};
    ghost use Rattle.call_table.specs.Inbox.{Receiving};

    ghost Value = { Receiving J };

    ghost view = { λ o. record { queue = record { table = o.pass.table_id; key = o.pass.me.0.of }; received = (known o.pass).received; joined = (known o.pass).gives; given = (known o.pass).given } };

    ghost invariant = { λ o. IsSeatAt (receives_on o.receiver) o.pass × ((known o.pass).receives ≡ true) };
}

impl Inbox {
    /// The two ends of an inbox that holds nothing.
    ///
    /// # Errors
    ///
    /// Only where the allocator refuses.
    pub fn new<J: Drop, A: Allocator + Clone>(
        alloc: A,
    ) -> Result<(InboxIn<J, A>, InboxOut<J, A>), AllocError>
        ensures { IfOk result (λ ends. AreNewEnds ends.0 ends.1) }
    {
        let (sender, receiver, mut giving) = bounded_with::<J, Known<J>, Inbox, A>(
            alloc, MOST_JOBS,
        )?;
        let receiving = sender.another::<InboxEnds>(&mut giving);
        Ok((
            InboxIn {
                sender,
                pass: giving,
            },
            InboxOut {
                receiver,
                pass: receiving,
            },
        ))
    }
}

impl<J: Drop, A: Allocator> InboxIn<J, A> {
    /// Gives a job. The call takes no memory.
    ///
    /// # Errors
    ///
    /// The job, where 64 were held at some moment of the call, or the receiving end is gone.
    pub fn give<R: Wait>(&mut self, rt: &R, job: J) -> Result<(), J>
        ensures queue { self.new.queue ≡ self.old.queue }
        ensures ok { OnOk result (self.new.given ≡ self.old.given ++ job ∷ []) }
        ensures back { IfErr result (λ back. back ≡ job) }
        ensures err { OnErr result (self.new.given ≡ self.old.given) }
    {
        match self.sender.try_send_as::<Gives, R>(rt, &mut self.pass, job) {
            Ok(()) => Ok(()),
            Err(refused) => Err(refused.into_inner()),
        }
    }
}

impl<J: Drop, A: Allocator> InboxOut<J, A> {
    /// The job at the front. The call waits for no job: None where none was held at some moment of the call.
    pub fn receive<R: Wait>(&mut self, rt: &R) -> Option<J>
        ensures same { (self.new.queue ≡ self.old.queue) × (self.new.joined ≡ self.old.joined) × (self.new.given ≡ self.old.given) }
        ensures some { IfSome result (λ job. self.new.received ≡ self.old.received ++ job ∷ []) }
        ensures next { IfSome result (λ job. self.old.joined ≡ true → (rest : List J) × (self.old.given ≡ self.old.received ++ job ∷ rest)) }
        ensures none { IfNone result (self.new.received ≡ self.old.received) }
        ensures all { IfNone result (self.old.joined ≡ true → self.old.given ≡ self.old.received) }
    {
        self.receiver
            .try_recv_as::<Receives, R>(rt, &mut self.pass)
            .ok()
    }

    /// Joins the giving end of the same inbox to this one: from now on it knows what was given, and what it received is the
    /// front of it.
    pub fn join(self, other: InboxIn<J, A>) -> InboxOut<J, A>
        requires one { self.queue ≡ other.queue }
        ensures same { (result.queue ≡ self.queue) × (result.received ≡ self.received) }
        ensures joined { (result.joined ≡ true) × (result.given ≡ other.given) }
        ensures order { (held : List J) × (result.given ≡ result.received ++ held) }
    {
        let InboxIn {
            sender,
            pass: mut giving,
        } = other;
        let InboxOut { receiver, pass } = self;
        sender.absorb::<InboxEnds>(&mut giving, pass);
        sender.learn_as::<Receives>(&mut giving);
        InboxOut {
            receiver,
            pass: giving,
        }
    }
}
