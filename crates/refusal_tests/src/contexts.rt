//! Contexts that are made, and events that they take, while memory is refused.
use crate::answers::{Judge, answered, discard, judged};
use crate::forks::{Aims, EventList, events, targets};
use crate::plays::{calls, plays};
use crate::sources::Alloc;
use crate::texts::{
    BEST_LISTING, BEST_SCRIPT, CHALLENGED_LISTING, CHALLENGED_SCRIPT, LATE_LISTING, LATE_SCRIPT,
    MOVED_TWICE, REDIRECTED_LISTING, REDIRECTED_SCRIPT,
};
use failing_allocator::{Attempt, Heap, Play, Repeated, Stateless};
use fork_context::{Challenge, Choice, Context, Event, Kind, NewFault, PostError, Reply, Up};
use fork_listing::{ListFault, listing};
use fork_rank::Rules;
use std::mem;

/// A context of an INVITE, or why there is none.
type Made<'a> = Result<Context<Alloc<'a>>, Attempt>;

/// A context of an INVITE to these targets is made.
fn opened(heap: Heap<'_>, aims: Aims) -> Made<'_> {
    let targets = targets(heap.ample, aims);
    let made = Context::new(heap.scarce, Kind::Invite, Rules::usual(), targets);
    answered(made, NewFault::NoMemory)
}

/// A context of an INVITE to these targets.
#[derive(Clone, Copy)]
struct Opening {
    aims: Aims,
}

impl<'a> Judge<'a, Context<Alloc<'a>>> for Opening {
    fn is_right(&self, _heap: Heap<'a>, fork: &Context<Alloc<'a>>) -> bool {
        fork.count() == u16::from(self.aims.count)
    }
}

impl Stateless for Opening {
    fn answer(&self, heap: Heap<'_>) -> Attempt {
        judged(heap, self, opened(heap, self.aims), Attempt::NoMemory)
    }
}

/// What a reply is to say: the rows that are started, and what goes up. None cancels a row.
type Turn = (&'static [u16], Up);

fn is_right(reply: &Reply<Alloc<'_>>, (started, up): Turn) -> bool {
    reply.started() == started && reply.cancelled().is_empty() && reply.up() == up
}

/// What is done with a context.
#[derive(Clone, Copy)]
enum Deed {
    /// The event is posted, and replied to so; where it is refused it is handed back, and posted again.
    Posts(Turn),
    /// The challenges of the choice are appended, so many; where that is refused, there are none yet.
    Challenges(usize),
    /// The listing is appended, and is this; where it is refused, the text is still empty.
    Lists(&'static [u8]),
}

fn posts<'a>(
    fork: &mut Context<Alloc<'a>>,
    event: &mut Option<Event<Alloc<'a>>>,
    turn: Turn,
) -> Attempt {
    let Some(posted) = event.take() else {
        return Attempt::Wrong;
    };
    match fork.post(posted) {
        Ok(reply) => {
            let answer = Attempt::of(is_right(&reply, turn));
            discard(reply);
            answer
        }
        Err(PostError::NoMemory(posted)) => {
            discard(mem::replace(event, Some(posted)));
            Attempt::NoMemory
        }
        Err(PostError::Full(posted)) => {
            discard(posted);
            Attempt::Wrong
        }
    }
}

/// Challenges, where they take their memory.
type ChallengeList<'a> = Vec<Challenge<Alloc<'a>>, Alloc<'a>>;

fn adds_challenges<'a>(
    fork: &Context<Alloc<'a>>,
    challenges: &mut ChallengeList<'a>,
    count: usize,
) -> Attempt {
    if fork.challenges(challenges).is_ok() {
        Attempt::of(challenges.len() == count)
    } else {
        Attempt::failed(challenges.is_empty())
    }
}

fn lists<'a>(
    fork: &Context<Alloc<'a>>,
    text: &mut Vec<u8, Alloc<'a>>,
    wanted: &'static [u8],
) -> Attempt {
    match listing(fork, text) {
        Ok(()) => Attempt::of(text.as_slice() == wanted),
        Err(fault) => Attempt::failed(fault == ListFault::NoMemory && text.is_empty()),
    }
}

/// A context, the events that come to it, that which is posted, and what was appended.
#[derive(Drop)]
struct Forked<'a> {
    fork: Context<Alloc<'a>>,
    events: EventList<'a>,
    event: Option<Event<Alloc<'a>>>,
    challenges: ChallengeList<'a>,
    text: Vec<u8, Alloc<'a>>,
    deed: Deed,
}

impl Repeated for Forked<'_> {
    fn attempt(&mut self) -> Attempt {
        match self.deed {
            Deed::Posts(turn) => posts(&mut self.fork, &mut self.event, turn),
            Deed::Challenges(count) => adds_challenges(&self.fork, &mut self.challenges, count),
            Deed::Lists(wanted) => lists(&self.fork, &mut self.text, wanted),
        }
    }
}

/// Whether this is done as it should.
fn goes(heap: Heap<'_>, forked: &mut Forked<'_>, deed: Deed) -> bool {
    forked.deed = deed;
    heap.insist(forked)
}

/// Whether the next event is replied to so.
fn replies(heap: Heap<'_>, forked: &mut Forked<'_>, turn: Turn) -> bool {
    let event = forked.events.pop_front();
    discard(mem::replace(&mut forked.event, event));
    goes(heap, forked, Deed::Posts(turn))
}

/// What holds of a fork at its end.
#[derive(Clone, Copy)]
enum End {
    /// So many challenges are added, and its listing is this.
    Listed(usize, &'static [u8]),
    /// It has as many targets as it can have, and row 0 leaves a contact of this text alone.
    Full(&'static [u8]),
}

/// A fork: its targets, the script whose events come to it, the replies to these, and its end.
#[derive(Clone, Copy)]
struct History {
    aims: Aims,
    script: &'static [u8],
    turns: &'static [Turn],
    end: End,
}

/// Whether row 0 leaves a contact of this text alone.
fn leaves(fork: &Context<Alloc<'_>>, text: &[u8]) -> bool {
    match fork.left(0) {
        Some([offer]) => offer.text() == text,
        _ => false,
    }
}

/// Whether each event is replied to as it should.
fn all_reply(heap: Heap<'_>, forked: &mut Forked<'_>, turns: &[Turn]) -> bool {
    let mut well = true;
    for turn in turns {
        well = well && replies(heap, forked, *turn);
    }
    well
}

/// Whether it ends so.
fn ends(heap: Heap<'_>, forked: &mut Forked<'_>, end: End) -> bool {
    match end {
        End::Listed(challenges, listing) => {
            goes(heap, forked, Deed::Challenges(challenges))
                && goes(heap, forked, Deed::Lists(listing))
        }
        End::Full(text) => forked.fork.count() == 256 && leaves(&forked.fork, text),
    }
}

/// Whether the whole goes as it should.
fn goes_on<'a>(heap: Heap<'a>, fork: Context<Alloc<'a>>, history: &History) -> bool {
    let mut forked = Forked {
        fork,
        events: events(heap.ample, history.script),
        event: None,
        challenges: Vec::new(heap.scarce),
        text: Vec::new(heap.scarce),
        deed: Deed::Challenges(0),
    };
    let well = all_reply(heap, &mut forked, history.turns) && ends(heap, &mut forked, history.end);
    discard(forked);
    well
}

impl Play for History {
    fn play(&self, heap: Heap<'_>) -> bool {
        // (no growth is refused or counted before there is a context)
        heap.scarce.pause();
        let fork = opened(heap, self.aims);
        heap.scarce.go_on();
        match fork {
            Ok(fork) => goes_on(heap, fork, self),
            Err(_) => false,
        }
    }
}

/// Targets of forks.
const ONE: Aims = Aims {
    count: 1,
    is_last_later: false,
};

const TWO: Aims = Aims {
    count: 2,
    is_last_later: true,
};

const THREE: Aims = Aims {
    count: 3,
    is_last_later: false,
};

const FOUR: Aims = Aims {
    count: 4,
    is_last_later: false,
};

const MANY: Aims = Aims {
    count: 255,
    is_last_later: false,
};

/// Four answers, the best of which is a 407.
const BEST: History = History {
    aims: FOUR,
    script: BEST_SCRIPT,
    turns: &[
        (&[], Up::Nothing),
        (&[], Up::Nothing),
        (&[], Up::Nothing),
        (&[], Up::Final(Choice::Stored(1))),
    ],
    end: End::Listed(0, BEST_LISTING),
};

/// A 486, and a 401 and a 407 with a challenge each.
const CHALLENGED: History = History {
    aims: THREE,
    script: CHALLENGED_SCRIPT,
    turns: &[
        (&[], Up::Nothing),
        (&[], Up::Nothing),
        (&[], Up::Final(Choice::Stored(1))),
    ],
    end: End::Listed(1, CHALLENGED_LISTING),
};

/// A 302 with two contacts, both of which are tried.
const REDIRECTED: History = History {
    aims: ONE,
    script: REDIRECTED_SCRIPT,
    turns: &[
        (&[1, 2], Up::Nothing),
        (&[], Up::Nothing),
        (&[], Up::Final(Choice::Stored(1))),
    ],
    end: End::Listed(0, REDIRECTED_LISTING),
};

/// A 302 with a contact, which is tried before the target of a lower q.
const LATE: History = History {
    aims: TWO,
    script: LATE_SCRIPT,
    turns: &[
        (&[2], Up::Nothing),
        (&[1], Up::Nothing),
        (&[], Up::Final(Choice::Stored(2))),
    ],
    end: End::Listed(0, LATE_LISTING),
};

/// A 302 with two contacts comes among 255 targets: one contact is the last that is taken, the other is left.
const FULL: History = History {
    aims: MANY,
    script: MOVED_TWICE,
    turns: &[(&[255], Up::Nothing)],
    end: End::Full(b"y1"),
};

/// Forks, and what each is called.
const HISTORIES: &[(History, &str)] = &[
    (BEST, "four answers"),
    (CHALLENGED, "a 401 and a 407"),
    (REDIRECTED, "a 302 with two contacts"),
    (LATE, "a 302 before a later target"),
    (FULL, "a 302 among 255 targets"),
];

const AIMS: &[Aims] = &[ONE, TWO, THREE, FOUR];

#[test]
fn contexts_are_made(rt: HostRuntime) {
    for aims in AIMS {
        calls(&rt, &Opening { aims: *aims }, 0, "a context");
    }
}

#[test]
fn answers_are_posted(rt: HostRuntime) {
    for (history, name) in HISTORIES {
        plays(&rt, history, 0, *name);
    }
}
