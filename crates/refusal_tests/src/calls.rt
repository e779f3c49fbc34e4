//! Whole calls, each of whose steps is made again until it meets no refusal.
use crate::answers::{Judge, answered, discard, judged};
use crate::plays::{calls, plays};
use crate::port::Comparing;
use crate::sources::{Alloc, read};
use call_messages::five_targets::FORK_SETUP;
use call_messages::histories::{CANCELLED, FAILING, Moment, Turn};
use call_messages::one_target::{
    ACK_SENT, CALLER, CANCEL, CANCEL_OK, CANCEL_SENT, FAULT_UP, INVITE, INVITE_SENT, OPTIONS,
    OPTIONS_FAULT_UP, OPTIONS_NOT_FOUND, OPTIONS_NOT_FOUND_UP, OPTIONS_SENT, RINGING, RINGING_UP,
    SETUP, TARGET, TERMINATED, TERMINATED_UP, TRYING,
};
use call_messages::{Sent, is_sent};
use failing_allocator::{Attempt, Heap, Play, Repeated, Stateless};
use fork_call::{
    Call, Cause, RequestRejection, Setup, SetupFault, Step, TakeFault, Taken, carry, is_openable,
};
use fork_context::Event;
use sip_text::Message;
use sip_uri::Hop;
use std::process::Abort;

/// What a configuration says, or why that is not known.
pub fn set_up<'a>(alloc: Alloc<'a>, text: &[u8]) -> Result<Setup<Alloc<'a>>, Attempt> {
    answered(Setup::read(alloc, text), SetupFault::NoMemory)
}

/// A configuration is read.
#[derive(Clone, Copy)]
struct SettingUp {
    text: &'static [u8],
}

impl<'a> Judge<'a, Setup<Alloc<'a>>> for SettingUp {
    fn is_right(&self, _heap: Heap<'a>, setup: &Setup<Alloc<'a>>) -> bool {
        setup.instance() == 7
    }
}

impl Stateless for SettingUp {
    fn answer(&self, heap: Heap<'_>) -> Attempt {
        let setup = Setup::read(heap.scarce, self.text);
        judged(heap, self, setup, SetupFault::NoMemory)
    }
}

/// A call is opened as number 3.
#[derive(Clone, Copy)]
struct Opening {
    setup: &'static [u8],
    request: &'static [u8],
}

/// A call, or why there is none.
type Opened<'a> = Result<Call<Alloc<'a>>, Attempt>;

/// The call that this request opens.
fn opened_by<'a>(
    heap: Heap<'a>,
    setup: &Setup<Alloc<'a>>,
    request: Message<Alloc<'a>>,
) -> Opened<'a> {
    if !is_openable(&request) {
        return Err(Attempt::Wrong);
    }
    let call = Call::open(heap.scarce, setup, 3, request, CALLER, 0);
    answered(call, RequestRejection::NoMemory)
}

/// The call that is opened with this configuration.
fn opened_with<'a>(heap: Heap<'a>, setup: &Setup<Alloc<'a>>, opening: Opening) -> Opened<'a> {
    match read(heap.ample, opening.request) {
        Ok(request) => opened_by(heap, setup, request),
        Err(_) => Err(Attempt::Wrong),
    }
}

/// The call that is opened so.
fn opened(heap: Heap<'_>, opening: Opening) -> Opened<'_> {
    let setup = set_up(heap.ample, opening.setup);
    let opened = match &setup {
        Ok(setup) => opened_with(heap, setup, opening),
        Err(_) => Err(Attempt::Wrong),
    };
    discard(setup);
    opened
}

impl<'a> Judge<'a, Call<Alloc<'a>>> for Opening {
    fn is_right(&self, _heap: Heap<'a>, call: &Call<Alloc<'a>>) -> bool {
        call.number() == 3
    }
}

impl Stateless for Opening {
    fn answer(&self, heap: Heap<'_>) -> Attempt {
        judged(heap, self, opened(heap, *self), Attempt::NoMemory)
    }
}

fn sends(step: &Step<Alloc<'_>>, wanted: &Sent) -> bool {
    match step {
        Step::Send(datagram) => is_sent(datagram, wanted),
        Step::Did | Step::Idle => false,
    }
}

/// The message comes: whether it is taken so.
fn is_taken<'a>(
    call: &mut Call<Alloc<'a>>,
    message: Message<Alloc<'a>>,
    from: Hop,
    now: u64,
    wanted: Result<Taken, TakeFault>,
) -> Attempt {
    match call.take(message, from, now) {
        Err(TakeFault::NoMemory) => Attempt::NoMemory,
        taken => Attempt::of(taken == wanted),
    }
}

/// Whether a step does what the turn says.
fn is_right(call: &Call<Alloc<'_>>, step: &Step<Alloc<'_>>, turn: Turn) -> bool {
    match turn {
        Turn::Sends(wanted) => sends(step, wanted),
        Turn::Does => matches!(step, Step::Did),
        Turn::Waits(due) => {
            matches!(step, Step::Idle) && call.due() == due && call.over() == due.is_none()
        }
        _ => false,
    }
}

/// The branch whose request was lost, as the book says.
fn faulted(call: &Call<Alloc<'_>>) -> Option<u16> {
    for posted in call.book().history() {
        if let Event::Fault(n) = posted.event() {
            return Some(*n);
        }
    }
    None
}

/// A turn of a call.
#[derive(Drop)]
pub struct Playing<'a> {
    pub heap: Heap<'a>,
    pub call: Call<Alloc<'a>>,
    pub port: Comparing,
    pub now: u64,
    pub turn: Turn,
}

impl Playing<'_> {
    /// The message of this text comes: whether it is taken so.
    fn takes(&mut self, from: Hop, text: &[u8], wanted: Result<Taken, TakeFault>) -> Attempt {
        match read(self.heap.ample, text) {
            Ok(message) => is_taken(&mut self.call, message, from, self.now, wanted),
            Err(_) => Attempt::Wrong,
        }
    }

    /// What becomes of a message of this branch: it is posted, as the next event, or changes nothing where the request of
    /// the branch was lost.
    fn taken_of(&self, branch: Option<u16>) -> Taken {
        if branch.is_some() && branch == self.port.lost_branch() {
            Taken::Absorbed
        } else {
            Taken::Posted(u32::try_from(self.call.book().history().len()).unwrap_or(u32::MAX))
        }
    }

    /// The next thing that is due: whether it is what the turn says.
    fn pumps(&mut self) -> Attempt {
        match self.call.pump(self.now) {
            Ok(step) => Attempt::of(is_right(&self.call, &step, self.turn)),
            Err(_) => Attempt::NoMemory,
        }
    }

    /// A datagram of this cause could not be sent.
    fn fails(&mut self, cause: Cause) -> Attempt {
        if self.call.failed(cause, self.now).is_ok() {
            Attempt::Right
        } else {
            Attempt::NoMemory
        }
    }

    /// The call is carried: whether what it was to send was sent, and its book says what was lost.
    fn carries(&mut self) -> Attempt {
        self.port.begins(faulted(&self.call));
        match carry(&mut self.call, &mut self.port, self.now) {
            Ok(carried) => {
                let is_done = self.port.is_done(carried);
                Attempt::of(is_done && faulted(&self.call) == self.port.lost_branch())
            }
            Err(_) => Attempt::NoMemory,
        }
    }
}

impl Repeated for Playing<'_> {
    fn attempt(&mut self) -> Attempt {
        match self.turn {
            Turn::Takes(from, text, wanted) => self.takes(from, text, wanted),
            Turn::Fails(cause) => self.fails(cause),
            Turn::Comes(branch, from, text) => {
                let wanted = Ok(self.taken_of(branch));
                self.takes(from, text, wanted)
            }
            Turn::Carries(_) => self.carries(),
            _ => self.pumps(),
        }
    }
}

/// Goes on to what happens at a moment: whether that goes as it should.
fn goes_at(playing: &mut Playing<'_>, (now, turn): Moment) -> bool {
    let heap = playing.heap;
    playing.now = now;
    playing.turn = turn;
    if let Turn::Carries(count) = turn {
        playing.port.wants(count);
    }
    heap.insist(playing)
}

/// A call: what it is set up with, the request that opens it, and what happens then.
#[derive(Clone, Copy)]
pub struct History {
    pub setup: &'static [u8],
    pub request: &'static [u8],
    pub moments: &'static [Moment],
    /// Where what it is to send begins where it is carried.
    pub begins: usize,
    /// The number of the send that fails then, from 1 on; 0 where none does.
    pub fails: u64,
}

/// Whether each turn goes as it should.
fn all_go(playing: &mut Playing<'_>, moments: &[Moment]) -> bool {
    let mut well = true;
    for moment in moments {
        well = well && goes_at(playing, *moment);
    }
    well
}

/// Whether the whole call goes as it should.
fn goes_on<'a>(heap: Heap<'a>, call: Call<Alloc<'a>>, history: &History) -> bool {
    let mut playing = Playing {
        heap,
        call,
        port: Comparing::new(history.begins, history.fails),
        now: 0,
        turn: Turn::Does,
    };
    let well = all_go(&mut playing, history.moments);
    discard(playing);
    well
}

impl Play for History {
    fn play(&self, heap: Heap<'_>) -> bool {
        let opening = Opening {
            setup: self.setup,
            request: self.request,
        };
        // (no growth is refused or counted before the call is open)
        heap.scarce.pause();
        let call = opened(heap, opening);
        heap.scarce.go_on();
        match call {
            Ok(call) => goes_on(heap, call, self),
            Err(_) => false,
        }
    }
}

/// An OPTIONS request that cannot be sent, of which the call is told twice: the final answer is owed then, and the 404 of
/// the target changes nothing. Nor can that answer be sent.
const LOST: &[Moment] = &[
    (0, Turn::Sends(&OPTIONS_SENT)),
    (0, Turn::Fails(Cause::Request(0))),
    (0, Turn::Fails(Cause::Request(0))),
    (0, Turn::Sends(&OPTIONS_FAULT_UP)),
    (0, Turn::Fails(Cause::Answer)),
    (0, Turn::Waits(None)),
    (
        20,
        Turn::Takes(TARGET, OPTIONS_NOT_FOUND, Ok(Taken::Absorbed)),
    ),
    (20, Turn::Waits(None)),
];

/// An OPTIONS request whose target answers 404, which is owed when the request, and then the answer, turn out to be lost.
const ANSWERED: &[Moment] = &[
    (0, Turn::Sends(&OPTIONS_SENT)),
    (
        20,
        Turn::Takes(TARGET, OPTIONS_NOT_FOUND, Ok(Taken::Posted(0))),
    ),
    (20, Turn::Fails(Cause::Request(0))),
    (20, Turn::Sends(&OPTIONS_NOT_FOUND_UP)),
    (20, Turn::Fails(Cause::Answer)),
    (20, Turn::Waits(Some(5020))),
    (5020, Turn::Does),
    (5020, Turn::Waits(None)),
];

/// An INVITE that cannot be sent, nor the 100 before it, and which the caller cancels while the final answer is owed.
const NEVER_SENT: &[Moment] = &[
    (0, Turn::Sends(&TRYING)),
    (0, Turn::Sends(&INVITE_SENT)),
    (0, Turn::Fails(Cause::Request(0))),
    (0, Turn::Fails(Cause::Answer)),
    (10, Turn::Takes(CALLER, CANCEL, Ok(Taken::Posted(1)))),
    (10, Turn::Fails(Cause::Request(0))),
    (10, Turn::Sends(&FAULT_UP)),
    (10, Turn::Sends(&CANCEL_OK)),
    (10, Turn::Fails(Cause::CancelOk)),
    (20, Turn::Takes(TARGET, RINGING, Ok(Taken::Absorbed))),
    (32_010, Turn::Does),
    (32_010, Turn::Waits(None)),
];

/// An INVITE that is cancelled, where every datagram turns out to be lost: that is no fault of a branch which has answered.
const ALL_LOST: &[Moment] = &[
    (0, Turn::Sends(&TRYING)),
    (0, Turn::Sends(&INVITE_SENT)),
    (10, Turn::Takes(CALLER, CANCEL, Ok(Taken::Posted(0)))),
    (10, Turn::Sends(&CANCEL_OK)),
    (10, Turn::Fails(Cause::CancelOk)),
    (20, Turn::Takes(TARGET, RINGING, Ok(Taken::Posted(1)))),
    (20, Turn::Sends(&RINGING_UP)),
    (20, Turn::Sends(&CANCEL_SENT)),
    (20, Turn::Fails(Cause::Cancel(0))),
    (30, Turn::Takes(TARGET, TERMINATED, Ok(Taken::Posted(2)))),
    (30, Turn::Fails(Cause::Request(0))),
    (30, Turn::Fails(Cause::Cancel(0))),
    (30, Turn::Sends(&TERMINATED_UP)),
    (30, Turn::Sends(&ACK_SENT)),
    (30, Turn::Fails(Cause::Answer)),
    (30, Turn::Fails(Cause::Ack(0))),
    (30, Turn::Waits(Some(530))),
    (32_030, Turn::Does),
    (32_030, Turn::Waits(None)),
];

/// An INVITE whose target rings five times before the caller is told of it: five answers are owed at once, which takes two growths of
/// the queue that they stand in, and one more once it was empty again.
const RINGS_OFTEN: &[Moment] = &[
    (0, Turn::Sends(&TRYING)),
    (0, Turn::Sends(&INVITE_SENT)),
    (20, Turn::Takes(TARGET, RINGING, Ok(Taken::Posted(0)))),
    (21, Turn::Takes(TARGET, RINGING, Ok(Taken::Posted(1)))),
    (22, Turn::Takes(TARGET, RINGING, Ok(Taken::Posted(2)))),
    (23, Turn::Takes(TARGET, RINGING, Ok(Taken::Posted(3)))),
    (24, Turn::Takes(TARGET, RINGING, Ok(Taken::Posted(4)))),
    (24, Turn::Sends(&RINGING_UP)),
    (24, Turn::Sends(&RINGING_UP)),
    (24, Turn::Sends(&RINGING_UP)),
    (24, Turn::Sends(&RINGING_UP)),
    (24, Turn::Sends(&RINGING_UP)),
    (30, Turn::Takes(TARGET, TERMINATED, Ok(Taken::Posted(5)))),
    (30, Turn::Sends(&TERMINATED_UP)),
    (30, Turn::Sends(&ACK_SENT)),
    (30, Turn::Waits(Some(530))),
];

#[test]
fn configurations_are_read(rt: HostRuntime) {
    calls(&rt, &SettingUp { text: SETUP }, 0, "a configuration");
    calls(&rt, &SettingUp { text: FORK_SETUP }, 0, "five locations");
}

/// Configurations, and a request that opens a call with each.
const OPENINGS: &[(&[u8], &[u8])] = &[(SETUP, OPTIONS), (SETUP, INVITE), (FORK_SETUP, INVITE)];

#[test]
fn calls_are_opened(rt: HostRuntime) {
    for &(setup, request) in OPENINGS {
        let opening = Opening { setup, request };
        calls(&rt, &opening, 0, "a call opens");
    }
}

/// The call of this request, and what happens.
pub fn goes(
    rt: &(impl Abort + AllocGlobal),
    request: &'static [u8],
    moments: &'static [Moment],
    what: &str,
) {
    let history = History {
        setup: SETUP,
        request,
        moments,
        begins: 0,
        fails: 0,
    };
    plays(rt, &history, 0, what);
}

/// What happens to a call, and what that is called.
type Row = (&'static [Moment], &'static str);

/// The calls of an OPTIONS request.
const ASKED: &[Row] = &[
    (FAILING, "an OPTIONS request that is answered 404"),
    (LOST, "an OPTIONS request that cannot be sent"),
    (ANSWERED, "an OPTIONS request that is answered"),
];

/// They stand in a function of their own: a proof reads a constant wherever it is named, once for each call beside it.
fn asked() -> &'static [Row] {
    ASKED
}

/// The calls of an INVITE.
const INVITED: &[Row] = &[
    (CANCELLED, "an INVITE that is cancelled"),
    (NEVER_SENT, "an INVITE that cannot be sent"),
    (ALL_LOST, "an INVITE of which all is lost"),
];

/// The same of these.
fn invited() -> &'static [Row] {
    INVITED
}

#[test]
fn calls_go_on(rt: HostRuntime) {
    for &(moments, what) in asked() {
        goes(&rt, OPTIONS, moments, what);
    }
    for &(moments, what) in invited() {
        goes(&rt, INVITE, moments, what);
    }
}

#[test]
fn five_answers_are_owed_at_once(rt: HostRuntime) {
    let what = "an INVITE for which five answers are owed at once";
    goes(&rt, INVITE, RINGS_OFTEN, what);
}
