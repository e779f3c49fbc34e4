//! Registrations that wait until what they bind is kept.
ghost use Rattle.std.specs.Prelude.{◌≡◌, IfOk};
ghost use Rattle.sip_via.specs.Received.{reply_of};
ghost use Rattle.sip_via.specs.TopVia.{top_value};
ghost use Rattle.sip_via.specs.ViaParts.{via_of};
ghost use Rattle.call_model.specs.SeenDatagram.{seen};
ghost use Rattle.proxy_dispatch.specs.Sent.{answer_to};
ghost use Rattle.authentication.specs.Answer.{plain};
ghost use Rattle.sip_build.specs.declared.responses.OwnStatus.TheVariants.{ServerInternalError};

use authentication::OwnAnswer;
use binding_table::PreparedChange;
use bindings::UserBindings;
use fork_call::{Cause, Datagram};
use sip_build::OwnStatus;
use sip_text::Message;
use sip_uri::Hop;
use sip_via::reply_hop_of;
use std::alloc::{AllocError, Allocator, Global};
use std::mem;
use std::sync::{Mutex, Wait};
use std::thread::Parker;

/// How many changes may wait.
const MOST_WAITING: usize = 4_096;

/// The answer to a REGISTER whose change cannot be kept.
pub(crate) fn unkept_answer<A: Allocator>(alloc: A) -> OwnAnswer<A>
    ensures { result ≡ plain ServerInternalError }
{
    OwnAnswer::new(alloc, OwnStatus::ServerInternalError)
}

/// The datagram of an answer to a request that has its source (RFC 3261 section 18.2.2).
fn datagram_of<A: Allocator + Copy>(
    alloc: A,
    request: &Message<A>,
    source: Hop,
    answer: &OwnAnswer<A>,
) -> Result<Datagram<A>, AllocError>
    ensures { IfOk result (λ datagram. seen datagram
        ≡ answer_to request.now answer.now.status answer.now.lines (reply_of (via_of (top_value request.now)) source)) }
{
    let mut bytes = Vec::new(alloc);
    answer.write(alloc, request, &mut bytes)?;
    Ok(Datagram {
        to: reply_hop_of(request, source),
        bytes,
        cause: Cause::Answer,
    })
}

/// How a REGISTER is answered once its change is kept, and how where it cannot be.
#[derive(Drop)]
pub(crate) struct PendingAnswers<A: Allocator> {
    pub(crate) kept: Datagram<A>,
    pub(crate) unkept: Datagram<A>,
}

impl<A: Allocator + Copy> PendingAnswers<A> {
    /// Those to a request that has its source, of which this is the one once its change is kept.
    pub(crate) fn of(
        alloc: A,
        request: &Message<A>,
        source: Hop,
        kept: &OwnAnswer<A>,
    ) -> Result<PendingAnswers<A>, AllocError> {
        let unkept = unkept_answer(alloc);
        Ok(PendingAnswers {
            kept: datagram_of(alloc, request, source, kept)?,
            unkept: datagram_of(alloc, request, source, &unkept)?,
        })
    }
}

/// A change of what a user has that waits until it is kept, and how the REGISTER is answered that makes it, if one does.
#[derive(Drop)]
pub(crate) struct PendingChange<A: Allocator> {
    pub(crate) change: PreparedChange<UserBindings<A>, A>,
    pub(crate) answers: Option<PendingAnswers<A>>,
}

impl<A: Allocator> PendingChange<A> {
    /// The change alone, whose request is not answered here.
    pub(crate) fn into_change(self) -> PreparedChange<UserBindings<A>, A> {
        let PendingChange { change, answers: _ } = self;
        change
    }
}

/// Puts a change behind those that wait; it is given back where there is no room for it.
fn pushed<A: Allocator>(
    waiting: &mut Vec<PendingChange<A>, A>,
    pending: PendingChange<A>,
) -> Option<PendingChange<A>> {
    if waiting.len() >= MOST_WAITING || waiting.reserve(1).is_err() {
        return Some(pending);
    }
    let _ = waiting.push(pending);
    None
}

/// Changes that wait until they are kept, at most 4,096, in the order in which they came, as all threads know them, and what the one thread
/// that keeps them sleeps on.
#[derive(Drop)]
pub struct ChangeQueue<A: Allocator + Copy = Global> {
    alloc: A,
    waiting: Mutex<Vec<PendingChange<A>, A>>,
    parker: Parker,
}

impl<A: Allocator + Copy> ChangeQueue<A> {
    /// None waits.
    pub(crate) fn new(alloc: A) -> ChangeQueue<A> {
        ChangeQueue {
            alloc,
            waiting: Mutex::new(Vec::new(alloc)),
            parker: Parker::new(),
        }
    }

    /// Puts a change behind those that wait, and wakes who keeps them; it is given back where there is no room for it.
    pub(crate) fn push<R: Wait>(
        &self,
        rt: &R,
        pending: PendingChange<A>,
    ) -> Option<PendingChange<A>> {
        let (back, was_empty) = {
            let mut waiting = self.waiting.lock(rt);
            let was_empty = waiting.is_empty();
            (pushed(&mut waiting, pending), was_empty)
        };
        if was_empty {
            self.parker.unpark();
        }
        back
    }

    /// Takes all that wait.
    pub(crate) fn take<R: Wait>(&self, rt: &R) -> Vec<PendingChange<A>, A> {
        mem::replace(&mut *self.waiting.lock(rt), Vec::new(self.alloc))
    }

    /// Sleeps until a change waits, or `wake` is called. One thread alone may sleep. It may also end for no reason.
    pub fn wait<R: Wait>(&self, rt: &R) {
        if self.waiting.lock(rt).is_empty() {
            self.parker.park(rt);
        }
    }

    /// Wakes the thread that sleeps, or that will sleep next.
    pub fn wake(&self) {
        self.parker.unpark();
    }
}
