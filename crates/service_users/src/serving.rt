//! What a service decides of the requests that come.
ghost use Rattle.std.specs.Prelude.{◌≡◌, IfOk, IfSome};
ghost use Rattle.authentication.specs.Answer.{plain};
ghost use Rattle.sip_build.specs.declared.responses.OwnStatus.TheVariants.{ServerInternalError};

use crate::keeping::{ChangeQueue, PendingAnswers, PendingChange, unkept_answer};
use crate::last_refused::Refused;
use crate::users::ServiceUsers;
use authentication::{OwnAnswer, append_note};
use binding_table::PreparedChange;
use bindings::UserBindings;
use call_journal::append_shown;
use call_table::Schedule;
use fork_call::Setup;
use metrics::SenderCounts;
use proxy_dispatch::{Admission, Decision, Opener};
use service_admission::QuotaAt;
use service_decisions::{Decided, Registered, ServiceView};
use sip_route::request_uri;
use sip_text::Message;
use sip_uri::Hop;
use std::alloc::{AllocError, Allocator, Global};
use std::sync::Wait;

/// What an operator is told of why an ACK went nowhere.
const UNANSWERED: &[u8] = b"neither trusted nor of a dialog";

/// A service as a datagram finds it: which requests may open calls, and what is decided of each.
#[derive(Drop)]
pub struct ServedAt<'a, A: Allocator + Copy> {
    pub places: QuotaAt<'a>,
    pub view: ServiceView<'a, A>,
    pub users: &'a ServiceUsers<A>,
    pub schedule: &'a Schedule<A>,
    pub heap: Global,
    pub counts: &'a SenderCounts,
}

/// The line of wrong credentials for this name that came from there.
fn warning(heap: Global, name: &[u8], source: Hop) -> Result<Vec<u8>, AllocError> {
    let mut line = Vec::new(heap);
    append_note(&mut line, name, source)?;
    line.push(b'\n')?;
    Ok(line)
}

/// Why a request was refused: wrong credentials for a name, if they came, or else by the reason of its answer.
fn why_refused<A: Allocator>(
    heap: Global,
    reason: &[u8],
    noted: &Option<Vec<u8, A>>,
) -> Result<Vec<u8>, AllocError> {
    let mut why = Vec::new(heap);
    match noted {
        Some(name) => {
            why.extend_from_slice(b"wrong credentials for ")?;
            append_shown(&mut why, name)?;
        }
        None => why.extend_from_slice(reason)?,
    }
    Ok(why)
}

/// Whether a request is refused that is answered so: it is not asked who it is from, or it came with wrong credentials for a name.
fn is_refusal<A: Allocator>(answer: &OwnAnswer<A>, noted: &Option<Vec<u8, A>>) -> bool {
    noted.is_some() || !matches!(answer.status().code(), 200 | 401 | 407)
}

/// Whether a request is an ACK.
fn is_ack<A: Allocator>(request: &Message<A>) -> bool {
    request.method() == Some(b"ACK".as_slice())
}

/// From where a request came, and when, in milliseconds.
#[derive(Clone, Copy)]
struct Arrived {
    source: Hop,
    at: u64,
}

impl<A: Allocator + Copy> ServedAt<'_, A> {
    /// Counts wrong credentials, where they came for a name, and lets a line of them be written.
    fn note<R: Wait>(&self, rt: &R, name: &Option<Vec<u8, A>>, source: Hop) {
        let Some(name) = name else {
            return;
        };
        self.counts.wrong_credentials.add(1);
        if let Ok(line) = warning(self.heap, name, source) {
            let _ = self.users.warnings.push(rt, &line);
        }
    }

    /// Counts what is decided of a request, where nothing is opened. An ACK is not answered.
    fn count(&self, decision: &Decision<A>, request: &Message<A>) {
        match decision {
            Decision::Answers(answer) if !is_ack(request) => {
                self.counts.turn(answer.status().code());
            }
            Decision::Answers(_) | Decision::Leaves => self.counts.refused.add(1),
            Decision::Opens | Decision::OpensWith(_) | Decision::OpensBy(_) => {}
        }
    }

    /// Keeps what an operator may be told of a request that was refused: with this status, or without an answer, and why.
    fn keep<R: Wait>(
        &self,
        rt: &R,
        request: &Message<A>,
        arrived: Arrived,
        status: Option<u16>,
        why: &[u8],
    ) {
        let refused = Refused {
            source: arrived.source,
            method: request.method().unwrap_or(b""),
            uri: request_uri(request),
            status,
            why,
        };
        self.users.last_refused.keep(rt, &refused, arrived.at);
    }

    /// Keeps what an operator may be told of a request that was refused with this answer.
    fn keep_answered<R: Wait>(
        &self,
        rt: &R,
        request: &Message<A>,
        arrived: Arrived,
        answer: &OwnAnswer<A>,
        noted: &Option<Vec<u8, A>>,
    ) {
        let status = answer.status();
        if let Ok(why) = why_refused(self.heap, status.reason(), noted) {
            self.keep(rt, request, arrived, Some(status.code()), &why);
        }
    }

    /// Keeps what an operator may be told of an ACK that goes nowhere.
    fn keep_unanswered<R: Wait>(
        &self,
        rt: &R,
        request: &Message<A>,
        arrived: Arrived,
        noted: &Option<Vec<u8, A>>,
    ) {
        if let Ok(why) = why_refused(self.heap, UNANSWERED, noted) {
            self.keep(rt, request, arrived, None, &why);
        }
    }

    /// Keeps what an operator may be told of a request of which this is decided, if it is refused.
    fn keep_decided<R: Wait>(
        &self,
        rt: &R,
        request: &Message<A>,
        arrived: Arrived,
        decision: &Decision<A>,
        noted: &Option<Vec<u8, A>>,
    ) {
        match decision {
            Decision::Answers(_) | Decision::Leaves if is_ack(request) => {
                self.keep_unanswered(rt, request, arrived, noted);
            }
            Decision::Answers(answer) if is_refusal(answer, noted) => {
                self.keep_answered(rt, request, arrived, answer, noted);
            }
            _ => {}
        }
    }

    /// Makes a change now.
    fn commit<R: Wait>(&self, rt: &R, change: PreparedChange<UserBindings<A>, A>) {
        if self.users.registry.commit(rt, change) {
            // who keeps the time has not looked for bindings that end until now
            self.schedule.wake();
        }
    }

    /// Lets a change wait until it is kept, with the answers to its request by then. Where there is no room for it, it is given up, and the
    /// request is answered at once.
    fn commit_once_kept<R: Wait>(
        &self,
        rt: &R,
        alloc: A,
        queue: &ChangeQueue<A>,
        change: PreparedChange<UserBindings<A>, A>,
        answers: PendingAnswers<A>,
    ) -> Option<OwnAnswer<A>>
        ensures { IfSome result (λ answer. answer ≡ plain ServerInternalError) }
    {
        let pending = PendingChange {
            change,
            answers: Some(answers),
        };
        let back = queue.push(rt, pending)?;
        self.users.registry.give_up(rt, back.into_change());
        Some(unkept_answer(alloc))
    }

    /// Makes a change of a request that is answered so then: now, or, where changes wait until they are kept elsewhere, once it is kept, and
    /// the request is answered then.
    fn settle_change<R: Wait>(
        &self,
        rt: &R,
        alloc: A,
        queue: Option<&ChangeQueue<A>>,
        request: &Message<A>,
        source: Hop,
        change: PreparedChange<UserBindings<A>, A>,
        answer: OwnAnswer<A>,
    ) -> Result<Option<OwnAnswer<A>>, AllocError>
        ensures { IfSome queue.entry (λ _. IfOk result (λ now. IfSome now (λ answer. answer ≡ plain ServerInternalError))) }
    {
        let Some(queue) = queue else {
            self.commit(rt, change);
            return Ok(Some(answer));
        };
        match PendingAnswers::of(alloc, request, source, &answer) {
            Ok(answers) => Ok(self.commit_once_kept(rt, alloc, queue, change, answers)),
            Err(AllocError) => {
                self.users.registry.give_up(rt, change);
                Err(AllocError)
            }
        }
    }

    /// Makes what becomes of a REGISTER, and answers how it is answered now. None where it is answered once its change is kept, or where a
    /// change of the same user's bindings is under way: it will come again.
    fn settle<R: Wait>(
        &self,
        rt: &R,
        alloc: A,
        request: &Message<A>,
        arrived: Arrived,
        registered: Registered<A>,
    ) -> Result<Option<OwnAnswer<A>>, AllocError> {
        match registered {
            Registered::Answered(answer, noted) => {
                self.note(rt, &noted, arrived.source);
                if is_refusal(&answer, &noted) {
                    self.keep_answered(rt, request, arrived, &answer, &noted);
                }
                Ok(Some(answer))
            }
            Registered::Changes(change, answer) => {
                let queue = self.users.kept_changes();
                self.settle_change(rt, alloc, queue, request, arrived.source, change, answer)
            }
            Registered::Waits => Ok(None),
        }
    }
}

impl<A: Allocator + Copy> Admission<A> for ServedAt<'_, A> {
    ghost use Rattle.std.specs.Prelude.{ℕ, List, Option, true};
    ghost use Rattle.proxy_dispatch.specs.Admitting.{open_all};
    ghost use Rattle.service_decisions.specs.SeenServing.{serving_of};
    ghost use Rattle.service_decisions.specs.Served.{IsServed};

    ghost serving = { λ served. record open_all {
      decides = λ setup m source now decision. (noted : Option (List ℕ)) × IsServed (serving_of served.view) setup m source decision noted;
      registrar = true;
      registers = λ setup m source now answer. Unit {0};
    } };

    fn admits<R: Wait>(&self, rt: &R, opener: Opener) -> bool {
        self.places.admits(rt, opener)
    }

    fn release<R: Wait>(&self, rt: &R) {
        self.places.release(rt);
    }

    fn decides<R: Wait>(
        &self,
        rt: &R,
        alloc: &A,
        setup: &Setup<A>,
        request: &Message<A>,
        source: Hop,
        now: u64,
    ) -> Result<Decision<A>, AllocError> {
        let Decided { decision, noted } = self.view.decide(rt, alloc, setup, request, source)?;
        self.note(rt, &noted, source);
        self.count(&decision, request);
        let arrived = Arrived { source, at: now };
        self.keep_decided(rt, request, arrived, &decision, &noted);
        Ok(decision)
    }

    fn has_registrar(&self) -> bool {
        true
    }

    fn registers<R: Wait>(
        &self,
        rt: &R,
        alloc: &A,
        setup: &Setup<A>,
        request: &Message<A>,
        source: Hop,
        now: u64,
    ) -> Result<Option<OwnAnswer<A>>, AllocError> {
        let registered = self.view.register(rt, alloc, setup, request, source)?;
        let arrived = Arrived { source, at: now };
        let answer = self.settle(rt, *alloc, request, arrived, registered)?;
        if let Some(answer) = &answer {
            self.counts.registrations.add(answer.status().code());
        }
        Ok(answer)
    }
}
