//! The first answer that is owed to the caller, as it is sent.
ghost use Rattle.std.specs.Prelude.{◌≡◌, ◌<◌, [], length, map, None, Some, true, IfOk, OnErr};
ghost use Rattle.std.specs.List.{list_all};
ghost use Rattle.fork_model.specs.Log.{table_of};
ghost use Rattle.fork_model.specs.Chosen.{IsChosen};
ghost use Rattle.context_values.specs.ReplyView.{choice_of};
ghost use Rattle.fork_model.specs.Choice as choice;
ghost use Rattle.sip_text.specs.Message.{is_header};
ghost use Rattle.sip_build.specs.declared.responses.OwnStatus.TheVariants as own;
ghost use Rattle.sip_build.specs.Further.{view_if_any};
ghost use Rattle.sip_build.specs.SeenKept.{seen_kept, texts};
ghost use Rattle.sip_build.specs.Upward.{AreKept, is_challenge, upward_of};
ghost use Rattle.sip_via.specs.TopVia.{has_second, via_values};
ghost use Rattle.call_state.specs.inner.AnswersInside.{IsPaid, IsPaidOk, IsText};
ghost use Rattle.call_model.specs.Behind.{KeepsAnswers};
ghost use Rattle.call_model.specs.Built.{final_of, further_lines, generated, text_of};
ghost use Rattle.call_model.specs.Due.{SendAnswer};
ghost use Rattle.call_model.specs.Pump.{Does};
ghost use Rattle.call_model.specs.SeenStep.{pumped};
ghost use Rattle.call_model.specs.Sound.{IsSound};

use crate::state::CallState;
use crate::states::shows_received;
use call_branch::{OpenedRequest, response_status};
use call_caller::PendingResponse;
use call_model::{Cause, Datagram, Step};
use fork_context::{Challenge, Choice, Offer};
use sip_build::{OwnStatus, first_timestamp, write_forwarded_response, write_own_response};
use sip_text::{HeaderLine, Message};
use sip_uri::Hop;
use sip_via::BuildFault;
use std::alloc::{AllocError, Allocator};

/// What the first answer that is owed becomes: a datagram that is fed to no transaction, or an answer with this status
/// and this text.
#[derive(Drop)]
pub(crate) enum BuiltResponse<A: Allocator> {
    Sent(Datagram<A>),
    Answer(u16, Vec<u8, A>),
}

/// The proxy's own answer of this status, which takes no further lines.
fn own_answer<A: Allocator>(
    alloc: A,
    opened: &OpenedRequest<A>,
    status: OwnStatus,
) -> Result<BuiltResponse<A>, AllocError>
    requires plain { further_lines opened.now status ≡ [] }
    ensures { IfOk result (IsText (generated opened.now status)) }
{
    let mut text = Vec::new(alloc);
    write_own_response(opened.request(), status, &[], &mut text)?;
    Ok(BuiltResponse::Answer(status.code(), text))
}

/// The Timestamp line of the request, where the 100 takes it.
fn stamp_of<A: Allocator>(opened: &OpenedRequest<A>) -> Option<HeaderLine<'_>>
    ensures exact { view_if_any result ≡ further_lines opened.now own.Trying }
    ensures good { list_all is_header (further_lines opened.now own.Trying) ≡ true }
{
    if opened.stamps() {
        first_timestamp(opened.request())
    } else {
        None
    }
}

/// The 100, with the Timestamp line of the request where it takes that (RFC 3261 section 8.2.6.1).
fn trying_answer<A: Allocator>(
    alloc: A,
    opened: &OpenedRequest<A>,
) -> Result<BuiltResponse<A>, AllocError>
    ensures { IfOk result (IsText (generated opened.now own.Trying)) }
{
    let mut text = Vec::new(alloc);
    let request = opened.request();
    match stamp_of(opened) {
        Some(stamp) => write_own_response(request, OwnStatus::Trying, &[stamp], &mut text)?,
        None => write_own_response(request, OwnStatus::Trying, &[], &mut text)?,
    }
    Ok(BuiltResponse::Answer(OwnStatus::Trying.code(), text))
}

/// A response as it goes up.
fn upward_answer<'a, A: Allocator>(
    alloc: A,
    response: &Message<A>,
    kept: Option<&'a [&'a [u8]]>,
    challenges: &[Challenge<A>],
) -> Result<BuiltResponse<A>, AllocError>
    requires second { has_second (via_values response.now) ≡ true }
    requires kept { AreKept (seen_kept kept) }
    requires challenges { list_all is_challenge challenges.now ≡ true }
    ensures { IfOk result (IsText (upward_of response.now (seen_kept kept.entry) challenges.now)) }
{
    let mut text = Vec::new(alloc);
    match write_forwarded_response(response, kept, challenges, &mut text) {
        Ok(()) => Ok(BuiltResponse::Answer(response_status(response), text)),
        Err(BuildFault::NoMemory) => Err(AllocError),
        Err(BuildFault::LastVia) => unreachable!(),
    }
}

/// A provisional response or a 2xx as it goes up.
fn passed_answer<A: Allocator + Clone>(
    alloc: A,
    response: &Message<A>,
) -> Result<BuiltResponse<A>, AllocError>
    requires second { has_second (via_values response.now) ≡ true }
    ensures { IfOk result (IsText (upward_of response.now None [])) }
{
    let none = Vec::new(alloc.clone()?);
    upward_answer(alloc, response, None, &none)
}

/// The 200 to a CANCEL.
fn cancel_ok<A: Allocator>(
    alloc: A,
    cancel: &Message<A>,
    to: Hop,
) -> Result<BuiltResponse<A>, AllocError>
    ensures { IfOk result (IsPaidOk cancel.now to) }
{
    let mut bytes = Vec::new(alloc);
    write_own_response(cancel, OwnStatus::Okay, &[], &mut bytes)?;
    Ok(BuiltResponse::Sent(Datagram {
        to,
        bytes,
        cause: Cause::CancelOk,
    }))
}

/// The texts of contacts.
fn texts_of<'a, A: Allocator>(
    alloc: A,
    offers: &'a [Offer<A>],
) -> Result<Vec<&'a [u8], A>, AllocError>
    ensures { IfOk result (λ made. texts made.items ≡ map text_of offers.now) }
{
    let mut made = Vec::with_capacity(alloc, offers.len())?;
    for offer in offers {
        made.push(offer.text())?;
    }
    Ok(made)
}

impl<A: Allocator + Clone> CallState<A> {
    /// The response of branch n as it goes up, as the choice of the table: the response that came, which the branch keeps,
    /// or a generated 408 where no response came and one was assumed.
    fn best_answer(&self, n: u16) -> Result<BuiltResponse<A>, AllocError>
        requires sound { IsSound self.now }
        requires answers { KeepsAnswers self.now }
        requires chosen { IsChosen (table_of self.now.log) (Some (choice.Best n)) }
        ensures { IfOk result (IsText (final_of self.now (choice.Best n))) }
    {
        if !shows_received(self.state(n)) {
            return own_answer(self.allocator()?, self.opened(), OwnStatus::RequestTimeout);
        }
        let Some(response) = self.kept_answer(n) else {
            unreachable!()
        };
        let mut challenges = Vec::new(self.allocator()?);
        self.book().context().challenges(&mut challenges)?;
        let Some(left) = self.book().context().left(n) else {
            return upward_answer(self.allocator()?, response, None, &challenges);
        };
        let texts = texts_of(self.allocator()?, left)?;
        upward_answer(self.allocator()?, response, Some(&texts), &challenges)
    }

    /// The final answer, which is the choice of the table (RFC 3261 section 16.7 steps 6 to 9).
    fn final_answer(&self, choice: Choice) -> Result<BuiltResponse<A>, AllocError>
        requires sound { IsSound self.now }
        requires answers { KeepsAnswers self.now }
        requires chosen { IsChosen (table_of self.now.log) (Some (choice_of choice)) }
        ensures { IfOk result (IsText (final_of self.now (choice_of choice))) }
    {
        match choice {
            Choice::Stored(n) => self.best_answer(n),
            Choice::Only503(_) => own_answer(
                self.allocator()?,
                self.opened(),
                OwnStatus::ServerInternalError,
            ),
            Choice::NoAnswer408 => {
                own_answer(self.allocator()?, self.opened(), OwnStatus::RequestTimeout)
            }
        }
    }

    /// What the first answer that is owed becomes.
    fn built_response(&self) -> Result<BuiltResponse<A>, AllocError>
        requires some { 0 < length self.now.server.owed }
        requires sound { IsSound self.now }
        requires answers { KeepsAnswers self.now }
        ensures { IfOk result (IsPaid self.now self.now.server.owed) }
    {
        let Some(first) = self.owed().first() else {
            unreachable!()
        };
        match first {
            PendingResponse::Trying => trying_answer(self.allocator()?, self.opened()),
            PendingResponse::Passed(response) => passed_answer(self.allocator()?, response),
            PendingResponse::Final(choice) => self.final_answer(choice),
            PendingResponse::Again => Ok(BuiltResponse::Sent(self.last_again()?)),
            PendingResponse::CancelOk(cancel, to) => cancel_ok(self.allocator()?, cancel, to),
        }
    }

    /// Sends the first answer that is owed to the caller. The 100, a response of a branch as it goes up and the final
    /// answer are made now and given to the server transaction, which sends or drops them; the last answer again and the
    /// 200 to a CANCEL are sent as they are (RFC 3261 sections 9.2, 16.7 steps 6 to 9 and 17.2).
    ///
    /// # Errors
    ///
    /// Only where the allocator refuses; then the state is as it was.
    pub fn send_next_response(&mut self, now: u64) -> Result<Step<A>, AllocError>
        requires some { 0 < length self.old.server.owed }
        requires sound { IsSound self.old }
        requires answers { KeepsAnswers self.old }
        ensures ok { IfOk result (λ step. Does self.old now SendAnswer (pumped step) self.new) }
        ensures err { OnErr result (self.new ≡ self.old) }
    {
        match self.built_response()? {
            BuiltResponse::Sent(datagram) => {
                self.pay();
                Ok(Step::Send(datagram))
            }
            BuiltResponse::Answer(status, text) => self.send_answer(status, text, now),
        }
    }
}
