//! The calls of a proxy, as one thread sees them.
ghost use Rattle.std.specs.Prelude.{◌≡◌, Some, false, true, IfErr, IfNone, IfOk, IfSome};
ghost use Rattle.sip_via.specs.ReadTop.{IsTopOf};
ghost use Rattle.sip_via.specs.TopVia.{top_value};
ghost use Rattle.sip_route.specs.RequestKey.{request_key};
ghost use Rattle.call_model.specs.Call as spec;
ghost use Rattle.call_model.specs.Call.{numbered};
ghost use Rattle.call_state.specs.Kinds.{is_response};
ghost use Rattle.call_state.specs.Matching.{IsReadBranch};
ghost use Rattle.call_table.specs.Faults.{IfKnown, IfSpent};
ghost use Rattle.proxy_dispatch.specs.Looks.{AnswersTake, Found, Missed, Put, Seen, Spent, shown};

use crate::received::ReadRequest;
use call_table::{PendingFault, Shelf};
use fork_call::{Call, PendingCall, TakeFault, Taken};
use sip_branch::BranchName;
use sip_text::Message;
use sip_uri::Hop;
use sip_via::Own;
use std::alloc::Allocator;
use std::sync::Wait;

/// The branch that the top Via value of a response names, read as that of a proxy of this address.
#[derive(Clone, Copy)]
pub struct ReadBranch {
    pub own: Own,
    pub name: BranchName,
}

/// Gives a message to a call.
#[tactic(auto, using(crate::proofs::Taking::answers_so, crate::proofs::Taking::number_kept))]
fn take<A: Allocator + Clone>(
    call: &mut Call<A>,
    message: Message<A>,
    source: Hop,
    now: u64,
) -> Result<Taken, TakeFault>
    ensures answer { AnswersTake call.old message source now result call.new }
    ensures number { call.new.opened.number ≡ call.old.opened.number }
{
    call.take(message, source, now)
}

/// Gives a request that was read, with this key, to a call.
#[tactic(auto, using(crate::proofs::Taking::answers_so, crate::proofs::Taking::number_kept))]
fn take_request<A: Allocator + Clone>(
    call: &mut Call<A>,
    received: ReadRequest<A>,
    key: &[u8],
) -> Result<Taken, TakeFault>
    requires request { is_response received.message.start ≡ false }
    requires key { request_key received.message ≡ Some key.now }
    requires top { IsTopOf received.message received.source received.top }
    ensures answer { AnswersTake call.old received.message received.source received.now result call.new }
    ensures number { call.new.opened.number ≡ call.old.opened.number }
{
    call.take_request(
        received.message,
        key,
        &received.top,
        received.source,
        received.now,
    )
}

/// Gives a response to a call. Its branch is read again where the call was opened at another address.
#[tactic(auto, using(crate::proofs::Taking::answers_so, crate::proofs::Taking::number_kept))]
fn take_response<A: Allocator + Clone>(
    call: &mut Call<A>,
    response: Message<A>,
    read: ReadBranch,
    source: Hop,
    now: u64,
) -> Result<Taken, TakeFault>
    requires response { is_response response.start ≡ true }
    requires read { IsReadBranch read.own (top_value response) read.name }
    ensures answer { AnswersTake call.old response source now result call.new }
    ensures number { call.new.opened.number ≡ call.old.opened.number }
{
    if call.own() == read.own {
        call.take_response(response, read.name, source, now)
    } else {
        take(call, response, source, now)
    }
}

/// The calls of a proxy, under numbers and under the keys of their requests, as one thread sees them. Its threads share them: each
/// call of a method is one look at them, under a lock, and other threads may change them between two looks.
#[derive(Clone, Copy)]
pub struct SharedCalls<'a, A: Allocator + Clone> {
    shelf: &'a Shelf<Call<A>, A>,
}

impl<'a, A: Allocator + Clone> SharedCalls<'a, A> {
    /// The calls on this shelf.
    pub fn new(shelf: &'a Shelf<Call<A>, A>) -> SharedCalls<'a, A> {
        SharedCalls { shelf }
    }

    /// The number of the call whose request has this key.
    #[tactic(auto, unfolding(crate::specs::Looks::shown))]
    pub(crate) fn find<R: Wait>(&mut self, rt: &R, key: &[u8]) -> Option<u64>
        ensures { shown self.old (Found key.now result) self.new }
    {
        self.shelf.keyed(rt, key)
    }

    /// Opens a call under a key that no call has, and answers its number.
    ///
    /// # Errors
    ///
    /// `Known` where a call has the key, with what was to be opened; else `Spent` where no number is left; `NoMemory` only where
    /// the allocator refuses.
    #[tactic(auto, unfolding(crate::specs::Looks::shown))]
    pub(crate) fn open<R: Wait>(
        &mut self,
        rt: &R,
        key: Vec<u8, A>,
        pending: PendingCall<A>,
    ) -> Result<u64, PendingFault<PendingCall<A>>>
        ensures opened { IfOk result (λ number. shown self.old (Put key.items number (numbered number pending)) self.new) }
        ensures known { IfErr result (IfKnown (λ number back. shown self.old (Found key.items (Some number)) self.new × (back ≡ pending))) }
        ensures spent { IfErr result (IfSpent (shown self.old Spent self.new)) }
    {
        self.shelf.put_pending(rt, key, pending)
    }

    /// Gives a message to the call of a number, while no other thread looks at that call, and answers what the call answers
    /// (`Call::take`). None where there is no such call.
    #[tactic(auto, unfolding(crate::specs::Looks::shown))]
    pub(crate) fn take<R: Wait>(
        &mut self,
        rt: &R,
        number: u64,
        message: Message<A>,
        source: Hop,
        now: u64,
    ) -> Option<Result<Taken, TakeFault>>
        ensures seen { IfSome result (λ answer. (before : spec.Call) × (after : spec.Call) × (before.opened.number ≡ number)
            × shown self.old (Seen number before after) self.new × AnswersTake before message source now answer after) }
        ensures missed { IfNone result (shown self.old (Missed number) self.new) }
    {
        self.shelf
            .with(rt, number, |call| take(call, message, source, now))
    }

    /// Gives a request that was read, with this key, to the call of a number, as `take` does.
    #[tactic(auto, unfolding(crate::specs::Looks::shown))]
    pub(crate) fn take_request<R: Wait>(
        &mut self,
        rt: &R,
        number: u64,
        received: ReadRequest<A>,
        key: &[u8],
    ) -> Option<Result<Taken, TakeFault>>
        requires request { is_response received.message.start ≡ false }
        requires key { request_key received.message ≡ Some key.now }
        requires top { IsTopOf received.message received.source received.top }
        ensures seen { IfSome result (λ answer. (before : spec.Call) × (after : spec.Call) × (before.opened.number ≡ number)
            × shown self.old (Seen number before after) self.new
            × AnswersTake before received.message received.source received.now answer after) }
        ensures missed { IfNone result (shown self.old (Missed number) self.new) }
    {
        self.shelf
            .with(rt, number, |call| take_request(call, received, key))
    }

    /// Gives a response to the call that the branch of its top Via value names, as `take` does.
    #[tactic(auto, unfolding(crate::specs::Looks::shown))]
    pub(crate) fn take_response<R: Wait>(
        &mut self,
        rt: &R,
        response: Message<A>,
        read: ReadBranch,
        source: Hop,
        now: u64,
    ) -> Option<Result<Taken, TakeFault>>
        requires response { is_response response.start ≡ true }
        requires read { IsReadBranch read.own (top_value response) read.name }
        ensures seen { IfSome result (λ answer. (before : spec.Call) × (after : spec.Call) × (before.opened.number ≡ read.name.context)
            × shown self.old (Seen read.name.context before after) self.new × AnswersTake before response source now answer after) }
        ensures missed { IfNone result (shown self.old (Missed read.name.context) self.new) }
    {
        let number = read.name.context;
        self.shelf.with(
            rt,
            number,
            |call| take_response(call, response, read, source, now),
        )
    }
}
