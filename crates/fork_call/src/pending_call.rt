//! Calls that have no number yet.
ghost use Rattle.std.specs.Prelude.{◌≡◌, ℕ, IfErr, IfOk};
ghost use Rattle.sip_via.specs.ReadTop.{IsTopOf};
ghost use Rattle.call_model.specs.Call.{numbered};
ghost use Rattle.fork_call.specs.Opening.{IsOpenable, IsRefusedFor, Opens, Reaches, with_token};
ghost use Rattle.fork_call.specs.Prepared.{IsUnreachableAs};
ghost use Rattle.proxy_routing.specs.Unrouted.{IfRejected};

use crate::call::Call;
use crate::opening::{open_to, prepare_read};
use crate::opening_request::OpeningRequest;
use crate::prepared_request::PreparedRequest;
use crate::schedule::BranchTimers;
use crate::timing::schedule_of;
use call_laws::calls_send_right;
use call_model::calls_stay_sound;
use call_state::CallState;
use call_table::Pending;
use proxy_config::{DialogToken, Setup};
use proxy_routing::Unrouted;
use sip_text::Message;
use sip_via::TopVia;
use std::alloc::{AllocError, Allocator, Global};
use std::marker::Model;

/// What a request opens, but for the number of the call. Numbers are given under a lock that all calls share: all that
/// takes time is done before, so that no call waits for another one to be opened.
#[derive(Drop)]
pub struct PendingCall<A: Allocator + Clone = Global> {
    state: CallState<A>,
    schedule: BranchTimers<A>,
    alloc: A,
}

impl<A: Allocator + Clone> Model for PendingCall<A> {
    ghost use Rattle.std.specs.Prelude.{ℕ};
    ghost use Rattle.call_model.specs.Call as spec;
    ghost use Rattle.fork_call.specs.Timing.{IsTimed};

    ghost Value = { spec.Call };

    ghost view = { λ p. p.state };

    ghost invariant = { λ p. (number : ℕ) → IsTimed (spec.numbered number p.state) p.schedule };
}

impl<A: Allocator + Clone> PendingCall<A> {
    /// What a request opens, as it is prepared and opened with one setup.
    ///
    /// # Errors
    ///
    /// The first of those of [`RequestRejection`](proxy_routing::RequestRejection) that holds, with the request as far as it was
    /// prepared; `NoMemory` wherever the allocator refuses.
    pub fn new(setup: &Setup<A>, opening: OpeningRequest<A>) -> Result<PendingCall<A>, Unrouted<A>>
        requires { IsOpenable opening.request.start }
        ensures opened { IfOk result (λ pending_call. (number : ℕ) → Opens setup.now number opening.request opening.source (numbered number pending_call)) }
        ensures refused { IfErr result (IfRejected (IsRefusedFor setup.now opening.request opening.source)) }
    {
        match TopVia::of(&opening.alloc, &opening.request, opening.source) {
            Ok(top) => PendingCall::new_read(setup, None, opening, &top),
            Err(AllocError) => Err(Unrouted::NoMemory),
        }
    }

    /// The same of a request of whose top Via value this was read: the value is not read again. Where there is a token, the dialog that
    /// it opens gets that one in place of the setup's own: so no setup has to be made for it.
    ///
    /// # Errors
    ///
    /// Those of [`PendingCall::new`].
    pub fn new_read(
        setup: &Setup<A>,
        token: Option<DialogToken>,
        opening: OpeningRequest<A>,
        top: &TopVia<A>,
    ) -> Result<PendingCall<A>, Unrouted<A>>
        requires openable { IsOpenable opening.request.start }
        requires top { IsTopOf opening.request opening.source top.now }
        ensures opened { IfOk result (λ pending_call. (number : ℕ)
            → Opens (with_token token setup.now) number opening.request opening.source (numbered number pending_call)) }
        ensures refused { IfErr result (IfRejected (IsRefusedFor (with_token token setup.now) opening.request opening.source)) }
    {
        let alloc = opening.alloc.clone()?;
        match prepare_read(setup, opening, top) {
            Ok(prepared) => PendingCall::of(setup, token, alloc, prepared),
            Err(unrouted) => Err(unrouted),
        }
    }

    /// What a request opens as it was prepared, with this token, if there is one, as [`open_to`] says it.
    ///
    /// # Errors
    ///
    /// `NoTarget` or `NoHop`, with the request; `NoMemory` wherever the allocator refuses.
    pub fn of(
        setup: &Setup<A>,
        token: Option<DialogToken>,
        alloc: A,
        prepared: PreparedRequest<A>,
    ) -> Result<PendingCall<A>, Unrouted<A>>
        ensures opened { IfOk result (λ pending_call. (number : ℕ)
            → Reaches (with_token token setup.now) number prepared.request prepared.source prepared.uri (numbered number pending_call)) }
        ensures refused { IfErr result (IfRejected (IsUnreachableAs setup.now prepared.request prepared.uri)) }
    {
        calls_stay_sound();
        calls_send_right();
        let rest = alloc.clone()?;
        let state = match open_to(setup, token, prepared) {
            Ok(state) => state,
            Err(unrouted) => return Err(unrouted),
        };
        let Ok(schedule) = schedule_of(rest, &state) else {
            return Err(Unrouted::NoMemory);
        };
        Ok(PendingCall {
            state,
            schedule,
            alloc,
        })
    }

    /// The request that would have opened the call, as far as it was prepared (RFC 3261 sections 16.4 and 18.2.1).
    pub fn into_request(self) -> Message<A>
        ensures { result ≡ self.opened.request }
    {
        self.state.into_request()
    }
}

impl<A: Allocator + Clone> Pending<Call<A>> for PendingCall<A> {
    ghost use Rattle.std.specs.Prelude.{◌≡◌};
    ghost use Rattle.call_model.specs.Call.{numbered};

    ghost becomes = { λ pending_call number call. call ≡ numbered number pending_call };

    /// The call under this number.
    fn numbered(self, number: u64) -> Call<A> {
        let mut state = self.state;
        state.set_number(number);
        Call::of(state, self.schedule, self.alloc)
    }
}
