//! What a response says to the fork.
ghost use Rattle.std.specs.Prelude.{◌≡◌, ◌≤◌, ◌++◌, map, IfOk, OnOk};
ghost use Rattle.std.specs.List.{flat_map};
ghost use Rattle.std.specs.Option.{option_to_list};
ghost use Rattle.context_values.specs.EventView.{event_of};
ghost use Rattle.sip_text.specs.Seen.{view_line, views};
ghost use Rattle.call_caller.specs.NewDestinations.{GivesDestinations};
ghost use Rattle.call_model.specs.Posting.{destination_of_contact};
ghost use Rattle.call_model.specs.Response.{challenge_in, challenges_by, contacts_for, event_by};

use crate::contacts::offered_by;
use call_branch::{Destination, OpenedRequest};
use fork_context::{Answer, Challenge, Event};
use fork_model::new_rows_are_contacts;
use fork_rank::{RingStatus, Status};
use sip_text::{HeaderLine, HeaderLines, Message};
use std::alloc::{AllocError, Allocator};

/// The event that a response of a branch is, and for each of its contacts where the request to it goes, where it may be
/// tried.
#[derive(Drop)]
pub struct ResponseEvent<A: Allocator> {
    pub event: Event<A>,
    pub destinations: Vec<Option<Destination<A>>, A>,
}

/// The challenge that a header field is, if it is one (RFC 3261 sections 20.27 and 20.44).
fn challenge_in<A: Allocator + Clone>(
    alloc: &A,
    header: HeaderLine<'_>,
) -> Result<Option<Challenge<A>>, AllocError>
    ensures { IfOk result (λ challenge. option_to_list challenge ≡ challenge_in (view_line header.entry)) }
{
    let proxy = if header.is_named(b"www-authenticate") {
        false
    } else if header.is_named(b"proxy-authenticate") {
        true
    } else {
        return Ok(None);
    };
    let value = Vec::from_slice(alloc.clone()?, header.value)?;
    Ok(Some(Challenge::new(proxy, value)))
}

/// Adds the challenge that a header field is, if it is one.
fn add_challenge<A: Allocator + Clone>(
    challenges: &mut Vec<Challenge<A>, A>,
    alloc: &A,
    header: HeaderLine<'_>,
) -> Result<(), AllocError>
    ensures { OnOk result (challenges.new.items ≡ challenges.old.items ++ challenge_in (view_line header.entry)) }
{
    if let Some(challenge) = challenge_in(alloc, header)? {
        challenges.push(challenge)?;
    }
    Ok(())
}

/// The challenges of a message, in order.
fn challenges_in<A: Allocator + Clone>(
    alloc: &A,
    headers: HeaderLines<'_>,
) -> Result<Vec<Challenge<A>, A>, AllocError>
    ensures { IfOk result (λ cs. cs.items ≡ flat_map challenge_in (views headers.entry)) }
{
    let mut challenges = Vec::new(alloc.clone()?);
    for header in headers {
        add_challenge(&mut challenges, alloc, header)?;
    }
    Ok(challenges)
}

/// The challenges of a response that count.
fn challenges_by<A: Allocator + Clone>(
    alloc: &A,
    status: u16,
    message: &Message<A>,
) -> Result<Vec<Challenge<A>, A>, AllocError>
    ensures { IfOk result (λ cs. cs.items ≡ challenges_by status message.now) }
{
    if status == 401 || status == 407 {
        challenges_in(alloc, message.headers())
    } else {
        Ok(Vec::new(alloc.clone()?))
    }
}

impl<A: Allocator + Clone> ResponseEvent<A> {
    /// What a response with this status says to the fork as one of branch n: the contacts of a 3xx and the challenges of a
    /// 401 or a 407 count; which contacts may be tried is what the call was opened with (RFC 3261 sections 16.5 and 16.7).
    ///
    /// # Errors
    ///
    /// Only where the allocator refuses.
    pub fn of(
        alloc: &A,
        opened: &OpenedRequest<A>,
        n: u16,
        status: u16,
        message: &Message<A>,
    ) -> Result<Self, AllocError>
        requires least { 100 ≤ status }
        requires most { status ≤ 699 }
        ensures event { IfOk result (λ response_event. event_of response_event.event ≡ event_by opened.now.tried n status message.now) }
        ensures destinations { IfOk result (λ response_event. response_event.destinations.items ≡ map (destination_of_contact opened.now) (contacts_for opened.now.tried status message.now)) }
        ensures gives { IfOk result (λ response_event. GivesDestinations (event_of response_event.event) response_event.destinations.items) }
    {
        new_rows_are_contacts();
        let offered = offered_by(alloc, opened, status, message)?;
        if let Some(ring) = RingStatus::of(status) {
            return Ok(ResponseEvent {
                event: Event::Ring(n, ring),
                destinations: offered.destinations,
            });
        }
        let Some(code) = Status::of(status) else {
            unreachable!()
        };
        let challenges = challenges_by(alloc, status, message)?;
        Ok(ResponseEvent {
            event: Event::Answer(n, Answer::new(code, offered.offers, challenges)),
            destinations: offered.destinations,
        })
    }
}
