//! A port that compares what it is given with what is wanted, and fails one send.
use crate::wanted::{Needs, is_one, wanted_at};
use fork_call::{Carried, Cause, Datagram, Port};
use std::alloc::Allocator;

/// Whether a datagram is that at this place of what is wanted.
fn is_wanted<A: Allocator>(datagram: &Datagram<A>, place: usize) -> bool {
    match wanted_at(place) {
        Some((_, sent)) => is_one(datagram, sent),
        None => false,
    }
}

/// Whether what has these needs is sent, where a datagram of this cause was lost, or none.
fn is_met(needs: Needs, lost: Option<Cause>) -> bool {
    match (needs, lost) {
        (Needs::Nothing, _) => true,
        (Needs::Fault(n), lost) => lost == Some(Cause::Request(n)),
        (_, None) => true,
        (Needs::Branch(n), Some(lost)) => lost != Cause::Request(n),
        (Needs::Again(n, cause), Some(lost)) => lost != Cause::Request(n) && lost != cause,
    }
}

/// Whether what is wanted at this place is sent, where this was lost.
fn is_left(place: usize, lost: Option<Cause>) -> bool {
    match wanted_at(place) {
        Some((needs, _)) => is_met(needs, lost),
        None => false,
    }
}

/// The places of what is wanted still, what was given, and whether that was what was wanted.
#[derive(Clone, Copy)]
pub struct Comparing {
    at: usize,
    end: usize,
    /// The number of the send that fails, from 1 on; 0 where none does.
    fails: u64,
    sends: u64,
    failures: u64,
    /// How many sends there were, and how many had failed, before this carry.
    sends_before: u64,
    failures_before: u64,
    /// The cause of the datagram that was lost, unless the call does not know that.
    lost: Option<Cause>,
    well: bool,
}

impl Comparing {
    /// Wants nothing yet, and begins at this place of what is wanted.
    pub fn new(at: usize, fails: u64) -> Comparing {
        Comparing {
            at,
            end: at,
            fails,
            sends: 0,
            failures: 0,
            sends_before: 0,
            failures_before: 0,
            lost: None,
            well: true,
        }
    }

    /// Wants so many datagrams, those that follow.
    pub fn wants(&mut self, count: usize) {
        self.at = self.end;
        self.end = self.end.saturating_add(count);
    }

    /// The branch whose request was lost, if the call knows that.
    pub fn lost_branch(&self) -> Option<u16> {
        match self.lost {
            Some(Cause::Request(n)) => Some(n),
            _ => None,
        }
    }

    /// The call is carried; the book says that the request of this branch was lost. Where it does not say that of a request
    /// that was, the call was refused as it was told, and the request is as one that is lost on the way.
    pub fn begins(&mut self, faulted: Option<u16>) {
        self.sends_before = self.sends;
        self.failures_before = self.failures;
        if self.lost_branch() != faulted {
            self.lost = None;
        }
    }

    /// The place of what is sent next.
    fn next(&self) -> usize {
        for place in self.at..self.end {
            if is_left(place, self.lost) {
                return place;
            }
        }
        self.end
    }

    /// Whether all that is wanted was given, once each and in order, and this carry says so.
    pub fn is_done(&self, carried: Carried) -> bool {
        let sent = u64::from(carried.sent);
        let failed = u64::from(carried.failed);
        self.well
            && self.next() == self.end
            && !carried.more
            && self.failures_before.saturating_add(failed) == self.failures
            && self
                .sends_before
                .saturating_add(sent)
                .saturating_add(failed)
                == self.sends
    }
}

impl Port for Comparing {
    ghost count = { λ port. port.failures };

    fn send<A: Allocator>(&mut self, datagram: &Datagram<A>) -> bool {
        let place = self.next();
        self.well = self.well && place < self.end && is_wanted(datagram, place);
        self.at = place.saturating_add(1);
        self.sends = self.sends.saturating_add(1);
        if self.sends != self.fails {
            return true;
        }
        self.lost = Some(datagram.cause);
        self.failures = self.failures.saturating_add(1);
        false
    }

    fn failures(&self) -> u64 {
        self.failures
    }
}
