//! What a service does at a moment.
use crate::calls::{Search, ServiceCalls};
use crate::service::Service;
use crate::visit::Visit;
use fork_call::Port;
use proxy_threads::{carry_due, carry_from};
use service_admission::Seen;
use std::alloc::Allocator;
use std::sync::Wait;
use std::time::Clock;

impl<A: Allocator + Copy> ServiceCalls<A> {
    /// Where a deadline was missed, goes on with the walk over all calls: each is carried, at most 4,096 at a time.
    fn walk_on<R: Wait + Clock, P: Port>(&self, rt: &R, port: &mut P, visit: &Visit<'_>) {
        let is_missed = self.schedule.take_missed();
        let due = {
            let mut walk = self.walk.lock(rt);
            walk.note(is_missed, visit.now);
            walk.due(visit.now)
        };
        let Some(from) = due else {
            return;
        };
        let left = carry_from(
            rt,
            &self.shelf,
            from,
            |number| self.carry(rt, port, number, visit),
        );
        let mut walk = self.walk.lock(rt);
        match left {
            Some(next) => walk.pass(next),
            None => walk.finish(visit.now),
        }
    }
}

impl<A: Allocator + Copy> Service<A> {
    /// Carries the calls that are due by now, in milliseconds, at most 4,096 of them; the others wait until the time is read anew. Once in ten
    /// seconds users are forgotten of whom no binding is there any more.
    pub fn tick<R: Wait + Clock, P: Port>(&self, rt: &R, port: &mut P, now: u64) {
        let visit = self.visit(now);
        self.calls.walk_on(rt, port, &visit);
        carry_due(rt, &self.calls.schedule, now, |number| {
            self.counts.calls.timers.add(1);
            self.calls.carry(rt, port, number, &visit);
        });
        let users = &self.users;
        users
            .registry
            .sweep(rt, self.alloc, users.kept_changes(), now);
    }

    /// Ends a service that drains where its time has come, and answers until when the thread that keeps the time may sleep where nothing is
    /// due before, in milliseconds: 18,446,744,073,709,551,615 where there is no limit.
    pub fn next_look<R: Wait>(&self, rt: &R, now: u64) -> u64 {
        let walk = self
            .calls
            .walk
            .lock(rt)
            .next()
            .min(self.users.registry.next_sweep());
        let Some(draining) = self
            .admission
            .lifetime
            .draining(self.settings.terms.records)
        else {
            return walk;
        };
        // It is looked for datagrams first: the call of one that is in work no more stands among the calls then.
        let is_busy = self.admission.quota.is_busy();
        let search = self.calls.search_open(rt);
        let seen = Seen {
            is_busy,
            has_open: search != Search::Nothing,
            last_success: self.admission.lifetime.last_success(),
        };
        if draining.ends(seen, now) {
            self.end();
            return now;
        }
        match search {
            Search::Unfinished => now,
            Search::Open | Search::Nothing => draining.next_look(now).min(walk),
        }
    }
}
