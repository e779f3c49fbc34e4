//! What the threads of a service share.
use crate::admission::ServiceAdmission;
use crate::calls::ServiceCalls;
use crate::settings::CurrentSettings;
use crate::setup::configuration_of;
use crate::terms::RunSettings;
use crate::visit::Visit;
use metrics::{Counts, Gauges};
use service_admission::ServiceState;
use service_files::{Configuration, DaemonFault, JournalQueue};
use service_users::{Registry, ServiceUsers};
use std::alloc::{AllocError, Allocator, Global};
use std::mem;
use std::sync::Wait;

/// How many milliseconds a second has.
const MILLIS: u64 = 1_000;

/// A service: what its threads share. Each of its methods may be called by any thread at any time, but for `tick` and `next_look`, which are
/// for the one thread that keeps the time.
#[derive(Drop)]
pub struct Service<A: Allocator + Copy = Global> {
    /// The allocator of the configuration, and of what is made while a datagram is handled.
    pub(crate) alloc: A,
    /// The allocator of what is told.
    pub(crate) heap: Global,
    pub(crate) settings: CurrentSettings<A>,
    pub(crate) admission: ServiceAdmission,
    pub(crate) users: ServiceUsers<A>,
    pub(crate) calls: ServiceCalls<A>,
    journal: JournalQueue,
    pub(crate) counts: Counts,
}

impl<A: Allocator + Copy> Service<A> {
    /// A service without a call and without a binding, by this configuration. Calls and their deadlines, the configuration, and what is made while a datagram is
    /// handled have their memory from `alloc`, all else from `heap`.
    ///
    /// # Errors
    ///
    /// Only where the allocator refuses.
    pub fn new(
        alloc: A,
        heap: Global,
        configuration: Configuration<A>,
        terms: RunSettings,
    ) -> Result<Service<A>, AllocError> {
        let calls = ServiceCalls::new(alloc, heap)?;
        let registry = Registry::new(alloc, terms.most_bindings, terms.secret, terms.began)?;
        let settings = CurrentSettings::new(alloc, configuration, terms)?;
        Ok(Service {
            alloc,
            heap,
            settings,
            admission: ServiceAdmission::new(terms.most_calls),
            users: ServiceUsers::new(alloc, heap, registry, terms.has_store),
            calls,
            journal: JournalQueue::new(heap),
            counts: Counts::new(),
        })
    }

    /// The calls that it keeps.
    pub fn calls(&self) -> &ServiceCalls<A> {
        &self.calls
    }

    /// What it has of its users.
    pub fn users(&self) -> &ServiceUsers<A> {
        &self.users
    }

    /// What it has counted since its start, to count on and to read: each counter may be added to by any thread.
    pub fn counts(&self) -> &Counts {
        &self.counts
    }

    /// The blocks that wait to be written.
    pub fn journal(&self) -> &JournalQueue {
        &self.journal
    }

    /// Where calls are written down at their end, if they are.
    pub(crate) fn kept_journal(&self) -> Option<&JournalQueue> {
        if self.settings.terms.has_journal {
            Some(&self.journal)
        } else {
            None
        }
    }

    /// A look at a call at this moment, in milliseconds.
    pub(crate) fn visit(&self, now: u64) -> Visit<'_> {
        Visit {
            now,
            is_first: false,
            admission: &self.admission,
            journal: self.kept_journal(),
            counts: &self.counts.calls,
        }
    }

    /// Begins the end, which comes within so many seconds of `now`, in milliseconds: from now on OPTIONS and requests outside of dialogs are
    /// answered 503. Where it has begun before, it comes within the seconds that are said now.
    pub fn drain(&self, now: u64, seconds: u64) {
        self.admission.lifetime.drain(now, seconds);
        self.calls.schedule().wake();
    }

    /// Ends, and wakes the thread that keeps the time, and the one that keeps changes of bindings.
    pub fn end(&self) {
        self.admission.lifetime.end();
        self.calls.schedule().wake();
        self.users.changes.wake();
    }

    /// Whether it stands so at this moment: it serves until `drain` or `end` is called, drains until `next_look` or `end` ends it, and has
    /// ended from then on.
    pub fn is_in(&self, state: ServiceState) -> bool {
        self.admission.lifetime.is_in(state)
    }

    /// Goes by the configuration that a text spells, and by the users that another one lists, where it has a realm; calls keep what they
    /// were opened with, and no binding is taken away.
    ///
    /// # Errors
    ///
    /// `TooLong` over 1,048,576 bytes; `Line` with the first malformed line; `Users` where a realm has no list of users, or a list no realm,
    /// or with the first malformed line of the list; `Identity` where it has another address or instance; `NoMemory` where the allocator
    /// refuses. Then the configuration before stays.
    pub fn reload<R: Wait>(
        &self,
        rt: &R,
        text: &[u8],
        users: Option<&[u8]>,
    ) -> Result<(), DaemonFault> {
        let configuration = configuration_of(self.alloc, text, users, &self.settings.terms)?;
        let old = mem::replace(&mut *self.settings.configuration.write(rt), configuration);
        // Its memory is given back here, where no lock is held.
        drop(old);
        Ok(())
    }

    /// The counters at this moment, in milliseconds, in the text form of Prometheus, with how many bytes of memory the process has.
    ///
    /// # Errors
    ///
    /// Only where the allocator refuses.
    pub fn stats<R: Wait>(
        &self,
        rt: &R,
        now: u64,
        resident: Option<u64>,
    ) -> Result<Vec<u8>, AllocError> {
        let gauges = Gauges {
            seconds: now / MILLIS,
            held: self.calls.held(rt),
            bindings: self.users.registry.count(rt),
            resident,
        };
        self.counts.text(self.heap, gauges)
    }
}
