//! What a service hears as it looks at a call.
use crate::admission::ServiceAdmission;
use crate::targets::TargetSet;
use fork_call::Call;
use metrics::CallCounts;
use service_files::JournalQueue;
use std::alloc::{AllocError, Allocator};

/// A look at a call at a moment, and what of the service hears of what it shows.
#[derive(Clone, Copy)]
pub(crate) struct Visit<'a> {
    /// The moment, in milliseconds.
    pub(crate) now: u64,
    /// Whether the call was opened at this moment.
    pub(crate) is_first: bool,
    /// Hears of a place that is free again, of an INVITE that was answered, and of memory that was refused.
    pub(crate) admission: &'a ServiceAdmission,
    /// Where a call is written down at its end, if there is a journal.
    pub(crate) journal: Option<&'a JournalQueue>,
    pub(crate) counts: &'a CallCounts,
}

impl Visit<'_> {
    /// Notes that the memory for a deadline was refused, where it was: no call is opened for a second.
    pub(crate) fn note_missed(&self, listed: Result<(), AllocError>) {
        if listed.is_err() {
            self.counts.missed.add(1);
            self.admission.quota.close(self.now);
        }
    }

    /// Notes it where a 2xx went up to an INVITE.
    pub(crate) fn note_answer<A: Allocator + Clone>(&self, call: &Call<A>, has_answered: bool) {
        if has_answered && call.request().is_invite() && call.book().context().succeeded() {
            self.admission.lifetime.note_success(self.now);
        }
    }

    /// The targets to which a CANCEL went, where nothing was sent yet and that is noted.
    pub(crate) fn no_cancels(&self) -> Option<TargetSet> {
        self.journal.is_some().then_some(TargetSet::none())
    }

    /// Counts a call that was forgotten, whether it was counted as finished or not, and how it ended.
    pub(crate) fn count_forgotten(&self, was_finished: bool, failure: Option<u16>) {
        self.counts.forgotten.add(1);
        if !was_finished {
            self.counts.finished.add(1);
        }
        match failure {
            Some(status) => self.counts.failed.add(status),
            None => self.counts.answered.add(1),
        }
    }
}
