//! What a service counts of those who register and of those who may not call.
use crate::count::{Count, counter, labelled};
use crate::family::{Family, append_family};
use crate::metric::{MetricKind, append_metrics};
use std::alloc::AllocError;

/// REGISTERs that the registrar answered, by the status.
#[derive(Drop)]
pub struct RegistrationCounts {
    okay: Count,
    bad_request: Count,
    unauthorized: Count,
    forbidden: Count,
    not_found: Count,
    extension: Count,
    too_brief: Count,
    server_error: Count,
    unavailable: Count,
    others: Count,
}

impl RegistrationCounts {
    fn new() -> RegistrationCounts {
        RegistrationCounts {
            okay: Count::new(),
            bad_request: Count::new(),
            unauthorized: Count::new(),
            forbidden: Count::new(),
            not_found: Count::new(),
            extension: Count::new(),
            too_brief: Count::new(),
            server_error: Count::new(),
            unavailable: Count::new(),
            others: Count::new(),
        }
    }

    /// Counts a REGISTER that was answered with this status.
    pub fn add(&self, status: u16) {
        match status {
            200 => self.okay.add(1),
            400 => self.bad_request.add(1),
            401 => self.unauthorized.add(1),
            403 => self.forbidden.add(1),
            404 => self.not_found.add(1),
            420 => self.extension.add(1),
            423 => self.too_brief.add(1),
            500 => self.server_error.add(1),
            503 => self.unavailable.add(1),
            _ => self.others.add(1),
        }
    }

    fn append(&self, text: &mut Vec<u8>) -> Result<(), AllocError> {
        let values = [
            labelled(b"200", &self.okay),
            labelled(b"400", &self.bad_request),
            labelled(b"401", &self.unauthorized),
            labelled(b"403", &self.forbidden),
            labelled(b"404", &self.not_found),
            labelled(b"420", &self.extension),
            labelled(b"423", &self.too_brief),
            labelled(b"500", &self.server_error),
            labelled(b"503", &self.unavailable),
            labelled(b"other", &self.others),
        ];
        let family = Family {
            name: b"forkproxy_registrations_total",
            help: b"REGISTERs that were answered, by the status.",
            kind: MetricKind::Counter,
            label: b"status",
            values: &values,
        };
        append_family(text, &family)
    }
}

/// What a service counts of those who register and of those who may not call.
#[derive(Drop)]
pub struct SenderCounts {
    pub registrations: RegistrationCounts,
    /// Requests that were answered 401 or 407: their senders were asked who they are.
    pub challenged: Count,
    /// Requests of those who may not call that were answered otherwise, and their ACKs, which went nowhere.
    pub refused: Count,
    /// Credentials that were wrong, or another user's.
    pub wrong_credentials: Count,
    /// Changes of bindings that a store refused to keep: nothing was changed.
    pub unkept: Count,
}

impl SenderCounts {
    pub(crate) fn new() -> SenderCounts {
        SenderCounts {
            registrations: RegistrationCounts::new(),
            challenged: Count::new(),
            refused: Count::new(),
            wrong_credentials: Count::new(),
            unkept: Count::new(),
        }
    }

    /// Counts what a request was answered with for which no call is opened.
    pub fn turn(&self, status: u16) {
        match status {
            401 | 407 => self.challenged.add(1),
            _ => self.refused.add(1),
        }
    }

    pub(crate) fn append(&self, text: &mut Vec<u8>) -> Result<(), AllocError> {
        let metrics = [
            counter(
                b"forkproxy_challenged_total",
                b"Requests that were answered 401 or 407.",
                &self.challenged,
            ),
            counter(
                b"forkproxy_refused_total",
                b"Requests that their senders may not make, answered otherwise than 401 or 407, and their ACKs.",
                &self.refused,
            ),
            counter(
                b"forkproxy_wrong_credentials_total",
                b"Credentials that were wrong, or another user's.",
                &self.wrong_credentials,
            ),
            counter(
                b"forkproxy_unkept_total",
                b"Changes of bindings that the store refused to keep: nothing was changed.",
                &self.unkept,
            ),
        ];
        append_metrics(text, &metrics)?;
        self.registrations.append(text)
    }
}
