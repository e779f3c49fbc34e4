//! The one way in which a test checks.
use service_config::ServiceSettings;
use std::alloc::Global;
use std::process::Abort;

/// Ends the test where this does not hold. `what` says which check it is.
pub fn holds(rt: &impl Abort, well: bool, what: &str) {
    assert!(rt; well, "{what}");
}

/// Ends the test where this does not hold of this text. `what` says which check it is.
pub fn holds_of(rt: &impl Abort, well: bool, what: &str, text: &[u8]) {
    assert!(rt; well, "{what}: {text:?}");
}

/// What a text sets up in a run with the number 9, with connections or without; None where it is malformed.
pub fn settings_with(alloc: Global, streams: bool, text: &[u8]) -> Option<ServiceSettings> {
    match ServiceSettings::read(alloc, text, 9, streams) {
        Ok(settings) => Some(settings),
        Err(_) => None,
    }
}

/// Without connections.
pub fn settings_of(alloc: Global, text: &[u8]) -> Option<ServiceSettings> {
    settings_with(alloc, false, text)
}
