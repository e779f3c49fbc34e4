//! What the faults of the crates that read and build messages say.
use crate::holds::holds;
use sip_text::{MandatoryHeader, ReadFault};
use sip_uri::UriFault;
use sip_via::{BuildFault, ViaFault};
use std::alloc::{AllocError, Global};

fn words_of_uri(alloc: Global, fault: UriFault) -> Result<String, AllocError> {
    format!(in alloc; "{fault}")
}

fn words_of_via(alloc: Global, fault: ViaFault) -> Result<String, AllocError> {
    format!(in alloc; "{fault}")
}

fn words_of_build(alloc: Global, fault: BuildFault) -> Result<String, AllocError> {
    format!(in alloc; "{fault}")
}

fn words_of_read(alloc: Global, fault: &ReadFault<Global>) -> Result<String, AllocError> {
    format!(in alloc; "{fault}")
}

/// Whether these are the words that were wanted.
fn are(words: Result<String, AllocError>, wanted: &str) -> bool {
    match words {
        Ok(words) => words.as_str() == wanted,
        Err(_) => false,
    }
}

#[test]
fn each_fault_has_words(rt: HostRuntime) {
    let port = words_of_uri(rt.alloc(), UriFault::BadPort);
    holds(
        &rt,
        are(port, "the port is no number from 1 to 65535"),
        "of a URI",
    );
    let via = words_of_via(rt.alloc(), ViaFault::BadVia);
    holds(&rt, are(via, "the value is no Via value"), "of a Via value");
    let build = words_of_build(rt.alloc(), BuildFault::NoMemory);
    holds(
        &rt,
        are(build, "out of memory"),
        "of a message that is built",
    );
    let read = words_of_read(rt.alloc(), &ReadFault::Missing(MandatoryHeader::Via));
    holds(
        &rt,
        are(read, "a header field that every message has is missing"),
        "of a message that is read",
    );
}
