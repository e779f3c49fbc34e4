//! Requests that open no call, and the status with which each is answered (RFC 3261 sections 16.3 to 16.6).
use crate::holds::holds;
use crate::requests::{Change, SETUP, SOURCE, request_with, setup_of};
use fork_call::{Call, RequestRejection, Setup, is_openable};
use std::alloc::Global;

/// The fault with which the request with this change opens no call by a setup.
fn fault_by(alloc: Global, setup: &Setup<Global>, change: Change) -> Option<RequestRejection> {
    let request = request_with(alloc, &[change])?;
    if !is_openable(&request) {
        return None;
    }
    match Call::open(alloc, setup, 3, request, SOURCE, 0) {
        Ok(_) => None,
        Err(fault) => Some(fault),
    }
}

/// The same by the setup with one location.
fn fault_with(alloc: Global, change: Change) -> Option<RequestRejection> {
    let setup = setup_of(alloc, SETUP)?;
    fault_by(alloc, &setup, change)
}

/// A change of the request, the fault that it makes, and its status.
const FAULTS: [(Change, RequestRejection, u16); 7] = [
    ((2, b"Max-Forwards: 0"), RequestRejection::Hops, 483),
    (
        (
            7,
            b"v: SIP/2.0/UDP 192.0.2.9:5060;branch=z9hG4bK8c31e71e0ddbf1a0e56f5f0279990857.7.3.0",
        ),
        RequestRejection::Loop,
        482,
    ),
    ((7, b"Proxy-Require: x"), RequestRejection::Extension, 420),
    (
        (0, b"OPTIONS sip:eve@example.com SIP/2.0"),
        RequestRejection::NoTarget,
        480,
    ),
    ((0, b"OPTIONS tel:1 SIP/2.0"), RequestRejection::Scheme, 416),
    (
        (0, b"OPTIONS sip:x@other.example SIP/2.0"),
        RequestRejection::NoHop,
        500,
    ),
    ((2, b"Max-Forwards: x"), RequestRejection::BadRequest, 400),
];

#[test]
fn each_refusal_has_its_status(rt: HostRuntime) {
    for (change, fault, status) in FAULTS {
        holds(
            &rt,
            fault_with(rt.alloc(), change) == Some(fault) && fault.status() == Some(status),
            "why a request opens no call",
        );
    }
}
