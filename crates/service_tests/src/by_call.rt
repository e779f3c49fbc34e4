//! The Call-ID of a datagram, and the group of calls that its call is of.
use crate::holds::holds;
use proxy_threads::{call_id, group_of};
use std::alloc::AllocError;

/// Datagrams, and the Call-ID that is found in each.
const TEXTS: [(&[u8], Option<&[u8]>); 15] = [
    (
        b"OPTIONS sip:a SIP/2.0\r\nCall-ID: a84b4c76e66710@pc33\r\nCSeq: 1 OPTIONS\r\n\r\n",
        Some(b"a84b4c76e66710@pc33"),
    ),
    (b"SIP/2.0 200 OK\r\nVia: x\r\ni:q\r\n\r\n", Some(b"q")),
    (b"SIP/2.0 200 OK\r\nI\t: q\r\n\r\n", Some(b"q")),
    (b"SIP/2.0 200 OK\r\ncall-id :  q \r\n\r\n", Some(b"q")),
    (b"SIP/2.0 200 OK\r\nCALL-ID:\r\n\tq\r\n\r\n", Some(b"q")),
    (b"SIP/2.0 200 OK\r\nCall-ID:q\r\n r\r\n\r\n", Some(b"q")),
    (b"SIP/2.0 200 OK\nCall-ID: q\n\n", Some(b"q")),
    (b"SIP/2.0 200 OK\r\nCall-ID: q", Some(b"q")),
    (
        b"SIP/2.0 200 OK\r\nIn-Reply-To: p\r\nCall-Info: p\r\nCall-ID: q\r\ni: r\r\n\r\n",
        Some(b"q"),
    ),
    (b"SIP/2.0 200 OK\r\nCall-ID:\r\nVia: x\r\n\r\n", Some(b"")),
    (b"SIP/2.0 200 OK\r\nCall-IDs: q\r\n\r\n", None),
    (b"SIP/2.0 200 OK\r\n Call-ID: q\r\n\r\n", None),
    (b"Call-ID: q\r\nVia: x\r\n\r\n", None),
    (b"i: q", None),
    (b"", None),
];

#[test]
fn a_call_id_is_found(rt: HostRuntime) {
    for (text, expected) in TEXTS {
        holds(&rt, call_id(text) == expected, "the Call-ID of a datagram");
        holds(
            &rt,
            group_of(text).is_some() == expected.is_some(),
            "a datagram with a Call-ID is of a group",
        );
    }
}

#[test]
fn calls_are_of_many_groups(rt: HostRuntime) -> Result<(), AllocError> {
    let mut has_come = [false; 256];
    for call in 0..1_000u32 {
        let request = format!(in rt.alloc();
            "INVITE sip:a SIP/2.0\r\nCall-ID: {call}-4711@192.0.2.1\r\n\r\n"
        )?;
        let answer = format!(in rt.alloc();
            "SIP/2.0 180 Ringing\r\nVia: x\r\ni:{call}-4711@192.0.2.1\r\n\r\n"
        )?;
        let group = group_of(request.as_bytes());
        holds(
            &rt,
            group == group_of(answer.as_bytes()),
            "an answer is of the group of its request",
        );
        if let Some(group) = group {
            has_come[usize::from(group)] = true;
        }
    }
    let groups = has_come.iter().filter(|has_come| **has_come).count();
    holds(&rt, groups > 200, "a thousand calls are of most groups");
    Ok(())
}
