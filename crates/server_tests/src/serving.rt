//! A proxy that is set up, serves and ends.
use crate::holds::holds;
use crate::printed::Printed;
use serve_command::{ServeFault, parse_serve_args, serve_to};
use sip_uri::Hop;
use sockets::print_listening;
use std::alloc::{AllocError, Global};
use std::test::Fail;

/// A configuration with a user at two telephones.
const CONFIGURATION: &[u8] =
    b"own 127.0.0.1 47311\ninstance 7\ndomain example.com\nlocation bob 1000 sip:bob@127.0.0.1:47312\nlocation bob 500 sip:bob@127.0.0.1:47313\n";

#[test]
fn one_turn_is_served(rt: HostRuntime) -> Result<(), Fail> {
    let printed = Printed::new(rt, rt.alloc());
    let served = serve_to(&rt, &printed, rt.alloc(), CONFIGURATION, 1);
    holds(&rt, served.is_ok(), "a proxy serves");
    holds(
        &rt,
        printed.is(b"listening 127.0.0.1 47311\nturns 1\n"),
        "it says where it listens, and how many turns there were",
    );
    Ok(())
}

#[test]
fn a_malformed_line_is_named(rt: HostRuntime) -> Result<(), Fail> {
    let printed = Printed::new(rt, rt.alloc());
    let text = b"own 127.0.0.1 47314\ninstance seven\n";
    let served = serve_to(&rt, &printed, rt.alloc(), text, 1);
    holds(
        &rt,
        served == Err(ServeFault::Line(2)),
        "line 2 is malformed",
    );
    holds(&rt, printed.is(b""), "nothing is printed");
    Ok(())
}

/// So many bytes that are no configuration.
fn filled(alloc: Global, count: usize) -> Result<Vec<u8>, AllocError> {
    vec![in alloc; b'x'; count]
}

#[test]
fn a_long_text_is_refused(rt: HostRuntime) -> Result<(), Fail> {
    let printed = Printed::new(rt, rt.alloc());
    for (count, fault) in [
        (1_048_577, ServeFault::TooLong),
        (1_048_576, ServeFault::Line(1)),
    ] {
        let text = filled(rt.alloc(), count)?;
        let served = serve_to(&rt, &printed, rt.alloc(), &text, 1);
        holds(&rt, served == Err(fault), "the text is no configuration");
    }
    holds(&rt, printed.is(b""), "nothing is printed");
    Ok(())
}

#[test]
fn where_a_proxy_listens_is_printed(rt: HostRuntime) -> Result<(), Fail> {
    let printed = Printed::new(rt, rt.alloc());
    let told = print_listening(&printed, Hop::over_udp([192, 0, 2, 9], 5060));
    holds(&rt, told.is_ok(), "it is told");
    holds(
        &rt,
        printed.is(b"listening 192.0.2.9 5060\n"),
        "the address and the port",
    );
    Ok(())
}

/// Puts a word behind others, and says whether there was memory for it.
fn add_word(alloc: Global, words: &mut Vec<String>, text: &str) -> bool {
    let mut word = String::new(alloc);
    word.push_str(text).is_ok() && words.push(word).is_ok()
}

/// For how many turns these arguments ask to serve.
fn asked(alloc: Global, command: &str, turns: &str) -> Option<u32> {
    let mut words = Vec::new(alloc);
    if add_word(alloc, &mut words, "forkproxy")
        && add_word(alloc, &mut words, command)
        && add_word(alloc, &mut words, turns)
    {
        parse_serve_args(&words)
    } else {
        None
    }
}

#[test]
fn arguments_say_for_how_many_turns(rt: HostRuntime) {
    for (command, turns, wanted) in [
        ("serve", "7", Some(7)),
        ("serve", "1000000", Some(1_000_000)),
        ("serve", "1000001", None),
        ("serve", "0", None),
        ("serve", "07", None),
        ("served", "7", None),
    ] {
        let well = asked(rt.alloc(), command, turns) == wanted;
        holds(&rt, well, "for how many turns a proxy serves");
    }
}

#[test]
fn a_fault_has_its_exit_status(rt: HostRuntime) {
    for (fault, status) in [
        (ServeFault::TooLong, 1),
        (ServeFault::Line(2), 1),
        (ServeFault::NoMemory, 3),
        (ServeFault::Socket, 5),
    ] {
        holds(&rt, fault.status() == status, "the status of a fault");
    }
}
