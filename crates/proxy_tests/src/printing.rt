//! What is printed of a context, and what is read of a script, line by line.
use crate::holds::holds;
use fork_context::{Context, Event, Kind, Target};
use fork_program::{ScriptDraft, ScriptPhase, append_ending, append_opening, append_reply};
use fork_rank::Rules;
use std::alloc::Global;

/// What is printed of an INVITE with two targets, the second of which times out and then the first.
const PRINTED: &str =
    "opening start 0,1\n0 start - cancel - up -\n1 start - cancel - up final 408 1\nfork 3 2\nprefer 401,407,415,420,484\ndepth 256\ntarget 0 - 1000 stored 408 1 assumed\ntarget 1 - 1000 stored 408 0 assumed\nrank 408 1 0\nrank 408 0 1\nfinal 408 1\n";

/// Puts a target of this key behind others, and says whether there was memory for it.
fn add_target(alloc: Global, targets: &mut Vec<Target>, key: &[u8]) -> bool {
    match Vec::from_slice(alloc, key) {
        Ok(key) => targets.push(Target::new(key, 1000)).is_ok(),
        Err(_) => false,
    }
}

/// The targets.
fn targets(alloc: Global) -> Option<Vec<Target>> {
    let mut targets = Vec::new(alloc);
    if add_target(alloc, &mut targets, b"a") && add_target(alloc, &mut targets, b"b") {
        Some(targets)
    } else {
        None
    }
}

/// The context of an INVITE to both.
fn opened(alloc: Global) -> Option<Context> {
    let targets = targets(alloc)?;
    match Context::new(alloc, Kind::Invite, Rules::usual(), targets) {
        Ok(context) => Some(context),
        Err(_) => None,
    }
}

/// Whether the reply to an event is printed.
fn replies(text: &mut Vec<u8>, context: &mut Context, event: Event) -> bool {
    match context.post(event) {
        Ok(reply) => append_reply(text, context, &reply).is_ok(),
        Err(_) => false,
    }
}

/// Whether all of it is printed so.
fn is_printed(alloc: Global, context: &mut Context) -> bool {
    let mut text = Vec::new(alloc);
    append_opening(alloc, &mut text, context).is_ok()
        && replies(&mut text, context, Event::Timeout(1))
        && replies(&mut text, context, Event::Timeout(0))
        && append_ending(alloc, &mut text, context).is_ok()
        && text.as_slice() == PRINTED.as_bytes()
}

#[test]
fn a_context_is_printed_line_by_line(rt: HostRuntime) {
    let alloc = rt.alloc();
    match opened(alloc) {
        Some(mut context) => holds(&rt, is_printed(alloc, &mut context), "all lines"),
        None => holds(&rt, false, "a context"),
    }
}

/// Whether the lines of a script are added in their order alone.
fn adds_in_order(alloc: Global) -> bool {
    let Ok(mut draft) = ScriptDraft::new(&alloc) else {
        return false;
    };
    draft.add(&alloc, b"target 1000 a") == Ok(false)
        && draft.add(&alloc, b"kind INVITE") == Ok(true)
        && draft.add(&alloc, b"kind INVITE") == Ok(false)
        && draft.add(&alloc, b"target 1000 a") == Ok(true)
}

#[test]
fn a_script_begins_with_its_kind(rt: HostRuntime) {
    holds(&rt, adds_in_order(rt.alloc()), "a kind, then a target");
    holds(&rt, !ScriptPhase::AtKind.has_kind(), "no line was read");
    holds(&rt, ScriptPhase::AtEvents.has_kind(), "the kind was read");
}
