//! Targets of forks and events of scripts, with memory enough.
use crate::answers::discard;
use crate::sources::Alloc;
use fork_context::{Event, Target};
use fork_program::{MOST_TEXT, Script};
use std::collections::VecDeque;

/// The events of a script, in their order.
pub type EventList<'a> = VecDeque<Event<Alloc<'a>>, Alloc<'a>>;

/// Targets, where they take their memory.
type TargetList<'a> = Vec<Target<Alloc<'a>>, Alloc<'a>>;

/// The events of the script that this text is; none where it is no script.
pub fn events<'a>(ample: Alloc<'a>, text: &[u8]) -> EventList<'a> {
    if text.len() > MOST_TEXT {
        return VecDeque::new(ample);
    }
    match Script::read(&ample, text) {
        Ok(
            Script {
                kind: _kind,
                rules: _rules,
                targets,
                events,
            },
        ) => {
            discard(targets);
            events
        }
        Err(_) => VecDeque::new(ample),
    }
}

/// The targets of a fork: so many, whose keys are a byte each from 0 on, all of q 1, but for the last, which may have 0.5.
#[derive(Clone, Copy)]
pub struct Aims {
    pub count: u8,
    pub is_last_later: bool,
}

/// The target of this key.
fn target_of<'a>(key: Vec<u8, Alloc<'a>>, is_later: bool) -> Target<Alloc<'a>> {
    if is_later {
        Target::new(key, 500)
    } else {
        Target::new(key, 1000)
    }
}

/// Adds a target whose key is this byte; whether there was memory for it.
fn pushes<'a>(ample: Alloc<'a>, targets: &mut TargetList<'a>, byte: u8, is_later: bool) -> bool {
    match Vec::from_slice(ample, &[byte]) {
        Ok(key) => match targets.push(target_of(key, is_later)) {
            Ok(()) => true,
            Err(failed) => {
                discard(failed);
                false
            }
        },
        Err(_) => false,
    }
}

/// These targets.
pub fn targets<'a>(ample: Alloc<'a>, aims: Aims) -> TargetList<'a> {
    let mut targets = Vec::new(ample);
    let mut well = true;
    for byte in 0..aims.count {
        let is_last = byte.saturating_add(1) == aims.count;
        well = well && pushes(ample, &mut targets, byte, is_last && aims.is_last_later);
    }
    targets
}
