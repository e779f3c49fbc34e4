//! The comparison of a history with the scripts that were given.
ghost use Rattle.std.specs.Prelude.{◌≡◌, ◌↔◌, ◌<◌, ◌+◌, ◌^◌, IsTrue, All, map, length, sum_by};
ghost use Rattle.context_values.specs.EventView.{event_of};
ghost use Rattle.fork_engine.specs.Interleaving.{part_of, ArePartsFrom, IsInterleaving};

use crate::same::is_same_event;
use fork_book::Posted;
use fork_context::Event;
use std::alloc::Allocator;

/// Whether the events with this tag are the script.
pub(crate) fn is_part<A: Allocator>(history: &[Posted<A>], tag: usize, script: &[Event<A>]) -> bool
    ensures { IsTrue result ↔ (part_of tag history.now ≡ map event_of script.now) }
{
    let mut rest = history;
    let mut left = script;
    while let Some((first, others)) = rest.split_first() {
        if usize::from(first.tag()) == tag {
            let Some((event, more)) = left.split_first() else {
                return false;
            };
            if !is_same_event(first.event(), event) {
                return false;
            }
            left = more;
        }
        rest = others;
    }
    left.is_empty()
}

/// Whether each worker from this one on has its script in the history.
pub(crate) fn are_parts<A: Allocator>(
    history: &[Posted<A>],
    from: usize,
    scripts: &[Vec<Event<A>, A>],
) -> bool
    requires { from + length scripts.now < 2 ^ 64 }
    ensures { IsTrue result ↔ ArePartsFrom from (map (λ s. map event_of s.items) scripts.now) history.now }
{
    match scripts.split_first() {
        None => true,
        Some((script, others)) => {
            is_part(history, from, script.as_slice()) && are_parts(history, from + 1, others)
        }
    }
}

/// Whether each tag is below a number.
pub(crate) fn are_known<A: Allocator>(history: &[Posted<A>], count: usize) -> bool
    ensures { IsTrue result ↔ All (λ post. post.tag < count) history.now }
{
    history.iter().all(|post| usize::from(post.tag()) < count)
}

/// Whether the history is an interleaving of the scripts.
pub fn is_interleaving<A: Allocator>(history: &[Posted<A>], scripts: &[Vec<Event<A>, A>]) -> bool
    requires { length scripts.now < 2 ^ 32 }
    ensures { IsTrue result ↔ IsInterleaving (map (λ s. map event_of s.items) scripts.now) history.now }
{
    are_known(history, scripts.len()) && are_parts(history, 0, scripts)
}

/// Whether the scripts have more than a number of events together.
pub fn have_more_events<A: Allocator>(scripts: &[Vec<Event<A>, A>], limit: usize) -> bool
    ensures { IsTrue result ↔ (limit < sum_by length (map (λ s. map event_of s.items) scripts.now)) }
{
    match scripts.split_first() {
        None => false,
        Some((script, others)) => script.len() > limit
            || have_more_events(others, limit - script.len()),
    }
}
