//! Since when a branch stands as it does.
ghost use Rattle.std.specs.Prelude.{◌≡◌};
ghost use Rattle.call_journal.specs.Since.{first_at, is_at, since_of};

use crate::notes::{Note, NotedEvent};
use fork_context::State;

/// What brings a branch to where it stands.
#[derive(Clone, Copy, PartialEq, Eq, Debug)]
pub(crate) enum Stage {
    Rang,
    Cancelled,
    /// It ended, whether or not it was cancelled before.
    Ended,
    /// Its time was over: it ended, or was cancelled.
    TimedOut,
}

/// Whether this brings a branch to such a stage.
fn is_at(stage: Stage, what: NotedEvent) -> bool
    ensures { result ≡ is_at stage what }
{
    match what {
        NotedEvent::Rang(_) => matches!(stage, Stage::Rang),
        NotedEvent::Cancelled => matches!(stage, Stage::Cancelled),
        NotedEvent::TimedOut => matches!(stage, Stage::TimedOut),
        NotedEvent::Answered(_) | NotedEvent::TransportError | NotedEvent::GivenUp => {
            matches!(stage, Stage::Ended)
        }
    }
}

/// When a target was first brought to a stage.
fn first_at(notes: &[Note], n: u16, stage: Stage) -> Option<u64>
    ensures { result ≡ first_at notes.now n stage }
{
    for note in notes {
        if note.target == n && is_at(stage, note.what) {
            return Some(note.at);
        }
    }
    None
}

/// Since when the branch of a target stands so, in milliseconds since its call was opened; None where no note says so: it waits for its group,
/// or nothing has come from it.
pub fn since(notes: &[Note], n: u16, state: State) -> Option<u64>
    ensures { result ≡ since_of notes.now n state }
{
    match state {
        State::Idle | State::Trying => None,
        State::Rung { cancelled: false } => first_at(notes, n, Stage::Rang),
        State::Rung { cancelled: true } => first_at(notes, n, Stage::Cancelled),
        State::Ended(_) => match first_at(notes, n, Stage::Ended) {
            Some(at) => Some(at),
            None => first_at(notes, n, Stage::TimedOut),
        },
    }
}
