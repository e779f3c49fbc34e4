//! What the state of a branch shows.
ghost use Rattle.std.specs.Prelude.{◌≡◌};
ghost use Rattle.call_state.specs.inner.StatesShown as shown;

use fork_context::{End, State};

/// Whether the branch was tried, and no response to it has come.
pub(crate) fn shows_trying(state: Option<State>) -> bool
    ensures { result ≡ shown.shows_trying state }
{
    match state {
        Some(State::Trying) => true,
        Some(State::Idle | State::Rung { .. } | State::Ended(_)) | None => false,
    }
}

/// Whether the branch was tried, and has not ended.
pub(crate) fn shows_open(state: Option<State>) -> bool
    ensures { result ≡ shown.shows_open state }
{
    match state {
        Some(State::Trying | State::Rung { .. }) => true,
        Some(State::Idle | State::Ended(_)) | None => false,
    }
}

/// Three tests of one state: whether the branch was tried and no response to it has come; whether it is cancelled and has not
/// ended; and whether it was tried, and is neither cancelled nor has it ended.
pub(crate) fn state_flags(state: Option<State>) -> (bool, bool, bool)
    ensures trying { result.0 ≡ shown.shows_trying state }
    ensures cancelled { result.1 ≡ shown.shows_cancelled state }
    ensures timer_c { result.2 ≡ shown.shows_timer_c state }
{
    match state {
        Some(State::Trying) => (true, false, true),
        Some(State::Rung { cancelled }) => (false, cancelled, !cancelled),
        Some(State::Idle | State::Ended(_)) | None => (false, false, false),
    }
}

/// Whether the branch ended with an answer that it gave.
pub(crate) fn shows_received(state: Option<State>) -> bool
    ensures { result ≡ shown.shows_received state }
{
    match state {
        Some(State::Ended(End::Stored { received, .. })) => received,
        Some(State::Idle | State::Trying | State::Rung { .. } | State::Ended(_)) | None => false,
    }
}
