//! What a row is, apart from the tree.
ghost use Rattle.std.specs.Prelude.{◌≡◌, not};
ghost use Rattle.fork_model.specs.Table.{is_idle};
ghost use Rattle.fork_tree.specs.States.{plain_state, has_ended};
ghost use Rattle.fork_tree.specs.inner.States.{closed_state};

use fork_rank::Status;

/// How a branch ended; an arrival is the position of the event that ended it.
#[derive(Clone, Copy, PartialEq, Eq, Debug)]
pub enum End {
    /// The branch ended with an answer that is stored: received from it, or assumed by the proxy.
    Stored {
        status: Status,
        arrival: u32,
        received: bool,
    },
    /// The branch ended with a 3xx all of whose contacts were taken as targets.
    Taken {
        arrival: u32,
    },
    /// The branch was cancelled, and given up without an answer.
    Silent {
        arrival: u32,
    },
    /// The branch was never tried.
    Never,
    /// The branch ended with a 2xx.
    Accepted {
        arrival: u32,
    },
}

/// Where a branch is.
#[derive(Clone, Copy, PartialEq, Eq, Debug)]
pub enum State {
    /// The branch waits for its group to start.
    Idle,
    /// The branch was tried, and has not rung.
    Trying,
    /// The branch has rung, and its CANCEL was sent or not.
    Rung { cancelled: bool },
    Ended(End),
}

/// What identifies a row and where it is: its number, the number of the row it stands under (None: an
/// initial target), its group there, its q in thousandths, its state.
#[derive(Clone, Copy, PartialEq, Eq, Debug)]
pub struct RowRef {
    pub no: u16,
    pub parent: Option<u16>,
    pub group: u16,
    pub q: u16,
    pub state: State,
}

impl State {
    /// The state once the fork is closed: a branch that waits is never tried.
    pub(crate) fn closed(self) -> State
        ensures { result ≡ closed_state self }
    {
        match self {
            State::Idle => State::Ended(End::Never),
            state => state,
        }
    }

    /// Whether the branch has ended.
    pub(crate) fn has_ended(&self) -> bool
        ensures { result ≡ has_ended self.now }
    {
        matches!(self, State::Ended(_))
    }

    /// Whether the branch waits no more.
    pub(crate) fn has_started(&self) -> bool
        ensures { result ≡ not (is_idle (plain_state self.now)) }
    {
        !matches!(self, State::Idle)
    }
}
