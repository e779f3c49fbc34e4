//! Tests of when a connection is closed, each limit at its last millisecond and behind it.
use crate::holds::holds;
use stream_connections::{ClosingCause, ReceivedTimes, SendingState, SentTimes, closing_cause};

/// A connection's times, and why it is closed at a moment where it may be silent for 600 seconds.
#[derive(Clone, Copy)]
struct Row {
    heard: u64,
    unfinished: Option<u64>,
    moved: u64,
    state: SendingState,
    now: u64,
    cause: Option<ClosingCause>,
}

const fn expected(
    times: (u64, Option<u64>, u64),
    state: SendingState,
    now: u64,
    cause: Option<ClosingCause>,
) -> Row {
    let (heard, unfinished, moved) = times;
    Row {
        heard,
        unfinished,
        moved,
        state,
        now,
        cause,
    }
}

/// The cause of a row as it is told.
fn told(row: Row) -> Option<ClosingCause> {
    let received = ReceivedTimes {
        heard: row.heard,
        unfinished: row.unfinished,
    };
    let sent = SentTimes {
        moved: row.moved,
        state: row.state,
    };
    closing_cause(received, sent, 600_000, row.now)
}

/// The rows.
fn rows() -> [Row; 11] {
    let connecting = SendingState::Connecting;
    let waiting = SendingState::Waiting;
    let resting = SendingState::Resting;
    [
        expected((100, None, 100), connecting, 32_100, None),
        expected(
            (100, None, 100),
            connecting,
            32_101,
            Some(ClosingCause::Unreachable),
        ),
        expected((100, None, 100), waiting, 5_100, None),
        expected((100, None, 100), waiting, 5_101, Some(ClosingCause::Slow)),
        expected((5_000, Some(100), 100), resting, 32_100, None),
        expected(
            (32_000, Some(100), 100),
            resting,
            32_101,
            Some(ClosingCause::Unfinished),
        ),
        expected((100, None, 50), resting, 600_100, None),
        expected((100, None, 50), resting, 600_101, Some(ClosingCause::Idle)),
        expected((50, None, 100), resting, 600_100, None),
        expected((50, None, 100), resting, 600_101, Some(ClosingCause::Idle)),
        expected(
            (100, Some(100), 100),
            waiting,
            700_000,
            Some(ClosingCause::Slow),
        ),
    ]
}

#[test]
fn each_limit_has_its_last_millisecond(rt: HostRuntime) {
    for row in rows() {
        holds(&rt, told(row) == row.cause, "a row");
    }
}
