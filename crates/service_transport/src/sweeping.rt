//! What the thread of connections does with all of them: once a second it closes those whose time is over, and at the end all.
use crate::connections::{ClosedBy, ConnectionWorker};
use std::sync::Wait;
use std::time::Clock;
use stream_connections::ClosingCause;
use stream_sockets::ConnectionSockets;

/// How many connections are looked at between two looks at the table.
const MOST_AT_ONCE: usize = 256;

/// How many milliseconds a second has.
const SECOND: u64 = 1_000;

/// Why a connection is closed, as it is counted.
fn closed_by(cause: ClosingCause) -> ClosedBy {
    match cause {
        ClosingCause::Unreachable => ClosedBy::Failure,
        ClosingCause::Slow => ClosedBy::Slowness,
        ClosingCause::Unfinished => ClosedBy::Unreadable,
        ClosingCause::Idle => ClosedBy::Silence,
    }
}

impl<'a, R: Wait + ConnectionSockets + Clock> ConnectionWorker<'a, R> {
    /// The numbers of the next connections behind this one; none where the allocator refuses.
    fn numbers_behind(&self, rt: &R, after: u64) -> Vec<u64> {
        let mut numbers = Vec::new(self.alloc);
        if self
            .streams
            .append_numbers(rt, after, MOST_AT_ONCE, &mut numbers)
            .is_err()
        {
            numbers.clear();
        }
        numbers
    }

    /// Closes a connection where its time is over, or a thread that wrote has given it up.
    fn look_at(&mut self, rt: &R, number: u64, now: u64) {
        let Some(connection) = self.streams.get(rt, number) else {
            return;
        };
        if connection.is_given_up(rt) {
            self.close(rt, number, ClosedBy::Failure);
            return;
        }
        let longest = self.streams.longest_silence();
        if let Some(cause) = connection.closing_cause(rt, longest, now) {
            self.close(rt, number, closed_by(cause));
        }
    }

    /// Looks at all connections, once a second.
    pub(crate) fn sweep(&mut self, rt: &R) {
        let now = self.worker.millis(rt);
        if now / SECOND == self.swept {
            return;
        }
        self.swept = now / SECOND;
        self.note_listener();
        let mut after = 0;
        for _ in rt.forever() {
            let numbers = self.numbers_behind(rt, after);
            if numbers.is_empty() {
                return;
            }
            for number in numbers {
                self.look_at(rt, number, now);
                after = number;
            }
        }
        unreachable!()
    }

    /// Whether something waits at a connection to be written.
    pub(crate) fn has_waiting(&self, rt: &R) -> bool {
        let mut after = 0;
        for _ in rt.forever() {
            let numbers = self.numbers_behind(rt, after);
            if numbers.is_empty() {
                return false;
            }
            for number in numbers {
                if let Some(connection) = self.streams.get(rt, number) {
                    if connection.has_waiting(rt) {
                        return true;
                    }
                }
                after = number;
            }
        }
        unreachable!()
    }

    /// Closes all connections at the end.
    pub(crate) fn close_all(&mut self, rt: &R) {
        for _ in rt.forever() {
            let numbers = self.numbers_behind(rt, 0);
            if numbers.is_empty() {
                return;
            }
            for number in numbers {
                self.close_at_end(rt, number);
            }
        }
        unreachable!()
    }
}
