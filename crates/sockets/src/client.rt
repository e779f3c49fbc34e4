//! A client whose socket is waited for.
ghost use Rattle.std.specs.Prelude.{◌≡◌, ◌<◌, [], ℕ, Option, length, IfNone, IfSome};

/// A client whose socket is waited for. Its time is in milliseconds.
pub trait Polled {
    /// Its socket.
    fn descriptor(&self) -> i32;

    /// What is waited for at its socket: the events of `poll`.
    fn events(&self) -> i16;

    /// For how many milliseconds there is nothing to be done for it, if nothing comes of its socket; None where there is no limit.
    fn rest(&self, now: u64) -> Option<u64>;

    /// The moment at which its time is over; None for one whose time has no end.
    fn deadline(&self) -> Option<u64>;
}

/// The place of the client whose time is over first: the one to be closed where one more comes than there is room for. None where there
/// is no client.
pub fn place_of_first<C: Polled>(clients: &[C]) -> Option<usize>
    ensures place { IfSome result (λ place. place < length clients.now) }
    ensures none { IfNone result (clients.now ≡ []) }
{
    let mut first = None;
    let mut earliest = u64::MAX;
    for (place, client) in clients.iter().enumerate() {
        let deadline = client.deadline().unwrap_or(u64::MAX);
        if first.is_none() || deadline < earliest {
            first = Some(place);
            earliest = deadline;
        }
    }
    first
}
