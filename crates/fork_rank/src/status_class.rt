//! The classes of statuses.
ghost use Rattle.fork_rank.specs.Classes.{IsOfClass};

/// What the first digit of a status says of a response (RFC 3261 section 7.2).
#[derive(Clone, Copy, PartialEq, Eq)]
pub enum StatusClass {
    /// 1xx: the request came, and its final response comes later.
    Provisional,
    /// 2xx: the request was accepted.
    Success,
    /// 3xx: the request may be sent to the contacts of the response.
    Redirection,
    /// 4xx: the request cannot be met by this server as it is.
    ClientError,
    /// 5xx: this server failed.
    ServerError,
    /// 6xx: no server can meet the request.
    GlobalFailure,
}

impl StatusClass {
    /// The class of a status. A number below 100, which is no status, counts as a 1xx, and one over 699 as a 6xx.
    pub fn of(status: u16) -> StatusClass
        ensures { IsOfClass result status }
    {
        match status {
            600.. => StatusClass::GlobalFailure,
            500.. => StatusClass::ServerError,
            400.. => StatusClass::ClientError,
            300.. => StatusClass::Redirection,
            200.. => StatusClass::Success,
            _ => StatusClass::Provisional,
        }
    }
}
