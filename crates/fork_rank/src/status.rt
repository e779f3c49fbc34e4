//! Status codes, by what they may mean to a fork.
ghost use Rattle.std.specs.Prelude.{◌≡◌, ◌≤◌, ◌<◌, ◌↔◌, ℕ, IsSome, IfSome};
ghost use Rattle.fork_rank.specs.Classes.{IsOfClass};

use crate::StatusClass;
use std::marker::Model;

/// The status of a final response, 200 to 699 (RFC 3261 section 7.2).
#[derive(Clone, Copy, PartialEq, Eq, Debug)]
pub struct Status {
    code: u16,
}

impl Model for Status {
    ghost Value = { ℕ };

    ghost view = { λ s. s.code };

    ghost invariant = { λ s. (200 ≤ s.code) × (s.code < 700) };

    ghost inverse = { λ n. record { code = n } };
}

impl Status {
    /// The status with this code; `None` where the code is none of a final response.
    pub fn of(code: u16) -> Option<Status>
        ensures valid { IsSome result ↔ ((200 ≤ code) × (code < 700)) }
        ensures value { IfSome result (λ status. status ≡ code) }
    {
        if code >= 200 && code < 700 {
            Some(Status { code })
        } else {
            None
        }
    }

    /// 408 Request Timeout (RFC 3261 section 21.4.9), which is assumed where a branch gave no answer in time.
    pub fn request_timeout() -> Status
        ensures { result ≡ 408 }
    {
        Status { code: 408 }
    }

    /// 503 Service Unavailable (RFC 3261 section 21.5.4), which is assumed where a branch could not be reached
    /// (section 16.9).
    pub fn service_unavailable() -> Status
        ensures { result ≡ 503 }
    {
        Status { code: 503 }
    }

    /// The code, 200 to 699.
    pub fn code(self) -> u16
        ensures value { result ≡ self }
        ensures range { (200 ≤ result) × (result < 700) }
    {
        self.code
    }

    /// Its class (RFC 3261 section 7.2), which is none of 1xx.
    pub fn class(self) -> StatusClass
        ensures class { IsOfClass result self }
        ensures range { (200 ≤ self) × (self < 700) }
    {
        StatusClass::of(self.code)
    }
}
