//! Status codes of provisional responses.
ghost use Rattle.std.specs.Prelude.{◌≡◌, ◌≤◌, ◌<◌, ◌↔◌, ℕ, IsSome, IfSome};

use std::marker::Model;

/// The status of a provisional response, 100 to 199 (RFC 3261 section 7.2).
#[derive(Clone, Copy, PartialEq, Eq, Debug)]
pub struct RingStatus {
    code: u16,
}

impl Model for RingStatus {
    ghost Value = { ℕ };

    ghost view = { λ s. s.code };

    ghost invariant = { λ s. (100 ≤ s.code) × (s.code < 200) };

    ghost inverse = { λ n. record { code = n } };
}

impl RingStatus {
    /// The status with this code; `None` where the code is none of a provisional response.
    pub fn of(code: u16) -> Option<RingStatus>
        ensures valid { IsSome result ↔ ((100 ≤ code) × (code < 200)) }
        ensures value { IfSome result (λ status. status ≡ code) }
    {
        if code >= 100 && code < 200 {
            Some(RingStatus { code })
        } else {
            None
        }
    }

    /// The code, 100 to 199.
    pub fn code(self) -> u16
        ensures value { result ≡ self }
        ensures range { (100 ≤ result) × (result < 200) }
    {
        self.code
    }
}
