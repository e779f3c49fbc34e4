//! Why a REGISTER request changes nothing.

use std::alloc::AllocError;

/// Why a REGISTER request changes nothing, in the order in which the reasons are looked at.
#[derive(Clone, Copy, Debug, PartialEq, Eq)]
pub enum RegisterRefusal {
    /// `*` stands beside another contact, or without an Expires of 0 (RFC 3261 section 10.3 step 6).
    Star,
    /// It has more than 16 contacts.
    TooMany,
    /// Two of its contacts name the same binding.
    Twice,
    /// A contact is to be bound for fewer seconds than may be (section 10.3 step 7).
    TooBrief,
    /// A binding that it names was made by a request of the same Call-ID, with the same CSeq number or a higher one (section 10.3
    /// steps 6 and 7).
    OutOfOrder,
    /// A growth was refused.
    NoMemory,
}

impl From<AllocError> for RegisterRefusal {
    ghost use Rattle.std.specs.Prelude.{◌≡◌};
    ghost use Rattle.bindings.specs.declared.refusal.RegisterRefusal.TheVariants as refusals;

    ghost from_gives = { λ _ refusal. refusal ≡ refusals.NoMemory };

    fn from(_refused: AllocError) -> RegisterRefusal {
        RegisterRefusal::NoMemory
    }
}
