//! What a REGISTER request asks of the bindings of its user.
ghost use Rattle.std.specs.Prelude.{◌≡◌};
ghost use Rattle.bindings.specs.Registering.{asks_the_same, is_brief};
ghost use Rattle.bindings.specs.Seen.{asked_of};

use crate::contact::ContactParts;

/// A contact of a request, with the seconds for which it is to be bound; none of them takes its binding away.
#[derive(Clone, Copy)]
pub struct RegisterContact<'a> {
    pub parts: ContactParts<'a>,
    pub time: u32,
}

impl RegisterContact<'_> {
    /// Whether it names the same binding as another one.
    pub(crate) fn asks_the_same(&self, other: &RegisterContact<'_>) -> bool
        ensures { result ≡ asks_the_same (asked_of self.now) (asked_of other.now) }
    {
        self.parts.is_same_binding(&other.parts)
    }

    /// Whether it is to be bound for some seconds, but for fewer than these.
    pub(crate) fn is_brief(&self, least: u32) -> bool
        ensures { result ≡ is_brief least (asked_of self.now) }
    {
        self.time != 0 && self.time < least
    }
}

/// What tells a REGISTER request from all others: a binding keeps it of the one that made it.
#[derive(Clone, Copy)]
pub struct MadeBy<'a> {
    pub call_id: &'a [u8],
    /// The number of its CSeq.
    pub cseq: u32,
    /// The key of its transaction, from its top Via value (RFC 3261 section 17.2.3).
    pub key: &'a [u8],
}

/// A REGISTER request of a user who may make it, as far as his bindings are concerned.
#[derive(Clone, Copy)]
pub struct RegisterRequest<'a> {
    pub call_id: &'a [u8],
    /// The number of its CSeq.
    pub cseq: u32,
    /// The key of its transaction, from its top Via value (RFC 3261 section 17.2.3).
    pub key: &'a [u8],
    /// The millisecond at which it came.
    pub at: u64,
    /// The fewest seconds for which a contact may be bound (section 10.3 step 7).
    pub least: u32,
    /// Where its Contact is `*`, the seconds of its Expires (section 10.2.2).
    pub star: Option<u32>,
    pub contacts: &'a [RegisterContact<'a>],
}
