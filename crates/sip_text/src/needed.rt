//! The header fields that every message has.

ghost use Rattle.std.specs.Prelude.{◌≡◌};
ghost use Rattle.sip_text.specs.Fields.{needed_name};

/// A header field that every message has (RFC 3261 section 8.1.1).
#[derive(Clone, Copy, Debug, PartialEq, Eq)]
pub enum MandatoryHeader {
    Via,
    From,
    To,
    CallId,
    CSeq,
}

impl MandatoryHeader {
    /// The name of the field, in lower case.
    pub fn name(self) -> &'static [u8]
        ensures { result.now ≡ needed_name self }
    {
        match self {
            MandatoryHeader::Via => b"via",
            MandatoryHeader::From => b"from",
            MandatoryHeader::To => b"to",
            MandatoryHeader::CallId => b"call-id",
            MandatoryHeader::CSeq => b"cseq",
        }
    }
}
