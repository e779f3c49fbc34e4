//! The parts of a message.

ghost use Rattle.std.specs.Prelude.{◌≡◌};
ghost use Rattle.sip_text.specs.Name.{same_name};
ghost use Rattle.sip_text.specs.Seen.{view_line};

use crate::name::same_name;

/// A header line (RFC 3261 section 7.3): its name as received, and its value without the space round
/// it, the lines that continue it joined by one space each.
#[derive(Clone, Copy, Debug)]
pub struct HeaderLine<'a> {
    pub name: &'a [u8],
    pub value: &'a [u8],
}

impl HeaderLine<'_> {
    /// Whether the header line has that name, in any case and in long or compact form (RFC 3261 sections
    /// 7.3.1 and 7.3.3).
    pub fn is_named(self, name: &[u8]) -> bool
        ensures { result ≡ same_name name.now (view_line self.entry).name }
    {
        same_name(name, self.name)
    }
}

/// A start line (RFC 3261 sections 7.1 and 7.2).
#[derive(Clone, Copy, Debug)]
pub enum StartLine<'a> {
    /// The method and the Request-URI of a request.
    Request { method: &'a [u8], uri: &'a [u8] },
    /// The status of a response, 100 to 699, and its reason, which may be empty.
    Response { status: u16, reason: &'a [u8] },
}

/// What a CSeq header says (RFC 3261 section 20.16).
#[derive(Clone, Copy, Debug)]
pub struct CSeqLine<'a> {
    /// Below 2^31.
    pub number: u32,
    pub method: &'a [u8],
}
