//! For how long a contact is bound.
ghost use Rattle.std.specs.Prelude.{◌≡◌};
ghost use Rattle.std.specs.Option.{option_copied, option_map};
ghost use Rattle.registrar.specs.Expirations.{seconds_if_any, seconds_said, time_by, within};

use sip_lex::read_number;

/// For how many seconds a contact is bound (RFC 3261 section 10.2.1.1).
#[derive(Clone, Copy, Debug, PartialEq, Eq)]
pub struct AskedExpirations {
    /// The fewest.
    pub least: u32,
    /// Where the request says nothing, or nothing that can be read.
    pub usual: u32,
    /// The most: a longer time counts as this one.
    pub most: u32,
}

/// The seconds that a text says in one to ten digits.
fn seconds_said(text: &[u8]) -> Option<u64>
    ensures { result ≡ seconds_said text.now }
{
    if text.len() > 10 {
        return None;
    }
    read_number(text, 9_999_999_999)
}

fn seconds_if_any(text: Option<&[u8]>) -> Option<u64>
    ensures { result ≡ seconds_if_any (option_copied text.entry) }
{
    match text {
        None => None,
        Some(text) => seconds_said(text),
    }
}

impl AskedExpirations {
    ghost use Rattle.registrar.specs.Expirations as spec;

    /// These seconds, as far as they may be; the usual ones where there are none.
    fn within(self, seconds: Option<u64>) -> u32
        ensures { result ≡ spec.within self seconds }
    {
        match seconds {
            None => self.usual,
            Some(seconds) => seconds.min(u64::from(self.most)) as u32,
        }
    }

    /// The time of a contact: by the value of its first `expires` parameter, where it has that parameter, else by the Expires of the request
    /// (section 10.2.1.1).
    pub(crate) fn time_by(self, param: Option<Option<&[u8]>>, header: Option<&[u8]>) -> u32
        ensures { result ≡ time_by self (option_map option_copied param.entry) (option_copied header.entry) }
    {
        match param {
            Some(value) => self.within(seconds_if_any(value)),
            None => self.within(seconds_if_any(header)),
        }
    }
}
