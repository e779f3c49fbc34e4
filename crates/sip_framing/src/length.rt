//! What header lines say of the length of the body (RFC 3261 section 20.14).
ghost use Rattle.std.specs.Prelude.{◌≡◌, ◌≤◌};
ghost use Rattle.sip_lex.specs.Values.{begins_with_space};
ghost use Rattle.sip_lex.specs.Number.{length_number};
ghost use Rattle.sip_framing.specs.Length.{agreed, heard_after, is_length_name, length_in, unheard};

use sip_lex::{begins_with_space, cut_at, length_number, trim, trim_end};

/// What the Content-Length lines so far say.
#[derive(Clone, Copy)]
pub enum SaidLength {
    /// There is none.
    Unsaid,
    /// So many bytes.
    Bytes(usize),
    /// One is no length, two differ, or one goes on in a further line.
    Wrong,
}

/// What was heard of the lines so far.
#[derive(Clone, Copy)]
pub struct Heard {
    /// The start line was among them.
    pub is_begun: bool,
    /// The last one was a Content-Length.
    pub is_fresh: bool,
    pub said: SaidLength,
}

/// Whether a name is that of Content-Length, long or compact, in any case.
fn is_length_name(name: &[u8]) -> bool
    ensures { result ≡ is_length_name name.now }
{
    name.eq_ignore_ascii_case(b"content-length") || name.eq_ignore_ascii_case(b"l")
}

/// What a line says of the length, if it is a Content-Length.
fn length_in(line: &[u8]) -> Option<Option<usize>>
    ensures { result ≡ length_in line.now }
{
    let (front, raw) = cut_at(line, b':');
    let raw = raw?;
    if is_length_name(trim_end(front)) {
        Some(length_number(trim(raw)))
    } else {
        None
    }
}

impl SaidLength {
    /// What is said with one more Content-Length.
    fn agreed(self, length: Option<usize>) -> SaidLength
        ensures { result ≡ agreed self length }
    {
        match (self, length) {
            (SaidLength::Unsaid, Some(n)) => SaidLength::Bytes(n),
            (SaidLength::Bytes(m), Some(n)) if m == n => SaidLength::Bytes(m),
            _ => SaidLength::Wrong,
        }
    }
}

impl Heard {
    /// What was heard before the start line.
    pub(crate) fn none() -> Heard
        ensures { result ≡ unheard }
    {
        Heard {
            is_begun: false,
            is_fresh: false,
            said: SaidLength::Unsaid,
        }
    }

    /// What was heard, with one more line.
    pub(crate) fn after(self, line: &[u8]) -> Heard
        ensures { result ≡ heard_after self line.now }
    {
        if !self.is_begun {
            return Heard {
                is_begun: true,
                is_fresh: false,
                said: self.said,
            };
        }
        if begins_with_space(line) {
            return Heard {
                is_begun: true,
                is_fresh: false,
                said: if self.is_fresh {
                    SaidLength::Wrong
                } else {
                    self.said
                },
            };
        }
        match length_in(line) {
            None => Heard {
                is_begun: true,
                is_fresh: false,
                said: self.said,
            },
            Some(length) => Heard {
                is_begun: true,
                is_fresh: true,
                said: self.said.agreed(length),
            },
        }
    }
}
