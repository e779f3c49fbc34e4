//! The last requests that were refused, for an operator who asks why.
ghost use Rattle.std.specs.Prelude.{◌≡◌, ◌++◌, OnOk};
ghost use Rattle.service_users.specs.Told.{answered_text, asked_text, place_text, refused_text};

use authentication::append_address;
use call_journal::append_shown;
use sip_lex::append_decimal;
use sip_uri::Hop;
use std::alloc::{AllocError, Global};
use std::collections::VecDeque;
use std::sync::{Mutex, Wait};

/// How many are kept.
const MOST_KEPT: usize = 100;

/// A request that was refused.
#[derive(Clone, Copy)]
pub(crate) struct Refused<'a> {
    pub(crate) source: Hop,
    pub(crate) method: &'a [u8],
    /// The Request-URI.
    pub(crate) uri: &'a [u8],
    /// The status of its answer; None where it was not answered.
    pub(crate) status: Option<u16>,
    /// Why it was refused.
    pub(crate) why: &'a [u8],
}

/// Appends an address and its port.
pub(crate) fn append_place(out: &mut Vec<u8>, hop: Hop) -> Result<(), AllocError>
    ensures { OnOk result (out.new.items ≡ out.old.items ++ place_text hop) }
{
    append_address(out, hop.addr)?;
    out.push(b':')?;
    append_decimal(out, u64::from(hop.port))
}

/// Appends where a request came from, and what it asked for.
fn append_asked(out: &mut Vec<u8>, refused: &Refused<'_>) -> Result<(), AllocError>
    ensures { OnOk result (out.new.items ≡ out.old.items ++ asked_text refused.now) }
{
    append_place(out, refused.source)?;
    out.push(b' ')?;
    append_shown(out, refused.method)?;
    out.push(b' ')?;
    append_shown(out, refused.uri)
}

/// Appends a status, or `-` where there is none.
fn append_status(out: &mut Vec<u8>, status: Option<u16>) -> Result<(), AllocError>
    ensures { OnOk result (out.new.items ≡ out.old.items ++ answered_text status) }
{
    match status {
        Some(status) => append_decimal(out, u64::from(status)),
        None => Ok(out.push(b'-')?),
    }
}

/// Appends what is told of a request that was refused.
fn append_refused(out: &mut Vec<u8>, refused: &Refused<'_>) -> Result<(), AllocError>
    ensures { OnOk result (out.new.items ≡ out.old.items ++ refused_text refused.now) }
{
    append_asked(out, refused)?;
    out.push(b' ')?;
    append_status(out, refused.status)?;
    out.push(b' ')?;
    out.extend_from_slice(refused.why)
}

/// What is told of a request that was refused.
fn text_of(alloc: Global, refused: &Refused<'_>) -> Result<Vec<u8>, AllocError> {
    let mut text = Vec::new(alloc);
    append_refused(&mut text, refused)?;
    Ok(text)
}

/// What is told of a request that was refused, and when that was, in milliseconds.
#[derive(Drop)]
struct KeptRefusal {
    at: u64,
    text: Vec<u8>,
}

/// Appends the line of one that was refused: for how many milliseconds that is past at this moment, and what is told of it.
fn append_line(out: &mut Vec<u8>, kept: &KeptRefusal, now: u64) -> Result<(), AllocError> {
    append_decimal(out, now.saturating_sub(kept.at))?;
    out.push(b' ')?;
    out.extend_from_slice(&kept.text)?;
    Ok(out.push(b'\n')?)
}

/// The last hundred requests that were refused, for all threads.
#[derive(Drop)]
pub struct LastRefused {
    alloc: Global,
    kept: Mutex<VecDeque<KeptRefusal>>,
}

impl LastRefused {
    /// None was refused.
    pub fn new(alloc: Global) -> LastRefused {
        LastRefused {
            alloc,
            kept: Mutex::new(VecDeque::new(alloc)),
        }
    }

    /// Keeps one that was refused at this moment, in milliseconds, in the place of the first one where there are a hundred; none where there
    /// is no memory.
    pub(crate) fn keep<R: Wait>(&self, rt: &R, refused: &Refused<'_>, at: u64) {
        let Ok(text) = text_of(self.alloc, refused) else {
            return;
        };
        let first = {
            let mut kept = self.kept.lock(rt);
            let _ = kept.push_back(KeptRefusal { at, text });
            if kept.len() > MOST_KEPT {
                kept.pop_front()
            } else {
                None
            }
        };
        // Its memory is given back here, where no lock is held.
        drop(first);
    }

    /// Appends the line of each, the first one first, and at last `no more`; moments are in milliseconds.
    ///
    /// # Errors
    ///
    /// Only where the allocator refuses; `out` is then to be thrown away.
    pub fn append<R: Wait>(&self, rt: &R, now: u64, out: &mut Vec<u8>) -> Result<(), AllocError> {
        let kept = self.kept.lock(rt);
        for refusal in kept.iter() {
            append_line(out, refusal, now)?;
        }
        out.extend_from_slice(b"no more\n")
    }
}
