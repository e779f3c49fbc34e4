//! What closed the table of a call, and what a CANCEL says of that.
ghost use Rattle.std.specs.Prelude.{◌≡◌, ◌++◌, ◌∷◌, [], codes, true, IfOk};
ghost use Rattle.std.specs.Fmt.{decimal};
ghost use Rattle.sip_text.specs.Message.{is_value};
ghost use Rattle.sip_text.specs.Text.{spelling};
ghost use Rattle.call_model.specs.Built.{cancel_to};
ghost use Rattle.call_model.specs.Closing.{closing_after, closing_by, reason_line, reasons_by};
ghost use Rattle.call_state.specs.CallStateInside.{closing_of};

use call_branch::{Destination, OpenedRequest, ReasonLines};
use sip_lex::append_decimal;
use sip_text::HeaderLine;
use std::alloc::{AllocError, Allocator};

/// What it says where another branch accepted the call.
const ELSEWHERE: &[u8] = b"SIP;cause=200;text=\"Call completed elsewhere\"";

/// What closed the table of a call (RFC 3261 sections 16.7 steps 5 and 10 and 16.10).
#[derive(Drop)]
pub(crate) enum Closing<A: Allocator> {
    /// Nothing yet.
    NotClosed,
    /// A 2xx.
    BySuccess,
    /// A 6xx, with this status.
    ByGlobalFailure(u16),
    /// The caller's CANCEL, with its Reason lines.
    ByCancel(ReasonLines<A>),
}

/// An answer with this status that closes the table.
fn closing_by<A: Allocator>(status: u16) -> Closing<A>
    ensures { closing_of result ≡ closing_by status }
{
    if status < 300 {
        Closing::BySuccess
    } else {
        Closing::ByGlobalFailure(status)
    }
}

/// What the Reason field says where a 6xx with this status closed the table (RFC 3326 section 2).
fn cause_of<A: Allocator>(alloc: A, status: u16) -> Result<Vec<u8, A>, AllocError>
    ensures value { IfOk result (λ text. text.items ≡ codes "SIP;cause=" ++ decimal status) }
    ensures good { is_value (codes "SIP;cause=" ++ decimal status) ≡ true }
{
    let mut text = Vec::new(alloc);
    text.extend_from_slice(b"SIP;cause=")?;
    append_decimal(&mut text, u64::from(status))?;
    Ok(text)
}

/// The CANCEL of branch n as it is sent, with one Reason line, of this value (RFC 3326).
fn cancel_for<A: Allocator + Clone>(
    alloc: &A,
    opened: &OpenedRequest<A>,
    destination: &Destination<A>,
    n: u16,
    value: &[u8],
) -> Result<Vec<u8, A>, AllocError>
    requires value { is_value value.now ≡ true }
    ensures { IfOk result (λ bytes. bytes.items ≡ spelling (cancel_to opened.now destination.now n (reason_line value.now ∷ []))) }
{
    let reason = HeaderLine {
        name: b"Reason",
        value,
    };
    opened.cancel_bytes(alloc, destination, n, &[reason])
}

impl<A: Allocator + Clone> Closing<A> {
    /// Notes an answer with this status that was posted, by whether the table is closed now: the answer closed it, where nothing
    /// had before.
    pub(crate) fn note(&mut self, closed: bool, status: u16)
        ensures { closing_of self.new ≡ closing_after closed status (closing_of self.old) }
    {
        if !closed {
            return;
        }
        match self {
            Closing::NotClosed => *self = closing_by(status),
            Closing::BySuccess | Closing::ByGlobalFailure(_) | Closing::ByCancel(_) => {}
        }
    }

    /// The CANCEL of branch n as it is sent, with the Reason lines that say what closed the table (RFC 3261 section 9.1 and RFC
    /// 3326).
    pub(crate) fn cancel_bytes(
        &self,
        alloc: &A,
        opened: &OpenedRequest<A>,
        destination: &Destination<A>,
        n: u16,
    ) -> Result<Vec<u8, A>, AllocError>
        ensures { IfOk result (λ bytes. bytes.items ≡ spelling (cancel_to opened.now destination.now n (reasons_by (closing_of self.now)))) }
    {
        match self {
            Closing::NotClosed => opened.cancel_bytes(alloc, destination, n, &[]),
            Closing::BySuccess => cancel_for(alloc, opened, destination, n, ELSEWHERE),
            Closing::ByGlobalFailure(status) => {
                let value = cause_of(alloc.clone()?, *status)?;
                cancel_for(alloc, opened, destination, n, &value)
            }
            Closing::ByCancel(reasons) => {
                let lines = reasons.further(alloc.clone()?)?;
                opened.cancel_bytes(alloc, destination, n, &lines)
            }
        }
    }
}
