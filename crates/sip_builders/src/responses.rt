//! The proxy's own responses.

ghost use Rattle.std.specs.Prelude.{◌≡◌, [], List, IfErr, IfOk, true};
ghost use Rattle.std.specs.List.{list_all};
ghost use Rattle.sip_text.specs.Fields.{length_name};
ghost use Rattle.sip_text.specs.Message.{IsMessage, is_header};
ghost use Rattle.sip_text.specs.Name.{values_of};
ghost use Rattle.sip_text.specs.Text.{HeaderText, MessageText};
ghost use Rattle.sip_via.specs.declared.own.BuildFault.TheVariants.{NoMemory};
ghost use Rattle.sip_build.specs.declared.responses.OwnStatus.{OwnStatus};
ghost use Rattle.sip_build.specs.Generated.{generated_of};

use crate::written::read_written;
use sip_build::{OwnStatus, write_own_response};
use sip_text::Message;
use sip_via::BuildFault;
use std::alloc::Allocator;

/// The proxy's own response of that status to a request (RFC 3261 section 8.2.6): the Via lines and
/// the first From, To, Call-ID and CSeq lines as they stand in the request, with the own tag added to
/// a To without a tag, but for a 100; for a 420 one Unsupported line for each Proxy-Require line.
///
/// # Errors
///
/// `NoMemory` alone, where the allocator refuses.
pub fn generated<A: Allocator + Clone>(
    alloc: A,
    message: &Message<A>,
    status: OwnStatus,
) -> Result<Message<A>, BuildFault>
    ensures ok { IfOk result (λ made. made ≡ generated_of message.now status []) }
    ensures err { IfErr result (λ fault. fault ≡ NoMemory) }
{
    message.is_message();
    let mut text = Vec::new(alloc.clone()?);
    write_own_response(message, status, &[], &mut text)?;
    Ok(read_written(alloc, &text)?)
}

/// A response of the proxy's own is in the grammar of messages, so it is read as it was written; the further lines in it are
/// header lines, and none is a Content-Length.
pub fn generated_is_message()
    ensures { (m : MessageText) (status : OwnStatus) (further : List HeaderText) → IsMessage m
        → list_all is_header further ≡ true → values_of length_name further ≡ []
        → IsMessage (generated_of m status further) }
{}
