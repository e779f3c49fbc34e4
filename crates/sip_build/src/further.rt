//! Header lines that a message gets beside those that are always in it.

ghost use Rattle.std.specs.Prelude.{◌≡◌, true, IfOk};
ghost use Rattle.std.specs.List.{list_all};
ghost use Rattle.sip_text.specs.Message.{is_header};
ghost use Rattle.sip_text.specs.Seen.{view_lines};
ghost use Rattle.sip_build.specs.Further.{view_if_any};
ghost use Rattle.sip_build.specs.Generated.{timestamp_lines};
ghost use Rattle.sip_build.specs.Requests.{reason_lines};

use sip_route::{first_header, headers_around};
use sip_text::{HeaderLine, Message};
use std::alloc::{AllocError, Allocator};

/// The first Timestamp line of a request as it stands, which a 100 to the request takes (RFC 3261 section 8.2.6.1); `None` where it
/// has none.
pub fn first_timestamp<A: Allocator>(message: &Message<A>) -> Option<HeaderLine<'_>>
    ensures exact { view_if_any result ≡ timestamp_lines message.now }
    ensures good { list_all is_header (view_if_any result) ≡ true }
{
    message.is_message();
    first_header(message, b"timestamp")
}

/// The Reason lines of a message as they stand, in order: those of a CANCEL, for the CANCELs that it brings about (RFC 3326).
///
/// # Errors
///
/// Only where the allocator refuses.
pub fn reason_lines<A: Allocator, B: Allocator>(
    alloc: B,
    message: &Message<A>,
) -> Result<Vec<HeaderLine<'_>, B>, AllocError>
    ensures exact { IfOk result (λ lines. view_lines lines.items ≡ reason_lines message.now) }
    ensures good { list_all is_header (reason_lines message.now) ≡ true }
{
    message.is_message();
    let mut lines = Vec::new(alloc);
    let mut rest = message.headers();
    while let Some((line, after)) = headers_around(rest, b"reason") {
        lines.push(line)?;
        rest = after;
    }
    Ok(lines)
}
