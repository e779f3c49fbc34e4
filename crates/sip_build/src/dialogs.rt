//! Requests that open a dialog.

ghost use Rattle.std.specs.Prelude.{◌≡◌};
ghost use Rattle.sip_build.specs.Dialogs.{is_dialog_method, opens_dialog};

use sip_text::Message;
use std::alloc::Allocator;

/// Whether a request of that method opens a dialog.
fn is_dialog_method(method: &[u8]) -> bool
    ensures { result ≡ is_dialog_method method.now }
{
    method == b"INVITE".as_slice()
        || method == b"SUBSCRIBE".as_slice()
        || method == b"REFER".as_slice()
}

/// Whether a message is a request that opens a dialog, and so takes a Record-Route line of a proxy that stays on the path: an
/// INVITE, a SUBSCRIBE or a REFER whose To has no tag (RFC 3261 section 12.1, RFC 6665 section 4.1, RFC 3515 section 2.4.4).
pub fn opens_dialog<A: Allocator>(message: &Message<A>) -> bool
    ensures { result ≡ opens_dialog message.now }
{
    match message.method() {
        None => false,
        Some(method) => is_dialog_method(method) && message.to_tag().is_none(),
    }
}
