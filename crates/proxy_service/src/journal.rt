//! What is written of a call at its end.
ghost use Rattle.std.specs.Prelude.{◌≡◌, OnErr, OnOk, codes, unwrap_or};
ghost use Rattle.sip_text.specs.Text.{method_in};
ghost use Rattle.proxy_service.specs.Journal.{WritesDown};

use call_journal::{CallRecord, Note, append_call};
use fork_call::Call;
use metrics::CallCounts;
use service_files::JournalQueue;
use sip_route::{first_value, request_uri};
use sip_text::Message;
use std::alloc::{AllocError, Allocator};
use std::sync::Wait;

/// The method of a request.
fn method_of<A: Allocator>(request: &Message<A>) -> &[u8]
    ensures { result.now ≡ unwrap_or (method_in request.now.start) (codes "-") }
{
    request.method().unwrap_or(b"-")
}

/// Appends the block of a call that ends at this time, in seconds since 1970, with what is noted of its targets (see [`append_call`]).
///
/// # Errors
///
/// Only where the allocator refuses; `block` is then as it was.
pub fn append_block<A: Allocator + Clone>(
    call: &Call<A>,
    time: u64,
    notes: &[Note],
    block: &mut Vec<u8, A>,
) -> Result<(), AllocError>
    ensures ok { OnOk result (WritesDown call.now time notes.now block.old.items block.new.items) }
    ensures err { OnErr result (block.new.items ≡ block.old.items) }
{
    let request = call.request();
    let head = CallRecord {
        time,
        number: call.number(),
        method: method_of(request),
        uri: request_uri(request),
        caller: first_value(request, b"from"),
        call_id: request.call_id(),
    };
    append_call(block, &head, call.book().context(), notes)
}

/// Has a block written to the journal, or counts it as unwritten. An empty block is one for which there was no memory.
pub(crate) fn write_down<R: Wait>(
    rt: &R,
    journal: &JournalQueue,
    counts: &CallCounts,
    block: &[u8],
) {
    if block.is_empty() || journal.push(rt, block).is_err() {
        counts.unwritten.add(1);
    }
}
