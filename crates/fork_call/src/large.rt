//! Whether requests are too large for datagrams.
ghost use Rattle.std.specs.Prelude.{◌≡◌, true, IfOk, IfSome, IsTrue, nat_lt};
ghost use Rattle.std.specs.Option.{option_copied};
ghost use Rattle.sip_text.specs.Message.{is_value};
ghost use Rattle.sip_text.specs.Name.{first_value};
ghost use Rattle.sip_route.specs.Hops.{IsHops, hops_name};
ghost use Rattle.sip_build.specs.Forwarding.{is_request};
ghost use Rattle.fork_call.specs.Opening.{datagram_of, large_of};

use proxy_config::Setup;
use sip_branch::BranchName;
use sip_build::write_forwarded;
use sip_route::loop_key;
use sip_text::Message;
use sip_uri::SipUri;
use std::alloc::{AllocError, Allocator};

/// Up to how many bytes a request goes in a datagram (RFC 3261 section 18.1.1).
const MOST_IN_DATAGRAM: usize = 1_300;

/// The request to this URI as it goes on over UDP, by the branch to target 0 of call 0, with this Record-Route value, if there is one.
fn datagram_of<A: Allocator + Clone>(
    alloc: A,
    setup: &Setup<A>,
    request: &Message<A>,
    uri: &SipUri<A>,
    record_route: Option<&[u8]>,
) -> Result<Vec<u8, A>, AllocError>
    requires request { is_request request.now.start ≡ true }
    requires hops { IfSome (first_value hops_name request.now.headers) IsHops }
    requires good { IfSome (option_copied record_route) (λ value. IsTrue (is_value value)) }
    ensures { IfOk result (λ bytes. bytes.items ≡ datagram_of setup.now request.now uri.now (option_copied record_route.entry)) }
{
    let branch = BranchName {
        key: loop_key(request),
        instance: setup.instance(),
        context: 0,
        target: 0,
    };
    let mut bytes = Vec::new(alloc);
    write_forwarded(request, uri, setup.own(), &branch, record_route, &mut bytes)?;
    Ok(bytes)
}

/// Whether the requests of a call go over connections, as the setup says so and they are too large for datagrams (RFC 3261 section 18.1.1).
/// It takes memory only where the setup says so.
pub(crate) fn is_large<A: Allocator + Clone>(
    alloc: A,
    setup: &Setup<A>,
    request: &Message<A>,
    uri: &SipUri<A>,
    record_route: Option<&[u8]>,
) -> Result<bool, AllocError>
    requires request { is_request request.now.start ≡ true }
    requires hops { IfSome (first_value hops_name request.now.headers) IsHops }
    requires good { IfSome (option_copied record_route) (λ value. IsTrue (is_value value)) }
    ensures { IfOk result (λ large. large ≡ large_of setup.now request.now uri.now (option_copied record_route.entry)) }
{
    if !setup.has_streams() || !setup.is_large_by_streams() {
        return Ok(false);
    }
    let bytes = datagram_of(alloc, setup, request, uri, record_route)?;
    Ok(bytes.len() > MOST_IN_DATAGRAM)
}
