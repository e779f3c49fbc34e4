//! Which transports are reliable.
ghost use Rattle.std.specs.Prelude.{◌≡◌};
ghost use Rattle.call_model.specs.Reliability.{reliability_of};

use sip_txn::Reliability;
use sip_uri::Transport;

/// Whether a transaction may rely on this transport to bring what it is given: UDP alone may lose it (RFC 3261 section 17).
pub fn reliability_of(transport: Transport) -> Reliability
    ensures { result ≡ reliability_of transport }
{
    match transport {
        Transport::Udp => Reliability::Unreliable,
        Transport::Tcp => Reliability::Reliable,
        Transport::Back(_) => Reliability::Reliable,
    }
}
