//! Datagrams that only keep a path open.
ghost use Rattle.std.specs.Prelude.{◌≡◌};
ghost use Rattle.std.specs.List.{list_all};
ghost use Rattle.service_admission.specs.KeepAlive.{is_keep_alive, is_line_end};

fn is_line_end(byte: u8) -> bool
    ensures { result ≡ is_line_end byte }
{
    byte == b'\r' || byte == b'\n'
}

/// Whether each byte is one of a line end, as in the empty datagram.
fn are_line_ends(bytes: &[u8]) -> bool
    ensures { result ≡ list_all is_line_end bytes.now }
{
    bytes.iter().all(|byte| is_line_end(*byte))
}

/// Whether a datagram only keeps a path through a translator of addresses open: it is nothing but line ends, or is empty, or is four zero
/// bytes. Telephones send them from time to time, and get no answer (RFC 5626 section 4.4.1 has the pair of line ends for streams).
pub fn is_keep_alive(datagram: &[u8]) -> bool
    ensures { result ≡ is_keep_alive datagram.now }
{
    datagram == [0u8; 4].as_slice() || are_line_ends(datagram)
}
