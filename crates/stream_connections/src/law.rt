//! Laws of connections.
ghost use Rattle.stream_connections.specs.Reading.{PiecesAreOfTheStream};
ghost use Rattle.stream_connections.specs.Writing.{WhatIsWrittenIsAFront};

use sip_framing::frames_stay;

/// In whatever pieces bytes come by a connection, and whenever what stands at the front is handed out, what is handed out is what all bytes
/// are cut into as one, and that is cut in one way (RFC 3261 section 18.3, `sip_framing::reads_change_nothing`).
///
/// A law over the definitions, with nothing to run.
pub fn pieces_are_of_the_stream()
    ensures { PiecesAreOfTheStream }
{
    frames_stay();
}

/// What was written to a connection is a front of all messages that were to be written, in their order; and each message of which a byte was
/// not written is left, whole: so it can be told of each that it did not go out, or be sent by another connection.
///
/// A law over the definitions, with nothing to run.
pub fn what_is_written_is_a_front()
    ensures { WhatIsWrittenIsAFront }
{}
