//! Laws of streams.
ghost use Rattle.sip_framing.specs.Stream.{CutsOneWay, FramesStay, ReadsJoin};
ghost use Rattle.sip_framing.specs.Text.{TextsAreFramed};

/// What stands at the front of a stream stays so, whatever comes later.
///
/// A law over the definitions, with nothing to run.
pub fn frames_stay()
    ensures { FramesStay }
{}

/// In whatever pieces the bytes of a stream come, what they are cut into is the same: what a first read's bytes are cut into, and then
/// what was left of them with the next read's, is what both reads' bytes are cut into as one, and bytes are cut in one way (RFC 3261
/// section 18.3).
///
/// A law over the definitions, with nothing to run.
pub fn reads_change_nothing()
    ensures join { ReadsJoin }
    ensures one_way { CutsOneWay }
{}

/// A message that is read of a text is one of a stream, too: where nothing stands behind its body, its Content-Length is said, and no
/// line continues a Content-Length, what stands behind the line ends at the front of the text is taken whole by `first_frame` (RFC 3261
/// sections 7.5 and 18.3). So a peer that sends what this proxy would write is understood.
///
/// A law over the definitions, with nothing to run.
pub fn texts_are_framed()
    ensures { TextsAreFramed }
{}
