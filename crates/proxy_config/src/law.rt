//! What holds of the locations of each setup.
ghost use Rattle.proxy_config.specs.Setup.{LocationsAreTargets};

/// The locations of a user are targets of a request (RFC 3261 sections 16.5 and 16.6): no more than may be tried, none
/// twice, each with an address to send to over UDP, at a q of at most one.
///
/// A law over the definitions, with nothing to run.
pub fn locations_are_targets()
    ensures { LocationsAreTargets }
{}
