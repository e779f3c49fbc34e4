//! What a service keeps to.
use service_files::Identity;
use sip_via::Own;

/// What a service keeps to as long as it runs, whichever configuration it reads meanwhile.
#[derive(Clone, Copy)]
pub struct RunSettings {
    pub identity: Identity,
    /// The number of the run, for a configuration that has no line of an instance.
    pub number: u32,
    /// Whether it stays on the path of the dialogs that pass it.
    pub records: bool,
    /// The address and port that its Record-Route line names, where they are not its own.
    pub route: Option<Own>,
    /// Whether its own address counts as its domain with its own port alone.
    pub own_port: bool,
    /// Whether requests may go by connections.
    pub streams: bool,
    /// How many calls it keeps that requests outside of dialogs opened, at most.
    pub most_calls: u64,
    /// How many contacts may be bound to its users in all.
    pub most_bindings: u32,
    /// Whether calls are written down at their end.
    pub has_journal: bool,
    /// Whether bindings are kept elsewhere, too, before they count.
    pub has_store: bool,
    /// The millisecond since 1970 at which its moments begin.
    pub began: u64,
    /// What nonces and the tokens of dialogs are made with: bytes that nobody else has.
    pub secret: [u8; 32],
}
