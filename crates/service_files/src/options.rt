//! How a proxy serves.
use service_config::Net;
use sip_via::Own;

/// How many connections a proxy has that serves over TCP, too, and how long one may be silent.
#[derive(Clone, Copy)]
pub struct ConnectionOptions {
    /// How many there are at most.
    pub most: u32,
    /// How many one source address may have opened.
    pub most_per_source: u32,
    /// For how many seconds nothing may come by one, and nothing be written to it.
    pub idle_seconds: u32,
}

/// How a proxy serves, beside its configuration.
#[derive(Clone, Copy)]
pub struct Options<'a> {
    /// The file of its configuration.
    pub config: &'a str,
    /// The address and port that it receives at, in place of those of its configuration.
    pub own: Option<Own>,
    /// The file of its users, where its configuration has a realm.
    pub users: Option<&'a str>,
    /// The file of its control socket.
    pub control: &'a str,
    /// The file to which each call is written at its end.
    pub journal: Option<&'a str>,
    /// The file in which its bindings are kept, so that they survive it.
    pub store: Option<&'a str>,
    /// How many calls it keeps at most; while it has so many it opens no more, but for a tenth of them for requests within dialogs. Left
    /// out, it follows the memory of the machine (see [`crate::memory::most_calls_here`]).
    pub most_calls: Option<u64>,
    /// How many contacts may be bound to its users in all.
    pub most_bindings: u32,
    /// How many threads receive and handle datagrams.
    pub workers: usize,
    /// Whether it stays on the path of the dialogs that pass it.
    pub records: bool,
    /// The address and port that its Record-Route line names, where they are not its own.
    pub route: Option<Own>,
    /// The file of the secret that nonces and the tokens of dialogs are made with, where several proxies share one.
    pub secret: Option<&'a str>,
    /// Whether its own address counts as its domain with its own port alone.
    pub own_port: bool,
    /// How many datagrams one source address may send at once, and as many more each second; as many as it likes where this is left out.
    pub most_per_source: Option<u32>,
    /// The nets whose addresses may send as many as they like all the same.
    pub unlimited: &'a [Net],
    /// The address and the port at which its counters are scraped.
    pub metrics: Option<&'a str>,
    /// Its connections; None where it serves over UDP alone.
    pub connections: Option<ConnectionOptions>,
}
