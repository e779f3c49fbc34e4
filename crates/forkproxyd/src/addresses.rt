//! What the words say of addresses: where a proxy serves, by which address it is reached, and which may send as much as they like.
use clap::ArgMatches;
use proxy_config::read_address;
use service_config::{Net, read_net};
use sip_via::Own;
use std::alloc::{AllocError, Global};
use thiserror::Error;

/// What stands for the address of Record-Route lines where the words do not say one.
pub(crate) const OWN_ADDRESS: &str = "own";

/// The word behind which the nets stand to which the limit of a source does not apply.
const EXCEPT: &str = "except";

/// What the words say of addresses.
#[derive(Drop)]
pub(crate) struct Addresses {
    /// Where it receives, where that is not said by its configuration.
    pub(crate) own: Option<Own>,
    /// Whether it stays on the path of dialogs.
    pub(crate) records: bool,
    /// The address that its Record-Route line names, where it is not its own.
    pub(crate) route: Option<Own>,
    /// How many datagrams an address may send, if that is limited, and the nets to which that does not apply.
    pub(crate) most_per_source: Option<u32>,
    pub(crate) unlimited: Vec<Net>,
}

/// Why words are refused.
#[derive(Clone, Copy, Debug, PartialEq, Eq, Error)]
pub(crate) enum AddressFault {
    /// The address where it receives is none.
    #[error("--own ADDRESS:PORT wants an IPv4 address, not 0.0.0.0, and a port from 1 to 65535")]
    Own,
    /// The address that its Record-Route line names is none.
    #[error("--record-route ADDRESS:PORT wants an IPv4 address, not 0.0.0.0, and a port from 1 to 65535")]
    Route,
    /// The limit of an address is none, or what stands behind it is no net.
    #[error("--most-per-source N except A.B.C.D/N .. wants a number of at least 1, and nets all bits of which behind the first N are 0")]
    Limit,
    /// A growth was refused.
    #[error("want of memory")]
    NoMemory,
}

impl From<AllocError> for AddressFault {
    fn from(_refused: AllocError) -> AddressFault {
        AddressFault::NoMemory
    }
}

/// The address that an argument says, if it says one.
fn address_of(
    matches: &ArgMatches<'_>,
    name: &str,
    fault: AddressFault,
) -> Result<Option<Own>, AddressFault> {
    let Some(text) = matches.get_str(name) else {
        return Ok(None);
    };
    match read_address(text.as_bytes(), b':') {
        Some(own) => Ok(Some(own)),
        None => Err(fault),
    }
}

/// The address that Record-Route lines name, where the words say another one than the own.
fn route_of(matches: &ArgMatches<'_>) -> Result<Option<Own>, AddressFault> {
    if matches.get_str("record-route") == Some(OWN_ADDRESS) {
        return Ok(None);
    }
    address_of(matches, "record-route", AddressFault::Route)
}

/// The nets that these words spell behind the word that says that they are excepted.
fn nets_of(alloc: Global, words: &[&str]) -> Result<Vec<Net>, AddressFault> {
    let mut nets = Vec::new(alloc);
    let Some((word, spelled)) = words.split_first() else {
        return Ok(nets);
    };
    if *word != EXCEPT || spelled.is_empty() {
        return Err(AddressFault::Limit);
    }
    for text in spelled {
        let Some(net) = read_net(text.as_bytes()) else {
            return Err(AddressFault::Limit);
        };
        if nets.push(net).is_err() {
            return Err(AddressFault::NoMemory);
        }
    }
    Ok(nets)
}

/// How many datagrams an address may send that these words spell, and the nets to which that does not apply.
fn limit_of(alloc: Global, words: &[&str]) -> Result<(Option<u32>, Vec<Net>), AddressFault> {
    let Some((number, behind)) = words.split_first() else {
        return Ok((None, Vec::new(alloc)));
    };
    match number.parse::<u32>() {
        Ok(most) if most > 0 => Ok((Some(most), nets_of(alloc, behind)?)),
        _ => Err(AddressFault::Limit),
    }
}

/// What the words say of addresses.
///
/// # Errors
///
/// The first of them that says none, in the order of the faults; `NoMemory` where a growth was refused.
pub(crate) fn addresses_of(
    alloc: Global,
    matches: &ArgMatches<'_>,
) -> Result<Addresses, AddressFault> {
    let own = address_of(matches, "own", AddressFault::Own)?;
    let route = route_of(matches)?;
    let words = matches.get_strs("most-per-source").unwrap_or(&[]);
    let (most_per_source, unlimited) = limit_of(alloc, words)?;
    Ok(Addresses {
        own,
        records: matches.get_str("record-route").is_some(),
        route,
        most_per_source,
        unlimited,
    })
}
