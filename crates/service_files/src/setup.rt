//! The configuration of a proxy, as it is read at its start and anew while it serves.
ghost use Rattle.std.specs.Prelude.{◌≡◌, ◌<◌, ◌≤◌, ◌↔◌, length, IfErr, IfOk, IsErrOf, OnOk};
ghost use Rattle.std.specs.Option.{option_copied};
ghost use Rattle.service_files.specs.declared.fault.DaemonFault.TheVariants as faults;
ghost use Rattle.service_config.specs.Configuration.{IsServiceConfiguration};
ghost use Rattle.service_files.specs.Configured.{algorithms_in, AreUsers, IsConfigured, IsUsersFaultOf};
ghost use Rattle.service_files.specs.Faults.{most_text, IsConfigurationFault, IsFaultOf, IsSettingsFaultOf};

use crate::fault::{DaemonFault, configuration_fault, users_fault};
use crate::files::ProxyFiles;
use crate::own_line::text_at;
use proxy_config::{Setup, SetupFault};
use service_config::{ServiceSettings, UsersFault};
use sip_digest::{Algorithms, UserFault, UserList};
use sip_via::Own;
use std::alloc::{Allocator, Global};

/// How many bytes a configuration has at most.
const MOST_TEXT: usize = 1_048_576;

/// How many bytes the file of its users has at most.
const MOST_USERS: usize = 67_108_864;

/// What a service goes by: its settings, and who has a password, where they name a realm.
#[derive(Drop)]
pub struct Configuration<A: Allocator = Global> {
    pub settings: ServiceSettings<A>,
    pub users: Option<UserList<A>>,
}

/// What answers are known by: a proxy keeps both as long as it runs (RFC 3261 section 16.7 step 1).
#[derive(Clone, Copy, PartialEq, Eq, Debug)]
pub struct Identity {
    pub own: Own,
    pub instance: u32,
}

impl Identity {
    /// That of a setup.
    pub fn of<A: Allocator + Clone>(setup: &Setup<A>) -> Identity
        ensures own { result.own ≡ setup.now.own }
        ensures instance { result.instance ≡ setup.now.instance }
    {
        Identity {
            own: setup.own(),
            instance: setup.instance(),
        }
    }
}

/// By which algorithms the realm of settings challenges, if they have one.
fn algorithms_in<A: Allocator>(settings: &ServiceSettings<A>) -> Option<Algorithms>
    ensures { result ≡ algorithms_in settings.now }
{
    match settings.realm() {
        None => None,
        Some(realm) => Some(realm.algorithms),
    }
}

/// The users of a realm that challenges by these algorithms, as this text lists them; without a realm there is no text.
///
/// # Errors
///
/// `NoUsers` for a realm without a text, `NoRealm` for a text without a realm; `Line` with the first malformed line; `NoMemory`.
fn users_in<A: Allocator + Clone>(
    alloc: A,
    algorithms: Option<Algorithms>,
    text: Option<&[u8]>,
) -> Result<Option<UserList<A>>, UsersFault>
    ensures ok { IfOk result (AreUsers algorithms (option_copied text.entry)) }
    ensures fault { IfErr result (IsUsersFaultOf algorithms (option_copied text.entry)) }
{
    match (algorithms, text) {
        (None, None) => Ok(None),
        (Some(_), None) => Err(UsersFault::NoUsers),
        (None, Some(_)) => Err(UsersFault::NoRealm),
        (Some(algorithms), Some(text)) => match UserList::read(alloc, text, algorithms) {
            Ok(list) => Ok(Some(list)),
            Err(UserFault::Line(number)) => Err(UsersFault::Line(number)),
            Err(UserFault::NoMemory) => Err(UsersFault::NoMemory),
        },
    }
}

/// The settings that a text spells, in a run with this number, with connections or without.
fn settings_in<A: Allocator + Clone>(
    alloc: &A,
    text: &[u8],
    number: u32,
    streams: bool,
) -> Result<ServiceSettings<A>, DaemonFault>
    ensures ok { IfOk result (IsServiceConfiguration number streams text.now) }
    ensures fits { OnOk result (length text.now ≤ most_text) }
    ensures too_long { IsErrOf result faults.TooLong ↔ (most_text < length text.now) }
    ensures fault { IfErr result (IsSettingsFaultOf text.now number streams) }
{
    if text.len() > MOST_TEXT {
        return Err(DaemonFault::TooLong);
    }
    match ServiceSettings::read(alloc.clone()?, text, number, streams) {
        Ok(settings) => Ok(settings),
        Err(SetupFault::Line(line)) => Err(DaemonFault::Line(line)),
        Err(SetupFault::NoMemory) => Err(DaemonFault::NoMemory),
    }
}

/// Reads the text of a configuration (see [`ServiceSettings::read`]), and the list of users that goes with its realm, if it has one (see
/// [`UserList::read`]). Where it has no line of an instance, this number is the instance. Its locations and gateways are reached over
/// TCP only where the proxy has connections (`streams`).
///
/// # Errors
///
/// `TooLong` over 1,048,576 bytes; else `Line` with the first malformed line of the text, a missing one by the number that it would
/// have; else `Users` where it has a realm without a list, or a list without a realm, or with the first malformed line of the list;
/// `NoMemory` where the allocator refuses.
#[tactic(auto, using(crate::proofs::Faults::lacks_users, crate::proofs::Faults::not_too_long))]
pub fn read_text<A: Allocator + Clone>(
    alloc: A,
    text: &[u8],
    users: Option<&[u8]>,
    number: u32,
    streams: bool,
) -> Result<Configuration<A>, DaemonFault>
    ensures ok { IfOk result (IsConfigured text.now (option_copied users.entry) number streams) }
    ensures too_long { IsErrOf result faults.TooLong ↔ (most_text < length text.now) }
    ensures fault { IfErr result (IsFaultOf text.now (option_copied users.entry) number streams) }
{
    let settings = settings_in(&alloc, text, number, streams)?;
    let algorithms = algorithms_in(&settings);
    match users_in(alloc, algorithms, users) {
        Ok(users) => Ok(Configuration { settings, users }),
        Err(fault) => Err(DaemonFault::from(fault)),
    }
}

/// The text that a proxy goes by whose configuration is in a file, with the line of this address in place of the file's own where the address is said
/// elsewhere ([`text_at`]); of a file that is too long as much as tells so.
///
/// # Errors
///
/// `Unreadable` where the system refuses, and `NoMemory`.
pub fn read_config<R: ProxyFiles>(
    rt: &R,
    alloc: Global,
    path: &str,
    own: Option<Own>,
) -> Result<Vec<u8>, DaemonFault>
    ensures { IfErr result IsConfigurationFault }
{
    match rt.read_file(alloc, path, MOST_TEXT) {
        Ok(text) => match text_at(alloc, own, text) {
            Ok(text) => Ok(text),
            Err(_) => Err(DaemonFault::NoMemory),
        },
        Err(error) => Err(configuration_fault(error)),
    }
}

/// The text of the file of the users, if there is one.
///
/// # Errors
///
/// `Users` where the system refuses, or it has more than 67,108,864 bytes; and `NoMemory`.
pub fn read_users<R: ProxyFiles>(
    rt: &R,
    alloc: Global,
    path: Option<&str>,
) -> Result<Option<Vec<u8>>, DaemonFault>
    ensures { IfErr result IsConfigurationFault }
{
    let Some(path) = path else {
        return Ok(None);
    };
    match rt.read_file(alloc, path, MOST_USERS) {
        Ok(text) => {
            if text.len() > MOST_USERS {
                return Err(DaemonFault::Users(UsersFault::TooLong));
            }
            Ok(Some(text))
        }
        Err(error) => Err(users_fault(error)),
    }
}

/// Looks at the text of a configuration and at the file of its users, or, where none is named, at the text alone, for a proxy that has
/// connections or none.
fn check_text<R: ProxyFiles>(
    rt: &R,
    alloc: Global,
    text: &[u8],
    users: Option<&str>,
    streams: bool,
) -> Result<(), DaemonFault>
    ensures { IfErr result IsConfigurationFault }
{
    match read_users(rt, alloc, users)? {
        None => {
            let settings = settings_in(&alloc, text, 0, streams)?;
            drop(settings);
        }
        Some(users) => {
            let configuration = read_text(alloc, text, Some(&users), 0, streams)?;
            drop(configuration);
        }
    }
    Ok(())
}

/// Looks at a configuration's file and at that of its users, or, where none is named, at the configuration alone, for a proxy that has connections
/// (`streams`) or none; where the own address is said elsewhere, it stands in place of the file's.
///
/// # Errors
///
/// `Unreadable` where the system refuses; else those of [`read_text`], without those of users where no file of them is named, and with the
/// numbers that lines have in the file.
pub fn check_files<R: ProxyFiles>(
    rt: &R,
    alloc: Global,
    config: &str,
    users: Option<&str>,
    own: Option<Own>,
    streams: bool,
) -> Result<(), DaemonFault>
    ensures { IfErr result IsConfigurationFault }
{
    let text = read_config(rt, alloc, config, own)?;
    match check_text(rt, alloc, &text, users, streams) {
        Ok(()) => Ok(()),
        Err(fault) => Err(fault.in_file(own)),
    }
}
