//! Why a proxy does not serve, or serves no longer.
ghost use Rattle.std.specs.Prelude.{◌≡◌};
ghost use Rattle.service_files.specs.declared.fault.DaemonFault.TheVariants as faults;
ghost use Rattle.service_files.specs.Faults.{exit_status, IsConfigurationFault, IsControlFault, IsJournalFault, IsMetricsFault, IsSecretFault, IsSocketFault, IsUsersFault, in_file, one_line_up};

use service_config::UsersFault;
use sip_via::Own;
use std::alloc::AllocError;
use std::io;
use std::io::ErrorKind;
use thiserror::Error;

/// Why a proxy does not serve, or serves no longer, with the words that a program prints.
#[derive(Clone, Copy, Debug, PartialEq, Eq, Error)]
pub enum DaemonFault {
    /// The configuration's file cannot be read.
    #[error("the configuration cannot be read")]
    Unreadable,
    /// The configuration has more bytes than are read.
    #[error("the configuration is too long")]
    TooLong,
    /// The first malformed line of the configuration, counted from 1; a missing one has the number that it would have.
    #[error("configuration, line {0}: malformed")]
    Line(usize),
    /// The users of the configuration's realm cannot be had.
    #[error("{0}")]
    Users(UsersFault),
    /// The address or the instance of a configuration that is read anew is another one.
    #[error("address and instance may not change")]
    Identity,
    /// A growth was refused before the threads ran, a thread could not be made, or the system had no memory for the configuration's file or a
    /// socket.
    #[error("want of memory")]
    NoMemory,
    /// The clock cannot be read.
    #[error("the clock cannot be read")]
    Clock,
    /// The system has no random bytes.
    #[error("no random bytes can be had")]
    Random,
    /// The address could not be bound, or a receive failed.
    #[error("socket fault")]
    Socket,
    /// The control socket could not be made.
    #[error("the control socket cannot be made")]
    Control,
    /// The address for those who scrape the counters could not be bound.
    #[error("the metrics address cannot be bound")]
    Metrics,
    /// The file to which each call is written at its end could not be opened.
    #[error("the journal cannot be opened")]
    Journal,
    /// The file in which bindings are kept could not be used.
    #[error("the store cannot be used")]
    Store,
    /// The file of the secret that several proxies share cannot be read, or has anything but 64 hexadecimal digits.
    #[error("the secret cannot be read: its file has 64 hexadecimal digits")]
    Secret,
}

impl DaemonFault {
    /// The exit status of a program that ends with it: 1 for a refused configuration, 3 for want of memory, 5 for the system.
    pub fn status(self) -> u8
        ensures { result ≡ exit_status self }
    {
        match self {
            DaemonFault::Unreadable
            | DaemonFault::TooLong
            | DaemonFault::Line(_)
            | DaemonFault::Users(_)
            | DaemonFault::Identity
            | DaemonFault::Secret => 1,
            DaemonFault::NoMemory => 3,
            DaemonFault::Clock
            | DaemonFault::Random
            | DaemonFault::Socket
            | DaemonFault::Control
            | DaemonFault::Metrics
            | DaemonFault::Journal
            | DaemonFault::Store => 5,
        }
    }
}

impl DaemonFault {
    /// The same fault, but a line has the number before its own.
    fn one_line_up(self) -> DaemonFault
        ensures { result ≡ one_line_up self }
    {
        match self {
            DaemonFault::Unreadable => DaemonFault::Unreadable,
            DaemonFault::TooLong => DaemonFault::TooLong,
            DaemonFault::Line(number) => DaemonFault::Line(number.saturating_sub(1)),
            DaemonFault::Users(why) => DaemonFault::Users(why),
            DaemonFault::Identity => DaemonFault::Identity,
            DaemonFault::NoMemory => DaemonFault::NoMemory,
            DaemonFault::Clock => DaemonFault::Clock,
            DaemonFault::Random => DaemonFault::Random,
            DaemonFault::Socket => DaemonFault::Socket,
            DaemonFault::Control => DaemonFault::Control,
            DaemonFault::Metrics => DaemonFault::Metrics,
            DaemonFault::Journal => DaemonFault::Journal,
            DaemonFault::Store => DaemonFault::Store,
            DaemonFault::Secret => DaemonFault::Secret,
        }
    }

    /// The same fault of the file of a configuration, where the own address is said elsewhere, if it is: then the text that was read has its line
    /// before all lines of the file ([`crate::own_line::text_at`]).
    #[tactic(auto, using(crate::proofs::Faults::in_file_read))]
    pub fn in_file(self, own: Option<Own>) -> DaemonFault
        ensures value { result ≡ in_file own self }
        ensures read { IsConfigurationFault self → IsConfigurationFault result }
    {
        match own {
            None => self,
            Some(_) => self.one_line_up(),
        }
    }
}

impl From<AllocError> for DaemonFault {
    ghost from_gives = { λ _ given. given ≡ faults.NoMemory };

    fn from(_refused: AllocError) -> DaemonFault {
        DaemonFault::NoMemory
    }
}

impl From<UsersFault> for DaemonFault {
    ghost use Rattle.service_files.specs.Faults.{fault_of_users};

    ghost from_gives = { λ fault given. given ≡ fault_of_users fault };

    fn from(fault: UsersFault) -> DaemonFault {
        match fault {
            UsersFault::NoMemory => DaemonFault::NoMemory,
            UsersFault::Unreadable => DaemonFault::Users(UsersFault::Unreadable),
            UsersFault::TooLong => DaemonFault::Users(UsersFault::TooLong),
            UsersFault::Line(number) => DaemonFault::Users(UsersFault::Line(number)),
            UsersFault::NoUsers => DaemonFault::Users(UsersFault::NoUsers),
            UsersFault::NoRealm => DaemonFault::Users(UsersFault::NoRealm),
        }
    }
}

/// Why a configuration's file cannot be read: the system refuses, or has no memory.
pub fn configuration_fault(error: io::Error) -> DaemonFault
    ensures { IsConfigurationFault result }
{
    match error.kind() {
        ErrorKind::OutOfMemory => DaemonFault::NoMemory,
        _ => DaemonFault::Unreadable,
    }
}

/// Why the file of the users cannot be read: the system refuses, or has no memory.
pub fn users_fault(error: io::Error) -> DaemonFault
    ensures { IsUsersFault result }
{
    match error.kind() {
        ErrorKind::OutOfMemory => DaemonFault::NoMemory,
        _ => DaemonFault::Users(UsersFault::Unreadable),
    }
}

/// Why the secret cannot be read: the system refuses, or has no memory.
pub fn secret_fault(error: io::Error) -> DaemonFault
    ensures { IsSecretFault result }
{
    match error.kind() {
        ErrorKind::OutOfMemory => DaemonFault::NoMemory,
        _ => DaemonFault::Secret,
    }
}

/// Why the socket cannot be used: the system refuses, or has no memory.
pub fn socket_fault(error: io::Error) -> DaemonFault
    ensures { IsSocketFault result }
{
    match error.kind() {
        ErrorKind::OutOfMemory => DaemonFault::NoMemory,
        _ => DaemonFault::Socket,
    }
}

/// Why the control socket cannot be made: the system refuses, or has no memory.
pub fn control_fault(error: io::Error) -> DaemonFault
    ensures { IsControlFault result }
{
    match error.kind() {
        ErrorKind::OutOfMemory => DaemonFault::NoMemory,
        _ => DaemonFault::Control,
    }
}

/// Why the address for those who scrape the counters cannot be bound: the system refuses, or has no memory.
pub fn metrics_fault(error: io::Error) -> DaemonFault
    ensures { IsMetricsFault result }
{
    match error.kind() {
        ErrorKind::OutOfMemory => DaemonFault::NoMemory,
        _ => DaemonFault::Metrics,
    }
}

/// Why the file to which each call is written cannot be opened: the system refuses, or has no memory.
pub fn journal_fault(error: io::Error) -> DaemonFault
    ensures { IsJournalFault result }
{
    match error.kind() {
        ErrorKind::OutOfMemory => DaemonFault::NoMemory,
        _ => DaemonFault::Journal,
    }
}
