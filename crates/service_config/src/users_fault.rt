//! The list of users that goes with a realm.
use thiserror::Error;

/// Why the users of a service cannot be had, with the words that a program prints.
#[derive(Clone, Copy, Debug, PartialEq, Eq, Error)]
pub enum UsersFault {
    /// The file of the users cannot be read.
    #[error("the users cannot be read")]
    Unreadable,
    /// The file of the users has more bytes than are read.
    #[error("the users are too long")]
    TooLong,
    /// The first malformed line of the users, counted from 1.
    #[error("users, line {0}: malformed")]
    Line(usize),
    /// The configuration names a realm, and there is no list of its users.
    #[error("the configuration has a realm, and there is no list of users")]
    NoUsers,
    /// There is a list of users, and the configuration names no realm.
    #[error("there is a list of users, and the configuration has no realm")]
    NoRealm,
    /// A growth was refused.
    #[error("want of memory")]
    NoMemory,
}
