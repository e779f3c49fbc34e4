//! Tests of `stream_connections`: connections without their sockets, by what comes and what is written as tables.
#![tactic(auto)]

#[cfg(test)]
mod holds;
#[cfg(test)]
mod keeping;
#[cfg(test)]
mod lifetimes;
#[cfg(test)]
mod reading;
#[cfg(test)]
mod writing;
