//! Tests of the bindings of all users: `binding_table`, by calls one after another, by two threads, and with memory refused.
#![tactic(auto)]

#[cfg(test)]
mod growths;
#[cfg(test)]
mod holds;
#[cfg(test)]
mod requests;
#[cfg(test)]
mod tables;
#[cfg(test)]
mod walks;
