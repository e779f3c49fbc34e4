//! Tests of what a proxy knows of telephones: `bindings`, by histories of REGISTER requests as tables.
#![tactic(auto)]

#[cfg(test)]
mod contacts;
#[cfg(test)]
mod holds;
#[cfg(test)]
mod registering;
#[cfg(test)]
mod rows;
