//! Tests of the store of bindings, `binding_store`, on files of its own.
#![tactic(auto)]

#[cfg(test)]
mod files;
#[cfg(test)]
mod holds;
#[cfg(test)]
mod kept;
#[cfg(test)]
mod refusals;
