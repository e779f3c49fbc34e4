//! Tests of the public calls of `fork_engine`, of `interleaving` by them, and of `call_table`. They stand apart from these
//! crates so that none of them is proved twice.
#![tactic(auto)]

#[cfg(test)]
mod comparing;
#[cfg(test)]
mod drive;
#[cfg(test)]
mod holds;
#[cfg(test)]
mod inbox;
#[cfg(test)]
mod shelf;
