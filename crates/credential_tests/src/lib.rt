//! Tests of the public calls of `sip_digest`, in files named for what is tested. They stand apart from these
//! crates so that none of them is proved twice.
#![tactic(auto)]

#[cfg(test)]
mod challenges;
#[cfg(test)]
mod holds;
#[cfg(test)]
mod listed;
#[cfg(test)]
mod readings;
#[cfg(test)]
mod responses;
#[cfg(test)]
mod stamps;
#[cfg(test)]
mod taken_off;
#[cfg(test)]
mod verdicts;
