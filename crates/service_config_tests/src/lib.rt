//! Tests of the public calls of `service_config` and `realm_users`, in files named for what is tested. They stand apart from
//! these crates so that none of them is proved twice.
#![tactic(auto)]

#[cfg(test)]
mod forms;
#[cfg(test)]
mod holds;
#[cfg(test)]
mod lines;
#[cfg(test)]
mod settings;
#[cfg(test)]
mod trusted;
#[cfg(test)]
mod users;
