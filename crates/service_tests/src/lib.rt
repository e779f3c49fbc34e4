//! Tests of the public calls of the crates of the service and of what a shelf forgets, a file for each.
#![tactic(auto)]

#[cfg(test)]
mod appending;
#[cfg(test)]
mod by_call;
#[cfg(test)]
mod clients;
#[cfg(test)]
mod clock;
#[cfg(test)]
mod commands;
#[cfg(test)]
mod control;
#[cfg(test)]
mod counters;
#[cfg(test)]
mod deadlines;
#[cfg(test)]
mod elsewhere;
#[cfg(test)]
mod files;
#[cfg(test)]
mod forgetting;
#[cfg(test)]
mod groups;
#[cfg(test)]
mod holds;
#[cfg(test)]
mod jobs;
#[cfg(test)]
mod journal;
#[cfg(test)]
mod lifetime;
#[cfg(test)]
mod limits;
#[cfg(test)]
mod parts;
#[cfg(test)]
mod receiving;
#[cfg(test)]
mod schedule;
#[cfg(test)]
mod scrapers;
