//! Tests of the commands of `fork_program` and `fork_engine`. They stand apart from these so that neither is proved twice.
#![tactic(auto)]

#[cfg(test)]
mod answers;
#[cfg(test)]
mod drives;
#[cfg(test)]
mod examples;
#[cfg(test)]
mod failing;
#[cfg(test)]
mod faults;
#[cfg(test)]
mod holds;
#[cfg(test)]
mod hostile;
#[cfg(test)]
mod laws;
#[cfg(test)]
mod limits;
#[cfg(test)]
mod play;
#[cfg(test)]
mod printing;
#[cfg(test)]
mod refused;
#[cfg(test)]
mod replays;
