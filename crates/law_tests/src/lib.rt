//! Tests that take a call from its opening to its last answer by the contracts of `open`, `take`, `carry`, `pump` and `failed` alone,
//! as programs call them, and conclude of it by the laws of runs.
#![tactic(auto)]

#[cfg(test)]
mod concluding;
#[cfg(test)]
mod faults;
#[cfg(test)]
mod playing;
#[cfg(test)]
mod port;
#[cfg(test)]
mod texts;
