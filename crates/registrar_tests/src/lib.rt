//! Tests of who may open a call, and of what a registrar does with telephones that register: `authentication` and `registrar`, by tables
//! of requests.
#![tactic(auto)]

#[cfg(test)]
mod answers;
#[cfg(test)]
mod calling;
#[cfg(test)]
mod calls;
#[cfg(test)]
mod forms;
#[cfg(test)]
mod growths;
#[cfg(test)]
mod holds;
#[cfg(test)]
mod notes;
#[cfg(test)]
mod parties;
#[cfg(test)]
mod passwords;
#[cfg(test)]
mod registering;
#[cfg(test)]
mod registers;
#[cfg(test)]
mod requests;
#[cfg(test)]
mod standings;
#[cfg(test)]
mod world;
