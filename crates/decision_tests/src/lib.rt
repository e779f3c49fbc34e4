//! Tests of `service_decisions`: what a service decides of requests, and by which setup they are opened, over settings,
//! bindings and requests in memory.
#![tactic(auto)]

#[cfg(test)]
mod deciding;
#[cfg(test)]
mod growths;
#[cfg(test)]
mod holds;
#[cfg(test)]
mod moments;
#[cfg(test)]
mod registering;
#[cfg(test)]
mod texts;
