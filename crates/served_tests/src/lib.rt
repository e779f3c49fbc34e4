//! Tests of a service whose telephones register, over a port in memory: who may register and call, where requests go then, and what is told of
//! that.
#![tactic(auto)]

#[cfg(test)]
mod credentials;
#[cfg(test)]
mod gateways;
#[cfg(test)]
mod histories;
#[cfg(test)]
mod holds;
#[cfg(test)]
mod outgoing;
#[cfg(test)]
mod plain;
#[cfg(test)]
mod rows;
#[cfg(test)]
mod storing;
#[cfg(test)]
mod told;
#[cfg(test)]
mod turns;
