//! Tests of `proxy_dispatch`: what becomes of each kind of datagram; and of what `proxy_threads` has of carrying, waiting and sending. They
//! stand apart from those crates so that these are not proved twice.
#![tactic(auto)]

#[cfg(test)]
mod acks;
#[cfg(test)]
mod admitting;
#[cfg(test)]
mod answers;
#[cfg(test)]
mod calls;
#[cfg(test)]
mod carrying;
#[cfg(test)]
mod decisions;
#[cfg(test)]
mod failing;
#[cfg(test)]
mod holds;
#[cfg(test)]
mod moments;
#[cfg(test)]
mod mutated;
#[cfg(test)]
mod noise;
#[cfg(test)]
mod outbox;
#[cfg(test)]
mod own_port;
#[cfg(test)]
mod own_routes;
#[cfg(test)]
mod sending;
#[cfg(test)]
mod strays;
#[cfg(test)]
mod texts;
#[cfg(test)]
mod waits;
