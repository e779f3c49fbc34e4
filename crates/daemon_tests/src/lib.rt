//! Tests of the public calls of `proxy_service` and `service_threads`. What a service does is played without sockets, by tables of
//! moments (`played`), and refused memory (`refused`, `waiting`); what its sockets, threads and files add, by whole proxies (`living`, `wired`, `limited`, `ordering`, `registered`,
//! `telephones`, `kept`, `connecting`).
#![tactic(auto)]

#[cfg(test)]
mod agents;
#[cfg(test)]
mod anew;
#[cfg(test)]
mod answering;
#[cfg(test)]
mod asking;
#[cfg(test)]
mod blocks;
#[cfg(test)]
mod connecting;
#[cfg(test)]
mod counting;
#[cfg(test)]
mod ending;
#[cfg(test)]
mod forgetting;
#[cfg(test)]
mod full;
#[cfg(test)]
mod holds;
#[cfg(test)]
mod kept;
#[cfg(test)]
mod limited;
#[cfg(test)]
mod living;
#[cfg(test)]
mod ordering;
#[cfg(test)]
mod outbox;
#[cfg(test)]
mod outgoing;
#[cfg(test)]
mod played;
#[cfg(test)]
mod racing;
#[cfg(test)]
mod refused;
#[cfg(test)]
mod registered;
#[cfg(test)]
mod ringing;
#[cfg(test)]
mod telephones;
#[cfg(test)]
mod telling;
#[cfg(test)]
mod texts;
#[cfg(test)]
mod told;
#[cfg(test)]
mod waiting;
#[cfg(test)]
mod wired;
