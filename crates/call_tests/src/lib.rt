//! Tests of the public calls of `call_branch`, `call_caller`, `call_state`, `proxy_config`, `proxy_routing` and
//! `fork_call`, in files and folders named for what is tested. They stand apart from these crates so that none of them is proved twice.
#![tactic(auto)]

#[cfg(test)]
mod branches;
#[cfg(test)]
mod caller_side;
#[cfg(test)]
mod calls;
#[cfg(test)]
mod carrying;
#[cfg(test)]
mod destinations;
#[cfg(test)]
mod histories;
#[cfg(test)]
mod holds;
#[cfg(test)]
mod large;
#[cfg(test)]
mod laws;
#[cfg(test)]
mod looking;
#[cfg(test)]
mod moments;
#[cfg(test)]
mod one_branch;
#[cfg(test)]
mod opened_request;
#[cfg(test)]
mod opening;
#[cfg(test)]
mod places;
#[cfg(test)]
mod recipients;
#[cfg(test)]
mod record_routes;
#[cfg(test)]
mod requests;
#[cfg(test)]
mod response_classes;
#[cfg(test)]
mod setup;
#[cfg(test)]
mod setup_lines;
#[cfg(test)]
mod state;
