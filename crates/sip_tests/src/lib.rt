//! Tests of the public calls of `sip_lex`, `sip_uri`, `sip_text`, `sip_via`, `sip_route`, `sip_build`, `sip_builders`, `sip_branch`, `sip_txn` and
//! `sip_framing`, in files and folders named for what is tested. They stand apart from these crates so that none of them is proved twice.
#![tactic(auto)]

#[cfg(test)]
mod behind;
#[cfg(test)]
mod build;
#[cfg(test)]
mod bytes;
#[cfg(test)]
mod fault_words;
#[cfg(test)]
mod framing;
#[cfg(test)]
mod holds;
#[cfg(test)]
mod lex;
#[cfg(test)]
mod lex_numbers;
#[cfg(test)]
mod lex_parts;
#[cfg(test)]
mod messages;
#[cfg(test)]
mod route_keys;
#[cfg(test)]
mod routing;
#[cfg(test)]
mod rows;
#[cfg(test)]
mod text;
#[cfg(test)]
mod txn;
#[cfg(test)]
mod uri;
#[cfg(test)]
mod via;
#[cfg(test)]
mod via_lines;
#[cfg(test)]
mod write_tests;
