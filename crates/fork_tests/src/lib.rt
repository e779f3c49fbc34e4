//! Tests of the public calls of `fork_model`, `fork_rank`, `fork_tree`, `context_values`, `fork_context`, `fork_book`, `fork_listing` and the forms
//! of `proxy_config`, a file or a folder for each. They stand apart from these crates so that none of them is proved twice. Rows that the
//! tests of refused memory build a tree of, too, are public.
#![tactic(auto)]

#[cfg(test)]
mod book;
#[cfg(test)]
mod bytes;
#[cfg(test)]
mod context;
#[cfg(test)]
mod form;
#[cfg(test)]
mod holds;
#[cfg(test)]
mod listing;
#[cfg(test)]
mod model;
#[cfg(test)]
mod rank;
pub mod rows;
#[cfg(test)]
mod text;
#[cfg(test)]
mod tree;
