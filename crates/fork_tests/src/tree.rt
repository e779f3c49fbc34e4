//! Tests of the public calls of `fork_tree`.
mod build;
mod deeds;
mod history;
mod play;
mod series;
