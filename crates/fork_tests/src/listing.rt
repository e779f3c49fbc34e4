//! Tests of `fork_listing`.
mod altered;
mod changed;
mod forks;
mod laws;
mod long;
mod play;
mod read;
mod texts;
