//! The control socket of a program that runs for long: a line says a command, and an answer comes back.
#![tactic(auto)]

mod answer;
mod client;
mod command;
mod connection;
mod control;
mod listening;
mod request;
mod telling;

pub use answer::ClientAnswer;
pub use client::{Client, ClientTurn};
pub use command::{ControlCommand, read_command};
pub use control::ControlHandler;
pub use listening::listen;
pub use request::ControlRequest;
pub use telling::tell;
