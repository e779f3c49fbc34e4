//! Workers, a thread for each, that post the events of their scripts to one response context with its history (RFC 3261 section 16.7). Whatever the
//! threads do, the history that they leave is an interleaving of their scripts, or it is not handed out. `drive_text` is that over texts.
#![tactic(auto)]

mod command;
mod compare;
mod fault;
mod interleaving_laws;
mod opened_book;
mod print;
mod run;
mod same;
mod scripts;
mod text_fault;
mod text_run;
mod workers;

pub use command::ProgramCommand;
pub use compare::{have_more_events, is_interleaving};
pub use fault::DriveFault;
pub use interleaving_laws::order_does_not_matter;
pub use run::drive;
pub use same::{are_same_targets, is_same_event};
pub use text_fault::RunFault;
pub use text_run::drive_text;
pub use workers::Gate;
