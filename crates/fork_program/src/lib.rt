//! The commands `replay` and `check` of `forkproxy`, as functions over texts: a script of one forked request is
//! replayed (RFC 3261 section 16), which prints what the proxy does on each event and the listing of a fork that is
//! done; such a listing is checked.
#![tactic(auto)]

mod check;
mod command;
mod fault;
mod input;
mod law;
mod line;
mod print;
mod replay;
mod script;

pub use check::{append_found, check_text};
pub use command::TextCommand;
pub use fault::{Fault, ProgFault};
pub use input::read_input;
pub use law::{
    a_script_has_one_replay, replays_are_answered_yes, script_is_read_exactly,
    texts_of_one_script_say_the_same,
};
pub use print::{append_ending, append_opening, append_reply};
pub use replay::{MOST_TEXT, replay_text};
pub use script::{Script, ScriptDraft, ScriptFault, ScriptPhase};
