//! What the program is asked for.
ghost use Rattle.std.specs.Prelude.{◌≡◌, IfOk, IfErr, OnErr, map, string_bytes};
ghost use Rattle.fork_program.specs.Program.{command_named, command_of, Appends, IsCommandFault};

use crate::check::check_text;
use crate::fault::ProgFault;
use crate::replay::replay_text;
use std::alloc::Allocator;

/// What is done with standard input.
#[derive(Clone, Copy, Debug, PartialEq, Eq)]
pub enum TextCommand {
    /// A script is replayed.
    Replay,
    /// A listing is checked.
    Check,
}

impl TextCommand {
    fn named(word: &str) -> Option<TextCommand>
        ensures { result ≡ command_named word.now }
    {
        if word == "replay" {
            Some(TextCommand::Replay)
        } else if word == "check" {
            Some(TextCommand::Check)
        } else {
            None
        }
    }

    /// What the arguments ask for, the program's name among them; where nothing stands behind it, a replay.
    pub fn of(words: &[String]) -> Option<TextCommand>
        ensures { result ≡ command_of (map string_bytes words.now) }
    {
        match words {
            [] | [_] => Some(TextCommand::Replay),
            [_, word] => TextCommand::named(word.as_str()),
            _ => None,
        }
    }

    /// Appends what the program prints for a text, and answers the exit status.
    ///
    /// # Errors
    ///
    /// Those of `replay_text` and `check_text`. After each `out` is as it was.
    pub fn run<A: Allocator + Clone>(
        self,
        alloc: A,
        text: &[u8],
        out: &mut Vec<u8, A>,
    ) -> Result<u8, ProgFault>
        ensures appended { IfOk result (Appends self text.now out.old.items out.new.items) }
        ensures fault { IfErr result (IsCommandFault self text.now) }
        ensures err { OnErr result (out.new.items ≡ out.old.items) }
    {
        match self {
            TextCommand::Replay => replay_text(alloc, text, out),
            TextCommand::Check => check_text(alloc, text, out),
        }
    }
}
