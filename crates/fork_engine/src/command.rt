//! What the program is asked for, `drive` among it.
ghost use Rattle.std.specs.Prelude.{◌≡◌, IfOk, IfErr, OnErr, map, string_bytes};
ghost use Rattle.fork_engine.specs.Asked.{asked_for, AppendsAsked, IsAskedFault, IsAnswerFault, Writes};

use crate::text_run::drive_text;
use fork_program::{Fault, ProgFault, TextCommand, read_input};
use std::alloc::Allocator;
use std::io::{Read, Write};
use std::sync::Wait;
use std::thread::Threads;

/// What is done with standard input.
#[derive(Clone, Copy, Debug, PartialEq, Eq)]
pub enum ProgramCommand {
    /// The workers of a script are run.
    Drive,
    /// What takes one thread.
    Alone(TextCommand),
}

impl ProgramCommand {
    /// What the arguments ask for, the program's name among them; where nothing stands behind it, a replay.
    pub fn of(words: &[String]) -> Option<ProgramCommand>
        ensures { result ≡ asked_for (map string_bytes words.now) }
    {
        match words {
            [_, word] if word.as_str() == "drive" => Some(ProgramCommand::Drive),
            _ => Some(ProgramCommand::Alone(TextCommand::of(words)?)),
        }
    }

    /// Appends what the program prints for a text, and answers the exit status.
    ///
    /// # Errors
    ///
    /// Those of `drive_text`, of which `Torn` is told without its book, and of `TextCommand::run`. After each `out` is as it was.
    #[tactic(auto, using(crate::proofs::Running::told_so))]
    pub fn run<A: Allocator + Clone + Send + Sync, R: Threads + Wait + Sync>(
        self,
        rt: &R,
        alloc: A,
        text: &[u8],
        out: &mut Vec<u8, A>,
    ) -> Result<u8, ProgFault>
        ensures appended { IfOk result (AppendsAsked self text.now out.old.items out.new.items) }
        ensures fault { IfErr result (IsAskedFault self text.now) }
        ensures err { OnErr result (out.new.items ≡ out.old.items) }
    {
        match self {
            ProgramCommand::Drive => match drive_text(rt, alloc, text, out) {
                Ok(status) => Ok(status),
                Err(fault) => Err(fault.told()),
            },
            ProgramCommand::Alone(command) => command.run(alloc, text, out),
        }
    }

    /// Reads a text to its end, and writes what the program prints for it, which is found before anything is written. The
    /// exit status is 0, or 4 where a check says no.
    ///
    /// # Errors
    ///
    /// In this order: `Read`, where the input cannot be read; `Text` with what [`ProgramCommand::run`] refuses; `Write`, where the
    /// output takes not all. `Text` with want of memory anywhere before that.
    pub fn answer<A: Allocator + Clone + Send + Sync, R: Threads + Wait + Sync, I: Read, O: Write>(
        self,
        rt: &R,
        alloc: A,
        input: &mut I,
        output: &mut O,
    ) -> Result<u8, Fault>
        ensures written { IfOk result (Writes self (I.remaining input.old) (O.contents output.old) (O.contents output.new)) }
        ensures fault { IfErr result (IsAnswerFault self (I.remaining input.old)) }
    {
        let text = read_input(alloc.clone()?, input)?;
        let mut printed = Vec::new(alloc.clone()?);
        let status = self.run(rt, alloc, &text, &mut printed)?;
        match output.write_all(&printed) {
            Ok(()) => Ok(status),
            Err(_) => Err(Fault::Write),
        }
    }
}
