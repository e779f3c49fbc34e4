//! `forkproxy`: reads standard input, and calls the command that the arguments name: one that answers a text (`fork_drive`,
//! `fork_program`), whose answer it writes, or the server (`proxy_server`), which the text sets up.
#![tactic(auto)]

ghost use Rattle.std.specs.Prelude.{◌≡◌, ◌↔◌, None, IfOk, IfErr, IfSome, IsErrOf, map, string_bytes};
ghost use Rattle.std.specs.Process as process;
ghost use Rattle.fork_program.specs.Program.{IsUsageFault};
ghost use Rattle.fork_engine.specs.Asked.{asked_for, Writes, IsAnswerFault};
ghost use Rattle.fork_proxy.specs.Ending.{Serves, IsServeFailure, exit_status, status_of, told};

use fork_engine::ProgramCommand;
use fork_program::{Fault, ProgFault, read_input};
use log::Log;
use proxy_config::Malformed;
use serve_command::{ServeFault, parse_serve_args, serve};
use std::alloc::{AllocError, Global};
use std::io::{ErrorKind, Print, Read, Write};
use std::net::Net;
use std::process::ExitCode;
use std::sync::Wait;
use std::thread::Threads;
use std::{env, io};
use thiserror::Error;

/// Why the program ends without what it was asked for, with the words that it prints.
#[derive(Clone, Copy, Debug, Error)]
enum Failure {
    /// The arguments ask for nothing, or the input's text has no answer.
    #[error(transparent)]
    Answer(Fault),
    /// The input's text is served no longer, or not at all, and no line of it is malformed.
    #[error(transparent)]
    Serve(ServeFault),
    /// The first malformed line of the input's text, and what it should be.
    #[error(transparent)]
    Malformed(Malformed),
}

impl Failure {
    /// The exit status of a program that ends with it.
    fn status(self) -> u8
        ensures { result ≡ exit_status self }
    {
        match self {
            Failure::Answer(fault) => fault.status(),
            Failure::Serve(fault) => fault.status(),
            Failure::Malformed(line) => ServeFault::Line(line.number).status(),
        }
    }
}

/// The words as a list. The only error is want of memory.
fn listed(alloc: Global, words: env::Args) -> Result<Vec<String>, AllocError> {
    let mut list = Vec::new(alloc);
    for word in words {
        list.push(word)?;
    }
    Ok(list)
}

/// The words of the command line, the program's name first.
fn words(rt: &HostRuntime) -> Result<Vec<String>, Fault>
    ensures { IfErr result IsUsageFault }
{
    match env::args(rt) {
        Ok(words) => Ok(listed(rt.alloc(), words)?),
        Err(error) if error.kind() == ErrorKind::OutOfMemory => Err(Fault::Text(
            ProgFault::NoMemory,
        )),
        Err(_) => Err(Fault::Usage),
    }
}

/// Reads the input's text, and writes what the command makes of it that the words ask for, which is found before anything
/// is read; `rt` starts the threads that it needs. The exit status is 0, or 4 where a check says no.
///
/// # Errors
///
/// `Usage`, where the words ask for no command; then those of [`ProgramCommand::answer`].
fn answered<R: Threads + Wait + Sync, I: Read, O: Write>(
    rt: &R,
    alloc: Global,
    words: &[String],
    input: &mut I,
    output: &mut O,
) -> Result<u8, Fault>
    ensures usage { IsErrOf result Fault.Usage ↔ (asked_for (map string_bytes words.now) ≡ None) }
    ensures written { IfOk result (λ status. IfSome (asked_for (map string_bytes words.now)) (λ asked. Writes asked (I.remaining input.old) (O.contents output.old) (O.contents output.new) status)) }
    ensures fault { IfErr result (λ fault. IfSome (asked_for (map string_bytes words.now)) (λ asked. IsAnswerFault asked (I.remaining input.old) fault)) }
{
    match ProgramCommand::of(words) {
        Some(asked) => asked.answer(rt, alloc, input, output),
        None => Err(Fault::Usage),
    }
}

/// Why a text is served no longer, or not at all: a malformed line together with what it should be.
fn told(text: &[u8], fault: ServeFault) -> Failure
    ensures { result ≡ told text.now fault }
{
    match fault {
        ServeFault::Line(number) => Failure::Malformed(Malformed::of(text, number)),
        ServeFault::TooLong | ServeFault::NoMemory | ServeFault::Socket => Failure::Serve(fault),
    }
}

/// Serves for `turns` turns, set up by the input's text. The exit status is 0.
///
/// # Errors
///
/// `Answer`, where the input cannot be read; `Malformed` where [`serve`] refuses a line, and `Serve` with what else it refuses.
fn served<R: Threads + Wait + Net + Print + Log + Sync, I: Read>(
    rt: &R,
    alloc: Global,
    input: &mut I,
    turns: u32,
) -> Result<u8, Failure>
    ensures served { IfOk result (Serves (I.remaining input.old)) }
    ensures failure { IfErr result (IsServeFailure (I.remaining input.old)) }
{
    match read_input(alloc, input) {
        Ok(text) => match serve(rt, alloc, &text, turns) {
            Ok(()) => Ok(0),
            Err(fault) => Err(told(&text, fault)),
        },
        Err(fault) => Err(Failure::Answer(fault)),
    }
}

/// How the program ends after a run, whose failure it prints on standard error.
fn ended(rt: &HostRuntime, ran: Result<u8, Failure>) -> ExitCode
    ensures { process.exit_status result ≡ status_of ran }
{
    match ran {
        Ok(status) => ExitCode::from(status),
        Err(failure) => {
            let _ = rt.eprintln(failure);
            ExitCode::from(failure.status())
        }
    }
}

/// Does what the arguments ask for; `handle` has the threads and the socket.
fn run<R: Threads + Wait + Net + Print + Log + Sync>(
    handle: &R,
    rt: &HostRuntime,
) -> Result<u8, Failure> {
    let words = words(rt).map_err(Failure::Answer)?;
    let input = &mut rt.reader();
    match parse_serve_args(&words) {
        Some(turns) => served(handle, rt.alloc(), input, turns),
        None => answered(handle, rt.alloc(), &words, input, &mut io::writer(handle)).map_err(
            Failure::Answer,
        ),
    }
}

fn main(rt: HostRuntime) -> ExitCode {
    ended(&rt, run(&rt, &rt))
}
