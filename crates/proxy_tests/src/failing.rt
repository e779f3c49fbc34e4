//! Inputs that fail or never end, and outputs that fail or take little.
use crate::holds::{holds, holds_of};
use fork_engine::ProgramCommand;
use fork_program::{Fault, MOST_TEXT, TextCommand, read_input};
use std::alloc::Global;
use std::io::{self, ErrorKind, Read, Write};
use std::sync::Wait;
use std::thread::Threads;

const SCRIPT: &[u8] = b"kind INVITE\ntarget 1000 a\nanswer 0 404\n";

const PRINTED: &[u8] = b"opening start 0\n0 start - cancel - up final 404 0\nfork 3 1\n\
prefer 401,407,415,420,484\ndepth 256\ntarget 0 - 1000 stored 404 0 received\nrank 404 0 0\nfinal 404 0\n";

/// The script, a byte at a time; the read of this byte fails.
#[derive(Drop)]
struct Input {
    at: usize,
    fails: Option<usize>,
}

impl Read for Input {
    fn read(&mut self, buf: &mut [u8]) -> io::Result<usize> {
        if self.fails == Some(self.at) {
            return Err(io::Error::from(ErrorKind::BrokenPipe));
        }
        match (SCRIPT.get(self.at), buf.first_mut()) {
            (Some(byte), Some(place)) => {
                *place = *byte;
                self.at = self.at.saturating_add(1);
                Ok(1)
            }
            _ => Ok(0),
        }
    }
}

/// An output that compares what it takes with what is to be printed. It takes at most so many bytes at once, and the write of
/// this byte fails.
#[derive(Drop)]
struct Output {
    at: usize,
    well: bool,
    most: usize,
    fails: Option<usize>,
}

impl Output {
    /// How many bytes a write takes at most.
    fn room(&self) -> usize {
        match self.fails {
            Some(at) => self.most.min(at.saturating_sub(self.at)),
            None => self.most,
        }
    }
}

impl Write for Output {
    fn write(&mut self, buf: &[u8]) -> io::Result<usize> {
        if self.fails == Some(self.at) {
            return Err(io::Error::from(ErrorKind::BrokenPipe));
        }
        let count = buf.len().min(self.room());
        for byte in &buf[..count] {
            self.well = self.well && PRINTED.get(self.at) == Some(byte);
            self.at = self.at.saturating_add(1);
        }
        Ok(count)
    }

    fn flush(&mut self) -> io::Result<()> {
        Ok(())
    }
}

/// The exit status of a replay, and how many bytes of the right ones were printed; none where one is wrong.
fn replayed<R: Threads + Wait + Sync>(
    rt: &R,
    alloc: Global,
    reading: Option<usize>,
    most: usize,
    writing: Option<usize>,
) -> Option<(u8, usize)> {
    let mut input = Input {
        at: 0,
        fails: reading,
    };
    let mut output = Output {
        at: 0,
        well: true,
        most,
        fails: writing,
    };
    let status = match ProgramCommand::Alone(TextCommand::Replay).answer(
        rt,
        alloc,
        &mut input,
        &mut output,
    ) {
        Ok(status) => status,
        Err(fault) => fault.status(),
    };
    if output.well {
        Some((status, output.at))
    } else {
        None
    }
}

#[test]
fn an_input_may_fail_at_any_byte(rt: HostRuntime) {
    for at in 0..SCRIPT.len().saturating_add(1) {
        holds(
            &rt,
            replayed(&rt, rt.alloc(), Some(at), 1, None) == Some((5, 0)),
            "a script that cannot be read is not replayed",
        );
    }
    holds(
        &rt,
        replayed(&rt, rt.alloc(), None, 1, None) == Some((0, PRINTED.len())),
        "a byte at a time is read and printed",
    );
}

#[test]
fn an_output_may_fail_at_any_byte(rt: HostRuntime) {
    for most in [1, 7, 1000] {
        for at in 0..PRINTED.len() {
            holds(
                &rt,
                replayed(&rt, rt.alloc(), None, most, Some(at)) == Some((5, at)),
                "what stands before a byte that cannot be written was printed",
            );
        }
    }
    holds(
        &rt,
        replayed(&rt, rt.alloc(), None, 0, None) == Some((5, 0)),
        "an output may take nothing",
    );
}

/// An input that has no end. Each of its reads gives one byte, or is interrupted.
#[derive(Drop)]
struct Endless {
    reads: u32,
    interrupted: bool,
}

impl Read for Endless {
    fn read(&mut self, buf: &mut [u8]) -> io::Result<usize> {
        self.reads = self.reads.saturating_add(1);
        if self.interrupted {
            return Err(io::Error::from(ErrorKind::Interrupted));
        }
        match buf.first_mut() {
            Some(place) => {
                *place = b'x';
                Ok(1)
            }
            None => Ok(0),
        }
    }
}

/// The exit status of a command whose input has no end, by how many reads, and whether anything was written.
fn ended<R: Threads + Wait + Sync>(
    rt: &R,
    alloc: Global,
    asked: ProgramCommand,
    interrupted: bool,
) -> (u8, u32, bool) {
    let mut input = Endless {
        reads: 0,
        interrupted,
    };
    let mut output = Output {
        at: 0,
        well: true,
        most: 1000,
        fails: None,
    };
    let status = match asked.answer(rt, alloc, &mut input, &mut output) {
        Ok(status) => status,
        Err(fault) => fault.status(),
    };
    (status, input.reads, output.at > 0 || !output.well)
}

#[test]
fn a_command_gives_up_an_input_without_an_end(rt: HostRuntime) {
    for asked in [
        ProgramCommand::Alone(TextCommand::Replay),
        ProgramCommand::Alone(TextCommand::Check),
        ProgramCommand::Drive,
    ] {
        holds(
            &rt,
            ended(&rt, rt.alloc(), asked, false) == (1, 1_048_577, false),
            "one byte too many is too long",
        );
        holds(
            &rt,
            ended(&rt, rt.alloc(), asked, true) == (5, 2_097_152, false),
            "reads that bring no end are a broken input",
        );
    }
}

/// How many bytes are read of an input without an end, if it counts as read, and by how many reads.
fn read_of(alloc: Global, interrupted: bool) -> (Result<usize, Fault>, u32) {
    let mut input = Endless {
        reads: 0,
        interrupted,
    };
    let count = match read_input(alloc, &mut input) {
        Ok(text) => Ok(text.len()),
        Err(fault) => Err(fault),
    };
    (count, input.reads)
}

#[test]
fn an_input_without_an_end_is_given_up(rt: HostRuntime) {
    holds_of(
        &rt,
        read_of(rt.alloc(), false) == (Ok(MOST_TEXT + 1), 1_048_577),
        "one byte too many is read, and no more",
        "one byte at a time",
    );
    holds_of(
        &rt,
        read_of(rt.alloc(), true) == (Err(Fault::Read), 2_097_152),
        "after 2,097,152 reads an input counts as broken",
        "interrupted reads",
    );
}
