//! The file to which each call is written at its end.
use crate::holds::holds;
use service_files::ProxyFiles;
use std::alloc::Global;
use std::fs::Files;
use std::io::{PipeReader, PipeWriter, Read};
use std::os::fd::AsRawFd;
use std::{fs, io};

/// A file in the folder in which the test runs.
const FILE: &str = "daemon_parts_test_journal";

/// Whether a file has this text.
fn has<R: ProxyFiles>(rt: &R, alloc: Global, text: &str) -> bool {
    match rt.read_file(alloc, FILE, 1_000) {
        Ok(bytes) => bytes.as_slice() == text.as_bytes(),
        Err(_) => false,
    }
}

/// Whether blocks are written to this file, where what was written last ended within a line or did not; that is set anew.
fn appends<R: ProxyFiles>(rt: &R, path: &str, blocks: &[u8], torn: &mut bool) -> bool {
    rt.append_to_journal(path, blocks, torn).is_ok()
}

#[test]
fn blocks_begin_on_a_line_of_their_own(rt: HostRuntime) {
    let alloc = rt.alloc();
    let mut torn = false;
    rt.take_file_away(FILE);
    let opened = rt.open_journal(FILE).is_ok();
    holds(&rt, opened && has(&rt, alloc, ""), "it is made");
    for (before, block, text) in [
        ("", "one\n", "one\n"),
        ("one\n", "two\n", "one\ntwo\n"),
        ("one\ntw", "three\n", "one\ntw\nthree\n"),
    ] {
        let written = fs::write(&rt, FILE, before).is_ok();
        holds(&rt, written, "what it has");
        let written = appends(&rt, FILE, block.as_bytes(), &mut torn);
        holds(&rt, written && has(&rt, alloc, text), "what stands in it");
    }
    rt.take_file_away(FILE);
    let written = appends(&rt, FILE, b"four\n", &mut torn);
    holds(
        &rt,
        written && has(&rt, alloc, "four\n"),
        "it was moved away",
    );
    rt.take_file_away(FILE);
}

#[test]
fn what_cannot_be_written_to_is_said(rt: HostRuntime) {
    let mut torn = false;
    for path in ["/proc/self", "no_such_folder/journal"] {
        holds(&rt, rt.open_journal(path).is_err(), path);
        let written = appends(&rt, path, b"one\n", &mut torn);
        holds(&rt, !written, path);
    }
    let full = rt.open_journal("/dev/full").is_ok();
    holds(&rt, full, "a device can be opened");
    let written = appends(&rt, "/dev/full", b"one\n", &mut torn);
    holds(&rt, !written && !torn, "it is full");
}

/// A pipe, and a path at which it can be opened.
#[derive(Drop)]
struct Pipe {
    reader: PipeReader,
    writer: PipeWriter,
    path: String<Global>,
}

fn pipe_of<R: Files>(rt: &R, alloc: Global) -> io::Result<Pipe> {
    let (reader, writer) = rt.pipe()?;
    let fd = writer.as_raw_fd();
    let path = format!(in alloc; "/proc/self/fd/{fd}")?;
    Ok(Pipe {
        reader,
        writer,
        path,
    })
}

/// Whether what is read from a pipe next is this.
fn gives(reader: &mut PipeReader, wanted: &[u8]) -> bool {
    let mut read = [0u8; 64];
    match reader.read(&mut read) {
        Ok(count) => read.get(..count) == Some(wanted),
        Err(_) => false,
    }
}

/// How many bytes come from a pipe until there is this one.
fn read_until(reader: &mut PipeReader, last: u8) -> usize {
    let mut read = [0u8; 4_096];
    let mut all: usize = 0;
    for _ in 0..1_000 {
        let count = reader.read(&mut read).unwrap_or(0);
        all = all.saturating_add(count);
        if count == 0 || read.get(..count).is_some_and(|part| part.contains(&last)) {
            break;
        }
    }
    all
}

/// Whether a block goes through a pipe; of one that is too long for it a part does, and the next one begins on a line of its own.
fn goes_through<R: ProxyFiles>(rt: &R, alloc: Global, pipe: Pipe) -> io::Result<bool> {
    let Pipe {
        mut reader,
        writer,
        path,
    } = pipe;
    let path = path.as_str();
    let mut torn = false;
    let whole = appends(rt, path, b"one\n", &mut torn) && !torn && gives(&mut reader, b"one\n");
    let long = vec![in alloc; b'x'; 100_000]?;
    let part = !appends(rt, path, long.as_slice(), &mut torn) && torn;
    let none = !appends(rt, path, b"two\n", &mut torn) && torn;
    let mut rest = [0u8; 4_096];
    let room = reader.read(&mut rest).is_ok();
    let next = appends(rt, path, b"three\n", &mut torn) && !torn;
    let count = read_until(&mut reader, b'\n');
    drop(reader);
    let alone = !appends(rt, path, b"four\n", &mut torn) && !torn;
    drop(writer);
    Ok(whole && part && none && room && next && count < 100_000 && alone)
}

#[test]
fn a_pipe_is_not_waited_for(rt: HostRuntime) {
    let alloc = rt.alloc();
    let well = match pipe_of(&rt, alloc) {
        Ok(pipe) => goes_through(&rt, alloc, pipe).unwrap_or(false),
        Err(_) => false,
    };
    holds(&rt, well, "a pipe");
}
