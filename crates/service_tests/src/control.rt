//! A control socket answers lines until the end, whatever other clients do.
use crate::holds::holds;
use control_socket::{ControlHandler, listen, tell};
use std::alloc::Global;
use std::fs::Files;
use std::io::{ErrorKind, Read, Write};
use std::net::{Net, Shutdown};
use std::os::fd::OwnedFd;
use std::os::unix::net::{UnixListener, UnixStream};
use std::sync::atomic::{AtomicU64, Ordering};
use std::test::Fail;
use std::thread::join;
use std::time::{Clock, Duration, Instant};
use std::{fs, io};

/// What stands in `state` before the end was asked for.
const SERVING: u64 = 1_000_000;

/// A program that does what it is asked at once.
#[derive(Drop)]
struct Program {
    alloc: Global,
    /// The seconds of the last stop, once it was asked for.
    state: AtomicU64,
}

impl ControlHandler for Program {
    fn stop(&self, seconds: u64) {
        self.state.store(seconds, Ordering::SeqCst);
    }

    fn reload(&self) -> Result<String<Global>, io::Error> {
        Err(io::Error::from(ErrorKind::OutOfMemory))
    }

    fn stats(&self) -> Result<String<Global>, io::Error> {
        Ok(format!(in self.alloc; "calls 0\n")?)
    }

    fn calls(&self, from: u64) -> Result<Vec<u8>, io::Error> {
        Ok(format!(in self.alloc; "calls from {from}\n")?.into_bytes())
    }

    fn call(&self, number: u64) -> Result<Vec<u8>, io::Error> {
        Ok(format!(in self.alloc; "call {number}\n")?.into_bytes())
    }

    fn bindings(&self) -> Result<Vec<u8>, io::Error> {
        Ok(format!(in self.alloc; "bindings\n")?.into_bytes())
    }

    fn bindings_of(&self, user: &[u8]) -> Result<Vec<u8>, io::Error> {
        let user = str::from_utf8(user).unwrap_or("");
        Ok(format!(in self.alloc; "bindings of {user}\n")?.into_bytes())
    }

    fn forget(&self, user: &[u8]) -> Result<Vec<u8>, io::Error> {
        let user = str::from_utf8(user).unwrap_or("");
        Ok(format!(in self.alloc; "forget {user}\n")?.into_bytes())
    }

    fn refused(&self) -> Result<Vec<u8>, io::Error> {
        Ok(format!(in self.alloc; "refused\n")?.into_bytes())
    }

    fn has_ended(&self) -> bool {
        self.state.load(Ordering::SeqCst) != SERVING
    }
}

/// Whether this is answered to a line within half a second.
fn answers<R: Net + Clock>(rt: &R, alloc: Global, path: &str, line: &str, wanted: &str) -> bool {
    let mut answer = Vec::new(alloc);
    let limit = Duration::from_millis(500);
    match tell(rt, path, line.as_bytes(), limit, &mut answer) {
        Ok(()) => answer.as_slice() == wanted.as_bytes(),
        Err(_) => false,
    }
}

/// A client that has written this and neither closes its side nor reads.
fn left_open<R: Net>(rt: &R, path: &str, text: &str) -> io::Result<UnixStream> {
    let mut stream = UnixStream::connect(rt, path)?;
    stream.set_read_timeout(Some(Duration::from_secs(5)))?;
    stream.write_all(text.as_bytes())?;
    Ok(stream)
}

/// Whether this is all that a client reads until its connection is closed.
fn reads(alloc: Global, stream: &mut UnixStream, wanted: &str) -> bool {
    let mut answer = Vec::new(alloc);
    stream.read_to_end(&mut answer).is_ok() && answer.as_slice() == wanted.as_bytes()
}

/// Whether a client reads this and its connection stays open for the moment.
fn waits(stream: &mut UnixStream, wanted: &str) -> bool {
    let mut answer = [0u8; 9];
    if stream.read_exact(&mut answer).is_err() || answer.as_slice() != wanted.as_bytes() {
        return false;
    }
    if stream
        .set_read_timeout(Some(Duration::from_millis(50)))
        .is_err()
    {
        return false;
    }
    match stream.read(&mut answer) {
        Ok(_) => false,
        Err(error) => error.kind() == ErrorKind::WouldBlock,
    }
}

/// Shuts a listener down.
fn shut(listener: &UnixListener) -> io::Result<()> {
    let end = UnixStream::from(OwnedFd::from(listener.try_clone()?));
    end.shutdown(Shutdown::Both)
}

/// Listens at a socket's file, in the folder in which the test runs.
fn opened<R: Net + Files>(rt: &R, path: &str) -> io::Result<UnixListener> {
    let _ = fs::remove_file(rt, path);
    UnixListener::bind(rt, path)
}

const LINES: &[(&str, &str)] = &[
    ("stats", "calls 0\n"),
    ("calls", "calls from 0\n"),
    ("calls 300", "calls from 300\n"),
    ("call 17", "call 17\n"),
    ("bindings", "bindings\n"),
    ("bindings bob", "bindings of bob\n"),
    ("forget bob smith\r\nbehind it", "forget bob smith\n"),
    ("refused", "refused\n"),
    ("else", "unknown\n"),
    (
        "GET / HTTP/1.1\r\nHost: x\r\n\r",
        "HTTP/1.0 200 OK\r\nContent-Type: text/plain; version=0.0.4\r\nConnection: close\r\n\r\ncalls 0\n",
    ),
    ("stats\nand what nobody reads", "calls 0\n"),
    ("reload", ""),
];

/// They stand in a function of their own: a proof reads a constant wherever it is named, once for each call beside it.
fn lines() -> &'static [(&'static str, &'static str)] {
    LINES
}

/// The first line that is not answered as it should be.
fn unanswered<R: Net + Clock>(rt: &R, alloc: Global, path: &str) -> Option<&'static str> {
    for &(line, answer) in lines() {
        if !answers(rt, alloc, path, line, answer) {
            return Some(line);
        }
    }
    None
}

/// Asks all that can be asked beside clients that are silent or write slowly, and says which line was not answered as it should be.
fn asks<R: Net + Clock>(rt: &R, alloc: Global, path: &str) -> io::Result<&'static str> {
    let mut slow = left_open(rt, path, "sta")?;
    let silent = left_open(rt, path, "")?;
    let mut cut_off = left_open(rt, path, "stop 3")?;
    if let Some(line) = unanswered(rt, alloc, path) {
        return Ok(line);
    }
    slow.write_all(b"ts\n")?;
    if !reads(alloc, &mut slow, "calls 0\n") {
        return Ok("a line in two pieces");
    }
    drop(silent);
    if reads(alloc, &mut cut_off, "unknown\n") {
        Ok("none")
    } else {
        Ok("a line that was cut off")
    }
}

/// Asks all, and shuts the listener down once the end was asked for.
fn asks_all<R: Net + Clock>(
    rt: &R,
    program: &Program,
    path: &str,
    listener: &UnixListener,
) -> io::Result<&'static str> {
    let asked = asks(rt, program.alloc, path)?;
    if program.has_ended() {
        return Ok("stop 3, which was cut off, is obeyed");
    }
    let mut stopping = left_open(rt, path, "stop 7\n")?;
    let waits = waits(&mut stopping, "stopping\n");
    shut(listener)?;
    if !waits || !reads(program.alloc, &mut stopping, "") {
        return Ok("stop 7");
    }
    Ok(asked)
}

#[test]
fn a_control_socket_answers_whatever_others_do(rt: HostRuntime) -> Result<(), Fail> {
    let path = "forkproxy_control_test";
    let listener = opened(&rt, path)?;
    let alloc = rt.alloc();
    let program = Program {
        alloc,
        state: AtomicU64::new(SERVING),
    };
    let (_, asked) = join(
        &rt,
        || listen(&rt, alloc, &program, &listener),
        || {
            let asked = asks_all(&rt, &program, path, &listener).unwrap_or("a call of the system");
            program.state.store(7, Ordering::SeqCst);
            let _ = shut(&listener);
            asked
        },
    );
    let _ = fs::remove_file(&rt, path);
    holds(&rt, asked == "none", asked);
    Ok(())
}

/// Whether sixteen wait for the end and the next one is told that they do; more than sixty-four silent ones keep it out as little.
fn are_bounded<R: Net>(rt: &R, alloc: Global, path: &str) -> io::Result<bool> {
    let mut silent = Vec::new(alloc);
    for _ in 0..70 {
        silent.push(left_open(rt, path, "")?)?;
    }
    let mut stopping = Vec::new(alloc);
    for _ in 0..16 {
        let mut stream = left_open(rt, path, "stop 9\n")?;
        if !waits(&mut stream, "stopping\n") {
            return Ok(false);
        }
        stopping.push(stream)?;
    }
    let mut next = left_open(rt, path, "stop 5\n")?;
    let busy = "busy: it stops, and too many wait for that already\n";
    Ok(reads(alloc, &mut next, busy))
}

#[test]
fn sixteen_wait_for_the_end(rt: HostRuntime) -> Result<(), Fail> {
    let path = "forkproxy_control_bounds";
    let listener = opened(&rt, path)?;
    let alloc = rt.alloc();
    let program = Program {
        alloc,
        state: AtomicU64::new(SERVING),
    };
    let (_, are_bounded) = join(
        &rt,
        || listen(&rt, alloc, &program, &listener),
        || {
            let are_bounded = are_bounded(&rt, alloc, path).unwrap_or(false);
            let has_ended = program.state.load(Ordering::SeqCst) == 5;
            program.state.store(5, Ordering::SeqCst);
            let _ = shut(&listener);
            are_bounded && has_ended
        },
    );
    let _ = fs::remove_file(&rt, path);
    holds(&rt, are_bounded, "the seventeenth is obeyed and told so");
    Ok(())
}

/// How a telling ends at a listener that never answers, and how many milliseconds that took.
fn gives_up<R: Net + Clock>(rt: &R, alloc: Global, path: &str) -> io::Result<(bool, u128)> {
    let began = Instant::now(rt)?;
    let mut answer = Vec::new(alloc);
    let limit = Duration::from_millis(100);
    let is_over = match tell(rt, path, b"stats", limit, &mut answer) {
        Ok(()) => false,
        Err(error) => error.kind() == ErrorKind::TimedOut,
    };
    Ok((is_over, began.elapsed(rt)?.as_millis()))
}

#[test]
fn who_tells_gives_up_in_time(rt: HostRuntime) -> Result<(), Fail> {
    let path = "forkproxy_control_silence";
    let listener = opened(&rt, path)?;
    let (is_over, took) = gives_up(&rt, rt.alloc(), path)?;
    drop(listener);
    let _ = fs::remove_file(&rt, path);
    holds(&rt, is_over, "the time is over");
    holds(
        &rt,
        took >= 100 && took < 2_000,
        "as long as it is waited for",
    );
    Ok(())
}
