//! The counters as a page of HTTP, whatever other scrapers do.
use crate::holds::holds;
use metrics::{MetricsSource, PageKind, PageSockets, answer_scrapers, page_kind};
use std::alloc::Global;
use std::io;
use std::io::{ErrorKind, Read, Write};
use std::net::{Net, Shutdown, TcpListener, TcpStream};
use std::os::fd::OwnedFd;
use std::sync::atomic::{AtomicBool, Ordering};
use std::test::Fail;
use std::thread::join;
use std::time::Duration;

#[test]
fn a_page_is_chosen_by_its_path_and_method(rt: HostRuntime) {
    for (path, method, kind) in [
        ("/metrics", "GET", PageKind::Counters),
        ("/metrics", "POST", PageKind::NoSuchMethod),
        ("/", "GET", PageKind::NoSuchPath),
    ] {
        let found = page_kind(path.as_bytes(), method.as_bytes());
        holds(&rt, found == kind, "the kind of a page");
    }
}

/// Where scrapers of the test come.
const AT: &str = "127.0.0.1:47439";

/// A program that ends once it is told to.
#[derive(Drop)]
struct Program {
    alloc: Global,
    ended: AtomicBool,
}

impl MetricsSource for Program {
    fn counters(&self) -> io::Result<Vec<u8>> {
        Ok(Vec::from_slice(self.alloc, b"calls 0\n")?)
    }

    fn has_ended(&self) -> bool {
        self.ended.load(Ordering::SeqCst)
    }
}

/// A scraper that has written this.
fn begun<R: Net<Stream = TcpStream>>(rt: &R, request: &str) -> io::Result<TcpStream> {
    let mut stream = TcpStream::connect(rt, AT)?;
    stream.write_all(request.as_bytes())?;
    Ok(stream)
}

/// What a scraper reads within so many milliseconds, until its connection closes.
fn read_within(alloc: Global, stream: &mut TcpStream, millis: u64) -> io::Result<Vec<u8>> {
    stream.set_read_timeout(Some(Duration::from_millis(millis)))?;
    let mut answer = Vec::new(alloc);
    stream.read_to_end(&mut answer)?;
    Ok(answer)
}

/// Whether what a scraper reads within half a second begins and ends so.
fn answers<R: Net<Stream = TcpStream>>(
    rt: &R,
    alloc: Global,
    request: &str,
    front: &str,
    end: &str,
) -> bool {
    let Ok(mut stream) = begun(rt, request) else {
        return false;
    };
    match read_within(alloc, &mut stream, 500) {
        Ok(answer) => answer.starts_with(front.as_bytes()) && answer.ends_with(end.as_bytes()),
        Err(_) => false,
    }
}

const REQUESTS: [(&str, &str, &str); 3] = [
    (
        "GET /metrics HTTP/1.1\r\nHost: x\r\n\r\n",
        "HTTP/1.1 200 OK\r\ncontent-type: text/plain; version=0.0.4\r\n",
        "\r\n\r\ncalls 0\n",
    ),
    (
        "GET / HTTP/1.1\r\nHost: x\r\n\r\n",
        "HTTP/1.1 404 Not Found\r\n",
        "\r\n\r\n",
    ),
    (
        "POST /metrics HTTP/1.1\r\nHost: x\r\nContent-Length: 0\r\n\r\n",
        "HTTP/1.1 405 Method Not Allowed\r\nallow: GET\r\n",
        "\r\n\r\n",
    ),
];

/// Scrapes beside scrapers that are silent or stop within a line, and says which request was not answered as it should be.
fn scrapes<R: Net<Stream = TcpStream>>(rt: &R, alloc: Global) -> io::Result<&'static str> {
    let silent = begun(rt, "")?;
    let mut cut_off = begun(rt, "GET /metr")?;
    for (request, front, end) in REQUESTS {
        if !answers(rt, alloc, request, front, end) {
            return Ok(request);
        }
    }
    drop(silent);
    let answer = read_within(alloc, &mut cut_off, 3_000)?;
    if answer.is_empty() {
        Ok("none")
    } else {
        Ok("a line that was cut off")
    }
}

/// Whether a silent scraper is closed at once as the listener is shut down, once the program has ended.
fn closes<R: Net<Stream = TcpStream>>(
    rt: &R,
    program: &Program,
    listener: &TcpListener,
) -> io::Result<bool> {
    let mut silent = begun(rt, "")?;
    silent.set_read_timeout(Some(Duration::from_millis(50)))?;
    let mut byte = [0u8; 1];
    let is_open = match silent.read(&mut byte) {
        Ok(_) => false,
        Err(error) => error.kind() == ErrorKind::WouldBlock,
    };
    program.ended.store(true, Ordering::SeqCst);
    let end = TcpStream::from(OwnedFd::from(listener.try_clone()?));
    end.shutdown(Shutdown::Both)?;
    let answer = read_within(program.alloc, &mut silent, 500)?;
    Ok(is_open && answer.is_empty())
}

/// Scrapes, and ends the program.
fn scrapes_all<R: Net<Stream = TcpStream>>(
    rt: &R,
    program: &Program,
    listener: &TcpListener,
) -> &'static str {
    let asked = scrapes(rt, program.alloc).unwrap_or("a call of the system");
    match closes(rt, program, listener) {
        Ok(true) => asked,
        _ => "a silent scraper at the end",
    }
}

#[test]
fn scrapers_are_answered_whatever_others_do(rt: HostRuntime) -> Result<(), Fail> {
    let listener: TcpListener = rt.listen_on(AT)?;
    let alloc = rt.alloc();
    let program = Program {
        alloc,
        ended: AtomicBool::new(false),
    };
    let (_, asked) = join(
        &rt,
        || answer_scrapers(&rt, alloc, &program, &listener),
        || scrapes_all(&rt, &program, &listener),
    );
    holds(&rt, asked == "none", asked);
    Ok(())
}
