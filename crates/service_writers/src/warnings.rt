//! The thread that writes warnings on the standard error, for whoever bars senders. No other thread writes there while a proxy serves, so
//! whatever reads it keeps no worker.
use libc::net;
use libc::types::pollfd;
use proxy_service::Service;
use service_files::JournalQueue;
use std::io::Eprint;
use std::sync::Wait;
use std::sync::atomic::{AtomicBool, Ordering};

/// The descriptor of the standard error.
const STANDARD_ERROR: i32 = 2;

/// How long room for one line is waited for, in milliseconds.
const ONE_WAIT: i32 = 100;

/// Who writes the warnings: whether all that will be written waits.
#[derive(Drop)]
pub struct WarningWriter {
    is_whole: AtomicBool,
}

/// Whether the standard error takes a line within a moment: a pipe that nobody reads may be full, and would keep the end.
fn can_warn() -> bool {
    let mut asked = [pollfd {
        fd: STANDARD_ERROR,
        events: net::POLLOUT,
        revents: 0,
    }];
    net::poll(&mut asked, ONE_WAIT) > 0
}

impl WarningWriter {
    /// That of a proxy that begins to serve.
    pub fn new() -> WarningWriter {
        WarningWriter {
            is_whole: AtomicBool::new(false),
        }
    }

    /// Says that all that will be written waits in this queue, and wakes who writes it.
    pub fn end(&self, queue: &JournalQueue) {
        self.is_whole.store(true, Ordering::SeqCst);
        queue.wake();
    }

    /// Writes lines, up to the first for which there is no room in time: those behind it are left out, so that the end waits once.
    fn write_lines<R: Eprint>(&self, rt: &R, text: &[u8]) {
        for line in text.split(|byte| *byte == b'\n') {
            if line.is_empty() {
                continue;
            }
            if !can_warn() {
                return;
            }
            if let Ok(line) = str::from_utf8(line) {
                let _ = rt.eprintln(line);
            }
        }
    }

    /// Writes the warnings of a service as they come, until all that will be written waits.
    pub fn write<R: Wait + Eprint>(&self, rt: &R, service: &Service) {
        let queue = &service.users().warnings;
        for _ in rt.forever() {
            let is_whole = self.is_whole.load(Ordering::SeqCst);
            let batch = queue.take(rt);
            self.write_lines(rt, &batch.text);
            if is_whole {
                return;
            }
            queue.wait(rt);
        }
        unreachable!()
    }
}
