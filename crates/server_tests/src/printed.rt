//! Standard output that is kept.
use std::alloc::Global;
use std::fmt::Display;
use std::io;
use std::io::{Print, Write};
use std::sync::{Mutex, Wait};

/// Standard output that is kept.
#[derive(Drop)]
pub struct Printed<R> {
    rt: R,
    text: Mutex<Vec<u8>>,
}

impl<R: Wait> Printed<R> {
    /// Nothing was printed.
    pub fn new(rt: R, alloc: Global) -> Printed<R> {
        Printed {
            rt,
            text: Mutex::new(Vec::new(alloc)),
        }
    }

    /// Whether this is all that was printed.
    pub fn is(&self, text: &[u8]) -> bool {
        self.text.lock(&self.rt).as_slice() == text
    }
}

impl<R: Wait> Print for Printed<R> {
    fn print<D: Display + Drop>(&self, value: D) -> io::Result<()> {
        write!(self.text.lock(&self.rt), "{value}")
    }

    fn println<D: Display + Drop>(&self, value: D) -> io::Result<()> {
        writeln!(self.text.lock(&self.rt), "{value}")
    }

    fn write_all(&self, bytes: &[u8]) -> io::Result<()> {
        self.text.lock(&self.rt).extend_from_slice(bytes)?;
        Ok(())
    }
}
