//! What a proxy is told at its control socket, and what its counters are.
use crate::texts::{behind, has};
use control_socket::tell;
use std::alloc::Global;
use std::net::Net;
use std::thread;
use std::time::{Clock, Duration};

/// How often a proxy is asked whether something has come about, a tenth of a second apart.
const LOOKS: u32 = 400;

/// How long an answer is waited for, in seconds: one to `stop` comes at the end.
const LONGEST: u64 = 40;

/// What is answered to a line at the control socket of this path.
pub fn told<R: Net + Clock>(rt: &R, alloc: Global, path: &str, line: &str) -> Option<Vec<u8>> {
    let mut answer = Vec::new(alloc);
    let limit = Duration::from_secs(LONGEST);
    match tell(rt, path, line.as_bytes(), limit, &mut answer) {
        Ok(()) => Some(answer),
        Err(_) => None,
    }
}

/// Whether this is answered to a line.
pub fn tells<R: Net + Clock>(
    rt: &R,
    alloc: Global,
    path: &str,
    line: &str,
    expected: &str,
) -> bool {
    match told(rt, alloc, path, line) {
        Some(answer) => answer.as_slice() == expected.as_bytes(),
        None => false,
    }
}

/// Whether a line stands in a text.
pub fn has_line(text: &[u8], line: &str) -> bool {
    has(text, line.as_bytes())
}

/// Whether the counters come to have this line.
pub fn counts<R: Net + Clock>(rt: &R, alloc: Global, path: &str, line: &str) -> bool {
    for _ in 0..LOOKS {
        if let Some(text) = told(rt, alloc, path, "stats") {
            if has_line(text.as_slice(), line) {
                return true;
            }
        }
        thread::sleep(rt, Duration::from_millis(100));
    }
    false
}

/// The number that begins a text, up to the end of its line.
fn number_in(text: &[u8]) -> Option<u64> {
    let mut number = 0u64;
    for byte in text {
        match byte {
            b'0'..=b'9' => {
                number = number
                    .saturating_mul(10)
                    .saturating_add(u64::from(*byte - b'0'));
            }
            b'\n' => return Some(number),
            _ => return None,
        }
    }
    None
}

/// The value behind this name in a text of counters.
pub fn value_in(text: &[u8], name: &str) -> Option<u64> {
    number_in(behind(text, name.as_bytes())?)
}
