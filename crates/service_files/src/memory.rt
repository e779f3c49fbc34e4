//! How much memory the process has, and how much the machine.
ghost use Rattle.std.specs.Prelude.{◌≡◌};
ghost use Rattle.std.specs.Option.{option_copied};
ghost use Rattle.service_files.specs.Memory.{calls_within, group_limit, group_path, memory_total, pages_in, resident_pages, total_in};

use crate::files::ProxyFiles;
use sip_lex::{cut_at, read_plain_number, trim_start};
use std::alloc::Global;

/// Where the system tells of the process that reads it how many pages it has (proc(5)).
const STATM: &str = "/proc/self/statm";

/// Where it tells how much memory the machine has, and how many bytes of that are read: it is said first.
const MEMINFO: &str = "/proc/meminfo";

/// Where it tells in which control group the process is, and the file of the limit of the first of all groups that the process sees.
const CGROUP: &str = "/proc/self/cgroup";

const FIRST_LIMIT: &str = "/sys/fs/cgroup/memory.max";

/// How many bytes of such a file are read.
const MOST_READ: usize = 4_096;

/// What `sysconf` is asked for how many pages of memory the machine has.
const PHYSICAL_PAGES: i32 = 85;

/// How many bytes of memory there are for each call: twice what one takes.
const BYTES_PER_CALL: u64 = 24_000;

/// How many calls are kept at least and at most, where nobody says another number.
const LEAST_CALLS: u64 = 1_000;

const MOST_CALLS: u64 = 1_000_000;

/// The number at the front of what stands behind a first word.
fn pages_in(rest: Option<&[u8]>) -> Option<u64>
    ensures { result ≡ pages_in (option_copied rest.entry) }
{
    match rest {
        Some(rest) => read_plain_number(cut_at(rest, b' ').0, u64::MAX),
        None => None,
    }
}

/// How many pages of a process are in memory, by the text of its `statm` (proc(5)): the second number. None where that is another
/// text.
pub fn resident_pages(statm: &[u8]) -> Option<u64>
    ensures { result ≡ resident_pages statm.now }
{
    pages_in(cut_at(statm, b' ').1)
}

/// The number behind the name, in units of 1,024 bytes, as bytes.
fn total_in(rest: Option<&[u8]>) -> Option<u64>
    ensures { result ≡ total_in (option_copied rest.entry) }
{
    match rest {
        Some(rest) => {
            let number = cut_at(trim_start(rest), b' ').0;
            let units = read_plain_number(number, u64::MAX)?;
            Some(units.saturating_mul(1_024))
        }
        None => None,
    }
}

/// How many bytes of memory a machine has, by the text of `/proc/meminfo` (proc(5)), whose first line says it. None where that is another
/// text.
pub fn memory_total(meminfo: &[u8]) -> Option<u64>
    ensures { result ≡ memory_total meminfo.now }
{
    let (name, rest) = cut_at(meminfo, b':');
    if name == b"MemTotal".as_slice() {
        total_in(rest)
    } else {
        None
    }
}

/// How many bytes of memory a control group may have, by the text of its `memory.max`. None where it says `max`, so there is no limit,
/// and where that is another text.
pub fn group_limit(text: &[u8]) -> Option<u64>
    ensures { result ≡ group_limit text.now }
{
    read_plain_number(cut_at(text, b'\n').0, u64::MAX)
}

/// The path of the control group of a process below the first one, by the text of its `cgroup`, where that is of version 2 (cgroups(7)).
fn group_path(cgroup: &[u8]) -> Option<&[u8]>
    ensures { option_copied result ≡ group_path cgroup.now }
{
    cut_at(cgroup, b'\n').0.strip_prefix(b"0::".as_slice())
}

/// How many calls are kept where there are so many bytes of memory: half of it at 12,000 bytes a call, at least 1,000 and at most
/// 1,000,000.
pub fn calls_within(bytes: u64) -> u64
    ensures { result ≡ calls_within bytes }
{
    (bytes / BYTES_PER_CALL).max(LEAST_CALLS).min(MOST_CALLS)
}

/// How many bytes so many pages are. None where the system does not say.
fn bytes_of_pages(pages: u64) -> Option<u64> {
    match u64::try_from(libc::sysconf(libc::_SC_PAGESIZE)) {
        Ok(page) => pages.checked_mul(page),
        Err(_) => None,
    }
}

/// How many bytes of this process are in memory. None where the system does not say.
pub fn resident_bytes<R: ProxyFiles>(rt: &R, alloc: Global) -> Option<u64> {
    let Ok(statm) = rt.read_file(alloc, STATM, MOST_READ) else {
        return None;
    };
    bytes_of_pages(resident_pages(statm.as_slice())?)
}

/// How many bytes of memory the machine has. None where the system does not say.
fn machine_bytes<R: ProxyFiles>(rt: &R, alloc: Global) -> Option<u64> {
    if let Ok(meminfo) = rt.read_file(alloc, MEMINFO, MOST_READ) {
        if let Some(bytes) = memory_total(meminfo.as_slice()) {
            return Some(bytes);
        }
    }
    match u64::try_from(libc::sysconf(PHYSICAL_PAGES)) {
        Ok(pages) => bytes_of_pages(pages),
        Err(_) => None,
    }
}

/// The limit that a file says. None where there is no such file or no limit.
fn limit_at<R: ProxyFiles>(rt: &R, alloc: Global, path: &str) -> Option<u64> {
    match rt.read_file(alloc, path, MOST_READ) {
        Ok(text) => group_limit(text.as_slice()),
        Err(_) => None,
    }
}

/// The limit of the control group in which the process is. None where it has none.
fn own_limit<R: ProxyFiles>(rt: &R, alloc: Global) -> Option<u64> {
    let Ok(cgroup) = rt.read_file(alloc, CGROUP, MOST_READ) else {
        return None;
    };
    let Ok(group) = str::from_utf8(group_path(cgroup.as_slice())?) else {
        return None;
    };
    match format!(in alloc; "/sys/fs/cgroup{group}/memory.max") {
        Ok(path) => limit_at(rt, alloc, path.as_str()),
        Err(_) => None,
    }
}

/// How many calls a proxy keeps at most where nobody says a number: as many as fit into half of the memory that the machine has, or
/// that the control group may have in which the process is, at 12,000 bytes a call (see [`calls_within`]); 1,000,000 where the system
/// says neither.
pub fn most_calls_here<R: ProxyFiles>(rt: &R, alloc: Global) -> u64 {
    let machine = machine_bytes(rt, alloc).unwrap_or(u64::MAX);
    let first = limit_at(rt, alloc, FIRST_LIMIT).unwrap_or(u64::MAX);
    let own = own_limit(rt, alloc).unwrap_or(u64::MAX);
    calls_within(machine.min(first).min(own))
}
