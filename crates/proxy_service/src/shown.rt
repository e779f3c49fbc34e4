//! What an operator is told of the calls that are kept.
ghost use Rattle.std.specs.Prelude.{◌≡◌, ◌≤◌, IfOk};

use crate::calls::{ServiceCalls, is_open};
use crate::notes::NoteTables;
use call_journal::{BranchTimes, CallShown, append_branch_line, append_call_line};
use fork_call::Call;
use sip_lex::append_decimal;
use sip_route::request_uri;
use sip_uri::SipUri;
use std::alloc::{AllocError, Allocator, Global};
use std::sync::Wait;

/// How many calls one answer tells of at most.
const MOST_LINES: u32 = 256;

/// How many calls are looked at for one answer at most: those that are not open any more are kept for a while.
const MOST_LOOKED: u32 = 65_536;

/// The URI that a request asks for, where it can be read.
fn asked_uri<A: Allocator + Clone>(heap: Global, call: &Call<A>) -> Option<SipUri<Global>> {
    SipUri::read(heap, request_uri(call.request())).ok()
}

/// The user of a URI, or `-` where there is none.
fn user_of(uri: &Option<SipUri<Global>>) -> &[u8] {
    match uri {
        Some(uri) => uri.user().unwrap_or(b"-"),
        None => b"-",
    }
}

/// Appends the line of a call that was open for so many milliseconds, if that is known.
fn append_line<A: Allocator + Clone>(
    heap: Global,
    call: &Call<A>,
    age: Option<u64>,
    out: &mut Vec<u8>,
) -> Result<(), AllocError> {
    let uri = asked_uri(heap, call);
    let caller = call.caller();
    let address = caller.addr;
    let shown = CallShown {
        number: call.number(),
        age,
        address,
        port: caller.port,
        method: call.request().method().unwrap_or(b"-"),
        user: user_of(&uri),
    };
    append_call_line(out, &shown, call.book().context())
}

/// Appends the line of a call, if it is open, and says whether it is.
///
/// # Errors
///
/// Only where the allocator refuses.
fn append_if_open<A: Allocator + Clone>(
    heap: Global,
    call: &mut Call<A>,
    age: Option<u64>,
    out: &mut Vec<u8>,
) -> Result<bool, AllocError>
    ensures { call.new.opened.number ≡ call.old.opened.number }
{
    if !is_open(call) {
        return Ok(false);
    }
    append_line(heap, call, age, out)?;
    Ok(true)
}

/// Since when the branch of row n stands as it does, and for how long it is waited for.
fn times_of<R: Wait, A: Allocator + Clone>(
    rt: &R,
    notes: &NoteTables,
    call: &Call<A>,
    n: u16,
    now: u64,
) -> BranchTimes {
    let since = match call.book().context().look(n) {
        Some(view) => notes.since(rt, call.number(), n, view.row.state),
        None => None,
    };
    let left = match call.waits_until(n) {
        Some(until) => Some(until.saturating_sub(now)),
        None => None,
    };
    BranchTimes { since, left }
}

/// Appends the line of each branch of a call.
fn append_branches<R: Wait, A: Allocator + Clone>(
    rt: &R,
    notes: &NoteTables,
    call: &Call<A>,
    now: u64,
    out: &mut Vec<u8>,
) -> Result<(), AllocError> {
    let context = call.book().context();
    for n in 0..context.count() {
        append_branch_line(out, context, n, times_of(rt, notes, call, n, now))?;
    }
    Ok(())
}

impl<A: Allocator + Copy> ServiceCalls<A> {
    /// For how many milliseconds a call is open at this moment, if that is known.
    fn age<R: Wait>(&self, rt: &R, number: u64, now: u64) -> Option<u64> {
        Some(now.saturating_sub(self.notes.opened(rt, number)?))
    }

    /// Appends the line of the call of this number and those of its branches.
    fn append_whole<R: Wait>(
        &self,
        rt: &R,
        call: &mut Call<A>,
        now: u64,
        out: &mut Vec<u8>,
    ) -> Result<(), AllocError>
        ensures { call.new.opened.number ≡ call.old.opened.number }
    {
        append_line(self.heap, call, self.age(rt, call.number(), now), out)?;
        append_branches(rt, &self.notes, call, now, out)
    }

    /// Appends a line for each call that is open, from this number on, by number, at most 256 of them, and at last `no more`, or `more from
    /// NUMBER` where there may be more: those are asked for from that number on. At most 65,536 of the calls that are kept are looked at. Each is locked
    /// while its line is written, and no other one; moments are in milliseconds.
    ///
    /// # Errors
    ///
    /// Only where the allocator refuses; `out` is then to be thrown away.
    pub fn append_calls<R: Wait>(
        &self,
        rt: &R,
        first: u64,
        now: u64,
        out: &mut Vec<u8>,
    ) -> Result<(), AllocError> {
        let mut from = first;
        let mut lines = 0;
        for _ in 0..MOST_LOOKED {
            let Some(number) = self.shelf.next_from(rt, from) else {
                return out.extend_from_slice(b"no more\n");
            };
            from = number;
            if lines >= MOST_LINES {
                break;
            }
            lines += self.append_open(rt, number, now, out)?;
            from = number.saturating_add(1);
        }
        out.extend_from_slice(b"more from ")?;
        append_decimal(out, from)?;
        out.extend_from_slice(b"\n")
    }

    /// Appends the line of the call of this number, if it is open, and answers how many lines that are.
    fn append_open<R: Wait>(
        &self,
        rt: &R,
        number: u64,
        now: u64,
        out: &mut Vec<u8>,
    ) -> Result<u32, AllocError>
        ensures { IfOk result (λ lines. lines ≤ 1) }
    {
        let heap = self.heap;
        let age = self.age(rt, number, now);
        match self
            .shelf
            .with(rt, number, |call| append_if_open(heap, call, age, out))
        {
            Some(Ok(true)) => Ok(1),
            Some(Err(AllocError)) => Err(AllocError),
            Some(Ok(false)) | None => Ok(0),
        }
    }

    /// Appends the line of the call of this number, and one for each of its branches; `unknown call NUMBER` where no such call is kept. The call
    /// is locked meanwhile, and no other one; moments are in milliseconds.
    ///
    /// # Errors
    ///
    /// Only where the allocator refuses; `out` is then to be thrown away.
    pub fn append_call<R: Wait>(
        &self,
        rt: &R,
        number: u64,
        now: u64,
        out: &mut Vec<u8>,
    ) -> Result<(), AllocError> {
        let shelf = &self.shelf;
        if let Some(appended) = shelf.with(
            rt,
            number,
            |call| self.append_whole(rt, call, now, out),
        ) {
            return appended;
        }
        out.extend_from_slice(b"unknown call ")?;
        append_decimal(out, number)?;
        out.extend_from_slice(b"\n")
    }
}
