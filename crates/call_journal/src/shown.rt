//! What an operator is told of a call that is kept.
ghost use Rattle.std.specs.Prelude.{◌≡◌, ◌++◌, slice_get, OnOk};
ghost use Rattle.call_journal.specs.Shown.{address_text, asked_text, branch_line, call_line, call_text, dotted, key_in, known_text, number_text, place_text, row_text, standing_text, state_in, state_text, states_text, times_text, uri_text};

use crate::head::append_shown;
use fork_context::{Context, End, State};
use fork_rank::append;
use sip_lex::append_decimal;
use std::alloc::{AllocError, Allocator};

/// A call that is kept, as an operator is told of it.
#[derive(Clone, Copy)]
pub struct CallShown<'a> {
    pub number: u64,
    /// For how many milliseconds it is open, if that is known.
    pub age: Option<u64>,
    /// The address and the port to which its answers go.
    pub address: [u8; 4],
    pub port: u16,
    pub method: &'a [u8],
    /// The user of the Request-URI.
    pub user: &'a [u8],
}

/// How many milliseconds a call was open when a branch came to stand as it does, and for how many more it is waited for, each if it is known.
#[derive(Clone, Copy, PartialEq, Eq, Debug)]
pub struct BranchTimes {
    pub since: Option<u64>,
    pub left: Option<u64>,
}

/// Appends a number, or `-` where it is not known.
fn append_known<A: Allocator>(out: &mut Vec<u8, A>, number: Option<u64>) -> Result<(), AllocError>
    ensures { OnOk result (out.new.items ≡ out.old.items ++ known_text number) }
{
    match number {
        Some(number) => append_decimal(out, number),
        None => append(out, b"-"),
    }
}

/// Appends a number behind a dot.
fn append_dotted<A: Allocator>(out: &mut Vec<u8, A>, number: u8) -> Result<(), AllocError>
    ensures { OnOk result (out.new.items ≡ out.old.items ++ dotted number) }
{
    append(out, b".")?;
    append_decimal(out, u64::from(number))
}

/// Appends an address as four decimal numbers with dots between them.
fn append_address<A: Allocator>(out: &mut Vec<u8, A>, address: [u8; 4]) -> Result<(), AllocError>
    ensures { OnOk result (out.new.items ≡ out.old.items ++ address_text address) }
{
    append_decimal(out, u64::from(address[0]))?;
    append_dotted(out, address[1])?;
    append_dotted(out, address[2])?;
    append_dotted(out, address[3])
}

/// Appends where a branch stands, in a word.
fn append_state<A: Allocator>(out: &mut Vec<u8, A>, state: &State) -> Result<(), AllocError>
    ensures { OnOk result (out.new.items ≡ out.old.items ++ state_text state.now) }
{
    match state {
        State::Idle => append(out, b"waiting"),
        State::Trying => append(out, b"calling"),
        State::Rung { cancelled: false } => append(out, b"proceeding"),
        State::Rung { cancelled: true } => append(out, b"cancelled"),
        State::Ended(End::Stored { status, .. }) => append_decimal(out, u64::from(status.code())),
        State::Ended(End::Taken { .. }) => append(out, b"redirected"),
        State::Ended(End::Silent { .. }) => append(out, b"silent"),
        State::Ended(End::Never) => append(out, b"unused"),
        State::Ended(End::Accepted { .. }) => append(out, b"answered"),
    }
}

/// Where the branch of row n stands.
fn state_of<A: Allocator + Clone>(context: &Context<A>, n: u16) -> State
    ensures { result ≡ state_in context.now.table.rows n }
{
    match context.look(n) {
        Some(view) => view.row.state,
        None => State::Idle,
    }
}

/// Appends where the branch of row n stands, behind a space.
fn append_row<A: Allocator, B: Allocator + Clone>(
    out: &mut Vec<u8, A>,
    context: &Context<B>,
    n: u16,
) -> Result<(), AllocError>
    ensures { OnOk result (out.new.items ≡ out.old.items ++ row_text context.now.table.rows n) }
{
    append(out, b" ")?;
    append_state(out, &state_of(context, n))
}

/// Appends where each branch stands, by number.
fn append_states<A: Allocator, B: Allocator + Clone>(
    out: &mut Vec<u8, A>,
    context: &Context<B>,
) -> Result<(), AllocError>
    ensures { OnOk result (out.new.items ≡ out.old.items ++ states_text context.now.table.rows) }
{
    for n in 0..context.count() {
        append_row(out, context, n)?;
    }
    Ok(())
}

/// Appends which call it is, and for how long it is open.
fn append_number<A: Allocator>(
    out: &mut Vec<u8, A>,
    shown: &CallShown<'_>,
) -> Result<(), AllocError>
    ensures { OnOk result (out.new.items ≡ out.old.items ++ number_text shown.now) }
{
    append_decimal(out, shown.number)?;
    append(out, b" ")?;
    append_known(out, shown.age)
}

/// Appends an address and a port.
fn append_place<A: Allocator>(
    out: &mut Vec<u8, A>,
    address: [u8; 4],
    port: u16,
) -> Result<(), AllocError>
    ensures { OnOk result (out.new.items ≡ out.old.items ++ place_text address port) }
{
    append(out, b" ")?;
    append_address(out, address)?;
    append(out, b":")?;
    append_decimal(out, u64::from(port))
}

/// Appends what it asks for.
fn append_asked<A: Allocator>(out: &mut Vec<u8, A>, shown: &CallShown<'_>) -> Result<(), AllocError>
    ensures { OnOk result (out.new.items ≡ out.old.items ++ asked_text shown.now) }
{
    append(out, b" ")?;
    append_shown(out, shown.method)?;
    append(out, b" ")?;
    append_shown(out, shown.user)
}

/// Appends which call it is, where its answers go, and what it asks for.
fn append_call_front<A: Allocator>(
    out: &mut Vec<u8, A>,
    shown: &CallShown<'_>,
) -> Result<(), AllocError>
    ensures { OnOk result (out.new.items ≡ out.old.items ++ call_text shown.now) }
{
    append_number(out, shown)?;
    append_place(out, shown.address, shown.port)?;
    append_asked(out, shown)
}

/// Appends the line of a call that is kept: its number, for how many milliseconds it is open, where its answers go, its method, the user of its
/// Request-URI, and where each of its branches stands, by number, with one space between two.
///
/// # Errors
///
/// Only where the allocator refuses; what was appended until then is to be cut off.
pub fn append_call_line<A: Allocator, B: Allocator + Clone>(
    out: &mut Vec<u8, A>,
    shown: &CallShown<'_>,
    context: &Context<B>,
) -> Result<(), AllocError>
    ensures { OnOk result (out.new.items ≡ out.old.items ++ call_line shown.now context.now.table.rows) }
{
    append_call_front(out, shown)?;
    append_states(out, context)?;
    append(out, b"\n")
}

/// Appends since when a branch stands as it does, and for how long it is waited for.
fn append_times<A: Allocator>(out: &mut Vec<u8, A>, times: BranchTimes) -> Result<(), AllocError>
    ensures { OnOk result (out.new.items ≡ out.old.items ++ times_text times) }
{
    append(out, b" since ")?;
    append_known(out, times.since)?;
    append(out, b" left ")?;
    append_known(out, times.left)
}

/// Appends the number of a branch, and where it stands.
fn append_standing<A: Allocator, B: Allocator + Clone>(
    out: &mut Vec<u8, A>,
    context: &Context<B>,
    n: u16,
) -> Result<(), AllocError>
    ensures { OnOk result (out.new.items ≡ out.old.items ++ standing_text context.now.table.rows n) }
{
    append(out, b"target ")?;
    append_decimal(out, u64::from(n))?;
    append_row(out, context, n)
}

/// Appends a target, and the end of the line.
fn append_target<A: Allocator>(out: &mut Vec<u8, A>, key: &[u8]) -> Result<(), AllocError>
    ensures { OnOk result (out.new.items ≡ out.old.items ++ uri_text key.now) }
{
    append(out, b" sip:")?;
    append_shown(out, key)?;
    append(out, b"\n")
}

/// The target of row n, as targets are compared.
fn key_of<A: Allocator + Clone>(context: &Context<A>, n: u16) -> &[u8]
    ensures { result.now ≡ key_in context.now.table.rows n }
{
    context.key(n).unwrap_or(b"")
}

/// Appends the line of the branch of row n: where it stands, since when, for how long it is waited for, and its target.
///
/// # Errors
///
/// Only where the allocator refuses; what was appended until then is to be cut off.
pub fn append_branch_line<A: Allocator, B: Allocator + Clone>(
    out: &mut Vec<u8, A>,
    context: &Context<B>,
    n: u16,
    times: BranchTimes,
) -> Result<(), AllocError>
    ensures { OnOk result (out.new.items ≡ out.old.items ++ branch_line context.now.table.rows n times) }
{
    append_standing(out, context, n)?;
    append_times(out, times)?;
    append_target(out, key_of(context, n))
}
