//! What is answered to an event.
ghost use Rattle.std.specs.Prelude.{◌≡◌, ◌≤◌, [], drop, take, vec_capacity, IfOk};
ghost use Rattle.context_values.specs.ReplyView.{up_of};

use std::alloc::{AllocError, Allocator, Global};
use std::marker::Model;

/// Which answer goes up once every branch has ended and none was answered with a 2xx (RFC 3261 section 16.7
/// step 6).
#[derive(Clone, Copy, PartialEq, Eq, Debug)]
pub enum Choice {
    /// The answer stored in this row.
    Stored(u16),
    /// A 500 in place of the 503 stored in this row, which none other ranks before.
    Only503(u16),
    /// A 408: nothing is stored.
    NoAnswer408,
}

/// What goes up to the caller.
#[derive(Clone, Copy, PartialEq, Eq, Debug)]
pub enum Up {
    Nothing,
    /// The provisional answer of this row.
    Provisional(u16),
    /// The 2xx of this row.
    Success(u16),
    /// The final answer.
    Final(Choice),
}

/// The rows that are cancelled and, behind these, those that are tried from now on, each by rising number.
#[derive(Drop)]
pub struct Numbers<A: Allocator> {
    pub rows: Vec<u16, A>,
    /// How many of them are cancelled.
    pub cancelled: usize,
}

impl<A: Allocator + Clone> Numbers<A> {
    /// No number, and room for so many; the only error is want of memory.
    pub fn with_room(alloc: &A, count: usize) -> Result<Self, AllocError>
        ensures none { IfOk result (λ numbers. (numbers.rows.items ≡ []) × (numbers.cancelled ≡ 0)) }
        ensures room { IfOk result (λ numbers. count ≤ vec_capacity numbers.rows) }
    {
        Ok(Numbers {
            rows: Vec::with_capacity(alloc.clone()?, count)?,
            cancelled: 0,
        })
    }
}

/// So many numbers at the front of a list, and those behind them; all where it has fewer.
fn split_at_most(numbers: &[u16], count: usize) -> (&[u16], &[u16])
    ensures front { result.0.now ≡ take count numbers.now }
    ensures back { result.1.now ≡ drop count numbers.now }
{
    if count > numbers.len() {
        return (numbers, &[]);
    }
    numbers.split_at(count)
}

/// The reply to an event: its position in the history, the rows that the request is to be sent to and
/// those that are to get a CANCEL, by rising number, and what goes up.
#[derive(Drop)]
#[derive_where(Debug)]
pub struct Reply<A: Allocator = Global> {
    pub(crate) at: u32,
    pub(crate) rows: Vec<u16, A>,
    pub(crate) cancelled: usize,
    pub(crate) up: Up,
}

impl<A: Allocator> Model for Reply<A> {
    ghost use Rattle.std.specs.Prelude.{drop, take};
    ghost use Rattle.fork_model.specs.Reply as spec;
    ghost use Rattle.context_values.specs.ReplyView.{up_of};

    ghost Value = { spec.Reply };

    ghost view = { λ r. record { at = r.at; started = drop r.cancelled r.rows.items; cancelled = take r.cancelled r.rows.items; up = up_of r.up } };
}

impl<A: Allocator> Reply<A> {
    /// The reply to the event at this position in the history, from 0, with these rows and what goes up.
    pub fn new(at: u32, numbers: Numbers<A>, up: Up) -> Self
        ensures { result ≡ record {
          at = at;
          started = drop numbers.cancelled numbers.rows.items;
          cancelled = take numbers.cancelled numbers.rows.items;
          up = up_of up;
        } }
    {
        let Numbers { rows, cancelled } = numbers;
        Reply {
            at,
            rows,
            cancelled,
            up,
        }
    }

    /// The event's position in the history, from 0.
    pub fn at(&self) -> u32
        ensures { result ≡ self.now.at }
    {
        self.at
    }

    /// The rows that are tried from now on, by rising number.
    pub fn started(&self) -> &[u16]
        ensures { result.now ≡ self.now.started }
    {
        split_at_most(&self.rows, self.cancelled).1
    }

    /// The rows that are cancelled from now on, by rising number.
    pub fn cancelled(&self) -> &[u16]
        ensures { result.now ≡ self.now.cancelled }
    {
        split_at_most(&self.rows, self.cancelled).0
    }

    /// What goes up.
    pub fn up(&self) -> Up
        ensures { up_of result ≡ self.now.up }
    {
        self.up
    }
}
