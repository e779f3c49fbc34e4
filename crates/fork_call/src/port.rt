//! A call and the port that its datagrams go to.
ghost use Rattle.std.specs.Prelude.{◌≡◌, ◌≤◌, ◌<◌, ◌+◌, ℕ, Bool, true, IfOk, OnErr};
ghost use Rattle.call_model.specs.Built as built;
ghost use Rattle.call_model.specs.SeenDatagram.{seen};
ghost use Rattle.fork_call.specs.Carry.{IsCarriedOut, IsCutOff, IsRunOut, SendsOne};

use crate::call::Call;
use crate::schedule::is_due;
use call_model::{Datagram, Step};
use std::alloc::{AllocError, Allocator};

/// How many steps of a call are made at a time, at most.
const MOST_STEPS: u32 = 1024;

/// Where datagrams are sent.
pub trait Port {
    /// How many sends have failed.
    ghost count: { Self → ℕ };

    /// What one send is: the port before, the datagram, whether it went out, and the port after. What is proved of every
    /// port can show it by a `send` alone.
    ghost sends: { Self → built.Datagram → Bool → Self → Type 0 } = { λ _ _ _ _. Unit {0} };

    /// Sends a datagram, and says whether it went out.
    fn send<A: Allocator>(&mut self, datagram: &Datagram<A>) -> bool
        ensures rises { Self.count self.old ≤ Self.count self.new }
        ensures sends { Self.sends self.old (seen datagram.now) result self.new };

    /// How many sends have failed.
    fn failures(&self) -> u64
        ensures { result ≡ Self.count self.now };
}

/// What was carried: how many datagrams count as sent, and how many as failed; whether something is still due.
#[derive(Clone, Copy, PartialEq, Eq, Debug)]
pub struct Carried {
    pub sent: u32,
    pub failed: u32,
    pub more: bool,
}

/// Pumps the call and sends what it gives, at most 1,024 steps: the port is handed each datagram of a step once, in order, and
/// nothing else. A send failed where the port says so and has counted it.
///
/// # Errors
///
/// Only where the allocator refuses; the steps before stand. A datagram that was lost just then is not told to the call.
#[tactic(auto, using(crate::proofs::Kept::run_out_keeps_number))]
pub fn carry<A: Allocator + Clone, P: Port>(
    call: &mut Call<A>,
    port: &mut P,
    now: u64,
) -> Result<Carried, AllocError>
    ensures cut { OnErr result (IsCutOff P.sends P.count now call.old port.old call.new port.new) }
    ensures done { IfOk result (λ c. IsCarriedOut P.sends P.count now call.old port.old call.new port.new c.sent c.failed c.more) }
    ensures number { call.new.opened.number ≡ call.old.opened.number }
    ensures told { IfOk result (λ c. P.count port.old + c.failed ≤ P.count port.new) }
{
    let run = run_out(call, port, now)?;
    let more = !run.idle && is_due(call.due(), now);
    Ok(Carried {
        sent: run.sent,
        failed: run.failed,
        more,
    })
}

/// Hands a datagram to the port, and says whether it is lost: the port says so, and has counted it.
fn is_lost<A: Allocator, P: Port>(port: &mut P, datagram: &Datagram<A>) -> bool
    ensures falls { P.count port.old ≤ P.count port.new }
    ensures lost { result ≡ true → P.count port.old < P.count port.new }
    ensures handed { SendsOne P.sends P.count port.old (seen datagram.now) result port.new }
{
    let before = port.failures();
    let went = port.send(datagram);
    !went && port.failures() > before
}

/// What was carried so far, and whether nothing more is due.
#[derive(Clone, Copy)]
struct RunOut {
    sent: u32,
    failed: u32,
    idle: bool,
}

/// Pumps the call and sends what it gives until nothing is due, at most 1,024 steps.
fn run_out<A: Allocator + Clone, P: Port>(
    call: &mut Call<A>,
    port: &mut P,
    now: u64,
) -> Result<RunOut, AllocError>
    ensures cut { OnErr result (IsCutOff P.sends P.count now call.old port.old call.new port.new) }
    ensures done { IfOk result (λ c. IsRunOut P.sends P.count now call.old port.old call.new port.new c.sent c.failed c.idle) }
    ensures told { IfOk result (λ c. P.count port.old + c.failed ≤ P.count port.new) }
{
    let mut sent = 0;
    let mut failed = 0;
    for i in 0..MOST_STEPS {
        match call.pump(now)? {
            Step::Idle => {
                return Ok(RunOut {
                    sent,
                    failed,
                    idle: true,
                });
            }
            Step::Did => {}
            Step::Send(datagram) => {
                if is_lost(port, &datagram) {
                    call.failed(datagram.cause, now)?;
                    failed += 1;
                } else {
                    sent += 1;
                }
            }
        }
    }
    Ok(RunOut {
        sent,
        failed,
        idle: false,
    })
}
