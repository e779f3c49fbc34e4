//! When a call is looked at that is due later.
ghost use Rattle.std.specs.Prelude.{◌≡◌};
ghost use Rattle.call_model.specs.OpenedRequest.{is_invite};
ghost use Rattle.call_model.specs.Server.{served_due};
ghost use Rattle.fork_model.specs.Log.{core_of};
ghost use Rattle.fork_model.specs.Table.{is_finished};
ghost use Rattle.proxy_threads.specs.Waits.{ends_at, look_at, step_from};

use fork_call::Call;
use std::alloc::Allocator;

/// In steps of how many milliseconds calls are looked at of which each branch has ended.
const STEP: u64 = 20;

/// The first step at this moment or behind it, in milliseconds.
fn step_from(moment: u64) -> u64
    ensures { result ≡ step_from moment }
{
    moment.div_ceil(STEP).saturating_mul(STEP)
}

/// The moment at which something comes of a tick of a call that is due at this one, and of which each branch has ended. The transactions
/// of its branches wait for no final response then: of a request other than INVITE they wait for timer K, before and behind which they
/// send nothing and pass nothing on, whatever comes (RFC 3261 section 17.1.2.2). So nothing is missed where they have their ticks as the
/// transaction of the caller ends.
fn ends_at<A: Allocator + Clone>(call: &Call<A>, due: u64) -> u64
    ensures { result ≡ ends_at (is_invite call.now.opened) (served_due call.now.server.machine) due }
{
    let Some(at) = call.server_due() else {
        return due;
    };
    if call.request().is_invite() { due } else { at }
}

/// The moment at which a call is looked at that is due later, in milliseconds. Those of which each branch has ended wait for their last
/// timers, and perhaps for an ACK, of which nothing is awaited to the millisecond: many of them are looked at together.
pub fn look_at<A: Allocator + Clone>(call: &Call<A>, due: u64) -> u64
    ensures { result ≡ look_at (is_finished (core_of call.now.log).table.rows) (is_invite call.now.opened) (served_due call.now.server.machine) due }
{
    if call.book().context().finished() {
        step_from(ends_at(call, due))
    } else {
        due
    }
}
