//! What is printed once a proxy has served.
ghost use Rattle.std.specs.Prelude.{◌≡◌, IfErr};
ghost use Rattle.serve_command.specs.inner.Faults.{IsSystemFault};

use crate::fault::{ServeFault, of_system};
use crate::worker::TurnProxy;
use fork_call::Call;
use fork_listing::{ListFault, listing};
use std::alloc::Allocator;
use std::io::Print;
use std::sync::Wait;

/// Appends the listing of a call that has finished without success; the listing of any other call is refused.
fn append_listing<A: Allocator + Clone>(
    call: &mut Call<A>,
    text: &mut Vec<u8, A>,
) -> Result<(), ListFault>
    ensures { call.new.opened.number ≡ call.old.opened.number }
{
    listing(call.book().context(), text)
}

/// Prints the listing of one call, if it has finished without success.
fn print_listing<A: Allocator + Clone, R: Wait, P: Print>(
    rt: &R,
    out: &P,
    proxy: &TurnProxy<A>,
    number: u64,
) -> Result<(), ServeFault>
    ensures { IfErr result IsSystemFault }
{
    let mut text = Vec::new(proxy.alloc.clone()?);
    let listed = proxy
        .calls
        .with(rt, number, |call| append_listing(call, &mut text));
    match listed {
        Some(Err(ListFault::NoMemory)) => return Err(ServeFault::NoMemory),
        Some(Ok(()) | Err(ListFault::NotFinished | ListFault::Succeeded)) | None => {}
    }
    match out.write_all(text.as_slice()) {
        Ok(()) => Ok(()),
        Err(error) => Err(of_system(error)),
    }
}

/// Prints the listing of each call that has finished without success, by number.
///
/// # Errors
///
/// `Socket` where standard output could not be written, `NoMemory` where the allocator refuses.
pub(crate) fn print_listings<A: Allocator + Clone, R: Wait, P: Print>(
    rt: &R,
    out: &P,
    proxy: &TurnProxy<A>,
) -> Result<(), ServeFault>
    ensures { IfErr result IsSystemFault }
{
    for number in 0..proxy.calls.count(rt) {
        print_listing(rt, out, proxy, number)?;
    }
    Ok(())
}
