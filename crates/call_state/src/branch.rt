//! A response that comes to a branch.
ghost use Rattle.std.specs.Prelude.{◌≡◌, ◌≤◌, true, IfOk, OnErr, IsErrOf};
ghost use Rattle.call_model.specs.Built.{status_of};
ghost use Rattle.call_model.specs.Call.{is_sent};
ghost use Rattle.call_model.specs.SeenTaken.{seen_taken};
ghost use Rattle.call_model.specs.Take as take;
ghost use Rattle.call_model.specs.Take.{RespondsOn};

use crate::fault::PostFault;
use crate::state::CallState;
use call_branch::{is_passed, keep_if_best, response_event, split_response};
use call_model::Taken;
use sip_text::Message;
use std::alloc::Allocator;

impl<A: Allocator + Clone> CallState<A> {
    /// Takes a response to branch n: its client transaction absorbs it, or hands it up, and it is posted (RFC 3261
    /// sections 16.7 and 17.1). A failure is kept where no stored answer ranks before it, for it may go up later, and an
    /// ACK is owed where the transaction says so; a provisional response sets timer C again, unless the branch has a shorter
    /// longest time; a 2xx or a 6xx that closes the table is what the CANCELs of the others tell. Where the proxy is
    /// responsible for the Request-URI of the call, contacts of a 3xx may become further targets, whose requests are then
    /// to be sent (section 16.5); the challenges of a 401 or a 407 are stored with it.
    ///
    /// # Errors
    ///
    /// `Full` where the book takes no more events that change nothing; else only where the allocator refuses. The state is
    /// then as it was.
    pub fn respond(
        &mut self,
        n: u16,
        status: u16,
        message: Message<A>,
        now: u64,
    ) -> Result<Taken, PostFault>
        requires there { is_sent self.old n ≡ true }
        requires status { status ≡ status_of message }
        requires least { 100 ≤ status }
        requires most { status ≤ 699 }
        ensures ok { IfOk result (λ taken. RespondsOn self.old n now message (seen_taken taken) self.new) }
        ensures full { IsErrOf result PostFault.Full → RespondsOn self.old n now message take.Full self.new }
        ensures err { OnErr result (self.new ≡ self.old) }
    {
        let destination = self.destination(n);
        let branch = self.part(n);
        let (client, out) = branch.on_event(response_event(status), now);
        let timer_c_at = branch.timer_c_again(status, destination.longest(), now);
        let ack = self.ack_if(destination, n, out.send, &message)?;
        if !is_passed(out.pass) {
            self.respond_branch(n, client, ack);
            return Ok(Taken::Absorbed);
        }
        let new_event = self.new_event(n, status, &message)?;
        let (up, failure) = split_response(status, message);
        // The event is posted before anything is set, as that alone may be refused; and `is_first` is asked of the table that has
        // the answer.
        let at = match self.post_response(new_event, up) {
            Ok(at) => at,
            Err(fault) => return Err(fault),
        };
        self.respond_branch(n, client, ack);
        let first = self.book().context().is_first(n);
        self.keep_branch(n, timer_c_at, keep_if_best(first, failure));
        self.note_closing(status);
        Ok(Taken::Posted(at))
    }
}
