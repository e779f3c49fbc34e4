//! What a control socket controls.
use std::alloc::Global;
use std::io;

/// What is controlled.
pub trait ControlHandler {
    /// Begins the end: it comes once nothing is open any more, or after so many seconds.
    fn stop(&self, seconds: u64);

    /// Reads the configuration anew, and says in a line whether it was taken.
    ///
    /// # Errors
    ///
    /// Want of memory for the line.
    fn reload(&self) -> Result<String<Global>, io::Error>;

    /// The counters, in the text form of Prometheus.
    ///
    /// # Errors
    ///
    /// Want of memory for the text.
    fn stats(&self) -> Result<String<Global>, io::Error>;

    /// A line for each call that is open, from this number on, as many as one answer tells of, and a last line that says from which number on
    /// there may be more.
    ///
    /// # Errors
    ///
    /// Want of memory for the text.
    fn calls(&self, from: u64) -> Result<Vec<u8>, io::Error>;

    /// The line of the call of this number, and one for each of its branches; where no such call is kept, a line that says so.
    ///
    /// # Errors
    ///
    /// Want of memory for the text.
    fn call(&self, number: u64) -> Result<Vec<u8>, io::Error>;

    /// A line for each contact that is bound to a user, of as many users as one answer tells of, and a last line that says whether there may be
    /// more.
    ///
    /// # Errors
    ///
    /// Want of memory for the text.
    fn bindings(&self) -> Result<Vec<u8>, io::Error>;

    /// A line for each contact that is bound to this user; where there is none, a line that says so.
    ///
    /// # Errors
    ///
    /// Want of memory for the text.
    fn bindings_of(&self, user: &[u8]) -> Result<Vec<u8>, io::Error>;

    /// Forgets what is bound to this user, and says in a line how many contacts that were, or why it is not forgotten.
    ///
    /// # Errors
    ///
    /// Want of memory; the line may be missing where all is forgotten.
    fn forget(&self, user: &[u8]) -> Result<Vec<u8>, io::Error>;

    /// A line for each of the requests that were refused last, and a last line.
    ///
    /// # Errors
    ///
    /// Want of memory for the text.
    fn refused(&self) -> Result<Vec<u8>, io::Error>;

    /// Whether it has ended.
    fn has_ended(&self) -> bool;
}
