//! A registrar: what a REGISTER request asks for, what it makes of the bindings of its user, and how it is answered (RFC 3261 section 10.3).
//!
//! A caller asks `asking_of` what a request asks for, which needs no lock; under the lock of the user's bindings what it makes of them, by
//! `Registration::outcome_of`; and, once the new bindings are kept, makes the 200 of them by `okay`. Nothing here knows a socket, a clock or
//! where bindings are kept.
#![tactic(auto)]

mod asked;
mod asking;
mod contact;
mod contacts;
mod expirations;
mod items;
mod law;
mod outcome;
mod shown;
mod source;
mod transport;

pub use asking::{Asking, Registrar, Registration, asking_of};
pub use expirations::AskedExpirations;
pub use law::{bindings_need_their_users_password, changes_are_of_the_request};
pub use outcome::{RegisterOutcome, full_answer};
pub use shown::okay;
pub use source::Source;
