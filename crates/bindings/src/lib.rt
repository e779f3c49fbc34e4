//! The contacts that a user of the domain has registered, and what a REGISTER request makes of them (RFC 3261 section 10.3, RFC 5626
//! section 6).
//!
//! Nothing here knows a message, a socket or a clock: a request is given as the parts of its texts, with the moment at which it came.
#![tactic(auto)]

mod binding;
mod changes;
mod contact;
mod law;
mod lists;
mod refusal;
mod request;
mod there;
mod user_bindings;

pub use binding::Binding;
pub use contact::ContactParts;
pub use law::{
    they_are_sixteen_at_most, those_of_one_request_differ, those_that_stand_are_there,
    what_is_kept_is_the_fold,
};
pub use refusal::RegisterRefusal;
pub use request::{MadeBy, RegisterContact, RegisterRequest};
pub use there::BindingsAt;
pub use user_bindings::UserBindings;
