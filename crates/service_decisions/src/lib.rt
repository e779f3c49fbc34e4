//! What a service decides of a request that may open a call (RFC 3261 sections 10, 16.5, 16.6 and 22.3): whether its sender may open it, to where,
//! and how it is answered else; and, of wrong credentials, what is to be noted. And what becomes of a REGISTER for its domain. Begin with
//! `ServiceView::decide` and `ServiceView::register`. To where a request is opened stands below them: whose bindings count for it (`place_of`),
//! which of them are there (`contacts_of`), and by which setup it is opened (`setup_for`). Bindings are looked at in their
//! table; nothing else is shared, and nothing is sent or written here.
#![tactic(auto)]

mod contacts;
mod gateways;
mod making;
mod moment;
mod opening;
mod place;
mod registering;
mod view;

pub use contacts::contacts_of;
pub use gateways::may_use_gateways;
pub use moment::setup_for;
pub use place::{Place, place_of};
pub use registering::Registered;
pub use view::{Decided, ServiceView};
