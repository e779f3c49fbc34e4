//! What a service is set up with, and the text that sets it up: the setup of its proxy, how long telephones ring, who is served (RFC 3261 sections 10, 16
//! and 22), and by which gateways the world is reached; what a malformed line of it should be; and whether its realm may have a file of users, with the
//! line that stands there for a password. Begin with `ServiceSettings`.
//!
//! Each line of such a text ends in LF, words are separated by one space, and numbers are decimal without leading zeros. An empty line says nothing, and
//! neither does one that begins with `#`.
#![tactic(auto)]

mod draft;
mod expirations;
mod gateway;
mod hosts;
mod kind;
mod line;
mod net;
mod parts;
mod password_line;
mod realm;
mod service_form;
mod settings;
mod users_fault;

pub use expirations::Expirations;
pub use gateway::Gateway;
pub use line::{is_realm, read_net};
pub use net::Net;
pub use password_line::{UserLineFault, user_line};
pub use realm::Realm;
pub use service_form::{ServiceForm, ServiceMalformed, service_form_at};
pub use settings::ServiceSettings;
pub use users_fault::UsersFault;
