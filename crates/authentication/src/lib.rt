//! Who makes a request, as far as a proxy and a registrar can tell: whether a URI is of the domain, whom the To and the From of a request name, which
//! credentials came with it and what they are worth (RFC 3261 section 22); whether such a request is opened; and the answer where it is not.
#![tactic(auto)]

mod address;
mod answer;
mod challenge;
mod decision;
mod dialog;
mod domain;
mod form;
mod given;
mod law;
mod note;
mod party;
mod realm;
mod refusal;
mod sender;
mod standing;
mod tail;

pub use address::append_address;
pub use answer::{AnswerLine, OwnAnswer};
pub use challenge::Challenger;
pub use decision::{Arrival, CallAdmission, Decision, Rule, decision_of, is_for_registrar};
pub use dialog::is_of_dialog;
pub use domain::{Domain, is_of_domain};
pub use form::{ContactParams, param_named};
pub use law::{requests_are_decided_in_one_way, strangers_open_nothing_else};
pub use note::append_note;
pub use party::{is_anonymous, party_uri};
pub use realm::RealmSecrets;
pub use refusal::turned_away;
pub use standing::{Standing, standing_of};
pub use tail::{UriParams, is_uri_param, port_of_uri};
