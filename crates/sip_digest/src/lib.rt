//! Digest authentication as a server has it (RFC 3261 section 22, RFC 7616 and RFC 8760): challenges, nonces that need no memory, credentials as they are
//! read, the response that a password gives, whether credentials are right, and those that do not go on with a request. And the users of a realm with what their passwords are known by, read of
//! exactly the texts that list them.
#![tactic(auto)]

mod algorithm;
mod auth_text;
mod challenge;
mod credentials;
mod digests;
mod element;
mod fields;
mod own_credentials;
mod reading;
mod request_uri;
mod response;
mod same;
mod secrets;
mod stamp;
mod user_fault;
mod user_line;
mod user_text;
mod users;
mod verdict;

pub use algorithm::{Algorithm, Algorithms};
pub use auth_text::AuthText;
pub use challenge::append_challenge;
pub use credentials::{Credentials, Quality};
pub use own_credentials::is_taken_off;
pub use reading::{ReadCredentials, read_credentials};
pub use request_uri::is_uri_of;
pub use response::{Protection, md5_response, sha256_response};
pub use secrets::Secrets;
pub use stamp::{append_dialog_token, append_nonce, is_good_dialog_token, is_good_nonce};
pub use user_fault::UserFault;
pub use user_line::append_user;
pub use user_text::is_user_name;
pub use users::UserList;
pub use verdict::{CredentialsVerdict, JudgedRequest, verdict_of};
