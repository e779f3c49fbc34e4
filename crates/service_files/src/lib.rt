//! What a service has of its system: the files of its configuration, its journal and its control socket, the memory that it may take, the queue of
//! what waits to be written, and why it does not serve.
#![tactic(auto)]

mod control_file;
mod fault;
mod files;
mod journal;
mod memory;
mod options;
mod own_line;
mod queue;
mod reading;
mod secret;
mod setup;
mod system;

pub use fault::{
    DaemonFault, configuration_fault, control_fault, journal_fault, metrics_fault, secret_fault,
    socket_fault, users_fault,
};
pub use files::ProxyFiles;
pub use memory::{
    calls_within, group_limit, memory_total, most_calls_here, resident_bytes, resident_pages,
};
pub use options::{ConnectionOptions, Options};
pub use own_line::text_at;
pub use queue::{Batch, JournalQueue};
pub use secret::{read_secret, secret_in};
pub use setup::{Configuration, Identity, check_files, read_config, read_text, read_users};
