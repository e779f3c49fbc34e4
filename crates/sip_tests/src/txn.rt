//! The machines of `sip_txn`, line by line of their tables and over whole runs, and their sizes.
mod answer;
mod constants;
mod due;
mod invite_client;
mod invite_server;
mod machine;
mod other_client;
mod other_server;
mod table;
