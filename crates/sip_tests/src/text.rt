//! Requests and responses read and written by `sip_text`, and texts that are none by one change.
mod asked;
mod changes;
mod faults;
mod messages;
mod parts;
mod samples;
