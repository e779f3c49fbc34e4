//! Each function of `sip_uri` on its happy path, and texts next to those of URIs.
mod contacts;
mod faults;
mod hops;
mod reads;
mod requested;
