//! Tests of the public calls of `sip_via`.
mod addresses;
mod branches;
mod header_lines;
mod in_place;
mod loops;
mod marking;
mod own_branches;
mod replies;
mod routes;
mod values;
