//! Whole calls, from the request that opens each to its end: every message that comes, every datagram that goes, byte for
//! byte, and the moments between them.
mod accepting;
mod connecting;
mod failing;
mod four_targets;
mod groups;
mod longest;
mod one_target;
mod playing;
mod reasons;
mod recording;
mod redirecting;
mod refusing;
mod timers;
mod two_calls;
