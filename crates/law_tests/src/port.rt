//! A port that looks at what it is handed.
use call_messages::{Sent, is_sent};
use fork_call::{Datagram, Port};
use std::alloc::Allocator;

/// A port that is to be handed these datagrams, one after another. Of those it loses one, or none.
#[derive(Drop)]
pub struct Awaiting {
    wanted: &'static [&'static Sent],
    lost: Option<u32>,
    count: u32,
    well: bool,
}

impl Awaiting {
    /// A port that is to be handed these, and loses the one at this place.
    pub fn new(wanted: &'static [&'static Sent], lost: Option<u32>) -> Awaiting {
        Awaiting {
            wanted,
            lost,
            count: 0,
            well: true,
        }
    }

    /// Whether these were all that it was handed, each in its place.
    pub fn is_content(&self) -> bool {
        self.well && self.count as usize == self.wanted.len()
    }
}

impl Port for Awaiting {
    ghost count = { λ port. 0 };

    fn send<A: Allocator>(&mut self, datagram: &Datagram<A>) -> bool {
        let is_next = match self.wanted.get(self.count as usize) {
            Some(wanted) => is_sent(datagram, wanted),
            None => false,
        };
        let is_lost = self.lost == Some(self.count);
        self.well = self.well && is_next;
        self.count = self.count.saturating_add(1);
        !is_lost
    }

    fn failures(&self) -> u64 {
        0
    }
}
