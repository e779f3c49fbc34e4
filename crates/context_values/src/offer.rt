//! The contacts of an answer.
ghost use Rattle.std.specs.Prelude.{◌≡◌, ◌≤◌};
ghost use Rattle.std.specs.Option.{option_map, option_copied};
ghost use Rattle.fork_model.specs.Range.{most_q};

use std::alloc::{Allocator, Global};
use std::marker::Model;

/// A contact of a 3xx as it came: its text, its q in thousandths, and a key where the proxy may try it.
#[derive(Drop)]
#[derive_where(Debug)]
pub struct Offer<A: Allocator = Global> {
    pub(crate) text: Vec<u8, A>,
    pub(crate) q: u16,
    pub(crate) key: Option<Vec<u8, A>>,
}

impl<A: Allocator> Model for Offer<A> {
    ghost use Rattle.fork_model.specs.Table as spec;
    ghost use Rattle.fork_model.specs.Range.{most_q};
    ghost use Rattle.std.specs.Prelude.{◌≤◌};
    ghost use Rattle.std.specs.Option.{option_map};

    ghost Value = { spec.Offer };

    ghost view = { λ o. record { text = o.text.items; q = o.q; key = option_map (λ v. v.items) o.key } };

    ghost invariant = { λ o. o.q ≤ most_q };
}

impl<A: Allocator> Offer<A> {
    /// A contact with this text and q, 0 to 1000; the key is that of the target it names, or None where the proxy
    /// cannot try it.
    pub fn new(text: Vec<u8, A>, q: u16, key: Option<Vec<u8, A>>) -> Self
        requires { q ≤ most_q }
        ensures { result ≡ record { text = text.items; q = q; key = option_map (λ v. v.items) key } }
    {
        Offer { text, q, key }
    }

    /// The contact as it came.
    pub fn text(&self) -> &[u8]
        ensures { result.now ≡ self.now.text }
    {
        &self.text
    }

    /// Its q in thousandths, 0 to 1000 (RFC 3261 section 20.10).
    pub fn q(&self) -> u16
        ensures value { result ≡ self.now.q }
        ensures range { result ≤ most_q }
    {
        self.q
    }

    /// What identifies the target that it names; None where the proxy cannot try it.
    pub fn key(&self) -> Option<&[u8]>
        ensures { option_copied result ≡ self.now.key }
    {
        match &self.key {
            Some(key) => Some(key),
            None => None,
        }
    }
}
