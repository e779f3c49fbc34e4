//! Why workers leave no book.
use fork_book::Book;
use fork_context::NewFault;
use std::alloc::{Allocator, Global};
use thiserror::Error;

/// Why workers leave no book, in the order in which the causes are looked for.
#[derive(Drop, Error)]
#[derive_where(Debug)]
pub enum DriveFault<A: Allocator + Clone = Global> {
    /// The book was not made.
    #[error("{0}")]
    New(NewFault),
    /// A worker met a full book.
    #[error("the book is full")]
    Full,
    /// A growth was refused.
    #[error("out of memory")]
    NoMemory,
    /// The book is not one of what was given.
    #[error("the book is not one of what was given")]
    Torn(#[derive_where(skip)] Book<A>),
}
