//! Why the workers of a script print nothing.
ghost use Rattle.std.specs.Prelude.{◌≡◌};
ghost use Rattle.fork_engine.specs.TornBooks.{told};

use fork_book::Book;
use fork_program::ProgFault;
use std::alloc::{AllocError, Allocator, Global};

/// Why the workers of a script print nothing.
#[derive(Drop)]
pub enum RunFault<A: Allocator + Clone = Global> {
    /// The script, its fork or its run was refused.
    Text(ProgFault),
    /// The workers left this book, which is not one of the script's fork, or whose history is no order of the script's events.
    Torn(Book<A>),
}

impl<A: Allocator + Clone> RunFault<A> {
    /// What the program says of it.
    pub fn told(self) -> ProgFault
        ensures { result ≡ told self }
    {
        match self {
            RunFault::Text(fault) => fault,
            RunFault::Torn(_) => ProgFault::Torn,
        }
    }
}

impl<A: Allocator + Clone> From<AllocError> for RunFault<A> {
    ghost use Rattle.fork_program.specs.declared.fault.ProgFault.TheVariants as prog;
    ghost use Rattle.fork_engine.specs.declared.text_fault.RunFault.TheVariants as run;

    ghost from_gives = { λ _ fault. fault ≡ run.Text prog.NoMemory };

    fn from(_refused: AllocError) -> RunFault<A> {
        RunFault::Text(ProgFault::NoMemory)
    }
}

impl<A: Allocator + Clone> From<ProgFault> for RunFault<A> {
    ghost use Rattle.fork_engine.specs.declared.text_fault.RunFault.TheVariants as run;

    ghost from_gives = { λ refused fault. fault ≡ run.Text refused };

    fn from(refused: ProgFault) -> RunFault<A> {
        RunFault::Text(refused)
    }
}
