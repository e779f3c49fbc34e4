//! A book with what it opened with.
ghost use Rattle.std.specs.Prelude.{◌≡◌, ◌≤◌, ◌↔◌, [], IsErrOf, IsErrAnd, IsTrue, IfOk, IfErr, length};
ghost use Rattle.fork_model.specs.Table.{most_targets};
ghost use Rattle.fork_model.specs.History.{opening};
ghost use Rattle.fork_rank.specs.KindView.{kind_of};
ghost use Rattle.fork_context.specs.Refusals.{IsTooMany, HasTwice};
ghost use Rattle.fork_engine.specs.Faults.{IsNew, IsNoTorn};

use crate::fault::DriveFault;
use crate::same::are_same_targets;
use crate::workers::Ended;
use context_values::copied_targets;
use fork_book::Book;
use fork_context::{Context, Event, Kind, NewFault, PostError, Target};
use fork_rank::Rules;
use std::alloc::{AllocError, Allocator};

/// What stands under the lock: a book, with what it opened with.
#[derive(Drop)]
pub(crate) struct OpenedBook<A: Allocator + Clone> {
    kind: Kind,
    rules: Rules,
    targets: Vec<Target<A>, A>,
    pub(crate) book: Book<A>,
    ghost opens: { book.opening ≡ opening (kind_of kind) rules targets.items },
}

impl<A: Allocator + Clone> OpenedBook<A> {
    /// Posts an event, and says what came of it.
    pub(crate) fn post(&mut self, tag: u8, event: Event<A>) -> Ended {
        match self.book.post(tag, event) {
            Ok(_) => Ended::Done,
            Err(PostError::Full(_)) => Ended::Full,
            Err(PostError::NoMemory(_)) => Ended::NoMemory,
        }
    }
}

/// What a run begins with.
#[derive(Drop)]
pub(crate) struct DriveRun<A: Allocator + Clone> {
    pub(crate) alloc: A,
    pub(crate) targets: Vec<Target<A>, A>,
    pub(crate) held: OpenedBook<A>,
}

/// What a book is made with.
#[derive(Drop)]
pub(crate) struct Twice<A: Allocator + Clone> {
    alloc: A,
    targets: Vec<Target<A>, A>,
    kept: Vec<Target<A>, A>,
}

/// The targets, twice.
fn copied_twice<A: Allocator + Clone>(
    alloc: &A,
    targets: &[Target<A>],
) -> Result<Twice<A>, AllocError>
    ensures targets { IfOk result (λ g. g.targets.items ≡ targets.now) }
    ensures kept { IfOk result (λ g. g.kept.items ≡ targets.now) }
{
    Ok(Twice {
        targets: copied_targets(alloc, targets)?,
        kept: copied_targets(alloc, targets)?,
        alloc: alloc.clone()?,
    })
}

fn fault_of<A: Allocator + Clone>(fault: NewFault) -> DriveFault<A>
    ensures none { IsNew NewFault.NoTargets result ↔ (fault ≡ NewFault.NoTargets) }
    ensures many { IsNew NewFault.TooMany result ↔ (fault ≡ NewFault.TooMany) }
    ensures twice { IsNew NewFault.Twice result ↔ (fault ≡ NewFault.Twice) }
    ensures memory { IsNew NewFault.NoMemory result → ⊥ }
    ensures known { IsNoTorn result }
{
    match fault {
        NewFault::NoMemory => DriveFault::NoMemory,
        fault => DriveFault::New(fault),
    }
}

/// Why no book is made where memory is short: the targets may be at fault all the same.
fn refused<A: Allocator + Clone>(
    alloc: A,
    kind: Kind,
    rules: Rules,
    targets: Vec<Target<A>, A>,
) -> DriveFault<A>
    ensures none { IsNew NewFault.NoTargets result ↔ (targets.items ≡ []) }
    ensures many { IsNew NewFault.TooMany result ↔ IsTooMany targets.items }
    ensures twice { IsNew NewFault.Twice result ↔ ((length targets.items ≤ most_targets) × HasTwice targets.items) }
    ensures memory { IsNew NewFault.NoMemory result → ⊥ }
    ensures known { IsNoTorn result }
{
    match Context::new(alloc, kind, rules, targets) {
        Ok(_) => DriveFault::NoMemory,
        Err(fault) => fault_of(fault),
    }
}

/// The book, with what it opened with.
fn opened<A: Allocator + Clone>(
    kind: Kind,
    rules: Rules,
    given: Twice<A>,
) -> Result<OpenedBook<A>, NewFault>
    requires { given.kept.items ≡ given.targets.items }
    ensures none { IsErrOf result NewFault.NoTargets ↔ (given.targets.items ≡ []) }
    ensures many { IsErrOf result NewFault.TooMany ↔ IsTooMany given.targets.items }
    ensures twice { IsErrOf result NewFault.Twice ↔ ((length given.targets.items ≤ most_targets) × HasTwice given.targets.items) }
{
    let Twice {
        alloc,
        targets,
        kept,
    } = given;
    let book = Book::new(alloc, kind, rules, targets)?;
    Ok(OpenedBook {
        kind,
        rules,
        targets: kept,
        book,
    })
}

/// Makes the book.
pub(crate) fn opened_run<A: Allocator + Clone>(
    alloc: A,
    kind: Kind,
    rules: Rules,
    targets: Vec<Target<A>, A>,
) -> Result<DriveRun<A>, DriveFault<A>>
    ensures none { IsErrAnd result (IsNew NewFault.NoTargets) ↔ (targets.items ≡ []) }
    ensures many { IsErrAnd result (IsNew NewFault.TooMany) ↔ IsTooMany targets.items }
    ensures twice { IsErrAnd result (IsNew NewFault.Twice) ↔ ((length targets.items ≤ most_targets) × HasTwice targets.items) }
    ensures memory { IsErrAnd result (IsNew NewFault.NoMemory) → ⊥ }
    ensures known { IfErr result IsNoTorn }
    ensures targets { IfOk result (λ run. run.targets.items ≡ targets.items) }
{
    let Ok(given) = copied_twice(&alloc, &targets) else {
        return Err(refused(alloc, kind, rules, targets));
    };
    match opened(kind, rules, given) {
        Ok(held) => Ok(DriveRun {
            alloc,
            targets,
            held,
        }),
        Err(fault) => Err(fault_of(fault)),
    }
}

fn is_same_kind(one: Kind, other: Kind) -> bool
    ensures { IsTrue result ↔ (kind_of one ≡ kind_of other) }
{
    match (one, other) {
        (Kind::Invite, Kind::Invite) | (Kind::Other, Kind::Other) => true,
        _ => false,
    }
}

fn is_same_rules(one: Rules, other: Rules) -> bool
    ensures { IsTrue result ↔ (one ≡ other) }
{
    one == other
}

/// Whether the book opened with what was given.
pub(crate) fn is_ours<A: Allocator + Clone>(
    held: &OpenedBook<A>,
    kind: Kind,
    rules: Rules,
    targets: &[Target<A>],
) -> bool
    ensures { IsTrue result ↔ ((kind_of held.now.kind ≡ kind_of kind) × (held.now.rules ≡ rules) × (held.now.targets.items ≡ targets.now)) }
{
    is_same_kind(held.kind, kind)
        && is_same_rules(held.rules, rules)
        && are_same_targets(&held.targets, targets)
}
