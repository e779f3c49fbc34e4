//! The users of a shard and what they have.
ghost use Rattle.std.specs.Prelude.{◌≡◌, ℕ, IfOk, List, None, OnErr, OnOk, Some, false, is_some, true};
ghost use Rattle.std.specs.Option.{option_copied};
ghost use Rattle.binding_table.specs.inner.Users.{OthersStay, held, is_changing, kept_of};

use crate::holding::Holding;
use std::alloc::{AllocError, Allocator};
use std::collections::BTreeMap;
use std::collections::btree_map::Range;
use std::ops::Bound;

/// The users of a shard: what each has, and of whom a change is under way. A user of whom nothing is kept has none.
#[derive(Drop)]
pub(crate) struct Users<T, A: Allocator> {
    bindings: BTreeMap<Vec<u8, A>, T, A>,
    changing: BTreeMap<Vec<u8, A>, (), A>,
}

impl<T: Holding<A> + Drop, A: Allocator + Clone> Users<T, A> {
    /// No user has any.
    #[tactic(auto, unfolding(crate::specs::inner::Users::kept_of, crate::specs::inner::Users::is_changing))]
    pub(crate) fn new(bindings: A, changing: A) -> Users<T, A>
        ensures { (name : List ℕ) → (kept_of result name ≡ None) × (is_changing result name ≡ false) }
    {
        Users {
            bindings: BTreeMap::new(bindings),
            changing: BTreeMap::new(changing),
        }
    }

    // ---- one step each

    /// What is kept of a user.
    #[tactic(auto, unfolding(crate::specs::inner::Users::kept_of, crate::specs::inner::Users::is_changing))]
    pub(crate) fn of(&self, name: &[u8]) -> Option<&T>
        ensures { option_copied result ≡ kept_of self.now name.now }
    {
        self.bindings.get(name)
    }

    /// Whether a change of what a user has is under way.
    #[tactic(auto, unfolding(crate::specs::inner::Users::kept_of, crate::specs::inner::Users::is_changing))]
    pub(crate) fn is_changing(&self, name: &[u8]) -> bool
        ensures { result ≡ is_changing self.now name.now }
    {
        self.changing.contains_key(name)
    }

    /// Keeps of a user what is given in the place of what was, and answers that. Where something is kept it takes no memory.
    #[tactic(auto, unfolding(crate::specs::inner::Users::kept_of, crate::specs::inner::Users::is_changing))]
    fn keep(&mut self, name: Vec<u8, A>, bindings: T) -> Result<Option<T>, AllocError>
        ensures old { IfOk result (λ old. old ≡ kept_of self.old name.items) }
        ensures ok { OnOk result (kept_of self.new name.items ≡ Some bindings) }
        ensures absent { OnErr result (kept_of self.old name.items ≡ None) }
        ensures err { OnErr result (kept_of self.new name.items ≡ None) }
        ensures changing { is_changing self.new name.items ≡ is_changing self.old name.items }
        ensures others { OthersStay name.items self.old self.new }
    {
        match self.bindings.insert(name, bindings) {
            Ok(old) => Ok(old),
            Err(_) => Err(AllocError),
        }
    }

    /// Keeps nothing of a user any more, and answers what was kept.
    #[tactic(auto, unfolding(crate::specs::inner::Users::kept_of, crate::specs::inner::Users::is_changing))]
    fn forget(&mut self, name: &[u8]) -> Option<T>
        ensures none { kept_of self.new name.now ≡ None }
        ensures old { result ≡ kept_of self.old name.now }
        ensures changing { is_changing self.new name.now ≡ is_changing self.old name.now }
        ensures others { OthersStay name.now self.old self.new }
    {
        self.bindings.remove(name)
    }

    /// Notes that a change of what a user has is under way.
    #[tactic(auto, unfolding(crate::specs::inner::Users::kept_of, crate::specs::inner::Users::is_changing))]
    fn mark(&mut self, name: Vec<u8, A>) -> Result<(), AllocError>
        ensures ok { OnOk result (is_changing self.new name.items ≡ true) }
        ensures err { OnErr result (is_changing self.new name.items ≡ is_changing self.old name.items) }
        ensures kept { kept_of self.new name.items ≡ kept_of self.old name.items }
        ensures others { OthersStay name.items self.old self.new }
    {
        match self.changing.insert(name, ()) {
            Ok(_) => Ok(()),
            Err(_) => Err(AllocError),
        }
    }

    /// Notes that no change of what a user has is under way any more.
    #[tactic(auto, unfolding(crate::specs::inner::Users::kept_of, crate::specs::inner::Users::is_changing))]
    fn unmark(&mut self, name: &[u8])
        ensures over { is_changing self.new name.now ≡ false }
        ensures kept { kept_of self.new name.now ≡ kept_of self.old name.now }
        ensures others { OthersStay name.now self.old self.new }
    {
        let _ = self.changing.remove(name);
    }

    // ---- several steps

    /// What a user has, where this is what nobody has.
    pub(crate) fn of_or<'a>(&'a self, name: &[u8], none: &'a T) -> &'a T
        ensures { result.now ≡ held none.now self.now name.now }
    {
        match self.of(name) {
            Some(bindings) => bindings,
            None => none,
        }
    }

    /// Keeps of a user what there is, so that a change takes no memory.
    fn make_place(&mut self, alloc: &A, name: &[u8]) -> Result<(), AllocError>
        ensures ok { OnOk result (is_some (kept_of self.new name.now) ≡ true) }
        ensures held { held T.none self.new name.now ≡ held T.none self.old name.now }
        ensures changing { is_changing self.new name.now ≡ is_changing self.old name.now }
    {
        if self.of(name).is_some() {
            return Ok(());
        }
        let own = name.to_vec(alloc.clone()?)?;
        let none = T::none(alloc.clone()?);
        self.keep(own, none)?;
        Ok(())
    }

    /// Begins a change of what a user has.
    ///
    /// # Errors
    ///
    /// Only where the allocator refuses; then none is begun.
    pub(crate) fn begin(&mut self, alloc: &A, name: &[u8]) -> Result<(), AllocError>
        ensures begun { OnOk result (is_changing self.new name.now ≡ true) }
        ensures place { OnOk result (is_some (kept_of self.new name.now) ≡ true) }
        ensures held { held T.none self.new name.now ≡ held T.none self.old name.now }
        ensures err { OnErr result (is_changing self.new name.now ≡ is_changing self.old name.now) }
    {
        let own = name.to_vec(alloc.clone()?)?;
        self.make_place(alloc, name)?;
        self.mark(own)
    }

    /// Makes a change of what a user has that was begun, and answers what there was. It takes no memory then.
    pub(crate) fn make(&mut self, name: Vec<u8, A>, bindings: T) -> Option<T>
        ensures made { is_some (kept_of self.old name.items) ≡ true → held T.none self.new name.items ≡ bindings }
        ensures over { is_changing self.new name.items ≡ false }
    {
        self.unmark(&name);
        if bindings.count() == 0 {
            return self.forget(&name);
        }
        self.keep(name, bindings).unwrap_or(None)
    }

    /// Forgets a user who has none.
    fn forget_empty(&mut self, name: &[u8])
        ensures held { held T.none self.new name.now ≡ held T.none self.old name.now }
        ensures changing { is_changing self.new name.now ≡ is_changing self.old name.now }
    {
        let is_empty = match self.of(name) {
            Some(bindings) => bindings.count() == 0,
            None => false,
        };
        if is_empty {
            let _ = self.forget(name);
        }
    }

    /// Gives a change of what a user has up that was begun.
    pub(crate) fn give_up(&mut self, name: &[u8])
        ensures held { held T.none self.new name.now ≡ held T.none self.old name.now }
        ensures over { is_changing self.new name.now ≡ false }
    {
        self.unmark(name);
        self.forget_empty(name);
    }

    /// Puts what a user has in the place of what there was, and answers that.
    ///
    /// # Errors
    ///
    /// Only where the allocator refuses; then nothing is changed.
    pub(crate) fn put(
        &mut self,
        alloc: &A,
        name: &[u8],
        bindings: T,
    ) -> Result<Option<T>, AllocError>
        ensures ok { OnOk result (kept_of self.new name.now ≡ Some bindings) }
        ensures err { OnErr result (kept_of self.new name.now ≡ kept_of self.old name.now) }
        ensures changing { is_changing self.new name.now ≡ is_changing self.old name.now }
    {
        let own = name.to_vec(alloc.clone()?)?;
        self.keep(own, bindings)
    }

    /// The users behind this one in the order of their names, or all.
    fn behind(&self, after: &Option<Vec<u8, A>>) -> Range<'_, Vec<u8, A>, T> {
        match after {
            Some(name) => self
                .bindings
                .range((Bound::Excluded(name), Bound::Unbounded)),
            None => self.bindings.range(..),
        }
    }

    /// The first user of whose bindings `wanted` says so, in the order of the names: behind this one, or of all.
    pub(crate) fn next<F: Fn(&T) -> bool>(
        &self,
        after: &Option<Vec<u8, A>>,
        wanted: &F,
    ) -> Option<&[u8]>
        requires { F.IsAlwaysCallable wanted.now }
    {
        for (name, bindings) in self.behind(after) {
            if wanted(bindings) {
                return Some(name.as_slice());
            }
        }
        None
    }
}
