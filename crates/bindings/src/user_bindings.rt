//! The bindings of one user.
ghost use Rattle.std.specs.Prelude.{◌≡◌, ◌↔◌, ◌∷◌, ◌++◌, [], IfOk, IsTrue, OnErr, OnOk, length};
ghost use Rattle.bindings.specs.Bindings.{changed, first_end, is_there, there};
ghost use Rattle.bindings.specs.Registering.{Prepares, Registers, is_repeat};
ghost use Rattle.bindings.specs.Seen.{register_of};

use crate::binding::Binding;
use crate::changes::{copied_there, first_end_at, keep_there, let_go, made, take_all_in};
use crate::lists::{is_repeat, refusal};
use crate::refusal::RegisterRefusal;
use crate::request::RegisterRequest;
use crate::there::BindingsAt;
use std::alloc::{AllocError, Allocator, Global};
use std::marker::Model;

/// The bindings of one user, in their order; of those that have ended some may still be kept.
#[derive(Drop)]
pub struct UserBindings<A: Allocator = Global> {
    bindings: Vec<Binding<A>, A>,
}

impl<A: Allocator> Model for UserBindings<A> {
    ghost use Rattle.std.specs.Prelude.{List};
    ghost use Rattle.bindings.specs.Bindings as spec;

    ghost Value = { List spec.Binding };

    ghost view = { λ b. b.bindings.items };
}

impl<A: Allocator> UserBindings<A> {
    /// None.
    pub fn new(alloc: A) -> UserBindings<A>
        ensures { result ≡ [] }
    {
        UserBindings {
            bindings: Vec::new(alloc),
        }
    }

    /// Those that are there at a moment, in their order: each until its end, and not at it.
    pub fn at(&self, moment: u64) -> BindingsAt<'_, A>
        ensures { result ≡ there moment self.now }
    {
        BindingsAt::new(moment, &self.bindings)
    }

    /// When the first of those ends that are there at a moment; nothing where none is there.
    pub fn next_end(&self, moment: u64) -> Option<u64>
        ensures { result ≡ first_end (is_there moment) self.now }
    {
        first_end_at(moment, &self.bindings)
    }

    /// Whether the request made a binding that is there as it comes: it was taken before, and comes again. What its contacts are does not
    /// count.
    pub fn is_repeat(&self, request: &RegisterRequest<'_>) -> bool
        ensures { result ≡ is_repeat (register_of request.now) self.now }
    {
        is_repeat(request, &self.bindings)
    }

    /// What a REGISTER request makes of them (RFC 3261 section 10.3 steps 6 to 8): all that it asks for, or nothing. Nothing is changed
    /// where it made a binding that is there, for then it comes again. Else what has ended goes; each contact in its order takes away the
    /// first binding that it names, or puts its own in the place of that or behind all others; `*` takes all away; and of more than 16
    /// those go that end first, the first in order of these first, but none that the request itself has made.
    ///
    /// # Errors
    ///
    /// The first of `RegisterRefusal` that holds, in the order in which they stand there; `NoMemory` only where nothing else refuses. All
    /// is as it was then.
    pub fn register(
        &mut self,
        alloc: A,
        request: &RegisterRequest<'_>,
    ) -> Result<(), RegisterRefusal>
    where
        A: Clone,
        ensures { Registers (register_of request.now) self.old self.new result }
    {
        if self.is_repeat(request) {
            return Ok(());
        }
        if let Some(why) = refusal(request, &self.bindings) {
            return Err(why);
        }
        self.change(alloc, request)?;
        Ok(())
    }

    /// Puts a binding behind all others, whatever it is: for a caller who reads back what was kept of them.
    ///
    /// # Errors
    ///
    /// Only where the allocator refuses; all is as it was then.
    pub fn push(&mut self, binding: Binding<A>) -> Result<(), AllocError>
        ensures ok { OnOk result (self.new ≡ self.old ++ binding ∷ []) }
        ensures err { OnErr result (self.new ≡ self.old) }
    {
        self.bindings.push(binding)?;
        Ok(())
    }

    /// Copies of those that are there at a moment, in their order.
    ///
    /// # Errors
    ///
    /// Only where the allocator refuses.
    pub fn copied(&self, alloc: A, moment: u64) -> Result<UserBindings<A>, AllocError>
    where
        A: Clone,
        ensures { IfOk result (λ copies. copies ≡ there moment self.now) }
    {
        let bindings = copied_there(alloc, moment, &self.bindings, 0)?;
        Ok(UserBindings { bindings })
    }

    /// How many are kept, those among them that have ended.
    pub fn len(&self) -> usize
        ensures { result ≡ length self.now }
    {
        self.bindings.len()
    }

    /// Whether none is kept.
    pub fn is_empty(&self) -> bool
        ensures { IsTrue result ↔ (self.now ≡ []) }
    {
        self.bindings.is_empty()
    }

    /// What `register` would make of them, beside them as they are: for a caller who has something else to do before the change is seen,
    /// or who may give it up. Nothing where the request made a binding that is there, for then it comes again.
    ///
    /// # Errors
    ///
    /// As those of `register`.
    pub fn prepared(
        &self,
        alloc: A,
        request: &RegisterRequest<'_>,
    ) -> Result<Option<UserBindings<A>>, RegisterRefusal>
    where
        A: Clone,
        ensures { Prepares (register_of request.now) self.now result }
    {
        let comes_again = self.is_repeat(request);
        if comes_again {
            return Ok(None);
        }
        match refusal(request, &self.bindings) {
            Some(why) => Err(why),
            None => Ok(Some(self.changed(alloc, request)?)),
        }
    }

    /// All that a request asks for, beside them as they are.
    fn changed(
        &self,
        alloc: A,
        request: &RegisterRequest<'_>,
    ) -> Result<UserBindings<A>, AllocError>
    where
        A: Clone,
        ensures { IfOk result (λ new. new ≡ changed (register_of request.now) (there request.now.at self.now)) }
    {
        if request.star.is_some() {
            return Ok(UserBindings::new(alloc));
        }
        let made = made(alloc.clone()?, request)?;
        let mut bindings = copied_there(alloc, request.at, &self.bindings, made.len())?;
        take_all_in(request.at, made, &mut bindings);
        let_go(request, &mut bindings);
        Ok(UserBindings { bindings })
    }

    /// All that a request asks for, or nothing.
    fn change(&mut self, alloc: A, request: &RegisterRequest<'_>) -> Result<(), AllocError>
    where
        A: Clone,
        ensures ok { OnOk result (self.new ≡ changed (register_of request.now) (there request.now.at self.old)) }
        ensures err { OnErr result (self.new ≡ self.old) }
    {
        if request.star.is_some() {
            self.bindings.clear();
            return Ok(());
        }
        let made = made(alloc, request)?;
        self.bindings.reserve(made.len())?;
        keep_there(request.at, &mut self.bindings);
        take_all_in(request.at, made, &mut self.bindings);
        let_go(request, &mut self.bindings);
        Ok(())
    }
}
