//! What a service makes of a REGISTER for its domain.
ghost use Rattle.std.specs.Prelude.{◌≡◌, IfErr, IfOk, IfSome, List, Ok, Err, None, option_map};
ghost use Rattle.binding_table.specs.Changes.{bindings_of};
ghost use Rattle.bindings.specs.Bindings.{Binding};
ghost use Rattle.registrar.specs.Asking as spec;
ghost use Rattle.registrar.specs.SeenAsking.{seen_asking, seen_registration};
ghost use Rattle.service_decisions.specs.Registered.{IsMadeOf, IsRegistered, IsRegisteredBy, IsTaken, asked_of, source_of};
ghost use Rattle.service_decisions.specs.SeenRegistered.{IsApart, seen_registered};
ghost use Rattle.service_decisions.specs.SeenServing.{serving_of};
ghost use Rattle.service_decisions.specs.Serving.{Serving};

use crate::making::{Apart, Makes, prepared};
use crate::view::ServiceView;
use authentication::OwnAnswer;
use binding_table::{ChangeFault, PreparedChange};
use bindings::UserBindings;
use fork_call::Setup;
use registrar::{
    AskedExpirations, Asking, RegisterOutcome, Registrar, Registration, Source, asking_of,
    full_answer, okay,
};
use service_config::Expirations;
use sip_text::Message;
use sip_uri::Hop;
use std::alloc::{AllocError, Allocator};
use std::sync::Wait;

/// What becomes of a REGISTER for the domain.
#[derive(Drop)]
pub enum Registered<A: Allocator + Clone> {
    /// It changes nothing, and is answered so; where there is a name, it is noted that wrong credentials came for it.
    Answered(OwnAnswer<A>, Option<Vec<u8, A>>),
    /// It changes what is bound to its user so. Once that is kept, the change is to be made, and the request is to be answered so.
    Changes(PreparedChange<UserBindings<A>, A>, OwnAnswer<A>),
    /// Another change of what is bound to its user is under way: it may come again.
    Waits,
}

/// The times of a service, as its registrar takes them.
fn asked_of(expirations: Expirations) -> AskedExpirations
    ensures { result ≡ asked_of expirations }
{
    AskedExpirations {
        least: expirations.least,
        usual: expirations.usual,
        most: expirations.most,
    }
}

/// New bindings, and the answer that tells them or why there are none.
type Outcome<A> = (Option<UserBindings<A>>, OwnAnswer<A>);

/// The new bindings apart from the answer.
fn apart<A: Allocator>(outcome: Result<Outcome<A>, AllocError>) -> Apart<A>
    ensures ok { IfOk outcome (λ made. (result.0 ≡ made.0) × (result.1 ≡ Ok made.1)) }
    ensures err { IfErr outcome (λ refused. (result.0 ≡ None) × (result.1 ≡ Err refused)) }
{
    match outcome {
        Ok((new, answer)) => (new, Ok(answer)),
        Err(AllocError) => (None, Err(AllocError)),
    }
}

/// A request whose sender may make it, and the service that it comes to.
#[derive(Drop)]
struct Registering<'a, A: Allocator + Clone> {
    view: &'a ServiceView<'a, A>,
    alloc: &'a A,
    registration: &'a Registration<'a, A>,
}

impl<A: Allocator + Clone> Makes<A> for Registering<'_, A> {
    ghost use Rattle.registrar.specs.SeenAsking.{seen_registration};
    ghost use Rattle.service_decisions.specs.SeenServing.{serving_of};

    ghost serving = { λ r. serving_of r.view.now };

    ghost registration = { λ r. seen_registration r.registration.now };

    fn made(&self, held: &UserBindings<A>) -> Apart<A> {
        apart(self.view.outcome(self.alloc, self.registration, held))
    }
}

impl<'a, A: Allocator + Clone> ServiceView<'a, A> {
    /// What a request makes of the bindings of its user, and how it is answered by that.
    fn outcome(
        &self,
        alloc: &A,
        registration: &Registration<'_, A>,
        held: &UserBindings<A>,
    ) -> Result<Outcome<A>, AllocError>
        ensures { IfOk result (λ made. IsMadeOf (serving_of self.now) (seen_registration registration.now) held.now made.0 made.1) }
    {
        // How many there may be in all is known to the table.
        match registration.outcome_of(alloc.clone()?, 0, u32::MAX, held)? {
            RegisterOutcome::Repeated => {
                let answer = okay(alloc.clone()?, self.moment, self.second, held)?;
                Ok((None, answer))
            }
            RegisterOutcome::Refused(answer) => Ok((None, answer)),
            RegisterOutcome::Changes(new) => {
                let answer = okay(alloc.clone()?, self.moment, self.second, &new)?;
                Ok((Some(new), answer))
            }
        }
    }

    /// What becomes of a request that prepared this change, if it makes one, and is answered so, unless memory was refused.
    fn settled<R: Wait>(
        &self,
        rt: &R,
        change: Option<PreparedChange<UserBindings<A>, A>>,
        answer: Result<OwnAnswer<A>, AllocError>,
    ) -> Result<Registered<A>, AllocError>
        ensures { (serving : Serving) (r : spec.Registration) (held : List Binding) → IsApart serving r held (option_map bindings_of change) answer
            → IfSome change (λ made. made.user ≡ r.user) → IfOk result (λ registered. IsTaken serving r (seen_registered registered)) }
    {
        match (change, answer) {
            (None, Ok(answer)) => Ok(Registered::Answered(answer, None)),
            (Some(change), Ok(answer)) => Ok(Registered::Changes(change, answer)),
            (None, Err(AllocError)) => Err(AllocError),
            (Some(change), Err(AllocError)) => {
                self.bindings.give_up(rt, change);
                Err(AllocError)
            }
        }
    }

    /// What becomes of a request whose sender may make it.
    fn registered<R: Wait>(
        &self,
        rt: &R,
        alloc: &A,
        registration: &Registration<'_, A>,
    ) -> Result<Registered<A>, AllocError>
        ensures { IfOk result (λ registered. IsTaken (serving_of self.now) (seen_registration registration.now) (seen_registered registered)) }
    {
        let request = Registering {
            view: self,
            alloc,
            registration,
        };
        let made = prepared(rt, self.bindings, registration.user(), &request);
        match made {
            Ok((change, answer)) => self.settled(rt, change, answer),
            Err(ChangeFault::Busy) => Ok(Registered::Waits),
            Err(ChangeFault::NoMemory) => Err(AllocError),
            Err(ChangeFault::Full) => Ok(Registered::Answered(full_answer(alloc.clone()?)?, None)),
        }
    }

    /// What becomes of a request that asks for this.
    fn registered_by<R: Wait>(
        &self,
        rt: &R,
        alloc: &A,
        asking: Asking<'_, A>,
    ) -> Result<Registered<A>, AllocError>
        ensures { IfOk result (λ registered. IsRegisteredBy (serving_of self.now) (seen_asking asking.entry) (seen_registered registered)) }
    {
        match asking {
            Asking::Turned(answer, noted) => Ok(Registered::Answered(answer, noted)),
            Asking::Registers(registration) => self.registered(rt, alloc, &registration),
        }
    }

    /// Where a request came from, and when, as the registrar takes it.
    fn source(&self, source: Hop) -> Source
        ensures { result ≡ source_of (serving_of self.now) source }
    {
        Source {
            hop: source,
            inside: self.settings.is_inside(source.addr),
            second: self.second,
            millisecond: self.moment,
        }
    }

    /// What becomes of a REGISTER for the domain that came from there, and has its source (RFC 3261 sections 10.3 and 18.2.1). Nothing is
    /// changed yet: a change is made by `BindingTable::commit`, or given up.
    ///
    /// # Errors
    ///
    /// Only where the allocator refuses.
    pub fn register<R: Wait>(
        &self,
        rt: &R,
        alloc: &A,
        setup: &Setup<A>,
        request: &Message<A>,
        source: Hop,
    ) -> Result<Registered<A>, AllocError>
        ensures { IfOk result (λ registered. IsRegistered (serving_of self.now) setup.now request.now source (seen_registered registered)) }
    {
        let realm = self.realm();
        let registrar = Registrar {
            domain: self.domain(setup),
            realm: realm.as_ref(),
            expirations: asked_of(self.settings.expirations()),
        };
        let from = self.source(source);
        let asking = asking_of(alloc.clone()?, &registrar, from, request)?;
        let registered = self.registered_by(rt, alloc, asking)?;
        Ok(registered)
    }
}
