//! Laws of registering.
ghost use Rattle.std.specs.Prelude.{◌≡◌, ℕ, List, Ok, Option, false, true};
ghost use Rattle.sip_text.specs.Text.{MessageText};
ghost use Rattle.sip_via.specs.Address.{address_text};
ghost use Rattle.authentication.specs.declared.challenge.Challenger.TheVariants.{Server};
ghost use Rattle.authentication.specs.declared.domain.Domain.{Domain};
ghost use Rattle.authentication.specs.Realm.{Realm};
ghost use Rattle.authentication.specs.Standing as known;
ghost use Rattle.registrar.specs.declared.expirations.AskedExpirations.{AskedExpirations};
ghost use Rattle.registrar.specs.declared.source.Source.{Source};
ghost use Rattle.bindings.specs.Bindings.{Binding};
ghost use Rattle.bindings.specs.Registering.{registered};
ghost use Rattle.registrar.specs.Asking as spec;
ghost use Rattle.registrar.specs.Outcome.{Changes, Repeated, outcome_of, register_of};

/// A REGISTER request from outside asks for something only where credentials came with it that are right, and those of the very user
/// whose bindings it is for. So no binding of a user is added, changed or taken away but by a REGISTER from inside, or with that user's
/// password.
///
/// A law over the definitions, with nothing to run.
pub fn bindings_need_their_users_password()
    ensures { (domain : Domain) (realm : Option Realm) (expirations : AskedExpirations) (source : Source) (m : MessageText) (registration : spec.Registration)
        → spec.IsAsking domain realm expirations source m (spec.Registers registration) → source.inside ≡ false
        → known.Stands true Server realm m (known.arrival_of m (address_text source.hop.addr) source.second) (known.Right registration.user) }
{}

/// The bindings afterwards are those that the request makes of the bindings of its user, as `bindings` says it, and a request that comes
/// again makes nothing else of them. So what holds of each history of requests there holds of what a registrar keeps, which changes
/// nothing where it refuses.
///
/// A law over the definitions, with nothing to run.
pub fn changes_are_of_the_request()
    ensures changed { (registration : spec.Registration) (others most : ℕ) (old new : List Binding)
        → outcome_of registration others most old ≡ Changes new → registered (register_of registration) old ≡ Ok new }
    ensures repeated { (registration : spec.Registration) (others most : ℕ) (old : List Binding)
        → outcome_of registration others most old ≡ Repeated → registered (register_of registration) old ≡ Ok old }
{}
