//! A service as a request finds it.
ghost use Rattle.std.specs.Prelude.{◌≡◌, ◌&&◌, ◌||◌, List, IfOk, IsTrue, not};
ghost use Rattle.std.specs.Option.{option_copied, option_map};
ghost use Rattle.authentication.specs.declared.decision.Rule.TheVariants as rules;
ghost use Rattle.authentication.specs.declared.domain.Domain.{Domain};
ghost use Rattle.authentication.specs.SeenDecision.{seen_admission, seen_decision as of_sender};
ghost use Rattle.authentication.specs.SeenRealm.{realm_if_any, seen_realm};
ghost use Rattle.bindings.specs.Bindings.{Binding, there};
ghost use Rattle.proxy_config.specs.Setup as proxy;
ghost use Rattle.proxy_dispatch.specs.Admitting as dispatch;
ghost use Rattle.proxy_dispatch.specs.SeenDecision.{seen_decision};
ghost use Rattle.service_decisions.specs.SeenPlace.{seen_place};
ghost use Rattle.service_decisions.specs.Targets.{OfUser, is_none_of, place_of};
ghost use Rattle.service_decisions.specs.SeenServing.{serving_of};
ghost use Rattle.service_decisions.specs.Served.{IsDomainOf, IsOpenedBy, IsPlain, IsServed, IsServedBy, admission_of, arrival_of, by_gateways, goes_unasked, has_place_at, may_be_abroad, may_go, opened_at, opened_by, user_at};
ghost use Rattle.service_decisions.specs.Serving.{realm_at};

use crate::contacts::contacts_of;
use crate::gateways::may_use_gateways;
use crate::moment::{has_location, opens_standing, setup_for, token_for};
use crate::opening::{OpensBy, decision_by};
use crate::place::{Place, place_of};
use authentication::{
    Arrival, CallAdmission, Decision as SenderDecision, Domain, RealmSecrets, Rule, decision_of,
};
use binding_table::BindingTable;
use bindings::UserBindings;
use fork_call::Setup;
use proxy_config::DialogToken;
use proxy_dispatch::Decision;
use service_config::ServiceSettings;
use sip_digest::UserList;
use sip_text::Message;
use sip_uri::Hop;
use std::alloc::{AllocError, Allocator};
use std::sync::Wait;

/// What is decided of a request, and, where there is a name, that wrong credentials came for it.
#[derive(Drop)]
pub struct Decided<A: Allocator> {
    pub decision: Decision<A>,
    pub noted: Option<Vec<u8, A>>,
}

/// A service as a request finds it: by what it goes, who has a password, what is bound to its users, and when it is.
#[derive(Drop)]
pub struct ServiceView<'a, A: Allocator + Clone> {
    pub settings: &'a ServiceSettings<A>,
    /// Who has a password, where there is a realm.
    pub users: Option<&'a UserList<A>>,
    /// What nonces and the tokens of dialogs are made with.
    pub secret: &'a [u8; 32],
    pub bindings: &'a BindingTable<UserBindings<A>, A>,
    /// Whether anything was ever bound to anybody: else no binding is looked for.
    pub has_bindings: bool,
    /// The second since 1970.
    pub second: u32,
    /// The millisecond of the clock by which bindings end.
    pub moment: u64,
}

/// The user whose bindings count at a place.
fn user_at<A: Allocator>(place: &Place<A>) -> Option<&[u8]>
    ensures { option_copied result ≡ user_at (seen_place place.now) }
{
    match place {
        Place::OfUser(user) => Some(user.as_slice()),
        Place::Beyond(user) => Some(user.as_slice()),
        Place::Nowhere => None,
    }
}

/// Whether a request is opened by where it comes from, or by its dialog.
fn goes_unasked(rule: Rule) -> bool
    ensures { result ≡ goes_unasked rule }
{
    match rule {
        Rule::Trusted | Rule::InDialog => true,
        Rule::Password | Rule::Stranger => false,
    }
}

/// Whether a request that is opened by this rule goes on: nobody can be asked for a password by an answer to an ACK, so that one goes on by
/// where it comes from, or by its dialog, alone.
fn may_go<A: Allocator>(rule: Rule, request: &Message<A>) -> bool
    ensures { result ≡ may_go rule request.now }
{
    request.method().unwrap_or(b"") != b"ACK".as_slice() || goes_unasked(rule)
}

/// Whether a user has a location, or one of these bindings.
fn is_reached<A: Allocator + Clone>(setup: &Setup<A>, user: &[u8], held: &UserBindings<A>) -> bool
    ensures { result ≡ (not (is_none_of (proxy.locations_of user.now setup.now.locations)) || not (is_none_of held.now)) }
{
    has_location(setup, user) || !held.is_empty()
}

/// Whether it counts whether the user of a request has a place: its sender is not trusted, and strangers are served.
fn counts(trusted: bool, serves_strangers: bool) -> bool
    ensures { result ≡ (not trusted && serves_strangers) }
{
    !trusted && serves_strangers
}

/// A request that is opened by a rule and is for a place, and the service that it comes to.
#[derive(Drop)]
struct Opening<'a, A: Allocator + Clone> {
    view: &'a ServiceView<'a, A>,
    alloc: &'a A,
    setup: &'a Setup<A>,
    rule: Rule,
    request: &'a Message<A>,
    source: Hop,
    place: &'a Place<A>,
}

impl<A: Allocator + Clone> OpensBy<A> for Opening<'_, A> {
    ghost use Rattle.service_decisions.specs.SeenPlace.{seen_place};
    ghost use Rattle.service_decisions.specs.SeenServing.{serving_of};
    ghost use Rattle.service_decisions.specs.Served.{opened_at};

    ghost standing = { λ o. o.setup.now };

    ghost setup = { λ o held. opened_at (serving_of o.view.now) o.setup.now o.rule o.request.now o.source (seen_place o.place.now) held };

    fn decision(&self, held: &UserBindings<A>) -> Result<Decision<A>, AllocError> {
        self.view.opened_while(self, held)
    }
}

impl<'a, A: Allocator + Clone> ServiceView<'a, A> {
    /// By which setup a request is opened while so much is bound to its user.
    fn opened_while(
        &self,
        opening: &Opening<'_, A>,
        held: &UserBindings<A>,
    ) -> Result<Decision<A>, AllocError>
        ensures { IfOk result (λ decision. seen_decision opening.now.setup.now decision
            ≡ dispatch.Opens (opened_at (serving_of self.now) opening.now.setup.now opening.now.rule opening.now.request.now opening.now.source (seen_place opening.now.place.now) held.now)) }
    {
        let contacts = contacts_of(opening.alloc.clone()?, held, self.moment)?;
        let by_gateways = self.by_gateways(opening.rule, opening.source, opening.place);
        let decision = setup_for(
            opening.alloc.clone()?,
            opening.setup,
            self.settings.gateways(),
            by_gateways,
            opening.place,
            &contacts,
            self.token(),
            opening.request,
        )?;
        Ok(decision)
    }

    /// The realm that credentials are asked for, where there is one and there are users.
    pub(crate) fn realm(&self) -> Option<RealmSecrets<'a, A>>
        ensures { option_map seen_realm result ≡ realm_at (serving_of self.now) }
    {
        match (self.settings.realm(), self.users) {
            (Some(realm), Some(users)) => {
                RealmSecrets::new(realm.text, realm.algorithms, users, self.secret)
            }
            _ => None,
        }
    }

    /// The URIs that are its own.
    pub(crate) fn domain<'r>(&self, setup: &'r Setup<A>) -> Domain<'r>
        ensures { IsDomainOf setup.now result }
    {
        Domain {
            name: setup.domain(),
            own: setup.own(),
            route: setup.route(),
            by_port: setup.by_port(),
            streams: setup.has_streams(),
        }
    }

    /// Whom it serves.
    fn admission<'r>(
        &'r self,
        setup: &'r Setup<A>,
        realm: Option<&'r RealmSecrets<'r, A>>,
    ) -> CallAdmission<'r, A>
        ensures { (domain : Domain) × IsDomainOf setup.now domain × (seen_admission result ≡ record (admission_of (serving_of self.now) domain) { realm = realm_if_any realm.entry }) }
    {
        CallAdmission {
            domain: self.domain(setup),
            realm,
            secret: self.secret,
            serves_strangers: self.settings.serves_strangers(),
        }
    }

    /// The bindings of a user that are there. Where nothing was ever bound, no lock is taken.
    fn held<R: Wait>(&self, rt: &R, alloc: &A, user: &[u8]) -> Result<UserBindings<A>, AllocError>
        ensures { IfOk result (λ copies. (held : List Binding) × (copies ≡ there self.now.moment held)) }
    {
        if !self.has_bindings {
            return Ok(UserBindings::new(alloc.clone()?));
        }
        self.bindings.there(rt, user, self.moment)
    }

    /// Whether each request that is opened is opened by the setup as it stands, with the token of its dialog: nothing is bound, and there is
    /// no gateway.
    fn is_plain(&self) -> bool
        ensures { IsTrue result → IsPlain (serving_of self.now) }
    {
        !self.has_bindings && self.settings.gateways().is_empty()
    }

    /// Whether a user has a location, or a binding that is there.
    fn has_user<R: Wait>(
        &self,
        rt: &R,
        alloc: &A,
        setup: &Setup<A>,
        user: &[u8],
    ) -> Result<bool, AllocError>
        ensures { IfOk result (λ is. (held : List Binding) × (is ≡ has_place_at setup.now (OfUser user.now) self.now.moment held)) }
    {
        let held = self.held(rt, alloc, user)?;
        Ok(is_reached(setup, user, &held))
    }

    /// Whether the user whose bindings count at a place has a location, or a binding that is there.
    fn has_place_at<R: Wait>(
        &self,
        rt: &R,
        alloc: &A,
        setup: &Setup<A>,
        place: &Place<A>,
    ) -> Result<bool, AllocError>
        ensures { IfOk result (λ is. (held : List Binding) × (is ≡ has_place_at setup.now (seen_place place.now) self.now.moment held)) }
    {
        match place {
            Place::OfUser(user) => self.has_user(rt, alloc, setup, user),
            Place::Beyond(_) => Ok(false),
            Place::Nowhere => Ok(false),
        }
    }

    /// Whether the user that a request is for has a location, or a binding that is there.
    fn has_place<R: Wait>(
        &self,
        rt: &R,
        alloc: &A,
        setup: &Setup<A>,
        request: &Message<A>,
    ) -> Result<bool, AllocError>
        ensures { IfOk result (λ is. (held : List Binding) × (is ≡ has_place_at setup.now (place_of setup.now rules.Stranger request.now) self.now.moment held)) }
    {
        let place = place_of(alloc.clone()?, setup, Rule::Stranger, request)?;
        let has_place = self.has_place_at(rt, alloc, setup, &place)?;
        Ok(has_place)
    }

    /// The same where it counts.
    fn has_place_if<R: Wait>(
        &self,
        rt: &R,
        alloc: &A,
        setup: &Setup<A>,
        request: &Message<A>,
        counts: bool,
    ) -> Result<bool, AllocError>
        ensures { IfOk result (λ is. (held : List Binding) × (is ≡ (counts && has_place_at setup.now (place_of setup.now rules.Stranger request.now) self.now.moment held))) }
    {
        if counts {
            self.has_place(rt, alloc, setup, request)
        } else {
            Ok(false)
        }
    }

    /// Where a request comes from: whether its user has a place counts where strangers are served alone, and is looked at there alone.
    fn arrival<R: Wait>(
        &self,
        rt: &R,
        alloc: &A,
        setup: &Setup<A>,
        request: &Message<A>,
        source: Hop,
    ) -> Result<Arrival, AllocError>
        ensures { IfOk result (λ arrival. (held : List Binding) × (arrival ≡ arrival_of (serving_of self.now) setup.now request.now source held)) }
    {
        let trusted = self.settings.is_trusted(source.addr);
        let counts = counts(trusted, self.settings.serves_strangers());
        let has_place = self.has_place_if(rt, alloc, setup, request, counts)?;
        Ok(Arrival {
            source,
            second: self.second,
            trusted,
            refusal: None,
            has_place,
        })
    }

    /// Whether a place may be reached by gateways: its user has no password here.
    fn may_be_abroad(&self, place: &Place<A>) -> bool
        ensures { result ≡ may_be_abroad (serving_of self.now) (seen_place place.now) }
    {
        match (place, self.users) {
            (Place::OfUser(_), None) => true,
            (Place::OfUser(user), Some(users)) => users.secrets(user).is_none(),
            (Place::Beyond(_) | Place::Nowhere, _) => false,
        }
    }

    /// What the token of a dialog is made with that a request opens, where there is a realm.
    fn token(&self) -> Option<DialogToken>
        ensures { result ≡ (serving_of self.now).token }
    {
        match self.settings.realm() {
            None => None,
            Some(_) => Some(DialogToken {
                secret: *self.secret,
                second: self.second,
            }),
        }
    }

    /// Whether there are gateways.
    fn has_gateways(&self) -> bool
        ensures { result ≡ not (is_none_of (serving_of self.now).settings.gateways) }
    {
        !self.settings.gateways().is_empty()
    }

    /// Whether there are gateways, and they may be used for a request that is opened by this rule, came from there, and is for a place.
    fn by_gateways(&self, rule: Rule, source: Hop, place: &Place<A>) -> bool
        ensures { result ≡ by_gateways (serving_of self.now) rule source (seen_place place.now) }
    {
        self.has_gateways()
            && (may_use_gateways(self.settings, rule, source) && self.may_be_abroad(place))
    }

    /// By which setup a request is opened that is for this place. Where nothing was ever bound, no lock is taken.
    fn opened_at<R: Wait>(
        &self,
        rt: &R,
        alloc: &A,
        setup: &Setup<A>,
        rule: Rule,
        request: &Message<A>,
        source: Hop,
        place: &Place<A>,
    ) -> Result<Decision<A>, AllocError>
        ensures { IfOk result (λ decision. (held : List Binding) × (seen_decision setup.now decision
            ≡ dispatch.Opens (opened_at (serving_of self.now) setup.now rule request.now source (seen_place place.now) held))) }
    {
        let opening = Opening {
            view: self,
            alloc,
            setup,
            rule,
            request,
            source,
            place,
        };
        if !self.has_bindings {
            let none = UserBindings::new(alloc.clone()?);
            let decision = opening.decision(&none)?;
            return Ok(decision);
        }
        let user = user_at(place).unwrap_or(b"");
        let decision = decision_by(rt, self.bindings, alloc, user, &opening)?;
        Ok(decision)
    }

    /// What becomes of a request that is opened by this rule.
    fn opened<R: Wait>(
        &self,
        rt: &R,
        alloc: &A,
        setup: &Setup<A>,
        rule: Rule,
        request: &Message<A>,
        source: Hop,
    ) -> Result<Decision<A>, AllocError>
        ensures { IfOk result (λ decision. (held : List Binding) × (seen_decision setup.now decision ≡ dispatch.Opens (opened_by (serving_of self.now) setup.now rule request.now source held))) }
    {
        if self.is_plain() {
            return Ok(opens_standing(token_for(self.token(), request)));
        }
        let place = place_of(alloc.clone()?, setup, rule, request)?;
        let decision = self.opened_at(rt, alloc, setup, rule, request, source, &place)?;
        Ok(decision)
    }

    /// What becomes of a request that is opened by this rule, or goes no further by it.
    fn opened_if<R: Wait>(
        &self,
        rt: &R,
        alloc: &A,
        setup: &Setup<A>,
        rule: Rule,
        request: &Message<A>,
        source: Hop,
    ) -> Result<Decision<A>, AllocError>
        ensures { IfOk result (λ decision. IsOpenedBy (may_go rule request.now) (serving_of self.now) setup.now rule request.now source (seen_decision setup.now decision)) }
    {
        if !may_go(rule, request) {
            return Ok(Decision::Leaves);
        }
        self.opened(rt, alloc, setup, rule, request, source)
    }

    /// What is decided of a request of whose sender this is decided.
    fn decided_by<R: Wait>(
        &self,
        rt: &R,
        alloc: &A,
        setup: &Setup<A>,
        request: &Message<A>,
        source: Hop,
        by: SenderDecision<A>,
    ) -> Result<Decided<A>, AllocError>
        ensures { IfOk result (λ decided. IsServedBy (serving_of self.now) setup.now request.now source (of_sender by) (seen_decision setup.now decided.decision) (option_map (λ n. n.items) decided.noted)) }
    {
        match by {
            SenderDecision::Registers => Ok(Decided {
                decision: Decision::Leaves,
                noted: None,
            }),
            SenderDecision::Opens(rule) => {
                let decision = self.opened_if(rt, alloc, setup, rule, request, source)?;
                Ok(Decided {
                    decision,
                    noted: None,
                })
            }
            SenderDecision::Turned(answer, noted) => Ok(Decided {
                decision: Decision::Answers(answer),
                noted,
            }),
        }
    }

    /// What is decided of a request that may open a call, and came from there (RFC 3261 sections 16.3 and 22.3). A REGISTER for the domain
    /// is for the registrar; an ACK goes on for one who is trusted, or within a dialog, alone.
    ///
    /// # Errors
    ///
    /// Only where the allocator refuses.
    pub fn decide<R: Wait>(
        &self,
        rt: &R,
        alloc: &A,
        setup: &Setup<A>,
        request: &Message<A>,
        source: Hop,
    ) -> Result<Decided<A>, AllocError>
        ensures { IfOk result (λ decided. IsServed (serving_of self.now) setup.now request.now source (seen_decision setup.now decided.decision) (option_map (λ n. n.items) decided.noted)) }
    {
        let realm = self.realm();
        let admission = self.admission(setup, realm.as_ref());
        let arrival = self.arrival(rt, alloc, setup, request, source)?;
        let by = decision_of(alloc.clone()?, &admission, arrival, request)?;
        let decided = self.decided_by(rt, alloc, setup, request, source, by)?;
        Ok(decided)
    }
}
