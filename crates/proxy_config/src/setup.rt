//! What a proxy is set up with.
ghost use Rattle.std.specs.Prelude.{◌≡◌, ◌≤◌, IfOk, IfErr, Ok, Some, IsTrue, true};
ghost use Rattle.std.specs.Option.{option_copied, option_map};
ghost use Rattle.sip_uri.specs.Host.{is_host};
ghost use Rattle.proxy_config.specs.Configuration.{IsConfiguration};
ghost use Rattle.proxy_config.specs.ReadView.{GivesSetup, IsFaultOf};
ghost use Rattle.proxy_config.specs.Setup as spec;
ghost use Rattle.proxy_config.specs.Moment.{at_moment, with_ways};
ghost use Rattle.proxy_config.specs.Setup.{KeepsRulesWith, locations_of, route_of, with_ring};
ghost use Rattle.proxy_config.specs.Ways.{way_to};
ghost use Rattle.proxy_config.specs.inner.WaysInside.{ways_in};

use crate::bound_contact::BoundContact;
use crate::dialog_token::DialogToken;
use crate::draft::read_all;
use crate::fault::SetupFault;
use crate::listed::ListedLocations;
use crate::location::Location;
use crate::moment::{locations_of_user, with_contacts};
use crate::user_locations::UserLocations;
use crate::way::{Way, last_way, ways_to};
use fork_rank::Rules;
use sip_uri::{Hop, SipUri};
use sip_via::Own;
use std::alloc::{AllocError, Allocator, Global};
use std::marker::Model;

/// What a proxy is set up with. `read` makes one, and `with_own_port`, `for_a_service`, `ringing`, `recording`, `stamping`,
/// `recording_as`, `giving_reasons`, `with_streams`, `with_large_by_streams`, `of_realm`, `with_token`, `at_moment` and `with_ways` others of it.
#[derive(Drop)]
pub struct Setup<A: Allocator = Global> {
    pub(crate) own: Own,
    pub(crate) instance: u32,
    pub(crate) domain: Vec<u8, A>,
    pub(crate) rules: Rules,
    pub(crate) locations: ListedLocations<A>,
    pub(crate) by_port: bool,
    pub(crate) for_service: bool,
    pub(crate) ring: u64,
    pub(crate) records: bool,
    pub(crate) stamps: bool,
    pub(crate) reasons: bool,
    pub(crate) streams: bool,
    pub(crate) large: bool,
    pub(crate) ways: Option<Vec<Way<A>, A>>,
    pub(crate) realm: Option<Vec<u8, A>>,
    pub(crate) token: Option<DialogToken>,
    pub(crate) route: Option<Own>,
}

impl<A: Allocator> Model for Setup<A> {
    ghost use Rattle.std.specs.Option.{option_map};
    ghost use Rattle.proxy_config.specs.Setup as spec;
    ghost use Rattle.proxy_config.specs.Setup.{IsKeptWith};
    ghost use Rattle.proxy_config.specs.inner.WaysInside.{ways_in};

    ghost Value = { spec.Setup };

    ghost view = { λ s. record {
      own = s.own;
      instance = s.instance;
      domain = s.domain.items;
      rules = s.rules;
      locations = s.locations;
      by_port = s.by_port;
      for_service = s.for_service;
      ring = s.ring;
      records = s.records;
      stamps = s.stamps;
      reasons = s.reasons;
      streams = s.streams;
      large = s.large;
      ways = ways_in s.ways;
      realm = option_map (λ r. r.items) s.realm;
      token = s.token;
      route = s.route;
    } };

    ghost invariant = { λ s. IsKeptWith s.streams s.own s.domain.items s.locations };
}

impl<A: Allocator> Setup<A> {
    /// The address and the port that the proxy receives at.
    pub fn own(&self) -> Own
        ensures value { result ≡ self.now.own }
        ensures port { 1 ≤ result.port }
    {
        self.own
    }

    /// The number that tells this run of the proxy from its others.
    pub fn instance(&self) -> u32
        ensures { result ≡ self.now.instance }
    {
        self.instance
    }

    /// The domain that the proxy answers for (RFC 3261 section 16.5).
    pub fn domain(&self) -> &[u8]
        ensures value { result.now ≡ self.now.domain }
        ensures host { IsTrue (is_host self.now.domain) }
    {
        &self.domain
    }

    /// The rules of its forks (RFC 3261 sections 16.5 and 16.7).
    pub fn rules(&self) -> Rules
        ensures { result ≡ self.now.rules }
    {
        self.rules
    }

    /// Where the users of the domain may be reached, in the order of the text.
    pub fn locations(&self) -> &[Location<A>]
        ensures value { result.now ≡ self.now.locations }
        // A request can be sent to each location; no user has one target twice, or more than may be tried.
        ensures rules { KeepsRulesWith self.now.streams self.now.locations }
    {
        self.locations.as_slice()
    }

    /// Whether the own address counts as the domain with the own port alone, or else with any port (RFC 3261 section 16.5).
    pub fn by_port(&self) -> bool
        ensures { result ≡ self.now.by_port }
    {
        self.by_port
    }

    /// The same setup, but with the own address counting as the domain with the own port alone: so requests reach telephones
    /// that are at other ports of that address (RFC 3261 section 16.5).
    pub fn with_own_port(mut self) -> Setup<A>
        ensures { result ≡ record self { by_port = true } }
    {
        self.by_port = true;
        self
    }

    /// Whether the proxy is a service, which takes every Route value at the front away that leads to it, and not the first
    /// alone (RFC 3261 section 16.4).
    pub fn is_for_a_service(&self) -> bool
        ensures { result ≡ self.now.for_service }
    {
        self.for_service
    }

    /// The same setup, but of a service: every Route value at the front of a request that leads to the proxy is taken away
    /// before the request is sent on, and not the first alone (RFC 3261 section 16.4). So no request goes from the proxy to the
    /// proxy itself by a Route value, however many of them a sender writes.
    pub fn for_a_service(mut self) -> Setup<A>
        ensures { result ≡ record self { for_service = true } }
    {
        self.for_service = true;
        self
    }

    /// How long a branch to a target that is no location rings at most, in milliseconds: to the Request-URI itself, and to the
    /// contacts of a 3xx (RFC 3261 section 16.6 step 11).
    pub fn ring(&self) -> u64
        ensures { result ≡ self.now.ring }
    {
        self.ring
    }

    /// The same setup, but a branch rings for so many milliseconds at most, then timer C fires (RFC 3261 section 16.6 step 11):
    /// a branch to a location that has the usual longest time, 181,000 ms, and to any target that is no location.
    pub fn ringing(mut self, longest: u64) -> Setup<A>
        ensures { result ≡ with_ring longest self }
    {
        self.ring = longest;
        self.locations.ring(longest);
        self
    }

    /// Whether a request that opens a dialog gets a Record-Route line of the proxy, so that the requests within the dialog come
    /// this way, too (RFC 3261 section 16.6 step 4).
    pub fn records(&self) -> bool
        ensures { result ≡ self.now.records }
    {
        self.records
    }

    /// The same setup, but with a Record-Route line in each request that opens a dialog (RFC 3261 section 16.6 step 4).
    pub fn recording(mut self) -> Setup<A>
        ensures { result ≡ record self { records = true } }
    {
        self.records = true;
        self
    }

    /// The address and the port that its Record-Route line names (RFC 3261 section 16.6 step 4). A Route value that leads there is its own, as
    /// one is that leads to the address that it receives at.
    pub fn route(&self) -> Own
        ensures { result ≡ route_of self.now }
    {
        self.route.unwrap_or(self.own)
    }

    /// The same setup, but its Record-Route line names this address and port, which are those of a front, or of several proxies (RFC 3261
    /// section 16.6 step 4): a Route value that leads there is the proxy's own, too.
    pub fn recording_as(mut self, route: Own) -> Setup<A>
        ensures { result ≡ record self { route = Some route } }
    {
        self.route = Some(route);
        self
    }

    /// Whether a 100 of the proxy gets the Timestamp line of its request (RFC 3261 section 8.2.6.1).
    pub fn stamps(&self) -> bool
        ensures { result ≡ self.now.stamps }
    {
        self.stamps
    }

    /// The same setup, but with the Timestamp line of its request in each 100 of the proxy (RFC 3261 section 8.2.6.1).
    pub fn stamping(mut self) -> Setup<A>
        ensures { result ≡ record self { stamps = true } }
    {
        self.stamps = true;
        self
    }

    /// Whether a CANCEL says why its branch is cancelled, in Reason lines (RFC 3326).
    pub fn gives_reasons(&self) -> bool
        ensures { result ≡ self.now.reasons }
    {
        self.reasons
    }

    /// The same setup, but with Reason lines in CANCELs (RFC 3326).
    pub fn giving_reasons(mut self) -> Setup<A>
        ensures { result ≡ record self { reasons = true } }
    {
        self.reasons = true;
        self
    }

    /// Whether the proxy has connections, so that requests may go over TCP (RFC 3261 section 18).
    pub fn has_streams(&self) -> bool
        ensures { result ≡ self.now.streams }
    {
        self.streams
    }

    /// The same setup, but of a proxy that has connections: so requests may go over TCP (RFC 3261 section 18).
    pub fn with_streams(mut self) -> Setup<A>
        ensures { result ≡ record self { streams = true } }
    {
        self.streams = true;
        self
    }

    /// Whether requests that are too large for datagrams go over TCP, where there are connections (RFC 3261 section 18.1.1).
    pub fn is_large_by_streams(&self) -> bool
        ensures { result ≡ self.now.large }
    {
        self.large
    }

    /// The same setup, but where there are connections requests that are too large for datagrams go over TCP (RFC 3261 section 18.1.1).
    pub fn with_large_by_streams(mut self) -> Setup<A>
        ensures { result ≡ record self { large = true } }
    {
        self.large = true;
        self
    }

    /// The realm of the proxy, if it has one: credentials for it do not go on with a request (RFC 3261 section 22.3).
    pub fn realm(&self) -> Option<&[u8]>
        ensures { option_copied result ≡ self.now.realm }
    {
        match &self.realm {
            None => None,
            Some(realm) => Some(realm.as_slice()),
        }
    }

    /// The same setup, but of a proxy with this realm: credentials for it do not go on with a request (RFC 3261 section 22.3).
    pub fn of_realm(mut self, realm: Vec<u8, A>) -> Setup<A>
        ensures { result ≡ record self { realm = Some realm.items } }
    {
        self.realm = Some(realm);
        self
    }

    /// What the token in the Record-Route line of a request that opens a dialog is made with, if there is one in it.
    pub fn token(&self) -> Option<DialogToken>
        ensures { result ≡ self.now.token }
    {
        self.token
    }

    /// The same setup, but with a token in the Record-Route line of each request that opens a dialog.
    pub fn with_token(mut self, token: DialogToken) -> Setup<A>
        ensures { result ≡ record self { token = Some token } }
    {
        self.token = Some(token);
        self
    }
}

impl<A: Allocator + Clone> Setup<A> {
    /// Where a user of the domain may be reached, in the order of the text (RFC 3261 section 16.5). The user is looked up in an
    /// index by user, so that the locations of others are not gone through.
    pub fn locations_of(&self, user: &[u8]) -> UserLocations<'_, A>
        ensures { result ≡ locations_of user.now self.now.locations }
    {
        self.locations.of(user)
    }

    /// The hop by which a URI outside of the domain is reached where no Route value leads on, if that is another one than its own
    /// (RFC 3261 section 16.6 step 7).
    pub fn way_to(&self, uri: &SipUri<A>) -> Option<Hop>
        ensures { result ≡ way_to self.now.ways uri.now }
    {
        match &self.ways {
            None => None,
            Some(ways) => last_way(ways, uri.key()),
        }
    }

    /// The same setup, but with these locations and ways alone.
    fn with_places(
        &self,
        alloc: A,
        locations: ListedLocations<A>,
        ways: Option<Vec<Way<A>, A>>,
    ) -> Result<Setup<A>, AllocError>
        requires { KeepsRulesWith self.now.streams locations }
        ensures { IfOk result (λ setup. setup ≡ record self.now { locations = locations; ways = ways_in ways }) }
    {
        let domain = Vec::from_slice(alloc.clone()?, &self.domain)?;
        let realm = match &self.realm {
            None => None,
            Some(realm) => Some(Vec::from_slice(alloc, realm)?),
        };
        Ok(Setup {
            own: self.own,
            instance: self.instance,
            domain,
            rules: self.rules,
            locations,
            by_port: self.by_port,
            for_service: self.for_service,
            ring: self.ring,
            records: self.records,
            stamps: self.stamps,
            reasons: self.reasons,
            streams: self.streams,
            large: self.large,
            ways,
            realm,
            token: self.token,
            route: self.route,
        })
    }

    /// The setup for a request to a user of the domain, to whom these contacts are bound (RFC 3261 sections 10 and 16.5): its
    /// locations are those of the user, with their URIs as they stand in a request, and behind them the contacts, each whose URI
    /// can be read, that a request can be sent to, and that is not among those before it, as many as may be tried. Requests to a
    /// contact go by its hop, and it rings as long as any target that is no location of the text.
    ///
    /// # Errors
    ///
    /// Only where the allocator refuses.
    pub fn at_moment(
        &self,
        alloc: A,
        user: &[u8],
        contacts: &[BoundContact<'_>],
    ) -> Result<Setup<A>, AllocError>
        ensures { IfOk result (λ setup. setup ≡ at_moment user.now contacts.now self.now) }
    {
        let own = locations_of_user(&alloc, self.streams, &self.locations, user)?;
        let places = with_contacts(&alloc, self.streams, user, self.ring, own, contacts)?;
        self.with_places(alloc, places, None)
    }

    /// The setup for a request to a URI that is not of the domain, by a sender or to a user of the domain to whom these contacts are
    /// bound: where the URI has the key of one of them, and no Route value leads on, the request goes by the hop of that contact, of
    /// several by that of the last (RFC 3261 section 16.6 step 7). So it reaches a contact whose address leads nowhere from here.
    ///
    /// # Errors
    ///
    /// Only where the allocator refuses.
    #[tactic(auto, using(crate::proofs::WaysMade::with_ways_made))]
    pub fn with_ways(&self, alloc: A, contacts: &[BoundContact<'_>]) -> Result<Setup<A>, AllocError>
        ensures { IfOk result (λ setup. setup ≡ with_ways contacts.now self.now) }
    {
        let ways = ways_to(&alloc, contacts)?;
        let none = ListedLocations::new(&alloc)?;
        self.with_places(alloc, none, Some(ways))
    }

    /// The setup that a text spells. Its lines, each ended by LF: `own ADDRESS PORT`; `instance NUMBER`; `domain HOST`;
    /// `prefer LIST` and `depth STEPS`, each of which may be left out, and then the usual rule holds; and any number of
    /// `location USER Q URI`. An own address 0.0.0.0 is malformed, for no answer could come back to it. So is a location that
    /// no request can be sent to over UDP, and one whose user has the same target already, or as many locations as may be tried.
    /// The own address counts as the domain with any port, and its Via values are of UDP. Each branch rings for 181,000 ms at
    /// most, no Record-Route, Timestamp or Reason line is added, one would name the own address, nothing goes over TCP, and it has no ways and no realm.
    ///
    /// # Errors
    ///
    /// `Line`: the first malformed line, counted from 1, a missing one by the number that it would have. `NoMemory`: a
    /// growth was refused; whether a line behind is malformed was not looked at then.
    pub fn read(alloc: A, text: &[u8]) -> Result<Setup<A>, SetupFault>
        ensures found { IfOk result (IsConfiguration text.now) }
        ensures only { (setup : spec.Setup) → IsConfiguration text.now setup → GivesSetup (Ok setup) result }
        ensures fault { IfErr result (IsFaultOf text.now) }
    {
        read_all(&alloc, text)
    }
}
