//! A setup in the making.
ghost use Rattle.std.specs.Prelude.{◌≡◌, ◌≤◌, true, IfOk, Some, None, if◌then◌else◌};
ghost use Rattle.std.specs.Option.{option_map};
ghost use Rattle.sip_uri.specs.Reading.{read_uri};
ghost use Rattle.fork_rank.specs.Field.{most_q};
ghost use Rattle.proxy_config.specs.Line.{IsLine};
ghost use Rattle.proxy_config.specs.LineView.{line_of};
ghost use Rattle.proxy_config.specs.Parts.{no_setup, uri_if, with_line, with_location};
ghost use Rattle.proxy_config.specs.Setup.{IsKeptWith};

use crate::line::SetupLine;
use crate::listed::ListedLocations;
use crate::location::{Location, USUAL_LONGEST};
use crate::setup::Setup;
use fork_rank::{Rules, with_depth, with_preferred};
use sip_uri::{SipUri, UriFault};
use sip_via::Own;
use std::alloc::{AllocError, Allocator, Global};
use std::marker::Model;

/// The URI that a text spells, if it spells one.
///
/// # Errors
///
/// Only where the allocator refuses.
pub fn uri_if<A: Allocator + Clone>(alloc: &A, text: &[u8]) -> Result<Option<SipUri<A>>, AllocError>
    ensures { IfOk result (λ uri. uri ≡ uri_if (read_uri text.now)) }
{
    match SipUri::read(alloc.clone()?, text) {
        Ok(uri) => Ok(Some(uri)),
        Err(UriFault::NoMemory) => Err(AllocError),
        Err(_) => Ok(None),
    }
}

/// What the lines so far have set. `Setup::read` goes by one; a text of further lines, which is read elsewhere, hands it those
/// that it shares with that of a setup.
#[derive(Drop)]
pub struct SetupParts<A: Allocator = Global> {
    own: Own,
    instance: u32,
    domain: Vec<u8, A>,
    rules: Rules,
    locations: ListedLocations<A>,
    ring: u64,
    streams: bool,
    large: bool,
}

impl<A: Allocator> Model for SetupParts<A> {
    ghost use Rattle.std.specs.Prelude.{[], None, false};
    ghost use Rattle.proxy_config.specs.Setup as spec;

    ghost Value = { spec.Setup };

    ghost view = { λ p. record {
      own = p.own;
      instance = p.instance;
      domain = p.domain.items;
      rules = p.rules;
      locations = p.locations;
      by_port = false;
      for_service = false;
      ring = p.ring;
      records = false;
      stamps = false;
      reasons = false;
      streams = p.streams;
      large = p.large;
      ways = [];
      realm = None;
      token = None;
      route = None;
    } };
}

impl<A: Allocator> SetupParts<A> {
    /// This number tells the run of the proxy from its others.
    pub fn set_instance(&mut self, instance: u32)
        ensures { self.new ≡ record self.old { instance = instance } }
    {
        self.instance = instance;
    }

    /// How long a branch to a target that is no location rings at most, in milliseconds (RFC 3261 section 16.6 step 11).
    pub fn ring(&self) -> u64
        ensures { result ≡ self.now.ring }
    {
        self.ring
    }

    /// A branch to a target that is no location rings for so many milliseconds at most (RFC 3261 section 16.6 step 11).
    pub fn set_ring(&mut self, longest: u64)
        ensures { self.new ≡ record self.old { ring = longest } }
    {
        self.ring = longest;
    }

    /// Whether the proxy has connections, so that a location may be reached over TCP (RFC 3261 section 18).
    pub fn has_streams(&self) -> bool
        ensures { result ≡ self.now.streams }
    {
        self.streams
    }

    /// Sets whether the proxy has connections, so that a location may be reached over TCP (RFC 3261 section 18).
    pub fn set_streams(&mut self, streams: bool)
        ensures { self.new ≡ record self.old { streams = streams } }
    {
        self.streams = streams;
    }

    /// Requests that are too large for datagrams go over TCP, where there are connections (RFC 3261 section 18.1.1).
    pub fn set_large(&mut self)
        ensures { self.new ≡ record self.old { large = true } }
    {
        self.large = true;
    }
}

impl<A: Allocator + Clone> SetupParts<A> {
    /// No line was read.
    ///
    /// # Errors
    ///
    /// Only where the allocator refuses.
    pub fn new(alloc: &A) -> Result<Self, AllocError>
        ensures { IfOk result (λ parts. parts ≡ no_setup) }
    {
        Ok(SetupParts {
            own: Own::over_udp([0, 0, 0, 0], 0),
            instance: 0,
            domain: Vec::new(alloc.clone()?),
            rules: Rules::usual(),
            locations: ListedLocations::new(alloc)?,
            ring: USUAL_LONGEST,
            streams: false,
            large: false,
        })
    }

    /// Adds the location that a user, a q of at most 1000, the text of a URI and a longest time in milliseconds make, and answers
    /// whether they make one that may stand here: one that is reached over TCP only where the proxy has connections.
    ///
    /// # Errors
    ///
    /// Only where the allocator refuses.
    pub fn add_location(
        &mut self,
        alloc: &A,
        user: &[u8],
        q: u16,
        uri: &[u8],
        longest: u64,
    ) -> Result<bool, AllocError>
        requires { q ≤ most_q }
        ensures { IfOk result (λ done.
            (if done then Some self.new else None)
            ≡ option_map (λ locations. record self.old { locations = locations })
            (with_location self.old.streams self.old.locations user.now q uri.now longest)) }
    {
        let Some(uri) = uri_if(alloc, uri)? else {
            return Ok(false);
        };
        let user = user.to_vec(alloc.clone()?)?;
        self.locations
            .push(alloc, self.streams, Location::new(user, q, uri, longest))
    }

    /// Adds what a line says, and answers whether that may stand here. In which order lines come is looked at elsewhere.
    ///
    /// # Errors
    ///
    /// Only where the allocator refuses.
    pub fn add(&mut self, alloc: &A, line: SetupLine<'_>) -> Result<bool, AllocError>
        requires { IsLine (line_of line) }
        ensures { IfOk result (λ done. (if done then Some self.new else None) ≡ with_line self.old (line_of line.entry)) }
    {
        match line {
            SetupLine::Own(own) => self.own = own,
            SetupLine::Instance(instance) => self.instance = instance,
            SetupLine::Domain(host) => self.domain = host.to_vec(alloc.clone()?)?,
            SetupLine::Prefer(preferred) => self.rules = with_preferred(self.rules, preferred),
            SetupLine::Depth(depth) => self.rules = with_depth(self.rules, depth),
            SetupLine::Location(user, q, uri) => {
                return self.add_location(alloc, user, q, uri, USUAL_LONGEST);
            }
        }
        Ok(true)
    }

    /// The setup that the lines make, where all that a setup has to be is so.
    pub fn into_setup(self) -> Setup<A>
        requires { IsKeptWith self.streams self.own self.domain self.locations }
        ensures { result ≡ self }
    {
        Setup {
            own: self.own,
            instance: self.instance,
            domain: self.domain,
            rules: self.rules,
            locations: self.locations,
            by_port: false,
            for_service: false,
            ring: self.ring,
            records: false,
            stamps: false,
            reasons: false,
            streams: self.streams,
            large: self.large,
            ways: None,
            realm: None,
            token: None,
            route: None,
        }
    }
}
