//! Settings in the making.
ghost use Rattle.std.specs.Prelude.{◌≡◌, ◌≤◌, ◌++◌, ◌∷◌, [], true, IfOk, Some, None, if◌then◌else◌};
ghost use Rattle.std.specs.Option.{option_map};
ghost use Rattle.fork_rank.specs.Field.{most_q};
ghost use Rattle.service_config.specs.Line.{HasParts};
ghost use Rattle.service_config.specs.Settings.{algorithms_or_md5, gateway_added, longest_of, no_settings, with_gateway, with_line, with_location};
ghost use Rattle.service_config.specs.inner.LineView.{line_of};

use crate::expirations::Expirations;
use crate::gateway::{Gateway, any_has_hop};
use crate::line::SettingsLine;
use crate::net::Net;
use crate::realm::OwnRealm;
use proxy_config::{SetupParts, uri_if};
use sip_digest::Algorithms;
use std::alloc::{AllocError, Allocator};
use std::marker::Model;

/// How many gateways there are at most.
const MOST_GATEWAYS: usize = 16;

/// For how many seconds telephones register where no line says it.
const USUAL_EXPIRATIONS: Expirations = Expirations {
    least: 60,
    usual: 3_600,
    most: 86_400,
};

/// What the lines so far have set.
#[derive(Drop)]
pub(crate) struct SettingsParts<A: Allocator> {
    pub(crate) setup: SetupParts<A>,
    pub(crate) realm: Option<OwnRealm<A>>,
    pub(crate) expirations: Expirations,
    pub(crate) strangers: bool,
    pub(crate) nets: Vec<Net, A>,
    pub(crate) gateways: Vec<Gateway<A>, A>,
}

impl<A: Allocator> Model for SettingsParts<A> {
    ghost use Rattle.service_config.specs.Settings as spec;

    ghost Value = { spec.Settings };

    ghost view = { λ p. record {
      setup = p.setup;
      realm = p.realm;
      expirations = p.expirations;
      strangers = p.strangers;
      nets = p.nets.items;
      gateways = p.gateways.items;
    } };
}

/// The algorithms that a line names, or MD5.
fn algorithms_or_md5(algorithms: Option<Algorithms>) -> Algorithms
    ensures { result ≡ algorithms_or_md5 algorithms }
{
    match algorithms {
        None => Algorithms::Md5,
        Some(algorithms) => algorithms,
    }
}

/// For how many milliseconds a location rings: as its line says in seconds, or else as all do.
fn longest_of(ring: u64, seconds: Option<u16>) -> u64
    ensures { result ≡ longest_of ring seconds }
{
    match seconds {
        None => ring,
        Some(seconds) => u64::from(seconds) * 1_000,
    }
}

/// Adds a gateway, and answers whether it may stand here: there are none too many, and no other has its hop.
fn add_gateway<A: Allocator>(
    gateways: &mut Vec<Gateway<A>, A>,
    gateway: Gateway<A>,
) -> Result<bool, AllocError>
    ensures { IfOk result (λ done. (if done then Some gateways.new.items else None) ≡ gateway_added gateways.old.items gateway) }
{
    if gateways.len() >= MOST_GATEWAYS || any_has_hop(gateways, gateway.hop()) {
        return Ok(false);
    }
    gateways.push(gateway)?;
    Ok(true)
}

impl<A: Allocator + Clone> SettingsParts<A> {
    /// No line was read, in a run with this number, of a proxy that has connections or none.
    pub(crate) fn new(alloc: &A, number: u32, streams: bool) -> Result<Self, AllocError>
        ensures { IfOk result (λ parts. parts ≡ no_settings number streams) }
    {
        let mut setup = SetupParts::new(alloc)?;
        setup.set_instance(number);
        setup.set_streams(streams);
        Ok(SettingsParts {
            setup,
            realm: None,
            expirations: USUAL_EXPIRATIONS,
            strangers: false,
            nets: Vec::new(alloc.clone()?),
            gateways: Vec::new(alloc.clone()?),
        })
    }

    fn set_realm(&mut self, realm: OwnRealm<A>)
        ensures { self.new ≡ record self.old { realm = Some realm } }
    {
        self.realm = Some(realm);
    }

    fn set_expirations(&mut self, times: Expirations)
        ensures { self.new ≡ record self.old { expirations = times } }
    {
        self.expirations = times;
    }

    fn set_ring(&mut self, longest: u64)
        ensures { self.new ≡ record self.old { setup = record self.old.setup { ring = longest } } }
    {
        self.setup.set_ring(longest);
    }

    fn set_large(&mut self)
        ensures { self.new ≡ record self.old { setup = record self.old.setup { large = true } } }
    {
        self.setup.set_large();
    }

    fn add_net(&mut self, net: Net) -> Result<(), AllocError>
        ensures { IfOk result (λ _. self.new ≡ record self.old { nets = self.old.nets ++ net ∷ [] }) }
    {
        self.nets.push(net)?;
        Ok(())
    }

    /// Adds the location that a line says, and answers whether it may stand here.
    fn add_location(
        &mut self,
        alloc: &A,
        user: &[u8],
        q: u16,
        uri: &[u8],
        seconds: Option<u16>,
    ) -> Result<bool, AllocError>
        requires { q ≤ most_q }
        ensures { IfOk result (λ done. (if done then Some self.new else None) ≡ with_location self.old user.now q uri.now seconds) }
    {
        let longest = longest_of(self.setup.ring(), seconds);
        self.setup.add_location(alloc, user, q, uri, longest)
    }

    /// Adds the gateway that a line says, and answers whether it may stand here.
    fn add_gateway(&mut self, alloc: &A, q: u16, uri: &[u8]) -> Result<bool, AllocError>
        requires { q ≤ most_q }
        ensures { IfOk result (λ done.
            (if done then Some self.new else None)
            ≡ option_map (λ gateways. record self.old { gateways = gateways }) (with_gateway self.old.setup.streams self.old.gateways q uri.now)) }
    {
        let Some(uri) = uri_if(alloc, uri)? else {
            return Ok(false);
        };
        let Some(gateway) = Gateway::of(self.setup.has_streams(), q, uri) else {
            return Ok(false);
        };
        add_gateway(&mut self.gateways, gateway)
    }

    /// Adds what a line says, and answers whether that may stand here.
    pub(crate) fn add(&mut self, alloc: &A, line: SettingsLine<'_>) -> Result<bool, AllocError>
        requires { HasParts (line_of line) }
        ensures { IfOk result (λ done. (if done then Some self.new else None) ≡ with_line self.old (line_of line.entry)) }
    {
        match line {
            SettingsLine::Ring(seconds) => self.set_ring(u64::from(seconds) * 1_000),
            SettingsLine::Large => self.set_large(),
            SettingsLine::Realm(realm, algorithms) => {
                let text = realm.to_vec(alloc.clone()?)?;
                self.set_realm(OwnRealm::new(text, algorithms_or_md5(algorithms)));
            }
            SettingsLine::Expires(times) => self.set_expirations(times),
            SettingsLine::Strangers => self.strangers = true,
            SettingsLine::Trust(net) => self.add_net(net)?,
            SettingsLine::Gateway(q, uri) => return self.add_gateway(alloc, q, uri),
            SettingsLine::Location(user, q, uri, seconds) => {
                return self.add_location(alloc, user, q, uri, seconds);
            }
            SettingsLine::Comment(_) => {}
        }
        Ok(true)
    }
}
