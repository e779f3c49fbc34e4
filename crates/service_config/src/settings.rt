//! What a service is set up with.
ghost use Rattle.std.specs.Prelude.{◌≡◌, IfErr, IfOk, Ok, Some, true};
ghost use Rattle.std.specs.Option.{option_map};
ghost use Rattle.service_config.specs.Configuration.{IsServiceConfiguration};
ghost use Rattle.service_config.specs.Settings as spec;
ghost use Rattle.service_config.specs.Settings.{in_realm, is_in_nets, is_inside, is_of_gateway, is_trusted, of_own_realm, realm_name};
ghost use Rattle.service_config.specs.RealmView.{realm_of};
ghost use Rattle.service_config.specs.ReadView.{GivesSettings, IsFaultOf};

use crate::draft::read_all;
use crate::expirations::Expirations;
use crate::gateway::{Gateway, any_is_at};
use crate::hosts::Hosts;
use crate::net::{LOOPBACK, Net, address_number, any_has};
use crate::realm::{OwnRealm, Realm};
use proxy_config::{Setup, SetupFault};
use sip_via::Own;
use std::alloc::{AllocError, Allocator, Global};
use std::marker::Model;

/// A setup with the realm of this name, if there is one, and then with a Record-Route line in each request that opens a dialog.
fn in_realm<A: Allocator>(setup: Setup<A>, name: Option<Vec<u8, A>>) -> Setup<A>
    ensures { result ≡ in_realm (option_map (λ n. n.items) name) setup }
{
    match name {
        None => setup,
        Some(name) => setup.of_realm(name).recording(),
    }
}

/// What a service is set up with: the setup of its proxy, whom it serves, and by which gateways the world is reached.
#[derive(Drop)]
pub struct ServiceSettings<A: Allocator = Global> {
    pub(crate) setup: Setup<A>,
    pub(crate) realm: Option<OwnRealm<A>>,
    pub(crate) expirations: Expirations,
    pub(crate) strangers: bool,
    pub(crate) nets: Vec<Net, A>,
    pub(crate) gateways: Vec<Gateway<A>, A>,
    pub(crate) hosts: Hosts<A>,
}

impl<A: Allocator> Model for ServiceSettings<A> {
    ghost use Rattle.service_config.specs.Settings as spec;
    ghost use Rattle.service_config.specs.inner.Hosts.{AreHostsOf};

    ghost Value = { spec.Settings };

    ghost view = { λ s. record {
      setup = s.setup;
      realm = s.realm;
      expirations = s.expirations;
      strangers = s.strangers;
      nets = s.nets.items;
      gateways = s.gateways.items;
    } };

    ghost invariant = { λ s. AreHostsOf s.setup.locations s.gateways.items s.hosts };
}

impl<A: Allocator> ServiceSettings<A> {
    /// The setup of the proxy, with how long branches ring.
    pub fn setup(&self) -> &Setup<A>
        ensures { result.now ≡ self.now.setup }
    {
        &self.setup
    }

    /// The setup of the proxy, alone.
    pub fn into_setup(self) -> Setup<A>
        ensures { result ≡ self.setup }
    {
        self.setup
    }

    /// The realm in which passwords are known, if there is one (RFC 3261 section 22.1).
    pub fn realm(&self) -> Option<Realm<'_>>
        ensures { option_map realm_of result ≡ self.now.realm }
    {
        match &self.realm {
            None => None,
            Some(realm) => Some(realm.lent()),
        }
    }

    /// For how long telephones register (RFC 3261 section 10.3 step 7).
    pub fn expirations(&self) -> Expirations
        ensures { result ≡ self.now.expirations }
    {
        self.expirations
    }

    /// Whether those whom nobody knows may call the users of the domain.
    pub fn serves_strangers(&self) -> bool
        ensures { result ≡ self.now.strangers }
    {
        self.strangers
    }

    /// The nets whose senders are trusted, as the lines name them: none where no line does, and then it is this machine's,
    /// 127.0.0.0/8, whose senders are.
    pub fn nets(&self) -> &[Net]
        ensures { result.now ≡ self.now.nets }
    {
        &self.nets
    }

    /// Where requests for users that the domain has not got are sent, in the order of the text.
    pub fn gateways(&self) -> &[Gateway<A>]
        ensures { result.now ≡ self.now.gateways }
    {
        &self.gateways
    }

    fn is_in_nets(&self, addr: [u8; 4]) -> bool
        ensures { result ≡ is_in_nets self.now.nets addr }
    {
        if self.nets.is_empty() {
            LOOPBACK.has(addr)
        } else {
            any_has(&self.nets, addr)
        }
    }

    /// Whether an address is in a net whose senders are trusted, or is the own one.
    pub fn is_inside(&self, addr: [u8; 4]) -> bool
        ensures { result ≡ is_inside self.now addr }
    {
        self.is_in_nets(addr) || address_number(addr) == address_number(self.setup.own().addr)
    }

    /// Whether an address is that of a gateway's hop.
    pub fn is_of_gateway(&self, addr: [u8; 4]) -> bool
        ensures { result ≡ is_of_gateway self.now addr }
    {
        any_is_at(&self.gateways, address_number(addr))
    }

    /// Whether the senders at an address are trusted: it is inside, or that of the hop of a location or a gateway. These are looked
    /// up in an index, so that many locations cost nothing.
    pub fn is_trusted(&self, addr: [u8; 4]) -> bool
        ensures { result ≡ is_trusted self.now addr }
    {
        self.is_inside(addr) || self.hosts.has(address_number(addr))
    }

    /// The same settings, with the setup of a service ([`Setup::for_a_service`]).
    pub fn for_a_service(mut self) -> ServiceSettings<A>
        ensures { result ≡ record self { setup = record self.setup { for_service = true } } }
    {
        self.setup = self.setup.for_a_service();
        self
    }

    /// The same settings, with the setup of [`Setup::with_own_port`].
    pub fn with_own_port(mut self) -> ServiceSettings<A>
        ensures { result ≡ record self { setup = record self.setup { by_port = true } } }
    {
        self.setup = self.setup.with_own_port();
        self
    }

    /// The same settings, with the setup of [`Setup::recording`].
    pub fn recording(mut self) -> ServiceSettings<A>
        ensures { result ≡ record self { setup = record self.setup { records = true } } }
    {
        self.setup = self.setup.recording();
        self
    }

    /// The same settings, with the setup of [`Setup::recording_as`].
    pub fn recording_as(mut self, route: Own) -> ServiceSettings<A>
        ensures { result ≡ record self { setup = record self.setup { route = Some route } } }
    {
        self.setup = self.setup.recording_as(route);
        self
    }

    /// The same settings, with the setup of [`Setup::stamping`].
    pub fn stamping(mut self) -> ServiceSettings<A>
        ensures { result ≡ record self { setup = record self.setup { stamps = true } } }
    {
        self.setup = self.setup.stamping();
        self
    }

    /// The same settings, with the setup of [`Setup::giving_reasons`].
    pub fn giving_reasons(mut self) -> ServiceSettings<A>
        ensures { result ≡ record self { setup = record self.setup { reasons = true } } }
    {
        self.setup = self.setup.giving_reasons();
        self
    }
}

impl<A: Allocator> ServiceSettings<A> {
    /// The name of the realm, if there is one.
    fn realm_name(&self, alloc: A) -> Result<Option<Vec<u8, A>>, AllocError>
        ensures { IfOk result (λ name. option_map (λ n. n.items) name ≡ option_map realm_name self.now.realm) }
    {
        match &self.realm {
            None => Ok(None),
            Some(realm) => Ok(Some(Vec::from_slice(alloc, realm.lent().text)?)),
        }
    }

    /// The same settings, with the setup of a proxy that has their realm, if they have one: credentials for it do not go on with a request
    /// (RFC 3261 section 22.3), and a request that opens a dialog has a Record-Route line, so that those within the dialog come this way,
    /// too (section 16.6 step 4).
    ///
    /// # Errors
    ///
    /// Only where the allocator refuses.
    pub fn of_own_realm(mut self, alloc: A) -> Result<ServiceSettings<A>, AllocError>
        ensures { IfOk result (λ settings. settings ≡ of_own_realm self) }
    {
        let name = self.realm_name(alloc)?;
        self.setup = in_realm(self.setup, name);
        Ok(self)
    }
}

impl<A: Allocator + Clone> ServiceSettings<A> {
    /// The settings that a text spells, in a run with this number, of a proxy that has connections (`streams`) or none. Its lines, each ended by LF, in this order: `own ADDRESS PORT`;
    /// `instance NUMBER`, without which it is the number of the run; `domain HOST`; `prefer LIST`; `depth STEPS`; `ring SECONDS`, 1
    /// to 181, without which it is 181; `large tcp`; `realm TEXT [ALGORITHMS]`; `expires LEAST USUAL MOST`, without which it is 60, 3600 and
    /// 86,400 seconds; `strangers`; any number of `trust A.B.C.D/N`; at most 16 of `gateway Q URI`; and any number of `location USER
    /// Q URI [SECONDS]`, which rings as long as `ring` says where it does not. But for `own` and `domain` each may be left out. An
    /// empty line says nothing, and neither does one that begins with `#`. What is malformed of the lines that a setup has, too, is
    /// so here ([`Setup::read`]), but that a location may be reached over TCP where there are connections; so is a gateway whose URI has
    /// no hop that requests can go by, as that of a location, or has a user, or has the address and the port of another.
    ///
    /// # Errors
    ///
    /// `Line`: the first malformed line, counted from 1 with those that say nothing, a missing one by the number that it would have.
    /// `NoMemory`: a growth was refused; whether a line behind is malformed was not looked at then.
    pub fn read(
        alloc: A,
        text: &[u8],
        number: u32,
        streams: bool,
    ) -> Result<ServiceSettings<A>, SetupFault>
        ensures found { IfOk result (IsServiceConfiguration number streams text.now) }
        ensures only { (settings : spec.Settings) → IsServiceConfiguration number streams text.now settings → GivesSettings (Ok settings) result }
        ensures fault { IfErr result (IsFaultOf number streams text.now) }
    {
        read_all(&alloc, text, number, streams)
    }
}
