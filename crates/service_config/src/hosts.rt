//! The addresses that requests to locations and by gateways go to.
ghost use Rattle.std.specs.Prelude.{◌≡◌, ◌||◌, ◌==◌, ℕ, false, IfOk, OnOk};
ghost use Rattle.std.specs.List.{list_any};
ghost use Rattle.service_config.specs.Net.{address_number};
ghost use Rattle.service_config.specs.Settings.{is_gateway_at, is_location_at, is_there};
ghost use Rattle.service_config.specs.inner.Hosts.{AreHostsOf, is_among};

use crate::gateway::Gateway;
use crate::net::address_number;
use proxy_config::Location;
use sip_uri::Hop;
use std::alloc::{AllocError, Allocator};
use std::collections::BTreeSet;

/// The addresses that requests to locations and by gateways go to, each by its number: a look-up does not go through the locations.
#[derive(Drop)]
pub(crate) struct Hosts<A: Allocator> {
    numbers: BTreeSet<u64, A>,
}

impl<A: Allocator> Hosts<A> {
    /// Whether the address with this number is among them.
    pub(crate) fn has(&self, number: u64) -> bool
        ensures { result ≡ is_among self.now number }
    {
        self.numbers.contains(&number)
    }
}

impl<A: Allocator + Clone> Hosts<A> {
    fn new(alloc: A) -> Hosts<A>
        ensures { (number : ℕ) → is_among result number ≡ false }
    {
        Hosts {
            numbers: BTreeSet::new(alloc),
        }
    }

    /// Adds the address with this number.
    fn add(&mut self, number: u64) -> Result<(), AllocError>
        ensures { OnOk result ((other : ℕ) → is_among self.new other ≡ (number == other || is_among self.old other)) }
    {
        match self.numbers.insert(number) {
            Ok(_) => Ok(()),
            Err(_) => Err(AllocError),
        }
    }

    /// Adds the address of a hop, if there is one.
    fn add_if(&mut self, hop: Option<Hop>) -> Result<(), AllocError>
        ensures { OnOk result ((other : ℕ) → is_among self.new other ≡ (is_there other hop || is_among self.old other)) }
    {
        match hop {
            None => Ok(()),
            Some(hop) => self.add(address_number(hop.addr)),
        }
    }

    fn add_locations(&mut self, locations: &[Location<A>]) -> Result<(), AllocError>
        ensures { OnOk result ((other : ℕ) → is_among self.new other ≡ (list_any (is_location_at other) locations.now || is_among self.old other)) }
    {
        for location in locations {
            self.add_if(location.next_hop())?;
        }
        Ok(())
    }

    fn add_gateways(&mut self, gateways: &[Gateway<A>]) -> Result<(), AllocError>
        ensures { OnOk result ((other : ℕ) → is_among self.new other ≡ (list_any (is_gateway_at other) gateways.now || is_among self.old other)) }
    {
        for gateway in gateways {
            self.add(address_number(gateway.hop().addr))?;
        }
        Ok(())
    }

    /// Those of these locations and gateways.
    pub(crate) fn of(
        alloc: &A,
        locations: &[Location<A>],
        gateways: &[Gateway<A>],
    ) -> Result<Hosts<A>, AllocError>
        ensures { IfOk result (AreHostsOf locations.now gateways.now) }
    {
        let mut hosts = Hosts::new(alloc.clone()?);
        hosts.add_gateways(gateways)?;
        hosts.add_locations(locations)?;
        Ok(hosts)
    }
}
