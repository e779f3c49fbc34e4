//! The configuration of a service.
ghost use Rattle.std.specs.Prelude.{◌≡◌, ◌↔◌, IfErr, IfOk, IsTrue};
ghost use Rattle.std.specs.Option.{option_copied};
ghost use Rattle.proxy_service.specs.Setups.{IsOf, IsReloadFault, IsServiceConfigured, by_port_if, by_terms, recording_as_if, recording_if, service_settings};

use crate::terms::RunSettings;
use fork_call::Setup;
use service_config::ServiceSettings;
use service_files::{Configuration, DaemonFault, Identity, read_text};
use sip_via::Own;
use std::alloc::{AllocError, Allocator};

/// The settings with the own address counting as the domain with the own port alone, if that is asked for.
fn by_port_if<A: Allocator>(settings: ServiceSettings<A>, own_port: bool) -> ServiceSettings<A>
    ensures { result ≡ by_port_if own_port settings }
{
    if own_port {
        settings.with_own_port()
    } else {
        settings
    }
}

/// The settings with a Record-Route line in each request that opens a dialog, if that is asked for.
fn recording_if<A: Allocator>(settings: ServiceSettings<A>, records: bool) -> ServiceSettings<A>
    ensures { result ≡ recording_if records settings }
{
    if records {
        settings.recording()
    } else {
        settings
    }
}

/// The settings with a Record-Route line that names this address, if there is another one than the own.
fn recording_as_if<A: Allocator>(
    settings: ServiceSettings<A>,
    route: Option<Own>,
) -> ServiceSettings<A>
    ensures { result ≡ recording_as_if route settings }
{
    match route {
        None => settings,
        Some(route) => settings.recording_as(route),
    }
}

/// Settings as a service goes by them, but for the realm: all Route values at the front of a request that lead to the proxy are taken away;
/// a 100 has the Timestamp of its request, and a CANCEL says why; the own address counts as the domain with the own port alone, and a request
/// that opens a dialog has a Record-Route line, which names the address of the terms, where the terms say so.
fn by_terms<A: Allocator>(settings: ServiceSettings<A>, terms: &RunSettings) -> ServiceSettings<A>
    ensures { result ≡ by_terms terms.now settings }
{
    let settings = settings.for_a_service().stamping().giving_reasons();
    let settings = recording_if(by_port_if(settings, terms.own_port), terms.records);
    recording_as_if(settings, terms.route)
}

/// A configuration as a service goes by it. Where there is a realm, a request that opens a dialog has a Record-Route line, too, and
/// credentials for the realm do not go on.
///
/// # Errors
///
/// Only where the allocator refuses.
pub(crate) fn service_configuration<A: Allocator>(
    alloc: A,
    configuration: Configuration<A>,
    terms: &RunSettings,
) -> Result<Configuration<A>, AllocError>
    ensures settings { IfOk result (λ made. made.settings ≡ service_settings terms.now configuration.settings) }
    ensures users { IfOk result (λ made. made.users ≡ configuration.users) }
{
    let Configuration { settings, users } = configuration;
    let settings = by_terms(settings, terms).of_own_realm(alloc)?;
    Ok(Configuration { settings, users })
}

/// Whether a setup has this identity.
fn is_of<A: Allocator + Clone>(setup: &Setup<A>, identity: Identity) -> bool
    ensures { IsTrue result ↔ IsOf identity setup.now }
{
    setup.own() == identity.own && setup.instance() == identity.instance
}

/// The configuration that texts spell, of a service that keeps to these terms.
///
/// # Errors
///
/// Those of [`read_text`]; else `Identity` where it has another address or another instance.
pub(crate) fn configuration_of<A: Allocator + Copy>(
    alloc: A,
    text: &[u8],
    users: Option<&[u8]>,
    terms: &RunSettings,
) -> Result<Configuration<A>, DaemonFault>
    ensures ok { IfOk result (IsServiceConfigured terms.now text.now (option_copied users.entry)) }
    ensures fault { IfErr result (IsReloadFault terms.now text.now (option_copied users.entry)) }
{
    let configuration = read_text(alloc, text, users, terms.number, terms.streams)?;
    if !is_of(configuration.settings.setup(), terms.identity) {
        return Err(DaemonFault::Identity);
    }
    Ok(service_configuration(alloc, configuration, terms)?)
}
