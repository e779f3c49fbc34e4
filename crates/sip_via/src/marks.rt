//! A Via value with the address and the port that its request came from (RFC 3261 section 18.2.1, RFC 3581 section 4).

ghost use Rattle.std.specs.Prelude.{◌≡◌, ◌++◌, [], IfOk, OnOk, codes, length, take, true, ◌≤◌};
ghost use Rattle.std.specs.List.{flat_map, list_any};
ghost use Rattle.std.specs.Option.{option_copied};
ghost use Rattle.sip_lex.specs.Sheltered.{cut_outside};
ghost use Rattle.sip_lex.specs.declared.sheltered.ShelterState.TheVariants.{Plain};
ghost use Rattle.sip_lex.specs.declared.sheltered.Shelter.TheVariants.{Quotes};
ghost use Rattle.sip_via.specs.Address.{address_text};
ghost use Rattle.sip_via.specs.Received.{asks_port, filled, marked_param, marked_value, received_text};
ghost use Rattle.sip_via.specs.inner.SeenParts.{seen_parts};
ghost use Rattle.sip_via.specs.ViaParts.{is_named, is_via, params_of, parts_of};

use crate::address::{add_address, add_number, is_address};
use crate::cut::ViaParts;
use crate::params::Params;
use sip_lex::{Growing, cut_near, trim, trim_end};
use sip_uri::Hop;
use std::alloc::AllocError;

/// Whether a parameter is named `received`, and whether it is `rport` without a value.
fn marks_of(param: &[u8]) -> (bool, bool)
    ensures received { result.0 ≡ is_named (codes "received") param.now }
    ensures asks { result.1 ≡ asks_port param.now }
{
    let (name, value) = cut_near(param, b'=');
    let name = trim(name);
    let received = name.eq_ignore_ascii_case(b"received");
    let asks = name.eq_ignore_ascii_case(b"rport") && value.is_none();
    (received, asks)
}

/// Adds a parameter with the port right behind its name.
fn add_filled<T: Growing>(out: &mut T, param: &[u8], port: u16) -> Result<(), AllocError>
    ensures { OnOk result (T.text out.new ≡ T.text out.old ++ filled port param.now) }
{
    let name = trim_end(param);
    out.add(name)?;
    out.add(b"=")?;
    add_number(out, port)?;
    out.add(&param[name.len()..])
}

/// Adds a parameter behind its `;`, as it is after marking; says whether it asked for the port.
fn add_param<T: Growing>(out: &mut T, param: &[u8], port: u16) -> Result<bool, AllocError>
    ensures exact { OnOk result (T.text out.new ≡ T.text out.old ++ marked_param port param.now) }
    ensures asks { IfOk result (λ asks. asks ≡ asks_port param.now) }
{
    let (received, asks) = marks_of(param);
    if received {
        return Ok(asks);
    }
    out.add(b";")?;
    if asks {
        add_filled(out, param, port)?;
    } else {
        out.add(param)?;
    }
    Ok(asks)
}

/// Adds the parameters, as they are after marking; says whether one asked for the port.
fn add_params<T: Growing>(out: &mut T, text: Option<&[u8]>, port: u16) -> Result<bool, AllocError>
    ensures exact { OnOk result
        (T.text out.new
        ≡ T.text out.old ++ flat_map (marked_param port) (params_of (option_copied text.entry))) }
    ensures asked { IfOk result
        (λ asked. asked ≡ list_any asks_port (params_of (option_copied text.entry))) }
{
    let mut params = Params::of(text);
    let mut asked = false;
    while let Some(param) = params.next() {
        let asks = add_param(out, param, port)?;
        asked = asked || asks;
    }
    Ok(asked)
}

/// Adds the parameters as they are after marking, and the one that tells the source's address, where it is
/// wanted.
fn add_marked<T: Growing>(
    out: &mut T,
    host: &[u8],
    text: Option<&[u8]>,
    source: Hop,
) -> Result<(), AllocError>
    ensures { OnOk result
        (T.text out.new
        ≡ T.text out.old
        ++ (flat_map (marked_param source.port) (params_of (option_copied text.entry))
        ++ received_text (address_text source.addr) host.now (params_of (option_copied text.entry)))) }
{
    let asked = add_params(out, text, source.port)?;
    if !asked && is_address(host, source.addr) {
        return Ok(());
    }
    out.add(b";received=")?;
    add_address(out, source.addr)
}

/// How long a Via value is before its parameters.
fn front_len(value: &[u8], params: Option<&[u8]>) -> usize
    requires via { is_via value.now ≡ true }
    requires params { option_copied params ≡ (parts_of value.now).params }
    ensures cuts { cut_outside Quotes 59 Plain value.now ≡ (take result value.now, option_copied params.entry) }
    ensures within { result ≤ length value.now }
{
    match params {
        None => value.len(),
        Some(text) => value.len() - text.len() - 1,
    }
}

/// Adds the top value as it is after marking to an empty text.
pub(crate) fn add_value<T: Growing>(
    out: &mut T,
    value: &[u8],
    cut: &ViaParts<'_>,
    source: Hop,
) -> Result<(), AllocError>
    requires empty { T.text out.old ≡ [] }
    requires via { is_via value.now ≡ true }
    requires cut { seen_parts cut.now ≡ parts_of value.now }
    ensures { OnOk result (T.text out.new ≡ marked_value source value.now) }
{
    out.add(&value[..front_len(value, cut.params)])?;
    add_marked(out, cut.host, cut.params, source)?;
    out.cut_space();
    Ok(())
}
