//! Via values.

ghost use Rattle.std.specs.Prelude.{◌≡◌, IfErr, IfOk, Ok};
ghost use Rattle.std.specs.List.{list_any};
ghost use Rattle.std.specs.Option.{option_copied};
ghost use Rattle.sip_via.specs.ViaFaults.{Gives, refusal};
ghost use Rattle.sip_via.specs.ViaGrammar.{IsVia};
ghost use Rattle.sip_via.specs.ViaParts.{ViaText, branch_of, is_rport, port_if_any, read_via};

use crate::cut::{cut_value, cut_via, port_if_any};
use crate::own::ViaFault;
use crate::params::{first_param, has_rport};
use std::alloc::Allocator;
use std::marker::Model;

/// A Via value: its text as written.
#[derive(Drop)]
pub struct Via<A: Allocator> {
    text: Vec<u8, A>,
}

impl<A: Allocator> Model for Via<A> {
    ghost use Rattle.sip_via.specs.ViaParts.{ViaText, via_of};

    ghost Value = { ViaText };

    ghost view = { λ v. via_of v.text.items };
}

fn read_value<A: Allocator>(alloc: A, value: &[u8]) -> Result<Via<A>, ViaFault>
    ensures exact { Gives (λ v. v) result (read_via value.now) }
    ensures refused { IfErr result (λ fault. fault ≡ refusal (read_via value.now)) }
{
    if cut_via(value).is_none() {
        return Err(ViaFault::BadVia);
    }
    let text = Vec::from_slice(alloc, value)?;
    Ok(Via { text })
}

impl<A: Allocator> Via<A> {
    /// The Via value that a text is (`via-parm` of RFC 3261 section 25.1, see section 20.42):
    /// `SIP/2.0/` and a transport, space, the sender's host and port, and parameters. Space may
    /// stand round `/`, `:`, `;` and `=`, none at the ends.
    ///
    /// # Errors
    ///
    /// `BadVia` for any other text; then `NoMemory`.
    pub fn read(alloc: A, value: &[u8]) -> Result<Via<A>, ViaFault>
        ensures found { IfOk result (λ via. IsVia value.now via) }
        ensures only { (via : ViaText) → IsVia value.now via → Gives (λ v. v) result (Ok via) }
        ensures exact { Gives (λ v. v) result (read_via value.now) }
        ensures refused { IfErr result (λ fault. fault ≡ refusal (read_via value.now)) }
    {
        read_value(alloc, value)
    }

    /// The host of the sender, as written.
    pub fn host(&self) -> &[u8]
        ensures { result.now ≡ self.now.host }
    {
        cut_value(&self.text).host
    }

    /// The port of the sender, where the value names one.
    pub fn port(&self) -> Option<u16>
        ensures { result ≡ port_if_any self.now.port }
    {
        port_if_any(cut_value(&self.text).port)
    }

    /// The value of the first parameter `branch`, in any case, if it has one (RFC 3261 section
    /// 8.1.1.7).
    pub fn branch(&self) -> Option<&[u8]>
        ensures { option_copied result ≡ branch_of self.now }
    {
        first_param(cut_value(&self.text).params, b"branch")
    }

    /// Whether a parameter `rport` has that number (RFC 3581 section 4).
    pub fn has_rport(&self, port: u16) -> bool
        ensures { result ≡ list_any (is_rport port) self.now.params }
    {
        has_rport(cut_value(&self.text).params, port)
    }
}
