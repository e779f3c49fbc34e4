//! The first Via line of a message, with its first value marked.

ghost use Rattle.std.specs.Prelude.{◌≡◌, ◌++◌, [], Err, IfErr, IfNone, IfOk, IfSome, List, Ok, OnOk, ℕ};
ghost use Rattle.std.specs.Option.{option_copied};
ghost use Rattle.sip_lex.specs.Cut.{behind};
ghost use Rattle.sip_lex.specs.Short.{short_text};
ghost use Rattle.sip_uri.specs.declared.hop.Hop.{Hop};
ghost use Rattle.sip_via.specs.Received.{first_via_line, line_marked};
ghost use Rattle.sip_via.specs.inner.CutLines.{IsCutLine};
ghost use Rattle.sip_via.specs.ViaFaults.{Gives, refusal};

use crate::cut::{ViaParts, cut_via};
use crate::marks::add_value;
use crate::own::ViaFault;
use crate::values::VIA;
use sip_lex::{Growing, Shelter, Short, cut_outside, trim, trim_end};
use sip_text::Message;
use sip_uri::Hop;
use std::alloc::{AllocError, Allocator};

/// How much longer than before a line is that gets the source's address and port, at most.
const MARKS: usize = 32;

/// Adds the space behind the top value, and the values that stand behind its comma, as they are.
fn add_others<T: Growing>(
    out: &mut T,
    space: &[u8],
    others: Option<&[u8]>,
) -> Result<(), AllocError>
    ensures { OnOk result
        (T.text out.new ≡ T.text out.old ++ (space.now ++ behind 44 (option_copied others.entry))) }
{
    out.add(space)?;
    if let Some(others) = others {
        out.add(b",")?;
        out.add(others)?;
    }
    Ok(())
}

/// A Via line whose first value is one: that value, its parts, the space behind it, and what stands behind its comma.
#[derive(Clone, Copy)]
pub(crate) struct CutLine<'a> {
    value: &'a [u8],
    pub cut: ViaParts<'a>,
    space: &'a [u8],
    others: Option<&'a [u8]>,
}

/// Cuts a Via line at its first comma; `None` where its first value can't be read.
pub(crate) fn cut_line(line: &[u8]) -> Option<CutLine<'_>>
    ensures found { IfSome result (λ parts. IsCutLine parts line.now) }
    ensures none { IfNone result ((source : Hop) → line_marked source line.now ≡ Err ViaFault.BadVia) }
{
    let (top, others) = cut_outside(line, b',', Shelter::Quotes);
    let value = trim(top);
    let cut = cut_via(value)?;
    Some(CutLine {
        value,
        cut,
        space: &top[trim_end(top).len()..],
        others,
    })
}

/// Adds a line with its first value marked to an empty text.
fn add_line<T: Growing>(out: &mut T, line: &CutLine<'_>, source: Hop) -> Result<(), AllocError>
    requires empty { T.text out.old ≡ [] }
    requires cut { (whole : List ℕ) × IsCutLine line.now whole }
    ensures { (whole : List ℕ) → IsCutLine line.now whole
        → OnOk result (line_marked source whole ≡ Ok (T.text out.new)) }
{
    add_value(out, line.value, &line.cut, source)?;
    add_others(out, line.space, line.others)
}

/// The first Via line.
pub(crate) fn via_line<A: Allocator>(message: &Message<A>) -> &[u8]
    ensures { result.now ≡ first_via_line message.now }
{
    message.values(VIA).next().unwrap_or(b"")
}

/// A line with its first value marked, in memory of its own.
pub(crate) fn grown_line<A: Allocator>(
    alloc: A,
    whole: &[u8],
    line: &CutLine<'_>,
    source: Hop,
) -> Result<Vec<u8, A>, AllocError>
    requires { IsCutLine line.now whole.now }
    ensures { IfOk result (λ marked. line_marked source whole.now ≡ Ok marked.items) }
{
    let mut marked = Vec::with_capacity(alloc, whole.len() + MARKS)?;
    add_line(&mut marked, line, source)?;
    Ok(marked)
}

/// A Via line with its first value marked (RFC 3261 section 18.2.1, RFC 3581 section 4). The space before its comma stays,
/// and so do the values behind it.
///
/// # Errors
///
/// `BadVia` where the first value can't be read; then `NoMemory`.
pub fn marked_line<A: Allocator + Clone>(
    alloc: &A,
    line: &[u8],
    source: Hop,
) -> Result<Vec<u8, A>, ViaFault>
    ensures exact { Gives (λ marked. marked.items) result (line_marked source line.now) }
    ensures refused { IfErr result (λ fault. fault ≡ refusal (line_marked source line.now)) }
{
    let Some(parts) = cut_line(line) else {
        return Err(ViaFault::BadVia);
    };
    let marked = grown_line(alloc.clone()?, line, &parts, source)?;
    Ok(marked)
}

/// A line with its first value marked, where it is a short text.
pub(crate) fn short_line(line: &CutLine<'_>, source: Hop) -> Option<Short>
    requires { (whole : List ℕ) × IsCutLine line.now whole }
    ensures { (whole : List ℕ) → IsCutLine line.now whole
        → IfSome result (λ marked. line_marked source whole ≡ Ok (short_text marked)) }
{
    let mut marked = Short::new();
    if add_line(&mut marked, line, source).is_err() {
        return None;
    }
    Some(marked)
}
