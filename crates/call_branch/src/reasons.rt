//! The Reason lines of a message.
ghost use Rattle.std.specs.Prelude.{◌≡◌, ◌++◌, true, IfOk, OnOk};
ghost use Rattle.std.specs.List.{flat_map, list_all};
ghost use Rattle.sip_text.specs.Message.{is_header};
ghost use Rattle.sip_text.specs.Seen.{view_line, view_lines, views};
ghost use Rattle.call_branch.specs.inner.Reasons.{reason_in};
ghost use Rattle.sip_build.specs.Requests.{reason_lines};

use sip_text::{HeaderLine, HeaderLines, Message};
use std::alloc::{AllocError, Allocator};
use std::marker::Model;

/// A Reason line on its own.
#[derive(Drop)]
struct ReasonLine<A: Allocator> {
    name: Vec<u8, A>,
    value: Vec<u8, A>,
}

impl<A: Allocator> Model for ReasonLine<A> {
    ghost use Rattle.sip_text.specs.Text.{HeaderText};

    ghost Value = { HeaderText };

    ghost view = { λ line. record { name = line.name.items; value = line.value.items } };
}

impl<A: Allocator> ReasonLine<A> {
    ghost use Rattle.std.specs.Prelude.{◌≡◌, IfOk};
    ghost use Rattle.sip_text.specs.Seen.{view_line};

    /// The line as it is given to a message that is written.
    fn line(&self) -> HeaderLine<'_>
        ensures { view_line result ≡ self.now }
    {
        HeaderLine {
            name: &self.name,
            value: &self.value,
        }
    }
}

/// The Reason lines of a message as they stand (RFC 3326), on their own: no memory is taken where there are none.
#[derive(Drop)]
pub struct ReasonLines<A: Allocator> {
    lines: Vec<ReasonLine<A>, A>,
}

impl<A: Allocator> Model for ReasonLines<A> {
    ghost use Rattle.std.specs.Prelude.{◌≡◌, List, true};
    ghost use Rattle.std.specs.List.{list_all};
    ghost use Rattle.sip_text.specs.Message.{is_header};
    ghost use Rattle.sip_text.specs.Text.{HeaderText};

    ghost Value = { List HeaderText };

    ghost view = { λ r. r.lines.items };

    ghost invariant = { λ r. list_all is_header r.lines.items ≡ true };
}

/// A header line on its own.
fn copied<A: Allocator + Clone>(
    alloc: &A,
    header: HeaderLine<'_>,
) -> Result<ReasonLine<A>, AllocError>
    ensures { IfOk result (λ line. line ≡ view_line header.entry) }
{
    let name = Vec::from_slice(alloc.clone()?, header.name)?;
    let value = Vec::from_slice(alloc.clone()?, header.value)?;
    Ok(ReasonLine { name, value })
}

/// Adds a header line, if it is a Reason line.
fn add_line<A: Allocator + Clone>(
    lines: &mut Vec<ReasonLine<A>, A>,
    alloc: &A,
    header: HeaderLine<'_>,
) -> Result<(), AllocError>
    ensures { OnOk result (lines.new.items ≡ lines.old.items ++ reason_in (view_line header.entry)) }
{
    if header.is_named(b"reason") {
        lines.push(copied(alloc, header)?)?;
    }
    Ok(())
}

/// The Reason lines among some header lines.
fn reasons_among<A: Allocator + Clone>(
    alloc: &A,
    headers: HeaderLines<'_>,
) -> Result<Vec<ReasonLine<A>, A>, AllocError>
    ensures { IfOk result (λ lines. lines.items ≡ flat_map reason_in (views headers.entry)) }
{
    let mut lines = Vec::new(alloc.clone()?);
    for header in headers {
        add_line(&mut lines, alloc, header)?;
    }
    Ok(lines)
}

impl<A: Allocator + Clone> ReasonLines<A> {
    /// Those of a message.
    ///
    /// # Errors
    ///
    /// Only where the allocator refuses.
    pub fn of(alloc: &A, message: &Message<A>) -> Result<Self, AllocError>
        ensures { IfOk result (λ reasons. reasons ≡ reason_lines message.now) }
    {
        message.is_message();
        let lines = reasons_among(alloc, message.headers())?;
        Ok(ReasonLines { lines })
    }

    /// The lines as they are given to a message that is written.
    ///
    /// # Errors
    ///
    /// Only where the allocator refuses.
    pub fn further(&self, alloc: A) -> Result<Vec<HeaderLine<'_>, A>, AllocError>
        ensures lines { IfOk result (λ made. view_lines made.items ≡ self.now) }
        ensures good { list_all is_header self.now ≡ true }
    {
        let mut made = Vec::with_capacity(alloc, self.lines.len())?;
        for line in &self.lines {
            made.push(line.line())?;
        }
        Ok(made)
    }
}
