//! Answers that a server makes of its own: a status, and the header lines that it has beside those that each answer has.

use sip_build::{OwnStatus, write_own_response};
use sip_text::{HeaderLine, Message};
use std::alloc::{AllocError, Allocator, Global};
use std::marker::Model;

/// A header line of an answer.
#[derive(Drop)]
pub struct AnswerLine<A: Allocator = Global> {
    name: &'static [u8],
    value: Vec<u8, A>,
}

impl<A: Allocator> Model for AnswerLine<A> {
    ghost use Rattle.sip_text.specs.Text.{HeaderText};
    ghost use Rattle.sip_via.specs.Edits.{line};

    ghost Value = { HeaderText };

    ghost view = { λ l. line l.name.now l.value.items };
}

/// An answer to a request: its status, and its further lines.
#[derive(Drop)]
pub struct OwnAnswer<A: Allocator = Global> {
    status: OwnStatus,
    lines: Vec<AnswerLine<A>, A>,
}

impl<A: Allocator> Model for OwnAnswer<A> {
    ghost use Rattle.std.specs.Prelude.{◌≡◌, true};
    ghost use Rattle.std.specs.List.{list_all};
    ghost use Rattle.sip_text.specs.Message.{is_header};
    ghost use Rattle.authentication.specs.Answer as spec;

    ghost Value = { spec.Answer };

    ghost view = { λ a. record { status = a.status; lines = a.lines.items } };

    ghost invariant = { λ a. list_all is_header a.lines.items ≡ true };
}

impl<A: Allocator> AnswerLine<A> {
    ghost use Rattle.std.specs.Prelude.{◌≡◌};
    ghost use Rattle.sip_text.specs.Seen.{view_line};

    fn as_further(&self) -> HeaderLine<'_>
        ensures { view_line result ≡ self.now }
    {
        HeaderLine {
            name: self.name,
            value: &self.value,
        }
    }
}

impl<A: Allocator> OwnAnswer<A> {
    ghost use Rattle.std.specs.Prelude.{◌≡◌, ◌++◌, true, IfOk, OnErr, OnOk};
    ghost use Rattle.std.specs.List.{list_all};
    ghost use Rattle.sip_text.specs.Message.{is_header};
    ghost use Rattle.sip_text.specs.Text.{spelling};
    ghost use Rattle.sip_via.specs.Edits.{line};
    ghost use Rattle.sip_text.specs.Seen.{view_lines};
    ghost use Rattle.sip_build.specs.Generated.{generated_of};
    ghost use Rattle.authentication.specs.Answer.{plain, with_line};

    /// An answer of this status without further lines.
    pub fn new(alloc: A, status: OwnStatus) -> OwnAnswer<A>
        ensures { result ≡ plain status }
    {
        OwnAnswer {
            status,
            lines: Vec::new(alloc),
        }
    }

    /// Its status.
    pub fn status(&self) -> OwnStatus
        ensures { result ≡ self.now.status }
    {
        self.status
    }

    /// Appends a further line.
    ///
    /// # Errors
    ///
    /// Only where a growth is refused; all is as it was then.
    pub fn push(&mut self, name: &'static [u8], value: Vec<u8, A>) -> Result<(), AllocError>
        requires { is_header (line name.now value.items) ≡ true }
        ensures ok { OnOk result (self.new ≡ with_line self.old (line name.entry.now value.items)) }
        ensures err { OnErr result (self.new ≡ self.old) }
    {
        self.lines.push(AnswerLine { name, value })?;
        Ok(())
    }

    /// Its further lines, each of which may stand in a message.
    ///
    /// # Errors
    ///
    /// Only where the allocator refuses.
    pub fn further_lines<B: Allocator>(
        &self,
        alloc: B,
    ) -> Result<Vec<HeaderLine<'_>, B>, AllocError>
        ensures exact { IfOk result (λ lines. view_lines lines.items ≡ self.now.lines) }
        ensures good { list_all is_header self.now.lines ≡ true }
    {
        let mut further = Vec::new(alloc);
        for line in &self.lines {
            further.push(line.as_further())?;
        }
        Ok(further)
    }

    /// Appends the text of the answer to a request (RFC 3261 section 8.2.6).
    ///
    /// # Errors
    ///
    /// Only where a growth is refused; `out` is then unchanged.
    pub fn write<M: Allocator, B: Allocator>(
        &self,
        alloc: A,
        request: &Message<M>,
        out: &mut Vec<u8, B>,
    ) -> Result<(), AllocError>
        ensures ok { OnOk result (out.new.items ≡ out.old.items ++ spelling (generated_of request.now self.now.status self.now.lines)) }
        ensures err { OnErr result (out.new.items ≡ out.old.items) }
    {
        let further = self.further_lines(alloc)?;
        write_own_response(request, self.status, &further, out)
    }
}
