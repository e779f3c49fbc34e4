//! The ACK for a failure, and the CANCEL of a request that was sent.

ghost use Rattle.std.specs.Prelude.{◌≡◌, [], ◌++◌, ◌∷◌, List, IfErr, IfOk, OnOk, codes, true};
ghost use Rattle.std.specs.List.{flat_map, list_all};
ghost use Rattle.sip_text.specs.Fields.{length_name};
ghost use Rattle.sip_text.specs.Message.{IsMessage, is_header};
ghost use Rattle.sip_text.specs.Name.{values_of};
ghost use Rattle.sip_text.specs.Text.{HeaderText, MessageText, header_text, spelling};
ghost use Rattle.sip_via.specs.declared.own.BuildFault.TheVariants.{NoMemory};
ghost use Rattle.sip_via.specs.Edits.{line};
ghost use Rattle.sip_route.specs.Lines.{lines_as};
ghost use Rattle.sip_route.specs.Loop.{cseq_number};
ghost use Rattle.sip_build.specs.Forwarding.{is_request};
ghost use Rattle.sip_build.specs.Requests.{ack_of, along, cancel_of};

use crate::written::read_written;
use itoa::Buffer;
use sip_lex::append_pieces;
use sip_route::{first_value, request_uri};
use sip_text::{Message, append_request_line};
use sip_via::{BuildFault, top_via};
use std::alloc::{AllocError, Allocator};

/// Appends a header line, or a part of it.
fn append_line<B: Allocator>(
    out: &mut Vec<u8, B>,
    name: &[u8],
    value: &[u8],
) -> Result<(), AllocError>
    ensures { OnOk result (out.new.items ≡ out.old.items ++ header_text (line name.now value.now)) }
{
    append_pieces(out, &[name, b": ", value, b"\r\n"])
}

/// Appends a Route line for each Route line of a message, or some of them.
fn append_routes<A: Allocator, B: Allocator>(
    out: &mut Vec<u8, B>,
    sent: &Message<A>,
) -> Result<(), AllocError>
    ensures { OnOk result
        (out.new.items ≡ out.old.items ++ flat_map header_text (lines_as (codes "Route") (codes "route") sent.now)) }
{
    let mut values = sent.values(b"route");
    while let Some(value) = values.next() {
        append_line(out, b"Route", value)?;
    }
    Ok(())
}

/// Appends the CSeq line of a request of that method on the way of the sent one, or a part of it.
fn append_cseq<A: Allocator, B: Allocator>(
    out: &mut Vec<u8, B>,
    method: &[u8],
    sent: &Message<A>,
) -> Result<(), AllocError>
    ensures { OnOk result
        (out.new.items ≡ out.old.items ++ header_text (line (codes "CSeq") (cseq_number sent.now ++ 32 ∷ method.now))) }
{
    let mut buffer = Buffer::new();
    let number = buffer.format(sent.cseq().number).as_bytes();
    append_pieces(out, &[b"CSeq: ", number, b" ", method, b"\r\n"])
}

/// Appends the header lines of a request of that method on the way of the sent one, or some of them.
fn append_headers_along<A: Allocator, B: Allocator>(
    out: &mut Vec<u8, B>,
    method: &[u8],
    sent: &Message<A>,
    to: &[u8],
) -> Result<(), AllocError>
    ensures { OnOk result
        (out.new.items ≡ out.old.items ++ flat_map header_text (along method.now sent.now to.now []).headers) }
{
    append_line(out, b"Via", top_via(sent))?;
    append_line(out, b"Max-Forwards", b"70")?;
    append_routes(out, sent)?;
    append_line(out, b"From", first_value(sent, b"from"))?;
    append_line(out, b"To", to)?;
    append_line(out, b"Call-ID", sent.call_id())?;
    append_cseq(out, method, sent)?;
    append_line(out, b"Content-Length", b"0")
}

/// Appends a request of that method on the way of the sent one, or a part of it.
fn append_along<A: Allocator, B: Allocator>(
    out: &mut Vec<u8, B>,
    method: &[u8],
    sent: &Message<A>,
    to: &[u8],
) -> Result<(), AllocError>
    ensures { OnOk result (out.new.items ≡ out.old.items ++ spelling (along method.now sent.now to.now [])) }
{
    append_request_line(out, method, request_uri(sent))?;
    append_headers_along(out, method, sent, to)?;
    append_pieces(out, &[b"\r\n"])
}

/// A request of that method on the way of the sent one.
fn along<A: Allocator + Clone>(
    alloc: A,
    method: &[u8],
    sent: &Message<A>,
    to: &[u8],
) -> Result<Message<A>, BuildFault>
    requires { IsMessage (along method.now sent.now to.now []) }
    ensures ok { IfOk result (λ made. made ≡ along method.now sent.now to.now []) }
    ensures err { IfErr result (λ fault. fault ≡ NoMemory) }
{
    let mut text = Vec::new(alloc.clone()?);
    append_along(&mut text, method, sent, to)?;
    Ok(read_written(alloc, &text)?)
}

/// The ACK for a response of 300 to 699 to a request that was sent (RFC 3261 section 17.1.1.3): on
/// the way of the request, with its top Via value alone, its Route values, its From, its Call-ID and
/// the number of its CSeq, and with the To of the response.
///
/// # Errors
///
/// `NoMemory` alone, where the allocator refuses.
pub fn ack_of<A: Allocator + Clone>(
    alloc: A,
    sent: &Message<A>,
    response: &Message<A>,
) -> Result<Message<A>, BuildFault>
    requires { is_request sent.now.start ≡ true }
    ensures ok { IfOk result (λ made. made ≡ ack_of sent.now response.now) }
    ensures err { IfErr result (λ fault. fault ≡ NoMemory) }
{
    sent.is_message();
    response.is_message();
    along(alloc, b"ACK", sent, first_value(response, b"to"))
}

/// The CANCEL of a request that was sent (RFC 3261 section 9.1): on the way of the request, with its
/// top Via value alone, its Route values, its From, its To, its Call-ID and the number of its CSeq.
///
/// # Errors
///
/// `NoMemory` alone, where the allocator refuses.
pub fn cancel_of<A: Allocator + Clone>(
    alloc: A,
    sent: &Message<A>,
) -> Result<Message<A>, BuildFault>
    requires { is_request sent.now.start ≡ true }
    ensures ok { IfOk result (λ made. made ≡ cancel_of sent.now []) }
    ensures err { IfErr result (λ fault. fault ≡ NoMemory) }
{
    sent.is_message();
    along(alloc, b"CANCEL", sent, first_value(sent, b"to"))
}

/// An ACK is in the grammar of messages, so it is read as it was written.
pub fn ack_is_message()
    ensures { (sent response : MessageText) → is_request sent.start ≡ true → IsMessage sent → IsMessage response → IsMessage (ack_of sent response) }
{}

/// A CANCEL is in the grammar of messages, so it is read as it was written; the lines in it that say why it is sent are header
/// lines, and none is a Content-Length.
pub fn cancel_is_message()
    ensures { (sent : MessageText) (reasons : List HeaderText) → is_request sent.start ≡ true → IsMessage sent
        → list_all is_header reasons ≡ true → values_of length_name reasons ≡ []
        → IsMessage (cancel_of sent reasons) }
{}
