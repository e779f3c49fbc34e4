//! Appending a URI as it stands in a request.

ghost use Rattle.std.specs.Prelude.{◌≡◌, ◌+◌, ◌≤◌, [], ◌∷◌, ◌++◌, IsOk, OnOk, OnErr, length, take, vec_capacity, vec_len};
ghost use Rattle.std.specs.Option.{option_copied};
ghost use Rattle.sip_lex.specs.Pieces.{pieces_behind};
ghost use Rattle.sip_uri.specs.Grammar.{IsUri};
ghost use Rattle.sip_uri.specs.Reading.{uri_of};
ghost use Rattle.sip_uri.specs.inner.Tail.{front_len, params_in, tail_of};
ghost use Rattle.sip_uri.specs.Uri.{params_text, request_uri, user_text, without_methods};

use crate::cut::user_and_rest;
use crate::key::is_method;
use sip_lex::cut_at;
use std::alloc::{AllocError, Allocator};

pub(crate) fn append_user<B: Allocator>(
    out: &mut Vec<u8, B>,
    user: Option<&[u8]>,
) -> Result<(), AllocError>
    ensures ok { OnOk result
        (out.new.items ≡ out.old.items ++ user_text (option_copied user.entry)) }
    ensures begins { take (vec_len out.old) out.new.items ≡ out.old.items }
    ensures room { vec_len out.old + length (user_text (option_copied user.entry)) ≤ vec_capacity out.old
        → IsOk result }
    ensures capacity { vec_capacity out.old ≤ vec_capacity out.new }
{
    if let Some(user) = user {
        out.extend_from_slice(user)?;
        out.push(b'@')?;
    }
    Ok(())
}

/// Appends a parameter unless it is `method`.
fn append_param<B: Allocator>(out: &mut Vec<u8, B>, param: &[u8]) -> Result<(), AllocError>
    ensures ok { OnOk result
        (out.new.items ≡ out.old.items ++ params_text (without_methods (param.now ∷ []))) }
    ensures begins { take (vec_len out.old) out.new.items ≡ out.old.items }
    ensures room { vec_len out.old + length (params_text (without_methods (param.now ∷ []))) ≤ vec_capacity out.old
        → IsOk result }
    ensures capacity { vec_capacity out.old ≤ vec_capacity out.new }
{
    if !is_method(param) {
        out.push(b';')?;
        out.extend_from_slice(param)?;
    }
    Ok(())
}

fn append_params<B: Allocator>(
    out: &mut Vec<u8, B>,
    params: Option<&[u8]>,
) -> Result<(), AllocError>
    ensures ok { OnOk result
        (out.new.items
        ≡ out.old.items
        ++ params_text (without_methods (pieces_behind 59 (option_copied params.entry)))) }
    ensures begins { take (vec_len out.old) out.new.items ≡ out.old.items }
    ensures room { vec_len out.old
        + length (params_text (without_methods (pieces_behind 59 (option_copied params.entry))))
        ≤ vec_capacity out.old
        → IsOk result }
    ensures capacity { vec_capacity out.old ≤ vec_capacity out.new }
{
    let mut rest = params;
    while let Some(text) = rest {
        let (param, after) = cut_at(text, b';');
        append_param(out, param)?;
        rest = after;
    }
    Ok(())
}

/// How many bytes stand before the first `;` or `?`.
fn front_len(text: &[u8]) -> usize
    ensures value { result ≡ front_len text.now }
    ensures within { result ≤ length text.now }
{
    for (i, byte) in text.iter().enumerate() {
        if *byte == b';' || *byte == b'?' {
            return i;
        }
    }
    text.len()
}

/// The parameters and headers of a URI, as they stand behind its host and port.
fn tail_of(text: &[u8]) -> &[u8]
    requires { 4 ≤ length text.now }
    ensures value { result.now ≡ tail_of text.now }
    ensures within { length result.now ≤ length text.now }
{
    let (_, rest) = user_and_rest(&text[4..]);
    &rest[front_len(rest)..]
}

/// The parameters at the front of the tail of a URI.
fn params_in(tail: &[u8]) -> Option<&[u8]>
    ensures { option_copied result ≡ params_in tail.now }
{
    match cut_at(tail, b'?').0 {
        [] => None,
        [_, params @ ..] => Some(params),
    }
}

/// What stands before the parameters of a URI, and its parameters.
fn cut_params(text: &[u8]) -> (&[u8], Option<&[u8]>)
    requires long { 4 ≤ length text.now }
    requires uri { IsUri (uri_of text.now) }
    ensures { request_uri (uri_of text.now)
        ≡ result.0.now ++ params_text (without_methods (pieces_behind 59 (option_copied result.1))) }
{
    let tail = tail_of(text);
    let head = &text[..text.len() - tail.len()];
    (head, params_in(tail))
}

fn append_parts<B: Allocator>(
    out: &mut Vec<u8, B>,
    head: &[u8],
    params: Option<&[u8]>,
) -> Result<(), AllocError>
    ensures ok { OnOk result
        (out.new.items
        ≡ out.old.items
        ++ (head.now ++ params_text (without_methods (pieces_behind 59 (option_copied params.entry))))) }
    ensures begins { take (vec_len out.old) out.new.items ≡ out.old.items }
    ensures room { vec_len out.old
        + length (head.now ++ params_text (without_methods (pieces_behind 59 (option_copied params.entry))))
        ≤ vec_capacity out.old
        → IsOk result }
    ensures capacity { vec_capacity out.old ≤ vec_capacity out.new }
{
    out.extend_from_slice(head)?;
    append_params(out, params)?;
    Ok(())
}

/// Appends a URI without `method` parameters and headers, or nothing.
pub(crate) fn append_request_uri<B: Allocator>(
    out: &mut Vec<u8, B>,
    text: &[u8],
) -> Result<(), AllocError>
    requires long { 4 ≤ length text.now }
    requires uri { IsUri (uri_of text.now) }
    ensures ok { OnOk result (out.new.items ≡ out.old.items ++ request_uri (uri_of text.now)) }
    ensures err { OnErr result (out.new.items ≡ out.old.items) }
    ensures room { vec_len out.old + length (request_uri (uri_of text.now)) ≤ vec_capacity out.old
        → IsOk result }
    ensures capacity { vec_capacity out.old ≤ vec_capacity out.new }
{
    let (head, params) = cut_params(text);
    let before = out.len();
    let done = append_parts(out, head, params);
    if done.is_err() {
        out.truncate(before);
    }
    done
}
