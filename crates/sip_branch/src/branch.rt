//! The branch parameter of the proxy's own Via.

ghost use Rattle.std.specs.Prelude.{◌≡◌, true, ◌≢◌, ◌+◌, ◌++◌, ◌∷◌, ◌^◌, ◌<◌, ◌≤◌, List, ℕ, Some, IsOk, OnOk, OnErr, IfSome, IfNone, drop, length, vec_capacity, vec_len};
ghost use Rattle.std.specs.Fmt.{decimal};
ghost use Rattle.std.specs.List.{AllByRecursion, list_all};
ghost use Rattle.sip_lex.specs.Bytes.{is_token_byte};
ghost use Rattle.sip_lex.specs.Cut.{cut, is};
ghost use Rattle.sip_branch.specs.inner.BranchParts.{branch_parts, parts_of, seen_parts, view_parts, with_instance, with_key};
ghost use Rattle.sip_branch.specs.declared.branch.BranchName.{BranchName};
ghost use Rattle.sip_branch.specs.BranchText.{IsBranch, branch_text};
ghost use Rattle.sip_lex.specs.HexPair.{hex_text};

use itoa::write_digits;
use sip_lex::{cut_near, hex_pair, read_pair, read_plain_number};
use std::alloc::{AllocError, Allocator};

/// What a branch parameter of the proxy's own says: which target of which context was tried, by
/// which run of the proxy.
#[derive(Clone, Copy, Debug, PartialEq, Eq)]
pub struct BranchName {
    /// The loop key of the request.
    pub key: [u8; 16],
    /// The proxy's own number.
    pub instance: u32,
    /// The number of the context.
    pub context: u64,
    /// The number of the target.
    pub target: u16,
}

/// Shows that hexadecimal digits may stand in a token.
fn digits_are_tokens(bytes: &[u8])
    ensures { list_all is_token_byte (hex_text bytes.now) ≡ true }
{}

/// Shows that a dot and a number in decimal may stand in a token.
fn number_is_token(n: u64)
    ensures { list_all is_token_byte (46 ∷ decimal n) ≡ true }
{}

impl BranchName {
    /// Shows that the text of the branch is a token.
    fn is_token(&self)
        ensures { list_all is_token_byte (branch_text self.now) ≡ true }
    {
        digits_are_tokens(&self.key);
        number_is_token(u64::from(self.instance));
        number_is_token(self.context);
        number_is_token(u64::from(self.target));
    }
}

/// The hexadecimal digits of a key.
fn key_digits(key: &[u8]) -> [u8; 32]
    requires { length key.now ≡ 16 }
    ensures { result ≡ hex_text key.now }
{
    let mut digits = [0; 32];
    for i in 0..16 {
        let [upper, lower] = hex_pair(key[i]);
        digits[2 * i] = upper;
        digits[2 * i + 1] = lower;
    }
    digits
}

/// The longest branch parameter is no longer than this: the cookie, the digits of the key, and three
/// numbers of up to twenty digits behind a dot each.
const MOST: usize = 7 + 32 + 3 * 21;

/// Writes a text so that it ends at `end`, and says where it begins.
#[inline(always)]
fn place_text(out: &mut [u8], end: usize, text: &[u8]) -> usize
    requires { (length text.now ≤ end) × (end ≤ length out.old) }
    ensures start { result + length text.now ≡ end }
    ensures text { drop result out.new ≡ text.now ++ drop end out.old }
{
    let start = end - text.len();
    out[start..end].copy_from_slice(text);
    start
}

/// Writes a dot and a number in decimal so that they end at `end`, and says where they begin.
fn place_dotted(out: &mut [u8], end: usize, n: u64) -> usize
    requires { (21 ≤ end) × (end ≤ length out.old) }
    ensures start { (result ≤ end) × (end ≤ result + 21) }
    ensures text { drop result out.new ≡ 46 ∷ (decimal n ++ drop end out.old) }
{
    let start = write_digits(n, out, end) - 1;
    out[start] = b'.';
    start
}

/// Writes the text of the branch so that it ends at the end of `out`, and says where it begins.
fn place_branch(out: &mut [u8], name: &BranchName) -> usize
    requires { length out.old ≡ 102 }
    ensures start { result ≤ 102 }
    ensures text { drop result out.new ≡ branch_text name.now }
{
    let start = place_dotted(out, MOST, u64::from(name.target));
    let start = place_dotted(out, start, name.context);
    let start = place_dotted(out, start, u64::from(name.instance));
    let start = place_text(out, start, &key_digits(&name.key));
    place_text(out, start, b"z9hG4bK")
}

/// Appends the branch parameter of that name (RFC 3261 section 8.1.1.7): the magic cookie, the key
/// in lower case hexadecimal digits, and the three numbers in decimal, a dot before each.
///
/// # Errors
///
/// Only where the growth of `out` is refused; `out` is then unchanged.
pub fn write_branch<A: Allocator>(name: &BranchName, out: &mut Vec<u8, A>) -> Result<(), AllocError>
    ensures ok { OnOk result (out.new.items ≡ out.old.items ++ branch_text name.now) }
    ensures token { list_all is_token_byte (branch_text name.now) ≡ true }
    ensures err { OnErr result (out.new.items ≡ out.old.items) }
    ensures room { vec_len out.old + length (branch_text name.now) ≤ vec_capacity out.old → IsOk result }
    ensures capacity { vec_capacity out.old ≤ vec_capacity out.new }
{
    name.is_token();
    let mut text = [0; MOST];
    let start = place_branch(&mut text, name);
    out.extend_from_slice(&text[start..])
}

/// The key that thirty-two digits spell.
fn read_key(text: &[u8]) -> Option<[u8; 16]>
    ensures found { IfSome result (λ key. text.now ≡ hex_text key) }
    ensures none { IfNone result
        ((key : List ℕ) → length key ≡ 16 → AllByRecursion (λ byte. byte < 2 ^ 8) key → text.now ≢ hex_text key) }
{
    if text.len() != 32 {
        return None;
    }
    let mut key = [0; 16];
    for i in 0..16 {
        key[i] = read_pair(text[2 * i], text[2 * i + 1])?;
    }
    Some(key)
}

/// A branch parameter behind its cookie: the digits of the key, and the numbers between the dots.
#[derive(Drop)]
struct SplitBranch<'a> {
    key: &'a [u8],
    instance: &'a [u8],
    context: &'a [u8],
    target: &'a [u8],
}

/// The numbers between their dots.
fn split_numbers<'a>(key: &'a [u8], numbers: &'a [u8]) -> Option<SplitBranch<'a>>
    ensures { seen_parts result ≡ with_instance key.now (cut (is 46) numbers.now) }
{
    let (instance, rest) = cut_near(numbers, b'.');
    let (context, rest) = cut_near(rest?, b'.');
    let target = rest?;
    Some(SplitBranch {
        key,
        instance,
        context,
        target,
    })
}

/// The numbers behind the key's dot.
fn split_behind_key<'a>(key: &'a [u8], rest: &'a [u8]) -> Option<SplitBranch<'a>>
    ensures { seen_parts result ≡ with_key key.now rest.now }
{
    match rest {
        [b'.', numbers @ ..] => split_numbers(key, numbers),
        _ => None,
    }
}

fn split_parts(text: &[u8]) -> Option<SplitBranch<'_>>
    ensures { seen_parts result ≡ parts_of text.now }
{
    if text.len() < 32 {
        return None;
    }
    split_behind_key(&text[..32], &text[32..])
}

fn read_parts(parts: &SplitBranch<'_>) -> Option<BranchName>
    ensures found { IfSome result (λ name. view_parts parts.now ≡ branch_parts name) }
    ensures only { (b : BranchName) → IsBranch b → view_parts parts.now ≡ branch_parts b → result ≡ Some b }
{
    let key = read_key(parts.key)?;
    let instance = read_plain_number(parts.instance, u64::from(u32::MAX))? as u32;
    let context = read_plain_number(parts.context, u64::MAX)?;
    let target = read_plain_number(parts.target, u64::from(u16::MAX))? as u16;
    Some(BranchName {
        key,
        instance,
        context,
        target,
    })
}

/// What a branch parameter says; `None` where `write_branch` gives no such text, as where a digit of
/// the key is an upper case letter or a number begins with a zero too many.
pub fn read_branch(text: &[u8]) -> Option<BranchName>
    ensures found { IfSome result (λ name. text.now ≡ branch_text name) }
    ensures only { (b : BranchName) → IsBranch b → text.now ≡ branch_text b → result ≡ Some b }
{
    let parts = split_parts(text.strip_prefix(b"z9hG4bK")?)?;
    read_parts(&parts)
}
