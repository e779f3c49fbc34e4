//! SIP URIs.

ghost use Rattle.std.specs.Prelude.{◌≡◌, ◌+◌, ◌≤◌, ◌++◌, ◌↔◌, IfOk, IfErr, IsOk, OnOk, OnErr, IsTrue, Ok, Bool, List, ℕ, drop, length, vec_capacity, vec_len};
ghost use Rattle.std.specs.List.{list_all, list_any};
ghost use Rattle.std.specs.List.Sorted.{IsStrictlySortedBy};
ghost use Rattle.std.specs.Ordering.{nat_cmp};
ghost use Rattle.std.specs.Cmp.Lexicographic.{slice_cmp};
ghost use Rattle.std.specs.Option.{option_copied};
ghost use Rattle.sip_uri.specs.Fault.{Gives, refusal};
ghost use Rattle.sip_uri.specs.Grammar.{IsUri, is_uri_byte};
ghost use Rattle.sip_uri.specs.Hop.{hop_of};
ghost use Rattle.sip_uri.specs.Key.{counted, key_of, key_params};
ghost use Rattle.sip_uri.specs.Reading.{parts_of, read_uri, uri_of};
ghost use Rattle.sip_uri.specs.inner.Key.{parts_key};
ghost use Rattle.sip_uri.specs.inner.Seen.{parts};
ghost use Rattle.sip_uri.specs.Uri.{Uri, request_uri, requested, spelling};

use crate::cut::{UriParts, cut_body, user_and_rest};
use crate::fault::UriFault;
use crate::hop::Hop;
use crate::host::cut_host;
use crate::key::append_key;
use crate::next::hop_of;
use crate::text::cut_uri;
use crate::texts::UriTexts;
use crate::write::append_request_uri;
use std::alloc::{AllocError, Allocator};
use std::marker::Model;

/// A SIP URI: its text as written, and its key.
#[derive(Drop)]
pub struct SipUri<A: Allocator> {
    texts: UriTexts<A>,
}

impl<A: Allocator> Model for SipUri<A> {
    ghost use Rattle.std.specs.Prelude.{Ok};
    ghost use Rattle.sip_uri.specs.Uri.{Uri};
    ghost use Rattle.sip_uri.specs.Reading.{uri_of};
    ghost use Rattle.sip_uri.specs.Kept.{IsKept};

    ghost Value = { Uri };

    ghost view = { λ s. uri_of s.texts.0 };

    ghost invariant = { λ s. IsKept s.texts.0 s.texts.1 };
}

/// What is kept of a text with these parts, in one block of memory.
#[tactic(auto, using(crate::proofs::TwoTexts::two_texts))]
fn texts_of<A: Allocator + Clone>(
    alloc: A,
    text: &[u8],
    cut: &UriParts<'_>,
) -> Result<UriTexts<A>, AllocError>
    ensures { IfOk result (λ texts. texts ≡ (text.now, parts_key (parts cut.now))) }
{
    // The key is never longer than the text.
    let mut bytes = Vec::with_capacity(alloc.clone()?, text.len().saturating_mul(2))?;
    bytes.extend_from_slice(text)?;
    append_key(&alloc, &mut bytes, cut)?;
    Ok(UriTexts::of(bytes, text.len()))
}

/// The URI that a text with these parts spells.
fn uri_with<A: Allocator + Clone>(
    alloc: A,
    text: &[u8],
    cut: &UriParts<'_>,
) -> Result<SipUri<A>, AllocError>
    requires read { read_uri text.now ≡ Ok (uri_of text.now) }
    requires parts { parts cut.now ≡ parts_of (drop 4 text.now) }
    ensures { IfOk result (λ u. u ≡ uri_of text.now) }
{
    Ok(SipUri {
        texts: texts_of(alloc, text, cut)?,
    })
}

fn read_all<A: Allocator + Clone>(alloc: A, text: &[u8]) -> Result<SipUri<A>, UriFault>
    ensures read { Gives (λ u. u) result (read_uri text.now) }
    ensures refused { IfErr result (λ fault. fault ≡ refusal (read_uri text.now)) }
{
    let cut = cut_uri(text)?;
    let uri = uri_with(alloc, text, &cut)?;
    Ok(uri)
}

impl<A: Allocator + Clone> SipUri<A> {
    /// The URI that the text spells (RFC 3261 section 19.1.1).
    ///
    /// # Errors
    ///
    /// The first that holds of: `NotSip`; `BadText` for a byte outside 33 to 126, or `<`, `>`, `"`;
    /// `BadHost`; `BadPort`; `BadText` for an empty user or an empty part of a parameter; and at
    /// last `NoMemory`.
    pub fn read(alloc: A, text: &[u8]) -> Result<SipUri<A>, UriFault>
        ensures found { IfOk result (λ u. IsUri u × (text.now ≡ spelling u)) }
        ensures only { (u : Uri) → IsUri u → text.now ≡ spelling u
            → Gives (λ v. v) result (Ok u) }
        ensures exact { Gives (λ u. u) result (read_uri text.now) }
        // a fault of the text comes before want of memory
        ensures refused { IfErr result (λ fault. fault ≡ refusal (read_uri text.now)) }
    {
        read_all(alloc, text)
    }

    /// The URI that a text spells which is known to spell one: it is not tested again.
    ///
    /// # Errors
    ///
    /// Only where the allocator refuses.
    #[tactic(auto, using(crate::proofs::Readable::readable, crate::proofs::Readable::readable_long))]
    pub fn of_readable(alloc: A, text: &[u8]) -> Result<SipUri<A>, AllocError>
        requires { IsOk (read_uri text.now) }
        ensures { IfOk result (λ u. read_uri text.now ≡ Ok u) }
    {
        let cut = cut_body(&text[4..]);
        uri_with(alloc, text, &cut)
    }

    /// What stands before the `@`, as written, if there is one: `userinfo` of RFC 3261 section 25.1
    /// without its `@`. Escapes are not decoded.
    #[tactic(auto, unfolding(crate::specs::Reading::parts_of))]
    pub fn user(&self) -> Option<&[u8]>
        ensures { option_copied result ≡ self.now.user }
    {
        user_and_rest(&self.texts.text()[4..]).0
    }

    /// The host as written (RFC 3261 section 25.1).
    #[tactic(auto, unfolding(crate::specs::Reading::parts_of))]
    pub fn host(&self) -> &[u8]
        ensures value { result.now ≡ self.now.host }
        // Each URI that there is keeps the grammar.
        ensures grammar { IsUri self.now }
    {
        let (_, rest) = user_and_rest(&self.texts.text()[4..]);
        cut_host(rest).0
    }

    /// Each URI that was read keeps the grammar (RFC 3261 section 25.1). A law: it does nothing when it
    /// runs.
    pub fn is_uri(&self)
        ensures { IsUri self.now }
    {
        let _texts = &self.texts;
    }

    /// Whether two URIs name the same target (RFC 3261 section 16.5), as their keys say. This is not
    /// the comparison of section 19.1.4.
    pub fn same_target(&self, other: &SipUri<A>) -> bool
        ensures { IsTrue result ↔ (key_of self.now ≡ key_of other.now) }
    {
        self.key() == other.key()
    }

    /// Where a request to this URI is sent (RFC 3261 section 16.6, over UDP or TCP and IPv4): the host
    /// is an IPv4 address, there is no parameter `maddr`, and each `transport` is `udp`, or each is
    /// `tcp`. Without a `transport` it is sent over UDP. The port is the URI's or 5060.
    pub fn next_hop(&self) -> Option<Hop>
        ensures { result ≡ hop_of self.now }
    {
        hop_of(&cut_body(&self.texts.text()[4..]))
    }

    /// Appends the text without `method` parameters and headers, as it stands in a request (RFC 3261
    /// sections 16.6 and 19.1.1).
    ///
    /// # Errors
    ///
    /// Only where `out` lacks room for that and its growth is refused; `out` is then unchanged.
    pub fn request_uri<B: Allocator>(&self, out: &mut Vec<u8, B>) -> Result<(), AllocError>
        ensures ok { OnOk result (out.new.items ≡ out.old.items ++ request_uri self.now) }
        ensures bytes { IsTrue (list_all is_uri_byte (request_uri self.now)) }
        ensures err { OnErr result (out.new.items ≡ out.old.items) }
        ensures room { vec_len out.old + length (request_uri self.now) ≤ vec_capacity out.old
            → IsOk result }
        ensures capacity { vec_capacity out.old ≤ vec_capacity out.new }
    {
        append_request_uri(out, self.texts.text())
    }

    /// What is kept of the URI as it stands in a request, in room for `size` bytes.
    #[tactic(auto, using(crate::proofs::TwoTexts::two_texts))]
    fn requested_texts(&self, alloc: A, size: usize) -> Result<UriTexts<A>, AllocError>
        ensures { IfOk result (λ texts. texts ≡ (request_uri self.now, key_of self.now)) }
    {
        let mut bytes = Vec::with_capacity(alloc, size)?;
        self.request_uri(&mut bytes)?;
        let len = bytes.len();
        bytes.extend_from_slice(self.key())?;
        Ok(UriTexts::of(bytes, len))
    }

    /// The URI as it stands in a request: without `method` parameters and headers (RFC 3261 section
    /// 19.1.1). What is made names the same target.
    ///
    /// # Errors
    ///
    /// Only where the allocator refuses.
    pub fn requested(&self, alloc: A) -> Result<SipUri<A>, AllocError>
        ensures { IfOk result (λ made. made ≡ requested self.now) }
    {
        let texts = self.requested_texts(alloc, self.texts.size())?;
        Ok(SipUri { texts })
    }

    /// The bytes that tell the target of a URI from others (RFC 3261 section 16.5): two URIs with the
    /// same key name one target, and no others do.
    pub fn key(&self) -> &[u8]
        ensures { result.now ≡ key_of self.now }
    {
        self.texts.key()
    }

    /// Appends the key of the URI.
    ///
    /// # Errors
    ///
    /// Only where `out` lacks room for that and its growth is refused; `out` is then unchanged.
    pub fn target_key<B: Allocator>(&self, out: &mut Vec<u8, B>) -> Result<(), AllocError>
        ensures ok { OnOk result (out.new.items ≡ out.old.items ++ key_of self.now) }
        // The parameters of a key ascend, and are those that count: a test that passes at one of these
        // passes at one of those, and the other way round.
        ensures sorted { IsStrictlySortedBy (slice_cmp nat_cmp) (key_params self.now.params) }
        ensures members { (p : List ℕ → Bool)
            → list_any p (key_params self.now.params) ≡ list_any p (counted self.now.params) }
        ensures err { OnErr result (out.new.items ≡ out.old.items) }
        ensures room { vec_len out.old + length (key_of self.now) ≤ vec_capacity out.old
            → IsOk result }
    {
        out.extend_from_slice(self.key())
    }
}
