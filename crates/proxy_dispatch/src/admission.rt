//! Which requests may open calls, and what is decided of them.
ghost use Rattle.std.specs.Prelude.{◌≡◌, ◌&&◌, IfOk, true};
ghost use Rattle.proxy_config.specs.Setup as spec;
ghost use Rattle.proxy_dispatch.specs.Admitting.{Serving, is_for_registrar, open_all, opener_of};
ghost use Rattle.proxy_dispatch.specs.SeenDecision.{seen_decision};

use authentication::OwnAnswer;
use fork_call::Setup;
use proxy_config::DialogToken;
use proxy_routing::is_responsible_for;
use sip_route::request_uri;
use sip_text::Message;
use sip_uri::{Hop, SipUri, UriFault};
use std::alloc::{AllocError, Allocator};
use std::sync::Wait;

/// Which request may open a call.
#[derive(Clone, Copy, PartialEq, Eq, Debug)]
pub enum Opener {
    /// One outside of any dialog: its To has no tag (RFC 3261 section 12.2).
    OutsideDialog,
    /// One within a dialog.
    WithinDialog,
    /// A REGISTER for the domain, where there is a registrar: it opens none (section 10.2).
    Registering,
}

/// What is decided of a request that may open a call.
#[derive(Drop)]
pub enum Decision<A: Allocator> {
    /// It is opened by the setup as it stands.
    Opens,
    /// It is opened by the setup as it stands, but with this token in the Record-Route line of the dialog that it opens.
    OpensWith(DialogToken),
    /// It is opened by this setup: that of the moment, in which the locations of a user may be others, the ways, and the token of a
    /// dialog.
    OpensBy(Setup<A>),
    /// It opens nothing, and is answered so.
    Answers(OwnAnswer<A>),
    /// It opens nothing, and another answers it, or nobody.
    Leaves,
}

/// Who says which requests may open calls, and which do, of a proxy whose calls have their memory from `A`. It is asked for each request
/// that would open one, once no call has its key, and for each ACK that no call has, and for no other datagram.
pub trait Admission<A: Allocator> {
    ghost use Rattle.proxy_dispatch.specs.Admitting.{Serving, open_all};

    /// What is said of requests.
    ghost serving: { Self → Serving } = { λ _. open_all };

    /// Whether such a request may open a call now. Of each request that was admitted it is either told by `Handled::Opened`
    /// that it opened a call, or `release` is called.
    fn admits<R: Wait>(&self, rt: &R, opener: Opener) -> bool
        ensures { (Self.serving self.now).admits opener result };

    /// Takes note that a request that was admitted opened no call.
    fn release<R: Wait>(&self, rt: &R);

    /// What is decided of a request as it was received. It is decided before anything is looked at of RFC 3261 section 16.3, and holds
    /// where nothing of that stops the request. An ACK is asked for, too: it goes on where it would be opened.
    ///
    /// # Errors
    ///
    /// Only where the allocator refuses.
    fn decides<R: Wait>(
        &self,
        rt: &R,
        alloc: &A,
        setup: &Setup<A>,
        request: &Message<A>,
        source: Hop,
        now: u64,
    ) -> Result<Decision<A>, AllocError>
        ensures { IfOk result (λ decision. (Self.serving self.now).decides setup.now request.now source now (seen_decision setup.now decision)) };

    /// Whether there is a registrar, which answers each REGISTER for the domain (RFC 3261 section 10.2).
    fn has_registrar(&self) -> bool
        ensures { result ≡ (Self.serving self.now).registrar };

    /// How the registrar answers a REGISTER for the domain, which has its source (section 18.2.1); where nothing is said here, another
    /// answers it, or nobody.
    ///
    /// # Errors
    ///
    /// Only where the allocator refuses.
    fn registers<R: Wait>(
        &self,
        rt: &R,
        alloc: &A,
        setup: &Setup<A>,
        request: &Message<A>,
        source: Hop,
        now: u64,
    ) -> Result<Option<OwnAnswer<A>>, AllocError>
        ensures { IfOk result (λ answer. (Self.serving self.now).registers setup.now request.now source now answer) };
}

/// Admits every request, and opens each by the setup as it stands.
#[derive(Clone, Copy, PartialEq, Eq, Debug)]
pub struct Unlimited;

impl<A: Allocator + Clone> Admission<A> for Unlimited {
    ghost serving = { λ _. record open_all { admits = λ _ admitted. admitted ≡ true } };

    fn admits<R: Wait>(&self, _rt: &R, _opener: Opener) -> bool {
        true
    }

    fn release<R: Wait>(&self, _rt: &R) {}

    fn decides<R: Wait>(
        &self,
        _rt: &R,
        _alloc: &A,
        _setup: &Setup<A>,
        _request: &Message<A>,
        _source: Hop,
        _now: u64,
    ) -> Result<Decision<A>, AllocError> {
        Ok(Decision::Opens)
    }

    fn has_registrar(&self) -> bool {
        false
    }

    fn registers<R: Wait>(
        &self,
        _rt: &R,
        _alloc: &A,
        _setup: &Setup<A>,
        _request: &Message<A>,
        _source: Hop,
        _now: u64,
    ) -> Result<Option<OwnAnswer<A>>, AllocError> {
        Ok(None)
    }
}

/// Whether a request is a REGISTER for the domain (RFC 3261 section 10.2).
fn is_for_registrar<A: Allocator + Clone>(
    alloc: A,
    setup: &Setup<A>,
    request: &Message<A>,
) -> Result<bool, AllocError>
    ensures { IfOk result (λ is. is ≡ is_for_registrar setup.now request.now) }
{
    if request.method().unwrap_or(b"") != b"REGISTER".as_slice() {
        return Ok(false);
    }
    match SipUri::read(alloc, request_uri(request)) {
        Ok(uri) => Ok(is_responsible_for(setup, &uri)),
        Err(UriFault::NoMemory) => Err(AllocError),
        Err(_) => Ok(false),
    }
}

/// Whether a request is for the registrar, if there is one.
fn registers<A: Allocator + Clone>(
    alloc: A,
    setup: &Setup<A>,
    has_registrar: bool,
    request: &Message<A>,
) -> Result<bool, AllocError>
    ensures { IfOk result (λ is. is ≡ (has_registrar && is_for_registrar setup.now request.now)) }
{
    if !has_registrar {
        return Ok(false);
    }
    is_for_registrar(alloc, setup, request)
}

/// Which request this is.
pub(crate) fn opener_of<A: Allocator + Clone>(
    alloc: A,
    setup: &Setup<A>,
    has_registrar: bool,
    request: &Message<A>,
) -> Result<Opener, AllocError>
    ensures { IfOk result (λ opener. opener ≡ opener_of has_registrar setup.now request.now) }
{
    if registers(alloc, setup, has_registrar, request)? {
        return Ok(Opener::Registering);
    }
    match request.to_tag() {
        None => Ok(Opener::OutsideDialog),
        Some(_) => Ok(Opener::WithinDialog),
    }
}
