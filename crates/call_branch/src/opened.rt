//! What a call is opened with, and no step changes.
ghost use Rattle.std.specs.Prelude.{◌≡◌, IfOk, IfSome, IsTrue, true};
ghost use Rattle.std.specs.List.{list_all};
ghost use Rattle.std.specs.Option.{option_copied, option_map};
ghost use Rattle.sip_text.specs.Message.{is_header, is_value};
ghost use Rattle.sip_text.specs.Name.{first_value};
ghost use Rattle.sip_text.specs.Seen.{view_lines};
ghost use Rattle.sip_text.specs.Text.{spelling};
ghost use Rattle.sip_via.specs.OwnVia.{over};
ghost use Rattle.sip_route.specs.Hops.{IsHops, hops_name};
ghost use Rattle.sip_build.specs.Forwarding.{is_request};
ghost use Rattle.fork_rank.specs.KindView as kinds;
ghost use Rattle.call_model.specs.Built.{ack_to, cancel_to, request_to};
ghost use Rattle.call_model.specs.OpenedRequest.{branch_at, by_connection, is_invite, kind_of, recorded_to, sized_hop};
ghost use Rattle.call_branch.specs.BranchInside.{ack_made};
ghost use Rattle.call_branch.specs.OpenedRequestInside.{opened_with};

use crate::destination::Destination;
use call_model::TriedContacts;
use fork_rank::Kind;
use sip_branch::BranchName;
use sip_build::{write_forwarded, write_forwarded_ack, write_forwarded_cancel};
use sip_route::loop_key;
use sip_text::{HeaderLine, Message};
use sip_txn::TxSend;
use sip_uri::{Hop, Transport};
use sip_via::Own;
use std::alloc::{AllocError, Allocator, Global};
use std::marker::Model;

/// What a call is opened with, each part under its name.
#[derive(Drop)]
pub struct Opening<A: Allocator = Global> {
    /// The number of the call, by which its branches are named.
    pub number: u64,
    /// The address that the proxy receives at.
    pub own: Own,
    /// The number of the proxy, by which its branches are named, too.
    pub instance: u32,
    /// The request as it was marked with its source, and stripped of the proxy's own Route value (RFC 3261 sections 16.4 and
    /// 18.2.1).
    pub request: Message<A>,
    /// Where the answers to the caller go (RFC 3261 section 18.2.2).
    pub caller: Hop,
    /// The hop of the request's first Route value, if it has one (RFC 3261 section 16.6 step 6).
    pub route: Option<Hop>,
    /// Which contacts of a 3xx are tried: none where the proxy is not responsible for the Request-URI of the request (RFC 3261
    /// section 16.5).
    pub tried: TriedContacts,
    /// The value of the Record-Route line that the request gets on its way to each target over UDP, where it gets one (RFC 3261 section
    /// 16.6 step 4).
    pub record_route: Option<Vec<u8, A>>,
    /// That of those over connections.
    pub stream_record_route: Option<Vec<u8, A>>,
    /// Whether the 100 to the request takes its Timestamp line (RFC 3261 section 8.2.6.1).
    pub stamps: bool,
    /// Whether the CANCELs of its branches say why they are sent (RFC 3326).
    pub reasons: bool,
    /// The longest time of the branches to contacts of a 3xx, in milliseconds.
    pub ring: u64,
    /// Whether its requests are too large for datagrams, and go over connections instead (RFC 3261 section 18.1.1).
    pub large: bool,
}

/// A connection in place of datagrams.
fn by_connection(transport: Transport) -> Transport
    ensures { result ≡ by_connection transport }
{
    match transport {
        Transport::Udp => Transport::Tcp,
        Transport::Tcp => Transport::Tcp,
        Transport::Back(port) => Transport::Back(port),
    }
}

/// What a call is opened with, and no step changes: its request, the numbers that name its branches, where its answers go, and
/// what its requests and its 100 take beside.
#[derive(Drop)]
pub struct OpenedRequest<A: Allocator = Global> {
    opening: Opening<A>,
    key: [u8; 16],
    invite: bool,
}

impl<A: Allocator> Model for OpenedRequest<A> {
    ghost use Rattle.call_model.specs.OpenedRequest as spec;
    ghost use Rattle.call_branch.specs.OpenedRequestInside.{IsOpenedRequest, opened_with};

    ghost Value = { spec.OpenedRequest };

    ghost view = { λ f. opened_with f.opening };

    ghost invariant = { λ f. IsOpenedRequest (opened_with f.opening) f.key f.invite };
}

impl<A: Allocator> OpenedRequest<A> {
    /// What a call is opened with, by all its parts.
    pub fn new(opening: Opening<A>) -> Self
        requires request { is_request opening.request.start ≡ true }
        requires hops { IfSome (first_value hops_name opening.request.headers) IsHops }
        requires record_route { IfSome (option_map (λ v. v.items) opening.record_route) (λ value. IsTrue (is_value value)) }
        requires stream_record_route { IfSome (option_map (λ v. v.items) opening.stream_record_route) (λ value. IsTrue (is_value value)) }
        ensures { result ≡ opened_with opening }
    {
        let key = loop_key(&opening.request);
        let invite = opening.request.is_invite();
        OpenedRequest {
            opening,
            key,
            invite,
        }
    }

    /// Gives the call this number.
    pub fn set_number(&mut self, number: u64)
        ensures { self.new ≡ record self.old { number = number } }
    {
        self.opening.number = number;
    }

    /// The number that the call was opened with.
    pub fn number(&self) -> u64
        ensures { result ≡ self.now.number }
    {
        self.opening.number
    }

    /// The address of the proxy that the call was opened at.
    pub fn own(&self) -> Own
        ensures { result ≡ self.now.own }
    {
        self.opening.own
    }

    /// The request that the call was opened with.
    pub fn request(&self) -> &Message<A>
        ensures { result.now ≡ self.now.request }
    {
        &self.opening.request
    }

    /// The request alone, of a call that is not to be.
    pub fn into_request(self) -> Message<A>
        ensures { result ≡ self.request }
    {
        let opening = self.opening;
        opening.request
    }

    /// Where the answers to the caller go.
    pub fn caller(&self) -> Hop
        ensures { result ≡ self.now.caller }
    {
        self.opening.caller
    }

    /// The hop of the first Route value of the request, if it has one.
    pub fn route(&self) -> Option<Hop>
        ensures { result ≡ self.now.route }
    {
        self.opening.route
    }

    /// Which contacts of a 3xx are tried (RFC 3261 section 16.5).
    pub fn tried(&self) -> TriedContacts
        ensures { result ≡ self.now.tried }
    {
        self.opening.tried
    }

    /// Whether the 100 to the request takes its Timestamp line (RFC 3261 section 8.2.6.1).
    pub fn stamps(&self) -> bool
        ensures { result ≡ self.now.stamps }
    {
        self.opening.stamps
    }

    /// Whether the CANCELs of the branches say why they are sent (RFC 3326).
    pub fn reasons(&self) -> bool
        ensures { result ≡ self.now.reasons }
    {
        self.opening.reasons
    }

    /// The longest time of the branches to contacts of a 3xx, in milliseconds.
    pub fn ring(&self) -> u64
        ensures { result ≡ self.now.ring }
    {
        self.opening.ring
    }

    /// The hop by which a request to a target goes that this one leads to: over a connection where it would be too large for a datagram
    /// (RFC 3261 section 18.1.1).
    pub fn sized_hop(&self, hop: Hop) -> Hop
        ensures { result ≡ sized_hop self.now.large hop }
    {
        if !self.opening.large {
            return hop;
        }
        let addr = hop.addr;
        Hop {
            addr,
            port: hop.port,
            transport: by_connection(hop.transport),
        }
    }

    /// The value of the Record-Route line that the requests to the targets over UDP get, where they get one (RFC 3261 section 16.6 step
    /// 4).
    fn record_route(&self) -> Option<&[u8]>
        ensures value { option_copied result ≡ self.now.record_route }
        ensures good { IfSome (option_copied result) (λ value. IsTrue (is_value value)) }
    {
        match &self.opening.record_route {
            Some(value) => Some(value),
            None => None,
        }
    }

    /// That of the requests over connections.
    fn stream_record_route(&self) -> Option<&[u8]>
        ensures value { option_copied result ≡ self.now.stream_record_route }
        ensures good { IfSome (option_copied result) (λ value. IsTrue (is_value value)) }
    {
        match &self.opening.stream_record_route {
            Some(value) => Some(value),
            None => None,
        }
    }

    /// That of the requests over this transport.
    fn recorded_to(&self, transport: Transport) -> Option<&[u8]>
        ensures value { option_copied result ≡ recorded_to self.now transport }
        ensures good { IfSome (option_copied result) (λ value. IsTrue (is_value value)) }
    {
        match transport {
            Transport::Udp => self.record_route(),
            Transport::Tcp | Transport::Back(_) => self.stream_record_route(),
        }
    }

    /// The own address as the Via value of what is sent there has it (RFC 3261 section 18.1.1).
    fn own_to(&self, destination: &Destination<A>) -> Own
        ensures { result ≡ over self.now.own destination.now.hop.transport }
    {
        self.own().over(destination.hop().transport)
    }

    /// Whether the request is an INVITE.
    pub fn is_invite(&self) -> bool
        ensures { result ≡ is_invite self.now }
    {
        self.invite
    }

    /// The kind of the request, an INVITE or another one.
    pub fn kind(&self) -> Kind
        ensures { kinds.kind_of result ≡ kind_of self.now }
    {
        if self.invite {
            Kind::Invite
        } else {
            Kind::Other
        }
    }

    /// The name of the branch to target n, which the Via value of its request carries (RFC 3261 section 16.6 step 8).
    pub fn branch(&self, n: u16) -> BranchName
        ensures { result ≡ branch_at self.now n }
    {
        BranchName {
            key: self.key,
            instance: self.opening.instance,
            context: self.opening.number,
            target: n,
        }
    }
}

impl<A: Allocator + Clone> OpenedRequest<A> {
    /// The request as it is sent to target n (RFC 3261 section 16.6).
    pub fn request_bytes(
        &self,
        alloc: &A,
        destination: &Destination<A>,
        n: u16,
    ) -> Result<Vec<u8, A>, AllocError>
        ensures { IfOk result (λ bytes. bytes.items ≡ spelling (request_to self.now destination.now n)) }
    {
        let branch = self.branch(n);
        let mut bytes = Vec::new(alloc.clone()?);
        write_forwarded(
            &self.opening.request,
            destination.uri(),
            self.own_to(destination),
            &branch,
            self.recorded_to(destination.hop().transport),
            &mut bytes,
        )?;
        Ok(bytes)
    }

    /// The ACK for a failure of branch n, as it is sent (RFC 3261 section 17.1.1.3).
    pub(crate) fn ack_bytes(
        &self,
        alloc: &A,
        destination: &Destination<A>,
        n: u16,
        response: &Message<A>,
    ) -> Result<Vec<u8, A>, AllocError>
        ensures { IfOk result (λ bytes. bytes.items ≡ spelling (ack_to self.now destination.now n response.now)) }
    {
        let branch = self.branch(n);
        let mut bytes = Vec::new(alloc.clone()?);
        let request = &self.opening.request;
        write_forwarded_ack(
            request,
            destination.uri(),
            self.own_to(destination),
            &branch,
            response,
            &mut bytes,
        )?;
        Ok(bytes)
    }

    /// The ACK for a failure of branch n, as it is sent, where the client transaction asks for one.
    pub fn ack_if(
        &self,
        alloc: &A,
        destination: &Destination<A>,
        n: u16,
        send: TxSend,
        response: &Message<A>,
    ) -> Result<Option<Vec<u8, A>>, AllocError>
        ensures { IfOk result (λ ack. option_map (λ v. v.items) ack ≡ ack_made send (spelling (ack_to self.now destination.now n response.now))) }
    {
        match send {
            TxSend::Ack => Ok(Some(self.ack_bytes(alloc, destination, n, response)?)),
            TxSend::Nothing | TxSend::Request | TxSend::Response => Ok(None),
        }
    }

    /// The CANCEL of branch n, as it is sent, with these lines, which say why (RFC 3261 section 9.1 and RFC 3326).
    pub fn cancel_bytes(
        &self,
        alloc: &A,
        destination: &Destination<A>,
        n: u16,
        reasons: &[HeaderLine<'_>],
    ) -> Result<Vec<u8, A>, AllocError>
        requires reasons { list_all is_header (view_lines reasons.now) ≡ true }
        ensures { IfOk result (λ bytes. bytes.items ≡ spelling (cancel_to self.now destination.now n (view_lines reasons.now))) }
    {
        let branch = self.branch(n);
        let mut bytes = Vec::new(alloc.clone()?);
        write_forwarded_cancel(
            &self.opening.request,
            destination.uri(),
            self.own_to(destination),
            &branch,
            reasons,
            &mut bytes,
        )?;
        Ok(bytes)
    }
}
