//! The connections of a proxy.
ghost use Rattle.std.specs.Prelude.{◌≡◌, ◌≢◌, ◌≤◌, ◌<◌, ◌+◌, ◌-◌, ℕ, [], None, Some, false, true, length, is_some, IfErr, IfOk, IfSome, OnErr, OnOk};
ghost use Rattle.std.specs.Option.{option_copied};
ghost use Rattle.std.specs.BTreeMap.{insert_entry, is_at};
ghost use Rattle.std.specs.Map.{lookup};
ghost use Rattle.std.specs.Ordering.{nat_cmp};
ghost use Rattle.stream_connections.specs.Changing.{IsAdded, IsFree, IsRefusedBy, IsRemoved, IsSourceFault, IsUnchanged};
ghost use Rattle.stream_connections.specs.Sources.{HasNow, IsSame, count_of};
ghost use Rattle.stream_connections.specs.Table.{IsNextBehind, connection_of, is_full, may_open, number_of, peer_number, weight};

use crate::sources::SourceCounts;
use sip_uri::Hop;
use std::alloc::{AllocError, Allocator, Global};
use std::collections::BTreeMap;
use std::marker::Model;
use std::ops::Bound;

/// Who opened a connection.
#[derive(Clone, Copy, Debug, PartialEq, Eq)]
pub enum Opener {
    Peer,
    Proxy,
}

/// Why a connection is not kept.
#[derive(Clone, Copy, Debug, PartialEq, Eq)]
pub enum TableFault {
    /// As many are kept as may be.
    Full,
    /// Its address has opened as many as it may.
    SourceFull,
    NoMemory,
}

/// A connection that is not kept, and why.
#[derive(Drop)]
pub struct Refusal<C> {
    pub fault: TableFault,
    pub connection: C,
}

/// A connection that is kept, its peer, and who opened it.
#[derive(Drop)]
pub struct TableEntry<C> {
    /// The peer's address and port as one number.
    pub peer: u64,
    /// The peer's address as a number.
    pub source: u32,
    pub opener: Opener,
    pub connection: C,
}

/// The address and the port of a hop as one number: the peer of the connection that it is reached by.
pub fn peer_number(hop: Hop) -> u64
    ensures { result ≡ peer_number hop }
{
    u64::from(u32::from_be_bytes(hop.addr)) * 65_536 + u64::from(hop.port)
}

/// The connections of a proxy, each by a number of its own and by its peer.
///
/// A number is given out by [`add`](ConnectionTable::add) alone, and the connection stands there then: whoever has its socket told of by that
/// number, as a poll does, is told of none that cannot be found.
#[derive(Drop)]
pub struct ConnectionTable<C, A: Allocator = Global> {
    most: usize,
    next: u64,
    connections: BTreeMap<u64, TableEntry<C>, A>,
    peers: BTreeMap<u64, u64, A>,
    sources: SourceCounts<A>,
}

impl<C, A: Allocator> Model for ConnectionTable<C, A> {
    ghost use Rattle.stream_connections.specs.Table as table;

    ghost Value = { table.Table C };

    ghost view = { λ t. record { most = t.most; next = t.next; connections = t.connections.entries; peers = t.peers.entries; sources = t.sources } };

    ghost invariant = { λ t. table.IsSound (record { most = t.most; next = t.next; connections = t.connections.entries; peers = t.peers.entries; sources = t.sources }) };
}

/// Keeps a connection by a number that none has, and its peer by that number.
///
/// # Errors
///
/// The connection, where the allocator refuses; then nothing has changed.
#[tactic(auto, using(crate::proofs::Entries::remove_inserted))]
fn keep<C: Drop, A: Allocator + Clone>(
    connections: &mut BTreeMap<u64, TableEntry<C>, A>,
    peers: &mut BTreeMap<u64, u64, A>,
    number: u64,
    entry: TableEntry<C>,
) -> Result<(), TableEntry<C>>
    requires { lookup (is_at (nat_cmp number)) connections.old.entries ≡ None }
    ensures kept { OnOk result (connections.new.entries ≡ insert_entry nat_cmp connections.old.entries number entry) }
    ensures named { OnOk result (peers.new.entries ≡ insert_entry nat_cmp peers.old.entries entry.peer number) }
    ensures back { IfErr result (λ back. back ≡ entry) }
    ensures unkept { OnErr result (connections.new.entries ≡ connections.old.entries) }
    ensures unnamed { OnErr result (peers.new.entries ≡ peers.old.entries) }
{
    let peer = entry.peer;
    if let Err(refused) = connections.insert(number, entry) {
        return Err(refused.value.1);
    }
    if peers.insert(peer, number).is_ok() {
        return Ok(());
    }
    match connections.remove(&number) {
        Some(entry) => Err(entry),
        None => unreachable!(),
    }
}

/// Takes a peer's number away, where it is this one.
fn forget_peer<A: Allocator + Clone>(peers: &mut BTreeMap<u64, u64, A>, peer: u64, number: u64)
    ensures gone { lookup (is_at (nat_cmp peer)) peers.new.entries ≢ Some number }
    ensures only { (p m : ℕ) → lookup (is_at (nat_cmp p)) peers.new.entries ≡ Some m → lookup (is_at (nat_cmp p)) peers.old.entries ≡ Some m }
    ensures stays { (p m : ℕ) → m ≢ number → lookup (is_at (nat_cmp p)) peers.old.entries ≡ Some m → lookup (is_at (nat_cmp p)) peers.new.entries ≡ Some m }
{
    if peers.get(&peer).copied() == Some(number) {
        let _ = peers.remove(&peer);
    }
}

/// Counts a connection with an address, where a peer opens it.
///
/// # Errors
///
/// `SourceFull` where the address has opened as many as it may, and `NoMemory`; then nothing was counted.
fn count_opened<A: Allocator + Clone>(
    sources: &mut SourceCounts<A>,
    opener: Opener,
    source: u32,
) -> Result<(), TableFault>
    ensures counted { OnOk result (HasNow sources.old source (count_of sources.old source + weight opener) sources.new) }
    ensures allowed { OnOk result (may_open sources.old opener source ≡ true) }
    ensures err { OnErr result (IsSame sources.old sources.new) }
    ensures fault { IfErr result (IsSourceFault sources.old opener source) }
{
    match opener {
        Opener::Peer => match sources.open(source) {
            Ok(true) => Ok(()),
            Ok(false) => Err(TableFault::SourceFull),
            Err(AllocError) => Err(TableFault::NoMemory),
        },
        Opener::Proxy => Ok(()),
    }
}

/// Counts a connection with an address as closed, where a peer opened it.
fn count_closed<A: Allocator + Clone>(sources: &mut SourceCounts<A>, opener: Opener, source: u32)
    ensures { HasNow sources.old source (count_of sources.old source - weight opener) sources.new }
{
    if opener == Opener::Peer {
        sources.close(source);
    }
}

/// Keeps a connection by a number that none has, and its peer by that number, and counts it with its address, where a peer opened it.
///
/// # Errors
///
/// The connection, and `SourceFull` where its address has opened as many as it may, or `NoMemory`. Then nothing has changed.
#[tactic(auto, using(crate::proofs::Tables::back_again))]
fn keep_counted<C: Drop, A: Allocator + Clone>(
    connections: &mut BTreeMap<u64, TableEntry<C>, A>,
    peers: &mut BTreeMap<u64, u64, A>,
    sources: &mut SourceCounts<A>,
    number: u64,
    entry: TableEntry<C>,
) -> Result<(), Refusal<C>>
    requires { lookup (is_at (nat_cmp number)) connections.old.entries ≡ None }
    ensures kept { OnOk result (connections.new.entries ≡ insert_entry nat_cmp connections.old.entries number entry) }
    ensures named { OnOk result (peers.new.entries ≡ insert_entry nat_cmp peers.old.entries entry.peer number) }
    ensures counted { OnOk result (HasNow sources.old entry.source (count_of sources.old entry.source + weight entry.opener) sources.new) }
    ensures allowed { OnOk result (may_open sources.old entry.opener entry.source ≡ true) }
    ensures back { IfErr result (λ refusal. refusal.connection ≡ entry.connection) }
    ensures fault { IfErr result (λ refusal. IsSourceFault sources.old entry.opener entry.source refusal.fault) }
    ensures unkept { OnErr result (connections.new.entries ≡ connections.old.entries) }
    ensures unnamed { OnErr result (peers.new.entries ≡ peers.old.entries) }
    ensures uncounted { OnErr result (IsSame sources.old sources.new) }
{
    let source = entry.source;
    let opener = entry.opener;
    if let Err(fault) = count_opened(sources, opener, source) {
        return Err(Refusal {
            fault,
            connection: entry.connection,
        });
    }
    match keep(connections, peers, number, entry) {
        Ok(()) => Ok(()),
        Err(entry) => {
            count_closed(sources, opener, source);
            Err(Refusal {
                fault: TableFault::NoMemory,
                connection: entry.connection,
            })
        }
    }
}

impl<C: Drop, A: Allocator + Clone> ConnectionTable<C, A> {
    /// No connection, of which there may be so many, and so many that one address has opened.
    ///
    /// # Errors
    ///
    /// Only where the allocator refuses.
    pub fn new(
        alloc: A,
        most: usize,
        most_per_source: u32,
    ) -> Result<ConnectionTable<C, A>, AllocError>
        ensures { IfOk result (λ t. t ≡ record { most = most; next = 1; connections = []; peers = []; sources = record { most = most_per_source; counts = [] } }) }
    {
        let peers = alloc.clone()?;
        let sources = alloc.clone()?;
        Ok(ConnectionTable {
            most,
            next: 1,
            connections: BTreeMap::new(alloc),
            peers: BTreeMap::new(peers),
            sources: SourceCounts::new(sources, most_per_source),
        })
    }

    /// How many connections there are.
    pub fn len(&self) -> usize
        ensures value { result ≡ length self.now.connections }
        ensures few { result ≤ self.now.most }
    {
        self.connections.len()
    }

    /// The connection of this number.
    pub fn get(&self, number: u64) -> Option<&C>
        ensures { option_copied result ≡ connection_of self.now number }
    {
        match self.connections.get(&number) {
            Some(entry) => Some(&entry.connection),
            None => None,
        }
    }

    /// The number of the connection with the peer of this number: of the one that came last.
    pub fn number_of(&self, peer: u64) -> Option<u64>
        ensures value { result ≡ number_of self.now peer }
        ensures there { IfSome result (λ number. is_some (connection_of self.now number) ≡ true) }
    {
        self.peers.get(&peer).copied()
    }

    /// The first number behind this one that a connection has. None where none has one behind it.
    pub fn next_behind(&self, number: u64) -> Option<u64>
        ensures { IsNextBehind self.now number result }
    {
        let bounds = (Bound::Excluded(&number), Bound::Unbounded);
        match self.connections.range(bounds).next() {
            Some((next, _)) => Some(*next),
            None => None,
        }
    }

    /// Whether as many connections are kept as may be.
    pub fn is_full(&self) -> bool
        ensures { result ≡ is_full self.now }
    {
        self.connections.len() >= self.most || self.next == u64::MAX
    }

    /// Keeps a connection with a peer, and answers its number, which no other one has or had. From then on messages to this peer go by it.
    ///
    /// # Errors
    ///
    /// The connection, and `Full` where as many are kept as may be, `SourceFull` where the peer opened it and its address has opened as many
    /// as it may, or `NoMemory`. Then nothing has changed.
    pub fn add(&mut self, hop: Hop, opener: Opener, connection: C) -> Result<u64, Refusal<C>>
        ensures added { IfOk result (λ number. IsAdded self.old number hop opener connection self.new) }
        ensures there { IfOk result (λ number. connection_of self.new number ≡ Some connection) }
        ensures named { IfOk result (λ number. number_of self.new (peer_number hop) ≡ Some number) }
        ensures others { IfOk result (λ number. (other : ℕ) → other ≢ number → connection_of self.new other ≡ connection_of self.old other) }
        ensures allowed { IfOk result (λ number. IsFree self.old hop opener) }
        ensures back { IfErr result (λ refusal. refusal.connection ≡ connection) }
        ensures fault { IfErr result (λ refusal. IsRefusedBy self.old hop opener refusal.fault) }
        ensures err { OnErr result (IsUnchanged self.old self.new) }
    {
        if self.is_full() {
            return Err(Refusal {
                fault: TableFault::Full,
                connection,
            });
        }
        let number = self.next;
        let entry = TableEntry {
            peer: peer_number(hop),
            source: u32::from_be_bytes(hop.addr),
            opener,
            connection,
        };
        let kept = keep_counted(
            &mut self.connections,
            &mut self.peers,
            &mut self.sources,
            number,
            entry,
        );
        match kept {
            Ok(()) => {
                self.next += 1;
                Ok(number)
            }
            Err(refusal) => Err(refusal),
        }
    }

    /// Keeps a connection no more, and answers it. None where there is none of this number.
    pub fn remove(&mut self, number: u64) -> Option<C>
        ensures value { result ≡ connection_of self.old number }
        ensures removed { IsRemoved self.old number self.new }
        ensures gone { connection_of self.new number ≡ None }
        ensures others { (other : ℕ) → other ≢ number → connection_of self.new other ≡ connection_of self.old other }
    {
        let entry = self.connections.remove(&number)?;
        forget_peer(&mut self.peers, entry.peer, number);
        count_closed(&mut self.sources, entry.opener, entry.source);
        Some(entry.connection)
    }
}
