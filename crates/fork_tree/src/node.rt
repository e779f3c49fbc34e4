//! Nodes, and the groups of nodes below them.
ghost use Rattle.std.specs.Prelude.{◌≡◌, ℕ, List, ◌∷◌, ◌<◌, ◌≤◌, ◌+◌, ◌++◌, IsTrue, IfOk, Some, None, [], is_some, length, map, suc, true, false, if◌then◌else◌};
ghost use Rattle.fork_model.specs.Table.{most_targets};
ghost use Rattle.fork_tree.specs.Places.{number_of};
ghost use Rattle.fork_tree.specs.inner.Search.{FindsBelow, FindsGroup, FindsHere, IsWaiting};
ghost use Rattle.fork_tree.specs.Rows.{find, node_rows, unanswered};
ghost use Rattle.fork_tree.specs.inner.Rows.{open_at, joined, pushed, q_in, state_in};
ghost use Rattle.fork_tree.specs.inner.Changes.{Changes, MayEnd};
ghost use Rattle.fork_tree.specs.inner.Below.{under};
ghost use Rattle.fork_tree.specs.inner.Closing.{closed_entry};
ghost use Rattle.fork_tree.specs.Summary.{open_of};
ghost use Rattle.fork_tree.specs.inner.Summary.{AreWaiting};
ghost use Rattle.fork_tree.specs.States.{has_ended};
ghost use Rattle.fork_tree.specs.NewRows.{differs, idle, new_entries, new_rows_of};

use crate::new_row::NewRow;
use crate::row::State;
use crate::summary::{BranchState, Summary};
use std::alloc::{AllocError, Allocator, Global};
use std::marker::Model;

/// A branch, and those found below it.
///
/// A node has a level below it, a level has groups, and a group has nodes: `cycle` says so of the three types. For an
/// end of what walks through them each counts by its rows: three for a row in a node, one more in a group and two more
/// in a level, so that each is more than what it holds.
#[cycle(node)]
#[derive(Drop)]
pub struct Node<A: Allocator = Global> {
    number: u16,
    q: u16,
    standing: BranchState,
    below: Level<A>,
    pub(crate) summary: Summary,
}

/// The groups of branches under one branch, or at the top.
#[cycle(node)]
#[derive(Drop)]
pub(crate) struct Level<A: Allocator = Global> {
    groups: Vec<NodeGroup<A>, A>,
}

/// Branches of one q, which are tried together.
#[cycle(node)]
#[derive(Drop)]
pub(crate) struct NodeGroup<A: Allocator = Global> {
    nodes: Vec<Node<A>, A>,
    /// How many of these branches, and of those below them, have not ended.
    open_count: u16,
}

impl<A: Allocator> Model for Node<A> {
    ghost use Rattle.std.specs.Prelude.{List, ◌*◌, ℕ, length};
    ghost use Rattle.std.proofs.Common.{arith};
    ghost use Rattle.fork_tree.specs.Rows.{Entry, node_rows};

    ghost Value = { List Entry };

    ghost view = { λ n. node_rows n.number n.q n.standing n.below };

    ghost use Rattle.fork_tree.specs.Summary.{IsNode};

    ghost invariant = { λ n. IsNode n.number n.q n.standing n.below n.summary };

    ghost size = { λ rows. 3 * length rows };

    ghost size_decreases = { λ a h. omega arith };
}

impl<A: Allocator> Model for NodeGroup<A> {
    ghost use Rattle.std.specs.Prelude.{List, ◌+◌, ◌*◌, ℕ, length};
    ghost use Rattle.std.proofs.Common.{arith};
    ghost use Rattle.std.specs.Prelude.{◌≡◌};
    ghost use Rattle.fork_tree.specs.Rows.{Entry};
    ghost use Rattle.fork_tree.specs.inner.Rows.{joined};
    ghost use Rattle.fork_tree.specs.Summary.{open_of};
    ghost use Rattle.fork_tree.specs.inner.Falls.{most_nodes};

    ghost Value = { List Entry };

    ghost view = { λ g. joined 0 g.nodes.items };

    ghost invariant = { λ g. g.open_count ≡ open_of (joined 0 g.nodes.items) };

    ghost size = { λ rows. 3 * length rows + 1 };

    ghost size_decreases = { λ a h. omega (arith, most_nodes 0 a.nodes.items) };
}

impl<A: Allocator> Model for Level<A> {
    ghost use Rattle.std.specs.Prelude.{List, ◌+◌, ◌*◌, ℕ, length};
    ghost use Rattle.std.proofs.Common.{arith};
    ghost use Rattle.fork_tree.specs.Rows.{Entry};
    ghost use Rattle.fork_tree.specs.inner.Rows.{joined};
    ghost use Rattle.fork_tree.specs.inner.Falls.{most_groups};

    ghost Value = { List Entry };

    ghost view = { λ l. joined 0 l.groups.items };

    ghost size = { λ rows. 3 * length rows + 2 };

    ghost size_decreases = { λ a h. omega (arith, most_groups 0 a.groups.items) };
}

impl<A: Allocator> Node<A> {
    /// A branch that waits.
    pub(crate) fn idle(alloc: A, number: u16, q: u16) -> Node<A>
        ensures { result ≡ node_rows number q idle [] }
    {
        Node {
            number,
            q,
            standing: BranchState {
                state: State::Idle,
                answer: None,
            },
            below: Level::new(alloc),
            summary: Summary::waiting(1),
        }
    }

    /// The q of the branch, in thousandths.
    pub(crate) fn q(&self) -> u16
        ensures { result ≡ q_in (find self.now []) }
    {
        self.q
    }

    /// The number of the branch.
    fn number(&self) -> u16
        ensures { number_of (find self.now []) ≡ Some result }
    {
        self.number
    }

    /// The state of the branch.
    pub(crate) fn state(&self) -> State
        ensures { result ≡ state_in (find self.now []) }
    {
        self.standing.state
    }

    /// The branch at this place of this group right below it.
    pub(crate) fn child(&self, group: u16, place: u16) -> &Node<A>
        requires there { IsTrue (is_some (find self.now (group ∷ place ∷ []))) }
        ensures { result.now ≡ under (group ∷ place ∷ []) self.now }
    {
        self.below.child(group, place)
    }

    /// Whether the branch waits; no branch stands below it then.
    fn waits(&self) -> bool
        ensures { IsWaiting self.now result }
    {
        !self.standing.state.has_started()
    }

    /// The first branch and the count of the first group right below this branch in which not all has ended, where that
    /// group waits. None where that group doesn't wait, and where there is no such group.
    pub(crate) fn ready_below(&self) -> Option<(u16, u16)>
        ensures { FindsBelow self.now result }
    {
        self.below.ready()
    }

    /// Brings the branch at this path, which has not ended, into another state in which it has not ended.
    #[cycle(set)]
    pub(crate) fn set(&mut self, path: &[u16], state: State)
        requires there { IsTrue (open_at self.old path.now) }
        requires waits { has_ended state ≡ false }
        ensures { Changes self.old self.new path.now (unanswered state) [] 1 }
    {
        if path.is_empty() {
            self.standing = BranchState {
                state,
                answer: None,
            };
        } else {
            self.below.set(path, state);
        }
    }

    /// Ends the branch at this path, which has not ended: it comes into this standing, in which it has, and the branches of
    /// `below`, of which `opens` have not ended, are put below it.
    #[cycle(end)]
    pub(crate) fn end(&mut self, path: &[u16], standing: BranchState, below: Level<A>, opens: u16)
        requires { MayEnd self.old path.now standing below opens }
        ensures { Changes self.old self.new path.now standing below opens }
    {
        self.summary = self.summary.after(standing.answer, opens);
        if path.is_empty() {
            self.standing = standing;
            self.below = below;
        } else {
            self.below.end(path, standing, below, opens);
        }
    }

    /// Ends each branch that waits: it is never tried. The answer is how many they were.
    #[cycle(close)]
    pub(crate) fn close(&mut self) -> u16
        requires few { length self.old ≤ most_targets }
        ensures closed { self.new ≡ map closed_entry self.old }
        ensures counted { open_of self.new + result ≡ open_of self.old }
    {
        let before = self.standing.open_count();
        self.standing = self.standing.closed();
        let own = before - self.standing.open_count();
        let ended = own + self.below.close();
        self.summary.open_count -= ended;
        ended
    }
}

impl<A: Allocator> Level<A> {
    /// The level without a branch.
    pub(crate) fn new(alloc: A) -> Level<A>
        ensures { result ≡ [] }
    {
        Level {
            groups: Vec::new(alloc),
        }
    }

    /// The branch at this place of this group.
    pub(crate) fn child(&self, group: u16, place: u16) -> &Node<A>
        requires there { IsTrue (is_some (find self.now (group ∷ place ∷ []))) }
        ensures { result.now ≡ under (group ∷ place ∷ []) self.now }
    {
        self.groups[group as usize].child(place)
    }

    /// The first branch and the count of the first group in which, or below which, not all has ended, where that group
    /// waits.
    pub(crate) fn ready(&self) -> Option<(u16, u16)>
        ensures { FindsHere self.now result }
    {
        for i in 0..self.groups.len() {
            let group = &self.groups[i];
            if group.open_count() > 0 {
                return group.ready();
            }
        }
        None
    }

    /// Brings the branch at this path into another state, as [`Node::set`] does.
    #[cycle(set)]
    pub(crate) fn set(&mut self, path: &[u16], state: State)
        requires there { IsTrue (open_at self.old path.now) }
        requires waits { has_ended state ≡ false }
        ensures { Changes self.old self.new path.now (unanswered state) [] 1 }
    {
        if let Some((first, rest)) = path.split_first() {
            self.groups[*first as usize].set(rest, state);
        }
    }

    /// Ends the branch at this path, as [`Node::end`] does.
    #[cycle(end)]
    pub(crate) fn end(&mut self, path: &[u16], standing: BranchState, below: Level<A>, opens: u16)
        requires { MayEnd self.old path.now standing below opens }
        ensures { Changes self.old self.new path.now standing below opens }
    {
        if let Some((first, rest)) = path.split_first() {
            self.groups[*first as usize].end(rest, standing, below, opens);
        }
    }

    /// Ends each branch that waits: it is never tried. The answer is how many they were.
    #[cycle(close)]
    pub(crate) fn close(&mut self) -> u16
        requires few { length self.old ≤ most_targets }
        ensures closed { self.new ≡ map closed_entry self.old }
        ensures counted { open_of self.new + result ≡ open_of self.old }
    {
        let mut ended = 0;
        let mut i = 0;
        while i < self.groups.len() {
            ended += self.groups[i].close();
            i += 1;
        }
        ended
    }
}

impl<A: Allocator> NodeGroup<A> {
    /// The branch at this place.
    fn child(&self, place: u16) -> &Node<A>
        requires there { IsTrue (is_some (find self.now (place ∷ []))) }
        ensures { result.now ≡ under (place ∷ []) self.now }
    {
        &self.nodes[place as usize]
    }

    /// The group of these branches, which all wait.
    fn waiting(nodes: Vec<Node<A>, A>) -> NodeGroup<A>
        requires few { length nodes.items ≤ most_targets }
        requires waiting { AreWaiting nodes.items }
        ensures { result ≡ joined 0 nodes.items }
    {
        let open_count = nodes.len() as u16;
        NodeGroup { nodes, open_count }
    }

    /// How many branches of the group, and of those below them, have not ended.
    fn open_count(&self) -> u16
        ensures { result ≡ open_of self.now }
    {
        self.open_count
    }

    /// The number of the first branch of the group, and how many branches it has, where they all wait.
    fn ready(&self) -> Option<(u16, u16)>
        requires goes_on { 0 < open_of self.now }
        ensures { FindsGroup self.now result }
    {
        for i in 0..self.nodes.len() {
            if !self.nodes[i].waits() {
                return None;
            }
        }
        Some((self.nodes[0].number(), self.open_count))
    }

    /// Brings the branch at this path into another state, as [`Node::set`] does.
    #[cycle(set)]
    pub(crate) fn set(&mut self, path: &[u16], state: State)
        requires there { IsTrue (open_at self.old path.now) }
        requires waits { has_ended state ≡ false }
        ensures { Changes self.old self.new path.now (unanswered state) [] 1 }
    {
        if let Some((first, rest)) = path.split_first() {
            self.nodes[*first as usize].set(rest, state);
        }
    }

    /// Ends the branch at this path, as [`Node::end`] does.
    #[cycle(end)]
    pub(crate) fn end(&mut self, path: &[u16], standing: BranchState, below: Level<A>, opens: u16)
        requires { MayEnd self.old path.now standing below opens }
        ensures { Changes self.old self.new path.now standing below opens }
    {
        if let Some((first, rest)) = path.split_first() {
            self.open_count = self.open_count + opens - 1;
            self.nodes[*first as usize].end(rest, standing, below, opens);
        }
    }

    /// Ends each branch that waits: it is never tried. The answer is how many they were.
    #[cycle(close)]
    pub(crate) fn close(&mut self) -> u16
        requires few { length self.old ≤ most_targets }
        ensures closed { self.new ≡ map closed_entry self.old }
        ensures counted { open_of self.new + result ≡ open_of self.old }
    {
        let mut ended = 0;
        let mut i = 0;
        while i < self.nodes.len() {
            ended += self.nodes[i].close();
            i += 1;
        }
        self.open_count -= ended;
        ended
    }
}

/// Branches that wait, of these q in groups of equal q, numbered from here on, and where each of them goes.
pub(crate) fn branches<A: Allocator + Clone>(
    alloc: &A,
    first: u16,
    qs: &[u16],
) -> Result<(Level<A>, Vec<NewRow, A>), AllocError>
    requires few { first + length qs.now ≤ most_targets }
    ensures level { IfOk result (λ made. made.0 ≡ new_entries first made.1.items) }
    ensures new_rows { IfOk result (λ made. made.1.items ≡ new_rows_of qs.now) }
{
    let mut new_rows = Vec::with_capacity(alloc.clone()?, qs.len())?;
    let mut groups = Vec::new(alloc.clone()?);
    let mut nodes = no_nodes(alloc, qs)?;
    let mut before = None;
    for i in 0..qs.len() {
        nodes = in_group(alloc, &mut groups, nodes, another(before, qs[i]), &qs[i..])?;
        new_rows.push(NewRow {
            group: groups.len() as u16,
            place: nodes.len() as u16,
            q: qs[i],
        })?;
        nodes.push(Node::idle(alloc.clone()?, first + i as u16, qs[i]))?;
        before = Some(qs[i]);
    }
    Ok((whole(groups, nodes)?, new_rows))
}

/// Whether this q begins another group.
fn another(before: Option<u16>, q: u16) -> bool
    ensures { result ≡ differs before q }
{
    match before {
        Some(before) => before != q,
        None => false,
    }
}

/// How many branches of these q the first group has.
fn group_len(qs: &[u16]) -> usize {
    for i in 0..qs.len() {
        if qs[i] != qs[0] {
            return i;
        }
    }
    qs.len()
}

/// No node yet, with room for the first group of these q.
fn no_nodes<A: Allocator + Clone>(alloc: &A, qs: &[u16]) -> Result<Vec<Node<A>, A>, AllocError>
    ensures { IfOk result (λ nodes. nodes.items ≡ []) }
{
    Vec::with_capacity(alloc.clone()?, group_len(qs))
}

/// The nodes of the group that goes on, or none, after these were made a group, where another begins with the first of `qs`.
fn in_group<A: Allocator + Clone>(
    alloc: &A,
    groups: &mut Vec<NodeGroup<A>, A>,
    nodes: Vec<Node<A>, A>,
    begins: bool,
    qs: &[u16],
) -> Result<Vec<Node<A>, A>, AllocError>
    requires few { length nodes.items ≤ most_targets }
    requires waiting { AreWaiting nodes.items }
    ensures same { IfOk result (λ next. joined 0 groups.new.items ++ map (pushed (length groups.new.items)) (joined 0 next.items)
        ≡ joined 0 groups.old.items ++ map (pushed (length groups.old.items)) (joined 0 nodes.items)) }
    ensures groups { IfOk result (λ next. length groups.new.items
        ≡ (if begins then suc (length groups.old.items) else length groups.old.items)) }
    ensures nodes { IfOk result (λ next. length next.items ≡ (if begins then 0 else length nodes.items)) }
    ensures waiting { IfOk result (λ next. AreWaiting next.items) }
{
    if begins {
        groups.push(NodeGroup::waiting(nodes))?;
        let none = no_nodes(alloc, qs)?;
        Ok(none)
    } else {
        Ok(nodes)
    }
}

/// The level of these groups, and last of the group of these nodes, if there are any.
fn whole<A: Allocator>(
    mut groups: Vec<NodeGroup<A>, A>,
    nodes: Vec<Node<A>, A>,
) -> Result<Level<A>, AllocError>
    requires few { length nodes.items ≤ most_targets }
    requires waiting { AreWaiting nodes.items }
    ensures { IfOk result (λ level. level
        ≡ joined 0 groups.items ++ map (pushed (length groups.items)) (joined 0 nodes.items)) }
{
    if nodes.is_empty() {
        return Ok(Level { groups });
    }
    groups.push(NodeGroup::waiting(nodes))?;
    Ok(Level { groups })
}
