//! Trees that grow from leaves, node by node in preorder.
ghost use Rattle.std.specs.Prelude.{◌≡◌, ◌++◌, ◌∷◌, [], map, reverse, IfOk, IfErr, OnOk, MatchBool, MatchOption};
ghost use Rattle.dm_tree.specs.Trees.{HaveNoTree};
ghost use Rattle.dm_tree.specs.Inside.Assembling.{IsGroup, IsParted, IsAskedOf, Agree, IsDue, IsDraft, IsFinished};
ghost use Rattle.dm_tree.specs.Pending.{IsFront};

use crate::paths::turn_back;
use crate::{AssembleFault, Leaf, Node};
use dm_rows::{Choice, Decision};
use std::alloc::{AllocError, Global};

/// The first nodes of a tree in preorder, the path to the next one, and the places of the leaves that lie there or below.
/// The groups before that last one are of the places due behind the path, the next of them last.
#[derive(Drop)]
pub(crate) struct Draft {
    pub(crate) nodes: Vec<Node>,
    path: Vec<Decision>,
    groups: Vec<Vec<usize>>,
}

impl Draft {
    /// No node yet: the root is the next one.
    pub(crate) fn new(alloc: Global, leaves: &[Leaf]) -> Result<Draft, AllocError>
        ensures { IfOk result (λ d. IsDraft leaves.now d.nodes.items d.path.items (reverse (map (λ g. g.items) d.groups.items))) }
    {
        let all = every_place(alloc, leaves)?;
        let mut groups = Vec::new(alloc);
        groups.push(all)?;
        Ok(Draft {
            nodes: Vec::new(alloc),
            path: Vec::new(alloc),
            groups,
        })
    }

    /// Adds the next node. It is false where that was the last one, and `NotATree` where no tree has the leaves.
    pub(crate) fn grow(&mut self, alloc: Global, leaves: &[Leaf]) -> Result<bool, AssembleFault>
        requires { IsDraft leaves.now self.old.nodes.items self.old.path.items (reverse (map (λ g. g.items) self.old.groups.items)) }
        ensures ok { IfOk result (λ more. MatchBool more
            (IsDraft leaves.now self.new.nodes.items self.new.path.items (reverse (map (λ g. g.items) self.new.groups.items)))
            (IsFinished leaves.now self.new.nodes.items)) }
        ensures not_a_tree { IfErr result (λ e. e ≡ AssembleFault.NotATree → HaveNoTree leaves.now) }
    {
        // Until the tree is whole, some group is due.
        let Some(here) = self.groups.pop() else {
            return Err(AssembleFault::OutOfMemory);
        };
        let Some(node) = node_due(leaves, &here, &self.path) else {
            return Err(AssembleFault::NotATree);
        };
        let Ok(()) = self.nodes.push(node) else {
            return Err(AssembleFault::OutOfMemory);
        };
        if let Some(choice) = node.choice() {
            let Ok(()) = part(alloc, &mut self.groups, leaves, &here, &self.path, choice) else {
                return Err(AssembleFault::OutOfMemory);
            };
            let Ok(()) = self.path.push(choice.first()) else {
                return Err(AssembleFault::OutOfMemory);
            };
            return Ok(true);
        }
        let Ok(turned) = turn_back(&mut self.path) else {
            return Err(AssembleFault::OutOfMemory);
        };
        Ok(turned)
    }
}

fn every_place(alloc: Global, leaves: &[Leaf]) -> Result<Vec<usize>, AllocError>
    ensures { IfOk result (λ places. IsGroup leaves.now [] places.items) }
{
    let mut places = Vec::new(alloc);
    for i in 0..leaves.len() {
        places.push(i)?;
    }
    Ok(places)
}

/// Puts each leaf of a group on its side of the choice at their path. The first side comes last.
fn part(
    alloc: Global,
    groups: &mut Vec<Vec<usize>>,
    leaves: &[Leaf],
    here: &[usize],
    path: &[Decision],
    choice: Choice,
) -> Result<(), AllocError>
    requires { IsGroup leaves.now path.now here.now }
    ensures { OnOk result (IsParted leaves.now path.now choice
        (reverse (map (λ g. g.items) groups.old.items)) (reverse (map (λ g. g.items) groups.new.items))) }
{
    let first = side(alloc, leaves, here, path, choice.first())?;
    let second = side(alloc, leaves, here, path, choice.second())?;
    groups.push(second)?;
    groups.push(first)?;
    Ok(())
}

/// Those of a group of leaves whose paths go on with the decision.
fn side(
    alloc: Global,
    leaves: &[Leaf],
    group: &[usize],
    path: &[Decision],
    decision: Decision,
) -> Result<Vec<usize>, AllocError>
    requires { IsGroup leaves.now path.now group.now }
    ensures { IfOk result (λ places. IsGroup leaves.now (path.now ++ decision ∷ []) places.items) }
{
    let mut places = Vec::new(alloc);
    for i in 0..group.len() {
        let place = group[i];
        if goes_on(leaves[place].path.as_slice(), path, decision) {
            places.push(place)?;
        }
    }
    Ok(places)
}

/// Whether the decision follows in a path that begins with the other.
fn goes_on(whole: &[Decision], path: &[Decision], decision: Decision) -> bool
    requires { IsFront path.now whole.now }
    ensures { MatchBool result
        (IsFront (path.now ++ decision ∷ []) whole.now)
        (IsFront (path.now ++ decision ∷ []) whole.now → ⊥) }
{
    path.len() < whole.len() && whole[path.len()].is_same(decision)
}

/// The node that the leaves ask for at the path, which is a hole where none lies there; or None where no tree has them.
fn node_due(leaves: &[Leaf], group: &[usize], path: &[Decision]) -> Option<Node>
    requires { IsGroup leaves.now path.now group.now }
    ensures { MatchOption result (HaveNoTree leaves.now) (λ n. IsDue leaves.now path.now n) }
{
    let mut found: Option<Node> = None;
    for i in 0..group.len() {
        let place = group[i];
        let leaf = &leaves[place];
        let asked = asked_of(leaf, path)?;
        if let Some(other) = found {
            if !agree(other, asked) {
                return None;
            }
        }
        found = Some(asked);
    }
    Some(found.unwrap_or(Node::Hole))
}

/// What a leaf whose path begins with this one asks for there, or None where no tree has such a leaf.
fn asked_of(leaf: &Leaf, path: &[Decision]) -> Option<Node>
    requires { IsFront path.now leaf.now.path }
    ensures { IsAskedOf path.now leaf.now result }
{
    let whole = leaf.path.as_slice();
    if path.len() < whole.len() {
        let choice = whole[path.len()].choice();
        if choice.is_ordered() {
            Some(Node::Inner(choice))
        } else {
            None
        }
    } else if leaf.node.choice().is_none() {
        Some(leaf.node)
    } else {
        None
    }
}

/// Whether the two nodes are one choice.
fn agree(one: Node, other: Node) -> bool
    ensures { MatchBool result (Agree one other) (Agree one other → ⊥) }
{
    match (one.choice(), other.choice()) {
        (Some(a), Some(b)) => a == b,
        _ => false,
    }
}
