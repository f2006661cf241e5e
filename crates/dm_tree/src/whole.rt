//! Whole trees.
ghost use Rattle.std.specs.Prelude.{◌≡◌, ◌+◌, ◌<◌, length, IfOk, MatchOption, false, true, Ok, Err};
ghost use Rattle.dm_tree.specs.Trees.{IsTree, IsTreeBetween, IsSecondChild, HasNoChoiceAt, IsChildTowards, LiesNotBelow};
ghost use Rattle.dm_tree.specs.Inside.Filling.{fills, AreEndsFrom, IsSideOf};

use crate::{AssembleFault, Child, Node};
use dm_rows::Choice;
use std::alloc::{AllocError, Global};
use std::marker::Model;

/// A whole tree of choices, seen as its nodes in preorder.
pub struct Tree {
    nodes: Vec<Node>,

    /// For each place the place behind the tree that begins there. A second child stands behind the tree of the first, which
    /// stands behind its choice, so the second child of a choice stands at the end kept for the place after it.
    ends: Vec<usize>,
}

impl Drop for Tree {
    fn drop(self) {
        let Tree { nodes: _, ends: _ } = self;
    }
}

impl Model for Tree {
    ghost use Rattle.std.specs.Prelude.{List, IsTrue, false};
    ghost use Rattle.dm_tree.specs.declared.forms.Node.{Node as NodeValue};
    ghost use Rattle.dm_tree.specs.Inside.Filling.{fills, AreEndsFrom};

    ghost Value = { List NodeValue };

    ghost view = { λ t. t.nodes.items };

    ghost invariant = { λ t. IsTrue (fills false 0 t.nodes.items) × AreEndsFrom 0 t.nodes.items t.ends.items };
}

impl Tree {
    /// The tree of these nodes. It is `NotATree` exactly where they are not one whole tree in preorder without a hole, and
    /// `OutOfMemory` where there is no room to note where the tree at each place ends.
    pub fn from_nodes(alloc: Global, nodes: Vec<Node>) -> Result<Tree, AssembleFault>
        ensures tree { IfOk result (λ t. t ≡ nodes.items) }
        ensures whole { IfOk result (λ t. IsTree t) }
        ensures not_a_tree { result ≡ Err AssembleFault.NotATree → IsTree nodes.items → ⊥ }
    {
        if !fills_one_place(&nodes) {
            return Err(AssembleFault::NotATree);
        }
        let Ok(ends) = ends_of(alloc, &nodes) else {
            return Err(AssembleFault::OutOfMemory);
        };
        Ok(Tree { nodes, ends })
    }

    /// The nodes in preorder. It takes no memory.
    pub fn as_slice(&self) -> &[Node]
        ensures nodes { result.now ≡ self.now }
        ensures whole { IsTree self.now }
    {
        self.nodes.as_slice()
    }

    /// The place of the second child of the choice at a place, or None where no choice stands there. The first child
    /// stands at the next place. It takes no memory, and as long for every tree.
    pub fn second_child(&self, place: usize) -> Option<usize>
        ensures { MatchOption result (HasNoChoiceAt self.now place) (λ second. IsSecondChild self.now place second) }
    {
        if place >= self.nodes.len() {
            return None;
        }
        match self.nodes[place] {
            Node::Inner(_) => Some(self.ends[place + 1]),
            Node::Cycle | Node::Bound(_) | Node::Open(_) | Node::Hole => None,
        }
    }

    /// The child of the choice at a place in whose tree the target lies, or None where it lies in neither. From the root,
    /// which stands at 0, the children towards a leaf have the decisions of its path. It takes no memory.
    pub fn child_towards(&self, place: usize, target: usize) -> Option<Child>
        ensures { MatchOption result (LiesNotBelow self.now place target) (λ child. IsChildTowards self.now place target child) }
    {
        if target <= place || place >= self.nodes.len() || self.ends[place] <= target {
            return None;
        }
        match self.nodes[place] {
            Node::Inner(choice) => Some(child_of(choice, place, self.ends[place + 1], target)),
            Node::Cycle | Node::Bound(_) | Node::Open(_) | Node::Hole => None,
        }
    }
}

/// How many nodes the tree has. It takes no memory.
pub fn nodes(tree: &Tree) -> u64
    ensures { result ≡ length tree.now }
{
    tree.as_slice().len() as u64
}

/// Whether the nodes are one whole tree in preorder without a hole.
fn fills_one_place(nodes: &[Node]) -> bool
    ensures { result ≡ fills false 0 nodes.now }
{
    let mut more = 0usize;
    for (i, node) in nodes.iter().enumerate() {
        match node {
            Node::Hole => return false,
            Node::Inner(choice) => {
                if !choice.is_ordered() {
                    return false;
                }
                more += 1;
            }
            Node::Cycle | Node::Bound(_) | Node::Open(_) => {
                if more == 0 {
                    return i + 1 == nodes.len();
                }
                more -= 1;
            }
        }
    }
    false
}

/// The child of a choice for a target behind it, where the second one stands at a place.
fn child_of(choice: Choice, place: usize, second: usize, target: usize) -> Child
    requires { place < target }
    ensures { IsSideOf choice place second target result }
{
    if target < second {
        Child {
            decision: choice.first(),
            place: place + 1,
        }
    } else {
        Child {
            decision: choice.second(),
            place: second,
        }
    }
}

/// For each place the place behind the tree that begins there.
fn ends_of(alloc: Global, nodes: &[Node]) -> Result<Vec<usize>, AllocError>
    requires { fills false 0 nodes.now ≡ true }
    ensures { IfOk result (λ ends. AreEndsFrom 0 nodes.now ends.items) }
{
    let mut ends = vec![in alloc; 0usize; nodes.len()]?;
    for place in (0..nodes.len()).rev() {
        ends[place] = end_at(nodes, &ends, place);
    }
    Ok(ends)
}

/// The place behind the tree that begins at a place, where this is known of all later places.
fn end_at(nodes: &[Node], ends: &[usize], place: usize) -> usize
    requires whole { fills false 0 nodes.now ≡ true }
    requires within { place < length nodes.now }
    requires later { AreEndsFrom (place + 1) nodes.now ends.now }
    ensures { IsTreeBetween nodes.now place result }
{
    match nodes[place] {
        Node::Inner(_) => ends[ends[place + 1]],
        Node::Cycle | Node::Bound(_) | Node::Open(_) | Node::Hole => place + 1,
    }
}
