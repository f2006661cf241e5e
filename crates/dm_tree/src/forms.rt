//! The nodes and leaves of trees, and why there is no tree.

ghost use Rattle.std.specs.Prelude.{◌≡◌};

use dm_base::{Cost, Items};
use dm_rows::{Choice, Decision};

/// A node of a tree of choices. Every node but `Inner` is a leaf.
#[derive(Clone, Copy, PartialEq, Eq, Debug)]
pub enum Node {
    /// A choice with two children. The first child of a change is `Keep`, the second `Drop`; the first child of a pair is
    /// `First(small, large)`, the second `First(large, small)`.
    Inner(Choice),

    /// The relaxed problem of the path has a cycle.
    Cycle,

    /// The relaxed problem of the path costs this, in thousandths of passenger seconds, and no less than the plan.
    Bound(Cost),

    /// The relaxed problem of the path costs this, in thousandths of passenger seconds, and less than the plan.
    Open(Cost),

    /// Nothing is known yet. It stands in a [`Partial`](crate::Partial) alone.
    Hole,
}

impl Node {
    ghost use Rattle.dm_tree.specs.Trees.{choice_in};

    /// The choice of an inner node, or None of a leaf.
    pub fn choice(&self) -> Option<Choice>
        ensures { result ≡ choice_in self.now }
    {
        match self {
            Node::Inner(choice) => Some(*choice),
            Node::Cycle | Node::Bound(_) | Node::Open(_) | Node::Hole => None,
        }
    }
}

/// A leaf of a tree, and the decisions from the root to it.
#[derive(Drop)]
pub struct Leaf {
    pub path: Items<Decision>,
    pub node: Node,
}

/// A child of a choice: the decision that leads to it, and the place where it stands in preorder.
#[derive(Clone, Copy)]
pub struct Child {
    pub decision: Decision,
    pub place: usize,
}

/// Whether a plan is known to be best.
#[derive(Clone, Copy, PartialEq, Eq, Debug)]
pub enum Mark {
    /// No choices cost less.
    Optimal,

    /// Some leaf is still open.
    Open,
}

/// Why leaves or nodes make no tree.
#[derive(Clone, Copy, PartialEq, Eq, Debug)]
pub enum AssembleFault {
    /// No tree has these leaves, or the nodes are not one whole tree in preorder without a hole.
    NotATree,

    /// There is not enough memory.
    OutOfMemory,
}
