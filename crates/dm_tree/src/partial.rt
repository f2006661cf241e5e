//! Trees in which something is not known yet.
ghost use Rattle.std.specs.Prelude.{◌≡◌, true};
ghost use Rattle.dm_tree.specs.Trees.{IsPartialTree};
ghost use Rattle.dm_tree.specs.Inside.Filling.{fills};

use crate::Node;
use std::marker::Model;

/// A tree of choices in which holes may stand, seen as its nodes in preorder.
#[derive(Drop)]
pub struct Partial {
    nodes: Vec<Node>,
}

impl Model for Partial {
    ghost use Rattle.std.specs.Prelude.{List, IsTrue, true};
    ghost use Rattle.dm_tree.specs.declared.forms.Node.{Node as NodeValue};
    ghost use Rattle.dm_tree.specs.Inside.Filling.{fills};

    ghost Value = { List NodeValue };

    ghost view = { λ t. t.nodes.items };

    ghost invariant = { λ t. IsTrue (fills true 0 t.nodes.items) };
}

impl Partial {
    /// The tree of these nodes, which are one tree in preorder.
    pub(crate) fn new(nodes: Vec<Node>) -> Partial
        requires { fills true 0 nodes.items ≡ true }
        ensures { result ≡ nodes.items }
    {
        Partial { nodes }
    }

    /// The nodes in preorder. It takes no memory.
    pub fn as_slice(&self) -> &[Node]
        ensures nodes { result.now ≡ self.now }
        ensures partial { IsPartialTree self.now }
    {
        self.nodes.as_slice()
    }
}
