//! What the leaves of a tree carry.
ghost use Rattle.std.specs.Prelude.{◌≡◌, true, false, length};
ghost use Rattle.dm_check_rows.specs.Claims.{Tells};
ghost use Rattle.dm_check_plans.specs.Visiting.{IsLeastCarried};
ghost use Rattle.dm_check_plans.specs.Inside.Leaves.{is_open, is_at, is_below, meets, SomeNode, NoneNode};

use dm_base::Cost;
use dm_tree::Node;

/// What is looked for among leaves.
#[derive(Clone, Copy)]
pub enum Wanted {
    /// An open leaf.
    Open,

    /// One that carries this cost.
    At(Cost),

    /// One that carries a smaller cost.
    Below(Cost),
}

/// Whether some leaf carries this cost, and none a smaller one.
pub fn is_least(nodes: &[Node], bound: Cost) -> bool
    ensures { Tells (IsLeastCarried nodes.now bound) result }
{
    if is_any(nodes, Wanted::Below(bound)) {
        return false;
    }
    is_any(nodes, Wanted::At(bound))
}

/// Whether some leaf is what is wanted.
pub fn is_any(nodes: &[Node], wanted: Wanted) -> bool
    ensures some { result ≡ true → SomeNode (meets wanted) nodes.now }
    ensures none { result ≡ false → NoneNode (meets wanted) nodes.now (length nodes.now) }
{
    for node in nodes {
        if meets(*node, wanted) {
            return true;
        }
    }
    false
}

fn meets(node: Node, wanted: Wanted) -> bool
    ensures { result ≡ meets wanted node }
{
    match wanted {
        Wanted::Open => is_open(node),
        Wanted::At(cost) => is_at(node, cost),
        Wanted::Below(cost) => is_below(node, cost),
    }
}

/// Whether the node is an open leaf.
fn is_open(node: Node) -> bool
    ensures { result ≡ is_open node }
{
    match node {
        Node::Open(_) => true,
        Node::Inner(_) | Node::Cycle | Node::Bound(_) | Node::Hole => false,
    }
}

/// Whether the node carries this cost.
fn is_at(node: Node, cost: Cost) -> bool
    ensures { result ≡ is_at cost node }
{
    match node {
        Node::Bound(carried) | Node::Open(carried) => carried == cost,
        Node::Inner(_) | Node::Cycle | Node::Hole => false,
    }
}

/// Whether the node carries a smaller cost.
fn is_below(node: Node, cost: Cost) -> bool
    ensures { result ≡ is_below cost node }
{
    match node {
        Node::Bound(carried) | Node::Open(carried) => carried < cost,
        Node::Inner(_) | Node::Cycle | Node::Hole => false,
    }
}
