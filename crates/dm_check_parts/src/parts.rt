//! One part.
ghost use Rattle.std.specs.Prelude.{◌≡◌, ◌+◌, ◌≤◌, [], ◌∷◌, length, map, true, false, IfOk, OnOk};
ghost use Rattle.dm_tree.specs.Inside.Filling.{fills};
ghost use Rattle.dm_parts.specs.Parts.{as_node, IsTruePart};
ghost use Rattle.dm_parts.specs.Shares.{IsShare};
ghost use Rattle.dm_parts.specs.Sizes.{most_ids};
ghost use Rattle.dm_check_rows.specs.Claims.{Tells};
ghost use Rattle.dm_check_plans.specs.RelaxedProblems.{IsRelaxedProblemOf, IsSolved};
ghost use Rattle.dm_check_plans.specs.Visiting.{HoldsOfAll};
ghost use Rattle.dm_check_parts.specs.Inside.Grounds.{task_of};
ghost use Rattle.dm_check_parts.specs.Inside.Nodes.{IsTreeOf, IsTruePartNode, is_cycle};

use crate::grounds::Grounds;
use crate::shares::is_share;
use dm_check_plans::{RelaxedProblem, go_back, go_on, is_least};
use dm_check_times::HeldCycle;
use dm_parts::{Part, PartNode, Share};
use dm_tree::{AssembleFault, Node, Tree};
use std::alloc::{AllocError, Global};

/// A node of a part as one of a tree.
fn as_node(node: PartNode) -> Node
    ensures { result ≡ as_node node }
{
    match node {
        PartNode::Inner(choice) => Node::Inner(choice),
        PartNode::Cycle => Node::Cycle,
        PartNode::Leaf(cost) => Node::Bound(cost),
    }
}

/// The nodes of a part as those of a tree.
fn as_nodes(alloc: Global, nodes: &[PartNode]) -> Result<Vec<Node>, AllocError>
    ensures { IfOk result (λ tree. tree.items ≡ map as_node nodes.now) }
{
    nodes.iter().map(|node| as_node(*node)).collect(alloc)
}

/// The tree of a part, or None where its nodes are not one whole tree.
fn tree_of(alloc: Global, part: &Part) -> Result<Option<Tree>, AllocError>
    ensures { IfOk result (IsTreeOf part.now) }
{
    let nodes = match as_nodes(alloc, part.tree.as_slice()) {
        Ok(nodes) => nodes,
        Err(AllocError) => return Err(AllocError),
    };
    match Tree::from_nodes(alloc, nodes) {
        Ok(tree) => Ok(Some(tree)),
        Err(AssembleFault::NotATree) => Ok(None),
        Err(AssembleFault::OutOfMemory) => Err(AllocError),
    }
}

impl Grounds<'_> {
    /// Whether a part is true, whatever stands in it. The problem may stand at any path.
    pub fn is_true_part(
        &self,
        alloc: Global,
        problem: &mut RelaxedProblem,
        part: &Part,
    ) -> Result<bool, AllocError>
        requires problem { IsRelaxedProblemOf self.now.net.now self.now.rows.now problem.old }
        requires few { length part.now.share.arrivals + length part.now.share.changes ≤ most_ids }
        ensures problem { OnOk result (IsRelaxedProblemOf self.now.net.now self.now.rows.now problem.new) }
        ensures tells { IfOk result (Tells (IsTruePart (task_of self.now) part.now)) }
    {
        if !is_share(self.net, &part.share) {
            return Ok(false);
        }
        let tree = match tree_of(alloc, part) {
            Ok(Some(tree)) => tree,
            Ok(None) => return Ok(false),
            Err(AllocError) => return Err(AllocError),
        };
        if !is_least(tree.as_slice(), part.bound) {
            return Ok(false);
        }
        go_back(problem, self.net, self.rows);
        self.are_all_true(problem, &part.share, tree.as_slice())
    }

    /// Whether all nodes of a whole tree in preorder are true within a share.
    fn are_all_true(
        &self,
        problem: &mut RelaxedProblem,
        share: &Share,
        nodes: &[Node],
    ) -> Result<bool, AllocError>
        requires problem { IsRelaxedProblemOf self.now.net.now self.now.rows.now problem.old }
        requires path { problem.old.path ≡ [] }
        requires share { IsShare self.now.net.now share.now }
        requires few { length share.now.arrivals + length share.now.changes ≤ most_ids }
        requires whole { fills false 0 nodes.now ≡ true }
        ensures problem { OnOk result (IsRelaxedProblemOf self.now.net.now self.now.rows.now problem.new) }
        ensures tells { IfOk result (Tells (HoldsOfAll (IsTruePartNode (task_of self.now) share.now) ([] ∷ []) nodes.now)) }
    {
        self.net.reveal();
        for node in nodes {
            if !self.is_true(problem, share, *node) {
                return Ok(false);
            }
            match go_on(problem, self.net, self.rows, *node) {
                Ok(true) => {}
                Ok(false) => return Ok(true),
                Err(AllocError) => return Err(AllocError),
            }
        }
        Ok(true)
    }

    /// Whether a node is true at the path.
    fn is_true(&self, problem: &mut RelaxedProblem, share: &Share, node: Node) -> bool
        requires problem { IsRelaxedProblemOf self.now.net.now self.now.rows.now problem.old }
        requires share { IsShare self.now.net.now share.now }
        requires few { length share.now.arrivals + length share.now.changes ≤ most_ids }
        ensures problem { IsRelaxedProblemOf self.now.net.now self.now.rows.now problem.new }
        ensures path { problem.new.path ≡ problem.old.path }
        ensures tells { Tells (IsTruePartNode (task_of self.now) share.now problem.old.path node) result }
    {
        self.net.reveal();
        match problem.solve(self.net, self.rows) {
            Ok(()) => self.is_true_solved(problem, share, node),
            Err(HeldCycle) => is_cycle(node),
        }
    }

    /// Whether a node is true at the path, where the relaxed problem has no cycle and is solved.
    fn is_true_solved(&self, problem: &RelaxedProblem, share: &Share, node: Node) -> bool
        requires problem { IsRelaxedProblemOf self.now.net.now self.now.rows.now problem.now }
        requires solved { IsSolved self.now.net.now self.now.rows.now problem.now }
        requires share { IsShare self.now.net.now share.now }
        requires few { length share.now.arrivals + length share.now.changes ≤ most_ids }
        ensures { Tells (IsTruePartNode (task_of self.now) share.now problem.now.path node) result }
    {
        match node {
            Node::Inner(choice) => problem.is_open(self.net, self.rows, choice),
            Node::Bound(cost) => self.cost_within(problem, share) == cost,
            Node::Cycle => false,
            Node::Open(_) => false,
            Node::Hole => false,
        }
    }
}

/// Whether the node is a leaf of a cycle.
fn is_cycle(node: Node) -> bool
    ensures { result ≡ is_cycle node }
{
    match node {
        Node::Cycle => true,
        Node::Inner(_) | Node::Bound(_) | Node::Open(_) | Node::Hole => false,
    }
}
