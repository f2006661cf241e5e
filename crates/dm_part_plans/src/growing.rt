//! A part's tree that is judged node by node.
ghost use Rattle.std.specs.Prelude.{◌≡◌, ◌+◌, ◌^◌, ◌<◌, ◌≤◌, [], None, length, IfOk, IfSome, OnOk, MatchBool};
ghost use Rattle.dm_task.specs.Tasks.{IsPosedTask, task_of};
ghost use Rattle.dm_tree.specs.Plans.{Task as PlanTask};
ghost use Rattle.dm_tree.specs.Trees.{choice_in};
ghost use Rattle.dm_traverse.specs.Moving.{IsOver};
ghost use Rattle.dm_parts.specs.Parts.{IsTruePart, as_node};
ghost use Rattle.dm_parts.specs.Shares.{IsShare};
ghost use Rattle.dm_part_plans.specs.Inside.Claims.{IsSmall};
ghost use Rattle.dm_part_plans.specs.Inside.Nodes.{IsGrown, IsTrueTree, IsLeastOf, IsLow, least_with};

use crate::judging::node_at;
use dm_base::{Cost, Items};
use dm_branch::TreeNode;
use dm_evaluate::Evaluator;
use dm_parts::{Part, PartNode, Share};
use dm_rows::{Choice, Decision};
use dm_task::Task;
use dm_tree::turn_back;
use std::alloc::{AllocError, Global};

/// The first nodes of a tree in preorder, the path to the next one, and the least cost of a leaf, if there is one.
#[derive(Drop)]
struct Growing {
    nodes: Vec<PartNode>,
    path: Vec<Decision>,
    least: Option<Cost>,
}

/// The part of a share with the nodes that were found, in preorder, as far as they are true; or None where they are no whole tree
/// of at most so many nodes.
pub(crate) fn part_for(
    task: &Task<'_>,
    evaluator: &mut Evaluator,
    share: Share,
    found: &[TreeNode],
    room: u64,
) -> Result<Option<Part>, AllocError>
    requires posed { IsPosedTask task.now }
    requires evaluator { IsOver (task_of task.now) evaluator.old }
    requires share { IsShare task.now.net.now share }
    requires small { IsSmall share }
    ensures part { IfOk result (λ o. IfSome o (IsTruePart (task_of task.now))) }
    ensures share { IfOk result (λ o. IfSome o (λ part. part.share ≡ share)) }
    ensures few { IfOk result (λ o. IfSome o (λ part. length part.tree ≤ room)) }
    ensures some { IfOk result (λ o. IfSome o (λ part. 0 < length part.tree)) }
    ensures low { IfOk result (λ o. IfSome o (λ part. part.bound < 2 ^ 100)) }
    ensures evaluator { OnOk result (IsOver (task_of task.now) evaluator.new) }
{
    task.net.reveal();
    let mut growing = Growing::new(task.alloc);
    for node in found {
        if growing.nodes.len() as u64 >= room {
            return Ok(None);
        }
        if !growing.add(task, evaluator, &share, *node)? {
            return Ok(growing.finish(share));
        }
    }
    Ok(None)
}

impl Growing {
    /// No node yet: the root is the next one.
    fn new(alloc: Global) -> Growing
        ensures nodes { result.nodes.items ≡ [] }
        ensures path { result.path.items ≡ [] }
        ensures least { result.least ≡ None }
    {
        Growing {
            nodes: Vec::new(alloc),
            path: Vec::new(alloc),
            least: None,
        }
    }

    /// Adds the next node. It is false where that was the last one.
    fn add(
        &mut self,
        task: &Task<'_>,
        evaluator: &mut Evaluator,
        share: &Share,
        found: TreeNode,
    ) -> Result<bool, AllocError>
        requires posed { IsPosedTask task.now }
        requires evaluator { IsOver (task_of task.now) evaluator.old }
        requires share { IsShare task.now.net.now share.now }
        requires small { IsSmall share.now }
        requires grown { IsGrown (task_of task.now) share.now self.old.nodes.items self.old.path.items }
        requires least { IsLeastOf self.old.nodes.items self.old.least }
        requires low { IsLow self.old.least }
        ensures grown { IfOk result (λ more. MatchBool more
            (IsGrown (task_of task.now) share.now self.new.nodes.items self.new.path.items)
            (IsTrueTree (task_of task.now) share.now self.new.nodes.items)) }
        ensures least { OnOk result (IsLeastOf self.new.nodes.items self.new.least) }
        ensures low { OnOk result (IsLow self.new.least) }
        ensures one { OnOk result (length self.new.nodes.items ≡ length self.old.nodes.items + 1) }
        ensures evaluator { OnOk result (IsOver (task_of task.now) evaluator.new) }
    {
        task.net.reveal();
        let node = node_at(task, evaluator, share, self.path.as_slice(), Some(found));
        self.nodes.push(node)?;
        self.least = least_with(self.least, node);
        let Some(choice) = choice_at(node) else {
            return turn_back(&mut self.path);
        };
        self.path.push(choice.first())?;
        Ok(true)
    }

    /// The part of a share with this tree, or None where each leaf is a cycle.
    fn finish(self, share: Share) -> Option<Part>
        ensures part { (task : PlanTask) → IsShare task.net share → IsTrueTree task share self.nodes.items →
            IsLeastOf self.nodes.items self.least → IfSome result (IsTruePart task) }
        ensures share { IfSome result (λ part. part.share ≡ share) }
        ensures nodes { IfSome result (λ part. part.tree ≡ self.nodes.items) }
        ensures low { IsLow self.least → IfSome result (λ part. part.bound < 2 ^ 100) }
    {
        let Growing {
            nodes,
            path: _,
            least,
        } = self;
        let bound = least?;
        Some(Part {
            share,
            tree: Items::from_vec(nodes),
            bound,
        })
    }
}

/// The choice on which a node branches, if it does.
fn choice_at(node: PartNode) -> Option<Choice>
    ensures { result ≡ choice_in (as_node node) }
{
    match node {
        PartNode::Inner(choice) => Some(choice),
        PartNode::Cycle | PartNode::Leaf(_) => None,
    }
}

/// The least cost of a leaf, with one node more.
fn least_with(least: Option<Cost>, node: PartNode) -> Option<Cost>
    ensures { result ≡ least_with least node }
{
    match (least, node) {
        (Some(least), PartNode::Leaf(cost)) => Some(least.min(cost)),
        (None, PartNode::Leaf(cost)) => Some(cost),
        (least, PartNode::Inner(_) | PartNode::Cycle) => least,
    }
}
