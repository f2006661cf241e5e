//! Nodes of a part's tree, judged by an evaluator.
ghost use Rattle.std.specs.Prelude.{◌++◌};
ghost use Rattle.dm_rows.specs.Decide.{IsChoiceList};
ghost use Rattle.dm_task.specs.Tasks.{IsPosedTask, task_of};
ghost use Rattle.dm_traverse.specs.Moving.{IsOver};
ghost use Rattle.dm_parts.specs.Parts.{as_node};
ghost use Rattle.dm_parts.specs.Shares.{IsShare};
ghost use Rattle.dm_part_plans.specs.Inside.Claims.{IsSmall};
ghost use Rattle.dm_part_plans.specs.Inside.Nodes.{IsTrueNode, IsLowNode};

use crate::costing::cost_within;
use dm_branch::TreeNode;
use dm_evaluate::Evaluator;
use dm_parts::{PartNode, Share};
use dm_rows::Decision;
use dm_task::Task;
use dm_traverse::walk;

/// The node at a path behind the base of a task: a cycle, or the choice that was found there if it is open, or else what the
/// share costs.
pub(crate) fn node_at(
    task: &Task<'_>,
    evaluator: &mut Evaluator,
    share: &Share,
    path: &[Decision],
    found: Option<TreeNode>,
) -> PartNode
    requires posed { IsPosedTask task.now }
    requires evaluator { IsOver (task_of task.now) evaluator.old }
    requires share { IsShare task.now.net.now share.now }
    requires small { IsSmall share.now }
    requires list { IsChoiceList task.now.net.now task.now.rows.now (task.now.base.now ++ path.now) }
    ensures node { IsTrueNode (task_of task.now) share.now path.now (as_node result) }
    ensures low { IsLowNode result }
    ensures evaluator { IsOver (task_of task.now) evaluator.new }
{
    let net = task.net;
    net.reveal();
    let Ok(()) = walk(task, evaluator, path) else {
        return PartNode::Cycle;
    };
    match found {
        Some(TreeNode::Inner(choice)) if evaluator.is_open(net, choice) => PartNode::Inner(choice),
        _ => PartNode::Leaf(cost_within(net, evaluator, task.penalty, share)),
    }
}
