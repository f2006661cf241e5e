//! A search that ends with a true plan, led by a guide that it finds itself.
ghost use Rattle.std.specs.Prelude.{ℕ, ◌≡◌, ◌≤◌, IfOk};
ghost use Rattle.dm_base.specs.declared.limits.TheConstants.{PENALTY, BUDGET};
ghost use Rattle.dm_task.specs.Tasks.{IsPosedTask, task_of};
ghost use Rattle.dm_rows.specs.Rows.{IsSized};
ghost use Rattle.dm_rows.specs.Active.{HasNoCycle};
ghost use Rattle.dm_rows.specs.Cost.{Costs};
ghost use Rattle.dm_rows.specs.Decide.{IsChoiceList, with_decisions};
ghost use Rattle.dm_tree.specs.Plans.{whole_task, CostsWith, IsTruePlan};
ghost use Rattle.dm_traverse.specs.Finish.{IsStart, GoesOnFrom};

use crate::guiding::guide_alone;
use dm_base::Cost;
use dm_network::Network;
use dm_paths::with_decisions;
use dm_rows::{Decision, Snapshot};
use dm_task::Task;
use dm_times::{cost, least};
use dm_traverse::{evaluator_at_base, finish_with, plan_with, whole};
use dm_tree::{Node, Partial, Plan};
use std::alloc::{AllocError, Global};

/// A true plan for the rows of a snapshot, which have no cycle: what [`finish`] makes of a tree of one hole and no choices.
pub fn plan(
    alloc: Global,
    net: &Network,
    penalty: u64,
    snapshot: &Snapshot,
    budget: u64,
) -> Result<Plan, AllocError>
    requires sized { IsSized net.now snapshot.now.rows }
    requires no_cycle { HasNoCycle net.now snapshot.now.rows }
    requires penalty { penalty ≤ PENALTY }
    requires budget { (1 ≤ budget) × (budget ≤ BUDGET) }
    ensures plan { IfOk result (IsTruePlan (whole_task net.now snapshot.now.rows penalty budget)) }
    ensures entry { IfOk result (λ plan. plan.entry ≡ snapshot.now.entry) }
{
    let rows = &snapshot.rows;
    plan_task(&whole(alloc, net, rows, penalty, budget), snapshot.entry)
}

/// A true plan for the rows of a snapshot, with the snapshot's entry and a tree of at most `budget` nodes, of which there are
/// 1 to 16,384. It searches each hole of the tree that it is given, and each open leaf while there is room for two nodes more:
/// first those that cost least. The choices that it begins with cost no more than the rows by themselves; a tree of one hole and
/// no choices will do where the rows have no cycle. The penalty is in seconds for each passenger, at most 1,000,000.
pub fn finish(
    alloc: Global,
    net: &Network,
    penalty: u64,
    snapshot: &Snapshot,
    partial: Partial,
    best: Vec<Decision>,
    budget: u64,
) -> Result<Plan, AllocError>
    requires sized { IsSized net.now snapshot.now.rows }
    requires penalty { penalty ≤ PENALTY }
    requires budget { (1 ≤ budget) × (budget ≤ BUDGET) }
    requires start { IsStart (whole_task net.now snapshot.now.rows penalty budget) partial best.items }
    ensures plan { IfOk result (IsTruePlan (whole_task net.now snapshot.now.rows penalty budget)) }
    ensures entry { IfOk result (λ plan. plan.entry ≡ snapshot.now.entry) }
    ensures cost { IfOk result (λ plan. (c : ℕ)
        → CostsWith (whole_task net.now snapshot.now.rows penalty budget) best.items c → plan.cost ≤ c) }
    ensures goes_on { IfOk result (λ plan. GoesOnFrom partial plan.tree) }
{
    let rows = &snapshot.rows;
    let task = whole(alloc, net, rows, penalty, budget);
    finish_task(&task, snapshot.entry, partial, best)
}

/// The same for any task, with an entry.
fn finish_task(
    task: &Task<'_>,
    entry: u32,
    partial: Partial,
    best: Vec<Decision>,
) -> Result<Plan, AllocError>
    requires posed { IsPosedTask task.now }
    requires start { IsStart (task_of task.now) partial best.items }
    ensures plan { IfOk result (IsTruePlan (task_of task.now)) }
    ensures entry { IfOk result (λ plan. plan.entry ≡ entry) }
    ensures cost { IfOk result (λ plan. (c : ℕ) → CostsWith (task_of task.now) best.items c → plan.cost ≤ c) }
    ensures goes_on { IfOk result (λ plan. GoesOnFrom partial plan.tree) }
{
    task.net.reveal();
    let cost = cost_with(task, &best)?;
    finish_at(task, entry, partial, best, cost)
}

/// The same where the choices cost so much.
fn finish_at(
    task: &Task<'_>,
    entry: u32,
    partial: Partial,
    best: Vec<Decision>,
    cost: Cost,
) -> Result<Plan, AllocError>
    requires posed { IsPosedTask task.now }
    requires start { IsStart (task_of task.now) partial best.items }
    requires costs { CostsWith (task_of task.now) best.items cost }
    ensures plan { IfOk result (IsTruePlan (task_of task.now)) }
    ensures entry { IfOk result (λ plan. plan.entry ≡ entry) }
    ensures cost { IfOk result (λ plan. plan.cost ≤ cost) }
    ensures goes_on { IfOk result (λ plan. GoesOnFrom partial plan.tree) }
{
    let guide = guide_alone(task, partial.as_slice(), &best, cost)?;
    let evaluator = evaluator_at_base(task)?;
    finish_with(task, entry, partial, best, cost, evaluator, &guide)
}

/// A true plan for a task, with an entry. The rows have no cycle, and the budget is at least 1. It is what is made of a tree of
/// one hole and no choices.
pub fn plan_task(task: &Task<'_>, entry: u32) -> Result<Plan, AllocError>
    requires posed { IsPosedTask task.now }
    requires no_cycle { HasNoCycle task.now.net.now task.now.rows.now }
    requires some { 1 ≤ task.now.budget }
    ensures plan { IfOk result (IsTruePlan (task_of task.now)) }
    ensures entry { IfOk result (λ plan. plan.entry ≡ entry) }
{
    let own = cost_with(task, &[])?;
    let guide = guide_alone(task, &[Node::Hole], &[], own)?;
    let evaluator = evaluator_at_base(task)?;
    plan_with(task, entry, own, evaluator, &guide)
}

/// What a task's rows cost with choices with which they have no cycle.
fn cost_with(task: &Task<'_>, choices: &[Decision]) -> Result<Cost, AllocError>
    requires posed { IsPosedTask task.now }
    requires list { IsChoiceList task.now.net.now task.now.rows.now choices.now }
    ensures { IfOk result (Costs task.now.net.now (with_decisions task.now.net.now task.now.rows.now choices.now) task.now.penalty) }
{
    let set = with_decisions(task.net, task.rows, choices)?;
    // Rows without a cycle have no times for want of memory alone.
    let Ok(times) = least(task.alloc, task.net, &set) else {
        return Err(AllocError);
    };
    Ok(cost(task.net, &set, &times, task.penalty))
}
