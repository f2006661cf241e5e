//! A search by several workers that ends with a true plan, led by a guide that searchers find in threads.
ghost use Rattle.std.specs.Prelude.{ℕ, ◌≡◌, ◌≤◌, IfOk};
ghost use Rattle.dm_base.specs.declared.limits.TheConstants.{BUDGET, PENALTY, WORKERS};
ghost use Rattle.dm_tree.specs.Plans.{IsTruePlan, whole_task};
ghost use Rattle.dm_task.specs.Tasks.{task_of, IsPosedTask};
ghost use Rattle.dm_rows.specs.Active.{HasNoCycle};
ghost use Rattle.dm_rows.specs.Cost.{Costs};
ghost use Rattle.dm_rows.specs.Rows.{IsSized};
ghost use Rattle.dm_team.specs.Found.{IsOwnCost};
ghost use Rattle.dm_team.specs.Led.{IsPlanOfWorkers};

use crate::rounds::{begin, judge_and_guide};
use dm_bound::BoundWord;
use dm_desk::HoldPoint;
use dm_network::Network;
use dm_rows::Snapshot;
use dm_task::Task;
use dm_team::{Beginning, Best, capped, search_guided};
use dm_traverse::whole;
use dm_tree::Plan;
use std::alloc::{AllocError, Global};
use std::marker::Brand;
use std::sync::Wait;
use std::thread::Threads;

/// A true plan for the rows of a snapshot, which have no cycle, with the snapshot's entry and a tree of at most `budget` nodes,
/// of which there are 1 to 16,384, searched by 1 to 16 workers in threads of their own. The penalty is in seconds for each
/// passenger, at most 1,000,000.
pub fn search<R: Threads + Wait + Sync, H: HoldPoint + Sync>(
    rt: &R,
    alloc: Global,
    net: &Network,
    penalty: u64,
    snapshot: &Snapshot,
    budget: u64,
    workers: u32,
    gate: &H,
) -> Result<Plan, AllocError>
    requires sized { IsSized net.now snapshot.now.rows }
    requires no_cycle { HasNoCycle net.now snapshot.now.rows }
    requires penalty { penalty ≤ PENALTY }
    requires budget { (1 ≤ budget) × (budget ≤ BUDGET) }
    requires workers { (1 ≤ workers) × (workers ≤ WORKERS) }
    ensures plan { IfOk result (IsTruePlan (whole_task net.now snapshot.now.rows penalty budget)) }
    ensures entry { IfOk result (λ plan. plan.entry ≡ snapshot.now.entry) }
    ensures no_dearer { IfOk result (λ plan. (own : ℕ) → Costs net.now snapshot.now.rows penalty own → plan.cost ≤ own) }
{
    let rows = &snapshot.rows;
    let task = whole(alloc, net, rows, penalty, budget);
    search_task(rt, &task, snapshot.entry, workers, gate)
}

/// The same for a task, with an entry, led by a guide that searchers find: the plan is made as dm_team makes it.
pub fn search_task<R: Threads + Wait + Sync, H: HoldPoint + Sync>(
    rt: &R,
    task: &Task<'_>,
    entry: u32,
    workers: u32,
    gate: &H,
) -> Result<Plan, AllocError>
    requires posed { IsPosedTask task.now }
    requires no_cycle { HasNoCycle task.now.net.now task.now.rows.now }
    requires some { 1 ≤ task.now.budget }
    requires workers { (1 ≤ workers) × (workers ≤ WORKERS) }
    ensures plan { IfOk result (IsTruePlan (task_of task.now)) }
    ensures entry { IfOk result (λ plan. plan.entry ≡ entry) }
    ensures no_dearer { IfOk result (λ plan. (own : ℕ) → IsOwnCost (task_of task.now) own → plan.cost ≤ own) }
    ensures together { IfOk result (IsPlanOfWorkers (task_of task.now) workers) }
{
    let (own, searchers) = begin(rt, task, workers)?;
    let mut searchers = searchers;
    let (evaluators, guide) = judge_and_guide(rt, task, own, searchers.as_mut_slice())?;
    let (word, hand) = BoundWord::new(task.alloc, capped(own), workers + 1)?;
    let beginning = Beginning {
        workers,
        own,
        best: Best::of_rows(task.alloc, own),
        hand,
        evaluators,
    };
    search_guided::<Brand, R, H>(rt, task, entry, guide, beginning, word, gate)
}
