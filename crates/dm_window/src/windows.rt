//! Plans of stretches of time.
ghost use Rattle.std.specs.Prelude.{◌≡◌, ◌≤◌, IfOk};
ghost use Rattle.dm_base.specs.declared.limits.TheConstants.{PENALTY, BUDGET};
ghost use Rattle.dm_rows.specs.Rows.{IsSized};
ghost use Rattle.dm_rows.specs.Active.{HasNoCycle};
ghost use Rattle.dm_parts.specs.Sizes.{ids_of, most_ids};
ghost use Rattle.dm_stretch.specs.Windows.{IsTrueWindowPlan, IsTrueWindowSolution};

use dm_network::Network;
use dm_parts::PlanByParts;
use dm_rows::Snapshot;
use dm_search::plan_task;
use dm_solve::plan_by_parts;
use dm_stretch::{Window, window_base};
use dm_task::Task;
use dm_tree::Plan;
use std::alloc::{AllocError, Global};

/// A true plan for the window of a snapshot's rows, which have no cycle. It has the snapshot's entry and a tree of at most `budget`
/// nodes, of which there are 1 to 16,384. The penalty is in seconds for each passenger, at most 1,000,000. Err is want of memory
/// alone.
pub fn window_plan(
    alloc: Global,
    net: &Network,
    penalty: u64,
    snapshot: &Snapshot,
    window: &Window,
    budget: u64,
) -> Result<Plan, AllocError>
    requires sized { IsSized net.now snapshot.now.rows }
    requires no_cycle { HasNoCycle net.now snapshot.now.rows }
    requires penalty { penalty ≤ PENALTY }
    requires budget { (1 ≤ budget) × (budget ≤ BUDGET) }
    ensures plan { IfOk result (IsTrueWindowPlan net.now snapshot.now.rows penalty window.now budget) }
    ensures entry { IfOk result (λ plan. plan.entry ≡ snapshot.now.entry) }
{
    net.reveal();
    let rows = &snapshot.rows;
    let base = window_base(alloc, net, rows, window)?;
    let task = Task {
        alloc,
        net,
        rows,
        penalty,
        base: &base,
        budget,
    };
    plan_task(&task, snapshot.entry)
}

/// A true plan by parts for the window of a snapshot's rows, which have no cycle, made of a plan for it. It has the snapshot's entry,
/// at most `budget` nodes, of which there are 1 to 16,384, and no more ids than a text has room for. The penalty is in seconds for
/// each passenger, at most 1,000,000. Err is want of memory alone.
pub fn window_solution(
    alloc: Global,
    net: &Network,
    penalty: u64,
    snapshot: &Snapshot,
    window: &Window,
    budget: u64,
) -> Result<PlanByParts, AllocError>
    requires sized { IsSized net.now snapshot.now.rows }
    requires no_cycle { HasNoCycle net.now snapshot.now.rows }
    requires penalty { penalty ≤ PENALTY }
    requires budget { (1 ≤ budget) × (budget ≤ BUDGET) }
    ensures plan { IfOk result (IsTrueWindowSolution net.now snapshot.now.rows penalty window.now budget) }
    ensures entry { IfOk result (λ plan. plan.entry ≡ snapshot.now.entry) }
    ensures few_ids { IfOk result (λ plan. ids_of plan.parts ≤ most_ids) }
{
    net.reveal();
    let rows = &snapshot.rows;
    let base = window_base(alloc, net, rows, window)?;
    let task = Task {
        alloc,
        net,
        rows,
        penalty,
        base: &base,
        budget,
    };
    let plan = plan_task(&task, snapshot.entry)?;
    plan_by_parts(&task, &plan)
}
