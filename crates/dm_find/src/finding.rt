//! A plan of the kind that was asked for.
ghost use Rattle.std.specs.Prelude.{ℕ, ◌≡◌, ◌+◌, ◌^◌, ◌≤◌, All, length, IfOk};
ghost use Rattle.dm_base.specs.declared.limits.TheConstants.{BUDGET};
ghost use Rattle.dm_rows.specs.Cost.{Costs};
ghost use Rattle.dm_rows.specs.Decide.{free_choices_of};
ghost use Rattle.dm_tree.specs.declared.forms.Mark.TheVariants.{Optimal};
ghost use Rattle.dm_tree.specs.Plans.{IsTruePlan, whole_task};
ghost use Rattle.dm_task.specs.Tasks.{IsPosedTask, task_of};
ghost use Rattle.dm_traverse.specs.Moving.{IsOver};
ghost use Rattle.dm_parts.specs.Parts.{IsTruePlanByParts};
ghost use Rattle.dm_parts.specs.Sizes.{ids_of, most_ids};
ghost use Rattle.std.specs.Thread.{IsSync};
ghost use Rattle.dm_solve.specs.Evaluators.{AreOver};
ghost use Rattle.dm_part_plans.specs.Terms.{terms_of};
ghost use Rattle.dm_desk.specs.Planning.{budget_of, SolvesFor};
ghost use Rattle.dm_desk.specs.Searching.{FindsAsked, MaySearch};
ghost use Rattle.dm_find.specs.Found.{cost_of, mark_of};

use crate::making::{evaluators_of, one_of};
use dm_desk::{HoldPoint, PlanRequest, Search};
use dm_divide::{Job, Roots, choices_at_root, mover_at_root};
use dm_evaluate::Evaluator;
use dm_part_workers::solve_all;
use dm_parts::{AnyPlan, PlanByParts};
use dm_probe::{Choices, Mover};
use dm_solve::{Evaluators, plan_by_workers};
use dm_task::Task;
use dm_traverse::whole;
use dm_tree::Plan;
use dm_workers::search;
use std::alloc::{AllocError, Global};
use std::sync::Wait;
use std::thread::Threads;

/// How many evaluators a plan by parts takes besides those of the workers.
const FURTHER: usize = 3;

/// A true plan of the kind that was asked for, of the rows of a snapshot, which have no cycle. It has the snapshot's entry and at
/// most as many nodes as was asked for, of which there are 1 to 16,384, and is searched by 1 to 16 workers in threads of their own.
/// The penalty is in seconds for each passenger, at most 1,000,000. The plan costs no more than the rows by themselves. It is optimal
/// where the nodes are enough for a tree of all free choices, and a text has room for all terms of the network.
pub fn find<R: Threads + Wait + Sync, H: HoldPoint + Sync>(
    rt: &R,
    alloc: Global,
    request: &PlanRequest<'_>,
    gate: &H,
) -> Result<AnyPlan, AllocError>
    requires { MaySearch request.now }
    ensures finds { IfOk result (FindsAsked request.now) }
    ensures no_dearer { IfOk result (λ plan. (own : ℕ) → Costs request.now.net.now request.now.snapshot.now.rows request.now.penalty own
        → cost_of plan ≤ own) }
    ensures enough { terms_of request.now.net.now ≤ most_ids
        → 2 ^ (length (free_choices_of request.now.net.now request.now.snapshot.now.rows) + 1) ≤ budget_of request.now.asked + 1
        → IfOk result (λ plan. mark_of plan ≡ Optimal) }
{
    let net = request.net;
    net.reveal();
    match request.asked {
        Search::Plan(budget) => match plan_within(rt, alloc, request, budget, gate) {
            Ok(plan) => Ok(AnyPlan::Whole(plan)),
            Err(AllocError) => Err(AllocError),
        },
        Search::Solve(budget) => match solve(rt, alloc, request, budget, gate) {
            Ok(plan) => Ok(AnyPlan::ByParts(plan)),
            Err(AllocError) => Err(AllocError),
        },
    }
}

/// A true plan that several workers search.
fn plan_within<R: Threads + Wait + Sync, H: HoldPoint + Sync>(
    rt: &R,
    alloc: Global,
    request: &PlanRequest<'_>,
    budget: u64,
    gate: &H,
) -> Result<Plan, AllocError>
    requires within { MaySearch request.now }
    requires budget { (1 ≤ budget) × (budget ≤ BUDGET) }
    ensures entry { IfOk result (λ plan. plan.entry ≡ request.now.snapshot.now.entry) }
    ensures plan { IfOk result (IsTruePlan (whole_task request.now.net.now request.now.snapshot.now.rows request.now.penalty budget)) }
    ensures no_dearer { IfOk result (λ plan. (own : ℕ) → Costs request.now.net.now request.now.snapshot.now.rows request.now.penalty own
        → plan.cost ≤ own) }
{
    search(
        rt,
        alloc,
        request.net,
        request.penalty,
        request.snapshot,
        budget,
        request.workers,
        gate,
    )
}

/// A true plan by parts, made of a plan that several workers search.
fn solve<R: Threads + Wait + Sync, H: HoldPoint + Sync>(
    rt: &R,
    alloc: Global,
    request: &PlanRequest<'_>,
    budget: u64,
    gate: &H,
) -> Result<PlanByParts, AllocError>
    requires within { MaySearch request.now }
    requires budget { (1 ≤ budget) × (budget ≤ BUDGET) }
    ensures solves { IfOk result (SolvesFor request.now.net.now request.now.penalty request.now.snapshot.now budget) }
    ensures no_dearer { IfOk result (λ plan. (own : ℕ) → Costs request.now.net.now request.now.snapshot.now.rows request.now.penalty own
        → plan.cost ≤ own) }
    ensures enough { terms_of request.now.net.now ≤ most_ids
        → 2 ^ (length (free_choices_of request.now.net.now request.now.snapshot.now.rows) + 1) ≤ budget + 1
        → IfOk result (λ plan. plan.mark ≡ Optimal) }
{
    let plan = match plan_within(rt, alloc, request, budget, gate) {
        Ok(plan) => plan,
        Err(AllocError) => return Err(AllocError),
    };
    let (net, penalty) = (request.net, request.penalty);
    let rows = &request.snapshot.rows;
    let task = whole(alloc, net, rows, penalty, budget);
    solve_task(rt, &task, &plan, request.workers)
}

/// A true plan by parts of a task and a plan, whose parts several workers solve.
fn solve_task<R: Threads + Wait + Sync>(
    rt: &R,
    task: &Task<'_>,
    plan: &Plan,
    workers: u32,
) -> Result<PlanByParts, AllocError>
    requires posed { IsPosedTask task.now }
    requires plan { IsTruePlan (task_of task.now) plan.now }
    ensures parts { IfOk result (IsTruePlanByParts (task_of task.now)) }
    ensures entry { IfOk result (λ found. found.entry ≡ plan.now.entry) }
    ensures no_dearer { IfOk result (λ found. found.cost ≤ plan.now.cost) }
    ensures few_ids { IfOk result (λ found. ids_of found.parts ≤ most_ids) }
    ensures enough { terms_of task.now.net.now ≤ most_ids → 2 ^ (length (task_of task.now).allowed + 1) ≤ task.now.budget + 1 →
        IfOk result (λ found. found.mark ≡ Optimal) }
{
    let many = workers as usize;
    let mut made = evaluators_of(rt, task, many, many + FURTHER)?;
    let evaluators = Evaluators {
        whole: one_of(task, &mut made)?,
        polishing: one_of(task, &mut made)?,
        judging: one_of(task, &mut made)?,
    };
    solve_with(rt, task, plan, evaluators, made)
}

/// The same, by evaluators that were made before. A worker goes with each of the last ones.
fn solve_with<R: Threads + Wait + Sync>(
    rt: &R,
    task: &Task<'_>,
    plan: &Plan,
    evaluators: Evaluators,
    made: Vec<Evaluator>,
) -> Result<PlanByParts, AllocError>
    requires posed { IsPosedTask task.now }
    requires evaluators { AreOver (task_of task.now) evaluators.whole evaluators.polishing evaluators.judging }
    requires made { All (IsOver (task_of task.now)) made.items }
    requires plan { IsTruePlan (task_of task.now) plan.now }
    ensures parts { IfOk result (IsTruePlanByParts (task_of task.now)) }
    ensures entry { IfOk result (λ found. found.entry ≡ plan.now.entry) }
    ensures no_dearer { IfOk result (λ found. found.cost ≤ plan.now.cost) }
    ensures few_ids { IfOk result (λ found. ids_of found.parts ≤ most_ids) }
    ensures enough { terms_of task.now.net.now ≤ most_ids → 2 ^ (length (task_of task.now).allowed + 1) ≤ task.now.budget + 1 →
        IfOk result (λ found. found.mark ≡ Optimal) }
{
    let alloc = task.alloc;
    let mut made = made;
    let first = one_of(task, &mut made)?;
    let choices = choices_at_root(task, &first)?;
    let roots = Roots {
        choices: &choices,
        first: mover_at_root(alloc, task.net, task.penalty, &choices, first)?,
        others: movers_of(task, &choices, made)?,
    };
    solve_by(rt, task, plan, roots, evaluators)
}

/// The same, by movers at the root.
fn solve_by<'t: 'a, 'a, R: Threads + Wait + Sync>(
    rt: &R,
    task: &Task<'t>,
    plan: &Plan,
    roots: Roots<'a>,
    evaluators: Evaluators,
) -> Result<PlanByParts, AllocError>
    requires posed { IsPosedTask task.now }
    requires evaluators { AreOver (task_of task.now) evaluators.whole evaluators.polishing evaluators.judging }
    requires plan { IsTruePlan (task_of task.now) plan.now }
    ensures parts { IfOk result (IsTruePlanByParts (task_of task.now)) }
    ensures entry { IfOk result (λ found. found.entry ≡ plan.now.entry) }
    ensures no_dearer { IfOk result (λ found. found.cost ≤ plan.now.cost) }
    ensures few_ids { IfOk result (λ found. ids_of found.parts ≤ most_ids) }
    ensures enough { terms_of task.now.net.now ≤ most_ids → 2 ^ (length (task_of task.now).allowed + 1) ≤ task.now.budget + 1 →
        IfOk result (λ found. found.mark ≡ Optimal) }
{
    let alloc = task.alloc;
    let run = |jobs: Vec<Job>, first: &mut Mover<'_>, others: &mut [Mover<'_>]| -> Result<
        Vec<Job>,
        AllocError,
    >
        requires { IsSync R.row }
    { solve_all(rt, alloc, jobs, first, others) };
    plan_by_workers(task, plan, roots, evaluators, &run)
}

/// A mover at the root with each of the evaluators.
fn movers_of<'a>(
    task: &Task<'a>,
    choices: &'a Choices,
    evaluators: Vec<Evaluator>,
) -> Result<Vec<Mover<'a>>, AllocError>
    requires posed { IsPosedTask task.now }
    requires evaluators { All (IsOver (task_of task.now)) evaluators.items }
{
    let mut movers = Vec::with_capacity(task.alloc, evaluators.len())?;
    for evaluator in evaluators {
        let mover = mover_at_root(task.alloc, task.net, task.penalty, choices, evaluator)?;
        movers.push(mover)?;
    }
    Ok(movers)
}
