//! A true plan by parts.
ghost use Rattle.std.specs.Prelude.{◌≡◌, ◌+◌, ◌^◌, ◌<◌, ◌≤◌, ◌↔◌, [], IfOk, OnOk, MatchBool};
ghost use Rattle.dm_task.specs.Tasks.{IsPosedTask, task_of};
ghost use Rattle.dm_traverse.specs.Moving.{IsOver};
ghost use Rattle.dm_tree.specs.declared.forms.Mark.TheVariants.{Optimal};
ghost use Rattle.dm_tree.specs.Plans.{Task as PlanTask, IsTruePlan, CostsRelaxed};
ghost use Rattle.dm_parts.specs.Parts.{IsTruePlanByParts, task_beside, shares_of};
ghost use Rattle.dm_parts.specs.Sizes.{ids_of, most_ids};
ghost use Rattle.dm_part_plans.specs.Inside.Chosen.{AreChosen};
ghost use Rattle.dm_part_plans.specs.Inside.Gathered.{AreGathered};
ghost use Rattle.dm_part_plans.specs.Terms.{terms_of};

use crate::alone::{one_part, terms_in};
use crate::choosing::{Chosen, cheaper};
use crate::gathering::{Gathered, MOST_IDS, cost_of_shares, gather};
use dm_base::{Cost, Items};
use dm_branch::PartTree;
use dm_evaluate::Evaluator;
use dm_network::Network;
use dm_parts::{Part, PlanByParts};
use dm_rows::Decision;
use dm_task::Task;
use dm_traverse::walk;
use dm_tree::{Mark, Plan};
use std::alloc::AllocError;

/// A true plan by parts of a task, made of a true plan and of what was found: the trees of parts, and choices that may cost less. It
/// has the plan's entry, costs no more, has as many nodes as the task's budget allows, at most, and no more ids than a text has room
/// for. Where that is room for all terms of the network, its bound is no lower than the plan's. An evaluator of the task judges
/// leaves and choices.
pub fn plan_of_parts(
    task: &Task<'_>,
    evaluator: &mut Evaluator,
    plan: &Plan,
    trees: &[PartTree],
    choices: &[Decision],
) -> Result<PlanByParts, AllocError>
    requires posed { IsPosedTask task.now }
    requires evaluator { IsOver (task_of task.now) evaluator.old }
    requires plan { IsTruePlan (task_of task.now) plan.now }
    ensures parts { IfOk result (IsTruePlanByParts (task_of task.now)) }
    ensures entry { IfOk result (λ found. found.entry ≡ plan.now.entry) }
    ensures no_dearer { IfOk result (λ found. found.cost ≤ plan.now.cost) }
    ensures few_ids { IfOk result (λ found. ids_of found.parts ≤ most_ids) }
    ensures no_lower { terms_of task.now.net.now ≤ most_ids → IfOk result (λ found. plan.now.bound ≤ found.bound) }
{
    let gathered = gather(task, evaluator, trees)?;
    let rest = rest_of(task, evaluator, &gathered)?;
    let chosen = chosen_of(task, evaluator, plan, choices)?;
    if is_better_in_one_part(task.net, gathered.bound + rest, plan.bound) {
        return with_one_part(task, plan, chosen);
    }
    Ok(put_together(plan.entry, chosen, gathered, rest))
}

/// Whether one part of all terms has room in a text, and a plan's bound is above what parts have.
fn is_better_in_one_part(net: &Network, bound: Cost, plan: Cost) -> bool
    ensures { MatchBool result (terms_of net.now ≤ most_ids) (terms_of net.now ≤ most_ids → plan ≤ bound) }
{
    bound < plan && terms_in(net) <= MOST_IDS
}

/// The choices of a plan, or those that were found where they cost less.
fn chosen_of(
    task: &Task<'_>,
    evaluator: &mut Evaluator,
    plan: &Plan,
    found: &[Decision],
) -> Result<Chosen, AllocError>
    requires posed { IsPosedTask task.now }
    requires evaluator { IsOver (task_of task.now) evaluator.old }
    requires plan { IsTruePlan (task_of task.now) plan.now }
    ensures chosen { IfOk result (λ c. AreChosen (task_of task.now) c.choices c.cost) }
    ensures no_dearer { IfOk result (λ c. c.cost ≤ plan.now.cost) }
{
    let own = choices_of(task, plan)?;
    cheaper(task, evaluator, own, found)
}

/// The choices of a plan.
fn choices_of(task: &Task<'_>, plan: &Plan) -> Result<Chosen, AllocError>
    requires { IsTruePlan (task_of task.now) plan.now }
    ensures chosen { IfOk result (λ c. AreChosen (task_of task.now) c.choices c.cost) }
    ensures cost { IfOk result (λ c. c.cost ≡ plan.now.cost) }
{
    let choices = Vec::from_slice(task.alloc, plan.choices.as_slice())?;
    Ok(Chosen {
        choices: Items::from_vec(choices),
        cost: plan.cost,
    })
}

/// What the terms that stand in no share cost where nothing is decided.
fn rest_of(
    task: &Task<'_>,
    evaluator: &mut Evaluator,
    gathered: &Gathered,
) -> Result<Cost, AllocError>
    requires posed { IsPosedTask task.now }
    requires evaluator { IsOver (task_of task.now) evaluator.old }
    requires gathered { AreGathered (task_of task.now)
        gathered.now.claims.arrivals.items gathered.now.claims.changes.items gathered.now.parts.items
        gathered.now.bound gathered.now.nodes gathered.now.ids }
    ensures rest { IfOk result (CostsRelaxed (task_beside (task_of task.now) (shares_of gathered.now.parts.items)) []) }
    ensures limit { IfOk result (λ rest. rest < 2 ^ 100) }
    ensures evaluator { OnOk result (IsOver (task_of task.now) evaluator.new) }
{
    task.net.reveal();
    // It only goes back to the base, which makes no cycle.
    let Ok(()) = walk(task, evaluator, &[]) else {
        return Err(AllocError);
    };
    let all = evaluator.cost(task.net, task.penalty);
    let inside = cost_of_shares(task.net, evaluator, task.penalty, &gathered.parts);
    Ok(all - inside)
}

/// The plan by parts.
fn put_together(entry: u32, chosen: Chosen, gathered: Gathered, rest: Cost) -> PlanByParts
    requires low { gathered.bound + rest < 2 ^ 128 }
    ensures parts { (task : PlanTask) → AreChosen task chosen.choices chosen.cost →
        AreGathered task gathered.claims.arrivals.items gathered.claims.changes.items gathered.parts.items
        gathered.bound gathered.nodes gathered.ids →
        CostsRelaxed (task_beside task (shares_of gathered.parts.items)) [] rest → IsTruePlanByParts task result }
    ensures kept { result.parts ≡ gathered.parts.items }
    ensures entry { result.entry ≡ entry }
    ensures cost { result.cost ≡ chosen.cost }
    ensures bound { result.bound ≡ gathered.bound + rest }
{
    let bound = gathered.bound + rest;
    let Chosen { choices, cost } = chosen;
    PlanByParts {
        entry,
        choices,
        cost,
        parts: Items::from_vec(gathered.into_parts()),
        rest,
        bound,
        mark: mark_of(bound, cost),
    }
}

/// Choices with one part, which has all terms and a plan's tree.
fn with_one_part(task: &Task<'_>, plan: &Plan, chosen: Chosen) -> Result<PlanByParts, AllocError>
    requires posed { IsPosedTask task.now }
    requires plan { IsTruePlan (task_of task.now) plan.now }
    requires chosen { AreChosen (task_of task.now) chosen.choices chosen.cost }
    requires few { terms_of task.now.net.now ≤ most_ids }
    ensures parts { IfOk result (IsTruePlanByParts (task_of task.now)) }
    ensures entry { IfOk result (λ found. found.entry ≡ plan.now.entry) }
    ensures few_ids { IfOk result (λ found. ids_of found.parts ≤ most_ids) }
    ensures cost { IfOk result (λ found. found.cost ≡ chosen.cost) }
    ensures bound { IfOk result (λ found. found.bound ≡ plan.now.bound) }
{
    task.net.reveal();
    let part = one_part(task.alloc, task.net, plan)?;
    let mut parts: Vec<Part> = Vec::new(task.alloc);
    parts.push(part)?;
    let Chosen { choices, cost } = chosen;
    Ok(PlanByParts {
        entry: plan.entry,
        choices,
        cost,
        parts: Items::from_vec(parts),
        rest: 0,
        bound: plan.bound,
        mark: mark_of(plan.bound, cost),
    })
}

/// Optimal exactly where the bound is the cost.
fn mark_of(bound: Cost, cost: Cost) -> Mark
    ensures { (result ≡ Optimal) ↔ (bound ≡ cost) }
{
    if bound == cost {
        Mark::Optimal
    } else {
        Mark::Open
    }
}
