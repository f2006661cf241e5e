//! A true plan by parts.
ghost use Rattle.std.specs.Prelude.{◌≡◌, ◌+◌, ◌^◌, ◌≤◌, length, IfOk};
ghost use Rattle.dm_task.specs.Tasks.{IsPosedTask, task_of};
ghost use Rattle.dm_tree.specs.declared.forms.Mark.TheVariants.{Optimal};
ghost use Rattle.dm_tree.specs.Plans.{IsTruePlan};
ghost use Rattle.dm_parts.specs.Parts.{IsTruePlanByParts};
ghost use Rattle.dm_parts.specs.Sizes.{ids_of, most_ids};
ghost use Rattle.dm_part_plans.specs.Terms.{terms_of};
ghost use Rattle.dm_solve.specs.Evaluators.{AreOver};

use dm_divide::{Job, Roots, choices_at_root, in_turn, mover_at_root, parts_for};
use dm_evaluate::Evaluator;
use dm_part_plans::plan_of_parts;
use dm_parts::PlanByParts;
use dm_polish::Polisher;
use dm_probe::Mover;
use dm_task::Task;
use dm_traverse::evaluator_at_base;
use dm_tree::Plan;
use std::alloc::AllocError;

/// Evaluators that have decided a task's base, and nothing else.
#[derive(Drop)]
pub struct Evaluators {
    /// By this one all parts are moved at once.
    pub whole: Evaluator,
    /// By this one cheaper choices are looked for.
    pub polishing: Evaluator,
    /// By this one leaves and choices are judged.
    pub judging: Evaluator,
}

/// A true plan by parts of a task, made of a true plan: it has the plan's entry, costs no more, has as many nodes as the task's
/// budget allows, at most, and no more ids than a text has room for. Where that is room for all terms of the network, its bound
/// is no lower than the plan's, and it is optimal where the budget is enough for a tree of all choices allowed.
pub fn plan_by_parts(task: &Task<'_>, plan: &Plan) -> Result<PlanByParts, AllocError>
    requires posed { IsPosedTask task.now }
    requires plan { IsTruePlan (task_of task.now) plan.now }
    ensures parts { IfOk result (IsTruePlanByParts (task_of task.now)) }
    ensures entry { IfOk result (λ found. found.entry ≡ plan.now.entry) }
    ensures no_dearer { IfOk result (λ found. found.cost ≤ plan.now.cost) }
    ensures few_ids { IfOk result (λ found. ids_of found.parts ≤ most_ids) }
    ensures no_lower { terms_of task.now.net.now ≤ most_ids → IfOk result (λ found. plan.now.bound ≤ found.bound) }
    ensures enough { terms_of task.now.net.now ≤ most_ids → 2 ^ (length (task_of task.now).allowed + 1) ≤ task.now.budget + 1 →
        IfOk result (λ found. found.mark ≡ Optimal) }
{
    let first = evaluator_at_base(task)?;
    let choices = choices_at_root(task, &first)?;
    let roots = Roots {
        choices: &choices,
        first: mover_at_root(task.alloc, task.net, task.penalty, &choices, first)?,
        others: Vec::new(task.alloc),
    };
    let evaluators = Evaluators {
        whole: evaluator_at_base(task)?,
        polishing: evaluator_at_base(task)?,
        judging: evaluator_at_base(task)?,
    };
    let run = |jobs: Vec<Job>, first: &mut Mover<'_>, _others: &mut [Mover<'_>]| {
        in_turn(jobs, first, &mut [])
    };
    plan_by_workers(task, plan, roots, evaluators, &run)
}

/// The same, where parts that may be solved side by side are handed to the caller, with movers at the root, and the caller has made
/// the evaluators.
pub fn plan_by_workers<
    't: 'a,
    'a,
    F: Fn(Vec<Job>, &mut Mover<'a>, &mut [Mover<'a>]) -> Result<Vec<Job>, AllocError>,
>(
    task: &Task<'t>,
    plan: &Plan,
    roots: Roots<'a>,
    evaluators: Evaluators,
    run: &F,
) -> Result<PlanByParts, AllocError>
    requires run { F.IsAlwaysCallable run.now }
    requires posed { IsPosedTask task.now }
    requires evaluators { AreOver (task_of task.now) evaluators.whole evaluators.polishing evaluators.judging }
    requires plan { IsTruePlan (task_of task.now) plan.now }
    ensures parts { IfOk result (IsTruePlanByParts (task_of task.now)) }
    ensures entry { IfOk result (λ found. found.entry ≡ plan.now.entry) }
    ensures no_dearer { IfOk result (λ found. found.cost ≤ plan.now.cost) }
    ensures few_ids { IfOk result (λ found. ids_of found.parts ≤ most_ids) }
    ensures no_lower { terms_of task.now.net.now ≤ most_ids → IfOk result (λ found. plan.now.bound ≤ found.bound) }
    ensures enough { terms_of task.now.net.now ≤ most_ids → 2 ^ (length (task_of task.now).allowed + 1) ≤ task.now.budget + 1 →
        IfOk result (λ found. found.mark ≡ Optimal) }
{
    task.net.reveal();
    let Evaluators {
        whole,
        polishing,
        mut judging,
    } = evaluators;
    let choices = plan.choices.as_slice();
    let polisher = Polisher::new(task, polishing, choices)?;
    let found = parts_for(task, choices, roots, run, whole, polisher)?;
    plan_of_parts(task, &mut judging, plan, &found.trees, &found.choices)
}
