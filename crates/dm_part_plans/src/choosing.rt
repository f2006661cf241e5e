//! Choices that cost less.
ghost use Rattle.std.specs.Prelude.{◌≤◌, IfOk, OnOk};
ghost use Rattle.dm_task.specs.Tasks.{IsPosedTask, task_of};
ghost use Rattle.dm_traverse.specs.Moving.{IsOver};
ghost use Rattle.dm_part_plans.specs.Inside.Chosen.{AreChosen};

use dm_base::{Cost, Items};
use dm_evaluate::Evaluator;
use dm_rows::Decision;
use dm_task::Task;
use dm_traverse::{Outcome, step_along};
use std::alloc::AllocError;

/// Choices that differ from the rows, and what the rows cost with them.
#[derive(Drop)]
pub(crate) struct Chosen {
    pub(crate) choices: Items<Decision>,
    pub(crate) cost: Cost,
}

/// The choices that were found, where they leave nothing violated and cost less than others, or else the others. Decisions that
/// cannot be made end the path.
pub(crate) fn cheaper(
    task: &Task<'_>,
    evaluator: &mut Evaluator,
    others: Chosen,
    found: &[Decision],
) -> Result<Chosen, AllocError>
    requires posed { IsPosedTask task.now }
    requires evaluator { IsOver (task_of task.now) evaluator.old }
    requires others { AreChosen (task_of task.now) others.choices others.cost }
    ensures chosen { IfOk result (λ c. AreChosen (task_of task.now) c.choices c.cost) }
    ensures no_dearer { IfOk result (λ c. c.cost ≤ others.cost) }
    ensures evaluator { OnOk result (IsOver (task_of task.now) evaluator.new) }
{
    task.net.reveal();
    match step_along(task, evaluator, found, others.cost)? {
        Outcome::Solved(cost, choices) => Ok(Chosen { choices, cost }),
        Outcome::Cycle | Outcome::Pruned(_) | Outcome::Branch(_, _) => Ok(others),
    }
}
