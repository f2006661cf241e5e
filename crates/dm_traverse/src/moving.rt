//! What one step finds, by an evaluator that goes to the path from where it stands.
ghost use Rattle.std.specs.Prelude.{◌≡◌, ◌++◌, [], IfOk, OnOk, None};
ghost use Rattle.dm_evaluate.specs.Evaluator.{IsEvaluatorOf};
ghost use Rattle.dm_task.specs.Tasks.{task_of, IsPosedTask};
ghost use Rattle.dm_rows.specs.Decide.{IsChoiceList};
ghost use Rattle.dm_traverse.specs.Moving.{IsOver, GoesAlong};
ghost use Rattle.dm_traverse.specs.Steps.{IsOutcome, IsFoundThere, IsByHint};

use crate::Outcome;
use crate::finishing::evaluator_of;
use crate::walking::{back_to, make, make_all, outcome_here, step_there};
use dm_base::Cost;
use dm_evaluate::Evaluator;
use dm_rows::{Choice, Decision};
use dm_task::Task;
use std::alloc::AllocError;

/// An evaluator of a task's rows, which have no cycle, where it has decided the task's base.
pub fn evaluator_at_base(task: &Task<'_>) -> Result<Evaluator, AllocError>
    requires posed { IsPosedTask task.now }
    ensures { IfOk result (IsOver (task_of task.now)) }
{
    let mut evaluator = evaluator_of(task)?;
    decide_base(task, &mut evaluator)?;
    Ok(evaluator)
}

fn decide_base(task: &Task<'_>, evaluator: &mut Evaluator) -> Result<(), AllocError>
    requires posed { IsPosedTask task.now }
    requires evaluator { IsEvaluatorOf task.now.net.now evaluator.old }
    requires rows { evaluator.old.rows ≡ task.now.rows.now }
    requires path { evaluator.old.path ≡ [] }
    ensures { OnOk result (IsOver (task_of task.now) evaluator.new) }
{
    // The rows have the base and no cycle, so that only memory may be missing.
    let Ok(()) = make_all(task.net, evaluator, task.base) else {
        return Err(AllocError);
    };
    Ok(())
}

/// What [`step`](crate::step) says of a path behind the base of a task, in the time that the task's evaluator takes to go there.
pub fn step_to(
    task: &Task<'_>,
    evaluator: &mut Evaluator,
    path: &[Decision],
    best: Cost,
) -> Result<Outcome, AllocError>
    requires posed { IsPosedTask task.now }
    requires evaluator { IsOver (task_of task.now) evaluator.old }
    requires list { IsChoiceList task.now.net.now task.now.rows.now (task.now.base.now ++ path.now) }
    ensures outcome { IfOk result (IsOutcome task.now.net.now task.now.rows.now (task.now.base.now ++ path.now) task.now.penalty best) }
    ensures evaluator { IsOver (task_of task.now) evaluator.new }
{
    step_there(task, evaluator, path, best, None)
}

/// The same, where it branches on the choice that it is hinted at, if that one is violated there, and else on the first.
pub fn step_by(
    task: &Task<'_>,
    evaluator: &mut Evaluator,
    path: &[Decision],
    best: Cost,
    hint: Option<Choice>,
) -> Result<Outcome, AllocError>
    requires posed { IsPosedTask task.now }
    requires evaluator { IsOver (task_of task.now) evaluator.old }
    requires list { IsChoiceList task.now.net.now task.now.rows.now (task.now.base.now ++ path.now) }
    ensures found { IfOk result (IsFoundThere task.now.net.now task.now.rows.now (task.now.base.now ++ path.now) task.now.penalty best) }
    ensures first { hint ≡ None → IfOk result (IsOutcome task.now.net.now task.now.rows.now
        (task.now.base.now ++ path.now) task.now.penalty best) }
    ensures hinted { IfOk result (IsByHint task.now.net.now task.now.rows.now (task.now.base.now ++ path.now) hint) }
    ensures evaluator { IsOver (task_of task.now) evaluator.new }
{
    step_there(task, evaluator, path, best, hint)
}

/// What [`step`](crate::step) says where the decisions of a path are made behind the base of a task, up to the first of which the
/// choice is not open or which makes a cycle.
pub fn step_along(
    task: &Task<'_>,
    evaluator: &mut Evaluator,
    path: &[Decision],
    best: Cost,
) -> Result<Outcome, AllocError>
    requires posed { IsPosedTask task.now }
    requires evaluator { IsOver (task_of task.now) evaluator.old }
    ensures outcome { IfOk result (IsOutcome task.now.net.now task.now.rows.now evaluator.new.path task.now.penalty best) }
    ensures along { GoesAlong task.now.net.now task.now.rows.now task.now.base.now path.now evaluator.new.path }
    ensures evaluator { IsOver (task_of task.now) evaluator.new }
{
    back_to(task.net, evaluator, task.base.len());
    make_along(task, evaluator, path);
    outcome_here(task, evaluator, best, None)
}

/// Makes the decisions of a path, up to the first of which the choice is not open or which makes a cycle.
fn make_along(task: &Task<'_>, evaluator: &mut Evaluator, path: &[Decision])
    requires evaluator { IsEvaluatorOf task.now.net.now evaluator.old }
    requires rows { evaluator.old.rows ≡ task.now.rows.now }
    requires base { evaluator.old.path ≡ task.now.base.now }
    ensures evaluator { IsOver (task_of task.now) evaluator.new }
    ensures along { GoesAlong task.now.net.now task.now.rows.now task.now.base.now path.now evaluator.new.path }
{
    for i in 0..path.len() {
        if !make(task.net, evaluator, path[i]) {
            return;
        }
    }
}
