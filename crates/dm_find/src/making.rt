//! Evaluators that are made side by side.
ghost use Rattle.std.specs.Prelude.{All, IfOk, IfSome, OnOk};
ghost use Rattle.std.specs.Thread.{IsSync};
ghost use Rattle.dm_task.specs.Tasks.{IsPosedTask, task_of};
ghost use Rattle.dm_traverse.specs.Moving.{IsOver};

use dm_evaluate::Evaluator;
use dm_task::Task;
use dm_traverse::evaluator_at_base;
use std::alloc::AllocError;
use std::thread::{Threads, join_mut};

/// So many evaluators at the base of a task, in so many threads, where they can be made: each makes its share, one after the other.
#[cycle(ready)]
pub(crate) fn evaluators_of<R: Threads + Sync>(
    rt: &R,
    task: &Task<'_>,
    threads: usize,
    many: usize,
) -> Result<Vec<Evaluator>, AllocError>
    requires { IsPosedTask task.now }
    ensures { IfOk result (λ es. All (IsOver (task_of task.now)) es.items) }
{
    if threads < 2 {
        return in_one_thread(task, many);
    }
    let share = many / threads;
    let others = threads - 1;
    let rest = many - share;
    let mut make = || -> Result<Vec<Evaluator>, AllocError>
        requires { IsPosedTask task.now }
        ensures { IfOk result (λ es. All (IsOver (task_of task.entry.now)) es.items) }
    { in_one_thread(task, share) };
    let mut have_made = || -> Result<Vec<Evaluator>, AllocError>
        requires { IsSync R.row × IsPosedTask task.now }
        ensures { IfOk result (λ es. All (IsOver (task_of task.entry.now)) es.items) }
    { evaluators_of(rt, task, others, rest) };
    let (made, before) = join_mut(rt, &mut make, &mut have_made);
    together(task, before?, made?)
}

/// So many evaluators, one after the other.
fn in_one_thread(task: &Task<'_>, many: usize) -> Result<Vec<Evaluator>, AllocError>
    requires { IsPosedTask task.now }
    ensures { IfOk result (λ es. All (IsOver (task_of task.now)) es.items) }
{
    let mut all = Vec::with_capacity(task.alloc, many)?;
    for _evaluator in 0..many {
        all.push(evaluator_at_base(task)?)?;
    }
    Ok(all)
}

/// Evaluators with more behind them.
fn together(
    task: &Task<'_>,
    evaluators: Vec<Evaluator>,
    more: Vec<Evaluator>,
) -> Result<Vec<Evaluator>, AllocError>
    requires evaluators { All (IsOver (task_of task.now)) evaluators.items }
    requires more { All (IsOver (task_of task.now)) more.items }
    ensures { IfOk result (λ es. All (IsOver (task_of task.now)) es.items) }
{
    let mut all = evaluators;
    let mut more = more;
    all.append(&mut more)?;
    Ok(all)
}

/// The last of the evaluators, or one more where there is none.
pub(crate) fn one_of(
    task: &Task<'_>,
    evaluators: &mut Vec<Evaluator>,
) -> Result<Evaluator, AllocError>
    requires posed { IsPosedTask task.now }
    requires evaluators { All (IsOver (task_of task.now)) evaluators.old.items }
    ensures one { IfOk result (IsOver (task_of task.now)) }
    ensures others { OnOk result (All (IsOver (task_of task.now)) evaluators.new.items) }
{
    match evaluators.pop() {
        Some(evaluator) => Ok(evaluator),
        None => evaluator_at_base(task),
    }
}
