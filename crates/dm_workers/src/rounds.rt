//! The rounds of a guide, played by several workers at once.
ghost use Rattle.std.specs.Prelude.{All, IfOk};
ghost use Rattle.std.specs.Thread.{IsSync};
ghost use Rattle.dm_task.specs.Tasks.{task_of, IsPosedTask};
ghost use Rattle.dm_traverse.specs.Moving.{IsOver};
ghost use Rattle.dm_team.specs.Found.{IsOwnCost};

use dm_base::Cost;
use dm_evaluate::Evaluator;
use dm_guide::{Round, Searcher, Start, guide};
use dm_search::searcher_at;
use dm_task::{Guide, Task};
use dm_times::{cost, least};
use dm_traverse::evaluator_at_base;
use dm_tree::Node;
use std::alloc::AllocError;
use std::thread::{Threads, join, join_mut};

/// What the rows cost by themselves.
fn own_cost(task: &Task<'_>) -> Result<Cost, AllocError>
    requires posed { IsPosedTask task.now }
    ensures { IfOk result (IsOwnCost (task_of task.now)) }
{
    match least(task.alloc, task.net, task.rows) {
        Ok(times) => Ok(cost(task.net, task.rows, &times, task.penalty)),
        Err(_no_times) => Err(AllocError),
    }
}

/// What the rows cost by themselves, and so many searchers at the root, where there is room for a choice.
pub(crate) fn begin<'t, R: Threads + Sync>(
    rt: &R,
    task: &Task<'t>,
    workers: u32,
) -> Result<(Cost, Vec<Searcher<'t>>), AllocError>
    requires posed { IsPosedTask task.now }
    ensures own { IfOk result (λ r. IsOwnCost (task_of task.now) r.0) }
{
    if task.budget < 3 {
        return Ok((own_cost(task)?, Vec::new(task.alloc)));
    }
    let many = workers as usize;
    if many < 2 {
        let own = own_cost(task)?;
        return Ok((own, searchers_of(rt, task, many, many)?));
    }
    let mut cost = || -> Result<Cost, AllocError>
        requires { IsPosedTask task.now }
        ensures { IfOk result (IsOwnCost (task_of task.entry.now)) }
    { own_cost(task) };
    let mut make = ||
        requires { IsSync R.row × IsPosedTask task.now }
    { searchers_of(rt, task, many, many) };
    let (own, searchers) = join_mut(rt, &mut cost, &mut make);
    Ok((own?, searchers?))
}

/// The first so many of many searchers, each made in a thread of its own where one can be made. This one starts them all, and
/// makes the first then.
#[cycle(make)]
fn searchers_of<'t, R: Threads + Sync>(
    rt: &R,
    task: &Task<'t>,
    count: usize,
    many: usize,
) -> Result<Vec<Searcher<'t>>, AllocError>
    requires { IsPosedTask task.now }
{
    if count < 2 {
        let mut all = Vec::with_capacity(task.alloc, many)?;
        all.push(searcher_at(task, 0, many)?)?;
        return Ok(all);
    }
    let last = count - 1;
    let (searcher, before) = join(
        rt,
        ||
            requires { IsPosedTask task.now }
        { searcher_at(task, last, many) },
        ||
            requires { IsSync R.row × IsPosedTask task.now }
        { searchers_of(rt, task, last, many) },
    );
    let mut all = before?;
    all.push(searcher?)?;
    Ok(all)
}

/// As many evaluators at the base as there are searchers, and a guide that these find in rounds, at once where there are several of
/// them.
pub(crate) fn judge_and_guide<'t, R: Threads + Sync>(
    rt: &R,
    task: &Task<'t>,
    own: Cost,
    searchers: &mut [Searcher<'t>],
) -> Result<(Vec<Evaluator>, Guide), AllocError>
    requires posed { IsPosedTask task.now }
    ensures evaluators { IfOk result (λ r. All (IsOver (task_of task.now)) r.0.items) }
{
    let many = searchers.len();
    if many < 2 {
        let guide = guided(rt, task, own, searchers)?;
        return Ok((evaluators_of(rt, task, many)?, guide));
    }
    let mut judge = || -> Result<Vec<Evaluator>, AllocError>
        requires { IsSync R.row × IsPosedTask task.now }
        ensures { IfOk result (λ es. All (IsOver (task_of task.entry.now)) es.items) }
    { evaluators_of(rt, task, many) };
    let mut look = || -> Result<Guide, AllocError>
        requires { IsSync R.row }
    { guided(rt, task, own, searchers) };
    let (evaluators, guide) = join_mut(rt, &mut judge, &mut look);
    Ok((evaluators?, guide?))
}

/// So many evaluators at the base, or one, each made in a thread of its own where one can be made.
#[cycle(ready)]
fn evaluators_of<R: Threads + Sync>(
    rt: &R,
    task: &Task<'_>,
    count: usize,
) -> Result<Vec<Evaluator>, AllocError>
    requires { IsPosedTask task.now }
    ensures { IfOk result (λ es. All (IsOver (task_of task.now)) es.items) }
{
    if count < 2 {
        return one_evaluator(task);
    }
    let last = count - 1;
    let mut make = || -> Result<Evaluator, AllocError>
        requires { IsPosedTask task.now }
        ensures { IfOk result (IsOver (task_of task.entry.now)) }
    { evaluator_at_base(task) };
    let mut others = || -> Result<Vec<Evaluator>, AllocError>
        requires { IsSync R.row × IsPosedTask task.now }
        ensures { IfOk result (λ es. All (IsOver (task_of task.entry.now)) es.items) }
    { evaluators_of(rt, task, last) };
    let (evaluator, before) = join_mut(rt, &mut make, &mut others);
    with_one_more(task, before?, evaluator?)
}

fn one_evaluator(task: &Task<'_>) -> Result<Vec<Evaluator>, AllocError>
    requires { IsPosedTask task.now }
    ensures { IfOk result (λ es. All (IsOver (task_of task.now)) es.items) }
{
    let evaluator = evaluator_at_base(task)?;
    with_one_more(task, Vec::new(task.alloc), evaluator)
}

/// Evaluators with one more behind them.
fn with_one_more(
    task: &Task<'_>,
    evaluators: Vec<Evaluator>,
    evaluator: Evaluator,
) -> Result<Vec<Evaluator>, AllocError>
    requires evaluators { All (IsOver (task_of task.now)) evaluators.items }
    requires evaluator { IsOver (task_of task.now) evaluator }
    ensures { IfOk result (λ es. All (IsOver (task_of task.now)) es.items) }
{
    let mut all = evaluators;
    all.push(evaluator)?;
    Ok(all)
}

/// What guides a search from the root.
fn guided<'t, R: Threads + Sync>(
    rt: &R,
    task: &Task<'t>,
    own: Cost,
    searchers: &mut [Searcher<'t>],
) -> Result<Guide, AllocError> {
    let run = |round: &Round, first: &mut Searcher<'_>, others: &mut [Searcher<'_>]|
        requires { IsSync R.row }
    { play_at_once(rt, round, first, others) };
    let start = Start {
        nodes: &[Node::Hole],
        choices: &[],
        cost: own,
    };
    guide(task.alloc, searchers, &run, start, task.budget)
}

/// Each searcher plays its part of a round, in a thread of its own where one can be made. This one starts them all, and plays the
/// first's part then.
#[cycle(play)]
fn play_at_once<R: Threads + Sync>(
    rt: &R,
    round: &Round,
    first: &mut Searcher<'_>,
    others: &mut [Searcher<'_>],
) {
    let Some((last, rest)) = others.split_last_mut() else {
        play_one(round, first);
        return;
    };
    join(
        rt,
        move || play_one(round, last),
        move ||
            requires { IsSync R.row }
        { play_at_once(rt, round, first, rest) },
    );
}

fn play_one(round: &Round, searcher: &mut Searcher<'_>) {
    searcher.play(round);
}
