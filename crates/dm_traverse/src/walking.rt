//! One step of a search by an evaluator that is brought to the path.
ghost use Rattle.std.specs.Prelude.{◌≡◌, ◌<◌, ◌≤◌, ◌+◌, ◌-◌, ◌++◌, ◌∷◌, [], length, take, drop, IfOk, OnOk, OnErr, MatchBool, IsTrue, ◌↔◌, IfSome, None};
ghost use Rattle.dm_rows.specs.Decide.{IsChoiceList, choice_of};
ghost use Rattle.dm_evaluate.specs.Evaluator.{IsEvaluatorOf, times_of};
ghost use Rattle.dm_paths.specs.Decisions.{IsOpen};
ghost use Rattle.dm_task.specs.Tasks.{IsPosedTask, task_of};
ghost use Rattle.dm_relax.specs.Relaxed.{first_violated};
ghost use Rattle.dm_tree.specs.Pending.{IsFront};
ghost use Rattle.dm_tree.specs.Relaxed.{IsViolated, relaxed_cost_of};
ghost use Rattle.dm_traverse.specs.Steps.{HasRelaxedCycle, IsOutcome, IsFoundThere, IsByHint, IsChosenBy};
ghost use Rattle.dm_traverse.specs.Inside.Walking.{AreFronts, IsLeftUnmade};
ghost use Rattle.dm_traverse.specs.Moving.{IsOver};

use crate::Outcome;
use crate::steps::outcome_of;
use dm_base::{Cost, Steps};
use dm_evaluate::Evaluator;
use dm_graph::search::Cyclic;
use dm_network::Network;
use dm_relax::Relaxed;
use dm_rows::{Choice, Decision};
use dm_task::Task;
use dm_times::Times;
use std::alloc::AllocError;
use std::marker::Brand;
use std::sync::ledger::{Blank, Ledger};

/// What a search does with a path behind the base of a task, in the time that the task's evaluator takes to go there. It branches
/// on the choice that it is hinted at, where that one is violated, and else on the first.
pub(crate) fn step_there(
    task: &Task<'_>,
    evaluator: &mut Evaluator,
    path: &[Decision],
    best: Cost,
    hint: Option<Choice>,
) -> Result<Outcome, AllocError>
    requires posed { IsPosedTask task.now }
    requires evaluator { IsOver (task_of task.now) evaluator.old }
    requires list { IsChoiceList task.now.net.now task.now.rows.now (task.now.base.now ++ path.now) }
    ensures outcome { IfOk result (IsFoundThere task.now.net.now task.now.rows.now (task.now.base.now ++ path.now) task.now.penalty best) }
    ensures first { hint ≡ None → IfOk result (IsOutcome task.now.net.now task.now.rows.now
        (task.now.base.now ++ path.now) task.now.penalty best) }
    ensures hinted { IfOk result (IsByHint task.now.net.now task.now.rows.now (task.now.base.now ++ path.now) hint) }
    ensures evaluator { IsOver (task_of task.now) evaluator.new }
{
    let Ok(()) = walk(task, evaluator, path) else {
        return Ok(Outcome::Cycle);
    };
    outcome_here(task, evaluator, best, hint)
}

/// What a search does with the path of a task's evaluator. It branches on the choice that it is hinted at, where that one is
/// violated, and else on the first.
pub(crate) fn outcome_here(
    task: &Task<'_>,
    evaluator: &mut Evaluator,
    best: Cost,
    hint: Option<Choice>,
) -> Result<Outcome, AllocError>
    requires posed { IsPosedTask task.now }
    requires evaluator { IsOver (task_of task.now) evaluator.old }
    ensures outcome { IfOk result (IsFoundThere task.now.net.now task.now.rows.now evaluator.old.path task.now.penalty best) }
    ensures first { hint ≡ None → IfOk result (IsOutcome task.now.net.now task.now.rows.now evaluator.old.path task.now.penalty best) }
    ensures hinted { IfOk result (IsByHint task.now.net.now task.now.rows.now evaluator.old.path hint) }
    ensures evaluator { IsOver (task_of task.now) evaluator.new }
    ensures path { evaluator.new.path ≡ evaluator.old.path }
{
    let net = task.net;
    net.reveal();
    let cost = evaluator.cost(net, task.penalty);
    if best <= cost {
        return Ok(Outcome::Pruned(cost));
    }
    match violated_there(net, evaluator, hint) {
        Some(choice) => Ok(Outcome::Branch(cost, choice)),
        None => solved_here(task, evaluator, cost, best),
    }
}

/// What completes the path of a task's evaluator, whose times violate nothing and cost so much.
fn solved_here(
    task: &Task<'_>,
    evaluator: &Evaluator,
    cost: Cost,
    best: Cost,
) -> Result<Outcome, AllocError>
    requires posed { IsPosedTask task.now }
    requires evaluator { IsOver (task_of task.now) evaluator.now }
    requires cost { cost ≡ relaxed_cost_of task.now.net.now evaluator.now.rows evaluator.now.path (times_of evaluator.now)
        task.now.penalty }
    requires nothing { first_violated task.now.net.now evaluator.now.rows evaluator.now.path (times_of evaluator.now) ≡ None }
    ensures { IfOk result (IsOutcome task.now.net.now task.now.rows.now evaluator.now.path task.now.penalty best) }
{
    task.net.reveal();
    let mut times = Times::room(task.alloc, task.net)?;
    times.copy_from(evaluator.times());
    let relaxed = Relaxed {
        times,
        cost,
        violated: None,
    };
    outcome_of(
        task.alloc,
        task.net,
        task.penalty,
        task.rows,
        evaluator.path(),
        best,
        &relaxed,
    )
}

/// A choice that the evaluator's times violate: the one that it is hinted at, or the first.
#[tactic(auto, using(crate::proofs::Walks::all_violated))]
fn violated_there(net: &Network, evaluator: &mut Evaluator, hint: Option<Choice>) -> Option<Choice>
    requires { IsEvaluatorOf net.now evaluator.old }
    ensures evaluator { IsEvaluatorOf net.now evaluator.new }
    ensures rows { evaluator.new.rows ≡ evaluator.old.rows }
    ensures path { evaluator.new.path ≡ evaluator.old.path }
    ensures times { times_of evaluator.new ≡ times_of evaluator.old }
    ensures violated { IfSome result (IsViolated net.now evaluator.old.rows evaluator.old.path (times_of evaluator.old)) }
    ensures first { hint ≡ None → result ≡ first_violated net.now evaluator.old.rows evaluator.old.path (times_of evaluator.old) }
    ensures chosen { IfSome result (IsChosenBy net.now evaluator.old.rows evaluator.old.path (times_of evaluator.old) hint) }
    ensures nothing { result ≡ None → first_violated net.now evaluator.old.rows evaluator.old.path (times_of evaluator.old) ≡ None }
{
    let Some(choice) = hint else {
        return violated_in(net, evaluator);
    };
    if is_violated_in(net, evaluator, choice) {
        Some(choice)
    } else {
        violated_in(net, evaluator)
    }
}

/// Whether the evaluator's times violate a choice.
fn is_violated_in(net: &Network, evaluator: &Evaluator, choice: Choice) -> bool
    requires { IsEvaluatorOf net.now evaluator.now }
    ensures { IsTrue result ↔ IsViolated net.now evaluator.now.rows evaluator.now.path (times_of evaluator.now) choice }
{
    is_violated_with::<Brand>(net, evaluator, choice, Blank::new(1))
}

fn is_violated_with<L: Ledger>(
    net: &Network,
    evaluator: &Evaluator,
    choice: Choice,
    blank: Blank,
) -> bool
    requires evaluator { IsEvaluatorOf net.now evaluator.now }
    requires name { blank.name ≡ L.name }
    requires parts { blank.parts ≡ L.parts }
    requires has_a_part { 0 < blank.parts }
    ensures { IsTrue result ↔ IsViolated net.now evaluator.now.rows evaluator.now.path (times_of evaluator.now) choice }
{
    let mut steps = Steps::<L>::new(blank);
    evaluator.is_violated(net, choice, &mut steps)
}

/// The first choice that the evaluator's times violate.
fn violated_in(net: &Network, evaluator: &mut Evaluator) -> Option<Choice>
    requires { IsEvaluatorOf net.now evaluator.old }
    ensures evaluator { IsEvaluatorOf net.now evaluator.new }
    ensures rows { evaluator.new.rows ≡ evaluator.old.rows }
    ensures path { evaluator.new.path ≡ evaluator.old.path }
    ensures times { times_of evaluator.new ≡ times_of evaluator.old }
    ensures first { result ≡ first_violated net.now evaluator.old.rows evaluator.old.path (times_of evaluator.old) }
{
    violated_with::<Brand>(net, evaluator, Blank::new(1))
}

fn violated_with<L: Ledger>(
    net: &Network,
    evaluator: &mut Evaluator,
    blank: Blank,
) -> Option<Choice>
    requires evaluator { IsEvaluatorOf net.now evaluator.old }
    requires name { blank.name ≡ L.name }
    requires parts { blank.parts ≡ L.parts }
    requires has_a_part { 0 < blank.parts }
    ensures evaluator { IsEvaluatorOf net.now evaluator.new }
    ensures rows { evaluator.new.rows ≡ evaluator.old.rows }
    ensures path { evaluator.new.path ≡ evaluator.old.path }
    ensures times { times_of evaluator.new ≡ times_of evaluator.old }
    ensures first { result ≡ first_violated net.now evaluator.old.rows evaluator.old.path (times_of evaluator.old) }
{
    let mut steps = Steps::<L>::new(blank);
    evaluator.violated(net, &mut steps)
}

/// Brings a task's evaluator to a path behind the base: decisions are taken back from the end of its own path down to what both
/// have in front, and the others of the path are made. It is refused where the relaxed problem of the path has a cycle.
pub fn walk(task: &Task<'_>, evaluator: &mut Evaluator, path: &[Decision]) -> Result<(), Cyclic>
    requires posed { IsPosedTask task.now }
    requires evaluator { IsOver (task_of task.now) evaluator.old }
    requires list { IsChoiceList task.now.net.now task.now.rows.now (task.now.base.now ++ path.now) }
    ensures evaluator { IsOver (task_of task.now) evaluator.new }
    ensures there { OnOk result (evaluator.new.path ≡ task.now.base.now ++ path.now) }
    ensures cycle { OnErr result (HasRelaxedCycle task.now.net.now task.now.rows.now (task.now.base.now ++ path.now)) }
{
    let base = task.base.len();
    let common = common_front(behind(evaluator.path(), base), path);
    let left = base + common;
    back_to(task.net, evaluator, left);
    make_all(task.net, evaluator, &path[common..])
}

/// The decisions of a path behind the first so many, and none where it has no more.
pub fn behind(path: &[Decision], many: usize) -> &[Decision]
    ensures { result.now ≡ drop many path.now }
{
    if many < path.len() {
        &path[many..]
    } else {
        &[]
    }
}

/// How many decisions the two have in common at the front.
fn common_front(one: &[Decision], other: &[Decision]) -> usize
    ensures { AreFronts one.now other.now result }
{
    for (i, decision) in one.iter().enumerate() {
        if i >= other.len() || !decision.is_same(other[i]) {
            return i;
        }
    }
    one.len()
}

/// Takes decisions back from the end until so many are left.
pub(crate) fn back_to(net: &Network, evaluator: &mut Evaluator, left: usize)
    requires evaluator { IsEvaluatorOf net.now evaluator.old }
    requires within { left ≤ length evaluator.old.path }
    ensures evaluator { IsEvaluatorOf net.now evaluator.new }
    ensures rows { evaluator.new.rows ≡ evaluator.old.rows }
    ensures path { evaluator.new.path ≡ take left evaluator.old.path }
{
    while evaluator.path().len() > left {
        back(net, evaluator);
    }
}

/// Takes the last decision back.
fn back(net: &Network, evaluator: &mut Evaluator)
    requires evaluator { IsEvaluatorOf net.now evaluator.old }
    requires some { 0 < length evaluator.old.path }
    ensures evaluator { IsEvaluatorOf net.now evaluator.new }
    ensures rows { evaluator.new.rows ≡ evaluator.old.rows }
    ensures path { evaluator.new.path ≡ take (length evaluator.old.path - 1) evaluator.old.path }
{
    let path = evaluator.path();
    let last = path[path.len() - 1];
    undecide_with::<Brand>(net, evaluator, last, Blank::new(1));
}

fn undecide_with<L: Ledger>(net: &Network, evaluator: &mut Evaluator, last: Decision, blank: Blank)
    requires evaluator { IsEvaluatorOf net.now evaluator.old }
    requires some { 0 < length evaluator.old.path }
    requires last { evaluator.old.path ≡ take (length evaluator.old.path - 1) evaluator.old.path ++ last ∷ [] }
    requires name { blank.name ≡ L.name }
    requires parts { blank.parts ≡ L.parts }
    requires has_a_part { 0 < blank.parts }
    ensures evaluator { IsEvaluatorOf net.now evaluator.new }
    ensures rows { evaluator.new.rows ≡ evaluator.old.rows }
    ensures path { evaluator.new.path ≡ take (length evaluator.old.path - 1) evaluator.old.path }
{
    let mut steps = Steps::<L>::new(blank);
    evaluator.undecide(net, last.choice(), &mut steps);
}

/// Makes decisions behind an evaluator's path. It is refused where the relaxed problem of the path with all of them has a cycle.
pub(crate) fn make_all(
    net: &Network,
    evaluator: &mut Evaluator,
    decisions: &[Decision],
) -> Result<(), Cyclic>
    requires evaluator { IsEvaluatorOf net.now evaluator.old }
    requires list { IsChoiceList net.now evaluator.old.rows (evaluator.old.path ++ decisions.now) }
    ensures evaluator { IsEvaluatorOf net.now evaluator.new }
    ensures rows { evaluator.new.rows ≡ evaluator.old.rows }
    ensures front { IsFront evaluator.old.path evaluator.new.path }
    ensures there { OnOk result (evaluator.new.path ≡ evaluator.old.path ++ decisions.now) }
    ensures cycle { OnErr result (HasRelaxedCycle net.now evaluator.old.rows (evaluator.old.path ++ decisions.now)) }
{
    net.reveal();
    for i in 0..decisions.len() {
        match decide_with::<Brand>(net, evaluator, decisions[i], Blank::new(1)) {
            Ok(()) => {}
            Err(Cyclic) => return Err(Cyclic),
        }
    }
    Ok(())
}

/// Makes a decision more, where its choice is open and it makes no cycle.
pub(crate) fn make(net: &Network, evaluator: &mut Evaluator, decision: Decision) -> bool
    requires { IsEvaluatorOf net.now evaluator.old }
    ensures evaluator { IsEvaluatorOf net.now evaluator.new }
    ensures rows { evaluator.new.rows ≡ evaluator.old.rows }
    ensures path { IsFront evaluator.old.path evaluator.new.path }
    ensures made { MatchBool result (evaluator.new.path ≡ evaluator.old.path ++ decision ∷ [])
        (IsLeftUnmade net.now evaluator.old.rows evaluator.old.path evaluator.new.path decision) }
{
    if !evaluator.is_open(net, decision.choice()) {
        return false;
    }
    make_open::<Brand>(net, evaluator, decision, Blank::new(1))
}

fn make_open<L: Ledger>(
    net: &Network,
    evaluator: &mut Evaluator,
    decision: Decision,
    blank: Blank,
) -> bool
    requires evaluator { IsEvaluatorOf net.now evaluator.old }
    requires open { IsOpen net.now evaluator.old.rows evaluator.old.path (choice_of decision) }
    requires name { blank.name ≡ L.name }
    requires parts { blank.parts ≡ L.parts }
    requires has_a_part { 0 < blank.parts }
    ensures evaluator { IsEvaluatorOf net.now evaluator.new }
    ensures rows { evaluator.new.rows ≡ evaluator.old.rows }
    ensures path { IsFront evaluator.old.path evaluator.new.path }
    ensures made { MatchBool result (evaluator.new.path ≡ evaluator.old.path ++ decision ∷ [])
        (IsLeftUnmade net.now evaluator.old.rows evaluator.old.path evaluator.new.path decision) }
{
    let mut steps = Steps::<L>::new(blank);
    match evaluator.decide(net, decision, &mut steps) {
        Ok(()) => true,
        Err(Cyclic) => false,
    }
}

fn decide_with<L: Ledger>(
    net: &Network,
    evaluator: &mut Evaluator,
    decision: Decision,
    blank: Blank,
) -> Result<(), Cyclic>
    requires evaluator { IsEvaluatorOf net.now evaluator.old }
    requires list { IsChoiceList net.now evaluator.old.rows (evaluator.old.path ++ decision ∷ []) }
    requires name { blank.name ≡ L.name }
    requires parts { blank.parts ≡ L.parts }
    requires has_a_part { 0 < blank.parts }
    ensures evaluator { IsEvaluatorOf net.now evaluator.new }
    ensures rows { evaluator.new.rows ≡ evaluator.old.rows }
    ensures path { OnOk result (evaluator.new.path ≡ evaluator.old.path ++ decision ∷ []) }
    ensures unchanged { OnErr result (evaluator.new.path ≡ evaluator.old.path) }
    ensures cycle { OnErr result (HasRelaxedCycle net.now evaluator.old.rows (evaluator.old.path ++ decision ∷ [])) }
{
    let mut steps = Steps::<L>::new(blank);
    match evaluator.decide(net, decision, &mut steps) {
        Ok(()) => Ok(()),
        Err(Cyclic) => Err(Cyclic),
    }
}
