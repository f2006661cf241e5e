//! A search by several workers, led by a guide, that ends with a true plan.
ghost use Rattle.std.specs.Prelude.{ℕ, ◌≡◌, ◌<◌, ◌≤◌, [], ◌∷◌, min, All, IfOk, IfSome};
ghost use Rattle.dm_base.specs.declared.limits.TheConstants.{WORKERS};
ghost use Rattle.dm_bound.specs.Words.{nothing_looked};
ghost use Rattle.dm_traverse.specs.Finish.{IsStart};
ghost use Rattle.dm_traverse.specs.Moving.{IsOver};
ghost use Rattle.dm_tree.specs.Plans.{IsTruePlan};
ghost use Rattle.dm_tree.specs.Trees.{Assembles};
ghost use Rattle.dm_tree.specs.declared.forms.Node.TheVariants.{Hole};
ghost use Rattle.dm_task.specs.Tasks.{task_of, IsPosedTask};
ghost use Rattle.dm_rows.specs.Active.{HasNoCycle};
ghost use Rattle.dm_team.specs.Nodes.{guided_by, PicksNodes};
ghost use Rattle.dm_team.specs.Found.{IsOwnCost, AreKept, IsFound, BeginsFrom, GrowsFrom};
ghost use Rattle.dm_team.specs.Led.{LeadsTo, IsMadeTogether};
ghost use Rattle.dm_team.specs.Inside.Planning.{IsBetterBy, IsClosed};

use crate::finding::{Beginning, Found, find};
use crate::working::{Best, Path, lend, made};
use dm_base::Cost;
use dm_bound::BoundWord;
use dm_deques::Grown;
use dm_desk::HoldPoint;
use dm_evaluate::Evaluator;
use dm_task::{Guide, Task};
use dm_traverse::{Outcome, behind, finish_with, step_along};
use dm_tree::{AssembleFault, Leaf, Partial, Plan, assemble};
use std::alloc::{AllocError, Global};
use std::sync::Wait;
use std::thread::Threads;

/// The plan of what workers find who are led by a guide. They begin with the guide's choices, or with those that are kept where
/// these cost no more. The plan costs no more than the choices that are kept, than those to which the guide leads, than those of any
/// worker, and than each value of the word at which one may have pruned. The hand has all seats of the word, which ends here.
pub fn search_guided<F: Grown<Path> + Send + Sync, R: Threads + Wait + Sync, H: HoldPoint + Sync>(
    rt: &R,
    task: &Task<'_>,
    entry: u32,
    guide: Guide,
    beginning: Beginning,
    word: BoundWord,
    gate: &H,
) -> Result<Plan, AllocError>
    requires posed { IsPosedTask task.now }
    requires no_cycle { HasNoCycle task.now.net.now task.now.rows.now }
    requires some { 1 ≤ task.now.budget }
    requires workers { (1 ≤ beginning.workers) × (beginning.workers ≤ WORKERS) }
    requires picks { PicksNodes (guided_by task.now guide) F.fits }
    requires own { IsOwnCost (task_of task.now) beginning.own }
    requires kept { AreKept (task_of task.now) beginning.own beginning.best.choices beginning.best.cost }
    requires word { (beginning.hand.word ≡ word.id) × (beginning.hand.start ≡ min beginning.own nothing_looked) }
    requires new { (beginning.hand.lowered ≡ []) × (beginning.workers < beginning.hand.room) }
    requires alone { beginning.hand.room ≡ word.seats }
    requires evaluators { All (IsOver (task_of task.now)) beginning.evaluators.items }
    ensures plan { IfOk result (IsTruePlan (task_of task.now)) }
    ensures entry { IfOk result (λ plan. plan.entry ≡ entry) }
    ensures no_dearer { IfOk result (λ plan. plan.cost ≤ beginning.best.cost) }
    ensures led { IfOk result (λ plan. (c : ℕ) → LeadsTo (task_of task.now) guide.path.items c → plan.cost ≤ c) }
    ensures together { IfOk result (IsMadeTogether (guided_by task.now guide) beginning.own beginning.workers word.id) }
{
    let own = beginning.own;
    let beginning = led_by(task, &guide, beginning)?;
    let found = find::<F, R, H>(rt, task, &guide, beginning, &word, gate)?;
    plan_of(task, entry, own, guide, found, word)
}

/// What workers begin with who are led by a guide: with the choices to which it leads, where these cost less.
fn led_by(task: &Task<'_>, guide: &Guide, beginning: Beginning) -> Result<Beginning, AllocError>
    requires posed { IsPosedTask task.now }
    requires kept { AreKept (task_of task.now) beginning.own beginning.best.choices beginning.best.cost }
    requires evaluators { All (IsOver (task_of task.now)) beginning.evaluators.items }
    ensures same { IfOk result (λ b. (b.workers ≡ beginning.workers) × (b.own ≡ beginning.own) × (b.hand ≡ beginning.hand)) }
    ensures kept { IfOk result (λ b. AreKept (task_of task.now) beginning.own b.best.choices b.best.cost) }
    ensures no_dearer { IfOk result (λ b. b.best.cost ≤ beginning.best.cost) }
    ensures led { IfOk result (λ b. (c : ℕ) → LeadsTo (task_of task.now) guide.now.path.items c → b.best.cost ≤ c) }
    ensures evaluators { IfOk result (λ b. All (IsOver (task_of task.now)) b.evaluators.items) }
{
    let Beginning {
        workers,
        own,
        best,
        hand,
        mut evaluators,
    } = beginning;
    let mut evaluator = made(task, lend(&mut evaluators))?;
    let best = choices_of(task, &mut evaluator, guide, best)?;
    evaluators.push(evaluator)?;
    Ok(Beginning {
        workers,
        own,
        best,
        hand,
        evaluators,
    })
}

/// The choices to which a guide leads, where they cost less than those that are kept, and else these.
fn choices_of(
    task: &Task<'_>,
    evaluator: &mut Evaluator,
    guide: &Guide,
    kept: Best,
) -> Result<Best, AllocError>
    requires posed { IsPosedTask task.now }
    requires evaluator { IsOver (task_of task.now) evaluator.old }
    ensures evaluator { IsOver (task_of task.now) evaluator.new }
    ensures kept { IfOk result (λ best. (own : ℕ) → AreKept (task_of task.now) own kept.choices kept.cost
        → AreKept (task_of task.now) own best.choices best.cost) }
    ensures no_dearer { IfOk result (λ best. best.cost ≤ kept.cost) }
    ensures led { IfOk result (λ best. (c : ℕ) → LeadsTo (task_of task.now) guide.now.path.items c → best.cost ≤ c) }
{
    task.net.reveal();
    let path = behind(guide.path.as_slice(), task.base.len());
    let outcome = step_along(task, evaluator, path, kept.cost)?;
    Ok(better_of(kept, outcome))
}

/// The choices that an outcome solves, and else those that are kept.
fn better_of(kept: Best, outcome: Outcome) -> Best
    ensures { IsBetterBy kept.choices kept.cost outcome result.choices result.cost }
{
    match outcome {
        Outcome::Solved(cost, choices) => Best { choices, cost },
        Outcome::Cycle => kept,
        Outcome::Pruned(_cost) => kept,
        Outcome::Branch(_cost, _choice) => kept,
    }
}

/// The plan of what workers have found of a guide's tree, by a hand that has all seats of the word. It costs no more than their
/// choices, and than each value of the word at which they may have pruned. And where the least tree with their
/// leaves keeps to the budget, each choice, cycle and bound of it stands in the plan's tree at the same path. So a bound that is
/// handed in is one of the plan.
pub fn plan_of<F: Grown<Path>>(
    task: &Task<'_>,
    entry: u32,
    own: Cost,
    guide: Guide,
    found: Found<F>,
    word: BoundWord,
) -> Result<Plan, AllocError>
    requires posed { IsPosedTask task.now }
    requires no_cycle { HasNoCycle task.now.net.now task.now.rows.now }
    requires some { 1 ≤ task.now.budget }
    requires own { IsOwnCost (task_of task.now) own }
    requires evaluator { IfSome found.evaluator (IsOver (task_of task.now)) }
    requires found { IsFound (guided_by task.now guide) own found.hand found.leaves.items found.best.choices found.best.cost }
    requires word { (found.hand.word ≡ word.id) × (found.hand.room ≡ word.seats) }
    ensures plan { IfOk result (IsTruePlan (task_of task.now)) }
    ensures entry { IfOk result (λ plan. plan.entry ≡ entry) }
    ensures cost { IfOk result (λ plan. plan.cost ≤ found.best.cost) }
    ensures pruned { found.hand.looked < nothing_looked → IfOk result (λ plan. plan.cost ≤ found.hand.looked) }
    ensures grows { IfOk result (λ plan. GrowsFrom task.now.budget found.leaves.items plan.tree) }
{
    let Found {
        owners: _owners,
        leaves,
        given_up: _given_up,
        best,
        hand,
        evaluator,
    } = found;
    let _least = word.close(hand);
    let partial = begun(task, &guide, own, &best, leaves)?;
    // The guide's choices are the best ones or dearer.
    let mut left = guide;
    left.path.clear();
    let evaluator = made(task, evaluator)?;
    finish_with(
        task,
        entry,
        partial,
        best.choices.into_vec(),
        best.cost,
        evaluator,
        &left,
    )
}

/// The tree that a search goes on from: the least one with the leaves, or one hole where that does not keep to the budget.
fn begun(
    task: &Task<'_>,
    guide: &Guide,
    own: Cost,
    best: &Best,
    leaves: Vec<Leaf>,
) -> Result<Partial, AllocError>
    requires posed { IsPosedTask task.now }
    requires no_cycle { HasNoCycle task.now.net.now task.now.rows.now }
    requires some { 1 ≤ task.now.budget }
    requires own { IsOwnCost (task_of task.now) own }
    requires closed { IsClosed (guided_by task.now guide.now) own leaves.items best.now.choices best.now.cost }
    ensures start { IfOk result (λ t. IsStart (task_of task.now) t best.now.choices) }
    ensures begins { IfOk result (BeginsFrom task.now.budget leaves.items) }
{
    task.net.reveal();
    let tree = tree_of(task, guide, own, best, leaves)?;
    if tree.as_slice().len() as u64 <= task.budget {
        return Ok(tree);
    }
    let hole = one_hole(task.alloc)?;
    Ok(hole)
}

/// The tree of the leaves that the workers have handed in.
fn tree_of(
    task: &Task<'_>,
    guide: &Guide,
    own: Cost,
    best: &Best,
    leaves: Vec<Leaf>,
) -> Result<Partial, AllocError>
    requires posed { IsPosedTask task.now }
    requires closed { IsClosed (guided_by task.now guide.now) own leaves.items best.now.choices best.now.cost }
    ensures { IfOk result (Assembles leaves.items) }
{
    task.net.reveal();
    match assemble(task.alloc, leaves) {
        Ok(tree) => Ok(tree),
        Err(AssembleFault::NotATree) => unreachable!(),
        Err(AssembleFault::OutOfMemory) => Err(AllocError),
    }
}

/// The tree of no leaves.
fn one_hole(alloc: Global) -> Result<Partial, AllocError>
    ensures tree { IfOk result (Assembles []) }
    ensures hole { IfOk result (λ t. t ≡ Hole ∷ []) }
{
    let Ok(hole) = assemble(alloc, Vec::new(alloc)) else {
        return Err(AllocError);
    };
    Ok(hole)
}
