//! Parts for a plan.
ghost use Rattle.std.specs.Prelude.{◌≤◌};
ghost use Rattle.dm_base.specs.declared.limits.TheConstants.{PENALTY};
ghost use Rattle.dm_evaluate.specs.Evaluator.{IsEvaluatorOf};
ghost use Rattle.dm_task.specs.Tasks.{IsPosedTask};

use crate::growing::Growth;
use crate::jobs::Job;
use crate::standing::Standing;
use dm_base::Cost;
use dm_branch::PartTree;
use dm_evaluate::Evaluator;
use dm_network::Network;
use dm_probe::{Choices, FreeChoice, Mover, Share, Side, decision_for};
use dm_rows::Decision;
use dm_task::{Polishing, Task};
use std::alloc::{AllocError, Global};

/// Parts whose bounds tell much, and choices that are good. Nothing is promised of them.
pub struct Found {
    /// The trees of the parts that have more than one node. No term is in two shares.
    pub trees: Vec<PartTree>,

    /// The decisions of a good plan that hold its times or cost something. What they leave open, its times keep.
    pub choices: Vec<Decision>,
}

impl Drop for Found {
    fn drop(self) {
        let Found {
            trees: _,
            choices: _,
        } = self;
    }
}

/// How many legs of a train make an atom, one number after the other, where trains fall into few parts and their bound lies far
/// below the cost.
const LEGS: [usize; 2] = [6, 4];

const FEW: usize = 16;

/// A bound is near where less than the cost by this part of it.
const NEAR: Cost = 2_000;

/// The choices of a task, and movers at its root: one that looks for parts, and others with which some may be solved at the same
/// time.
pub struct Roots<'a> {
    pub choices: &'a Choices,
    pub first: Mover<'a>,
    pub others: Vec<Mover<'a>>,
}

impl Drop for Roots<'_> {
    fn drop(self) {
        let Roots {
            choices: _,
            first: _,
            others: _,
        } = self;
    }
}

impl<'a> Roots<'a> {
    fn into_movers(self) -> (Mover<'a>, Vec<Mover<'a>>) {
        let Roots {
            choices: _,
            first,
            others,
        } = self;
        (first, others)
    }
}

/// The choices that an evaluator leaves open which has decided a task's base, and nothing else.
pub fn choices_at_root(task: &Task<'_>, evaluator: &Evaluator) -> Result<Choices, AllocError>
    requires { IsEvaluatorOf task.now.net.now evaluator.now }
{
    Choices::of(task.alloc, task.net, evaluator)
}

/// Parts for a task and a plan, whose trees have as many nodes together as the task's budget allows, at most. The plan's choices
/// are those that differ from the rows, and one who polishes stands there. An evaluator has decided the task's base, and nothing
/// else. Parts are solved by having the first mover and each of the others solve some of the jobs, at once or one after the other:
/// what is found is the same.
pub fn parts_for<
    't: 'a,
    'a,
    P: Polishing,
    F: Fn(Vec<Job>, &mut Mover<'a>, &mut [Mover<'a>]) -> Result<Vec<Job>, AllocError>,
>(
    task: &Task<'t>,
    plan: &[Decision],
    roots: Roots<'a>,
    run: &F,
    evaluator: Evaluator,
    polisher: P,
) -> Result<Found, AllocError>
    requires posed { IsPosedTask task.now }
    requires run { F.IsAlwaysCallable run.now }
    requires evaluator { IsEvaluatorOf task.now.net.now evaluator }
{
    let alloc = task.alloc;
    let terms = Share::of_all(alloc, task.net, &evaluator, roots.choices)?;
    let whole = mover_at_root(alloc, task.net, task.penalty, roots.choices, evaluator)?;
    let (first, others) = roots.into_movers();
    let mut standing = Standing::new(alloc, first, others, whole);
    let mut polisher = polisher;
    go_to(&mut standing.whole, plan);
    found_at(
        &mut standing,
        &mut polisher,
        &terms,
        run,
        task.budget as usize,
    )
}

/// The trees of parts that are found, and the plan's choices when they are.
fn found_at<
    'a,
    P: Polishing,
    F: Fn(Vec<Job>, &mut Mover<'a>, &mut [Mover<'a>]) -> Result<Vec<Job>, AllocError>,
>(
    standing: &mut Standing<'a>,
    polisher: &mut P,
    terms: &Share,
    run: &F,
    budget: usize,
) -> Result<Found, AllocError>
    requires { F.IsAlwaysCallable run.now }
{
    let trees = trees_for(standing, polisher, terms, run, budget)?;
    let choices = choices_in(standing)?;
    Ok(Found { trees, choices })
}

/// A mover with the priced timetable of an evaluator that has decided a task's base, and nothing else.
pub fn mover_at_root<'a>(
    alloc: Global,
    net: &'a Network,
    penalty: u64,
    choices: &'a Choices,
    evaluator: Evaluator,
) -> Result<Mover<'a>, AllocError>
    requires penalty { penalty ≤ PENALTY }
    requires evaluator { IsEvaluatorOf net.now evaluator }
{
    Mover::new(alloc, net, penalty, choices, evaluator.into_priced())
}

/// The best parts so far.
struct Best {
    trees: Vec<PartTree>,
    bound: Cost,
}

impl Drop for Best {
    fn drop(self) {
        let Best { trees: _, bound: _ } = self;
    }
}

impl Best {
    /// Whether the plan costs hardly more than the bound.
    fn is_near(&self, cost: Cost) -> bool {
        cost.saturating_sub(self.bound).saturating_mul(NEAR) <= cost
    }

    fn into_trees(self) -> Vec<PartTree> {
        let Best { trees, bound: _ } = self;
        trees
    }

    /// How many nodes the trees have.
    fn nodes(&self) -> usize {
        let mut nodes = 0_usize;
        for tree in &self.trees {
            nodes = nodes.saturating_add(tree.nodes.len());
        }
        nodes
    }

    /// Divides the terms anew, and takes the parts if their bound is greater.
    fn try_parts<
        'a,
        P: Polishing,
        F: Fn(Vec<Job>, &mut Mover<'a>, &mut [Mover<'a>]) -> Result<Vec<Job>, AllocError>,
    >(
        &mut self,
        standing: &mut Standing<'a>,
        polisher: &mut P,
        terms: &Share,
        run: &F,
        legs: Option<usize>,
        budget: usize,
    ) -> Result<(), AllocError>
        requires { F.IsAlwaysCallable run.now }
    {
        standing.divide(terms, legs)?;
        grow(standing, polisher, run, budget)?;
        let bound = standing.bound();
        if bound > self.bound {
            self.trees = trees_in(standing)?;
            self.bound = bound;
        }
        Ok(())
    }
}

/// The trees of those parts of which the bound is greatest.
fn trees_for<
    'a,
    P: Polishing,
    F: Fn(Vec<Job>, &mut Mover<'a>, &mut [Mover<'a>]) -> Result<Vec<Job>, AllocError>,
>(
    standing: &mut Standing<'a>,
    polisher: &mut P,
    terms: &Share,
    run: &F,
    budget: usize,
) -> Result<Vec<PartTree>, AllocError>
    requires { F.IsAlwaysCallable run.now }
{
    let mut best = Best {
        trees: Vec::new(standing.alloc),
        bound: 0,
    };
    let begun = standing.whole.cost();
    best.try_parts(standing, polisher, terms, run, None, budget)?;
    let are_few = best.trees.len() <= FEW;
    for legs in LEGS {
        if are_few && !best.is_near(standing.cost) {
            best.try_parts(standing, polisher, terms, run, Some(legs), budget)?;
        }
    }
    // The plan may be better than that of which trains were divided at first.
    let has_room = are_few || best.nodes() <= budget / 4 * 3;
    if has_room && standing.cost < begun && best.bound < standing.cost {
        best.try_parts(standing, polisher, terms, run, None, budget)?;
    }
    Ok(best.into_trees())
}

/// Solves the parts, and has them grow into each other.
fn grow<
    'a,
    P: Polishing,
    F: Fn(Vec<Job>, &mut Mover<'a>, &mut [Mover<'a>]) -> Result<Vec<Job>, AllocError>,
>(standing: &mut Standing<'a>, polisher: &mut P, run: &F, budget: usize) -> Result<(), AllocError>
    requires { F.IsAlwaysCallable run.now }
{
    let mut growth = Growth::new(standing, budget);
    growth.solve_all(standing, run)?;
    growth.grow_all(standing, polisher)?;
    growth.widen_all(standing)?;
    growth.finish(standing)
}

/// Decides each choice as the plan does, or else as the rows have it.
fn go_to(whole: &mut Mover<'_>, plan: &[Decision]) {
    let choices = whole.choices();
    let mut next = 0_usize;
    for number in 0..choices.len() {
        if let Some(free) = choices.get(number) {
            let planned = planned_side(&free, plan.get(next).copied());
            if planned.is_some() {
                next = next.saturating_add(1);
            }
            let _decided = whole.decide(number, planned.unwrap_or(free.own));
        }
    }
}

/// The side on which a decision has a choice, if it decides this one.
pub fn planned_side(free: &FreeChoice, decision: Option<Decision>) -> Option<Side> {
    match decision {
        Some(decision) if decision.choice().is_same(free.choice) => {
            if decision.is_first() {
                Some(Side::First)
            } else {
                Some(Side::Second)
            }
        }
        _ => None,
    }
}

fn trees_in(standing: &mut Standing<'_>) -> Result<Vec<PartTree>, AllocError> {
    let mut trees = Vec::new(standing.alloc);
    for group in 0..standing.groups.list.len() {
        if let Some(mut part) = standing.groups.take(group) {
            if let Some(tree) = part.tell(&mut standing.relaxed)? {
                trees.push(tree)?;
            }
        }
    }
    Ok(trees)
}

/// The decisions that bind where the whole stands.
fn choices_in(standing: &mut Standing<'_>) -> Result<Vec<Decision>, AllocError> {
    standing.whole.settle();
    let choices = standing.whole.choices();
    let mut decisions = Vec::new(standing.alloc);
    for number in 0..choices.len() {
        if let (Some(free), Some(side)) = (choices.get(number), standing.whole.side(number)) {
            if standing.whole.is_binding(number) {
                decisions.push(decision_for(free.choice, side))?;
            }
        }
    }
    Ok(decisions)
}
