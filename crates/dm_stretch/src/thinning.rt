//! Plans without the choices that are worth little.
ghost use Rattle.std.specs.Prelude.{◌≡◌, ◌+◌, ◌<◌, ◌≤◌, ◌↔◌, length, IsTrue, IfOk, IfSome, MatchOption};
ghost use Rattle.std.specs.List.{remove};
ghost use Rattle.dm_base.specs.declared.limits.TheConstants.{PENALTY};
ghost use Rattle.dm_rows.specs.Rows.{IsSized};
ghost use Rattle.dm_rows.specs.Decide.{IsChoiceList};
ghost use Rattle.dm_stretch.specs.Minimal.{IsMinimal, IsPlanOver};
ghost use Rattle.dm_stretch.specs.Inside.Thinning.{AreJudged, ExceedEach, FindsNext, IsJudged, IsNearAt, with_worths, worth_of};

use dm_base::{Cost, Items};
use dm_network::Network;
use dm_paths::with_decisions;
use dm_rows::{Decision, Rows};
use dm_times::{NoTimes, cost, least};
use std::alloc::{AllocError, Global};

/// What a choice is worth beside others.
#[derive(Clone, Copy)]
pub enum Worth {
    /// The others alone make a cycle.
    Needed,

    /// The others alone cost so much more, in thousandths of passenger seconds.
    Saves(Cost),
}

/// A choice of a plan that is kept.
#[derive(Clone, Copy)]
pub struct KeptChoice {
    pub decision: Decision,
    pub worth: Worth,
}

/// Those of a plan's choices that are kept where others are given back.
pub struct Minimal {
    /// In the plan's order.
    pub choices: Items<KeptChoice>,

    /// What the rows cost with these, in thousandths of passenger seconds.
    pub cost: Cost,
}

impl Drop for Minimal {
    fn drop(self) {
        let Minimal {
            choices: _,
            cost: _,
        } = self;
    }
}

/// The choices of a plan, which cost so much, without those that are worth little: while some choice can be left out so that the
/// others have no cycle and cost at most `most` more than the plan, the one that costs least to leave out is given back. Each choice
/// that is kept comes with what it is worth beside the others. The penalty is in seconds for each passenger, at most 1,000,000. Err is
/// want of memory alone.
pub fn thin(
    alloc: Global,
    net: &Network,
    penalty: u64,
    rows: &Rows,
    planned: &[Decision],
    spent: Cost,
    most: u64,
) -> Result<Minimal, AllocError>
    requires sized { IsSized net.now rows.now }
    requires penalty { penalty ≤ PENALTY }
    requires plan { IsPlanOver net.now rows.now penalty planned.now spent }
    ensures { IfOk result (IsMinimal net.now rows.now penalty planned.now spent most) }
{
    let mut kept = Vec::from_slice(alloc, planned)?;
    let mut cost = spent;
    let mut costs = judge_each(alloc, net, penalty, rows, kept.as_slice())?;
    while let Some((place, left)) = cheapest(costs.as_slice(), spent, most) {
        kept.remove(place);
        cost = left;
        costs = judge_each(alloc, net, penalty, rows, kept.as_slice())?;
    }
    let choices = worths(alloc, kept.as_slice(), cost, costs.as_slice())?;
    Ok(Minimal {
        choices: Items::from_vec(choices),
        cost,
    })
}

/// What the rows cost without each of some decisions in turn, or that the others make a cycle.
fn judge_each(
    alloc: Global,
    net: &Network,
    penalty: u64,
    rows: &Rows,
    decisions: &[Decision],
) -> Result<Vec<Option<Cost>>, AllocError>
    requires sized { IsSized net.now rows.now }
    requires penalty { penalty ≤ PENALTY }
    requires list { IsChoiceList net.now rows.now decisions.now }
    ensures { IfOk result (λ costs. AreJudged net.now rows.now penalty decisions.now (length decisions.now) costs.items) }
{
    let mut costs = Vec::new(alloc);
    for place in 0..decisions.len() {
        costs.push(cost_without(alloc, net, penalty, rows, decisions, place)?)?;
    }
    Ok(costs)
}

/// What the rows cost without the decision at a place, or that the others make a cycle.
fn cost_without(
    alloc: Global,
    net: &Network,
    penalty: u64,
    rows: &Rows,
    decisions: &[Decision],
    place: usize,
) -> Result<Option<Cost>, AllocError>
    requires sized { IsSized net.now rows.now }
    requires penalty { penalty ≤ PENALTY }
    requires list { IsChoiceList net.now rows.now decisions.now }
    requires place { place < length decisions.now }
    ensures { IfOk result (IsJudged net.now rows.now penalty (remove decisions.now place)) }
{
    let mut others = Vec::from_slice(alloc, decisions)?;
    others.remove(place);
    cost_with(alloc, net, penalty, rows, others.as_slice())
}

/// What the rows cost with some decisions, or that these make a cycle.
fn cost_with(
    alloc: Global,
    net: &Network,
    penalty: u64,
    rows: &Rows,
    decisions: &[Decision],
) -> Result<Option<Cost>, AllocError>
    requires sized { IsSized net.now rows.now }
    requires penalty { penalty ≤ PENALTY }
    requires list { IsChoiceList net.now rows.now decisions.now }
    ensures { IfOk result (IsJudged net.now rows.now penalty decisions.now) }
{
    let set = with_decisions(net, rows, decisions)?;
    match least(alloc, net, &set) {
        Ok(times) => Ok(Some(cost(net, &set, &times, penalty))),
        Err(NoTimes::Cycle(_)) => Ok(None),
        Err(NoTimes::OutOfMemory) => Err(AllocError),
    }
}

/// Whether a cost is at most so much more than a plan's.
fn is_near(cost: Cost, planned: Cost, most: u64) -> bool
    ensures { IsTrue result ↔ cost ≤ planned + most }
{
    cost <= planned || cost - planned <= most as u128
}

/// The place of the least cost that is at most so much more than a plan's, and that cost.
fn cheapest(costs: &[Option<Cost>], planned: Cost, most: u64) -> Option<(usize, Cost)>
    ensures { MatchOption result (ExceedEach (planned + most) costs.now) (λ found. IsNearAt (planned + most) costs.now found.0 found.1) }
{
    let mut found: Option<(usize, Cost)> = None;
    for (place, cost) in costs.iter().enumerate() {
        let Some(cost) = *cost else {
            continue;
        };
        found = cheaper(found, place, cost, planned, most);
    }
    found
}

/// What is found so far, or the cost at a place where it is less and at most so much more than a plan's.
fn cheaper(
    found: Option<(usize, Cost)>,
    place: usize,
    cost: Cost,
    planned: Cost,
    most: u64,
) -> Option<(usize, Cost)>
    ensures { FindsNext (planned + most) found place cost result }
{
    if !is_near(cost, planned, most) {
        return found;
    }
    match found {
        Some((_, least)) if least <= cost => found,
        _ => Some((place, cost)),
    }
}

/// The decisions, with what each is worth beside the others.
fn worths(
    alloc: Global,
    decisions: &[Decision],
    cost: Cost,
    costs: &[Option<Cost>],
) -> Result<Vec<KeptChoice>, AllocError>
    requires sizes { length costs.now ≡ length decisions.now }
    requires above { ExceedEach cost costs.now }
    ensures { IfOk result (λ kept. kept.items ≡ with_worths cost decisions.now costs.now) }
{
    let mut kept = Vec::new(alloc);
    for (place, decision) in decisions.iter().enumerate() {
        kept.push(KeptChoice {
            decision: *decision,
            worth: worth_of(cost, costs[place]),
        })?;
    }
    Ok(kept)
}

/// What a decision is worth in a list that costs this, where the others cost so much or make a cycle.
fn worth_of(cost: Cost, others: Option<Cost>) -> Worth
    requires { IfSome others (λ c. cost ≤ c) }
    ensures { result ≡ worth_of cost others }
{
    match others {
        Some(others) => Worth::Saves(others - cost),
        None => Worth::Needed,
    }
}
