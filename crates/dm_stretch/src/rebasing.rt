//! Plans carried over to newer rows.
ghost use Rattle.std.specs.Prelude.{◌≡◌, ◌≤◌, ◌↔◌, IsTrue, Contains, IfOk, IfErr, IfSome, IfNone};
ghost use Rattle.dm_base.specs.declared.limits.TheConstants.{PENALTY};
ghost use Rattle.dm_rows.specs.Rows.{IsSized};
ghost use Rattle.dm_rows.specs.Decide.{IsChoiceList, free_choices_of, is_free_change, is_free_pair};
ghost use Rattle.dm_relax.specs.Complete.{differences_from};
ghost use Rattle.dm_paths.specs.Places.{IsWithin, at_place};
ghost use Rattle.dm_stretch.specs.Rebasing.{DecideOnce, IsFirstNotFree, IsRebased, RefusesRebase};
ghost use Rattle.dm_stretch.specs.Inside.Carrying.{AreFree, CostsCarried, RefusesCarried};

use dm_base::{ActId, Cost, Items};
use dm_network::Network;
use dm_paths::{ChoicePlace, differs_from, place_of_choice, with_decisions};
use dm_rows::{Choice, Decision, Rows, Snapshot, is_free_change, is_free_pair};
use dm_times::{NoTimes, cost, least};
use std::alloc::{AllocError, Global};

/// A plan's choices over newer rows.
#[derive(Drop)]
pub struct Rebased {
    /// How many entries the history has whose rows the choices are for.
    pub entry: u32,

    /// The plan's choices that differ from these rows, in the plan's order.
    pub choices: Items<Decision>,

    /// What these rows cost with the choices set, in thousandths of passenger seconds.
    pub cost: Cost,
}

/// Why a plan is not carried over.
#[derive(Drop)]
pub enum RebaseFault {
    /// The first choice of the plan that is no free choice of the newer rows.
    NotFree(Decision),

    /// The ids of activities that form a cycle in the newer rows with the plan's choices that differ, each head the next tail.
    Cycle(Items<ActId>),

    /// There is not enough memory.
    OutOfMemory,
}

/// A plan's choices over the rows of a newer snapshot, where all of them are free there and make no cycle. The plan decides no
/// choice twice. The penalty is in seconds for each passenger, at most 1,000,000.
pub fn rebase(
    alloc: Global,
    net: &Network,
    penalty: u64,
    newer: &Snapshot,
    choices: &[Decision],
) -> Result<Rebased, RebaseFault>
    requires sized { IsSized net.now newer.now.rows }
    requires penalty { penalty ≤ PENALTY }
    requires once { DecideOnce choices.now }
    ensures rebased { IfOk result (IsRebased net.now newer.now penalty choices.now) }
    ensures refused { IfErr result (RefusesRebase net.now newer.now.rows choices.now) }
{
    match first_not_free(net, &newer.rows, choices) {
        Some(decision) => Err(RebaseFault::NotFree(decision)),
        None => rebase_free(alloc, net, penalty, newer, choices),
    }
}

/// Decisions of free choices over the rows of a snapshot.
fn rebase_free(
    alloc: Global,
    net: &Network,
    penalty: u64,
    newer: &Snapshot,
    choices: &[Decision],
) -> Result<Rebased, RebaseFault>
    requires sized { IsSized net.now newer.now.rows }
    requires penalty { penalty ≤ PENALTY }
    requires once { DecideOnce choices.now }
    requires free { AreFree net.now newer.now.rows choices.now }
    ensures rebased { IfOk result (IsRebased net.now newer.now penalty choices.now) }
    ensures refused { IfErr result (RefusesRebase net.now newer.now.rows choices.now) }
{
    let Ok(kept) = differing(alloc, net, &newer.rows, choices) else {
        return Err(RebaseFault::OutOfMemory);
    };
    match cost_carried(alloc, net, penalty, &newer.rows, &kept) {
        Ok(cost) => Ok(Rebased {
            entry: newer.entry,
            choices: Items::from_vec(kept),
            cost,
        }),
        Err(fault) => Err(fault),
    }
}

/// The first of these decisions whose choice is not free.
fn first_not_free(net: &Network, rows: &Rows, decisions: &[Decision]) -> Option<Decision>
    requires { IsSized net.now rows.now }
    ensures some { IfSome result (IsFirstNotFree net.now rows.now decisions.now) }
    ensures none { IfNone result (AreFree net.now rows.now decisions.now) }
{
    for decision in decisions {
        if !is_free(net, rows, decision.choice()) {
            return Some(*decision);
        }
    }
    None
}

fn is_free(net: &Network, rows: &Rows, choice: Choice) -> bool
    requires { IsSized net.now rows.now }
    ensures { IsTrue result ↔ Contains (free_choices_of net.now rows.now) choice }
{
    net.reveal();
    match place_of_choice(net, choice) {
        Some(place) => is_free_at(net, rows, place),
        None => false,
    }
}

fn is_free_at(net: &Network, rows: &Rows, place: ChoicePlace) -> bool
    requires sized { IsSized net.now rows.now }
    requires within { IsWithin net.now place }
    ensures { result ≡ at_place (is_free_change net.now rows.now) (is_free_pair net.now rows.now) place }
{
    match place {
        ChoicePlace::Change(a) => is_free_change(net, rows, a),
        ChoicePlace::Pair(p) => is_free_pair(net, rows, p),
    }
}

/// Those of these decisions of free choices that differ from the rows, in their order.
fn differing(
    alloc: Global,
    net: &Network,
    rows: &Rows,
    decisions: &[Decision],
) -> Result<Vec<Decision>, AllocError>
    requires sized { IsSized net.now rows.now }
    requires free { AreFree net.now rows.now decisions.now }
    ensures { IfOk result (λ ds. ds.items ≡ differences_from net.now rows.now decisions.now) }
{
    let mut kept = Vec::new(alloc);
    for decision in decisions {
        if differs_from(net, rows, *decision) {
            kept.push(*decision)?;
        }
    }
    Ok(kept)
}

/// What the rows cost with decisions of free choices, or a cycle that they make.
fn cost_carried(
    alloc: Global,
    net: &Network,
    penalty: u64,
    rows: &Rows,
    decisions: &[Decision],
) -> Result<Cost, RebaseFault>
    requires sized { IsSized net.now rows.now }
    requires penalty { penalty ≤ PENALTY }
    requires list { IsChoiceList net.now rows.now decisions.now }
    ensures carried { IfOk result (CostsCarried net.now rows.now penalty decisions.now) }
    ensures refused { IfErr result (RefusesCarried net.now rows.now decisions.now) }
{
    let Ok(set) = with_decisions(net, rows, decisions) else {
        return Err(RebaseFault::OutOfMemory);
    };
    match least(alloc, net, &set) {
        Ok(times) => Ok(cost(net, &set, &times, penalty)),
        Err(NoTimes::Cycle(ids)) => Err(RebaseFault::Cycle(ids)),
        Err(NoTimes::OutOfMemory) => Err(RebaseFault::OutOfMemory),
    }
}
