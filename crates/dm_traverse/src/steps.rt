//! One step of a search.
ghost use Rattle.std.specs.Prelude.{◌≤◌, None, IfOk};
ghost use Rattle.dm_base.specs.declared.limits.TheConstants.{PENALTY};
ghost use Rattle.dm_rows.specs.Rows.{IsSized};
ghost use Rattle.dm_rows.specs.Decide.{IsChoiceList};
ghost use Rattle.dm_tree.specs.Relaxed.{HasNoRelaxedCycle};
ghost use Rattle.dm_relax.specs.Relaxed.{IsRelaxed};
ghost use Rattle.dm_traverse.specs.Steps.{IsOutcome};

use dm_base::{Cost, Items};
use dm_network::Network;
use dm_relax::{Relaxed, complete, relax};
use dm_rows::{Choice, Decision, Rows, Snapshot};
use dm_times::NoTimes;
use std::alloc::{AllocError, Global};

/// What a search does with a path. Costs are in thousandths of passenger seconds.
#[derive(PartialEq, Eq, Drop)]
pub enum Outcome {
    /// The relaxed problem of the path has a cycle, so that no choices hold its decisions.
    Cycle,

    /// The relaxed cost, which is no less than the best.
    Pruned(Cost),

    /// The relaxed cost, which is less than the best, and what differs from the rows in the completion, which costs as much:
    /// nothing is violated.
    Solved(Cost, Items<Decision>),

    /// The relaxed cost, which is less than the best, and the first choice that is violated.
    Branch(Cost, Choice),
}

/// What a search does with a path over the rows of a snapshot, where the best choices so far cost this. The path decides free
/// choices, none twice. The penalty is in seconds for each passenger, at most 1,000,000.
pub fn step(
    alloc: Global,
    net: &Network,
    penalty: u64,
    snapshot: &Snapshot,
    path: &[Decision],
    best: Cost,
) -> Result<Outcome, AllocError>
    requires sized { IsSized net.now snapshot.now.rows }
    requires penalty { penalty ≤ PENALTY }
    requires list { IsChoiceList net.now snapshot.now.rows path.now }
    ensures { IfOk result (IsOutcome net.now snapshot.now.rows path.now penalty best) }
{
    outcome_at(alloc, net, penalty, &snapshot.rows, path, best)
}

/// What a search does with a path over some rows.
fn outcome_at(
    alloc: Global,
    net: &Network,
    penalty: u64,
    rows: &Rows,
    path: &[Decision],
    best: Cost,
) -> Result<Outcome, AllocError>
    requires sized { IsSized net.now rows.now }
    requires penalty { penalty ≤ PENALTY }
    requires list { IsChoiceList net.now rows.now path.now }
    ensures { IfOk result (IsOutcome net.now rows.now path.now penalty best) }
{
    match relax(alloc, net, penalty, rows, path) {
        Ok(relaxed) => outcome_of(alloc, net, penalty, rows, path, best, &relaxed),
        Err(NoTimes::Cycle(_)) => Ok(Outcome::Cycle),
        Err(NoTimes::OutOfMemory) => Err(AllocError),
    }
}

/// The outcome at a path whose relaxed problem is solved.
pub(crate) fn outcome_of(
    alloc: Global,
    net: &Network,
    penalty: u64,
    rows: &Rows,
    path: &[Decision],
    best: Cost,
    relaxed: &Relaxed,
) -> Result<Outcome, AllocError>
    requires sized { IsSized net.now rows.now }
    requires penalty { penalty ≤ PENALTY }
    requires list { IsChoiceList net.now rows.now path.now }
    requires relaxed { IsRelaxed net.now rows.now path.now penalty relaxed.now }
    requires no_cycle { HasNoRelaxedCycle net.now rows.now path.now }
    ensures { IfOk result (IsOutcome net.now rows.now path.now penalty best) }
{
    if best <= relaxed.cost {
        return Ok(Outcome::Pruned(relaxed.cost));
    }
    match relaxed.violated {
        Some(choice) => Ok(Outcome::Branch(relaxed.cost, choice)),
        None => {
            let choices = complete(alloc, net, rows, path, relaxed)?;
            Ok(Outcome::Solved(relaxed.cost, Items::from_vec(choices)))
        }
    }
}
