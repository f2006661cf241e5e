//! What feeds ask to be searched for.

ghost use Rattle.std.specs.Prelude.{◌≡◌};
ghost use Rattle.dm_desk.specs.Planning.{budget_of};

use dm_network::Network;
use dm_rows::Snapshot;

/// What is to be searched for, with at most so many nodes.
#[derive(Clone, Copy)]
pub enum Search {
    /// A plan.
    Plan(u64),

    /// A plan by parts.
    Solve(u64),
}

impl Search {
    /// At most how many nodes it may take.
    pub fn budget(self) -> u64
        ensures { result ≡ budget_of self }
    {
        match self {
            Search::Plan(budget) | Search::Solve(budget) => budget,
        }
    }
}

/// A plan that is asked for: of the rows of a snapshot, at a penalty in seconds for each passenger, by so many workers.
#[derive(Drop)]
pub struct PlanRequest<'a> {
    pub net: &'a Network,
    pub penalty: u64,
    pub snapshot: &'a Snapshot,
    pub asked: Search,
    pub workers: u32,
}
