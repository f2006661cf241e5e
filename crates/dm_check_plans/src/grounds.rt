//! What the nodes of a plan are judged by.
ghost use Rattle.std.specs.Prelude.{◌≤◌};
ghost use Rattle.dm_base.specs.declared.limits.TheConstants.{PENALTY};
ghost use Rattle.dm_rows.specs.Rows.{IsSized};

use dm_base::Cost;
use dm_network::Network;
use dm_rows::Rows;

/// What the nodes of a plan are judged by besides their paths: the rows of a network and the penalty, what the rows themselves
/// cost, or None where they have a cycle, and what the plan costs.
#[derive(Clone, Copy)]
pub struct Grounds<'g> {
    pub net: &'g Network,
    pub rows: &'g Rows,
    pub penalty: u64,
    pub own: Option<Cost>,
    pub plan: Cost,
    ghost sized: { IsSized net.now rows.now },
    ghost limit: { penalty ≤ PENALTY },
}
