//! What parts are judged by.
ghost use Rattle.std.specs.Prelude.{◌≤◌};
ghost use Rattle.dm_base.specs.declared.limits.TheConstants.{PENALTY};
ghost use Rattle.dm_rows.specs.Rows.{IsSized};

use dm_network::Network;
use dm_rows::Rows;

/// What parts are judged by: the rows of a network, the penalty, and how many nodes a plan may have.
#[derive(Clone, Copy)]
pub struct Grounds<'g> {
    pub net: &'g Network,
    pub rows: &'g Rows,
    pub penalty: u64,
    pub budget: u64,
    ghost sized: { IsSized net.now rows.now },
    ghost limit: { penalty ≤ PENALTY },
}
