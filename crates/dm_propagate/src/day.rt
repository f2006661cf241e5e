//! What a timetable is brought to follow.
ghost use Rattle.dm_rows.specs.Rows.{IsSized};

use dm_network::Network;
use dm_rows::Rows;

/// The rows of a day over their network.
#[derive(Clone, Copy)]
pub struct Day<'d> {
    pub net: &'d Network,
    pub rows: &'d Rows,
    ghost sized: { IsSized net.now rows.now },
}
