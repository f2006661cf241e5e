//! Rows of a network with times.
ghost use Rattle.std.specs.Prelude.{◌≡◌, length};
ghost use Rattle.dm_rows.specs.Rows.{IsSized};
ghost use Rattle.dm_check_times.specs.Binding.{AreBelowLimit};

use dm_base::Secs;
use dm_network::Network;
use dm_rows::Rows;

/// Rows of a network, and times of its events, in seconds.
#[derive(Clone, Copy)]
pub struct TimedRows<'t> {
    pub net: &'t Network,
    pub rows: &'t Rows,
    pub times: &'t [Secs],
    ghost sized: { IsSized net.now rows.now },
    ghost as_many: { length times.now ≡ length net.now.events },
    ghost early: { AreBelowLimit times.now },
}
