//! Whether rows cost what is claimed.
ghost use Rattle.std.specs.Prelude.{◌≤◌};
ghost use Rattle.dm_base.specs.declared.limits.TheConstants.{PENALTY};
ghost use Rattle.dm_rows.specs.Rows.{IsSized};
ghost use Rattle.dm_rows.specs.Timetable.{IsLeast};
ghost use Rattle.dm_rows.specs.Cost.{Costs};
ghost use Rattle.dm_check_times.specs.Binding.{AreBelowLimit};
ghost use Rattle.dm_check_rows.specs.Claims.{Tells};

use dm_base::{Cost, Secs};
use dm_check_times::cost_of;
use dm_network::Network;
use dm_rows::Rows;

/// Whether rows cost this, where the times are their least timetable. It takes no memory.
pub fn is_cost_of(net: &Network, rows: &Rows, times: &[Secs], penalty: u64, cost: Cost) -> bool
    requires sized { IsSized net.now rows.now }
    requires least { IsLeast net.now rows.now times.now }
    requires early { AreBelowLimit times.now }
    requires penalty { penalty ≤ PENALTY }
    ensures { Tells (Costs net.now rows.now penalty cost) result }
{
    cost_of(net, rows, times, penalty) == cost
}
