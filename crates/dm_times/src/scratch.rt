//! The least timetable of rows, from scratch.
ghost use Rattle.std.specs.Prelude.{◌≡◌, length, IfOk, IfErr, OnOk};
ghost use Rattle.dm_network.specs.Held.{HasNoCycleOf};
ghost use Rattle.dm_rows.specs.Rows.{IsSized};
ghost use Rattle.dm_rows.specs.Active.{HasNoCycle};
ghost use Rattle.dm_rows.specs.Timetable.{IsLeast, IsLeastHolding};
ghost use Rattle.dm_rows.specs.Laws.{EntersNoPassed};
ghost use Rattle.dm_times.specs.Faults.{RefusesTimes, RefusesHolding};

use crate::filling::constraints_holding;
use crate::holding::{AsRowsSay, Holding};
use dm_network::Network;
use dm_rows::Rows;
use dm_settle::{NoTimes, Times, least_times};
use std::alloc::Global;

/// The least timetable of the rows, in time that is linear in events and activities. [`NoTimes::Cycle`] comes exactly where
/// the rows have a cycle, and shows one; [`NoTimes::OutOfMemory`] where there is not enough memory.
pub fn least(alloc: Global, net: &Network, rows: &Rows) -> Result<Times, NoTimes>
    requires { IsSized net.now rows.now }
    ensures least { IfOk result (IsLeast net.now rows.now) }
    ensures no_cycle { OnOk result (HasNoCycle net.now rows.now) }
    ensures refused { IfErr result (RefusesTimes net.now rows.now) }
{
    least_holding(alloc, net, rows, &AsRowsSay { net, rows })
}

/// The least timetable of the rows holding some activities, of which none enters a passed event, in time that is linear in
/// events and activities. [`NoTimes::Cycle`] comes exactly where these have a cycle, and shows one;
/// [`NoTimes::OutOfMemory`] where there is not enough memory.
pub fn least_holding<H: Holding>(
    alloc: Global,
    net: &Network,
    rows: &Rows,
    holding: &H,
) -> Result<Times, NoTimes>
    requires sized { IsSized net.now rows.now }
    requires places { H.places holding.now ≡ length net.now.activities }
    requires enters_no_passed { EntersNoPassed net.now rows.now (H.held holding.now) }
    ensures least { IfOk result (IsLeastHolding net.now rows.now (H.held holding.now)) }
    ensures no_cycle { OnOk result (HasNoCycleOf net.now (H.held holding.now)) }
    ensures refused { IfErr result (RefusesHolding net.now (H.held holding.now)) }
{
    net.reveal();
    let constraints = constraints_holding(alloc, net, rows, holding)?;
    least_times(alloc, net, &constraints)
}
