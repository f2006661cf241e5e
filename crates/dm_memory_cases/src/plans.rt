//! A plan and a rule.
ghost use Rattle.std.specs.Prelude.{IfOk, OnOk};
ghost use Rattle.dm_rows.specs.Rows.{IsSized};
ghost use Rattle.dm_rows.specs.Active.{HasNoCycle};
ghost use Rattle.dm_rows.specs.Timetable.{IsLeast};

use crate::case::{Case, PENALTY, is_due};
use dm_network::Network;
use dm_rows::{Rows, Snapshot};
use dm_samples::Failure;
use dm_search::plan;
use dm_settle::{NoTimes, Times};
use dm_times::least;
use dm_waitrule::{WaitRule, wait_choices};
use std::alloc::Global;

/// More nodes than the choices of the connection can have.
pub const NODES: u64 = 100;

/// The least timetable of the rows.
pub fn times_of(alloc: Global, net: &Network, rows: &Rows) -> Result<Times, Failure>
    requires { IsSized net.now rows.now }
    ensures least { IfOk result (IsLeast net.now rows.now) }
    ensures no_cycle { OnOk result (HasNoCycle net.now rows.now) }
{
    match least(alloc, net, rows) {
        Ok(times) => Ok(times),
        Err(NoTimes::OutOfMemory) => Err(Failure::OutOfMemory),
        Err(NoTimes::Cycle(_)) => Err(Failure::NoDay),
    }
}

/// The plan of the rows drops the change and lets the second train go first.
pub struct MakesPlan;

impl Case for MakesPlan {
    fn come_out(alloc: Global, net: &Network, day: &Snapshot) -> Result<(), Failure> {
        let _times = times_of(alloc, net, &day.rows)?;
        let plan = plan(alloc, net, PENALTY, day, NODES)?;
        is_due(plan.cost == 940_000 && plan.bound == 940_000, 0)
    }
}

/// Where no train waits, the change is dropped.
pub struct ComparesRule;

impl Case for ComparesRule {
    fn come_out(alloc: Global, net: &Network, day: &Snapshot) -> Result<(), Failure> {
        let _times = times_of(alloc, net, &day.rows)?;
        let choices = wait_choices(alloc, net, &day.rows, WaitRule::Never)?;
        is_due(choices.len() == 1, 0)
    }
}
