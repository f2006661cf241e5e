//! Networks of records.
ghost use Rattle.std.specs.Prelude.{IsTrue, IfOk};
ghost use Rattle.dm_rows.specs.Rows.{IsSized};
ghost use Rattle.dm_samples.specs.Records.{AreSmallEvents, AreSmallActivities};

use crate::failure::Failure;
use dm_base::limits::{BOUND, TIME, WEIGHT};
use dm_base::{ActId, ActKind, ActRow, EventId, EventKind, EventRow, Secs, StopId};
use dm_network::{NetFault, Network};
use dm_rows::{Rows, start_rows};
use std::alloc::Global;

/// The record of an event, with ids as numbers.
pub fn event(id: u32, kind: EventKind, time: Secs, weight: u64, stop: u32) -> EventRow {
    EventRow {
        id: EventId(id),
        kind,
        time,
        weight,
        stop: StopId(stop),
    }
}

/// The record of an activity, with ids as numbers.
pub fn activity(id: u32, kind: ActKind, tail: u32, head: u32, lower: Secs, weight: u64) -> ActRow {
    ActRow {
        id: ActId(id),
        kind,
        tail: EventId(tail),
        head: EventId(head),
        lower,
        weight,
    }
}

/// The network of these records. [`Failure::NoDay`] comes where they make none.
pub fn network_of(
    alloc: Global,
    events: Vec<EventRow>,
    activities: Vec<ActRow>,
) -> Result<Network, Failure> {
    if !small_events(&events) || !small_activities(&activities) {
        return Err(Failure::NoDay);
    }
    match Network::build(alloc, events, activities) {
        Ok(net) => Ok(net),
        Err(NetFault::OutOfMemory) => Err(Failure::OutOfMemory),
        Err(_) => Err(Failure::NoDay),
    }
}

/// The rows of a day without a delay.
pub fn rows_on_time(alloc: Global, net: &Network) -> Result<Rows, Failure>
    ensures { IfOk result (IsSized net.now) }
{
    match start_rows(alloc, net, &[], &[]) {
        Ok(rows) => Ok(rows),
        Err(_) => Err(Failure::OutOfMemory),
    }
}

fn small_events(rows: &[EventRow]) -> bool
    ensures { IsTrue result → AreSmallEvents rows.now }
{
    rows.iter()
        .all(|row| row.time <= TIME && row.weight <= WEIGHT)
}

fn small_activities(rows: &[ActRow]) -> bool
    ensures { IsTrue result → AreSmallActivities rows.now }
{
    rows.iter()
        .all(|row| row.lower <= BOUND && row.weight <= WEIGHT)
}
