//! The events, activities and pairs of a network, from records.
ghost use Rattle.std.specs.Prelude.{map, IfOk, IfErr};
ghost use Rattle.std.specs.List.Sorted.{IsStrictlyIncreasing};
ghost use Rattle.dm_network.specs.Inside.Stages.{AreEventsOf, RefusesEvents, AreActivitiesOf, RefusesActivities};

use crate::parts::{Activity, Event, NetFault, Pair};
use crate::records::{
    double_number, first_zero_headway, resolved, sorted_activities, sorted_events,
};
use dm_base::{ActId, ActRow, EventId, EventRow};
use std::alloc::Global;

/// The parts of a network.
#[derive(Drop)]
pub struct Formed {
    pub events: Vec<Event>,
    pub activities: Vec<Activity>,
    pub pairs: Vec<Pair>,
}

/// The events of the records, in ascending order of ids.
pub fn events_from(alloc: Global, rows: Vec<EventRow>) -> Result<Vec<Event>, NetFault>
    ensures ok { IfOk result (λ events. AreEventsOf rows.items events.items) }
    ensures err { IfErr result (RefusesEvents rows.items) }
{
    if let Some(id) = double_number(alloc, &rows)? {
        return Err(NetFault::DoubleEvent(EventId(id)));
    }
    let events = sorted_events(alloc, rows)?;
    Ok(events)
}

/// The activities of the records between these events, in ascending order of ids.
pub fn activities_from(
    alloc: Global,
    events: &[Event],
    rows: &[ActRow],
) -> Result<Vec<Activity>, NetFault>
    requires { IsStrictlyIncreasing (map (λ e. e.id.0) events.now) }
    ensures ok { IfOk result (λ activities. AreActivitiesOf events.now rows.now activities.items) }
    ensures err { IfErr result (RefusesActivities events.now rows.now) }
{
    if let Some(id) = double_number(alloc, rows)? {
        return Err(NetFault::DoubleActivity(ActId(id)));
    }
    let activities = match resolved(alloc, events, rows) {
        Ok(activities) => activities,
        Err(fault) => return Err(fault),
    };
    if let Some(id) = first_zero_headway(rows) {
        return Err(NetFault::ZeroHeadway(id));
    }
    let sorted = sorted_activities(activities)?;
    Ok(sorted)
}
