//! The networks of cases.

use dm_base::{ActKind, ActRow, EventKind, EventRow, Secs};
use dm_gen::{TRAINS, make};
use dm_network::Network;
use dm_samples::{Case, Failure, Sample, activity, event, network_of};
use std::alloc::{AllocError, Global};

/// The number that days are generated from.
const SEED: u64 = 7;

/// The sizes of a network, or the failure where its records make none.
pub fn told_of_network(alloc: Global, case: &Case<'_>) -> Result<String, Failure> {
    let net = network_named(alloc, case.word(1))?;
    let (events, activities, pairs) = (net.events(), net.activities(), net.pairs());
    Ok(format!(in alloc; "{events} events, {activities} activities, {pairs} pairs")?)
}

/// A small network, or one with a number behind its name: `day-N` is the generated day of N trains, `line-N` is N events of which
/// each but the first has a wait into it, and `apart-N` is a pair that has N events between its two.
pub fn network_named(alloc: Global, name: &str) -> Result<Network, Failure> {
    let (kind, number) = name.split_once("-").unwrap_or((name, "1"));
    let number = number.parse::<u32>().unwrap_or(1).min(1_000_000);
    match kind {
        "connection" => Sample::Connection.network(alloc),
        "day" => {
            let (events, activities, _lines) = make(alloc, SEED, number.max(1).min(TRAINS))?;
            network_of(alloc, events, activities)
        }
        "line" => network_of(alloc, departures(alloc, number)?, waits(alloc, number)?),
        "apart" => {
            let (events, activities) = apart(alloc, number)?;
            network_of(alloc, events, activities)
        }
        _ => Err(Failure::NoDay),
    }
}

/// So many departures, a second apart.
fn departures(alloc: Global, number: u32) -> Result<Vec<EventRow>, AllocError> {
    let mut events = Vec::new(alloc);
    for id in 0..number {
        let id = id.saturating_add(1);
        events.push(event(id, EventKind::Departure, Secs::from(id), 0, 1))?;
    }
    Ok(events)
}

/// A wait from each of so many events but the last into the one behind it.
fn waits(alloc: Global, number: u32) -> Result<Vec<ActRow>, AllocError> {
    let mut activities = Vec::new(alloc);
    for id in 1..number {
        activities.push(activity(id, ActKind::Wait, id, id.saturating_add(1), 0, 0))?;
    }
    Ok(activities)
}

/// Departures a second apart, of which the first and the last have a pair of headways, and an arrival 20 seconds after them,
/// which the last reaches in 10.
fn apart(alloc: Global, between: u32) -> Result<(Vec<EventRow>, Vec<ActRow>), AllocError> {
    let last = between.saturating_add(2);
    let end = last.saturating_add(1);
    let mut events = departures(alloc, last)?;
    let time = Secs::from(last.saturating_add(20));
    events.push(event(end, EventKind::Arrival, time, 1_000, 1))?;
    let mut activities = Vec::new(alloc);
    activities.push(activity(1, ActKind::Headway, 1, last, 120, 0))?;
    activities.push(activity(2, ActKind::Headway, last, 1, 120, 0))?;
    activities.push(activity(3, ActKind::Drive, last, end, 10, 0))?;
    Ok((events, activities))
}
